//! The net change that entries of commits make of a table.
#![tactic(auto)]

mod collecting;
mod condensing;
mod net_rows;
mod touch;

pub use condensing::{condense, condense_actions, condense_in_place};
pub use net_rows::NetRows;
