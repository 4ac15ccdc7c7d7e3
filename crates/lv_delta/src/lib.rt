//! The delta tables: the actions of the commits, by commit and in their order.
#![tactic(auto)]

mod deltas;
mod searching;

pub use deltas::Deltas;
