//! What a step of a view is computed from, read from the committed states: the rows that can join a changed row, and no
//! more.
#![tactic(auto)]

mod changes;
mod differing;
mod entries;
mod input;
mod one_table;
mod ordering;
mod orders;
mod pairs;
mod partners;
mod picking;
mod source;
mod stepping;

pub use input::{step_difference, step_input};
pub use orders::index_links;
