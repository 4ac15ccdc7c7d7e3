//! Policies: which of the views with pending tasks a worker takes.
#![tactic(auto)]

mod picker;
mod places;

pub use picker::{Choice, Picker};
pub use places::{place_of_first, place_of_most, place_of_oldest};
