//! Lists of numbers in which one comes or goes anywhere without a move of all behind it.
#![tactic(auto)]

mod block;
mod blocks;
mod few;
mod held;
mod numbers;
mod passing;
mod places;

pub use places::Places;
