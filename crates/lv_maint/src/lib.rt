//! Maintenance steps: the difference of a view, from one signed term for each alias.
#![tactic(auto)]

mod alone;
mod entries;
mod input;
mod outcome;
mod pairs;
mod sides;
mod summing;

pub use alone::row_difference;
pub use input::JobInput;
pub use outcome::{JobResult, compute};
pub use pairs::PairSums;
pub use summing::difference;
