//! Upkeep of views: to which commit each is maintained, its pending tasks, and what workers have claimed.
#![tactic(auto)]

mod laws;
mod maintained;
mod planning;
mod upkeep;

pub use laws::steps_are_told_from_what_is_kept;
pub use upkeep::Upkeep;
