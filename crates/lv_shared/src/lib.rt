//! Runs actors in threads over one machine, which lies behind a lock.
#![tactic(auto)]

mod driving;
mod kept;
mod machine;

pub use driving::{Driven, drive};
pub use machine::{Machine, Taken};
