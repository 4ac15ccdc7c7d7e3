//! The committed states: the row versions of each table and the entries of the commits, together.
#![tactic(auto)]

mod base;
mod cleaning;
mod laws;
mod preparing;
mod ready;
mod table;
mod tables;

pub use base::Base;
pub use cleaning::Kept;
pub use laws::{bases_that_stand_can_commit, indexes_are_not_kept};
pub use ready::Ready;
