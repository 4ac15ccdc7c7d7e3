//! Opening: the engine that the records of a disk's journal make.
#![tactic(auto)]

mod laws;
mod making;
mod opening;
mod reading;
mod refusal;

pub use laws::bytes_open_one_way;
pub use opening::reopen;
pub use refusal::Reopen;
