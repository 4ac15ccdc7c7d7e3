//! The pending tasks of views, and the planned step over them.
#![tactic(auto)]

mod queue;
mod task;
mod tasks;

pub use task::Task;
pub use tasks::Tasks;
