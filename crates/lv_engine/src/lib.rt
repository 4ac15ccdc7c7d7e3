//! The running store over a disk: each commit, table, view and mark is in the journal before it is done.
#![tactic(auto)]

mod alone;
mod committing;
mod creating;
mod engine;
mod fault;
mod laws;
mod marking;
mod writing;

pub use engine::Engine;
pub use fault::{AloneFault, CommitFault, CreateFault};
pub use laws::fresh_engines_stand_for_one_world;
