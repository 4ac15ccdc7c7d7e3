//! Answers of queries over given rows.
#![tactic(auto)]

mod alone;
mod answers;

pub use answers::answer;
