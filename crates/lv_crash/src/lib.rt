//! What a crash may leave of the records that a run asks the disk to keep.
#![tactic(auto)]

mod laws;

pub use laws::{attempts_show_what_is_kept, what_a_crash_leaves_applies};
