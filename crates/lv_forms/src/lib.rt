//! Forms of lines and records: each says what is written for a value and how it is read.
#![tactic(auto)]

mod a_form;
mod choice;
mod counts;
mod letters;
mod lists;
mod numbers;
mod numbers_binary;
mod numbers_signed;
mod sequence;
mod whole;

pub use a_form::Form;
pub use choice::which;
pub use counts::{Count8, Count16, Count32, UpTo};
pub use letters::Letters;
pub use lists::{Counted, Joined, Listed, Repeated, Test, print_all};
pub use numbers::{Count, Small, Wide};
pub use numbers_binary::{Binary8, Binary32, Binary64, Binary128};
pub use numbers_signed::{Signed64, Signed128};
pub use sequence::{After, Both, Ended, Optional, Pair, Words, print_after};
pub use whole::{print_whole, read_whole};
