//! The words of the command line: which are accepted, what they set, and the disk that they name.
#![tactic(auto)]

mod command;
mod opening;
mod values;
mod words;

pub use words::{Words, WordsFault, read_words};
