//! The journal: records behind gates of one byte, each on the disk before its gate is opened.
#![tactic(auto)]

mod buffer;
mod fault;
mod found;
mod journal;
mod passing;
mod reader;
mod scan;
mod writer;

pub use buffer::Buffer;
pub use fault::{Attach, JFault};
pub use journal::Journal;
pub use reader::JournalReader;
pub use scan::Scan;
pub use writer::Writer;
