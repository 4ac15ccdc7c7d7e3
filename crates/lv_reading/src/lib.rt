//! Exact readers of bytes: what is read was written, and what was written is read again.
#![tactic(auto)]

mod cursor;
mod laws;
mod numbers;
mod part;
mod stop;

pub use cursor::Cursor;
pub use laws::{decimals_both_ways, signed_decimals_both_ways};
pub use part::{Part, Repeated, read_many, read_separated, read_times, read_until};
pub use stop::Stop;
