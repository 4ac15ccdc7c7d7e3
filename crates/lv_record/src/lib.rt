//! The records of the journal: how long they are, and their bytes both ways.
#![tactic(auto)]

mod actions;
mod conds;
mod keywords;
mod laws;
mod names;
mod records;
mod sizes;
mod tables;
mod values;
mod views;
mod whole;

pub use laws::{kept_records_are_spelled, records_are_spelled_one_way};
pub use sizes::size;
pub use whole::{decode, encode};
