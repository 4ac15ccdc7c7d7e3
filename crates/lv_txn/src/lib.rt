//! The live transactions: what each one reads, what it wrote, and whether another one came first.
#![tactic(auto)]

mod conflicts;
mod laws;
mod places;
mod transaction;
mod txns;
mod writing;

pub use laws::written_rows_stand_under_their_keys;
pub use txns::Txns;
