//! A transaction's own rows, by table and key, over the rows that it reads.
#![tactic(auto)]

mod laws;
mod merging;
mod overlay;
mod put;
mod writes;

pub use laws::writes_give_own_rows;
pub use overlay::Overlay;
pub use put::Put;
