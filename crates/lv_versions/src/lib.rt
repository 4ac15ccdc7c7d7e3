//! A table's row versions: what it holds after each commit, read by key, by columns or whole.
#![tactic(auto)]

mod changing;
mod crowding;
mod dropping;
mod indexes;
mod rank;
mod seen;
mod version;
mod versions;

pub use versions::Versions;
