//! Versions of the rows of a view, which change by signed rows.
#![tactic(auto)]

mod beginning;
mod changing;
mod in_place;
mod laws;
mod numbers;
mod reading;
mod searching;
mod seek;
mod version;
mod versions;
mod viewrows;

pub use laws::groups_with_changes_are_regrouped;
pub use seek::Seek;
pub use version::GroupVersion;
pub use viewrows::ViewRows;
