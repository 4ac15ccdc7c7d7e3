//! What a commit and a view that is made bring to the parts that are kept: the tasks of a commit, and what it may not
//! exceed; the rows of a view by its definition, over given rows or over the state at a commit.
#![tactic(auto)]

mod by_definition;
mod limits;
mod tasks;
mod views;

pub use by_definition::rows_by_definition;
pub use limits::{check_entries, first_full};
pub use tasks::add_tasks;
pub use views::{made_view, parts_at};
