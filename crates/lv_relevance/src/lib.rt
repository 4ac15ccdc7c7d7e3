//! Changes that a view cannot tell, since the columns that it uses stay as they were.
#![tactic(auto)]

mod laws;
mod only;
mod same;
mod telling;
mod used;

pub use laws::{
    changes_that_are_not_told_make_no_difference, old_rows_do_not_decide_what_is_told,
    parts_are_told_alias_by_alias, rows_with_the_same_used_values_make_the_same_tuples,
    told_parts_have_no_other_changes, updates_of_other_columns_are_not_told,
};
pub use only::uses_only;
pub use same::is_same_at;
pub use telling::told;
