//! The reach of a change: which rows can join a changed row, and that no other row matters for the difference of a view.
#![tactic(auto)]

mod asked;
mod changed;
mod far;
mod found;
mod latest;
mod laws;
mod link;
mod near;
mod questions;
mod rows;
mod source;
mod walk;

pub use asked::{columns_to, values_of};
pub use far::{Flags, is_far, is_reached};
pub use laws::{
    a_smaller_change_costs_no_more, kept_tuples_agree_in_links, links_are_between_aliases,
    near_rows_are_the_least, one_alias_that_changes_needs_no_rows_of_its_own,
    rows_that_join_a_changed_row_are_near, smaller_changes_add_up, the_cost_is_one_number,
    the_reach_gives_the_difference, tuples_without_a_change_stay,
};
pub use link::{Link, Links, links};
pub use near::NearRows;
pub use rows::{AliasRow, AliasRows, agree, are_linked};
pub use source::OldRows;
pub use walk::{Reach, reach_of};
