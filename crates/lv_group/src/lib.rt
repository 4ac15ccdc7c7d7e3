//! Groups of tuples, with their counts and sums.
#![tactic(auto)]

mod applying;
mod entry;
mod gathering;
mod grouped;
mod laws;
mod listing;
mod places;

pub use gathering::fold;
pub use grouped::Groups;
pub use laws::{groups_after_a_difference, rows_of_groups_are_the_view_s};
pub use listing::{list_into, listed_row};
