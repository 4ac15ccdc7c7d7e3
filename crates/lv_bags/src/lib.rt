//! Signed rows: the columns that they are made of, turned round, and added up.
#![tactic(auto)]

mod adding;
mod columns;
mod negating;
mod netting;

pub use adding::{is_entry, place_of, put_at};
pub use columns::{key_columns, plain_columns, summed_columns};
pub use negating::negate;
pub use netting::{add, net};
