//! What a change does to a table's rows: those of a snapshot with a transaction's own writes over them.
#![tactic(auto)]

mod bounding;
mod changes;
mod effects;
mod fault;
mod fixing;
mod inserting;
mod laws;
mod passing;
mod reading;

pub use bounding::{Side, bound_value};
pub use changes::effect;
pub use fault::EffectFault;
pub use fixing::fixed_value;
pub use laws::sums_of_a_bound_change_fit;
pub use passing::KeptBy;
pub use reading::{merged_rows, rows_to_try};
