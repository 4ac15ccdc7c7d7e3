//! Makes a script of any size, and sums up a run of it.
#![tactic(auto)]

mod faults;
mod laws;
mod made_program;
mod script_text;
mod summary_text;

pub use laws::{fault_numbers_are_shown, made_scripts_are_read, sales_are_in_order};
pub use made_program::make_program;
pub use script_text::make_script;
pub use summary_text::summary;
