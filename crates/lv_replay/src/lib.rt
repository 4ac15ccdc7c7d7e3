//! What the records of a journal make of the tables and views.
#![tactic(auto)]

mod laws;

pub use laws::{
    journal_is_as_long_as_its_records, live_transactions_are_numbered,
    maintenance_leaves_what_its_records_make, records_make_steady_worlds,
    records_of_a_run_make_what_a_stop_leaves, records_that_apply_are_what_calls_ask_for,
    statements_leave_what_their_records_make, written_records_can_be_kept,
};
