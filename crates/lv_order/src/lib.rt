//! The events of a program, in the order in which they come.
#![tactic(auto)]

mod laws;
mod order;

pub use laws::{
    all_is_answered, each_event_may_come, each_statement_is_answered_once, places_after_events,
};
pub use order::events_in_order;
