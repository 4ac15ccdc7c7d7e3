//! Steps of a view that are taken as one: which of them keep links, and what they cost then.
#![tactic(auto)]

mod laws;
mod stand_ins;
mod steps;

pub use laws::{each_step_has_a_cost, joined_steps_cost_no_more, steps_that_keep_links_add_up};
pub use steps::step_keeps_links;
