//! What the records of a journal make: tables, views, committed states and pending tasks, record by record; and in the
//! end the rows of each view.
#![tactic(auto)]

mod actions;
mod commits;
mod conditions;
mod finishing;
mod loaded;
mod loading;
mod marks;
mod names;
mod parts;
mod tables;
mod taking;
mod values;
mod views;

pub use loaded::Loaded;
pub use loading::Loading;
