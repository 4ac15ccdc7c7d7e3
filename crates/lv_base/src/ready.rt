//! What is prepared for a commit.

use lv_schema::{Actions, Nets};

/// The actions of a commit, and the net change that they make of each table, at the place of its number.
#[derive(Drop)]
pub struct Ready {
    pub actions: Actions,
    pub nets: Nets,
}
