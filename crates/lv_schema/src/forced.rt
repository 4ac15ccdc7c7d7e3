//! Steps of maintenance.

use lv_values::{Copying, Items, NoMemory};
use std::alloc::Global;

/// A step that brings a view from one commit to a later one.
#[derive(Clone, Copy, Debug, PartialEq, Eq)]
pub struct Forced {
    /// The view's number.
    pub view: u32,
    /// The commit to which the view is maintained before the step.
    pub lo: u64,
    /// The commit to which it is maintained after it.
    pub hi: u64,
}

/// Steps in the order in which they are taken.
pub type ForcedSteps = Items<Forced>;

impl Copying for Forced {
    fn copy(&self, _alloc: Global) -> Result<Self, NoMemory> {
        Ok(*self)
    }
}
