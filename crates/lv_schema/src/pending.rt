//! What a policy sees of a view that is behind.

use lv_values::{Copying, Items, NoMemory};
use std::alloc::Global;

/// A view with pending tasks: its number, the oldest of its tasks, and how many actions its tasks have on the
/// view's tables.
#[derive(Clone, Copy, Debug, PartialEq, Eq)]
pub struct Pending {
    pub view: u32,
    pub oldest: u64,
    pub actions: u64,
}

/// Views with pending tasks, by their numbers.
pub type Pendings = Items<Pending>;

impl Copying for Pending {
    fn copy(&self, _alloc: Global) -> Result<Self, NoMemory> {
        Ok(*self)
    }
}
