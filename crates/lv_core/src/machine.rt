//! The core of a run, as its caller holds it.
use crate::running::Run;
use crate::slots::Slots;
use lv_outside::Disk;
use lv_picker::Picker;
use std::alloc::Global;

/// A program and its run; beside it the policy by which workers choose, and for each worker a slot for what the step that
/// it has fetched is computed from. Sessions are 0, the setup, to 16, and workers 1 to 8. No entry depends on a slot. The
/// memory is for the calls of actors.
#[derive(Drop)]
pub struct Core<D: Disk> {
    pub(crate) run: Run<D>,
    pub(crate) picker: Picker,
    pub(crate) slots: Slots,
    pub(crate) alloc: Global,
}
