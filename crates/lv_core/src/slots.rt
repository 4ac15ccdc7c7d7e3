//! Slots: for each worker what the step that it has fetched is computed from.
ghost use Rattle.std.specs.Prelude.{◌≡◌, ◌<◌, None, Some, replicate, length, slice_set, IfOk};
ghost use Rattle.lv_core.specs.Slots.{slot_of, slots_given, slots_without};

use lv_maint::JobInput;
use lv_values::{Items, NoMemory};
use std::alloc::Global;

/// For each worker, 1 to 8, what the step that it has fetched is computed from, until it is taken out or the claim ends.
/// The slot of worker 0 stays empty, as there is none.
pub type Slots = Items<Option<JobInput>>;

/// Nine empty slots.
pub fn no_slots(alloc: Global) -> Result<Slots, NoMemory>
    ensures { IfOk result (λ slots. slots ≡ replicate 9 None) }
{
    let mut slots = Items::new(alloc);
    for _ in 0..9u32 {
        slots.push(None)?;
    }
    Ok(slots)
}

/// Puts what a worker is given into its slot; where it is given nothing, every slot stays as it is.
#[tactic(auto, using(crate::proofs::NoSlot::stays, crate::proofs::NoSlot::empty))]
pub fn give_slot(slots: &mut Slots, worker: u32, input: Option<JobInput>)
    ensures { slots.new ≡ slots_given worker input slots.old }
{
    let at = worker as usize;
    match input {
        Some(input) if at < slots.len() => slots.set(at, Some(input)),
        _ => {}
    }
}

/// Takes out what lies in a worker's slot.
#[tactic(auto, using(crate::proofs::NoSlot::stays, crate::proofs::NoSlot::empty))]
pub fn take_slot(slots: &mut Slots, worker: u32) -> Option<JobInput>
    ensures taken { result ≡ slot_of slots.old worker }
    ensures left { slots.new ≡ slots_without worker slots.old }
{
    let at = worker as usize;
    if at < slots.len() {
        slots.replace(at, None)
    } else {
        None
    }
}
