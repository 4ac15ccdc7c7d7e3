//! A worker that gives its claim up.
ghost use Rattle.std.specs.Prelude.{◌≡◌, ◌<◌};
ghost use Rattle.lv_picker.specs.Choices.{IsChoice};
ghost use Rattle.lv_plain.specs.Limits.{IsWithinLimits};
ghost use Rattle.lv_schema.specs.Policies.{chosen};

use lv_core::Core;
use lv_outside::{Disk, MemDisk};
use lv_picker::{Choice, Picker, place_of_oldest};
use lv_plain::{Entry, Order, Program, Scripts, Texts};
use lv_recover::reopen;
use lv_schema::Pending;
use lv_store::Settings;
use lv_values::{Bytes, Items, NoMemory, Steps};
use std::alloc::Global;
use std::marker::Brand;
use std::sync::ledger::{Blank, Ledger};

/// A journal of a table, a view of it, and a commit of one row, without a mark: so the view is behind by that commit.
const JOURNAL: &[u8] =
    b"LVJRNL01\x01\x14\x00\x00\x00\x01\x04item\x02\x02id\x01\x05price\x01\x01\x00\x01\x1a\x00\x00\x00\x02\x04kept\x00\x00\x00\x00\x00\x00\x00\x00\x01\x00\x00\x01\x01\x00\x00\x02id\x00\x00\x01&\x00\x00\x00\x03\x01\x00\x00\x00\x00\x00\x00\x00\x01\x00\x00\x00\x00\x01\x00\x00\x00\x01\x02\x01\x01\x00\x00\x00\x00\x00\x00\x00\x01\x0a\x00\x00\x00\x00\x00\x00\x00\x00";

/// A program without a statement.
fn no_program(alloc: Global) -> Program
    ensures { IsWithinLimits result }
{
    Program {
        setup: Texts::new(alloc),
        sessions: Scripts::new(alloc),
        order: Order::new(alloc),
    }
}

/// Worker 1 fetches a step, where the setup is answered.
fn fetch<D: Disk, L: Ledger>(
    alloc: Global,
    core: &mut Core<D>,
    steps: &mut Steps<L>,
) -> Result<(), NoMemory> {
    if core.left(0) {
        return Ok(());
    }
    core.fetch(alloc, 1, steps)
}

/// Worker 1 gives its claim up, where it has one.
fn release<D: Disk>(core: &mut Core<D>) {
    if core.engine().claim(1).is_some() {
        core.release(1);
    }
}

/// Whether the worker's slot has what a step is computed from. It is empty afterwards.
fn takes_slot<D: Disk>(core: &mut Core<D>) -> bool {
    let slot = core.take_slot(1);
    let is_there = slot.is_some();
    drop(slot);
    is_there
}

/// Whether a step is fetched, given up and fetched again, and lies in the worker's slot after the second time alone.
fn is_fetched_again<D: Disk, L: Ledger>(
    alloc: Global,
    core: &mut Core<D>,
    steps: &mut Steps<L>,
) -> Result<bool, NoMemory> {
    fetch(alloc, core, steps)?;
    release(core);
    let was_there = takes_slot(core);
    fetch(alloc, core, steps)?;
    Ok(!was_there && takes_slot(core) && are_as_told(core.entries()))
}

/// Whether worker 1 fetched the step of the view.
fn is_fetch(entry: &Entry) -> bool {
    match entry {
        Entry::Fetched {
            worker: 1,
            view: 0,
            lo: 0,
            hi: 1,
        } => true,
        _ => false,
    }
}

/// Whether a step of the view is fetched, given up, and fetched again.
fn are_as_told(entries: &[Entry]) -> bool {
    match entries {
        [first, Entry::Released { worker: 1 }, second] => is_fetch(first) && is_fetch(second),
        _ => false,
    }
}

/// A core over a disk, that picks so.
fn core_over<L: Ledger>(
    alloc: Global,
    disk: MemDisk,
    picker: Picker,
    steps: &mut Steps<L>,
) -> Result<Core<MemDisk>, NoMemory> {
    let settings = Settings {
        combine: 16,
        log_limit: 1 << 40,
    };
    let engine = match reopen(alloc, disk, settings, steps) {
        Ok(engine) => engine,
        Err(refused) => {
            drop(refused);
            return Err(NoMemory);
        }
    };
    match Core::new(alloc, engine, no_program(alloc), picker) {
        Ok(core) => Ok(core),
        Err(engine) => {
            drop(engine);
            Err(NoMemory)
        }
    }
}

/// The same over the journal, by the policy of the oldest task.
fn is_fetched_again_over<L: Ledger>(alloc: Global, steps: &mut Steps<L>) -> Result<bool, NoMemory> {
    let disk = MemDisk::new(Bytes::from_slice(alloc, JOURNAL)?, Items::new(alloc));
    let oldest: Choice = Box::new(
        alloc,
        |list: &[Pending]| -> usize
            requires { IsChoice list.now }
            ensures { result ≡ chosen 0 list.now }
        { place_of_oldest(list) },
    )?;
    let mut core = core_over(alloc, disk, Picker::new(0, oldest), steps)?;
    let is_so = is_fetched_again(alloc, &mut core, steps);
    drop(core);
    is_so
}

/// The same, where the steps are counted.
fn is_fetched_again_there<L: Ledger>(alloc: Global, blank: Blank) -> Result<bool, NoMemory>
    requires name { blank.name ≡ L.name }
    requires parts { blank.parts ≡ L.parts }
    requires some { 0 < blank.parts }
{
    let mut steps = Steps::<L>::new(blank);
    is_fetched_again_over(alloc, &mut steps)
}

#[test]
fn a_step_that_is_given_up_is_fetched_again(rt: HostRuntime) {
    assert!(rt; is_fetched_again_there::<Brand>(rt.alloc(), Blank::new(1)) == Ok(true));
}
