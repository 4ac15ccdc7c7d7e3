//! A program over the disk of a path.
ghost use Rattle.std.specs.Prelude.{◌≡◌, ◌≤◌, ◌<◌, ◌-◌, ◌^◌, [], true, false, ℕ, Bool, List, Option, None, Ok};
ghost use Rattle.lv_core.specs.Run.{IsOpenedBy, IsOpening};
ghost use Rattle.lv_lines.specs.Script.{script_of};
ghost use Rattle.lv_plain.specs.declared.program.Program.{Program};
ghost use Rattle.lv_schema.specs.declared.rec.Rec.{Rec};
ghost use Rattle.lv_words.specs.declared.words.Words.{Words as SaidWords};
ghost use Rattle.lv_words.specs.Range.{IsInRange};
ghost use Rattle.lv_runner.specs.Begun.{EndsFrom, EndsOpened, TellsAtLeast, store_settings, unopened_as};
ghost use Rattle.lv_runner.specs.Ends.{Ends, HasInput};
ghost use Rattle.lv_runner.specs.Following.{MayFollow};
ghost use Rattle.lv_runner.specs.Late.{HasRunBy};
ghost use Rattle.lv_runner.specs.Plan.{IsPlan};

use crate::ran::Ran;
use crate::reading::Plan;
use crate::running::{run_in_order, run_summed};
use crate::status::Status;
use crate::threads::run_in_threads;
use lv_core::Core;
use lv_crash::what_a_crash_leaves_applies;
use lv_engine::Engine;
use lv_journal::JFault;
use lv_order::{all_is_answered, each_event_may_come, places_after_events};
use lv_outside::{Disk, Disks, Gate, OpenFault, Sink};
use lv_picker::Picker;
use lv_plain::Event;
use lv_recover::{Reopen, reopen};
use lv_store::Settings;
use lv_values::Steps;
use lv_words::Words;
use std::alloc::Global;
use std::marker::Brand;
use std::sync::Wait;
use std::sync::ledger::{Blank, Ledger};
use std::thread::Threads;

/// How a run over a disk that was not opened ends.
fn unopened(cause: JFault) -> Status
    ensures { result ≡ unopened_as cause }
{
    match cause {
        JFault::Bad { offset } => Status::BadJournal { offset },
        JFault::Failed => Status::OpenFault,
        JFault::NoMemory => Status::NoMemory,
    }
}

/// Runs a program over a core from its begin, without threads: each event of the schedule is answered, in order.
fn run_ordered<K: Sink, D: Disk, L: Ledger>(
    alloc: Global,
    core: Core<D>,
    words: &Words,
    events: &[Event],
    sink: &mut K,
    steps: &mut Steps<L>,
) -> Ran<D>
    requires fresh { core.run.entries ≡ [] }
    requires may { MayFollow core.run.program events.now }
    ensures ends { HasRunBy D.seen D.may_leave D.moment D.left_since D.failures words.now.make core.run events.now (K.written sink.old) (K.written sink.new) (K.is_flushed sink.new) (K.faults sink.old) (K.faults sink.new) result.status result.disk }
    ensures later { K.faults sink.old ≤ K.faults sink.new }
{
    match words.make {
        None => run_in_order(alloc, core, events, sink, steps),
        Some(made) => run_summed(alloc, core, events, made, sink, steps),
    }
}

/// How a run over an opened engine ends where there is no memory for a core.
fn unbegun<D: Disk>(engine: Engine<D>) -> Ran<D>
    ensures { (w : SaidWords) (p : Program) (written : Option (List ℕ)) (is_flushed : Bool) (faults : ℕ)
        → EndsFrom D.seen D.may_leave D.moment D.left_since D.failures w p engine written written is_flushed faults faults result.status result.disk }
{
    Ran {
        status: Status::NoMemory,
        disk: Some(engine.into_disk()),
    }
}

/// Makes a core over an opened engine, and runs its program without threads.
fn run_alone<K: Sink, D: Disk, L: Ledger>(
    alloc: Global,
    engine: Engine<D>,
    plan: Plan,
    words: &Words,
    picker: Picker,
    sink: &mut K,
    steps: &mut Steps<L>,
) -> Ran<D>
    requires policy { picker.kind ≡ words.now.policy }
    requires plan { IsPlan plan }
    requires settings { engine.store.settings ≡ store_settings words.now }
    requires fresh { IsOpening engine }
    requires records { (recs : List Rec) × IsOpenedBy D.seen D.may_leave recs engine }
    requires alone { words.now.threads ≡ false }
    ensures ends { EndsFrom D.seen D.may_leave D.moment D.left_since D.failures words.now plan.program engine (K.written sink.old) (K.written sink.new) (K.is_flushed sink.new) (K.faults sink.old) (K.faults sink.new) result.status result.disk }
    ensures later { K.faults sink.old ≤ K.faults sink.new }
{
    each_event_may_come();
    places_after_events();
    all_is_answered();
    what_a_crash_leaves_applies();
    let Plan {
        program,
        events,
        ..
    } = plan;
    match Core::new(alloc, engine, program, picker) {
        Ok(core) => run_ordered(alloc, core, words, events.as_slice(), sink, steps),
        Err(engine) => unbegun(engine),
    }
}

/// Makes a core over an opened engine, and runs its program in threads.
fn run_beside<R: Threads + Wait + Sync, K: Sink, D: Disk + Send, G: Gate + Sync, L: Ledger>(
    rt: &R,
    alloc: Global,
    engine: Engine<D>,
    plan: Plan,
    words: &Words,
    picker: Picker,
    gate: &G,
    sink: &mut K,
    steps: &mut Steps<L>,
) -> Ran<D>
    requires policy { picker.kind ≡ words.now.policy }
    requires plan { IsPlan plan }
    requires settings { engine.store.settings ≡ store_settings words.now }
    requires fresh { IsOpening engine }
    requires records { (recs : List Rec) × IsOpenedBy D.seen D.may_leave recs engine }
    requires beside { words.now.threads ≡ true }
    requires apart { words.now.make ≡ None }
    requires workers { words.now.workers ≤ 8 }
    ensures ends { EndsFrom D.seen D.may_leave D.moment D.left_since D.failures words.now plan.program engine (K.written sink.old) (K.written sink.new) (K.is_flushed sink.new) (K.faults sink.old) (K.faults sink.new) result.status result.disk }
    ensures later { K.faults sink.old ≤ K.faults sink.new }
{
    what_a_crash_leaves_applies();
    let Plan { program, .. } = plan;
    match Core::new(alloc, engine, program, picker) {
        Ok(core) => run_in_threads(rt, alloc, core, words, gate, sink, steps),
        Err(engine) => unbegun(engine),
    }
}

/// Runs a program over an opened engine. Nobody looks at the count of the rows that are read.
fn run_over<R: Threads + Wait + Sync, K: Sink, D: Disk + Send, G: Gate + Sync, L: Ledger>(
    rt: &R,
    alloc: Global,
    engine: Engine<D>,
    plan: Plan,
    words: &Words,
    picker: Picker,
    gate: &G,
    sink: &mut K,
    steps: &mut Steps<L>,
) -> Ran<D>
    requires policy { picker.kind ≡ words.now.policy }
    requires plan { IsPlan plan }
    requires settings { engine.store.settings ≡ store_settings words.now }
    requires fresh { IsOpening engine }
    requires records { (recs : List Rec) × IsOpenedBy D.seen D.may_leave recs engine }
    requires range { IsInRange words.now }
    ensures ends { EndsFrom D.seen D.may_leave D.moment D.left_since D.failures words.now plan.program engine (K.written sink.old) (K.written sink.new) (K.is_flushed sink.new) (K.faults sink.old) (K.faults sink.new) result.status result.disk }
    ensures later { K.faults sink.old ≤ K.faults sink.new }
{
    if words.threads {
        run_beside(rt, alloc, engine, plan, words, picker, gate, sink, steps)
    } else {
        run_alone(alloc, engine, plan, words, picker, sink, steps)
    }
}

/// Opens the journal of a disk and runs a program over it.
fn run_on<R: Threads + Wait + Sync, K: Sink, D: Disk + Send, G: Gate + Sync, L: Ledger>(
    rt: &R,
    alloc: Global,
    disk: D,
    plan: Plan,
    words: &Words,
    picker: Picker,
    gate: &G,
    sink: &mut K,
    blank: Blank,
) -> Ran<D>
    requires name { blank.name ≡ L.name }
    requires parts { blank.parts ≡ L.parts }
    requires some { 0 < blank.parts }
    requires policy { picker.kind ≡ words.now.policy }
    requires plan { IsPlan plan }
    requires range { IsInRange words.now }
    ensures ends { (told : Option (List ℕ)) (bytes : List ℕ) → TellsAtLeast D.seen D.may_leave D.moment D.left_since D.failures told disk → script_of bytes ≡ Ok plan.program
        → EndsOpened D.seen D.may_leave D.moment D.left_since D.failures words.now told bytes (D.failures disk) (K.written sink.old) (K.written sink.new) (K.is_flushed sink.new) (K.faults sink.old) (K.faults sink.new) result.status result.disk }
    ensures later { K.faults sink.old ≤ K.faults sink.new }
{
    let settings = Settings {
        combine: words.combine,
        log_limit: words.log_limit,
    };
    let mut steps = Steps::<L>::new(blank);
    match reopen(alloc, disk, settings, &mut steps) {
        Ok(engine) => run_over(
            rt, alloc, engine, plan, words, picker, gate, sink, &mut steps,
        ),
        Err(Reopen { disk, cause }) => Ran {
            status: unopened(cause),
            disk: Some(disk),
        },
    }
}

/// Has the disk of the words' path handed out and runs a program over it.
pub(crate) fn open_and_run<R: Threads + Wait + Sync, K: Sink, O: Disks, G: Gate + Sync>(
    rt: &R,
    alloc: Global,
    plan: Plan,
    words: &Words,
    picker: Picker,
    gate: &G,
    sink: &mut K,
    disks: &mut O,
) -> Ran<O::Disk>
    requires asked { (O.openings disks.old).asked < 2 ^ 64 - 1 }
    requires policy { picker.kind ≡ words.now.policy }
    requires plan { IsPlan plan }
    requires range { IsInRange words.now }
    ensures ends { (left0 left1 : Option (List ℕ)) (faults0 faults1 : ℕ) (bytes : List ℕ) → HasInput words.now.make left0 left1 bytes → script_of bytes ≡ Ok plan.program
        → Ends O.Disk.seen O.Disk.may_leave O.Disk.moment O.Disk.left_since O.Disk.failures words.now (O.holds disks.old words.now.log) words.now.log
        (record { left = left0; source_faults = faults0; written = K.written sink.old; is_flushed = K.is_flushed sink.old; sink_faults = K.faults sink.old; disks_faults = O.failures disks.old; openings = O.openings disks.old })
        (record { left = left1; source_faults = faults1; written = K.written sink.new; is_flushed = K.is_flushed sink.new; sink_faults = K.faults sink.new; disks_faults = O.failures disks.new; openings = O.openings disks.new })
        result.disk result.status }
    ensures sink_count { K.faults sink.old ≤ K.faults sink.new }
    ensures disks_count { O.failures disks.old ≤ O.failures disks.new }
{
    match words.open_disk(disks) {
        Ok(disk) => run_on::<R, K, O::Disk, G, Brand>(
            rt,
            alloc,
            disk,
            plan,
            words,
            picker,
            gate,
            sink,
            Blank::new(1),
        ),
        Err(OpenFault::Failed) => Ran {
            status: Status::OpenFault,
            disk: None,
        },
        Err(OpenFault::NoMemory) => Ran {
            status: Status::NoMemory,
            disk: None,
        },
    }
}
