//! A run over a core, in threads.
ghost use Rattle.std.specs.Prelude.{◌≡◌, ◌≤◌, length};
ghost use Rattle.lv_runner.specs.Late.{HasThreaded};

use crate::answering::{answer_rest, answer_setup};
use crate::ran::Ran;
use crate::running::give_back;
use crate::status::Status;
use crate::writing::{Stop, write_output};
use lv_core::{Core, drive_core};
use lv_outside::{Disk, Gate, Sink};
use lv_shared::Driven;
use lv_values::Steps;
use lv_words::Words;
use std::alloc::Global;
use std::sync::Wait;
use std::sync::ledger::Ledger;
use std::thread::Threads;

/// How many sessions the program has.
fn sessions_of<D: Disk>(core: &Core<D>) -> u32
    ensures many { result ≡ length core.now.run.program.sessions }
    ensures few { result ≤ 16 }
{
    core.known();
    core.program().sessions.len() as u32
}

/// Answers what the threads left, and writes the text of all entries.
fn finish<K: Sink, D: Disk, L: Ledger>(
    alloc: Global,
    mut core: Core<D>,
    sink: &mut K,
    steps: &mut Steps<L>,
) -> Ran<D>
    ensures ends { HasThreaded D.seen D.may_leave D.moment D.left_since D.failures core.run (K.written sink.old) (K.written sink.new) (K.is_flushed sink.new) (K.faults sink.old) (K.faults sink.new) result.status result.disk }
    ensures later { K.faults sink.old ≤ K.faults sink.new }
{
    if answer_rest(alloc, &mut core, steps).is_err() {
        return give_back(core, Status::NoMemory);
    }
    match write_output(alloc, &core, None, sink) {
        Ok(()) => give_back(core, Status::Done),
        Err(Stop::Sink) => give_back(core, Status::SinkFault),
        Err(Stop::NoMemory) => give_back(core, Status::NoMemory),
    }
}

/// Answers the setup; lets sessions and workers run in threads; answers what they left; and then writes the text of all
/// entries. What comes back from the threads is a run of the same program over the same opened engine. Where an actor met want
/// of memory nothing is written.
pub(crate) fn run_in_threads<
    R: Threads + Wait + Sync,
    K: Sink,
    D: Disk + Send,
    G: Gate + Sync,
    L: Ledger,
>(
    rt: &R,
    alloc: Global,
    mut core: Core<D>,
    words: &Words,
    gate: &G,
    sink: &mut K,
    steps: &mut Steps<L>,
) -> Ran<D>
    requires workers { words.now.workers ≤ 8 }
    ensures ends { HasThreaded D.seen D.may_leave D.moment D.left_since D.failures core.run (K.written sink.old) (K.written sink.new) (K.is_flushed sink.new) (K.faults sink.old) (K.faults sink.new) result.status result.disk }
    ensures later { K.faults sink.old ≤ K.faults sink.new }
{
    if answer_setup(alloc, &mut core, steps).is_err() {
        return give_back(core, Status::NoMemory);
    }
    let sessions = sessions_of(&core);
    let Driven {
        machine: back,
        starved,
    } = drive_core(rt, core, sessions, words.workers, words.turns, gate);
    if starved {
        return give_back(back, Status::NoMemory);
    }
    finish(alloc, back, sink, steps)
}
