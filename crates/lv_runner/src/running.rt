//! A run over a core, without threads.
ghost use Rattle.std.specs.Prelude.{◌≡◌, ◌≤◌, [], Some};
ghost use Rattle.lv_core.specs.Run.{IsRun};
ghost use Rattle.lv_runner.specs.Following.{HasRun, MayFollow};
ghost use Rattle.lv_runner.specs.Late.{HasSummed};

use crate::answering::answer_all;
use crate::following::write_run;
use crate::ran::Ran;
use crate::status::Status;
use crate::writing::{Stop, write_output};
use lv_core::Core;
use lv_outside::{Disk, Sink};
use lv_plain::Event;
use lv_values::Steps;
use std::alloc::Global;
use std::sync::ledger::Ledger;

/// The disk of a core whose run has ended.
pub(crate) fn give_back<D: Disk>(core: Core<D>, status: Status) -> Ran<D>
    ensures status { result.status ≡ status }
    ensures disk { result.disk ≡ Some core.run.engine.journal.disk }
    ensures run { IsRun D.seen D.may_leave D.moment D.left_since D.failures core.run }
{
    core.known();
    Ran {
        status,
        disk: Some(core.into_engine().into_disk()),
    }
}

/// Answers these events from the begin of the core's program, writes each entry as it comes, and gives the disk back.
pub(crate) fn run_in_order<K: Sink, D: Disk, L: Ledger>(
    alloc: Global,
    mut core: Core<D>,
    events: &[Event],
    sink: &mut K,
    steps: &mut Steps<L>,
) -> Ran<D>
    requires fresh { core.run.entries ≡ [] }
    requires may { MayFollow core.run.program events.now }
    ensures ends { HasRun D.seen D.may_leave D.moment D.left_since D.failures core.run events.now (K.written sink.old) (K.written sink.new) (K.is_flushed sink.new) (K.faults sink.old) (K.faults sink.new) result.status result.disk }
    ensures later { K.faults sink.old ≤ K.faults sink.new }
{
    match write_run(alloc, &mut core, events, sink, steps) {
        Ok(()) => give_back(core, Status::Done),
        Err(Stop::Sink) => give_back(core, Status::SinkFault),
        Err(Stop::NoMemory) => give_back(core, Status::NoMemory),
    }
}

/// Answers these events from the begin of the core's program, writes the summary of all entries, and gives the disk back.
pub(crate) fn run_summed<K: Sink, D: Disk, L: Ledger>(
    alloc: Global,
    mut core: Core<D>,
    events: &[Event],
    made: u32,
    sink: &mut K,
    steps: &mut Steps<L>,
) -> Ran<D>
    requires fresh { core.run.entries ≡ [] }
    requires may { MayFollow core.run.program events.now }
    ensures ends { HasSummed D.seen D.may_leave D.moment D.left_since D.failures (Some made) core.run events.now (K.written sink.old) (K.written sink.new) (K.is_flushed sink.new) (K.faults sink.old) (K.faults sink.new) result.status result.disk }
    ensures later { K.faults sink.old ≤ K.faults sink.new }
{
    if answer_all(alloc, &mut core, events, steps).is_err() {
        return give_back(core, Status::NoMemory);
    }
    match write_output(alloc, &core, Some(made), sink) {
        Ok(()) => give_back(core, Status::Done),
        Err(Stop::Sink) => give_back(core, Status::SinkFault),
        Err(Stop::NoMemory) => give_back(core, Status::NoMemory),
    }
}
