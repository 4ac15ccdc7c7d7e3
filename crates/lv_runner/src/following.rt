//! The events of a program, one after another, each with its text.
ghost use Rattle.std.specs.Prelude.{◌≡◌, ◌≤◌, ◌∷◌, ◌++◌, [], List, Err, IsTrue, OnErr, OnOk};
ghost use Rattle.std.specs.Io.KnownBytes.{Appends};
ghost use Rattle.lv_core.specs.Run.{Gave, IsSame, state_of};
ghost use Rattle.lv_lines.specs.Transcript.{entry_text};
ghost use Rattle.lv_outside.specs.Causes.{AppendsFront, Rose};
ghost use Rattle.lv_plain.specs.declared.entry.Entry.{Entry as AnEntry};
ghost use Rattle.lv_plain.specs.Legal.{MayHappen};
ghost use Rattle.lv_runner.specs.Following.{GoesOn, HasAnswered, HasFollowed, HasStopped, HasStoppedAt, IsScheduled, MayFollow, WereNames, names_now, text_now};
ghost use Rattle.lv_runner.specs.declared.writing.Stop.TheVariants as stop;

use crate::naming::{names_of, renew_names};
use crate::writing::{Stop, write_last};
use lv_core::Core;
use lv_lines::Names;
use lv_namelaw::more_names_give_the_same_text;
use lv_outside::{Disk, Sink};
use lv_plain::Event;
use lv_values::{Items, NoMemory, Steps};
use std::alloc::Global;
use std::sync::ledger::Ledger;

/// Answers an event. Want of memory changes nothing.
pub(crate) fn answer_event<D: Disk, L: Ledger>(
    alloc: Global,
    core: &mut Core<D>,
    event: &Event,
    steps: &mut Steps<L>,
) -> Result<(), NoMemory>
    requires may { MayHappen core.old.run.program (state_of core.old.run) event.now }
    requires scheduled { IsScheduled event.now }
    ensures gave { OnOk result (Gave D.seen D.may_leave D.moment D.left_since D.failures event.now core.old.run core.new.run) }
    ensures same { OnErr result (IsSame core.old.run core.new.run) }
{
    core.known();
    match event {
        Event::Turn { session } => core.turn(alloc, *session, Items::new(alloc), steps),
        Event::Fetch { worker } => core.claim_next(alloc, *worker),
        Event::Install { worker } => core.install_slot(alloc, *worker, steps),
        Event::Mark { view } => core.mark(alloc, view),
        Event::Clean => core.clean(alloc),
        Event::Release { .. } => Ok(()),
    }
}

/// Writes the entry that an event has added, under the names that there are then.
fn write_entry<K: Sink, D: Disk>(
    alloc: Global,
    core: &Core<D>,
    names: &mut Names,
    sink: &mut K,
) -> Result<(), Stop>
    requires { WereNames names.old core.now.run }
    ensures names { OnOk result (names.new ≡ names_now core.now.run) }
    ensures all { (es : List AnEntry) (e : AnEntry) → core.now.run.entries ≡ es ++ e ∷ [] → OnOk result (Appends (K.written sink.old) (K.written sink.new) (entry_text (names_now core.now.run) e)) }
    ensures part { (es : List AnEntry) (e : AnEntry) → core.now.run.entries ≡ es ++ e ∷ [] → AppendsFront (K.written sink.old) (K.written sink.new) (entry_text (names_now core.now.run) e) }
    ensures later { K.faults sink.old ≤ K.faults sink.new }
    ensures cause { result ≡ Err stop.Sink → Rose (K.faults sink.old) (K.faults sink.new) }
{
    renew_names(alloc, core, names)?;
    write_last(alloc, core, names, sink)
}

/// Answers an event and writes its entry.
fn follow_event<K: Sink, D: Disk, L: Ledger>(
    alloc: Global,
    core: &mut Core<D>,
    names: &mut Names,
    event: &Event,
    sink: &mut K,
    steps: &mut Steps<L>,
) -> Result<(), Stop>
    requires may { MayHappen core.old.run.program (state_of core.old.run) event.now }
    requires scheduled { IsScheduled event.now }
    requires names { names.old ≡ names_now core.old.run }
    ensures all { OnOk result (HasAnswered D.seen D.may_leave D.moment D.left_since D.failures event.now core.old.run core.new.run (K.written sink.old) (K.written sink.new)) }
    ensures names { OnOk result (names.new ≡ names_now core.new.run) }
    ensures part { OnErr result (HasStoppedAt D.seen D.may_leave D.moment D.left_since D.failures event.now core.old.run core.new.run (K.written sink.old) (K.written sink.new)) }
    ensures later { K.faults sink.old ≤ K.faults sink.new }
    ensures cause { result ≡ Err stop.Sink → Rose (K.faults sink.old) (K.faults sink.new) }
{
    answer_event(alloc, core, event, steps)?;
    write_entry(alloc, core, names, sink)
}

/// Answers these events, one after another, from the begin of the program, and writes the entry of each.
fn follow<K: Sink, D: Disk, L: Ledger>(
    alloc: Global,
    core: &mut Core<D>,
    names: &mut Names,
    events: &[Event],
    sink: &mut K,
    steps: &mut Steps<L>,
) -> Result<(), Stop>
    requires fresh { core.old.run.entries ≡ [] }
    requires may { MayFollow core.old.run.program events.now }
    requires names { names.old ≡ names_now core.old.run }
    ensures same { GoesOn core.old.run core.new.run }
    ensures followed { OnOk result (HasFollowed core.new.run events.now) }
    ensures all { OnOk result (Appends (K.written sink.old) (K.written sink.new) (text_now core.new.run)) }
    ensures part { OnErr result (HasStopped core.new.run events.now (K.written sink.old) (K.written sink.new)) }
    ensures later { K.faults sink.old ≤ K.faults sink.new }
    ensures cause { result ≡ Err stop.Sink → Rose (K.faults sink.old) (K.faults sink.new) }
{
    more_names_give_the_same_text();
    core.known();
    for event in events {
        follow_event(alloc, core, names, event, sink, steps)?;
    }
    Ok(())
}

/// Answers these events and writes the entry of each; at the end all of it is flushed.
pub(crate) fn write_run<K: Sink, D: Disk, L: Ledger>(
    alloc: Global,
    core: &mut Core<D>,
    events: &[Event],
    sink: &mut K,
    steps: &mut Steps<L>,
) -> Result<(), Stop>
    requires fresh { core.old.run.entries ≡ [] }
    requires may { MayFollow core.old.run.program events.now }
    ensures same { GoesOn core.old.run core.new.run }
    ensures followed { OnOk result (HasFollowed core.new.run events.now) }
    ensures all { OnOk result (Appends (K.written sink.old) (K.written sink.new) (text_now core.new.run)) }
    ensures flushed { OnOk result (IsTrue (K.is_flushed sink.new)) }
    ensures part { OnErr result (HasStopped core.new.run events.now (K.written sink.old) (K.written sink.new)) }
    ensures later { K.faults sink.old ≤ K.faults sink.new }
    ensures cause { result ≡ Err stop.Sink → Rose (K.faults sink.old) (K.faults sink.new) }
{
    core.known();
    let mut names = names_of(alloc, core)?;
    follow(alloc, core, &mut names, events, sink, steps)?;
    sink.flush()?;
    Ok(())
}
