//! The top call.
ghost use Rattle.std.specs.Prelude.{◌≡◌, ◌≤◌, ◌<◌, ◌-◌, ◌^◌, ◌↔◌, ◌⊎◌, ◌∷◌, ℕ, [], IsTrue, None, Some, IfSome, List, map};
ghost use Rattle.std.specs.Io.KnownBytes.{Keeps};
ghost use Rattle.lv_outside.specs.Causes.{Rose};
ghost use Rattle.lv_recover.specs.Opening.{BadAt};
ghost use Rattle.lv_words.specs.declared.words.Words.{Words as SaidWords};
ghost use Rattle.lv_words.specs.Range.{IsInRange};
ghost use Rattle.lv_words.specs.Words.{said};
ghost use Rattle.lv_runner.specs.Ends.{Completes, DidAll, DidPart, Ends, FailedOpening, HandedOut, HasProgram, IsLeft, IsSpared, IsUnbegun, IsWell, NotAsked, Refused, TurnedAway, unread_as};

use crate::opening::open_and_run;
use crate::ran::Ran;
use crate::reading::{Unread, plan_for};
use crate::status::Status;
use lv_outside::{Disks, Gate, Sink, Source};
use lv_picker::Picker;
use lv_values::{Items, Text};
use lv_words::{Words, WordsFault, read_words};
use std::alloc::Global;
use std::sync::Wait;
use std::thread::Threads;

/// The status where there is no program.
fn status_of(why: Unread) -> Status
    ensures { result ≡ unread_as why }
{
    match why {
        Unread::Script { line, kind } => Status::Script { line, kind },
        Unread::Source => Status::SourceFault,
        Unread::NoMemory => Status::NoMemory,
    }
}

/// Reads or makes a script and runs it over the disk of the words' path.
fn answer<R: Threads + Wait + Sync, S: Source, K: Sink, O: Disks, G: Gate + Sync>(
    rt: &R,
    alloc: Global,
    words: &Words,
    source: &mut S,
    sink: &mut K,
    disks: &mut O,
    picker: Picker,
    gate: &G,
) -> Ran<O::Disk>
    requires asked { (O.openings disks.old).asked < 2 ^ 64 - 1 }
    requires policy { picker.kind ≡ words.now.policy }
    requires range { IsInRange words.now }
    ensures ends { Ends O.Disk.seen O.Disk.may_leave O.Disk.moment O.Disk.left_since O.Disk.failures words.now (O.holds disks.old words.now.log) words.now.log
        (record { left = S.left source.old; source_faults = S.faults source.old; written = K.written sink.old; is_flushed = K.is_flushed sink.old; sink_faults = K.faults sink.old; disks_faults = O.failures disks.old; openings = O.openings disks.old })
        (record { left = S.left source.new; source_faults = S.faults source.new; written = K.written sink.new; is_flushed = K.is_flushed sink.new; sink_faults = K.faults sink.new; disks_faults = O.failures disks.new; openings = O.openings disks.new })
        result.disk result.status }
    ensures read { (result.status ≡ Status.OpenFault) ⊎ ((offset : ℕ) × (result.status ≡ Status.BadJournal offset)) → HasProgram words.now.make (S.left source.old) (S.left source.new) }
    ensures source_count { S.faults source.old ≤ S.faults source.new }
    ensures sink_count { K.faults sink.old ≤ K.faults sink.new }
    ensures disks_count { O.failures disks.old ≤ O.failures disks.new }
{
    match plan_for(alloc, words.make, source) {
        Ok(plan) => open_and_run(rt, alloc, plan, words, picker, gate, sink, disks),
        Err(why) => Ran {
            status: status_of(why),
            disk: None,
        },
    }
}

/// Reads a script, or makes one; opens a journal; and writes the script's transcript, or the summary of the one that was made.
///
/// The words are those of the command line: `--threads`, `--workers N`, `--turns N`, `--combine N`, `--policy P`, `--log FILE`,
/// `--log-limit N`, `--make N`. Without a path the journal is empty and lies in memory. The statements of the setup and the
/// sessions are answered over the world that the journal's records make: each transaction on the snapshot at its start with
/// its own writes, and each view as by its definition over the snapshot that a query reads. A query first brings the views
/// that it reads up to its snapshot, and the transcript shows by which steps. What workers, marks and clean-ups do between
/// statements the transcript shows too, and no reply depends on it but that of a full journal.
///
/// Without `--threads` and `--make` the entries come in the order of the program's schedule, and each is written as one piece,
/// right after the call that gave it; so where the run ends early, whole entries and perhaps a part of one more are written.
/// With `--threads` the setup is answered first, then sessions and workers run in threads, in any order, and then what they
/// left is answered; the text is written at the end. With `--make` the source is left alone, and the summary is written at
/// the end. The disk comes back wherever one was handed out, with the records of the entries. The pickers are three, of
/// kinds 0, 1 and 2. With `--threads` it waits for a lock. Cost: linear in the script and the journal, and what each event
/// takes.
pub fn run<R: Threads + Wait + Sync, S: Source, K: Sink, O: Disks, G: Gate + Sync>(
    rt: &R,
    alloc: Global,
    words: &[Text],
    source: &mut S,
    sink: &mut K,
    disks: &mut O,
    mut pickers: Items<Picker>,
    gate: &G,
) -> Ran<O::Disk>
    requires pickers { map (λ p. p.kind) pickers ≡ 0 ∷ 1 ∷ 2 ∷ [] }
    requires asked { (O.openings disks.old).asked < 2 ^ 64 - 1 }
    // Done: the whole output was written and flushed.
    ensures done { (w : SaidWords) → said words.now ≡ Some w → result.status ≡ Status.Done → DidAll O.Disk.seen O.Disk.may_leave O.Disk.moment O.Disk.left_since O.Disk.failures w (O.holds disks.old w.log) (S.left source.old) (S.left source.new) (K.written sink.old) (K.written sink.new) (O.openings disks.new).count result.disk }
    ensures flushed { result.status ≡ Status.Done → IsTrue (K.is_flushed sink.new) }
    ensures words { result.status ≡ Status.Words → said words.now ≡ None }
    // Words that are not accepted are all that was read.
    ensures turned_down { said words.now ≡ None → (S.left source.new ≡ S.left source.old) × Keeps (K.written sink.old) (K.written sink.new) × NotAsked (O.openings disks.old) (O.openings disks.new) result.disk }
    ensures refused { said words.now ≡ None → (result.status ≡ Status.Words) ⊎ (result.status ≡ Status.NoMemory) }
    // No script that is made is refused, and it leaves the source alone.
    ensures script { (w : SaidWords) (line kind : ℕ) → said words.now ≡ Some w → result.status ≡ Status.Script line kind → (w.make ≡ None) × Refused (S.left source.old) (S.left source.new) line kind }
    ensures source { (w : SaidWords) → said words.now ≡ Some w → result.status ≡ Status.SourceFault → (w.make ≡ None) × Rose (S.faults source.old) (S.faults source.new) }
    // A failing sink took a part of the output.
    ensures sink { result.status ≡ Status.SinkFault → Rose (K.faults sink.old) (K.faults sink.new) }
    ensures part { (w : SaidWords) → said words.now ≡ Some w → result.status ≡ Status.SinkFault → DidPart O.Disk.seen O.Disk.may_leave O.Disk.moment O.Disk.left_since O.Disk.failures w (O.holds disks.old w.log) (S.left source.old) (S.left source.new) (K.written sink.old) (K.written sink.new) (O.openings disks.new).count result.disk }
    ensures bad { (w : SaidWords) (offset : ℕ) → said words.now ≡ Some w → result.status ≡ Status.BadJournal offset → IfSome (O.holds disks.old w.log) (λ bytes. BadAt bytes offset) }
    // The journal that is bad stays as it is.
    ensures alone { (w : SaidWords) (offset : ℕ) → said words.now ≡ Some w → result.status ≡ Status.BadJournal offset → IsLeft O.Disk.seen (O.holds disks.old w.log) result.disk }
    ensures spared { (w : SaidWords) → said words.now ≡ Some w → result.status ≡ Status.OpenFault → IsSpared O.Disk.seen (O.holds disks.old w.log) result.disk }
    ensures open { result.status ≡ Status.OpenFault → FailedOpening O.Disk.failures (O.failures disks.old) (O.failures disks.new) (O.openings disks.new).count result.disk }
    // No journal is opened before there is a program.
    ensures read { (w : SaidWords) → said words.now ≡ Some w → (result.status ≡ Status.OpenFault) ⊎ ((offset : ℕ) × (result.status ≡ Status.BadJournal offset)) → HasProgram w.make (S.left source.old) (S.left source.new) }
    // Want of memory has no cause: nothing was run over the disk, and nothing is written; or a part of the output is.
    ensures short { (w : SaidWords) → said words.now ≡ Some w → result.status ≡ Status.NoMemory
        → (Keeps (K.written sink.old) (K.written sink.new) × (NotAsked (O.openings disks.old) (O.openings disks.new) result.disk ⊎ IsUnbegun O.Disk.seen (O.holds disks.old w.log) result.disk))
        ⊎ DidPart O.Disk.seen O.Disk.may_leave O.Disk.moment O.Disk.left_since O.Disk.failures w (O.holds disks.old w.log) (S.left source.old) (S.left source.new) (K.written sink.old) (K.written sink.new) (O.openings disks.new).count result.disk }
    // Where nothing goes wrong, all is answered and written, but for want of memory.
    ensures complete { (w : SaidWords) → said words.now ≡ Some w
        → IsWell O.Disk.seen O.Disk.may_leave O.Disk.moment O.Disk.left_since O.Disk.failures w (O.holds disks.old w.log) w.log
        (record { left = S.left source.old; source_faults = S.faults source.old; written = K.written sink.old; is_flushed = K.is_flushed sink.old; sink_faults = K.faults sink.old; disks_faults = O.failures disks.old; openings = O.openings disks.old })
        (record { left = S.left source.new; source_faults = S.faults source.new; written = K.written sink.new; is_flushed = K.is_flushed sink.new; sink_faults = K.faults sink.new; disks_faults = O.failures disks.new; openings = O.openings disks.new })
        result.disk
        → Completes O.Disk.seen O.Disk.may_leave O.Disk.moment O.Disk.left_since O.Disk.failures w (O.holds disks.old w.log) w.log
        (record { left = S.left source.old; source_faults = S.faults source.old; written = K.written sink.old; is_flushed = K.is_flushed sink.old; sink_faults = K.faults sink.old; disks_faults = O.failures disks.old; openings = O.openings disks.old })
        (record { left = S.left source.new; source_faults = S.faults source.new; written = K.written sink.new; is_flushed = K.is_flushed sink.new; sink_faults = K.faults sink.new; disks_faults = O.failures disks.new; openings = O.openings disks.new })
        result.disk result.status }
    ensures nothing { (result.status ≡ Status.Done → ⊥) → (result.status ≡ Status.SinkFault → ⊥) → (result.status ≡ Status.NoMemory → ⊥) → Keeps (K.written sink.old) (K.written sink.new) }
    // Which openings were asked, and when the disk comes back.
    ensures unasked { (result.status ≡ Status.Words) ⊎ ((line kind : ℕ) × (result.status ≡ Status.Script line kind)) ⊎ (result.status ≡ Status.SourceFault) → NotAsked (O.openings disks.old) (O.openings disks.new) result.disk }
    ensures opened { (w : SaidWords) → said words.now ≡ Some w → (result.status ≡ Status.Done) ⊎ (result.status ≡ Status.SinkFault) ⊎ ((offset : ℕ) × (result.status ≡ Status.BadJournal offset)) → HandedOut w.log (O.openings disks.old) (O.openings disks.new) result.disk }
    ensures once { (w : SaidWords) → said words.now ≡ Some w → result.status ≡ Status.OpenFault → HandedOut w.log (O.openings disks.old) (O.openings disks.new) result.disk ⊎ TurnedAway w.log (O.openings disks.old) (O.openings disks.new) result.disk }
    ensures at_most_once { (w : SaidWords) → said words.now ≡ Some w → result.status ≡ Status.NoMemory → NotAsked (O.openings disks.old) (O.openings disks.new) result.disk ⊎ HandedOut w.log (O.openings disks.old) (O.openings disks.new) result.disk }
    ensures source_count { S.faults source.old ≤ S.faults source.new }
    ensures sink_count { K.faults sink.old ≤ K.faults sink.new }
    ensures disks_count { O.failures disks.old ≤ O.failures disks.new }
{
    match read_words(alloc, words) {
        Ok(words) => {
            let picker = pickers.remove(words.policy as usize);
            answer(rt, alloc, &words, source, sink, disks, picker, gate)
        }
        Err(WordsFault::Refused) => Ran {
            status: Status::Words,
            disk: None,
        },
        Err(WordsFault::NoMemory) => Ran {
            status: Status::NoMemory,
            disk: None,
        },
    }
}
