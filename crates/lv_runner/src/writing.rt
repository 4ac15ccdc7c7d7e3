//! The text of an entry, written as soon as the entry is given.
ghost use Rattle.std.specs.Prelude.{◌≡◌, ◌≤◌, ℕ, List, ◌∷◌, ◌++◌, [], Err, IfOk, IsTrue, OnErr, OnOk};
ghost use Rattle.std.specs.Io.KnownBytes.{Appends};
ghost use Rattle.lv_lines.specs.Transcript.{entry_text};
ghost use Rattle.lv_outside.specs.Causes.{AppendsFront, Rose};
ghost use Rattle.lv_plain.specs.declared.entry.Entry.{Entry as AnEntry};
ghost use Rattle.lv_runner.specs.Following.{names_now};
ghost use Rattle.lv_runner.specs.Late.{output_now};
ghost use Rattle.lv_runner.specs.declared.writing.Stop.TheVariants as stop;

use crate::naming::names_of;
use lv_core::Core;
use lv_lines::{Names, print_entries, print_entry};
use lv_make::summary;
use lv_outside::{Disk, Failed, Sink, write_whole};
use lv_values::{Bytes, NoMemory};
use std::alloc::Global;

/// Why a run stopped before its end.
#[derive(Clone, Copy, Debug, PartialEq, Eq)]
pub(crate) enum Stop {
    /// The sink failed.
    Sink,
    /// Memory was refused.
    NoMemory,
}

impl From<NoMemory> for Stop {
    ghost use Rattle.lv_runner.specs.declared.writing.Stop.TheVariants.{NoMemory as MemoryRefused};

    ghost from_gives = { λ _ e. e ≡ MemoryRefused };

    fn from(_: NoMemory) -> Self {
        Stop::NoMemory
    }
}

impl From<Failed> for Stop {
    ghost use Rattle.lv_runner.specs.declared.writing.Stop.TheVariants.{Sink as SinkFailed};

    ghost from_gives = { λ _ e. e ≡ SinkFailed };

    fn from(_: Failed) -> Self {
        Stop::Sink
    }
}

/// How many bytes the text of most entries has at most.
const SHORT: usize = 256;

/// The text of the last entry, none where there is no entry.
fn last_text<D: Disk>(alloc: Global, core: &Core<D>, names: &Names) -> Result<Bytes, NoMemory>
    requires { names.now ≡ names_now core.now.run }
    ensures { (es : List AnEntry) (e : AnEntry) → core.now.run.entries ≡ es ++ e ∷ [] → IfOk result (λ text. text ≡ entry_text (names_now core.now.run) e) }
{
    core.known();
    let mut text = Bytes::from_vec(Vec::with_capacity(alloc, SHORT)?);
    if let Some(entry) = core.entries().last() {
        print_entry(names, entry, &mut text)?;
    }
    Ok(text)
}

/// Writes the text of the last entry as one piece. Cost: linear in the text.
pub(crate) fn write_last<K: Sink, D: Disk>(
    alloc: Global,
    core: &Core<D>,
    names: &Names,
    sink: &mut K,
) -> Result<(), Stop>
    requires { names.now ≡ names_now core.now.run }
    ensures all { (es : List AnEntry) (e : AnEntry) → core.now.run.entries ≡ es ++ e ∷ [] → OnOk result (Appends (K.written sink.old) (K.written sink.new) (entry_text (names_now core.now.run) e)) }
    ensures part { (es : List AnEntry) (e : AnEntry) → core.now.run.entries ≡ es ++ e ∷ [] → AppendsFront (K.written sink.old) (K.written sink.new) (entry_text (names_now core.now.run) e) }
    ensures later { K.faults sink.old ≤ K.faults sink.new }
    ensures cause { result ≡ Err stop.Sink → Rose (K.faults sink.old) (K.faults sink.new) }
{
    let text = last_text(alloc, core, names)?;
    write_whole(sink, text.as_slice())?;
    Ok(())
}

/// What is written of all entries: their text, or their summary where so many statements were made.
fn whole_output<D: Disk>(
    alloc: Global,
    core: &Core<D>,
    made: Option<u32>,
) -> Result<Bytes, NoMemory>
    ensures { IfOk result (λ text. text ≡ output_now made core.now.run) }
{
    core.known();
    match made {
        None => {
            let names = names_of(alloc, core)?;
            print_entries(alloc, &names, core.entries())
        }
        Some(number) => summary(alloc, number, core.program(), core.entries()),
    }
}

/// Writes the output of all entries as one piece, and flushes it. Cost: linear in it.
pub(crate) fn write_output<K: Sink, D: Disk>(
    alloc: Global,
    core: &Core<D>,
    made: Option<u32>,
    sink: &mut K,
) -> Result<(), Stop>
    ensures all { OnOk result (Appends (K.written sink.old) (K.written sink.new) (output_now made core.now.run)) }
    ensures flushed { OnOk result (IsTrue (K.is_flushed sink.new)) }
    ensures part { OnErr result (AppendsFront (K.written sink.old) (K.written sink.new) (output_now made core.now.run)) }
    ensures later { K.faults sink.old ≤ K.faults sink.new }
    ensures cause { result ≡ Err stop.Sink → Rose (K.faults sink.old) (K.faults sink.new) }
{
    let text = whole_output(alloc, core, made)?;
    write_whole(sink, text.as_slice())?;
    sink.flush()?;
    Ok(())
}
