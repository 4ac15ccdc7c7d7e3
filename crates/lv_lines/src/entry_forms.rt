//! Forms of entries.
ghost use Rattle.std.specs.Prelude.{◌≡◌, ◌≤◌, length};
ghost use Rattle.lv_reading.specs.Reading.{Gives};
ghost use Rattle.std.specs.Char.{is_ascii_digit};
ghost use Rattle.std.specs.List.{prefix_len};
ghost use Rattle.lv_lines.specs.EntryForms as form;

use crate::fault_forms::AnyFault;
use crate::names::Names;
use crate::reply_forms::{AnyReply, ForcedLine};
use crate::value_forms::{Name, Own};
use crate::words::{is_numbered, word_len};
use crate::worker::Action;
use crate::worker_forms::{AnyAction, Worker};
use lv_forms::{
    Both, Count, Ended, Form, Pair, Repeated, Small, Test, print_after, print_all, which,
};
use lv_plain::{Entries, Entry, MarkOutcome};
use lv_reading::{Cursor, Stop};
use lv_schema::{Fault, Forced};
use lv_values::{Bytes, NoMemory};
use std::alloc::Global;

/// The number of digits that come next.
fn digits_len(bytes: &[u8]) -> usize
    ensures value { result ≡ prefix_len is_ascii_digit bytes.now }
    ensures within { result ≤ length bytes.now }
{
    bytes
        .iter()
        .take_while(|byte| byte.is_ascii_digit())
        .count()
}

/// Whether a clean-up's line comes next, and no statement of a session that is called clean.
fn is_cleaned(cursor: &Cursor<'_>) -> bool
    ensures { result ≡ form.is_cleaned cursor.now }
{
    if !cursor.sees(b"clean ") {
        return false;
    }
    let mut ahead = Cursor::new(cursor.rest());
    ahead.take(6);
    ahead.take(digits_len(ahead.rest()));
    ahead.sees(b" versions ")
}

/// Whether a statement's lines come next.
fn is_statement(cursor: &Cursor<'_>) -> bool
    ensures { result ≡ form.is_statement cursor.now }
{
    !is_cleaned(cursor) && (cursor.sees(b"force ") || is_numbered(cursor))
}

/// Whether a digit comes next.
fn starts_number(cursor: &Cursor<'_>) -> bool
    ensures { result ≡ form.starts_number cursor.now }
{
    match cursor.rest().get(0) {
        None => false,
        Some(byte) => byte.is_ascii_digit(),
    }
}

/// Whether the word that comes next has no view.
fn is_unknown(cursor: &Cursor<'_>) -> bool
    ensures { result ≡ form.is_unknown cursor.now }
{
    let mut ahead = Cursor::new(cursor.rest());
    ahead.take(word_len(ahead.rest()));
    ahead.sees(b" unknown")
}

/// Steps that were forced come before a statement's line.
#[derive(Clone, Copy)]
struct IsForced;

impl Test for IsForced {
    ghost test = { λ _. form.is_forced };

    fn passes(&self, cursor: &Cursor<'_>) -> bool {
        !is_numbered(cursor)
    }
}

/// Entries follow one another to the end.
#[derive(Clone, Copy)]
struct GoesOn;

impl Test for GoesOn {
    ghost test = { λ _. form.goes_on };

    fn passes(&self, cursor: &Cursor<'_>) -> bool {
        !cursor.is_empty()
    }
}

/// A whole transcript.
#[derive(Clone, Copy)]
pub(crate) struct AllEntries<'a> {
    pub(crate) names: &'a Names,
}

impl<'a> Form for AllEntries<'a> {
    type Value = Entries;

    ghost form = { λ s. form.entries s.names.now };

    fn print(&self, entries: &Entries, out: &mut Bytes) -> Result<(), NoMemory> {
        let form = Repeated(GoesOn, AnyEntry { names: self.names });
        form.print(entries, out)
    }

    fn read(&self, alloc: Global, cursor: &mut Cursor<'_>) -> Result<Entries, Stop> {
        let form = Repeated(GoesOn, AnyEntry { names: self.names });
        form.read(alloc, cursor)
    }
}

/// Whether it is of a disk that failed, or of a full journal.
fn is_store_fault(fault: &Fault) -> bool
    ensures { result ≡ form.is_store_fault fault.now }
{
    matches!(fault, Fault::Store | Fault::JournalFull { .. })
}

/// The fault of a mark.
#[derive(Clone, Copy)]
struct StoreFault<'a> {
    names: &'a Names,
}

impl<'a> Form for StoreFault<'a> {
    type Value = Fault;

    ghost form = { λ s. form.store_fault s.names.now };

    fn print(&self, fault: &Fault, out: &mut Bytes) -> Result<(), NoMemory> {
        AnyFault { names: self.names }.print(fault, out)
    }

    fn read(&self, alloc: Global, cursor: &mut Cursor<'_>) -> Result<Fault, Stop> {
        let fault = AnyFault { names: self.names }.read(alloc, cursor)?;
        if !is_store_fault(&fault) {
            return Err(Stop::Bad);
        }
        Ok(fault)
    }
}

/// What became of a mark.
#[derive(Clone, Copy)]
struct AnyOutcome<'a> {
    names: &'a Names,
}

impl<'a> Form for AnyOutcome<'a> {
    type Value = MarkOutcome;

    ghost form = { λ s. form.outcome s.names.now };

    fn print(&self, outcome: &MarkOutcome, out: &mut Bytes) -> Result<(), NoMemory> {
        let fault_form = StoreFault { names: self.names };
        match outcome {
            MarkOutcome::Upto(number) => Count.print(number, out),
            MarkOutcome::Already => out.extend_from_slice(b"none"),
            MarkOutcome::Refused(fault) => print_after(b"fault ", &fault_form, fault, out),
        }
    }

    fn read(&self, alloc: Global, cursor: &mut Cursor<'_>) -> Result<MarkOutcome, Stop> {
        if starts_number(cursor) {
            return Ok(MarkOutcome::Upto(Count.read(alloc, cursor)?));
        }
        let fault_form = StoreFault { names: self.names };
        match which(&[b"none", b"fault "], cursor)? {
            0 => Ok(MarkOutcome::Already),
            1 => Ok(MarkOutcome::Refused(fault_form.read(alloc, cursor)?)),
            _ => unreachable!(),
        }
    }
}

/// What a worker did, as an entry.
fn action_entry(worker: u32, action: Action) -> Entry
    ensures { result ≡ form.action_entry worker action }
{
    match action {
        Action::Fetch(Forced { view, lo, hi }) => Entry::Fetched {
            worker,
            view,
            lo,
            hi,
        },
        Action::Idle => Entry::Idle { worker },
        Action::Busy => Entry::Busy { worker },
        Action::Install(Forced { view, lo, hi }) => Entry::Installed {
            worker,
            view,
            lo,
            hi,
        },
        Action::Moved {
            step: Forced { view, lo, hi },
            point,
        } => Entry::Moved {
            worker,
            view,
            lo,
            hi,
            point,
        },
        Action::Empty => Entry::Empty { worker },
        Action::Release => Entry::Released { worker },
    }
}

/// An entry, with the lines that belong to it.
#[derive(Clone, Copy)]
pub(crate) struct AnyEntry<'a> {
    pub(crate) names: &'a Names,
}

impl<'a> Form for AnyEntry<'a> {
    type Value = Entry;

    ghost form = { λ s. form.any_entry s.names.now };

    fn print(&self, entry: &Entry, out: &mut Bytes) -> Result<(), NoMemory> {
        let names = self.names;
        let reply = Pair(Small, b" ", AnyReply { names });
        let line = Pair(Name(&names.sessions), b" ", reply);
        let work = Both(Worker, AnyAction { names });
        let marked = Pair(Name(&names.views), b" ", Ended(AnyOutcome { names }, b"\n"));
        let numbers = Pair(Count, b" deltas ", Ended(Count, b"\n"));
        let cleaned = Pair(Count, b" versions ", numbers);
        match entry {
            Entry::Session {
                session,
                place,
                forced,
                reply,
            } => {
                print_all(&ForcedLine { names }, forced.as_slice(), out)?;
                line.print_three(b"", session, place, reply, out)
            }
            Entry::Fetched {
                worker,
                view,
                lo,
                hi,
            } => {
                let step = Forced {
                    view: *view,
                    lo: *lo,
                    hi: *hi,
                };
                print_after(b"w", &work, &(*worker, Action::Fetch(step)), out)
            }
            Entry::Idle { worker } => print_after(b"w", &work, &(*worker, Action::Idle), out),
            Entry::Busy { worker } => print_after(b"w", &work, &(*worker, Action::Busy), out),
            Entry::Installed {
                worker,
                view,
                lo,
                hi,
            } => {
                let step = Forced {
                    view: *view,
                    lo: *lo,
                    hi: *hi,
                };
                print_after(b"w", &work, &(*worker, Action::Install(step)), out)
            }
            Entry::Moved {
                worker,
                view,
                lo,
                hi,
                point,
            } => {
                let step = Forced {
                    view: *view,
                    lo: *lo,
                    hi: *hi,
                };
                print_after(
                    b"w",
                    &work,
                    &(
                        *worker,
                        Action::Moved {
                            step,
                            point: *point,
                        },
                    ),
                    out,
                )
            }
            Entry::Empty { worker } => print_after(b"w", &work, &(*worker, Action::Empty), out),
            Entry::Released { worker } => print_after(
                b"w",
                &work,
                &(*worker, Action::Release),
                out,
            ),
            Entry::Marked { view, outcome } => marked.print_after(b"mark ", view, outcome, out),
            Entry::MarkUnknown { name } => print_after(
                b"mark ",
                &Ended(Own, b" unknown\n"),
                name,
                out,
            ),
            Entry::Cleaned {
                floor,
                versions,
                deltas,
            } => cleaned.print_three(b"clean ", floor, versions, deltas, out),
        }
    }

    #[tactic(auto, unfolding(lv_forms::specs::Tables::which))]
    fn read(&self, alloc: Global, cursor: &mut Cursor<'_>) -> Result<Entry, Stop> {
        let names = self.names;
        if is_statement(cursor) {
            return statement(alloc, names, cursor);
        }
        let work = Both(Worker, AnyAction { names });
        let numbers = Pair(Count, b" deltas ", Ended(Count, b"\n"));
        let cleaned = Pair(Count, b" versions ", numbers);
        match which(&[b"mark ", b"w", b"clean "], cursor)? {
            0 => mark(alloc, names, cursor),
            1 => {
                let (worker, action) = work.read(alloc, cursor)?;
                Ok(action_entry(worker, action))
            }
            2 => {
                let (floor, (versions, deltas)) = cleaned.read(alloc, cursor)?;
                Ok(Entry::Cleaned {
                    floor,
                    versions,
                    deltas,
                })
            }
            _ => unreachable!(),
        }
    }
}

/// Reads a statement's lines.
fn statement(alloc: Global, names: &Names, cursor: &mut Cursor<'_>) -> Result<Entry, Stop>
    ensures { Gives (form.read_statement names.now cursor.old) result cursor.new }
{
    let reply = Pair(Small, b" ", AnyReply { names });
    let line = Pair(Name(&names.sessions), b" ", reply);
    let steps = Repeated(IsForced, ForcedLine { names });
    let (forced, (session, (place, reply))) = Both(steps, line).read(alloc, cursor)?;
    Ok(Entry::Session {
        session,
        place,
        forced,
        reply,
    })
}

/// Reads a mark, from behind its first word on.
fn mark(alloc: Global, names: &Names, cursor: &mut Cursor<'_>) -> Result<Entry, Stop>
    ensures { Gives (form.read_mark names.now cursor.old) result cursor.new }
{
    if is_unknown(cursor) {
        let name = Ended(Own, b" unknown\n").read(alloc, cursor)?;
        return Ok(Entry::MarkUnknown { name });
    }
    let marked = Pair(Name(&names.views), b" ", Ended(AnyOutcome { names }, b"\n"));
    let (view, outcome) = marked.read(alloc, cursor)?;
    Ok(Entry::Marked { view, outcome })
}
