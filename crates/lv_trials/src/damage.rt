//! Journals that are damaged, and scripts that are cut.

use crate::runs::{Left, run_again};
use crate::worked::{ITEMS, JOURNAL, NO_ROW, NO_TABLE, ONE_ROW, SHOP};
use lv_runner::Status;
use lv_values::{Bytes, NoMemory};
use std::alloc::Global;
use std::sync::Wait;
use std::thread::Threads;

/// How a journal opens.
#[derive(Clone, Copy, Debug, PartialEq, Eq)]
enum Opened {
    /// With the table and its row.
    WithRow,
    /// With the table alone.
    WithTable,
    /// Without a table.
    Empty,
    /// Not: it is bad at an offset. Nothing is written, and the journal stays.
    Bad(u64),
    /// In another way.
    Other,
}

/// How a journal opened that gave this text.
fn shown(text: &[u8]) -> Opened {
    if text == ONE_ROW {
        return Opened::WithRow;
    }
    if text == NO_ROW {
        return Opened::WithTable;
    }
    if text == NO_TABLE {
        return Opened::Empty;
    }
    Opened::Other
}

/// How a journal of these bytes opened in a run.
fn read_as(left: &Left, bytes: &[u8]) -> Opened {
    let text = left.text.as_slice();
    match &left.status {
        Status::Done => shown(text),
        Status::BadJournal { offset } if text.is_empty() && left.holds(bytes) => Opened::Bad(
            *offset,
        ),
        _ => Opened::Other,
    }
}

/// How these bytes open.
fn open<R: Threads + Wait + Sync>(rt: &R, alloc: Global, bytes: Bytes) -> Result<Opened, NoMemory> {
    let left = run_again(rt, alloc, ITEMS, bytes.as_slice());
    left.map(|left| read_as(&left, bytes.as_slice()))
}

/// The journal, cut to a length, with a byte at a place, if that is in it.
fn damaged(alloc: Global, length: usize, at: usize, byte: u8) -> Result<Bytes, NoMemory> {
    let mut bytes = Vec::from_slice(alloc, JOURNAL.get(..length).unwrap_or(b""))?;
    if at < bytes.len() {
        bytes[at] = byte;
    }
    Ok(Bytes::from_vec(bytes))
}

/// A length that the journal is cut to, a place and the byte that is put there, and how it then opens.
type Damage = (usize, usize, u8, Opened);

static DAMAGES: [Damage; 16] = [
    (77, 77, 0, Opened::WithRow),
    // Cut.
    (0, 77, 0, Opened::Empty),
    (3, 77, 0, Opened::Bad(0)),
    (8, 77, 0, Opened::Bad(8)),
    (9, 77, 0, Opened::Bad(9)),
    (50, 77, 0, Opened::Bad(34)),
    (76, 77, 0, Opened::Bad(76)),
    // The first byte; the first gate; and the second one, in a journal that is cut behind it.
    (77, 0, 0, Opened::Bad(0)),
    (77, 8, 2, Opened::Empty),
    (50, 33, 0, Opened::WithTable),
    // The length of the first frame, which is 20, and what kind of a record it has.
    (77, 9, 0, Opened::Bad(9)),
    (77, 9, 21, Opened::Bad(9)),
    (77, 13, 9, Opened::Bad(9)),
    // The number of the commit; the number of its statement; and that the row comes, where it would go.
    (77, 39, 2, Opened::Bad(34)),
    (77, 52, 0, Opened::Bad(34)),
    (77, 56, 2, Opened::Bad(34)),
];

/// Whether the journal opens so with a damage.
fn opens_so<R: Threads + Wait + Sync>(
    rt: &R,
    alloc: Global,
    damage: &Damage,
) -> Result<bool, NoMemory> {
    let bytes = damaged(alloc, damage.0, damage.1, damage.2)?;
    Ok(open(rt, alloc, bytes)? == damage.3)
}

#[test]
fn a_damaged_journal_is_refused_with_its_place(rt: HostRuntime) {
    assert!(rt; JOURNAL.len() == 77);
    let damages = &DAMAGES;
    for at in 0..damages.len() {
        assert!(rt;
            opens_so(&rt, rt.alloc(), &damages[at]) == Ok(true),
            "case {at}"
        );
    }
}

/// How the journal opens with bytes behind it.
fn open_followed<R: Threads + Wait + Sync>(rt: &R, alloc: Global) -> Result<Opened, NoMemory> {
    let mut bytes = Bytes::from_slice(alloc, JOURNAL)?;
    bytes.extend_from_slice(b"\xff\xff\xff")?;
    open(rt, alloc, bytes)
}

#[test]
fn bytes_behind_the_last_gate_mean_nothing(rt: HostRuntime) {
    assert!(rt; open_followed(&rt, rt.alloc()) == Ok(Opened::WithRow));
}

/// Whether a script runs, or is refused with nothing written.
fn runs_or_is_refused<R: Threads + Wait + Sync>(
    rt: &R,
    alloc: Global,
    script: &[u8],
) -> Result<bool, NoMemory> {
    let left = run_again(rt, alloc, script, b"")?;
    Ok(match &left.status {
        Status::Done => true,
        Status::Script { .. } => left.text.as_slice().is_empty(),
        _ => false,
    })
}

#[test]
fn a_script_that_is_cut_at_a_byte_runs_or_is_refused(rt: HostRuntime) {
    let whole = SHOP;
    for length in 0..whole.len() + 1 {
        let script = whole.get(..length).unwrap_or(b"");
        assert!(rt;
            runs_or_is_refused(&rt, rt.alloc(), script) == Ok(true),
            "cut to {length}"
        );
    }
}
