//! Each single call of the outside fails in turn: how the run ends, what it writes, and what the disk then has.

use crate::runs::{Given, Left, run_again, run_asking, run_on};
use crate::worked::{
    ITEMS, JOURNAL, NO_ROW, NO_TABLE, ONE_ROW, SHOP, SHOP_TEXT, accepted, records_of,
};
use lv_runner::Status;
use lv_values::NoMemory;
use std::alloc::Global;
use std::sync::Wait;
use std::thread::Threads;

/// A table and a commit.
const TWO: &[u8] = b"@setup
create table item (id int, price int, primary key (id))
@session a
insert into item values (1, 10)
";

/// A call of the disk: its kind (1 length, 2 read, 3 write, 4 sync), and its number among those of the kind.
type Call = (u8, u64);

/// What is answered to the shop's script where the disk does not keep the record of this number, the first being 1.
fn text_without(record: u64) -> &'static [u8] {
    match record {
        1 => {
            b"setup 1 fault 17 store fault
setup 2 ok
setup 3 fault 2 unknown name item
setup 4 fault 2 unknown name item
a 1 fault 2 unknown name item
a 2 ok 1 commit 1
a 3 fault 2 unknown name per_item
"
        }
        2 => {
            b"setup 1 ok
setup 2 fault 17 store fault
setup 3 fault 2 unknown name sale
setup 4 fault 2 unknown name sale
a 1 ok 1 commit 1
a 2 fault 2 unknown name sale
a 3 fault 2 unknown name per_item
"
        }
        3 => {
            b"setup 1 ok
setup 2 ok
setup 3 fault 17 store fault
setup 4 ok
a 1 ok 1 commit 1
a 2 ok 1 commit 2
a 3 fault 2 unknown name per_item
"
        }
        4 => {
            b"setup 1 ok
setup 2 ok
setup 3 ok
setup 4 fault 17 store fault
a 1 ok 1 commit 1
a 2 ok 1 commit 2
force per_item 0 2
a 3 rows 1
| 1 | 5 | 1
"
        }
        5 => {
            b"setup 1 ok
setup 2 ok
setup 3 ok
setup 4 ok
a 1 fault 17 store fault
a 2 ok 1 commit 1
force per_item 0 1
a 3 rows 0
"
        }
        6 => {
            b"setup 1 ok
setup 2 ok
setup 3 ok
setup 4 ok
a 1 ok 1 commit 1
a 2 fault 17 store fault
force per_item 0 1
a 3 rows 0
"
        }
        _ => SHOP_TEXT,
    }
}

/// What a call of the disk is for.
#[derive(Clone, Copy, PartialEq, Eq)]
enum Use {
    /// The journal is opened: a look at the length, a write and a sync of its first bytes, and a read of its first gate.
    Opening,
    /// The record of this number: each takes two writes and two syncs.
    Record(u64),
    /// There is no such call.
    Nothing,
}

/// What a call is for, in a run over an empty disk that keeps six records.
fn use_of(call: Call) -> Use {
    let (kind, number) = call;
    if number == 1 {
        return Use::Opening;
    }
    if kind < 3 || number > 13 {
        return Use::Nothing;
    }
    Use::Record(number / 2)
}

/// Whether a disk came back whose journal opens again and has so many records.
fn opens_with<R: Threads + Wait + Sync>(
    rt: &R,
    alloc: Global,
    left: &Left,
    records: u64,
) -> Result<bool, NoMemory> {
    let Some(disk) = &left.disk else {
        return Ok(false);
    };
    let is_done = run_again(rt, alloc, ITEMS, disk.as_slice())?.status == Status::Done;
    Ok(is_done && records_of(alloc, disk.as_slice()) == Some(records))
}

/// Whether a run of the shop's script of which a call of the disk fails left this: it is refused with nothing written, where the call is one of the opening;
/// and else is answered as one whose record was not kept. At the end the disk has the accepted records; where the last sync fails, it
/// has also the record that was to be kept by it.
fn is_left<R: Threads + Wait + Sync>(
    rt: &R,
    alloc: Global,
    left: &Left,
    call: Call,
) -> Result<bool, NoMemory> {
    let used = use_of(call);
    if used == Use::Opening {
        return Ok(left.is(Status::OpenFault, b"") && left.disk.is_some());
    }
    let want = match used {
        Use::Record(record) => text_without(record),
        _ => SHOP_TEXT,
    };
    let doubt = if call == (4, 13) { 1 } else { 0 };
    let records = accepted(want).saturating_add(doubt);
    Ok(left.is(Status::Done, want) && opens_with(rt, alloc, left, records)?)
}

/// Whether a run of which this call of the disk fails leaves so.
fn is_answered<R: Threads + Wait + Sync>(
    rt: &R,
    alloc: Global,
    call: Call,
) -> Result<bool, NoMemory> {
    let left = run_on(rt, alloc, SHOP, b"", &[call], &[])?;
    let is_so = is_left(rt, alloc, &left, call);
    drop(left);
    is_so
}

#[test]
fn each_call_of_the_disk_is_answered_for(rt: HostRuntime) {
    for kind in 1..5u8 {
        for number in 1..15u64 {
            assert!(rt;
                is_answered(&rt, rt.alloc(), (kind, number)) == Ok(true),
                "kind {kind} call {number}"
            );
        }
    }
}

/// Whether the opening of a journal of which a call fails is refused with nothing written, the bytes as they were; and a call that is none
/// of the opening changes nothing.
fn is_opened<R: Threads + Wait + Sync>(
    rt: &R,
    alloc: Global,
    call: Call,
    is_needed: bool,
) -> Result<bool, NoMemory> {
    let left = run_on(rt, alloc, ITEMS, JOURNAL, &[call], &[])?;
    let is_so = if is_needed {
        left.is(Status::OpenFault, b"")
    } else {
        left.is(Status::Done, ONE_ROW)
    };
    let stays = left.holds(JOURNAL);
    drop(left);
    Ok(is_so && stays)
}

#[test]
fn each_call_of_an_opening_is_answered_for(rt: HostRuntime) {
    // Its length, a sync, and reads: of the first bytes, of each of two frames in two parts, and of the last gate.
    for (kind, needed) in [(1u8, 1), (2, 6), (3, 0), (4, 1)] {
        for number in 1..9u64 {
            assert!(rt;
                is_opened(&rt, rt.alloc(), (kind, number), number <= needed) == Ok(true),
                "kind {kind} call {number}"
            );
        }
    }
}

/// The first lines of a text.
fn first_lines(text: &[u8], count: u64) -> &[u8] {
    let mut left = count;
    for at in 0..text.len() {
        if left == 0 {
            return text.get(..at).unwrap_or(text);
        }
        if text[at] == b'\n' {
            left -= 1;
        }
    }
    text
}

/// Whether a run of the shop's script of which a call of the sink fails has written the entries before it, and its disk has the records of these and of the
/// entry that was to be written. There are eight calls: seven entries, each one piece, and a flush.
fn is_written_so_far<R: Threads + Wait + Sync>(
    rt: &R,
    alloc: Global,
    number: u64,
) -> Result<bool, NoMemory> {
    let want = if number < 8 {
        first_lines(SHOP_TEXT, number.saturating_sub(1))
    } else {
        SHOP_TEXT
    };
    let status = if number < 9 {
        Status::SinkFault
    } else {
        Status::Done
    };
    let left = run_on(rt, alloc, SHOP, b"", &[], &[number])?;
    let opens = opens_with(rt, alloc, &left, number.min(6));
    let is_written = left.is(status, want);
    drop(left);
    Ok(is_written && opens?)
}

#[test]
fn each_call_of_the_sink_is_answered_for(rt: HostRuntime) {
    for number in 1..10u64 {
        assert!(rt;
            is_written_so_far(&rt, rt.alloc(), number) == Ok(true),
            "call {number}"
        );
    }
}

/// Whether a run of the shop's script over empty disks ends so, where a call of the source fails, and an asking for a disk: with all
/// written, or with nothing written and no disk.
fn ends_so<R: Threads + Wait + Sync>(
    rt: &R,
    alloc: Global,
    source_fails: u64,
    asking_fails: u64,
    status: Status,
) -> Result<bool, NoMemory> {
    let given = Given {
        words: &[],
        script: SHOP,
        source_fails: &[source_fails],
        sink_fails: &[],
    };
    let left = run_asking(rt, alloc, &given, asking_fails)?;
    let is_so = if status == Status::Done {
        left.is(status, SHOP_TEXT)
    } else {
        left.is(status, b"") && left.disk.is_none()
    };
    drop(left);
    Ok(is_so)
}

#[test]
fn each_call_of_the_source_and_the_disks_is_answered_for(rt: HostRuntime) {
    // The source is read twice: its bytes, and its end. One disk is asked for.
    assert!(rt; ends_so(&rt, rt.alloc(), 1, 0, Status::SourceFault) == Ok(true));
    assert!(rt; ends_so(&rt, rt.alloc(), 2, 0, Status::SourceFault) == Ok(true));
    assert!(rt; ends_so(&rt, rt.alloc(), 0, 1, Status::OpenFault) == Ok(true));
    assert!(rt; ends_so(&rt, rt.alloc(), 3, 2, Status::Done) == Ok(true));
}

/// Whether a table of which this sync fails is refused, and a second run then answers so.
fn is_in_doubt<R: Threads + Wait + Sync>(
    rt: &R,
    alloc: Global,
    sync: u64,
    rows: &[u8],
) -> Result<bool, NoMemory> {
    let want: &[u8] = b"setup 1 fault 17 store fault
a 1 fault 2 unknown name item
";
    let left = run_on(rt, alloc, TWO, b"", &[(4, sync)], &[])?;
    let is_refused = left.is(Status::Done, want);
    let shows = left.shows(rt, alloc, ITEMS, rows);
    drop(left);
    Ok(is_refused && shows?)
}

#[test]
fn a_table_of_which_a_sync_fails_is_in_doubt(rt: HostRuntime) {
    assert!(rt; is_in_doubt(&rt, rt.alloc(), 2, NO_TABLE) == Ok(true));
    assert!(rt; is_in_doubt(&rt, rt.alloc(), 3, NO_ROW) == Ok(true));
}
