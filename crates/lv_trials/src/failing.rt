//! One call of the outside fails, in scripts with transactions and marks.

use crate::runs::{Given, Left, run_again, run_asking, run_on};
use crate::worked::{JOURNAL, LOOK, TWICE, count_of};
use lv_runner::Status;
use lv_values::NoMemory;
use std::alloc::Global;
use std::sync::Wait;
use std::thread::Threads;

/// Commits, a forced step and a mark.
const SHOP: &[u8] = b"@setup
create table item (id int, price int, primary key (id))
create table sale (no int, item int, qty int, primary key (no))
create view per_item as select s.item, sum(s.qty) as total, count(*) as n from sale s, item i where s.item = i.id group by s.item
create view lines as select s.no, i.id, i.price, s.qty from sale s, item i where s.item = i.id
@session a
insert into item values (1, 10)
insert into sale values (100, 1, 5)
select * from per_item
insert into item values (2, 20)
insert into item values (3, 30)
@order a a a mark per_item
";

/// A table that is there already, and what is in it.
const AGAIN: &[u8] = b"@session a
select id from item
";

/// Whether a commit whose gate is in doubt is tried again.
fn is_tried_again<R: Threads + Wait + Sync>(rt: &R, alloc: Global) -> Result<bool, NoMemory> {
    let want: &[u8] = b"setup 1 ok
a 1 begin 0
a 2 ok 1
a 3 fault 17 store fault
a 4 commit 1
a 5 rows 1
| 1 | 10
";
    let left = run_on(rt, alloc, TWICE, b"", &[(4, 5)], &[])?;
    let is_so = left.is(Status::Done, want) && left.holds(JOURNAL);
    drop(left);
    Ok(is_so)
}

#[test]
fn a_commit_whose_gate_is_in_doubt_is_tried_again(rt: HostRuntime) {
    assert!(rt; is_tried_again(&rt, rt.alloc()) == Ok(true));
}

/// Whether what was written before a sink failed is in the journal.
fn is_in_the_journal<R: Threads + Wait + Sync>(rt: &R, alloc: Global) -> Result<bool, NoMemory> {
    let want: &[u8] = b"setup 1 ok
setup 2 ok
setup 3 ok
setup 4 ok
a 1 ok 1 commit 1
a 2 ok 1 commit 2
";
    let rows: &[u8] = b"a 1 rows 1
| 1 | 10
a 2 rows 1
| 100 | 1 | 5
";
    let left = run_on(rt, alloc, SHOP, b"", &[], &[7])?;
    let is_written = left.is(Status::SinkFault, want);
    let shows = left.shows(rt, alloc, LOOK, rows);
    drop(left);
    Ok(is_written && shows?)
}

#[test]
fn what_was_written_before_a_sink_failed_is_in_the_journal(rt: HostRuntime) {
    assert!(rt; is_in_the_journal(&rt, rt.alloc()) == Ok(true));
}

/// How many rows a journal has, if it opens.
fn rows_of<R: Threads + Wait + Sync>(
    rt: &R,
    alloc: Global,
    bytes: &[u8],
) -> Result<Option<u64>, NoMemory> {
    let again = run_again(rt, alloc, LOOK, bytes)?;
    Ok((again.status == Status::Done).then_some(count_of(again.text.as_slice(), b"\n| ")))
}

/// Whether a run of which one call of the disk fails ended well, or as one whose journal could not be opened; and whether the disk
/// then has the rows of all that was accepted, and at most one more.
fn is_left<R: Threads + Wait + Sync>(rt: &R, alloc: Global, left: &Left) -> Result<bool, NoMemory> {
    let text = left.text.as_slice();
    if left.status == Status::OpenFault {
        return Ok(text.is_empty());
    }
    let Some(disk) = &left.disk else {
        return Ok(false);
    };
    let rows = rows_of(rt, alloc, disk.as_slice())?;
    let accepted = count_of(text, b" ok 1 commit ");
    let failures = count_of(text, b" fault 17 store fault");
    Ok(
        left.status == Status::Done
            && failures <= 1
            && (rows == Some(accepted) || rows == Some(accepted.saturating_add(failures))),
    )
}

/// Whether a run of which this call of the disk fails leaves so.
fn survives<R: Threads + Wait + Sync>(
    rt: &R,
    alloc: Global,
    kind: u8,
    number: u64,
) -> Result<bool, NoMemory> {
    let left = run_on(rt, alloc, SHOP, b"", &[(kind, number)], &[])?;
    let is_so = is_left(rt, alloc, &left);
    drop(left);
    is_so
}

#[test]
fn each_failing_call_of_the_disk_is_survived(rt: HostRuntime) {
    for kind in 1..5u8 {
        for number in 1..24u64 {
            assert!(rt;
                survives(&rt, rt.alloc(), kind, number) == Ok(true),
                "kind {kind} call {number}"
            );
        }
    }
}

/// A run over empty disks in memory: its words, its script, the calls of the source and the asking for a disk that fail, and how it is
/// to end.
type Case = (
    &'static [&'static str],
    &'static [u8],
    &'static [u64],
    u64,
    Status,
);

static CASES: [Case; 8] = [
    (&["--combine", "0"], b"\xff", &[1], 1, Status::Words),
    (&["--log", ""], b"", &[], 9, Status::Words),
    (&["--make", "9", "--threads"], b"", &[], 9, Status::Words),
    (&[], AGAIN, &[2], 1, Status::SourceFault),
    (&[], b"\xff", &[], 1, Status::Script { line: 1, kind: 1 }),
    (&[], AGAIN, &[], 1, Status::OpenFault),
    (&["--log", "x"], AGAIN, &[], 9, Status::Done),
    (&["--make", "9"], b"\xff", &[1], 9, Status::Done),
];

/// Whether a run ends so.
fn ends_so<R: Threads + Wait + Sync>(rt: &R, alloc: Global, case: &Case) -> Result<bool, NoMemory> {
    let given = Given {
        words: case.0,
        script: case.1,
        source_fails: case.2,
        sink_fails: &[],
    };
    Ok(run_asking(rt, alloc, &given, case.3)?.status == case.4)
}

#[test]
fn each_status_comes_before_the_next(rt: HostRuntime) {
    let cases = &CASES;
    for at in 0..cases.len() {
        assert!(rt;
            ends_so(&rt, rt.alloc(), &cases[at]) == Ok(true),
            "case {at}"
        );
    }
}
