//! Runs in threads: over one program, two threads that wait for each other.

use crate::runs::{Given, run_again, run_over_one};
use crate::worked::LOOK;
use crossbeam_utils::Backoff;
use lv_outside::{FreeGate, Gate};
use lv_runner::Status;
use lv_values::NoMemory;
use std::alloc::Global;
use std::sync::Wait;
use std::sync::atomic::{AtomicU64, Ordering};
use std::thread::Threads;

/// How often an awaited turn is looked for, at most.
const LOOKS: u32 = 5_000_000;

/// A change, and a query of a view that a worker can bring up to date between the two.
const BETWEEN: &[u8] = b"@setup
create table item (id int, price int, primary key (id))
create table sale (no int, item int, qty int, primary key (no))
create view per_item as select s.item, sum(s.qty) as total, count(*) as n from sale s, item i where s.item = i.id group by s.item
@session a
insert into item values (1, 10)
select * from per_item
";

/// A journal's begin: a view over two rows.
const FIRST: &[u8] = b"@setup
create table item (id int, price int, primary key (id))
create table sale (no int, item int, qty int, primary key (no))
create view per_item as select s.item, sum(s.qty) as total, count(*) as n from sale s, item i where s.item = i.id group by s.item
@session a
insert into item values (1, 10)
insert into sale values (100, 1, 5)
";

/// What goes on over it.
const SECOND: &[u8] = b"@session a
select * from per_item
insert into item values (2, 20)
";

/// The last turns of session 1 and of worker 1 that are answered. The worker's first turn waits for the session's first one, and
/// the session's second for the worker's first.
#[derive(Drop)]
struct InTurn {
    session: AtomicU64,
    worker: AtomicU64,
    missed: AtomicU64,
}

impl InTurn {
    /// Waits until an actor's first turn is answered, and notes where it was not seen.
    fn wait_for(&self, answered: &AtomicU64) {
        let backoff = Backoff::new();
        for _ in 0..LOOKS {
            if answered.load(Ordering::SeqCst) >= 1 {
                return;
            }
            backoff.snooze();
        }
        self.missed.store(1, Ordering::SeqCst);
    }
}

impl Gate for InTurn {
    fn before(&self, who: u32, turn: u64) {
        if who == 17 && turn == 1 {
            self.wait_for(&self.session);
        }
        if who == 1 && turn == 2 {
            self.wait_for(&self.worker);
        }
    }

    fn after(&self, who: u32, turn: u64) {
        if who == 1 {
            self.session.store(turn, Ordering::SeqCst);
        }
        if who == 17 {
            self.worker.store(turn, Ordering::SeqCst);
        }
    }
}

/// A script with words, of which no call fails.
fn given<'a>(words: &'a [&'a str], script: &'a [u8]) -> Given<'a> {
    Given {
        words,
        script,
        source_fails: &[],
        sink_fails: &[],
    }
}

/// Whether a worker installs between two turns of a session that wait for it, where this gate lets each go on.
fn installs_between<R: Threads + Wait + Sync>(
    rt: &R,
    alloc: Global,
    gate: &InTurn,
) -> Result<bool, NoMemory> {
    let want: &[u8] = b"setup 1 ok
setup 2 ok
setup 3 ok
a 1 ok 1 commit 1
w1 fetch per_item 0 1
w1 install per_item 0 1
clean 1 versions 1 deltas 0
a 2 rows 0
";
    let words = ["--threads", "--workers", "1"];
    let given = given(&words, BETWEEN);
    Ok(run_over_one(rt, alloc, &given, b"", &[], gate)?.is(Status::Done, want))
}

#[test]
fn a_worker_installs_between_two_turns_of_a_session(rt: HostRuntime) {
    let gate = InTurn {
        session: AtomicU64::new(0),
        worker: AtomicU64::new(0),
        missed: AtomicU64::new(0),
    };
    let installs = installs_between(&rt, rt.alloc(), &gate);
    assert!(rt; gate.missed.load(Ordering::SeqCst) == 0);
    assert!(rt; installs == Ok(true));
}

/// Whether threads go on over an old journal, and it then has the rows.
fn go_on<R: Threads + Wait + Sync>(rt: &R, alloc: Global, bytes: &[u8]) -> Result<bool, NoMemory> {
    let want: &[u8] = b"force per_item 0 2
a 1 rows 1
| 1 | 5 | 1
a 2 ok 1 commit 3
";
    let rows: &[u8] = b"a 1 rows 2
| 1 | 10
| 2 | 20
a 2 rows 1
| 100 | 1 | 5
";
    let words = ["--threads", "--workers=0"];
    let left = run_over_one(rt, alloc, &given(&words, SECOND), bytes, &[], &FreeGate)?;
    let is_left = left.is(Status::Done, want);
    let shows = left.shows(rt, alloc, LOOK, rows);
    drop(left);
    Ok(is_left && shows?)
}

/// The same over the journal of a run.
fn go_on_over<R: Threads + Wait + Sync>(
    rt: &R,
    alloc: Global,
    script: &[u8],
) -> Result<bool, NoMemory> {
    let left = run_again(rt, alloc, script, b"")?;
    let is_so = match &left.disk {
        Some(disk) => go_on(rt, alloc, disk.as_slice()),
        None => Ok(false),
    };
    drop(left);
    is_so
}

#[test]
fn threads_go_on_over_an_old_journal(rt: HostRuntime) {
    assert!(rt; go_on_over(&rt, rt.alloc(), FIRST) == Ok(true));
}
