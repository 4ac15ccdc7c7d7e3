//! A disk that stops after some calls, and what a crash then may leave of it.
ghost use Rattle.std.specs.Prelude.{◌<◌};

use crate::runs::{Ended, Given, run_again, run_with};
use crate::worked::{ITEMS, NO_ROW, NO_TABLE, ONE_ROW, TWICE, accepted, records_of};
use lv_outside::{CrashDisk, Disk, FreeGate, OneDisk};
use lv_runner::Status;
use lv_values::NoMemory;
use std::alloc::Global;
use std::sync::Wait;
use std::thread::Threads;

/// What is answered to `TWICE` where no call fails.
const WHOLE: &[u8] = b"setup 1 ok
a 1 begin 0
a 2 ok 1
a 3 commit 1
a 4 fault 10 no transaction
a 5 rows 1
| 1 | 10
";

/// How many calls open an empty disk: its length, a write, a sync and a read.
const OPENING: u64 = 4;

/// How many calls the whole run takes: two records behind that, each with two writes and two syncs.
const ALL: u64 = 12;

/// A run over a disk of which so many calls pass.
fn stopped_after<R: Threads + Wait + Sync>(
    rt: &R,
    alloc: Global,
    good: u64,
) -> Result<Ended<CrashDisk>, NoMemory> {
    let given = Given {
        words: &[],
        script: TWICE,
        source_fails: &[],
        sink_fails: &[],
    };
    let mut disks = OneDisk::new(alloc, CrashDisk::new(alloc, good)?);
    let ended = run_with(rt, alloc, &given, &mut disks, &FreeGate);
    drop(disks);
    ended
}

/// What the table has where so many records are kept.
fn rows_with(records: u64) -> &'static [u8] {
    match records {
        0 => NO_TABLE,
        1 => NO_ROW,
        _ => ONE_ROW,
    }
}

/// Whether a journal opens, with so many records or one more.
fn keeps<R: Threads + Wait + Sync>(
    rt: &R,
    alloc: Global,
    bytes: &[u8],
    written: u64,
) -> Result<bool, NoMemory> {
    let Some(records) = records_of(alloc, bytes) else {
        return Ok(false);
    };
    let shows = run_again(rt, alloc, ITEMS, bytes)?.is(Status::Done, rows_with(records));
    Ok(shows && (records == written || records == written.saturating_add(1)))
}

/// Whether an image of the disk opens so.
fn is_kept<R: Threads + Wait + Sync>(
    rt: &R,
    alloc: Global,
    disk: &CrashDisk,
    pick: u8,
    written: u64,
) -> Result<bool, NoMemory>
    requires { pick < 4 }
{
    let image = disk.image(pick)?;
    keeps(rt, alloc, image.as_slice(), written)
}

/// Whether each image of the disk opens so.
fn are_kept<R: Threads + Wait + Sync>(
    rt: &R,
    alloc: Global,
    disk: &CrashDisk,
    written: u64,
) -> Result<bool, NoMemory> {
    for pick in 0..4u8 {
        if !is_kept(rt, alloc, disk, pick, written)? {
            return Ok(false);
        }
    }
    Ok(true)
}

/// Whether a run over a disk of which so many calls pass ended so: as one whose journal could not be opened, or well; and what it wrote
/// as accepted is kept.
fn is_left<R: Threads + Wait + Sync>(
    rt: &R,
    alloc: Global,
    ended: &Ended<CrashDisk>,
    good: u64,
) -> Result<bool, NoMemory> {
    let Some(disk) = &ended.disk else {
        return Ok(false);
    };
    let text = ended.text.as_slice();
    let is_whole = disk.faults() == 0;
    if is_whole != (good == ALL) || (text == WHOLE) != is_whole {
        return Ok(false);
    }
    if good < OPENING {
        return Ok(ended.status == Status::OpenFault && text.is_empty());
    }
    Ok(ended.status == Status::Done && are_kept(rt, alloc, disk, accepted(text))?)
}

/// Whether each run ends so.
fn outlives<R: Threads + Wait + Sync>(rt: &R, alloc: Global, good: u64) -> Result<bool, NoMemory> {
    let ended = stopped_after(rt, alloc, good)?;
    let is_so = is_left(rt, alloc, &ended, good);
    drop(ended);
    is_so
}

#[test]
fn what_is_written_as_accepted_outlives_each_stop(rt: HostRuntime) {
    for good in 0..ALL + 1 {
        assert!(rt;
            outlives(&rt, rt.alloc(), good) == Ok(true),
            "stopped after {good} calls"
        );
    }
}
