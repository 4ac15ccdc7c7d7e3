//! Files of a journal.

use crate::records::{COMMIT, TABLE};
use lv_journal::{JFault, Journal, JournalReader};
use lv_outside::MemDisk;
use lv_values::{Bytes, Items, NoMemory};
use std::alloc::Global;

/// The journal that has the two records.
const WORKED: &[u8] =
    b"LVJRNL01\x01\x14\x00\x00\x00\x01\x04item\x02\x02id\x01\x05price\x01\x01\x00\x01&\x00\x00\x00\x03\x01\x00\x00\x00\x00\x00\x00\x00\x01\x00\x00\x00\x00\x01\x00\x00\x00\x01\x02\x01\x01\x00\x00\x00\x00\x00\x00\x00\x01\x0a\x00\x00\x00\x00\x00\x00\x00\x00";

/// How a file is answered.
#[derive(Clone, Copy, Debug, PartialEq, Eq)]
enum Opened {
    /// It has so many records.
    Records(u64),
    /// It is bad at an offset.
    Bad(u64),
    /// The disk failed, or memory is wanting.
    Other,
}

/// A disk in memory that has these bytes and never fails.
fn disk_of(alloc: Global, bytes: &[u8]) -> Result<MemDisk, NoMemory> {
    let bytes = Bytes::from_slice(alloc, bytes)?;
    Ok(MemDisk::new(bytes, Items::new(alloc)))
}

/// The answer that a fault is.
fn answer_of(fault: JFault) -> Opened {
    match fault {
        JFault::Bad { offset } => Opened::Bad(offset),
        JFault::Failed | JFault::NoMemory => Opened::Other,
    }
}

/// Reads at most 9 records.
fn count_records(reader: &mut JournalReader<MemDisk>) -> Opened {
    for count in 0..9 {
        match reader.next() {
            Ok(Some(_)) => {}
            Ok(None) => return Opened::Records(count),
            Err(fault) => return answer_of(fault),
        }
    }
    Opened::Other
}

/// How a file with these bytes is answered.
fn open(alloc: Global, bytes: &[u8]) -> Opened {
    let Ok(disk) = disk_of(alloc, bytes) else {
        return Opened::Other;
    };
    match JournalReader::attach(alloc, disk) {
        Ok(mut reader) => count_records(&mut reader),
        Err(refused) => answer_of(refused.cause),
    }
}

#[test]
fn damaged_files_are_refused_with_a_place(rt: HostRuntime) {
    for (bytes, want) in [
        (WORKED, Opened::Records(2)),
        (b"LVJRNL02\x00", Opened::Bad(0)),
        (b"LVJRNL01\x02\x01", Opened::Records(0)),
        (b"LVJRNL01\x01\x00\x00\x00\x00", Opened::Bad(9)),
        (b"LVJRNL01\x01\xff\xff\xff\xff\x00", Opened::Bad(9)),
    ] {
        let length = bytes.len();
        assert_eq!(rt; open(rt.alloc(), bytes), want, "{length} bytes");
    }
}

#[test]
fn cut_files_are_refused_with_a_place(rt: HostRuntime) {
    for (length, want) in [
        (0, Opened::Records(0)),
        (3, Opened::Bad(0)),
        (8, Opened::Bad(8)),
        (9, Opened::Bad(9)),
        (34, Opened::Bad(34)),
        (50, Opened::Bad(34)),
        (76, Opened::Bad(76)),
    ] {
        let front = WORKED.get(..length).unwrap_or(b"");
        assert_eq!(rt; open(rt.alloc(), front), want, "cut to {length}");
    }
}

/// A new journal, ready to be written.
fn new_journal(alloc: Global) -> Option<Journal<MemDisk>> {
    let disk = disk_of(alloc, b"").ok()?;
    let mut reader = JournalReader::attach(alloc, disk).ok()?;
    match reader.next() {
        Ok(None) => Some(reader.finish()),
        Ok(Some(_)) | Err(_) => None,
    }
}

/// Puts a payload, and answers whether it stands.
fn put(journal: &mut Journal<MemDisk>, payload: &[u8]) -> bool {
    if payload.is_empty() || payload.len() >= 4294967296 {
        return false;
    }
    journal.reserve(payload.len() as u64).is_ok() && journal.put(payload).is_ok()
}

/// Puts the two records: whether the first stands, what the second needs, whether it stands, and how many faults there are.
fn put_both(journal: &mut Journal<MemDisk>) -> (bool, u64, bool, u64) {
    let first = put(journal, TABLE);
    let need = journal.need(38);
    let second = put(journal, COMMIT);
    (first, need, second, journal.faults())
}

/// How the two records are put in a new journal, and the disk then; none where there is no new journal.
fn put_in_new(alloc: Global) -> Option<((bool, u64, bool, u64), MemDisk)> {
    let mut journal = new_journal(alloc)?;
    let went = put_both(&mut journal);
    Some((went, journal.into_disk()))
}

#[test]
fn two_records_make_the_worked_file(rt: HostRuntime) {
    let left = put_in_new(rt.alloc());
    assert!(rt;
        left.is_some_and(|(went, disk)| went == (true, 77, true, 0) && disk.bytes() == WORKED)
    );
}
