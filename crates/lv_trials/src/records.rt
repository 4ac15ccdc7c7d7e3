//! Records, read and written again.

use lv_record::{decode, encode, size};
use lv_values::Bytes;
use std::alloc::Global;

/// A table `item (id int, price int, primary key (id))`.
pub(crate) const TABLE: &[u8] = b"\x01\x04item\x02\x02id\x01\x05price\x01\x01\x00";

/// Commit 1, whose first statement inserts the row (1, 10) into table 0.
pub(crate) const COMMIT: &[u8] =
    b"\x03\x01\x00\x00\x00\x00\x00\x00\x00\x01\x00\x00\x00\x00\x01\x00\x00\x00\x01\x02\x01\x01\x00\x00\x00\x00\x00\x00\x00\x01\x0a\x00\x00\x00\x00\x00\x00\x00";

/// View 0 is maintained to commit 258.
const MARK: &[u8] = b"\x04\x00\x02\x01\x00\x00\x00\x00\x00\x00";

/// The record that the bytes spell, written again.
fn again(alloc: Global, bytes: &[u8]) -> Option<Bytes> {
    let rec = decode(alloc, bytes).ok()??;
    let written = if size(&rec) < 4294967296 {
        encode(alloc, &rec).ok()
    } else {
        None
    };
    drop(rec);
    written
}

/// Whether the bytes spell a record, which is written in the same way.
fn is_same_again(alloc: Global, bytes: &[u8]) -> bool {
    match again(alloc, bytes) {
        Some(written) => written.as_slice() == bytes,
        None => false,
    }
}

#[test]
fn records_are_written_as_they_are_read(rt: HostRuntime) {
    for bytes in [TABLE, COMMIT, MARK] {
        assert!(rt; is_same_again(rt.alloc(), bytes));
    }
}

#[test]
fn other_bytes_are_no_record(rt: HostRuntime) {
    for bytes in [
        b"".as_slice(),
        b"\x05".as_slice(),
        b"\x04\x00\x02\x01\x00\x00\x00\x00\x00".as_slice(),
        b"\x04\x00\x02\x01\x00\x00\x00\x00\x00\x00\x00".as_slice(),
        b"\x01\x06select\x00\x00".as_slice(),
    ] {
        assert!(rt; again(rt.alloc(), bytes).is_none());
    }
}
