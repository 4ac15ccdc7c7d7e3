//! A disk in memory, which tells its bytes and no images. Listed calls fail.
ghost use Rattle.std.specs.Prelude.{◌≡◌, ◌≤◌, ◌+◌, Some, [], length, IfOk, OnOk, OnErr};
ghost use Rattle.std.specs.Result.{is_err};
ghost use Rattle.std.specs.Vec.{vec_capacity};
ghost use Rattle.lv_outside.specs.Causes.{HasCause, Rose, is_listed_of, next_call};
ghost use Rattle.lv_outside.specs.Images.{Elapses, GivesAt, HasRoom, Holds, KeepsRoom, NoMore, OnlyTold, Spends, Told, Torn, Follows, none_now, none_since};

use crate::disk::Disk;
use crate::source::Failed;
use lv_values::{Bytes, Items, NoMemory};
use std::alloc::Global;

/// The kinds of a disk's calls, as the list of those that are to fail names them.
const LENGTH: u8 = 1;

const READ: u8 = 2;

const WRITE: u8 = 3;

const SYNC: u8 = 4;

/// Writes a piece over what is there and past the end, inside the capacity.
pub(crate) fn put_at(bytes: &mut Vec<u8>, at: usize, piece: &[u8])
    requires place { at ≤ length bytes.old.items }
    requires room { at + length piece.now ≤ vec_capacity bytes.old }
    ensures written { Holds at piece.now bytes.old.items bytes.new.items }
    ensures room { vec_capacity bytes.old ≤ vec_capacity bytes.new }
{
    let over = piece.len().min(bytes.len() - at);
    bytes[at..at + over].copy_from_slice(&piece[..over]);
    bytes.extend_from_slice(&piece[over..]).unwrap();
}

/// Gives the bytes from a place on, as many as are there and fit.
pub(crate) fn give_from(bytes: &[u8], at: u64, buf: &mut [u8]) -> usize
    ensures given { GivesAt (Some bytes.now) at result buf.new }
{
    let start = (at as usize).min(bytes.len());
    let rest = &bytes[start..];
    let count = rest.len().min(buf.len());
    buf[..count].copy_from_slice(&rest[..count]);
    count
}

/// How many calls of each kind were made.
#[derive(Clone, Copy)]
pub(crate) struct Calls {
    pub(crate) lengths: u64,
    pub(crate) reads: u64,
    pub(crate) writes: u64,
    pub(crate) syncs: u64,
}

/// A disk in memory. It tells its bytes and no images.
#[derive(Drop)]
pub struct MemDisk {
    bytes: Vec<u8>,
    fails: Items<(u8, u64)>,
    calls: Calls,
    faults: u64,
}

impl MemDisk {
    /// A disk with these bytes. The listed calls fail: a kind (1 length, 2 read, 3 write, 4 sync) and a number
    /// among the calls of that kind, from 1. A failing call changes no byte.
    pub fn new(bytes: Bytes, fails: Items<(u8, u64)>) -> MemDisk
        ensures bytes { result.bytes.items ≡ bytes }
        ensures fails { result.fails ≡ fails }
        ensures start { result.calls ≡ record { lengths = 0; reads = 0; writes = 0; syncs = 0 } }
        ensures none { result.faults ≡ 0 }
    {
        MemDisk {
            bytes: bytes.into_vec(),
            fails,
            calls: Calls {
                lengths: 0,
                reads: 0,
                writes: 0,
                syncs: 0,
            },
            faults: 0,
        }
    }

    /// An empty disk that never fails. It takes no memory.
    pub(crate) fn empty(alloc: Global) -> MemDisk
        ensures bytes { result.bytes.items ≡ [] }
        ensures fails { result.fails ≡ [] }
        ensures none { result.faults ≡ 0 }
    {
        MemDisk::new(Bytes::new(alloc), Items::new(alloc))
    }

    /// The bytes.
    pub fn bytes(&self) -> &[u8]
        ensures { result.now ≡ self.now.bytes.items }
    {
        &self.bytes
    }

    /// Whether the call of this kind with this number is listed.
    fn is_listed(&self, kind: u8, number: u64) -> bool
        ensures { result ≡ is_listed_of self.now.fails kind number }
    {
        self.fails
            .as_slice()
            .iter()
            .any(|call| call.0 == kind && call.1 == number)
    }

    /// Counts a failure.
    fn fail(&mut self) -> Failed
        ensures bytes { self.new.bytes ≡ self.old.bytes }
        ensures calls { self.new.calls ≡ self.old.calls }
        ensures listed { self.new.fails ≡ self.old.fails }
        ensures rose { Rose self.old.faults self.new.faults }
        ensures later { self.old.faults ≤ self.new.faults }
    {
        self.faults = self.faults.saturating_add(1);
        Failed
    }
}

impl Disk for MemDisk {
    ghost seen = { λ d. Some d.bytes.items };

    ghost may_leave = { λ d. none_now };

    ghost moment = { λ d. 0 };

    ghost left_since = { λ d. none_since };

    ghost failures = { λ d. d.faults };

    ghost ready = { λ d calls bytes end. end ≤ vec_capacity d.bytes };

    ghost counts_now = { λ d t c le now. now };

    ghost only_now = { λ d c left. left };

    /// Fails exactly where it is listed.
    fn len(&mut self) -> Result<u64, Failed>
        ensures length { IfOk result (λ n. n ≡ length self.old.bytes.items) }
        ensures bytes { self.new.bytes ≡ self.old.bytes }
        ensures cause { HasCause self.old.faults self.new.faults result }
        ensures counted { self.new.calls ≡ record self.old.calls { lengths = next_call self.old.calls.lengths } }
        ensures listed { self.new.fails ≡ self.old.fails }
        ensures fails { is_err result ≡ is_listed_of self.old.fails 1 self.new.calls.lengths }
    {
        self.calls.lengths = self.calls.lengths.saturating_add(1);
        if self.is_listed(LENGTH, self.calls.lengths) {
            return Err(self.fail());
        }
        Ok(self.bytes.len() as u64)
    }

    /// Fails exactly where it is listed.
    fn read(&mut self, at: u64, buf: &mut [u8]) -> Result<usize, Failed>
        ensures given { IfOk result (λ n. GivesAt (Some self.old.bytes.items) at n buf.new) }
        ensures bytes { self.new.bytes ≡ self.old.bytes }
        ensures cause { HasCause self.old.faults self.new.faults result }
        ensures counted { self.new.calls ≡ record self.old.calls { reads = next_call self.old.calls.reads } }
        ensures listed { self.new.fails ≡ self.old.fails }
        ensures fails { is_err result ≡ is_listed_of self.old.fails 2 self.new.calls.reads }
    {
        self.calls.reads = self.calls.reads.saturating_add(1);
        if self.is_listed(READ, self.calls.reads) {
            return Err(self.fail());
        }
        Ok(give_from(&self.bytes, at, buf))
    }

    /// Makes the capacity at least `end`.
    fn reserve(&mut self, end: u64, _bytes: u64) -> Result<(), NoMemory>
        ensures room { OnOk result (end ≤ vec_capacity self.new.bytes) }
        ensures bytes { self.new.bytes.items ≡ self.old.bytes.items }
        ensures kept { vec_capacity self.old.bytes ≤ vec_capacity self.new.bytes }
        ensures counted { self.new.calls ≡ self.old.calls }
        ensures listed { self.new.fails ≡ self.old.fails }
        ensures count { self.new.faults ≡ self.old.faults }
    {
        let end = end as usize;
        if end > self.bytes.len() {
            self.bytes.reserve(end - self.bytes.len())?;
        }
        Ok(())
    }

    /// Fails exactly where it is listed, and then changes no byte.
    fn write_at(&mut self, at: u64, piece: &[u8]) -> Result<(), Failed>
        requires place { at ≤ length self.old.bytes.items }
        requires room { at + length piece.now ≤ vec_capacity self.old.bytes }
        ensures written { OnOk result (Holds at piece.now self.old.bytes.items self.new.bytes.items) }
        ensures kept { OnErr result (self.new.bytes ≡ self.old.bytes) }
        ensures room { vec_capacity self.old.bytes ≤ vec_capacity self.new.bytes }
        ensures cause { HasCause self.old.faults self.new.faults result }
        ensures counted { self.new.calls ≡ record self.old.calls { writes = next_call self.old.calls.writes } }
        ensures listed { self.new.fails ≡ self.old.fails }
        ensures fails { is_err result ≡ is_listed_of self.old.fails 3 self.new.calls.writes }
    {
        self.calls.writes = self.calls.writes.saturating_add(1);
        if self.is_listed(WRITE, self.calls.writes) {
            return Err(self.fail());
        }
        put_at(&mut self.bytes, at as usize, piece);
        Ok(())
    }

    /// Fails exactly where it is listed.
    fn sync(&mut self) -> Result<(), Failed>
        ensures bytes { self.new.bytes ≡ self.old.bytes }
        ensures cause { HasCause self.old.faults self.new.faults result }
        ensures counted { self.new.calls ≡ record self.old.calls { syncs = next_call self.old.calls.syncs } }
        ensures listed { self.new.fails ≡ self.old.fails }
        ensures fails { is_err result ≡ is_listed_of self.old.fails 4 self.new.calls.syncs }
    {
        self.calls.syncs = self.calls.syncs.saturating_add(1);
        if self.is_listed(SYNC, self.calls.syncs) {
            return Err(self.fail());
        }
        Ok(())
    }

    fn faults(&self) -> u64 {
        self.faults
    }
}
