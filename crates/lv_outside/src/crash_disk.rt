//! A disk in memory that keeps a record of its calls, and so tells what a crash may leave.
ghost use Rattle.std.specs.Prelude.{◌≡◌, ◌≤◌, ◌<◌, ◌+◌, ◌-◌, ◌==◌, ◌^◌, ℕ, max, List, [], ◌∷◌, ◌++◌, Some, length, take, drop, nat_lt, get_or, IfOk, OnOk, OnErr};
ghost use Rattle.std.specs.Result.{is_err};
ghost use Rattle.lv_outside.specs.Images.{Elapses, Follows, GivesAt, Holds, NoMore, OnlyTold, Torn};
ghost use Rattle.lv_outside.specs.Causes.{HasCause, Rose};
ghost use Rattle.lv_outside.specs.declared.crash_disk.Call.{Call};
ghost use Rattle.lv_outside.specs.Crashes.{images, LeftSince, counts, only, filled, filling, picked, size_after, AreWrites, IsNear, LeadsTo, StartsIn};

use crate::disk::Disk;
use crate::mem_disk::{give_from, put_at};
use crate::source::Failed;
use lv_values::{Bytes, NoMemory};
use std::alloc::{AllocError, Global};
use std::marker::Model;

/// A call that changed what a crash may leave.
#[derive(Drop)]
pub enum Call {
    /// So many bytes were written from a place on.
    Wrote(usize, usize),
    /// These bytes were put on the disk.
    Synced(Bytes),
}

/// A disk in memory that was empty at first. Its first `good` calls pass, of all kinds; every later one fails. It
/// tells its bytes, and its images: they follow from its record of calls.
#[derive(Drop)]
pub struct CrashDisk {
    alloc: Global,
    bytes: Vec<u8>,
    calls: Vec<Call>,
    good: u64,
    faults: u64,
}

impl Model for CrashDisk {
    ghost use Rattle.lv_outside.specs.declared.crash_disk.Call.{Call};
    ghost use Rattle.lv_outside.specs.Crashes.{Crashing, IsRecorded};

    ghost Value = { Crashing };

    ghost view = { λ d. record { bytes = d.bytes.items; calls = d.calls.items; good = d.good; faults = d.faults } };

    ghost invariant = { λ d. IsRecorded d.calls.items d.bytes.items };
}

/// Puts new bytes in the place of the old ones, and a call at the end of the record.
fn record_write(
    bytes: &mut Vec<u8>,
    calls: &mut Vec<Call>,
    at: usize,
    piece: &[u8],
) -> Result<(), AllocError>
    requires { at ≤ length bytes.old.items }
    ensures written { OnOk result (Holds at piece.now bytes.old.items bytes.new.items) }
    ensures torn { OnOk result (Torn at (length piece.now) bytes.old.items bytes.new.items) }
    ensures size { OnOk result (length bytes.new.items ≡ max (length bytes.old.items) (at + length piece.now)) }
    ensures recorded { OnOk result (calls.new.items ≡ calls.old.items ++ Call.Wrote at (length piece.now) ∷ []) }
    ensures bytes_kept { OnErr result (bytes.new.items ≡ bytes.old.items) }
    ensures calls_kept { OnErr result (calls.new.items ≡ calls.old.items) }
{
    bytes.reserve(piece.len())?;
    calls.push(Call::Wrote(at, piece.len()))?;
    put_at(bytes, at, piece);
    Ok(())
}

/// Puts a copy of the bytes at the end of the record.
fn record_sync(alloc: Global, bytes: &[u8], calls: &mut Vec<Call>) -> Result<(), NoMemory>
    ensures recorded { OnOk result (calls.new.items ≡ calls.old.items ++ Call.Synced bytes.now ∷ []) }
    ensures kept { OnErr result (calls.new.items ≡ calls.old.items) }
{
    calls.push(Call::Synced(Bytes::from_slice(alloc, bytes)?))?;
    Ok(())
}

impl CrashDisk {
    /// An empty disk whose first `good` calls pass.
    pub fn new(alloc: Global, good: u64) -> Result<CrashDisk, NoMemory>
        ensures bytes { IfOk result (λ d. d.bytes ≡ []) }
        ensures calls { IfOk result (λ d. d.calls ≡ []) }
        ensures good { IfOk result (λ d. d.good ≡ good) }
        ensures faults { IfOk result (λ d. d.faults ≡ 0) }
    {
        Ok(CrashDisk {
            alloc,
            bytes: Vec::new(alloc),
            calls: Vec::new(alloc),
            good,
            faults: 0,
        })
    }
}

/// Whether a call passes. It counts one.
fn passes(good: &mut u64) -> bool
    ensures passes { result ≡ nat_lt 0 good.old }
    ensures counted { good.new ≡ good.old - 1 }
{
    if *good == 0 {
        return false;
    }
    *good -= 1;
    true
}

/// Counts a failure.
fn fail(faults: &mut u64) -> Failed
    ensures rose { Rose faults.old faults.new }
    ensures later { faults.old ≤ faults.new }
{
    *faults = faults.saturating_add(1);
    Failed
}

/// The byte at a place, and 0 past the end.
fn byte_at(image: &[u8], at: usize) -> u8
    ensures { result ≡ get_or image.now at 0 }
{
    if at < image.len() { image[at] } else { 0 }
}

/// What a crash makes of a byte of a written range: 1 what was there and 0 past the end, 2 is 1, 3 is 255.
fn filled(image: &[u8], at: usize, pick: u8) -> u8
    ensures { result ≡ filled pick image.now at }
{
    if pick == 1 {
        byte_at(image, at)
    } else if pick == 2 {
        1
    } else {
        255
    }
}

/// What a crash makes of a written range of `count` bytes.
fn fill(alloc: Global, image: &[u8], at: usize, count: usize, pick: u8) -> Result<Vec<u8>, NoMemory>
    requires place { at ≤ length image.now }
    requires small { length image.now < 2 ^ 63 }
    ensures { IfOk result (λ v. v.items ≡ filling pick image.now at count) }
{
    let mut piece = Vec::new(alloc);
    for k in 0..count {
        piece.push(filled(image, at + k, pick))?;
    }
    Ok(piece)
}

/// Tears a write of `count` bytes.
fn tear(
    alloc: Global,
    image: &mut Vec<u8>,
    at: usize,
    count: usize,
    pick: u8,
) -> Result<(), NoMemory>
    requires { at ≤ length image.old.items }
    ensures exact { OnOk result (image.new.items ≡ take at image.old.items ++ filling pick image.old.items at count ++ drop (at + count) image.old.items) }
    ensures size { OnOk result (length image.new.items ≡ max (length image.old.items) (at + count)) }
    ensures torn { OnOk result (Torn at count image.old.items image.new.items) }
{
    let piece = fill(alloc, image, at, count, pick)?;
    image.reserve(piece.len())?;
    put_at(image, at, &piece);
    Ok(())
}

/// Goes on by one recorded call.
fn step(alloc: Global, image: &mut Vec<u8>, call: &Call, pick: u8) -> Result<(), NoMemory>
    requires { StartsIn (length image.old.items) call.now }
    ensures image { OnOk result ((calls : List Call) → images calls image.old.items → images (calls ++ call.now ∷ []) image.new.items) }
    ensures exact { OnOk result (image.new.items ≡ picked pick image.old.items (call.now ∷ [])) }
    ensures size { OnOk result (length image.new.items ≡ size_after (length image.old.items) call.now) }
{
    match call {
        Call::Wrote(at, count) => tear(alloc, image, *at, *count, pick),
        Call::Synced(bytes) => {
            *image = Vec::from_slice(alloc, bytes.as_slice())?;
            Ok(())
        }
    }
}

/// The image of a pick that these calls leave.
fn image_of(alloc: Global, calls: &[Call], pick: u8) -> Result<Vec<u8>, NoMemory>
    requires { (m : ℕ) × LeadsTo 0 calls.now m }
    ensures image { IfOk result (λ v. images calls.now v.items) }
    ensures exact { IfOk result (λ v. v.items ≡ picked pick [] calls.now) }
    ensures size { IfOk result (λ v. (m : ℕ) → LeadsTo 0 calls.now m → length v.items ≡ m) }
{
    let mut image = Vec::new(alloc);
    for call in calls {
        step(alloc, &mut image, call, pick)?;
    }
    Ok(image)
}

impl CrashDisk {
    /// One of the images now, as long as what a read gives. The bytes written since the last good sync are as a read
    /// gives them (0), what they were at that sync with 0 past the old end (1), all 1 (2) or all 255 (3).
    pub fn image(&self, pick: u8) -> Result<Bytes, NoMemory>
        requires { pick < 4 }
        ensures image { IfOk result (λ c. images self.now.calls c) }
        ensures size { IfOk result (λ c. length c ≡ length self.now.bytes) }
        ensures told { IfOk result (λ c. pick ≡ 0 → c ≡ self.now.bytes) }
        ensures exact { IfOk result (λ c. 0 < pick → c ≡ picked pick [] self.now.calls) }
    {
        if pick == 0 {
            return Bytes::from_slice(self.alloc, &self.bytes);
        }
        Ok(Bytes::from_vec(image_of(self.alloc, &self.calls, pick)?))
    }

    /// What a crash may leave since a sync: where no write was the bytes of that sync, and a length between the one then
    /// and the greatest since.
    pub fn images_are_near(&self)
        ensures { (calls : List Call) (bytes : List ℕ) (writes : List Call) (c : List ℕ) → self.now.calls ≡ calls ++ Call.Synced bytes ∷ writes → AreWrites writes → images self.now.calls c → IsNear bytes writes c }
    {}
}

impl Disk for CrashDisk {
    ghost seen = { λ d. Some d.bytes };

    ghost may_leave = { λ d. images d.calls };

    ghost moment = { λ d. length d.calls };

    ghost left_since = { λ d. LeftSince d.calls };

    ghost failures = { λ d. d.faults };

    ghost ready = { λ d calls bytes end. Unit {0} };

    ghost counts_now = { λ d t c le now. counts d.calls t c le now };

    ghost only_now = { λ d c left. only d.calls c left };

    /// Fails exactly once no more calls pass.
    fn len(&mut self) -> Result<u64, Failed>
        ensures length { IfOk result (λ n. n ≡ length self.old.bytes) }
        ensures same { self.new ≡ record self.old { good = self.old.good - 1; faults = self.new.faults } }
        ensures cause { HasCause self.old.faults self.new.faults result }
        ensures fails { is_err result ≡ (self.old.good == 0) }
    {
        if !passes(&mut self.good) {
            return Err(fail(&mut self.faults));
        }
        Ok(self.bytes.len() as u64)
    }

    /// Fails exactly once no more calls pass.
    fn read(&mut self, at: u64, buf: &mut [u8]) -> Result<usize, Failed>
        ensures given { IfOk result (λ n. GivesAt (Some self.old.bytes) at n buf.new) }
        ensures same { self.new ≡ record self.old { good = self.old.good - 1; faults = self.new.faults } }
        ensures cause { HasCause self.old.faults self.new.faults result }
        ensures fails { is_err result ≡ (self.old.good == 0) }
    {
        if !passes(&mut self.good) {
            return Err(fail(&mut self.faults));
        }
        Ok(give_from(&self.bytes, at, buf))
    }

    /// Does nothing: a write for which no memory is found fails.
    fn reserve(&mut self, _end: u64, _bytes: u64) -> Result<(), NoMemory>
        ensures { self.new ≡ self.old }
    {
        Ok(())
    }

    /// Fails once no more calls pass, and where no memory is found; then it changes no byte.
    fn write_at(&mut self, at: u64, piece: &[u8]) -> Result<(), Failed>
        requires { at ≤ length self.old.bytes }
        ensures written { OnOk result (Holds at piece.now self.old.bytes self.new.bytes) }
        ensures torn { Torn at (length piece.now) self.old.bytes self.new.bytes }
        ensures kept { OnErr result (self.new ≡ record self.old { good = self.old.good - 1; faults = self.new.faults }) }
        ensures crash { Follows (Torn at (length piece.now)) (images self.old.calls) (images self.new.calls) }
        ensures time { Elapses (length self.old.calls) (length self.new.calls) (LeftSince self.old.calls) (LeftSince self.new.calls) (images self.new.calls) }
        ensures cause { HasCause self.old.faults self.new.faults result }
        ensures counted { self.new.good ≡ self.old.good - 1 }
        ensures passes { OnOk result (0 < self.old.good) }
    {
        if !passes(&mut self.good) {
            return Err(fail(&mut self.faults));
        }
        match record_write(&mut self.bytes, &mut self.calls, at as usize, piece) {
            Ok(()) => Ok(()),
            Err(_) => Err(fail(&mut self.faults)),
        }
    }

    /// Fails once no more calls pass, and where no memory is found.
    fn sync(&mut self) -> Result<(), Failed>
        ensures durable { OnOk result (OnlyTold (Some self.new.bytes) (images self.new.calls)) }
        ensures bytes { self.new.bytes ≡ self.old.bytes }
        ensures crash { NoMore (images self.old.calls) (images self.new.calls) }
        ensures time { Elapses (length self.old.calls) (length self.new.calls) (LeftSince self.old.calls) (LeftSince self.new.calls) (images self.new.calls) }
        ensures cause { HasCause self.old.faults self.new.faults result }
        ensures counted { self.new.good ≡ self.old.good - 1 }
        ensures passes { OnOk result (0 < self.old.good) }
    {
        if !passes(&mut self.good) {
            return Err(fail(&mut self.faults));
        }
        match record_sync(self.alloc, &self.bytes, &mut self.calls) {
            Ok(()) => Ok(()),
            Err(_) => Err(fail(&mut self.faults)),
        }
    }

    fn faults(&self) -> u64 {
        self.faults
    }
}
