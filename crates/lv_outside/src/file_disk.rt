//! A disk over a file of the system. It tells nothing of its content; each error raises its count.
ghost use Rattle.std.specs.Prelude.{◌≡◌, ◌≤◌, IfOk, IfSome, length, None};
ghost use Rattle.lv_outside.specs.Causes.{HasCause, Rose};
ghost use Rattle.lv_outside.specs.Images.{none_now, none_since};

use crate::disk::Disk;
use crate::source::Failed;
use lv_values::NoMemory;
use std::fs::File;
use std::io::ErrorKind;
use std::os::unix::fs::FileExt;

/// A disk over a file. It tells no bytes and no images.
#[derive(Drop)]
pub struct FileDisk {
    file: File,
    faults: u64,
}

impl FileDisk {
    /// The disk of a file that is open for reading and writing.
    pub fn new(file: File) -> FileDisk
        ensures { result.faults ≡ 0 }
    {
        FileDisk { file, faults: 0 }
    }

    /// Counts a failure.
    fn fail(&mut self) -> Failed
        ensures rose { Rose self.old.faults self.new.faults }
        ensures later { self.old.faults ≤ self.new.faults }
    {
        self.faults = self.faults.saturating_add(1);
        Failed
    }
}

/// Reads until the buffer is full or the file ends. Answers how many bytes it read, or nothing where a read failed.
fn read_from(file: &File, at: u64, buf: &mut [u8]) -> Option<usize>
    ensures { IfSome result (λ n. n ≤ length buf.new) }
{
    let mut count = 0;
    for _ in 0..u64::MAX {
        if count == buf.len() {
            return Some(count);
        }
        match file.read_at(&mut buf[count..], at.saturating_add(count as u64)) {
            Ok(0) => return Some(count),
            Ok(more) => count += more,
            Err(fault) => {
                if fault.kind() != ErrorKind::Interrupted {
                    return None;
                }
            }
        }
    }
    None
}

impl Disk for FileDisk {
    ghost seen = { λ d. None };

    ghost may_leave = { λ d. none_now };

    ghost moment = { λ d. 0 };

    ghost left_since = { λ d. none_since };

    ghost failures = { λ d. d.faults };

    ghost ready = { λ d calls bytes end. Unit {0} };

    ghost counts_now = { λ d t c le now. now };

    ghost only_now = { λ d c left. left };

    fn len(&mut self) -> Result<u64, Failed>
        ensures { HasCause self.old.faults self.new.faults result }
    {
        match self.file.metadata() {
            Ok(facts) => Ok(facts.len()),
            Err(_) => Err(self.fail()),
        }
    }

    fn read(&mut self, at: u64, buf: &mut [u8]) -> Result<usize, Failed>
        ensures bound { IfOk result (λ n. n ≤ length buf.new) }
        ensures cause { HasCause self.old.faults self.new.faults result }
    {
        match read_from(&self.file, at, buf) {
            Some(count) => Ok(count),
            None => Err(self.fail()),
        }
    }

    /// Does nothing: a write to a file takes no memory here.
    fn reserve(&mut self, _end: u64, _bytes: u64) -> Result<(), NoMemory>
        ensures { self.new ≡ self.old }
    {
        Ok(())
    }

    fn write_at(&mut self, at: u64, piece: &[u8]) -> Result<(), Failed>
        ensures { HasCause self.old.faults self.new.faults result }
    {
        match self.file.write_all_at(piece, at) {
            Ok(()) => Ok(()),
            Err(_) => Err(self.fail()),
        }
    }

    /// Has the system put the file's bytes and its length on the disk.
    fn sync(&mut self) -> Result<(), Failed>
        ensures { HasCause self.old.faults self.new.faults result }
    {
        match self.file.sync_all() {
            Ok(()) => Ok(()),
            Err(_) => Err(self.fail()),
        }
    }

    fn faults(&self) -> u64 {
        self.faults
    }
}
