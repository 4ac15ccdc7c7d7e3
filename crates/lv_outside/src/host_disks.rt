//! The disks of the system: files by their paths, and without a path an empty disk in memory.
ghost use Rattle.std.specs.Prelude.{◌≡◌, ◌≤◌, ◌<◌, ◌+◌, ◌-◌, ◌^◌, Err, IfOk, IfSome, None, OnOk, Some, [], length, option_map};
ghost use Rattle.lv_outside.specs.Causes.{Rose};
ghost use Rattle.lv_outside.specs.Host.{host_failures, host_holds, host_ready, host_seen};
ghost use Rattle.lv_outside.specs.Images.{none_now, none_since};
ghost use Rattle.lv_outside.specs.Opening.{none_asked};

use crate::disk::Disk;
use crate::disks::{Disks, OpenFault, Openings, copy_of};
use crate::file_disk::FileDisk;
use crate::mem_disk::MemDisk;
use crate::source::Failed;
use lv_values::{NoMemory, Text};
use std::fs::{File, OpenOptions};
use std::path::Path;

/// A disk that the system hands out.
#[derive(Drop)]
pub enum HostDisk {
    /// One in memory.
    Memory(MemDisk),
    /// One over a file.
    OfFile(FileDisk),
}

impl Disk for HostDisk {
    ghost seen = { host_seen };

    ghost may_leave = { λ d. none_now };

    ghost moment = { λ d. 0 };

    ghost left_since = { λ d. none_since };

    ghost failures = { host_failures };

    ghost ready = { host_ready };

    ghost counts_now = { λ d t c le now. now };

    ghost only_now = { λ d c left. left };

    fn len(&mut self) -> Result<u64, Failed> {
        match self {
            HostDisk::Memory(disk) => disk.len(),
            HostDisk::OfFile(disk) => disk.len(),
        }
    }

    fn read(&mut self, at: u64, buf: &mut [u8]) -> Result<usize, Failed> {
        match self {
            HostDisk::Memory(disk) => disk.read(at, buf),
            HostDisk::OfFile(disk) => disk.read(at, buf),
        }
    }

    fn reserve(&mut self, end: u64, bytes: u64) -> Result<(), NoMemory> {
        match self {
            HostDisk::Memory(disk) => disk.reserve(end, bytes),
            HostDisk::OfFile(disk) => disk.reserve(end, bytes),
        }
    }

    fn write_at(&mut self, at: u64, piece: &[u8]) -> Result<(), Failed> {
        match self {
            HostDisk::Memory(disk) => disk.write_at(at, piece),
            HostDisk::OfFile(disk) => disk.write_at(at, piece),
        }
    }

    fn sync(&mut self) -> Result<(), Failed> {
        match self {
            HostDisk::Memory(disk) => disk.sync(),
            HostDisk::OfFile(disk) => disk.sync(),
        }
    }

    fn faults(&self) -> u64 {
        match self {
            HostDisk::Memory(disk) => disk.faults(),
            HostDisk::OfFile(disk) => disk.faults(),
        }
    }
}

/// Has the system put the entry of a new file in its folder on the disk, where it lets a program do so.
fn sync_folder(rt: &HostRuntime, path: &str) {
    let folder = match Path::new(path).parent() {
        Some(folder) if !folder.as_str().is_empty() => folder,
        _ => Path::new("."),
    };
    if let Ok(folder) = File::open(rt, folder) {
        let _ = folder.sync_all();
    }
}

/// Opens a file for reading and writing. Where there is none it makes an empty one.
fn open_file(rt: &HostRuntime, path: &str) -> Option<File> {
    let mut options = OpenOptions::new();
    options.read(true).write(true);
    if let Ok(file) = options.open(rt, path) {
        return Some(file);
    }
    options.create(true);
    match options.open(rt, path) {
        Ok(file) => {
            sync_folder(rt, path);
            Some(file)
        }
        Err(_) => None,
    }
}

/// Hands out the disk over the file of a path, and an empty disk in memory where there is no path. It tells the
/// latter alone.
#[derive(Drop)]
pub struct HostDisks {
    rt: HostRuntime,
    faults: u64,
    openings: Openings,
    ghost in_order: { openings.handed ≤ openings.asked },
}

impl HostDisks {
    /// Nothing was asked yet.
    pub fn new(rt: HostRuntime) -> HostDisks
        ensures none { result.faults ≡ 0 }
        ensures openings { result.openings ≡ none_asked }
    {
        HostDisks {
            rt,
            faults: 0,
            openings: Openings::new(),
        }
    }
}

impl Disks for HostDisks {
    type Disk = HostDisk;

    ghost holds = { λ s. host_holds };

    ghost failures = { λ s. s.faults };

    ghost openings = { λ s. s.openings };

    ghost no_more = { λ s. s.in_order };

    /// Makes an empty file where there is none. A path that is a folder, or that may not be read and written, fails,
    /// and then nothing was made.
    fn open_disk(&mut self, path: Option<&Text>) -> Result<HostDisk, OpenFault> {
        let alloc = self.rt.alloc();
        let kept = copy_of(alloc, path)?;
        let Some(path) = path else {
            self.openings.hand_out(kept, 0);
            return Ok(HostDisk::Memory(MemDisk::empty(alloc)));
        };
        match open_file(&self.rt, path.as_str()) {
            Some(file) => {
                self.openings.hand_out(kept, 0);
                Ok(HostDisk::OfFile(FileDisk::new(file)))
            }
            None => {
                self.faults = self.faults.saturating_add(1);
                self.openings.turn_away(kept);
                Err(OpenFault::Failed)
            }
        }
    }
}
