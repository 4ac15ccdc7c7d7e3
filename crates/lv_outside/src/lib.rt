//! What a program reads from and writes to, with the causes of every failure.
#![tactic(auto)]

mod crash_disk;
mod disk;
mod disks;
mod file_disk;
mod gate;
mod host_disks;
mod mem_disk;
mod mem_disks;
mod memory;
mod one_disk;
mod sink;
mod source;
mod streams;
mod whole;

pub use crash_disk::CrashDisk;
pub use disk::Disk;
pub use disks::{Disks, OpenFault, Openings};
pub use file_disk::FileDisk;
pub use gate::{FreeGate, Gate};
pub use host_disks::{HostDisk, HostDisks};
pub use mem_disk::MemDisk;
pub use mem_disks::MemDisks;
pub use memory::{MemSink, MemSource};
pub use one_disk::OneDisk;
pub use sink::Sink;
pub use source::{Failed, Source};
pub use streams::{StdSink, StdSource};
pub use whole::{Ended, ReadFault, read_whole, write_whole};
