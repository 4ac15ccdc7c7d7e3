//! Where disks come from.
ghost use Rattle.std.specs.Prelude.{◌≡◌, ℕ, ◌≤◌, ◌<◌, ◌-◌, ◌^◌, List, Option, IfOk, Some, Err, option_map};
ghost use Rattle.lv_outside.specs.Causes.{Rose};
ghost use Rattle.lv_outside.specs.Opening.{handed_out, none_asked, turned_away};
ghost use Rattle.lv_outside.specs.declared.disks.Openings.{Openings};

use crate::disk::Disk;
use lv_values::{Copying, NoMemory, Text};
use std::alloc::Global;
use thiserror::Error;

/// Why no disk was handed out.
#[derive(Clone, Copy, Debug, PartialEq, Eq, Error)]
pub enum OpenFault {
    /// The opening failed.
    #[error("the disk was not opened")]
    Failed,
    /// Memory was refused.
    #[error("out of memory")]
    NoMemory,
}

impl From<NoMemory> for OpenFault {
    ghost use Rattle.lv_outside.specs.declared.disks.OpenFault.TheVariants.{NoMemory as MemoryRefused};

    ghost from_gives = { λ _ e. e ≡ MemoryRefused };

    fn from(_: NoMemory) -> Self {
        OpenFault::NoMemory
    }
}

/// What an object that hands out disks was asked.
#[derive(Drop)]
pub struct Openings {
    /// How many openings were asked.
    pub asked: u64,
    /// How many disks were handed out.
    pub handed: u64,
    /// The path of the opening that was asked last.
    pub path: Option<Text>,
    /// The count of failures that the disk that was handed out last had then.
    pub count: u64,
}

impl Openings {
    /// Nothing was asked.
    pub(crate) fn new() -> Openings
        ensures { result ≡ none_asked }
    {
        Openings {
            asked: 0,
            handed: 0,
            path: None,
            count: 0,
        }
    }

    /// Notes that a disk was handed out.
    pub(crate) fn hand_out(&mut self, path: Option<Text>, count: u64)
        requires asked { self.old.asked < 2 ^ 64 - 1 }
        requires order { self.old.handed ≤ self.old.asked }
        ensures { self.new ≡ handed_out self.old path count }
    {
        self.asked += 1;
        self.handed += 1;
        self.path = path;
        self.count = count;
    }

    /// Notes that no disk was handed out.
    pub(crate) fn turn_away(&mut self, path: Option<Text>)
        requires { self.old.asked < 2 ^ 64 - 1 }
        ensures { self.new ≡ turned_away self.old path }
    {
        self.asked += 1;
        self.path = path;
    }
}

/// A copy of a path.
pub(crate) fn copy_of(alloc: Global, path: Option<&Text>) -> Result<Option<Text>, NoMemory>
    ensures { IfOk result (λ c. c ≡ option_map (λ p. p.now) path.entry) }
{
    match path {
        Some(path) => Ok(Some(path.copy(alloc)?)),
        None => Ok(None),
    }
}

/// Hands out disks by a path, or without one.
///
/// Contracts see the bytes that the object tells that a path holds, where it tells them; a count of failures, which
/// never falls; and what was asked. An opening fails only where the count rose in it. One for which memory is
/// wanting counts as not asked.
pub trait Disks {
    /// What is handed out.
    type Disk: Disk + Send;

    /// The bytes that a path holds, or no path, where the object tells them.
    ghost holds: { Self → Option (List ℕ) → Option (List ℕ) };

    /// How often it has failed.
    ghost failures: { Self → ℕ };

    /// What was asked.
    ghost openings: { Self → Openings };

    /// Hands out the disk of a path, or of none.
    fn open_disk(&mut self, path: Option<&Text>) -> Result<Self::Disk, OpenFault>
        requires { (openings self.old).asked < 2 ^ 64 - 1 }
        ensures bytes { IfOk result (λ d. (f : List ℕ) → holds self.old (option_map (λ p. p.now) path.entry) ≡ Some f → Self.Disk.seen d ≡ Some f) }
        ensures opened { IfOk result (λ d. openings self.new ≡ handed_out (openings self.old) (option_map (λ p. p.now) path.entry) (Self.Disk.failures d)) }
        ensures failed { result ≡ Err OpenFault.Failed → openings self.new ≡ turned_away (openings self.old) (option_map (λ p. p.now) path.entry) }
        ensures unasked { result ≡ Err OpenFault.NoMemory → openings self.new ≡ openings self.old }
        ensures cause { result ≡ Err OpenFault.Failed → Rose (failures self.old) (failures self.new) }
        ensures later { failures self.old ≤ failures self.new };

    /// No more disks are handed out than openings were asked.
    ghost no_more: { (disks : Self) → (openings disks).handed ≤ (openings disks).asked };
}
