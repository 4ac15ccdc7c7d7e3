//! One disk, handed out once.
ghost use Rattle.std.specs.Prelude.{◌≡◌, ℕ, ◌≤◌, ◌<◌, ◌-◌, ◌^◌, List, Err, IfOk, OnOk, OnErr, Some, None, option_map};
ghost use Rattle.lv_outside.specs.Causes.{Rose};
ghost use Rattle.lv_outside.specs.Opening.{handed_out, none_asked, turned_away};

use crate::disk::Disk;
use crate::disks::{Disks, OpenFault, Openings, copy_of};
use lv_values::Text;
use std::alloc::Global;

/// Hands out its one disk at the first opening, with a path or without. It tells what that disk tells.
#[derive(Drop)]
pub struct OneDisk<D: Disk + Send> {
    alloc: Global,
    disk: Option<D>,
    faults: u64,
    openings: Openings,
    ghost in_order: { openings.handed ≤ openings.asked },
}

impl<D: Disk + Send> OneDisk<D> {
    /// Nothing was asked yet.
    pub fn new(alloc: Global, disk: D) -> OneDisk<D>
        ensures disk { result.disk ≡ Some disk }
        ensures none { result.faults ≡ 0 }
        ensures openings { result.openings ≡ none_asked }
    {
        OneDisk {
            alloc,
            disk: Some(disk),
            faults: 0,
            openings: Openings::new(),
        }
    }
}

impl<D: Disk + Send> Disks for OneDisk<D> {
    ghost use Rattle.lv_outside.specs.Opening.{told_by};

    type Disk = D;

    ghost holds = { λ s path. told_by D.seen s.disk };

    ghost failures = { λ s. s.faults };

    ghost openings = { λ s. s.openings };

    ghost no_more = { λ s. s.in_order };

    /// Fails exactly where the disk was handed out before.
    fn open_disk(&mut self, path: Option<&Text>) -> Result<D, OpenFault>
        requires { self.old.openings.asked < 2 ^ 64 - 1 }
        ensures disk { IfOk result (λ d. self.old.disk ≡ Some d) }
        ensures opened { IfOk result (λ d. self.new.openings ≡ handed_out self.old.openings (option_map (λ p. p.now) path.entry) (D.failures d)) }
        ensures gone { OnOk result (self.new.disk ≡ None) }
        ensures failed { result ≡ Err OpenFault.Failed → self.new.openings ≡ turned_away self.old.openings (option_map (λ p. p.now) path.entry) }
        ensures spent { result ≡ Err OpenFault.Failed → self.old.disk ≡ None }
        ensures kept { OnErr result (self.new.disk ≡ self.old.disk) }
        ensures unasked { result ≡ Err OpenFault.NoMemory → self.new.openings ≡ self.old.openings }
        ensures cause { result ≡ Err OpenFault.Failed → Rose self.old.faults self.new.faults }
        ensures later { self.old.faults ≤ self.new.faults }
    {
        let path = copy_of(self.alloc, path)?;
        match self.disk.take() {
            Some(disk) => {
                self.openings.hand_out(path, disk.faults());
                Ok(disk)
            }
            None => {
                self.faults = self.faults.saturating_add(1);
                self.openings.turn_away(path);
                Err(OpenFault::Failed)
            }
        }
    }
}
