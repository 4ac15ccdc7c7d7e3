//! Empty disks in memory, for each path and for none. Listed openings fail.
ghost use Rattle.std.specs.Prelude.{◌≡◌, ◌≤◌, ◌<◌, ◌-◌, ◌^◌, [], Err, IfOk, OnOk, Some, true, false, option_map};
ghost use Rattle.lv_outside.specs.Causes.{Rose, is_listed, next_call};
ghost use Rattle.lv_outside.specs.Opening.{handed_out, none_asked, turned_away};

use crate::disks::{Disks, OpenFault, Openings, copy_of};
use crate::mem_disk::MemDisk;
use lv_values::{Items, Text};
use std::alloc::Global;

/// Hands out an empty disk in memory that never fails, for each path and for none, and tells so.
#[derive(Drop)]
pub struct MemDisks {
    alloc: Global,
    fails: Items<u64>,
    calls: u64,
    faults: u64,
    openings: Openings,
    ghost in_order: { openings.handed ≤ openings.asked },
}

impl MemDisks {
    /// Nothing was asked yet. The openings whose numbers are listed fail, counted from 1.
    pub fn new(alloc: Global, fails: Items<u64>) -> MemDisks
        ensures fails { result.fails ≡ fails }
        ensures start { result.calls ≡ 0 }
        ensures none { result.faults ≡ 0 }
        ensures openings { result.openings ≡ none_asked }
    {
        MemDisks {
            alloc,
            fails,
            calls: 0,
            faults: 0,
            openings: Openings::new(),
        }
    }
}

impl Disks for MemDisks {
    type Disk = MemDisk;

    ghost holds = { λ s path. Some [] };

    ghost failures = { λ s. s.faults };

    ghost openings = { λ s. s.openings };

    ghost no_more = { λ s. s.in_order };

    /// Fails exactly where it is listed.
    fn open_disk(&mut self, path: Option<&Text>) -> Result<MemDisk, OpenFault>
        requires { self.old.openings.asked < 2 ^ 64 - 1 }
        ensures bytes { IfOk result (λ d. d.bytes.items ≡ []) }
        ensures never { IfOk result (λ d. d.fails ≡ []) }
        ensures opened { IfOk result (λ d. self.new.openings ≡ handed_out self.old.openings (option_map (λ p. p.now) path.entry) d.faults) }
        ensures failed { result ≡ Err OpenFault.Failed → self.new.openings ≡ turned_away self.old.openings (option_map (λ p. p.now) path.entry) }
        ensures unasked { result ≡ Err OpenFault.NoMemory → self.new.openings ≡ self.old.openings }
        ensures cause { result ≡ Err OpenFault.Failed → Rose self.old.faults self.new.faults }
        ensures later { self.old.faults ≤ self.new.faults }
        ensures counted { self.new.calls ≡ next_call self.old.calls }
        ensures listed { self.new.fails ≡ self.old.fails }
        ensures fails { result ≡ Err OpenFault.Failed → is_listed self.old.fails self.new.calls ≡ true }
        ensures passes { OnOk result (is_listed self.old.fails self.new.calls ≡ false) }
    {
        self.calls = self.calls.saturating_add(1);
        let path = copy_of(self.alloc, path)?;
        if self.fails.as_slice().contains(&self.calls) {
            self.faults = self.faults.saturating_add(1);
            self.openings.turn_away(path);
            return Err(OpenFault::Failed);
        }
        self.openings.hand_out(path, 0);
        Ok(MemDisk::empty(self.alloc))
    }
}
