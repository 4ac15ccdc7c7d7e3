//! Numbers in blocks, unless they are few.
ghost use Rattle.std.specs.Prelude.{◌≡◌, ◌≤◌, ◌<◌, [], length, slice_index_or, slice_set, drop, take, OnOk};
ghost use Rattle.std.specs.List.{insert, remove};

use crate::blocks::Blocks;
use crate::numbers::Numbers;
use lv_values::NoMemory;
use std::alloc::Global;
use std::marker::Model;

/// Numbers that lie, while there is room for no more than a few, where few of them lie best, and then in blocks of a size.
/// Once there is a block, all of them lie in blocks, and stay there.
#[derive(Drop)]
pub(crate) struct Held<L: Numbers, const FEW: usize, const SIZE: usize> {
    few: L,
    blocks: Blocks<SIZE>,
    alloc: Global,
}

impl<L: Numbers, const FEW: usize, const SIZE: usize> Model for Held<L, FEW, SIZE> {
    ghost use Rattle.lv_places.specs.Blocks.{Roomed, roomed_code, held};

    ghost Value = { Roomed };

    ghost coded = { roomed_code };

    ghost view = { λ h. held (L.roomed h.few) h.blocks };
}

impl<L: Numbers, const FEW: usize, const SIZE: usize> Numbers for Held<L, FEW, SIZE> {
    ghost roomed = { λ h. h };

    fn new(alloc: Global) -> Held<L, FEW, SIZE> {
        Held {
            few: L::new(alloc),
            blocks: Blocks::new(alloc),
            alloc,
        }
    }

    fn len(&self) -> usize {
        if self.blocks.is_empty() {
            self.few.len()
        } else {
            self.blocks.len()
        }
    }

    fn room(&self) -> usize {
        if self.blocks.is_empty() {
            self.few.room()
        } else {
            self.blocks.room()
        }
    }

    fn at(&self, at: usize) -> u32 {
        if self.blocks.is_empty() {
            self.few.at(at)
        } else {
            self.blocks.at(at)
        }
    }

    fn run(&self, at: usize) -> &[u32] {
        if self.blocks.is_empty() {
            self.few.run(at)
        } else {
            self.blocks.run(at)
        }
    }

    fn reserve(&mut self, room: usize) -> Result<(), NoMemory> {
        if !self.blocks.is_empty() {
            return self.blocks.reserve(room);
        }
        // Where the few have more room than they were asked for, they serve as long as they have it.
        if room <= FEW || room <= self.few.room() {
            return self.few.reserve(room);
        }
        self.blocks = Blocks::of(self.alloc, room, &self.few)?;
        self.few = L::new(self.alloc);
        Ok(())
    }

    fn insert(&mut self, at: usize, number: u32) {
        if self.blocks.is_empty() {
            self.few.insert(at, number);
        } else {
            self.blocks.insert(at, number);
        }
    }

    fn remove(&mut self, at: usize) {
        if self.blocks.is_empty() {
            self.few.remove(at);
        } else {
            self.blocks.remove(at);
        }
    }

    fn set(&mut self, at: usize, number: u32) {
        if self.blocks.is_empty() {
            self.few.set(at, number);
        } else {
            self.blocks.set(at, number);
        }
    }
}
