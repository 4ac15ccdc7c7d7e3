//! A few numbers.
ghost use Rattle.std.specs.Prelude.{◌≡◌, ◌≤◌, ◌<◌, [], length, slice_index_or, slice_set, drop, take, OnOk};
ghost use Rattle.std.specs.List.{insert, remove};

use crate::numbers::Numbers;
use lv_values::NoMemory;
use std::alloc::Global;
use std::marker::Model;

/// A few numbers, in a plain list.
#[derive(Drop)]
pub(crate) struct Few {
    numbers: Vec<u32>,
}

impl Model for Few {
    ghost use Rattle.std.specs.Vec.{vec_capacity};
    ghost use Rattle.lv_places.specs.Blocks.{Roomed, roomed_code};

    ghost Value = { Roomed };

    ghost coded = { roomed_code };

    ghost view = { λ f. record { list = f.numbers.items; room = vec_capacity f.numbers } };
}

impl Numbers for Few {
    ghost roomed = { λ f. f };

    fn new(alloc: Global) -> Few {
        Few {
            numbers: Vec::new(alloc),
        }
    }

    fn len(&self) -> usize {
        self.numbers.len()
    }

    fn room(&self) -> usize {
        self.numbers.capacity()
    }

    fn at(&self, at: usize) -> u32 {
        self.numbers[at]
    }

    fn run(&self, at: usize) -> &[u32] {
        &self.numbers[at..]
    }

    /// Where the list grows it doubles at least, so that room made one by one costs no more.
    fn reserve(&mut self, room: usize) -> Result<(), NoMemory> {
        let len = self.numbers.len();
        if room > len {
            self.numbers.reserve(room - len)?;
        }
        Ok(())
    }

    fn insert(&mut self, at: usize, number: u32) {
        self.numbers.insert(at, number).unwrap();
    }

    fn remove(&mut self, at: usize) {
        self.numbers.remove(at);
    }

    fn set(&mut self, at: usize, number: u32) {
        self.numbers[at] = number;
    }
}
