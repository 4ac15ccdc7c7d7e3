//! Numbers in an order, with the room that they have.
ghost use Rattle.std.specs.Prelude.{◌≡◌, ◌≤◌, ◌<◌, [], length, slice_index_or, slice_set, drop, take, OnOk};
ghost use Rattle.std.specs.List.{insert, remove};

use crate::few::Few;
use crate::held::Held;
use crate::numbers::Numbers;
use lv_values::NoMemory;
use std::alloc::Global;
use std::marker::Model;

/// More numbers than these lie in blocks.
const FEW: usize = 32;

/// How many numbers a block has.
const BLOCK: usize = 1024;

/// More numbers than these lie in large blocks.
const MANY: usize = 65_536;

/// How many numbers a large block has.
const LARGE_BLOCK: usize = 8192;

/// Numbers in an order. A few lie in a plain list, which takes little memory. More than 32 lie in blocks of 1,024, and more
/// than 65,536 in blocks of 8,192, each a ring, and each full before the next one has a number. Where one comes or goes each
/// block behind passes one number on, and the rest stay where they are. Once they have room for more than so many, they stay
/// in blocks of that size.
/// Contracts see the numbers, and for how many in all there is room.
#[derive(Drop)]
pub struct Places {
    held: Held<Held<Few, FEW, BLOCK>, MANY, LARGE_BLOCK>,
}

impl Model for Places {
    ghost use Rattle.lv_places.specs.Blocks.{Roomed, roomed_code};

    ghost Value = { Roomed };

    ghost coded = { roomed_code };

    ghost view = { λ p. p.held };
}

impl Places {
    /// No number. It takes no memory.
    pub fn new(alloc: Global) -> Places
        ensures { result.list ≡ [] }
    {
        Places {
            held: Held::new(alloc),
        }
    }

    /// How many numbers there are.
    pub fn len(&self) -> usize
        ensures { result ≡ length self.now.list }
    {
        self.held.len()
    }

    /// The number at a place. Cost: constant.
    pub fn at(&self, at: usize) -> u32
        requires { at < length self.now.list }
        ensures { result ≡ slice_index_or self.now.list at result }
    {
        self.held.at(at)
    }

    /// The numbers that lie side by side from a place on: at least the one there, and as many as lie in one block behind
    /// it, or in one of the two parts of its ring. Cost: constant.
    pub fn run(&self, at: usize) -> &[u32]
        requires { at < length self.now.list }
        ensures some { 0 < length result.now }
        ensures run { result.now ≡ take (length result.now) (drop at self.now.list) }
    {
        self.held.run(at)
    }

    /// Makes room for so many numbers in all. The numbers stay as they were, and the room never shrinks. Cost: constant
    /// for each block; for a few numbers as of `Vec::reserve`, and once a move of all into blocks, and once into large ones.
    pub fn reserve(&mut self, room: usize) -> Result<(), NoMemory>
        ensures same { self.new.list ≡ self.old.list }
        ensures room { OnOk result (room ≤ self.new.room) }
        ensures kept { self.old.room ≤ self.new.room }
    {
        self.held.reserve(room)
    }

    /// Puts a number at a place. It takes no memory. Cost: a move of at most 512 numbers within their block, or 4,096 within a
    /// large one, and of one more in each block behind.
    pub fn insert(&mut self, at: usize, number: u32)
        requires place { at ≤ length self.old.list }
        requires room { length self.old.list < self.old.room }
        ensures added { self.new.list ≡ insert self.old.list at number }
        ensures room { self.new.room ≡ self.old.room }
    {
        self.held.insert(at, number);
    }

    /// Takes the number at a place out. Cost: as of `insert`.
    pub fn remove(&mut self, at: usize)
        requires { at < length self.old.list }
        ensures rest { self.new.list ≡ remove self.old.list at }
        ensures room { self.new.room ≡ self.old.room }
    {
        self.held.remove(at);
    }

    /// Puts a number in the place of another one. Cost: constant.
    pub fn set(&mut self, at: usize, number: u32)
        requires { at < length self.old.list }
        ensures replaced { self.new.list ≡ slice_set self.old.list at number }
        ensures room { self.new.room ≡ self.old.room }
    {
        self.held.set(at, number);
    }

    /// Keeps the first so many numbers. Cost: constant for each that goes.
    pub fn truncate(&mut self, len: usize)
        ensures rest { self.new.list ≡ take len self.old.list }
        ensures room { self.new.room ≡ self.old.room }
    {
        while self.len() > len {
            self.remove(self.len() - 1);
        }
    }
}
