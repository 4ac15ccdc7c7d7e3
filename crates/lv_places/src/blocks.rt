//! Numbers in blocks.
ghost use Rattle.std.specs.Prelude.{◌≡◌, ◌≤◌, ◌<◌, ◌==◌, [], length, slice_index_or, slice_set, drop, take, IfOk, OnOk};
ghost use Rattle.std.specs.List.{insert, remove};

use crate::block::Block;
use crate::numbers::Numbers;
use crate::passing::{add_blocks, insert_number, number_at, remove_number, run_at, set_number};
use lv_values::NoMemory;
use std::alloc::Global;
use std::marker::Model;

/// Numbers in blocks of a size, each a ring, and each full before the next one has a number.
#[derive(Drop)]
pub(crate) struct Blocks<const SIZE: usize> {
    blocks: Vec<Block<SIZE>>,
    len: usize,
    alloc: Global,
}

impl<const SIZE: usize> Model for Blocks<SIZE> {
    ghost use Rattle.std.specs.Prelude.{◌*◌, length};
    ghost use Rattle.std.specs.List.{concat};
    ghost use Rattle.lv_places.specs.Blocks.{AreBlocks, Roomed, roomed_code};

    ghost Value = { Roomed };

    ghost coded = { roomed_code };

    ghost view = { λ b. record { list = concat b.blocks.items; room = SIZE * length b.blocks.items } };

    ghost invariant = { λ b. AreBlocks SIZE b.len b.blocks.items };
}

impl<const SIZE: usize> Blocks<SIZE> {
    /// No block. It takes no memory.
    pub(crate) fn new(alloc: Global) -> Blocks<SIZE>
        ensures list { result.list ≡ [] }
        ensures room { result.room ≡ 0 }
    {
        Blocks {
            blocks: Vec::new(alloc),
            len: 0,
            alloc,
        }
    }

    /// Numbers that lie elsewhere, with room for so many. Cost: constant for each.
    pub(crate) fn of<L: Numbers>(
        alloc: Global,
        room: usize,
        numbers: &L,
    ) -> Result<Blocks<SIZE>, NoMemory>
        requires { length (L.roomed numbers.now).list ≤ room }
        ensures same { IfOk result (λ b. b.list ≡ (L.roomed numbers.now).list) }
        ensures room { IfOk result (λ b. room ≤ b.room) }
    {
        let mut blocks = Blocks::new(alloc);
        blocks.reserve(room)?;
        for i in 0..numbers.len() {
            blocks.insert(i, numbers.at(i));
        }
        Ok(blocks)
    }

    /// How many numbers there are.
    pub(crate) fn len(&self) -> usize
        ensures { result ≡ length self.now.list }
    {
        self.len
    }

    /// For how many numbers there is room.
    pub(crate) fn room(&self) -> usize
        ensures room { result ≡ self.now.room }
        ensures within { length self.now.list ≤ result }
    {
        SIZE * self.blocks.len()
    }

    /// Whether there is room for no number.
    pub(crate) fn is_empty(&self) -> bool
        ensures { result ≡ (self.now.room == 0) }
    {
        self.blocks.is_empty()
    }

    /// The number at a place. Cost: constant.
    pub(crate) fn at(&self, at: usize) -> u32
        requires { at < length self.now.list }
        ensures { result ≡ slice_index_or self.now.list at result }
    {
        number_at(self.len, self.blocks.as_slice(), at)
    }

    /// The numbers that lie side by side from a place on. Cost: constant.
    pub(crate) fn run(&self, at: usize) -> &[u32]
        requires { at < length self.now.list }
        ensures some { 0 < length result.now }
        ensures run { result.now ≡ take (length result.now) (drop at self.now.list) }
    {
        run_at(self.len, self.blocks.as_slice(), at)
    }

    /// Makes room for so many numbers in all. Cost: constant for each block.
    pub(crate) fn reserve(&mut self, room: usize) -> Result<(), NoMemory>
        ensures same { self.new.list ≡ self.old.list }
        ensures room { OnOk result (room ≤ self.new.room) }
        ensures kept { self.old.room ≤ self.new.room }
    {
        let Some(end) = room.checked_add(SIZE) else {
            return Err(NoMemory);
        };
        let Some(count) = end.checked_div(SIZE) else {
            return Err(NoMemory);
        };
        add_blocks(self.alloc, count, &mut self.blocks)
    }

    /// Puts a number at a place. Cost: a move of at most half a block, and of one number more in each block behind.
    pub(crate) fn insert(&mut self, at: usize, number: u32)
        requires place { at ≤ length self.old.list }
        requires room { length self.old.list < self.old.room }
        ensures added { self.new.list ≡ insert self.old.list at number }
        ensures room { self.new.room ≡ self.old.room }
    {
        insert_number(self.len, &mut self.blocks, at, number);
        self.len += 1;
    }

    /// Takes the number at a place out. Cost: as of `insert`.
    pub(crate) fn remove(&mut self, at: usize)
        requires { at < length self.old.list }
        ensures rest { self.new.list ≡ remove self.old.list at }
        ensures room { self.new.room ≡ self.old.room }
    {
        remove_number(self.len, &mut self.blocks, at);
        self.len -= 1;
    }

    /// Puts a number in the place of another one. Cost: constant.
    pub(crate) fn set(&mut self, at: usize, number: u32)
        requires { at < length self.old.list }
        ensures replaced { self.new.list ≡ slice_set self.old.list at number }
        ensures room { self.new.room ≡ self.old.room }
    {
        set_number(self.len, &mut self.blocks, at, number);
    }
}
