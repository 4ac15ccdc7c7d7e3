//! A block of numbers.
ghost use Rattle.std.specs.Prelude.{◌≡◌, ◌≤◌, ◌<◌, ◌++◌, ◌∷◌, [], length, slice_index_or, slice_set, drop, take, IfOk};
ghost use Rattle.std.specs.List.{insert, remove};
ghost use Rattle.std.specs.VecDeque.{deque_capacity};

use lv_values::NoMemory;
use std::alloc::Global;
use std::collections::VecDeque;
use std::marker::Model;

/// Numbers, with room for those of a full block and one more.
#[derive(Drop)]
pub(crate) struct Block<const SIZE: usize> {
    numbers: VecDeque<u32>,
}

impl<const SIZE: usize> Model for Block<SIZE> {
    ghost use Rattle.std.specs.Prelude.{ℕ, List, ◌<◌};
    ghost use Rattle.std.specs.Coded.{coded_list, coded_ℕ};
    ghost use Rattle.std.specs.VecDeque.{deque_capacity};

    ghost Value = { List ℕ };

    ghost coded = { coded_list coded_ℕ };

    ghost view = { λ b. b.numbers.items };

    ghost invariant = { λ b. SIZE < deque_capacity b.numbers };
}

impl<const SIZE: usize> Block<SIZE> {
    /// No number.
    pub(crate) fn new(alloc: Global) -> Result<Block<SIZE>, NoMemory>
        ensures { IfOk result (λ b. b ≡ []) }
    {
        let room = SIZE.checked_add(1).ok_or(NoMemory)?;
        let numbers = VecDeque::with_capacity(alloc, room)?;
        Ok(Block { numbers })
    }

    /// The number at a place.
    pub(crate) fn at(&self, at: usize) -> u32
        requires { at < length self.now }
        ensures { result ≡ slice_index_or self.now at result }
    {
        self.numbers[at]
    }

    /// The numbers that lie side by side from a place on: those up to the end of the block, or of the part of the ring.
    pub(crate) fn run(&self, at: usize) -> &[u32]
        requires { at < length self.now }
        ensures some { 0 < length result.now }
        ensures run { result.now ≡ take (length result.now) (drop at self.now) }
    {
        let (front, back) = self.numbers.as_slices();
        if at < front.len() {
            &front[at..]
        } else {
            &back[at - front.len()..]
        }
    }

    /// Puts a number in the place of another one.
    pub(crate) fn set(&mut self, at: usize, number: u32)
        requires { at < length self.old }
        ensures { self.new ≡ slice_set self.old at number }
    {
        self.numbers[at] = number;
    }

    /// Puts a number at a place. Cost: a move of those behind it or of those before it, which are fewer.
    pub(crate) fn insert(&mut self, at: usize, number: u32)
        requires place { at ≤ length self.old }
        requires room { length self.old ≤ SIZE }
        ensures { self.new ≡ insert self.old at number }
    {
        self.numbers.insert(at, number).unwrap();
    }

    /// Takes the number at a place out. Cost: as of `insert`.
    pub(crate) fn remove(&mut self, at: usize)
        requires { at < length self.old }
        ensures { self.new ≡ remove self.old at }
    {
        self.numbers.remove(at).unwrap();
    }

    /// Puts a number before the others. Cost: constant.
    pub(crate) fn push_front(&mut self, number: u32)
        requires { length self.old ≤ SIZE }
        ensures { self.new ≡ number ∷ self.old }
    {
        self.numbers.push_front_reserved(number);
    }

    /// Puts a number behind the others. Cost: constant.
    pub(crate) fn push_back(&mut self, number: u32)
        requires { length self.old ≤ SIZE }
        ensures { self.new ≡ self.old ++ number ∷ [] }
    {
        self.numbers.push_back_reserved(number);
    }

    /// Takes the first number out. Cost: constant.
    pub(crate) fn pop_front(&mut self) -> u32
        requires { 0 < length self.old }
        ensures { self.old ≡ result ∷ self.new }
    {
        self.numbers.pop_front().unwrap()
    }

    /// Takes the last number out. Cost: constant.
    pub(crate) fn pop_back(&mut self) -> u32
        requires { 0 < length self.old }
        ensures { self.old ≡ self.new ++ result ∷ [] }
    {
        self.numbers.pop_back().unwrap()
    }
}
