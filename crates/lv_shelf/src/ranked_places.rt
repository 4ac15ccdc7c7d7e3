//! Numbers of slots in an order, with a rank for each slot.
ghost use Rattle.std.specs.Prelude.{◌≡◌, ◌+◌, ◌≤◌, ◌<◌, [], length, slice_index_or, slice_set, drop, take, OnOk};
ghost use Rattle.std.specs.List.{insert, remove};

use lv_places::Places;
use lv_values::NoMemory;
use std::alloc::Global;
use std::marker::Model;

/// Numbers of slots in an order, and a rank for each slot. Where ranks do not fall along the order, a search by them comes
/// near its place without a look at elements. They lie side by side by their slots, eight bytes each. No answer depends
/// on them, so contracts see the numbers alone, and for how many there is room.
#[derive(Drop)]
pub(crate) struct RankedPlaces {
    places: Places,
    ranks: Vec<i64>,
}

impl Model for RankedPlaces {
    ghost use Rattle.lv_places.specs.Blocks.{Roomed, roomed_code};

    ghost Value = { Roomed };

    ghost coded = { roomed_code };

    ghost view = { λ p. record { list = p.places.list; room = p.places.room } };
}

impl RankedPlaces {
    /// No number. It takes no memory.
    pub(crate) fn new(alloc: Global) -> RankedPlaces
        ensures { result.list ≡ [] }
    {
        RankedPlaces {
            places: Places::new(alloc),
            ranks: Vec::new(alloc),
        }
    }

    /// How many numbers there are.
    pub(crate) fn len(&self) -> usize
        ensures { result ≡ length self.now.list }
    {
        self.places.len()
    }

    /// The number at a place. Cost: constant.
    pub(crate) fn at(&self, at: usize) -> u32
        requires { at < length self.now.list }
        ensures { result ≡ slice_index_or self.now.list at result }
    {
        self.places.at(at)
    }

    /// The numbers that lie side by side from a place on, none of them from `end` on. Cost: constant.
    pub(crate) fn run(&self, at: usize, end: usize) -> &[u32]
        requires place { at < end }
        requires end { end ≤ length self.now.list }
        ensures some { 0 < length result.now }
        ensures within { at + length result.now ≤ end }
        ensures run { result.now ≡ take (length result.now) (drop at self.now.list) }
    {
        let run = self.places.run(at);
        &run[..run.len().min(end - at)]
    }

    /// The rank that a slot was given last, or 0.
    pub(crate) fn rank(&self, slot: u32) -> i64 {
        match self.ranks.get(slot as usize) {
            Some(rank) => *rank,
            None => 0,
        }
    }

    /// Makes room for so many numbers in all, and for the ranks of so many slots. The numbers stay as they were, and the
    /// room never shrinks.
    pub(crate) fn reserve(&mut self, room: usize) -> Result<(), NoMemory>
        ensures same { self.new.list ≡ self.old.list }
        ensures room { OnOk result (room ≤ self.new.room) }
        ensures kept { self.old.room ≤ self.new.room }
    {
        self.places.reserve(room)?;
        self.ranks.reserve(room.saturating_sub(self.ranks.len()))?;
        for _ in self.ranks.len()..room {
            self.ranks.push(0)?;
        }
        Ok(())
    }

    /// Puts a number at a place, and gives its slot a rank. It takes no memory. Cost: as of `Places::insert`.
    pub(crate) fn insert(&mut self, at: usize, slot: u32, rank: i64)
        requires place { at ≤ length self.old.list }
        requires room { length self.old.list < self.old.room }
        ensures added { self.new.list ≡ insert self.old.list at slot }
        ensures room { self.new.room ≡ self.old.room }
    {
        self.places.insert(at, slot);
        if let Some(old) = self.ranks.get_mut(slot as usize) {
            *old = rank;
        }
    }

    /// Takes the number at a place out. Cost: as of `Places::remove`.
    pub(crate) fn remove(&mut self, at: usize)
        requires { at < length self.old.list }
        ensures rest { self.new.list ≡ remove self.old.list at }
        ensures room { self.new.room ≡ self.old.room }
    {
        self.places.remove(at);
    }

    /// Puts a number in the place of another one. Cost: constant.
    pub(crate) fn set(&mut self, at: usize, slot: u32)
        requires { at < length self.old.list }
        ensures replaced { self.new.list ≡ slice_set self.old.list at slot }
        ensures room { self.new.room ≡ self.old.room }
    {
        self.places.set(at, slot);
    }

    /// Puts a number in the place of another one, and gives its slot a rank. Cost: constant.
    pub(crate) fn replace(&mut self, at: usize, slot: u32, rank: i64)
        requires { at < length self.old.list }
        ensures replaced { self.new.list ≡ slice_set self.old.list at slot }
        ensures room { self.new.room ≡ self.old.room }
    {
        self.places.set(at, slot);
        if let Some(old) = self.ranks.get_mut(slot as usize) {
            *old = rank;
        }
    }

    /// Keeps the first so many numbers. Cost: constant for each that goes.
    pub(crate) fn truncate(&mut self, len: usize)
        ensures rest { self.new.list ≡ take len self.old.list }
        ensures room { self.new.room ≡ self.old.room }
    {
        self.places.truncate(len);
    }
}
