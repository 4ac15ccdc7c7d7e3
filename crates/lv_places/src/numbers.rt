//! What holds numbers in an order.
ghost use Rattle.std.specs.Prelude.{◌≡◌, ◌≤◌, ◌<◌, [], length, slice_index_or, slice_set, drop, take, OnOk};
ghost use Rattle.std.specs.List.{insert, remove};
ghost use Rattle.lv_places.specs.Blocks.{Roomed};

use lv_values::NoMemory;
use std::alloc::Global;

/// Numbers in an order, with the room that they have.
pub(crate) trait Numbers: Drop {
    /// The numbers, and for how many in all there is room.
    ghost roomed: { Self → Roomed };

    /// No number. It takes no memory.
    fn new(alloc: Global) -> Self
        ensures { (roomed result).list ≡ [] };

    /// How many numbers there are.
    fn len(&self) -> usize
        ensures { result ≡ length (roomed self.now).list };

    /// For how many numbers in all there is room.
    fn room(&self) -> usize
        ensures room { result ≡ (roomed self.now).room }
        ensures within { length (roomed self.now).list ≤ result };

    /// The number at a place.
    fn at(&self, at: usize) -> u32
        requires { at < length (roomed self.now).list }
        ensures { result ≡ slice_index_or (roomed self.now).list at result };

    /// The numbers that lie side by side from a place on.
    fn run(&self, at: usize) -> &[u32]
        requires { at < length (roomed self.now).list }
        ensures some { 0 < length result.now }
        ensures run { result.now ≡ take (length result.now) (drop at (roomed self.now).list) };

    /// Makes room for so many numbers in all. The numbers stay as they were, and the room never shrinks.
    fn reserve(&mut self, room: usize) -> Result<(), NoMemory>
        ensures same { (roomed self.new).list ≡ (roomed self.old).list }
        ensures room { OnOk result (room ≤ (roomed self.new).room) }
        ensures kept { (roomed self.old).room ≤ (roomed self.new).room };

    /// Puts a number at a place.
    fn insert(&mut self, at: usize, number: u32)
        requires place { at ≤ length (roomed self.old).list }
        requires room { length (roomed self.old).list < (roomed self.old).room }
        ensures added { (roomed self.new).list ≡ insert (roomed self.old).list at number }
        ensures room { (roomed self.new).room ≡ (roomed self.old).room };

    /// Takes the number at a place out.
    fn remove(&mut self, at: usize)
        requires { at < length (roomed self.old).list }
        ensures rest { (roomed self.new).list ≡ remove (roomed self.old).list at }
        ensures room { (roomed self.new).room ≡ (roomed self.old).room };

    /// Puts a number in the place of another one.
    fn set(&mut self, at: usize, number: u32)
        requires { at < length (roomed self.old).list }
        ensures replaced { (roomed self.new).list ≡ slice_set (roomed self.old).list at number }
        ensures room { (roomed self.new).room ≡ (roomed self.old).room };
}
