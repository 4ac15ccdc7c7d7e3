//! Elements of an order that are looked up together.
ghost use Rattle.std.specs.Prelude.{◌≡◌, ◌+◌, ◌≤◌, ◌<◌, length, slice_get, drop, take, Some};
ghost use Rattle.std.specs.List.{AllByRecursion};
ghost use Rattle.lv_shelf.specs.Shelves.{IsHeld, items_at};

use crate::ranked_places::RankedPlaces;
use crate::slots::in_slot;
use std::marker::Model;

/// Elements that follow one another in an order, and whose numbers lie side by side: to look one of them up is to read its
/// number and its slot. Contracts see the elements.
#[derive(Drop)]
pub struct Run<'a, T> {
    slots: &'a [Option<T>],
    numbers: &'a [u32],
}

impl<'a, T> Model for Run<'a, T> {
    ghost use Rattle.std.specs.Prelude.{List};
    ghost use Rattle.std.specs.Coded.{coded_list};
    ghost use Rattle.std.specs.List.{AllByRecursion};
    ghost use Rattle.lv_shelf.specs.Shelves.{IsHeld, items_at};

    ghost Value = { List T };

    ghost coded = { coded_list T.code };

    ghost view = { λ r. items_at r.slots.now r.numbers.now };

    ghost invariant = { λ r. AllByRecursion (IsHeld r.slots.now) r.numbers.now };
}

impl<'a, T> Run<'a, T> {
    /// The number of elements.
    pub fn len(&self) -> usize
        ensures { result ≡ length self.now }
    {
        self.numbers.len()
    }

    /// The element at a place. Cost: constant.
    pub fn get(&self, at: usize) -> &'a T
        requires { at < length self.now }
        ensures { slice_get self.now at ≡ Some result.now }
    {
        in_slot(self.slots, self.numbers[at])
    }
}

/// Elements of an order from a place on: at least the one there, and none from `end` on. Cost: constant.
pub(crate) fn run_of<'a, T>(
    slots: &'a [Option<T>],
    places: &'a RankedPlaces,
    at: usize,
    end: usize,
) -> Run<'a, T>
    requires held { AllByRecursion (IsHeld slots.now) places.now.list }
    requires place { at < end }
    requires end { end ≤ length places.now.list }
    ensures some { 0 < length result }
    ensures within { at + length result ≤ end }
    ensures run { result ≡ take (length result) (drop at (items_at slots.now places.now.list)) }
{
    let numbers = places.run(at, end);
    Run { slots, numbers }
}
