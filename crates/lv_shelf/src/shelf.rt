//! A list in which elements are put anywhere without being moved.
ghost use Rattle.std.specs.Prelude.{◌≡◌, ◌≤◌, ◌<◌, ◌+◌, ◌++◌, ◌∷◌, [], length, slice_get, slice_set, drop, take, filter, map, Some, OnOk, OnErr};
ghost use Rattle.std.specs.List.{insert, remove, AllByRecursion};
ghost use Rattle.lv_shelf.specs.Cuts.{Falls, IsCut};
ghost use Rattle.lv_shelf.specs.Shelves.{ChangesOnly, LacksItem, other_at};

use crate::order::{keep_each, keep_taken, make_room};
use crate::ranked_places::RankedPlaces;
use crate::run::{Run, run_of};
use crate::slots::{
    clear_failing, cut_at, cut_near, edit_slot, exchange_slot, item_at, push_slots, set_slot,
};
use lv_values::{Edit, NoMemory, Test};
use std::alloc::Global;
use std::marker::Model;

/// How many slots there are at most, since their numbers have 32 bits.
const MOST: usize = 1 << 32;

/// A list whose elements lie still: each keeps its slot as long as it is in the list, and the order is kept by the
/// numbers of the slots, four bytes each, in blocks. Beside the list there may be further orders, each of some of its
/// elements. In each order an element has a rank, a number that should not fall along the order: where it does not,
/// `cut_near` is faster, and nothing else depends on it.
/// Contracts see the list, the further orders as lists, and the number of elements that still go in without memory.
#[derive(Drop)]
pub struct Shelf<T> {
    slots: Vec<Option<T>>,
    order: RankedPlaces,
    others: Vec<RankedPlaces>,
    free: Vec<u32>,
}

impl<T> Model for Shelf<T> {
    ghost use Rattle.std.specs.Prelude.{length, map};
    ghost use Rattle.std.specs.Vec.{vec_capacity};
    ghost use Rattle.lv_shelf.specs.Shelves.{AreShelved, Shelved, items_at, lists_of, shelved_code};

    ghost Value = { Shelved T };

    ghost coded = { shelved_code T.code };

    ghost view = { λ s. record { list = items_at s.slots.items s.order.list; others = map (items_at s.slots.items) (lists_of s.others.items); spare = length s.free.items } };

    ghost invariant = { λ s. AreShelved s.slots.items s.order.list s.free.items s.order.room (vec_capacity s.free) s.others.items };
}

impl<T> Shelf<T> {
    /// The empty list, with no further order and no room. It takes no memory.
    pub fn new(alloc: Global) -> Self
        ensures list { result.list ≡ [] }
        ensures others { result.others ≡ [] }
        ensures room { result.spare ≡ 0 }
    {
        Shelf {
            slots: Vec::new(alloc),
            order: RankedPlaces::new(alloc),
            others: Vec::new(alloc),
            free: Vec::new(alloc),
        }
    }

    /// The number of elements.
    pub fn len(&self) -> usize
        ensures { result ≡ length self.now.list }
    {
        self.order.len()
    }

    /// The element at a place, which is below the length.
    pub fn get(&self, at: usize) -> &T
        requires { at < length self.now.list }
        ensures { slice_get self.now.list at ≡ Some result.now }
    {
        item_at(self.slots.as_slice(), &self.order, at)
    }

    /// Elements from a place on that are looked up together: at least the one there, and none from `end` on. Cost: constant.
    pub fn run(&self, at: usize, end: usize) -> Run<'_, T>
        requires place { at < end }
        requires end { end ≤ length self.now.list }
        ensures some { 0 < length result }
        ensures within { at + length result ≤ end }
        ensures run { result ≡ take (length result) (drop at self.now.list) }
    {
        run_of(self.slots.as_slice(), &self.order, at, end)
    }

    /// How many elements pass a test that no later element passes where an earlier one fails. Cost: a binary search.
    pub fn cut<P: Test<T>>(&self, test: &P) -> usize
        requires { Falls (P.passed test.now) self.now.list }
        ensures within { result ≤ length self.now.list }
        ensures cut { IsCut (P.passed test.now) result self.now.list }
    {
        cut_at(test, self.slots.as_slice(), &self.order)
    }

    /// What `cut` gives. No element of a rank below `rank` should fail, and none of a rank above it should pass: then the cost
    /// is a binary search among the ranks, or a few looks at them where they rise evenly, and two looks at elements; where
    /// elements of this rank fail, twice as much, and where only some do, a look more for each time that these halve. Else
    /// that of `cut` is added.
    pub fn cut_near<P: Test<T>>(&self, rank: i64, test: &P) -> usize
        requires { Falls (P.passed test.now) self.now.list }
        ensures within { result ≤ length self.now.list }
        ensures cut { IsCut (P.passed test.now) result self.now.list }
    {
        cut_near(test, rank, self.slots.as_slice(), &self.order)
    }

    /// The number of further orders.
    pub fn orders(&self) -> usize
        ensures { result ≡ length self.now.others }
    {
        self.others.len()
    }

    /// The number of elements in a further order.
    pub fn len_in(&self, order: usize) -> usize
        requires { order < length self.now.others }
        ensures { result ≡ length (other_at self.now.others order) }
    {
        self.others[order].len()
    }

    /// The element at a place of a further order.
    pub fn get_in(&self, order: usize, at: usize) -> &T
        requires order { order < length self.now.others }
        requires place { at < length (other_at self.now.others order) }
        ensures { slice_get (other_at self.now.others order) at ≡ Some result.now }
    {
        item_at(self.slots.as_slice(), &self.others[order], at)
    }

    /// Elements of a further order from a place on, that are looked up together: at least the one there, and none from
    /// `end` on. Cost: constant.
    pub fn run_in(&self, order: usize, at: usize, end: usize) -> Run<'_, T>
        requires order { order < length self.now.others }
        requires place { at < end }
        requires end { end ≤ length (other_at self.now.others order) }
        ensures some { 0 < length result }
        ensures within { at + length result ≤ end }
        ensures run { result ≡ take (length result) (drop at (other_at self.now.others order)) }
    {
        run_of(self.slots.as_slice(), &self.others[order], at, end)
    }

    /// How many elements of a further order pass a test that no later one passes where an earlier one fails.
    /// Cost: a binary search.
    pub fn cut_in<P: Test<T>>(&self, order: usize, test: &P) -> usize
        requires order { order < length self.now.others }
        requires falls { Falls (P.passed test.now) (other_at self.now.others order) }
        ensures within { result ≤ length (other_at self.now.others order) }
        ensures cut { IsCut (P.passed test.now) result (other_at self.now.others order) }
    {
        cut_at(test, self.slots.as_slice(), &self.others[order])
    }

    /// What `cut_in` gives. Cost: as of `cut_near`, by the ranks in this order.
    pub fn cut_in_near<P: Test<T>>(&self, order: usize, rank: i64, test: &P) -> usize
        requires order { order < length self.now.others }
        requires falls { Falls (P.passed test.now) (other_at self.now.others order) }
        ensures within { result ≤ length (other_at self.now.others order) }
        ensures cut { IsCut (P.passed test.now) result (other_at self.now.others order) }
    {
        cut_near(test, rank, self.slots.as_slice(), &self.others[order])
    }
}

impl<T: Drop> Shelf<T> {
    /// Makes so many empty slots at least, and a sixteenth of the slots more, as far as numbers of 32 bits go. Each list takes
    /// its memory once.
    fn add_slots(&mut self, missing: u64) -> Result<(), NoMemory>
        ensures same { self.new.list ≡ self.old.list }
        ensures others { self.new.others ≡ self.old.others }
        ensures room { OnOk result (self.old.spare + missing ≤ self.new.spare) }
        ensures kept { OnErr result (self.new.spare ≡ self.old.spare) }
    {
        let slots = self.slots.len();
        let Some(left) = MOST.checked_sub(slots) else {
            return Err(NoMemory);
        };
        if missing > left as u64 {
            return Err(NoMemory);
        }
        let count = left.min(missing as usize + slots / 16);
        make_room(
            count,
            &mut self.slots,
            &mut self.order,
            &mut self.free,
            &mut self.others,
        )?;
        push_slots(count, &mut self.slots, &mut self.free);
        Ok(())
    }

    /// Makes room for `more` elements, in every order. Where some is missing, room for a sixteenth of the slots is made beyond
    /// it, so that the next calls find it. The list stays as it was, and the room never shrinks.
    /// Cost: a comparison where there is room; over many calls, constant for each element and order.
    pub fn reserve(&mut self, more: u64) -> Result<(), NoMemory>
        ensures same { self.new.list ≡ self.old.list }
        ensures others { self.new.others ≡ self.old.others }
        ensures room { OnOk result (more ≤ self.new.spare) }
        ensures kept { self.old.spare ≤ self.new.spare }
    {
        let spare = self.spare();
        if more > spare {
            self.add_slots(more - spare)?;
        }
        Ok(())
    }

    /// Adds a further order that has no element yet, with room for all.
    pub fn add_order(&mut self, alloc: Global) -> Result<(), NoMemory>
        ensures same { self.new.list ≡ self.old.list }
        ensures others { OnOk result (self.new.others ≡ self.old.others ++ [] ∷ []) }
        ensures refused { OnErr result (self.new.others ≡ self.old.others) }
        ensures room { self.new.spare ≡ self.old.spare }
    {
        let mut order = RankedPlaces::new(alloc);
        order.reserve(self.slots.len())?;
        self.others.push(order)?;
        Ok(())
    }

    /// The number of elements that still go in without memory.
    fn spare(&self) -> u64
        ensures { result ≡ self.now.spare }
    {
        self.free.len() as u64
    }

    /// Puts an element with a rank at a place, before those from there on. It comes into no further order. It takes no
    /// memory. Cost: a move of small numbers, as of `Places::insert`.
    pub fn insert(&mut self, at: usize, item: T, rank: i64)
        requires room { 0 < self.old.spare }
        requires place { at ≤ length self.old.list }
        ensures added { self.new.list ≡ insert self.old.list at item }
        ensures others { self.new.others ≡ self.old.others }
        ensures room { self.new.spare + 1 ≡ self.old.spare }
    {
        let slot = self.free.pop().unwrap();
        self.slots[slot as usize] = Some(item);
        self.order.insert(at, slot, rank);
    }

    /// Puts an element in the place of another one, in every order, with its ranks. It takes no memory. Cost: constant.
    pub fn set(&mut self, at: usize, item: T)
        requires { at < length self.old.list }
        ensures replaced { self.new.list ≡ slice_set self.old.list at item }
        ensures others { length self.new.others ≡ length self.old.others }
        ensures room { self.new.spare ≡ self.old.spare }
    {
        set_slot(&mut self.slots, self.order.at(at), item);
    }

    /// Puts an element in the place of another one, in every order, with its ranks, and answers that one. It takes no
    /// memory. Cost: constant.
    pub fn exchange(&mut self, at: usize, item: T) -> T
        requires { at < length self.old.list }
        ensures taken { slice_get self.old.list at ≡ Some result }
        ensures replaced { self.new.list ≡ slice_set self.old.list at item }
        ensures others { (f : T → T) → f result ≡ item → ChangesOnly f at self.old.list → self.new.others ≡ map (map f) self.old.others }
        ensures room { self.new.spare ≡ self.old.spare }
    {
        exchange_slot(&mut self.slots, self.order.at(at), item)
    }

    /// Puts the element at a place of the list into a further order that does not have it, with a rank there, before those
    /// from a place of that order on. It takes no memory. Cost: as of `insert`.
    pub fn enter(&mut self, order: usize, place: usize, at: usize, rank: i64)
        requires order { order < length self.old.others }
        requires place { place ≤ length (other_at self.old.others order) }
        requires at { at < length self.old.list }
        requires absent { (item : T) → slice_get self.old.list at ≡ Some item → LacksItem item (other_at self.old.others order) }
        ensures entered { (item : T) → slice_get self.old.list at ≡ Some item → self.new.others ≡ slice_set self.old.others order (insert (other_at self.old.others order) place item) }
        ensures same { self.new.list ≡ self.old.list }
        ensures room { self.new.spare ≡ self.old.spare }
    {
        let slot = self.order.at(at);
        self.others[order].insert(place, slot, rank);
    }

    /// Takes the element at a place of a further order out of that order. It stays in the list and in the others.
    /// Cost: as of `insert`.
    pub fn leave(&mut self, order: usize, place: usize)
        requires order { order < length self.old.others }
        requires place { place < length (other_at self.old.others order) }
        ensures left { self.new.others ≡ slice_set self.old.others order (remove (other_at self.old.others order) place) }
        ensures same { self.new.list ≡ self.old.list }
        ensures room { self.new.spare ≡ self.old.spare }
    {
        self.others[order].remove(place);
    }

    /// Drops the element at a place, which is in no further order. It takes no memory, and makes room for one.
    /// Cost: as of `insert`.
    pub fn remove(&mut self, at: usize)
        requires at { at < length self.old.list }
        requires alone { (item : T) → slice_get self.old.list at ≡ Some item → AllByRecursion (LacksItem item) self.old.others }
        ensures removed { self.new.list ≡ remove self.old.list at }
        ensures others { self.new.others ≡ self.old.others }
        ensures room { self.new.spare ≡ self.old.spare + 1 }
    {
        let slot = self.order.at(at);
        self.order.remove(at);
        self.slots[slot as usize] = None;
        self.free.push_reserved(slot);
    }

    /// Changes the element at a place. It takes no memory, and no order changes. Cost: constant.
    pub fn edit<E: Edit<T>>(&mut self, at: usize, edit: &E)
        requires { at < length self.old.list }
        ensures edited { (item : T) → slice_get self.old.list at ≡ Some item → self.new.list ≡ slice_set self.old.list at (E.edited edit.now item) }
        ensures others { ChangesOnly (E.edited edit.now) at self.old.list → self.new.others ≡ map (map (E.edited edit.now)) self.old.others }
        ensures others_by { (f : T → T) (item : T) → slice_get self.old.list at ≡ Some item → f item ≡ E.edited edit.now item → ChangesOnly f at self.old.list → self.new.others ≡ map (map f) self.old.others }
        ensures room { self.new.spare ≡ self.old.spare }
    {
        edit_slot(&mut self.slots, self.order.at(at), edit);
    }

    /// Keeps the elements that pass, in every order. It takes no memory, and makes room for as many as go.
    /// Cost: two passes over the numbers of the slots, and one over those of each further order.
    pub fn keep<P: Test<T>>(&mut self, test: &P)
        ensures kept { self.new.list ≡ filter (P.passed test.now) self.old.list }
        ensures others { self.new.others ≡ map (filter (P.passed test.now)) self.old.others }
        ensures room { self.old.spare ≤ self.new.spare }
    {
        keep_each(test, self.slots.as_slice(), &mut self.others);
        clear_failing(test, &self.order, &mut self.slots, &mut self.free);
        keep_taken(self.slots.as_slice(), &mut self.order);
    }
}
