//! A list of chains in which elements are put anywhere without being moved.
ghost use Rattle.std.specs.Prelude.{◌≡◌, ◌≤◌, ◌<◌, ◌+◌, ◌-◌, ◌++◌, ◌∷◌, [], not, true, length, slice_get, slice_set, drop, take, filter, map, Some, OnOk, OnErr, option_map};
ghost use Rattle.std.specs.List.{insert, remove, AllByRecursion};
ghost use Rattle.lv_shelf.specs.Chains.{AgreesOn, HasSome, all_newest, before, chain_at, joined, kept_in, newest_of, newest_that, shortened};
ghost use Rattle.lv_shelf.specs.Cuts.{Falls, IsCut};
ghost use Rattle.lv_shelf.specs.Shelves.{ChangesOnly, LacksItem, other_at};

use crate::chains::Chains;
use crate::order::{keep_each, make_room_beside};
use crate::ranked_places::RankedPlaces;
use crate::run::{Run, run_of};
use crate::slots::{cut_at, cut_near, edit_slot, in_slot, item_at, push_slots};
use lv_values::{Edit, NoMemory, Test};
use std::alloc::Global;
use std::marker::Model;

/// How many slots there are at most, since their numbers, and the heights of chains, have 32 bits.
const MOST: usize = (1 << 32) - 1;

/// Chains of elements that lie still: each element keeps its slot as long as it is there, and a chain that grows or loses its
/// oldest element moves nothing. Only where a chain comes or goes numbers of slots move, four bytes each, one for each chain
/// of a block. Beside the chains there may be further orders, each of some of the elements. In each order an element has a
/// rank, as in a `Shelf`.
/// Contracts see the chains, each from its oldest element on, the further orders as lists, and the number of elements that
/// still go in without memory. They call the elements of all chains, one chain after the other, joined.
#[derive(Drop)]
pub struct ChainShelf<T> {
    slots: Vec<Option<T>>,
    chains: Chains,
    others: Vec<RankedPlaces>,
    free: Vec<u32>,
    count: usize,
}

impl<T> Model for ChainShelf<T> {
    ghost use Rattle.std.specs.Prelude.{length, map};
    ghost use Rattle.std.specs.Vec.{vec_capacity};
    ghost use Rattle.lv_shelf.specs.Chains.{AreChainShelved, ChainShelved, chain_shelved_code};
    ghost use Rattle.lv_shelf.specs.Shelves.{items_at, lists_of};

    ghost Value = { ChainShelved T };

    ghost coded = { chain_shelved_code T.code };

    ghost view = { λ s. record { chains = map (items_at s.slots.items) s.chains.chains; others = map (items_at s.slots.items) (lists_of s.others.items); spare = length s.free.items } };

    ghost invariant = { λ s. AreChainShelved s.slots.items s.chains.chains s.free.items s.chains.room s.chains.links (vec_capacity s.free) s.count s.others.items };
}

impl<T> ChainShelf<T> {
    /// No chain, with no further order and no room. It takes no memory.
    pub fn new(alloc: Global) -> Self
        ensures chains { result.chains ≡ [] }
        ensures others { result.others ≡ [] }
        ensures room { result.spare ≡ 0 }
    {
        ChainShelf {
            slots: Vec::new(alloc),
            chains: Chains::new(alloc),
            others: Vec::new(alloc),
            free: Vec::new(alloc),
            count: 0,
        }
    }

    /// The number of elements.
    pub fn len(&self) -> usize
        ensures { result ≡ length (joined self.now.chains) }
    {
        self.count
    }

    /// The number of chains, each of which has an element.
    pub fn chains(&self) -> usize
        ensures count { result ≡ length self.now.chains }
        ensures some { AllByRecursion HasSome self.now.chains }
    {
        self.chains.len()
    }

    /// The newest element of a chain. Cost: constant.
    pub fn newest(&self, chain: usize) -> &T
        requires { chain < length self.now.chains }
        ensures { newest_of (chain_at self.now.chains chain) ≡ Some result.now }
    {
        in_slot(self.slots.as_slice(), self.chains.newest_in(chain))
    }

    /// The oldest element of a chain. Cost: constant.
    pub fn oldest(&self, chain: usize) -> &T
        requires { chain < length self.now.chains }
        ensures { slice_get (chain_at self.now.chains chain) 0 ≡ Some result.now }
    {
        in_slot(self.slots.as_slice(), self.chains.oldest_in(chain))
    }

    /// The newest element of a chain that passes. Cost: a test of it, and of each newer one.
    pub fn newest_that<P: Test<T>>(&self, chain: usize, test: &P) -> Option<&T>
        requires { chain < length self.now.chains }
        ensures { option_map (λ found. found.now) result ≡ newest_that (P.passed test.now) (chain_at self.now.chains chain) }
    {
        let slots = self.slots.as_slice();
        match self.chains.newest_that(chain, test, slots) {
            Some(slot) => Some(in_slot(slots, slot)),
            None => None,
        }
    }

    /// The newest elements of chains from one on that are looked up together: at least that of this one, and none of those
    /// from `end` on. Cost: constant.
    pub fn run(&self, at: usize, end: usize) -> Run<'_, T>
        requires place { at < end }
        requires end { end ≤ length self.now.chains }
        ensures some { 0 < length result }
        ensures within { at + length result ≤ end }
        ensures run { result ≡ take (length result) (drop at (all_newest self.now.chains)) }
    {
        run_of(self.slots.as_slice(), self.chains.newest(), at, end)
    }

    /// How many chains have elements that pass a test, which says the same of all elements of a chain, and which no later
    /// one passes where an earlier one fails. No chain of a rank below `rank` should fail, and none of a rank above it should
    /// pass. Cost: as of `Shelf::cut_near`, by the chains.
    pub fn cut_near<P: Test<T>>(&self, rank: i64, test: &P) -> usize
        requires falls { Falls (P.passed test.now) (joined self.now.chains) }
        requires agrees { AllByRecursion (AgreesOn (P.passed test.now)) self.now.chains }
        ensures within { result ≤ length self.now.chains }
        ensures cut { IsCut (P.passed test.now) (before self.now.chains result) (joined self.now.chains) }
    {
        cut_near(test, rank, self.slots.as_slice(), self.chains.newest())
    }

    /// The number of further orders.
    pub fn orders(&self) -> usize
        ensures { result ≡ length self.now.others }
    {
        self.others.len()
    }

    /// The number of elements in a further order.
    pub fn len_in(&self, order: usize) -> usize
        requires { order < length self.now.others }
        ensures { result ≡ length (other_at self.now.others order) }
    {
        self.others[order].len()
    }

    /// The element at a place of a further order.
    pub fn get_in(&self, order: usize, at: usize) -> &T
        requires order { order < length self.now.others }
        requires place { at < length (other_at self.now.others order) }
        ensures { slice_get (other_at self.now.others order) at ≡ Some result.now }
    {
        item_at(self.slots.as_slice(), &self.others[order], at)
    }

    /// Elements of a further order from a place on, that are looked up together: at least the one there, and none from
    /// `end` on. Cost: constant.
    pub fn run_in(&self, order: usize, at: usize, end: usize) -> Run<'_, T>
        requires order { order < length self.now.others }
        requires place { at < end }
        requires end { end ≤ length (other_at self.now.others order) }
        ensures some { 0 < length result }
        ensures within { at + length result ≤ end }
        ensures run { result ≡ take (length result) (drop at (other_at self.now.others order)) }
    {
        run_of(self.slots.as_slice(), &self.others[order], at, end)
    }

    /// How many elements of a further order pass a test that no later one passes where an earlier one fails.
    /// Cost: a binary search.
    pub fn cut_in<P: Test<T>>(&self, order: usize, test: &P) -> usize
        requires order { order < length self.now.others }
        requires falls { Falls (P.passed test.now) (other_at self.now.others order) }
        ensures within { result ≤ length (other_at self.now.others order) }
        ensures cut { IsCut (P.passed test.now) result (other_at self.now.others order) }
    {
        cut_at(test, self.slots.as_slice(), &self.others[order])
    }

    /// What `cut_in` gives. Cost: as of `Shelf::cut_near`, by the ranks in this order.
    pub fn cut_in_near<P: Test<T>>(&self, order: usize, rank: i64, test: &P) -> usize
        requires order { order < length self.now.others }
        requires falls { Falls (P.passed test.now) (other_at self.now.others order) }
        ensures within { result ≤ length (other_at self.now.others order) }
        ensures cut { IsCut (P.passed test.now) result (other_at self.now.others order) }
    {
        cut_near(test, rank, self.slots.as_slice(), &self.others[order])
    }
}

impl<T: Drop> ChainShelf<T> {
    /// Makes so many empty slots at least, and a sixteenth of the slots more, as far as numbers of 32 bits go. Each list takes
    /// its memory once.
    fn add_slots(&mut self, missing: u64) -> Result<(), NoMemory>
        ensures same { self.new.chains ≡ self.old.chains }
        ensures others { self.new.others ≡ self.old.others }
        ensures room { OnOk result (self.old.spare + missing ≤ self.new.spare) }
        ensures kept { OnErr result (self.new.spare ≡ self.old.spare) }
    {
        let slots = self.slots.len();
        let Some(left) = MOST.checked_sub(slots) else {
            return Err(NoMemory);
        };
        if missing > left as u64 {
            return Err(NoMemory);
        }
        let count = left.min(missing as usize + slots / 16);
        self.chains.reserve(slots + count)?;
        make_room_beside(count, &mut self.slots, &mut self.free, &mut self.others)?;
        push_slots(count, &mut self.slots, &mut self.free);
        Ok(())
    }

    /// Makes room for `more` elements, in every order. Where some is missing, room for a sixteenth of the slots is made beyond
    /// it, so that the next calls find it. The chains stay as they were, and the room never shrinks.
    /// Cost: a comparison where there is room; over many calls, constant for each element and order.
    pub fn reserve(&mut self, more: u64) -> Result<(), NoMemory>
        ensures same { self.new.chains ≡ self.old.chains }
        ensures others { self.new.others ≡ self.old.others }
        ensures room { OnOk result (more ≤ self.new.spare) }
        ensures kept { self.old.spare ≤ self.new.spare }
    {
        let spare = self.spare();
        if more > spare {
            self.add_slots(more - spare)?;
        }
        Ok(())
    }

    /// Adds a further order that has no element yet, with room for all.
    pub fn add_order(&mut self, alloc: Global) -> Result<(), NoMemory>
        ensures same { self.new.chains ≡ self.old.chains }
        ensures others { OnOk result (self.new.others ≡ self.old.others ++ [] ∷ []) }
        ensures refused { OnErr result (self.new.others ≡ self.old.others) }
        ensures room { self.new.spare ≡ self.old.spare }
    {
        let mut order = RankedPlaces::new(alloc);
        order.reserve(self.slots.len())?;
        self.others.push(order)?;
        Ok(())
    }

    /// The number of elements that still go in without memory.
    fn spare(&self) -> u64
        ensures { result ≡ self.now.spare }
    {
        self.free.len() as u64
    }

    /// Puts a chain of one element before those from a place on, with a rank. It comes into no further order. It takes no
    /// memory. Cost: a move of small numbers, as of `Places::insert`, one for each chain.
    pub fn insert(&mut self, at: usize, item: T, rank: i64)
        requires room { 0 < self.old.spare }
        requires place { at ≤ length self.old.chains }
        ensures added { self.new.chains ≡ insert self.old.chains at (item ∷ []) }
        ensures joined { joined self.new.chains ≡ insert (joined self.old.chains) (before self.old.chains at) item }
        ensures others { self.new.others ≡ self.old.others }
        ensures room { self.new.spare + 1 ≡ self.old.spare }
    {
        let slot = self.free.pop().unwrap();
        self.slots[slot as usize] = Some(item);
        self.chains.insert(at, slot, rank);
        self.count += 1;
    }

    /// Puts an element behind the newest one of a chain, with a rank. It comes into no further order. It takes no memory.
    /// Cost: constant.
    pub fn push(&mut self, chain: usize, item: T, rank: i64)
        requires room { 0 < self.old.spare }
        requires chain { chain < length self.old.chains }
        ensures added { self.new.chains ≡ slice_set self.old.chains chain (chain_at self.old.chains chain ++ item ∷ []) }
        ensures joined { joined self.new.chains ≡ insert (joined self.old.chains) (before self.old.chains (chain + 1)) item }
        ensures others { self.new.others ≡ self.old.others }
        ensures room { self.new.spare + 1 ≡ self.old.spare }
    {
        let slot = self.free.pop().unwrap();
        self.slots[slot as usize] = Some(item);
        self.chains.push(chain, slot, rank);
        self.count += 1;
    }

    /// Puts the newest element of a chain into a further order that does not have it, with a rank there, before those from a
    /// place of that order on. It takes no memory. Cost: a move of small numbers, as of `Places::insert`.
    pub fn enter(&mut self, order: usize, place: usize, chain: usize, rank: i64)
        requires order { order < length self.old.others }
        requires place { place ≤ length (other_at self.old.others order) }
        requires chain { chain < length self.old.chains }
        requires absent { (item : T) → newest_of (chain_at self.old.chains chain) ≡ Some item → LacksItem item (other_at self.old.others order) }
        ensures entered { (item : T) → newest_of (chain_at self.old.chains chain) ≡ Some item → self.new.others ≡ slice_set self.old.others order (insert (other_at self.old.others order) place item) }
        ensures same { self.new.chains ≡ self.old.chains }
        ensures room { self.new.spare ≡ self.old.spare }
    {
        let slot = self.chains.newest_in(chain);
        self.others[order].insert(place, slot, rank);
    }

    /// Puts the element at a place of a further order into another one that does not have it, as `enter` puts the newest
    /// element of a chain. Cost: as of `enter`.
    pub fn enter_from(&mut self, order: usize, place: usize, from: usize, at: usize, rank: i64)
        requires order { order < length self.old.others }
        requires place { place ≤ length (other_at self.old.others order) }
        requires from { from < length self.old.others }
        requires at { at < length (other_at self.old.others from) }
        requires absent { (item : T) → slice_get (other_at self.old.others from) at ≡ Some item → LacksItem item (other_at self.old.others order) }
        ensures entered { (item : T) → slice_get (other_at self.old.others from) at ≡ Some item → self.new.others ≡ slice_set self.old.others order (insert (other_at self.old.others order) place item) }
        ensures same { self.new.chains ≡ self.old.chains }
        ensures room { self.new.spare ≡ self.old.spare }
    {
        let slot = self.others[from].at(at);
        self.others[order].insert(place, slot, rank);
    }

    /// Takes the element at a place of a further order out of that order. It stays in its chain and in the other orders.
    /// Cost: as of `enter`.
    pub fn leave(&mut self, order: usize, place: usize)
        requires order { order < length self.old.others }
        requires place { place < length (other_at self.old.others order) }
        ensures left { self.new.others ≡ slice_set self.old.others order (remove (other_at self.old.others order) place) }
        ensures same { self.new.chains ≡ self.old.chains }
        ensures room { self.new.spare ≡ self.old.spare }
    {
        self.others[order].remove(place);
    }

    /// Drops the oldest element of a chain, which is in no further order, and the chain where it has no other. It takes no
    /// memory, and makes room for one. Cost: constant, or as of `insert` where the chain goes.
    pub fn shorten(&mut self, chain: usize)
        requires chain { chain < length self.old.chains }
        requires alone { (item : T) → slice_get (chain_at self.old.chains chain) 0 ≡ Some item → AllByRecursion (LacksItem item) self.old.others }
        ensures rest { self.new.chains ≡ shortened self.old.chains chain }
        ensures joined { joined self.new.chains ≡ remove (joined self.old.chains) (before self.old.chains chain) }
        ensures others { self.new.others ≡ self.old.others }
        ensures room { self.new.spare ≡ self.old.spare + 1 }
    {
        let slot = self.chains.oldest_in(chain);
        self.chains.shorten(chain);
        self.slots[slot as usize] = None;
        self.free.push_reserved(slot);
        self.count -= 1;
    }

    /// Changes the newest element of a chain. It takes no memory, and no order changes. Cost: constant.
    pub fn edit<E: Edit<T>>(&mut self, chain: usize, edit: &E)
        requires { chain < length self.old.chains }
        ensures edited { (item : T) → newest_of (chain_at self.old.chains chain) ≡ Some item → self.new.chains ≡ slice_set self.old.chains chain (slice_set (chain_at self.old.chains chain) (length (chain_at self.old.chains chain) - 1) (E.edited edit.now item)) }
        ensures joined { (item : T) → newest_of (chain_at self.old.chains chain) ≡ Some item → joined self.new.chains ≡ slice_set (joined self.old.chains) (before self.old.chains (chain + 1) - 1) (E.edited edit.now item) }
        ensures others { ChangesOnly (E.edited edit.now) (before self.old.chains (chain + 1) - 1) (joined self.old.chains) → self.new.others ≡ map (map (E.edited edit.now)) self.old.others }
        ensures room { self.new.spare ≡ self.old.spare }
    {
        edit_slot(&mut self.slots, self.chains.newest_in(chain), edit);
    }

    /// Drops the oldest elements of a chain, up to the first one that passes. None of them is in a further order.
    fn drop_failing<P: Test<T>>(&mut self, chain: usize, test: &P)
        requires chain { chain < length self.old.chains }
        requires falls { Falls (λ x. not (P.passed test.now x)) (chain_at self.old.chains chain) }
        requires others { AllByRecursion (AllByRecursion (λ x. P.passed test.now x ≡ true)) self.old.others }
        ensures rest { self.new.chains ≡ take chain self.old.chains ++ kept_in (P.passed test.now) (chain_at self.old.chains chain ∷ []) ++ drop (chain + 1) self.old.chains }
        ensures others { self.new.others ≡ self.old.others }
        ensures room { self.old.spare ≤ self.new.spare }
    {
        let mut left = self.chains.height(chain);
        while left > 0 {
            if test.passes(self.oldest(chain)) {
                return;
            }
            self.shorten(chain);
            left -= 1;
        }
    }

    /// Keeps the elements that pass, in every order, where in no chain one that passes is older than one that does not. It
    /// takes no memory, and makes room for as many as go. Cost: a pass over the chains and one over the numbers of each
    /// further order, constant for each element that goes, and as of `insert` for each chain that does.
    pub fn keep<P: Test<T>>(&mut self, test: &P)
        requires { AllByRecursion (Falls (λ x. not (P.passed test.now x))) self.old.chains }
        ensures kept { self.new.chains ≡ kept_in (P.passed test.now) self.old.chains }
        ensures joined { joined self.new.chains ≡ filter (P.passed test.now) (joined self.old.chains) }
        ensures others { self.new.others ≡ map (filter (P.passed test.now)) self.old.others }
        ensures room { self.old.spare ≤ self.new.spare }
    {
        keep_each(test, self.slots.as_slice(), &mut self.others);
        let mut chain = self.chains.len();
        while chain > 0 {
            chain -= 1;
            self.drop_failing(chain, test);
        }
    }
}
