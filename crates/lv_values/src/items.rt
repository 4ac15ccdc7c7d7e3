//! A list that contracts see as a list.
ghost use Rattle.std.specs.Prelude.{◌≡◌, List, IfOk, OnOk, OnErr, IsTrue, MatchOption, Some, ◌++◌, ◌∷◌, [], ◌<◌, ◌≤◌, ◌↔◌, length, slice_get, slice_index_or, slice_set, refl};
ghost use Rattle.std.specs.List.{insert, remove, swap};
ghost use Rattle.std.specs.Prelude.{reverse, take};
ghost use Rattle.std.specs.Cmp.{partial_order_from_agreeing_total};
ghost use Rattle.std.specs.Cmp.Lexicographic.{slice_cmp, pointwise, lists_per, lists_equiv, lists_total, lists_ties};
ghost use Rattle.std.specs.Ordering.{as_partial_cmp};
ghost use Rattle.std.specs.Hash as fed;
ghost use Rattle.std.specs.Prelude.{map, filter};
ghost use Rattle.std.specs.List.Sorted.{IsPermutation, IsSorted};
ghost use Rattle.std.specs.Hash.{items_Alike};

use crate::edits::{Edit, Test, edit_all, keep_passing};
use crate::memory::NoMemory;
use std::alloc::Global;
use std::cmp::Ordering;
use std::hash::{Hash, Hasher};
use std::marker::Model;

/// What can be copied where memory allows.
pub trait Copying: Drop {
    /// An equal value. Cost: linear in the value.
    fn copy(&self, alloc: Global) -> Result<Self, NoMemory>
        ensures { IfOk result (λ c. c ≡ self.now) };
}

/// A list. Contracts see the elements alone, so a copy equals what it copies.
#[derive(Debug, Drop)]
pub struct Items<T> {
    items: Vec<T>,
}

impl<T> Model for Items<T> {
    ghost use Rattle.std.specs.Prelude.{List};
    ghost use Rattle.std.specs.Coded.{coded_list};

    ghost Value = { List T };

    ghost coded = { coded_list T.code };

    ghost view = { λ s. s.items.items };
}

impl<T> Items<T> {
    /// The empty list. It takes no memory.
    pub fn new(alloc: Global) -> Self
        ensures { result ≡ [] }
    {
        Items {
            items: Vec::new(alloc),
        }
    }

    /// The list of a vector's elements. Cost: constant.
    pub fn from_vec(items: Vec<T>) -> Self
        ensures { result ≡ items.items }
    {
        Items { items }
    }

    /// The elements as a vector. Cost: constant.
    pub fn into_vec(self) -> Vec<T>
        ensures { result.items ≡ self }
    {
        let Items { items } = self;
        items
    }

    /// The number of elements.
    pub fn len(&self) -> usize
        ensures { result ≡ length self.now }
    {
        self.items.len()
    }

    /// Whether there is no element.
    pub fn is_empty(&self) -> bool
        ensures { IsTrue result ↔ (self.now ≡ []) }
    {
        self.items.is_empty()
    }

    /// The elements.
    pub fn as_slice(&self) -> &[T]
        ensures { result.now ≡ self.now }
    {
        self.items.as_slice()
    }

    /// The element at a place, which is below the length.
    pub fn get(&self, at: usize) -> &T
        requires { at < length self.now }
        ensures { result.now ≡ slice_index_or self.now at result.now }
    {
        &self.items[at]
    }

    /// Takes the last element off.
    pub fn pop(&mut self) -> Option<T>
        ensures { MatchOption result ((self.old ≡ []) × (self.new ≡ [])) (λ last. self.old ≡ self.new ++ last ∷ []) }
    {
        self.items.pop()
    }

    /// Puts an element in the place of another one, and hands that one out. Cost: constant.
    pub fn replace(&mut self, at: usize, item: T) -> T
        requires { at < length self.old }
        ensures taken { result ≡ slice_index_or self.old at result }
        ensures replaced { self.new ≡ slice_set self.old at item }
    {
        std::mem::replace(&mut self.items[at], item)
    }

    /// Exchanges the elements at two places.
    pub fn swap(&mut self, a: usize, b: usize)
        requires first { a < length self.old }
        requires second { b < length self.old }
        ensures { self.new ≡ swap self.old a b }
    {
        self.items.swap(a, b);
    }

    /// Turns the order round. Cost: linear.
    pub fn reverse(&mut self)
        ensures { self.new ≡ reverse self.old }
    {
        self.items.reverse();
    }
}

impl<T> Items<T> {
    /// Changes each element in place. Cost: one edit for each.
    pub fn edit_each<E: Edit<T>>(&mut self, edit: &E)
        ensures { self.new ≡ map (E.edited edit.now) self.old }
    {
        edit_all(edit, &mut self.items);
    }
}

impl<T: Drop> Items<T> {
    /// Keeps the elements that pass, in their order. Cost: one test for each.
    pub fn keep<P: Test<T>>(&mut self, test: &P)
        ensures { self.new ≡ filter (P.passed test.now) self.old }
    {
        keep_passing(test, &mut self.items);
    }

    /// Puts an element at the end. Want of memory changes nothing. Cost: constant, averaged over many calls.
    pub fn push(&mut self, item: T) -> Result<(), NoMemory>
        ensures added { OnOk result (self.new ≡ self.old ++ item ∷ []) }
        ensures refused { OnErr result (self.new ≡ self.old) }
    {
        self.items.push(item)?;
        Ok(())
    }

    /// Puts an element at a place, before those from there on. Want of memory changes nothing.
    /// Cost: one move of the elements behind it.
    pub fn insert(&mut self, at: usize, item: T) -> Result<(), NoMemory>
        requires { at ≤ length self.old }
        ensures added { OnOk result (self.new ≡ insert self.old at item) }
        ensures refused { OnErr result (self.new ≡ self.old) }
    {
        self.items.insert(at, item)?;
        Ok(())
    }

    /// Takes the element at a place out. Cost: one move of the elements behind it.
    pub fn remove(&mut self, at: usize) -> T
        requires { at < length self.old }
        ensures taken { result ≡ slice_index_or self.old at result }
        ensures rest { self.new ≡ remove self.old at }
    {
        self.items.remove(at)
    }

    /// Replaces the element at a place.
    pub fn set(&mut self, at: usize, item: T)
        requires { at < length self.old }
        ensures { self.new ≡ slice_set self.old at item }
    {
        self.items[at] = item;
    }

    /// Moves the elements of another list to the end. Want of memory changes nothing.
    /// Cost: linear in `more`.
    pub fn append(&mut self, more: Items<T>) -> Result<(), NoMemory>
        ensures added { OnOk result (self.new ≡ self.old ++ more) }
        ensures refused { OnErr result (self.new ≡ self.old) }
    {
        let Items { mut items } = more;
        self.items.append(&mut items)?;
        Ok(())
    }

    /// Lets go of the elements behind the first `len`.
    pub fn truncate(&mut self, len: usize)
        ensures { self.new ≡ take len self.old }
    {
        self.items.truncate(len);
    }

    /// Lets go of every element.
    pub fn clear(&mut self)
        ensures { self.new ≡ [] }
    {
        self.items.clear();
    }
}

impl<T: Copy> Items<T> {
    /// A list of these elements. Cost: linear.
    pub fn from_slice(alloc: Global, items: &[T]) -> Result<Self, NoMemory>
        ensures { IfOk result (λ it. it ≡ items.now) }
    {
        Ok(Items {
            items: Vec::from_slice(alloc, items)?,
        })
    }

    /// Puts copies of these elements at the end. Want of memory changes nothing. Cost: linear in `more`.
    pub fn extend_from_slice(&mut self, more: &[T]) -> Result<(), NoMemory>
        ensures added { OnOk result (self.new ≡ self.old ++ more.now) }
        ensures refused { OnErr result (self.new ≡ self.old) }
    {
        self.items.extend_from_slice(more)?;
        Ok(())
    }
}

impl Copying for u8 {
    fn copy(&self, _alloc: Global) -> Result<Self, NoMemory> {
        Ok(*self)
    }
}

impl Copying for u32 {
    fn copy(&self, _alloc: Global) -> Result<Self, NoMemory> {
        Ok(*self)
    }
}

impl Copying for u64 {
    fn copy(&self, _alloc: Global) -> Result<Self, NoMemory> {
        Ok(*self)
    }
}

impl Copying for i128 {
    fn copy(&self, _alloc: Global) -> Result<Self, NoMemory> {
        Ok(*self)
    }
}

impl Copying for bool {
    fn copy(&self, _alloc: Global) -> Result<Self, NoMemory> {
        Ok(*self)
    }
}

impl<A: Copying, B: Copying> Copying for (A, B) {
    fn copy(&self, alloc: Global) -> Result<Self, NoMemory> {
        let (first, second) = self;
        let first = first.copy(alloc)?;
        Ok((first, second.copy(alloc)?))
    }
}

impl<T: Copying> Copying for Option<T> {
    fn copy(&self, alloc: Global) -> Result<Self, NoMemory> {
        match self {
            Some(value) => Ok(Some(value.copy(alloc)?)),
            None => Ok(None),
        }
    }
}

/// A copy takes room for as many elements as there are, once.
impl<T: Copying> Copying for Items<T> {
    fn copy(&self, alloc: Global) -> Result<Self, NoMemory> {
        let mut items = Vec::with_capacity(alloc, self.len())?;
        for item in self.as_slice() {
            items.push_reserved(item.copy(alloc)?);
        }
        Ok(Items { items })
    }
}

impl<T: Ord> Items<T> {
    /// Sorts in place. `sort` says more where only equal elements tie.
    pub(crate) fn sort_unstable(&mut self)
        ensures moved { IsPermutation self.old self.new }
        ensures sorted { IsSorted T.cmp self.new }
    {
        self.items.sort_unstable();
    }
}

impl<T: PartialEq> PartialEq for Items<T> {
    ghost eq = { pointwise T.eq };

    ghost laws = { lists_per T.laws };

    fn eq(&self, other: &Self) -> bool {
        self.as_slice() == other.as_slice()
    }
}

impl<T: Eq> Eq for Items<T> {
    ghost laws = { lists_equiv T.Eq.laws };
}

impl<T: Ord> Ord for Items<T> {
    ghost cmp = { slice_cmp T.cmp };

    ghost total = { lists_total T.total };

    ghost matches_partial_cmp = { λ _ _. refl };

    ghost matches_eq = { lists_ties T.cmp T.matches_eq };

    fn cmp(&self, other: &Self) -> Ordering {
        self.as_slice().cmp(other.as_slice())
    }
}

impl<T: Ord> PartialOrd for Items<T> {
    ghost partial_cmp = { as_partial_cmp (slice_cmp T.cmp) };

    ghost laws = { partial_order_from_agreeing_total (slice_cmp T.cmp) (lists_total T.total) (λ _ _. refl) (lists_ties T.cmp T.matches_eq) };

    fn partial_cmp(&self, other: &Self) -> Option<Ordering> {
        Some(self.cmp(other))
    }
}

impl<T: Hash> Hash for Items<T> {
    ghost hash_input = { fed.slice T.hash_input };

    ghost respects_eq = { (items_Alike (record { fed = T.respects_eq })).fed };

    fn hash<H: Hasher>(&self, state: &mut H) {
        self.as_slice().hash(state);
    }
}
