//! A list with room: elements go in without memory while there is spare room.
ghost use Rattle.std.specs.Prelude.{◌≡◌, ◌≤◌, ◌<◌, ◌+◌, ◌∷◌, ◌++◌, [], length, slice_index_or, slice_set, take, OnOk, map, filter};
ghost use Rattle.std.specs.List.{insert, remove};
ghost use Rattle.std.specs.Prelude.{◌-◌, vec_len, vec_capacity};

use crate::edits::{Edit, Test, edit_all, keep_passing};
use crate::items::Items;
use crate::memory::NoMemory;
use std::alloc::Global;
use std::marker::Model;

/// A list that has room kept for more. Contracts see the list, and beside it the number of elements that
/// still go in without memory.
#[derive(Drop)]
pub struct Room<T> {
    items: Vec<T>,
}

impl<T> Model for Room<T> {
    ghost use Rattle.std.specs.Prelude.{◌-◌};
    ghost use Rattle.std.specs.Vec.{vec_len, vec_capacity};
    ghost use Rattle.lv_values.specs.Room.{Roomy, roomy_code};

    ghost Value = { Roomy T };

    ghost coded = { roomy_code T.code };

    ghost view = { λ r. record { list = r.items.items; spare = vec_capacity r.items - vec_len r.items } };
}

impl<T> Room<T> {
    /// The empty list, with no room. It takes no memory.
    pub fn new(alloc: Global) -> Self
        ensures { result.list ≡ [] }
    {
        Room {
            items: Vec::new(alloc),
        }
    }

    /// The elements of a list. Of the room nothing is said, for contracts see none at a list: `reserve` before
    /// elements go in. Cost: constant.
    pub fn from_items(items: Items<T>) -> Self
        ensures { result.list ≡ items }
    {
        Room {
            items: items.into_vec(),
        }
    }

    /// The elements as a list. Cost: constant.
    pub fn into_items(self) -> Items<T>
        ensures { result ≡ self.list }
    {
        let Room { items } = self;
        Items::from_vec(items)
    }

    /// The elements of a vector, with the room that it has. Cost: constant.
    pub fn from_vec(items: Vec<T>) -> Self
        ensures same { result.list ≡ items.items }
        ensures room { result.spare ≡ vec_capacity items - vec_len items }
    {
        Room { items }
    }

    /// The elements as a vector, which keeps the room. Cost: constant.
    pub fn into_vec(self) -> Vec<T>
        ensures same { result.items ≡ self.list }
        ensures room { vec_capacity result - vec_len result ≡ self.spare }
    {
        let Room { items } = self;
        items
    }

    /// The number of elements.
    pub fn len(&self) -> usize
        ensures { result ≡ length self.now.list }
    {
        self.items.len()
    }

    /// The elements.
    pub fn as_slice(&self) -> &[T]
        ensures { result.now ≡ self.now.list }
    {
        self.items.as_slice()
    }

    /// The element at a place, which is below the length.
    pub fn get(&self, at: usize) -> &T
        requires { at < length self.now.list }
        ensures { result.now ≡ slice_index_or self.now.list at result.now }
    {
        &self.items[at]
    }

    /// Makes room for `more` elements. The list stays as it was, and the room never shrinks.
    pub fn reserve(&mut self, more: u64) -> Result<(), NoMemory>
        ensures same { self.new.list ≡ self.old.list }
        ensures room { OnOk result (more ≤ self.new.spare) }
        ensures kept { self.old.spare ≤ self.new.spare }
    {
        self.items.reserve(more as usize)?;
        Ok(())
    }

    /// Puts an element at the end. It takes no memory.
    pub fn push(&mut self, item: T)
        requires { 0 < self.old.spare }
        ensures added { self.new.list ≡ self.old.list ++ item ∷ [] }
        ensures room { self.new.spare + 1 ≡ self.old.spare }
    {
        self.items.push_reserved(item);
    }
}

impl<T> Room<T> {
    /// Changes each element in place. Cost: one edit for each.
    pub fn edit_each<E: Edit<T>>(&mut self, edit: &E)
        ensures edited { self.new.list ≡ map (E.edited edit.now) self.old.list }
        ensures room { self.new.spare ≡ self.old.spare }
    {
        edit_all(edit, &mut self.items);
    }
}

impl<T: Drop> Room<T> {
    /// Moves the elements of a list to the end. It takes no memory. Cost: linear in `more`.
    pub fn append(&mut self, more: Items<T>)
        requires { length more ≤ self.old.spare }
        ensures added { self.new.list ≡ self.old.list ++ more }
        ensures room { self.old.spare ≤ self.new.spare + length more }
    {
        let mut items = more.into_vec();
        self.items.append(&mut items).unwrap();
    }

    /// Keeps the elements that pass, in their order. Cost: one test for each.
    pub fn keep<P: Test<T>>(&mut self, test: &P)
        ensures kept { self.new.list ≡ filter (P.passed test.now) self.old.list }
        ensures room { self.old.spare ≤ self.new.spare }
    {
        keep_passing(test, &mut self.items);
    }

    /// Puts an element at a place, before those from there on. It takes no memory.
    /// Cost: one move of the elements behind it.
    pub fn insert(&mut self, at: usize, item: T)
        requires room { 0 < self.old.spare }
        requires place { at ≤ length self.old.list }
        ensures added { self.new.list ≡ insert self.old.list at item }
        ensures room { self.old.spare ≤ self.new.spare + 1 }
    {
        self.items.insert(at, item).unwrap();
    }

    /// Takes the element at a place out. Cost: one move of the elements behind it.
    pub fn remove(&mut self, at: usize) -> T
        requires { at < length self.old.list }
        ensures taken { result ≡ slice_index_or self.old.list at result }
        ensures rest { self.new.list ≡ remove self.old.list at }
        ensures room { self.old.spare ≤ self.new.spare }
    {
        self.items.remove(at)
    }

    /// Replaces the element at a place.
    pub fn set(&mut self, at: usize, item: T)
        requires { at < length self.old.list }
        ensures replaced { self.new.list ≡ slice_set self.old.list at item }
        ensures room { self.new.spare ≡ self.old.spare }
    {
        self.items[at] = item;
    }

    /// Lets go of the elements behind the first `len`.
    pub fn truncate(&mut self, len: usize)
        ensures rest { self.new.list ≡ take len self.old.list }
        ensures room { self.old.spare ≤ self.new.spare }
    {
        self.items.truncate(len);
    }
}
