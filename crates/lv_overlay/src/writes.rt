//! Writes in an order, few or many.
ghost use Rattle.std.specs.Prelude.{◌≡◌, ◌≤◌, ◌<◌, ◌+◌, ◌-◌, ◌++◌, [], length, slice_get, slice_set, Some, OnOk, OnErr, vec_len, vec_capacity};
ghost use Rattle.std.specs.List.{insert};
ghost use Rattle.lv_shelf.specs.Cuts.{Falls, IsCut};

use crate::put::Put;
use lv_shelf::Shelf;
use lv_values::{NoMemory, Test};
use std::alloc::Global;
use std::marker::Model;

/// Up to how many writes room is made in a plain list.
const FEW: u64 = 8;

/// A list of writes. A few lie in a plain list, which is one piece of memory; where there is to be room for more, all lie
/// on a shelf from then on. Contracts see the list, and beside it how many more go in without memory.
#[derive(Drop)]
pub(crate) struct Writes {
    few: Vec<Put>,
    many: Shelf<Put>,
    are_many: bool,
}

impl Model for Writes {
    ghost use Rattle.std.specs.Prelude.{◌≡◌, ◌-◌, [], cond, false};
    ghost use Rattle.std.specs.Vec.{vec_len, vec_capacity};
    ghost use Rattle.lv_values.specs.Room.{Roomy};
    ghost use Rattle.lv_overlay.specs.declared.put.Put.{Put as APut};

    ghost Value = { Roomy APut };

    ghost view = { λ w. cond w.are_many (record { list = w.many.list; spare = w.many.spare }) (record { list = w.few.items; spare = vec_capacity w.few - vec_len w.few }) };

    ghost invariant = { λ w. w.are_many ≡ false → w.many.list ≡ [] };
}

/// How many of a few writes pass a test that no later one passes where an earlier one fails. Cost: a binary search.
fn cut_few<P: Test<Put>>(test: &P, few: &[Put]) -> usize
    requires { Falls (P.passed test.now) few.now }
    ensures within { result ≤ length few.now }
    ensures cut { IsCut (P.passed test.now) result few.now }
{
    few.partition_point(|put| test.passes(put))
}

/// Moves a few writes onto a shelf that has room for them, before those there. It takes no memory.
fn move_all(few: &mut Vec<Put>, many: &mut Shelf<Put>)
    requires { length few.old.items ≤ many.old.spare }
    ensures moved { many.new.list ≡ few.old.items ++ many.old.list }
    ensures room { many.new.spare + length few.old.items ≡ many.old.spare }
{
    'each: while let Some(put) = few.pop() {
        many.insert(0, put, 0);
    }
}

/// Moves a few writes onto an empty shelf, with room there for `rows` more, and for no fewer than before. Where memory is
/// wanting they stay.
fn shelve(few: &mut Vec<Put>, many: &mut Shelf<Put>, rows: u64) -> Result<(), NoMemory>
    requires { many.old.list ≡ [] }
    ensures refused { OnErr result (few.new ≡ few.old) }
    ensures empty { OnErr result (many.new.list ≡ []) }
    ensures moved { OnOk result (many.new.list ≡ few.old.items) }
    ensures room { OnOk result (rows ≤ many.new.spare) }
    ensures kept { OnOk result (vec_capacity few.old - vec_len few.old ≤ many.new.spare) }
{
    let len = few.len();
    let spare = (few.capacity() - len) as u64;
    let Some(room) = rows.max(spare).checked_add(len as u64) else {
        return Err(NoMemory);
    };
    many.reserve(room)?;
    move_all(few, many);
    Ok(())
}

impl Writes {
    /// No writes, and no room. It takes no memory.
    pub(crate) fn new(alloc: Global) -> Writes
        ensures { result.list ≡ [] }
    {
        Writes {
            few: Vec::new(alloc),
            many: Shelf::new(alloc),
            are_many: false,
        }
    }

    /// Makes room for `rows` more writes. The list stays as it was, and the room never shrinks.
    pub(crate) fn reserve(&mut self, rows: u64) -> Result<(), NoMemory>
        ensures same { self.new.list ≡ self.old.list }
        ensures room { OnOk result (rows ≤ self.new.spare) }
        ensures kept { self.old.spare ≤ self.new.spare }
    {
        if self.are_many {
            self.many.reserve(rows)?;
        } else if rows <= FEW.saturating_sub(self.few.len() as u64) {
            self.few.reserve(rows as usize)?;
        } else {
            shelve(&mut self.few, &mut self.many, rows)?;
            self.are_many = true;
        }
        Ok(())
    }

    /// How many there are.
    pub(crate) fn len(&self) -> usize
        ensures { result ≡ length self.now.list }
    {
        if self.are_many {
            self.many.len()
        } else {
            self.few.len()
        }
    }

    /// The write at a place, which is below the length.
    pub(crate) fn get(&self, at: usize) -> &Put
        requires { at < length self.now.list }
        ensures { slice_get self.now.list at ≡ Some result.now }
    {
        if self.are_many {
            self.many.get(at)
        } else {
            &self.few[at]
        }
    }

    /// How many writes pass a test that no later one passes where an earlier one fails. Cost: a binary search.
    pub(crate) fn cut<P: Test<Put>>(&self, test: &P) -> usize
        requires { Falls (P.passed test.now) self.now.list }
        ensures within { result ≤ length self.now.list }
        ensures cut { IsCut (P.passed test.now) result self.now.list }
    {
        if self.are_many {
            self.many.cut(test)
        } else {
            cut_few(test, self.few.as_slice())
        }
    }

    /// Puts a write in the place of another one. It takes no memory. Cost: constant.
    pub(crate) fn set(&mut self, at: usize, put: Put)
        requires { at < length self.old.list }
        ensures replaced { self.new.list ≡ slice_set self.old.list at put }
        ensures room { self.new.spare ≡ self.old.spare }
    {
        if self.are_many {
            self.many.set(at, put);
        } else {
            self.few[at] = put;
        }
    }

    /// Puts a write at a place, before those from there on. It takes no memory. Cost: a move of the few behind it, or as
    /// of `Shelf::insert`.
    pub(crate) fn insert(&mut self, at: usize, put: Put)
        requires room { 0 < self.old.spare }
        requires place { at ≤ length self.old.list }
        ensures added { self.new.list ≡ insert self.old.list at put }
        ensures room { self.old.spare ≤ self.new.spare + 1 }
    {
        if self.are_many {
            self.many.insert(at, put, 0);
        } else {
            self.few.insert(at, put).unwrap();
        }
    }
}
