//! A view of one table: what becomes of it by the rows that go and those that come.
ghost use Rattle.std.specs.Prelude.{◌≡◌, ◌+◌, ◌++◌, List, None, [], ◌∷◌, filter, length, map, take, IfOk, OnOk};
ghost use Rattle.lv_schema.specs.declared.part.Part.{Part};
ghost use Rattle.lv_schema.specs.declared.signed.SignedRow.{SignedRow as ASignedRow};
ghost use Rattle.lv_schema.specs.Differences.{difference};
ghost use Rattle.lv_schema.specs.Jobs.{new_sides, old_sides};
ghost use Rattle.lv_schema.specs.Truth.{holds};
ghost use Rattle.lv_bags.specs.Bags.{negated};
ghost use Rattle.lv_join.specs.Ties.{seen};
ghost use Rattle.lv_maint.specs.Alone.{came, went};
ghost use Rattle.lv_maint.specs.Inputs.{IsOfTable};
ghost use Rattle.lv_maint.specs.Runs.{AddsUpTo};
ghost use Rattle.lv_maint.specs.Terms.{entry_of};

use crate::entries::Entries;
use lv_bags::{key_columns, net, summed_columns};
use lv_join::Picked;
use lv_schema::{Cond, Signed, SignedRow, ViewDef, holds};
use lv_values::{NoMemory, Row};
use std::alloc::Global;

/// For how many entries room is taken at once, at most.
const MOST_ROOM: usize = 65_536;

/// Adds a tuple to the entries, if the condition keeps it.
fn gain(
    alloc: Global,
    entries: &Entries<'_>,
    cond: &Cond,
    tuple: &Picked<'_>,
    kept: &mut Vec<SignedRow>,
) -> Result<(), NoMemory>
    ensures { OnOk result ((before : List ASignedRow) → AddsUpTo (length entries.now.sums.now) kept.old.items before
        → AddsUpTo (length entries.now.sums.now) kept.new.items (before ++ map (entry_of entries.now.keys.now entries.now.sums.now) (filter (holds cond.now) (tuple.now ∷ [])))) }
{
    if !holds(cond, tuple) {
        return Ok(());
    }
    entries.take_times(alloc, tuple, 1, kept)
}

/// Takes a tuple from the entries, if the condition keeps it.
fn lose(
    alloc: Global,
    entries: &Entries<'_>,
    cond: &Cond,
    tuple: &Picked<'_>,
    kept: &mut Vec<SignedRow>,
) -> Result<(), NoMemory>
    ensures { OnOk result ((before : List ASignedRow) → AddsUpTo (length entries.now.sums.now) kept.old.items before
        → AddsUpTo (length entries.now.sums.now) kept.new.items (before ++ map negated (map (entry_of entries.now.keys.now entries.now.sums.now) (filter (holds cond.now) (tuple.now ∷ []))))) }
{
    if !holds(cond, tuple) {
        return Ok(());
    }
    entries.lose(alloc, tuple, kept)
}

/// Adds the row at a place, if there is one and the condition keeps it, to the entries.
fn add_gained<'a>(
    alloc: Global,
    entries: &Entries<'_>,
    cond: &Cond,
    rows: &[&'a Row],
    place: usize,
    tuple: &mut Picked<'a>,
    kept: &mut Vec<SignedRow>,
) -> Result<(), NoMemory>
    requires one { length tuple.old ≡ 1 }
    ensures one { length tuple.new ≡ 1 }
    ensures kept { OnOk result ((behind : List ASignedRow) → AddsUpTo (length entries.now.sums.now) kept.old.items (came entries.now.keys.now entries.now.sums.now cond.now (seen (take place rows.now)) ++ behind)
        → AddsUpTo (length entries.now.sums.now) kept.new.items (came entries.now.keys.now entries.now.sums.now cond.now (seen (take (place + 1) rows.now)) ++ behind)) }
{
    if place >= rows.len() {
        return Ok(());
    }
    tuple.set(0, rows[place]);
    gain(alloc, entries, cond, &*tuple, kept)
}

/// Takes the row at a place, if there is one and the condition keeps it, from the entries.
fn add_lost<'a>(
    alloc: Global,
    entries: &Entries<'_>,
    cond: &Cond,
    rows: &[&'a Row],
    place: usize,
    tuple: &mut Picked<'a>,
    kept: &mut Vec<SignedRow>,
) -> Result<(), NoMemory>
    requires one { length tuple.old ≡ 1 }
    ensures one { length tuple.new ≡ 1 }
    ensures kept { OnOk result ((front : List ASignedRow) → AddsUpTo (length entries.now.sums.now) kept.old.items (front ++ went entries.now.keys.now entries.now.sums.now cond.now (seen (take place rows.now)))
        → AddsUpTo (length entries.now.sums.now) kept.new.items (front ++ went entries.now.keys.now entries.now.sums.now cond.now (seen (take (place + 1) rows.now)))) }
{
    if place >= rows.len() {
        return Ok(());
    }
    tuple.set(0, rows[place]);
    lose(alloc, entries, cond, &*tuple, kept)
}

/// A row of the first list that has one.
fn first_of<'a>(minus: &[&'a Row], plus: &[&'a Row]) -> Option<&'a Row>
    ensures minus { result ≡ None → minus.now ≡ [] }
    ensures plus { result ≡ None → plus.now ≡ [] }
{
    match minus.first() {
        Some(row) => Some(row),
        None => match plus.first() {
            Some(row) => Some(row),
            None => None,
        },
    }
}

/// Adds the entries of the rows that go and of those that come, one of which is given. The rows are taken in turn, one that
/// goes and one that comes, for an UPDATE puts the new row in the place of the old one: where both are of one row or group
/// of the view, they share an entry.
fn add_all<'a>(
    alloc: Global,
    entries: &Entries<'_>,
    cond: &Cond,
    minus: &[&'a Row],
    plus: &[&'a Row],
    first: &'a Row,
    kept: &mut Vec<SignedRow>,
) -> Result<(), NoMemory>
    requires { kept.old.items ≡ [] }
    ensures { OnOk result (AddsUpTo (length entries.now.sums.now) kept.new.items (came entries.now.keys.now entries.now.sums.now cond.now (seen plus.now) ++ went entries.now.keys.now entries.now.sums.now cond.now (seen minus.now))) }
{
    let mut tuple = Picked::one(alloc, first)?;
    for place in 0..minus.len().max(plus.len()) {
        add_lost(alloc, entries, cond, minus, place, &mut tuple, kept)?;
        add_gained(alloc, entries, cond, plus, place, &mut tuple, kept)?;
    }
    Ok(())
}

/// The entries of the rows that go and of those that come.
fn entries_between<'a>(
    alloc: Global,
    entries: &Entries<'_>,
    cond: &Cond,
    minus: &[&'a Row],
    plus: &[&'a Row],
) -> Result<Vec<SignedRow>, NoMemory>
    ensures { IfOk result (λ list. AddsUpTo (length entries.now.sums.now) list.items (came entries.now.keys.now entries.now.sums.now cond.now (seen plus.now) ++ went entries.now.keys.now entries.now.sums.now cond.now (seen minus.now))) }
{
    let places = minus.len().max(plus.len());
    let mut kept = Vec::with_capacity(alloc, places.min(MOST_ROOM))?;
    match first_of(minus, plus) {
        None => Ok(kept),
        Some(first) => {
            add_all(alloc, entries, cond, minus, plus, first, &mut kept)?;
            Ok(kept)
        }
    }
}

/// What becomes of the rows or groups of a view of one table by the net change of its rows: the difference over any rows
/// that the table may have before it. No row is copied. Cost: for each row a test of the condition, and what an entry costs
/// that is added to, or is new; and a sort of the entries.
pub fn row_difference(
    alloc: Global,
    view: &ViewDef,
    minus: &[&Row],
    plus: &[&Row],
) -> Result<Signed, NoMemory>
    ensures { IfOk result (λ list. (part : Part) → IsOfTable part → part.minus ≡ seen minus.now → part.plus ≡ seen plus.now
        → list ≡ difference view.now (old_sides (part ∷ [])) (new_sides (part ∷ []))) }
{
    let keys = key_columns(alloc, view)?;
    let sums = summed_columns(alloc, view)?;
    let entries = Entries {
        keys: &keys,
        sums: &sums,
    };
    let all = Signed::from_vec(entries_between(alloc, &entries, &view.cond, minus, plus)?);
    let _entries = all.len();
    net(alloc, all)
}
