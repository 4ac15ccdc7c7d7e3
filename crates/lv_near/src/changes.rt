//! What changes of the tables of a view between two commits.
ghost use Rattle.std.specs.Prelude.{◌≡◌, ◌<◌, ◌≤◌, ℕ, true, Some, None, length, map, nat_lt, slice_index_or, take, IfOk, IfSome};
ghost use Rattle.std.specs.List.{list_all, AllByRecursion};
ghost use Rattle.lv_near.specs.Small.{StaysSame, change_in};
ghost use Rattle.lv_reach.specs.Within.{OnlyChanges};

use crate::source::TablesBetween;
use lv_condense::condense;
use lv_schema::{Net, Part, Parts};
use lv_values::{Copying, NoMemory, Rows};
use std::alloc::Global;

/// The net change of a table, without its rows. Cost: the condensing of the entries between the commits.
fn change_of(alloc: Global, at: &TablesBetween<'_>, table: u32) -> Result<Part, NoMemory>
    requires { table < length at.now.base.now.tables }
    ensures { IfOk result (λ change. change ≡ change_in at.now.base.now at.now.lo at.now.hi table) }
{
    let entries = at.base.deltas().between(at.lo, at.hi);
    let Net { minus, plus } = condense(alloc, at.base.versions(table).def(), entries)?;
    Ok(Part {
        old: Rows::new(alloc),
        minus,
        plus,
    })
}

/// An earlier alias of the same table as an alias, if there is one. Cost: a test of each alias before it.
fn same_before(tables: &[u32], alias: usize) -> Option<usize>
    requires { alias < length tables.now }
    ensures within { IfSome result (λ i. i < alias) }
    ensures same { IfSome result (λ i. slice_index_or tables.now i 0 ≡ slice_index_or tables.now alias 0) }
{
    for earlier in 0..alias {
        if tables[earlier] == tables[alias] {
            return Some(earlier);
        }
    }
    None
}

/// The net change of the table of an alias, without its rows, behind those of the aliases before it. Cost: a copy of an
/// earlier one of the same table, or else the condensing of the entries between the commits.
fn change_behind(
    alloc: Global,
    at: &TablesBetween<'_>,
    changes: &[Part],
    alias: usize,
) -> Result<Part, NoMemory>
    requires tables { list_all (λ t. nat_lt t (length at.now.base.now.tables)) at.now.tables.now ≡ true }
    requires alias { alias < length at.now.tables.now }
    requires changes { changes.now ≡ map (change_in at.now.base.now at.now.lo at.now.hi) (take alias at.now.tables.now) }
    ensures { IfOk result (λ change. change ≡ change_in at.now.base.now at.now.lo at.now.hi (slice_index_or at.now.tables.now alias 0)) }
{
    match same_before(at.tables, alias) {
        Some(earlier) => changes[earlier].copy(alloc),
        None => change_of(alloc, at, at.tables[alias]),
    }
}

/// The net change of each table, without its rows. Cost: the condensing of the entries between the commits, once for each
/// table, and a copy of the change for each alias more.
pub(crate) fn changes_between(alloc: Global, at: &TablesBetween<'_>) -> Result<Parts, NoMemory>
    requires { list_all (λ t. nat_lt t (length at.now.base.now.tables)) at.now.tables.now ≡ true }
    ensures { IfOk result (λ changes. changes ≡ map (change_in at.now.base.now at.now.lo at.now.hi) at.now.tables.now) }
{
    let mut changes = Parts::new(alloc);
    for alias in 0..at.tables.len() {
        let change = change_behind(alloc, at, changes.as_slice(), alias)?;
        changes.push(change)?;
    }
    Ok(changes)
}

/// Whether no row of a part changes.
fn stays_same(part: &Part) -> bool
    ensures is { result ≡ true → StaysSame part.now }
    ensures all { StaysSame part.now → result ≡ true }
{
    part.minus.is_empty() && part.plus.is_empty()
}

/// Whether no row of these parts changes.
#[tactic(auto, using(crate::proofs::OnlyOne::stay_more, crate::proofs::OnlyOne::stay_at))]
pub(crate) fn all_stay_same(parts: &[Part]) -> bool
    ensures is { result ≡ true → AllByRecursion StaysSame parts.now }
    ensures all { AllByRecursion StaysSame parts.now → result ≡ true }
{
    for part in parts {
        if !stays_same(part) {
            return false;
        }
    }
    true
}

/// The alias that alone changes, if there is one. Cost: constant for each alias.
#[tactic(auto, using(crate::proofs::OnlyOne::stay_more))]
pub(crate) fn only_changing(parts: &[Part]) -> Option<u8>
    requires { length parts.now ≤ 255 }
    ensures one { (i : ℕ) → result ≡ Some i → OnlyChanges i parts.now × (i < length parts.now) }
    ensures it { (i j : ℕ) → result ≡ Some i → OnlyChanges j parts.now → i ≡ j }
    ensures none { (j : ℕ) → result ≡ None → OnlyChanges j parts.now → AllByRecursion StaysSame parts.now }
{
    let mut at = 0;
    while at < parts.len() {
        if !stays_same(&parts[at]) {
            return if all_stay_same(&parts[at + 1..]) {
                Some(at as u8)
            } else {
                None
            };
        }
        at += 1;
    }
    None
}
