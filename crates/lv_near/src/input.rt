//! What a step of a view is computed from.
ghost use Rattle.std.specs.Prelude.{◌≡◌, ◌≤◌, ◌<◌, ◌+◌, ℕ, Bool, true, List, Some, None, drop, length, map, slice_get, slice_index_or, IfOk, OnOk, OnErr};
ghost use Rattle.std.specs.List.{AllByRecursion};
ghost use Rattle.lv_schema.specs.declared.view.ViewDef.{ViewDef as AViewDef};
ghost use Rattle.lv_schema.specs.Differences.{difference};
ghost use Rattle.lv_schema.specs.Jobs.{new_sides, old_sides};
ghost use Rattle.lv_base.specs.Bases.{defs_of, table_in};
ghost use Rattle.lv_maint.specs.Inputs.{AreOfTables, FitOver};
ghost use Rattle.lv_reach.specs.declared.rows.AliasRow.{AliasRow as ARowOf};
ghost use Rattle.lv_reach.specs.Cost.{IsReach, cost, whole_from};
ghost use Rattle.lv_reach.specs.Found.{with_found};
ghost use Rattle.lv_reach.specs.Links.{links_of};
ghost use Rattle.lv_reach.specs.Reach.{IsReachOf, cut, kept_by, part_at, with_old as with_rows};
ghost use Rattle.lv_reach.specs.Within.{OnlyChanges, without_old};
ghost use Rattle.lv_relevance.specs.Relevance.{told};
ghost use Rattle.lv_near.specs.Small.{AreEmptyAt, CanRead, IsSmallInput, IsSplit, StaysSame, looked_at, needed_of, table_at_commit, whole_parts, with_lost, with_tables};

use crate::changes::{all_stay_same, changes_between};
use crate::differing::difference_by;
use crate::one_table::alone_difference;
use crate::picking::{flag_at, old_of};
use crate::source::TablesBetween;
use lv_base::Base;
use lv_maint::JobInput;
use lv_reach::{NearRows, Reach, links, reach_of};
use lv_relevance::told;
use lv_schema::{Part, Parts, Signed, ViewDef};
use lv_values::{Copying, NoMemory, Rows, Steps};
use std::alloc::Global;
use std::sync::ledger::Ledger;

/// A change with the rows before it.
fn with_old(change: Part, old: Rows) -> Part
    ensures { result ≡ record { old = old; minus = change.minus; plus = change.plus } }
{
    Part { old, ..change }
}

/// The parts with those old rows alone that go. A step of a view of one alias, one in which no row changes, or one over
/// tables that are empty before it needs no others: no link leads from an alias to itself, and an empty table has no row.
fn alone_parts(alloc: Global, changes: Parts) -> Result<Parts, NoMemory>
    ensures { IfOk result (λ parts. parts ≡ map with_lost changes) }
{
    let mut parts = Parts::new(alloc);
    for change in changes.into_vec() {
        let old = change.minus.copy(alloc)?;
        parts.push(with_old(change, old))?;
    }
    Ok(parts)
}

/// The parts of a step with the near old rows: those that go, and behind them those that were found.
fn near_parts(
    alloc: Global,
    changes: Parts,
    near: NearRows,
    changed: usize,
) -> Result<Parts, NoMemory>
    ensures { IfOk result (λ parts. parts ≡ with_found 0 (map with_lost changes) (drop changed near)) }
{
    let mut parts = alone_parts(alloc, changes)?.into_vec();
    near.move_into(changed, &mut parts)?;
    Ok(Parts::from_vec(parts))
}

/// The parts of a step with those old rows alone that it needs.
fn small_parts<L: Ledger>(
    alloc: Global,
    at: &TablesBetween<'_>,
    changes: Parts,
    reach: Reach,
    steps: &mut Steps<L>,
) -> Result<Parts, NoMemory>
    requires can { CanRead at.now.base.now at.now.tables.now at.now.lo }
    requires few { length at.now.tables.now ≤ 255 }
    requires each { length changes ≡ length at.now.tables.now }
    requires split { (alias t : ℕ) → slice_get at.now.tables.now alias ≡ Some t
        → IsSplit (table_in at.now.base.now.tables t).def.key reach.near reach.changed alias (part_at changes alias).minus (needed_of at.now.base.now at.now.tables.now at.now.lo at.now.changing changes alias) }
    requires whole { (alias t : ℕ) → slice_get at.now.tables.now alias ≡ Some t → slice_index_or reach.far alias true ≡ true
        → needed_of at.now.base.now at.now.tables.now at.now.lo at.now.changing changes alias ≡ table_at_commit at.now.base.now at.now.lo t }
    ensures small { IfOk result (λ small. small ≡ cut (kept_by reach.near reach.far) (with_rows (needed_of at.now.base.now at.now.tables.now at.now.lo at.now.changing changes) changes)) }
    ensures cost { OnOk result (steps.new ≡ steps.old + whole_from (λ j. slice_index_or reach.far j true) 0 (with_rows (needed_of at.now.base.now at.now.tables.now at.now.lo at.now.changing changes) changes)) }
    ensures most { OnErr result (steps.new ≤ steps.old + whole_from (λ j. slice_index_or reach.far j true) 0 (with_rows (needed_of at.now.base.now at.now.tables.now at.now.lo at.now.changing changes) changes)) }
{
    let Reach { near, changed, far } = reach;
    let parts = near_parts(alloc, changes, near, changed)?;
    let mut small = Parts::new(alloc);
    let mut alias = 0;
    for part in parts.into_vec() {
        let Part { old, minus, plus } = part;
        let is_far = flag_at(far.as_slice(), alias);
        let old = old_of(alloc, at, at.tables[alias as usize], is_far, old, steps)?;
        small.push(Part { old, minus, plus })?;
        alias += 1;
    }
    Ok(small)
}

/// Before the first commit no table has a row: a law, and the call reads none.
#[tactic(auto, using(crate::proofs::EmptyBefore::empty_more))]
fn begin_empty(at: &TablesBetween<'_>)
    requires can { CanRead at.now.base.now at.now.tables.now at.now.lo }
    requires first { at.now.lo ≡ 0 }
    ensures { AreEmptyAt at.now.base.now at.now.lo at.now.tables.now }
{
    for table in at.tables {
        at.base.begins_empty(*table);
    }
}

/// The parts of a step of a view with these changes, cut to their reach: with the near old rows alone, or all of a far
/// alias. Where one alias alone changes and is named, its own old rows are not looked up, and those that go stand for them.
fn reached_parts<L: Ledger>(
    alloc: Global,
    at: &TablesBetween<'_>,
    def: &ViewDef,
    changes: Parts,
    steps: &mut Steps<L>,
) -> Result<Parts, NoMemory>
    requires can { CanRead at.now.base.now at.now.tables.now at.now.lo }
    requires tables { at.now.tables.now ≡ def.now.tables }
    requires fit { (views : List AViewDef) × FitOver (defs_of at.now.base.now) views def.now (with_tables at.now.base.now at.now.tables.now at.now.lo changes) }
    requires alone { (i : ℕ) → at.now.changing ≡ Some i → OnlyChanges i changes × (i < length changes) }
    ensures reach { at.now.changing ≡ None → IfOk result (λ parts. IsReachOf (links_of def.now.cond) (with_tables at.now.base.now at.now.tables.now at.now.lo changes) parts) }
    ensures same { IfOk result (λ parts. difference def.now (old_sides parts) (new_sides parts) ≡ difference def.now (old_sides (with_tables at.now.base.now at.now.tables.now at.now.lo changes)) (new_sides (with_tables at.now.base.now at.now.tables.now at.now.lo changes))) }
    ensures of { IfOk result (λ parts. AreOfTables parts) }
    ensures most { (near : List ARowOf) (far : ℕ → Bool) → IsReach (links_of def.now.cond) (with_rows (looked_at at.now.base.now at.now.tables.now at.now.lo at.now.changing) changes) near far
        → steps.new ≤ steps.old + cost (links_of def.now.cond) (with_rows (looked_at at.now.base.now at.now.tables.now at.now.lo at.now.changing) changes) near far }
{
    if at.tables.len() == 1 {
        return alone_parts(alloc, changes);
    }
    if at.lo == 0 {
        begin_empty(at);
        return alone_parts(alloc, changes);
    }
    let links = links(alloc, def)?;
    let reach = reach_of(alloc, links.as_slice(), changes.as_slice(), at, steps)?;
    small_parts(alloc, at, changes, reach, steps)
}

/// The parts that a difference by these changes needs: of those that change nothing no other rows, and of others their
/// reach. Cost: where no row changes constant for each alias, else as of `reached_parts`.
pub(crate) fn needed_parts<L: Ledger>(
    alloc: Global,
    at: &TablesBetween<'_>,
    def: &ViewDef,
    changes: Parts,
    steps: &mut Steps<L>,
) -> Result<Parts, NoMemory>
    requires can { CanRead at.now.base.now at.now.tables.now at.now.lo }
    requires tables { at.now.tables.now ≡ def.now.tables }
    requires fit { (views : List AViewDef) × FitOver (defs_of at.now.base.now) views def.now (with_tables at.now.base.now at.now.tables.now at.now.lo changes) }
    requires alone { (i : ℕ) → at.now.changing ≡ Some i → OnlyChanges i changes × (i < length changes) }
    ensures same { IfOk result (λ parts. difference def.now (old_sides parts) (new_sides parts) ≡ difference def.now (old_sides (with_tables at.now.base.now at.now.tables.now at.now.lo changes)) (new_sides (with_tables at.now.base.now at.now.tables.now at.now.lo changes))) }
    ensures of { IfOk result (λ parts. AreOfTables parts) }
    ensures most { (near : List ARowOf) (far : ℕ → Bool) → IsReach (links_of def.now.cond) (with_rows (looked_at at.now.base.now at.now.tables.now at.now.lo at.now.changing) changes) near far
        → steps.new ≤ steps.old + cost (links_of def.now.cond) (with_rows (looked_at at.now.base.now at.now.tables.now at.now.lo at.now.changing) changes) near far }
    ensures none { AllByRecursion StaysSame changes → steps.new ≤ steps.old }
{
    if all_stay_same(changes.as_slice()) {
        return alone_parts(alloc, changes);
    }
    reached_parts(alloc, at, def, changes, steps)
}

/// The parts of a step of a view, cut to the reach of the change: with the near old rows alone, or all of a far alias.
fn step_parts<L: Ledger>(
    alloc: Global,
    at: &TablesBetween<'_>,
    def: &ViewDef,
    steps: &mut Steps<L>,
) -> Result<Parts, NoMemory>
    requires can { CanRead at.now.base.now at.now.tables.now at.now.lo }
    requires tables { at.now.tables.now ≡ def.now.tables }
    requires all { at.now.changing ≡ None }
    requires fit { (views : List AViewDef) × FitOver (defs_of at.now.base.now) views def.now (whole_parts at.now.base.now def.now.tables at.now.lo at.now.hi) }
    ensures reach { IfOk result (λ parts. IsReachOf (links_of def.now.cond) (whole_parts at.now.base.now def.now.tables at.now.lo at.now.hi) parts) }
    ensures most { (near : List ARowOf) (far : ℕ → Bool) → IsReach (links_of def.now.cond) (whole_parts at.now.base.now def.now.tables at.now.lo at.now.hi) near far
        → steps.new ≤ steps.old + cost (links_of def.now.cond) (whole_parts at.now.base.now def.now.tables at.now.lo at.now.hi) near far }
{
    let changes = changes_between(alloc, at)?;
    reached_parts(alloc, at, def, changes, steps)
}

/// The difference of a step where nobody needs its input. Of a view of several tables the changes that it cannot tell are
/// let go of first.
fn needed_difference<L: Ledger>(
    alloc: Global,
    at: &TablesBetween<'_>,
    def: &ViewDef,
    steps: &mut Steps<L>,
) -> Result<Signed, NoMemory>
    requires can { CanRead at.now.base.now at.now.tables.now at.now.lo }
    requires tables { at.now.tables.now ≡ def.now.tables }
    requires fit { (views : List AViewDef) × FitOver (defs_of at.now.base.now) views def.now (whole_parts at.now.base.now def.now.tables at.now.lo at.now.hi) }
    ensures changes { IfOk result (λ changes. changes ≡ difference def.now (old_sides (whole_parts at.now.base.now def.now.tables at.now.lo at.now.hi)) (new_sides (whole_parts at.now.base.now def.now.tables at.now.lo at.now.hi))) }
    ensures most { (near : List ARowOf) (far : ℕ → Bool) → IsReach (links_of def.now.cond) (whole_parts at.now.base.now def.now.tables at.now.lo at.now.hi) near far
        → steps.new ≤ steps.old + cost (links_of def.now.cond) (whole_parts at.now.base.now def.now.tables at.now.lo at.now.hi) near far }
    ensures less { (i : ℕ) (near : List ARowOf) (far : ℕ → Bool) → OnlyChanges i (told def.now (whole_parts at.now.base.now def.now.tables at.now.lo at.now.hi)) → IsReach (links_of def.now.cond) (without_old i (told def.now (whole_parts at.now.base.now def.now.tables at.now.lo at.now.hi))) near far
        → steps.new ≤ steps.old + cost (links_of def.now.cond) (without_old i (told def.now (whole_parts at.now.base.now def.now.tables at.now.lo at.now.hi))) near far }
{
    if at.tables.len() == 1 {
        return alone_difference(alloc, at, def);
    }
    let changes = changes_between(alloc, at)?;
    let left = told(alloc, def, changes)?;
    difference_by(alloc, at, def, left, steps)
}

/// The input of the step of a view from one commit to another, read from the committed states: the net change of each
/// alias, and of the old rows those that are near, or all of a far alias. The difference of the view over them is that
/// over whole tables. Cost: the condensing of the entries between the commits for each alias, and where there is more than
/// one alias that of the reach, which looks each distinct value up once, and of a sort of the near rows; it ticks at most as
/// often as the step costs, so by what changed, unless an alias is far. A step from before the first commit has no reach,
/// since no table had a row there.
pub fn step_input<L: Ledger>(
    alloc: Global,
    base: &Base,
    def: &ViewDef,
    lo: u64,
    hi: u64,
    steps: &mut Steps<L>,
) -> Result<JobInput, NoMemory>
    requires can { CanRead base.now def.now.tables lo }
    requires fit { (views : List AViewDef) × FitOver (defs_of base.now) views def.now (whole_parts base.now def.now.tables lo hi) }
    ensures input { IfOk result (λ input. IsSmallInput def.now lo hi (whole_parts base.now def.now.tables lo hi) input) }
    ensures same { IfOk result (λ input. difference def.now (old_sides input.parts) (new_sides input.parts) ≡ difference def.now (old_sides (whole_parts base.now def.now.tables lo hi)) (new_sides (whole_parts base.now def.now.tables lo hi))) }
    ensures most { (near : List ARowOf) (far : ℕ → Bool) → IsReach (links_of def.now.cond) (whole_parts base.now def.now.tables lo hi) near far
        → steps.new ≤ steps.old + cost (links_of def.now.cond) (whole_parts base.now def.now.tables lo hi) near far }
{
    let at = TablesBetween {
        base,
        tables: def.tables.as_slice(),
        lo,
        hi,
        changing: None,
    };
    let parts = step_parts(alloc, &at, def, steps)?;
    Ok(JobInput::new(def.copy(alloc)?, lo, hi, parts))
}

/// What becomes of the rows or groups of a view by the step from one commit to another: the difference over the input that
/// `step_input` gives, where nobody needs that input. Cost: at most as of `step_input`, without a copy of the view, and that
/// of the difference; it ticks at most as often. A view of one table needs its changed rows alone, and none of them is copied.
/// Of several tables, changes that the view cannot tell are let go of before any row is read, and
/// where one alias alone changes then, it ticks at most as often as a step costs whose alias has no other rows; where none
/// does, no row is read. Of two tables that are linked, the rows of the other one are not copied, but looked up where they
/// lie, for each changed row once.
pub fn step_difference<L: Ledger>(
    alloc: Global,
    base: &Base,
    def: &ViewDef,
    lo: u64,
    hi: u64,
    steps: &mut Steps<L>,
) -> Result<Signed, NoMemory>
    requires can { CanRead base.now def.now.tables lo }
    requires fit { (views : List AViewDef) × FitOver (defs_of base.now) views def.now (whole_parts base.now def.now.tables lo hi) }
    ensures changes { IfOk result (λ changes. changes ≡ difference def.now (old_sides (whole_parts base.now def.now.tables lo hi)) (new_sides (whole_parts base.now def.now.tables lo hi))) }
    ensures most { (near : List ARowOf) (far : ℕ → Bool) → IsReach (links_of def.now.cond) (whole_parts base.now def.now.tables lo hi) near far
        → steps.new ≤ steps.old + cost (links_of def.now.cond) (whole_parts base.now def.now.tables lo hi) near far }
    ensures less { (i : ℕ) (near : List ARowOf) (far : ℕ → Bool) → OnlyChanges i (told def.now (whole_parts base.now def.now.tables lo hi)) → IsReach (links_of def.now.cond) (without_old i (told def.now (whole_parts base.now def.now.tables lo hi))) near far
        → steps.new ≤ steps.old + cost (links_of def.now.cond) (without_old i (told def.now (whole_parts base.now def.now.tables lo hi))) near far }
{
    let at = TablesBetween {
        base,
        tables: def.tables.as_slice(),
        lo,
        hi,
        changing: None,
    };
    needed_difference(alloc, &at, def, steps)
}
