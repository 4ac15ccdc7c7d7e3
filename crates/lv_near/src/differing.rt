//! What becomes of a view by the changes of its tables.
ghost use Rattle.std.specs.Prelude.{◌≡◌, ◌≤◌, ◌<◌, ◌+◌, ℕ, Bool, List, Some, length, IfOk};
ghost use Rattle.std.specs.List.{AllByRecursion};
ghost use Rattle.lv_schema.specs.declared.view.ViewDef.{ViewDef as AViewDef};
ghost use Rattle.lv_schema.specs.Differences.{difference};
ghost use Rattle.lv_schema.specs.Jobs.{new_sides, old_sides};
ghost use Rattle.lv_base.specs.Bases.{defs_of};
ghost use Rattle.lv_maint.specs.Inputs.{FitOver};
ghost use Rattle.lv_reach.specs.declared.rows.AliasRow.{AliasRow as ARowOf};
ghost use Rattle.lv_reach.specs.Cost.{IsReach, cost};
ghost use Rattle.lv_reach.specs.Links.{links_of};
ghost use Rattle.lv_reach.specs.Reach.{with_old as with_rows};
ghost use Rattle.lv_reach.specs.Within.{OnlyChanges, without_old};
ghost use Rattle.lv_near.specs.Small.{CanRead, StaysSame, looked_at, with_tables};

use crate::changes::only_changing;
use crate::input::needed_parts;
use crate::pairs::pair_step;
use crate::source::TablesBetween;
use lv_maint::difference;
use lv_reach::{are_linked, links};
use lv_schema::{Parts, Signed, ViewDef};
use lv_values::{NoMemory, Steps};
use std::alloc::Global;
use std::sync::ledger::Ledger;

/// The difference over the reach of the changes; where no row changes, over no other rows.
fn walked_difference<L: Ledger>(
    alloc: Global,
    at: &TablesBetween<'_>,
    def: &ViewDef,
    changes: Parts,
    steps: &mut Steps<L>,
) -> Result<Signed, NoMemory>
    requires can { CanRead at.now.base.now at.now.tables.now at.now.lo }
    requires tables { at.now.tables.now ≡ def.now.tables }
    requires fit { (views : List AViewDef) × FitOver (defs_of at.now.base.now) views def.now (with_tables at.now.base.now at.now.tables.now at.now.lo changes) }
    requires alone { (i : ℕ) → at.now.changing ≡ Some i → OnlyChanges i changes × (i < length changes) }
    ensures changes { IfOk result (λ list. list ≡ difference def.now (old_sides (with_tables at.now.base.now at.now.tables.now at.now.lo changes)) (new_sides (with_tables at.now.base.now at.now.tables.now at.now.lo changes))) }
    ensures most { (near : List ARowOf) (far : ℕ → Bool) → IsReach (links_of def.now.cond) (with_rows (looked_at at.now.base.now at.now.tables.now at.now.lo at.now.changing) changes) near far
        → steps.new ≤ steps.old + cost (links_of def.now.cond) (with_rows (looked_at at.now.base.now at.now.tables.now at.now.lo at.now.changing) changes) near far }
    ensures none { AllByRecursion StaysSame changes → steps.new ≤ steps.old }
{
    let parts = needed_parts(alloc, at, def, changes, steps)?;
    difference(alloc, def, parts.as_slice())
}

/// The difference by changes of one alias: by pairs, where the view has two tables that are linked. Tables that are empty
/// before the step have no rows to look up.
fn difference_by_one<L: Ledger>(
    alloc: Global,
    at: &TablesBetween<'_>,
    def: &ViewDef,
    changes: Parts,
    alias: u8,
    steps: &mut Steps<L>,
) -> Result<Signed, NoMemory>
    requires can { CanRead at.now.base.now at.now.tables.now at.now.lo }
    requires tables { at.now.tables.now ≡ def.now.tables }
    requires fit { (views : List AViewDef) × FitOver (defs_of at.now.base.now) views def.now (with_tables at.now.base.now at.now.tables.now at.now.lo changes) }
    requires only { OnlyChanges alias changes }
    requires within { alias < length changes }
    ensures changes { IfOk result (λ list. list ≡ difference def.now (old_sides (with_tables at.now.base.now at.now.tables.now at.now.lo changes)) (new_sides (with_tables at.now.base.now at.now.tables.now at.now.lo changes))) }
    ensures most { (near : List ARowOf) (far : ℕ → Bool) → IsReach (links_of def.now.cond) (without_old alias (with_tables at.now.base.now at.now.tables.now at.now.lo changes)) near far
        → steps.new ≤ steps.old + cost (links_of def.now.cond) (without_old alias (with_tables at.now.base.now at.now.tables.now at.now.lo changes)) near far }
{
    if at.lo > 0 && at.tables.len() == 2 {
        let links = links(alloc, def)?;
        if are_linked(links.as_slice(), 0, 1) {
            return pair_step(
                alloc,
                at,
                def,
                links.as_slice(),
                changes.as_slice(),
                alias,
                steps,
            );
        }
    }
    let at = TablesBetween {
        changing: Some(alias),
        ..*at
    };
    walked_difference(alloc, &at, def, changes, steps)
}

/// What becomes of the rows or groups of a view by these changes of its tables: the difference over whole tables. Cost:
/// where one alias alone changes, and the view has two tables that are linked, that of `pair_step`; else that of the reach
/// and of the difference over it. It ticks at most as often as the step costs, and where one alias alone changes, as one
/// costs whose alias has no other rows.
pub(crate) fn difference_by<L: Ledger>(
    alloc: Global,
    at: &TablesBetween<'_>,
    def: &ViewDef,
    changes: Parts,
    steps: &mut Steps<L>,
) -> Result<Signed, NoMemory>
    requires can { CanRead at.now.base.now at.now.tables.now at.now.lo }
    requires tables { at.now.tables.now ≡ def.now.tables }
    requires fit { (views : List AViewDef) × FitOver (defs_of at.now.base.now) views def.now (with_tables at.now.base.now at.now.tables.now at.now.lo changes) }
    ensures changes { IfOk result (λ list. list ≡ difference def.now (old_sides (with_tables at.now.base.now at.now.tables.now at.now.lo changes)) (new_sides (with_tables at.now.base.now at.now.tables.now at.now.lo changes))) }
    ensures most { (near : List ARowOf) (far : ℕ → Bool) → IsReach (links_of def.now.cond) (with_tables at.now.base.now at.now.tables.now at.now.lo changes) near far
        → steps.new ≤ steps.old + cost (links_of def.now.cond) (with_tables at.now.base.now at.now.tables.now at.now.lo changes) near far }
    ensures less { (i : ℕ) (near : List ARowOf) (far : ℕ → Bool) → OnlyChanges i changes → IsReach (links_of def.now.cond) (without_old i (with_tables at.now.base.now at.now.tables.now at.now.lo changes)) near far
        → steps.new ≤ steps.old + cost (links_of def.now.cond) (without_old i (with_tables at.now.base.now at.now.tables.now at.now.lo changes)) near far }
{
    match only_changing(changes.as_slice()) {
        Some(alias) => difference_by_one(alloc, at, def, changes, alias, steps),
        None => {
            let at = TablesBetween {
                changing: None,
                ..*at
            };
            walked_difference(alloc, &at, def, changes, steps)
        }
    }
}
