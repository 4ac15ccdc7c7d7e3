//! Steps that keep links, told from the committed states.
ghost use Rattle.std.specs.Prelude.{◌≡◌, ◌↔◌, ◌<◌, ◌≤◌, Some, length, map, nat_lt, slice_get, true, IfOk};
ghost use Rattle.std.specs.List.{list_all, list_any};
ghost use Rattle.lv_schema.specs.declared.action.DeltaEntry.{DeltaEntry};
ghost use Rattle.lv_schema.specs.Condensed.{condensed};
ghost use Rattle.lv_schema.specs.Databases.{rows_of};
ghost use Rattle.lv_schema.specs.World.{World, snap, table_at, view_at};
ghost use Rattle.lv_base.specs.Bases.{defs_of};
ghost use Rattle.lv_joining.specs.Joining.{AliasesKeepLinks, HaveStandIns, IsOfOneTable, linked_columns, takes_from};
ghost use Rattle.lv_joining.specs.Kept.{IsKeptStep, KeepsLinksBetween};

use crate::stand_ins::have_stand_ins;
use lv_base::Base;
use lv_condense::{NetRows, condense_in_place};
use lv_reach::{Link, links};
use lv_schema::{Action, ActionKind, DeltaEntry, Forced, ViewDef};
use lv_values::NoMemory;
use std::alloc::Global;

/// Whether an action takes a row of a table away.
fn takes_from(table: u32, action: &Action) -> bool
    ensures { result ≡ takes_from table action.now }
{
    table == action.table
        && match action.kind {
            ActionKind::Insert => false,
            ActionKind::Delete => true,
        }
}

/// Whether one of the entries takes a row of a table away. Cost: a test of each entry up to the first that does.
fn take_away(table: u32, entries: &[DeltaEntry]) -> bool
    ensures { result ≡ list_any (λ (e : DeltaEntry). takes_from table e.action) entries.now }
{
    entries.iter().any(|entry| takes_from(table, &entry.action))
}

/// The rows of the net change that entries make of a table, where they lie. Cost: the condensing of the entries.
fn change_of<'a>(
    alloc: Global,
    base: &'a Base,
    table: u32,
    entries: &'a [DeltaEntry],
) -> Result<NetRows<'a>, NoMemory>
    requires { table < length base.now.tables }
    ensures { IfOk result (λ net. net ≡ condensed (defs_of base.now) (map (λ (e : DeltaEntry). e.action) entries.now) table) }
{
    condense_in_place(alloc, base.versions(table).def(), entries)
}

/// Whether the rows of an alias keep links in a step: where no entry takes a row of its table away, each stays.
fn alias_keeps_links(
    alloc: Global,
    base: &Base,
    links: &[Link],
    alias: u8,
    table: u32,
    step: Forced,
) -> Result<bool, NoMemory>
    requires { table < length base.now.tables }
    ensures { (w : World) → IsKeptStep w base.now step → slice_get (view_at w.visible.views step.view).tables alias ≡ Some table
        → IfOk result (λ keeps. (keeps ≡ true) ↔ HaveStandIns (table_at w.visible.tables table).key (linked_columns links.now alias) (rows_of (snap w.visible step.lo) table) (rows_of (snap w.visible step.hi) table)) }
{
    let entries = base.deltas().between(step.lo, step.hi);
    if !take_away(table, entries) {
        return Ok(true);
    }
    let net = change_of(alloc, base, table, entries)?;
    let def = base.versions(table).def();
    have_stand_ins(alloc, links, alias, def.key.as_slice(), &net)
}

/// Whether the rows of each alias keep links in a step.
fn aliases_keep_links(
    alloc: Global,
    base: &Base,
    links: &[Link],
    def: &ViewDef,
    step: Forced,
) -> Result<bool, NoMemory>
    requires in_use { list_all (λ t. nat_lt t (length base.now.tables)) def.now.tables ≡ true }
    requires few { length def.now.tables ≤ 4 }
    ensures { (w : World) → IsKeptStep w base.now step → def.now ≡ view_at w.visible.views step.view
        → IfOk result (λ keeps. (keeps ≡ true) ↔ AliasesKeepLinks links.now w.visible.tables def.now.tables (snap w.visible step.lo) (snap w.visible step.hi)) }
{
    let mut alias = 0;
    for table in def.tables.as_slice() {
        if !alias_keeps_links(alloc, base, links, alias, *table, step)? {
            return Ok(false);
        }
        alias += 1;
    }
    Ok(true)
}

/// Whether a view has one table, and no links.
fn is_of_one_table(links: &[Link], def: &ViewDef) -> bool
    ensures { (result ≡ true) ↔ IsOfOneTable links.now def.now.tables }
{
    links.is_empty() && def.tables.as_slice().len() < 2
}

/// Whether a step of a view keeps links: in each alias of the view no row goes for good, and none changes its values in
/// the linked columns; each step of a view of one table does. Cost: for a view of one table constant, else for each alias a
/// test of the entries between the step's commits, and where one takes a row of its table away the condensing of them.
pub fn step_keeps_links(
    alloc: Global,
    base: &Base,
    def: &ViewDef,
    step: Forced,
) -> Result<bool, NoMemory>
    requires in_use { list_all (λ t. nat_lt t (length base.now.tables)) def.now.tables ≡ true }
    requires few { length def.now.tables ≤ 4 }
    ensures { (w : World) → IsKeptStep w base.now step → def.now ≡ view_at w.visible.views step.view → IfOk result (λ keeps. (keeps ≡ true) ↔ KeepsLinksBetween w.visible step.view step.lo step.hi) }
{
    let links = links(alloc, def)?;
    let links = links.as_slice();
    if is_of_one_table(links, def) {
        return Ok(true);
    }
    aliases_keep_links(alloc, base, links, def, step)
}
