//! The step of a view of one table.
ghost use Rattle.std.specs.Prelude.{◌≡◌, ◌<◌, List, [], ◌∷◌, length, IfOk};
ghost use Rattle.lv_schema.specs.declared.view.ViewDef.{ViewDef as AViewDef};
ghost use Rattle.lv_schema.specs.Differences.{difference};
ghost use Rattle.lv_schema.specs.Jobs.{new_sides, old_sides};
ghost use Rattle.lv_base.specs.Bases.{defs_of};
ghost use Rattle.lv_maint.specs.Inputs.{FitOver};
ghost use Rattle.lv_near.specs.Small.{CanRead, change_in, whole_parts};

use crate::source::TablesBetween;
use lv_condense::{NetRows, condense_in_place};
use lv_maint::row_difference;
use lv_schema::{Signed, ViewDef};
use lv_values::NoMemory;
use std::alloc::Global;

/// The net change of a table, where its rows lie. Cost: the condensing of the entries between the commits.
fn net_of<'a>(alloc: Global, at: &TablesBetween<'a>, table: u32) -> Result<NetRows<'a>, NoMemory>
    requires { table < length at.now.base.now.tables }
    ensures minus { IfOk result (λ net. net.minus ≡ (change_in at.now.base.now at.now.lo at.now.hi table).minus) }
    ensures plus { IfOk result (λ net. net.plus ≡ (change_in at.now.base.now at.now.lo at.now.hi table).plus) }
{
    let entries = at.base.deltas().between(at.lo, at.hi);
    condense_in_place(alloc, at.base.versions(table).def(), entries)
}

/// The only one of some tables.
#[tactic(auto, using(crate::proofs::Alone::only_one))]
fn only_table(tables: &[u32]) -> u32
    requires { length tables.now ≡ 1 }
    ensures { tables.now ≡ result ∷ [] }
{
    tables[0]
}

/// What becomes of the rows or groups of a view of one table: no other row is needed than those that change, and these are
/// read where they lie. Cost: the condensing of the entries between the commits, and that of `row_difference`.
pub(crate) fn alone_difference(
    alloc: Global,
    at: &TablesBetween<'_>,
    def: &ViewDef,
) -> Result<Signed, NoMemory>
    requires can { CanRead at.now.base.now at.now.tables.now at.now.lo }
    requires tables { at.now.tables.now ≡ def.now.tables }
    requires one { length at.now.tables.now ≡ 1 }
    requires fit { (views : List AViewDef) × FitOver (defs_of at.now.base.now) views def.now (whole_parts at.now.base.now def.now.tables at.now.lo at.now.hi) }
    ensures { IfOk result (λ changes. changes ≡ difference def.now (old_sides (whole_parts at.now.base.now def.now.tables at.now.lo at.now.hi)) (new_sides (whole_parts at.now.base.now def.now.tables at.now.lo at.now.hi))) }
{
    let net = net_of(alloc, at, only_table(at.tables))?;
    row_difference(alloc, def, net.minus(), net.plus())
}
