//! The rows of a view over the state at a commit.
ghost use Rattle.std.specs.Prelude.{◌≡◌, ◌<◌, ◌≤◌, true, false, length, nat_lt, IfOk};
ghost use Rattle.std.specs.List.{list_all, AllByRecursion};
ghost use Rattle.lv_values.specs.Order.{row_cmp};
ghost use Rattle.lv_schema.specs.Applicable.{AreNetted};
ghost use Rattle.lv_schema.specs.Differences.{groups_over, summed_columns};
ghost use Rattle.lv_schema.specs.Groups.{view_rows_over};
ghost use Rattle.lv_schema.specs.Once.{Ascends};
ghost use Rattle.lv_group.specs.Gathered.{has_tuples};
ghost use Rattle.lv_made.specs.Views.{IsMadeView, parts_at, rows_at};

use crate::by_definition::rows_by_definition;
use lv_base::Base;
use lv_group::fold;
use lv_join::join;
use lv_schema::ViewDef;
use lv_values::{Items, NoMemory, Rows, Steps};
use lv_viewrows::ViewRows;
use std::alloc::Global;
use std::sync::ledger::Ledger;

/// The rows of a table after a commit. Cost: one pass over its versions, and a copy of each row.
fn rows_at<L: Ledger>(
    alloc: Global,
    base: &Base,
    commit: u64,
    table: u32,
    steps: &mut Steps<L>,
) -> Result<Rows, NoMemory>
    requires table { table < length base.now.tables }
    requires kept { base.now.pruned ≤ commit }
    ensures { IfOk result (λ rows. rows ≡ rows_at base.now commit table) }
{
    base.versions(table).scan(alloc, commit, steps)
}

/// The rows of each of these tables after a commit. Cost: one pass over the versions of each, and a copy of each row.
pub fn parts_at<L: Ledger>(
    alloc: Global,
    base: &Base,
    commit: u64,
    tables: &[u32],
    steps: &mut Steps<L>,
) -> Result<Items<Rows>, NoMemory>
    requires tables { list_all (λ t. nat_lt t (length base.now.tables)) tables.now ≡ true }
    requires kept { base.now.pruned ≤ commit }
    ensures { IfOk result (λ parts. parts ≡ parts_at base.now commit tables.now) }
{
    let mut parts = Items::new(alloc);
    for table in tables {
        parts.push(rows_at(alloc, base, commit, *table, steps)?)?;
    }
    Ok(parts)
}

/// A join view over these rows of its aliases, from a commit on.
fn join_view(alloc: Global, def: ViewDef, commit: u64, parts: &[Rows]) -> Result<ViewRows, NoMemory>
    requires join { def.grouped ≡ false }
    requires distinct { Ascends row_cmp (view_rows_over def parts.now) }
    ensures { IfOk result (IsMadeView def commit parts.now) }
{
    let rows = rows_by_definition(alloc, &def, parts)?;
    ViewRows::new(alloc, def, commit, rows)
}

/// A grouped view over these rows of its aliases, from a commit on.
fn grouped_view(
    alloc: Global,
    def: ViewDef,
    commit: u64,
    parts: &[Rows],
) -> Result<ViewRows, NoMemory>
    requires grouped { def.grouped ≡ true }
    requires netted { AreNetted (length (summed_columns def)) (groups_over def parts.now) }
    requires tuples { AllByRecursion (λ g. has_tuples g ≡ true) (groups_over def parts.now) }
    ensures { IfOk result (IsMadeView def commit parts.now) }
{
    let tuples = join(alloc, parts, &def.cond)?;
    let groups = fold(alloc, &def, &tuples)?;
    ViewRows::grouped(alloc, def, commit, groups)
}

/// A view over these rows of its aliases, from a commit on. Cost: that of the join, and a sort of what it finds.
pub fn made_view(
    alloc: Global,
    def: ViewDef,
    commit: u64,
    parts: &[Rows],
) -> Result<ViewRows, NoMemory>
    requires distinct { Ascends row_cmp (view_rows_over def parts.now) }
    requires netted { AreNetted (length (summed_columns def)) (groups_over def parts.now) }
    requires tuples { AllByRecursion (λ g. has_tuples g ≡ true) (groups_over def parts.now) }
    ensures { IfOk result (IsMadeView def commit parts.now) }
{
    if def.grouped {
        grouped_view(alloc, def, commit, parts)
    } else {
        join_view(alloc, def, commit, parts)
    }
}
