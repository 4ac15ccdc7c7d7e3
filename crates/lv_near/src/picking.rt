//! The old rows of an alias that a step needs.
ghost use Rattle.std.specs.Prelude.{◌≡◌, ◌<◌, ◌≤◌, ◌+◌, true, cond, length, slice_index_or, IfOk, OnOk, OnErr};
ghost use Rattle.lv_base.specs.Bases.{table_in};
ghost use Rattle.lv_near.specs.Small.{HaveOwnKeys, IsPicked, table_at_commit};

use crate::ordering::in_key_order;
use crate::source::TablesBetween;
use lv_values::{NoMemory, Rows, Steps};
use std::alloc::Global;
use std::sync::ledger::Ledger;

/// The flag at a place, true past the end.
pub(crate) fn flag_at(flags: &[bool], at: u8) -> bool
    ensures { result ≡ slice_index_or flags.now at true }
{
    match flags.get(at as usize) {
        Some(flag) => *flag,
        None => true,
    }
}

/// The old rows of an alias that a step needs: all rows of its table where it is far, else these near ones, in the order
/// of their keys and each once. Cost: a scan of the table where it is far, else a sort of the near rows.
pub(crate) fn old_of<L: Ledger>(
    alloc: Global,
    at: &TablesBetween<'_>,
    table: u32,
    is_far: bool,
    near: Rows,
    steps: &mut Steps<L>,
) -> Result<Rows, NoMemory>
    requires in_use { table < length at.now.base.now.tables }
    requires kept { at.now.base.now.pruned ≤ at.now.lo }
    requires own { HaveOwnKeys (table_in at.now.base.now.tables table).def.key near }
    ensures old { IfOk result (λ old. IsPicked (table_in at.now.base.now.tables table).def.key is_far (table_at_commit at.now.base.now at.now.lo table) near old) }
    ensures cost { OnOk result (steps.new ≡ steps.old + cond is_far (length (table_at_commit at.now.base.now at.now.lo table)) 0) }
    ensures most { OnErr result (steps.new ≤ steps.old + cond is_far (length (table_at_commit at.now.base.now at.now.lo table)) 0) }
{
    let versions = at.base.versions(table);
    if is_far {
        return versions.scan(alloc, at.lo, steps);
    }
    in_key_order(alloc, versions.def().key.as_slice(), near)
}
