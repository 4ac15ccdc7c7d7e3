//! The rows that a change takes away or brings.
ghost use Rattle.std.specs.Prelude.{◌≡◌, ◌≤◌, ◌++◌, length, map, IfOk, OnOk};
ghost use Rattle.lv_reach.specs.Reach.{of_alias, changed_rows};

use crate::rows::{AliasRow, AliasRows};
use lv_schema::Part;
use lv_values::{Copying, NoMemory, Row};
use std::alloc::Global;

/// Puts copies of the rows behind the others, as rows of this alias.
fn add_rows(alloc: Global, out: &mut AliasRows, alias: u8, rows: &[Row]) -> Result<(), NoMemory>
    ensures { OnOk result (out.new ≡ out.old ++ map (of_alias alias) rows.now) }
{
    for row in rows {
        let row = row.copy(alloc)?;
        out.push(AliasRow { alias, row })?;
    }
    Ok(())
}

/// Puts copies of the rows of a part that go or come behind the others.
fn add_changed(alloc: Global, out: &mut AliasRows, alias: u8, part: &Part) -> Result<(), NoMemory>
    ensures { OnOk result (out.new ≡ out.old ++ map (of_alias alias) (part.now.minus ++ part.now.plus)) }
{
    add_rows(alloc, out, alias, part.minus.as_slice())?;
    add_rows(alloc, out, alias, part.plus.as_slice())
}

/// Copies of the rows that go or come, alias by alias.
#[tactic(auto, using(crate::proofs::Gathering::rows_step))]
pub(crate) fn changed_rows(alloc: Global, parts: &[Part]) -> Result<AliasRows, NoMemory>
    requires { length parts.now ≤ 255 }
    ensures { IfOk result (λ rows. rows ≡ changed_rows parts.now) }
{
    let mut rows = AliasRows::new(alloc);
    let mut alias = 0;
    for part in parts {
        add_changed(alloc, &mut rows, alias, part)?;
        alias += 1;
    }
    Ok(rows)
}
