//! Near rows that join the old rows of the parts of their aliases.
ghost use Rattle.std.specs.Prelude.{◌≡◌, ◌-◌, ◌∷◌, [], drop, OnOk};
ghost use Rattle.lv_reach.specs.Found.{with_found};

use crate::rows::AliasRow;
use lv_schema::Part;
use lv_values::NoMemory;

/// Puts a row behind the old rows of the part of its alias. One of an alias without a part is let go.
fn add_found(parts: &mut [Part], found: AliasRow) -> Result<(), NoMemory>
    ensures { OnOk result (parts.new ≡ with_found 0 parts.old (found ∷ [])) }
{
    let AliasRow { alias, row } = found;
    let at = alias as usize;
    if at < parts.len() {
        parts[at].old.push(row)?;
    }
    Ok(())
}

/// Puts the row at a place so, if that place is not before another one.
pub(crate) fn add_from(
    parts: &mut [Part],
    from: usize,
    at: usize,
    found: AliasRow,
) -> Result<(), NoMemory>
    ensures { OnOk result (parts.new ≡ with_found 0 parts.old (drop (from - at) (found ∷ []))) }
{
    if from <= at {
        return add_found(parts, found);
    }
    Ok(())
}
