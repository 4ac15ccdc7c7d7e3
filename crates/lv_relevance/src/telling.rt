//! The changes that a view can tell.
ghost use Rattle.std.specs.Prelude.{◌≡◌, IfOk};
ghost use Rattle.lv_relevance.specs.Relevance.{told, told_from, told_part};

use crate::same::is_untold;
use crate::used::used_columns;
use lv_schema::{Col, Part, Parts, ViewDef};
use lv_values::NoMemory;
use std::alloc::Global;

/// Lets go of the changes of an alias, if these columns do not show them.
fn let_go(cols: &[Col], alias: usize, part: &mut Part)
    ensures { part.exit.now ≡ told_part cols.now alias part.entry.now }
{
    if is_untold(cols, alias, part) {
        part.minus.clear();
        part.plus.clear();
    }
}

/// Lets go of the changes of each alias that these columns do not show.
fn let_go_of_each(cols: &[Col], parts: &mut [Part])
    ensures { parts.new ≡ told_from cols.now 0 parts.old }
{
    for alias in 0..parts.len() {
        let_go(cols, alias, &mut parts[alias]);
    }
}

/// The parts without those changes that a view cannot tell: rows that come in the place of rows that are the same in each
/// column that the view tests, lists or sums. No row is copied. Cost: linear in the changed rows, times the columns that the
/// view uses.
pub fn told(alloc: Global, view: &ViewDef, changes: Parts) -> Result<Parts, NoMemory>
    ensures { IfOk result (λ parts. parts ≡ told view.now changes) }
{
    let cols = used_columns(alloc, view)?;
    let mut parts = changes.into_vec();
    let_go_of_each(cols.as_slice(), &mut parts);
    Ok(Parts::from_vec(parts))
}
