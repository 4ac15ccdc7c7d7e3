//! The tables of a view at a commit, where rows can be looked up by values.
ghost use Rattle.std.specs.Prelude.{◌≡◌};
ghost use Rattle.lv_near.specs.Small.{is_alone};

use lv_base::Base;
use lv_reach::OldRows;
use lv_values::{NoMemory, Row, Rows, Steps};
use std::alloc::Global;
use std::sync::ledger::Ledger;

/// The table of each alias, and the commits that a step goes from and to. The rows are those at the first, and none of the
/// alias that alone changes, if one is named here.
#[derive(Clone, Copy)]
pub(crate) struct TablesBetween<'a> {
    pub base: &'a Base,
    pub tables: &'a [u32],
    pub lo: u64,
    pub hi: u64,
    pub changing: Option<u8>,
}

/// Whether an alias is the one that alone changes, if there is one.
fn is_alone(changing: Option<u8>, alias: u8) -> bool
    ensures { result ≡ is_alone changing alias }
{
    match changing {
        Some(alone) => alias == alone,
        None => false,
    }
}

impl<'a> OldRows for TablesBetween<'a> {
    ghost use Rattle.lv_near.specs.Small.{CanRead, looked_at};

    ghost rows = { λ s alias. looked_at s.base.now s.tables.now s.lo s.changing alias };

    ghost can_read = { λ s. CanRead s.base.now s.tables.now s.lo };

    fn with_values<L: Ledger>(
        &self,
        alloc: Global,
        alias: u8,
        columns: &[u8],
        values: &Row,
        steps: &mut Steps<L>,
    ) -> Result<Rows, NoMemory> {
        if is_alone(self.changing, alias) {
            return Ok(Rows::new(alloc));
        }
        match self.tables.get(alias as usize) {
            Some(table) => self
                .base
                .versions(*table)
                .probe(alloc, self.lo, columns, values, steps),
            None => Ok(Rows::new(alloc)),
        }
    }
}
