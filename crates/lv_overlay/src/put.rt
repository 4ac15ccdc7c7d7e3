//! Writes.
ghost use Rattle.std.specs.Prelude.{◌≡◌};
ghost use Rattle.lv_schema.specs.Commits.{place_cmp, same_place};
ghost use Rattle.lv_overlay.specs.Ordered.{put_place};

use lv_values::{Row, Test};
use std::cmp::Ordering;

/// What a transaction left at a key of a table: a row, or none where it deleted the one there.
#[derive(Drop)]
pub struct Put {
    pub table: u32,
    pub key: Row,
    pub row: Option<Row>,
}

/// Compares the place of a write with another one: by table, and then by key.
fn compare_place(put: &Put, table: u32, key: &Row) -> Ordering
    ensures { result ≡ place_cmp (put_place put.now) (table, key.now) }
{
    put.table.cmp(&table).then(put.key.cmp(key))
}

/// Tells the writes that stand before a place.
#[derive(Drop)]
pub(crate) struct Before<'a> {
    pub table: u32,
    pub key: &'a Row,
}

impl<'a> Test<Put> for Before<'a> {
    ghost use Rattle.lv_overlay.specs.Ordered.{is_before};

    ghost passed = { λ t q. is_before (t.table, t.key.now) q };

    fn passes(&self, put: &Put) -> bool {
        compare_place(put, self.table, self.key).is_lt()
    }
}

/// Tells the writes of the tables below a number.
#[derive(Drop)]
pub(crate) struct Below {
    pub bound: u64,
}

impl Test<Put> for Below {
    ghost use Rattle.lv_overlay.specs.Ordered.{is_below};

    ghost passed = { λ t q. is_below t.bound q };

    fn passes(&self, put: &Put) -> bool {
        (put.table as u64) < self.bound
    }
}

/// Whether a write is at a place.
pub(crate) fn is_at(put: &Put, table: u32, key: &Row) -> bool
    ensures { result ≡ same_place (table, key.now) (put_place put.now) }
{
    table == put.table && key.cmp(&put.key).is_eq()
}
