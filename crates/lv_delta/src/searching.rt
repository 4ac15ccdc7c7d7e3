//! Searches among entries whose numbers do not fall.
ghost use Rattle.std.specs.Prelude.{◌≡◌, ◌≤◌, ◌==◌, drop, filter, map, take, length, IfOk, None};
ghost use Rattle.std.specs.List.{last_or};
ghost use Rattle.lv_schema.specs.declared.action.DeltaEntry.{DeltaEntry};
ghost use Rattle.lv_delta.specs.Kept.{is_above, is_between, is_up_to, writes_key, AreRising};

use lv_schema::{DeltaEntries, DeltaEntry, TableDef};
use lv_values::{Copying, NoMemory, Row, compare_to_key};
use std::alloc::Global;

/// How many entries are up to a number. Cost: a binary search.
pub(crate) fn up_to(entries: &[DeltaEntry], n: u64) -> usize
    requires { AreRising entries.now }
    ensures within { result ≤ length entries.now }
    ensures front { take result entries.now ≡ filter (is_up_to n) entries.now }
    ensures rest { drop result entries.now ≡ filter (is_above n) entries.now }
{
    entries.partition_point(|entry| entry.number <= n)
}

/// The entries above a number.
pub(crate) fn above(entries: &[DeltaEntry], n: u64) -> &[DeltaEntry]
    requires { AreRising entries.now }
    ensures entries { result.now ≡ filter (is_above n) entries.now }
    ensures rising { AreRising result.now }
{
    entries.split_at(up_to(entries, n)).1
}

/// The entries above a number and up to another.
pub(crate) fn between(entries: &[DeltaEntry], lo: u64, hi: u64) -> &[DeltaEntry]
    requires { AreRising entries.now }
    ensures { result.now ≡ filter (is_between lo hi) entries.now }
{
    let rest = above(entries, lo);
    rest.split_at(up_to(rest, hi)).0
}

/// Copies of the entries on a table.
pub(crate) fn copy_of_table(
    alloc: Global,
    entries: &[DeltaEntry],
    table: u32,
) -> Result<DeltaEntries, NoMemory>
    ensures { IfOk result (λ copies. copies ≡ filter (λ (e : DeltaEntry). table == e.action.table) entries.now) }
{
    let mut copies = DeltaEntries::new(alloc);
    for entry in entries {
        if table == entry.action.table {
            copies.push(entry.copy(alloc)?)?;
        }
    }
    Ok(copies)
}

/// Whether an entry writes a key of a table. Cost: at most the key's values.
#[tactic(auto, using(crate::proofs::Searched::row_eq_turned))]
fn writes_key(table: &TableDef, key: &Row, entry: &DeltaEntry) -> bool
    ensures { result ≡ writes_key table.now key.now entry.now }
{
    table.no == entry.action.table
        && compare_to_key(table.key.as_slice(), &entry.action.row, key).is_eq()
}

/// The number of the last entry that writes a key of a table.
pub(crate) fn last_writer(table: &TableDef, key: &Row, entries: &[DeltaEntry]) -> Option<u64>
    ensures { result ≡ last_or None (map (λ (e : DeltaEntry). e.number) (filter (writes_key table.now key.now) entries.now)) }
{
    let mut at = entries.len();
    while at > 0 {
        let entry = &entries[at - 1];
        if writes_key(table, key, entry) {
            return Some(entry.number);
        }
        at -= 1;
    }
    None
}
