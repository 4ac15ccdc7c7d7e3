//! Rows in the order of their keys, each once.
ghost use Rattle.std.specs.Prelude.{◌≡◌, true, List, IfOk, OnOk};
ghost use Rattle.std.specs.List.Sorted.{IsPermutation, IsSortedByKey};
ghost use Rattle.lv_values.specs.declared.value.Value.{Value as AValue};
ghost use Rattle.lv_values.specs.Order.{row_cmp};
ghost use Rattle.lv_values.specs.Rows.{key_cmp, values_at};
ghost use Rattle.lv_schema.specs.Nets.{has_row};
ghost use Rattle.lv_schema.specs.Once.{Ascends};
ghost use Rattle.lv_near.specs.Small.{HaveOwnKeys, is_above};

use lv_values::{NoMemory, Row, Rows, compare_keys};
use std::alloc::Global;

/// Puts rows in the order of their keys. Cost: about n comparisons where they come in few runs that ascend, else
/// n log n.
fn sort_by_key(key: &[u8], rows: &mut Vec<Row>) -> Result<(), NoMemory>
    ensures moved { IsPermutation rows.old.items rows.new.items }
    ensures sorted { OnOk result (IsSortedByKey (values_at key.now) row_cmp rows.new.items) }
{
    rows.sort_by(|a, b| compare_keys(key, a, b))?;
    Ok(())
}

/// Whether the key of a row is above that of the last of these, if there is one.
fn is_above(key: &[u8], rows: &[Row], row: &Row) -> bool
    ensures { result ≡ is_above key.now rows.now row.now }
{
    match rows.last() {
        Some(last) => compare_keys(key, last, row).is_lt(),
        None => true,
    }
}

/// Whether the key of each row is above that of the row before it. Cost: one comparison for each.
#[tactic(auto, using(crate::proofs::Ordered::ascends_more))]
fn ascend(key: &[u8], rows: &[Row]) -> bool
    ensures { result ≡ true → Ascends (key_cmp key.now) rows.now }
{
    let mut at = 0;
    while at < rows.len() {
        if !is_above(key, &rows[..at], &rows[at]) {
            return false;
        }
        at += 1;
    }
    true
}

/// Each row once, of rows in the order of their keys, no two others of which have the same key. Cost: one comparison for
/// each.
fn each_once(alloc: Global, key: &[u8], sorted: Vec<Row>) -> Result<Rows, NoMemory>
    requires sorted { IsSortedByKey (values_at key.now) row_cmp sorted.items }
    requires own { HaveOwnKeys key.now sorted.items }
    ensures up { IfOk result (λ out. Ascends (key_cmp key.now) out) }
    ensures same { IfOk result (λ out. (q : List AValue) → has_row q out ≡ has_row q sorted.items) }
{
    let mut out = Rows::from_vec(Vec::with_capacity(alloc, sorted.len())?);
    for row in sorted {
        if is_above(key, out.as_slice(), &row) {
            out.push(row)?;
        }
    }
    Ok(out)
}

/// The rows in the order of their keys, each once, of rows no two others of which have the same key. Cost: n comparisons
/// where they stand so already, as those that one look-up finds; about 2 n where they come in few runs that ascend, else
/// n log n.
pub(crate) fn in_key_order(alloc: Global, key: &[u8], rows: Rows) -> Result<Rows, NoMemory>
    requires { HaveOwnKeys key.now rows }
    ensures up { IfOk result (λ out. Ascends (key_cmp key.now) out) }
    ensures same { IfOk result (λ out. (q : List AValue) → has_row q out ≡ has_row q rows) }
{
    if ascend(key, rows.as_slice()) {
        return Ok(rows);
    }
    let mut sorted = rows.into_vec();
    sort_by_key(key, &mut sorted)?;
    each_once(alloc, key, sorted)
}
