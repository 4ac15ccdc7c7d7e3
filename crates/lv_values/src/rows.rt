//! Rows, and keys: the values of a row at positions.
ghost use Rattle.std.specs.Prelude.{◌≡◌, ℕ, ◌<◌, length, slice_index, IfOk};
ghost use Rattle.lv_values.specs.Order.{row_cmp, value_cmp};
ghost use Rattle.lv_values.specs.Rows.{value_in, values_at, key_cmp};

use crate::items::{Copying, Items};
use crate::memory::NoMemory;
use crate::value::Value;
use std::alloc::Global;
use std::cmp::Ordering;

/// A row: its values from the left.
pub type Row = Items<Value>;

/// A list of rows.
pub type Rows = Items<Row>;

/// A list of bytes.
pub type Bytes = Items<u8>;

impl Items<Value> {
    /// The values at these positions, each below the row's length, in their order. Cost: linear in the key.
    pub fn key(&self, alloc: Global, positions: &[u8]) -> Result<Row, NoMemory>
        requires { (k : ℕ) → k < length positions.now → slice_index positions.now k < length self.now }
        ensures { IfOk result (λ key. key ≡ values_at positions.now self.now) }
    {
        let mut key = Row::new(alloc);
        for at in positions {
            key.push(self.get(*at as usize).copy(alloc)?)?;
        }
        Ok(key)
    }
}

/// Compares the values at one position, the number 0 standing past a row's end.
fn compare_at(at: u8, a: &[Value], b: &[Value]) -> Ordering
    ensures { result ≡ value_cmp (value_in a.now at) (value_in b.now at) }
{
    match (a.get(at as usize), b.get(at as usize)) {
        (Some(left), Some(right)) => left.cmp(right),
        (Some(left), None) => left.cmp(&Value::Num(0)),
        (None, Some(right)) => Value::Num(0).cmp(right),
        (None, None) => Ordering::Equal,
    }
}

/// Compares two rows by their values at these positions, in place. Cost: at most the key's values.
pub fn compare_keys(positions: &[u8], a: &Row, b: &Row) -> Ordering
    ensures { result ≡ key_cmp positions.now a.now b.now }
{
    for at in positions {
        let order = compare_at(*at, a.as_slice(), b.as_slice());
        if order.is_ne() {
            return order;
        }
    }
    Ordering::Equal
}

/// Compares the value at a position with another, the number 0 standing past the row's end.
fn compare_value(at: u8, row: &[Value], wanted: &Value) -> Ordering
    ensures { result ≡ value_cmp (value_in row.now at) wanted.now }
{
    match row.get(at as usize) {
        Some(value) => value.cmp(wanted),
        None => Value::Num(0).cmp(wanted),
    }
}

/// Compares a row's values at these positions with a key, in place. Cost: at most the key's values.
pub fn compare_to_key(positions: &[u8], row: &Row, key: &Row) -> Ordering
    ensures { result ≡ row_cmp (values_at positions.now row.now) key.now }
{
    for (i, at) in positions.iter().enumerate() {
        if i >= key.len() {
            return Ordering::Greater;
        }
        let order = compare_value(*at, row.as_slice(), key.get(i));
        if order.is_ne() {
            return order;
        }
    }
    if positions.len() < key.len() {
        Ordering::Less
    } else {
        Ordering::Equal
    }
}
