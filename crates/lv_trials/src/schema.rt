//! Copies of changes.

use lv_schema::{Action, ActionKind, DeltaEntry, Net, SignedRow, Sums};
use lv_values::{Copying, Items, NoMemory, Row, Rows, Value};
use std::alloc::Global;

/// A list of one item.
fn single<T: Drop>(alloc: Global, item: T) -> Result<Items<T>, NoMemory> {
    let mut items = Items::new(alloc);
    items.push(item)?;
    Ok(items)
}

fn row_of(alloc: Global, number: i128) -> Result<Row, NoMemory> {
    single(alloc, Value::Num(number))
}

/// A copy of a value, which is let go of.
fn copy_of<T: Copying + Drop>(alloc: Global, item: T) -> Result<T, NoMemory> {
    let copy = item.copy(alloc);
    drop(item);
    copy
}

/// A copy of an entry of the commit of this number.
fn copied_entry(alloc: Global, number: u64) -> Result<DeltaEntry, NoMemory> {
    let row = row_of(alloc, 1)?;
    let action = Action {
        table: 0,
        statement: 1,
        kind: ActionKind::Insert,
        row,
    };
    copy_of(alloc, DeltaEntry { number, action })
}

#[test]
fn entries_are_copied(rt: HostRuntime) {
    let copy = copied_entry(rt.alloc(), 5);
    assert!(rt; copy.is_ok_and(|entry| entry.number == 5));
}

/// A copy of a change that takes one row away.
fn copied_net(alloc: Global) -> Result<Net, NoMemory> {
    let minus = single(alloc, row_of(alloc, 2)?)?;
    let plus = Rows::new(alloc);
    copy_of(alloc, Net { minus, plus })
}

#[test]
fn net_changes_are_copied(rt: HostRuntime) {
    let copy = copied_net(rt.alloc());
    assert!(rt; copy.is_ok_and(|net| net.minus.len() == 1 && net.plus.is_empty()));
}

/// A copy of a row that leaves, with this sum.
fn copied_signed(alloc: Global, sum: i128) -> Result<SignedRow, NoMemory> {
    let sums = Sums::from_slice(alloc, &[sum])?;
    let row = row_of(alloc, 1)?;
    let signed = SignedRow {
        row,
        count: -1,
        sums,
    };
    copy_of(alloc, signed)
}

#[test]
fn signed_rows_are_copied(rt: HostRuntime) {
    let copy = copied_signed(rt.alloc(), -5);
    assert!(rt; copy.is_ok_and(|signed| signed.sums.as_slice() == [-5i128].as_slice()));
}
