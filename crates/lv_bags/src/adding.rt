//! Two entries of one row as one, and an entry in its place.
ghost use Rattle.std.specs.Prelude.{◌≡◌, ◌<◌, ◌≤◌, ◌+◌, ◌+ℤ◌, length, slice_get, All, FitsSigned, OnOk, OnErr, IsOk};
ghost use Rattle.std.specs.Int.{int_wrap, w128};
ghost use Rattle.std.specs.Vec.{vec_len, vec_capacity};
ghost use Rattle.lv_bags.specs.Bags.{HaveSums};
ghost use Rattle.lv_bags.specs.Tallies.{sums_added, both_of, put, IsEntry, IsPlace, Rising, is_of};

use lv_schema::{SignedRow, Sums};
use lv_values::{NoMemory, Row};

/// The sum of two numbers, modulo 2 ^ 128.
fn wrapped_sum(a: i128, b: i128) -> i128
    ensures { result ≡ int_wrap w128 (a +ℤ b) }
{
    a.wrapping_add(b)
}

/// Adds numbers place by place, modulo 2 ^ 128.
fn add_each(sums: &mut [i128], more: &[i128])
    requires { length sums.old ≡ length more.now }
    ensures { sums.new ≡ sums_added sums.old more.now }
{
    for j in 0..sums.len() {
        sums[j] = sums[j].wrapping_add(more[j]);
    }
}

/// Two entries of one row, with equally many sums, as one: the counts and the sums are added, modulo 2 ^ 128.
/// It takes no memory.
pub(crate) fn both_of(s: SignedRow, r: &SignedRow) -> SignedRow
    requires { length s.sums ≡ length r.now.sums }
    ensures { result ≡ both_of s r.now }
{
    let SignedRow { row, count, sums } = s;
    let mut sums = sums.into_vec();
    add_each(&mut sums, r.sums.as_slice());
    SignedRow {
        row,
        count: wrapped_sum(count, r.count),
        sums: Sums::from_vec(sums),
    }
}

/// Tells a proof that a number is one of 128 bits. It does nothing.
fn is_number(_number: i128)
    ensures { FitsSigned w128 _number }
{}

/// Tells a proof that each number is one of 128 bits. It does nothing.
fn are_numbers(numbers: &[i128])
    ensures { All (FitsSigned w128) numbers.now }
{
    for n in numbers {
        let _n = *n;
    }
}

/// Tells a proof that the numbers of an entry are of 128 bits. It does nothing.
pub fn is_entry(s: &SignedRow)
    ensures { IsEntry (length s.now.sums) s.now }
{
    is_number(s.count);
    are_numbers(s.sums.as_slice());
}

/// Whether the entry at a place, if there is one, is of a row.
pub(crate) fn is_at(list: &[SignedRow], at: usize, row: &Row) -> bool
    ensures { result ≡ is_of row.now (slice_get list.now at) }
{
    match list.get(at) {
        Some(r) => row.cmp(&r.row).is_eq(),
        None => false,
    }
}

/// How many entries have rows below a row. Cost: a binary search.
pub fn place_of(list: &[SignedRow], row: &Row) -> usize
    requires { Rising list.now }
    ensures { IsPlace row.now result list.now }
{
    list.partition_point(|r| row.cmp(&r.row).is_gt())
}

/// Puts an entry in its place: its numbers go to the entry of its row, where there is one. It takes no memory where
/// there is room, and want of memory changes nothing. Cost: a move of the entries behind it, where its row is new.
pub fn put_at(list: &mut Vec<SignedRow>, at: usize, s: SignedRow) -> Result<(), NoMemory>
    requires place { IsPlace s.row at list.old.items }
    requires sums { HaveSums (length s.sums) list.old.items }
    ensures put { OnOk result (list.new.items ≡ put s list.old.items) }
    ensures refused { OnErr result (list.new.items ≡ list.old.items) }
    ensures room { vec_len list.old < vec_capacity list.old → IsOk result }
    ensures capacity { vec_capacity list.old ≤ vec_capacity list.new }
    ensures len { vec_len list.new ≤ vec_len list.old + 1 }
{
    if is_at(list, at, &s.row) {
        let both = both_of(s, &list[at]);
        list[at] = both;
        return Ok(());
    }
    list.insert(at, s)?;
    Ok(())
}
