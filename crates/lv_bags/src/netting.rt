//! Signed rows added up.
ghost use Rattle.std.specs.Prelude.{◌≡◌, true, ◌++◌, ◌+◌, ◌-◌, ◌<◌, pos, drop, length, filter, slice_get, IfOk, OnOk};
ghost use Rattle.std.specs.List.{AllByRecursion, list_all};
ghost use Rattle.std.specs.List.Sorted.{IsPermutation, IsSortedByKey};
ghost use Rattle.std.specs.Ordering.{int_eq};
ghost use Rattle.lv_values.specs.Order.{row_cmp};
ghost use Rattle.lv_schema.specs.Differences.{is_change};
ghost use Rattle.lv_schema.specs.SignedRows.{netted};
ghost use Rattle.lv_bags.specs.Bags.{HaveSums, CountsFit, width};
ghost use Rattle.lv_bags.specs.Tallies.{AtMost, IsEntry, Rising, is_of, put, tallied};

use crate::adding::{both_of, is_at, is_entry};
use lv_schema::{Signed, SignedRow};
use lv_values::{NoMemory, Row};
use std::alloc::Global;

/// Puts entries in the order of their rows. Cost: n log n comparisons, for few runs that ascend about n.
fn sort_by_row(list: &mut Vec<SignedRow>) -> Result<(), NoMemory>
    ensures moved { IsPermutation list.old.items list.new.items }
    ensures sorted { OnOk result (IsSortedByKey (λ s. s.row) row_cmp list.new.items) }
{
    list.sort_by(|a, b| a.row.cmp(&b.row))?;
    Ok(())
}

/// Whether there is a last entry, and it is of this row.
fn is_last(list: &[SignedRow], row: &Row) -> bool
    ensures { result ≡ is_of row.now (slice_get list.now (length list.now - 1)) }
{
    is_at(list, list.len().saturating_sub(1), row)
}

/// Puts an entry behind entries that ascend, of which none is above it: where the last one is of its row, its numbers
/// go there. Cost: one comparison.
fn put_last(list: &mut Vec<SignedRow>, s: SignedRow) -> Result<(), NoMemory>
    requires rising { Rising list.old.items }
    requires most { AtMost s.row list.old.items }
    requires sums { HaveSums (length s.sums) list.old.items }
    ensures { OnOk result (list.new.items ≡ put s list.old.items) }
{
    if is_last(list, &s.row) {
        let last = list.len() - 1;
        let both = both_of(s, &list[last]);
        list[last] = both;
        return Ok(());
    }
    list.push(s)?;
    Ok(())
}

/// Whether an entry's row is below that of the next one, if there is one.
fn is_below_next(list: &[SignedRow], at: usize) -> bool
    requires { at < length list.now }
    ensures { result ≡ true → Rising (drop (at + 1) list.now) → Rising (drop at list.now) }
{
    if at + 1 == list.len() {
        return true;
    }
    list[at].row.cmp(&list[at + 1].row).is_lt()
}

/// Whether each entry's row is below that of the next one. Cost: a comparison for each entry from the last one on, up to
/// the first that is not.
fn rises(list: &[SignedRow]) -> bool
    ensures rising { result ≡ true → Rising list.now }
    ensures entries { result ≡ true → AllByRecursion (λ s. IsEntry (length s.sums) s) list.now }
{
    let mut at = list.len();
    while at > 0 {
        at -= 1;
        is_entry(&list[at]);
        if !is_below_next(list, at) {
            return false;
        }
    }
    true
}

/// The entries of each row as one, of entries in the order of their rows. Cost: one pass, and no memory where each row is
/// there once.
fn tally(alloc: Global, sorted: Vec<SignedRow>) -> Result<Vec<SignedRow>, NoMemory>
    requires sorted { IsSortedByKey (λ s. s.row) row_cmp sorted.items }
    requires sums { HaveSums (width sorted.items) sorted.items }
    ensures { IfOk result (λ out. out.items ≡ tallied (width sorted.items) sorted.items) }
{
    if rises(&sorted) {
        return Ok(sorted);
    }
    let mut out = Vec::new(alloc);
    for s in sorted {
        is_entry(&s);
        put_last(&mut out, s)?;
    }
    Ok(out)
}

fn all_zero(numbers: &[i128]) -> bool
    ensures { result ≡ list_all (λ n. int_eq n (pos 0)) numbers.now }
{
    numbers.iter().all(|n| *n == 0)
}

/// Whether one of the entry's numbers is not 0.
fn is_change(s: &SignedRow) -> bool
    ensures { result ≡ is_change s.now }
{
    !(s.count == 0 && all_zero(s.sums.as_slice()))
}

/// Drops the entries whose numbers are all 0.
fn keep_changes(list: &mut Vec<SignedRow>)
    ensures { list.new.items ≡ filter is_change list.old.items }
{
    list.retain(|s| is_change(s));
}

/// For each row the sum of its counts and of its signed sums, modulo 2 ^ 128: each row once, in ascending order, and
/// none whose numbers are all 0. Cost: a sort of the entries, n log n comparisons for n entries, and about n where they come
/// in few runs that ascend; and one pass. No row is copied.
pub fn net(alloc: Global, signed: Signed) -> Result<Signed, NoMemory>
    requires counts { CountsFit signed }
    requires sums { HaveSums (width signed) signed }
    ensures { IfOk result (λ list. list ≡ netted (width signed) signed) }
{
    let mut entries = signed.into_vec();
    sort_by_row(&mut entries)?;
    let mut out = tally(alloc, entries)?;
    keep_changes(&mut out);
    Ok(Signed::from_vec(out))
}

/// The entries of two lists added up. Cost: as for `net`.
pub fn add(alloc: Global, signed: Signed, more: Signed) -> Result<Signed, NoMemory>
    requires counts { CountsFit (signed ++ more) }
    requires sums { HaveSums (width (signed ++ more)) (signed ++ more) }
    ensures { IfOk result (λ list. list ≡ netted (width (signed ++ more)) (signed ++ more)) }
{
    let mut all = signed;
    all.append(more)?;
    net(alloc, all)
}
