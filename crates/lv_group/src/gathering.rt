//! Groups from tuples.
ghost use Rattle.std.specs.Prelude.{◌≡◌, true, map, length, ◌<◌, slice_index_or, ◌+ℤ◌, IfOk};
ghost use Rattle.std.specs.Int.{int_wrap, w128};
ghost use Rattle.std.specs.List.{prefix_len};
ghost use Rattle.std.specs.List.Sorted.{IsSorted};
ghost use Rattle.std.specs.Ordering.{is_eq};
ghost use Rattle.lv_schema.specs.Groups.{total, number_at};
ghost use Rattle.lv_group.specs.Entries.{group_of, entry_cmp, numbers_of, gathered};
ghost use Rattle.lv_group.specs.Gathered.{groups_among, IsOfView};

use crate::entry::Entry;
use crate::grouped::Groups;
use crate::places::number_at;
use lv_bags::summed_columns;
use lv_schema::{Col, Joined, SignedRow, Sums, ViewDef, listed};
use lv_values::{Copying, NoMemory, Rows};
use std::alloc::Global;

/// The tuples, each with the columns that tell its group.
fn entries_of<'a>(
    alloc: Global,
    by: &'a [Col],
    tuples: &'a [Rows],
) -> Result<Vec<Entry<'a>>, NoMemory>
    ensures { IfOk result (λ entries. entries.items ≡ map (λ tuple. (by.now, tuple)) tuples.now) }
{
    let mut entries = Vec::new(alloc);
    for tuple in tuples {
        entries.push(Entry {
            by,
            tuple: tuple.as_slice(),
        })?;
    }
    Ok(entries)
}

/// The sum of two numbers, wrapped to 128 bits.
fn wrapped_sum(a: i128, b: i128) -> i128
    ensures { result ≡ int_wrap w128 (a +ℤ b) }
{
    a.wrapping_add(b)
}

/// The sum of a column over some tuples, wrapped to 128 bits.
fn sum_of(col: Col, entries: &[Entry<'_>]) -> i128
    ensures { result ≡ int_wrap w128 (total (λ entry. number_at col entry.1) entries.now) }
{
    let mut sum = 0i128;
    for entry in entries {
        sum = wrapped_sum(sum, number_at(entry.tuple, col));
    }
    sum
}

/// The numbers of a group that has these tuples.
fn numbers_of(
    alloc: Global,
    sums: &[Col],
    first: &Entry<'_>,
    entries: &[Entry<'_>],
) -> Result<SignedRow, NoMemory>
    ensures { IfOk result (λ group. group ≡ numbers_of sums.now (group_of first.now) entries.now) }
{
    let mut group = SignedRow {
        row: listed(alloc, first.tuple, first.by)?,
        count: entries.len() as i128,
        sums: Sums::new(alloc),
    };
    for col in sums {
        group.sums.push(sum_of(*col, entries))?;
    }
    Ok(group)
}

/// How many entries from the front on are of the first one's group.
fn run_len(first: &Entry<'_>, entries: &[Entry<'_>]) -> usize
    ensures { result ≡ prefix_len (λ entry. is_eq (entry_cmp first.now entry)) entries.now }
{
    for (i, entry) in entries.iter().enumerate() {
        if first != entry {
            return i;
        }
    }
    entries.len()
}

/// The groups of entries that ascend by their groups, each once, in ascending order.
fn gather(alloc: Global, sums: &[Col], entries: &[Entry<'_>]) -> Result<Vec<SignedRow>, NoMemory>
    requires { IsSorted entry_cmp entries.now }
    ensures { IfOk result (λ groups. groups.items ≡ gathered sums.now entries.now) }
{
    let mut groups = Vec::new(alloc);
    let mut at = 0;
    while at < entries.len() {
        let rest = entries.split_at(at).1;
        let first = &rest[0];
        let len = run_len(first, rest);
        groups.push(numbers_of(alloc, sums, first, rest.split_at(len).0)?)?;
        at += len;
    }
    Ok(groups)
}

/// The groups of a grouped view's tuples, each with its count and its sums: the tuples whose values in the group
/// columns are the same. A group without tuples is not there. A sum is wrapped to 128 bits, so it is exact wherever
/// it fits, as it does for up to 2 ^ 64 tuples with numbers of 64 bits. A text counts as 0 in a sum.
///
/// Cost: a sort of the tuples where they lie, n log n comparisons for n tuples, and then one pass for each sum.
pub fn fold(alloc: Global, view: &ViewDef, tuples: &Joined) -> Result<Groups, NoMemory>
    requires { view.now.grouped ≡ true }
    ensures of_view { IfOk result (IsOfView view.now) }
    ensures groups { IfOk result (λ g. g.groups ≡ groups_among view.now tuples.now) }
{
    let sums = summed_columns(alloc, view)?;
    let mut entries = entries_of(alloc, view.groups.as_slice(), tuples.as_slice())?;
    entries.sort_unstable();
    let _tuples = tuples.len();
    let groups = gather(alloc, &sums, &entries)?;
    Ok(Groups::new(view.groups.copy(alloc)?, view.items.copy(alloc)?, groups))
}
