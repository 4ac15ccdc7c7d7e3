//! The numbers of a group with those of a change.
ghost use Rattle.std.specs.Prelude.{◌≡◌, ◌<◌, ◌+ℤ◌, length, not, slice_index_or};
ghost use Rattle.std.specs.Int.{int_wrap, w128};
ghost use Rattle.lv_group.specs.Gathered.{has_tuples};
ghost use Rattle.lv_viewrows.specs.Changed.{sums_added, group_with};
ghost use Rattle.lv_viewrows.specs.Standing.{IsCount};

use lv_schema::{SignedRow, Sums};

/// Whether a group has a tuple.
pub(crate) fn has_tuples(group: &SignedRow) -> bool
    ensures { result ≡ has_tuples group.now }
{
    group.count != 0
}

/// Whether a change takes all tuples of a group.
pub(crate) fn takes_all(group: &SignedRow, change: &SignedRow) -> bool
    ensures { result ≡ not (has_tuples (group_with group.now change.now)) }
{
    group.count.checked_add(change.count) == Some(0)
}

/// The sum of two numbers, wrapped to 128 bits.
fn wrapped_sum(a: i128, b: i128) -> i128
    ensures { result ≡ int_wrap w128 (a +ℤ b) }
{
    a.wrapping_add(b)
}

/// The number at a place, which is below the length.
fn number_at(numbers: &[i128], at: usize) -> i128
    requires { at < length numbers.now }
    ensures { result ≡ slice_index_or numbers.now at result }
{
    numbers[at]
}

/// Adds to each sum the one at its place, modulo 2 ^ 128. It takes no memory.
fn add_sums(sums: &[i128], more: &mut Sums)
    ensures { more.new ≡ sums_added sums.now more.old }
{
    for i in 0..sums.len().min(more.len()) {
        let sum = wrapped_sum(number_at(sums, i), number_at(more.as_slice(), i));
        more.set(i, sum);
    }
}

/// A group with a change, in the change's memory.
pub(crate) fn with_group(group: &SignedRow, mut change: SignedRow) -> SignedRow
    requires { IsCount (group.now.count +ℤ change.count) }
    ensures { result ≡ group_with group.now change }
{
    change.count += group.count;
    add_sums(group.sums.as_slice(), &mut change.sums);
    change
}
