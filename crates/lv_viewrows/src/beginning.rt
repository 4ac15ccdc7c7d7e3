//! Versions by the first value of their rows.
ghost use Rattle.std.specs.Prelude.{◌≡◌, ◌≤◌, drop, length, nat_lt, option_copied, position, take};
ghost use Rattle.lv_shelf.specs.Cuts.{Apart};
ghost use Rattle.lv_viewrows.specs.Beginning.{AllAbove, AllBelow, column_numbered, first_column, first_listed, is_plain};
ghost use Rattle.lv_viewrows.specs.Standing.{Precedes};

use crate::version::GroupVersion;
use crate::versions::Candidates;
use lv_schema::{Col, Item, ViewDef};
use lv_values::{Test, Value};
use std::marker::Model;

/// Tests whether a version's row begins below a value, or has none.
#[derive(Drop)]
struct BeginsBelow<'a> {
    low: &'a Value,
}

impl<'a> Model for BeginsBelow<'a> {
    ghost use Rattle.lv_values.specs.declared.value.Value.{Value as AValue};

    ghost Value = { AValue };

    ghost view = { λ t. t.low.now };
}

impl<'a> Test<GroupVersion> for BeginsBelow<'a> {
    ghost use Rattle.lv_viewrows.specs.Beginning.{begins_below};

    ghost passed = { λ low v. begins_below low v.group.row };

    fn passes(&self, version: &GroupVersion) -> bool {
        match version.group.row.as_slice() {
            [value, ..] => value.cmp(self.low).is_lt(),
            [] => true,
        }
    }
}

/// Tests whether a version's row begins with no greater value, or has none.
#[derive(Drop)]
struct BeginsUpTo<'a> {
    high: &'a Value,
}

impl<'a> Model for BeginsUpTo<'a> {
    ghost use Rattle.lv_values.specs.declared.value.Value.{Value as AValue};

    ghost Value = { AValue };

    ghost view = { λ t. t.high.now };
}

impl<'a> Test<GroupVersion> for BeginsUpTo<'a> {
    ghost use Rattle.lv_viewrows.specs.Beginning.{begins_up_to};

    ghost passed = { λ high v. begins_up_to high v.group.row };

    fn passes(&self, version: &GroupVersion) -> bool {
        match version.group.row.as_slice() {
            [value, ..] => !value.cmp(self.high).is_gt(),
            [] => true,
        }
    }
}

/// Whether a version's row has a value.
fn has_value(version: &GroupVersion) -> bool
    ensures { result ≡ nat_lt 0 (length version.now.group.row) }
{
    version.group.row.len() > 0
}

/// The place before which the versions stand whose rows begin below the lowest value. Where a row has no value, or there is
/// no lowest value, this is the first place. Cost: a binary search.
fn place_from(lowest: Option<&Value>, versions: &Candidates<'_>) -> usize
    requires { Apart Precedes versions.now }
    ensures { AllBelow (option_copied lowest.entry) (take result versions.now) }
{
    let Some(low) = lowest else {
        return 0;
    };
    if versions.len() > 0 && !has_value(versions.get(0)) {
        return 0;
    }
    versions.cut(&BeginsBelow { low })
}

/// The place from which on the versions stand whose rows begin above the highest value. Where there is no highest value,
/// this is the last place. Cost: a binary search.
fn place_behind(highest: Option<&Value>, versions: &Candidates<'_>) -> usize
    requires { Apart Precedes versions.now }
    ensures within { result ≤ length versions.now }
    ensures behind { AllAbove (option_copied highest.entry) (drop result versions.now) }
{
    match highest {
        Some(high) => versions.cut(&BeginsUpTo { high }),
        None => versions.len(),
    }
}

/// Between which places the versions stand whose rows begin with no value below the lowest one and none above the highest
/// one, with those whose rows have no value. Cost: a binary search for each of the two values that is there.
pub(crate) fn places_of(
    lowest: Option<&Value>,
    highest: Option<&Value>,
    versions: &Candidates<'_>,
) -> (usize, usize)
    requires { Apart Precedes versions.now }
    ensures order { result.0 ≤ result.1 }
    ensures within { result.1 ≤ length versions.now }
    ensures before { AllBelow (option_copied lowest.entry) (take result.0 versions.now) }
    ensures behind { AllAbove (option_copied highest.entry) (drop result.1 versions.now) }
{
    let end = place_behind(highest, versions);
    (place_from(lowest, versions).min(end), end)
}

/// Whether an item is a column.
fn is_plain(item: &Item, column: &Col) -> bool
    ensures { result ≡ is_plain item.now column.now }
{
    match item {
        Item::Plain { col, .. } => col.alias == column.alias && col.column == column.column,
        Item::Sum { .. } | Item::Count { .. } => false,
    }
}

/// The place of the first item that is a column.
fn place_in(items: &[Item], column: &Col) -> Option<usize>
    ensures { result ≡ position (λ item. is_plain item column.now) items.now }
{
    items.iter().position(|item| is_plain(item, column))
}

/// The place of the first item that is the first of these columns.
fn first_listed(groups: &[Col], items: &[Item]) -> Option<usize>
    ensures { result ≡ first_listed groups.now items.now }
{
    match groups {
        [first, ..] => place_in(items, first),
        [] => None,
    }
}

/// A place as the number of a column, if it is one.
fn column_numbered(at: Option<usize>) -> Option<u8>
    ensures { result ≡ column_numbered at }
{
    u8::try_from(at?).ok()
}

/// The column of a view's rows that is the first value of its groups, if it lists that. Cost: a look at each item.
pub(crate) fn first_column(view: &ViewDef) -> Option<u8>
    ensures { result ≡ first_column view.now }
{
    if view.grouped {
        column_numbered(first_listed(view.groups.as_slice(), view.items.as_slice()))
    } else {
        Some(0)
    }
}
