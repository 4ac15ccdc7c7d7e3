//! Indexes: orders of a table's versions by some columns.
ghost use Rattle.std.specs.Prelude.{◌≡◌, ℕ, ◌+◌, ◌<◌, ◌≤◌, ◌∷◌, ◌++◌, [], List, length, slice_get, slice_set, Some, OnOk, OnErr, MatchOption, filter, take};
ghost use Rattle.std.specs.List.{AllByRecursion, remove};
ghost use Rattle.std.specs.Ordering.{is_lt};
ghost use Rattle.lv_values.specs.Ascending.{placed};
ghost use Rattle.lv_schema.specs.Once.{Ascends};
ghost use Rattle.lv_schema.specs.declared.version.RowVersion.{RowVersion};
ghost use Rattle.lv_shelf.specs.Cuts.{Apart, IsCut};
ghost use Rattle.lv_shelf.specs.Shelves.{LacksItem, other_at};
ghost use Rattle.lv_shelf.specs.Chains.{chain_at, joined, newest_of};
ghost use Rattle.lv_versions.specs.Versions.{AreChains, AreEnded, AreIndexed, AreIndexedBut, HaveOrders, IsIn, Precedes, columns_at, index_cmp, is_open};

use crate::rank::rank;
use crate::version::{ComesBeforeIn, is_open};
use lv_schema::{Positions, RowVersion};
use lv_shelf::ChainShelf;
use lv_values::{NoMemory, Room};
use std::alloc::Global;

/// The further order of the versions that ended.
pub(crate) const ENDED: usize = 0;

/// The further order of the versions that have not ended, empty as long as it is not kept.
pub(crate) const CURRENT: usize = 1;

/// The further order of the first index.
pub(crate) const INDEXES: usize = 2;

/// The number of the index by these columns, if there is one.
pub(crate) fn index_by(indexes: &[Positions], columns: &[u8]) -> Option<usize>
    ensures { MatchOption result (AllByRecursion (λ c. c ≡ columns.now → ⊥) indexes.now) (λ j. (j < length indexes.now) × (columns_at indexes.now j ≡ columns.now)) }
{
    for (j, index) in indexes.iter().enumerate() {
        if index.as_slice() == columns {
            return Some(j);
        }
    }
    None
}

/// How many versions of an index come before a version. Cost: a binary search.
fn place_in(
    positions: &[u8],
    columns: &[u8],
    order: usize,
    version: &RowVersion,
    versions: &ChainShelf<RowVersion>,
) -> usize
    requires order { order < length versions.now.others }
    requires ascends { Ascends (index_cmp columns.now positions.now) (other_at versions.now.others order) }
    ensures within { result ≤ length (other_at versions.now.others order) }
    ensures cut { IsCut (λ w. is_lt (index_cmp columns.now positions.now w version.now)) result (other_at versions.now.others order) }
{
    let before = ComesBeforeIn {
        columns,
        positions,
        row: &version.row,
        number: version.from,
    };
    versions.cut_in_near(order, rank(columns, &version.row), &before)
}

/// Puts the newest version of a chain into an index that lacks it. Cost: a binary search, and a move of small numbers.
fn enter(
    positions: &[u8],
    columns: &[u8],
    order: usize,
    chain: usize,
    versions: &mut ChainShelf<RowVersion>,
)
    requires chain { chain < length versions.old.chains }
    requires order { order < length versions.old.others }
    requires ascends { Ascends (index_cmp columns.now positions.now) (other_at versions.old.others order) }
    requires absent { (v : RowVersion) → newest_of (chain_at versions.old.chains chain) ≡ Some v → LacksItem v (other_at versions.old.others order) }
    ensures entered { (v : RowVersion) → newest_of (chain_at versions.old.chains chain) ≡ Some v → versions.new.others ≡ slice_set versions.old.others order (placed (index_cmp columns.now positions.now) v (other_at versions.old.others order)) }
    ensures same { versions.new.chains ≡ versions.old.chains }
    ensures room { versions.new.spare ≡ versions.old.spare }
{
    let version = versions.newest(chain);
    let place = place_in(positions, columns, order, version, versions);
    let rank = rank(columns, &version.row);
    versions.enter(order, place, chain, rank);
}

/// Puts the version at a place of the order of the ended ones into an index that lacks it. Cost: as of `enter`.
fn enter_ended(
    positions: &[u8],
    columns: &[u8],
    order: usize,
    at: usize,
    versions: &mut ChainShelf<RowVersion>,
)
    requires some { 0 < length versions.old.others }
    requires at { at < length (other_at versions.old.others 0) }
    requires order { order < length versions.old.others }
    requires ascends { Ascends (index_cmp columns.now positions.now) (other_at versions.old.others order) }
    requires absent { (v : RowVersion) → slice_get (other_at versions.old.others 0) at ≡ Some v → LacksItem v (other_at versions.old.others order) }
    ensures entered { (v : RowVersion) → slice_get (other_at versions.old.others 0) at ≡ Some v → versions.new.others ≡ slice_set versions.old.others order (placed (index_cmp columns.now positions.now) v (other_at versions.old.others order)) }
    ensures same { versions.new.chains ≡ versions.old.chains }
    ensures room { versions.new.spare ≡ versions.old.spare }
{
    let version = versions.get_in(ENDED, at);
    let place = place_in(positions, columns, order, version, versions);
    let rank = rank(columns, &version.row);
    versions.enter_from(order, place, ENDED, at, rank);
}

/// Takes the oldest version of a chain out of an index that has it. Cost: a binary search, and a move of small numbers.
fn leave(
    positions: &[u8],
    columns: &[u8],
    order: usize,
    chain: usize,
    versions: &mut ChainShelf<RowVersion>,
)
    requires chain { chain < length versions.old.chains }
    requires order { order < length versions.old.others }
    requires ascends { Ascends (index_cmp columns.now positions.now) (other_at versions.old.others order) }
    requires there { (v : RowVersion) → slice_get (chain_at versions.old.chains chain) 0 ≡ Some v → IsIn v (other_at versions.old.others order) }
    ensures left { (v : RowVersion) → slice_get (chain_at versions.old.chains chain) 0 ≡ Some v → (place : ℕ) × ((slice_get (other_at versions.old.others order) place ≡ Some v) × (versions.new.others ≡ slice_set versions.old.others order (remove (other_at versions.old.others order) place))) }
    ensures same { versions.new.chains ≡ versions.old.chains }
    ensures room { versions.new.spare ≡ versions.old.spare }
{
    let place = place_in(positions, columns, order, versions.oldest(chain), versions);
    versions.leave(order, place);
}

/// Puts the newest version of a chain into each index, all of which lack it. Cost: a binary search, and a move of small
/// numbers, for each.
pub(crate) fn enter_each(
    positions: &[u8],
    indexes: &[Positions],
    chain: usize,
    versions: &mut ChainShelf<RowVersion>,
)
    requires chain { chain < length versions.old.chains }
    requires count { length versions.old.others ≡ length indexes.now + 2 }
    requires stand { Apart (Precedes positions.now) (joined versions.old.chains) }
    requires here { (v : RowVersion) → newest_of (chain_at versions.old.chains chain) ≡ Some v → IsIn v (joined versions.old.chains) }
    requires but { (v : RowVersion) (j : ℕ) → newest_of (chain_at versions.old.chains chain) ≡ Some v → j < length indexes.now → AreIndexedBut (columns_at indexes.now j) positions.now v (other_at versions.old.others (j + 2)) (joined versions.old.chains) }
    ensures indexed { (j : ℕ) → j < length indexes.now → AreIndexed (columns_at indexes.now j) positions.now (other_at versions.new.others (j + 2)) (joined versions.new.chains) }
    ensures count { length versions.new.others ≡ length versions.old.others }
    ensures ended { other_at versions.new.others 0 ≡ other_at versions.old.others 0 }
    ensures current { other_at versions.new.others 1 ≡ other_at versions.old.others 1 }
    ensures same { versions.new.chains ≡ versions.old.chains }
    ensures room { versions.new.spare ≡ versions.old.spare }
{
    let _newest = versions.newest(chain);
    for (j, index) in indexes.iter().enumerate() {
        enter(positions, index.as_slice(), j + INDEXES, chain, versions);
    }
}

/// Takes the oldest version of a chain out of each index. Cost: a binary search, and a move of small numbers, for each.
pub(crate) fn leave_each(
    positions: &[u8],
    indexes: &[Positions],
    chain: usize,
    versions: &mut ChainShelf<RowVersion>,
)
    requires chain { chain < length versions.old.chains }
    requires count { length versions.old.others ≡ length indexes.now + 2 }
    requires here { (v : RowVersion) → slice_get (chain_at versions.old.chains chain) 0 ≡ Some v → IsIn v (joined versions.old.chains) }
    requires indexed { (j : ℕ) → j < length indexes.now → AreIndexed (columns_at indexes.now j) positions.now (other_at versions.old.others (j + 2)) (joined versions.old.chains) }
    ensures but { (v : RowVersion) (j : ℕ) → slice_get (chain_at versions.new.chains chain) 0 ≡ Some v → j < length indexes.now → AreIndexedBut (columns_at indexes.now j) positions.now v (other_at versions.new.others (j + 2)) (joined versions.new.chains) }
    ensures count { length versions.new.others ≡ length versions.old.others }
    ensures ended { other_at versions.new.others 0 ≡ other_at versions.old.others 0 }
    ensures current { other_at versions.new.others 1 ≡ other_at versions.old.others 1 }
    ensures same { versions.new.chains ≡ versions.old.chains }
    ensures room { versions.new.spare ≡ versions.old.spare }
{
    let _oldest = versions.oldest(chain);
    for (j, index) in indexes.iter().enumerate() {
        leave(positions, index.as_slice(), j + INDEXES, chain, versions);
    }
}

/// Puts all versions that ended into an index that has none. Cost: a binary search, and a move of small numbers, for each.
fn fill_ended(positions: &[u8], columns: &[u8], order: usize, versions: &mut ChainShelf<RowVersion>)
    requires stand { Apart (Precedes positions.now) (joined versions.old.chains) }
    requires order { 1 < order }
    requires last { order < length versions.old.others }
    requires ended { AreEnded (other_at versions.old.others 0) (joined versions.old.chains) }
    requires none { other_at versions.old.others order ≡ [] }
    ensures filled { AreIndexed columns.now positions.now (other_at versions.new.others order) (other_at versions.old.others 0) }
    ensures others { (k : ℕ) → (k ≡ order → ⊥) → other_at versions.new.others k ≡ other_at versions.old.others k }
    ensures count { length versions.new.others ≡ length versions.old.others }
    ensures same { versions.new.chains ≡ versions.old.chains }
    ensures room { versions.new.spare ≡ versions.old.spare }
{
    for at in 0..versions.len_in(ENDED) {
        enter_ended(positions, columns, order, at, versions);
    }
}

/// Puts the newest version of a chain, if it has not ended, into an index that has those before it that have not, and all
/// that ended.
fn fill_open(
    positions: &[u8],
    columns: &[u8],
    order: usize,
    chain: usize,
    versions: &mut ChainShelf<RowVersion>,
)
    requires stand { Apart (Precedes positions.now) (joined versions.old.chains) }
    requires chained { AreChains positions.now versions.old.chains }
    requires chain { chain < length versions.old.chains }
    requires order { 1 < order }
    requires last { order < length versions.old.others }
    requires ended { AreEnded (other_at versions.old.others 0) (joined versions.old.chains) }
    requires front { AreIndexed columns.now positions.now (other_at versions.old.others order) (other_at versions.old.others 0 ++ filter is_open (joined (take chain versions.old.chains))) }
    ensures filled { AreIndexed columns.now positions.now (other_at versions.new.others order) (other_at versions.old.others 0 ++ filter is_open (joined (take (chain + 1) versions.old.chains))) }
    ensures others { (k : ℕ) → (k ≡ order → ⊥) → other_at versions.new.others k ≡ other_at versions.old.others k }
    ensures count { length versions.new.others ≡ length versions.old.others }
    ensures same { versions.new.chains ≡ versions.old.chains }
    ensures room { versions.new.spare ≡ versions.old.spare }
{
    if is_open(versions.newest(chain)) {
        enter(positions, columns, order, chain, versions);
    }
}

/// Puts all versions into an index that has none. Cost: a binary search, and a move of small numbers, for each.
fn fill(positions: &[u8], columns: &[u8], order: usize, versions: &mut ChainShelf<RowVersion>)
    requires stand { Apart (Precedes positions.now) (joined versions.old.chains) }
    requires chained { AreChains positions.now versions.old.chains }
    requires order { 1 < order }
    requires last { order < length versions.old.others }
    requires ended { AreEnded (other_at versions.old.others 0) (joined versions.old.chains) }
    requires none { other_at versions.old.others order ≡ [] }
    ensures filled { AreIndexed columns.now positions.now (other_at versions.new.others order) (joined versions.new.chains) }
    ensures others { (k : ℕ) → (k ≡ order → ⊥) → other_at versions.new.others k ≡ other_at versions.old.others k }
    ensures count { length versions.new.others ≡ length versions.old.others }
    ensures same { versions.new.chains ≡ versions.old.chains }
    ensures room { versions.new.spare ≡ versions.old.spare }
{
    fill_ended(positions, columns, order, versions);
    for chain in 0..versions.chains() {
        fill_open(positions, columns, order, chain, versions);
    }
}

/// Adds an index by some columns. Want of memory leaves the versions and their indexes as they were.
/// Cost: a binary search, and a move of small numbers, for each version.
pub(crate) fn add_index(
    alloc: Global,
    positions: &[u8],
    columns: &[u8],
    indexes: &mut Room<Positions>,
    versions: &mut ChainShelf<RowVersion>,
) -> Result<(), NoMemory>
    requires stand { Apart (Precedes positions.now) (joined versions.old.chains) }
    requires chained { AreChains positions.now versions.old.chains }
    requires orders { HaveOrders positions.now indexes.old.list versions.old.spare versions.old.others (joined versions.old.chains) }
    ensures added { OnOk result (indexes.new.list ≡ indexes.old.list ++ columns.now ∷ []) }
    ensures refused { OnErr result (indexes.new.list ≡ indexes.old.list) }
    ensures orders { HaveOrders positions.now indexes.new.list versions.new.spare versions.new.others (joined versions.new.chains) }
    ensures current { other_at versions.new.others 1 ≡ other_at versions.old.others 1 }
    ensures same { versions.new.chains ≡ versions.old.chains }
    ensures room { versions.new.spare ≡ versions.old.spare }
{
    let index = Positions::from_slice(alloc, columns)?;
    indexes.reserve(1)?;
    add_first(alloc, versions)?;
    versions.add_order(alloc)?;
    fill(positions, columns, versions.orders() - 1, versions);
    indexes.push(index);
    Ok(())
}

/// Adds the orders of the versions that ended and of those that have not, which are the first ones, if they are not there.
pub(crate) fn add_first(
    alloc: Global,
    versions: &mut ChainShelf<RowVersion>,
) -> Result<(), NoMemory>
    ensures same { versions.new.chains ≡ versions.old.chains }
    ensures room { versions.new.spare ≡ versions.old.spare }
    ensures there { OnOk result (1 < length versions.new.others) }
    ensures current { other_at versions.new.others 1 ≡ other_at versions.old.others 1 }
    ensures orders { (positions : List ℕ) (indexes : List (List ℕ)) → HaveOrders positions indexes versions.old.spare versions.old.others (joined versions.old.chains) → HaveOrders positions indexes versions.new.spare versions.new.others (joined versions.new.chains) }
{
    while versions.orders() < INDEXES {
        versions.add_order(alloc)?;
    }
    Ok(())
}
