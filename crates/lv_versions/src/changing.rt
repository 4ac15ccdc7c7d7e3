//! What a commit does to versions, in place.
ghost use Rattle.std.specs.Prelude.{◌≡◌, ◌+◌, ◌-◌, ◌++◌, ◌<◌, ◌≤◌, ◌∷◌, [], IfSome, List, MatchOption, Some, false, true, filter, is_some, length, map, slice_get, slice_set};
ghost use Rattle.std.specs.List.{AllByRecursion, insert};
ghost use Rattle.std.specs.declared.cmp.Ordering.TheVariants.{Equal};
ghost use Rattle.lv_values.specs.Rows.{key_cmp};
ghost use Rattle.lv_values.specs.Ascending.{placed};
ghost use Rattle.lv_shelf.specs.Cuts.{Apart, IsCut};
ghost use Rattle.lv_shelf.specs.Shelves.{LacksItem, other_at};
ghost use Rattle.lv_schema.specs.declared.version.RowVersion.{RowVersion};
ghost use Rattle.lv_shelf.specs.Chains.{before, chain_at, joined, newest_of};
ghost use Rattle.lv_versions.specs.Versions.{AreChains, AreNew, AreOrders, EndsAtMost, HaveOrders, IsOlder, Precedes, closed, current_of, ends_from, is_current, is_open, lost, new_version, upto, version_cmp, with_versions};

use crate::indexes::{CURRENT, ENDED, enter_each};
use crate::rank::rank;
use crate::version::{EndAt, HasKeyUpTo, is_current};
use lv_schema::{Net, Positions, RowVersion};
use lv_shelf::ChainShelf;
use lv_values::{Row, Rows, compare_keys};

/// Puts the newest version of a chain last into the order of the ended ones.
fn enter_last(chain: usize, versions: &mut ChainShelf<RowVersion>)
    requires chain { chain < length versions.old.chains }
    requires some { 0 < length versions.old.others }
    requires absent { (v : RowVersion) → newest_of (chain_at versions.old.chains chain) ≡ Some v → LacksItem v (other_at versions.old.others 0) }
    ensures entered { (v : RowVersion) → newest_of (chain_at versions.old.chains chain) ≡ Some v → versions.new.others ≡ slice_set versions.old.others 0 (other_at versions.old.others 0 ++ v ∷ []) }
    ensures same { versions.new.chains ≡ versions.old.chains }
    ensures room { versions.new.spare ≡ versions.old.spare }
{
    let last = versions.len_in(ENDED);
    versions.enter(ENDED, last, chain, 0);
}

/// How many chains have keys up to that of a row: the last of them is that of its key, if there is one. Cost: a binary
/// search.
fn place_of(positions: &[u8], row: &Row, versions: &ChainShelf<RowVersion>) -> usize
    requires stand { Apart (Precedes positions.now) (joined versions.now.chains) }
    requires chained { AreChains positions.now versions.now.chains }
    ensures within { result ≤ length versions.now.chains }
    ensures cut { IsCut (upto positions.now row.now) (before versions.now.chains result) (joined versions.now.chains) }
{
    versions.cut_near(rank(positions, row), &HasKeyUpTo { positions, row })
}

/// How many of the versions that have not ended have keys up to that of a row. Cost: a binary search.
fn place_among_current(positions: &[u8], row: &Row, versions: &ChainShelf<RowVersion>) -> usize
    requires order { 1 < length versions.now.others }
    requires stand { Apart (Precedes positions.now) (joined versions.now.chains) }
    requires current { other_at versions.now.others 1 ≡ filter is_open (joined versions.now.chains) }
    ensures within { result ≤ length (other_at versions.now.others 1) }
    ensures cut { IsCut (upto positions.now row.now) result (other_at versions.now.others 1) }
{
    versions.cut_in_near(
        CURRENT,
        rank(positions, row),
        &HasKeyUpTo { positions, row },
    )
}

/// Takes the newest version of a chain, which is the row's current one and is about to end, out of the order of those that
/// have not ended, if that is kept, and answers where it stood there. Cost: a binary search, and a move of small numbers.
fn leave_current(
    positions: &[u8],
    kept: bool,
    row: &Row,
    number: u64,
    chain: usize,
    versions: &mut ChainShelf<RowVersion>,
) -> usize
    requires stand { Apart (Precedes positions.now) (joined versions.old.chains) }
    requires order { 1 < length versions.old.others }
    requires current { other_at versions.old.others 1 ≡ current_of kept (joined versions.old.chains) }
    requires chain { chain < length versions.old.chains }
    requires cut { IsCut (upto positions.now row.now) (before versions.old.chains (chain + 1)) (joined versions.old.chains) }
    requires is { (v : RowVersion) → newest_of (chain_at versions.old.chains chain) ≡ Some v → is_current positions.now row.now number v ≡ true }
    requires some { 0 < length (chain_at versions.old.chains chain) }
    ensures left { map (closed positions.now number (row.now ∷ [])) (other_at versions.new.others 1) ≡ current_of kept (map (closed positions.now number (row.now ∷ [])) (joined versions.old.chains)) }
    ensures others { versions.new.others ≡ slice_set versions.old.others 1 (other_at versions.new.others 1) }
    ensures place { kept ≡ true → IsCut (upto positions.now row.now) result (current_of kept (map (closed positions.now number (row.now ∷ [])) (joined versions.old.chains))) }
    ensures same { versions.new.chains ≡ versions.old.chains }
    ensures room { versions.new.spare ≡ versions.old.spare }
{
    if !kept {
        return 0;
    }
    let place = place_among_current(positions, row, versions) - 1;
    versions.leave(CURRENT, place);
    place
}

/// Ends the newest version of a chain, which is the row's current one, and answers where it stood in the order of those that
/// have not ended, if that is kept. Cost: as of `leave_current`.
fn end_at(
    positions: &[u8],
    indexes: &[Positions],
    kept: bool,
    row: &Row,
    number: u64,
    chain: usize,
    versions: &mut ChainShelf<RowVersion>,
) -> usize
    requires stand { Apart (Precedes positions.now) (joined versions.old.chains) }
    requires ends { AllByRecursion (λ v. EndsAtMost number v.until) (joined versions.old.chains) }
    requires orders { AreOrders positions.now indexes.now versions.old.others (joined versions.old.chains) }
    requires current { other_at versions.old.others 1 ≡ current_of kept (joined versions.old.chains) }
    requires chain { chain < length versions.old.chains }
    requires cut { IsCut (upto positions.now row.now) (before versions.old.chains (chain + 1)) (joined versions.old.chains) }
    requires is { (v : RowVersion) → newest_of (chain_at versions.old.chains chain) ≡ Some v → is_current positions.now row.now number v ≡ true }
    requires some { 0 < length (chain_at versions.old.chains chain) }
    ensures ended { versions.new.chains ≡ map (map (closed positions.now number (row.now ∷ []))) versions.old.chains }
    ensures orders { AreOrders positions.now indexes.now versions.new.others (joined versions.new.chains) }
    ensures current { other_at versions.new.others 1 ≡ current_of kept (joined versions.new.chains) }
    ensures room { versions.new.spare ≡ versions.old.spare }
    ensures place { kept ≡ true → IsCut (upto positions.now row.now) result (other_at versions.new.others 1) }
{
    let place = leave_current(positions, kept, row, number, chain, versions);
    let end = EndAt {
        positions,
        row,
        number,
    };
    versions.edit(chain, &end);
    enter_last(chain, versions);
    place
}

/// Ends the newest version of the chain before the place of a row, if it has the row's key, came before the commit and has
/// not ended, and answers where it stood in the order of those that have not, if that is kept. Cost: as of `end_at`, or
/// constant where none ends.
fn end_before(
    positions: &[u8],
    indexes: &[Positions],
    kept: bool,
    row: &Row,
    number: u64,
    place: usize,
    versions: &mut ChainShelf<RowVersion>,
) -> Option<usize>
    requires stand { Apart (Precedes positions.now) (joined versions.old.chains) }
    requires ends { AllByRecursion (λ v. EndsAtMost number v.until) (joined versions.old.chains) }
    requires orders { HaveOrders positions.now indexes.now versions.old.spare versions.old.others (joined versions.old.chains) }
    requires current { other_at versions.old.others 1 ≡ current_of kept (joined versions.old.chains) }
    requires within { place ≤ length versions.old.chains }
    requires cut { IsCut (upto positions.now row.now) (before versions.old.chains place) (joined versions.old.chains) }
    ensures ended { versions.new.chains ≡ map (map (closed positions.now number (row.now ∷ []))) versions.old.chains }
    ensures orders { HaveOrders positions.now indexes.now versions.new.spare versions.new.others (joined versions.new.chains) }
    ensures current { other_at versions.new.others 1 ≡ current_of kept (joined versions.new.chains) }
    ensures room { versions.new.spare ≡ versions.old.spare }
    ensures place { IfSome result (λ at. kept ≡ true → IsCut (upto positions.now row.now) at (other_at versions.new.others 1)) }
{
    if place > 0 && is_current(positions, row, number, versions.newest(place - 1)) {
        Some(end_at(positions, indexes, kept, row, number, place - 1, versions))
    } else {
        None
    }
}

/// Ends the version that has the row's key and has not ended, if there is one. Cost: a binary search, and that of `end_at`.
fn end_row(
    positions: &[u8],
    indexes: &[Positions],
    kept: bool,
    row: &Row,
    number: u64,
    versions: &mut ChainShelf<RowVersion>,
)
    requires stand { Apart (Precedes positions.now) (joined versions.old.chains) }
    requires chained { AreChains positions.now versions.old.chains }
    requires ends { AllByRecursion (λ v. EndsAtMost number v.until) (joined versions.old.chains) }
    requires orders { HaveOrders positions.now indexes.now versions.old.spare versions.old.others (joined versions.old.chains) }
    requires current { other_at versions.old.others 1 ≡ current_of kept (joined versions.old.chains) }
    ensures ended { versions.new.chains ≡ map (map (closed positions.now number (row.now ∷ []))) versions.old.chains }
    ensures stand { Apart (Precedes positions.now) (joined versions.new.chains) }
    ensures chained { AreChains positions.now versions.new.chains }
    ensures ends { AllByRecursion (λ v. EndsAtMost number v.until) (joined versions.new.chains) }
    ensures orders { HaveOrders positions.now indexes.now versions.new.spare versions.new.others (joined versions.new.chains) }
    ensures current { other_at versions.new.others 1 ≡ current_of kept (joined versions.new.chains) }
    ensures room { versions.new.spare ≡ versions.old.spare }
{
    let place = place_of(positions, row, versions);
    end_before(positions, indexes, kept, row, number, place, versions);
}

/// Ends the versions that have the keys of some rows. Cost: a binary search for each.
fn end_rows(
    positions: &[u8],
    indexes: &[Positions],
    kept: bool,
    rows: &[Row],
    number: u64,
    versions: &mut ChainShelf<RowVersion>,
)
    requires stand { Apart (Precedes positions.now) (joined versions.old.chains) }
    requires chained { AreChains positions.now versions.old.chains }
    requires ends { AllByRecursion (λ v. EndsAtMost number v.until) (joined versions.old.chains) }
    requires orders { HaveOrders positions.now indexes.now versions.old.spare versions.old.others (joined versions.old.chains) }
    requires current { other_at versions.old.others 1 ≡ current_of kept (joined versions.old.chains) }
    ensures ended { (joined versions.new.chains) ≡ map (closed positions.now number rows.now) (joined versions.old.chains) }
    ensures stand { Apart (Precedes positions.now) (joined versions.new.chains) }
    ensures chained { AreChains positions.now versions.new.chains }
    ensures orders { HaveOrders positions.now indexes.now versions.new.spare versions.new.others (joined versions.new.chains) }
    ensures current { other_at versions.new.others 1 ≡ current_of kept (joined versions.new.chains) }
    ensures room { versions.new.spare ≡ versions.old.spare }
{
    for row in rows {
        end_row(positions, indexes, kept, row, number, versions);
    }
}

/// Whether there is a last one of some rows whose key is not below that of a row.
fn ends_from(positions: &[u8], row: &Row, rows: &Rows) -> bool
    ensures { result ≡ ends_from positions.now row.now rows.now }
{
    match rows.as_slice().last() {
        Some(last) => !compare_keys(positions, last, row).is_lt(),
        None => false,
    }
}

/// The last of some rows, taken off, if its key is not below that of a row.
fn pop_from(positions: &[u8], row: &Row, rows: &mut Rows) -> Option<Row>
    ensures popped { MatchOption result (rows.new ≡ rows.old) (λ last. rows.old ≡ rows.new ++ last ∷ []) }
    ensures when { is_some result ≡ ends_from positions.now row.now rows.old }
{
    if ends_from(positions, row, rows) {
        rows.pop()
    } else {
        None
    }
}

/// Takes off the last of the rows that go, as long as their keys are not below that of a row that comes, and ends the
/// versions of their keys, other than the row's own key. Cost: a binary search for each key.
fn end_above(
    positions: &[u8],
    indexes: &[Positions],
    kept: bool,
    row: &Row,
    number: u64,
    minus: &mut Rows,
    versions: &mut ChainShelf<RowVersion>,
)
    requires stand { Apart (Precedes positions.now) (joined versions.old.chains) }
    requires chained { AreChains positions.now versions.old.chains }
    requires ends { AllByRecursion (λ v. EndsAtMost number v.until) (joined versions.old.chains) }
    requires orders { HaveOrders positions.now indexes.now versions.old.spare versions.old.others (joined versions.old.chains) }
    requires current { other_at versions.old.others 1 ≡ current_of kept (joined versions.old.chains) }
    ensures left { ends_from positions.now row.now minus.new ≡ false }
    ensures same { map (closed positions.now number minus.new) (map (closed positions.now number (row.now ∷ [])) (joined versions.new.chains)) ≡ map (closed positions.now number minus.old) (map (closed positions.now number (row.now ∷ [])) (joined versions.old.chains)) }
    ensures stand { Apart (Precedes positions.now) (joined versions.new.chains) }
    ensures chained { AreChains positions.now versions.new.chains }
    ensures ends { AllByRecursion (λ v. EndsAtMost number v.until) (joined versions.new.chains) }
    ensures orders { HaveOrders positions.now indexes.now versions.new.spare versions.new.others (joined versions.new.chains) }
    ensures current { other_at versions.new.others 1 ≡ current_of kept (joined versions.new.chains) }
    ensures room { versions.new.spare ≡ versions.old.spare }
{
    while let Some(lost) = pop_from(positions, row, minus) {
        if compare_keys(positions, &lost, row).is_ne() {
            end_row(positions, indexes, kept, &lost, number, versions);
        }
    }
}

/// The place of the version of a row among those that have not ended: where the one of its key stood, if that has just
/// ended. Cost: constant then, or else a binary search.
fn place_of_current(
    ended: Option<usize>,
    positions: &[u8],
    row: &Row,
    versions: &ChainShelf<RowVersion>,
) -> usize
    requires order { 1 < length versions.now.others }
    requires stand { Apart (Precedes positions.now) (joined versions.now.chains) }
    requires current { other_at versions.now.others 1 ≡ filter is_open (joined versions.now.chains) }
    requires told { IfSome ended (λ place. IsCut (upto positions.now row.now) place (other_at versions.now.others 1)) }
    ensures within { result ≤ length (other_at versions.now.others 1) }
    ensures cut { IsCut (upto positions.now row.now) result (other_at versions.now.others 1) }
{
    match ended {
        Some(place) => place,
        None => place_among_current(positions, row, versions),
    }
}

/// The version of a row that a commit brings.
fn version_of(row: Row, number: u64) -> RowVersion
    ensures { result ≡ new_version number row }
{
    RowVersion {
        row,
        from: number,
        until: None,
    }
}

/// Whether the chain before a place is of a row's key.
fn ends_on_key(positions: &[u8], row: &Row, place: usize, versions: &ChainShelf<RowVersion>) -> bool
    requires { place ≤ length versions.now.chains }
    ensures some { result ≡ true → 0 < place }
    ensures here { 0 < place → 0 < length (chain_at versions.now.chains (place - 1)) }
    ensures key { (v : RowVersion) → result ≡ true → newest_of (chain_at versions.now.chains (place - 1)) ≡ Some v → key_cmp positions.now v.row row.now ≡ Equal }
    ensures other { (v : RowVersion) → result ≡ false → 0 < place → newest_of (chain_at versions.now.chains (place - 1)) ≡ Some v → key_cmp positions.now v.row row.now ≡ Equal → ⊥ }
{
    place > 0 && compare_keys(positions, &versions.newest(place - 1).row, row).is_eq()
}

/// Puts a version of a row that a commit brings behind the chain before a place, if that is of its key, or else begins a
/// chain there; and answers which chain has it. Cost: constant, or a move of small numbers.
fn put_version(
    positions: &[u8],
    row: Row,
    number: u64,
    place: usize,
    versions: &mut ChainShelf<RowVersion>,
) -> usize
    requires chained { AreChains positions.now versions.old.chains }
    requires within { place ≤ length versions.old.chains }
    requires cut { IsCut (upto positions.now row) (before versions.old.chains place) (joined versions.old.chains) }
    requires room { 0 < versions.old.spare }
    ensures added { joined versions.new.chains ≡ insert (joined versions.old.chains) (before versions.old.chains place) (new_version number row) }
    ensures chained { AreChains positions.now versions.new.chains }
    ensures within { result < length versions.new.chains }
    ensures newest { newest_of (chain_at versions.new.chains result) ≡ Some (new_version number row) }
    ensures others { versions.new.others ≡ versions.old.others }
    ensures room { versions.new.spare + 1 ≡ versions.old.spare }
{
    let rank = rank(positions, &row);
    if ends_on_key(positions, &row, place, versions) {
        versions.push(place - 1, version_of(row, number), rank);
        place - 1
    } else {
        versions.insert(place, version_of(row, number), rank);
        place
    }
}

/// Puts a version of a row that a commit brings at its place, and into the order of those that have not ended, if that is
/// kept, and answers which chain has it. Cost: as of `put_version`, and where that order is kept a move of small numbers more,
/// with a binary search if none of its key ended.
fn insert_row(
    positions: &[u8],
    kept: bool,
    ended: Option<usize>,
    row: Row,
    number: u64,
    place: usize,
    versions: &mut ChainShelf<RowVersion>,
) -> usize
    requires stand { Apart (Precedes positions.now) (joined versions.old.chains) }
    requires chained { AreChains positions.now versions.old.chains }
    requires order { 1 < length versions.old.others }
    requires current { other_at versions.old.others 1 ≡ current_of kept (joined versions.old.chains) }
    requires told { IfSome ended (λ at. kept ≡ true → IsCut (upto positions.now row) at (other_at versions.old.others 1)) }
    requires cut { IsCut (upto positions.now row) (before versions.old.chains place) (joined versions.old.chains) }
    requires within { place ≤ length versions.old.chains }
    requires new { LacksItem (new_version number row) (joined versions.old.chains) }
    requires room { 0 < versions.old.spare }
    ensures added { joined versions.new.chains ≡ insert (joined versions.old.chains) (before versions.old.chains place) (new_version number row) }
    ensures chained { AreChains positions.now versions.new.chains }
    ensures within { result < length versions.new.chains }
    ensures newest { newest_of (chain_at versions.new.chains result) ≡ Some (new_version number row) }
    ensures others { versions.new.others ≡ slice_set versions.old.others 1 (other_at versions.new.others 1) }
    ensures current { other_at versions.new.others 1 ≡ current_of kept (joined versions.new.chains) }
    ensures room { versions.new.spare + 1 ≡ versions.old.spare }
{
    if !kept {
        return put_version(positions, row, number, place, versions);
    }
    let rank = rank(positions, &row);
    let at = place_of_current(ended, positions, &row, versions);
    let chain = put_version(positions, row, number, place, versions);
    versions.enter(CURRENT, at, chain, rank);
    chain
}

/// Puts a version of a row that a commit brings at its place, into the order of those that have not ended, if that is
/// kept, and into each index, and ends the version that has its key and has not ended. Cost: a binary search, and a move
/// of small numbers for each of them, but none among the chains where there is one of its key.
fn put_row(
    positions: &[u8],
    indexes: &[Positions],
    kept: bool,
    row: Row,
    number: u64,
    versions: &mut ChainShelf<RowVersion>,
)
    requires stand { Apart (Precedes positions.now) (joined versions.old.chains) }
    requires chained { AreChains positions.now versions.old.chains }
    requires ends { AllByRecursion (λ v. EndsAtMost number v.until) (joined versions.old.chains) }
    requires older { AllByRecursion (IsOlder positions.now number row) (joined versions.old.chains) }
    requires orders { HaveOrders positions.now indexes.now versions.old.spare versions.old.others (joined versions.old.chains) }
    requires current { other_at versions.old.others 1 ≡ current_of kept (joined versions.old.chains) }
    requires room { 0 < versions.old.spare }
    ensures put { joined versions.new.chains ≡ placed (version_cmp positions.now) (new_version number row) (map (closed positions.now number (row ∷ [])) (joined versions.old.chains)) }
    ensures chained { AreChains positions.now versions.new.chains }
    ensures orders { HaveOrders positions.now indexes.now versions.new.spare versions.new.others (joined versions.new.chains) }
    ensures current { other_at versions.new.others 1 ≡ current_of kept (joined versions.new.chains) }
    ensures room { versions.new.spare + 1 ≡ versions.old.spare }
{
    let place = place_of(positions, &row, versions);
    let ended = end_before(positions, indexes, kept, &row, number, place, versions);
    let chain = insert_row(positions, kept, ended, row, number, place, versions);
    enter_each(positions, indexes, chain, versions);
}

/// Puts versions of the rows that come at their places, and ends those that they replace. Of the rows that go, those
/// behind the last one whose key is below that of the first row that comes are taken off. It takes no memory. Cost: as
/// of `change`.
fn put_rows(
    positions: &[u8],
    indexes: &[Positions],
    kept: bool,
    minus: &mut Rows,
    mut plus: Rows,
    number: u64,
    versions: &mut ChainShelf<RowVersion>,
)
    requires stand { Apart (Precedes positions.now) (joined versions.old.chains) }
    requires chained { AreChains positions.now versions.old.chains }
    requires ends { AllByRecursion (λ v. EndsAtMost number v.until) (joined versions.old.chains) }
    requires orders { HaveOrders positions.now indexes.now versions.old.spare versions.old.others (joined versions.old.chains) }
    requires current { other_at versions.old.others 1 ≡ current_of kept (joined versions.old.chains) }
    requires new { AreNew positions.now number plus (map (closed positions.now number plus) (map (closed positions.now number minus.old) (joined versions.old.chains))) }
    requires room { length plus ≤ versions.old.spare }
    ensures left { IfSome (slice_get plus 0) (λ row. ends_from positions.now row minus.new ≡ false) }
    ensures put { map (closed positions.now number minus.new) (joined versions.new.chains) ≡ with_versions positions.now number plus (map (closed positions.now number plus) (map (closed positions.now number minus.old) (joined versions.old.chains))) }
    ensures stand { Apart (Precedes positions.now) (joined versions.new.chains) }
    ensures chained { AreChains positions.now versions.new.chains }
    ensures ends { AllByRecursion (λ v. EndsAtMost number v.until) (joined versions.new.chains) }
    ensures orders { HaveOrders positions.now indexes.now versions.new.spare versions.new.others (joined versions.new.chains) }
    ensures current { other_at versions.new.others 1 ≡ current_of kept (joined versions.new.chains) }
    ensures room { versions.new.spare + length plus ≡ versions.old.spare }
{
    while let Some(row) = plus.pop() {
        end_above(positions, indexes, kept, &row, number, minus, versions);
        put_row(positions, indexes, kept, row, number, versions);
    }
}

/// Ends the versions of the rows that a net change takes away, and puts versions of those that it brings at their
/// places. It goes from the greatest keys down, so that one search serves a row that goes and one of its key that comes.
/// It takes no memory. Cost: a binary search for each key that the net change has, where its rows are in the order of
/// their keys, and a move of small numbers for each row that comes.
pub(crate) fn change(
    positions: &[u8],
    indexes: &[Positions],
    kept: bool,
    net: Net,
    number: u64,
    versions: &mut ChainShelf<RowVersion>,
)
    requires stand { Apart (Precedes positions.now) (joined versions.old.chains) }
    requires chained { AreChains positions.now versions.old.chains }
    requires ends { AllByRecursion (λ v. EndsAtMost number v.until) (joined versions.old.chains) }
    requires orders { HaveOrders positions.now indexes.now versions.old.spare versions.old.others (joined versions.old.chains) }
    requires current { other_at versions.old.others 1 ≡ current_of kept (joined versions.old.chains) }
    requires keys { map (closed positions.now number net.plus) (map (closed positions.now number net.minus) (joined versions.old.chains)) ≡ map (lost number net.minus) (joined versions.old.chains) }
    requires new { AreNew positions.now number net.plus (map (lost number net.minus) (joined versions.old.chains)) }
    requires room { length net.plus ≤ versions.old.spare }
    ensures changed { (joined versions.new.chains) ≡ with_versions positions.now number net.plus (map (lost number net.minus) (joined versions.old.chains)) }
    ensures stand { Apart (Precedes positions.now) (joined versions.new.chains) }
    ensures chained { AreChains positions.now versions.new.chains }
    ensures orders { HaveOrders positions.now indexes.now versions.new.spare versions.new.others (joined versions.new.chains) }
    ensures current { other_at versions.new.others 1 ≡ current_of kept (joined versions.new.chains) }
    ensures room { versions.new.spare + length net.plus ≡ versions.old.spare }
{
    let Net { mut minus, plus } = net;
    put_rows(positions, indexes, kept, &mut minus, plus, number, versions);
    end_rows(positions, indexes, kept, minus.as_slice(), number, versions);
}
