//! Conflicts: a key that the transaction wrote and that a commit above its snapshot wrote too. The first committer of a
//! key wins (Berenson and others, SIGMOD 1995).
ghost use Rattle.std.specs.Prelude.{◌≡◌, ◌≤◌, ℕ, List, true, false, map, length, slice_get, option_map, None, Option, IfOk};
ghost use Rattle.std.specs.List.Sorted.{IsPartitionPoint};
ghost use Rattle.lv_values.specs.Ascending.{ascending};
ghost use Rattle.lv_values.specs.Rows.{values_at};
ghost use Rattle.lv_values.specs.declared.value.Value.{Value};
ghost use Rattle.lv_schema.specs.Commits.{place_cmp, first_conflict, written_place};
ghost use Rattle.lv_txn.specs.Written.{conflict_fault, is_before, is_there, or_writer, sooner, writer_among, AreInOrder, IsFirst};

use crate::places::{Place, Places};
use crate::writing::key_of;
use lv_schema::{Action, Conflict, DeltaEntry, Schema};
use lv_values::{Copying, NoMemory, Row, compare_to_key};
use std::alloc::Global;
use std::cmp::Ordering;

/// The first written place that later commits wrote too, as far as they were looked at: where it stands among the
/// places, and the last of those commits.
#[derive(Clone, Copy)]
pub(crate) struct Found {
    pub at: usize,
    pub number: u64,
}

/// The places that actions write, in ascending order. Cost: n log n comparisons, and a copy of each key.
fn places_of(alloc: Global, schema: &Schema, actions: &[Action]) -> Result<Places, NoMemory>
    ensures { IfOk result (λ places. places ≡ ascending place_cmp (map (written_place schema.now.tables) actions.now)) }
{
    let mut places = written_places(alloc, schema, actions)?;
    places.sort();
    Ok(places)
}

/// The places that actions write, one for each action.
fn written_places(alloc: Global, schema: &Schema, actions: &[Action]) -> Result<Places, NoMemory>
    ensures { IfOk result (λ places. places ≡ map (written_place schema.now.tables) actions.now) }
{
    let mut places = Places::new(alloc);
    for action in actions {
        let key = key_of(alloc, schema.key(action.table), &action.row)?;
        places.push(Place::new(action.table, key))?;
    }
    Ok(places)
}

/// Compares a place with the one that an action writes.
#[tactic(auto, using(crate::proofs::PlaceSearch::row_cmp_turned))]
fn compare_place(place: &Place, key: &[u8], action: &Action) -> Ordering
    ensures { result ≡ place_cmp place.now (action.now.table, values_at key.now action.now.row) }
{
    let by_key = compare_to_key(key, &action.row, place.key()).reverse();
    place.table().cmp(&action.table).then(by_key)
}

/// How many places stand before the one that an action writes. Cost: a binary search.
fn cut(places: &[Place], key: &[u8], action: &Action) -> usize
    requires { AreInOrder places.now }
    ensures within { result ≤ length places.now }
    ensures cut { IsPartitionPoint (λ q. is_before (action.now.table, values_at key.now action.now.row) q ≡ true) (λ q. is_before (action.now.table, values_at key.now action.now.row) q ≡ false) places.now result }
{
    places.partition_point(|place| compare_place(place, key, action).is_lt())
}

/// Whether the place at this number, if there is one, is the one that an action writes.
fn is_there(places: &[Place], at: usize, key: &[u8], action: &Action) -> bool
    ensures { result ≡ is_there (action.now.table, values_at key.now action.now.row) (slice_get places.now at) }
{
    match places.get(at) {
        Some(place) => compare_place(place, key, action).is_eq(),
        None => false,
    }
}

/// The place at this number with this writer, unless one before it was found.
fn sooner(at: usize, number: u64, found: Option<Found>) -> Option<Found>
    ensures { result ≡ sooner at number found }
{
    match found {
        Some(earlier) if earlier.at < at => found,
        Some(_) | None => Some(Found { at, number }),
    }
}

/// The first written place that was written later, with one entry more.
fn after(
    schema: &Schema,
    places: &[Place],
    entry: &DeltaEntry,
    found: Option<Found>,
) -> Option<Found>
    requires { AreInOrder places.now }
    ensures { (writer : ℕ × List Value → Option ℕ) → IsFirst places.now writer found → IsFirst places.now (or_writer schema.now.tables entry.now writer) result }
{
    let key = schema.key(entry.action.table);
    let at = cut(places, key, &entry.action);
    if is_there(places, at, key, &entry.action) {
        sooner(at, entry.number, found)
    } else {
        found
    }
}

/// The first of the places, in ascending order, that entries write too.
fn first_found(schema: &Schema, places: &[Place], entries: &[DeltaEntry]) -> Option<Found>
    requires { AreInOrder places.now }
    ensures { IsFirst places.now (writer_among schema.now.tables entries.now) result }
{
    let mut found = None;
    for entry in entries {
        found = after(schema, places, entry, found);
    }
    found
}

/// The conflict on the first place, by table and key, that the actions write and that entries write too, with the
/// greatest number of those. Cost: a sort of the keys that the actions write, and for each entry a binary search among
/// them; nothing where there is no entry.
pub(crate) fn conflict(
    alloc: Global,
    schema: &Schema,
    actions: &[Action],
    entries: &[DeltaEntry],
) -> Result<Option<Conflict>, NoMemory>
    ensures { IfOk result (λ c. option_map conflict_fault c ≡ first_conflict schema.now.tables (writer_among schema.now.tables entries.now) actions.now) }
{
    if entries.is_empty() {
        return Ok(None);
    }
    let places = places_of(alloc, schema, actions)?;
    match first_found(schema, places.as_slice(), entries) {
        None => Ok(None),
        Some(found) => {
            let place = places.get(found.at);
            Ok(Some(Conflict {
                table: place.table(),
                key: place.key().copy(alloc)?,
                commit: found.number,
            }))
        }
    }
}
