//! Slots, and the elements in them.
ghost use Rattle.std.specs.Prelude.{◌≡◌, ◌≤◌, ◌<◌, ◌+◌, ◌-◌, ◌^◌, ◌++◌, ◌∷◌, [], length, slice_get, slice_set, slice_index_or, drop, take, filter, replicate, true, false, Some, None, if◌then◌else◌, vec_capacity};
ghost use Rattle.std.specs.List.{AllByRecursion};
ghost use Rattle.lv_shelf.specs.Cuts.{Falls, IsCut};
ghost use Rattle.lv_shelf.specs.Shelves.{IsHeld, cleared, clear_of, dropped, falling, is_taken, items_at, passes_in, slot_of};

use crate::guessing::count_up_to;
use crate::ranked_places::RankedPlaces;
use lv_values::{Edit, Test};

/// The element in a slot that has one.
pub(crate) fn in_slot<T>(slots: &[Option<T>], slot: u32) -> &T
    requires { IsHeld slots.now slot }
    ensures { slot_of slots.now slot ≡ Some result.now }
{
    slots[slot as usize].as_ref().unwrap()
}

/// Changes the element in a slot that has one.
pub(crate) fn edit_slot<T: Drop, E: Edit<T>>(slots: &mut Vec<Option<T>>, slot: u32, edit: &E)
    requires { IsHeld slots.old.items slot }
    ensures edited { (item : T) → slot_of slots.old.items slot ≡ Some item → slots.new.items ≡ slice_set slots.old.items slot (Some (E.edited edit.now item)) }
{
    let mut item = slots[slot as usize].take().unwrap();
    edit.edit(&mut item);
    slots[slot as usize] = Some(item);
}

/// Puts an element into a slot that has one, and answers that one.
pub(crate) fn exchange_slot<T>(slots: &mut Vec<Option<T>>, slot: u32, item: T) -> T
    requires { IsHeld slots.old.items slot }
    ensures taken { slot_of slots.old.items slot ≡ Some result }
    ensures put { slots.new.items ≡ slice_set slots.old.items slot (Some item) }
{
    std::mem::replace(&mut slots[slot as usize], Some(item)).unwrap()
}

/// Puts an element into a slot, in the place of the one there.
pub(crate) fn set_slot<T: Drop>(slots: &mut Vec<Option<T>>, slot: u32, item: T)
    requires { slot < length slots.old.items }
    ensures { slots.new.items ≡ slice_set slots.old.items slot (Some item) }
{
    slots[slot as usize] = Some(item);
}

/// Makes so many empty slots in the room that there is, and lists them as free. The lowest of them is listed last, and so is
/// taken first: elements that come one after another lie in rising slots.
pub(crate) fn push_slots<T>(count: usize, slots: &mut Vec<Option<T>>, free: &mut Vec<u32>)
    requires numbers { length slots.old.items + count ≤ 2 ^ 32 }
    requires slots_room { length slots.old.items + count ≤ vec_capacity slots.old }
    requires free_room { length free.old.items + count ≤ vec_capacity free.old }
    ensures slots { slots.new.items ≡ slots.old.items ++ replicate count None }
    ensures free { free.new.items ≡ free.old.items ++ falling (length slots.old.items) count }
    ensures capacity { vec_capacity free.new ≡ vec_capacity free.old }
{
    let first = slots.len();
    let mut left = count;
    while left > 0 {
        left -= 1;
        slots.push_reserved(None);
        free.push_reserved((first + left) as u32);
    }
}

/// Whether a slot has an element that passes.
pub(crate) fn passes_in<T, P: Test<T>>(test: &P, slots: &[Option<T>], slot: u32) -> bool
    ensures { result ≡ passes_in (P.passed test.now) slots.now slot }
{
    match slots.get(slot as usize) {
        Some(Some(item)) => test.passes(item),
        Some(None) | None => false,
    }
}

/// Empties a slot whose element does not pass, and lists it as free.
pub(crate) fn clear_slot<T: Drop, P: Test<T>>(
    test: &P,
    slot: u32,
    slots: &mut Vec<Option<T>>,
    free: &mut Vec<u32>,
)
    requires within { slot < length slots.old.items }
    requires room { length free.old.items < vec_capacity free.old }
    ensures cleared { slots.new.items ≡ clear_of (passes_in (P.passed test.now) slots.old.items slot) slots.old.items slot }
    ensures freed { free.new.items ≡ (if passes_in (P.passed test.now) slots.old.items slot then free.old.items else free.old.items ++ slot ∷ []) }
    ensures capacity { vec_capacity free.new ≡ vec_capacity free.old }
{
    if !passes_in(test, slots.as_slice(), slot) {
        slots[slot as usize] = None;
        free.push_reserved(slot);
    }
}

/// Empties the slots, among these, whose elements do not pass, and lists them as free.
pub(crate) fn clear_failing<T: Drop, P: Test<T>>(
    test: &P,
    order: &RankedPlaces,
    slots: &mut Vec<Option<T>>,
    free: &mut Vec<u32>,
)
    requires within { AllByRecursion (λ p. p < length slots.old.items) order.now.list }
    requires room { length free.old.items + length order.now.list ≤ vec_capacity free.old }
    ensures cleared { slots.new.items ≡ cleared (P.passed test.now) slots.old.items order.now.list }
    ensures freed { free.new.items ≡ free.old.items ++ dropped (P.passed test.now) slots.old.items order.now.list }
    ensures capacity { vec_capacity free.new ≡ vec_capacity free.old }
{
    for at in 0..order.len() {
        clear_slot(test, order.at(at), slots, free);
    }
}

/// The element at a place of some slots.
pub(crate) fn item_at<'a, T>(slots: &'a [Option<T>], places: &RankedPlaces, at: usize) -> &'a T
    requires held { AllByRecursion (IsHeld slots.now) places.now.list }
    requires place { at < length places.now.list }
    ensures { slice_get (items_at slots.now places.now.list) at ≡ Some result.now }
{
    in_slot(slots, places.at(at))
}

/// How many of the elements in some slots pass a test that no later one passes where an earlier one fails.
/// Cost: a look at the last one, and where it fails a binary search.
pub(crate) fn cut_at<T, P: Test<T>>(test: &P, slots: &[Option<T>], places: &RankedPlaces) -> usize
    requires held { AllByRecursion (IsHeld slots.now) places.now.list }
    requires falls { Falls (P.passed test.now) (items_at slots.now places.now.list) }
    ensures within { result ≤ length places.now.list }
    ensures cut { IsCut (P.passed test.now) result (items_at slots.now places.now.list) }
{
    let len = places.len();
    if is_cut_at(test, slots, places, len) {
        return len;
    }
    cut_between(test, slots, places, 0, len)
}

/// Whether the elements in some slots pass a test up to a place and fail it from there on. Cost: two looks.
fn is_cut_at<T, P: Test<T>>(test: &P, slots: &[Option<T>], places: &RankedPlaces, at: usize) -> bool
    requires held { AllByRecursion (IsHeld slots.now) places.now.list }
    requires falls { Falls (P.passed test.now) (items_at slots.now places.now.list) }
    requires within { at ≤ length places.now.list }
    ensures cut { result ≡ true → IsCut (P.passed test.now) at (items_at slots.now places.now.list) }
    ensures other { result ≡ false → IsCut (P.passed test.now) at (items_at slots.now places.now.list) → ⊥ }
{
    if at > 0 && !test.passes(item_at(slots, places, at - 1)) {
        return false;
    }
    at == places.len() || !test.passes(item_at(slots, places, at))
}

/// Up to which place, from `first` on and not behind `end`, the elements in some slots pass a test that no later one passes
/// where an earlier one fails. Cost: a look for each time that the places between halve.
fn cut_between<T, P: Test<T>>(
    test: &P,
    slots: &[Option<T>],
    places: &RankedPlaces,
    first: usize,
    end: usize,
) -> usize
    requires held { AllByRecursion (IsHeld slots.now) places.now.list }
    requires falls { Falls (P.passed test.now) (items_at slots.now places.now.list) }
    requires order { first ≤ end }
    requires end { end ≤ length places.now.list }
    ensures first { first ≤ result }
    ensures end { result ≤ end }
    ensures cut { IsCut (P.passed test.now) (result - first) (take (end - first) (drop first (items_at slots.now places.now.list))) }
{
    let mut low = first;
    let mut high = end;
    while low < high {
        let middle = low + (high - low) / 2;
        if test.passes(item_at(slots, places, middle)) {
            low = middle + 1;
        } else {
            high = middle;
        }
    }
    low
}

/// How many of the elements in some slots pass a test that no later one passes where an earlier one fails. Where no element
/// of a lesser rank fails and none of a greater one passes, those of this rank are the question: whether they all pass, or
/// none, or the first of them, in this order.
/// Cost: then two searches among the ranks at most, four looks at elements, and one for each time that those of this rank
/// halve; else a binary search more.
pub(crate) fn cut_near<T, P: Test<T>>(
    test: &P,
    rank: i64,
    slots: &[Option<T>],
    places: &RankedPlaces,
) -> usize
    requires held { AllByRecursion (IsHeld slots.now) places.now.list }
    requires falls { Falls (P.passed test.now) (items_at slots.now places.now.list) }
    ensures within { result ≤ length places.now.list }
    ensures cut { IsCut (P.passed test.now) result (items_at slots.now places.now.list) }
{
    let end = count_up_to(rank, places);
    if is_cut_at(test, slots, places, end) {
        return end;
    }
    let first = count_up_to(rank.saturating_sub(1), places).min(end);
    if is_cut_at(test, slots, places, first) {
        return first;
    }
    let at = cut_between(test, slots, places, first, end);
    if is_cut_at(test, slots, places, at) {
        return at;
    }
    cut_at(test, slots, places)
}
