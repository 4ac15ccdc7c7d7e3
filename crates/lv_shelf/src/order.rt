//! Numbers of slots in an order.
ghost use Rattle.std.specs.Prelude.{◌≡◌, ℕ, ◌+◌, ◌≤◌, ◌<◌, [], length, filter, map, OnOk, vec_capacity};
ghost use Rattle.std.specs.List.{insert, remove};
ghost use Rattle.lv_shelf.specs.Shelves.{HaveRoom, is_taken, lists_of, passes_in};

use crate::ranked_places::RankedPlaces;
use crate::slots::passes_in;
use lv_values::{Any, NoMemory, Test};

/// Keeps the numbers of the slots whose elements pass. Cost: one pass over the numbers.
fn keep_passing<T, P: Test<T>>(test: &P, slots: &[Option<T>], order: &mut RankedPlaces)
    ensures kept { order.new.list ≡ filter (passes_in (P.passed test.now) slots.now) order.old.list }
    ensures room { order.new.room ≡ order.old.room }
{
    let mut kept = 0;
    for at in 0..order.len() {
        let slot = order.at(at);
        if passes_in(test, slots, slot) {
            order.set(kept, slot);
            kept += 1;
        }
    }
    order.truncate(kept);
}

/// Keeps the numbers of slots that have elements. Cost: one pass over the numbers.
pub(crate) fn keep_taken<T>(slots: &[Option<T>], order: &mut RankedPlaces)
    ensures kept { order.new.list ≡ filter (is_taken slots.now) order.old.list }
    ensures room { order.new.room ≡ order.old.room }
{
    keep_passing(&Any, slots, order);
}

/// Makes room for so many numbers in all.
fn reserve_to(places: &mut Vec<u32>, room: usize) -> Result<(), NoMemory>
    ensures same { places.new.items ≡ places.old.items }
    ensures room { OnOk result (room ≤ vec_capacity places.new) }
    ensures kept { vec_capacity places.old ≤ vec_capacity places.new }
{
    let len = places.len();
    if room > len {
        places.reserve(room - len)?;
    }
    Ok(())
}

/// Makes room for so many slots more, and for their numbers and ranks in every order.
pub(crate) fn make_room<T>(
    more: usize,
    slots: &mut Vec<Option<T>>,
    order: &mut RankedPlaces,
    free: &mut Vec<u32>,
    others: &mut Vec<RankedPlaces>,
) -> Result<(), NoMemory>
    ensures slots { slots.new.items ≡ slots.old.items }
    ensures order { order.new.list ≡ order.old.list }
    ensures free { free.new.items ≡ free.old.items }
    ensures others { lists_of others.new.items ≡ lists_of others.old.items }
    ensures slots_room { OnOk result (length slots.old.items + more ≤ vec_capacity slots.new) }
    ensures order_room { OnOk result (length slots.old.items + more ≤ order.new.room) }
    ensures free_room { OnOk result (length slots.old.items + more ≤ vec_capacity free.new) }
    ensures others_room { OnOk result (HaveRoom (length slots.old.items + more) others.new.items) }
    ensures order_kept { order.old.room ≤ order.new.room }
    ensures free_kept { vec_capacity free.old ≤ vec_capacity free.new }
    ensures others_kept { (n : ℕ) → HaveRoom n others.old.items → HaveRoom n others.new.items }
{
    make_room_beside(more, slots, free, others)?;
    order.reserve(slots.len() + more)
}

/// Makes room for so many slots more, and for their numbers and ranks in every further order.
pub(crate) fn make_room_beside<T>(
    more: usize,
    slots: &mut Vec<Option<T>>,
    free: &mut Vec<u32>,
    others: &mut Vec<RankedPlaces>,
) -> Result<(), NoMemory>
    ensures slots { slots.new.items ≡ slots.old.items }
    ensures free { free.new.items ≡ free.old.items }
    ensures others { lists_of others.new.items ≡ lists_of others.old.items }
    ensures slots_room { OnOk result (length slots.old.items + more ≤ vec_capacity slots.new) }
    ensures free_room { OnOk result (length slots.old.items + more ≤ vec_capacity free.new) }
    ensures others_room { OnOk result (HaveRoom (length slots.old.items + more) others.new.items) }
    ensures free_kept { vec_capacity free.old ≤ vec_capacity free.new }
    ensures others_kept { (n : ℕ) → HaveRoom n others.old.items → HaveRoom n others.new.items }
{
    let Some(room) = slots.len().checked_add(more) else {
        return Err(NoMemory);
    };
    slots.reserve(more)?;
    reserve_to(free, room)?;
    reserve_each(others, room)
}

/// Makes room for so many numbers in all, in each order.
fn reserve_each(orders: &mut Vec<RankedPlaces>, room: usize) -> Result<(), NoMemory>
    ensures same { lists_of orders.new.items ≡ lists_of orders.old.items }
    ensures room { OnOk result (HaveRoom room orders.new.items) }
    ensures kept { (n : ℕ) → HaveRoom n orders.old.items → HaveRoom n orders.new.items }
{
    for i in 0..orders.len() {
        orders[i].reserve(room)?;
    }
    Ok(())
}

/// Keeps, in each order, the numbers of the slots whose elements pass.
pub(crate) fn keep_each<T, P: Test<T>>(
    test: &P,
    slots: &[Option<T>],
    orders: &mut Vec<RankedPlaces>,
)
    ensures kept { lists_of orders.new.items ≡ map (filter (passes_in (P.passed test.now) slots.now)) (lists_of orders.old.items) }
    ensures room { (n : ℕ) → HaveRoom n orders.old.items → HaveRoom n orders.new.items }
{
    for i in 0..orders.len() {
        keep_passing(test, slots, &mut orders[i]);
    }
}
