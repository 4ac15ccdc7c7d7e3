//! Calls with ample memory, and values worked out by hand.
ghost use Rattle.std.specs.Prelude.{◌≡◌, ◌<◌};

use lv_values::{Boxed, Copying, Edit, Items, NoMemory, Room, Steps, Test, Text, TextFault};
use std::alloc::Global;
use std::marker::Brand;
use std::sync::ledger::{Blank, Ledger};

/// Whether bytes are this text.
fn is_text(alloc: Global, bytes: &[u8], wanted: &str) -> Result<bool, TextFault> {
    Ok(Text::from_bytes(alloc, bytes)?.as_str() == wanted)
}

#[test]
fn texts(rt: HostRuntime) {
    assert!(rt; matches!(is_text(rt.alloc(), b"it's", "it's"), Ok(true)));
    assert!(rt; matches!(is_text(rt.alloc(), &[255], ""), Err(TextFault::NotUtf8)));
}

struct Doubled;

impl Edit<u64> for Doubled {
    ghost use Rattle.std.specs.Prelude.{min, ◌*◌, ◌^◌, ◌-◌};

    ghost edited = { λ _ n. min (n * 2) (2 ^ 64 - 1) };

    fn edit(&self, item: &mut u64) {
        *item = item.saturating_mul(2);
    }
}

struct Small;

impl Test<u64> for Small {
    ghost use Rattle.std.specs.Prelude.{nat_lt};

    ghost passed = { λ _ n. nat_lt n 5 };

    fn passes(&self, item: &u64) -> bool {
        *item < 5
    }
}

/// A list with room, of which the doubles that are small are kept.
fn left_in_room(alloc: Global) -> Result<Room<u64>, NoMemory> {
    let mut room = Room::new(alloc);
    room.reserve(2)?;
    room.push(1u64);
    room.insert(0, 4);
    room.edit_each(&Doubled);
    room.keep(&Small);
    Ok(room)
}

#[test]
fn lists_with_room(rt: HostRuntime) {
    let left = left_in_room(rt.alloc());
    assert!(rt; left.is_ok_and(|room| room.as_slice() == [2u64].as_slice()));
}

/// A list, of which the small ones are kept and doubled.
fn left_in_list(alloc: Global) -> Result<Items<u64>, NoMemory> {
    let mut items = Items::from_slice(alloc, &[9u64, 2])?;
    items.keep(&Small);
    items.edit_each(&Doubled);
    Ok(items)
}

#[test]
fn lists(rt: HostRuntime) {
    let left = left_in_list(rt.alloc());
    assert!(rt; left.is_ok_and(|items| items.as_slice() == [4u64].as_slice()));
}

/// What a copy of a box holds, once the box is let go of.
fn copied(alloc: Global, number: u64) -> Result<u64, NoMemory> {
    let boxed = Boxed::new(alloc, number)?;
    let copy = boxed.copy(alloc);
    drop(boxed);
    Ok(copy?.into_inner())
}

#[test]
fn boxes_are_copied(rt: HostRuntime) {
    assert_eq!(rt; copied(rt.alloc(), 7), Ok(7));
}

fn ticked_twice<L: Ledger>(blank: Blank)
    requires name { blank.name ≡ L.name }
    requires parts { blank.parts ≡ L.parts }
    requires some { 0 < blank.parts }
{
    let mut steps = Steps::<L>::new(blank);
    steps.tick();
    steps.tick();
}

#[test]
fn steps_are_counted() {
    ticked_twice::<Brand>(Blank::new(1));
}
