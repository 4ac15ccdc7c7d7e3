//! Lists in which nothing stands twice.
ghost use Rattle.std.specs.Prelude.{◌≡◌, ℕ, List, map, nat_eq};
ghost use Rattle.std.specs.List.{list_any};
ghost use Rattle.std.specs.Str.{bytes_eq};
ghost use Rattle.lv_schema.specs.Bound.{item_name};
ghost use Rattle.lv_schema.specs.Once.{are_apart};

use lv_schema::{Column, Item};
use lv_values::Text;

/// What has a name that may stand only once in its list.
pub(crate) trait Entry {
    ghost name_of: { Self → List ℕ };

    /// The name.
    fn name(&self) -> &Text
        ensures { result.now ≡ name_of self.now };
}

impl Entry for Column {
    ghost name_of = { λ c. c.name };

    fn name(&self) -> &Text {
        &self.name
    }
}

impl Entry for Item {
    ghost name_of = { item_name };

    fn name(&self) -> &Text {
        Item::name(self)
    }
}

/// Whether an entry has this name.
fn is_named<T: Entry>(entries: &[T], name: &Text) -> bool
    ensures { result ≡ list_any (bytes_eq name.now) (map T.name_of entries.now) }
{
    for entry in entries {
        if *name == *entry.name() {
            return true;
        }
    }
    false
}

/// Whether no two entries have the same name. Cost: a look at each pair of entries.
pub(crate) fn names_are_apart<T: Entry>(entries: &[T]) -> bool
    ensures { result ≡ are_apart bytes_eq (map T.name_of entries.now) }
{
    for (at, entry) in entries.iter().enumerate() {
        if is_named(&entries[at + 1..], entry.name()) {
            return false;
        }
    }
    true
}

/// Whether a number is among these.
fn is_among(numbers: &[u8], number: u8) -> bool
    ensures { result ≡ list_any (nat_eq number) numbers.now }
{
    numbers.iter().any(|other| number == *other)
}

/// Whether no number stands twice. Cost: a look at each pair.
pub(crate) fn numbers_are_apart(numbers: &[u8]) -> bool
    ensures { result ≡ are_apart nat_eq numbers.now }
{
    for (at, number) in numbers.iter().enumerate() {
        if is_among(&numbers[at + 1..], *number) {
            return false;
        }
    }
    true
}
