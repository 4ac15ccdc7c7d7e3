//! The places that the three policies choose.
ghost use Rattle.std.specs.Prelude.{◌≡◌, ◌<◌, length};
ghost use Rattle.lv_schema.specs.Policies.{chosen};
ghost use Rattle.lv_picker.specs.Choices.{is_better};

use lv_schema::Pending;

/// Whether a policy takes the one view rather than the other.
fn is_better(kind: u8, a: &Pending, b: &Pending) -> bool
    ensures { result ≡ is_better kind a.now b.now }
{
    match kind {
        0 => a.oldest < b.oldest,
        1 => a.actions > b.actions,
        _ => a.view < b.view,
    }
}

/// The place of the view that a policy takes before all others; of several the one that stands first.
fn place(kind: u8, list: &[Pending]) -> usize
    ensures { result ≡ chosen kind list.now }
{
    let mut best = 0;
    for (at, pending) in list.iter().enumerate() {
        if is_better(kind, pending, &list[best]) {
            best = at;
        }
    }
    best
}

/// The place of the view whose oldest task is the oldest, the first one of several; 0 in an empty list.
/// Cost: one pass.
pub fn place_of_oldest(list: &[Pending]) -> usize
    ensures { result ≡ chosen 0 list.now }
{
    place(0, list)
}

/// The place of the view whose tasks have the most actions, the first one of several; 0 in an empty list.
/// Cost: one pass.
pub fn place_of_most(list: &[Pending]) -> usize
    ensures { result ≡ chosen 1 list.now }
{
    place(1, list)
}

/// The place of the view with the least number; 0 in an empty list. Cost: one pass.
pub fn place_of_first(list: &[Pending]) -> usize
    ensures { result ≡ chosen 2 list.now }
{
    place(2, list)
}
