//! About where a search ends, by the ranks of slots.
ghost use Rattle.std.specs.Prelude.{◌≤◌, ◌<◌, length};

use crate::ranked_places::RankedPlaces;

/// Fewer places than these are searched by halves at once.
const MANY: usize = 32;

/// Numbers from this one on are wide: a product with a number of places may not fit 64 bits.
const WIDE: u64 = 1 << 40;

/// What wide numbers are divided by.
const COARSE: u64 = 1 << 24;

/// Whether the slot at a place has a rank up to one.
fn is_up_to(rank: i64, places: &RankedPlaces, at: usize) -> bool
    requires { at < length places.now.list }
{
    places.rank(places.at(at)) <= rank
}

/// So many of some places as the part is of the span. Wide numbers lose their last bits, and the product is exact.
fn share_of(places: usize, part: u64, span: u64) -> usize {
    let (part, span) = if span < WIDE {
        (part, span)
    } else {
        (part / COARSE, span / COARSE)
    };
    (part.saturating_mul(places as u64) / span.saturating_add(1)) as usize
}

/// Two places between which the ranks pass one, behind a place. Cost: a look, and one more for each time that the distance
/// from there fourfolds.
fn bounds_above(rank: i64, places: &RankedPlaces, at: usize) -> (usize, usize)
    requires { at < length places.now.list }
    ensures order { result.0 ≤ result.1 }
    ensures within { result.1 ≤ length places.now.list }
{
    let len = places.len();
    let mut low = at + 1;
    let mut step: usize = 0;
    while step < len - low {
        let next = low + step;
        if !is_up_to(rank, places, next) {
            return (low, next);
        }
        low = next + 1;
        step = step.saturating_mul(4).saturating_add(3);
    }
    (low, len)
}

/// Two places between which the ranks pass one, before a place, at the same cost.
fn bounds_below(rank: i64, places: &RankedPlaces, at: usize) -> (usize, usize)
    requires { at ≤ length places.now.list }
    ensures order { result.0 ≤ result.1 }
    ensures within { result.1 ≤ length places.now.list }
{
    let mut high = at;
    let mut step: usize = 1;
    while step < high {
        let next = high - step;
        if is_up_to(rank, places, next) {
            return (next + 1, high);
        }
        high = next;
        step = step.saturating_mul(4);
    }
    (0, high)
}

/// Two places between which the ranks pass one: near the place up to which they would be up to it if as many slots had each
/// rank from the first one to the last.
fn bounds_near(rank: i64, places: &RankedPlaces) -> (usize, usize)
    ensures order { result.0 ≤ result.1 }
    ensures within { result.1 ≤ length places.now.list }
{
    let len = places.len();
    if len < MANY {
        return (0, len);
    }
    let first = places.rank(places.at(0));
    let last = places.rank(places.at(len - 1));
    if rank < first {
        return (0, 0);
    }
    if rank >= last {
        return (len, len);
    }
    let part = rank.abs_diff(first).saturating_add(1);
    let at = share_of(len, part, last.abs_diff(first)).min(len - 1);
    if is_up_to(rank, places, at) {
        bounds_above(rank, places, at)
    } else {
        bounds_below(rank, places, at)
    }
}

/// How many slots have a rank up to one, where the ranks do not fall. Cost: a few looks at ranks where they rise evenly, and
/// never more than those of two binary searches.
pub(crate) fn count_up_to(rank: i64, places: &RankedPlaces) -> usize
    ensures within { result ≤ length places.now.list }
{
    let (mut low, mut high) = bounds_near(rank, places);
    while low < high {
        let middle = low + (high - low) / 2;
        if is_up_to(rank, places, middle) {
            low = middle + 1;
        } else {
            high = middle;
        }
    }
    low
}
