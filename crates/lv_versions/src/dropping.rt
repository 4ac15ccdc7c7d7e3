//! Versions that a clean-up drops.
ghost use Rattle.std.specs.Prelude.{◌≡◌, ℕ, ◌+◌, ◌<◌, ◌≤◌, length, filter, slice_get, Some, true};
ghost use Rattle.std.specs.List.{AllByRecursion, remove};
ghost use Rattle.lv_shelf.specs.Cuts.{Apart, IsCut};
ghost use Rattle.lv_shelf.specs.Shelves.{other_at};
ghost use Rattle.lv_schema.specs.declared.version.RowVersion.{RowVersion};
ghost use Rattle.lv_shelf.specs.Chains.{joined};
ghost use Rattle.lv_versions.specs.Versions.{AreChains, AreOrders, HaveOrders, Lived, Precedes, ends_after, is_open, is_over};

use crate::indexes::{ENDED, INDEXES, leave_each};
use crate::rank::rank;
use crate::version::{ComesBefore, EndsAfter, IsOver};
use lv_schema::{Positions, RowVersion};
use lv_shelf::ChainShelf;

/// Up to so many versions are dropped one by one.
const FEW: usize = 64;

/// Drops the version that ended first, which is the oldest of its chain. Cost: a binary search, a move of small numbers for
/// each index, and one more where its chain goes.
fn drop_first(positions: &[u8], indexes: &[Positions], versions: &mut ChainShelf<RowVersion>)
    requires stand { Apart (Precedes positions.now) (joined versions.old.chains) }
    requires chained { AreChains positions.now versions.old.chains }
    requires lived { AllByRecursion Lived (joined versions.old.chains) }
    requires orders { AreOrders positions.now indexes.now versions.old.others (joined versions.old.chains) }
    requires some { 0 < length (other_at versions.old.others 0) }
    requires unended { AllByRecursion (λ v. is_open v ≡ true) (other_at versions.old.others 1) }
    ensures current { other_at versions.new.others 1 ≡ other_at versions.old.others 1 }
    ensures stand { Apart (Precedes positions.now) (joined versions.new.chains) }
    ensures chained { AreChains positions.now versions.new.chains }
    ensures lived { AllByRecursion Lived (joined versions.new.chains) }
    ensures orders { AreOrders positions.now indexes.now versions.new.others (joined versions.new.chains) }
    ensures rest { other_at versions.new.others 0 ≡ remove (other_at versions.old.others 0) 0 }
    ensures kept { (v : RowVersion) (floor : ℕ) → slice_get (other_at versions.old.others 0) 0 ≡ Some v → is_over floor v ≡ true → filter (λ w. ends_after floor w.until) (joined versions.new.chains) ≡ filter (λ w. ends_after floor w.until) (joined versions.old.chains) }
    ensures room { versions.old.spare ≤ versions.new.spare }
{
    let first = versions.get_in(ENDED, 0);
    let below = ComesBefore {
        positions,
        row: &first.row,
        number: 0,
    };
    let chain = versions.cut_near(rank(positions, &first.row), &below);
    let _oldest = versions.oldest(chain);
    versions.leave(ENDED, 0);
    leave_each(positions, indexes, chain, versions);
    versions.shorten(chain);
}

/// Drops the first so many ended versions, which are those that ended at or below a floor.
fn drop_each(
    positions: &[u8],
    indexes: &[Positions],
    floor: u64,
    many: usize,
    versions: &mut ChainShelf<RowVersion>,
)
    requires stand { Apart (Precedes positions.now) (joined versions.old.chains) }
    requires chained { AreChains positions.now versions.old.chains }
    requires lived { AllByRecursion Lived (joined versions.old.chains) }
    requires orders { AreOrders positions.now indexes.now versions.old.others (joined versions.old.chains) }
    requires over { IsCut (is_over floor) many (other_at versions.old.others 0) }
    requires unended { AllByRecursion (λ v. is_open v ≡ true) (other_at versions.old.others 1) }
    ensures current { other_at versions.new.others 1 ≡ other_at versions.old.others 1 }
    ensures chained { AreChains positions.now versions.new.chains }
    ensures kept { (joined versions.new.chains) ≡ filter (λ v. ends_after floor v.until) (joined versions.old.chains) }
    ensures orders { AreOrders positions.now indexes.now versions.new.others (joined versions.new.chains) }
    ensures room { versions.old.spare ≤ versions.new.spare }
{
    for _ in 0..many {
        drop_first(positions, indexes, versions);
    }
}

/// Drops the versions that ended at or below a floor. Cost: where they are few, a binary search for each, and a search and a
/// move of small numbers for each index, or else a pass over the chains, and one over the small numbers of each index; and a
/// move of small numbers for each chain that goes.
pub(crate) fn drop_over(
    positions: &[u8],
    indexes: &[Positions],
    floor: u64,
    versions: &mut ChainShelf<RowVersion>,
)
    requires stand { Apart (Precedes positions.now) (joined versions.old.chains) }
    requires chained { AreChains positions.now versions.old.chains }
    requires lived { AllByRecursion Lived (joined versions.old.chains) }
    requires orders { HaveOrders positions.now indexes.now versions.old.spare versions.old.others (joined versions.old.chains) }
    requires unended { AllByRecursion (λ v. is_open v ≡ true) (other_at versions.old.others 1) }
    ensures current { other_at versions.new.others 1 ≡ other_at versions.old.others 1 }
    ensures chained { AreChains positions.now versions.new.chains }
    ensures kept { (joined versions.new.chains) ≡ filter (λ v. ends_after floor v.until) (joined versions.old.chains) }
    ensures orders { HaveOrders positions.now indexes.now versions.new.spare versions.new.others (joined versions.new.chains) }
    ensures room { versions.old.spare ≤ versions.new.spare }
{
    if versions.orders() < INDEXES {
        return;
    }
    let many = versions.cut_in(ENDED, &IsOver { floor });
    if many <= FEW {
        drop_each(positions, indexes, floor, many, versions);
    } else {
        versions.keep(&EndsAfter { floor });
    }
}
