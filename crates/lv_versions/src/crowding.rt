//! When an order of the versions that have not ended is kept.
ghost use Rattle.std.specs.Prelude.{◌≡◌, ◌+◌, ◌<◌, ℕ, List, [], true, filter, length, take};
ghost use Rattle.lv_shelf.specs.Cuts.{Apart};
ghost use Rattle.lv_shelf.specs.Shelves.{other_at};
ghost use Rattle.lv_shelf.specs.Chains.{joined};
ghost use Rattle.lv_versions.specs.Versions.{AreChains, HaveOrders, Precedes, current_of, is_open};

use crate::indexes::{CURRENT, ENDED, INDEXES};
use crate::rank::rank;
use crate::version::is_open;
use lv_schema::RowVersion;
use lv_shelf::ChainShelf;

/// Fewer chains whose newest version has ended are passed over without an order of the others.
const MANY: usize = 1024;

/// As are fewer for each one that has not ended.
const TIMES: usize = 4;

/// Whether chains whose newest version has ended are many, and many times as many as the others. Cost: constant.
fn is_crowded(versions: &ChainShelf<RowVersion>) -> bool
    ensures { result ≡ true → 1 < length versions.now.others }
{
    if versions.orders() < INDEXES {
        return false;
    }
    let open = versions.len().saturating_sub(versions.len_in(ENDED));
    let over = versions.chains().saturating_sub(open);
    over >= MANY && over / TIMES >= open
}

/// Puts the newest version of a chain last into the order of those that have not ended, if it has not.
fn enter_open(positions: &[u8], chain: usize, versions: &mut ChainShelf<RowVersion>)
    requires stand { Apart (Precedes positions.now) (joined versions.old.chains) }
    requires chained { AreChains positions.now versions.old.chains }
    requires chain { chain < length versions.old.chains }
    requires order { 1 < length versions.old.others }
    requires current { other_at versions.old.others 1 ≡ filter is_open (joined (take chain versions.old.chains)) }
    ensures current { other_at versions.new.others 1 ≡ filter is_open (joined (take (chain + 1) versions.old.chains)) }
    ensures others { (k : ℕ) → (k ≡ 1 → ⊥) → other_at versions.new.others k ≡ other_at versions.old.others k }
    ensures count { length versions.new.others ≡ length versions.old.others }
    ensures same { versions.new.chains ≡ versions.old.chains }
    ensures room { versions.new.spare ≡ versions.old.spare }
{
    let version = versions.newest(chain);
    if is_open(version) {
        let rank = rank(positions, &version.row);
        let last = versions.len_in(CURRENT);
        versions.enter(CURRENT, last, chain, rank);
    }
}

/// Puts all versions that have not ended into their order. Cost: one pass over the chains.
fn enter_all(positions: &[u8], versions: &mut ChainShelf<RowVersion>)
    requires stand { Apart (Precedes positions.now) (joined versions.old.chains) }
    requires chained { AreChains positions.now versions.old.chains }
    requires order { 1 < length versions.old.others }
    requires none { other_at versions.old.others 1 ≡ [] }
    ensures current { other_at versions.new.others 1 ≡ filter is_open (joined versions.new.chains) }
    ensures others { (k : ℕ) → (k ≡ 1 → ⊥) → other_at versions.new.others k ≡ other_at versions.old.others k }
    ensures count { length versions.new.others ≡ length versions.old.others }
    ensures same { versions.new.chains ≡ versions.old.chains }
    ensures room { versions.new.spare ≡ versions.old.spare }
{
    for chain in 0..versions.chains() {
        enter_open(positions, chain, versions);
    }
}

/// Begins to keep the order of the versions that have not ended where most have and these are many: then a pass over
/// those pays for itself. Answers whether it is kept. Cost: constant, or, once, one pass over the chains.
pub(crate) fn keep_current(
    positions: &[u8],
    kept: bool,
    versions: &mut ChainShelf<RowVersion>,
) -> bool
    requires stand { Apart (Precedes positions.now) (joined versions.old.chains) }
    requires chained { AreChains positions.now versions.old.chains }
    requires current { other_at versions.old.others 1 ≡ current_of kept (joined versions.old.chains) }
    ensures current { other_at versions.new.others 1 ≡ current_of result (joined versions.new.chains) }
    ensures orders { (indexes : List (List ℕ)) → HaveOrders positions.now indexes versions.old.spare versions.old.others (joined versions.old.chains) → HaveOrders positions.now indexes versions.new.spare versions.new.others (joined versions.new.chains) }
    ensures same { versions.new.chains ≡ versions.old.chains }
    ensures room { versions.new.spare ≡ versions.old.spare }
{
    if kept || !is_crowded(versions) {
        return kept;
    }
    enter_all(positions, versions);
    true
}
