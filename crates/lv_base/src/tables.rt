//! What is done with each table.
ghost use Rattle.std.specs.Prelude.{◌≡◌, ◌≤◌, ◌<◌, ◌+◌, ◌^◌, ℕ, length};
ghost use Rattle.lv_base.specs.Bases.{CanTakeNet, indexes_in, kept_of, net_in, table_in, versions_in};
ghost use Rattle.lv_stands.specs.Moves.{TableCleaned, TableCommits};

use crate::table::Table;
use lv_schema::Nets;

/// How many versions the tables have.
pub(crate) fn count_all(tables: &[Table]) -> u64
    requires { versions_in tables.now < 2 ^ 64 }
    ensures { result ≡ versions_in tables.now }
{
    let mut count = 0;
    for table in tables {
        count += table.versions().count();
    }
    count
}

/// Each table takes its net change as the commit after `last`. It takes no memory.
pub(crate) fn commit_each(tables: &mut [Table], last: u64, mut nets: Nets)
    requires all { length nets ≡ length tables.old }
    requires each { (t : ℕ) → t < length tables.old → CanTakeNet last (net_in nets t) (table_in tables.old t) }
    requires fits { last + 1 < 2 ^ 64 }
    ensures all { length tables.new ≡ length tables.old }
    ensures each { (t : ℕ) → t < length tables.old → TableCommits last (net_in nets t) (kept_of (table_in tables.old t)) (kept_of (table_in tables.new t)) }
    ensures indexes { indexes_in tables.new ≡ indexes_in tables.old }
{
    while let Some(net) = nets.pop() {
        tables[nets.len()].commit(last, net);
    }
}

/// Drops the versions of each table that ended at or below a floor. It takes no memory.
pub(crate) fn prune_each(tables: &mut [Table], floor: u64)
    requires { (t : ℕ) → t < length tables.old → (table_in tables.old t).floor ≤ floor }
    ensures all { length tables.new ≡ length tables.old }
    ensures each { (t : ℕ) → t < length tables.old → TableCleaned floor (kept_of (table_in tables.old t)) (kept_of (table_in tables.new t)) }
    ensures room { (t : ℕ) → (table_in tables.old t).spare ≤ (table_in tables.new t).spare }
    ensures indexes { indexes_in tables.new ≡ indexes_in tables.old }
{
    for at in 0..tables.len() {
        tables[at].prune(floor);
    }
}
