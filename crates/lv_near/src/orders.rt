//! The indexes in which steps of a view look rows up.
ghost use Rattle.std.specs.Prelude.{◌≡◌, true, length, nat_lt, OnOk};
ghost use Rattle.std.specs.List.{AllByRecursion, list_all};
ghost use Rattle.lv_base.specs.Bases.{IsReindexed, KeepsIndexes};
ghost use Rattle.lv_near.specs.Orders.{HasBothIndexes, HasEndIndex, HasLinkIndexes};

use lv_base::Base;
use lv_reach::{Link, columns_to, links};
use lv_schema::ViewDef;
use lv_values::NoMemory;
use std::alloc::Global;

/// Adds the index by those columns of an alias's table that are linked to another alias.
fn index_columns(
    alloc: Global,
    base: &mut Base,
    tables: &[u32],
    links: &[Link],
    from: u8,
    to: u8,
) -> Result<(), NoMemory>
    requires { list_all (λ t. nat_lt t (length base.old.tables)) tables.now ≡ true }
    ensures same { IsReindexed base.old base.new }
    ensures kept { KeepsIndexes base.old base.new }
    ensures there { OnOk result (HasEndIndex base.new tables.now links.now from to) }
{
    match tables.get(to as usize) {
        Some(table) => {
            let columns = columns_to(alloc, links, from, to)?;
            base.add_index(*table, columns.as_slice())
        }
        None => Ok(()),
    }
}

/// Adds the indexes for both ends of each link.
fn index_each(
    alloc: Global,
    base: &mut Base,
    tables: &[u32],
    links: &[Link],
) -> Result<(), NoMemory>
    requires { list_all (λ t. nat_lt t (length base.old.tables)) tables.now ≡ true }
    ensures same { IsReindexed base.old base.new }
    ensures kept { KeepsIndexes base.old base.new }
    ensures there { OnOk result (AllByRecursion (HasBothIndexes base.new tables.now links.now) links.now) }
{
    for link in links {
        let left = link.left.alias;
        let right = link.right.alias;
        index_columns(alloc, base, tables, links, left, right)?;
        index_columns(alloc, base, tables, links, right, left)?;
    }
    Ok(())
}

/// Adds the indexes in which steps of a view look rows up: for both ends of each link, of the table of that alias by the
/// columns that are linked. Those that there are stay, and all else does not change, also for want of memory.
/// Cost: for each that is new a binary search and a move of small numbers for each version.
pub fn index_links(alloc: Global, base: &mut Base, def: &ViewDef) -> Result<(), NoMemory>
    requires { list_all (λ t. nat_lt t (length base.old.tables)) def.now.tables ≡ true }
    ensures same { IsReindexed base.old base.new }
    ensures kept { KeepsIndexes base.old base.new }
    ensures there { OnOk result (HasLinkIndexes base.new def.now) }
{
    let links = links(alloc, def)?;
    index_each(alloc, base, def.tables.as_slice(), links.as_slice())
}
