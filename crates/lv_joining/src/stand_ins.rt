//! Rows that stand for others: those of the same key with the same values in the linked columns.
ghost use Rattle.std.specs.Prelude.{◌≡◌, ◌↔◌, ◌++◌, List, map, true, IfOk, OnOk};
ghost use Rattle.lv_values.specs.declared.value.Value.{Value as AValue};
ghost use Rattle.lv_values.specs.Rows.{key_cmp};
ghost use Rattle.lv_schema.specs.Nets.{net_of};
ghost use Rattle.lv_schema.specs.Once.{Ascends};
ghost use Rattle.lv_joining.specs.Joining.{HaveStandIns, are_met, if_of, linked_columns, stands_for};

use lv_condense::NetRows;
use lv_reach::Link;
use lv_schema::Col;
use lv_values::{Bytes, NoMemory, Row, compare_keys};
use std::alloc::Global;

/// Puts a column behind the others, if it is one of this alias.
fn add_if_of(columns: &mut Bytes, alias: u8, col: Col) -> Result<(), NoMemory>
    ensures { OnOk result (columns.new ≡ columns.old ++ if_of alias col) }
{
    if col.alias == alias {
        columns.push(col.column)?;
    }
    Ok(())
}

/// The columns of an alias that links name, in their order. Cost: linear in the links.
#[tactic(auto, using(crate::proofs::Meeting::columns_step))]
fn linked_columns(alloc: Global, links: &[Link], alias: u8) -> Result<Bytes, NoMemory>
    ensures { IfOk result (λ columns. columns ≡ linked_columns links.now alias) }
{
    let mut columns = Bytes::new(alloc);
    for link in links {
        add_if_of(&mut columns, alias, link.left)?;
        add_if_of(&mut columns, alias, link.right)?;
    }
    Ok(columns)
}

/// Whether a row has the key of another, and its values in some columns.
fn stands_for(key: &[u8], columns: &[u8], row: &Row, new: &Row) -> bool
    ensures { result ≡ stands_for key.now columns.now row.now new.now }
{
    compare_keys(key, row, new).is_eq() && compare_keys(columns, row, new).is_eq()
}

/// Whether the rows have stand-ins among the others, in their order. Cost: linear in both.
fn are_met(key: &[u8], columns: &[u8], rows: &[&Row], others: &[&Row]) -> bool
    ensures { result ≡ are_met key.now columns.now (map (λ row. row.now) rows.now) (map (λ row. row.now) others.now) }
{
    let mut met = 0;
    for new in others {
        if met < rows.len() && stands_for(key, columns, rows[met], new) {
            met += 1;
        }
    }
    met == rows.len()
}

/// Whether each of an alias's rows stays or becomes one of the same key with the same values in the linked columns, where
/// this is their net change. Cost: linear in the links and in the rows that go or come.
pub(crate) fn have_stand_ins(
    alloc: Global,
    links: &[Link],
    alias: u8,
    key: &[u8],
    net: &NetRows<'_>,
) -> Result<bool, NoMemory>
    ensures { (before after : List (List AValue)) → Ascends (key_cmp key.now) before → Ascends (key_cmp key.now) after → net.now ≡ net_of before after
        → IfOk result (λ keeps. (keeps ≡ true) ↔ HaveStandIns key.now (linked_columns links.now alias) before after) }
{
    let columns = linked_columns(alloc, links, alias)?;
    Ok(are_met(key, columns.as_slice(), net.minus(), net.plus()))
}
