//! What a commit needs before it is made.
ghost use Rattle.std.specs.Prelude.{◌≡◌, ◌≤◌, ◌<◌, ◌+◌, ◌^◌, ℕ, List, length, map, IfOk, OnOk};
ghost use Rattle.lv_schema.specs.Condensed.{condensed};
ghost use Rattle.lv_schema.specs.Keys.{writes_table};
ghost use Rattle.lv_schema.specs.World.{table_at};
ghost use Rattle.lv_schema.specs.declared.table.TableDef.{TableDef};
ghost use Rattle.lv_base.specs.Bases.{brought_in, indexes_in, kept_of, net_in, table_in, versions_in};

use crate::ready::Ready;
use crate::table::Table;
use crate::tables::count_all;
use lv_condense::condense_actions;
use lv_delta::Deltas;
use lv_schema::{Action, Actions, Net, Nets, TableDef};
use lv_values::{Copying, NoMemory, Rows};
use std::alloc::Global;

/// Whether one of the actions is on a table.
fn has_action(actions: &[Action], table: u32) -> bool
    ensures { result ≡ writes_table actions.now table }
{
    actions.iter().any(|action| action.table == table)
}

/// The net change that actions make of a table: of one that no action is on none, at once.
fn net_change(alloc: Global, table: &TableDef, actions: &[Action]) -> Result<Net, NoMemory>
    ensures { IfOk result (λ net. (tables : List TableDef) → table_at tables table.now.no ≡ table.now → net ≡ condensed tables actions.now table.now.no) }
{
    if has_action(actions, table.no) {
        condense_actions(alloc, table, actions)
    } else {
        Ok(Net {
            minus: Rows::new(alloc),
            plus: Rows::new(alloc),
        })
    }
}

/// The net change that actions make of each table. Cost: for each table one comparison of numbers for each action, and
/// n log n comparisons of keys for the n actions on it.
fn condense_each(alloc: Global, tables: &[Table], actions: &[Action]) -> Result<Nets, NoMemory>
    requires { (t : ℕ) → t < length tables.now → (table_in tables.now t).def.no ≡ t }
    ensures all { IfOk result (λ nets. length nets ≡ length tables.now) }
    ensures each { IfOk result (λ nets. (t : ℕ) → t < length tables.now → net_in nets t ≡ condensed (map (λ k. k.def) tables.now) actions.now t) }
{
    let mut nets = Nets::from_vec(Vec::with_capacity(alloc, tables.len())?);
    for table in tables {
        let net = net_change(alloc, table.versions().def(), actions)?;
        nets.push(net)?;
    }
    Ok(nets)
}

/// Refuses more versions than 64 bits can count, for which there is no memory.
fn check_count(tables: &[Table], nets: &[Net]) -> Result<(), NoMemory>
    requires { versions_in tables.now < 2 ^ 64 }
    ensures { OnOk result (versions_in tables.now + brought_in nets.now < 2 ^ 64) }
{
    let mut count = count_all(tables);
    for net in nets {
        match count.checked_add(net.plus.len() as u64) {
            Some(sum) => count = sum,
            None => return Err(NoMemory),
        }
    }
    Ok(())
}

/// Copies of actions, in their order.
pub(crate) fn copy_actions(alloc: Global, actions: &[Action]) -> Result<Actions, NoMemory>
    ensures { IfOk result (λ copies. copies ≡ actions.now) }
{
    let mut copies = Actions::new(alloc);
    for action in actions {
        copies.push(action.copy(alloc)?)?;
    }
    Ok(copies)
}

/// Actions, and the net change that they make of each table.
pub(crate) fn work_out(alloc: Global, tables: &[Table], actions: Actions) -> Result<Ready, NoMemory>
    requires places { (t : ℕ) → t < length tables.now → (table_in tables.now t).def.no ≡ t }
    requires counted { versions_in tables.now < 2 ^ 64 }
    ensures actions { IfOk result (λ ready. ready.actions ≡ actions) }
    ensures all { IfOk result (λ ready. length ready.nets ≡ length tables.now) }
    ensures each { IfOk result (λ ready. (t : ℕ) → t < length tables.now → net_in ready.nets t ≡ condensed (map (λ k. k.def) tables.now) actions t) }
    ensures counted { IfOk result (λ ready. versions_in tables.now + brought_in ready.nets < 2 ^ 64) }
{
    let nets = condense_each(alloc, tables, actions.as_slice())?;
    check_count(tables, nets.as_slice())?;
    Ok(Ready { actions, nets })
}

/// Makes room for the rows that net changes bring.
fn reserve_each(tables: &mut [Table], nets: &[Net]) -> Result<(), NoMemory>
    requires { length nets.now ≡ length tables.old }
    ensures same { map kept_of tables.new ≡ map kept_of tables.old }
    ensures room { OnOk result ((t : ℕ) → t < length tables.new → length (net_in nets.now t).plus ≤ (table_in tables.new t).spare) }
    ensures kept { (t : ℕ) → (table_in tables.old t).spare ≤ (table_in tables.new t).spare }
    ensures indexes { indexes_in tables.new ≡ indexes_in tables.old }
{
    for at in 0..tables.len() {
        tables[at].reserve(nets[at].plus.len() as u64)?;
    }
    Ok(())
}

/// Makes room for the rows that net changes bring, and for the actions.
pub(crate) fn reserve_all(
    tables: &mut [Table],
    deltas: &mut Deltas,
    ready: &Ready,
) -> Result<(), NoMemory>
    requires { length ready.now.nets ≡ length tables.old }
    ensures same { map kept_of tables.new ≡ map kept_of tables.old }
    ensures room { OnOk result ((t : ℕ) → t < length tables.new → length (net_in ready.now.nets t).plus ≤ (table_in tables.new t).spare) }
    ensures kept { (t : ℕ) → (table_in tables.old t).spare ≤ (table_in tables.new t).spare }
    ensures indexes { indexes_in tables.new ≡ indexes_in tables.old }
    ensures entries { deltas.new ≡ record deltas.old { spare = deltas.new.spare } }
    ensures entries_room { OnOk result (length ready.now.actions ≤ deltas.new.spare) }
    ensures entries_kept { deltas.old.spare ≤ deltas.new.spare }
{
    deltas.reserve(ready.actions.len() as u64)?;
    reserve_each(tables, ready.nets.as_slice())
}
