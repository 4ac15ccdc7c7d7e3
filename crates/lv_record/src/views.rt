//! Views.
ghost use Rattle.std.specs.Prelude.{◌≡◌, ◌++◌, ◌∷◌, OnOk, OnErr};
ghost use Rattle.lv_reading.specs.Reading.{Gives};
ghost use Rattle.lv_values.specs.Print.{StaysInFront};
ghost use Rattle.lv_record.specs.Spelling as form;

use crate::conds::{AnyCol, AnyCond};
use crate::names::Name;
use crate::tables::COLUMNS;
use lv_forms::{Binary64, Both, Count8, Form, Listed, UpTo, print_after, which};
use lv_reading::{Cursor, Stop};
use lv_schema::{Col, Cols, Cond, Item, TableNumbers, ViewDef, ViewItems};
use lv_values::{Bytes, NoMemory, Text};
use std::alloc::Global;

/// The most tables of a view.
const ALIASES: UpTo<Count8> = UpTo(Count8, 4);

/// The number of a table or view in a byte. Of a greater one the lowest byte is printed.
#[derive(Clone, Copy)]
pub(crate) struct Place;

impl Form for Place {
    ghost use Rattle.lv_forms.specs.Forms.{binary};

    type Value = u32;

    ghost form = { λ _. binary 1 };

    fn print(&self, value: &u32, out: &mut Bytes) -> Result<(), NoMemory> {
        out.push((*value % 256) as u8)?;
        Ok(())
    }

    fn read(&self, _alloc: Global, cursor: &mut Cursor<'_>) -> Result<u32, Stop> {
        let place = cursor.byte()?;
        Ok(u32::from(place))
    }
}

/// One item of a list.
#[derive(Clone, Copy)]
struct AnyItem;

/// Appends a column and the name that it has.
fn print_named(kind: u8, col: Col, name: &Text, out: &mut Bytes) -> Result<(), NoMemory>
    ensures appended { OnOk result (out.new ≡ out.old ++ (kind ∷ (form.col.text col ++ form.name.text name.now))) }
    ensures front { OnErr result (StaysInFront out.old out.new) }
{
    out.push(kind)?;
    AnyCol.print(&col, out)?;
    Name.print(name, out)?;
    Ok(())
}

impl Form for AnyItem {
    type Value = Item;

    ghost form = { λ _. form.any_item };

    fn print(&self, value: &Item, out: &mut Bytes) -> Result<(), NoMemory> {
        match value {
            Item::Plain { col, name } => print_named(1, *col, name, out),
            Item::Sum { col, name } => print_named(2, *col, name, out),
            Item::Count { name } => print_after(&[3], &Name, name, out),
        }
    }

    #[tactic(auto, unfolding(lv_forms::specs::Tables::which))]
    fn read(&self, alloc: Global, cursor: &mut Cursor<'_>) -> Result<Item, Stop> {
        match which(&[&[1], &[2], &[3]], cursor)? {
            0 => {
                let (col, name) = Both(AnyCol, Name).read(alloc, cursor)?;
                Ok(Item::Plain { col, name })
            }
            1 => {
                let (col, name) = Both(AnyCol, Name).read(alloc, cursor)?;
                Ok(Item::Sum { col, name })
            }
            2 => Ok(Item::Count {
                name: Name.read(alloc, cursor)?,
            }),
            _ => unreachable!(),
        }
    }
}

/// Whether something is so.
#[derive(Clone, Copy)]
struct Flag;

impl Form for Flag {
    type Value = bool;

    ghost form = { λ _. form.flag };

    fn print(&self, value: &bool, out: &mut Bytes) -> Result<(), NoMemory> {
        out.push(if *value { 1 } else { 0 })
    }

    #[tactic(auto, unfolding(lv_forms::specs::Tables::which))]
    fn read(&self, _alloc: Global, cursor: &mut Cursor<'_>) -> Result<bool, Stop> {
        match which(&[&[0], &[1]], cursor)? {
            0 => Ok(false),
            1 => Ok(true),
            _ => unreachable!(),
        }
    }
}

type Head = (Text, (u64, (TableNumbers, Cond)));

type Tail = (ViewItems, (bool, Cols));

/// Appends the name, the commit of the creation, the tables and the condition.
fn print_head(value: &ViewDef, out: &mut Bytes) -> Result<(), NoMemory>
    ensures appended { OnOk result (out.new ≡ out.old ++ form.view_head.text (form.view_parts value.now).0) }
    ensures front { OnErr result (StaysInFront out.old out.new) }
{
    Name.print(&value.name, out)?;
    Binary64.print(&value.created, out)?;
    Listed(ALIASES, Place).print(&value.tables, out)?;
    AnyCond.print(&value.cond, out)?;
    Ok(())
}

/// Appends the list, whether it is grouped, and the columns of GROUP BY.
fn print_tail(value: &ViewDef, out: &mut Bytes) -> Result<(), NoMemory>
    ensures appended { OnOk result (out.new ≡ out.old ++ form.view_tail.text (form.view_parts value.now).1) }
    ensures front { OnErr result (StaysInFront out.old out.new) }
{
    Listed(COLUMNS, AnyItem).print(&value.items, out)?;
    Flag.print(&value.grouped, out)?;
    Listed(COLUMNS, AnyCol).print(&value.groups, out)?;
    Ok(())
}

fn read_head(alloc: Global, cursor: &mut Cursor<'_>) -> Result<Head, Stop>
    ensures { Gives (form.view_head.read cursor.old) result cursor.new }
{
    let tables = Listed(ALIASES, Place);
    Both(Name, Both(Binary64, Both(tables, AnyCond))).read(alloc, cursor)
}

fn read_tail(alloc: Global, cursor: &mut Cursor<'_>) -> Result<Tail, Stop>
    ensures { Gives (form.view_tail.read cursor.old) result cursor.new }
{
    let items = Listed(COLUMNS, AnyItem);
    let groups = Listed(COLUMNS, AnyCol);
    Both(items, Both(Flag, groups)).read(alloc, cursor)
}

/// A view.
#[derive(Clone, Copy)]
pub(crate) struct AnyView;

impl Form for AnyView {
    type Value = ViewDef;

    ghost form = { λ _. form.view_def };

    fn print(&self, value: &ViewDef, out: &mut Bytes) -> Result<(), NoMemory> {
        print_head(value, out)?;
        print_tail(value, out)?;
        Ok(())
    }

    fn read(&self, alloc: Global, cursor: &mut Cursor<'_>) -> Result<ViewDef, Stop> {
        let (name, (created, (tables, cond))) = read_head(alloc, cursor)?;
        let (items, (grouped, groups)) = read_tail(alloc, cursor)?;
        Ok(ViewDef {
            no: 0,
            name,
            created,
            tables,
            cond,
            items,
            grouped,
            groups,
        })
    }
}
