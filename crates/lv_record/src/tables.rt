//! Tables.
ghost use Rattle.lv_record.specs.Spelling as form;

use crate::names::Name;
use lv_forms::{Binary8, Both, Count8, Form, Listed, UpTo, which};
use lv_reading::{Cursor, Stop};
use lv_schema::{Column, Kind, TableDef};
use lv_values::{Bytes, NoMemory};
use std::alloc::Global;

/// The most columns of a table or view, and the most columns of GROUP BY.
pub(crate) const COLUMNS: UpTo<Count8> = UpTo(Count8, 16);

/// The kind of a table's column. Another one prints nothing.
#[derive(Clone, Copy)]
struct ColumnKind;

impl Form for ColumnKind {
    type Value = Kind;

    ghost form = { λ _. form.column_kind };

    fn print(&self, value: &Kind, out: &mut Bytes) -> Result<(), NoMemory> {
        match value {
            Kind::Int => out.push(1),
            Kind::Text => out.push(2),
            Kind::Big => Ok(()),
        }
    }

    #[tactic(auto, unfolding(lv_forms::specs::Tables::which))]
    fn read(&self, _alloc: Global, cursor: &mut Cursor<'_>) -> Result<Kind, Stop> {
        match which(&[&[1], &[2]], cursor)? {
            0 => Ok(Kind::Int),
            1 => Ok(Kind::Text),
            _ => unreachable!(),
        }
    }
}

/// A column: its name and its kind.
#[derive(Clone, Copy)]
struct AnyColumn;

impl Form for AnyColumn {
    type Value = Column;

    ghost form = { λ _. form.column };

    fn print(&self, value: &Column, out: &mut Bytes) -> Result<(), NoMemory> {
        Name.print(&value.name, out)?;
        ColumnKind.print(&value.kind, out)?;
        Ok(())
    }

    fn read(&self, alloc: Global, cursor: &mut Cursor<'_>) -> Result<Column, Stop> {
        let (name, kind) = Both(Name, ColumnKind).read(alloc, cursor)?;
        Ok(Column { name, kind })
    }
}

/// A table: its name, its columns and the positions of its key.
#[derive(Clone, Copy)]
pub(crate) struct AnyTable;

impl Form for AnyTable {
    type Value = TableDef;

    ghost form = { λ _. form.table_def };

    fn print(&self, value: &TableDef, out: &mut Bytes) -> Result<(), NoMemory> {
        Name.print(&value.name, out)?;
        Listed(COLUMNS, AnyColumn).print(&value.columns, out)?;
        Listed(COLUMNS, Binary8).print(&value.key, out)?;
        Ok(())
    }

    fn read(&self, alloc: Global, cursor: &mut Cursor<'_>) -> Result<TableDef, Stop> {
        let columns = Listed(COLUMNS, AnyColumn);
        let key = Listed(COLUMNS, Binary8);
        let (name, (columns, key)) = Both(Name, Both(columns, key)).read(alloc, cursor)?;
        Ok(TableDef {
            no: 0,
            name,
            columns,
            key,
        })
    }
}
