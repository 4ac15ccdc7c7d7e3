//! Actions of commits.
ghost use Rattle.lv_record.specs.Spelling as form;

use crate::tables::COLUMNS;
use crate::values::AnyValue;
use crate::views::Place;
use lv_forms::{Binary32, Both, Form, Listed, which};
use lv_reading::{Cursor, Stop};
use lv_schema::{Action, ActionKind};
use lv_values::{Bytes, NoMemory};
use std::alloc::Global;

/// Whether a row comes or goes.
#[derive(Clone, Copy)]
struct AnyKind;

impl Form for AnyKind {
    type Value = ActionKind;

    ghost form = { λ _. form.action_kind };

    fn print(&self, value: &ActionKind, out: &mut Bytes) -> Result<(), NoMemory> {
        match value {
            ActionKind::Insert => out.push(1),
            ActionKind::Delete => out.push(2),
        }
    }

    #[tactic(auto, unfolding(lv_forms::specs::Tables::which))]
    fn read(&self, _alloc: Global, cursor: &mut Cursor<'_>) -> Result<ActionKind, Stop> {
        match which(&[&[1], &[2]], cursor)? {
            0 => Ok(ActionKind::Insert),
            1 => Ok(ActionKind::Delete),
            _ => unreachable!(),
        }
    }
}

/// An action: its table, its statement, its kind and its row.
#[derive(Clone, Copy)]
pub(crate) struct AnyAction;

impl Form for AnyAction {
    type Value = Action;

    ghost form = { λ _. form.action };

    fn print(&self, value: &Action, out: &mut Bytes) -> Result<(), NoMemory> {
        Both(Place, Binary32).print(&(value.table, value.statement), out)?;
        AnyKind.print(&value.kind, out)?;
        Listed(COLUMNS, AnyValue).print(&value.row, out)?;
        Ok(())
    }

    fn read(&self, alloc: Global, cursor: &mut Cursor<'_>) -> Result<Action, Stop> {
        let row = Listed(COLUMNS, AnyValue);
        let ((table, statement), (kind, row)) = Both(
            Both(Place, Binary32),
            Both(AnyKind, row),
        ).read(alloc, cursor)?;
        Ok(Action {
            table,
            statement,
            kind,
            row,
        })
    }
}
