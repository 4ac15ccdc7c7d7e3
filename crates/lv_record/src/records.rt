//! Records.
ghost use Rattle.std.specs.Prelude.{◌≡◌, ◌++◌, ◌∷◌, OnOk, OnErr};
ghost use Rattle.lv_values.specs.Print.{StaysInFront};
ghost use Rattle.lv_record.specs.Spelling as form;

use crate::actions::AnyAction;
use crate::tables::AnyTable;
use crate::views::{AnyView, Place};
use lv_forms::{Binary64, Both, Count32, Form, Listed, print_after, which};
use lv_reading::{Cursor, Stop};
use lv_schema::{Actions, Rec};
use lv_values::{Bytes, NoMemory};
use std::alloc::Global;

/// A record.
#[derive(Clone, Copy)]
pub(crate) struct AnyRecord;

/// Appends a commit.
fn print_commit(number: u64, actions: &Actions, out: &mut Bytes) -> Result<(), NoMemory>
    ensures appended { OnOk result (out.new ≡ out.old ++ (3 ∷ form.commit.text (number, actions.now))) }
    ensures front { OnErr result (StaysInFront out.old out.new) }
{
    out.push(3)?;
    Binary64.print(&number, out)?;
    Listed(Count32, AnyAction).print(actions, out)?;
    Ok(())
}

impl Form for AnyRecord {
    type Value = Rec;

    ghost form = { λ _. form.any_record };

    fn print(&self, value: &Rec, out: &mut Bytes) -> Result<(), NoMemory> {
        let mark = Both(Place, Binary64);
        match value {
            Rec::Table(def) => print_after(&[1], &AnyTable, def, out),
            Rec::View(def) => print_after(&[2], &AnyView, def, out),
            Rec::Commit { number, actions } => print_commit(*number, actions, out),
            Rec::Mark { view, upto } => print_after(&[4], &mark, &(*view, *upto), out),
        }
    }

    #[tactic(auto, unfolding(lv_forms::specs::Tables::which))]
    fn read(&self, alloc: Global, cursor: &mut Cursor<'_>) -> Result<Rec, Stop> {
        let commit = Both(Binary64, Listed(Count32, AnyAction));
        let mark = Both(Place, Binary64);
        match which(&[&[1], &[2], &[3], &[4]], cursor)? {
            0 => Ok(Rec::Table(AnyTable.read(alloc, cursor)?)),
            1 => Ok(Rec::View(AnyView.read(alloc, cursor)?)),
            2 => {
                let (number, actions) = commit.read(alloc, cursor)?;
                Ok(Rec::Commit { number, actions })
            }
            3 => {
                let (view, upto) = mark.read(alloc, cursor)?;
                Ok(Rec::Mark { view, upto })
            }
            _ => unreachable!(),
        }
    }
}
