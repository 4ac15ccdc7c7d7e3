//! A step of a view is installed in place: its difference goes into what is kept of the view, without a copy of it.
ghost use Rattle.std.specs.Prelude.{◌≡◌, ◌<◌, ◌≤◌, ◌+◌, ℕ, length, IfOk, OnErr, OnOk};
ghost use Rattle.lv_schema.specs.Differences.{difference};
ghost use Rattle.lv_schema.specs.Jobs.{new_sides, old_sides};
ghost use Rattle.lv_viewrows.specs.Changed.{CanInstall};
ghost use Rattle.lv_store.specs.Maintaining.{RoomChanges};
ghost use Rattle.lv_store.specs.Querying.{CanCompute, IsCostIn, ViewInstalled, changes_in};
ghost use Rattle.lv_store.specs.Kept.{IsStore, rows_in};

use crate::pending::install;
use crate::store::Store;
use lv_maint::{JobInput, JobResult, compute};
use lv_schema::{Forced, Signed};
use lv_values::{NoMemory, Room, Steps};
use lv_viewrows::ViewRows;
use std::alloc::Global;
use std::sync::ledger::Ledger;

/// The difference that a step gives: an offer for its very input has it, or else it is computed.
fn changes_of(alloc: Global, input: JobInput, offer: JobResult) -> Result<Signed, NoMemory>
    ensures { IfOk result (λ changes. changes ≡ difference input.def (old_sides input.parts) (new_sides input.parts)) }
{
    if offer.input().equals(&input) {
        return Ok(offer.into_inner().1);
    }
    Ok(compute(alloc, input)?.into_inner().1)
}

/// Installs a difference in what is kept of one of the views; reads below `floor` need not stay.
fn install_at(
    views: &mut [ViewRows],
    view: u32,
    hi: u64,
    changes: Signed,
    floor: u64,
) -> Result<(), NoMemory>
    requires view { view < length views.old }
    requires can { CanInstall (rows_in views.old view) hi changes }
    ensures all { length views.new ≡ length views.old }
    ensures done { OnOk result (ViewInstalled floor hi changes view views.old views.new) }
    ensures refused { OnErr result (RoomChanges view views.old views.new) }
{
    install(hi, changes, floor, &mut views[view as usize])
}

/// The same where the views are kept.
pub(crate) fn install_in(
    alloc: Global,
    view: u32,
    hi: u64,
    changes: Signed,
    floor: u64,
    rows: &mut Room<ViewRows>,
) -> Result<(), NoMemory>
    requires view { view < length rows.old.list }
    requires can { CanInstall (rows_in rows.old.list view) hi changes }
    ensures done { OnOk result (ViewInstalled floor hi changes view rows.old.list rows.new.list) }
    ensures refused { OnErr result (RoomChanges view rows.old.list rows.new.list) }
{
    let mut views = std::mem::replace(rows, Room::new(alloc)).into_vec();
    let installed = install_at(&mut views, view, hi, changes, floor);
    *rows = Room::from_vec(views);
    installed
}

impl Store {
    /// The difference that a step gives. Cost: that of the step's input, and of the difference where it is computed.
    pub(crate) fn step_changes<L: Ledger>(
        &self,
        alloc: Global,
        step: Forced,
        offer: Option<JobResult>,
        steps: &mut Steps<L>,
    ) -> Result<Signed, NoMemory>
        requires whole { IsStore self.now }
        requires can { CanCompute self.now step }
        ensures changes { IfOk result (λ changes. changes ≡ changes_in self.now step) }
        ensures most { (n : ℕ) → IsCostIn self.now step n → steps.new ≤ steps.old + n }
    {
        let Some(offer) = offer else {
            return self.difference(alloc, step, steps);
        };
        let input = self.input(alloc, step, steps)?;
        changes_of(alloc, input, offer)
    }
}
