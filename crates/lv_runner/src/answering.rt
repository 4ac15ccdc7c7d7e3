//! The statements of a program, answered without being written yet.
ghost use Rattle.std.specs.Prelude.{◌≡◌, ◌+◌, ◌≤◌, ◌<◌, [], ℕ, false, length, OnErr, OnOk};
ghost use Rattle.lv_plain.specs.Programs.{has_more, lines_of, session_count};
ghost use Rattle.lv_runner.specs.Following.{GoesOn, HasCome, HasFollowed, MayFollow};
ghost use Rattle.lv_runner.specs.Late.{IsAnswered};
ghost use Rattle.lv_runner.specs.Rounds.{HasTurnedOnce, IsRoundDone};

use crate::following::answer_event;
use lv_core::Core;
use lv_outside::Disk;
use lv_plain::{Event, Program};
use lv_values::{Items, NoMemory, Steps};
use std::alloc::Global;
use std::sync::ledger::Ledger;

/// Answers these events, one after another, from the begin of the program.
pub(crate) fn answer_all<D: Disk, L: Ledger>(
    alloc: Global,
    core: &mut Core<D>,
    events: &[Event],
    steps: &mut Steps<L>,
) -> Result<(), NoMemory>
    requires fresh { core.old.run.entries ≡ [] }
    requires may { MayFollow core.old.run.program events.now }
    ensures same { GoesOn core.old.run core.new.run }
    ensures followed { OnOk result (HasFollowed core.new.run events.now) }
    ensures come { OnErr result (HasCome core.new.run events.now) }
{
    core.known();
    for event in events {
        answer_event(alloc, core, event, steps)?;
    }
    Ok(())
}

/// Answers the next statement of a session, where it has one that may be answered now.
fn answer_one<D: Disk, L: Ledger>(
    alloc: Global,
    core: &mut Core<D>,
    session: u32,
    steps: &mut Steps<L>,
) -> Result<(), NoMemory>
    requires known { session < session_count core.old.run.program }
    ensures same { GoesOn core.old.run core.new.run }
    ensures turned { OnOk result (HasTurnedOnce core.old.run core.new.run session) }
{
    if !core.left(session) {
        return Ok(());
    }
    core.known();
    core.turn(alloc, session, Items::new(alloc), steps)
}

/// Answers what is left of the setup.
pub(crate) fn answer_setup<D: Disk, L: Ledger>(
    alloc: Global,
    core: &mut Core<D>,
    steps: &mut Steps<L>,
) -> Result<(), NoMemory>
    ensures same { GoesOn core.old.run core.new.run }
    ensures answered { OnOk result (has_more core.new.run.program core.new.run.places 0 ≡ false) }
{
    core.known();
    for _ in 0..core.program().setup.len() {
        answer_one(alloc, core, 0, steps)?;
    }
    Ok(())
}

/// Answers one statement of each session that has one left.
fn answer_round<D: Disk, L: Ledger>(
    alloc: Global,
    core: &mut Core<D>,
    round: usize,
    steps: &mut Steps<L>,
) -> Result<(), NoMemory>
    requires before { IsRoundDone core.old.run round 1 }
    ensures same { GoesOn core.old.run core.new.run }
    ensures done { OnOk result (IsRoundDone core.new.run (round + 1) 1) }
{
    core.known();
    for at in 0..core.program().sessions.len() {
        answer_one(alloc, core, at as u32 + 1, steps)?;
    }
    Ok(())
}

/// The most statements that a session has.
fn most_statements(program: &Program) -> usize
    ensures { (session : ℕ) → 1 ≤ session → session < session_count program.now → length (lines_of program.now session) ≤ result }
{
    let mut most = 0;
    for session in program.sessions.as_slice() {
        most = most.max(session.lines.len());
    }
    most
}

/// Answers what is left: the setup's statements, and then those of the sessions, in rounds.
pub(crate) fn answer_rest<D: Disk, L: Ledger>(
    alloc: Global,
    core: &mut Core<D>,
    steps: &mut Steps<L>,
) -> Result<(), NoMemory>
    ensures same { GoesOn core.old.run core.new.run }
    ensures answered { OnOk result (IsAnswered core.new.run) }
{
    answer_setup(alloc, core, steps)?;
    let rounds = most_statements(core.program());
    for round in 0..rounds {
        answer_round(alloc, core, round, steps)?;
    }
    Ok(())
}
