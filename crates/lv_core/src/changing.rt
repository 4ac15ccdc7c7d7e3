//! INSERT, UPDATE and DELETE, in a transaction and outside one.
ghost use Rattle.std.specs.Prelude.{◌≡◌, ◌<◌, ℕ, List, [], None};
ghost use Rattle.lv_schema.specs.declared.bound.Bound.TheVariants as bound;
ghost use Rattle.lv_schema.specs.Bound.{IsBoundChange};
ghost use Rattle.lv_schema.specs.Cases.{alone, changed};
ghost use Rattle.lv_schema.specs.UpkeepCases.{outcome_of};
ghost use Rattle.lv_schema.specs.World as schema;
ghost use Rattle.lv_schema.specs.World.{World};
ghost use Rattle.lv_plain.specs.declared.entry.Reply.TheVariants as reply;
ghost use Rattle.lv_plain.specs.Turns.{bound_turn, turn_by};
ghost use Rattle.lv_txn.specs.Kept.{IsLive, transaction_at, transaction_of};
ghost use Rattle.lv_engine.specs.Kept.{Stands};
ghost use Rattle.lv_core.specs.Answering.{Answers};

use crate::answered::{Answered, fault_of_alone, fault_of_change, refusal, replied};
use lv_engine::Engine;
use lv_outside::Disk;
use lv_plain::Reply;
use lv_schema::Change;
use lv_values::{NoMemory, Steps};
use std::alloc::Global;
use std::sync::ledger::Ledger;

/// A change in a session's transaction.
pub fn change_inside<D: Disk, L: Ledger>(
    engine: &mut Engine<D>,
    alloc: Global,
    session: u32,
    change: &Change,
    steps: &mut Steps<L>,
) -> Result<Answered, NoMemory>
    requires session { session < 17 }
    requires live { IsLive engine.old.store.sessions session }
    requires few { (transaction_of engine.old.store.sessions session).changes < 4294967295 }
    requires bound { IsBoundChange engine.old.store.tables change.now }
    ensures case { (w : World) → Stands w engine.old → Answers D.seen D.may_leave D.moment D.left_since D.failures w engine.old engine.new result [] (λ _. turn_by reply.Changed (changed session change.now w.visible)) }
    ensures settings { engine.new.store.settings ≡ engine.old.store.settings }
{
    match engine.change(alloc, session, change, steps) {
        Ok(count) => Ok(replied(alloc, Reply::Changed { count })),
        Err(fault) => refusal(alloc, fault_of_change(fault)),
    }
}

/// A change outside a transaction, as BEGIN, the change and COMMIT, and ROLLBACK where one of them is refused, for any session
/// that has none. After want of memory all but the room in the journal is as it was.
pub fn change_alone<D: Disk, L: Ledger>(
    engine: &mut Engine<D>,
    alloc: Global,
    change: &Change,
    steps: &mut Steps<L>,
) -> Result<Answered, NoMemory>
    requires free { (session : ℕ) × (session < 17) × (transaction_at engine.old.store.sessions session ≡ None) }
    requires bound { IsBoundChange engine.old.store.tables change.now }
    ensures case { (session : ℕ) (w : World) (settings : schema.Settings) → session < 17 → transaction_at engine.old.store.sessions session ≡ None → settings.limit ≡ engine.old.store.settings.log_limit → Stands w engine.old
        → Answers D.seen D.may_leave D.moment D.left_since D.failures w engine.old engine.new result []
        (λ fails. turn_by (λ done. reply.Alone done.0 done.1) (alone (outcome_of settings fails w.upkeep) session change.now w.visible)) }
    ensures settings { engine.new.store.settings ≡ engine.old.store.settings }
{
    match engine.change_alone(alloc, change, steps) {
        Ok((count, number)) => Ok(replied(alloc, Reply::Alone { count, number })),
        Err(fault) => refusal(alloc, fault_of_alone(fault)),
    }
}

/// INSERT, UPDATE or DELETE, in the session's transaction or outside one.
pub fn change<D: Disk, L: Ledger>(
    engine: &mut Engine<D>,
    alloc: Global,
    session: u32,
    change: &Change,
    steps: &mut Steps<L>,
) -> Result<Answered, NoMemory>
    requires session { session < 17 }
    requires few { (transaction_of engine.old.store.sessions session).changes < 4294967295 }
    requires bound { IsBoundChange engine.old.store.tables change.now }
    ensures case { (w : World) (settings : schema.Settings) (tasks : List (ℕ × ℕ)) → settings.limit ≡ engine.old.store.settings.log_limit → Stands w engine.old
        → Answers D.seen D.may_leave D.moment D.left_since D.failures w engine.old engine.new result [] (λ fails. bound_turn (outcome_of settings fails w.upkeep) tasks session (bound.Change change.now) w.visible) }
    ensures settings { engine.new.store.settings ≡ engine.old.store.settings }
{
    if engine.live(session).is_some() {
        change_inside(engine, alloc, session, change, steps)
    } else {
        change_alone(engine, alloc, change, steps)
    }
}
