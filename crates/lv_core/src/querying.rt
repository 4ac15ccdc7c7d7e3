//! Queries, in a transaction and outside one.
ghost use Rattle.std.specs.Prelude.{◌≡◌, ◌<◌, ◌≤◌, ◌+◌, ℕ, None, OnErr};
ghost use Rattle.lv_schema.specs.Bound.{IsBoundQuery};
ghost use Rattle.lv_schema.specs.Cases.{queried};
ghost use Rattle.lv_schema.specs.UpkeepCases.{forced_by};
ghost use Rattle.lv_schema.specs.World as schema;
ghost use Rattle.lv_schema.specs.World.{World};
ghost use Rattle.lv_plain.specs.declared.entry.Reply.TheVariants as reply;
ghost use Rattle.lv_plain.specs.Turns.{shown};
ghost use Rattle.lv_txn.specs.Kept.{IsLive, transaction_at};
ghost use Rattle.lv_store.specs.Answering.{IsCostBetween, ReadsNoTable, ReadsViews};
ghost use Rattle.lv_store.specs.Inputs.{AreCosts};
ghost use Rattle.lv_engine.specs.Kept.{Stands};
ghost use Rattle.lv_core.specs.Answering.{Answers};

use crate::answered::Answered;
use lv_engine::Engine;
use lv_maint::JobResult;
use lv_outside::Disk;
use lv_plain::Reply;
use lv_schema::Query;
use lv_values::{Items, NoMemory, Steps};
use std::alloc::Global;
use std::sync::ledger::Ledger;

/// A query in a session's transaction.
fn query_inside<D: Disk, L: Ledger>(
    engine: &mut Engine<D>,
    alloc: Global,
    session: u32,
    query: &Query,
    offers: Items<JobResult>,
    steps: &mut Steps<L>,
) -> Result<Answered, NoMemory>
    requires session { session < 17 }
    requires live { IsLive engine.old.store.sessions session }
    requires bound { IsBoundQuery engine.old.store.tables engine.old.store.views query.now }
    ensures case { (w : World) (settings : schema.Settings) → settings.combine ≡ engine.old.store.settings.combine → Stands w engine.old
        → Answers D.seen D.may_leave D.moment D.left_since D.failures w engine.old engine.new result (forced_by settings session query.now w) (λ _. shown (reply.Rows (queried session query.now w.visible)) w.visible) }
    ensures sessions { engine.new.store.sessions ≡ engine.old.store.sessions }
    ensures refused { OnErr result (engine.new ≡ engine.old) }
    ensures settings { engine.new.store.settings ≡ engine.old.store.settings }
    ensures fresh { (w : World) → Stands w engine.old → ReadsNoTable session query.now w → steps.new ≡ steps.old }
    ensures most { (w : World) (settings : schema.Settings) → settings.combine ≡ engine.old.store.settings.combine → Stands w engine.old → ReadsViews session query.now w
        → (n : ℕ) → AreCosts (IsCostBetween w.visible) (forced_by settings session query.now w) n → steps.new ≤ steps.old + n }
{
    match engine.query(alloc, session, query, offers, steps) {
        Ok(answer) => Ok(Answered {
            forced: answer.forced,
            reply: Reply::Rows(answer.rows),
        }),
        Err(error) => Err(error),
    }
}

/// A query outside a transaction: BEGIN, the query and ROLLBACK.
fn query_alone<D: Disk, L: Ledger>(
    engine: &mut Engine<D>,
    alloc: Global,
    session: u32,
    query: &Query,
    offers: Items<JobResult>,
    steps: &mut Steps<L>,
) -> Result<Answered, NoMemory>
    requires session { session < 17 }
    requires free { transaction_at engine.old.store.sessions session ≡ None }
    requires bound { IsBoundQuery engine.old.store.tables engine.old.store.views query.now }
    ensures case { (w : World) (settings : schema.Settings) → settings.combine ≡ engine.old.store.settings.combine → Stands w engine.old
        → Answers D.seen D.may_leave D.moment D.left_since D.failures w engine.old engine.new result (forced_by settings session query.now w) (λ _. shown (reply.Rows (queried session query.now w.visible)) w.visible) }
    ensures settings { engine.new.store.settings ≡ engine.old.store.settings }
    ensures fresh { (w : World) → Stands w engine.old → ReadsNoTable session query.now w → steps.new ≡ steps.old }
    ensures most { (w : World) (settings : schema.Settings) → settings.combine ≡ engine.old.store.settings.combine → Stands w engine.old → ReadsViews session query.now w
        → (n : ℕ) → AreCosts (IsCostBetween w.visible) (forced_by settings session query.now w) n → steps.new ≤ steps.old + n }
{
    engine.begin(session);
    let answered = query_inside(engine, alloc, session, query, offers, steps);
    engine.rollback(session);
    answered
}

/// SELECT, in the session's transaction or outside one.
pub fn query<D: Disk, L: Ledger>(
    engine: &mut Engine<D>,
    alloc: Global,
    session: u32,
    query: &Query,
    offers: Items<JobResult>,
    steps: &mut Steps<L>,
) -> Result<Answered, NoMemory>
    requires session { session < 17 }
    requires bound { IsBoundQuery engine.old.store.tables engine.old.store.views query.now }
    ensures case { (w : World) (settings : schema.Settings) → settings.combine ≡ engine.old.store.settings.combine → Stands w engine.old
        → Answers D.seen D.may_leave D.moment D.left_since D.failures w engine.old engine.new result (forced_by settings session query.now w) (λ _. shown (reply.Rows (queried session query.now w.visible)) w.visible) }
    ensures settings { engine.new.store.settings ≡ engine.old.store.settings }
    ensures fresh { (w : World) → Stands w engine.old → ReadsNoTable session query.now w → steps.new ≡ steps.old }
    ensures most { (w : World) (settings : schema.Settings) → settings.combine ≡ engine.old.store.settings.combine → Stands w engine.old → ReadsViews session query.now w
        → (n : ℕ) → AreCosts (IsCostBetween w.visible) (forced_by settings session query.now w) n → steps.new ≤ steps.old + n }
{
    if engine.live(session).is_some() {
        query_inside(engine, alloc, session, query, offers, steps)
    } else {
        query_alone(engine, alloc, session, query, offers, steps)
    }
}
