//! The answer to a line, and to each kind of bound statement.
ghost use Rattle.std.specs.Prelude.{◌≡◌, ◌<◌, ◌==◌, ℕ, false, true, List, [], None, Ok, IfOk, map, ◌≤◌, ◌+◌};
ghost use Rattle.std.specs.List.{AllZip};
ghost use Rattle.lv_schema.specs.declared.bound.Bound.TheVariants as bound;
ghost use Rattle.lv_schema.specs.declared.query.Query.{Query as AQuery};
ghost use Rattle.lv_schema.specs.Bound.{IsBound, IsBoundTable, IsBoundView};
ghost use Rattle.lv_schema.specs.Cases.{began, committed, rolled_back, table_made, view_made};
ghost use Rattle.lv_schema.specs.Tasks.{pending_tasks};
ghost use Rattle.lv_schema.specs.UpkeepCases.{outcome_of};
ghost use Rattle.lv_schema.specs.World as schema;
ghost use Rattle.lv_schema.specs.World.{World};
ghost use Rattle.lv_plain.specs.declared.entry.Reply.TheVariants as reply;
ghost use Rattle.lv_plain.specs.Limits.{IsStatementLine};
ghost use Rattle.lv_plain.specs.Machine.{steps_of};
ghost use Rattle.lv_plain.specs.Turns.{bound_line, bound_turn, read_turn, shown, turn_by};
ghost use Rattle.lv_bind.specs.Reads.{reads};
ghost use Rattle.lv_txn.specs.Kept.{IsLive, live_kept, transaction_at};
ghost use Rattle.lv_store.specs.Answering.{IsCostBetween, IsInputBetween, ReadsNoTable, ReadsViews};
ghost use Rattle.lv_store.specs.Inputs.{AreCosts};
ghost use Rattle.lv_engine.specs.Kept.{Stands};
ghost use Rattle.lv_core.specs.Answering.{Answers, GivesTurn, IsNext, IsReady};

use crate::answered::{Answered, fault_of_commit, fault_of_create, refusal, replied};
use crate::changing::change;
use crate::querying::query;
use lv_bind::{BindFault, read_line};
use lv_engine::Engine;
use lv_maint::{JobInput, JobResult};
use lv_outside::Disk;
use lv_plain::Reply;
use lv_schema::{Bound, TableDef, ViewDef};
use lv_values::{Items, NoMemory, Steps, Text};
use std::alloc::Global;
use std::sync::ledger::Ledger;

/// CREATE TABLE.
fn create_table<D: Disk>(
    engine: &mut Engine<D>,
    alloc: Global,
    def: TableDef,
) -> Result<Answered, NoMemory>
    requires bound { IsBoundTable engine.old.store.tables engine.old.store.views def }
    ensures case { (w : World) (settings : schema.Settings) → settings.limit ≡ engine.old.store.settings.log_limit → Stands w engine.old
        → Answers D.seen D.may_leave D.moment D.left_since D.failures w engine.old engine.new result [] (λ fails. turn_by (λ _. reply.Made) (table_made (outcome_of settings fails w.upkeep) def w.visible)) }
    ensures settings { engine.new.store.settings ≡ engine.old.store.settings }
{
    match engine.create_table(alloc, def) {
        Ok(()) => Ok(replied(alloc, Reply::Made)),
        Err(fault) => refusal(alloc, fault_of_create(fault)),
    }
}

/// CREATE VIEW, where nobody is live.
fn create_view<D: Disk, L: Ledger>(
    engine: &mut Engine<D>,
    alloc: Global,
    def: ViewDef,
    steps: &mut Steps<L>,
) -> Result<Answered, NoMemory>
    requires bound { IsBoundView engine.old.store.tables engine.old.store.views def }
    requires nobody { live_kept engine.old.store.sessions ≡ [] }
    ensures case { (w : World) (settings : schema.Settings) → settings.limit ≡ engine.old.store.settings.log_limit → Stands w engine.old
        → Answers D.seen D.may_leave D.moment D.left_since D.failures w engine.old engine.new result [] (λ fails. turn_by (λ _. reply.Made) (view_made (outcome_of settings fails w.upkeep) def w.visible)) }
    ensures settings { engine.new.store.settings ≡ engine.old.store.settings }
{
    match engine.create_view(alloc, def, steps) {
        Ok(()) => Ok(replied(alloc, Reply::Made)),
        Err(fault) => refusal(alloc, fault_of_create(fault)),
    }
}

/// BEGIN.
fn begin<D: Disk>(engine: &mut Engine<D>, alloc: Global, session: u32) -> Answered
    requires session { session < 17 }
    requires free { transaction_at engine.old.store.sessions session ≡ None }
    ensures case { (w : World) → Stands w engine.old → GivesTurn D.seen D.may_leave D.moment D.left_since D.failures w engine.old engine.new [] (λ _. turn_by reply.Began (began session w.visible)) result }
    ensures settings { engine.new.store.settings ≡ engine.old.store.settings }
{
    let snapshot = engine.begin(session);
    replied(alloc, Reply::Began { snapshot })
}

/// COMMIT.
fn commit<D: Disk>(
    engine: &mut Engine<D>,
    alloc: Global,
    session: u32,
) -> Result<Answered, NoMemory>
    requires session { session < 17 }
    requires live { IsLive engine.old.store.sessions session }
    ensures case { (w : World) (settings : schema.Settings) → settings.limit ≡ engine.old.store.settings.log_limit → Stands w engine.old
        → Answers D.seen D.may_leave D.moment D.left_since D.failures w engine.old engine.new result [] (λ fails. turn_by reply.Committed (committed (outcome_of settings fails w.upkeep) session w.visible)) }
    ensures settings { engine.new.store.settings ≡ engine.old.store.settings }
{
    match engine.commit(alloc, session) {
        Ok(number) => Ok(replied(alloc, Reply::Committed { number })),
        Err(fault) => refusal(alloc, fault_of_commit(fault)),
    }
}

/// ROLLBACK.
fn roll_back<D: Disk>(engine: &mut Engine<D>, alloc: Global, session: u32) -> Answered
    requires session { session < 17 }
    requires live { IsLive engine.old.store.sessions session }
    ensures case { (w : World) → Stands w engine.old → GivesTurn D.seen D.may_leave D.moment D.left_since D.failures w engine.old engine.new [] (λ _. turn_by (λ _. reply.RolledBack) (rolled_back session w.visible)) result }
    ensures settings { engine.new.store.settings ≡ engine.old.store.settings }
{
    engine.rollback(session);
    replied(alloc, Reply::RolledBack)
}

/// SHOW TASKS.
fn show_tasks<D: Disk>(engine: &Engine<D>, alloc: Global) -> Result<Answered, NoMemory>
    ensures { (w : World) → Stands w engine.now → Answers D.seen D.may_leave D.moment D.left_since D.failures w engine.now engine.now result [] (λ _. shown (reply.Tasks (pending_tasks w)) w.visible) }
{
    let tasks = engine.tasks(alloc)?;
    Ok(replied(alloc, Reply::Tasks(tasks)))
}

/// The answer to a bound statement. Want of memory leaves all but the room in the journal. Cost: that of the engine's call.
fn answer<D: Disk, L: Ledger>(
    engine: &mut Engine<D>,
    alloc: Global,
    session: u32,
    statement: Bound,
    offers: Items<JobResult>,
    steps: &mut Steps<L>,
) -> Result<Answered, NoMemory>
    requires ready { IsReady engine.old session statement }
    ensures case { (w : World) (settings : schema.Settings) → settings.combine ≡ engine.old.store.settings.combine → settings.limit ≡ engine.old.store.settings.log_limit → Stands w engine.old
        → Answers D.seen D.may_leave D.moment D.left_since D.failures w engine.old engine.new result (steps_of settings session (Ok statement) w)
        (λ fails. bound_turn (outcome_of settings fails w.upkeep) (pending_tasks w) session statement w.visible) }
    ensures settings { engine.new.store.settings ≡ engine.old.store.settings }
    ensures fresh { (w : World) (query : AQuery) → Stands w engine.old → statement ≡ bound.Query query → ReadsNoTable session query w → steps.new ≡ steps.old }
    ensures most { (w : World) (settings : schema.Settings) (query : AQuery) → settings.combine ≡ engine.old.store.settings.combine → Stands w engine.old → statement ≡ bound.Query query → ReadsViews session query w
        → (n : ℕ) → AreCosts (IsCostBetween w.visible) (steps_of settings session (Ok statement) w) n → steps.new ≤ steps.old + n }
{
    match statement {
        Bound::Table(def) => create_table(engine, alloc, def),
        Bound::View(def) => create_view(engine, alloc, def, steps),
        Bound::Change(made) => change(engine, alloc, session, &made, steps),
        Bound::Query(asked) => query(engine, alloc, session, &asked, offers, steps),
        Bound::Begin => Ok(begin(engine, alloc, session)),
        Bound::Commit => commit(engine, alloc, session),
        Bound::Rollback => Ok(roll_back(engine, alloc, session)),
        Bound::Tasks => show_tasks(engine, alloc),
    }
}

/// The answer to a line of a session, the setup being session 0. Want of memory leaves all but the room in the journal.
/// Cost: linear in the line, that of binding, and that of the statement.
pub fn answer_line<D: Disk, L: Ledger>(
    engine: &mut Engine<D>,
    alloc: Global,
    session: u32,
    line: &Text,
    offers: Items<JobResult>,
    steps: &mut Steps<L>,
) -> Result<Answered, NoMemory>
    requires next { IsNext engine.old session }
    requires line { IsStatementLine line.now }
    ensures case { (w : World) (settings : schema.Settings) → settings.combine ≡ engine.old.store.settings.combine → settings.limit ≡ engine.old.store.settings.log_limit → Stands w engine.old
        → Answers D.seen D.may_leave D.moment D.left_since D.failures w engine.old engine.new result (steps_of settings session (bound_line reads session line.now w.visible) w)
        (λ fails. read_turn (outcome_of settings fails w.upkeep) (pending_tasks w) session (bound_line reads session line.now w.visible) w.visible) }
    ensures settings { engine.new.store.settings ≡ engine.old.store.settings }
    ensures fresh { (w : World) (query : AQuery) → Stands w engine.old → bound_line reads session line.now w.visible ≡ Ok (bound.Query query) → ReadsNoTable session query w → steps.new ≡ steps.old }
    ensures most { (w : World) (settings : schema.Settings) (query : AQuery) → settings.combine ≡ engine.old.store.settings.combine → Stands w engine.old → bound_line reads session line.now w.visible ≡ Ok (bound.Query query) → ReadsViews session query w
        → (n : ℕ) → AreCosts (IsCostBetween w.visible) (steps_of settings session (bound_line reads session line.now w.visible) w) n → steps.new ≤ steps.old + n }
{
    let live = engine.live(session).is_some();
    match read_line(alloc, engine.schema(), session == 0, live, line) {
        Ok(bound) => answer(engine, alloc, session, bound, offers, steps),
        Err(BindFault::Stmt(fault)) => Ok(replied(alloc, Reply::Refused(fault))),
        Err(BindFault::NoMemory) => Err(NoMemory),
    }
}

/// What the steps are computed from that a bound statement would force now: a query alone forces any.
fn stale_bound<D: Disk, L: Ledger>(
    engine: &Engine<D>,
    alloc: Global,
    session: u32,
    statement: Bound,
    steps: &mut Steps<L>,
) -> Result<Items<JobInput>, NoMemory>
    requires session { session < 17 }
    requires bound { IsBound engine.now.store.tables engine.now.store.views statement }
    ensures inputs { (w : World) (settings : schema.Settings) → settings.combine ≡ engine.now.store.settings.combine → Stands w engine.now
        → IfOk result (λ inputs. AllZip (IsInputBetween w.visible) (steps_of settings session (Ok statement) w) inputs) }
    ensures most { (w : World) (settings : schema.Settings) → settings.combine ≡ engine.now.store.settings.combine → Stands w engine.now
        → (n : ℕ) → AreCosts (IsCostBetween w.visible) (steps_of settings session (Ok statement) w) n → steps.new ≤ steps.old + n }
{
    match statement {
        Bound::Query(query) => engine.stale(alloc, session, &query, steps),
        Bound::Table(_)
        | Bound::View(_)
        | Bound::Change(_)
        | Bound::Begin
        | Bound::Commit
        | Bound::Rollback
        | Bound::Tasks => Ok(Items::new(alloc)),
    }
}

/// The same of a line: of one that is refused there is nothing.
pub fn stale_line<D: Disk, L: Ledger>(
    engine: &Engine<D>,
    alloc: Global,
    session: u32,
    line: &Text,
    steps: &mut Steps<L>,
) -> Result<Items<JobInput>, NoMemory>
    requires session { session < 17 }
    requires line { IsStatementLine line.now }
    ensures inputs { (w : World) (settings : schema.Settings) → settings.combine ≡ engine.now.store.settings.combine → Stands w engine.now
        → IfOk result (λ inputs. AllZip (IsInputBetween w.visible) (steps_of settings session (bound_line reads session line.now w.visible) w) inputs) }
    ensures most { (w : World) (settings : schema.Settings) → settings.combine ≡ engine.now.store.settings.combine → Stands w engine.now
        → (n : ℕ) → AreCosts (IsCostBetween w.visible) (steps_of settings session (bound_line reads session line.now w.visible) w) n → steps.new ≤ steps.old + n }
{
    let live = engine.live(session).is_some();
    match read_line(alloc, engine.schema(), session == 0, live, line) {
        Ok(bound) => stale_bound(engine, alloc, session, bound, steps),
        Err(BindFault::Stmt(_)) => Ok(Items::new(alloc)),
        Err(BindFault::NoMemory) => Err(NoMemory),
    }
}
