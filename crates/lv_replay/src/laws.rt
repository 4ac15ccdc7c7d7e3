//! Laws about records: each is the contract of a function that does nothing.
ghost use Rattle.std.specs.Prelude.{◌≡◌, ℕ, ◌+◌, ◌-◌, ◌^◌, min, ◌<◌, ◌≤◌, ◌++◌, slice_index, true, None, List, [], Option, length};
ghost use Rattle.std.specs.List.{AllByRecursion, sum_by};
ghost use Rattle.lv_schema.specs.declared.action.Action.{Action};
ghost use Rattle.lv_schema.specs.declared.change.Change.{Change};
ghost use Rattle.lv_schema.specs.declared.fault.Fault.{Fault};
ghost use Rattle.lv_schema.specs.declared.forced.Forced.{Forced};
ghost use Rattle.lv_schema.specs.declared.rec.Rec.{Rec as SomeRec};
ghost use Rattle.lv_schema.specs.declared.rec.Rec.TheVariants as rec;
ghost use Rattle.lv_schema.specs.declared.table.TableDef.{TableDef};
ghost use Rattle.lv_schema.specs.declared.view.ViewDef.{ViewDef};
ghost use Rattle.lv_schema.specs.Bound.{IsBoundTable, IsBoundView, IsBoundChange};
ghost use Rattle.lv_schema.specs.Cases.{Outcome, refused, table_made, view_made, began, rolled_back, changed, committed, alone};
ghost use Rattle.lv_schema.specs.Databases.{IsDatabase};
ghost use Rattle.lv_schema.specs.Effects.{acted_all};
ghost use Rattle.lv_schema.specs.Records.{record_size, table_record, view_record, commit_record};
ghost use Rattle.lv_schema.specs.SoundWorld.{CanAct, IsSound};
ghost use Rattle.lv_schema.specs.Steady.{IsSteady};
ghost use Rattle.lv_schema.specs.UpkeepCases.{with_steps, fetching, installing, released, mark_record, marking, cleaning};
ghost use Rattle.lv_schema.specs.WholeWorld.{world_after};
ghost use Rattle.lv_schema.specs.World.{World, Visible, Settings, empty_world, nothing_visible, last, snap, transaction};
ghost use Rattle.lv_record.specs.Kept.{IsKept};
ghost use Rattle.lv_replay.specs.Applies.{applies, all_apply};
ghost use Rattle.lv_replay.specs.Numbers.{AreNumbered};
ghost use Rattle.lv_replay.specs.Replayed.{durable, replayed, state_of};
ghost use Rattle.lv_replay.specs.Runs.{IsStopped, Keeps, mark_written, noted_record};

/// What a stop leaves after a statement is what the statement's record makes of what it left before, and that record
/// applies there. A statement that writes none, also one that is refused, leaves the same.
pub fn statements_leave_what_their_records_make()
    ensures table { (outcome : SomeRec → Outcome) (def : TableDef) (w : World) → IsBoundTable w.visible.tables w.visible.views def
        → Keeps (table_made outcome def w.visible).written w (world_after (table_made outcome def w.visible) w) }
    ensures view { (outcome : SomeRec → Outcome) (def : ViewDef) (w : World) → IsBoundView w.visible.tables w.visible.views def
        → Keeps (view_made outcome def w.visible).written w (world_after (view_made outcome def w.visible) w) }
    ensures begin { (session : ℕ) (w : World) → Keeps (began session w.visible).written w (world_after (began session w.visible) w) }
    ensures rollback { (session : ℕ) (w : World) → Keeps (rolled_back session w.visible).written w (world_after (rolled_back session w.visible) w) }
    ensures change { (session : ℕ) (change : Change) (w : World) → Keeps (changed session change w.visible).written w (world_after (changed session change w.visible) w) }
    ensures commit { (outcome : SomeRec → Outcome) (session : ℕ) (w : World) → IsSteady w → AreNumbered w.visible
        → Keeps (committed outcome session w.visible).written w (world_after (committed outcome session w.visible) w) }
    ensures alone { (outcome : SomeRec → Outcome) (session : ℕ) (change : Change) (w : World) → IsSteady w → AreNumbered w.visible → IsBoundChange w.visible.tables change
        → Keeps (alone outcome session change w.visible).written w (world_after (alone outcome session change w.visible) w) }
    ensures refusal { (fault : Fault) (w : World) → Keeps (refused {A = Unit {0}} fault w.visible).written w (world_after (refused {A = Unit {0}} fault w.visible) w) }
{}

/// The same of all that maintenance does: a mark writes a record, and a query's steps, workers and clean-ups write none.
pub fn maintenance_leaves_what_its_records_make()
    ensures query { (fs : List Forced) (w : World) → Keeps None w (record { visible = w.visible; upkeep = with_steps fs w.upkeep }) }
    ensures fetch { (settings : Settings) (worker : ℕ) (w : World) → Keeps None w (record { visible = w.visible; upkeep = (fetching settings worker w).1 }) }
    ensures install { (worker : ℕ) (w : World) → Keeps None w (record { visible = w.visible; upkeep = (installing worker w.upkeep).1 }) }
    ensures release { (worker : ℕ) (w : World) → Keeps None w (record { visible = w.visible; upkeep = released worker w.upkeep }) }
    ensures mark { (outcome : SomeRec → Outcome) (v : ℕ) (w : World) → IsSteady w → v < length w.visible.views
        → Keeps (mark_written (marking outcome v w.upkeep)) w (record { visible = w.visible; upkeep = (marking outcome v w.upkeep).next }) }
    ensures clean { (w : World) → Keeps None w (record { visible = w.visible; upkeep = (cleaning w).1 }) }
{}

/// The actions of a live transaction are numbered by its changes, from 1 on, whatever statements came before.
pub fn live_transactions_are_numbered()
    ensures nothing { AreNumbered nothing_visible }
    ensures table { (outcome : SomeRec → Outcome) (def : TableDef) (s : Visible) → AreNumbered s → AreNumbered (table_made outcome def s).next }
    ensures view { (outcome : SomeRec → Outcome) (def : ViewDef) (s : Visible) → AreNumbered s → AreNumbered (view_made outcome def s).next }
    ensures begin { (session : ℕ) (s : Visible) → AreNumbered s → AreNumbered (began session s).next }
    ensures rollback { (session : ℕ) (s : Visible) → AreNumbered s → AreNumbered (rolled_back session s).next }
    ensures change { (session : ℕ) (change : Change) (s : Visible) → AreNumbered s → AreNumbered (changed session change s).next }
    ensures commit { (outcome : SomeRec → Outcome) (session : ℕ) (s : Visible) → AreNumbered s → AreNumbered (committed outcome session s).next }
    ensures alone { (outcome : SomeRec → Outcome) (session : ℕ) (change : Change) (s : Visible) → AreNumbered s → AreNumbered (alone outcome session change s).next }
{}

/// So the records of a run, read again, make what a stop leaves of its world, and each of them applies in its turn: it is
/// so of no record and the empty world, and stays so with each step.
pub fn records_of_a_run_make_what_a_stop_leaves()
    ensures nothing { durable empty_world ≡ state_of [] }
    ensures goes_on { (recs : List SomeRec) (written : Option SomeRec) (w next : World) → all_apply recs ≡ true → durable w ≡ state_of recs → Keeps written w next
        → (all_apply (recs ++ noted_record written) ≡ true) × (durable next ≡ state_of (recs ++ noted_record written)) }
{}

/// A record that applies is what the calls that act on it ask for: a table or a view is bound under the next number, a
/// commit has the next number and actions that the last state can take, and a mark is of a view in use.
pub fn records_that_apply_are_what_calls_ask_for()
    ensures table { (def : TableDef) (w : World) → IsKept (rec.Table def) → applies (rec.Table def) w ≡ true
        → IsBoundTable w.visible.tables w.visible.views (record def { no = length w.visible.tables }) }
    ensures view { (def : ViewDef) (w : World) → IsKept (rec.View def) → applies (rec.View def) w ≡ true
        → IsBoundView w.visible.tables w.visible.views (record def { no = length w.visible.views }) × (def.created ≡ last w.visible) }
    ensures commit { (number : ℕ) (actions : List Action) (w : World) → applies (rec.Commit number actions) w ≡ true
        → (number ≡ last w.visible + 1) × (0 < length actions) × CanAct w.visible.tables (snap w.visible (last w.visible)) actions }
    ensures database { (number : ℕ) (actions : List Action) (w : World) → IsSound w.visible → applies (rec.Commit number actions) w ≡ true
        → IsDatabase w.visible.tables (snap w.visible (last w.visible)) × IsDatabase w.visible.tables (acted_all w.visible.tables (snap w.visible (last w.visible)) actions) }
    ensures mark { (view upto : ℕ) (w : World) → applies (rec.Mark view upto) w ≡ true
        → (view < length w.visible.views) × (slice_index w.upkeep.marks view < upto) × (upto ≤ last w.visible) }
{}

/// What a stop leaves of a steady world is steady. A record that applies there makes a steady world in which again nobody
/// is live and nothing is claimed or dropped; so do records that apply one after another, from no record on.
pub fn records_make_steady_worlds()
    ensures stop { (w : World) → IsSteady w → IsSteady (durable w) }
    ensures next { (r : SomeRec) (w : World) → IsSteady w → IsStopped w → IsKept r → applies r w ≡ true → IsSteady (replayed r w) × IsStopped (replayed r w) }
    ensures all { (recs : List SomeRec) → AllByRecursion IsKept recs → all_apply recs ≡ true → IsSteady (state_of recs) × IsStopped (state_of recs) }
    ensures numbered { (w : World) → IsStopped w → AreNumbered w.visible }
{}

/// The records that statements and marks write are ones that the journal can keep.
pub fn written_records_can_be_kept()
    ensures table { (tables : List TableDef) (views : List ViewDef) (def : TableDef) → IsBoundTable tables views def → IsKept (table_record def) }
    ensures view { (s : Visible) (def : ViewDef) → IsSound s → IsBoundView s.tables s.views def → IsKept (view_record def s) }
    ensures commit { (session : ℕ) (s : Visible) → IsSound s → IsKept (commit_record (transaction session s) s) }
    ensures mark { (v : ℕ) (w : World) → IsSound w.visible → v < length w.visible.views → IsKept (mark_record v w.upkeep) }
{}

/// The journal of records is as long as what begins it and what each record takes: a length of 4 bytes, the record, and
/// a gate.
pub fn journal_is_as_long_as_its_records()
    ensures { (recs : List SomeRec) → (state_of recs).upkeep.journal ≡ min (9 + sum_by (λ r. record_size r + 5) recs) (2 ^ 64 - 1) }
{}
