//! Laws about what an engine keeps: each is the contract of a function that does nothing.
ghost use Rattle.std.specs.Prelude.{◌≡◌, ◌⊎◌, ℕ, ◌+◌, ◌<◌, ◌≤◌, Some, None, List, [], ◌∷◌, length, slice_index, filter, Option, Ok, Err, ◌==◌, true, false};
ghost use Rattle.std.specs.List.{list_any, AllByRecursion};
ghost use Rattle.std.specs.Ordering.{nat_cmp};
ghost use Rattle.lv_values.specs.declared.value.Value.{Value};
ghost use Rattle.lv_schema.specs.declared.action.Action.{Action};
ghost use Rattle.lv_schema.specs.declared.change.Change.{Change};
ghost use Rattle.lv_schema.specs.declared.fault.Fault.{Fault};
ghost use Rattle.lv_schema.specs.declared.forced.Forced.{Forced};
ghost use Rattle.lv_schema.specs.declared.rec.Rec.{Rec};
ghost use Rattle.lv_schema.specs.declared.open.Open.{Open};
ghost use Rattle.lv_schema.specs.declared.signed.SignedRow.{SignedRow};
ghost use Rattle.lv_schema.specs.declared.table.TableDef.{TableDef};
ghost use Rattle.lv_schema.specs.declared.view.ViewDef.{ViewDef};
ghost use Rattle.lv_schema.specs.Applicable.{AreNetted};
ghost use Rattle.lv_schema.specs.Bound.{IsBoundTable, IsBoundView, IsBoundChange};
ghost use Rattle.lv_schema.specs.Cases.{Outcome, good, table_made, view_made, began, rolled_back, changed, committed, alone};
ghost use Rattle.lv_schema.specs.Commits.{conflict_of, merged_full, conflict_in};
ghost use Rattle.lv_schema.specs.Condensed.{condensed};
ghost use Rattle.lv_schema.specs.Databases.{rows_of};
ghost use Rattle.lv_schema.specs.Differences.{difference, view_difference, groups_of, summed_columns};
ghost use Rattle.lv_schema.specs.Effects.{Effect, first_fault, changed_table, effect_on};
ghost use Rattle.lv_schema.specs.Greatest.{Among, IsLive, end_of};
ghost use Rattle.lv_schema.specs.Groups.{view_rows};
ghost use Rattle.lv_schema.specs.Jobs.{parts_between, old_sides, new_sides};
ghost use Rattle.lv_schema.specs.Keys.{writes_table};
ghost use Rattle.lv_schema.specs.Once.{Ascends};
ghost use Rattle.lv_schema.specs.Records.{table_record, view_record};
ghost use Rattle.lv_schema.specs.SignedRows.{netted};
ghost use Rattle.lv_schema.specs.SoundWorld.{IsOpen, IsSound};
ghost use Rattle.lv_schema.specs.Steady.{IsSteady, IsStep};
ghost use Rattle.lv_schema.specs.WholeWorld.{world_after};
ghost use Rattle.lv_schema.specs.StepPlans.{forced, forced_from, is_inside, planned, view_point};
ghost use Rattle.lv_schema.specs.Policies.{unclaimed};
ghost use Rattle.lv_schema.specs.Tasks.{pending_tasks};
ghost use Rattle.lv_schema.specs.CleanUps.{floor, versions_kept, deltas_kept};
ghost use Rattle.lv_schema.specs.UpkeepCases.{with_steps, with_claim, claim_of, released, fetching, mark_record, marking, cleaning};
ghost use Rattle.lv_schema.specs.World.{Visible, World, empty_world, last, live, snap, table_at, view_at, transaction, point, Settings};
ghost use Rattle.lv_group.specs.Gathered.{has_tuples};
ghost use Rattle.lv_overlay.specs.declared.put.Put.{Put};
ghost use Rattle.lv_overlay.specs.Puts.{AreOwnRows, PutsTake};
ghost use Rattle.lv_tasks.specs.Kept.{IsLater, actions_in, tasks_kept};
ghost use Rattle.lv_txn.specs.Kept.{TransactionKept, live_kept, transaction_at};
ghost use Rattle.lv_upkeep.specs.Kept.{forced_in, planned_in, tasks_in, unclaimed_in};
ghost use Rattle.lv_viewrows.specs.Changed.{CanInstall, groups_with};
ghost use Rattle.lv_viewrows.specs.Kept.{groups_at, rows_listed};
ghost use Rattle.lv_stands.specs.Kept.{TableKept, BaseKept, ViewKept, EngineKept, table_kept, view_kept, shown, rows_shown};
ghost use Rattle.lv_stands.specs.Moves.{TableCommits, no_net, BaseCommits, BaseCleaned, ViewInstalls, ViewsCleaned, StepsRun, StepsFollow, engine_began, engine_rolled_back, engine_changed, engine_claimed, with_puts, refusal_in, commit_answer, commit_kept, inside_kept, step_changes, changes_of, with_room, engine_marked, engine_fetching, parts_in, engine_empty, engine_with_table, engine_with_view, engine_stepped, engine_cleaned, floor_kept, least_read, versions_counted};
ghost use Rattle.lv_stands.specs.Stands.{TableStands, StandsFor};

/// A transaction that begins has the number of the last commit as its snapshot, and no write; one that is rolled back is
/// gone. All else stands as it did.
pub fn transactions_come_and_go()
    ensures begin { (session : ℕ) (w : World) (e : EngineKept) → StandsFor w e → StandsFor (world_after (began session w.visible) w) (engine_began session e) }
    ensures rollback { (session : ℕ) (w : World) (e : EngineKept) → StandsFor w e → StandsFor (world_after (rolled_back session w.visible) w) (engine_rolled_back session e) }
{}

/// INSERT, UPDATE or DELETE in a transaction: it is worked out over the rows of its own, which are those at its snapshot
/// with its writes over them; and its writes take the actions. Writes can take any actions.
pub fn changes_keep_what_stands()
    ensures own_rows { (w : World) (e : EngineKept) (session t : ℕ) (k : TransactionKept) (rows : List (List Value)) → StandsFor w e → transaction_at e.sessions session ≡ Some k → t < length e.tables
        → AreOwnRows (table_at e.tables t).key k.puts t (shown k.snapshot (table_kept e.base.tables t).versions) rows → rows ≡ rows_of (transaction session w.visible).own t }
    ensures writes { (tables : List TableDef) (actions : List Action) (puts : List Put) → PutsTake tables actions puts (with_puts tables actions puts) }
    ensures change { (session : ℕ) (change : Change) (w : World) (e : EngineKept) (k : TransactionKept) (rows : List (List Value)) (effect : Effect) (puts : List Put) → StandsFor w e → transaction_at e.sessions session ≡ Some k
        → IsBoundChange w.visible.tables change → rows ≡ rows_of (transaction session w.visible).own (changed_table change) → effect_on (table_at e.tables (changed_table change)) change rows ≡ Ok effect → PutsTake e.tables effect.actions k.puts puts
        → StandsFor (world_after (changed session change w.visible) w) (engine_changed session puts effect.actions k e) }
{}

/// Why a commit is refused is told from the entries, the net changes and the numbers of rows that are kept.
pub fn refusals_are_told()
    ensures conflict { (w : World) (e : EngineKept) (session : ℕ) (k : TransactionKept) → StandsFor w e → transaction_at e.sessions session ≡ Some k → conflict_in e.tables e.base.entries k.snapshot k.actions ≡ conflict_of w.visible (transaction session w.visible) }
    ensures refusal { (w : World) (e : EngineKept) (session : ℕ) (k : TransactionKept) → StandsFor w e → transaction_at e.sessions session ≡ Some k
        → refusal_in e k ≡ first_fault (conflict_of w.visible (transaction session w.visible)) (merged_full w.visible (transaction session w.visible)) }
{}

/// A commit, in all its cases. Where its record is written, the base takes the actions, each table the net change to
/// which they condense, and each view that they touch gets a task; the view rows and the points stay.
pub fn commits_keep_what_stands()
    ensures { (outcome : Rec → Outcome) (session : ℕ) (w : World) (e : EngineKept) (k : TransactionKept) (base : BaseKept) → StandsFor w e → transaction_at e.sessions session ≡ Some k
        → (commit_answer outcome e k ≡ Ok (Some (e.base.number + 1)) → BaseCommits e.tables k.actions e.base base)
        → ((committed outcome session w.visible).answer ≡ commit_answer outcome e k) × StandsFor (world_after (committed outcome session w.visible) w) (commit_kept outcome session k base e) }
{}

/// A change outside a transaction is BEGIN, the change and COMMIT, one after another; and where one of them is refused,
/// all is as it was.
pub fn changes_alone_are_three_statements()
    ensures done { (outcome : Rec → Outcome) (session : ℕ) (change : Change) (w : World) (count : ℕ) (number : Option ℕ) → (changed session change (began session w.visible).next).answer ≡ Ok count
        → (committed outcome session (changed session change (began session w.visible).next).next).answer ≡ Ok number
        → world_after (alone outcome session change w.visible) w ≡ world_after (committed outcome session (changed session change (began session w.visible).next).next) (record { visible = (changed session change (began session w.visible).next).next; upkeep = w.upkeep }) }
    ensures refused { (outcome : Rec → Outcome) (session : ℕ) (change : Change) (w : World) (fault : Fault) → (changed session change (began session w.visible).next).answer ≡ Err fault → world_after (alone outcome session change w.visible) w ≡ w }
    ensures not_committed { (outcome : Rec → Outcome) (session : ℕ) (change : Change) (w : World) (count : ℕ) (fault : Fault) → (changed session change (began session w.visible).next).answer ≡ Ok count
        → (committed outcome session (changed session change (began session w.visible).next).next).answer ≡ Err fault → world_after (alone outcome session change w.visible) w ≡ w }
{}

/// A table on which a commit has no net change may be left as it is.
pub fn untouched_tables_may_stay()
    ensures { (s : Visible) (pruned t : ℕ) (k : TableKept) → IsSound s → t < length s.tables → TableStands s pruned t k → TableCommits (last s) no_net k k }
{}

/// A step of a view from its point, whose rows take the difference between the two states: the point is the step's end,
/// the tasks up to it are gone, and each live reader is served as before. So do steps, one after another, and those
/// that a query forces are such steps; after them it reads of its views what they are at its snapshot.
pub fn steps_keep_what_stands()
    ensures step { (w : World) (e : EngineKept) (f : Forced) (new : ViewKept) → StandsFor w e → IsStep w.visible f → point w.upkeep f.view ≡ f.lo
        → ViewInstalls (least_read e) (view_at w.visible.views f.view) f.hi (view_difference (view_at w.visible.views f.view) (snap w.visible f.lo) (snap w.visible f.hi)) (view_kept e.rows f.view) new
        → StandsFor (record { visible = w.visible; upkeep = with_steps (f ∷ []) w.upkeep }) (engine_stepped f new e) }
    ensures steps { (fs : List Forced) (w : World) (e e' : EngineKept) → StandsFor w e → StepsFollow w fs → StepsRun w.visible fs e e' → StandsFor (record { visible = w.visible; upkeep = with_steps fs w.upkeep }) e' }
    ensures forced { (settings : Settings) (w : World) (views : List ℕ) (m : ℕ) → IsSteady w → Ascends nat_cmp views → AllByRecursion (λ v. v < length w.visible.views) views → StepsFollow w (forced settings w views m) }
    ensures reads { (settings : Settings) (w : World) (e : EngineKept) (views : List ℕ) (m v : ℕ) → StandsFor (record { visible = w.visible; upkeep = with_steps (forced settings w views m) w.upkeep }) e → IsSteady w → v < length w.visible.views → Among views v
        → IsLive w.visible m ⊎ (m ≡ last w.visible) → m ≤ last w.visible → rows_shown (view_at w.visible.views v) m (view_kept e.rows v) ≡ view_rows (view_at w.visible.views v) (snap w.visible m) }
{}

/// The steps of a view that begin at its point can be installed in its rows: one step, and several at once, whose
/// differences add up to that from the point to the last one's end. With what they add up to the rows are the view's
/// there; and after the steps that a query forces those are the view's at its snapshot.
pub fn steps_can_be_installed()
    ensures step { (w : World) (e : EngineKept) (f : Forced) (spare : ℕ) → StandsFor w e → IsStep w.visible f → point w.upkeep f.view ≡ f.lo
        → CanInstall (with_room (view_at w.visible.views f.view) spare (view_kept e.rows f.view)) f.hi (step_changes w.visible f) }
    ensures sum { (w : World) (v : ℕ) (fs : List Forced) → IsSteady w → StepsFollow w fs → AllByRecursion (λ f. f.view ≡ v) fs → 0 < length fs
        → netted (length (summed_columns (view_at w.visible.views v))) (changes_of w.visible fs) ≡ view_difference (view_at w.visible.views v) (snap w.visible (point w.upkeep v)) (snap w.visible (end_of (point w.upkeep v) fs)) }
    ensures steps { (w : World) (e : EngineKept) (v : ℕ) (fs : List Forced) (spare : ℕ) → StandsFor w e → StepsFollow w fs → AllByRecursion (λ f. f.view ≡ v) fs → 0 < length fs
        → CanInstall (with_room (view_at w.visible.views v) spare (view_kept e.rows v)) (end_of (point w.upkeep v) fs) (netted (length (summed_columns (view_at w.visible.views v))) (changes_of w.visible fs)) }
    ensures rows { (w : World) (e : EngineKept) (v : ℕ) (fs : List Forced) → StandsFor w e → StepsFollow w fs → AllByRecursion (λ f. f.view ≡ v) fs → 0 < length fs
        → rows_listed (view_at w.visible.views v) (groups_with (netted (length (summed_columns (view_at w.visible.views v))) (changes_of w.visible fs)) (groups_at (view_kept e.rows v).at (view_kept e.rows v).versions))
        ≡ view_rows (view_at w.visible.views v) (snap w.visible (end_of (point w.upkeep v) fs)) }
    ensures forced { (settings : Settings) (w : World) (v m : ℕ) → IsSteady w → v < length w.visible.views
        → StepsFollow w (forced_from settings w.visible (view_point w v) m) × AllByRecursion (λ f. f.view ≡ v) (forced_from settings w.visible (view_point w v) m) }
    ensures query { (settings : Settings) (w : World) (e : EngineKept) (v m : ℕ) → StandsFor w e → v < length w.visible.views → IsLive w.visible m ⊎ (m ≡ last w.visible) → m ≤ last w.visible
        → (forced_from settings w.visible (view_point w v) m ≡ [] → rows_shown (view_at w.visible.views v) m (view_kept e.rows v) ≡ view_rows (view_at w.visible.views v) (snap w.visible m))
        × (0 < length (forced_from settings w.visible (view_point w v) m)
        → view_rows (view_at w.visible.views v) (snap w.visible (end_of (point w.upkeep v) (forced_from settings w.visible (view_point w v) m))) ≡ view_rows (view_at w.visible.views v) (snap w.visible m)) }
{}

/// The groups of a view that is made are added up, and each has a tuple.
pub fn groups_can_be_kept()
    ensures { (s : Visible) (def : ViewDef) (k : ℕ) → IsSound s → IsBoundView s.tables s.views def → k ≤ last s
        → AreNetted (length (summed_columns def)) (groups_of def (snap s k)) × AllByRecursion (λ g. has_tuples g ≡ true) (groups_of def (snap s k)) }
{}

/// What is kept of the upkeep tells the steps of the world, and its pending tasks.
pub fn upkeep_is_told_from_what_is_kept()
    ensures inside { (w : World) (e : EngineKept) → StandsFor w e → inside_kept e ≡ is_inside (live w.visible.sessions) }
    ensures planned { (w : World) (e : EngineKept) (settings : Settings) (v m : ℕ) → StandsFor w e → v < length w.visible.views → planned_in (inside_kept e) settings.combine e.upkeep v m ≡ planned settings v w m }
    ensures forced { (w : World) (e : EngineKept) (settings : Settings) (views : List ℕ) (m : ℕ) → StandsFor w e → AllByRecursion (λ v. v < length w.visible.views) views
        → forced_in (inside_kept e) settings.combine e.upkeep views m ≡ forced settings w views m }
    ensures tasks { (w : World) (e : EngineKept) → StandsFor w e → tasks_in e.upkeep ≡ pending_tasks w }
{}

/// What holds of what is kept where it stands for a world: its numbers and lengths; that nothing is dropped that a live
/// transaction or a view still needs; and that the next commit is later than each pending task, whose actions are among
/// the entries.
pub fn what_stands_is_whole()
    ensures last { (w : World) (e : EngineKept) → StandsFor w e → (e.base.number ≡ last w.visible) × (e.base.pruned ≤ e.base.number) }
    ensures lengths { (w : World) (e : EngineKept) → StandsFor w e → (length e.rows ≡ length w.visible.views) × (length e.sessions ≡ 17) × (length e.upkeep.claims ≡ 9) × (length e.upkeep.points ≡ length w.visible.views) }
    ensures snapshots { (w : World) (e : EngineKept) → StandsFor w e → AllByRecursion (λ k. (e.base.pruned ≤ k) × (k ≤ e.base.number)) (live_kept e.sessions) }
    ensures points { (w : World) (e : EngineKept) (v : ℕ) → StandsFor w e → v < length w.visible.views → (e.base.pruned ≤ point w.upkeep v) × (point w.upkeep v ≤ e.base.number) × ((view_kept e.rows v).at ≡ point w.upkeep v) }
    ensures tasks { (w : World) (e : EngineKept) (v : ℕ) → StandsFor w e → IsLater (e.base.number + 1) (tasks_kept e.upkeep.tasks v) × (actions_in (tasks_kept e.upkeep.tasks v) ≤ length e.base.entries) }
{}

/// A clean-up to the floor that is told from what is kept: it drops what ended there, and what it shows is what it keeps.
pub fn clean_ups_keep_what_stands()
    ensures floor { (w : World) (e : EngineKept) → StandsFor w e → floor_kept e ≡ floor w }
    ensures stands { (w : World) (e : EngineKept) (base : BaseKept) (rows : List ViewKept) → StandsFor w e → BaseCleaned (floor_kept e) e.base base → ViewsCleaned (least_read e) e.rows rows
        → StandsFor (record { visible = w.visible; upkeep = (cleaning w).1 }) (engine_cleaned base rows e) }
    ensures counts { (w : World) (e : EngineKept) → StandsFor w e → (versions_counted e.base ≡ versions_kept w.visible w.upkeep.pruned) × (length e.base.entries ≡ deltas_kept w.visible w.upkeep.pruned) }
{}

/// A worker's claim comes and goes, its step is installed, and a mark is set; which views a worker may be given is told
/// from the tasks and claims that are kept.
pub fn workers_keep_what_stands()
    ensures fetch { (settings : Settings) (worker : ℕ) (w : World) (e : EngineKept) → StandsFor w e
        → ((fetching settings worker w).0 ≡ (engine_fetching settings worker e).0) × StandsFor (record { visible = w.visible; upkeep = (fetching settings worker w).1 }) (engine_fetching settings worker e).1 }
    ensures claim { (w : World) (e : EngineKept) (worker : ℕ) (claim : Option Forced) → StandsFor w e → IsSteady (record { visible = w.visible; upkeep = with_claim worker claim w.upkeep })
        → StandsFor (record { visible = w.visible; upkeep = with_claim worker claim w.upkeep }) (engine_claimed worker claim e) }
    ensures release { (w : World) (e : EngineKept) (worker : ℕ) → StandsFor w e → StandsFor (record { visible = w.visible; upkeep = released worker w.upkeep }) (engine_claimed worker None e) }
    ensures install { (w : World) (e : EngineKept) (worker : ℕ) (f : Forced) (new : ViewKept) → StandsFor w e → claim_of w.upkeep worker ≡ Some f → point w.upkeep f.view ≡ f.lo
        → ViewInstalls (least_read e) (view_at w.visible.views f.view) f.hi (view_difference (view_at w.visible.views f.view) (snap w.visible f.lo) (snap w.visible f.hi)) (view_kept e.rows f.view) new
        → StandsFor (record { visible = w.visible; upkeep = with_claim worker None (with_steps (f ∷ []) w.upkeep) }) (engine_claimed worker None (engine_stepped f new e)) }
    ensures unclaimed { (w : World) (e : EngineKept) → StandsFor w e → unclaimed_in e.upkeep ≡ unclaimed w }
    ensures mark { (outcome : Rec → Outcome) (v : ℕ) (w : World) (e : EngineKept) → StandsFor w e → (slice_index w.upkeep.marks v == point w.upkeep v) ≡ false → outcome (mark_record v w.upkeep) ≡ good
        → StandsFor (record { visible = w.visible; upkeep = (marking outcome v w.upkeep).next }) (engine_marked v e) }
{}

/// What a step is computed from is told from what is kept: for each alias the rows at its beginning, and the net change
/// to which the entries up to its end condense; and they give the difference of the view. A table's net change is told from the actions on it alone.
pub fn inputs_are_told_from_what_is_kept()
    ensures one_table { (tables : List TableDef) (t : ℕ) (actions : List Action) → condensed tables (filter (λ (a : Action). t == a.table) actions) t ≡ condensed tables actions t }
    ensures parts { (w : World) (e : EngineKept) (f : Forced) → StandsFor w e → IsStep w.visible f → w.upkeep.pruned ≤ f.lo
        → (parts_in e f ≡ parts_between w.visible (view_at w.visible.views f.view) f.lo f.hi)
        × (difference (view_at w.visible.views f.view) (old_sides (parts_in e f)) (new_sides (parts_in e f)) ≡ view_difference (view_at w.visible.views f.view) (snap w.visible f.lo) (snap w.visible f.hi)) }
{}

/// An engine that opens with an empty journal stands for the empty world; and a table and a view that are made are kept
/// empty, and with their rows over the last state. A view is made where no reader is below that state.
pub fn what_is_made_stands()
    ensures nothing { StandsFor empty_world engine_empty }
    ensures table { (outcome : Rec → Outcome) (def : TableDef) (w : World) (e : EngineKept) → StandsFor w e → IsBoundTable w.visible.tables w.visible.views def → outcome (table_record def) ≡ good
        → StandsFor (world_after (table_made outcome def w.visible) w) (engine_with_table def e) }
    ensures view { (outcome : Rec → Outcome) (def : ViewDef) (w : World) (e : EngineKept) (rows : List (List Value)) (groups : List SignedRow) → StandsFor w e → IsBoundView w.visible.tables w.visible.views def → outcome (view_record def w.visible) ≡ good
        → ((k : ℕ) → IsLive w.visible k → last w.visible ≤ k) → (def.grouped ≡ false → rows ≡ view_rows def (snap w.visible (last w.visible))) → (def.grouped ≡ true → groups ≡ groups_of def (snap w.visible (last w.visible)))
        → StandsFor (world_after (view_made outcome def w.visible) w) (engine_with_view def rows groups e) }
{}

/// A view on whose tables a transaction has no write is the same over its own database as over its snapshot.
pub fn unwritten_views_are_those_of_the_snapshot()
    ensures { (s : Visible) (o : Open) (view : ViewDef) → IsOpen s o → list_any (writes_table o.actions) view.tables ≡ false → view_rows view o.own ≡ view_rows view (snap s o.snapshot) }
{}
