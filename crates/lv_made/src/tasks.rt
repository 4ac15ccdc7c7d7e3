//! The tasks of a commit.
ghost use Rattle.std.specs.Prelude.{◌≡◌, ℕ, ◌+◌, ◌^◌, ◌<◌, ◌≤◌, length, slice_set};
ghost use Rattle.lv_schema.specs.Tasks.{is_on, actions_on};
ghost use Rattle.lv_stands.specs.Moves.{with_task, with_tasks};
ghost use Rattle.lv_tasks.specs.Kept.{IsLater, actions_in, tasks_kept};

use lv_schema::{Action, Schema, ViewDef};
use lv_upkeep::Upkeep;

/// Whether an action is on one of a view's tables.
fn is_on(view: &ViewDef, action: &Action) -> bool
    ensures { result ≡ is_on view.now action.now }
{
    view.tables
        .as_slice()
        .iter()
        .any(|table| *table == action.table)
}

/// How many of the actions are on a view's tables.
fn actions_on(view: &ViewDef, actions: &[Action]) -> u64
    ensures { result ≡ actions_on view.now actions.now }
{
    actions.iter().filter(|action| is_on(view, action)).count() as u64
}

/// Adds a view's task of a commit, if one of the commit's actions is on the view's tables. It takes no memory.
fn add_task(upkeep: &mut Upkeep, view: u32, number: u64, count: u64)
    requires view { view < length upkeep.old.kept.points }
    requires later { IsLater number (tasks_kept upkeep.old.kept.tasks view) }
    requires fits { actions_in (tasks_kept upkeep.old.kept.tasks view) + count < 2 ^ 64 }
    requires room { 0 < upkeep.old.task_spare }
    ensures added { upkeep.new.kept ≡ record upkeep.old.kept { tasks = slice_set upkeep.old.kept.tasks view (with_task number count (tasks_kept upkeep.old.kept.tasks view)) } }
    ensures room { upkeep.old.task_spare ≤ upkeep.new.task_spare + 1 }
{
    if count > 0 {
        upkeep.task(view, number, count);
    }
}

/// Adds the task of a commit to the tasks of each view on whose tables one of its actions is. It takes no memory.
/// Cost: for each view a look at each action.
pub fn add_tasks(schema: &Schema, upkeep: &mut Upkeep, number: u64, actions: &[Action])
    requires all { length schema.now.views ≡ length upkeep.old.kept.points }
    requires tasks { length upkeep.old.kept.tasks ≡ length upkeep.old.kept.points }
    requires later { (v : ℕ) → IsLater number (tasks_kept upkeep.old.kept.tasks v) }
    requires fits { (v : ℕ) → actions_in (tasks_kept upkeep.old.kept.tasks v) + length actions.now < 2 ^ 64 }
    requires room { length schema.now.views ≤ upkeep.old.task_spare }
    ensures { upkeep.new.kept ≡ record upkeep.old.kept { tasks = with_tasks number actions.now schema.now.views upkeep.old.kept.tasks } }
{
    for view in 0..schema.views() {
        let count = actions_on(schema.view(view), actions);
        add_task(upkeep, view, number, count);
    }
}
