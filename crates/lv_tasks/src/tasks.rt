//! The tasks of all views.
ghost use Rattle.std.specs.Prelude.{◌≡◌, ◌≤◌, ◌<◌, ◌+◌, ◌^◌, ◌++◌, ◌∷◌, [], length, map, slice_set, OnOk, IfOk};
ghost use Rattle.lv_values.specs.Room.{Roomy};
ghost use Rattle.lv_schema.specs.StepPlans.{step_end};
ghost use Rattle.lv_tasks.specs.declared.task.Task.{Task};
ghost use Rattle.lv_tasks.specs.Kept.{IsLater, actions_in, commits_between, no_tasks, pairs_of, pending_in, tasks_above, tasks_kept};
ghost use Rattle.lv_tasks.specs.Queues.{HaveRoom, lists_of, queue_at};

use crate::queue::Queue;
use crate::task::Task;
use lv_schema::{Live, Pending};
use lv_values::{Items, NoMemory};
use std::alloc::Global;
use std::marker::Model;

/// For how many tasks room is made at least, since that looks at each queue.
const ROOM: u64 = 64;

/// Makes room for `more` tasks in each queue.
fn reserve_each(queues: &mut [Queue], more: u64) -> Result<(), NoMemory>
    ensures same { lists_of queues.new ≡ lists_of queues.old }
    ensures room { OnOk result (HaveRoom more queues.new) }
    ensures kept { (n : _) → HaveRoom n queues.old → HaveRoom n queues.new }
{
    for at in 0..queues.len() {
        queues[at].reserve(more)?;
    }
    Ok(())
}

/// Puts a task at the end of the queue at a place.
fn push_at(queues: &mut [Queue], at: usize, task: Task)
    requires place { at < length queues.old }
    requires later { IsLater task.commit (queue_at queues.old at).list }
    requires fits { actions_in (queue_at queues.old at).list + task.actions < 2 ^ 64 }
    requires room { 0 < (queue_at queues.old at).spare }
    ensures added { lists_of queues.new ≡ slice_set (lists_of queues.old) at ((queue_at queues.old at).list ++ task ∷ []) }
    ensures room { (n : _) → HaveRoom (n + 1) queues.old → HaveRoom n queues.new }
{
    queues[at].push(task);
}

/// Drops the tasks of commits up to this one from the queue at a place.
fn drop_at(queues: &mut [Queue], at: usize, hi: u64)
    requires { at < length queues.old }
    ensures rest { lists_of queues.new ≡ slice_set (lists_of queues.old) at (tasks_above hi (queue_at queues.old at).list) }
    ensures room { (n : _) → HaveRoom n queues.old → HaveRoom n queues.new }
{
    queues[at].drop_to(hi);
}

/// The pending tasks of at most 32 views, of each in the order of its commits. Each view has a queue of its own, and
/// room is kept in each: so a task goes in at the end, and a step takes tasks from the front. Contracts see the lists
/// of tasks by the numbers of their views, and beside them how many more tasks go in without memory.
#[derive(Drop)]
pub struct Tasks {
    queues: [Queue; 32],
    spare: u64,
}

impl Model for Tasks {
    ghost use Rattle.std.specs.Prelude.{◌≡◌, length};
    ghost use Rattle.lv_tasks.specs.Kept.{TasksKept};
    ghost use Rattle.lv_tasks.specs.Queues.{HaveRoom, lists_of};

    ghost Value = { TasksKept };

    ghost view = { λ t. record { tasks = lists_of t.queues; spare = t.spare } };

    ghost invariant = { λ t. (length t.queues ≡ 32) × HaveRoom t.spare t.queues };
}

impl Tasks {
    /// No tasks, and no room. It takes no memory.
    pub fn new(alloc: Global) -> Tasks
        ensures { result ≡ record { tasks = no_tasks; spare = 0 } }
    {
        Tasks {
            queues: std::array::from_fn(|_| Queue::new(alloc)),
            spare: 0,
        }
    }

    /// Makes room for so many tasks, of whichever views. Want of memory changes nothing, and room never shrinks.
    /// Cost: constant; a look at each queue for every 64 tasks, and now and then a move of the tasks.
    pub fn reserve(&mut self, tasks: u64) -> Result<(), NoMemory>
        ensures same { self.new.tasks ≡ self.old.tasks }
        ensures room { OnOk result (tasks ≤ self.new.spare) }
        ensures kept { self.old.spare ≤ self.new.spare }
    {
        if tasks > self.spare {
            let room = tasks.max(ROOM);
            reserve_each(&mut self.queues, room)?;
            self.spare = room;
        }
        Ok(())
    }

    /// Puts a task behind the view's others: a commit, and how many of its actions are on the view's tables.
    /// It takes no memory. Cost: constant.
    pub fn add(&mut self, view: u32, commit: u64, actions: u64)
        requires view { view < 32 }
        requires later { IsLater commit (tasks_kept self.old.tasks view) }
        requires fits { actions_in (tasks_kept self.old.tasks view) + actions < 2 ^ 64 }
        requires room { 0 < self.old.spare }
        ensures added { self.new.tasks ≡ slice_set self.old.tasks view (tasks_kept self.old.tasks view ++ record { commit = commit; actions = actions } ∷ []) }
        ensures room { self.new.spare + 1 ≡ self.old.spare }
    {
        push_at(&mut self.queues, view as usize, Task { commit, actions });
        self.spare -= 1;
    }

    /// Drops the view's tasks of commits up to this one. It takes no memory. Cost: linear in what it drops.
    pub fn drop_to(&mut self, view: u32, hi: u64)
        ensures rest { self.new.tasks ≡ slice_set self.old.tasks view (tasks_above hi (tasks_kept self.old.tasks view)) }
        ensures room { self.new.spare ≡ self.old.spare }
    {
        if (view as usize) < self.queues.len() {
            drop_at(&mut self.queues, view as usize, hi);
        }
    }

    /// Where the planned step of a view ends, over its tasks above the one commit and up to the other: none where it
    /// has none. It takes no memory. Cost: at most two binary searches among the view's tasks, of which each is spared
    /// where all commits around its place made tasks, or none did; and a look at each task, at most
    /// `combine`, only where a live snapshot lies within the step.
    pub fn next_range<V: Live>(
        &self,
        view: u32,
        lo: u64,
        limit: u64,
        live: &V,
        combine: u32,
    ) -> Option<u64>
        requires { 0 < combine }
        ensures { result ≡ step_end (V.inside live.now) combine (commits_between lo limit (tasks_kept self.now.tasks view)) }
    {
        let queue = self.queues.get(view as usize)?;
        queue.next_range(lo, limit, live, combine)
    }

    /// What a policy sees of a view: none where it has no task. Cost: constant.
    pub fn pending(&self, view: u32) -> Option<Pending>
        ensures { result ≡ pending_in view (tasks_kept self.now.tasks view) }
    {
        let queue = self.queues.get(view as usize)?;
        queue.pending(view)
    }

    /// A view's number and the commit of each of its tasks, in order. Cost: linear in the view's tasks.
    pub fn list(&self, alloc: Global, view: u32) -> Result<Items<(u32, u64)>, NoMemory>
        ensures { IfOk result (λ list. list ≡ pairs_of view (tasks_kept self.now.tasks view)) }
    {
        match self.queues.get(view as usize) {
            Some(queue) => queue.list(alloc, view),
            None => Ok(Items::new(alloc)),
        }
    }
}
