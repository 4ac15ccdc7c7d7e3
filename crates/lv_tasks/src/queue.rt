//! The tasks of one view.
ghost use Rattle.std.specs.Prelude.{◌≡◌, true, ◌≤◌, ◌<◌, ◌+◌, ◌^◌, ◌++◌, ◌∷◌, [], length, map, take, drop, OnOk, IfOk};
ghost use Rattle.std.specs.VecDeque.{deque_capacity};
ghost use Rattle.lv_schema.specs.StepPlans.{step_end};
ghost use Rattle.lv_tasks.specs.declared.task.Task.{Task};
ghost use Rattle.lv_tasks.specs.Kept.{IsLater, actions_in, commits_between, pairs_of, pending_in, tasks_above};
ghost use Rattle.lv_tasks.specs.Queues.{Ascend, IsCut, is_upto};

use crate::task::Task;
use lv_schema::{Live, Pending};
use lv_values::{Items, NoMemory};
use std::alloc::Global;
use std::collections::VecDeque;
use std::marker::Model;

/// The pending tasks of a view in the order of their commits, with the sum of their actions.
#[derive(Drop)]
pub(crate) struct Queue {
    tasks: VecDeque<Task>,
    actions: u64,
}

impl Model for Queue {
    ghost use Rattle.std.specs.Prelude.{◌≡◌, ◌-◌};
    ghost use Rattle.std.specs.VecDeque.{deque_len, deque_capacity};
    ghost use Rattle.lv_values.specs.Room.{Roomy};
    ghost use Rattle.lv_tasks.specs.declared.task.Task.{Task};
    ghost use Rattle.lv_tasks.specs.Kept.{actions_in};
    ghost use Rattle.lv_tasks.specs.Queues.{Ascend};

    ghost Value = { Roomy Task };

    ghost view = { λ q. record { list = q.tasks.items; spare = deque_capacity q.tasks - deque_len q.tasks } };

    ghost invariant = { λ q. Ascend q.tasks.items × (q.actions ≡ actions_in q.tasks.items) };
}

/// Whether the tasks up to a place, and no others, are of a commit up to this one.
fn is_last_upto(tasks: &VecDeque<Task>, at: usize, commit: u64) -> bool
    requires order { Ascend tasks.now.items }
    requires within { at + 1 < length tasks.now.items }
    ensures { result ≡ true → IsCut (is_upto commit) (at + 1) tasks.now.items }
{
    tasks[at].commit <= commit && commit < tasks[at + 1].commit
}

/// How many tasks are of a commit up to this one. Cost: constant where all or none are, or where each commit from the first
/// task's to this one made a task; else a binary search.
fn place_above(tasks: &VecDeque<Task>, commit: u64) -> usize
    requires { Ascend tasks.now.items }
    ensures within { result ≤ length tasks.now.items }
    ensures cut { IsCut (is_upto commit) result tasks.now.items }
{
    let count = tasks.len();
    if count == 0 || tasks[count - 1].commit <= commit {
        return count;
    }
    if tasks[0].commit > commit {
        return 0;
    }
    let near = (commit - tasks[0].commit) as usize;
    if near < count - 1 && is_last_upto(tasks, near, commit) {
        return near + 1;
    }
    tasks.partition_point(|task| task.commit <= commit)
}

/// Where the planned step over the tasks from the one place up to the other ends, task by task.
fn end_by_task<V: Live>(
    tasks: &VecDeque<Task>,
    from: usize,
    end: usize,
    live: &V,
    combine: u32,
) -> Option<u64>
    requires some { 0 < combine }
    requires within { end ≤ length tasks.now.items }
    ensures { result ≡ step_end (V.inside live.now) combine (map (λ (t : Task). t.commit) (drop from (take end tasks.now.items))) }
{
    if from >= end {
        return None;
    }
    let first = tasks[from].commit;
    let mut hi = first;
    let mut at = from + 1;
    let mut more = combine - 1;
    while more > 0 && at < end {
        let later = tasks[at].commit;
        if live.inside(first, later) {
            return Some(hi);
        }
        hi = later;
        at += 1;
        more -= 1;
    }
    Some(hi)
}

/// Where the planned step over the tasks from the one place up to the other ends. Where no live snapshot lies within
/// the most tasks that it can take, it takes them all, and no other task is looked at.
fn end_within<V: Live>(
    tasks: &VecDeque<Task>,
    from: usize,
    end: usize,
    live: &V,
    combine: u32,
) -> Option<u64>
    requires some { 0 < combine }
    requires order { Ascend tasks.now.items }
    requires within { end ≤ length tasks.now.items }
    ensures { result ≡ step_end (V.inside live.now) combine (map (λ (t : Task). t.commit) (drop from (take end tasks.now.items))) }
{
    if from >= end {
        return None;
    }
    let last = from + (end - from).min(combine as usize) - 1;
    let hi = tasks[last].commit;
    if last > from && live.inside(tasks[from].commit, hi) {
        return end_by_task(tasks, from, end, live, combine);
    }
    Some(hi)
}

/// Drops the first tasks, and answers how many actions they have.
fn drop_front(tasks: &mut VecDeque<Task>, count: usize) -> u64
    requires within { count ≤ length tasks.old.items }
    requires fits { actions_in tasks.old.items < 2 ^ 64 }
    ensures rest { tasks.new.items ≡ drop count tasks.old.items }
    ensures dropped { result + actions_in tasks.new.items ≡ actions_in tasks.old.items }
    ensures room { deque_capacity tasks.new ≡ deque_capacity tasks.old }
{
    let mut dropped = 0;
    for _ in 0..count {
        let task = tasks.pop_front().unwrap();
        dropped += task.actions;
    }
    dropped
}

impl Queue {
    /// No tasks, and no room. It takes no memory.
    pub(crate) fn new(alloc: Global) -> Queue
        ensures { result.list ≡ [] }
    {
        Queue {
            tasks: VecDeque::new(alloc),
            actions: 0,
        }
    }

    /// Makes room for `more` tasks.
    pub(crate) fn reserve(&mut self, more: u64) -> Result<(), NoMemory>
        ensures same { self.new.list ≡ self.old.list }
        ensures room { OnOk result (more ≤ self.new.spare) }
        ensures kept { self.old.spare ≤ self.new.spare }
    {
        self.tasks.reserve(more as usize)?;
        Ok(())
    }

    /// Puts a task behind the others.
    pub(crate) fn push(&mut self, task: Task)
        requires later { IsLater task.commit self.old.list }
        requires fits { actions_in self.old.list + task.actions < 2 ^ 64 }
        requires room { 0 < self.old.spare }
        ensures added { self.new.list ≡ self.old.list ++ task ∷ [] }
        ensures room { self.new.spare + 1 ≡ self.old.spare }
    {
        self.actions += task.actions;
        self.tasks.push_back_reserved(task);
    }

    /// Drops the tasks of commits up to this one. Cost: linear in what it drops.
    pub(crate) fn drop_to(&mut self, hi: u64)
        ensures rest { self.new.list ≡ tasks_above hi self.old.list }
        ensures room { self.old.spare ≤ self.new.spare }
    {
        let count = place_above(&self.tasks, hi);
        let dropped = drop_front(&mut self.tasks, count);
        self.actions -= dropped;
    }

    /// Where the planned step over the tasks above the one commit and up to the other ends. Cost: at most two binary
    /// searches, and a look at each task only where a live snapshot lies within the step.
    pub(crate) fn next_range<V: Live>(
        &self,
        lo: u64,
        limit: u64,
        live: &V,
        combine: u32,
    ) -> Option<u64>
        requires { 0 < combine }
        ensures { result ≡ step_end (V.inside live.now) combine (commits_between lo limit self.now.list) }
    {
        let from = place_above(&self.tasks, lo);
        let end = place_above(&self.tasks, limit);
        end_within(&self.tasks, from, end, live, combine)
    }

    /// What a policy sees of the view.
    pub(crate) fn pending(&self, view: u32) -> Option<Pending>
        ensures { result ≡ pending_in view self.now.list }
    {
        let oldest = self.tasks.front()?.commit;
        Some(Pending {
            view,
            oldest,
            actions: self.actions,
        })
    }

    /// The view's number and the commit of each task.
    pub(crate) fn list(&self, alloc: Global, view: u32) -> Result<Items<(u32, u64)>, NoMemory>
        ensures { IfOk result (λ list. list ≡ pairs_of view self.now.list) }
    {
        let mut list = Items::new(alloc);
        for at in 0..self.tasks.len() {
            list.push((view, self.tasks[at].commit))?;
        }
        Ok(list)
    }
}
