//! The upkeep of all views.
ghost use Rattle.std.specs.Prelude.{◌≡◌, ◌≤◌, ◌<◌, ◌+◌, ◌^◌, ℕ, length, slice_index, IfOk, OnOk, OnErr, None, Some};
ghost use Rattle.lv_schema.specs.StepPlans.{step_of};
ghost use Rattle.lv_tasks.specs.Kept.{IsLater, actions_in, tasks_kept};
ghost use Rattle.lv_upkeep.specs.Kept.{claim_kept, forced_in, least_in, planned_in, tasks_in, unclaimed_in, upkeep_empty};
ghost use Rattle.lv_upkeep.specs.Moves.{upkeep_claimed, upkeep_marked, upkeep_stepped, upkeep_with_task, upkeep_with_view};

use crate::maintained::{Maintained, least_point};
use crate::planning::{candidate_into, force_into};
use lv_schema::{Forced, ForcedSteps, Live, Pendings};
use lv_tasks::Tasks;
use lv_values::{Items, NoMemory, Room};
use std::alloc::Global;
use std::marker::Model;

/// Of each view the commit to which it is maintained, its mark and its pending tasks; and the steps that workers 1 to 8
/// have claimed. Contracts see all of it as one value, and beside it how many views and tasks still go in without
/// memory.
#[derive(Drop)]
pub struct Upkeep {
    views: Room<Maintained>,
    tasks: Tasks,
    claims: [Option<Forced>; 9],
}

impl Model for Upkeep {
    ghost use Rattle.std.specs.Prelude.{◌≡◌, ◌≤◌, ℕ, [], length, map, take};
    ghost use Rattle.lv_tasks.specs.Kept.{tasks_kept};
    ghost use Rattle.lv_upkeep.specs.Kept.{UpkeepKept, UpkeepRoom};

    ghost Value = { UpkeepRoom };

    ghost view = { λ u. record {
      kept = record {
        points = map (λ m. m.point) u.views.list;
        marks = map (λ m. m.mark) u.views.list;
        tasks = take (length u.views.list) u.tasks.tasks;
        claims = u.claims;
      };
      view_spare = u.views.spare;
      task_spare = u.tasks.spare;
    } };

    ghost invariant = { λ u.
        (length u.views.list ≤ 32)
        × (length u.tasks.tasks ≡ 32)
        × ((v : ℕ) → length u.views.list ≤ v → tasks_kept u.tasks.tasks v ≡ []) };
}

impl Upkeep {
    /// No views, no claims, and no room. It takes no memory.
    pub fn new(alloc: Global) -> Upkeep
        ensures { result.kept ≡ upkeep_empty }
    {
        Upkeep {
            views: Room::new(alloc),
            tasks: Tasks::new(alloc),
            claims: [None; 9],
        }
    }

    /// Makes room for one more view. Want of memory changes nothing, and room never shrinks.
    pub fn reserve_view(&mut self) -> Result<(), NoMemory>
        ensures same { self.new.kept ≡ self.old.kept }
        ensures room { OnOk result (0 < self.new.view_spare) }
        ensures views { self.old.view_spare ≤ self.new.view_spare }
        ensures tasks { self.new.task_spare ≡ self.old.task_spare }
    {
        self.views.reserve(1)
    }

    /// Makes room for so many tasks, of whichever views. Want of memory changes nothing, and room never shrinks.
    pub fn reserve(&mut self, tasks: u64) -> Result<(), NoMemory>
        ensures same { self.new.kept ≡ self.old.kept }
        ensures room { OnOk result (tasks ≤ self.new.task_spare) }
        ensures tasks { self.old.task_spare ≤ self.new.task_spare }
        ensures views { self.new.view_spare ≡ self.old.view_spare }
    {
        self.tasks.reserve(tasks)
    }

    /// Adds the next view, which is made at a commit: it is maintained and marked to it. It takes no memory.
    pub fn add_view(&mut self, created: u64)
        requires few { length self.old.kept.points < 32 }
        requires room { 0 < self.old.view_spare }
        ensures added { self.new.kept ≡ upkeep_with_view created self.old.kept }
        ensures views { self.new.view_spare + 1 ≡ self.old.view_spare }
        ensures tasks { self.new.task_spare ≡ self.old.task_spare }
    {
        self.views.push(Maintained {
            point: created,
            mark: created,
        });
    }

    /// Puts a task behind the view's others: a commit, and how many of its actions are on the view's tables.
    /// It takes no memory. Cost: constant.
    pub fn task(&mut self, view: u32, commit: u64, actions: u64)
        requires view { view < length self.old.kept.points }
        requires later { IsLater commit (tasks_kept self.old.kept.tasks view) }
        requires fits { actions_in (tasks_kept self.old.kept.tasks view) + actions < 2 ^ 64 }
        requires room { 0 < self.old.task_spare }
        ensures added { self.new.kept ≡ upkeep_with_task view (record { commit = commit; actions = actions }) self.old.kept }
        ensures tasks { self.new.task_spare + 1 ≡ self.old.task_spare }
        ensures views { self.new.view_spare ≡ self.old.view_spare }
    {
        self.tasks.add(view, commit, actions);
    }

    /// The commit to which a view is maintained. Cost: constant.
    pub fn point(&self, view: u32) -> u64
        requires { view < length self.now.kept.points }
        ensures { result ≡ slice_index self.now.kept.points view }
    {
        self.views.get(view as usize).point
    }

    /// The commit to which a view is marked as maintained. Cost: constant.
    pub fn marked(&self, view: u32) -> u64
        requires { view < length self.now.kept.points }
        ensures { result ≡ slice_index self.now.kept.marks view }
    {
        self.views.get(view as usize).mark
    }

    /// The planned step of a view from its point to at most a limit. It takes no memory. Cost: two binary searches among
    /// the view's tasks, and a look at each task only where a live snapshot lies within the step.
    pub fn planned<V: Live>(&self, view: u32, limit: u64, live: &V, combine: u32) -> Option<Forced>
        requires view { view < length self.now.kept.points }
        requires some { 0 < combine }
        ensures { result ≡ planned_in (V.inside live.now) combine self.now.kept view limit }
    {
        let lo = self.point(view);
        let hi = self.tasks.next_range(view, lo, limit, live, combine)?;
        Some(Forced { view, lo, hi })
    }

    /// The planned steps that bring views up to a snapshot, view by view. Nothing moves. Cost: as `planned`, for each
    /// step.
    pub fn forced<V: Live>(
        &self,
        alloc: Global,
        views: &[u32],
        snapshot: u64,
        live: &V,
        combine: u32,
    ) -> Result<ForcedSteps, NoMemory>
        requires views { (k : ℕ) → k < length views.now → slice_index views.now k < length self.now.kept.points }
        requires some { 0 < combine }
        ensures { IfOk result (λ steps. steps ≡ forced_in (V.inside live.now) combine self.now.kept views.now snapshot) }
    {
        let mut steps = ForcedSteps::new(alloc);
        for view in views {
            let point = self.views.get(*view as usize).point;
            force_into(
                &self.tasks,
                *view,
                point,
                snapshot,
                live,
                combine,
                &mut steps,
            )?;
        }
        Ok(steps)
    }

    /// Moves a view's point on, and drops the tasks up to there. It takes no memory. Cost: linear in what it drops.
    pub fn advance(&mut self, view: u32, hi: u64)
        requires { view < length self.old.kept.points }
        ensures moved { self.new.kept ≡ upkeep_stepped (step_of view (slice_index self.old.kept.points view) hi) self.old.kept }
        ensures views { self.new.view_spare ≡ self.old.view_spare }
        ensures tasks { self.new.task_spare ≡ self.old.task_spare }
    {
        let mark = self.views.get(view as usize).mark;
        self.views
            .set(view as usize, Maintained { point: hi, mark });
        self.tasks.drop_to(view, hi);
    }

    /// Marks a view at its point. It takes no memory. Cost: constant.
    pub fn mark(&mut self, view: u32)
        requires { view < length self.old.kept.points }
        ensures marked { self.new.kept ≡ upkeep_marked view self.old.kept }
        ensures views { self.new.view_spare ≡ self.old.view_spare }
        ensures tasks { self.new.task_spare ≡ self.old.task_spare }
    {
        let point = self.views.get(view as usize).point;
        self.views
            .set(view as usize, Maintained { point, mark: point });
    }

    /// The views that no worker has claimed and that have pending tasks, by their numbers. Cost: a look at each view.
    pub fn unclaimed(&self, alloc: Global) -> Result<Pendings, NoMemory>
        ensures { IfOk result (λ list. list ≡ unclaimed_in self.now.kept) }
    {
        let mut list = Pendings::new(alloc);
        for view in 0..self.views.len() {
            candidate_into(&self.claims, &self.tasks, view as u32, &mut list)?;
        }
        Ok(list)
    }

    /// The pending tasks of all views, by view and then by commit. Cost: linear in them.
    pub fn tasks(&self, alloc: Global) -> Result<Items<(u32, u64)>, NoMemory>
        ensures { IfOk result (λ list. list ≡ tasks_in self.now.kept) }
    {
        let mut list = Items::new(alloc);
        for view in 0..self.views.len() {
            list.append(self.tasks.list(alloc, view as u32)?)?;
        }
        Ok(list)
    }

    /// The step becomes the claim of a worker, 1 to 8. It takes no memory.
    pub fn set_claim(&mut self, worker: u32, step: Forced)
        requires { worker < 9 }
        ensures claimed { self.new.kept ≡ upkeep_claimed worker (Some step) self.old.kept }
        ensures views { self.new.view_spare ≡ self.old.view_spare }
        ensures tasks { self.new.task_spare ≡ self.old.task_spare }
    {
        self.claims[worker as usize] = Some(step);
    }

    /// The claim of a worker, 1 to 8, ends. It takes no memory.
    pub fn end_claim(&mut self, worker: u32)
        requires { worker < 9 }
        ensures claimed { self.new.kept ≡ upkeep_claimed worker None self.old.kept }
        ensures views { self.new.view_spare ≡ self.old.view_spare }
        ensures tasks { self.new.task_spare ≡ self.old.task_spare }
    {
        self.claims[worker as usize] = None;
    }

    /// What a worker, 1 to 8, has claimed.
    pub fn claim(&self, worker: u32) -> Option<Forced>
        requires { worker < 9 }
        ensures { result ≡ claim_kept self.now.kept worker }
    {
        self.claims[worker as usize]
    }

    /// The least of the views' points, none where there is no view. Cost: a look at each view.
    pub fn least_point(&self) -> Option<u64>
        ensures { result ≡ least_in self.now.kept.points }
    {
        let views = self.views.as_slice();
        let first = views.first()?;
        Some(least_point(first.point, views))
    }
}
