//! Forms of a worker's line.
ghost use Rattle.lv_lines.specs.WorkerForms as form;

use crate::names::Names;
use crate::reply_forms::Step;
use crate::worker::Action;
use lv_forms::{Count, Ended, Form, Pair, Small, print_after, which};
use lv_reading::{Cursor, Stop};
use lv_values::{Bytes, NoMemory};
use std::alloc::Global;

/// What a worker did, up to the end of the line.
#[derive(Clone, Copy)]
pub(crate) struct AnyAction<'a> {
    pub(crate) names: &'a Names,
}

impl<'a> Form for AnyAction<'a> {
    type Value = Action;

    ghost form = { λ s. form.any_action s.names.now };

    fn print(&self, action: &Action, out: &mut Bytes) -> Result<(), NoMemory> {
        let line = Ended(Step { names: self.names }, b"\n");
        let moved = Pair(Step { names: self.names }, b" at ", Ended(Count, b"\n"));
        match action {
            Action::Fetch(step) => print_after(b" fetch ", &line, step, out),
            Action::Idle => out.extend_from_slice(b" idle\n"),
            Action::Busy => out.extend_from_slice(b" busy\n"),
            Action::Install(step) => print_after(b" install ", &line, step, out),
            Action::Moved { step, point } => moved.print_after(b" moved ", step, point, out),
            Action::Empty => out.extend_from_slice(b" empty\n"),
            Action::Release => out.extend_from_slice(b" release\n"),
        }
    }

    #[tactic(auto, unfolding(lv_forms::specs::Tables::which))]
    fn read(&self, alloc: Global, cursor: &mut Cursor<'_>) -> Result<Action, Stop> {
        let line = Ended(Step { names: self.names }, b"\n");
        let moved = Pair(Step { names: self.names }, b" at ", Ended(Count, b"\n"));
        match which(
            &[
                b" fetch ",
                b" idle\n",
                b" busy\n",
                b" install ",
                b" moved ",
                b" empty\n",
                b" release\n",
            ],
            cursor,
        )? {
            0 => Ok(Action::Fetch(line.read(alloc, cursor)?)),
            1 => Ok(Action::Idle),
            2 => Ok(Action::Busy),
            3 => Ok(Action::Install(line.read(alloc, cursor)?)),
            4 => {
                let (step, point) = moved.read(alloc, cursor)?;
                Ok(Action::Moved { step, point })
            }
            5 => Ok(Action::Empty),
            6 => Ok(Action::Release),
            _ => unreachable!(),
        }
    }
}

/// The number of a worker, 1 to 8.
#[derive(Clone, Copy)]
pub(crate) struct Worker;

impl Form for Worker {
    type Value = u32;

    ghost form = { λ _. form.worker };

    fn print(&self, worker: &u32, out: &mut Bytes) -> Result<(), NoMemory> {
        Small.print(worker, out)
    }

    fn read(&self, alloc: Global, cursor: &mut Cursor<'_>) -> Result<u32, Stop> {
        let worker = Small.read(alloc, cursor)?;
        if !(worker >= 1 && worker <= 8) {
            return Err(Stop::Bad);
        }
        Ok(worker)
    }
}
