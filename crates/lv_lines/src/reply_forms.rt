//! Forms of replies and of steps of maintenance.
ghost use Rattle.lv_lines.specs.ReplyForms as form;

use crate::fault_forms::AnyFault;
use crate::names::Names;
use crate::value_forms::{AnyValue, Name};
use lv_forms::{
    After, Both, Count, Counted, Ended, Form, Joined, Optional, Pair, print_after, which,
};
use lv_plain::Reply;
use lv_reading::{Cursor, Stop};
use lv_schema::Forced;
use lv_values::{Bytes, NoMemory};
use std::alloc::Global;

type Row = After<'static, Ended<'static, Joined<'static, AnyValue>>>;

const ROW: Row = After(b"| ", Ended(Joined(b" | ", AnyValue), b"\n"));

type Commit = Ended<'static, Optional<'static, Count>>;

/// A commit's number behind a space, where there is a commit, and the end of the line.
const COMMIT: Commit = Ended(Optional(b" ", Count), b"\n");

/// The end of a line behind a number of changes: a commit, or none.
#[derive(Clone, Copy)]
struct Tail;

impl Form for Tail {
    ghost use Rattle.lv_forms.specs.Tables.{table};

    type Value = Option<Option<u64>>;

    ghost form = { λ _. table form.tail_kinds form.tail_fields };

    fn print(&self, value: &Option<Option<u64>>, out: &mut Bytes) -> Result<(), NoMemory> {
        match value {
            None => out.extend_from_slice(b"\n"),
            Some(number) => print_after(b" commit", &COMMIT, number, out),
        }
    }

    #[tactic(auto, unfolding(lv_forms::specs::Tables::which))]
    fn read(&self, alloc: Global, cursor: &mut Cursor<'_>) -> Result<Option<Option<u64>>, Stop> {
        match which(&[b"\n", b" commit"], cursor)? {
            0 => Ok(None),
            1 => Ok(Some(COMMIT.read(alloc, cursor)?)),
            _ => unreachable!(),
        }
    }
}

/// The line of a pending task.
#[derive(Clone, Copy)]
struct Task<'a> {
    names: &'a Names,
}

impl<'a> Form for Task<'a> {
    type Value = (u32, u64);

    ghost form = { λ s. form.task s.names.now };

    fn print(&self, value: &(u32, u64), out: &mut Bytes) -> Result<(), NoMemory> {
        let task = Pair(Name(&self.names.views), b" | ", Count);
        After(b"| ", Ended(task, b"\n")).print(value, out)
    }

    fn read(&self, alloc: Global, cursor: &mut Cursor<'_>) -> Result<(u32, u64), Stop> {
        let task = Pair(Name(&self.names.views), b" | ", Count);
        After(b"| ", Ended(task, b"\n")).read(alloc, cursor)
    }
}

/// A reply, with the lines that belong to it.
#[derive(Clone, Copy)]
pub(crate) struct AnyReply<'a> {
    pub(crate) names: &'a Names,
}

const REPLIES: [&[u8]; 8] = [
    b"ok\n",
    b"ok ",
    b"begin ",
    b"commit",
    b"rollback\n",
    b"rows ",
    b"tasks ",
    b"fault ",
];

impl<'a> Form for AnyReply<'a> {
    type Value = Reply;

    ghost form = { λ s. form.any_reply s.names.now };

    fn print(&self, reply: &Reply, out: &mut Bytes) -> Result<(), NoMemory> {
        let changes = Both(Count, Tail);
        match reply {
            Reply::Made => out.extend_from_slice(b"ok\n"),
            Reply::Changed { count } => print_after(b"ok ", &changes, &(*count, None), out),
            Reply::Alone { count, number } => print_after(
                b"ok ",
                &changes,
                &(*count, Some(*number)),
                out,
            ),
            Reply::Began { snapshot } => print_after(
                b"begin ",
                &Ended(Count, b"\n"),
                snapshot,
                out,
            ),
            Reply::Committed { number } => print_after(b"commit", &COMMIT, number, out),
            Reply::RolledBack => out.extend_from_slice(b"rollback\n"),
            Reply::Rows(rows) => {
                let form = Counted(Count, b"\n", ROW);
                print_after(b"rows ", &form, rows, out)
            }
            Reply::Tasks(tasks) => {
                let form = Counted(Count, b"\n", Task { names: self.names });
                print_after(b"tasks ", &form, tasks, out)
            }
            Reply::Refused(fault) => {
                let form = Ended(AnyFault { names: self.names }, b"\n");
                print_after(b"fault ", &form, fault, out)
            }
        }
    }

    #[tactic(auto, unfolding(lv_forms::specs::Tables::which))]
    fn read(&self, alloc: Global, cursor: &mut Cursor<'_>) -> Result<Reply, Stop> {
        match which(&REPLIES, cursor)? {
            0 => Ok(Reply::Made),
            1 => match (Both(Count, Tail)).read(alloc, cursor)? {
                (count, None) => Ok(Reply::Changed { count }),
                (count, Some(number)) => Ok(Reply::Alone { count, number }),
            },
            2 => Ok(Reply::Began {
                snapshot: Ended(Count, b"\n").read(alloc, cursor)?,
            }),
            3 => Ok(Reply::Committed {
                number: COMMIT.read(alloc, cursor)?,
            }),
            4 => Ok(Reply::RolledBack),
            5 => Ok(Reply::Rows(Counted(Count, b"\n", ROW).read(alloc, cursor)?)),
            6 => {
                let form = Counted(Count, b"\n", Task { names: self.names });
                Ok(Reply::Tasks(form.read(alloc, cursor)?))
            }
            7 => {
                let form = Ended(AnyFault { names: self.names }, b"\n");
                Ok(Reply::Refused(form.read(alloc, cursor)?))
            }
            _ => unreachable!(),
        }
    }
}

/// A step of maintenance: the view, from which commit and to which.
#[derive(Clone, Copy)]
pub(crate) struct Step<'a> {
    pub(crate) names: &'a Names,
}

impl<'a> Form for Step<'a> {
    type Value = Forced;

    ghost form = { λ s. form.step s.names.now };

    fn print(&self, step: &Forced, out: &mut Bytes) -> Result<(), NoMemory> {
        let view = Name(&self.names.views);
        let form = Pair(view, b" ", Pair(Count, b" ", Count));
        form.print(&(step.view, (step.lo, step.hi)), out)
    }

    fn read(&self, alloc: Global, cursor: &mut Cursor<'_>) -> Result<Forced, Stop> {
        let view = Name(&self.names.views);
        let form = Pair(view, b" ", Pair(Count, b" ", Count));
        let (view, (lo, hi)) = form.read(alloc, cursor)?;
        Ok(Forced { view, lo, hi })
    }
}

/// The line of a step that a statement forced.
#[derive(Clone, Copy)]
pub(crate) struct ForcedLine<'a> {
    pub(crate) names: &'a Names,
}

impl<'a> Form for ForcedLine<'a> {
    type Value = Forced;

    ghost form = { λ s. form.forced_line s.names.now };

    fn print(&self, step: &Forced, out: &mut Bytes) -> Result<(), NoMemory> {
        let form = Ended(Step { names: self.names }, b"\n");
        print_after(b"force ", &form, step, out)
    }

    fn read(&self, alloc: Global, cursor: &mut Cursor<'_>) -> Result<Forced, Stop> {
        let form = Ended(Step { names: self.names }, b"\n");
        After(b"force ", form).read(alloc, cursor)
    }
}
