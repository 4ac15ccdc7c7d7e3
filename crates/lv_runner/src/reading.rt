//! The script, as it is read from the source.
ghost use Rattle.std.specs.Prelude.{◌≡◌, ◌≤◌, ℕ, List, IfOk, IfSome, MatchResult, length};
ghost use Rattle.std.specs.Io.KnownBytes.{Consumes, IsAtEnd};
ghost use Rattle.lv_lines.specs.Judged.{IsFaultOf};
ghost use Rattle.lv_lines.specs.Script.{script_of};
ghost use Rattle.lv_make.specs.ScriptText.{made_script};
ghost use Rattle.lv_runner.specs.Ends.{HasInput, HasRead, WhyNone, WhyUnread};
ghost use Rattle.lv_runner.specs.Output.{limit};
ghost use Rattle.lv_runner.specs.Plan.{IsCause, IsPlanOf};

use lv_lines::{ScriptFault, read_script};
use lv_make::make_program;
use lv_order::events_in_order;
use lv_outside::{Ended, ReadFault, Source, read_whole};
use lv_plain::{Events, Program};
use lv_values::{Bytes, NoMemory};
use std::alloc::Global;

/// The most bytes of a script.
const LIMIT: usize = 16777216;

/// Why there is no program.
#[derive(Clone, Copy, Debug, PartialEq, Eq)]
pub(crate) enum Unread {
    /// The script is refused at this line, with this kind.
    Script { line: u64, kind: u8 },
    /// The source failed.
    Source,
    /// Memory was refused.
    NoMemory,
}

impl From<NoMemory> for Unread {
    ghost use Rattle.lv_runner.specs.declared.reading.Unread.TheVariants.{NoMemory as MemoryRefused};

    ghost from_gives = { λ _ e. e ≡ MemoryRefused };

    fn from(_: NoMemory) -> Self {
        Unread::NoMemory
    }
}

/// A program, the events of its schedule in their order, and the bytes of its script, where it was read. These stay until
/// the run ends: once so large a piece is given back, an allocator may copy lists up to its size as they grow, which it
/// moved before (glibc's does; with the script of 10,000 updates that is a twentieth of their time).
#[derive(Drop)]
pub(crate) struct Plan {
    pub(crate) program: Program,
    pub(crate) events: Events,
    script: Bytes,
}

/// Reads the bytes of a script.
#[tactic(auto, using(crate::proofs::Read::past_limit))]
fn read_bytes<S: Source>(alloc: Global, source: &mut S) -> Result<Bytes, Unread>
    ensures read { MatchResult result (λ bytes. HasRead (S.left source.old) (S.left source.new) bytes × (length bytes ≤ limit))
        (WhyUnread (S.left source.old) (S.left source.new) (S.faults source.old) (S.faults source.new)) }
    ensures count { S.faults source.old ≤ S.faults source.new }
{
    match read_whole(alloc, source, LIMIT) {
        Ok((bytes, Ended::AtEnd)) => Ok(bytes),
        Ok((_, Ended::PastLimit)) => Err(Unread::Script { line: 0, kind: 2 }),
        Err(ReadFault::Failed) => Err(Unread::Source),
        Err(ReadFault::NoMemory) => Err(Unread::NoMemory),
    }
}

/// Why a script that is not read has no program.
fn refused(fault: ScriptFault) -> Unread
    ensures { (bytes : List ℕ) → IsFaultOf (script_of bytes) fault → IsCause bytes result }
{
    match fault {
        ScriptFault::Bad { line, kind } => Unread::Script {
            line,
            kind: kind.number(),
        },
        ScriptFault::NoMemory => Unread::NoMemory,
    }
}

/// The program that the bytes say, and the events of its schedule.
fn plan_of(alloc: Global, script: Bytes) -> Result<Plan, Unread>
    ensures { MatchResult result (IsPlanOf script) (IsCause script) }
{
    match read_script(alloc, script.as_slice()) {
        Ok(program) => {
            let events = events_in_order(alloc, &program)?;
            Ok(Plan {
                program,
                events,
                script,
            })
        }
        Err(fault) => Err(refused(fault)),
    }
}

/// Reads a script. Cost: linear in the script.
#[tactic(auto, using(crate::proofs::Read::plan_read))]
fn read_plan<S: Source>(alloc: Global, source: &mut S) -> Result<Plan, Unread>
    ensures plan { MatchResult result (λ plan. (bytes : List ℕ) × HasRead (S.left source.old) (S.left source.new) bytes × IsPlanOf bytes plan)
        (WhyUnread (S.left source.old) (S.left source.new) (S.faults source.old) (S.faults source.new)) }
    ensures count { S.faults source.old ≤ S.faults source.new }
{
    let script = read_bytes(alloc, source)?;
    plan_of(alloc, script)
}

/// The program of a script that is made for so many sales, and the events of its schedule. Cost: linear in the script.
fn made_plan(alloc: Global, number: u32) -> Result<Plan, NoMemory>
    requires some { 1 ≤ number }
    requires most { number ≤ 65536 }
    ensures { IfOk result (IsPlanOf (made_script number)) }
{
    let program = make_program(alloc, number)?;
    let events = events_in_order(alloc, &program)?;
    Ok(Plan {
        program,
        events,
        script: Bytes::new(alloc),
    })
}

/// Reads a script, or makes it where so many sales are asked for; then the source is left alone.
pub(crate) fn plan_for<S: Source>(
    alloc: Global,
    made: Option<u32>,
    source: &mut S,
) -> Result<Plan, Unread>
    requires { IfSome made (λ n. (1 ≤ n) × (n ≤ 65536)) }
    ensures plan { MatchResult result (λ plan. (bytes : List ℕ) × HasInput made (S.left source.old) (S.left source.new) bytes × IsPlanOf bytes plan)
        (WhyNone made (S.left source.old) (S.left source.new) (S.faults source.old) (S.faults source.new)) }
    ensures count { S.faults source.old ≤ S.faults source.new }
{
    match made {
        None => read_plan(alloc, source),
        Some(number) => Ok(made_plan(alloc, number)?),
    }
}
