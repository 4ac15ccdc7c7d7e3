//! The program of a made script.
ghost use Rattle.std.specs.Prelude.{◌≡◌, ◌≤◌, Ok, IfOk};
ghost use Rattle.lv_plain.specs.Following.{IsFollowable};
ghost use Rattle.lv_plain.specs.Limits.{IsWithinLimits};
ghost use Rattle.lv_plain.specs.SessionNames.{AreSessionNames, session_names};
ghost use Rattle.lv_lines.specs.Script.{script_of};
ghost use Rattle.lv_make.specs.MadeProgram as spec;
ghost use Rattle.lv_make.specs.ScriptText.{made_script};

use crate::script_text::make_script;
use lv_lines::{ScriptFault, read_script};
use lv_plain::Program;
use lv_values::NoMemory;
use std::alloc::Global;

/// The program that the script made for `n` sales says. It says one: no line of a made script has a fault.
/// Cost: that of making the script and of reading it, linear in its text.
pub fn make_program(alloc: Global, n: u32) -> Result<Program, NoMemory>
    requires least { 1 ≤ n }
    requires most { n ≤ 65536 }
    ensures script { IfOk result (λ program. script_of (made_script n) ≡ Ok program) }
    ensures program { IfOk result (λ program. program ≡ spec.made_program n) }
    ensures limits { IfOk result IsWithinLimits }
    ensures names { IfOk result (λ program. AreSessionNames (session_names program)) }
    ensures order { IfOk result IsFollowable }
{
    let script = make_script(alloc, n)?;
    match read_script(alloc, script.as_slice()) {
        Ok(program) => Ok(program),
        Err(ScriptFault::NoMemory) => Err(NoMemory),
        Err(ScriptFault::Bad { .. }) => unreachable!(),
    }
}
