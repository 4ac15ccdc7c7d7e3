//! The statement that a line is.

ghost use Rattle.std.specs.Prelude.{◌≡◌, ◌^◌, ◌-◌, ◌<◌, ◌⊎◌, ◌&&◌, ℕ, length, All, IfOk, IfSome, Err, Ok, is_none};
ghost use Rattle.lv_parser.specs.declared.tree.Stmt.{Stmt};
ghost use Rattle.lv_parser.specs.Fault.{IsAnswer};
ghost use Rattle.lv_parser.specs.Grammar as rule;
ghost use Rattle.lv_parser.specs.Lines.{ReadsAs, IsFaultAt, end_byte};
ghost use Rattle.lv_parser.specs.Numbers.{IsSmall};
ghost use Rattle.lv_parser.specs.Reading.{is_nothing};

use crate::cursor::Cursor;
use crate::statements::line;
use crate::stop::{ParseFault, Stop};
use crate::tree::Stmt;
use lv_lexer::{TerminalScan, Terminals, line_terminals};
use lv_values::Text;
use std::alloc::Global;

/// Whether no token is left and the line ends there.
fn is_whole(cursor: &Cursor, ends: bool) -> bool
    ensures { result ≡ (ends && is_nothing cursor.now) }
{
    ends && cursor.is_done()
}

/// The statement that is all of the tokens. The line ends behind them, or what is no token stands there; `end` is its
/// byte.
fn read_all(alloc: Global, terminals: Terminals, ends: bool, end: u32) -> Result<Stmt, ParseFault>
    requires { All IsSmall terminals }
    ensures { IsAnswer rule.line terminals ends end result }
{
    let mut cursor = Cursor::new(terminals);
    match line(alloc, &mut cursor) {
        Ok(found) => {
            if is_whole(&cursor, ends) {
                return Ok(found);
            }
            Err(ParseFault::Syntax {
                byte: cursor.byte(end),
            })
        }
        Err(Stop::Syntax) => Err(ParseFault::Syntax {
            byte: cursor.byte(end),
        }),
        Err(Stop::NoMemory) => Err(ParseFault::NoMemory),
    }
}

/// The byte, counted from 1, of the piece that is no token, or else of the line's end.
fn end_of(line: &Text, stopped: Option<u32>) -> u32
    requires len { length line.now < 2 ^ 32 - 1 }
    requires stopped { IfSome stopped (λ stop. stop < length line.now) }
    ensures { result ≡ end_byte line.now stopped }
{
    match stopped {
        None => line.as_bytes().len() as u32 + 1,
        Some(stop) => stop + 1,
    }
}

/// The statement that the line is, with names in lower case and places counted in bytes from 1. Cost: linear in the line.
#[inline(never)]
pub fn parse(alloc: Global, line: &Text) -> Result<Stmt, ParseFault>
    requires { length line.now < 2 ^ 32 - 1 }
    // What is answered is a reading of the line.
    ensures found { IfOk result (ReadsAs line.now) }
    // A line that reads as a statement is answered with it, unless memory is wanting. So it reads as one at most.
    ensures only { (stmt : Stmt) → ReadsAs line.now stmt → (result ≡ Ok stmt) ⊎ (result ≡ Err ParseFault.NoMemory) }
    // The byte of a syntax fault is where the line stops being a statement.
    ensures byte { (byte : ℕ) → result ≡ Err (ParseFault.Syntax byte) → IsFaultAt line.now byte }
{
    let TerminalScan { list, stopped } = line_terminals(alloc, line)?;
    let end = end_of(line, stopped);
    read_all(alloc, list, stopped.is_none(), end)
}
