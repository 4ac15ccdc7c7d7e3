//! The sections of a script, and what a line adds to them.
ghost use Rattle.std.specs.Prelude.{◌≡◌, ◌≤◌, length, map, IfOk, OnOk};
ghost use Rattle.lv_lines.specs.Judged.{Judges};
ghost use Rattle.lv_lines.specs.Script as spec;
ghost use Rattle.lv_lines.specs.ScriptLine as says;

use crate::order_line::{items_of, take_turns};
use crate::script_fault::{LineFault, ScriptFaultKind};
use crate::script_line::{first_word, is_section, is_silent, reads, text_of, unindented, words_of};
use crate::session_name::{is_session_name, lowered, session_of};
use lv_plain::{Program, Script, Scripts};
use lv_values::{Items, NoMemory, Text};
use std::alloc::Global;

/// The most bytes of a line, without its end.
const LINE_BYTES: usize = 65_536;

/// The most sessions of a script.
const SESSIONS: usize = 16;

/// The most statements of a script.
const STATEMENTS: u64 = 100_000;

/// The most order items of a script.
const ORDER_ITEMS: usize = 200_000;

/// The section that a line stands in.
#[derive(Clone, Copy)]
pub(crate) enum Section {
    /// Before the first section.
    Nowhere,
    /// In the setup.
    Setup,
    /// In the last session so far.
    Session,
    /// Behind the first order line.
    Order,
}

/// A script as far as it is read.
#[derive(Drop)]
pub(crate) struct Part {
    /// The section that the next line stands in.
    pub section: Section,
    /// The program so far.
    pub program: Program,
    /// How many statements it has.
    pub statements: u64,
    /// Once the order has begun: how many statements of each session it has not named yet.
    pub left: Items<u64>,
}

fn is_order(section: Section) -> bool
    ensures { result ≡ spec.is_order section }
{
    matches!(section, Section::Order)
}

fn begin_setup(part: &mut Part, line: &[u8]) -> Result<(), LineFault>
    ensures { Judges (spec.said_fault part.old line.now says.setup) (spec.with_line part.old line.now says.setup) result part.new }
{
    match part.section {
        Section::Nowhere => {
            part.section = Section::Setup;
            Ok(())
        }
        _ => Err(LineFault::Kind(ScriptFaultKind::OutOfPlace)),
    }
}

fn begin_session(alloc: Global, part: &mut Part, line: &[u8], name: &[u8]) -> Result<(), LineFault>
    requires { length part.old.program.sessions ≤ 16 }
    ensures { Judges (spec.said_fault part.old line.now (says.session name.now)) (spec.with_line part.old line.now (says.session name.now)) result part.new }
{
    if is_order(part.section) {
        return Err(LineFault::Kind(ScriptFaultKind::OutOfPlace));
    }
    if !is_session_name(name) {
        return Err(LineFault::Kind(ScriptFaultKind::NoSessionName));
    }
    if session_of(part.program.sessions.as_slice(), name).is_some() {
        return Err(LineFault::Kind(ScriptFaultKind::NameUsed));
    }
    if part.program.sessions.len() >= SESSIONS {
        return Err(LineFault::Kind(ScriptFaultKind::TooManySessions));
    }
    let session = Script {
        name: lowered(alloc, name)?,
        lines: Items::new(alloc),
    };
    part.program.sessions.push(session)?;
    part.section = Section::Session;
    Ok(())
}

/// How many statements each session has.
fn counts(alloc: Global, sessions: &[Script]) -> Result<Items<u64>, NoMemory>
    ensures { IfOk result (λ found. found ≡ map (λ s. length s.lines) sessions.now) }
{
    let mut found = Items::new(alloc);
    for session in sessions {
        found.push(session.lines.len() as u64)?;
    }
    Ok(found)
}

/// Counts what each session has left, where the order has not begun.
fn count_left(alloc: Global, part: &mut Part) -> Result<(), NoMemory>
    ensures { OnOk result (part.new ≡ record part.old { left = spec.left_of part.old }) }
{
    if !is_order(part.section) {
        part.left = counts(alloc, part.program.sessions.as_slice())?;
    }
    Ok(())
}

fn take_order(alloc: Global, part: &mut Part, line: &[u8], words: &[&[u8]]) -> Result<(), LineFault>
    requires { length part.old.program.sessions ≤ 16 }
    ensures { Judges (spec.said_fault part.old line.now (says.order (map (λ w. w.now) words.now))) (spec.with_line part.old line.now (says.order (map (λ w. w.now) words.now))) result part.new }
{
    let Some(items) = items_of(alloc, part.program.sessions.as_slice(), words)? else {
        return Err(LineFault::Kind(ScriptFaultKind::NoOrderItem));
    };
    count_left(alloc, part)?;
    if !take_turns(&mut part.left, items.as_slice()) {
        return Err(LineFault::Kind(ScriptFaultKind::NoStatementLeft));
    }
    if part.program.order.len().saturating_add(items.len()) > ORDER_ITEMS {
        return Err(LineFault::Kind(ScriptFaultKind::TooManyItems));
    }
    part.program.order.append(items)?;
    part.section = Section::Order;
    Ok(())
}

/// Adds a statement to the last session.
fn add_to_last(sessions: &mut Scripts, statement: Text) -> Result<(), NoMemory>
    ensures { OnOk result (sessions.new ≡ spec.onto_last sessions.old statement) }
{
    match sessions.pop() {
        None => {}
        Some(mut session) => {
            session.lines.push(statement)?;
            sessions.push(session)?;
        }
    }
    Ok(())
}

fn add_statement(alloc: Global, part: &mut Part, line: &str) -> Result<(), LineFault>
    ensures { Judges (spec.said_fault part.old line.now says.statement) (spec.with_line part.old line.now says.statement) result part.new }
{
    if matches!(part.section, Section::Nowhere | Section::Order) {
        return Err(LineFault::Kind(ScriptFaultKind::OutOfPlace));
    }
    if part.statements >= STATEMENTS {
        return Err(LineFault::Kind(ScriptFaultKind::TooManyStatements));
    }
    let statement = Text::from_str(alloc, line)?;
    match part.section {
        Section::Setup => part.program.setup.push(statement)?,
        _ => add_to_last(&mut part.program.sessions, statement)?,
    }
    part.statements += 1;
    Ok(())
}

/// Takes a section line: its section word, and the words behind it.
fn take_section(
    alloc: Global,
    part: &mut Part,
    line: &[u8],
    word: &[u8],
    words: &[&[u8]],
) -> Result<(), LineFault>
    requires { length part.old.program.sessions ≤ 16 }
    ensures { Judges (spec.said_fault part.old line.now (says.said_section word.now (map (λ w. w.now) words.now))) (spec.with_line part.old line.now (says.said_section word.now (map (λ w. w.now) words.now))) result part.new }
{
    if reads(word, b"@setup") {
        return match words {
            [] => begin_setup(part, line),
            _ => Err(LineFault::Kind(ScriptFaultKind::NoSectionLine)),
        };
    }
    if reads(word, b"@session") {
        return match words {
            [] => begin_session(alloc, part, line, &[]),
            [name] => begin_session(alloc, part, line, *name),
            _ => Err(LineFault::Kind(ScriptFaultKind::NoSectionLine)),
        };
    }
    if reads(word, b"@order") {
        return take_order(alloc, part, line, words);
    }
    Err(LineFault::Kind(ScriptFaultKind::NoSectionLine))
}

/// Takes a line that is text and short enough.
fn take_text(alloc: Global, part: &mut Part, line: &str) -> Result<(), LineFault>
    requires { length part.old.program.sessions ≤ 16 }
    ensures { Judges (spec.said_fault part.old line.now (says.said line.now)) (spec.with_line part.old line.now (says.said line.now)) result part.new }
{
    let text = unindented(line.as_bytes());
    if is_silent(text) {
        return Ok(());
    }
    if !is_section(text) {
        return add_statement(alloc, part, line);
    }
    let (word, rest) = first_word(text);
    let words = words_of(alloc, rest)?;
    take_section(alloc, part, line.as_bytes(), word, words.as_slice())
}

/// Takes a line, which has lost its end. Cost: linear in the line, and for each word of an order line one
/// comparison with each session's name.
pub(crate) fn take_line(alloc: Global, part: &mut Part, line: &[u8]) -> Result<(), LineFault>
    requires { length part.old.program.sessions ≤ 16 }
    ensures { Judges (spec.fault_of part.old line.now) (spec.after_line part.old line.now) result part.new }
{
    let Some(text) = text_of(line) else {
        return Err(LineFault::Kind(ScriptFaultKind::NotUtf8));
    };
    if line.len() > LINE_BYTES {
        return Err(LineFault::Kind(ScriptFaultKind::LineTooLong));
    }
    take_text(alloc, part, text)
}
