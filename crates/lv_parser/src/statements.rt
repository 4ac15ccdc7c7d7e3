//! Statements, and a line.

ghost use Rattle.std.specs.Prelude.{◌≡◌};
ghost use Rattle.lv_lexer.specs.declared.terminals.Class.{Class};
ghost use Rattle.lv_parser.specs.declared.tree.Stmt.TheVariants as st;
ghost use Rattle.lv_parser.specs.Reading.{Gives};
ghost use Rattle.lv_parser.specs.Read as read;

use crate::changes::{delete, insert, update};
use crate::creation::create;
use crate::cursor::Cursor;
use crate::queries::select;
use crate::stop::Stop;
use crate::tree::Stmt;
use lv_lexer::Class;
use std::alloc::Global;

/// SHOW TASKS.
#[tactic(auto, unfolding(crate::specs::Read::tasks))]
fn tasks(cursor: &mut Cursor) -> Result<Stmt, Stop>
    ensures { Gives (read.tasks cursor.old) result cursor.new }
{
    cursor.expect(Class::Show)?;
    cursor.expect(Class::Tasks)?;
    Ok(Stmt::ShowTasks)
}

/// The end of a transaction, or SHOW TASKS.
#[tactic(auto, unfolding(crate::specs::Read::ending))]
fn ending(cursor: &mut Cursor) -> Result<Stmt, Stop>
    ensures { Gives (read.ending cursor.old) result cursor.new }
{
    if cursor.sees(Class::Commit) {
        cursor.expect(Class::Commit)?;
        Ok(Stmt::Commit)
    } else if cursor.sees(Class::Rollback) {
        cursor.expect(Class::Rollback)?;
        Ok(Stmt::Rollback)
    } else {
        tasks(cursor)
    }
}

/// A statement of one word, or SHOW TASKS.
#[tactic(auto, unfolding(crate::specs::Read::short))]
fn short(cursor: &mut Cursor) -> Result<Stmt, Stop>
    ensures { Gives (read.short cursor.old) result cursor.new }
{
    if cursor.sees(Class::Begin) {
        cursor.expect(Class::Begin)?;
        Ok(Stmt::Begin)
    } else {
        ending(cursor)
    }
}

/// DELETE, SELECT, or a shorter statement.
#[tactic(auto, unfolding(crate::specs::Read::other))]
#[inline(never)]
fn other(alloc: Global, cursor: &mut Cursor) -> Result<Stmt, Stop>
    ensures { Gives (read.other cursor.old) result cursor.new }
{
    if cursor.sees(Class::Delete) {
        return delete(alloc, cursor);
    }
    if cursor.sees(Class::Select) {
        return select(alloc, cursor);
    }
    short(cursor)
}

/// A statement, told by its first word. Each kind is handed on as it is read, since a statement is large.
#[tactic(auto, unfolding(crate::specs::Read::statement))]
fn statement(alloc: Global, cursor: &mut Cursor) -> Result<Stmt, Stop>
    ensures { Gives (read.statement cursor.old) result cursor.new }
{
    if cursor.sees(Class::Create) {
        return create(alloc, cursor);
    }
    if cursor.sees(Class::Insert) {
        return insert(alloc, cursor);
    }
    if cursor.sees(Class::Update) {
        return update(alloc, cursor);
    }
    other(alloc, cursor)
}

/// A statement, with a semicolon behind it or not. Cost: linear in the tokens.
#[tactic(auto, unfolding(crate::specs::Read::line))]
pub(crate) fn line(alloc: Global, cursor: &mut Cursor) -> Result<Stmt, Stop>
    ensures { Gives (read.line cursor.old) result cursor.new }
{
    let found = statement(alloc, cursor);
    if found.is_ok() {
        cursor.allow(Class::Semicolon);
    }
    found
}
