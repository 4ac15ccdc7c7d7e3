//! INSERT, UPDATE and DELETE.

ghost use Rattle.std.specs.Prelude.{◌≡◌};
ghost use Rattle.lv_parser.specs.Reading.{Gives};
ghost use Rattle.lv_parser.specs.Read as read;

use crate::conditions::{Within, cond};
use crate::cursor::Cursor;
use crate::lists::{Part, separated};
use crate::names::{literal, name};
use crate::stop::Stop;
use crate::tree::{Assign, AssignValue, CondTree, Stmt, Tuple};
use lv_lexer::Class;
use std::alloc::Global;

impl Part for Tuple {
    ghost use Rattle.lv_parser.specs.Read.{tuple};

    ghost reader = { tuple };

    #[tactic(auto, unfolding(crate::specs::Read::tuple))]
    fn read(alloc: Global, cursor: &mut Cursor) -> Result<Tuple, Stop> {
        let paren = cursor.expect(Class::LeftParen)?;
        let values = separated(alloc, cursor, Class::Comma)?;
        cursor.expect(Class::RightParen)?;
        Ok(Tuple {
            byte: paren.byte,
            values,
        })
    }
}

/// INSERT.
#[tactic(auto, unfolding(crate::specs::Read::insert))]
#[inline(never)]
pub(crate) fn insert(alloc: Global, cursor: &mut Cursor) -> Result<Stmt, Stop>
    ensures { Gives (read.insert cursor.old) result cursor.new }
{
    cursor.expect(Class::Insert)?;
    cursor.expect(Class::Into)?;
    let table = name(cursor)?;
    cursor.expect(Class::Values)?;
    let tuples = separated(alloc, cursor, Class::Comma)?;
    Ok(Stmt::Insert { table, tuples })
}

/// Whether an amount that is added comes.
#[tactic(auto, unfolding(crate::specs::Read::is_amount))]
fn is_amount(cursor: &Cursor) -> bool
    ensures { result ≡ read.is_amount cursor.now }
{
    cursor.sees(Class::Plus) || cursor.sees(Class::Minus)
}

/// An amount behind its sign.
#[tactic(auto, unfolding(crate::specs::Read::amount))]
fn amount(cursor: &mut Cursor) -> Result<i128, Stop>
    ensures { Gives (read.amount cursor.old) result cursor.new }
{
    if cursor.sees(Class::Plus) {
        cursor.expect(Class::Plus)?;
        let token = cursor.expect(Class::Number)?;
        Ok(token.number as i128)
    } else {
        cursor.expect(Class::Minus)?;
        let token = cursor.expect(Class::Number)?;
        Ok(-(token.number as i128))
    }
}

/// A column whose value is taken, with an amount or without.
#[tactic(auto, unfolding(crate::specs::Read::source))]
fn source(cursor: &mut Cursor) -> Result<AssignValue, Stop>
    ensures { Gives (read.source cursor.old) result cursor.new }
{
    let column = name(cursor)?;
    if is_amount(cursor) {
        let amount = amount(cursor)?;
        Ok(AssignValue::Plus { column, amount })
    } else {
        Ok(AssignValue::Column(column))
    }
}

/// What a column is set to.
#[tactic(auto, unfolding(crate::specs::Read::assign_value))]
fn assign_value(cursor: &mut Cursor) -> Result<AssignValue, Stop>
    ensures { Gives (read.assign_value cursor.old) result cursor.new }
{
    if cursor.sees(Class::Name) {
        source(cursor)
    } else {
        Ok(AssignValue::Literal(literal(cursor)?))
    }
}

impl Part for Assign {
    ghost use Rattle.lv_parser.specs.Read.{assign};

    ghost reader = { assign };

    #[tactic(auto, unfolding(crate::specs::Read::assign))]
    fn read(_alloc: Global, cursor: &mut Cursor) -> Result<Assign, Stop> {
        let column = name(cursor)?;
        cursor.expect(Class::Equal)?;
        let value = assign_value(cursor)?;
        Ok(Assign { column, value })
    }
}

/// UPDATE.
#[tactic(auto, unfolding(crate::specs::Read::update))]
#[inline(never)]
pub(crate) fn update(alloc: Global, cursor: &mut Cursor) -> Result<Stmt, Stop>
    ensures { Gives (read.update cursor.old) result cursor.new }
{
    cursor.expect(Class::Update)?;
    let table = name(cursor)?;
    cursor.expect(Class::Set)?;
    let sets = separated(alloc, cursor, Class::Comma)?;
    let cond = condition(alloc, cursor)?;
    Ok(Stmt::Update { table, sets, cond })
}

/// The condition of UPDATE and DELETE: `True` where there is none.
#[tactic(auto, unfolding(crate::specs::Read::condition, crate::specs::Read::filter))]
fn condition(alloc: Global, cursor: &mut Cursor) -> Result<CondTree, Stop>
    ensures { Gives (read.condition cursor.old) result cursor.new }
{
    if !cursor.sees(Class::Where) {
        return Ok(CondTree::True);
    }
    cursor.expect(Class::Where)?;
    cond(alloc, cursor, Within::Query)
}

/// DELETE.
#[tactic(auto, unfolding(crate::specs::Read::delete))]
pub(crate) fn delete(alloc: Global, cursor: &mut Cursor) -> Result<Stmt, Stop>
    ensures { Gives (read.delete cursor.old) result cursor.new }
{
    cursor.expect(Class::Delete)?;
    cursor.expect(Class::From)?;
    let table = name(cursor)?;
    let cond = condition(alloc, cursor)?;
    Ok(Stmt::Delete { table, cond })
}
