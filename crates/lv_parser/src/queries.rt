//! SELECT.

ghost use Rattle.std.specs.Prelude.{◌≡◌};
ghost use Rattle.lv_parser.specs.Reading.{Gives};
ghost use Rattle.lv_parser.specs.Read as read;

use crate::conditions::{Within, filter};
use crate::cursor::Cursor;
use crate::lists::{Part, separated};
use crate::names::col;
use crate::sources::{from, tables_and_condition};
use crate::stop::Stop;
use crate::tree::{ColName, ColNames, OrderTrees, Stmt};
use lv_lexer::Class;
use lv_values::Items;
use std::alloc::Global;

/// `*`, which is none, or columns.
#[tactic(auto, unfolding(crate::specs::Read::listed))]
fn listed(alloc: Global, cursor: &mut Cursor) -> Result<Option<ColNames>, Stop>
    ensures { Gives (read.listed cursor.old) result cursor.new }
{
    if cursor.sees(Class::Star) {
        cursor.expect(Class::Star)?;
        Ok(None)
    } else {
        let found = separated(alloc, cursor, Class::Comma)?;
        Ok(Some(found))
    }
}

/// Whether ASC or DESC comes.
#[tactic(auto, unfolding(crate::specs::Read::is_direction))]
fn is_direction(cursor: &Cursor) -> bool
    ensures { result ≡ read.is_direction cursor.now }
{
    cursor.sees(Class::Asc) || cursor.sees(Class::Desc)
}

/// ASC or DESC: whether the order falls.
#[tactic(auto, unfolding(crate::specs::Read::direction))]
fn direction(cursor: &mut Cursor) -> Result<bool, Stop>
    ensures { Gives (read.direction cursor.old) result cursor.new }
{
    if cursor.sees(Class::Asc) {
        cursor.expect(Class::Asc)?;
        Ok(false)
    } else {
        cursor.expect(Class::Desc)?;
        Ok(true)
    }
}

impl Part for (ColName, bool) {
    ghost use Rattle.lv_parser.specs.Read.{ord};

    ghost reader = { ord };

    #[tactic(auto, unfolding(crate::specs::Read::ord))]
    fn read(_alloc: Global, cursor: &mut Cursor) -> Result<(ColName, bool), Stop> {
        let by = col(cursor)?;
        if is_direction(cursor) {
            let falls = direction(cursor)?;
            Ok((by, falls))
        } else {
            Ok((by, false))
        }
    }
}

/// ORDER BY and its columns, if it comes.
#[tactic(auto, unfolding(crate::specs::Read::order))]
fn order(alloc: Global, cursor: &mut Cursor) -> Result<OrderTrees, Stop>
    ensures { Gives (read.order cursor.old) result cursor.new }
{
    if cursor.sees(Class::Order) {
        cursor.expect(Class::Order)?;
        cursor.expect(Class::By)?;
        separated(alloc, cursor, Class::Comma)
    } else {
        Ok(Items::new(alloc))
    }
}

/// SELECT.
#[tactic(auto, unfolding(crate::specs::Read::select))]
pub(crate) fn select(alloc: Global, cursor: &mut Cursor) -> Result<Stmt, Stop>
    ensures { Gives (read.select cursor.old) result cursor.new }
{
    cursor.expect(Class::Select)?;
    let list = listed(alloc, cursor)?;
    let joined = from(alloc, cursor, Within::Query)?;
    let filter = filter(alloc, cursor, Within::Query)?;
    let order = order(alloc, cursor)?;
    let (refs, cond) = tables_and_condition(alloc, joined, filter)?;
    Ok(Stmt::Select {
        list,
        refs,
        cond,
        order,
    })
}
