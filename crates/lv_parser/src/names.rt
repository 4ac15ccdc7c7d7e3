//! Names, columns and values.

ghost use Rattle.std.specs.Prelude.{◌≡◌};
ghost use Rattle.lv_parser.specs.Reading.{Gives};
ghost use Rattle.lv_parser.specs.Read as read;

use crate::cursor::Cursor;
use crate::lists::Part;
use crate::stop::Stop;
use crate::tree::{ColName, Literal, Named};
use lv_lexer::Class;
use lv_values::Value;
use std::alloc::Global;

/// A name.
#[tactic(auto, unfolding(crate::specs::Read::name))]
pub(crate) fn name(cursor: &mut Cursor) -> Result<Named, Stop>
    ensures { Gives (read.name cursor.old) result cursor.new }
{
    let token = cursor.expect(Class::Name)?;
    Ok(Named {
        name: token.text,
        byte: token.byte,
    })
}

impl Part for Named {
    ghost use Rattle.lv_parser.specs.Read.{name};

    ghost reader = { name };

    fn read(_alloc: Global, cursor: &mut Cursor) -> Result<Named, Stop> {
        name(cursor)
    }
}

/// A column: `name` or `name.name`.
#[tactic(auto, unfolding(crate::specs::Read::col))]
pub(crate) fn col(cursor: &mut Cursor) -> Result<ColName, Stop>
    ensures { Gives (read.col cursor.old) result cursor.new }
{
    let first = name(cursor)?;
    if cursor.sees(Class::Dot) {
        cursor.expect(Class::Dot)?;
        let second = name(cursor)?;
        Ok(ColName {
            qualifier: Some(first),
            name: second,
        })
    } else {
        Ok(ColName {
            qualifier: None,
            name: first,
        })
    }
}

/// A number with its sign, if it has one.
#[tactic(auto, unfolding(crate::specs::Read::number))]
fn number(cursor: &mut Cursor) -> Result<Literal, Stop>
    ensures { Gives (read.number cursor.old) result cursor.new }
{
    if cursor.sees(Class::Minus) {
        let minus = cursor.expect(Class::Minus)?;
        let token = cursor.expect(Class::Number)?;
        return Ok(Literal {
            value: Value::Num(-(token.number as i128)),
            byte: minus.byte,
        });
    }
    let token = cursor.expect(Class::Number)?;
    Ok(Literal {
        value: Value::Num(token.number as i128),
        byte: token.byte,
    })
}

/// A value.
#[tactic(auto, unfolding(crate::specs::Read::literal))]
pub(crate) fn literal(cursor: &mut Cursor) -> Result<Literal, Stop>
    ensures { Gives (read.literal cursor.old) result cursor.new }
{
    if cursor.sees(Class::Quoted) {
        let token = cursor.expect(Class::Quoted)?;
        Ok(Literal {
            value: Value::Text(token.text),
            byte: token.byte,
        })
    } else {
        number(cursor)
    }
}

impl Part for Literal {
    ghost use Rattle.lv_parser.specs.Read.{literal};

    ghost reader = { literal };

    fn read(_alloc: Global, cursor: &mut Cursor) -> Result<Literal, Stop> {
        literal(cursor)
    }
}

impl Part for ColName {
    ghost use Rattle.lv_parser.specs.Read.{col};

    ghost reader = { col };

    fn read(_alloc: Global, cursor: &mut Cursor) -> Result<ColName, Stop> {
        col(cursor)
    }
}
