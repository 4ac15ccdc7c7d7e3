//! Values of rows.

use crate::names::Line;
use lv_forms::{Form, Signed64, print_after, which};
use lv_reading::{Cursor, Stop};
use lv_values::{Bytes, NoMemory, Value};
use std::alloc::Global;

/// A number of 64 bits. Another one prints nothing.
#[derive(Clone, Copy)]
pub(crate) struct Number;

impl Form for Number {
    ghost use Rattle.lv_record.specs.Spelling.{number};

    type Value = i128;

    ghost form = { λ _. number };

    fn print(&self, value: &i128, out: &mut Bytes) -> Result<(), NoMemory> {
        match i64::try_from(*value) {
            Err(_) => Ok(()),
            Ok(number) => Signed64.print(&number, out),
        }
    }

    fn read(&self, alloc: Global, cursor: &mut Cursor<'_>) -> Result<i128, Stop> {
        let number = Signed64.read(alloc, cursor)?;
        Ok(i128::from(number))
    }
}

/// A value of a row.
#[derive(Clone, Copy)]
pub(crate) struct AnyValue;

impl Form for AnyValue {
    ghost use Rattle.lv_record.specs.Spelling.{value};

    type Value = Value;

    ghost form = { λ _. value };

    fn print(&self, value: &Value, out: &mut Bytes) -> Result<(), NoMemory> {
        match value {
            Value::Num(number) => print_after(&[1], &Number, number, out),
            Value::Text(text) => print_after(&[2], &Line, text, out),
        }
    }

    #[tactic(auto, unfolding(lv_forms::specs::Tables::which))]
    fn read(&self, alloc: Global, cursor: &mut Cursor<'_>) -> Result<Value, Stop> {
        match which(&[&[1], &[2]], cursor)? {
            0 => Ok(Value::Num(Number.read(alloc, cursor)?)),
            1 => Ok(Value::Text(Line.read(alloc, cursor)?)),
            _ => unreachable!(),
        }
    }
}
