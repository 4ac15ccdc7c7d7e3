//! The truth of conditions on tuples, with the rows in place.
ghost use Rattle.std.specs.Prelude.{◌≡◌, map, IfOk};
ghost use Rattle.lv_schema.specs.Truth.{op_holds, truth, holds, all_of, any_of};
ghost use Rattle.lv_schema.specs.Tuples.{value_at, listed};

use crate::cond::{Col, Cond, Op, Operand};
use crate::logic::Truth;
use crate::tuple::HasRows;
use lv_values::{Copying, NoMemory, Row, Value};
use std::alloc::Global;
use std::cmp::Ordering;

/// A copy of the value in a column of an alias, the number 0 where there is none.
pub fn value_at<T: HasRows + Copy>(alloc: Global, rows: T, col: Col) -> Result<Value, NoMemory>
    ensures { IfOk result (λ v. v ≡ value_at (T.rows rows) col) }
{
    match rows.row(col.alias as usize) {
        None => Ok(Value::Num(0)),
        Some(row) => match row.as_slice().get(col.column as usize) {
            None => Ok(Value::Num(0)),
            Some(value) => value.copy(alloc),
        },
    }
}

/// Copies of the values of these columns, as a row. Cost: linear in the copied values.
pub fn listed<T: HasRows + Copy>(alloc: Global, rows: T, cols: &[Col]) -> Result<Row, NoMemory>
    ensures { IfOk result (λ row. row ≡ listed cols.now (T.rows rows)) }
{
    let mut row = Row::from_vec(Vec::with_capacity(alloc, cols.len())?);
    for col in cols {
        row.push(value_at(alloc, rows, *col)?)?;
    }
    Ok(row)
}

/// Whether two values in this order meet the sign.
fn meets(op: Op, order: Ordering) -> bool
    ensures { result ≡ op_holds op order }
{
    match op {
        Op::Eq => order.is_eq(),
        Op::Ne => order.is_ne(),
        Op::Lt => order.is_lt(),
        Op::Le => order.is_le(),
        Op::Gt => order.is_gt(),
        Op::Ge => order.is_ge(),
    }
}

/// A value in place: a number, or the bytes of a text.
#[derive(Clone, Copy)]
enum Seen<'a> {
    Number(i128),
    Bytes(&'a [u8]),
}

impl<'a> Seen<'a> {
    ghost use Rattle.lv_schema.specs.Seen.{value_seen};
    ghost use Rattle.lv_schema.specs.Truth.{operand_value, compared};
    ghost use Rattle.lv_values.specs.Order.{value_cmp};

    fn of_value(value: &'a Value) -> Seen<'a>
        ensures { value_seen result ≡ value.now }
    {
        match value {
            Value::Num(n) => Seen::Number(*n),
            Value::Text(text) => Seen::Bytes(text.as_bytes()),
        }
    }

    fn at<T: HasRows>(rows: &'a T, col: Col) -> Seen<'a>
        ensures { value_seen result ≡ value_at (T.rows rows.now) col }
    {
        match rows.row(col.alias as usize) {
            None => Seen::Number(0),
            Some(row) => match row.as_slice().get(col.column as usize) {
                None => Seen::Number(0),
                Some(value) => Seen::of_value(value),
            },
        }
    }

    fn of<T: HasRows>(operand: &'a Operand, rows: &'a T) -> Seen<'a>
        ensures { value_seen result ≡ operand_value (T.rows rows.now) operand.now }
    {
        match operand {
            Operand::Column(col) => Seen::at(rows, *col),
            Operand::Number(n) => Seen::Number(*n),
            Operand::Text(text) => Seen::Bytes(text.as_bytes()),
        }
    }

    fn compare(self, other: Seen<'_>) -> Ordering
        ensures { result ≡ value_cmp (value_seen self.entry) (value_seen other.entry) }
    {
        match (self, other) {
            (Seen::Number(a), Seen::Number(b)) => a.cmp(&b),
            (Seen::Number(_), Seen::Bytes(_)) => Ordering::Less,
            (Seen::Bytes(_), Seen::Number(_)) => Ordering::Greater,
            (Seen::Bytes(a), Seen::Bytes(b)) => a.cmp(b),
        }
    }

    fn compared(op: Op, left: Seen<'_>, right: Seen<'_>) -> Truth
        ensures { result ≡ compared op (value_seen left.entry) (value_seen right.entry) }
    {
        if meets(op, left.compare(right)) {
            Truth::Yes
        } else {
            Truth::No
        }
    }
}

#[cycle(truth)]
fn truth_of_all<T: HasRows>(parts: &[Cond], rows: &T) -> Truth
    ensures { result ≡ all_of (map (λ part. truth part (T.rows rows.now)) parts.now) }
{
    let mut all = Truth::Yes;
    for part in parts {
        match truth_of(part, rows) {
            Truth::No => return Truth::No,
            other => all = all.both(other),
        }
    }
    all
}

#[cycle(truth)]
fn truth_of_any<T: HasRows>(parts: &[Cond], rows: &T) -> Truth
    ensures { result ≡ any_of (map (λ part. truth part (T.rows rows.now)) parts.now) }
{
    let mut any = Truth::No;
    for part in parts {
        match truth_of(part, rows) {
            Truth::Yes => return Truth::Yes,
            other => any = any.either(other),
        }
    }
    any
}

#[cycle(truth)]
fn truth_of<T: HasRows>(cond: &Cond, rows: &T) -> Truth
    ensures { result ≡ truth cond.now (T.rows rows.now) }
{
    match cond {
        Cond::True => Truth::Yes,
        Cond::Cmp { op, left, right } => {
            Seen::compared(*op, Seen::of(left, rows), Seen::of(right, rows))
        }
        Cond::And(parts) => truth_of_all(parts.as_slice(), rows),
        Cond::Or(parts) => truth_of_any(parts.as_slice(), rows),
        Cond::Not(part) => truth_of(part.get(), rows).opposite(),
    }
}

/// What a condition says of a tuple, one row for each alias. Cost: one comparison for each of the condition's.
pub fn truth<T: HasRows + Copy>(cond: &Cond, rows: T) -> Truth
    ensures { result ≡ truth cond.now (T.rows rows) }
{
    truth_of(cond, &rows)
}

/// Whether a condition keeps a tuple, one row for each alias. Cost: as for `truth`.
pub fn holds<T: HasRows + Copy>(cond: &Cond, rows: T) -> bool
    ensures { result ≡ holds cond.now (T.rows rows) }
{
    truth(cond, rows).is_yes()
}
