//! Conditions.
ghost use Rattle.std.specs.Prelude.{◌≡◌, ◌++◌, ◌-◌, ◌^◌, OnOk, OnErr, map, min, sum};
ghost use Rattle.std.specs.List.{flat_map};
ghost use Rattle.lv_reading.specs.Reading.{Gives, times};
ghost use Rattle.lv_schema.specs.Bound.{comparisons};
ghost use Rattle.lv_values.specs.Print.{StaysInFront};
ghost use Rattle.lv_record.specs.Spelling as form;

use crate::names::Line;
use lv_forms::{Binary8, Both, Form, Signed128, print_after, which};
use lv_reading::{Cursor, Stop};
use lv_schema::{Col, Cond, Conds, Op, Operand};
use lv_values::{Boxed, Bytes, Items, NoMemory};
use std::alloc::Global;

/// The most comparisons of a condition.
const COMPARISONS: u64 = 16;

/// The most layers of a condition: 130 of And, Or and Not, and the comparisons.
const LAYERS: u8 = 131;

/// A sign of comparison.
#[derive(Clone, Copy)]
struct AnyOp;

impl Form for AnyOp {
    type Value = Op;

    ghost form = { λ _. form.op };

    fn print(&self, value: &Op, out: &mut Bytes) -> Result<(), NoMemory> {
        match value {
            Op::Eq => out.push(1),
            Op::Ne => out.push(2),
            Op::Lt => out.push(3),
            Op::Le => out.push(4),
            Op::Gt => out.push(5),
            Op::Ge => out.push(6),
        }
    }

    #[tactic(auto, unfolding(lv_forms::specs::Tables::which))]
    fn read(&self, _alloc: Global, cursor: &mut Cursor<'_>) -> Result<Op, Stop> {
        match which(&[&[1], &[2], &[3], &[4], &[5], &[6]], cursor)? {
            0 => Ok(Op::Eq),
            1 => Ok(Op::Ne),
            2 => Ok(Op::Lt),
            3 => Ok(Op::Le),
            4 => Ok(Op::Gt),
            5 => Ok(Op::Ge),
            _ => unreachable!(),
        }
    }
}

/// A column of an alias.
#[derive(Clone, Copy)]
pub(crate) struct AnyCol;

impl Form for AnyCol {
    type Value = Col;

    ghost form = { λ _. form.col };

    fn print(&self, value: &Col, out: &mut Bytes) -> Result<(), NoMemory> {
        Both(Binary8, Binary8).print(&(value.alias, value.column), out)
    }

    fn read(&self, alloc: Global, cursor: &mut Cursor<'_>) -> Result<Col, Stop> {
        let (alias, column) = Both(Binary8, Binary8).read(alloc, cursor)?;
        Ok(Col { alias, column })
    }
}

/// One side of a comparison.
#[derive(Clone, Copy)]
struct Side;

impl Form for Side {
    type Value = Operand;

    ghost form = { λ _. form.side };

    fn print(&self, value: &Operand, out: &mut Bytes) -> Result<(), NoMemory> {
        match value {
            Operand::Column(col) => print_after(&[1], &AnyCol, col, out),
            Operand::Number(number) => print_after(&[2], &Signed128, number, out),
            Operand::Text(text) => print_after(&[3], &Line, text, out),
        }
    }

    #[tactic(auto, unfolding(lv_forms::specs::Tables::which))]
    fn read(&self, alloc: Global, cursor: &mut Cursor<'_>) -> Result<Operand, Stop> {
        match which(&[&[1], &[2], &[3]], cursor)? {
            0 => Ok(Operand::Column(AnyCol.read(alloc, cursor)?)),
            1 => Ok(Operand::Number(Signed128.read(alloc, cursor)?)),
            2 => Ok(Operand::Text(Line.read(alloc, cursor)?)),
            _ => unreachable!(),
        }
    }
}

/// Appends a comparison.
fn print_comparison(
    op: Op,
    left: &Operand,
    right: &Operand,
    out: &mut Bytes,
) -> Result<(), NoMemory>
    ensures appended { OnOk result (out.new ≡ out.old ++ (form.op.text op ++ (form.side.text left.now ++ form.side.text right.now))) }
    ensures front { OnErr result (StaysInFront out.old out.new) }
{
    AnyOp.print(&op, out)?;
    Side.print(left, out)?;
    Side.print(right, out)?;
    Ok(())
}

/// Appends the conditions, each of at most so many layers.
#[cycle(print_cond)]
fn print_conds(layers: u8, conds: &[Cond], out: &mut Bytes) -> Result<(), NoMemory>
    ensures appended { OnOk result (out.new ≡ out.old ++ flat_map (form.layers layers).text conds.now) }
    ensures front { OnErr result (StaysInFront out.old out.new) }
{
    for cond in conds {
        print_cond(layers, cond, out)?;
    }
    Ok(())
}

/// Appends how many parts there are, and each of them.
#[cycle(print_cond)]
fn print_parts(layers: u8, parts: &[Cond], out: &mut Bytes) -> Result<(), NoMemory>
    ensures appended { OnOk result (out.new ≡ out.old ++ (form.parts_of (form.layers layers)).text parts.now) }
    ensures front { OnErr result (StaysInFront out.old out.new) }
{
    out.push((parts.len() % 256) as u8)?;
    print_conds(layers, parts, out)
}

/// Appends a condition whose parts have at most so many layers.
#[cycle(print_cond)]
fn print_layer(layers: u8, cond: &Cond, out: &mut Bytes) -> Result<(), NoMemory>
    ensures appended { OnOk result (out.new ≡ out.old ++ (form.layer (form.layers layers)).text cond.now) }
    ensures front { OnErr result (StaysInFront out.old out.new) }
{
    match cond {
        Cond::True => out.push(0),
        Cond::Cmp { op, left, right } => {
            out.push(1)?;
            print_comparison(*op, left, right, out)
        }
        Cond::And(parts) => {
            out.push(2)?;
            print_parts(layers, parts.as_slice(), out)
        }
        Cond::Or(parts) => {
            out.push(3)?;
            print_parts(layers, parts.as_slice(), out)
        }
        Cond::Not(part) => {
            out.push(4)?;
            print_cond(layers, part.get(), out)
        }
    }
}

/// Appends a condition of at most so many layers. A deeper one is cut off there.
#[cycle(print_cond)]
fn print_cond(layers: u8, cond: &Cond, out: &mut Bytes) -> Result<(), NoMemory>
    ensures appended { OnOk result (out.new ≡ out.old ++ (form.layers layers).text cond.now) }
    ensures front { OnErr result (StaysInFront out.old out.new) }
{
    if layers == 0 {
        return Ok(());
    }
    print_layer(layers - 1, cond, out)
}

/// Reads so many conditions, each of at most so many layers.
#[cycle(read_cond)]
fn read_conds(alloc: Global, layers: u8, count: u8, cursor: &mut Cursor<'_>) -> Result<Conds, Stop>
    ensures { Gives (times (form.layers layers).read count cursor.old) result cursor.new }
{
    let mut found = Items::new(alloc);
    'each: for _ in 0..count {
        let cond = read_cond(alloc, layers, cursor)?;
        found.push(cond)?;
    }
    Ok(found)
}

/// Reads how many parts there are, two or more, and each of them.
#[cycle(read_cond)]
fn read_parts(alloc: Global, layers: u8, cursor: &mut Cursor<'_>) -> Result<Conds, Stop>
    ensures { Gives ((form.parts_of (form.layers layers)).read cursor.old) result cursor.new }
{
    let count = cursor.byte()?;
    if count < 2 {
        return Err(Stop::Bad);
    }
    read_conds(alloc, layers, count, cursor)
}

/// Reads a comparison.
fn read_comparison(alloc: Global, cursor: &mut Cursor<'_>) -> Result<(Op, (Operand, Operand)), Stop>
    ensures { Gives ((form.comparison).read cursor.old) result cursor.new }
{
    Both(AnyOp, Both(Side, Side)).read(alloc, cursor)
}

/// Reads a condition whose parts have at most so many layers.
#[cycle(read_cond)]
#[tactic(auto, unfolding(lv_forms::specs::Tables::which))]
fn read_layer(alloc: Global, layers: u8, cursor: &mut Cursor<'_>) -> Result<Cond, Stop>
    ensures { Gives ((form.layer (form.layers layers)).read cursor.old) result cursor.new }
{
    match which(&[&[0], &[1], &[2], &[3], &[4]], cursor)? {
        0 => Ok(Cond::True),
        1 => {
            let (op, (left, right)) = read_comparison(alloc, cursor)?;
            Ok(Cond::Cmp { op, left, right })
        }
        2 => Ok(Cond::And(read_parts(alloc, layers, cursor)?)),
        3 => Ok(Cond::Or(read_parts(alloc, layers, cursor)?)),
        4 => {
            let part = read_cond(alloc, layers, cursor)?;
            Ok(Cond::Not(Boxed::new(alloc, part)?))
        }
        _ => unreachable!(),
    }
}

/// Reads a condition of at most so many layers. A deeper one is refused before it is read.
#[cycle(read_cond)]
fn read_cond(alloc: Global, layers: u8, cursor: &mut Cursor<'_>) -> Result<Cond, Stop>
    ensures { Gives ((form.layers layers).read cursor.old) result cursor.new }
{
    if layers == 0 {
        return Err(Stop::Bad);
    }
    read_layer(alloc, layers - 1, cursor)
}

/// The smaller of the number of comparisons and 2^64 - 1.
#[cycle(comparisons)]
fn comparisons(cond: &Cond) -> u64
    ensures { result ≡ min (comparisons cond.now) (2 ^ 64 - 1) }
{
    match cond {
        Cond::True => 0,
        Cond::Cmp { .. } => 1,
        Cond::And(parts) | Cond::Or(parts) => all_comparisons(parts.as_slice()),
        Cond::Not(part) => comparisons(part.get()),
    }
}

#[cycle(comparisons)]
fn all_comparisons(conds: &[Cond]) -> u64
    ensures { result ≡ min (sum (map comparisons conds.now)) (2 ^ 64 - 1) }
{
    let mut sum: u64 = 0;
    for cond in conds {
        sum = sum.saturating_add(comparisons(cond));
    }
    sum
}

/// A condition of a view.
#[derive(Clone, Copy)]
pub(crate) struct AnyCond;

impl Form for AnyCond {
    type Value = Cond;

    ghost form = { λ _. form.cond };

    fn print(&self, cond: &Cond, out: &mut Bytes) -> Result<(), NoMemory> {
        print_cond(LAYERS, cond, out)
    }

    fn read(&self, alloc: Global, cursor: &mut Cursor<'_>) -> Result<Cond, Stop> {
        let cond = read_cond(alloc, LAYERS, cursor)?;
        if comparisons(&cond) > COMPARISONS {
            return Err(Stop::Bad);
        }
        Ok(cond)
    }
}
