//! The parts of statements, printed.

ghost use Rattle.std.specs.Prelude.{◌≡◌, List, map, OnOk};
ghost use Rattle.lv_lexer.specs.Written.{with_tokens};
ghost use Rattle.lv_parser.specs.Printed as printed;

use crate::print_lists::Print;
use crate::print_names::{print_col, print_literal, print_name};
use crate::tree::{Assign, AssignValue, ColName, ColumnKind, ColumnTree, ItemTree, Named};
use lv_lexer::Writer;
use lv_values::NoMemory;
use std::alloc::Global;

impl Print for ColumnTree {
    ghost use Rattle.lv_parser.specs.Printed.{column_tokens};

    ghost tokens = { column_tokens };

    fn print(&self, _alloc: Global, out: &mut Writer) -> Result<(), NoMemory> {
        print_name(out, &self.name)?;
        match self.kind {
            ColumnKind::Int => out.word("int"),
            ColumnKind::Text => out.word("text"),
        }
    }
}

/// Writes AS and the name.
fn print_output(out: &mut Writer, output: &Named) -> Result<(), NoMemory>
    ensures { OnOk result (out.new ≡ with_tokens out.old (printed.output_tokens output.now)) }
{
    out.word("as")?;
    print_name(out, output)
}

/// Writes the sum of a column, with its name.
fn print_sum(out: &mut Writer, col: &ColName, output: &Named) -> Result<(), NoMemory>
    ensures { OnOk result (out.new ≡ with_tokens out.old (printed.sum_tokens col.now output.now)) }
{
    out.word("sum")?;
    out.sign("(")?;
    print_col(out, col)?;
    out.sign(")")?;
    print_output(out, output)
}

/// Writes the number of tuples, with its name.
fn print_count(out: &mut Writer, output: &Named) -> Result<(), NoMemory>
    ensures { OnOk result (out.new ≡ with_tokens out.old (printed.count_tokens output.now)) }
{
    out.word("count")?;
    out.sign("(")?;
    out.sign("*")?;
    out.sign(")")?;
    print_output(out, output)
}

/// Writes a column, with its name where it has one.
fn print_plain(out: &mut Writer, col: &ColName, output: &Option<Named>) -> Result<(), NoMemory>
    ensures { OnOk result (out.new ≡ with_tokens out.old (printed.plain_tokens col.now output.now)) }
{
    print_col(out, col)?;
    match output {
        Some(output) => print_output(out, output),
        None => Ok(()),
    }
}

impl Print for ItemTree {
    ghost use Rattle.lv_parser.specs.Printed.{item_tokens};

    ghost tokens = { item_tokens };

    fn print(&self, _alloc: Global, out: &mut Writer) -> Result<(), NoMemory> {
        match self {
            ItemTree::Plain { col, output } => print_plain(out, col, output),
            ItemTree::Sum { col, output } => print_sum(out, col, output),
            ItemTree::Count { output } => print_count(out, output),
        }
    }
}

/// Writes what is added to a column, behind its sign.
fn print_amount(out: &mut Writer, amount: i128) -> Result<(), NoMemory>
    ensures { OnOk result (out.new ≡ with_tokens out.old (printed.amount_tokens amount)) }
{
    if amount < 0 {
        out.sign("-")?;
    } else {
        out.sign("+")?;
    }
    out.number(amount.unsigned_abs())
}

/// Writes what a column is set to.
fn print_assigned(alloc: Global, out: &mut Writer, value: &AssignValue) -> Result<(), NoMemory>
    ensures { OnOk result (out.new ≡ with_tokens out.old (printed.assigned_tokens value.now)) }
{
    match value {
        AssignValue::Literal(literal) => print_literal(alloc, out, literal),
        AssignValue::Column(column) => print_name(out, column),
        AssignValue::Plus { column, amount } => {
            print_name(out, column)?;
            print_amount(out, *amount)
        }
    }
}

impl Print for Assign {
    ghost use Rattle.lv_parser.specs.Printed.{assign_tokens};

    ghost tokens = { assign_tokens };

    fn print(&self, alloc: Global, out: &mut Writer) -> Result<(), NoMemory> {
        print_name(out, &self.column)?;
        out.sign("=")?;
        print_assigned(alloc, out, &self.value)
    }
}

impl Print for (ColName, bool) {
    ghost use Rattle.lv_parser.specs.Printed.{ord_tokens};

    ghost tokens = { ord_tokens };

    fn print(&self, _alloc: Global, out: &mut Writer) -> Result<(), NoMemory> {
        print_col(out, &self.0)?;
        if self.1 { out.word("desc") } else { Ok(()) }
    }
}
