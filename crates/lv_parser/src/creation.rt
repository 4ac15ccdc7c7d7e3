//! CREATE TABLE and CREATE VIEW.

ghost use Rattle.std.specs.Prelude.{◌≡◌, [], ◌∷◌, ◌++◌};
ghost use Rattle.lv_lexer.specs.declared.terminals.Class.TheVariants as k;
ghost use Rattle.lv_parser.specs.Reading.{Gives, sees, many_more};
ghost use Rattle.lv_parser.specs.Read as read;

use crate::conditions::{Within, filter};
use crate::cursor::Cursor;
use crate::lists::{Part, separated};
use crate::names::{col, name};
use crate::sources::{from, tables_and_condition};
use crate::stop::Stop;
use crate::tree::{ColNames, ColumnKind, ColumnTree, ColumnTrees, ItemTree, Named, Names, Stmt};
use lv_lexer::{Class, Terminal};
use lv_values::Items;
use std::alloc::Global;

/// INT or TEXT.
#[tactic(auto, unfolding(crate::specs::Read::column_kind))]
fn column_kind(cursor: &mut Cursor) -> Result<ColumnKind, Stop>
    ensures { Gives (read.column_kind cursor.old) result cursor.new }
{
    if cursor.sees(Class::Int) {
        cursor.expect(Class::Int)?;
        Ok(ColumnKind::Int)
    } else {
        cursor.expect(Class::Text)?;
        Ok(ColumnKind::Text)
    }
}

/// NOT NULL, if it comes. It changes nothing: every column is so.
#[tactic(auto, unfolding(crate::specs::Read::mark))]
fn mark(cursor: &mut Cursor) -> Result<Option<Terminal>, Stop>
    ensures { Gives (read.mark cursor.old) result cursor.new }
{
    if cursor.sees(Class::Not) {
        cursor.expect(Class::Not)?;
        let null = cursor.expect(Class::Null)?;
        Ok(Some(null))
    } else {
        Ok(None)
    }
}

/// A column of a table.
#[tactic(auto, unfolding(crate::specs::Read::column))]
fn column(cursor: &mut Cursor) -> Result<ColumnTree, Stop>
    ensures { Gives (read.column cursor.old) result cursor.new }
{
    let name = name(cursor)?;
    let kind = column_kind(cursor)?;
    mark(cursor)?;
    Ok(ColumnTree { name, kind })
}

/// A column and the comma behind it.
#[tactic(auto, unfolding(crate::specs::Read::column_comma))]
fn column_comma(cursor: &mut Cursor) -> Result<ColumnTree, Stop>
    ensures { Gives (read.column_comma cursor.old) result cursor.new }
{
    let found = column(cursor)?;
    cursor.expect(Class::Comma)?;
    Ok(found)
}

/// The columns so far, and those that follow.
fn more_columns(alloc: Global, cursor: &mut Cursor, found: ColumnTrees) -> Result<ColumnTrees, Stop>
    ensures { Gives (many_more (sees k.Name) read.column_comma found cursor.old) result cursor.new }
{
    let mut found = found;
    'each: for _ in 0..cursor.len() {
        if !cursor.sees(Class::Name) {
            break;
        }
        let item = column_comma(cursor)?;
        found.push(item)?;
    }
    Ok(found)
}

/// One column or more. A comma stands behind each, behind the last one before PRIMARY.
#[tactic(auto, unfolding(crate::specs::Read::columns))]
fn columns(alloc: Global, cursor: &mut Cursor) -> Result<ColumnTrees, Stop>
    ensures { Gives (read.columns cursor.old) result cursor.new }
{
    let first = column_comma(cursor)?;
    let mut found = Items::new(alloc);
    found.push(first)?;
    more_columns(alloc, cursor, found)
}

/// PRIMARY KEY and its names in parentheses.
#[tactic(auto, unfolding(crate::specs::Read::key))]
fn key(alloc: Global, cursor: &mut Cursor) -> Result<Names, Stop>
    ensures { Gives (read.key cursor.old) result cursor.new }
{
    cursor.expect(Class::Primary)?;
    cursor.expect(Class::Key)?;
    cursor.expect(Class::LeftParen)?;
    let names = separated(alloc, cursor, Class::Comma)?;
    cursor.expect(Class::RightParen)?;
    Ok(names)
}

/// What follows CREATE where a table is made.
#[tactic(auto, unfolding(crate::specs::Read::made_table))]
fn made_table(alloc: Global, cursor: &mut Cursor) -> Result<Stmt, Stop>
    ensures { Gives (read.made_table cursor.old) result cursor.new }
{
    cursor.expect(Class::Table)?;
    let name = name(cursor)?;
    cursor.expect(Class::LeftParen)?;
    let columns = columns(alloc, cursor)?;
    let key = key(alloc, cursor)?;
    cursor.expect(Class::RightParen)?;
    Ok(Stmt::CreateTable { name, columns, key })
}

/// A column that a view lists, with the name that it gets, where one is given.
#[tactic(auto, unfolding(crate::specs::Read::plain_item))]
fn plain_item(cursor: &mut Cursor) -> Result<ItemTree, Stop>
    ensures { Gives (read.plain_item cursor.old) result cursor.new }
{
    let col = col(cursor)?;
    if cursor.sees(Class::As) {
        cursor.expect(Class::As)?;
        let output = name(cursor)?;
        Ok(ItemTree::Plain {
            col,
            output: Some(output),
        })
    } else {
        Ok(ItemTree::Plain { col, output: None })
    }
}

/// The end of SUM and COUNT: a parenthesis, AS and a name.
#[tactic(auto, unfolding(crate::specs::Read::output))]
fn output(cursor: &mut Cursor) -> Result<Named, Stop>
    ensures { Gives (read.output cursor.old) result cursor.new }
{
    cursor.expect(Class::RightParen)?;
    cursor.expect(Class::As)?;
    name(cursor)
}

/// SUM of a column.
#[tactic(auto, unfolding(crate::specs::Read::sum_item))]
fn sum_item(cursor: &mut Cursor) -> Result<ItemTree, Stop>
    ensures { Gives (read.sum_item cursor.old) result cursor.new }
{
    cursor.expect(Class::Sum)?;
    cursor.expect(Class::LeftParen)?;
    let col = col(cursor)?;
    let output = output(cursor)?;
    Ok(ItemTree::Sum { col, output })
}

/// COUNT of tuples.
#[tactic(auto, unfolding(crate::specs::Read::count_item))]
fn count_item(cursor: &mut Cursor) -> Result<ItemTree, Stop>
    ensures { Gives (read.count_item cursor.old) result cursor.new }
{
    cursor.expect(Class::Count)?;
    cursor.expect(Class::LeftParen)?;
    cursor.expect(Class::Star)?;
    let output = output(cursor)?;
    Ok(ItemTree::Count { output })
}

impl Part for ItemTree {
    ghost use Rattle.lv_parser.specs.Read.{item};

    ghost reader = { item };

    #[tactic(auto, unfolding(crate::specs::Read::item))]
    fn read(_alloc: Global, cursor: &mut Cursor) -> Result<ItemTree, Stop> {
        if cursor.sees(Class::Name) {
            plain_item(cursor)
        } else if cursor.sees(Class::Sum) {
            sum_item(cursor)
        } else {
            count_item(cursor)
        }
    }
}

/// GROUP BY and its columns, if it comes.
#[tactic(auto, unfolding(crate::specs::Read::groups))]
fn groups(alloc: Global, cursor: &mut Cursor) -> Result<ColNames, Stop>
    ensures { Gives (read.groups cursor.old) result cursor.new }
{
    if cursor.sees(Class::Group) {
        cursor.expect(Class::Group)?;
        cursor.expect(Class::By)?;
        separated(alloc, cursor, Class::Comma)
    } else {
        Ok(Items::new(alloc))
    }
}

/// What follows CREATE where a view is made.
#[tactic(auto, unfolding(crate::specs::Read::made_view))]
fn made_view(alloc: Global, cursor: &mut Cursor) -> Result<Stmt, Stop>
    ensures { Gives (read.made_view cursor.old) result cursor.new }
{
    cursor.expect(Class::View)?;
    let name = name(cursor)?;
    cursor.expect(Class::As)?;
    cursor.expect(Class::Select)?;
    let items = separated(alloc, cursor, Class::Comma)?;
    let joined = from(alloc, cursor, Within::View)?;
    let filter = filter(alloc, cursor, Within::View)?;
    let groups = groups(alloc, cursor)?;
    let (refs, cond) = tables_and_condition(alloc, joined, filter)?;
    Ok(Stmt::CreateView {
        name,
        items,
        refs,
        cond,
        groups,
    })
}

/// CREATE TABLE or CREATE VIEW.
#[tactic(auto, unfolding(crate::specs::Read::create))]
#[inline(never)]
pub(crate) fn create(alloc: Global, cursor: &mut Cursor) -> Result<Stmt, Stop>
    ensures { Gives (read.create cursor.old) result cursor.new }
{
    cursor.expect(Class::Create)?;
    if cursor.sees(Class::Table) {
        made_table(alloc, cursor)
    } else {
        made_view(alloc, cursor)
    }
}
