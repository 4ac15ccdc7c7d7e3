//! What stands after FROM.

ghost use Rattle.std.specs.Prelude.{◌≡◌, ◌∷◌, [], ◌++◌, None, IfOk, OnOk};
ghost use Rattle.lv_lexer.specs.declared.terminals.Class.TheVariants as k;
ghost use Rattle.lv_parser.specs.Reading.{Gives, many_more};
ghost use Rattle.lv_parser.specs.Read as read;
ghost use Rattle.lv_parser.specs.Trees as tree;

use crate::conditions::{Within, all_of, cond};
use crate::cursor::Cursor;
use crate::names::name;
use crate::stop::Stop;
use crate::tree::{CondTree, CondTrees, Named, RefTree, RefTrees};
use lv_lexer::Class;
use lv_values::{Items, NoMemory};
use std::alloc::Global;
use std::marker::Model;

/// A table or view after FROM, with its ON condition, where it has one.
#[derive(Drop)]
pub(crate) struct Joined {
    pub table: RefTree,
    pub on: Option<CondTree>,
}

/// What stands after FROM, seen as the list of it all. The first table has no ON condition. Where it stands alone, as
/// mostly, no list is made.
#[derive(Drop)]
pub(crate) struct Sources {
    first: RefTree,
    others: Items<Joined>,
}

impl Model for Sources {
    ghost use Rattle.std.specs.Prelude.{List, ◌∷◌, None};
    ghost use Rattle.std.specs.Coded.{codes};
    ghost use Rattle.lv_parser.specs.declared.sources.Joined.{Joined};
    ghost use Rattle.lv_parser.specs.contracts.tree.CondTree as condition;

    ghost Value = { List Joined };

    ghost coded = { Prim.hlevel (codes, condition.the_row.coded) };

    ghost view = { λ s. let alone : Joined = record { table = s.first; on = None } in alone ∷ s.others };
}

impl Sources {
    /// Puts a table behind the others.
    fn push(&mut self, next: Joined) -> Result<(), NoMemory>
        ensures { OnOk result (self.new ≡ self.old ++ next ∷ []) }
    {
        self.others.push(next)
    }
}

/// Whether another name for a table comes.
#[tactic(auto, unfolding(crate::specs::Read::is_alias))]
fn is_alias(cursor: &Cursor) -> bool
    ensures { result ≡ read.is_alias cursor.now }
{
    cursor.sees(Class::As) || cursor.sees(Class::Name)
}

/// Another name for a table, behind AS or not.
#[tactic(auto, unfolding(crate::specs::Read::alias))]
fn alias(cursor: &mut Cursor) -> Result<Named, Stop>
    ensures { Gives (read.alias cursor.old) result cursor.new }
{
    cursor.allow(Class::As);
    name(cursor)
}

/// A table or view, with another name or not.
#[tactic(auto, unfolding(crate::specs::Read::table))]
fn table(cursor: &mut Cursor) -> Result<RefTree, Stop>
    ensures { Gives (read.table cursor.old) result cursor.new }
{
    let name = name(cursor)?;
    if is_alias(cursor) {
        let other = alias(cursor)?;
        Ok(RefTree {
            name,
            alias: Some(other),
        })
    } else {
        Ok(RefTree { name, alias: None })
    }
}

/// A table behind a comma.
#[tactic(auto, unfolding(crate::specs::Read::plain))]
fn plain(cursor: &mut Cursor) -> Result<Joined, Stop>
    ensures { Gives (read.plain cursor.old) result cursor.new }
{
    cursor.expect(Class::Comma)?;
    let table = table(cursor)?;
    Ok(Joined { table, on: None })
}

/// A table behind JOIN, with its condition.
#[tactic(auto, unfolding(crate::specs::Read::join))]
fn join(alloc: Global, cursor: &mut Cursor, within: Within) -> Result<Joined, Stop>
    ensures { Gives (read.join within cursor.old) result cursor.new }
{
    cursor.allow(Class::Inner);
    cursor.expect(Class::Join)?;
    let table = table(cursor)?;
    cursor.expect(Class::On)?;
    let on = cond(alloc, cursor, within)?;
    Ok(Joined {
        table,
        on: Some(on),
    })
}

/// Whether another table comes.
#[tactic(auto, unfolding(crate::specs::Read::is_more))]
fn is_more(cursor: &Cursor) -> bool
    ensures { result ≡ read.is_more cursor.now }
{
    cursor.sees(Class::Comma) || (cursor.sees(Class::Inner) || cursor.sees(Class::Join))
}

/// Another table, with its condition, where it has one.
#[tactic(auto, unfolding(crate::specs::Read::joined))]
fn next_joined(alloc: Global, cursor: &mut Cursor, within: Within) -> Result<Joined, Stop>
    ensures { Gives (read.joined within cursor.old) result cursor.new }
{
    if cursor.sees(Class::Comma) {
        plain(cursor)
    } else {
        join(alloc, cursor, within)
    }
}

/// The tables so far, and those that follow.
fn more_joined(
    alloc: Global,
    cursor: &mut Cursor,
    within: Within,
    found: Sources,
) -> Result<Sources, Stop>
    ensures { Gives (many_more read.is_more (read.joined within) found cursor.old) result cursor.new }
{
    let mut found = found;
    'each: for _ in 0..cursor.len() {
        if !is_more(cursor) {
            break;
        }
        let item = next_joined(alloc, cursor, within)?;
        found.push(item)?;
    }
    Ok(found)
}

/// FROM and its tables. Cost: linear in the tokens.
#[tactic(auto, unfolding(crate::specs::Read::from))]
pub(crate) fn from(alloc: Global, cursor: &mut Cursor, within: Within) -> Result<Sources, Stop>
    ensures { Gives (read.from within cursor.old) result cursor.new }
{
    cursor.expect(Class::From)?;
    let first = table(cursor)?;
    let found = Sources {
        first,
        others: Items::new(alloc),
    };
    more_joined(alloc, cursor, within, found)
}

/// Puts a condition at the end, where there is one.
fn push_if(parts: &mut CondTrees, part: Option<CondTree>) -> Result<(), NoMemory>
    ensures { OnOk result (parts.new ≡ parts.old ++ tree.with_on part []) }
{
    match part {
        None => Ok(()),
        Some(part) => parts.push(part),
    }
}

/// The list of one table.
fn only_table(alloc: Global, table: RefTree) -> Result<RefTrees, NoMemory>
    ensures { IfOk result (λ r. r ≡ table ∷ []) }
{
    let mut tables = Vec::with_capacity(alloc, 1)?;
    tables.push_reserved(table);
    Ok(Items::from_vec(tables))
}

/// The tables, apart from the ON conditions.
fn split(
    alloc: Global,
    first: RefTree,
    others: Items<Joined>,
) -> Result<(RefTrees, CondTrees), NoMemory>
    ensures { IfOk result (λ r. (r.0 ≡ first ∷ tree.tables_of others) × (r.1 ≡ tree.parts_of others None)) }
{
    let mut tables = only_table(alloc, first)?;
    let mut parts = Items::new(alloc);
    'each: for item in others.into_vec() {
        tables.push(item.table)?;
        push_if(&mut parts, item.on)?;
    }
    Ok((tables, parts))
}

/// The tables, and the whole condition, where more than one table stands.
#[inline(never)]
fn several(
    alloc: Global,
    first: RefTree,
    others: Items<Joined>,
    filter: Option<CondTree>,
) -> Result<(RefTrees, CondTree), NoMemory>
    ensures { IfOk result (λ r. (r.0 ≡ first ∷ tree.tables_of others) × (r.1 ≡ tree.condition_of others filter)) }
{
    let (tables, parts) = split(alloc, first, others)?;
    let mut parts = parts;
    push_if(&mut parts, filter)?;
    Ok((tables, all_of(parts)))
}

/// The condition of WHERE, where no other stands before it.
fn filter_alone(filter: Option<CondTree>) -> CondTree
    ensures { result ≡ tree.condition_of [] filter }
{
    match filter {
        None => CondTree::True,
        Some(found) => found,
    }
}

/// The tables, and the whole condition: the And of the ON conditions in order and then of WHERE. Cost: linear in the
/// tables.
pub(crate) fn tables_and_condition(
    alloc: Global,
    sources: Sources,
    filter: Option<CondTree>,
) -> Result<(RefTrees, CondTree), NoMemory>
    ensures { IfOk result (λ r. (r.0 ≡ tree.tables_of sources) × (r.1 ≡ tree.condition_of sources filter)) }
{
    let Sources { first, others } = sources;
    if !others.is_empty() {
        return several(alloc, first, others, filter);
    }
    let tables = only_table(alloc, first)?;
    Ok((tables, filter_alone(filter)))
}
