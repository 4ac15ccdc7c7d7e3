//! Conditions.

ghost use Rattle.std.specs.Prelude.{◌≡◌, [], ◌∷◌, length};
ghost use Rattle.lv_lexer.specs.declared.terminals.Class.TheVariants as k;
ghost use Rattle.lv_parser.specs.Reading.{Gives, sees, behind, many_more};
ghost use Rattle.lv_parser.specs.Read as read;
ghost use Rattle.lv_parser.specs.Trees as tree;

use crate::cursor::Cursor;
use crate::names::{col, literal};
use crate::stop::Stop;
use crate::tree::{CondTree, CondTrees, OperandTree, Sign};
use lv_lexer::Class;
use lv_values::{Boxed, Items};
use std::alloc::Global;

/// How deep parentheses and NOT may nest in a condition. The functions below call one another no deeper than this,
/// a few calls for each level.
const MAX_NESTING: u32 = 64;

/// The statement that a condition stands in. Today all allow the same; calls of functions, once there are any,
/// come in a view's condition alone.
#[derive(Clone, Copy, Debug, PartialEq, Eq)]
pub(crate) enum Within {
    /// CREATE VIEW.
    View,
    /// Any other statement.
    Query,
}

/// One side of a comparison.
#[tactic(auto, unfolding(crate::specs::Read::operand))]
fn operand(cursor: &mut Cursor, within: Within) -> Result<OperandTree, Stop>
    ensures { Gives (read.operand within cursor.old) result cursor.new }
{
    if cursor.sees(Class::Name) {
        Ok(OperandTree::Column(col(cursor)?))
    } else {
        Ok(OperandTree::Literal(literal(cursor)?))
    }
}

/// The sign of a comparison that tokens of this class are.
fn sign_of(class: Class) -> Option<Sign>
    ensures { result ≡ read.sign_of class }
{
    match class {
        Class::Equal => Some(Sign::Eq),
        Class::NotEqual => Some(Sign::Ne),
        Class::Less => Some(Sign::Lt),
        Class::LessEqual => Some(Sign::Le),
        Class::Greater => Some(Sign::Gt),
        Class::GreaterEqual => Some(Sign::Ge),
        _ => None,
    }
}

/// The sign of a comparison.
fn op(cursor: &mut Cursor) -> Result<Sign, Stop>
    ensures { Gives (read.op cursor.old) result cursor.new }
{
    let Some(class) = cursor.peek() else {
        return Err(Stop::Syntax);
    };
    let Some(sign) = sign_of(class) else {
        return Err(Stop::Syntax);
    };
    cursor.skip();
    Ok(sign)
}

/// A comparison.
#[tactic(auto, unfolding(crate::specs::Read::comparison))]
fn comparison(cursor: &mut Cursor, within: Within) -> Result<CondTree, Stop>
    ensures { Gives (read.comparison within cursor.old) result cursor.new }
{
    let left = operand(cursor, within)?;
    let op = op(cursor)?;
    let right = operand(cursor, within)?;
    Ok(CondTree::Cmp { op, left, right })
}

/// The one part of a list.
fn only(parts: CondTrees) -> CondTree
    requires { length parts ≡ 1 }
    ensures { parts ≡ result ∷ [] }
{
    let mut parts = parts;
    parts.pop().unwrap()
}

/// All of these. No part is no condition, and one part stands alone.
pub(crate) fn all_of(parts: CondTrees) -> CondTree
    ensures { result ≡ tree.gathered CondTree.And parts }
{
    match parts.len() {
        0 => CondTree::True,
        1 => only(parts),
        _ => CondTree::And(parts),
    }
}

/// One of these at least. One part stands alone.
fn one_of(parts: CondTrees) -> CondTree
    ensures { result ≡ tree.gathered CondTree.Or parts }
{
    match parts.len() {
        0 => CondTree::True,
        1 => only(parts),
        _ => CondTree::Or(parts),
    }
}

/// A unit behind AND.
#[cycle(condition)]
fn next_unit(
    alloc: Global,
    cursor: &mut Cursor,
    within: Within,
    depth: u32,
) -> Result<CondTree, Stop>
    ensures { Gives (behind k.And (read.unit within depth) cursor.old) result cursor.new }
{
    cursor.expect(Class::And)?;
    unit(alloc, cursor, within, depth)
}

/// The units so far, and those that follow.
#[cycle(condition)]
fn more_units(
    alloc: Global,
    cursor: &mut Cursor,
    within: Within,
    depth: u32,
    found: CondTrees,
) -> Result<CondTrees, Stop>
    ensures { Gives (many_more (sees k.And) (behind k.And (read.unit within depth)) found cursor.old) result cursor.new }
{
    let mut found = found;
    'each: for _ in 0..cursor.len() {
        if !cursor.sees(Class::And) {
            break;
        }
        let item = next_unit(alloc, cursor, within, depth)?;
        found.push(item)?;
    }
    Ok(found)
}

/// Units with AND between. One that stands alone takes no list.
#[cycle(condition)]
#[inline(always)]
#[tactic(auto, unfolding(crate::specs::Read::conj_of, crate::specs::Reading::separated))]
fn conj(alloc: Global, cursor: &mut Cursor, within: Within, depth: u32) -> Result<CondTree, Stop>
    ensures { Gives (read.conj_of (read.unit within depth) cursor.old) result cursor.new }
{
    let first = unit(alloc, cursor, within, depth);
    if first.is_err() {
        return first;
    }
    if !cursor.sees(Class::And) {
        return first;
    }
    let mut found = Items::new(alloc);
    found.push(first?)?;
    let parts = more_units(alloc, cursor, within, depth, found)?;
    Ok(all_of(parts))
}

/// A conjunction behind OR.
#[cycle(condition)]
fn next_conj(
    alloc: Global,
    cursor: &mut Cursor,
    within: Within,
    depth: u32,
) -> Result<CondTree, Stop>
    ensures { Gives (behind k.Or (read.conj_of (read.unit within depth)) cursor.old) result cursor.new }
{
    cursor.expect(Class::Or)?;
    conj(alloc, cursor, within, depth)
}

/// The conjunctions so far, and those that follow.
#[cycle(condition)]
fn more_conjs(
    alloc: Global,
    cursor: &mut Cursor,
    within: Within,
    depth: u32,
    found: CondTrees,
) -> Result<CondTrees, Stop>
    ensures { Gives (many_more (sees k.Or) (behind k.Or (read.conj_of (read.unit within depth))) found cursor.old) result cursor.new }
{
    let mut found = found;
    'each: for _ in 0..cursor.len() {
        if !cursor.sees(Class::Or) {
            break;
        }
        let item = next_conj(alloc, cursor, within, depth)?;
        found.push(item)?;
    }
    Ok(found)
}

/// A condition in which parentheses and NOT nest at most so deep. A conjunction that stands alone takes no list.
#[cycle(condition)]
#[tactic(auto, unfolding(crate::specs::Read::cond_of, crate::specs::Reading::separated))]
fn cond_within(
    alloc: Global,
    cursor: &mut Cursor,
    within: Within,
    depth: u32,
) -> Result<CondTree, Stop>
    ensures { Gives (read.cond_of (read.unit within depth) cursor.old) result cursor.new }
{
    let first = conj(alloc, cursor, within, depth);
    if first.is_err() {
        return first;
    }
    if !cursor.sees(Class::Or) {
        return first;
    }
    let mut found = Items::new(alloc);
    found.push(first?)?;
    let parts = more_conjs(alloc, cursor, within, depth, found)?;
    Ok(one_of(parts))
}

/// NOT and the unit behind it.
#[cycle(condition)]
#[inline(never)]
#[tactic(auto, unfolding(crate::specs::Read::negation))]
fn negation(
    alloc: Global,
    cursor: &mut Cursor,
    within: Within,
    depth: u32,
) -> Result<CondTree, Stop>
    ensures { Gives (read.negation (read.unit within depth) cursor.old) result cursor.new }
{
    cursor.expect(Class::Not)?;
    let inner = unit(alloc, cursor, within, depth)?;
    Ok(CondTree::Not(Boxed::new(alloc, inner)?))
}

/// A condition in parentheses.
#[cycle(condition)]
#[inline(never)]
#[tactic(auto, unfolding(crate::specs::Read::bracketed))]
fn bracketed(
    alloc: Global,
    cursor: &mut Cursor,
    within: Within,
    depth: u32,
) -> Result<CondTree, Stop>
    ensures { Gives (read.bracketed (read.unit within depth) cursor.old) result cursor.new }
{
    cursor.expect(Class::LeftParen)?;
    let inner = cond_within(alloc, cursor, within, depth)?;
    cursor.expect(Class::RightParen)?;
    Ok(inner)
}

/// NOT of a unit, a condition in parentheses, or a comparison, with at most so many levels of them. At level 0 only
/// a comparison can stand. A comparison, the usual case, is handed on as it is read.
#[cycle(condition)]
#[inline(always)]
#[tactic(auto, unfolding(crate::specs::Read::unit))]
fn unit(alloc: Global, cursor: &mut Cursor, within: Within, depth: u32) -> Result<CondTree, Stop>
    ensures { Gives (read.unit within depth cursor.old) result cursor.new }
{
    if depth == 0 {
        return comparison(cursor, within);
    }
    if cursor.sees(Class::Not) {
        return negation(alloc, cursor, within, depth - 1);
    }
    if cursor.sees(Class::LeftParen) {
        return bracketed(alloc, cursor, within, depth - 1);
    }
    comparison(cursor, within)
}

/// A condition. Cost: linear in its tokens.
#[tactic(auto, unfolding(crate::specs::Read::cond))]
pub(crate) fn cond(alloc: Global, cursor: &mut Cursor, within: Within) -> Result<CondTree, Stop>
    ensures { Gives (read.cond within cursor.old) result cursor.new }
{
    cond_within(alloc, cursor, within, MAX_NESTING)
}

/// WHERE and a condition, if it comes.
#[tactic(auto, unfolding(crate::specs::Read::filter))]
pub(crate) fn filter(
    alloc: Global,
    cursor: &mut Cursor,
    within: Within,
) -> Result<Option<CondTree>, Stop>
    ensures { Gives (read.filter within cursor.old) result cursor.new }
{
    if cursor.sees(Class::Where) {
        cursor.expect(Class::Where)?;
        let found = cond(alloc, cursor, within)?;
        Ok(Some(found))
    } else {
        Ok(None)
    }
}
