//! What stands after FROM, with its condition, printed.

ghost use Rattle.std.specs.Prelude.{◌≡◌, List, map, length, OnOk};
ghost use Rattle.lv_lexer.specs.Written.{with_tokens};
ghost use Rattle.lv_parser.specs.Printed as printed;

use crate::print_conditions::print_cond;
use crate::print_names::print_name;
use crate::tree::{CondTree, RefTree};
use lv_lexer::Writer;
use lv_values::NoMemory;
use std::alloc::Global;
use std::slice;

/// Writes a reference, and its alias where it has one.
fn print_ref(out: &mut Writer, table: &RefTree) -> Result<(), NoMemory>
    ensures { OnOk result (out.new ≡ with_tokens out.old (printed.ref_tokens table.now)) }
{
    print_name(out, &table.name)?;
    match &table.alias {
        Some(alias) => print_name(out, alias),
        None => Ok(()),
    }
}

/// Writes WHERE and the first of these, if there is one.
fn print_where(alloc: Global, out: &mut Writer, parts: &[CondTree]) -> Result<(), NoMemory>
    ensures { OnOk result (out.new ≡ with_tokens out.old (printed.where_tokens (map (λ p. (printed.shown p).tokens) parts.now))) }
{
    match parts {
        [] => Ok(()),
        [part, ..] => {
            out.word("where")?;
            print_cond(alloc, out, part)
        }
    }
}

/// Writes a reference that is joined on a condition.
fn print_joined(
    alloc: Global,
    out: &mut Writer,
    table: &RefTree,
    on: &CondTree,
) -> Result<(), NoMemory>
    ensures { OnOk result (out.new ≡ with_tokens out.old (printed.join_tokens table.now (printed.shown on.now).tokens)) }
{
    out.word("join")?;
    print_ref(out, table)?;
    out.word("on")?;
    print_cond(alloc, out, on)
}

/// Writes the references behind the first, and the condition by these parts.
fn print_others(
    alloc: Global,
    out: &mut Writer,
    others: &[RefTree],
    parts: &[CondTree],
) -> Result<(), NoMemory>
    ensures { OnOk result (out.new ≡ with_tokens out.old (printed.joined_tokens others.now (map (λ p. (printed.shown p).tokens) parts.now))) }
{
    let mut left = parts;
    for table in others {
        match left {
            [on, rest @ ..] if !rest.is_empty() => {
                print_joined(alloc, out, table, on)?;
                left = rest;
            }
            _ => {
                out.sign(",")?;
                print_ref(out, table)?;
            }
        }
    }
    print_where(alloc, out, left)
}

/// The condition as one part, and no part where there is none.
fn whole(cond: &CondTree) -> &[CondTree]
    ensures { map (λ p. (printed.shown p).tokens) result.now ≡ printed.whole (printed.shown cond.now) }
{
    match cond {
        CondTree::True => &[],
        CondTree::Cmp { .. } => slice::from_ref(cond),
        CondTree::And(_) => slice::from_ref(cond),
        CondTree::Or(_) => slice::from_ref(cond),
        CondTree::Not(_) => slice::from_ref(cond),
    }
}

/// The parts of a condition that stand after ON and WHERE where there are so many references: those of an And of no more
/// parts than that, else the condition alone, and none where there is none.
fn placed_parts(cond: &CondTree, refs: usize) -> &[CondTree]
    ensures { map (λ p. (printed.shown p).tokens) result.now ≡ printed.placed_parts refs (printed.shown cond.now) }
{
    match cond {
        CondTree::True => whole(cond),
        CondTree::Cmp { .. } => whole(cond),
        CondTree::And(parts) => {
            if parts.len() <= refs {
                parts.as_slice()
            } else {
                whole(cond)
            }
        }
        CondTree::Or(_) => whole(cond),
        CondTree::Not(_) => whole(cond),
    }
}

/// Writes FROM, the references and the condition.
pub(crate) fn print_from(
    alloc: Global,
    out: &mut Writer,
    refs: &[RefTree],
    cond: &CondTree,
) -> Result<(), NoMemory>
    ensures { OnOk result (out.new ≡ with_tokens out.old (printed.from_tokens refs.now cond.now)) }
{
    match refs {
        [] => Ok(()),
        [first, others @ ..] => {
            out.word("from")?;
            print_ref(out, first)?;
            print_others(alloc, out, others, placed_parts(cond, refs.len()))
        }
    }
}

/// Writes WHERE and the condition, where there is one.
pub(crate) fn print_filter(alloc: Global, out: &mut Writer, cond: &CondTree) -> Result<(), NoMemory>
    ensures { OnOk result (out.new ≡ with_tokens out.old (printed.filter_tokens cond.now)) }
{
    print_where(alloc, out, whole(cond))
}
