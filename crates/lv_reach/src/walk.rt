//! The reach of a change: the near rows by a walk from the changed ones that asks each question once, and the far aliases.
ghost use Rattle.std.specs.Prelude.{◌≡◌, ℕ, ◌+◌, ◌≤◌, ◌<◌, ◌++◌, ◌∷◌, [], true, List, Some, cond, length, map, filter, take, drop, slice_get, slice_index_or, IfOk, OnOk, OnErr};
ghost use Rattle.lv_reach.specs.declared.questions.Question.{Question as AQuestion};
ghost use Rattle.lv_reach.specs.declared.rows.AliasRow.{AliasRow as ARowOf};
ghost use Rattle.lv_reach.specs.Cost.{AreFound, IsReach, looked_up};
ghost use Rattle.lv_reach.specs.Questions.{AreAnswered, answered, ask, ask_all, found_by, looked_up_once, question_of, questions_below};
ghost use Rattle.lv_reach.specs.Reach.{AreWithin, agree, are_linked, of_alias, with_old};
ghost use Rattle.lv_reach.specs.Walk.{HasNear, IsWalk, put_all, rows_below};

use crate::changed::changed_rows;
use crate::far::{Flags, far_aliases};
use crate::link::Link;
use crate::near::NearRows;
use crate::questions::{Question, Questions, look_up, question_of};
use crate::rows::are_linked;
use crate::source::OldRows;
use lv_schema::Part;
use lv_values::{NoMemory, Steps};
use std::alloc::Global;
use std::sync::ledger::Ledger;

/// Asks the last of the questions, and puts the rows that it finds behind the near rows.
fn answer_last<S: OldRows, L: Ledger>(
    alloc: Global,
    links: &[Link],
    source: &S,
    asked: &Questions,
    near: &mut NearRows,
    steps: &mut Steps<L>,
) -> Result<(), NoMemory>
    requires can { S.can_read source.now }
    requires some { 0 < length asked.now }
    ensures near { (before : List AQuestion) (q : AQuestion) → asked.now ≡ before ++ q ∷ [] → OnOk result (near.new ≡ put_all (map (of_alias q.to) (answered links.now (S.rows source.now) q)) near.old) }
    ensures cost { (before : List AQuestion) (q : AQuestion) → asked.now ≡ before ++ q ∷ [] → OnOk result (steps.new ≡ steps.old + length (answered links.now (S.rows source.now) q)) }
    ensures most { (before : List AQuestion) (q : AQuestion) → asked.now ≡ before ++ q ∷ [] → steps.new ≤ steps.old + length (answered links.now (S.rows source.now) q) }
{
    let question = asked.last();
    let found = look_up(alloc, links, source, question, steps)?;
    near.put_rows(question.to, found)
}

/// Asks a question, if it was not asked before, and puts the rows that it finds behind the near rows.
fn ask<S: OldRows, L: Ledger>(
    alloc: Global,
    links: &[Link],
    source: &S,
    question: Question,
    asked: &mut Questions,
    near: &mut NearRows,
    steps: &mut Steps<L>,
) -> Result<(), NoMemory>
    requires can { S.can_read source.now }
    requires answered { AreAnswered links.now (S.rows source.now) asked.old near.old }
    ensures asked { OnOk result (asked.new ≡ ask question asked.old) }
    ensures near { OnOk result (near.new ≡ put_all (map (of_alias question.to) (answered links.now (S.rows source.now) question)) near.old) }
    ensures answered { OnOk result (AreAnswered links.now (S.rows source.now) asked.new near.new) }
    ensures cost { OnOk result (steps.new + found_by links.now (S.rows source.now) asked.old ≡ steps.old + found_by links.now (S.rows source.now) asked.new) }
    ensures most { steps.new ≤ steps.old + length (answered links.now (S.rows source.now) question) }
{
    if asked.ask(question)? {
        return answer_last(alloc, links, source, asked, near, steps);
    }
    Ok(())
}

/// Asks from the near row at a place for the rows of an alias that agree with it, where the two aliases are linked. A
/// question that is the last one between the two is not built again.
fn ask_alias<S: OldRows, L: Ledger>(
    alloc: Global,
    links: &[Link],
    source: &S,
    at: usize,
    alias: u8,
    asked: &mut Questions,
    near: &mut NearRows,
    steps: &mut Steps<L>,
) -> Result<(), NoMemory>
    requires can { S.can_read source.now }
    requires at { at < length near.old }
    requires answered { AreAnswered links.now (S.rows source.now) asked.old near.old }
    ensures asked { (a : ARowOf) → slice_get near.old at ≡ Some a → OnOk result (asked.new ≡ ask_all (cond (are_linked links.now a.alias alias) (question_of links.now a alias ∷ []) []) asked.old) }
    ensures near { (a : ARowOf) → slice_get near.old at ≡ Some a → OnOk result (near.new ≡ put_all (filter (agree links.now a) (map (of_alias alias) (S.rows source.now alias))) near.old) }
    ensures answered { OnOk result (AreAnswered links.now (S.rows source.now) asked.new near.new) }
    ensures cost { OnOk result (steps.new + found_by links.now (S.rows source.now) asked.old ≡ steps.old + found_by links.now (S.rows source.now) asked.new) }
    ensures most { (a : ARowOf) → slice_get near.old at ≡ Some a → steps.new ≤ steps.old + length (filter (agree links.now a) (map (of_alias alias) (S.rows source.now alias))) }
{
    let a = &near.as_slice()[at];
    if !are_linked(links, a.alias, alias) {
        return Ok(());
    }
    if asked.was_asked_last(links, a, alias) {
        return Ok(());
    }
    let question = question_of(alloc, links, a, alias)?;
    ask(alloc, links, source, question, asked, near, steps)
}

/// Asks from the near row at a place for the rows of so many aliases that agree with it, and puts them behind the near
/// rows.
fn visit<S: OldRows, L: Ledger>(
    alloc: Global,
    links: &[Link],
    count: u8,
    source: &S,
    at: usize,
    asked: &mut Questions,
    near: &mut NearRows,
    steps: &mut Steps<L>,
) -> Result<(), NoMemory>
    requires can { S.can_read source.now }
    requires at { at < length near.old }
    requires answered { AreAnswered links.now (S.rows source.now) asked.old near.old }
    ensures asked { (a : ARowOf) → slice_get near.old at ≡ Some a → OnOk result (asked.new ≡ ask_all (questions_below links.now a count) asked.old) }
    ensures near { (a : ARowOf) → slice_get near.old at ≡ Some a → OnOk result (near.new ≡ put_all (filter (agree links.now a) (rows_below (S.rows source.now) count)) near.old) }
    ensures answered { OnOk result (AreAnswered links.now (S.rows source.now) asked.new near.new) }
    ensures cost { OnOk result (steps.new + found_by links.now (S.rows source.now) asked.old ≡ steps.old + found_by links.now (S.rows source.now) asked.new) }
    ensures most { (a : ARowOf) → slice_get near.old at ≡ Some a → steps.new ≤ steps.old + length (filter (agree links.now a) (rows_below (S.rows source.now) count)) }
{
    for alias in 0..count {
        ask_alias(alloc, links, source, at, alias, asked, near, steps)?;
    }
    Ok(())
}

/// Walks over the near rows from the changed ones: asks from each, also from those that it finds, and each question once.
fn walk<S: OldRows, L: Ledger>(
    alloc: Global,
    links: &[Link],
    parts: &[Part],
    source: &S,
    near: &mut NearRows,
    steps: &mut Steps<L>,
) -> Result<(), NoMemory>
    requires few { length parts.now ≤ 255 }
    requires can { S.can_read source.now }
    requires starts { IsWalk links.now (with_old (S.rows source.now) parts.now) near.old near.old 0 }
    ensures walked { OnOk result (IsWalk links.now (with_old (S.rows source.now) parts.now) near.old near.new (length near.new)) }
    ensures once { OnOk result (steps.new ≡ steps.old + looked_up_once links.now (S.rows source.now) (length parts.now) near.new) }
    ensures cost { OnOk result (steps.new ≤ steps.old + looked_up links.now (with_old (S.rows source.now) parts.now) near.new) }
    ensures most { OnErr result ((all : List ARowOf) → HasNear links.now (with_old (S.rows source.now) parts.now) all → steps.new ≤ steps.old + looked_up links.now (with_old (S.rows source.now) parts.now) all) }
{
    let count = parts.len() as u8;
    let mut asked = Questions::new(alloc);
    let mut at = 0;
    while at < near.len() {
        visit(alloc, links, count, source, at, &mut asked, near, steps)?;
        at += 1;
    }
    Ok(())
}

/// The reach of a change: the near rows, each once, of which the first so many are the changed ones and the others are
/// old ones; and for each alias whether it is far.
#[derive(Drop)]
pub struct Reach {
    pub near: NearRows,
    pub changed: usize,
    pub far: Flags,
}

/// The reach of a change. The parts tell what changes; the old rows are looked up where they can be read. There are at
/// most 255 aliases, and each link is between two of them. Cost: that of the far aliases, and a look-up for each distinct
/// question of the near rows: an alias, one that is linked to it, and the values of a near row in the linked columns. Each
/// row that is found is one tick and is hashed, and so are the values of each near row.
pub fn reach_of<S: OldRows, L: Ledger>(
    alloc: Global,
    links: &[Link],
    parts: &[Part],
    source: &S,
    steps: &mut Steps<L>,
) -> Result<Reach, NoMemory>
    requires few { length parts.now ≤ 255 }
    requires within { AreWithin (length parts.now) links.now }
    requires can { S.can_read source.now }
    ensures reach { IfOk result (λ r. IsReach links.now (with_old (S.rows source.now) parts.now) r.near (λ j. slice_index_or r.far j true)) }
    ensures found { IfOk result (λ r. AreFound (with_old (S.rows source.now) parts.now) (take r.changed r.near) (drop r.changed r.near)) }
    ensures flags { IfOk result (λ r. length r.far ≡ length parts.now) }
    ensures once { IfOk result (λ r. steps.new ≡ steps.old + looked_up_once links.now (S.rows source.now) (length parts.now) r.near) }
    ensures cost { IfOk result (λ r. steps.new ≤ steps.old + looked_up links.now (with_old (S.rows source.now) parts.now) r.near) }
    ensures most { OnErr result ((near : List ARowOf) → HasNear links.now (with_old (S.rows source.now) parts.now) near → steps.new ≤ steps.old + looked_up links.now (with_old (S.rows source.now) parts.now) near) }
{
    let far = far_aliases(alloc, links, parts)?;
    let mut near = NearRows::new(alloc);
    near.put_all(changed_rows(alloc, parts)?)?;
    let changed = near.len();
    walk(alloc, links, parts, source, &mut near, steps)?;
    Ok(Reach { near, changed, far })
}
