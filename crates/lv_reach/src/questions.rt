//! Questions of a walk: what is looked up of another alias for a row, each once.
ghost use Rattle.std.specs.Prelude.{◌≡◌, ◌↔◌, ◌<◌, ◌+◌, ◌≤◌, ◌++◌, ◌∷◌, [], List, true, not, length, Some, slice_get, IsTrue, IfOk, OnOk, OnErr};
ghost use Rattle.lv_reach.specs.declared.questions.Question.{Question as AQuestion};
ghost use Rattle.lv_reach.specs.Questions.{answered, ask, has_question, question_of};

use crate::asked::{are_values_to, columns_to, values_to};
use crate::latest::{Latest, note, place_of};
use crate::link::Link;
use crate::rows::AliasRow;
use crate::source::OldRows;
use indexmap::IndexSet;
use lv_values::{Items, NoMemory, Row, Rows, Steps};
use std::alloc::Global;
use std::marker::Model;
use std::sync::ledger::Ledger;

/// What a row of an alias asks of another alias: the rows that have these values in the linked columns.
#[derive(Drop, PartialEq, Eq, Hash)]
pub(crate) struct Question {
    pub from: u8,
    pub to: u8,
    pub values: Row,
}

/// What a row asks of an alias. Cost: copies of its values in the linked columns.
pub(crate) fn question_of(
    alloc: Global,
    links: &[Link],
    a: &AliasRow,
    to: u8,
) -> Result<Question, NoMemory>
    ensures { IfOk result (λ question. question ≡ question_of links.now a.now to) }
{
    let values = values_to(alloc, links, a, to)?;
    Ok(Question {
        from: a.alias,
        to,
        values,
    })
}

/// Whether a question is what a row asks of an alias. The values are compared where they lie.
fn is_asked_by(question: &Question, links: &[Link], a: &AliasRow, to: u8) -> bool
    ensures { IsTrue result ↔ (question.now ≡ question_of links.now a.now to) }
{
    question.from == a.alias
        && question.to == to
        && are_values_to(question.values.as_slice(), links, a, to)
}

/// Looks up the old rows that a question finds.
pub(crate) fn look_up<S: OldRows, L: Ledger>(
    alloc: Global,
    links: &[Link],
    source: &S,
    question: &Question,
    steps: &mut Steps<L>,
) -> Result<Rows, NoMemory>
    requires { S.can_read source.now }
    ensures rows { IfOk result (λ found. found ≡ answered links.now (S.rows source.now) question.now) }
    ensures cost { OnOk result (steps.new ≡ steps.old + length (answered links.now (S.rows source.now) question.now)) }
    ensures most { OnErr result (steps.new ≤ steps.old + length (answered links.now (S.rows source.now) question.now)) }
{
    let columns = columns_to(alloc, links, question.from, question.to)?;
    source.with_values(
        alloc,
        question.to,
        columns.as_slice(),
        &question.values,
        steps,
    )
}

/// Questions, each once, in the order in which they were asked first, and the places of those that were asked last.
/// Contracts see the list.
#[derive(Drop)]
pub(crate) struct Questions {
    asked: IndexSet<Question>,
    latest: Items<Latest>,
}

impl Model for Questions {
    ghost use Rattle.std.specs.Prelude.{List};
    ghost use Rattle.lv_reach.specs.declared.questions.Question.{Question as AQuestion};

    ghost Value = { List AQuestion };

    ghost view = { λ q. q.asked.keys };
}

impl Questions {
    /// No questions. It takes no memory.
    pub(crate) fn new(alloc: Global) -> Questions
        ensures { result ≡ [] }
    {
        Questions {
            asked: IndexSet::new(alloc),
            latest: Items::new(alloc),
        }
    }

    /// Puts a question behind the others, if it is not among them, and tells whether it is new. It is the last one between
    /// its aliases then. Cost: that of hashing it, on average, and linear in the pairs of aliases between which questions
    /// were asked.
    pub(crate) fn ask(&mut self, question: Question) -> Result<bool, NoMemory>
        ensures asked { OnOk result (self.new ≡ ask question self.old) }
        ensures is_new { IfOk result (λ is_new. is_new ≡ not (has_question question self.old)) }
    {
        let from = question.from;
        let to = question.to;
        let (at, is_new) = self.asked.insert_full(question)?;
        note(&mut self.latest, Latest { from, to, at })?;
        Ok(is_new)
    }

    /// Whether the question at a place is what a row asks of an alias.
    fn is_asked_at(&self, at: usize, links: &[Link], a: &AliasRow, to: u8) -> bool
        ensures { IsTrue result ↔ (slice_get self.now at ≡ Some (question_of links.now a.now to)) }
    {
        match self.asked.get_index(at) {
            Some(question) => is_asked_by(question, links, a, to),
            None => false,
        }
    }

    /// Whether the last question from a row's alias of another one is what the row asks. Rows that were found together have
    /// mostly the same values in the linked columns. Cost: linear in the links, and in the pairs of aliases between which
    /// questions were asked.
    #[tactic(auto, using(crate::proofs::Questioning::question_at))]
    pub(crate) fn was_asked_last(&self, links: &[Link], a: &AliasRow, to: u8) -> bool
        ensures { result ≡ true → has_question (question_of links.now a.now to) self.now ≡ true }
    {
        match place_of(self.latest.as_slice(), a.alias, to) {
            Some(at) => self.is_asked_at(at, links, a, to),
            None => false,
        }
    }

    /// The last question.
    pub(crate) fn last(&self) -> &Question
        requires { 0 < length self.now }
        ensures { (before : List AQuestion) (question : AQuestion) → self.now ≡ before ++ question ∷ [] → result.now ≡ question }
    {
        let asked = self.asked.as_slice();
        &asked[asked.len() - 1]
    }
}
