//! Links: what equations between columns of two aliases ask of a tuple.
ghost use Rattle.std.specs.Prelude.{◌≡◌, ◌++◌, IfOk, OnOk};
ghost use Rattle.std.specs.List.{filter_map};
ghost use Rattle.lv_reach.specs.Links.{as_list, link_of, link_of_columns, link_of_operands, link_of_comparison, links_of};

use lv_schema::{Col, Cond, Op, Operand, ViewDef};
use lv_values::{Copying, Items, NoMemory};
use std::alloc::Global;

/// An equation between columns of two different aliases.
#[derive(Clone, Copy, Debug, PartialEq, Eq)]
pub struct Link {
    pub left: Col,
    pub right: Col,
}

/// Links in the order of their place in a condition.
pub type Links = Items<Link>;

impl Copying for Link {
    fn copy(&self, _alloc: Global) -> Result<Self, NoMemory> {
        Ok(*self)
    }
}

/// The link that an equation of two columns is, where they are of two aliases.
fn link_of_columns(left: Col, right: Col) -> Option<Link>
    ensures { result ≡ link_of_columns left right }
{
    if left.alias == right.alias {
        None
    } else {
        Some(Link { left, right })
    }
}

/// The link that an equation of these sides is, where both are columns.
fn link_of_operands(left: &Operand, right: &Operand) -> Option<Link>
    ensures { result ≡ link_of_operands left.now right.now }
{
    match (left, right) {
        (Operand::Column(left), Operand::Column(right)) => link_of_columns(*left, *right),
        _ => None,
    }
}

/// The link that a comparison is, where it is an equation.
fn link_of_comparison(op: Op, left: &Operand, right: &Operand) -> Option<Link>
    ensures { result ≡ link_of_comparison op left.now right.now }
{
    match op {
        Op::Eq => link_of_operands(left, right),
        Op::Ne | Op::Lt | Op::Le | Op::Gt | Op::Ge => None,
    }
}

/// The link that a condition is, where it is a comparison.
fn link_of(cond: &Cond) -> Option<Link>
    ensures { result ≡ link_of cond.now }
{
    match cond {
        Cond::Cmp { op, left, right } => link_of_comparison(*op, left, right),
        Cond::True | Cond::And(_) | Cond::Or(_) | Cond::Not(_) => None,
    }
}

/// Puts a link behind the others, where there is one.
fn add(links: &mut Links, link: Option<Link>) -> Result<(), NoMemory>
    ensures { OnOk result (links.new ≡ links.old ++ as_list link) }
{
    if let Some(link) = link {
        links.push(link)?;
    }
    Ok(())
}

/// The links among these conditions.
#[tactic(auto, using(crate::proofs::LinkLaws::links_more))]
fn links_among(alloc: Global, conds: &[Cond]) -> Result<Links, NoMemory>
    ensures { IfOk result (λ links. links ≡ filter_map link_of conds.now) }
{
    let mut links = Links::new(alloc);
    for cond in conds {
        add(&mut links, link_of(cond))?;
    }
    Ok(links)
}

/// The links of a condition that is a comparison.
fn link_alone(alloc: Global, op: Op, left: &Operand, right: &Operand) -> Result<Links, NoMemory>
    ensures { IfOk result (λ links. links ≡ as_list (link_of_comparison op left.now right.now)) }
{
    let mut links = Links::new(alloc);
    add(&mut links, link_of_comparison(op, left, right))?;
    Ok(links)
}

/// The links of a condition.
fn links_of(alloc: Global, cond: &Cond) -> Result<Links, NoMemory>
    ensures { IfOk result (λ links. links ≡ links_of cond.now) }
{
    match cond {
        Cond::And(parts) => links_among(alloc, parts.as_slice()),
        Cond::Cmp { op, left, right } => link_alone(alloc, *op, left, right),
        Cond::True | Cond::Or(_) | Cond::Not(_) => Ok(Links::new(alloc)),
    }
}

/// The links of a view, in the order of their place: the comparisons `=` between columns of two different aliases that
/// are its whole condition, or a part of an And that is. Cost: linear in the parts of the condition.
pub fn links(alloc: Global, view: &ViewDef) -> Result<Links, NoMemory>
    ensures { IfOk result (λ links. links ≡ links_of view.now.cond) }
{
    links_of(alloc, &view.cond)
}
