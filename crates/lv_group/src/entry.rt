//! Tuples to be grouped.
ghost use Rattle.std.specs.Prelude.{◌≡◌, refl};
ghost use Rattle.std.specs.Cmp.{partial_equiv_from_equiv, partial_order_from_total};
ghost use Rattle.std.specs.Ordering.{as_partial_cmp, eq_by_cmp};
ghost use Rattle.std.proofs.lemmas.Cmp.{eq_by_cmp_equiv};
ghost use Rattle.lv_values.specs.Order.{row_cmp};
ghost use Rattle.lv_schema.specs.Tuples.{listed};
ghost use Rattle.lv_group.specs.Entries.{entry_cmp, entry_total};

use crate::places::compare_values;
use lv_schema::Col;
use lv_values::Row;
use std::cmp::Ordering;
use std::marker::Model;

/// A tuple, with the columns that tell its group. Contracts see the pair of both. Entries are ordered by their
/// groups, in place.
#[derive(Drop)]
pub(crate) struct Entry<'a> {
    pub by: &'a [Col],
    pub tuple: &'a [Row],
}

impl<'a> Model for Entry<'a> {
    ghost use Rattle.lv_group.specs.Entries.{AnEntry};

    ghost Value = { AnEntry };

    ghost view = { λ e. (e.by.now, e.tuple.now) };
}

/// Compares what two tuples have in their columns. Cost: at most the shorter list's values.
fn compare_listed(by: &[Col], a: &[Row], others: &[Col], b: &[Row]) -> Ordering
    ensures { result ≡ row_cmp (listed by.now a.now) (listed others.now b.now) }
{
    for (i, col) in by.iter().enumerate() {
        if i >= others.len() {
            return Ordering::Greater;
        }
        let order = compare_values(a, *col, b, others[i]);
        if order.is_ne() {
            return order;
        }
    }
    if by.len() < others.len() {
        Ordering::Less
    } else {
        Ordering::Equal
    }
}

impl<'a> PartialEq for Entry<'a> {
    ghost eq = { eq_by_cmp entry_cmp };

    ghost laws = { partial_equiv_from_equiv (eq_by_cmp_equiv entry_total) };

    fn eq(&self, other: &Entry<'a>) -> bool {
        self.cmp(other).is_eq()
    }
}

impl<'a> Eq for Entry<'a> {
    ghost laws = { eq_by_cmp_equiv entry_total };
}

impl<'a> PartialOrd for Entry<'a> {
    ghost partial_cmp = { as_partial_cmp entry_cmp };

    ghost laws = { partial_order_from_total entry_total };

    fn partial_cmp(&self, other: &Entry<'a>) -> Option<Ordering> {
        Some(self.cmp(other))
    }
}

impl<'a> Ord for Entry<'a> {
    ghost cmp = { entry_cmp };

    ghost total = { entry_total };

    ghost matches_partial_cmp = { λ _ _. refl };

    ghost matches_eq = { λ _ _. refl };

    fn cmp(&self, other: &Entry<'a>) -> Ordering {
        compare_listed(self.by, self.tuple, other.by, other.tuple)
    }
}
