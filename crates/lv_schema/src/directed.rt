//! Rows of an answer in the order of ORDER BY.
ghost use Rattle.std.specs.Prelude.{refl};
ghost use Rattle.std.specs.Cmp.{partial_order_from_agreeing_total};
ghost use Rattle.std.specs.Ordering.{as_partial_cmp};

use lv_values::{Copying, Exact, Items, NoMemory, Row, Value};
use std::alloc::Global;
use std::cmp::Ordering;

/// A value of an ORDER BY column, with the direction of the column.
#[derive(Drop)]
pub enum Directed {
    /// Ascending.
    Up(Value),
    /// Descending.
    Down(Value),
}

/// The values of the ORDER BY columns, from the left.
pub type DirectedValues = Items<Directed>;

/// A row of an answer, with the values by which it is ordered. Ties go by the row itself.
#[derive(Drop)]
pub struct SortedRow {
    pub order: DirectedValues,
    pub row: Row,
}

impl Copying for Directed {
    fn copy(&self, alloc: Global) -> Result<Self, NoMemory> {
        match self {
            Directed::Up(value) => Ok(Directed::Up(value.copy(alloc)?)),
            Directed::Down(value) => Ok(Directed::Down(value.copy(alloc)?)),
        }
    }
}

impl Copying for SortedRow {
    fn copy(&self, alloc: Global) -> Result<Self, NoMemory> {
        Ok(SortedRow {
            order: self.order.copy(alloc)?,
            row: self.row.copy(alloc)?,
        })
    }
}

impl PartialEq for Directed {
    ghost use Rattle.lv_schema.specs.AnswerOrder.{directed_eq};
    ghost use Rattle.lv_schema.specs.AnswerOrderLaws.{directed_per};

    ghost eq = { directed_eq };

    ghost laws = { directed_per };

    fn eq(&self, other: &Directed) -> bool {
        self.cmp(other).is_eq()
    }
}

impl Eq for Directed {
    ghost use Rattle.lv_schema.specs.AnswerOrderLaws.{directed_equiv};

    ghost laws = { directed_equiv };
}

impl PartialOrd for Directed {
    ghost use Rattle.lv_schema.specs.AnswerOrder.{directed_cmp};
    ghost use Rattle.lv_schema.specs.AnswerOrderLaws.{directed_total};

    ghost partial_cmp = { as_partial_cmp directed_cmp };

    ghost laws = { partial_order_from_agreeing_total directed_cmp directed_total (λ _ _. refl) (λ _ _. refl) };

    fn partial_cmp(&self, other: &Directed) -> Option<Ordering> {
        Some(self.cmp(other))
    }
}

impl Ord for Directed {
    ghost use Rattle.lv_schema.specs.AnswerOrder.{directed_cmp};
    ghost use Rattle.lv_schema.specs.AnswerOrderLaws.{directed_total};

    ghost cmp = { directed_cmp };

    ghost total = { directed_total };

    ghost matches_partial_cmp = { λ _ _. refl };

    ghost matches_eq = { λ _ _. refl };

    fn cmp(&self, other: &Directed) -> Ordering {
        match (self, other) {
            (Directed::Up(a), Directed::Up(b)) => a.cmp(b),
            (Directed::Up(_), Directed::Down(_)) => Ordering::Less,
            (Directed::Down(_), Directed::Up(_)) => Ordering::Greater,
            (Directed::Down(a), Directed::Down(b)) => b.cmp(a),
        }
    }
}

impl Exact for Directed {
    ghost use Rattle.lv_schema.specs.AnswerOrderLaws.{directed_exact};

    ghost exact = { directed_exact };
}

impl PartialEq for SortedRow {
    ghost use Rattle.lv_schema.specs.AnswerOrder.{sorted_eq};
    ghost use Rattle.lv_schema.specs.AnswerOrderLaws.{sorted_per};

    ghost eq = { sorted_eq };

    ghost laws = { sorted_per };

    fn eq(&self, other: &SortedRow) -> bool {
        self.cmp(other).is_eq()
    }
}

impl Eq for SortedRow {
    ghost use Rattle.lv_schema.specs.AnswerOrderLaws.{sorted_equiv};

    ghost laws = { sorted_equiv };
}

impl PartialOrd for SortedRow {
    ghost use Rattle.lv_schema.specs.AnswerOrder.{sorted_cmp};
    ghost use Rattle.lv_schema.specs.AnswerOrderLaws.{sorted_total};

    ghost partial_cmp = { as_partial_cmp sorted_cmp };

    ghost laws = { partial_order_from_agreeing_total sorted_cmp sorted_total (λ _ _. refl) (λ _ _. refl) };

    fn partial_cmp(&self, other: &SortedRow) -> Option<Ordering> {
        Some(self.cmp(other))
    }
}

impl Ord for SortedRow {
    ghost use Rattle.lv_schema.specs.AnswerOrder.{sorted_cmp};
    ghost use Rattle.lv_schema.specs.AnswerOrderLaws.{sorted_total};

    ghost cmp = { sorted_cmp };

    ghost total = { sorted_total };

    ghost matches_partial_cmp = { λ _ _. refl };

    ghost matches_eq = { λ _ _. refl };

    fn cmp(&self, other: &SortedRow) -> Ordering {
        self.order.cmp(&other.order).then(self.row.cmp(&other.row))
    }
}

impl Exact for SortedRow {
    ghost use Rattle.lv_schema.specs.AnswerOrderLaws.{sorted_exact};

    ghost exact = { sorted_exact };
}
