//! The test of a query over one view.
ghost use Rattle.std.specs.Prelude.{◌≡◌, IfOk, option_copied};
ghost use Rattle.lv_store.specs.Ranges.{IsSaid, highest_of, lowest_of};

use lv_effect::{KeptBy, Side, bound_value, fixed_value};
use lv_schema::Cond;
use lv_values::{NoMemory, Row, Test, Value};
use lv_viewrows::Seek;
use std::alloc::Global;
use std::marker::Model;

/// The values among which a column is, wherever a condition keeps the row.
#[derive(Drop)]
pub(crate) enum FirstRange {
    /// This one alone.
    Only(Value),
    /// Those that are not below the lowest one and not above the highest one, where there is one.
    Between {
        lowest: Option<Value>,
        highest: Option<Value>,
    },
}

impl FirstRange {
    /// The value below which there is none.
    fn lowest(&self) -> Option<&Value>
        ensures { option_copied result ≡ lowest_of self.now }
    {
        match self {
            FirstRange::Only(value) => Some(value),
            FirstRange::Between { lowest, .. } => lowest.as_ref(),
        }
    }

    /// The value above which there is none.
    fn highest(&self) -> Option<&Value>
        ensures { option_copied result ≡ highest_of self.now }
    {
        match self {
            FirstRange::Only(value) => Some(value),
            FirstRange::Between { highest, .. } => highest.as_ref(),
        }
    }
}

/// The values among which a column is, wherever a condition keeps the row: the one that it equals, or else those between
/// the first literal that bounds it on each side. Cost: up to three passes over the condition.
pub(crate) fn range_of(alloc: Global, column: u8, cond: &Cond) -> Result<FirstRange, NoMemory>
    ensures { IfOk result (λ range. IsSaid column cond.now range) }
{
    if let Some(value) = fixed_value(alloc, column, cond)? {
        return Ok(FirstRange::Only(value));
    }
    let lowest = bound_value(alloc, column, Side::Low, cond)?;
    let highest = bound_value(alloc, column, Side::High, cond)?;
    Ok(FirstRange::Between { lowest, highest })
}

/// Passed by the rows of a view that a condition keeps, with the values between which these are sought.
#[derive(Drop)]
pub(crate) struct SoughtBy<'a> {
    pub kept: KeptBy<'a>,
    pub range: FirstRange,
}

impl<'a> Model for SoughtBy<'a> {
    ghost use Rattle.std.specs.Coded.{codes};
    ghost use Rattle.std.specs.Prelude.{Option};
    ghost use Rattle.lv_values.specs.declared.value.Value.{Value as AValue};
    ghost use Rattle.lv_schema.specs.declared.cond.Cond.{Cond as ACond};
    ghost use Rattle.lv_schema.specs.contracts.cond.Cond as condition;
    ghost use Rattle.lv_store.specs.Ranges.{highest_of, lowest_of};

    ghost Value = { ACond × (Option AValue × Option AValue) };

    ghost coded = { Prim.hlevel (codes, condition.the_row.coded) };

    ghost view = { λ t. (t.kept, (lowest_of t.range, highest_of t.range)) };
}

impl<'a> Test<Row> for SoughtBy<'a> {
    ghost use Rattle.std.specs.Prelude.{◌∷◌, []};
    ghost use Rattle.lv_schema.specs.Truth.{holds};

    ghost passed = { λ t row. holds t.0 (row ∷ []) };

    fn passes(&self, row: &Row) -> bool {
        self.kept.passes(row)
    }
}

impl<'a> Seek for SoughtBy<'a> {
    ghost lowest = { λ t. t.1.0 };

    ghost highest = { λ t. t.1.1 };

    fn lowest(&self) -> Option<&Value> {
        self.range.lowest()
    }

    fn highest(&self) -> Option<&Value> {
        self.range.highest()
    }
}
