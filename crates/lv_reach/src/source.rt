//! Where the rows before a step are looked up.
ghost use Rattle.std.specs.Prelude.{◌≡◌, ℕ, ◌+◌, ◌≤◌, List, filter, length, IfOk, OnOk, OnErr};
ghost use Rattle.lv_values.specs.declared.value.Value.{Value as AValue};
ghost use Rattle.lv_values.specs.Order.{row_eq};
ghost use Rattle.lv_values.specs.Rows.{values_at};

use lv_values::{NoMemory, Row, Rows, Steps};
use std::alloc::Global;
use std::sync::ledger::Ledger;

/// The rows of each alias of a view before a step, where they can be looked up by values.
pub trait OldRows {
    /// The rows of an alias.
    ghost rows: { Self → ℕ → List (List AValue) };

    /// Whether they can be read.
    ghost can_read: { Self → Type 0 };

    /// Copies of the rows of an alias that have these values in these columns. Each is one tick.
    fn with_values<L: Ledger>(
        &self,
        alloc: Global,
        alias: u8,
        columns: &[u8],
        values: &Row,
        steps: &mut Steps<L>,
    ) -> Result<Rows, NoMemory>
        requires { can_read self.now }
        ensures rows { IfOk result (λ found. found ≡ filter (λ row. row_eq (values_at columns.now row) values.now) (rows self.now alias)) }
        ensures cost { OnOk result (steps.new ≡ steps.old + length (filter (λ row. row_eq (values_at columns.now row) values.now) (rows self.now alias))) }
        ensures most { OnErr result (steps.new ≤ steps.old + length (filter (λ row. row_eq (values_at columns.now row) values.now) (rows self.now alias))) };
}
