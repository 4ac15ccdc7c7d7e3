//! What a query is answered.

use lv_schema::ForcedSteps;
use lv_values::Rows;

/// The steps that a query forced, by view and in their order, and its rows.
#[derive(Drop)]
pub struct Answer {
    pub forced: ForcedSteps,
    pub rows: Rows,
}
