//! What is loaded.

use lv_base::Base;
use lv_schema::Schema;
use lv_upkeep::Upkeep;
use lv_values::Room;
use lv_viewrows::ViewRows;

/// What the records of a journal made: the tables and views by name, the committed states, the upkeep of the views, and
/// the rows of each view at the place of its number.
#[derive(Drop)]
pub struct Loaded {
    pub schema: Schema,
    pub base: Base,
    pub upkeep: Upkeep,
    pub rows: Room<ViewRows>,
}
