//! What is kept while records are taken.

use lv_base::Base;
use lv_schema::Schema;
use lv_upkeep::Upkeep;

/// The tables and views by name, the committed states, and the upkeep of the views. What is done with each kind of
/// record is a method of it, a file for each kind.
#[derive(Drop)]
pub struct Parts {
    pub schema: Schema,
    pub base: Base,
    pub upkeep: Upkeep,
}
