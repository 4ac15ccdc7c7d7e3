//! What an engine keeps in memory.

use crate::settings::Settings;
use lv_base::Base;
use lv_schema::Schema;
use lv_txn::Txns;
use lv_upkeep::Upkeep;
use lv_values::Room;
use lv_viewrows::ViewRows;

/// What an engine keeps in memory: the tables and views by name, the committed states, the upkeep of the views, the rows of
/// each view at the place of its number, and the live transactions. Contracts see its parts; `IsStore` says what holds of
/// them between calls, and each call asks for it and keeps it. The calls are methods, a file for each kind.
#[derive(Drop)]
pub struct Store {
    pub settings: Settings,
    pub schema: Schema,
    pub base: Base,
    pub upkeep: Upkeep,
    pub rows: Room<ViewRows>,
    pub txns: Txns,
}
