//! What the journal keeps.

use crate::action::Actions;
use crate::table::TableDef;
use crate::view::ViewDef;

/// One record of the journal. The number of a table or view is not kept: it is 0 in a record, and a record that is
/// applied gives the next one.
#[derive(Drop)]
pub enum Rec {
    Table(TableDef),
    View(ViewDef),
    Commit { number: u64, actions: Actions },
    /// The view is maintained up to this commit.
    Mark { view: u32, upto: u64 },
}
