//! Marks: how far a view is maintained is written down.
ghost use Rattle.std.specs.Prelude.{◌≡◌, ◌<◌, Some, None, length};
ghost use Rattle.lv_schema.specs.Catalog.{view_named};
ghost use Rattle.lv_schema.specs.World.{World};
ghost use Rattle.lv_plain.specs.Rules.{Rules};
ghost use Rattle.lv_engine.specs.Kept.{Stands};
ghost use Rattle.lv_core.specs.Answering.{MarksView};

use crate::answered::fault_of_create;
use lv_engine::Engine;
use lv_outside::Disk;
use lv_plain::{Entry, MarkOutcome};
use lv_schema::{Rel, Schema};
use lv_values::{NoMemory, Text};
use std::alloc::Global;

/// The number of the view with a name. Cost: two look-ups.
#[tactic(auto, using(crate::proofs::NamedViews::is_view, crate::proofs::NamedViews::is_table, crate::proofs::NamedViews::is_nothing))]
pub fn view_of_name(schema: &Schema, name: &Text) -> Option<u32>
    ensures { result ≡ view_named schema.now.views name.now }
{
    match schema.find(name) {
        Some(Rel::View(view)) => Some(view),
        Some(Rel::Table(_)) => None,
        None => None,
    }
}

/// A view is marked as maintained to its point. Want of memory leaves all but the room in the journal.
pub fn mark_view<D: Disk>(
    engine: &mut Engine<D>,
    alloc: Global,
    view: u32,
) -> Result<Entry, NoMemory>
    requires view { view < length engine.old.store.views }
    ensures case { (rules : Rules) (w : World) → rules.settings.limit ≡ engine.old.store.settings.log_limit → Stands w engine.old
        → MarksView D.seen D.may_leave D.moment D.left_since D.failures rules view w engine.old engine.new result }
    ensures settings { engine.new.store.settings ≡ engine.old.store.settings }
{
    match engine.mark(alloc, view) {
        Ok(Some(upto)) => Ok(Entry::Marked {
            view,
            outcome: MarkOutcome::Upto(upto),
        }),
        Ok(None) => Ok(Entry::Marked {
            view,
            outcome: MarkOutcome::Already,
        }),
        Err(fault) => match fault_of_create(fault) {
            Some(fault) => Ok(Entry::Marked {
                view,
                outcome: MarkOutcome::Refused(fault),
            }),
            None => Err(NoMemory),
        },
    }
}
