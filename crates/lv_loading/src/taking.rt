//! Taking one record.
ghost use Rattle.lv_record.specs.Kept.{IsKept};
ghost use Rattle.lv_loading.specs.Taking.{IsWhole, Takes};

use crate::parts::Parts;
use lv_schema::Rec;
use lv_values::NoMemory;
use std::alloc::Global;

impl Parts {
    /// Takes a record, and answers whether it can be the next. One that cannot, like want of memory, leaves what is kept.
    pub(crate) fn take(&mut self, alloc: Global, rec: Rec) -> Result<bool, NoMemory>
        requires kept { IsKept rec }
        requires whole { IsWhole self.old }
        ensures { Takes rec self.old self.new result }
    {
        match rec {
            Rec::Table(def) => self.take_table(alloc, def),
            Rec::View(def) => self.take_view(alloc, def),
            Rec::Commit { number, actions } => self.take_commit(alloc, number, actions.as_slice()),
            Rec::Mark { view, upto } => Ok(self.take_mark(view, upto)),
        }
    }
}
