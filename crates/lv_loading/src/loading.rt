//! The records of a journal, one after another.
ghost use Rattle.std.specs.Prelude.{◌≡◌, ◌++◌, ◌∷◌, [], true, List, length, Ok, IfOk};
ghost use Rattle.lv_schema.specs.declared.rec.Rec.{Rec as SomeRec};
ghost use Rattle.lv_record.specs.Kept.{IsKept};
ghost use Rattle.lv_replay.specs.Applies.{applies};
ghost use Rattle.lv_replay.specs.Replayed.{state_of};
ghost use Rattle.lv_stands.specs.Stands.{StandsFor};
ghost use Rattle.lv_loading.specs.Loads.{KnowViews, Loads, loaded_kept};
ghost use Rattle.lv_loading.specs.Making.{HaveLinkIndexes};

use crate::loaded::Loaded;
use crate::parts::Parts;
use lv_base::Base;
use lv_schema::{Rec, Schema};
use lv_upkeep::Upkeep;
use lv_values::{NoMemory, Steps};
use std::alloc::Global;
use std::marker::Model;
use std::sync::ledger::Ledger;

/// The tables, views and committed states that records make, and how far each view is maintained with its pending
/// tasks. Nothing is dropped of the states, and no rows of views are kept until the end. Contracts see what is kept, and
/// say for which records it stands.
#[derive(Drop)]
pub struct Loading {
    parts: Parts,
}

impl Model for Loading {
    ghost use Rattle.std.specs.Coded.{codes};
    ghost use Rattle.lv_schema.specs.contracts.cond.Cond as cond;
    ghost use Rattle.lv_loading.specs.Loads.{IsLoaded, LoadingKept};
    ghost use Rattle.lv_loading.specs.Taking.{kept_in};

    ghost Value = { LoadingKept };

    ghost coded = { Prim.hlevel (codes, cond.the_row.coded) };

    ghost view = { λ l. kept_in l.parts };

    ghost invariant = { λ l. IsLoaded (kept_in l.parts) };
}

impl Loading {
    /// No record: no tables, no views and no commits. It takes no memory.
    pub fn new(alloc: Global) -> Loading
        ensures { Loads [] result }
    {
        let parts = Parts {
            schema: Schema::new(alloc),
            base: Base::new(alloc),
            upkeep: Upkeep::new(alloc),
        };
        Loading { parts }
    }

    /// Takes the next record, and answers whether it can be the next. One that cannot, like want of memory, leaves
    /// everything as it was. It also answers `NoMemory` where 64 bits could not count the entries or the versions.
    /// Cost: of a table or view a look-up of its name, and a look at each pair of its columns or items; of a commit for each
    /// action three binary searches, what it takes to condense the actions and to put the net change into the versions,
    /// and for each view a look at each action; of a mark what it drops of the view's tasks.
    pub fn apply(&mut self, alloc: Global, rec: Rec) -> Result<bool, NoMemory>
        requires { IsKept rec }
        ensures exact { (recs : List SomeRec) → Loads recs self.old → IfOk result (λ b. b ≡ applies rec (state_of recs)) }
        ensures done { (recs : List SomeRec) → Loads recs self.old → result ≡ Ok true → Loads (recs ++ rec ∷ []) self.new }
        ensures refused { (result ≡ Ok true → ⊥) → self.new ≡ self.old }
    {
        self.parts.take(alloc, rec)
    }

    /// Evaluates each view by its definition at the commit to which it is maintained, and gives its tables the indexes in
    /// which its steps look rows up. Cost: for each view that of its join, of a scan of its tables, and for each index that
    /// is new a binary search for each row version.
    pub fn finish<L: Ledger>(self, alloc: Global, steps: &mut Steps<L>) -> Result<Loaded, NoMemory>
        ensures stands { (recs : List SomeRec) → Loads recs self → IfOk result (λ l. StandsFor (state_of recs) (loaded_kept (state_of recs).upkeep.journal l)) }
        ensures defs { IfOk result KnowViews }
        ensures indexes { IfOk result (λ l. HaveLinkIndexes l.base l.schema.views (length l.schema.views)) }
    {
        let Loading { mut parts } = self;
        parts.index_all(alloc)?;
        let rows = parts.evaluate_all(alloc, steps)?;
        let Parts {
            schema,
            base,
            upkeep,
        } = parts;
        Ok(Loaded {
            schema,
            base,
            upkeep,
            rows,
        })
    }
}
