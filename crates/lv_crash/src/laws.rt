//! Laws about what a crash may leave of a run: each is the contract of a function that does nothing.
ghost use Rattle.std.specs.Prelude.{◌≡◌, ◌++◌, true, List};
ghost use Rattle.lv_schema.specs.declared.rec.Rec.{Rec};
ghost use Rattle.lv_schema.specs.Steady.{IsSteady};
ghost use Rattle.lv_replay.specs.Applies.{all_apply};
ghost use Rattle.lv_replay.specs.Replayed.{durable, state_of};
ghost use Rattle.lv_replay.specs.Runs.{IsStopped};
ghost use Rattle.lv_plain.specs.declared.entry.Entry.{Entry};
ghost use Rattle.lv_plain.specs.Legal.{after, begun};
ghost use Rattle.lv_plain.specs.Limits.{IsWithinLimits};
ghost use Rattle.lv_plain.specs.Machine.{State};
ghost use Rattle.lv_plain.specs.Rules.{Rules};
ghost use Rattle.lv_plain.specs.Turns.{IsBinding};
ghost use Rattle.lv_plain.specs.WrittenRecords.{records_of};
ghost use Rattle.lv_crash.specs.Attempts.{MayStay, attempts_of, kept_of};

use lv_plain::runs_keep_worlds_steady;

/// Of the records that entries asked the disk to keep, those that were answered as done are the ones that the entries wrote.
pub fn attempts_show_what_is_kept()
    ensures { (rules : Rules) (s : State) (es : List Entry) → kept_of (attempts_of rules s es) ≡ records_of rules s es }
{}

/// A run begins with the world that some records make. What a stop leaves of the world after its entries is what those records
/// and the ones that the entries wrote make. And whatever records a crash may leave of those that the entries asked for: behind
/// the records of the beginning each of them applies, so the journal that has them opens.
pub fn what_a_crash_leaves_applies()
    ensures run { (rules : Rules) (recs : List Rec) (es : List Entry) → IsBinding rules.reading → IsWithinLimits rules.program → all_apply recs ≡ true → IsSteady (state_of recs) → IsStopped (state_of recs)
        → (all_apply (recs ++ records_of rules (begun rules (state_of recs)) es) ≡ true) × (durable (after rules (begun rules (state_of recs)) es).world ≡ state_of (recs ++ records_of rules (begun rules (state_of recs)) es)) }
    ensures crash { (rules : Rules) (recs : List Rec) (es : List Entry) → IsBinding rules.reading → IsWithinLimits rules.program → all_apply recs ≡ true → IsSteady (state_of recs) → IsStopped (state_of recs)
        → (more : List Rec) → MayStay (attempts_of rules (begun rules (state_of recs)) es) more → all_apply (recs ++ more) ≡ true }
{
    runs_keep_worlds_steady();
}
