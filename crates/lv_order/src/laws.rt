//! Laws of events in order.
ghost use Rattle.std.specs.Prelude.{◌≡◌, true, List, ◌∷◌, ◌++◌};
ghost use Rattle.lv_schema.specs.World.{World};
ghost use Rattle.lv_plain.specs.declared.entry.Entry.{Entry};
ghost use Rattle.lv_plain.specs.declared.program.Program.{Program};
ghost use Rattle.lv_plain.specs.declared.event.Event.{Event};
ghost use Rattle.lv_plain.specs.Events.{schedule};
ghost use Rattle.lv_plain.specs.Following.{IsFollowable};
ghost use Rattle.lv_plain.specs.Legal.{MayHappen, Whole, after, begun, events_of};
ghost use Rattle.lv_plain.specs.Machine.{State};
ghost use Rattle.lv_plain.specs.Programs.{all_answered};
ghost use Rattle.lv_plain.specs.Rules.{Rules};
ghost use Rattle.lv_order.specs.Once.{AnswerOnce};
ghost use Rattle.lv_order.specs.Places.{places_after};

/// How many statements of each session are answered after entries depends on their events, and on nothing else.
pub fn places_after_events()
    ensures { (rules : Rules) (w : World) (es : List Entry)
        → (after rules (begun rules w) es).places ≡ places_after rules.program (events_of rules (begun rules w) es) }
{}

/// Each event of an order that can be followed may happen when it comes.
pub fn each_event_may_come()
    ensures { (p : Program) (s : State) (before : List Event) (event : Event) (behind : List Event) → IsFollowable p
        → before ++ event ∷ behind ≡ schedule p → s.places ≡ places_after p before → MayHappen p s event }
{}

/// After all of them every statement is answered.
pub fn all_is_answered()
    ensures { (p : Program) → IsFollowable p → all_answered p (places_after p (schedule p)) ≡ true }
{}

/// The entries of a whole run answer each statement of each session once, in their order.
pub fn each_statement_is_answered_once()
    ensures { (rules : Rules) (opened : World) (es : List Entry) → Whole rules opened es → AnswerOnce rules.program es }
{}
