//! A value that actors change in turn.
ghost use Rattle.std.specs.Prelude.{◌≡◌, ◌≤◌, ◌↔◌, ℕ, false, IfOk, OnOk};
ghost use Rattle.lv_shared.specs.declared.machine.Taken.TheVariants.{Idle, Ended};
ghost use Rattle.lv_shared.specs.Taking.{hands_out};

use lv_values::{NoMemory, Steps};
use std::sync::ledger::Ledger;

/// What a machine has for an actor: work, nothing at present, or nothing from now on.
#[derive(Drop)]
pub enum Taken<W> {
    Work(W),
    Idle,
    Ended,
}

/// A value that actors change in turn, each call under a lock; only `labour` runs beside the others. Actors are named by
/// numbers from 1 to 24. Between two calls of an actor the others may have made any, so no call asks for more than the
/// machine's invariant.
pub trait Machine: Send {
    /// What an actor takes.
    type Work: Send + Drop;

    /// What it makes of that.
    type Done: Send + Drop;

    /// The invariant: each call keeps it.
    ghost keeps: { Self → Type 0 };

    /// The second may be what calls have made of the first.
    ghost becomes: { Self → Self → Type 0 };

    /// An actor that asks now finds nothing to do, and is to ask again.
    ghost is_idle: { Self → ℕ → Type 0 };

    /// An actor that asks now has come to its end.
    ghost is_ended: { Self → ℕ → Type 0 };

    /// The machine does not wait for anything from an actor.
    ghost is_free: { Self → ℕ → Type 0 };

    /// Hands out an actor's next work. Where it does not, the actor holds none from then on, also where memory is
    /// refused.
    fn take<L: Ledger>(
        &mut self,
        actor: u32,
        steps: &mut Steps<L>,
    ) -> Result<Taken<Self::Work>, NoMemory>
        requires first { 1 ≤ actor }
        requires last { actor ≤ 24 }
        requires kept { keeps self.old }
        ensures kept { keeps self.new }
        ensures goes_on { (first : Self) → becomes first self.old → becomes first self.new }
        ensures idle { IfOk result (λ taken. (taken ≡ Idle) ↔ is_idle self.old actor) }
        ensures ended { IfOk result (λ taken. (taken ≡ Ended) ↔ is_ended self.old actor) }
        ensures free { hands_out result ≡ false → is_free self.new actor };

    /// What work comes to. It sees no machine.
    fn labour(work: Self::Work) -> Result<Self::Done, NoMemory>;

    /// Hands in what an actor's work came to; anything may be handed in, and it ends what the actor holds. Where memory is
    /// refused it may stay.
    fn give<L: Ledger>(
        &mut self,
        actor: u32,
        done: Self::Done,
        steps: &mut Steps<L>,
    ) -> Result<(), NoMemory>
        requires first { 1 ≤ actor }
        requires last { actor ≤ 24 }
        requires kept { keeps self.old }
        ensures kept { keeps self.new }
        ensures goes_on { (first : Self) → becomes first self.old → becomes first self.new }
        ensures free { OnOk result (is_free self.new actor) };

    /// Gives an actor's work up, and no other one's. It takes no memory.
    fn forget(&mut self, actor: u32)
        requires first { 1 ≤ actor }
        requires last { actor ≤ 24 }
        requires kept { keeps self.old }
        ensures kept { keeps self.new }
        ensures goes_on { (first : Self) → becomes first self.old → becomes first self.new }
        ensures free { is_free self.new actor }
        ensures others { (other : ℕ) → is_free self.old other → is_free self.new other };
}
