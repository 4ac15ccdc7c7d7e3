//! What lies under the lock.
ghost use Rattle.std.specs.Prelude.{Option, None, ◌≡◌, ◌≤◌, ◌<◌, ◌↔◌, false, IfOk, OnErr, IsErr};
ghost use Rattle.lv_shared.specs.declared.machine.Taken.TheVariants.{Idle, Ended};
ghost use Rattle.lv_shared.specs.Taking.{HasBecome, hands_out};

use crate::machine::{Machine, Taken};
use lv_values::{NoMemory, Steps};
use std::marker::{Brand, Model, PhantomData};
use std::sync::ledger::{Blank, Ledger};

/// What the machine was when it came under the lock: each call of `drive` names it.
pub(crate) trait Beginning<M> {
    ghost first: { Option M };
}

impl<M> Beginning<M> for Brand {
    ghost first = { None };
}

/// A machine that keeps its invariant, and is what calls have made of the first one: all that is known of it when the lock is
/// taken. Contracts see the machine.
pub(crate) struct Kept<M: Machine, B: Beginning<M>> {
    machine: M,
    of: PhantomData<B>,
}

impl<M: Machine, B: Beginning<M>> Model for Kept<M, B> {
    ghost use Rattle.lv_shared.specs.Taking.{HasBecome};

    ghost Value = { M };

    ghost coded = { M.code };

    ghost view = { λ k. k.machine };

    ghost invariant = { λ k. M.keeps k.machine × HasBecome M.becomes B.first k.machine };
}

impl<M: Machine, B: Beginning<M>> Kept<M, B> {
    /// Takes charge of a machine.
    pub(crate) fn new(machine: M) -> Kept<M, B>
        requires kept { M.keeps machine }
        requires begun { HasBecome M.becomes B.first machine }
        ensures { result ≡ machine }
    {
        Kept {
            machine,
            of: PhantomData,
        }
    }

    /// Takes an actor's next work, and counts nothing.
    pub(crate) fn take<L: Ledger>(
        &mut self,
        actor: u32,
        blank: Blank,
    ) -> Result<Taken<M::Work>, NoMemory>
        requires first { 1 ≤ actor }
        requires last { actor ≤ 24 }
        requires name { blank.name ≡ L.name }
        requires parts { blank.parts ≡ L.parts }
        requires some { 0 < blank.parts }
        ensures idle { IfOk result (λ taken. (taken ≡ Idle) ↔ M.is_idle self.old actor) }
        ensures ended { IfOk result (λ taken. (taken ≡ Ended) ↔ M.is_ended self.old actor) }
        ensures free { hands_out result ≡ false → M.is_free self.new actor }
    {
        let mut steps: Steps<L> = Steps::new(blank);
        self.machine.take(actor, &mut steps)
    }

    /// Hands in what an actor's labour came to. Where that is want of memory, or it comes now, the work is given up: the
    /// actor holds none in any case.
    pub(crate) fn give<L: Ledger>(
        &mut self,
        actor: u32,
        done: Result<M::Done, NoMemory>,
        blank: Blank,
    ) -> Result<(), NoMemory>
        requires first { 1 ≤ actor }
        requires last { actor ≤ 24 }
        requires name { blank.name ≡ L.name }
        requires parts { blank.parts ≡ L.parts }
        requires some { 0 < blank.parts }
        ensures free { M.is_free self.new actor }
        ensures starved { OnErr done (IsErr result) }
    {
        let mut steps: Steps<L> = Steps::new(blank);
        let given = match done {
            Ok(done) => self.machine.give(actor, done, &mut steps),
            Err(NoMemory) => Err(NoMemory),
        };
        if given.is_err() {
            self.machine.forget(actor);
        }
        given
    }

    /// The machine, which keeps its invariant.
    pub(crate) fn into_machine(self) -> M
        ensures same { result ≡ self }
        ensures kept { M.keeps result }
        ensures goes_on { HasBecome M.becomes B.first result }
    {
        let Kept { machine, of: _ } = self;
        machine
    }
}
