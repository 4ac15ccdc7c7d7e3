//! A machine of two counters, and actors over it that end by themselves.
ghost use Rattle.std.specs.Prelude.{◌≡◌, ◌≤◌, ◌<◌};

use lv_outside::FreeGate;
use lv_shared::{Machine, Taken, drive};
use lv_values::{NoMemory, Steps};
use std::sync::ledger::Ledger;

/// How many turns actor 1 has begun and ended: it has three, and the others are idle until then. Actor 2 finds no memory.
#[derive(Drop)]
struct Counts {
    begun: u32,
    ended: u32,
}

impl Machine for Counts {
    type Work = u32;

    type Done = u32;

    ghost keeps = { λ c. (c.ended ≤ c.begun) × (c.ended ≤ 3) };

    ghost becomes = { λ _ _. Unit {0} };

    ghost is_idle = { λ c actor. (1 < actor) × (c.ended < 3) };

    ghost is_ended = { λ c _. 3 ≤ c.ended };

    ghost is_free = { λ c actor. actor ≡ 1 → c.begun ≡ c.ended };

    fn take<L: Ledger>(
        &mut self,
        actor: u32,
        steps: &mut Steps<L>,
    ) -> Result<Taken<u32>, NoMemory> {
        if actor == 2 {
            return Err(NoMemory);
        }
        if actor == 1 {
            self.begun = self.ended;
        }
        if self.ended >= 3 {
            return Ok(Taken::Ended);
        }
        if actor > 1 {
            return Ok(Taken::Idle);
        }
        steps.tick();
        self.begun += 1;
        Ok(Taken::Work(self.begun))
    }

    fn labour(work: u32) -> Result<u32, NoMemory> {
        Ok(work)
    }

    fn give<L: Ledger>(
        &mut self,
        actor: u32,
        done: u32,
        _steps: &mut Steps<L>,
    ) -> Result<(), NoMemory> {
        if actor == 1 && self.begun == done && done <= 3 {
            self.ended = done;
        }
        self.forget(actor);
        Ok(())
    }

    fn forget(&mut self, actor: u32) {
        if actor == 1 {
            self.begun = self.ended;
        }
    }
}

#[test]
fn actors_come_to_their_ends(rt: HostRuntime) {
    for (sessions, starved) in [(1, false), (2, true)] {
        let counts = Counts { begun: 0, ended: 0 };
        let driven = drive(&rt, counts, sessions, 1, 100_000, &FreeGate);
        assert_eq!(rt; driven.machine.ended, 3, "{sessions} sessions");
        assert_eq!(rt; driven.starved, starved, "{sessions} sessions");
    }
}
