//! A machine whose labour waits for another actor's take.
ghost use Rattle.std.specs.Prelude.{◌≡◌, true};

use crossbeam_utils::Backoff;
use lv_outside::Gate;
use lv_shared::{Machine, Taken, drive};
use lv_values::{NoMemory, Steps};
use std::alloc::Global;
use std::sync::atomic::{AtomicU64, Ordering};
use std::sync::ledger::Ledger;
use std::sync::{Arc, Wait};
use std::thread::Threads;

/// How often an awaited word is looked for, at most.
const LOOKS: u32 = 5_000_000;

/// Whether the word comes to be this one while it is looked at.
fn is_seen(word: &AtomicU64, awaited: u64) -> bool {
    let backoff = Backoff::new();
    for _ in 0..LOOKS {
        if word.load(Ordering::SeqCst) == awaited {
            return true;
        }
        backoff.snooze();
    }
    false
}

/// Shares a word with its work. The one work of actor 17 sets it to 1 and waits for 2, which the take of actor 1 sets.
#[derive(Drop)]
struct Meeting {
    word: Arc<AtomicU64>,
    handed: bool,
    seen: bool,
}

impl Machine for Meeting {
    type Work = Arc<AtomicU64>;

    type Done = bool;

    ghost keeps = { λ _. Unit {0} };

    ghost becomes = { λ _ _. Unit {0} };

    ghost is_idle = { λ _ _. ⊥ };

    ghost is_ended = { λ m actor. actor ≡ 17 → m.handed ≡ true };

    ghost is_free = { λ _ _. Unit {0} };

    fn take<L: Ledger>(
        &mut self,
        actor: u32,
        _steps: &mut Steps<L>,
    ) -> Result<Taken<Arc<AtomicU64>>, NoMemory> {
        if actor == 17 && !self.handed {
            let word = Arc::try_clone(&self.word)?;
            self.handed = true;
            return Ok(Taken::Work(word));
        }
        if actor == 1 {
            self.word.store(2, Ordering::SeqCst);
        }
        Ok(Taken::Ended)
    }

    fn labour(word: Arc<AtomicU64>) -> Result<bool, NoMemory> {
        word.store(1, Ordering::SeqCst);
        Ok(is_seen(&word, 2))
    }

    fn give<L: Ledger>(
        &mut self,
        _actor: u32,
        seen: bool,
        _steps: &mut Steps<L>,
    ) -> Result<(), NoMemory> {
        self.seen = seen;
        Ok(())
    }

    fn forget(&mut self, _actor: u32) {}
}

/// Holds the first turn of actor 1 until the labour has begun.
#[derive(Drop)]
struct AfterTheStart {
    word: Arc<AtomicU64>,
}

impl Gate for AfterTheStart {
    fn before(&self, who: u32, turn: u64) {
        if who == 1 && turn == 1 {
            is_seen(&self.word, 1);
        }
    }

    fn after(&self, _who: u32, _turn: u64) {}
}

/// The machine after its run, and whether memory was wanting.
fn meet<R: Threads + Wait + Sync>(rt: &R, alloc: Global) -> Result<(Meeting, bool), NoMemory> {
    let word = Arc::new(alloc, AtomicU64::new(0))?;
    let gate = AfterTheStart {
        word: Arc::try_clone(&word)?,
    };
    let machine = Meeting {
        word,
        handed: false,
        seen: false,
    };
    let driven = drive(rt, machine, 1, 1, 2, &gate);
    drop(gate);
    Ok((driven.machine, driven.starved))
}

#[test]
fn labour_is_done_outside_the_lock(rt: HostRuntime) {
    let met = meet(&rt, rt.alloc());
    assert!(rt; met.is_ok_and(|(machine, starved)| machine.seen && !starved));
}
