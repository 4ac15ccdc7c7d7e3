//! The threads of a run.
ghost use Rattle.std.specs.Prelude.{ℕ, ◌≡◌, ◌≤◌, ◌<◌, ◌+◌};
ghost use Rattle.lv_shared.specs.Taking.{HasBecome};

use crate::kept::{Beginning, Kept};
use crate::machine::{Machine, Taken};
use crossbeam_utils::Backoff;
use lv_outside::Gate;
use lv_values::NoMemory;
use std::marker::Brand;
use std::sync::ledger::Blank;
use std::sync::{Mutex, Wait};
use std::thread;
use std::thread::Threads;

/// Sessions are the actors from 1 to here, and workers those behind them.
const SESSIONS: u32 = 16;

/// How many actors there are at most.
const ACTORS: usize = 24;

/// How many turns a session has at most.
const SESSION_TURNS: u32 = 100_000;

/// The machine as the actors left it, and whether one of them met want of memory.
#[derive(Drop)]
pub struct Driven<M> {
    pub machine: M,
    pub starved: bool,
}

/// How many turns an actor has at most: none where it takes no part.
fn turns_of(actor: u32, sessions: u32, workers: u32, turns: u32) -> u32
    ensures session { actor ≤ 16 → actor ≤ sessions → result ≡ 100000 }
    ensures no_session { actor ≤ 16 → sessions < actor → result ≡ 0 }
    ensures worker { 16 < actor → actor ≤ 16 + workers → result ≡ turns }
    ensures no_worker { 16 + workers < actor → result ≡ 0 }
{
    if actor <= SESSIONS {
        if actor <= sessions { SESSION_TURNS } else { 0 }
    } else if actor - SESSIONS <= workers {
        turns
    } else {
        0
    }
}

// One hold of the lock for each call. What it did to the machine is known by the type under the lock alone.
fn take_next<R: Wait, M: Machine, B: Beginning<M>>(
    rt: &R,
    lock: &Mutex<Kept<M, B>>,
    actor: u32,
) -> Result<Taken<M::Work>, NoMemory>
    requires first { 1 ≤ actor }
    requires last { actor ≤ 24 }
{
    lock.lock(rt).take::<Brand>(actor, Blank::new(1))
}

fn hand_in<R: Wait, M: Machine, B: Beginning<M>>(
    rt: &R,
    lock: &Mutex<Kept<M, B>>,
    actor: u32,
    done: Result<M::Done, NoMemory>,
) -> Result<(), NoMemory>
    requires first { 1 ≤ actor }
    requires last { actor ≤ 24 }
{
    lock.lock(rt).give::<Brand>(actor, done, Blank::new(1))
}

/// One turn of an actor, and whether it is to have another one. The labour lies between two holds of the lock.
fn turn<R: Wait, M: Machine, B: Beginning<M>>(
    rt: &R,
    lock: &Mutex<Kept<M, B>>,
    actor: u32,
    backoff: &Backoff,
) -> Result<bool, NoMemory>
    requires first { 1 ≤ actor }
    requires last { actor ≤ 24 }
{
    match take_next(rt, lock, actor)? {
        Taken::Work(work) => {
            backoff.reset();
            hand_in(rt, lock, actor, M::labour(work))?;
            Ok(true)
        }
        Taken::Idle => {
            backoff.snooze();
            Ok(true)
        }
        Taken::Ended => Ok(false),
    }
}

/// The turns of one actor, until it has ended or has had them all.
fn act<R: Wait, M: Machine, G: Gate, B: Beginning<M>>(
    rt: &R,
    lock: &Mutex<Kept<M, B>>,
    gate: &G,
    actor: u32,
    turns: u32,
) -> Result<(), NoMemory>
    requires first { 1 ≤ actor }
    requires last { actor ≤ 24 }
{
    let backoff = Backoff::new();
    for number in 1..=u64::from(turns) {
        gate.before(actor, number);
        let more = turn(rt, lock, actor, &backoff);
        gate.after(actor, number);
        if !more? {
            break;
        }
    }
    Ok(())
}

/// Each actor gives up what work it may hold.
fn forget_all<M: Machine>(machine: &mut M)
    requires kept { M.keeps machine.old }
    ensures kept { M.keeps machine.new }
    ensures goes_on { (first : M) → M.becomes first machine.old → M.becomes first machine.new }
    ensures free { (actor : ℕ) → 1 ≤ actor → actor ≤ 24 → M.is_free machine.new actor }
{
    for place in 0..24u32 {
        machine.forget(place + 1);
    }
}

/// Runs actors over a machine that is named by the call.
fn drive_from<B: Beginning<M> + Send + Sync, R: Threads + Wait + Sync, M: Machine, G: Gate + Sync>(
    rt: &R,
    machine: M,
    sessions: u32,
    workers: u32,
    turns: u32,
    gate: &G,
) -> Driven<M>
    requires kept { M.keeps machine }
    requires begun { HasBecome M.becomes B.first machine }
    requires sessions { sessions ≤ 16 }
    requires workers { workers ≤ 8 }
    ensures kept { M.keeps result.machine }
    ensures goes_on { HasBecome M.becomes B.first result.machine }
    ensures free { (actor : ℕ) → 1 ≤ actor → actor ≤ 24 → M.is_free result.machine actor }
{
    let shared = Mutex::new(Kept::<M, B>::new(machine));
    let lock = &shared;
    let mut starved = [false; ACTORS];
    thread::for_each_mut(
        rt,
        &mut starved,
        ACTORS,
        &|place: usize, starved: &mut bool|
            requires { place < 24 }
        {
            let actor = place as u32 + 1;
            *starved = act(
                rt,
                lock,
                gate,
                actor,
                turns_of(actor, sessions, workers, turns),
            )
            .is_err();
        },
    );
    let starved = starved.contains(&true);
    let mut machine = shared.into_inner().into_machine();
    forget_all(&mut machine);
    Driven { machine, starved }
}

/// Runs actors over one machine, each in a thread of its own where threads can be made: sessions 1 to `sessions`, workers
/// 17 to 16 + `workers`. A turn is a take, the labour on what was taken, and a give; both calls of the machine are under
/// the lock, the labour is not, and the gate is called before and after each turn, outside the lock. A session ends where
/// the machine says so, or after 100,000 turns; a worker there, or after `turns` turns, of which idle ones count. Where
/// memory is wanting the actor stops and holds no work.
///
/// It waits for the lock. Where it returns, the machine keeps its invariant, is what calls have made of the one that was
/// handed in, and waits for nothing from an actor. That is all that is promised: the turns of different actors come in any order, and nothing says that an actor gets on, that it is its turn some time, that more
/// than one thread runs, or that labour is done beside another actor's call.
pub fn drive<R: Threads + Wait + Sync, M: Machine, G: Gate + Sync>(
    rt: &R,
    machine: M,
    sessions: u32,
    workers: u32,
    turns: u32,
    gate: &G,
) -> Driven<M>
    requires kept { M.keeps machine }
    requires begun { M.becomes machine machine }
    requires sessions { sessions ≤ 16 }
    requires workers { workers ≤ 8 }
    ensures kept { M.keeps result.machine }
    ensures goes_on { M.becomes machine result.machine }
    ensures free { (actor : ℕ) → 1 ≤ actor → actor ≤ 24 → M.is_free result.machine actor }
{
    drive_from::<Brand, _, _, _>(rt, machine, sessions, workers, turns, gate)
}
