//! What the calls of workers and a clean-up are answered.
ghost use Rattle.std.specs.Prelude.{◌≡◌, true, false, is_some, None, IfOk, OnErr};
ghost use Rattle.lv_schema.specs.UpkeepCases.{fetching, installing};
ghost use Rattle.lv_plain.specs.declared.entry.Entry.TheVariants as entry;
ghost use Rattle.lv_plain.specs.declared.event.Event.TheVariants.{Fetch as fetch_of, Install as install_of, Release as release_of, Clean as clean_up};
ghost use Rattle.lv_plain.specs.Legal.{IsWorker};
ghost use Rattle.lv_plain.specs.Machine.{State, give, install_entry};
ghost use Rattle.lv_plain.specs.Rules.{Rules};
ghost use Rattle.lv_upkeep.specs.Kept.{claim_kept};
ghost use Rattle.lv_store.specs.Maintaining.{IsGiven, TakesGiven, TakesInstalled, told};
ghost use Rattle.lv_engine.specs.Kept.{Stands};
ghost use Rattle.lv_core.specs.Actors.{shows_install};
ghost use Rattle.lv_core.specs.Answering.{GivesEntry};

use lv_engine::Engine;
use lv_maint::{JobInput, JobResult};
use lv_outside::Disk;
use lv_picker::Picker;
use lv_plain::Entry;
use lv_schema::Forced;
use lv_store::{Cleaned, Installed};
use lv_values::{NoMemory, Steps};
use std::alloc::Global;
use std::sync::ledger::Ledger;

/// What a fetch is answered: its entry and, where a step is fetched, what that is computed from. Where none is, nothing has
/// changed.
#[derive(Drop)]
pub struct Given {
    pub entry: Entry,
    pub input: Option<JobInput>,
}

/// The entry that shows a step that a worker fetches.
fn fetched(worker: u32, step: Forced) -> Entry
    ensures { result ≡ entry.Fetched worker step.view step.lo step.hi }
{
    Entry::Fetched {
        worker,
        view: step.view,
        lo: step.lo,
        hi: step.hi,
    }
}

/// A worker claims a step: it is busy where it has a claim, and idle where there is none to claim. Nothing is read. Want of
/// memory leaves everything as it was.
pub fn claim_next<D: Disk>(
    engine: &mut Engine<D>,
    alloc: Global,
    worker: u32,
    picker: &Picker,
) -> Result<Entry, NoMemory>
    requires worker { IsWorker worker }
    ensures entry { (rules : Rules) (s : State) → rules.settings.combine ≡ engine.old.store.settings.combine → rules.settings.policy ≡ picker.now.kind → Stands s.world engine.old
        → IfOk result (λ entry. GivesEntry (give rules false (fetch_of worker) s) engine.new entry) }
    ensures refused { OnErr result (engine.new ≡ engine.old) }
    ensures settings { engine.new.store.settings ≡ engine.old.store.settings }
    ensures journal { engine.new.journal ≡ engine.old.journal }
{
    if engine.claim(worker).is_some() {
        return Ok(Entry::Busy { worker });
    }
    match engine.claim_next(alloc, worker, picker)? {
        Some(step) => Ok(fetched(worker, step)),
        None => Ok(Entry::Idle { worker }),
    }
}

/// A worker fetches a step: it is busy where it has a claim, and idle where there is none to fetch; then nothing is read.
/// Want of memory leaves everything as it was.
pub fn fetch<D: Disk, L: Ledger>(
    engine: &mut Engine<D>,
    alloc: Global,
    worker: u32,
    picker: &Picker,
    steps: &mut Steps<L>,
) -> Result<Given, NoMemory>
    requires worker { IsWorker worker }
    ensures entry { (rules : Rules) (s : State) → rules.settings.combine ≡ engine.old.store.settings.combine → rules.settings.policy ≡ picker.now.kind → Stands s.world engine.old
        → IfOk result (λ given. GivesEntry (give rules false (fetch_of worker) s) engine.new given.entry) }
    ensures input { (rules : Rules) (s : State) → rules.settings.combine ≡ engine.old.store.settings.combine → rules.settings.policy ≡ picker.now.kind → Stands s.world engine.old
        → IfOk result (λ given. IsGiven s.world.visible (fetching rules.settings worker s.world).0 given.input) }
    ensures most { (rules : Rules) (s : State) → rules.settings.combine ≡ engine.old.store.settings.combine → rules.settings.policy ≡ picker.now.kind → Stands s.world engine.old
        → TakesGiven s.world.visible (fetching rules.settings worker s.world).0 steps.old steps.new }
    ensures idle { IfOk result (λ given. given.input ≡ None → engine.new ≡ engine.old) }
    ensures refused { OnErr result (engine.new ≡ engine.old) }
    ensures settings { engine.new.store.settings ≡ engine.old.store.settings }
    ensures journal { engine.new.journal ≡ engine.old.journal }
{
    engine.known();
    if engine.claim(worker).is_some() {
        return Ok(Given {
            entry: Entry::Busy { worker },
            input: None,
        });
    }
    let Some(input) = engine.fetch(alloc, worker, picker, steps)? else {
        return Ok(Given {
            entry: Entry::Idle { worker },
            input: None,
        });
    };
    let Some(step) = engine.claim(worker) else {
        unreachable!()
    };
    Ok(Given {
        entry: fetched(worker, step),
        input: Some(input),
    })
}

/// The entry that shows what became of a worker's step.
fn installed(worker: u32, installed: Installed) -> Entry
    ensures { (rules : Rules) → result ≡ install_entry rules false worker (told installed) }
{
    match installed {
        Installed::Done { view, lo, hi } => Entry::Installed {
            worker,
            view,
            lo,
            hi,
        },
        Installed::Moved {
            view,
            lo,
            hi,
            point,
        } => Entry::Moved {
            worker,
            view,
            lo,
            hi,
            point,
        },
    }
}

/// Whether an entry shows that a step was installed.
pub fn is_installed(entry: &Entry) -> bool
    ensures { result ≡ shows_install entry.now }
{
    matches!(entry, Entry::Installed { .. })
}

/// A worker installs the step that it has claimed, if it has. An offer is used where it is of the step. Want of memory
/// leaves everything as it was.
pub fn install<D: Disk, L: Ledger>(
    engine: &mut Engine<D>,
    alloc: Global,
    worker: u32,
    offer: Option<JobResult>,
    steps: &mut Steps<L>,
) -> Result<Entry, NoMemory>
    requires worker { IsWorker worker }
    ensures entry { (rules : Rules) (s : State) → Stands s.world engine.old → IfOk result (λ entry. GivesEntry (give rules false (install_of worker) s) engine.new entry) }
    ensures most { (s : State) → Stands s.world engine.old → TakesInstalled s.world.visible (installing worker s.world.upkeep).0 steps.old steps.new }
    ensures refused { OnErr result (engine.new ≡ engine.old) }
    ensures settings { engine.new.store.settings ≡ engine.old.store.settings }
    ensures journal { engine.new.journal ≡ engine.old.journal }
{
    if engine.claim(worker).is_none() {
        return Ok(Entry::Empty { worker });
    }
    let answer = engine.install(alloc, worker, offer, steps)?;
    Ok(installed(worker, answer))
}

/// A worker gives its claim up. It takes no memory.
pub fn release<D: Disk>(engine: &mut Engine<D>, worker: u32) -> Entry
    requires worker { IsWorker worker }
    requires claimed { is_some (claim_kept engine.old.store.upkeep worker) ≡ true }
    ensures entry { (rules : Rules) (s : State) → Stands s.world engine.old → GivesEntry (give rules false (release_of worker) s) engine.new result }
    ensures settings { engine.new.store.settings ≡ engine.old.store.settings }
    ensures journal { engine.new.journal ≡ engine.old.journal }
{
    engine.release(worker);
    Entry::Released { worker }
}

/// A clean-up. It takes no memory.
pub fn clean<D: Disk>(engine: &mut Engine<D>, alloc: Global) -> Entry
    ensures entry { (rules : Rules) (s : State) → Stands s.world engine.old → GivesEntry (give rules false clean_up s) engine.new result }
    ensures settings { engine.new.store.settings ≡ engine.old.store.settings }
    ensures journal { engine.new.journal ≡ engine.old.journal }
{
    let Cleaned {
        floor,
        versions,
        deltas,
    } = engine.clean(alloc);
    Entry::Cleaned {
        floor,
        versions,
        deltas,
    }
}
