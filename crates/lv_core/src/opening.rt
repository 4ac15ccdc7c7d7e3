//! What a run began with.
ghost use Rattle.std.specs.Prelude.{◌≡◌};
ghost use Rattle.lv_engine.specs.Kept.{length_of};

use lv_engine::Engine;
use lv_outside::Disk;
use std::snapshot::Snapshot;

/// The length of an engine's journal, and how often its disk had failed, when a run began over it.
#[derive(Clone, Copy, Debug, PartialEq, Eq)]
pub struct Opened {
    pub length: u64,
    pub faults: u64,
}

/// The engine that a run began with, as contracts see it, and what was counted then.
#[derive(Drop)]
pub struct Opening<D: Disk> {
    pub engine: Snapshot<Engine<D>>,
    pub counts: Opened,
}

impl<D: Disk> Opening<D> {
    /// A run begins over this engine.
    pub fn of(engine: &Engine<D>) -> Opening<D>
        ensures engine { result.engine.value ≡ engine.now }
        ensures length { result.counts.length ≡ length_of engine.now.journal }
        ensures faults { result.counts.faults ≡ D.failures engine.now.journal.disk }
    {
        Opening {
            engine: Snapshot::of(engine),
            counts: Opened {
                length: engine.length(),
                faults: engine.faults(),
            },
        }
    }
}
