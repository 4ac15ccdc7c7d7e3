//! A journal that stands for some records at every moment that a caller sees.
ghost use Rattle.std.specs.Prelude.{◌≡◌, ◌⊎◌, ◌<◌, ◌+◌, ◌-◌, ◌^◌, ℕ, List, [], ◌∷◌, ◌++◌, length, min, Option, Some, None, IfSome, OnOk, OnErr};
ghost use Rattle.lv_outside.specs.Causes.{HasCause};
ghost use Rattle.lv_outside.specs.Images.{Elapses, LeavesOnly, NoMore};
ghost use Rattle.lv_journal.specs.Bytes.{length_with};
ghost use Rattle.lv_journal.specs.Standing.{IsStanding, Stands, RecordsIn, RecordsOr, IsReserved, journal_length, records};

use crate::writer::Writer;
use lv_outside::{Disk, Failed};
use lv_values::NoMemory;
use std::marker::Model;

/// A journal that is ready to be written. Contracts see the disk, the place of the first closed gate, whether a record
/// is in doubt, and the room for a frame; and its type keeps that the journal stands for some records.
#[derive(Drop)]
pub struct Journal<D: Disk> {
    writer: Writer<D>,
}

impl<D: Disk> Model for Journal<D> {
    ghost use Rattle.lv_journal.specs.Standing.{IsStanding};
    ghost use Rattle.lv_journal.specs.declared.writer.Writer.{Writer};

    ghost Value = { Writer D };

    ghost view = { λ w. w.writer };

    ghost invariant = { λ w. IsStanding D.seen D.may_leave w.writer };
}

impl<D: Disk> Journal<D> {
    /// The journal over a writing end that stands for some records.
    pub(crate) fn from_writer(writer: Writer<D>) -> Journal<D>
        requires { IsStanding D.seen D.may_leave writer }
        ensures { result ≡ writer }
    {
        Journal { writer }
    }

    /// Adds a record: writes its frame and a closed gate behind the first closed gate, syncs, opens that gate by a write of
    /// its own, and syncs. Where the gate may be open after a failure, the next put first closes it. It takes no memory.
    /// Cost: linear in the payload, two syncs, and one more where a record is in doubt.
    pub fn put(&mut self, payload: &[u8]) -> Result<(), Failed>
        requires reserved { IsReserved D.ready self.old (length payload.now) }
        requires some { 0 < length payload.now }
        requires short { length payload.now < 2 ^ 32 }
        ensures ok { (ps : List (List ℕ)) (q : Option (List ℕ)) → Stands D.seen D.may_leave self.old ps q → OnOk result (Stands D.seen D.may_leave self.new (ps ++ payload.now ∷ []) None) }
        ensures failed { (ps : List (List ℕ)) (q : Option (List ℕ)) → Stands D.seen D.may_leave self.old ps q → OnErr result (Stands D.seen D.may_leave self.new ps q ⊎ Stands D.seen D.may_leave self.new ps None ⊎ Stands D.seen D.may_leave self.new ps (Some payload.now)) }
        ensures images { (ps : List (List ℕ)) (q : Option (List ℕ)) → Stands D.seen D.may_leave self.old ps q → LeavesOnly D.moment D.left_since self.old.disk self.new.disk (RecordsOr ps q payload.now) }
        ensures longer { OnOk result (self.new.gate ≡ self.old.gate + (length payload.now + 5)) }
        ensures stays { OnErr result (self.new.gate ≡ self.old.gate) }
        ensures cause { HasCause (D.failures self.old.disk) (D.failures self.new.disk) result }
    {
        self.writer.put(payload)
    }

    /// The length that the journal would have after a put of a payload of this length, or the greatest number
    /// where that is greater.
    pub fn need(&self, payload: u64) -> u64
        ensures { result ≡ min (journal_length self.now + (payload + 5)) (2 ^ 64 - 1) }
    {
        self.writer.need(payload)
    }

    /// Makes room for one put of a payload of this length, which then takes no memory.
    pub fn reserve(&mut self, payload: u64) -> Result<(), NoMemory>
        ensures room { OnOk result (IsReserved D.ready self.new payload) }
        ensures same { (ps : List (List ℕ)) (q : Option (List ℕ)) → Stands D.seen D.may_leave self.old ps q → Stands D.seen D.may_leave self.new ps q }
        ensures gate { self.new.gate ≡ self.old.gate }
        ensures bytes { D.seen self.new.disk ≡ D.seen self.old.disk }
        ensures time { Elapses (D.moment self.old.disk) (D.moment self.new.disk) (D.left_since self.old.disk) (D.left_since self.new.disk) (D.may_leave self.new.disk) }
        ensures crash { NoMore (D.may_leave self.old.disk) (D.may_leave self.new.disk) }
        ensures count { D.failures self.new.disk ≡ D.failures self.old.disk }
    {
        self.writer.reserve(payload)
    }

    /// What a journal that stands for some records has: what is told, and each image, is nowhere bad and has these records, but
    /// for one in doubt; and the length counts them.
    pub fn meaning(&self)
        ensures told { (ps : List (List ℕ)) (q : Option (List ℕ)) → Stands D.seen D.may_leave self.now ps q → IfSome (D.seen self.now.disk) (RecordsIn ps q) }
        ensures images { (ps : List (List ℕ)) (q : Option (List ℕ)) → Stands D.seen D.may_leave self.now ps q → (c : List ℕ) → D.may_leave self.now.disk c → RecordsIn ps q c }
        ensures records { (ps : List (List ℕ)) → Stands D.seen D.may_leave self.now ps None → IfSome (records D.seen self.now) (λ rs. rs ≡ ps) }
        ensures length { (ps : List (List ℕ)) (q : Option (List ℕ)) → Stands D.seen D.may_leave self.now ps q → journal_length self.now ≡ length_with ps }
    {
        self.writer.meaning();
    }

    /// The length of the journal, which ends with its closed gate, or the greatest number where that is greater.
    pub fn length(&self) -> u64
        ensures { result ≡ min (journal_length self.now) (2 ^ 64 - 1) }
    {
        self.writer.gate.saturating_add(1)
    }

    /// The disk's count of failures.
    pub fn faults(&self) -> u64
        ensures { result ≡ D.failures self.now.disk }
    {
        self.writer.disk.faults()
    }

    /// The disk.
    pub fn into_disk(self) -> D
        ensures { result ≡ self.disk }
    {
        let Journal { writer } = self;
        let Writer { disk, .. } = writer;
        disk
    }
}
