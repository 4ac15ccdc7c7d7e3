//! The writing end of a journal.
ghost use Rattle.std.specs.Prelude.{◌≡◌, ◌⊎◌, ℕ, ◌≤◌, ◌<◌, ◌+◌, ◌^◌, List, [], ◌∷◌, ◌++◌, length, Option, Some, None, IfSome, min, ◌-◌, OnOk, OnErr, true, false};
ghost use Rattle.lv_outside.specs.Causes.{HasCause};
ghost use Rattle.lv_outside.specs.Images.{LeavesOnly, HasRoom, Elapses, NoMore};
ghost use Rattle.lv_journal.specs.Bytes.{Closed, Staged, length_with};
ghost use Rattle.lv_journal.specs.Standing.{Keeps, Stands, IsStanding, RecordsOr, RecordsIn, IsReserved, journal_length, records};

use crate::buffer::Buffer;
use crate::passing::write_through;
use lv_outside::{Disk, Failed};
use lv_values::NoMemory;

/// A journal that is ready to be written. Its gate, the first closed one, stands at `gate`; where `in_doubt` is
/// set, the gate may be open on the disk, with a whole frame behind it.
#[derive(Drop)]
pub struct Writer<D: Disk> {
    pub(crate) disk: D,
    pub(crate) gate: u64,
    pub(crate) in_doubt: bool,
    pub(crate) frame: Buffer,
}

impl<D: Disk> Writer<D> {
    /// Closes the gate where it is in doubt.
    fn close_doubt(&mut self) -> Result<(), Failed>
        requires standing { IsStanding D.seen D.may_leave self.old }
        requires room { HasRoom (D.ready self.old.disk) 1 1 (self.old.gate + 1) }
        ensures ok { (ps : List (List ℕ)) (q : Option (List ℕ)) → Stands D.seen D.may_leave self.old ps q → OnOk result (Stands D.seen D.may_leave self.new ps None) }
        ensures failed { (ps : List (List ℕ)) (q : Option (List ℕ)) → Stands D.seen D.may_leave self.old ps q → OnErr result (Stands D.seen D.may_leave self.new ps q) }
        ensures images { (ps : List (List ℕ)) (q : Option (List ℕ)) → Stands D.seen D.may_leave self.old ps q → LeavesOnly D.moment D.left_since self.old.disk self.new.disk (Keeps ps q) }
        ensures gate { self.new.gate ≡ self.old.gate }
        ensures frame { self.new.frame ≡ self.old.frame }
        ensures room { (n last : ℕ) → self.old.gate + 1 ≤ last → HasRoom (D.ready self.old.disk) 3 (n + 1) last → HasRoom (D.ready self.new.disk) 2 n last }
        ensures cause { HasCause (D.failures self.old.disk) (D.failures self.new.disk) result }
    {
        if self.in_doubt {
            write_through(&mut self.disk, self.gate, &[0])?;
            self.in_doubt = false;
        }
        Ok(())
    }

    /// Writes a frame and a closed gate behind the gate. The record is then in doubt.
    fn write_behind(&mut self, payload: &[u8]) -> Result<(), Failed>
        requires standing { (ps : List (List ℕ)) × Stands D.seen D.may_leave self.old ps None }
        requires some { 0 < length payload.now }
        requires short { length payload.now < 2 ^ 32 }
        requires fits { self.old.gate + length payload.now + 6 < 2 ^ 64 }
        requires frame { length payload.now + 6 ≤ self.old.frame.room }
        requires room { HasRoom (D.ready self.old.disk) 2 (length payload.now + 6) (self.old.gate + length payload.now + 6) }
        ensures ok { (ps : List (List ℕ)) → Stands D.seen D.may_leave self.old ps None → OnOk result (Stands D.seen D.may_leave self.new ps (Some payload.now)) }
        ensures failed { (ps : List (List ℕ)) → Stands D.seen D.may_leave self.old ps None → OnErr result (Stands D.seen D.may_leave self.new ps None) }
        ensures images { (ps : List (List ℕ)) → Stands D.seen D.may_leave self.old ps None → LeavesOnly D.moment D.left_since self.old.disk self.new.disk (Closed ps) }
        ensures gate { self.new.gate ≡ self.old.gate }
        ensures room { HasRoom (D.ready self.new.disk) 1 1 (self.new.gate + 1) }
        ensures cause { HasCause (D.failures self.old.disk) (D.failures self.new.disk) result }
    {
        self.frame.fill(payload);
        write_through(&mut self.disk, self.gate + 1, self.frame.tail(1))?;
        self.in_doubt = true;
        Ok(())
    }

    /// Opens the gate. The record of `count` bytes that is in doubt is then there.
    fn open_gate(&mut self, count: u64) -> Result<(), Failed>
        requires standing { (ps : List (List ℕ)) × (p : List ℕ) × Stands D.seen D.may_leave self.old ps (Some p) }
        requires fits { self.old.gate + count + 6 < 2 ^ 64 }
        requires room { HasRoom (D.ready self.old.disk) 1 1 (self.old.gate + 1) }
        ensures ok { (ps : List (List ℕ)) (p : List ℕ) → Stands D.seen D.may_leave self.old ps (Some p) → length p ≡ count → OnOk result (Stands D.seen D.may_leave self.new (ps ++ p ∷ []) None) }
        ensures failed { (ps : List (List ℕ)) (p : List ℕ) → Stands D.seen D.may_leave self.old ps (Some p) → OnErr result (Stands D.seen D.may_leave self.new ps (Some p)) }
        ensures images { (ps : List (List ℕ)) (p : List ℕ) → Stands D.seen D.may_leave self.old ps (Some p) → LeavesOnly D.moment D.left_since self.old.disk self.new.disk (Staged ps p) }
        ensures longer { OnOk result (self.new.gate ≡ self.old.gate + (count + 5)) }
        ensures stays { OnErr result (self.new.gate ≡ self.old.gate) }
        ensures cause { HasCause (D.failures self.old.disk) (D.failures self.new.disk) result }
    {
        write_through(&mut self.disk, self.gate, &[1])?;
        self.in_doubt = false;
        self.gate += count + 5;
        Ok(())
    }

    /// Adds a record. It takes no memory.
    pub(crate) fn put(&mut self, payload: &[u8]) -> Result<(), Failed>
        requires standing { IsStanding D.seen D.may_leave self.old }
        requires reserved { IsReserved D.ready self.old (length payload.now) }
        requires some { 0 < length payload.now }
        requires short { length payload.now < 2 ^ 32 }

        // After Ok the records are the old ones and the new one, on the disk and in each image; nothing is in doubt.
        ensures ok { (ps : List (List ℕ)) (q : Option (List ℕ)) → Stands D.seen D.may_leave self.old ps q → OnOk result (Stands D.seen D.may_leave self.new (ps ++ payload.now ∷ []) None) }

        // After a failure they are the old ones, but for the one in doubt, which is the old one in doubt or the new one.
        ensures failed { (ps : List (List ℕ)) (q : Option (List ℕ)) → Stands D.seen D.may_leave self.old ps q → OnErr result (Stands D.seen D.may_leave self.new ps q ⊎ Stands D.seen D.may_leave self.new ps None ⊎ Stands D.seen D.may_leave self.new ps (Some payload.now)) }

        // A crash at any moment of the call leaves the records, or these and the one in doubt, or these and the new one.
        ensures images { (ps : List (List ℕ)) (q : Option (List ℕ)) → Stands D.seen D.may_leave self.old ps q → LeavesOnly D.moment D.left_since self.old.disk self.new.disk (RecordsOr ps q payload.now) }

        ensures longer { OnOk result (self.new.gate ≡ self.old.gate + (length payload.now + 5)) }
        ensures stays { OnErr result (self.new.gate ≡ self.old.gate) }
        ensures cause { HasCause (D.failures self.old.disk) (D.failures self.new.disk) result }
    {
        self.close_doubt()?;
        self.write_behind(payload)?;
        self.open_gate(payload.len() as u64)
    }

    /// The length that the journal would have after a put of a payload of this length, or the greatest number
    /// where that is greater.
    pub(crate) fn need(&self, payload: u64) -> u64
        ensures { result ≡ min (journal_length self.now + (payload + 5)) (2 ^ 64 - 1) }
    {
        self.gate.saturating_add(payload).saturating_add(6)
    }

    /// Makes room for one put of a payload of this length, which then takes no memory.
    pub(crate) fn reserve(&mut self, payload: u64) -> Result<(), NoMemory>
        ensures room { OnOk result (IsReserved D.ready self.new payload) }
        ensures same { (ps : List (List ℕ)) (q : Option (List ℕ)) → Stands D.seen D.may_leave self.old ps q → Stands D.seen D.may_leave self.new ps q }
        ensures gate { self.new.gate ≡ self.old.gate }
        ensures bytes { D.seen self.new.disk ≡ D.seen self.old.disk }
        ensures time { Elapses (D.moment self.old.disk) (D.moment self.new.disk) (D.left_since self.old.disk) (D.left_since self.new.disk) (D.may_leave self.new.disk) }
        ensures crash { NoMore (D.may_leave self.old.disk) (D.may_leave self.new.disk) }
        ensures count { D.failures self.new.disk ≡ D.failures self.old.disk }
    {
        let end = self.need(payload);
        if end == u64::MAX {
            return Err(NoMemory);
        }
        self.frame.grow(payload + 6)?;
        self.disk.reserve(end, payload + 7)
    }

    /// What a journal stands for: the payloads before the first closed gate of what is told and of each image.
    pub(crate) fn meaning(&self)
        ensures told { (ps : List (List ℕ)) (q : Option (List ℕ)) → Stands D.seen D.may_leave self.now ps q → IfSome (D.seen self.now.disk) (RecordsIn ps q) }
        ensures images { (ps : List (List ℕ)) (q : Option (List ℕ)) → Stands D.seen D.may_leave self.now ps q → (c : List ℕ) → D.may_leave self.now.disk c → RecordsIn ps q c }
        ensures records { (ps : List (List ℕ)) → Stands D.seen D.may_leave self.now ps None → IfSome (records D.seen self.now) (λ rs. rs ≡ ps) }
        ensures length { (ps : List (List ℕ)) (q : Option (List ℕ)) → Stands D.seen D.may_leave self.now ps q → journal_length self.now ≡ length_with ps }
    {}
}
