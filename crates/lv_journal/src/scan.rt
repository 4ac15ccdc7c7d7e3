//! Reading a journal from gate to gate.
ghost use Rattle.std.specs.Prelude.{◌≡◌, ◌≤◌, ◌<◌, ◌+◌, ◌-◌, ◌++◌, ◌∷◌, [], ℕ, List, IfOk, IfSome, Ok, Err, OnErr, OnOk, Some, None, true, length, take, drop, slice_get};
ghost use Rattle.std.specs.Int.{to_le_bytes};
ghost use Rattle.std.proofs.Common.{w32};
ghost use Rattle.lv_outside.specs.Causes.{HasCause, Rose};
ghost use Rattle.lv_outside.specs.Images.{NoMore, OnlyTold};
ghost use Rattle.lv_journal.specs.Bytes.{bad_place, found_at, records_of, spelled};
ghost use Rattle.lv_journal.specs.Finding.{FitsIn};
ghost use Rattle.lv_journal.specs.Reading.{IsRead, IsReading, OpensAt};

use crate::fault::JFault;
use crate::found::{Found, what_stands};
use lv_outside::{Disk, Failed};
use lv_values::{Bytes, NoMemory};
use std::alloc::Global;

/// A journal that is being read: the disk and its size, the place of the next gate, the place of the frame last read,
/// and whether the next gate was found closed.
#[derive(Drop)]
pub struct Scan<D: Disk> {
    pub(crate) alloc: Global,
    pub(crate) disk: D,
    pub(crate) size: u64,
    pub(crate) gate: u64,
    pub(crate) place: u64,
    pub(crate) ended: bool,
}

/// Looks at a gate, behind which and with which `left` bytes are left.
fn look<D: Disk>(disk: &mut D, gate: u64, left: u64) -> Result<Found, Failed>
    ensures told { IfOk result (λ a. IfSome (D.seen disk.old) (λ f. left ≡ length f - gate → a ≡ found_at (drop gate f))) }
    ensures fits { IfOk result (λ a. FitsIn left a) }
    ensures spelled { IfOk result (λ a. (n : ℕ) → a ≡ Found.Open n → IfSome (D.seen disk.old) (λ f. take 5 (drop gate f) ≡ 1 ∷ to_le_bytes w32 n)) }
    ensures bytes { D.seen disk.new ≡ D.seen disk.old }
    ensures crash { NoMore (D.may_leave disk.old) (D.may_leave disk.new) }
    ensures cause { HasCause (D.failures disk.old) (D.failures disk.new) result }
{
    let mut head = [0u8; 5];
    let count = disk.read(gate, &mut head)?;
    Ok(what_stands(&head[..count], left))
}

/// Room for so many bytes.
fn zeros(alloc: Global, count: u32) -> Result<Vec<u8>, NoMemory>
    ensures { IfOk result (λ v. length v.items ≡ count) }
{
    Ok(vec![in alloc; 0u8; count as usize]?)
}

/// Reads so many bytes from a place on, or nothing where they are not all there. Takes memory for them.
fn read_payload<D: Disk>(
    alloc: Global,
    disk: &mut D,
    at: u64,
    count: u32,
) -> Result<Option<Bytes>, JFault>
    ensures whole { IfOk result (λ o. IfSome o (λ p. length p ≡ count)) }
    ensures told { IfOk result (λ o. IfSome o (λ p. IfSome (D.seen disk.old) (λ f. p ≡ take count (drop at f)))) }
    ensures short { result ≡ Ok None → IfSome (D.seen disk.old) (λ f. length f - at < count) }
    ensures good { (offset : ℕ) → result ≡ Err (JFault.Bad offset) → ⊥ }
    ensures bytes { D.seen disk.new ≡ D.seen disk.old }
    ensures crash { NoMore (D.may_leave disk.old) (D.may_leave disk.new) }
    ensures later { D.failures disk.old ≤ D.failures disk.new }
    ensures cause { result ≡ Err JFault.Failed → Rose (D.failures disk.old) (D.failures disk.new) }
{
    let mut payload = zeros(alloc, count)?;
    let given = disk.read(at, &mut payload)?;
    if given < payload.len() {
        return Ok(None);
    }
    Ok(Some(Bytes::from_vec(payload)))
}

impl<D: Disk> Scan<D> {
    /// Reads the frame of `count` bytes that stands whole behind the next gate.
    fn read_frame(&mut self, count: u32) -> Result<Option<Bytes>, JFault>
        requires some { 0 < count }
        requires within { self.old.gate ≤ self.old.size }
        requires fits { count + 5 ≤ self.old.size - self.old.gate }
        requires size { IfSome (D.seen self.old.disk) (λ f. length f ≡ self.old.size) }
        requires open { IfSome (D.seen self.old.disk) (OpensAt self.old.gate count) }
        ensures read { (ps : List (List ℕ)) → IsRead D.seen D.may_leave self.old ps → IfOk result (λ o. IfSome o (λ p. IsRead D.seen D.may_leave self.new (ps ++ p ∷ []))) }
        ensures exact { (ps : List (List ℕ)) → IsRead D.seen D.may_leave self.old ps → IfOk result (λ o. IfSome o (λ p. IfSome (D.seen self.old.disk) (λ f. slice_get (records_of f) (length ps) ≡ Some p))) }
        ensures place { IfOk result (λ o. IfSome o (λ p. self.new.place ≡ self.old.gate + 1)) }
        ensures some { result ≡ Ok None → ⊥ }
        ensures bad { (offset : ℕ) → result ≡ Err (JFault.Bad offset) → D.seen self.old.disk ≡ None }
        ensures refused { (ps : List (List ℕ)) → IsRead D.seen D.may_leave self.old ps → OnErr result (IsRead D.seen D.may_leave self.new ps) }
        ensures stays { OnErr result (self.new ≡ record self.old { disk = self.new.disk }) }
        ensures bytes { D.seen self.new.disk ≡ D.seen self.old.disk }
        ensures crash { NoMore (D.may_leave self.old.disk) (D.may_leave self.new.disk) }
        ensures later { D.failures self.old.disk ≤ D.failures self.new.disk }
        ensures cause { result ≡ Err JFault.Failed → Rose (D.failures self.old.disk) (D.failures self.new.disk) }
    {
        match read_payload(self.alloc, &mut self.disk, self.gate + 5, count)? {
            Some(payload) => {
                self.place = self.gate + 1;
                self.gate += count as u64 + 5;
                self.ended = false;
                Ok(Some(payload))
            }
            None => Err(JFault::Bad {
                offset: self.gate + 1,
            }),
        }
    }

    /// Reads the frame behind the next gate.
    pub(crate) fn next(&mut self) -> Result<Option<Bytes>, JFault>
        requires standing { IsReading D.seen D.may_leave self.old }
        ensures read { (ps : List (List ℕ)) → IsRead D.seen D.may_leave self.old ps → IfOk result (λ o. IfSome o (λ p. IsRead D.seen D.may_leave self.new (ps ++ p ∷ []))) }
        ensures exact { (ps : List (List ℕ)) → IsRead D.seen D.may_leave self.old ps → IfOk result (λ o. IfSome o (λ p. IfSome (D.seen self.old.disk) (λ f. slice_get (records_of f) (length ps) ≡ Some p))) }
        ensures place { IfOk result (λ o. IfSome o (λ p. self.new.place ≡ self.old.gate + 1)) }
        ensures ended { (ps : List (List ℕ)) → IsRead D.seen D.may_leave self.old ps → result ≡ Ok None → IsRead D.seen D.may_leave self.new ps }
        ensures closed { (ps : List (List ℕ)) → IsRead D.seen D.may_leave self.old ps → result ≡ Ok None → IfSome (D.seen self.old.disk) (λ f. (records_of f ≡ ps) × (bad_place f ≡ None)) }
        ensures flag { result ≡ Ok None → self.new.ended ≡ true }
        ensures bad { (ps : List (List ℕ)) (offset : ℕ) → IsRead D.seen D.may_leave self.old ps → result ≡ Err (JFault.Bad offset) → IfSome (D.seen self.old.disk) (λ f. (records_of f ≡ ps) × (bad_place f ≡ Some offset)) }
        ensures refused { (ps : List (List ℕ)) → IsRead D.seen D.may_leave self.old ps → OnErr result (IsRead D.seen D.may_leave self.new ps) }
        ensures stays { OnErr result (self.new ≡ record self.old { disk = self.new.disk }) }
        ensures bytes { D.seen self.new.disk ≡ D.seen self.old.disk }
        ensures crash { NoMore (D.may_leave self.old.disk) (D.may_leave self.new.disk) }
        ensures later { D.failures self.old.disk ≤ D.failures self.new.disk }
        ensures cause { result ≡ Err JFault.Failed → Rose (D.failures self.old.disk) (D.failures self.new.disk) }
    {
        match look(&mut self.disk, self.gate, self.size - self.gate)? {
            Found::Missing => Err(JFault::Bad { offset: self.gate }),
            Found::Shut => {
                self.ended = true;
                Ok(None)
            }
            Found::Broken => Err(JFault::Bad {
                offset: self.gate + 1,
            }),
            Found::Open(count) => self.read_frame(count),
        }
    }
}
