//! A journal that is being opened.
ghost use Rattle.std.specs.Prelude.{◌≡◌, ◌≢◌, ◌≤◌, ◌<◌, ◌+◌, ◌++◌, ◌∷◌, [], ℕ, List, IfErr, IfOk, IfSome, Ok, Err, OnErr, OnOk, Some, None, true, false, length, take, slice_get};
ghost use Rattle.lv_outside.specs.Causes.{Rose};
ghost use Rattle.lv_outside.specs.Images.{NoMore, OnlyTold};
ghost use Rattle.lv_journal.specs.Bytes.{bad_place, magic, records_of, spelled};
ghost use Rattle.lv_journal.specs.Reading.{IsRead, IsReady};
ghost use Rattle.lv_journal.specs.Standing.{Stands};

use crate::buffer::Buffer;
use crate::fault::{Attach, JFault};
use crate::journal::Journal;
use crate::passing::write_through;
use crate::scan::Scan;
use crate::writer::Writer;
use lv_outside::Disk;
use lv_values::Bytes;
use std::alloc::Global;
use std::marker::Model;

/// What each journal begins with.
const MAGIC: [u8; 8] = *b"LVJRNL01";

/// A journal with no record: the magic and a closed gate.
const EMPTY: [u8; 9] = *b"LVJRNL01\0";

/// Makes a journal with no record of an empty disk, with a write and a sync.
fn start<D: Disk>(disk: &mut D) -> Result<(), JFault>
    requires { IfSome (D.seen disk.old) (λ f. length f ≡ 0) }
    ensures ready { OnOk result (IfSome (D.seen disk.new) (λ f. f ≡ magic ++ 0 ∷ [])) }
    ensures told { OnOk result (D.seen disk.old ≡ Some [] → D.seen disk.new ≡ Some (magic ++ 0 ∷ [])) }
    ensures images { OnOk result (OnlyTold (D.seen disk.new) (D.may_leave disk.new)) }
    ensures good { (offset : ℕ) → result ≡ Err (JFault.Bad offset) → ⊥ }
    ensures memory { result ≡ Err JFault.NoMemory → D.seen disk.new ≡ D.seen disk.old }
    ensures later { D.failures disk.old ≤ D.failures disk.new }
    ensures cause { result ≡ Err JFault.Failed → Rose (D.failures disk.old) (D.failures disk.new) }
{
    disk.reserve(9, 9)?;
    write_through(disk, 0, &EMPTY)?;
    Ok(())
}

/// Syncs, so that nothing is pending when the journal is read, and reads the magic of a disk of this size.
fn check<D: Disk>(disk: &mut D, size: u64) -> Result<(), JFault>
    requires { IfSome (D.seen disk.old) (λ f. length f ≡ size) }
    ensures ready { OnOk result (IfSome (D.seen disk.new) (IsReady size)) }
    ensures long { OnOk result (8 ≤ size) }
    ensures told { D.seen disk.new ≡ D.seen disk.old }
    ensures images { OnOk result (OnlyTold (D.seen disk.new) (D.may_leave disk.new)) }
    ensures crash { NoMore (D.may_leave disk.old) (D.may_leave disk.new) }
    ensures bad { (offset : ℕ) → result ≡ Err (JFault.Bad offset) → (offset ≡ 0) × IfSome (D.seen disk.old) (λ f. take 8 f ≢ magic) }
    ensures later { D.failures disk.old ≤ D.failures disk.new }
    ensures cause { result ≡ Err JFault.Failed → Rose (D.failures disk.old) (D.failures disk.new) }
{
    disk.sync()?;
    let mut head = [0u8; 8];
    let given = disk.read(0, &mut head)?;
    if size < 8 || given < 8 || head != MAGIC {
        return Err(JFault::Bad { offset: 0 });
    }
    Ok(())
}

/// Prepares a disk for reading, and answers its size.
fn prepare<D: Disk>(disk: &mut D) -> Result<u64, JFault>
    ensures ready { IfOk result (λ n. IfSome (D.seen disk.new) (IsReady n)) }
    ensures long { IfOk result (λ n. 8 ≤ n) }
    ensures new { OnOk result (D.seen disk.old ≡ Some [] → D.seen disk.new ≡ Some (magic ++ 0 ∷ [])) }
    ensures same { IfSome (D.seen disk.old) (λ f. 0 < length f → D.seen disk.new ≡ Some f) }
    ensures memory { result ≡ Err JFault.NoMemory → D.seen disk.new ≡ D.seen disk.old }
    ensures images { OnOk result (OnlyTold (D.seen disk.new) (D.may_leave disk.new)) }
    ensures crash { IfSome (D.seen disk.old) (λ f. 0 < length f → NoMore (D.may_leave disk.old) (D.may_leave disk.new)) }
    ensures bad { (offset : ℕ) → result ≡ Err (JFault.Bad offset) → (offset ≡ 0) × IfSome (D.seen disk.old) (λ f. (0 < length f) × (take 8 f ≢ magic)) }
    ensures later { D.failures disk.old ≤ D.failures disk.new }
    ensures cause { result ≡ Err JFault.Failed → Rose (D.failures disk.old) (D.failures disk.new) }
{
    let size = disk.len()?;
    if size == 0 {
        start(disk)?;
        return Ok(9);
    }
    check(disk, size)?;
    Ok(size)
}

/// A journal that is being opened, by reading its records in order. Contracts see the disk, its size, the place of the
/// next gate, the place of the frame last read, and whether the next gate was found closed; and its type keeps that
/// some records were read, behind which it stands.
#[derive(Drop)]
pub struct JournalReader<D: Disk> {
    scan: Scan<D>,
}

impl<D: Disk> Model for JournalReader<D> {
    ghost use Rattle.lv_journal.specs.Reading.{IsReading};
    ghost use Rattle.lv_journal.specs.declared.scan.Scan.{Scan};

    ghost Value = { Scan D };

    ghost view = { λ r. r.scan };

    ghost invariant = { λ r. IsReading D.seen D.may_leave r.scan };
}

impl<D: Disk> JournalReader<D> {
    /// Begins at a disk. An empty disk is a new journal: the magic and a closed gate are written and synced. Any other is
    /// synced first, so that a crash leaves nothing else than what is read; it is `Bad` at 0 exactly where it does
    /// not begin with the magic. A disk that is not empty keeps its bytes, also where it is refused. Cost: constant.
    pub fn attach(alloc: Global, disk: D) -> Result<JournalReader<D>, Attach<D>>
        ensures begins { IfOk result (λ r. IsRead D.seen D.may_leave r []) }
        ensures new { IfOk result (λ r. D.seen disk ≡ Some [] → D.seen r.disk ≡ Some (magic ++ 0 ∷ [])) }
        ensures same { IfOk result (λ r. IfSome (D.seen disk) (λ f. 0 < length f → D.seen r.disk ≡ Some f)) }
        ensures crash { IfOk result (λ r. IfSome (D.seen disk) (λ f. 0 < length f → NoMore (D.may_leave disk) (D.may_leave r.disk))) }
        ensures first { IfOk result (λ r. (r.place ≡ 0) × (r.ended ≡ false)) }
        ensures bad { (offset : ℕ) → IfErr result (λ a. a.cause ≡ JFault.Bad offset → (offset ≡ 0) × IfSome (D.seen disk) (λ f. (0 < length f) × (take 8 f ≢ magic) × (D.seen a.disk ≡ Some f))) }
        // A disk that has bytes keeps them, whatever is answered; of an empty one want of memory makes nothing.
        ensures stays { IfErr result (λ a. IfSome (D.seen disk) (λ f. 0 < length f → D.seen a.disk ≡ Some f)) }
        ensures no_more { IfErr result (λ a. IfSome (D.seen disk) (λ f. 0 < length f → NoMore (D.may_leave disk) (D.may_leave a.disk))) }
        ensures memory { IfErr result (λ a. a.cause ≡ JFault.NoMemory → D.seen a.disk ≡ D.seen disk) }
        ensures later { IfOk result (λ r. D.failures disk ≤ D.failures r.disk) }
        ensures after { IfErr result (λ a. D.failures disk ≤ D.failures a.disk) }
        ensures cause { IfErr result (λ a. a.cause ≡ JFault.Failed → Rose (D.failures disk) (D.failures a.disk)) }
    {
        let mut disk = disk;
        match prepare(&mut disk) {
            Ok(size) => Ok(JournalReader {
                scan: Scan {
                    alloc,
                    disk,
                    size,
                    gate: 8,
                    place: 0,
                    ended: false,
                },
            }),
            Err(cause) => Err(Attach { disk, cause }),
        }
    }

    /// The next payload, or nothing exactly where the next gate is closed. `Failed` only where the disk's count rose in
    /// this call; `Bad` exactly where the bytes from the next gate on are no journal. After a refusal the reader stands
    /// where it stood. It takes memory only for bytes that are there. Cost: linear in the payload.
    pub fn next(&mut self) -> Result<Option<Bytes>, JFault>
        ensures read { (ps : List (List ℕ)) → IsRead D.seen D.may_leave self.old ps → IfOk result (λ o. IfSome o (λ p. IsRead D.seen D.may_leave self.new (ps ++ p ∷ []))) }
        ensures exact { (ps : List (List ℕ)) → IsRead D.seen D.may_leave self.old ps → IfOk result (λ o. IfSome o (λ p. IfSome (D.seen self.old.disk) (λ f. slice_get (records_of f) (length ps) ≡ Some p))) }
        ensures place { IfOk result (λ o. IfSome o (λ p. self.new.place ≡ self.old.gate + 1)) }
        ensures ended { (ps : List (List ℕ)) → IsRead D.seen D.may_leave self.old ps → result ≡ Ok None → IsRead D.seen D.may_leave self.new ps }
        ensures closed { (ps : List (List ℕ)) → IsRead D.seen D.may_leave self.old ps → result ≡ Ok None → IfSome (D.seen self.old.disk) (λ f. (records_of f ≡ ps) × (bad_place f ≡ None)) }
        ensures flag { result ≡ Ok None → self.new.ended ≡ true }
        ensures bad { (ps : List (List ℕ)) (offset : ℕ) → IsRead D.seen D.may_leave self.old ps → result ≡ Err (JFault.Bad offset) → IfSome (D.seen self.old.disk) (λ f. (records_of f ≡ ps) × (bad_place f ≡ Some offset)) }
        ensures refused { (ps : List (List ℕ)) → IsRead D.seen D.may_leave self.old ps → OnErr result (IsRead D.seen D.may_leave self.new ps) }
        ensures stays { OnErr result (self.new ≡ record self.old { disk = self.new.disk }) }
        ensures bytes { D.seen self.new.disk ≡ D.seen self.old.disk }
        ensures crash { NoMore (D.may_leave self.old.disk) (D.may_leave self.new.disk) }
        ensures later { D.failures self.old.disk ≤ D.failures self.new.disk }
        ensures cause { result ≡ Err JFault.Failed → Rose (D.failures self.old.disk) (D.failures self.new.disk) }
    {
        self.scan.next()
    }

    /// The place of the frame that was read last.
    pub fn place(&self) -> u64
        ensures { result ≡ self.now.place }
    {
        self.scan.place
    }

    /// The journal, ready to be written: it has the records that were read, and nothing is in doubt. It takes no memory.
    pub fn finish(self) -> Journal<D>
        requires { self.ended ≡ true }
        ensures stands { (ps : List (List ℕ)) → IsRead D.seen D.may_leave self ps → Stands D.seen D.may_leave result ps None }
        ensures disk { result.disk ≡ self.disk }
        ensures gate { result.gate ≡ self.gate }
    {
        let JournalReader { scan } = self;
        let Scan {
            alloc,
            disk,
            gate,
            ..
        } = scan;
        Journal::from_writer(Writer {
            disk,
            gate,
            in_doubt: false,
            frame: Buffer::new(alloc),
        })
    }

    /// The disk.
    pub fn into_disk(self) -> D
        ensures { result ≡ self.disk }
    {
        let JournalReader { scan } = self;
        let Scan { disk, .. } = scan;
        disk
    }
}
