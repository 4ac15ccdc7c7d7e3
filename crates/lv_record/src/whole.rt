//! Records, from end to end.
ghost use Rattle.std.specs.Prelude.{◌≡◌, ◌<◌, ◌^◌, [], Some, length, IfOk, IfSome};
ghost use Rattle.lv_schema.specs.Records.{record_size};
ghost use Rattle.lv_schema.specs.declared.rec.Rec.{Rec as SomeRec};
ghost use Rattle.lv_record.specs.Kept.{IsKept};
ghost use Rattle.lv_record.specs.Spelling.{Spells, spelling};

use crate::records::AnyRecord;
use crate::sizes::size;
use lv_forms::{Form, read_whole};
use lv_schema::Rec;
use lv_values::{Bytes, NoMemory};
use std::alloc::Global;

/// No bytes, with room for so many.
fn with_room(alloc: Global, count: u64) -> Result<Bytes, NoMemory>
    ensures { IfOk result (λ bytes. bytes ≡ []) }
{
    let bytes = Vec::with_capacity(alloc, count as usize)?;
    Ok(Bytes::from_vec(bytes))
}

/// The bytes of the record, which is one that the journal can keep and shorter than 2^32 bytes. Room for them is taken
/// once. Cost: linear in the record.
pub fn encode(alloc: Global, rec: &Rec) -> Result<Bytes, NoMemory>
    requires kept { IsKept rec.now }
    requires short { record_size rec.now < 2 ^ 32 }
    ensures spelled { IfOk result (λ bytes. Spells bytes rec.now) }
    ensures long { IfOk result (λ bytes. length bytes ≡ record_size rec.now) }
{
    let mut out = with_room(alloc, size(rec))?;
    AnyRecord.print(rec, &mut out)?;
    Ok(out)
}

/// The record that the bytes spell, and `None` exactly where they spell none. It is one that the journal can keep. What
/// a count says is no reason to take memory: each part has to be there. A condition is refused before it nests too deep,
/// so the stack is bounded. Cost: linear in the bytes.
pub fn decode(alloc: Global, bytes: &[u8]) -> Result<Option<Rec>, NoMemory>
    ensures found { IfOk result (λ found. IfSome found (λ r. Spells bytes.now r)) }
    ensures only { (r : SomeRec) → Spells bytes.now r → IfOk result (λ found. found ≡ Some r) }
    ensures kept { IfOk result (λ found. IfSome found IsKept) }
{
    read_whole(alloc, &AnyRecord, bytes)
}
