//! Room for one frame between its gates.
ghost use Rattle.std.specs.Prelude.{◌≡◌, ◌≤◌, ◌<◌, ◌+◌, ◌^◌, ◌++◌, ◌∷◌, [], drop, length, OnOk};
ghost use Rattle.lv_journal.specs.Bytes.{frame};

use lv_values::NoMemory;
use std::alloc::Global;
use std::marker::Model;

/// A frame between its gates, the one before it open and the one behind it closed, as they stand on the disk in the end.
/// Contracts see the bytes, and how many there is room for.
#[derive(Drop)]
pub struct Buffer {
    bytes: Vec<u8>,
}

impl Model for Buffer {
    ghost use Rattle.std.specs.Vec.{vec_capacity};
    ghost use Rattle.lv_journal.specs.Buffers.{Filled};

    ghost Value = { Filled };

    ghost view = { λ b. record { bytes = b.bytes.items; room = vec_capacity b.bytes } };
}

impl Buffer {
    /// An empty buffer, with no room. It takes no memory.
    pub(crate) fn new(alloc: Global) -> Buffer
        ensures { result.bytes ≡ [] }
    {
        Buffer {
            bytes: Vec::new(alloc),
        }
    }

    /// Makes the room at least `count`.
    pub(crate) fn grow(&mut self, count: u64) -> Result<(), NoMemory>
        ensures { OnOk result (count ≤ self.new.room) }
    {
        self.bytes.clear();
        self.bytes.reserve(count as usize)?;
        Ok(())
    }

    /// Makes the frame of a payload between its gates, in the room that there is.
    pub(crate) fn fill(&mut self, payload: &[u8])
        requires short { length payload.now < 2 ^ 32 }
        requires room { length payload.now + 6 ≤ self.old.room }
        ensures { self.new.bytes ≡ 1 ∷ frame payload.now ++ 0 ∷ [] }
    {
        self.bytes.clear();
        self.bytes.push_reserved(1);
        self.bytes
            .extend_from_slice(&(payload.len() as u32).to_le_bytes())
            .unwrap();
        self.bytes.extend_from_slice(payload).unwrap();
        self.bytes.push_reserved(0);
    }

    /// The bytes from a place on.
    pub(crate) fn tail(&self, place: usize) -> &[u8]
        requires { place ≤ length self.now.bytes }
        ensures bytes { result.now ≡ drop place self.now.bytes }
        ensures size { length result.now + place ≡ length self.now.bytes }
    {
        &self.bytes[place..]
    }
}
