//! Signed numbers in bytes, the lowest first, by two's complement.

use crate::a_form::Form;
use crate::numbers_binary::{Binary64, Binary128};
use lv_reading::{Cursor, Stop};
use lv_values::{Bytes, NoMemory};
use std::alloc::Global;

/// A signed number of 64 bits in 8 bytes.
#[derive(Clone, Copy)]
pub struct Signed64;

impl Form for Signed64 {
    ghost use Rattle.std.specs.Int.{w64};
    ghost use Rattle.lv_forms.specs.Forms.{signed};

    type Value = i64;

    ghost form = { λ _. signed w64 };

    fn print(&self, value: &i64, out: &mut Bytes) -> Result<(), NoMemory> {
        Binary64.print(&value.cast_unsigned(), out)
    }

    fn read(&self, alloc: Global, cursor: &mut Cursor<'_>) -> Result<i64, Stop> {
        let bits = Binary64.read(alloc, cursor)?;
        Ok(bits.cast_signed())
    }
}

/// A signed number of 128 bits in 16 bytes.
#[derive(Clone, Copy)]
pub struct Signed128;

impl Form for Signed128 {
    ghost use Rattle.std.specs.Int.{w128};
    ghost use Rattle.lv_forms.specs.Forms.{signed};

    type Value = i128;

    ghost form = { λ _. signed w128 };

    fn print(&self, value: &i128, out: &mut Bytes) -> Result<(), NoMemory> {
        Binary128.print(&value.cast_unsigned(), out)
    }

    fn read(&self, alloc: Global, cursor: &mut Cursor<'_>) -> Result<i128, Stop> {
        let bits = Binary128.read(alloc, cursor)?;
        Ok(bits.cast_signed())
    }
}
