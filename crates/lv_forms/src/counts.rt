//! Counts in 1, 2 or 4 bytes, the lowest first, and limits of counts.

use crate::a_form::Form;
use lv_reading::{Cursor, Stop};
use lv_values::{Bytes, NoMemory};
use std::alloc::Global;

/// A count in a byte.
#[derive(Clone, Copy)]
pub struct Count8;

impl Form for Count8 {
    ghost use Rattle.lv_forms.specs.Forms.{binary};

    type Value = u64;

    ghost form = { λ _. binary 1 };

    fn print(&self, value: &u64, out: &mut Bytes) -> Result<(), NoMemory> {
        out.push((*value % 256) as u8)?;
        Ok(())
    }

    fn read(&self, _alloc: Global, cursor: &mut Cursor<'_>) -> Result<u64, Stop> {
        let count = cursor.byte()?;
        Ok(u64::from(count))
    }
}

/// A count in 2 bytes.
#[derive(Clone, Copy)]
pub struct Count16;

impl Form for Count16 {
    ghost use Rattle.lv_forms.specs.Forms.{binary};

    type Value = u64;

    ghost form = { λ _. binary 2 };

    fn print(&self, value: &u64, out: &mut Bytes) -> Result<(), NoMemory> {
        let value = *value;
        out.push((value % 256) as u8)?;
        out.push((value / 256 % 256) as u8)?;
        Ok(())
    }

    fn read(&self, _alloc: Global, cursor: &mut Cursor<'_>) -> Result<u64, Stop> {
        let first = cursor.byte()?;
        let second = cursor.byte()?;
        Ok(u64::from(first) + 256 * u64::from(second))
    }
}

/// A count in 4 bytes.
#[derive(Clone, Copy)]
pub struct Count32;

impl Form for Count32 {
    ghost use Rattle.lv_forms.specs.Forms.{binary};

    type Value = u64;

    ghost form = { λ _. binary 4 };

    fn print(&self, value: &u64, out: &mut Bytes) -> Result<(), NoMemory> {
        let value = *value;
        out.push((value % 256) as u8)?;
        out.push((value / 256 % 256) as u8)?;
        out.push((value / 256 / 256 % 256) as u8)?;
        out.push((value / 256 / 256 / 256 % 256) as u8)?;
        Ok(())
    }

    fn read(&self, _alloc: Global, cursor: &mut Cursor<'_>) -> Result<u64, Stop> {
        let first = cursor.byte()?;
        let second = cursor.byte()?;
        let third = cursor.byte()?;
        let fourth = cursor.byte()?;
        Ok(
            u64::from(first)
                + 256 * (u64::from(second) + 256 * (u64::from(third) + 256 * u64::from(fourth))),
        )
    }
}

/// A count up to a limit.
#[derive(Clone, Copy)]
pub struct UpTo<N>(pub N, pub u64);

impl<N: Form<Value = u64>> Form for UpTo<N> {
    ghost use Rattle.lv_forms.specs.Forms.{up_to};

    type Value = u64;

    ghost form = { λ s. up_to s.1 (N.form s.0) };

    fn print(&self, value: &u64, out: &mut Bytes) -> Result<(), NoMemory> {
        self.0.print(value, out)
    }

    fn read(&self, alloc: Global, cursor: &mut Cursor<'_>) -> Result<u64, Stop> {
        let count = self.0.read(alloc, cursor)?;
        if count > self.1 {
            return Err(Stop::Bad);
        }
        Ok(count)
    }
}
