//! Numbers in bytes, the lowest first.

ghost use Rattle.std.specs.Prelude.{◌≡◌, ◌++◌, ◌≤◌, ◌<◌, ◌^◌, OnOk, OnErr, IfOk};
ghost use Rattle.lv_reading.specs.Reading.{Gives};
ghost use Rattle.lv_forms.specs.Forms.{bytes_of, read_bytes};
ghost use Rattle.lv_values.specs.Print.{StaysInFront};

use crate::a_form::Form;
use lv_reading::{Cursor, Stop};
use lv_values::{Bytes, NoMemory};
use std::alloc::Global;

/// A number of 32 bits in 4 bytes.
#[derive(Clone, Copy)]
pub struct Binary32;

impl Form for Binary32 {
    ghost use Rattle.lv_forms.specs.Forms.{binary};

    type Value = u32;

    ghost form = { λ _. binary 4 };

    fn print(&self, value: &u32, out: &mut Bytes) -> Result<(), NoMemory> {
        let value = *value;
        let bytes = [
            (value % 256) as u8,
            (value / 256 % 256) as u8,
            (value / 256 / 256 % 256) as u8,
            (value / 256 / 256 / 256 % 256) as u8,
        ];
        out.extend_from_slice(&bytes)?;
        Ok(())
    }

    fn read(&self, _alloc: Global, cursor: &mut Cursor<'_>) -> Result<u32, Stop> {
        let first = cursor.byte()?;
        let second = cursor.byte()?;
        let third = cursor.byte()?;
        let fourth = cursor.byte()?;
        Ok(
            u32::from(first)
                + 256 * (u32::from(second) + 256 * (u32::from(third) + 256 * u32::from(fourth))),
        )
    }
}

/// A number of 8 bits in a byte.
#[derive(Clone, Copy)]
pub struct Binary8;

impl Form for Binary8 {
    ghost use Rattle.lv_forms.specs.Forms.{binary};

    type Value = u8;

    ghost form = { λ _. binary 1 };

    fn print(&self, value: &u8, out: &mut Bytes) -> Result<(), NoMemory> {
        out.push(*value)?;
        Ok(())
    }

    fn read(&self, _alloc: Global, cursor: &mut Cursor<'_>) -> Result<u8, Stop> {
        cursor.byte()
    }
}

/// A number of 64 bits in 8 bytes.
#[derive(Clone, Copy)]
pub struct Binary64;

impl Form for Binary64 {
    ghost use Rattle.lv_forms.specs.Forms.{binary};

    type Value = u64;

    ghost form = { λ _. binary 8 };

    fn print(&self, value: &u64, out: &mut Bytes) -> Result<(), NoMemory> {
        let n0 = *value;
        let n1 = n0 / 256;
        let n2 = n1 / 256;
        let n3 = n2 / 256;
        let n4 = n3 / 256;
        let n5 = n4 / 256;
        let n6 = n5 / 256;
        let n7 = n6 / 256;
        let bytes = [
            (n0 % 256) as u8,
            (n1 % 256) as u8,
            (n2 % 256) as u8,
            (n3 % 256) as u8,
            (n4 % 256) as u8,
            (n5 % 256) as u8,
            (n6 % 256) as u8,
            (n7 % 256) as u8,
        ];
        out.extend_from_slice(&bytes)?;
        Ok(())
    }

    fn read(&self, _alloc: Global, cursor: &mut Cursor<'_>) -> Result<u64, Stop> {
        let b0 = u64::from(cursor.byte()?);
        let b1 = u64::from(cursor.byte()?);
        let b2 = u64::from(cursor.byte()?);
        let b3 = u64::from(cursor.byte()?);
        let b4 = u64::from(cursor.byte()?);
        let b5 = u64::from(cursor.byte()?);
        let b6 = u64::from(cursor.byte()?);
        let b7 = u64::from(cursor.byte()?);
        Ok(
            b0 + 256
                * (b1 + 256 * (b2 + 256 * (b3 + 256 * (b4 + 256 * (b5 + 256 * (b6 + 256 * b7)))))),
        )
    }
}

/// Appends the lowest bytes of the number, so many of them, the lowest first.
fn print_low(count: u8, value: u128, out: &mut Bytes) -> Result<(), NoMemory>
    ensures appended { OnOk result (out.new ≡ out.old ++ bytes_of count value) }
    ensures front { OnErr result (StaysInFront out.old out.new) }
{
    if count == 0 {
        return Ok(());
    }
    out.push((value % 256) as u8)?;
    print_low(count - 1, value / 256, out)
}

/// Takes so many bytes as a number, the lowest first.
fn read_low(count: u8, cursor: &mut Cursor<'_>) -> Result<u128, Stop>
    requires { count ≤ 16 }
    ensures value { Gives (read_bytes count cursor.old) result cursor.new }
    ensures within { IfOk result (λ n. n < 256 ^ count) }
{
    if count == 0 {
        return Ok(0);
    }
    let low = cursor.byte()?;
    let high = read_low(count - 1, cursor)?;
    Ok(u128::from(low) + 256 * high)
}

/// A number of 128 bits in 16 bytes.
#[derive(Clone, Copy)]
pub struct Binary128;

impl Form for Binary128 {
    ghost use Rattle.lv_forms.specs.Forms.{binary};

    type Value = u128;

    ghost form = { λ _. binary 16 };

    fn print(&self, value: &u128, out: &mut Bytes) -> Result<(), NoMemory> {
        print_low(16, *value, out)
    }

    fn read(&self, _alloc: Global, cursor: &mut Cursor<'_>) -> Result<u128, Stop> {
        read_low(16, cursor)
    }
}
