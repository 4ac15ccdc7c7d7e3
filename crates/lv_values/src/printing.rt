//! The printed form of numbers, values and rows.
ghost use Rattle.std.specs.Prelude.{◌≡◌, ◌++◌, OnOk, OnErr, decimal};
ghost use Rattle.std.specs.Fmt.{signed_decimal};
ghost use Rattle.lv_values.specs.Print.{StaysInFront, doubled, quoted, value_text, values_behind, values_text, row_line};

use crate::memory::NoMemory;
use crate::rows::{Bytes, Row};
use crate::value::Value;
use itoa::Buffer;

const QUOTE: u8 = b'\'';

/// Appends a number of up to 64 bits in decimal. Want of memory changes nothing.
pub fn print_natural(n: u64, out: &mut Bytes) -> Result<(), NoMemory>
    ensures appended { OnOk result (out.new ≡ out.old ++ decimal n) }
    ensures kept { OnErr result (out.new ≡ out.old) }
{
    let mut buffer = Buffer::new();
    out.extend_from_slice(buffer.format(n).as_bytes())
}

/// Appends a signed number in decimal. Want of memory changes nothing.
pub fn print_number(n: i128, out: &mut Bytes) -> Result<(), NoMemory>
    ensures appended { OnOk result (out.new ≡ out.old ++ signed_decimal n) }
    ensures kept { OnErr result (out.new ≡ out.old) }
{
    let mut buffer = Buffer::new();
    out.extend_from_slice(buffer.format(n).as_bytes())
}

/// Appends the bytes, each quote twice.
fn append_doubled(bytes: &[u8], out: &mut Bytes) -> Result<(), NoMemory>
    ensures appended { OnOk result (out.new ≡ out.old ++ doubled bytes.now) }
    ensures front { OnErr result (StaysInFront out.old out.new) }
{
    for byte in bytes {
        if *byte == QUOTE {
            out.push(QUOTE)?;
        }
        out.push(*byte)?;
    }
    Ok(())
}

/// Appends the bytes between quotes, each quote of theirs twice.
fn append_quoted(bytes: &[u8], out: &mut Bytes) -> Result<(), NoMemory>
    ensures appended { OnOk result (out.new ≡ out.old ++ quoted bytes.now) }
    ensures front { OnErr result (StaysInFront out.old out.new) }
{
    out.extend_from_slice(b"'")?;
    append_doubled(bytes, out)?;
    out.extend_from_slice(b"'")
}

/// Appends a value.
fn append_value(value: &Value, out: &mut Bytes) -> Result<(), NoMemory>
    ensures appended { OnOk result (out.new ≡ out.old ++ value_text value.now) }
    ensures front { OnErr result (StaysInFront out.old out.new) }
{
    match value {
        Value::Num(n) => print_number(*n, out),
        Value::Text(t) => append_quoted(t.as_bytes(), out),
    }
}

/// Appends the values, the separator before each.
fn append_behind(separator: &[u8], values: &[Value], out: &mut Bytes) -> Result<(), NoMemory>
    ensures appended { OnOk result (out.new ≡ out.old ++ values_behind separator.now values.now) }
    ensures front { OnErr result (StaysInFront out.old out.new) }
{
    for value in values {
        out.extend_from_slice(separator)?;
        append_value(value, out)?;
    }
    Ok(())
}

/// Appends the values, the separator between them.
fn append_values(separator: &[u8], values: &[Value], out: &mut Bytes) -> Result<(), NoMemory>
    ensures appended { OnOk result (out.new ≡ out.old ++ values_text separator.now values.now) }
    ensures front { OnErr result (StaysInFront out.old out.new) }
{
    match values.split_first() {
        None => Ok(()),
        Some((first, others)) => {
            append_value(first, out)?;
            append_behind(separator, others, out)
        }
    }
}

/// Appends the row's line.
fn append_row(row: &Row, out: &mut Bytes) -> Result<(), NoMemory>
    ensures appended { OnOk result (out.new ≡ out.old ++ row_line row.now) }
    ensures front { OnErr result (StaysInFront out.old out.new) }
{
    out.extend_from_slice(b"| ")?;
    append_values(b" | ", row.as_slice(), out)?;
    out.extend_from_slice(b"\n")
}

/// Appends a value: a number in decimal, a text between quotes with each quote doubled. Want of memory changes
/// nothing.
pub fn print_value(value: &Value, out: &mut Bytes) -> Result<(), NoMemory>
    ensures appended { OnOk result (out.new ≡ out.old ++ value_text value.now) }
    ensures kept { OnErr result (out.new ≡ out.old) }
{
    let before = out.len();
    let printed = append_value(value, out);
    if printed.is_err() {
        out.truncate(before);
    }
    printed
}

/// Appends the values, the separator between them. Want of memory changes nothing.
pub fn print_values(separator: &[u8], values: &[Value], out: &mut Bytes) -> Result<(), NoMemory>
    ensures appended { OnOk result (out.new ≡ out.old ++ values_text separator.now values.now) }
    ensures kept { OnErr result (out.new ≡ out.old) }
{
    let before = out.len();
    let printed = append_values(separator, values, out);
    if printed.is_err() {
        out.truncate(before);
    }
    printed
}

/// Appends the row's line: a bar and a space, the values joined by bars, a line feed. Want of memory changes
/// nothing. Cost: linear in the line.
pub fn print_row(row: &Row, out: &mut Bytes) -> Result<(), NoMemory>
    ensures appended { OnOk result (out.new ≡ out.old ++ row_line row.now) }
    ensures kept { OnErr result (out.new ≡ out.old) }
{
    let before = out.len();
    let printed = append_row(row, out);
    if printed.is_err() {
        out.truncate(before);
    }
    printed
}
