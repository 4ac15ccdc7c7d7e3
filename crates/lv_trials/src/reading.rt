//! Numbers at the ends of their ranges, and parts one after the other.
ghost use Rattle.std.specs.Prelude.{◌≡◌, ◌^◌};
ghost use Rattle.lv_reading.specs.Numbers.{natural};
ghost use Rattle.lv_reading.specs.Reading.{begins};

use lv_reading::{Cursor, Part, Repeated, Stop, read_many, read_separated, read_times};
use lv_values::Items;
use std::alloc::Global;

fn signed_in(bytes: &[u8]) -> Option<i128> {
    let mut cursor = Cursor::new(bytes);
    let number = cursor.number().ok()?;
    cursor.is_empty().then_some(number)
}

fn natural_in(bytes: &[u8]) -> Option<u64> {
    let mut cursor = Cursor::new(bytes);
    let number = cursor.natural().ok()?;
    cursor.is_empty().then_some(number)
}

#[test]
fn signed_numbers(rt: HostRuntime) {
    for (bytes, wanted) in [
        (
            b"-170141183460469231731687303715884105728".as_slice(),
            Some(i128::MIN),
        ),
        (b"-7", Some(-7)),
    ] {
        assert_eq!(rt; signed_in(bytes), wanted);
    }
}

#[test]
fn natural_numbers(rt: HostRuntime) {
    for (bytes, wanted) in [
        (b"18446744073709551615", Some(u64::MAX)),
        (b"18446744073709551616", None),
    ] {
        assert_eq!(rt; natural_in(bytes), wanted);
    }
}

#[test]
fn small_numbers(rt: HostRuntime) {
    for (bytes, wanted) in [
        (b"4294967295;", Ok(u32::MAX)),
        (b"4294967296;", Err(Stop::Bad)),
    ] {
        assert_eq!(rt; Cursor::new(bytes).small(), wanted);
    }
}

/// A number that follows `#`.
struct Marked;

impl Part<u64> for Marked {
    ghost use Rattle.std.specs.Prelude.{codes};
    ghost use Rattle.lv_reading.specs.Reading.{expect, ◌>>◌};

    ghost reader = { λ _. expect (codes "#") >> natural (2 ^ 64) };

    fn read(&self, _alloc: Global, cursor: &mut Cursor<'_>) -> Result<u64, Stop> {
        cursor.expect(b"#")?;
        cursor.natural()
    }
}

impl Repeated<u64> for Marked {
    ghost use Rattle.std.specs.Prelude.{codes};

    ghost comes = { λ _. begins (codes "#") };

    fn comes_next(&self, cursor: &Cursor<'_>) -> bool {
        cursor.sees(b"#")
    }
}

/// Whether this was read.
fn is_read(read: Result<Items<u64>, Stop>, wanted: &[u64]) -> bool {
    read.is_ok_and(|read| read.as_slice() == wanted)
}

#[test]
fn parts(rt: HostRuntime) {
    let alloc = rt.alloc();
    let mut cursor = Cursor::new(b"#1#20#300;#4,#5#6#7");
    let many = read_many(alloc, &Marked, &mut cursor);
    assert!(rt; is_read(many, &[1, 20, 300]));
    assert_eq!(rt; cursor.expect(b";"), Ok(()));
    let separated = read_separated(alloc, b",", &Marked, &mut cursor);
    assert!(rt; is_read(separated, &[4, 5]));
    let two = read_times(alloc, &Marked, 2, &mut cursor);
    assert!(rt; is_read(two, &[6, 7]));
    assert!(rt; read_times(alloc, &Marked, 1, &mut cursor).is_err());
}
