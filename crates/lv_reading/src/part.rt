//! Parts that are read one after the other.
ghost use Rattle.std.specs.Prelude.{◌≡◌, List, ℕ, Bool};
ghost use Rattle.lv_reading.specs.Reading.{Reader, Gives, ◌>>◌, begins, expect, many, many_onto, times, separated, until};

use crate::cursor::Cursor;
use crate::stop::Stop;
use lv_values::Items;
use std::alloc::Global;

/// A part of a text, and how it is read.
pub trait Part<T> {
    /// What reading it gives.
    ghost reader: { Self → Reader T };

    /// Reads the part.
    fn read(&self, alloc: Global, cursor: &mut Cursor<'_>) -> Result<T, Stop>
        ensures { Gives (reader self.now cursor.old) result cursor.new };
}

/// A part that is read as often as it comes next.
pub trait Repeated<T>: Part<T> {
    /// Whether it comes next.
    ghost comes: { Self → List ℕ → Bool };

    /// Whether it comes next.
    fn comes_next(&self, cursor: &Cursor<'_>) -> bool
        ensures { result ≡ comes self.now cursor.now };
}

/// Reads the part `count` times. Cost: that of the parts.
pub fn read_times<T: Drop, P: Part<T>>(
    alloc: Global,
    part: &P,
    count: u64,
    cursor: &mut Cursor<'_>,
) -> Result<Items<T>, Stop>
    ensures { Gives (times (P.reader part.now) count cursor.old) result cursor.new }
{
    let mut found = Items::new(alloc);
    'each: for _ in 0..count {
        let item = part.read(alloc, cursor)?;
        found.push(item)?;
    }
    Ok(found)
}

/// Reads the part until it gives nothing. `Bad` comes where the bytes end before that. Cost: that of the parts.
pub fn read_until<T: Drop, P: Part<Option<T>>>(
    alloc: Global,
    part: &P,
    cursor: &mut Cursor<'_>,
) -> Result<Items<T>, Stop>
    ensures { Gives (until (P.reader part.now) cursor.old) result cursor.new }
{
    let mut found = Items::new(alloc);
    'each: for _ in 0..cursor.len() {
        match part.read(alloc, cursor)? {
            None => return Ok(found),
            Some(item) => found.push(item)?,
        }
    }
    Err(Stop::Bad)
}

/// Reads the part while it comes next, and puts what it gives behind what was found.
fn read_onto<T: Drop, P: Repeated<T>>(
    alloc: Global,
    part: &P,
    mut found: Items<T>,
    cursor: &mut Cursor<'_>,
) -> Result<Items<T>, Stop>
    ensures { Gives (many_onto (P.comes part.now) (P.Part.reader part.now) found cursor.old) result cursor.new }
{
    'each: for _ in 0..cursor.len() {
        if !part.comes_next(cursor) {
            break;
        }
        let item = part.read(alloc, cursor)?;
        found.push(item)?;
    }
    Ok(found)
}

/// Reads the part while it comes next. Cost: that of the parts.
pub fn read_many<T: Drop, P: Repeated<T>>(
    alloc: Global,
    part: &P,
    cursor: &mut Cursor<'_>,
) -> Result<Items<T>, Stop>
    ensures { Gives (many (P.comes part.now) (P.Part.reader part.now) cursor.old) result cursor.new }
{
    read_onto(alloc, part, Items::new(alloc), cursor)
}

/// A part behind a text.
#[derive(Drop)]
struct Behind<'a, P> {
    between: &'a [u8],
    part: &'a P,
}

impl<'a, T, P: Part<T>> Part<T> for Behind<'a, P> {
    ghost reader = { λ s. expect s.between.now >> P.reader s.part.now };

    fn read(&self, alloc: Global, cursor: &mut Cursor<'_>) -> Result<T, Stop> {
        cursor.expect(self.between)?;
        self.part.read(alloc, cursor)
    }
}

impl<'a, T, P: Part<T>> Repeated<T> for Behind<'a, P> {
    ghost comes = { λ s. begins s.between.now };

    fn comes_next(&self, cursor: &Cursor<'_>) -> bool {
        cursor.sees(self.between)
    }
}

/// Reads the part once or more, with this text between any two. Cost: that of the parts.
#[tactic(auto, unfolding(crate::specs::Reading::separated))]
pub fn read_separated<T: Drop, P: Part<T>>(
    alloc: Global,
    between: &[u8],
    part: &P,
    cursor: &mut Cursor<'_>,
) -> Result<Items<T>, Stop>
    ensures { Gives (separated between.now (P.reader part.now) cursor.old) result cursor.new }
{
    let mut found = Items::new(alloc);
    found.push(part.read(alloc, cursor)?)?;
    read_onto(alloc, &Behind { between, part }, found, cursor)
}
