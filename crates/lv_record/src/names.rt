//! Names and texts of records.
ghost use Rattle.std.specs.Prelude.{◌≡◌, ◌==◌};
ghost use Rattle.std.specs.List.{list_any};
ghost use Rattle.lv_schema.specs.Databases.{is_line};

use crate::keywords::is_name;
use lv_forms::{Count8, Count16, Form, Letters};
use lv_reading::{Cursor, Stop};
use lv_values::{Bytes, NoMemory, Text};
use std::alloc::Global;

/// A name.
#[derive(Clone, Copy)]
pub(crate) struct Name;

impl Form for Name {
    ghost use Rattle.lv_record.specs.Spelling.{name};

    type Value = Text;

    ghost form = { λ _. name };

    fn print(&self, value: &Text, out: &mut Bytes) -> Result<(), NoMemory> {
        Letters(Count8).print(value, out)
    }

    fn read(&self, alloc: Global, cursor: &mut Cursor<'_>) -> Result<Text, Stop> {
        let name = Letters(Count8).read(alloc, cursor)?;
        if !is_name(name.as_bytes()) {
            return Err(Stop::Bad);
        }
        Ok(name)
    }
}

fn has_line_feed(text: &[u8]) -> bool
    ensures { result ≡ list_any (λ b. b == 10) text.now }
{
    text.iter().any(|byte| *byte == b'\n')
}

/// Whether a column of texts may hold it.
fn is_line(text: &[u8]) -> bool
    ensures { result ≡ is_line text.now }
{
    text.len() <= 256 && !has_line_feed(text)
}

/// A text.
#[derive(Clone, Copy)]
pub(crate) struct Line;

impl Form for Line {
    ghost use Rattle.lv_record.specs.Spelling.{line};

    type Value = Text;

    ghost form = { λ _. line };

    fn print(&self, value: &Text, out: &mut Bytes) -> Result<(), NoMemory> {
        Letters(Count16).print(value, out)
    }

    fn read(&self, alloc: Global, cursor: &mut Cursor<'_>) -> Result<Text, Stop> {
        let text = Letters(Count16).read(alloc, cursor)?;
        if !is_line(text.as_bytes()) {
            return Err(Stop::Bad);
        }
        Ok(text)
    }
}
