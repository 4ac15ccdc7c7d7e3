//! Forms of names, texts and values.

use crate::words::{any_value, name_in, own_word};
use lv_forms::Form;
use lv_plain::Texts;
use lv_reading::{Cursor, Stop};
use lv_values::{Bytes, NoMemory, Text, Value, print_value};
use std::alloc::Global;

/// A name of these, by its place from 0.
#[derive(Clone, Copy)]
pub(crate) struct Name<'a>(pub(crate) &'a Texts);

impl<'a> Form for Name<'a> {
    ghost use Rattle.lv_lines.specs.ValueForms.{name};

    type Value = u32;

    ghost form = { λ s. name s.0.now };

    fn print(&self, value: &u32, out: &mut Bytes) -> Result<(), NoMemory> {
        match self.0.as_slice().get(*value as usize) {
            None => Ok(()),
            Some(name) => out.extend_from_slice(name.as_bytes()),
        }
    }

    fn read(&self, _alloc: Global, cursor: &mut Cursor<'_>) -> Result<u32, Stop> {
        name_in(self.0, cursor)
    }
}

/// A word that stands for itself.
#[derive(Clone, Copy)]
pub(crate) struct Own;

impl Form for Own {
    ghost use Rattle.lv_lines.specs.ValueForms.{own};

    type Value = Text;

    ghost form = { λ _. own };

    fn print(&self, value: &Text, out: &mut Bytes) -> Result<(), NoMemory> {
        out.extend_from_slice(value.as_bytes())
    }

    fn read(&self, alloc: Global, cursor: &mut Cursor<'_>) -> Result<Text, Stop> {
        own_word(alloc, cursor)
    }
}

/// A number, or a text between quotes.
#[derive(Clone, Copy)]
pub(crate) struct AnyValue;

impl Form for AnyValue {
    ghost use Rattle.lv_lines.specs.ValueForms.{any_value};

    type Value = Value;

    ghost form = { λ _. any_value };

    fn print(&self, value: &Value, out: &mut Bytes) -> Result<(), NoMemory> {
        print_value(value, out)
    }

    fn read(&self, alloc: Global, cursor: &mut Cursor<'_>) -> Result<Value, Stop> {
        any_value(alloc, cursor)
    }
}
