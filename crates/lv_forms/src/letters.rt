//! Texts with the number of their bytes before them.
ghost use Rattle.std.specs.Prelude.{◌≡◌, IfOk, true, false};
ghost use Rattle.std.specs.Str.{is_utf8};
ghost use Rattle.lv_reading.specs.Reading.{Gives};
ghost use Rattle.lv_forms.specs.Forms.{letters_of};

use crate::a_form::Form;
use lv_reading::{Cursor, Stop};
use lv_values::{Bytes, NoMemory, Text, TextFault};
use std::alloc::Global;

/// The bytes as text. `Bad` comes where they are not UTF-8.
fn utf8(alloc: Global, bytes: &[u8]) -> Result<Text, Stop>
    ensures text { IfOk result (λ text. (text ≡ bytes.now) × (is_utf8 bytes.now ≡ true)) }
    ensures bad { result ≡ Err Stop.Bad → is_utf8 bytes.now ≡ false }
{
    match Text::from_bytes(alloc, bytes) {
        Ok(text) => Ok(text),
        Err(TextFault::NotUtf8) => Err(Stop::Bad),
        Err(TextFault::NoMemory) => Err(Stop::NoMemory),
    }
}

/// Reads so many bytes as text. `Bad` comes where there are fewer, and where they are not UTF-8.
#[tactic(auto, unfolding(crate::specs::Forms::chunk))]
fn read_letters(alloc: Global, count: u64, cursor: &mut Cursor<'_>) -> Result<Text, Stop>
    ensures { Gives (letters_of count cursor.old) result cursor.new }
{
    if count > cursor.len() as u64 {
        return Err(Stop::Bad);
    }
    utf8(alloc, cursor.take(count as usize))
}

/// A text, and the number of its bytes before it.
#[derive(Clone, Copy)]
pub struct Letters<N>(pub N);

impl<N: Form<Value = u64>> Form for Letters<N> {
    ghost use Rattle.lv_forms.specs.Forms.{letters};

    type Value = Text;

    ghost form = { λ s. letters (N.form s.0) };

    fn print(&self, value: &Text, out: &mut Bytes) -> Result<(), NoMemory> {
        let bytes = value.as_bytes();
        self.0.print(&(bytes.len() as u64), out)?;
        out.extend_from_slice(bytes)?;
        Ok(())
    }

    fn read(&self, alloc: Global, cursor: &mut Cursor<'_>) -> Result<Text, Stop> {
        let count = self.0.read(alloc, cursor)?;
        read_letters(alloc, count, cursor)
    }
}
