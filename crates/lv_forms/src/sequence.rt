//! One form after another.
ghost use Rattle.std.specs.Prelude.{◌≡◌, ◌++◌, OnOk, OnErr};
ghost use Rattle.lv_values.specs.Print.{StaysInFront};

use crate::a_form::Form;
use lv_reading::{Cursor, Stop};
use lv_values::{Bytes, NoMemory};
use std::alloc::Global;

/// These words alone.
#[derive(Clone, Copy)]
pub struct Words<'a>(pub &'a [u8]);

impl<'a> Form for Words<'a> {
    ghost use Rattle.lv_forms.specs.Forms.{words};

    type Value = ();

    ghost form = { λ s. words s.0.now };

    fn print(&self, _value: &(), out: &mut Bytes) -> Result<(), NoMemory> {
        out.extend_from_slice(self.0)
    }

    fn read(&self, _alloc: Global, cursor: &mut Cursor<'_>) -> Result<(), Stop> {
        cursor.expect(self.0)
    }
}

/// Words, and then the form.
#[derive(Clone, Copy)]
pub struct After<'a, F>(pub &'a [u8], pub F);

impl<'a, F: Form> Form for After<'a, F> {
    ghost use Rattle.lv_forms.specs.Forms.{after};

    type Value = F::Value;

    ghost form = { λ s. after s.0.now (F.form s.1) };

    fn print(&self, value: &F::Value, out: &mut Bytes) -> Result<(), NoMemory> {
        out.extend_from_slice(self.0)?;
        self.1.print(value, out)?;
        Ok(())
    }

    fn read(&self, alloc: Global, cursor: &mut Cursor<'_>) -> Result<F::Value, Stop> {
        cursor.expect(self.0)?;
        self.1.read(alloc, cursor)
    }
}

/// The form, and then words.
#[derive(Clone, Copy)]
pub struct Ended<'a, F>(pub F, pub &'a [u8]);

impl<'a, F: Form> Form for Ended<'a, F> {
    ghost use Rattle.lv_forms.specs.Forms.{ended};

    type Value = F::Value;

    ghost form = { λ s. ended (F.form s.0) s.1.now };

    fn print(&self, value: &F::Value, out: &mut Bytes) -> Result<(), NoMemory> {
        self.0.print(value, out)?;
        out.extend_from_slice(self.1)?;
        Ok(())
    }

    fn read(&self, alloc: Global, cursor: &mut Cursor<'_>) -> Result<F::Value, Stop> {
        let value = self.0.read(alloc, cursor)?;
        cursor.expect(self.1)?;
        Ok(value)
    }
}

/// Appends words and the text of a value.
pub fn print_after<F: Form>(
    words: &[u8],
    form: &F,
    value: &F::Value,
    out: &mut Bytes,
) -> Result<(), NoMemory>
    ensures appended { OnOk result (out.new ≡ out.old ++ (words.now ++ (F.form form.now).text value.now)) }
    ensures front { OnErr result (StaysInFront out.old out.new) }
{
    out.extend_from_slice(words)?;
    form.print(value, out)?;
    Ok(())
}

/// Two forms, and words between them.
#[derive(Clone, Copy)]
pub struct Pair<'a, F, G>(pub F, pub &'a [u8], pub G);

impl<'a, F: Form, G: Form> Pair<'a, F, G> {
    ghost use Rattle.lv_forms.specs.Forms.{pair};

    /// Appends the text of both values.
    pub fn print_both(
        &self,
        first: &F::Value,
        second: &G::Value,
        out: &mut Bytes,
    ) -> Result<(), NoMemory>
        ensures appended { OnOk result (out.new ≡ out.old ++ (pair (F.form self.now.0) self.now.1.now (G.form self.now.2)).text (first.now, second.now)) }
        ensures front { OnErr result (StaysInFront out.old out.new) }
    {
        self.0.print(first, out)?;
        out.extend_from_slice(self.1)?;
        self.2.print(second, out)?;
        Ok(())
    }
}

impl<'a, F: Form, G: Form> Pair<'a, F, G> {
    ghost use Rattle.lv_forms.specs.Forms.{pair};

    /// Appends words and the text of both values.
    pub fn print_after(
        &self,
        words: &[u8],
        first: &F::Value,
        second: &G::Value,
        out: &mut Bytes,
    ) -> Result<(), NoMemory>
        ensures appended { OnOk result (out.new ≡ out.old ++ (words.now ++ (pair (F.form self.now.0) self.now.1.now (G.form self.now.2)).text (first.now, second.now))) }
        ensures front { OnErr result (StaysInFront out.old out.new) }
    {
        out.extend_from_slice(words)?;
        self.print_both(first, second, out)?;
        Ok(())
    }
}

impl<'a, 'b, F: Form, G: Form, H: Form> Pair<'a, F, Pair<'b, G, H>> {
    ghost use Rattle.lv_forms.specs.Forms.{pair};

    /// Appends words and the text of three values.
    pub fn print_three(
        &self,
        words: &[u8],
        first: &F::Value,
        second: &G::Value,
        third: &H::Value,
        out: &mut Bytes,
    ) -> Result<(), NoMemory>
        ensures appended { OnOk result (out.new ≡ out.old ++ (words.now ++ (pair (F.form self.now.0) self.now.1.now (pair (G.form self.now.2.0) self.now.2.1.now (H.form self.now.2.2))).text (first.now, (second.now, third.now)))) }
        ensures front { OnErr result (StaysInFront out.old out.new) }
    {
        print_after(words, &self.0, first, out)?;
        out.extend_from_slice(self.1)?;
        self.2.print_both(second, third, out)?;
        Ok(())
    }
}

impl<'a, F: Form, G: Form> Form for Pair<'a, F, G> {
    ghost use Rattle.lv_forms.specs.Forms.{pair};

    type Value = (F::Value, G::Value);

    ghost form = { λ s. pair (F.form s.0) s.1.now (G.form s.2) };

    fn print(&self, value: &(F::Value, G::Value), out: &mut Bytes) -> Result<(), NoMemory> {
        self.print_both(&value.0, &value.1, out)
    }

    fn read(&self, alloc: Global, cursor: &mut Cursor<'_>) -> Result<(F::Value, G::Value), Stop> {
        let first = self.0.read(alloc, cursor)?;
        cursor.expect(self.1)?;
        let second = self.2.read(alloc, cursor)?;
        Ok((first, second))
    }
}

/// Two forms, and nothing between them.
#[derive(Clone, Copy)]
pub struct Both<F, G>(pub F, pub G);

impl<F: Form, G: Form> Form for Both<F, G> {
    ghost use Rattle.lv_forms.specs.Forms.{both};

    type Value = (F::Value, G::Value);

    ghost form = { λ s. both (F.form s.0) (G.form s.1) };

    fn print(&self, value: &(F::Value, G::Value), out: &mut Bytes) -> Result<(), NoMemory> {
        self.0.print(&value.0, out)?;
        self.1.print(&value.1, out)?;
        Ok(())
    }

    fn read(&self, alloc: Global, cursor: &mut Cursor<'_>) -> Result<(F::Value, G::Value), Stop> {
        let first = self.0.read(alloc, cursor)?;
        let second = self.1.read(alloc, cursor)?;
        Ok((first, second))
    }
}

/// Words and the form, or nothing.
#[derive(Clone, Copy)]
pub struct Optional<'a, F>(pub &'a [u8], pub F);

impl<'a, F: Form> Form for Optional<'a, F> {
    ghost use Rattle.lv_forms.specs.Forms.{optional};

    type Value = Option<F::Value>;

    ghost form = { λ s. optional s.0.now (F.form s.1) };

    fn print(&self, value: &Option<F::Value>, out: &mut Bytes) -> Result<(), NoMemory> {
        match value {
            None => Ok(()),
            Some(value) => {
                out.extend_from_slice(self.0)?;
                self.1.print(value, out)?;
                Ok(())
            }
        }
    }

    fn read(&self, alloc: Global, cursor: &mut Cursor<'_>) -> Result<Option<F::Value>, Stop> {
        if !cursor.sees(self.0) {
            return Ok(None);
        }
        cursor.expect(self.0)?;
        let value = self.1.read(alloc, cursor)?;
        Ok(Some(value))
    }
}
