//! Lists of values.
ghost use Rattle.std.specs.Prelude.{◌≡◌, ◌++◌, OnOk, OnErr, length};
ghost use Rattle.std.specs.List.{flat_map, join_by};
ghost use Rattle.lv_values.specs.Print.{StaysInFront};

use crate::a_form::Form;
use lv_reading::{Cursor, Part, Stop, read_many, read_separated, read_times};
use lv_values::{Bytes, Items, NoMemory};
use std::alloc::Global;

/// A form as a part.
#[derive(Drop)]
struct Each<'a, F> {
    form: &'a F,
}

impl<'a, F: Form> Part<F::Value> for Each<'a, F> {
    ghost reader = { λ s. (F.form s.form.now).read };

    fn read(&self, alloc: Global, cursor: &mut Cursor<'_>) -> Result<F::Value, Stop> {
        self.form.read(alloc, cursor)
    }
}

/// Appends the texts of all.
pub fn print_all<F: Form>(form: &F, values: &[F::Value], out: &mut Bytes) -> Result<(), NoMemory>
    ensures appended { OnOk result (out.new ≡ out.old ++ flat_map (F.form form.now).text values.now) }
    ensures front { OnErr result (StaysInFront out.old out.new) }
{
    for value in values {
        form.print(value, out)?;
    }
    Ok(())
}

/// How many there are, words, and each of them.
#[derive(Clone, Copy)]
pub struct Counted<'a, N, F>(pub N, pub &'a [u8], pub F);

impl<'a, N: Form<Value = u64>, F: Form> Form for Counted<'a, N, F> {
    ghost use Rattle.lv_forms.specs.Forms.{counted};

    type Value = Items<F::Value>;

    ghost form = { λ s. counted (N.form s.0) s.1.now (F.form s.2) };

    fn print(&self, value: &Items<F::Value>, out: &mut Bytes) -> Result<(), NoMemory> {
        let count = value.len() as u64;
        self.0.print(&count, out)?;
        out.extend_from_slice(self.1)?;
        print_all(&self.2, value.as_slice(), out)?;
        Ok(())
    }

    fn read(&self, alloc: Global, cursor: &mut Cursor<'_>) -> Result<Items<F::Value>, Stop> {
        let count = self.0.read(alloc, cursor)?;
        cursor.expect(self.1)?;
        read_times(alloc, &Each { form: &self.2 }, count, cursor)
    }
}

/// How many there are, and each of them. A count alone takes no memory: each part is read before it has room.
#[derive(Clone, Copy)]
pub struct Listed<N, F>(pub N, pub F);

impl<N: Form<Value = u64>, F: Form> Form for Listed<N, F> {
    ghost use Rattle.lv_forms.specs.Forms.{listed};

    type Value = Items<F::Value>;

    ghost form = { λ s. listed (N.form s.0) (F.form s.1) };

    fn print(&self, value: &Items<F::Value>, out: &mut Bytes) -> Result<(), NoMemory> {
        let count = value.len() as u64;
        self.0.print(&count, out)?;
        print_all(&self.1, value.as_slice(), out)?;
        Ok(())
    }

    fn read(&self, alloc: Global, cursor: &mut Cursor<'_>) -> Result<Items<F::Value>, Stop> {
        let count = self.0.read(alloc, cursor)?;
        read_times(alloc, &Each { form: &self.1 }, count, cursor)
    }
}

/// One or more, and words between any two.
#[derive(Clone, Copy)]
pub struct Joined<'a, F>(pub &'a [u8], pub F);

/// Appends the texts of all, words before each.
fn print_behind<F: Form>(
    words: &[u8],
    form: &F,
    values: &[F::Value],
    out: &mut Bytes,
) -> Result<(), NoMemory>
    ensures appended { OnOk result (out.new ≡ out.old ++ flat_map (λ v. words.now ++ (F.form form.now).text v) values.now) }
    ensures front { OnErr result (StaysInFront out.old out.new) }
{
    for value in values {
        out.extend_from_slice(words)?;
        form.print(value, out)?;
    }
    Ok(())
}

impl<'a, F: Form> Form for Joined<'a, F> {
    ghost use Rattle.lv_forms.specs.Forms.{joined};

    type Value = Items<F::Value>;

    ghost form = { λ s. joined s.0.now (F.form s.1) };

    fn print(&self, value: &Items<F::Value>, out: &mut Bytes) -> Result<(), NoMemory> {
        match value.as_slice() {
            [] => Ok(()),
            [first, others @ ..] => {
                self.1.print(first, out)?;
                print_behind(self.0, &self.1, others, out)?;
                Ok(())
            }
        }
    }

    fn read(&self, alloc: Global, cursor: &mut Cursor<'_>) -> Result<Items<F::Value>, Stop> {
        read_separated(alloc, self.0, &Each { form: &self.1 }, cursor)
    }
}

/// A test of the bytes that come next.
pub trait Test {
    ghost use Rattle.std.specs.Prelude.{List, ℕ, Bool};

    /// The test.
    ghost test: { Self → List ℕ → Bool };

    /// Whether the bytes that come next pass it.
    fn passes(&self, cursor: &Cursor<'_>) -> bool
        ensures { result ≡ test self.now cursor.now };
}

/// A form while the bytes pass a test, as a part.
#[derive(Drop)]
struct While<'a, T, F> {
    test: &'a T,
    form: &'a F,
}

impl<'a, T: Test, F: Form> Part<F::Value> for While<'a, T, F> {
    ghost reader = { λ s. (F.form s.form.now).read };

    fn read(&self, alloc: Global, cursor: &mut Cursor<'_>) -> Result<F::Value, Stop> {
        self.form.read(alloc, cursor)
    }
}

impl<'a, T: Test, F: Form> lv_reading::Repeated<F::Value> for While<'a, T, F> {
    ghost comes = { λ s. T.test s.test.now };

    fn comes_next(&self, cursor: &Cursor<'_>) -> bool {
        self.test.passes(cursor)
    }
}

/// One after the other while the bytes pass the test.
#[derive(Clone, Copy)]
pub struct Repeated<T, F>(pub T, pub F);

impl<T: Test, F: Form> Form for Repeated<T, F> {
    ghost use Rattle.lv_forms.specs.Forms.{repeated};

    type Value = Items<F::Value>;

    ghost form = { λ s. repeated (T.test s.0) (F.form s.1) };

    fn print(&self, value: &Items<F::Value>, out: &mut Bytes) -> Result<(), NoMemory> {
        print_all(&self.1, value.as_slice(), out)
    }

    fn read(&self, alloc: Global, cursor: &mut Cursor<'_>) -> Result<Items<F::Value>, Stop> {
        let part = While {
            test: &self.0,
            form: &self.1,
        };
        read_many(alloc, &part, cursor)
    }
}
