//! What a form is.
ghost use Rattle.std.specs.Prelude.{◌≡◌, ◌++◌, OnOk, OnErr};
ghost use Rattle.lv_values.specs.Print.{StaysInFront};
ghost use Rattle.lv_reading.specs.Reading.{Gives};
ghost use Rattle.lv_forms.specs.Forms.{Form as FormOf};

use lv_reading::{Cursor, Stop};
use lv_values::{Bytes, NoMemory};
use std::alloc::Global;

/// What is written for a value, and how it is read.
pub trait Form {
    /// The values that are written.
    type Value: Drop;

    /// The form that it is.
    ghost form: { Self → FormOf Self.Value };

    /// Appends the text of the value. Want of memory leaves what was there in front.
    fn print(&self, value: &Self::Value, out: &mut Bytes) -> Result<(), NoMemory>
        ensures appended { OnOk result (out.new ≡ out.old ++ (form self.now).text value.now) }
        ensures front { OnErr result (StaysInFront out.old out.new) };

    /// Reads a value.
    fn read(&self, alloc: Global, cursor: &mut Cursor<'_>) -> Result<Self::Value, Stop>
        ensures { Gives ((form self.now).read cursor.old) result cursor.new };
}
