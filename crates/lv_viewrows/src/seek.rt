//! Tests of a view's rows that tell between which values those that pass are sought.
ghost use Rattle.std.specs.Prelude.{◌≡◌, Option, option_copied};
ghost use Rattle.lv_values.specs.declared.value.Value.{Value as AValue};

use lv_values::{Any, Row, Test, Value};

/// A test of a view's rows, with the values between which those that pass are sought, where there are such.
pub trait Seek: Test<Row> {
    /// The value below which the group of no row that passes begins, where it is known.
    ghost lowest: { Self → Option AValue };

    /// The value above which the group of no row that passes begins, where it is known.
    ghost highest: { Self → Option AValue };

    /// The value below which the group of no row that passes begins, where it is known.
    fn lowest(&self) -> Option<&Value>
        ensures { option_copied result ≡ lowest self.now };

    /// The value above which the group of no row that passes begins, where it is known.
    fn highest(&self) -> Option<&Value>
        ensures { option_copied result ≡ highest self.now };
}

impl Seek for Any {
    ghost use Rattle.std.specs.Prelude.{None};

    ghost lowest = { λ _. None };

    ghost highest = { λ _. None };

    fn lowest(&self) -> Option<&Value> {
        None
    }

    fn highest(&self) -> Option<&Value> {
        None
    }
}
