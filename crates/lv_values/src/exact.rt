//! Orders that tell every two values apart, and lists in ascending order.
ghost use Rattle.std.specs.Prelude.{◌≡◌, ◌++◌, OnOk, OnErr, refl};
ghost use Rattle.std.specs.declared.cmp.Ordering.TheVariants.{Equal};
ghost use Rattle.lv_values.specs.Ascending.{ascending};
ghost use Rattle.lv_values.specs.OrderLaws.{value_exact, text_exact};
ghost use Rattle.std.specs.FinMap.{nat_cmp-IsAntisymmetric, int_cmp-IsAntisymmetric, slice_cmp-IsAntisymmetric};

use crate::items::Items;
use crate::memory::NoMemory;
use crate::text::Text;
use crate::value::Value;
use std::cmp::Ordering;

/// A total order that tells every two values apart: only equal values tie. So a list has one ascending order,
/// however it is sorted.
pub trait Exact: Ord {
    ghost exact: { (x y : Self) → Self.cmp x y ≡ Equal → x ≡ y };
}

impl Exact for Text {
    ghost exact = { text_exact };
}

impl Exact for Value {
    ghost exact = { value_exact };
}

impl Exact for u64 {
    ghost exact = { nat_cmp-IsAntisymmetric };
}

impl<T: Exact> Exact for Items<T> {
    ghost exact = { slice_cmp-IsAntisymmetric T.exact };
}

impl<T: Exact> Items<T> {
    /// Puts the elements in ascending order, equal ones as often as they occur. It takes no memory.
    /// Cost: n log n comparisons.
    pub fn sort(&mut self)
        ensures { self.new ≡ ascending T.cmp self.old }
    {
        self.sort_unstable();
    }
}

impl<T: Exact + Drop> Items<T> {
    /// Puts the elements of two lists together in ascending order. Want of memory changes nothing.
    /// Cost: n log n comparisons.
    pub fn merge(&mut self, more: Items<T>) -> Result<(), NoMemory>
        ensures merged { OnOk result (self.new ≡ ascending T.cmp (self.old ++ more)) }
        ensures refused { OnErr result (self.new ≡ self.old) }
    {
        self.append(more)?;
        self.sort();
        Ok(())
    }
}
