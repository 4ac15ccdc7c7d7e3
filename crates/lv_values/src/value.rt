//! One value, and the order of values.
ghost use Rattle.std.proofs.Common.{rules};
ghost use Rattle.std.specs.Cmp.Rules.{comparing, hashing};
ghost use Rattle.std.specs.Cmp.{partial_order_from_own_ties};
ghost use Rattle.std.specs.Ordering.{as_partial_cmp};

use crate::items::Copying;
use crate::memory::NoMemory;
use crate::text::Text;
use std::alloc::Global;
use std::cmp::Ordering;
use std::hash::{Hash, Hasher};

/// One value of a row: a number of up to 128 bits, signed, or a text. Numbers come before texts.
#[derive(Debug, Drop)]
pub enum Value {
    /// A whole number.
    Num(i128),
    /// A text.
    Text(Text),
}

impl Copying for Value {
    fn copy(&self, alloc: Global) -> Result<Self, NoMemory> {
        match self {
            Value::Num(n) => Ok(Value::Num(*n)),
            Value::Text(t) => Ok(Value::Text(t.copy(alloc)?)),
        }
    }
}

impl PartialEq for Value {
    ghost use Rattle.lv_values.specs.Order.{value_eq};

    ghost eq = { value_eq };

    ghost laws = { Prim.search (comparing, rules) };

    fn eq(&self, other: &Value) -> bool {
        self.cmp(other).is_eq()
    }
}

impl Eq for Value {
    ghost laws = { Prim.search (comparing, rules) };
}

impl PartialOrd for Value {
    ghost use Rattle.lv_values.specs.Order.{value_cmp};

    ghost partial_cmp = { as_partial_cmp value_cmp };

    ghost laws = { partial_order_from_own_ties (Prim.search (comparing, rules)) (Prim.search (comparing, rules)) };

    fn partial_cmp(&self, other: &Value) -> Option<Ordering> {
        Some(self.cmp(other))
    }
}

impl Ord for Value {
    ghost use Rattle.lv_values.specs.Order.{value_cmp};

    ghost cmp = { value_cmp };

    ghost total = { Prim.search (comparing, rules) };

    ghost matches_partial_cmp = { Prim.search (comparing, rules) };

    ghost matches_eq = { Prim.search (comparing, rules) };

    fn cmp(&self, other: &Value) -> Ordering {
        match (self, other) {
            (Value::Num(a), Value::Num(b)) => a.cmp(b),
            (Value::Num(_), Value::Text(_)) => Ordering::Less,
            (Value::Text(_), Value::Num(_)) => Ordering::Greater,
            (Value::Text(a), Value::Text(b)) => a.cmp(b),
        }
    }
}

impl Hash for Value {
    ghost use Rattle.lv_values.specs.Hashing.{value_input, value_alike};

    ghost hash_input = { value_input };

    ghost respects_eq = { value_alike };

    fn hash<H: Hasher>(&self, state: &mut H) {
        match self {
            Value::Num(n) => {
                state.write_u8(1);
                n.hash(state);
            }
            Value::Text(t) => {
                state.write_u8(2);
                t.hash(state);
            }
        }
    }
}
