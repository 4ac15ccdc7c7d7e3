//! Actions on one table.
ghost use Rattle.std.specs.Prelude.{◌≡◌, refl, List};
ghost use Rattle.std.specs.Cmp.{partial_equiv_from_equiv, partial_order_from_total};
ghost use Rattle.std.specs.Ordering.{as_partial_cmp, eq_by_cmp, is_lt};
ghost use Rattle.std.proofs.lemmas.Cmp.{eq_by_cmp_equiv};
ghost use Rattle.lv_values.specs.declared.value.Value.{Value};
ghost use Rattle.lv_values.specs.Order.{row_cmp, row_eq, value_cmp, value_eq};
ghost use Rattle.lv_values.specs.Rows.{value_in, values_at};
ghost use Rattle.lv_condense.specs.Touches.{IsNumber, IsNumberOf, key_of, then_by, touch_by, touch_cmp, touch_total};

use lv_schema::Action;
use lv_values::{Row, Value};
use std::cmp::Ordering;
use std::marker::Model;

/// The first and the last of some actions on one key, with the positions of their table's key. Contracts see all three.
/// Touches are ordered by the keys that they touch, in place. A key that is one number, as most are, is kept beside them,
/// so that two such keys are compared without a look at their rows.
#[derive(Drop)]
pub(crate) struct Touch<'a> {
    pub key: &'a [u8],
    pub first: &'a Action,
    pub last: &'a Action,
    number: Option<i64>,
}

impl<'a> Model for Touch<'a> {
    ghost use Rattle.lv_values.specs.Rows.{values_at};
    ghost use Rattle.lv_condense.specs.Touches.{ATouch, IsNumberOf};

    ghost Value = { ATouch };

    ghost view = { λ t. record { key = t.key.now; first = t.first.now; last = t.last.now } };

    ghost invariant = { λ t. IsNumberOf (values_at t.key.now t.first.now.row) t.number };
}

impl<'a> Touch<'a> {
    /// The touch by one action.
    pub fn by(key: &'a [u8], action: &'a Action) -> Touch<'a>
        ensures { result ≡ touch_by key.now action.now }
    {
        Touch {
            key,
            first: action,
            last: action,
            number: number_in(key, &action.row),
        }
    }

    /// Whether the touch's key is below another's. Cost: a comparison of two numbers where both keys are one.
    pub fn is_below(&self, other: &Touch<'a>) -> bool
        ensures { result ≡ is_lt (touch_cmp self.now other.now) }
    {
        match (self.number, other.number) {
            (Some(a), Some(b)) => a < b,
            _ => self.cmp(other).is_lt(),
        }
    }

    /// Whether the touch is of another's key. Cost: a test of two numbers where both keys are one.
    pub fn is_of_key(&self, other: &Touch<'a>) -> bool
        ensures { result ≡ row_eq (key_of self.now) (key_of other.now) }
    {
        match (self.number, other.number) {
            (Some(a), Some(b)) => a == b,
            _ => *self == *other,
        }
    }

    /// Whether an action is on the touch's key, with the positions of its table's key. Cost: a test of two numbers where the
    /// touch's key is one.
    #[inline(always)]
    pub fn is_touched_by(&self, key: &[u8], action: &Action) -> bool
        ensures { result ≡ row_eq (key_of self.now) (values_at key.now action.now.row) }
    {
        match self.number {
            Some(number) => is_number(number, key, &action.row),
            None => is_same_key(self.key, &self.first.row, key, &action.row),
        }
    }

    /// Ends the touch with a later action on its key.
    pub fn end_at(&mut self, last: &'a Action)
        ensures { self.new ≡ then_by self.old last.now }
    {
        self.last = last;
    }

    /// Ends the touch with the last action of a later one.
    pub fn end_with(&mut self, later: &Touch<'a>)
        ensures { self.new ≡ then_by self.old later.now.last }
    {
        self.last = later.last;
    }
}

/// The number that a row's key is, if it is one number and 64 bits hold it.
fn number_in(key: &[u8], row: &Row) -> Option<i64>
    ensures { IsNumberOf (values_at key.now row.now) result }
{
    if key.len() != 1 {
        return None;
    }
    match row.as_slice().get(key[0] as usize) {
        Some(Value::Num(n)) => i64::try_from(*n).ok(),
        Some(Value::Text(_)) => None,
        None => Some(0),
    }
}

/// Whether a row's key is one number. Cost: a test of two numbers.
#[inline(always)]
fn is_number(number: i64, key: &[u8], row: &Row) -> bool
    ensures { (k : List Value) → IsNumber k number → result ≡ row_eq k (values_at key.now row.now) }
{
    if key.len() != 1 {
        return false;
    }
    match row.as_slice().get(key[0] as usize) {
        Some(Value::Num(n)) => *n == i128::from(number),
        Some(Value::Text(_)) => false,
        None => number == 0,
    }
}

/// Whether two values are the same: numbers, which most keys are, at once.
fn is_same(left: &Value, right: &Value) -> bool
    ensures { result ≡ value_eq left.now right.now }
{
    match (left, right) {
        (Value::Num(a), Value::Num(b)) => a == b,
        _ => left == right,
    }
}

/// Whether the value at a position of one row is that at a position of another, the number 0 standing past a row's end.
fn is_same_at(at: u8, a: &Row, other: u8, b: &Row) -> bool
    ensures { result ≡ value_eq (value_in a.now at) (value_in b.now other) }
{
    match (
        a.as_slice().get(at as usize),
        b.as_slice().get(other as usize),
    ) {
        (Some(left), Some(right)) => is_same(left, right),
        _ => compare_at(at, a, other, b).is_eq(),
    }
}

/// Whether two rows have the same values, each at positions of its own. Cost: the values up to the first that differs.
#[inline(never)]
fn is_same_key(key: &[u8], a: &Row, others: &[u8], b: &Row) -> bool
    ensures { result ≡ row_eq (values_at key.now a.now) (values_at others.now b.now) }
{
    if key.len() != others.len() {
        return false;
    }
    for (i, at) in key.iter().enumerate() {
        if !is_same_at(*at, a, others[i], b) {
            return false;
        }
    }
    true
}

/// Compares the value at a position of one row with that at a position of another, the number 0 standing past a row's
/// end.
fn compare_at(at: u8, a: &Row, other: u8, b: &Row) -> Ordering
    ensures { result ≡ value_cmp (value_in a.now at) (value_in b.now other) }
{
    match (
        a.as_slice().get(at as usize),
        b.as_slice().get(other as usize),
    ) {
        (Some(left), Some(right)) => left.cmp(right),
        (Some(left), None) => left.cmp(&Value::Num(0)),
        (None, Some(right)) => Value::Num(0).cmp(right),
        (None, None) => Ordering::Equal,
    }
}

/// Compares the values of two rows, each at positions of its own. Cost: at most the shorter key's values.
fn compare_keys(key: &[u8], a: &Row, others: &[u8], b: &Row) -> Ordering
    ensures { result ≡ row_cmp (values_at key.now a.now) (values_at others.now b.now) }
{
    for (i, at) in key.iter().enumerate() {
        if i >= others.len() {
            return Ordering::Greater;
        }
        let order = compare_at(*at, a, others[i], b);
        if order.is_ne() {
            return order;
        }
    }
    if key.len() < others.len() {
        Ordering::Less
    } else {
        Ordering::Equal
    }
}

impl<'a> PartialEq for Touch<'a> {
    ghost eq = { eq_by_cmp touch_cmp };

    ghost laws = { partial_equiv_from_equiv (eq_by_cmp_equiv touch_total) };

    /// Whether the keys are the same. Cost: a test of two numbers where both keys are one, else of the keys' values up to
    /// the first that differs.
    fn eq(&self, other: &Touch<'a>) -> bool {
        match (self.number, other.number) {
            (Some(a), Some(b)) => a == b,
            (Some(_), None) => false,
            (None, _) => is_same_key(self.key, &self.first.row, other.key, &other.first.row),
        }
    }
}

impl<'a> Eq for Touch<'a> {
    ghost laws = { eq_by_cmp_equiv touch_total };
}

impl<'a> PartialOrd for Touch<'a> {
    ghost partial_cmp = { as_partial_cmp touch_cmp };

    ghost laws = { partial_order_from_total touch_total };

    fn partial_cmp(&self, other: &Touch<'a>) -> Option<Ordering> {
        Some(self.cmp(other))
    }
}

impl<'a> Ord for Touch<'a> {
    ghost cmp = { touch_cmp };

    ghost total = { touch_total };

    ghost matches_partial_cmp = { λ _ _. refl };

    ghost matches_eq = { λ _ _. refl };

    /// Compares the keys. Cost: a comparison of two numbers where both keys are one, else of the keys' values up to the
    /// first that differs.
    fn cmp(&self, other: &Touch<'a>) -> Ordering {
        match (self.number, other.number) {
            (Some(a), Some(b)) => a.cmp(&b),
            _ => compare_keys(self.key, &self.first.row, other.key, &other.first.row),
        }
    }
}
