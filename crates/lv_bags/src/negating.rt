//! Signed rows turned round.
ghost use Rattle.std.specs.Prelude.{◌≡◌, map, neg_ℤ};
ghost use Rattle.std.specs.Int.{int_wrap, w128};
ghost use Rattle.lv_bags.specs.Bags.{CanBeNegated, negated};

use lv_schema::{Signed, SignedRow};
use lv_values::Edit;

/// A number turned round, modulo 2 ^ 128.
fn turned(n: i128) -> i128
    ensures { result ≡ int_wrap w128 (neg_ℤ n) }
{
    n.wrapping_neg()
}

struct TurnNumber;

impl Edit<i128> for TurnNumber {
    ghost edited = { λ _ n. int_wrap w128 (neg_ℤ n) };

    fn edit(&self, item: &mut i128) {
        *item = turned(*item);
    }
}

struct TurnEntry;

impl Edit<SignedRow> for TurnEntry {
    ghost use Rattle.lv_bags.specs.Bags.{turned};

    ghost edited = { λ _ s. turned s };

    fn edit(&self, item: &mut SignedRow) {
        item.count = turned(item.count);
        item.sums.edit_each(&TurnNumber);
    }
}

/// Each entry with its count and its sums turned round, the sums modulo 2 ^ 128. It takes no memory: the entries are
/// changed where they lie.
pub fn negate(signed: Signed) -> Signed
    requires { CanBeNegated signed }
    ensures { result ≡ map negated signed }
{
    let mut signed = signed;
    signed.edit_each(&TurnEntry);
    signed
}
