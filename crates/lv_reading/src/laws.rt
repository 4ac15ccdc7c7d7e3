//! Laws of the readers of numbers, stated as contracts.
ghost use Rattle.std.specs.Prelude.{◌≡◌, ℕ, ℤ, ◌<◌, ◌^◌, ◌++◌, List, Some, true, decimal};
ghost use Rattle.std.specs.Char.{is_ascii_digit};
ghost use Rattle.std.specs.Fmt.{signed_decimal};
ghost use Rattle.lv_reading.specs.Reading.{IsBytes, stops};
ghost use Rattle.lv_reading.specs.Numbers.{IsWide, wide, number};

/// A number is read from its decimal text and from no other text; and that text is read as the number where no
/// digit follows it.
pub fn decimals_both_ways()
    ensures written { (bytes rest : List ℕ) (n : ℕ) → IsBytes bytes → wide bytes ≡ Some (n, rest)
        → (n < 2 ^ 128) × (bytes ≡ decimal n ++ rest) }
    ensures again { (n : ℕ) (rest : List ℕ) → n < 2 ^ 128 → stops is_ascii_digit rest ≡ true → wide (decimal n ++ rest) ≡ Some (n, rest) }
{}

/// The same of signed numbers.
pub fn signed_decimals_both_ways()
    ensures written { (bytes rest : List ℕ) (z : ℤ) → IsBytes bytes → number bytes ≡ Some (z, rest)
        → IsWide z × (bytes ≡ signed_decimal z ++ rest) }
    ensures again { (z : ℤ) (rest : List ℕ) → IsWide z → stops is_ascii_digit rest ≡ true → number (signed_decimal z ++ rest) ≡ Some (z, rest) }
{}
