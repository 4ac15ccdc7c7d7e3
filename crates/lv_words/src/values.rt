//! The values of the options.
ghost use Rattle.std.specs.Prelude.{◌≡◌, ◌<◌, ◌≤◌, IfSome, List, option_map, ℕ};
ghost use Rattle.std.specs.Borrow.{Bor};
ghost use Rattle.std.specs.Char.{is_ascii_digit};
ghost use Rattle.std.specs.List.{list_all};
ghost use Rattle.lv_words.specs.Values as value;

fn are_digits(bytes: &[u8]) -> bool
    ensures { result ≡ list_all is_ascii_digit bytes.now }
{
    bytes.iter().all(|byte| byte.is_ascii_digit())
}

/// Whether the text is 1 to 10 decimal digits.
#[tactic(auto, using(crate::proofs::Digits::digits_tell))]
fn has_digits(text: &str) -> bool
    ensures { result ≡ value.has_digits text.now }
{
    if text.is_empty() {
        return false;
    }
    if text.len() > 10 {
        return false;
    }
    are_digits(text.as_bytes())
}

/// The number that 1 to 10 decimal digits write.
fn number_of(text: &str) -> Option<u64>
    ensures { result ≡ value.number_of text.now }
{
    if !has_digits(text) {
        return None;
    }
    text.parse::<u64>().ok()
}

/// The number that a text writes, where it lies in the range.
fn number_in(low: u64, high: u64, text: &str) -> Option<u64>
    ensures value { result ≡ value.number_in low high text.now }
    ensures within { IfSome result (λ n. (low ≤ n) × (n ≤ high)) }
{
    let number = number_of(text)?;
    if number < low || number > high {
        return None;
    }
    Some(number)
}

/// The number that is given, or else another one.
pub fn number_or(low: u64, high: u64, otherwise: u64, given: Option<&str>) -> Option<u64>
    requires least { low ≤ otherwise }
    requires most { otherwise ≤ high }
    ensures value { result ≡ value.number_or low high otherwise (option_map (λ (s : Bor (List ℕ)). s.now) given.entry) }
    ensures within { IfSome result (λ n. (low ≤ n) × (n ≤ high)) }
{
    match given {
        None => Some(otherwise),
        Some(text) => number_in(low, high, text),
    }
}

/// The number of statements that are made, or none.
pub fn make_or(given: Option<&str>) -> Option<Option<u32>>
    ensures value { result ≡ value.make_or (option_map (λ (s : Bor (List ℕ)). s.now) given.entry) }
    ensures within { IfSome result (λ made. IfSome made (λ n. (1 ≤ n) × (n ≤ 65536))) }
{
    match given {
        None => Some(None),
        Some(text) => {
            let number = number_in(1, 65536, text)?;
            Some(Some(number as u32))
        }
    }
}

/// The kind of a policy by its name.
fn policy_of(name: &str) -> Option<u8>
    ensures value { result ≡ value.policy_of name.now }
    ensures within { IfSome result (λ kind. kind < 3) }
{
    if name == "oldest" {
        Some(0)
    } else if name == "most" {
        Some(1)
    } else if name == "first" {
        Some(2)
    } else {
        None
    }
}

/// The kind of the policy that is given, or of the one that is taken without.
pub fn policy_or(given: Option<&str>) -> Option<u8>
    ensures value { result ≡ value.policy_or (option_map (λ (s : Bor (List ℕ)). s.now) given.entry) }
    ensures within { IfSome result (λ kind. kind < 3) }
{
    match given {
        None => Some(0),
        Some(name) => policy_of(name),
    }
}

/// Whether a flag stands there.
pub fn is_on(given: Option<&str>) -> bool
    ensures { result ≡ value.is_on (option_map (λ (s : Bor (List ℕ)). s.now) given.entry) }
{
    match given {
        None => false,
        Some(text) => text == "true",
    }
}
