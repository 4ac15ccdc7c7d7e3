//! The token that begins some bytes.

ghost use Rattle.std.specs.Prelude.{◌≡◌, ◌+◌, ◌<◌, ◌≤◌, ◌^◌, length, drop, IfSome};
ghost use Rattle.std.specs.Char.{is_ascii_digit};
ghost use Rattle.std.specs.List.{prefix_len};
ghost use Rattle.lv_values.specs.Names as names;
ghost use Rattle.lv_lexer.specs.Piece.{closing, number_of, piece};

use crate::signs::sign;
use crate::token::TokenKind;

/// The most digits that a number has.
const MOST_DIGITS: usize = 38;

const QUOTE: u8 = b'\'';

// Most bytes of a line are letters, so the tests below ask for these first.

#[inline(always)]
fn is_letter(byte: u8) -> bool
    ensures { result ≡ names.is_letter byte }
{
    byte.is_ascii_alphabetic() || byte == b'_'
}

#[inline(always)]
fn is_word_byte(byte: u8) -> bool
    ensures { result ≡ names.is_word_byte byte }
{
    byte.is_ascii_alphabetic() || byte == b'_' || byte.is_ascii_digit()
}

#[inline(always)]
fn is_blank(byte: u8) -> bool
    ensures { result ≡ names.is_blank byte }
{
    byte == b' ' || byte == b'\t'
}

/// How many word bytes stand in front.
fn word_len(bytes: &[u8]) -> usize
    ensures value { result ≡ prefix_len names.is_word_byte bytes.now }
    ensures within { result ≤ length bytes.now }
{
    bytes.iter().take_while(|b| is_word_byte(**b)).count()
}

/// How many digits stand in front.
fn digits_len(bytes: &[u8]) -> usize
    ensures value { result ≡ prefix_len is_ascii_digit bytes.now }
    ensures within { result ≤ length bytes.now }
{
    bytes.iter().take_while(|b| b.is_ascii_digit()).count()
}

/// Where the blanks end that stand in the line from this byte on.
#[tactic(auto, using(crate::proofs::Blanks::run_goes_on, crate::proofs::Blanks::run_stops, crate::proofs::Blanks::run_ends))]
pub(crate) fn blanks_end(line: &[u8], at: usize) -> usize
    requires { at ≤ length line.now }
    ensures value { result ≡ at + prefix_len names.is_blank (drop at line.now) }
    ensures within { result ≤ length line.now }
{
    let mut end = at;
    'blank: while end < line.len() {
        if is_blank(line[end]) {
            end += 1;
        } else {
            return end;
        }
    }
    end
}

/// How many bytes there are up to the closing quote, with it, where there is one.
fn closing_len(bytes: &[u8]) -> Option<usize>
    ensures value { result ≡ closing bytes.now }
    ensures within { IfSome result (λ n. n ≤ length bytes.now) }
{
    let mut at = 0;
    'quote: while at < bytes.len() {
        if bytes[at] != QUOTE {
            at += 1;
        } else if at + 1 < bytes.len() && bytes[at + 1] == QUOTE {
            at += 2;
        } else {
            return Some(at + 1);
        }
    }
    None
}

/// The number in front, whose first digit stands before these bytes.
fn number(rest: &[u8]) -> Option<(TokenKind, usize)>
    requires { length rest.now < 2 ^ 32 }
    ensures value { result ≡ number_of (1 + prefix_len is_ascii_digit rest.now) }
    ensures within { IfSome result (λ found. (0 < found.1) × (found.1 ≤ 1 + length rest.now)) }
{
    let len = 1 + digits_len(rest);
    if len <= MOST_DIGITS {
        Some((TokenKind::Number, len))
    } else {
        None
    }
}

/// The kind and the length of the token in front, where one is there. Cost: linear in the token.
#[tactic(auto, unfolding(crate::specs::Piece::piece))]
pub(crate) fn piece(bytes: &[u8]) -> Option<(TokenKind, usize)>
    requires { length bytes.now < 2 ^ 32 }
    ensures value { result ≡ piece bytes.now }
    ensures within { IfSome result (λ found. (0 < found.1) × (found.1 ≤ length bytes.now)) }
{
    let [first, rest @ ..] = bytes else {
        return None;
    };
    if is_letter(*first) {
        Some((TokenKind::Word, 1 + word_len(rest)))
    } else if first.is_ascii_digit() {
        number(rest)
    } else if *first == QUOTE {
        match closing_len(rest) {
            None => None,
            Some(len) => Some((TokenKind::Text, 1 + len)),
        }
    } else {
        sign(bytes)
    }
}
