//! The signs of the language.

ghost use Rattle.std.specs.Prelude.{◌≡◌, ◌<◌, ◌≤◌, [], ◌∷◌, length, option_map, IfSome};
ghost use Rattle.lv_lexer.specs.Meaning.{sign_of};
ghost use Rattle.lv_lexer.specs.Signs.{first_fit, long_signs, short_signs, sign_at};
ghost use Rattle.lv_lexer.specs.declared.token.TokenKind.TheVariants as sort;

use crate::terminals::Class;
use crate::token::TokenKind;

/// The sign of two bytes that these are.
#[inline(always)]
fn long_sign(first: u8, second: u8) -> Option<Class>
    ensures { result ≡ option_map (λ found. found.0) (first_fit long_signs (first ∷ second ∷ [])) }
{
    match (first, second) {
        (b'<', b'>') => Some(Class::NotEqual),
        (b'!', b'=') => Some(Class::NotEqual),
        (b'<', b'=') => Some(Class::LessEqual),
        (b'>', b'=') => Some(Class::GreaterEqual),
        _ => None,
    }
}

/// The sign of one byte that this is.
#[inline(always)]
fn short_sign(byte: u8) -> Option<Class>
    ensures { result ≡ option_map (λ found. found.0) (first_fit short_signs (byte ∷ [])) }
{
    match byte {
        b'(' => Some(Class::LeftParen),
        b')' => Some(Class::RightParen),
        b',' => Some(Class::Comma),
        b';' => Some(Class::Semicolon),
        b'.' => Some(Class::Dot),
        b'*' => Some(Class::Star),
        b'+' => Some(Class::Plus),
        b'-' => Some(Class::Minus),
        b'=' => Some(Class::Equal),
        b'<' => Some(Class::Less),
        b'>' => Some(Class::Greater),
        _ => None,
    }
}

/// The class of the longest sign that begins the bytes; of a point where none does.
#[inline(always)]
pub(crate) fn sign_class(bytes: &[u8]) -> Class
    ensures { result ≡ sign_of (sign_at bytes.now) }
{
    match bytes {
        [] => Class::Dot,
        [only] => match short_sign(*only) {
            Some(class) => class,
            None => Class::Dot,
        },
        [first, second, ..] => match long_sign(*first, *second) {
            Some(class) => class,
            None => match short_sign(*first) {
                Some(class) => class,
                None => Class::Dot,
            },
        },
    }
}

/// The longest sign that begins the bytes, with its length.
#[inline(always)]
pub(crate) fn sign(bytes: &[u8]) -> Option<(TokenKind, usize)>
    ensures value { result ≡ option_map (λ found. (sort.Sign, found.1)) (sign_at bytes.now) }
    ensures within { IfSome result (λ found. (0 < found.1) × (found.1 ≤ length bytes.now)) }
{
    match bytes {
        [] => None,
        [only] => match short_sign(*only) {
            Some(_) => Some((TokenKind::Sign, 1)),
            None => None,
        },
        [first, second, ..] => match long_sign(*first, *second) {
            Some(_) => Some((TokenKind::Sign, 2)),
            None => match short_sign(*first) {
                Some(_) => Some((TokenKind::Sign, 1)),
                None => None,
            },
        },
    }
}
