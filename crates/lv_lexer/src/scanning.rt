//! The tokens of a line.

ghost use Rattle.std.specs.Prelude.{◌≡◌, ℕ, ◌-◌, ◌<◌, ◌≤◌, ◌^◌, List, length, Option, IfOk, All};
ghost use Rattle.lv_lexer.specs.declared.token.Token.{Token};
ghost use Rattle.lv_lexer.specs.Next.{IsNext};
ghost use Rattle.lv_lexer.specs.Scan.{Scans, IsTokenOf, AreInOrder, is_over};

use crate::pieces::{blanks_end, piece};
use crate::token::{Scan, Token, TokenKind, Tokens};
use lv_values::{NoMemory, Text};
use std::alloc::Global;

/// Whether the line is over: nothing comes any more, or a comment.
fn is_over(bytes: &[u8]) -> bool
    ensures { result ≡ is_over bytes.now }
{
    match bytes {
        [] => true,
        [b'-', rest @ ..] => match rest {
            [b'-', ..] => true,
            _ => false,
        },
        _ => false,
    }
}

/// What comes next in a line.
pub(crate) enum Next {
    /// A token of this kind, from this byte up to that one, without it.
    Token(TokenKind, usize, usize),
    /// No token: the line is over, or what stands at this byte is none.
    End(Option<u32>),
}

/// What comes next in the line, from this byte on. Cost: linear in the blanks and the token.
pub(crate) fn next_token(line: &[u8], at: usize) -> Next
    requires len { length line.now < 2 ^ 32 - 1 }
    requires at { at ≤ length line.now }
    ensures { IsNext line.now at result }
{
    let start = blanks_end(line, at);
    let rest = &line[start..];
    if is_over(rest) {
        return Next::End(None);
    }
    match piece(rest) {
        None => Next::End(Some(start as u32)),
        Some((kind, len)) => Next::Token(kind, start, start + len),
    }
}

/// The tokens of the bytes, and the place of the first piece that is none.
fn scan(alloc: Global, line: &[u8]) -> Result<Scan, NoMemory>
    requires { length line.now < 2 ^ 32 - 1 }
    ensures { IfOk result (λ scan. Scans 0 line.now scan.list scan.stopped) }
{
    // Most lines have no more tokens than this.
    let mut list = Tokens::from_vec(Vec::with_capacity(alloc, line.len() / 2 + 1)?);
    let mut at = 0;
    'each: loop {
        match next_token(line, at) {
            Next::Token(kind, start, end) => {
                list.push(Token {
                    kind,
                    start: start as u32,
                    end: end as u32,
                })?;
                at = end;
            }
            Next::End(stopped) => return Ok(Scan { list, stopped }),
        }
    }
}

/// The tokens of the line, up to its end, or up to the first piece that is no token: an unknown character, a text without
/// its closing quote, or more than 38 digits in a row. Spaces and tabs stand between tokens, and `--` outside a text begins
/// a comment, which ends with the line. Cost: linear in the line.
pub fn tokens(alloc: Global, line: &Text) -> Result<Scan, NoMemory>
    requires { length line.now < 2 ^ 32 - 1 }
    ensures scan { IfOk result (λ scan. Scans 0 line.now scan.list scan.stopped) }

    // A line has one list of tokens.
    ensures only { (list : List Token) (stopped : Option ℕ) → Scans 0 line.now list stopped
        → IfOk result (λ scan. (scan.list ≡ list) × (scan.stopped ≡ stopped)) }

    // Each is a slice of the line that spells its kind, and they are in order.
    ensures each { IfOk result (λ scan. All (IsTokenOf line.now) scan.list) }
    ensures order { IfOk result (λ scan. AreInOrder (length line.now) 0 scan.list scan.stopped) }
{
    scan(alloc, line.as_bytes())
}
