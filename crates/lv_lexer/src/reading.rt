//! What a token says.

ghost use Rattle.std.specs.Prelude.{◌≡◌, ◌+◌, ◌-◌, ◌<◌, ◌≤◌, ◌^◌, ◌==◌, ◌&&◌, length, slice_index, map, All, IfOk, IfSome, IsUtf8};
ghost use Rattle.std.specs.List.{list_all};
ghost use Rattle.std.specs.Char.{to_ascii_lowercase};
ghost use Rattle.std.specs.Str.{str_to_ascii_lowercase};
ghost use Rattle.std.specs.Str.Parse.{digits_value};
ghost use Rattle.lv_lexer.specs.declared.token.TokenKind.TheVariants as sort;
ghost use Rattle.lv_lexer.specs.Cut.{cut};
ghost use Rattle.lv_lexer.specs.Scan.{IsTokenOf, Spells};
ghost use Rattle.lv_lexer.specs.Next.{token_at};
ghost use Rattle.lv_lexer.specs.Meaning.{undoubled, unquoted, plain_at, said, terminal_of};

use crate::keywords::keyword_of;
use crate::scanning::{Next, next_token};
use crate::signs::sign_class;
use crate::terminals::{Class, Terminal, TerminalScan, Terminals};
use crate::token::{Token, TokenKind};
use lv_values::{Bytes, NoMemory, Text, TextFault};
use std::alloc::Global;

const QUOTE: u8 = b'\'';

/// The most digits of a number that is short: it fits 64 bits.
const SHORT_DIGITS: usize = 18;

/// The text with these bytes, which are UTF-8.
fn as_text(alloc: Global, bytes: &[u8]) -> Result<Text, NoMemory>
    requires { IsUtf8 bytes.now }
    ensures { IfOk result (λ text. text ≡ bytes.now) }
{
    match Text::from_bytes(alloc, bytes) {
        Ok(text) => Ok(text),
        Err(TextFault::NoMemory) => Err(NoMemory),
        Err(TextFault::NotUtf8) => unreachable!(),
    }
}

/// Whether two quotes stand there, one after the other.
fn is_pair(bytes: &[u8], at: usize) -> bool
    requires { at < length bytes.now }
    ensures { result ≡ (slice_index bytes.now at == 39 && slice_index bytes.now (at + 1) == 39) }
{
    bytes[at] == QUOTE && at + 1 < bytes.len() && bytes[at + 1] == QUOTE
}

/// The bytes, each pair of quotes as one quote.
fn undouble(alloc: Global, bytes: &[u8]) -> Result<Bytes, NoMemory>
    ensures { IfOk result (λ out. out ≡ undoubled bytes.now) }
{
    let mut out = Bytes::new(alloc);
    let mut at = 0;
    'byte: while at < bytes.len() {
        out.push(bytes[at])?;
        if is_pair(bytes, at) {
            at += 2;
        } else {
            at += 1;
        }
    }
    Ok(out)
}

/// What a text between quotes says.
fn unquote(alloc: Global, quoted: &str) -> Result<Text, NoMemory>
    requires { Spells quoted.now sort.Text }
    ensures { IfOk result (λ text. text ≡ unquoted quoted.now) }
{
    let bytes = quoted.as_bytes();
    let inside = undouble(alloc, &bytes[1..bytes.len() - 1])?;
    as_text(alloc, inside.as_slice())
}

/// Whether a byte is itself in lower case.
fn stays(byte: u8) -> bool
    ensures { result ≡ (to_ascii_lowercase byte == byte) }
{
    byte.to_ascii_lowercase() == byte
}

/// Whether a word is itself in lower case.
fn is_lower(word: &[u8]) -> bool
    ensures { result ≡ list_all (λ byte. to_ascii_lowercase byte == byte) word.now }
{
    word.iter().all(|byte| stays(*byte))
}

/// The word in lower case.
fn lower(alloc: Global, word: &str) -> Result<Text, NoMemory>
    ensures { IfOk result (λ text. text ≡ str_to_ascii_lowercase word.now) }
{
    if is_lower(word.as_bytes()) {
        return Text::from_str(alloc, word);
    }
    let lowered = word.to_ascii_lowercase(alloc)?;
    Text::from_str(alloc, lowered.as_str())
}

/// The number that these few digits represent.
fn short_number(digits: &[u8]) -> u64
    requires number { Spells digits.now sort.Number }
    requires short { length digits.now ≤ 18 }
    ensures { result ≡ digits_value 10 digits.now }
{
    let mut number = 0;
    for digit in digits {
        number = number * 10 + u64::from(*digit - b'0');
    }
    number
}

/// The number that the digits represent.
fn number_of(digits: &[u8]) -> u128
    requires { Spells digits.now sort.Number }
    ensures value { result ≡ digits_value 10 digits.now }
    ensures small { result < 10 ^ 38 }
{
    if digits.len() <= SHORT_DIGITS {
        return u128::from(short_number(digits));
    }
    let mut number = 0;
    for digit in digits {
        number = number * 10 + u128::from(*digit - b'0');
    }
    number
}

/// What a token says that is a word: a keyword, or a name in lower case.
fn word(alloc: Global, word: &str, byte: u32) -> Result<Terminal, NoMemory>
    ensures { IfOk result (λ t. t ≡ said sort.Word word.now byte) }
{
    match keyword_of(word.as_bytes()) {
        Some(class) => plain(alloc, class, byte),
        None => Ok(Terminal {
            class: Class::Name,
            text: lower(alloc, word)?,
            number: 0,
            byte,
        }),
    }
}

/// A token with nothing more to say than its class.
fn plain(alloc: Global, class: Class, byte: u32) -> Result<Terminal, NoMemory>
    ensures { IfOk result (λ t. t ≡ plain_at byte class) }
{
    Ok(Terminal {
        class,
        text: Text::from_str(alloc, "")?,
        number: 0,
        byte,
    })
}

/// What a token of the line says that has this kind, and stands from one byte up to another.
fn read_between(
    alloc: Global,
    line: &Text,
    kind: TokenKind,
    start: usize,
    end: usize,
) -> Result<Terminal, NoMemory>
    requires token { IsTokenOf line.now (token_at kind start end) }
    requires end { end < 2 ^ 32 }
    ensures said { IfOk result (λ t. t ≡ terminal_of line.now (token_at kind start end)) }
    ensures small { IfOk result (λ t. t.number < 10 ^ 38) }
{
    let text = line.as_str();
    let bytes = line.as_bytes();
    let byte = start as u32 + 1;
    match kind {
        TokenKind::Word => {
            let name = &text[start..end];
            word(alloc, name, byte)
        }
        TokenKind::Number => {
            let digits = &bytes[start..end];
            Ok(Terminal {
                class: Class::Number,
                text: Text::from_str(alloc, "")?,
                number: number_of(digits),
                byte,
            })
        }
        TokenKind::Text => {
            let quoted = &text[start..end];
            Ok(Terminal {
                class: Class::Quoted,
                text: unquote(alloc, quoted)?,
                number: 0,
                byte,
            })
        }
        TokenKind::Sign => {
            let sign = &bytes[start..end];
            plain(alloc, sign_class(sign), byte)
        }
    }
}

/// What a token of the line says, as a grammar sees it. Cost: linear in the token.
pub fn read_token(alloc: Global, line: &Text, token: &Token) -> Result<Terminal, NoMemory>
    requires { IsTokenOf line.now token.now }
    ensures said { IfOk result (λ t. t ≡ terminal_of line.now token.now) }
    ensures small { IfOk result (λ t. t.number < 10 ^ 38) }
{
    read_between(
        alloc,
        line,
        token.kind,
        token.start as usize,
        token.end as usize,
    )
}

/// What the tokens of the line say, in their order. Cost: linear in the line.
pub fn read_tokens(alloc: Global, line: &Text, tokens: &[Token]) -> Result<Terminals, NoMemory>
    requires { All (IsTokenOf line.now) tokens.now }
    ensures said { IfOk result (λ ts. ts ≡ map (terminal_of line.now) tokens.now) }
    ensures small { IfOk result (All (λ t. t.number < 10 ^ 38)) }
{
    let mut terminals = Terminals::from_vec(Vec::with_capacity(alloc, tokens.len())?);
    for token in tokens {
        terminals.push(read_token(alloc, line, token)?)?;
    }
    Ok(terminals)
}

/// What a line has, as a grammar sees it: what its tokens say, up to its end or up to the first piece that is no token.
/// Cost: linear in the line, in one pass.
pub fn line_terminals(alloc: Global, line: &Text) -> Result<TerminalScan, NoMemory>
    requires { length line.now < 2 ^ 32 - 1 }
    // The tokens are those that the line is cut into.
    ensures said { IfOk result (λ scan. scan.list ≡ map (terminal_of line.now) (cut line.now).0) }
    ensures stopped { IfOk result (λ scan. scan.stopped ≡ (cut line.now).1) }
    ensures small { IfOk result (λ scan. All (λ t. t.number < 10 ^ 38) scan.list) }
    // The piece that is no token stands in the line.
    ensures within { IfOk result (λ scan. IfSome scan.stopped (λ stop. stop < length line.now)) }
{
    // Most lines have no more tokens than two for each seven bytes.
    let room = line.as_bytes().len() * 2 / 7 + 1;
    let mut list = Terminals::from_vec(Vec::with_capacity(alloc, room)?);
    let mut at = 0;
    'each: loop {
        match next_token(line.as_bytes(), at) {
            Next::Token(kind, start, end) => {
                list.push(read_between(alloc, line, kind, start, end)?)?;
                at = end;
            }
            Next::End(stopped) => return Ok(TerminalScan { list, stopped }),
        }
    }
}
