//! The lines of a script, and the words of a line.
ghost use Rattle.std.specs.Prelude.{◌≡◌, ◌≢◌, ◌∷◌, ◌<◌, ◌≤◌, length, map, IfOk, MatchOption, true, false};
ghost use Rattle.std.specs.Str.{is_utf8};
ghost use Rattle.std.specs.List.{All, slice_split};
ghost use Rattle.lv_values.specs.Names as names;
ghost use Rattle.lv_lines.specs.ScriptLine as spec;

use lv_values::NoMemory;
use memchr::memchr;
use std::alloc::Global;

/// The line without the carriage return at its end.
pub(crate) fn without_return(line: &[u8]) -> &[u8]
    ensures { result.now ≡ spec.without_return line.now }
{
    match line {
        [front @ .., last] if *last == b'\r' => front,
        _ => line,
    }
}

/// How many bytes stand before the first line feed.
#[tactic(auto, using(crate::proofs::Feeds::met, crate::proofs::Feeds::not_met))]
fn piece_len(bytes: &[u8]) -> usize
    ensures value { result ≡ spec.piece_len bytes.now }
    ensures within { result ≤ length bytes.now }
{
    match memchr(b'\n', bytes) {
        Some(at) => at,
        None => bytes.len(),
    }
}

/// The first piece of the bytes, and what stands behind its line feed. There is a byte.
pub(crate) fn first_piece(bytes: &[u8]) -> (&[u8], &[u8])
    requires { 0 < length bytes.now }
    ensures first { spec.pieces_of bytes.now ≡ result.0.now ∷ spec.pieces_of result.1.now }
    ensures shorter { length result.1.now < length bytes.now }
    ensures no_feed { All (λ b. b ≢ 10) result.0.now }
{
    let (piece, rest) = bytes.split_at(piece_len(bytes));
    match rest {
        [] => (piece, rest),
        [_, behind @ ..] => (piece, behind),
    }
}

fn is_blank(byte: u8) -> bool
    ensures { result ≡ names.is_blank byte }
{
    byte == b' ' || byte == b'\t'
}

/// How many blanks the line begins with.
fn indent_len(line: &[u8]) -> usize
    ensures value { result ≡ spec.indent_len line.now }
    ensures within { result ≤ length line.now }
{
    line.iter().take_while(|byte| is_blank(**byte)).count()
}

/// How many bytes the first word has.
fn word_len(text: &[u8]) -> usize
    ensures value { result ≡ spec.word_len text.now }
    ensures within { result ≤ length text.now }
{
    text.iter().take_while(|byte| !is_blank(**byte)).count()
}

/// What stands behind the blanks that a line begins with.
pub(crate) fn unindented(line: &[u8]) -> &[u8]
    ensures { result.now ≡ spec.unindented line.now }
{
    line.split_at(indent_len(line)).1
}

/// The first word, and what stands behind it.
pub(crate) fn first_word(text: &[u8]) -> (&[u8], &[u8])
    ensures word { result.0.now ≡ spec.first_word text.now }
    ensures rest { result.1.now ≡ spec.behind_word text.now }
{
    text.split_at(word_len(text))
}

/// The parts between blanks.
fn blank_parts(alloc: Global, bytes: &[u8]) -> Result<Vec<&[u8]>, NoMemory>
    ensures { IfOk result (λ parts. map (λ l. l.now) parts.items ≡ slice_split names.is_blank bytes.now) }
{
    Ok(bytes.split(|byte| is_blank(*byte)).collect(alloc)?)
}

fn has_bytes(part: &[u8]) -> bool
    ensures { result ≡ spec.has_bytes part.now }
{
    !part.is_empty()
}

/// The words. Cost: linear.
pub(crate) fn words_of(alloc: Global, bytes: &[u8]) -> Result<Vec<&[u8]>, NoMemory>
    ensures { IfOk result (λ words. map (λ w. w.now) words.items ≡ spec.words_of bytes.now) }
{
    let parts = blank_parts(alloc, bytes)?;
    let mut words = Vec::new(alloc);
    for part in &parts {
        if has_bytes(*part) {
            words.push(*part)?;
        }
    }
    Ok(words)
}

/// Whether the word is this one, in any case.
pub(crate) fn reads(word: &[u8], text: &[u8]) -> bool
    ensures { result ≡ spec.reads word.now text.now }
{
    word.eq_ignore_ascii_case(text)
}

/// Whether a text behind its blanks is nothing, or a comment.
pub(crate) fn is_silent(text: &[u8]) -> bool
    ensures { result ≡ spec.is_silent text.now }
{
    match text {
        [] => true,
        [first, second, ..] => *first == b'-' && *second == b'-',
        _ => false,
    }
}

/// Whether a text behind its blanks is a section line.
pub(crate) fn is_section(text: &[u8]) -> bool
    ensures { result ≡ spec.is_section text.now }
{
    match text {
        [first, ..] => *first == b'@',
        _ => false,
    }
}

/// The line as text, where it is UTF-8. Cost: a look at each 64 bytes where all are ASCII.
pub(crate) fn text_of(line: &[u8]) -> Option<&str>
    ensures { MatchOption result (is_utf8 line.now ≡ false) (λ text. (text.now ≡ line.now) × (is_utf8 line.now ≡ true)) }
{
    if simdutf8::is_utf8_baseline(line) {
        Some(unsafe { std::str::from_utf8_unchecked(line) })
    } else {
        None
    }
}
