//! Names, and the sessions that have them.
ghost use Rattle.std.specs.Prelude.{◌≡◌, ◌≤◌, length, IfOk, true};
ghost use Rattle.std.specs.Str.{bytes_eq, str_to_ascii_lowercase};
ghost use Rattle.std.specs.List.{list_all, list_any};
ghost use Rattle.lv_values.specs.Names as letters;
ghost use Rattle.lv_plain.specs.SessionNames as names;
ghost use Rattle.lv_lines.specs.SessionName as spec;

use crate::script_line::reads;
use lv_plain::Script;
use lv_values::{NoMemory, Text};
use std::alloc::Global;

fn is_letter(byte: u8) -> bool
    ensures { result ≡ letters.is_letter byte }
{
    byte.is_ascii_alphabetic() || byte == b'_'
}

fn is_word_byte(byte: u8) -> bool
    ensures { result ≡ letters.is_word_byte byte }
{
    is_letter(byte) || byte.is_ascii_digit()
}

fn all_continue(bytes: &[u8]) -> bool
    ensures { result ≡ list_all letters.is_word_byte bytes.now }
{
    bytes.iter().all(|byte| is_word_byte(*byte))
}

fn is_spelled(word: &[u8]) -> bool
    ensures { result ≡ spec.is_spelled word.now }
{
    match word {
        [] => false,
        [first, others @ ..] => is_letter(*first) && all_continue(others) && others.len() <= 31,
    }
}

/// Whether the word is a name.
pub(crate) fn is_name(word: &[u8]) -> bool
    ensures { result ≡ spec.is_name word.now }
{
    is_spelled(word)
}

/// The name in lower case. The word is a name.
pub(crate) fn lowered(alloc: Global, word: &[u8]) -> Result<Text, NoMemory>
    requires { spec.is_name word.now ≡ true }
    ensures { IfOk result (λ name. name ≡ str_to_ascii_lowercase word.now) }
{
    match std::str::from_utf8(word) {
        Ok(text) => {
            let mut name = String::from_str(alloc, text)?;
            name.make_ascii_lowercase();
            Text::from_str(alloc, name.as_str())
        }
        Err(_) => unreachable!(),
    }
}

fn is_reserved_word(word: &[u8]) -> bool
    ensures { result ≡ list_any (bytes_eq (str_to_ascii_lowercase word.now)) names.reserved_words }
{
    reads(word, b"setup")
        || reads(word, b"fetch")
        || reads(word, b"install")
        || reads(word, b"work")
        || reads(word, b"mark")
        || reads(word, b"clean")
        || reads(word, b"force")
}

fn is_worker_name(word: &[u8]) -> bool
    ensures { result ≡ list_any (bytes_eq (str_to_ascii_lowercase word.now)) names.worker_names }
{
    reads(word, b"w1")
        || reads(word, b"w2")
        || reads(word, b"w3")
        || reads(word, b"w4")
        || reads(word, b"w5")
        || reads(word, b"w6")
        || reads(word, b"w7")
        || reads(word, b"w8")
}

/// Whether a session may have the name, in lower case.
pub(crate) fn is_session_name(word: &[u8]) -> bool
    ensures { result ≡ names.is_session_name (str_to_ascii_lowercase word.now) }
{
    is_name(word) && !is_reserved_word(word) && !is_worker_name(word)
}

/// The number of the session of this name, from 1. Cost: one comparison for each session.
pub(crate) fn session_of(sessions: &[Script], word: &[u8]) -> Option<u32>
    requires { length sessions.now ≤ 16 }
    ensures { result ≡ spec.session_of sessions.now word.now }
{
    for (i, session) in sessions.iter().enumerate() {
        if reads(word, session.name.as_bytes()) {
            return Some(i as u32 + 1);
        }
    }
    None
}
