//! Words, names, texts and values, as they are read.
ghost use Rattle.std.specs.Prelude.{◌≡◌, ◌==◌, ◌≤◌, ◌&&◌, position, not, true, false, List, ℕ, Some, IfOk, length};
ghost use Rattle.std.specs.List.{list_all};
ghost use Rattle.std.specs.Str.{bytes_eq, is_utf8};
ghost use Rattle.lv_values.specs.Names as names;
ghost use Rattle.lv_reading.specs.Reading.{Gives};
ghost use Rattle.lv_lines.specs.Words as read;

use lv_plain::Texts;
use lv_reading::{Cursor, Part, Stop, read_until};
use lv_values::{Text, TextFault, Value};
use std::alloc::Global;

fn begins_name(byte: u8) -> bool
    ensures { result ≡ names.begins_name byte }
{
    byte.is_ascii_lowercase() || byte == b'_'
}

fn continues_name(byte: u8) -> bool
    ensures { result ≡ names.continues_name byte }
{
    begins_name(byte) || byte.is_ascii_digit()
}

/// The number of letters, digits and _ that come next.
pub(crate) fn word_len(bytes: &[u8]) -> usize
    ensures value { result ≡ read.word_len bytes.now }
    ensures within { result ≤ length bytes.now }
{
    bytes
        .iter()
        .take_while(|byte| continues_name(**byte))
        .count()
}

/// Whether all bytes go on a name.
fn all_continue(bytes: &[u8]) -> bool
    ensures { result ≡ list_all names.continues_name bytes.now }
{
    bytes.iter().all(|byte| continues_name(*byte))
}

/// Whether it is a word.
fn is_word(word: &[u8]) -> bool
    ensures { result ≡ names.is_word word.now }
{
    match word {
        [] => false,
        [first, others @ ..] => begins_name(*first) && all_continue(others),
    }
}

/// Whether no byte is a line feed.
fn is_one_line(bytes: &[u8]) -> bool
    ensures { result ≡ list_all (λ b. not (b == 10)) bytes.now }
{
    bytes.iter().all(|byte| *byte != b'\n')
}

/// The bytes as text. `Bad` comes where they are not UTF-8.
fn utf8(alloc: Global, bytes: &[u8]) -> Result<Text, Stop>
    ensures text { IfOk result (λ text. (text ≡ bytes.now) × (is_utf8 bytes.now ≡ true)) }
    ensures bad { result ≡ Err Stop.Bad → is_utf8 bytes.now ≡ false }
{
    match Text::from_bytes(alloc, bytes) {
        Ok(text) => Ok(text),
        Err(TextFault::NotUtf8) => Err(Stop::Bad),
        Err(TextFault::NoMemory) => Err(Stop::NoMemory),
    }
}

/// The word itself. `Bad` comes where it is none.
#[tactic(auto, unfolding(crate::specs::Words::own))]
fn own(alloc: Global, word: &[u8]) -> Result<Text, Stop>
    ensures { (rest : List ℕ) → Gives (read.own word.now rest) result rest }
{
    if !is_word(word) {
        return Err(Stop::Bad);
    }
    utf8(alloc, word)
}

/// The text itself. `Bad` comes where it has a line feed or is not UTF-8.
#[tactic(auto, unfolding(crate::specs::Words::text_of))]
fn text_of(alloc: Global, bytes: &[u8]) -> Result<Text, Stop>
    ensures { (rest : List ℕ) → Gives (read.text_of bytes.now rest) result rest }
{
    if !is_one_line(bytes) {
        return Err(Stop::Bad);
    }
    utf8(alloc, bytes)
}

/// Takes the letters, digits and _ that come next.
#[tactic(auto, unfolding(crate::specs::Words::word, lv_reading::specs::Reading::run))]
fn word<'a>(cursor: &mut Cursor<'a>) -> &'a [u8]
    ensures { read.word cursor.old ≡ Some (result.now, cursor.new) }
{
    let count = word_len(cursor.rest());
    cursor.take(count)
}

/// Whether a digit begins the second word.
pub(crate) fn is_numbered(cursor: &Cursor<'_>) -> bool
    ensures { result ≡ read.is_numbered cursor.now }
{
    let rest = cursor.rest();
    match rest.get(word_len(rest) + 1) {
        None => false,
        Some(byte) => byte.is_ascii_digit(),
    }
}

/// The place of the name. Cost: one comparison for each name.
fn position_of(names: &[Text], word: &[u8]) -> Option<usize>
    ensures { result ≡ position (λ name. bytes_eq name word.now) names.now }
{
    names.iter().position(|name| name.as_bytes() == word)
}

/// The number of the name: its place, from 0. `Bad` comes where it is none of the names.
#[tactic(auto, unfolding(crate::specs::Words::place_in))]
fn place_in(names: &Texts, word: &[u8]) -> Result<u32, Stop>
    ensures { (rest : List ℕ) → Gives (read.place_in names.now word.now rest) result rest }
{
    match position_of(names.as_slice(), word) {
        None => Err(Stop::Bad),
        Some(place) => {
            if place > u32::MAX as usize {
                return Err(Stop::Bad);
            }
            Ok(place as u32)
        }
    }
}

/// Reads a name of these.
#[tactic(auto, unfolding(crate::specs::Words::name_in))]
pub(crate) fn name_in(names: &Texts, cursor: &mut Cursor<'_>) -> Result<u32, Stop>
    ensures { Gives (read.name_in names.now cursor.old) result cursor.new }
{
    place_in(names, word(cursor))
}

/// Reads a word that stands for itself.
#[tactic(auto, unfolding(crate::specs::Words::own_word))]
pub(crate) fn own_word(alloc: Global, cursor: &mut Cursor<'_>) -> Result<Text, Stop>
    ensures { Gives (read.own_word cursor.old) result cursor.new }
{
    own(alloc, word(cursor))
}

/// A byte of a text between quotes, two quotes being one; or the quote at its end.
struct QuotedByte;

impl Part<Option<u8>> for QuotedByte {
    ghost reader = { λ _. read.quoted_byte };

    #[tactic(auto, unfolding(crate::specs::Words::quoted_byte))]
    fn read(&self, _alloc: Global, cursor: &mut Cursor<'_>) -> Result<Option<u8>, Stop> {
        let byte = cursor.byte()?;
        if byte != b'\'' {
            return Ok(Some(byte));
        }
        if !cursor.sees(b"'") {
            return Ok(None);
        }
        cursor.expect(b"'")?;
        Ok(Some(b'\''))
    }
}

/// Reads a text up to the quote at its end.
#[tactic(auto, unfolding(crate::specs::Words::quoted))]
fn quoted(alloc: Global, cursor: &mut Cursor<'_>) -> Result<Text, Stop>
    ensures { Gives (read.quoted cursor.old) result cursor.new }
{
    let bytes = read_until(alloc, &QuotedByte, cursor)?;
    text_of(alloc, bytes.as_slice())
}

#[tactic(auto, unfolding(crate::specs::Words::text_value))]
fn text_value(alloc: Global, cursor: &mut Cursor<'_>) -> Result<Value, Stop>
    ensures { Gives (read.text_value cursor.old) result cursor.new }
{
    cursor.expect(b"'")?;
    let text = quoted(alloc, cursor)?;
    Ok(Value::Text(text))
}

/// Reads a value: a number, or a text between quotes.
#[tactic(auto, unfolding(crate::specs::Words::value))]
pub(crate) fn any_value(alloc: Global, cursor: &mut Cursor<'_>) -> Result<Value, Stop>
    ensures { Gives (read.value cursor.old) result cursor.new }
{
    if cursor.sees(b"'") {
        text_value(alloc, cursor)
    } else {
        let number = cursor.number()?;
        Ok(Value::Num(number))
    }
}
