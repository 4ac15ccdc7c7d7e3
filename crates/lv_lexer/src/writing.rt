//! Tokens written to a line, so that they are read again.

ghost use Rattle.std.specs.Prelude.{◌≡◌, ℕ, ◌++◌, ◌<◌, ◌^◌, Bool, true, List, None, OnOk, OnErr, IfOk, IsUtf8, decimal};
ghost use Rattle.std.specs.Str.{is_utf8};
ghost use Rattle.lv_values.specs.Print.{doubled, quoted};
ghost use Rattle.std.specs.Str.Parse.{digits_value};
ghost use Rattle.lv_lexer.specs.declared.token.Token.{Token};
ghost use Rattle.lv_lexer.specs.declared.token.TokenKind.TheVariants as sort;
ghost use Rattle.lv_lexer.specs.Meaning.{unquoted};
ghost use Rattle.lv_lexer.specs.Scan.{Scans, Spells};
ghost use Rattle.lv_lexer.specs.Written as spec;

use itoa::Buffer;
use lv_values::{Bytes, NoMemory, Text, TextFault};
use std::alloc::Global;
use std::marker::Model;

/// A line that is being written. One space stands between a word and a word or number that follows it, and no other
/// space. Contracts see the line so far, and whether a word stands at its end.
#[derive(Drop)]
pub struct Writer {
    line: Bytes,
    after_word: bool,
}

impl Model for Writer {
    ghost use Rattle.std.specs.Prelude.{◌≡◌, true};
    ghost use Rattle.std.specs.Str.{is_utf8};
    ghost use Rattle.lv_lexer.specs.Written.{Written, written_code};

    ghost Value = { Written };

    ghost coded = { written_code };

    ghost view = { λ w. record { line = w.line; after_word = w.after_word } };

    ghost invariant = { λ w. is_utf8 w.line ≡ true };
}

/// Appends the bytes, which are UTF-8, behind a space where one is wanted.
fn append(line: &mut Bytes, space: bool, bytes: &[u8]) -> Result<(), NoMemory>
    requires { IsUtf8 bytes.now }
    ensures added { OnOk result (line.new ≡ line.old ++ spec.space_if space ++ bytes.now) }
    ensures kept { OnErr result (line.new ≡ line.old) }
    ensures utf8 { is_utf8 line.old ≡ true → is_utf8 line.new ≡ true }
{
    if !space {
        return line.extend_from_slice(bytes);
    }
    let before = line.len();
    line.push(b' ')?;
    let appended = line.extend_from_slice(bytes);
    if appended.is_err() {
        line.truncate(before);
    }
    appended
}

/// The bytes, each quote twice.
fn double(alloc: Global, bytes: &[u8]) -> Result<Bytes, NoMemory>
    ensures { IfOk result (λ out. out ≡ doubled bytes.now) }
{
    let mut out = Bytes::new(alloc);
    for byte in bytes {
        if *byte == b'\'' {
            out.push(b'\'')?;
        }
        out.push(*byte)?;
    }
    Ok(out)
}

/// The bytes between quotes, each quote of theirs twice.
fn quote(alloc: Global, bytes: &[u8]) -> Result<Bytes, NoMemory>
    ensures { IfOk result (λ out. out ≡ quoted bytes.now) }
{
    let mut out = Bytes::new(alloc);
    out.push(b'\'')?;
    out.append(double(alloc, bytes)?)?;
    out.push(b'\'')?;
    Ok(out)
}

impl Writer {
    /// An empty line. It takes no memory.
    pub fn new(alloc: Global) -> Writer
        ensures { result ≡ spec.nothing }
    {
        Writer {
            line: Bytes::new(alloc),
            after_word: false,
        }
    }

    /// The line. Cost: linear.
    pub fn finish(self, alloc: Global) -> Result<Text, NoMemory>
        ensures { IfOk result (λ text. text ≡ self.line) }
    {
        let Writer {
            line,
            after_word: _,
        } = self;
        match Text::from_bytes(alloc, line.as_slice()) {
            Ok(text) => Ok(text),
            Err(TextFault::NoMemory) => Err(NoMemory),
            Err(TextFault::NotUtf8) => unreachable!(),
        }
    }

    /// Writes a word. Want of memory changes nothing, here and at the other calls.
    pub fn word(&mut self, text: &str) -> Result<(), NoMemory>
        ensures written { OnOk result (self.new ≡ spec.with_token self.old (spec.word text.now)) }
        ensures kept { OnErr result (self.new ≡ self.old) }
    {
        append(&mut self.line, self.after_word, text.as_bytes())?;
        self.after_word = true;
        Ok(())
    }

    /// Writes a number in decimal.
    pub fn number(&mut self, n: u128) -> Result<(), NoMemory>
        ensures written { OnOk result (self.new ≡ spec.with_token self.old (spec.number n)) }
        ensures kept { OnErr result (self.new ≡ self.old) }
    {
        let mut buffer = Buffer::new();
        append(&mut self.line, self.after_word, buffer.format(n).as_bytes())?;
        self.after_word = false;
        Ok(())
    }

    /// Writes a text between quotes, each quote of its own twice.
    pub fn text(&mut self, alloc: Global, text: &Text) -> Result<(), NoMemory>
        ensures written { OnOk result (self.new ≡ spec.with_token self.old (spec.text text.now)) }
        ensures kept { OnErr result (self.new ≡ self.old) }
    {
        let quoted = quote(alloc, text.as_bytes())?;
        append(&mut self.line, false, quoted.as_slice())?;
        self.after_word = false;
        Ok(())
    }

    /// Writes a sign.
    pub fn sign(&mut self, text: &str) -> Result<(), NoMemory>
        ensures written { OnOk result (self.new ≡ spec.with_token self.old (spec.sign text.now)) }
        ensures kept { OnErr result (self.new ≡ self.old) }
    {
        append(&mut self.line, false, text.as_bytes())?;
        self.after_word = false;
        Ok(())
    }
}

/// What is written is read again: the line is cut into the tokens that were written, each with its spelling, and is then
/// over.
pub fn written_is_read()
    ensures { (xs : List spec.Lexeme) → spec.CanBeRead xs
        → (ts : List Token) × Scans 0 (spec.line_of xs) ts None × spec.AreWritten (spec.line_of xs) ts xs }
{}

/// A number of at most 38 digits and any text spell a token that says them.
pub fn spelling_says_value()
    ensures number { (n : ℕ) → n < 10 ^ 38 → Spells (decimal n) sort.Number × (digits_value 10 (decimal n) ≡ n) }
    ensures text { (t : List ℕ) → Spells (quoted t) sort.Text × (unquoted (quoted t) ≡ t) }
{}
