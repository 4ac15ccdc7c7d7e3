//! Tokens that are written.

use lv_lexer::Writer;
use lv_values::{NoMemory, Text};
use std::alloc::Global;

/// Writes a word, a number, a text, a sign and a word.
fn write_line(alloc: Global, writer: &mut Writer) -> Result<(), NoMemory> {
    writer.word("limit")?;
    writer.number(18)?;
    let text = Text::from_str(alloc, "it's")?;
    writer.text(alloc, &text)?;
    writer.sign("(")?;
    writer.word("x")
}

/// What is then written.
fn written(alloc: Global) -> Result<Text, NoMemory> {
    let mut writer = Writer::new(alloc);
    write_line(alloc, &mut writer)?;
    writer.finish(alloc)
}

/// Whether this is written.
fn is_written(alloc: Global, wanted: &str) -> Result<bool, NoMemory> {
    Ok(written(alloc)?.as_str() == wanted)
}

#[test]
fn tokens_are_written(rt: HostRuntime) {
    assert!(rt; is_written(rt.alloc(), "limit 18'it''s'(x") == Ok(true));
}
