//! The text of a transcript, and the entries that a text is.
ghost use Rattle.std.specs.Prelude.{◌≡◌, ◌++◌, List, Some, OnOk, OnErr, IfOk, IfSome};
ghost use Rattle.lv_plain.specs.declared.entry.Entry.{Entry as AnEntry};
ghost use Rattle.lv_lines.specs.Entries.{IsNames, HasNames, HaveNames};
ghost use Rattle.lv_lines.specs.EntryForms.{AreEntries};
ghost use Rattle.lv_lines.specs.Transcript.{entry_text, text_of};

use crate::entry_forms::{AllEntries, AnyEntry};
use crate::names::Names;
use lv_forms::{Form, print_all, read_whole};
use lv_plain::{Entries, Entry};
use lv_values::{Bytes, NoMemory};
use std::alloc::Global;

/// Appends the lines of an entry. Want of memory changes nothing. Cost: linear in the text.
pub fn print_entry(names: &Names, entry: &Entry, out: &mut Bytes) -> Result<(), NoMemory>
    requires { HasNames names.now entry.now }
    ensures appended { OnOk result (out.new ≡ out.old ++ entry_text names.now entry.now) }
    ensures kept { OnErr result (out.new ≡ out.old) }
{
    let before = out.len();
    let printed = AnyEntry { names }.print(entry, out);
    if printed.is_err() {
        out.truncate(before);
    }
    printed
}

/// The text of the entries. Each number of a session, a table or a view in them has a name. Cost: linear in the text.
pub fn print_entries(alloc: Global, names: &Names, entries: &[Entry]) -> Result<Bytes, NoMemory>
    requires { HaveNames names.now entries.now }
    ensures { IfOk result (λ text. text ≡ text_of names.now entries.now) }
{
    let mut out = Bytes::new(alloc);
    print_all(&AnyEntry { names }, entries, &mut out)?;
    Ok(out)
}

/// The entries whose text it is, and `None` exactly where there are none. Cost: linear in the bytes, and for each name
/// in them one comparison with each name of its list.
pub fn read_entries(alloc: Global, names: &Names, bytes: &[u8]) -> Result<Option<Entries>, NoMemory>
    requires { IsNames names.now }
    // What is found has this text.
    ensures found { IfOk result (λ found. IfSome found (λ entries. AreEntries names.now entries × (bytes.now ≡ text_of names.now entries))) }
    // Entries with this text are found, and so no others have it.
    ensures only { (entries : List AnEntry) → AreEntries names.now entries → bytes.now ≡ text_of names.now entries
        → IfOk result (λ found. found ≡ Some entries) }
{
    read_whole(alloc, &AllEntries { names }, bytes)
}
