//! Laws of transcripts, stated as contracts.
ghost use Rattle.std.specs.Prelude.{◌≡◌, ◌∷◌, ℕ, List, true, codes};
ghost use Rattle.lv_plain.specs.SessionNames.{AreSessionNames};
ghost use Rattle.lv_plain.specs.declared.entry.Entry.{Entry as AnEntry};
ghost use Rattle.lv_values.specs.Names.{is_lower_name, is_name};
ghost use Rattle.lv_lines.specs.Entries.{IsWord, AreWords, IsNames};
ghost use Rattle.lv_lines.specs.EntryForms.{AreEntries};
ghost use Rattle.lv_lines.specs.Transcript.{text_of};

use crate::names::Names;

/// The text determines the entries.
pub fn text_tells_entries(names: &Names)
    requires { IsNames names.now }
    ensures { (a b : List AnEntry) → AreEntries names.now a → AreEntries names.now b → text_of names.now a ≡ text_of names.now b → a ≡ b }
{}

/// The names of programs, and of tables and views, are words; and those of a program's sessions, behind that of
/// the setup, are words that differ.
pub fn names_are_words()
    ensures programs { (name : List ℕ) → is_lower_name name ≡ true → IsWord name }
    ensures schema { (name : List ℕ) → is_name name ≡ true → IsWord name }
    ensures sessions { (names : List (List ℕ)) → AreSessionNames names → AreWords (codes "setup" ∷ names) }
{}
