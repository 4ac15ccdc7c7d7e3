//! Laws of the names that a transcript is written with, stated as contracts.
ghost use Rattle.std.specs.Prelude.{◌≡◌, ◌++◌, ℕ, List, [], ◌∷◌, map};
ghost use Rattle.lv_schema.specs.World.{Visible};
ghost use Rattle.lv_plain.specs.declared.entry.Entry.{Entry};
ghost use Rattle.lv_plain.specs.declared.program.Program.{Program};
ghost use Rattle.lv_plain.specs.Named.{AreNamed, Counts, IsNamedEntry, in_use};
ghost use Rattle.lv_plain.specs.SessionNames.{session_names};
ghost use Rattle.lv_lines.specs.declared.names.Names.{Names};
ghost use Rattle.lv_lines.specs.Entries.{HasNames, HaveNames, numbers_in_use};
ghost use Rattle.lv_lines.specs.Transcript.{entry_text, text_of};
ghost use Rattle.lv_namelaw.specs.MoreNames.{AreAtMost, IsFront};

/// A transcript may be written entry by entry, each under the names that there are when it is made: tables and views
/// are only added, so that the text is the one under the names that there are at the end. Cost: none, it does nothing.
pub fn more_names_give_the_same_text()
    // The text of an entry that has its names is the same under more names.
    ensures entry { (names more : Names) (e : Entry) → IsNamedEntry (numbers_in_use names) e → names.sessions ≡ more.sessions
        → IsFront names.tables more.tables → IsFront names.views more.views → entry_text names e ≡ entry_text more e }
    // So is that of entries.
    ensures entries { (names more : Names) (es : List Entry) → AreNamed (numbers_in_use names) es → names.sessions ≡ more.sessions
        → IsFront names.tables more.tables → IsFront names.views more.views → text_of names es ≡ text_of more es }
    // The text of entries is that of the first of them, and then that of the others.
    ensures joined { (names : Names) (es fs : List Entry) → text_of names (es ++ fs) ≡ text_of names es ++ text_of names fs }
    ensures one { (names : Names) (e : Entry) → text_of names (e ∷ []) ≡ entry_text names e }
    // What names what is in use does so where more is in use.
    ensures entry_named { (n m : Counts) (e : Entry) → IsNamedEntry n e → AreAtMost n m → IsNamedEntry m e }
    ensures entries_named { (n m : Counts) (es : List Entry) → AreNamed n es → AreAtMost n m → AreNamed m es }
    // So each of these entries can be written where there are names for all that is in use.
    ensures each { (n : Counts) (names : Names) (es : List Entry) (e : Entry) (fs : List Entry) → AreNamed n (es ++ e ∷ fs)
        → AreAtMost n (numbers_in_use names) → HasNames names e }
    // There are, where the names are those of the setup and the sessions, of the tables and of the views.
    ensures all_named { (program : Program) (s : Visible) (setup : List ℕ) (names : Names) → names.sessions ≡ setup ∷ session_names program
        → names.tables ≡ map (λ t. t.name) s.tables → names.views ≡ map (λ v. v.name) s.views
        → AreAtMost (in_use program s) (numbers_in_use names) }
{}
