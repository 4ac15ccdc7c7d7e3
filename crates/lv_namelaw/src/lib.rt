//! Names of a transcript: where there are more of them, entries have the same text.
#![tactic(auto)]

mod name_laws;

pub use name_laws::more_names_give_the_same_text;
