//! The keywords of the language.

ghost use Rattle.std.specs.Prelude.{◌≡◌};
ghost use Rattle.std.specs.Str.{str_to_ascii_lowercase};
ghost use Rattle.lv_lexer.specs.Keywords.{spelled_by, in_lower_case, keyword_of};

use crate::terminals::Class;

// The keywords by their first letter, each with its spelling in lower case.

const WITH_A: [(&str, Class); 3] = [("and", Class::And), ("as", Class::As), ("asc", Class::Asc)];

const WITH_B: [(&str, Class); 2] = [("begin", Class::Begin), ("by", Class::By)];

const WITH_C: [(&str, Class); 3] = [
    ("commit", Class::Commit),
    ("count", Class::Count),
    ("create", Class::Create),
];

const WITH_D: [(&str, Class); 3] = [
    ("delete", Class::Delete),
    ("desc", Class::Desc),
    ("drop", Class::Drop),
];

const WITH_F: [(&str, Class); 1] = [("from", Class::From)];

const WITH_G: [(&str, Class); 1] = [("group", Class::Group)];

const WITH_I: [(&str, Class); 5] = [
    ("inner", Class::Inner),
    ("insert", Class::Insert),
    ("int", Class::Int),
    ("into", Class::Into),
    ("is", Class::Is),
];

const WITH_J: [(&str, Class); 1] = [("join", Class::Join)];

const WITH_K: [(&str, Class); 1] = [("key", Class::Key)];

const WITH_M: [(&str, Class); 2] = [("max", Class::Max), ("min", Class::Min)];

const WITH_N: [(&str, Class); 2] = [("not", Class::Not), ("null", Class::Null)];

const WITH_O: [(&str, Class); 3] = [
    ("on", Class::On),
    ("or", Class::Or),
    ("order", Class::Order),
];

const WITH_P: [(&str, Class); 1] = [("primary", Class::Primary)];

const WITH_R: [(&str, Class); 1] = [("rollback", Class::Rollback)];

const WITH_S: [(&str, Class); 4] = [
    ("select", Class::Select),
    ("set", Class::Set),
    ("show", Class::Show),
    ("sum", Class::Sum),
];

const WITH_T: [(&str, Class); 3] = [
    ("table", Class::Table),
    ("tasks", Class::Tasks),
    ("text", Class::Text),
];

const WITH_U: [(&str, Class); 1] = [("update", Class::Update)];

const WITH_V: [(&str, Class); 2] = [("values", Class::Values), ("view", Class::View)];

const WITH_W: [(&str, Class); 1] = [("where", Class::Where)];

/// The class of the first of these that spells the word, in any case.
fn spelled_by(table: &[(&str, Class)], word: &[u8]) -> Option<Class>
    ensures { result ≡ spelled_by (in_lower_case table.now) (str_to_ascii_lowercase word.now) }
{
    for (spelling, class) in table {
        if word.eq_ignore_ascii_case(spelling.as_bytes()) {
            return Some(*class);
        }
    }
    None
}

/// The keyword that the word is, in any case. Cost: at most five comparisons, with the keywords of the same first letter.
pub(crate) fn keyword_of(word: &[u8]) -> Option<Class>
    ensures { result ≡ keyword_of (str_to_ascii_lowercase word.now) }
{
    if word.is_empty() {
        return None;
    }
    match word[0].to_ascii_lowercase() {
        b'a' => spelled_by(&WITH_A, word),
        b'b' => spelled_by(&WITH_B, word),
        b'c' => spelled_by(&WITH_C, word),
        b'd' => spelled_by(&WITH_D, word),
        b'f' => spelled_by(&WITH_F, word),
        b'g' => spelled_by(&WITH_G, word),
        b'i' => spelled_by(&WITH_I, word),
        b'j' => spelled_by(&WITH_J, word),
        b'k' => spelled_by(&WITH_K, word),
        b'm' => spelled_by(&WITH_M, word),
        b'n' => spelled_by(&WITH_N, word),
        b'o' => spelled_by(&WITH_O, word),
        b'p' => spelled_by(&WITH_P, word),
        b'r' => spelled_by(&WITH_R, word),
        b's' => spelled_by(&WITH_S, word),
        b't' => spelled_by(&WITH_T, word),
        b'u' => spelled_by(&WITH_U, word),
        b'v' => spelled_by(&WITH_V, word),
        b'w' => spelled_by(&WITH_W, word),
        _ => None,
    }
}
