//! Which words are names.
ghost use Rattle.std.specs.Prelude.{◌≡◌, map};
ghost use Rattle.std.specs.List.{list_all};
ghost use Rattle.lv_values.specs.Names as names;

/// The words of the language.
const KEYWORDS: [&str; 40] = [
    "and", "as", "asc", "begin", "by", "commit", "count", "create", "delete", "desc", "drop",
    "from", "group", "inner", "insert", "int", "into", "is", "join", "key", "max", "min", "not",
    "null", "on", "or", "order", "primary", "rollback", "select", "set", "show", "sum", "table",
    "tasks", "text", "update", "values", "view", "where",
];

fn begins_name(byte: u8) -> bool
    ensures { result ≡ names.begins_name byte }
{
    byte.is_ascii_lowercase() || byte == b'_'
}

fn continues_name(byte: u8) -> bool
    ensures { result ≡ names.continues_name byte }
{
    begins_name(byte) || byte.is_ascii_digit()
}

fn all_continue(bytes: &[u8]) -> bool
    ensures { result ≡ list_all names.continues_name bytes.now }
{
    bytes.iter().all(|byte| continues_name(*byte))
}

fn is_lower_name(word: &[u8]) -> bool
    ensures { result ≡ names.is_lower_name word.now }
{
    match word {
        [] => false,
        [first, others @ ..] => begins_name(*first) && all_continue(others) && word.len() <= 32,
    }
}

fn is_among(word: &[u8], words: &[&str]) -> bool
    ensures { result ≡ names.has_name word.now (map (λ w. w.now) words.now) }
{
    match words {
        [] => false,
        [first, others @ ..] => word == first.as_bytes() || is_among(word, others),
    }
}

fn is_keyword(word: &[u8]) -> bool
    ensures { result ≡ names.has_name word.now names.keywords }
{
    is_among(word, &KEYWORDS)
}

/// Whether a table, a view or a column may be called so. Cost: one comparison for each keyword.
pub(crate) fn is_name(word: &[u8]) -> bool
    ensures { result ≡ names.is_name word.now }
{
    is_lower_name(word) && !is_keyword(word)
}
