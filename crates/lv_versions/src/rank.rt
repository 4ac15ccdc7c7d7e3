//! Ranks of rows, by which a search comes near its place.
ghost use Rattle.std.specs.Prelude.{◌≡◌, ◌/◌, ◌∷◌, [], pos, slice_index_or};
ghost use Rattle.std.specs.Int.{saturate_signed, w64};
ghost use Rattle.lv_versions.specs.Ranks.{first_bytes, row_rank, value_rank};

use lv_values::{Row, Value};

/// How many bytes of a text tell its rank.
const BYTES: usize = 8;

/// The number itself where 64 bits hold it, or else the nearest that they hold.
fn clipped(n: i128) -> i64
    ensures { result ≡ saturate_signed w64 n }
{
    match i64::try_from(n) {
        Ok(rank) => rank,
        Err(_) => { if n < 0 { i64::MIN } else { i64::MAX } }
    }
}

/// The byte at a place, 0 past the end.
fn byte_at(bytes: &[u8], at: usize) -> u8
    ensures { result ≡ slice_index_or bytes.now at 0 }
{
    match bytes.get(at) {
        Some(byte) => *byte,
        None => 0,
    }
}

/// A number that does not fall where texts rise: half of their first bytes.
fn rank_of_text(bytes: &[u8]) -> i64
    ensures { result ≡ pos (first_bytes 8 bytes.now / 2) }
{
    let mut rank: u64 = 0;
    for i in 0..BYTES {
        rank = rank * 256 + byte_at(bytes, i) as u64;
    }
    (rank / 2) as i64
}

/// A number that does not fall where numbers rise, or where texts do: the number itself where 64 bits hold it.
fn rank_of_value(value: &Value) -> i64
    ensures { result ≡ value_rank value.now }
{
    match value {
        Value::Num(n) => clipped(*n),
        Value::Text(text) => rank_of_text(text.as_bytes()),
    }
}

/// A number that does not fall along rows in the order of their values in some columns, where each of these has numbers
/// alone or texts alone. It tells a search about where a row stands, and no answer depends on it.
pub(crate) fn rank(columns: &[u8], row: &Row) -> i64
    ensures { result ≡ row_rank columns.now row.now }
{
    let Some(column) = columns.first() else {
        return 0;
    };
    match row.as_slice().get(*column as usize) {
        Some(value) => rank_of_value(value),
        None => 0,
    }
}

/// The rank of the rows that have these values.
pub(crate) fn rank_of_key(values: &Row) -> i64
    ensures { result ≡ row_rank (0 ∷ []) values.now }
{
    rank(&[0], values)
}
