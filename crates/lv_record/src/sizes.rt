//! How long records are. Whoever counts their bytes has seen each number and text, so it is said here too that these are
//! as their types say.
ghost use Rattle.std.specs.Prelude.{◌≡◌, ℕ, ◌+◌, ◌-◌, ◌^◌, Bool, true, length, map, min, nat_lt, sum};
ghost use Rattle.std.specs.List.{list_all, sum_by};
ghost use Rattle.std.specs.Str.{is_utf8};
ghost use Rattle.lv_schema.specs.Records as sizes;
ghost use Rattle.lv_record.specs.Kept as kept;

use lv_schema::{Action, Col, Column, Cond, Item, Operand, Rec, TableDef, ViewDef};
use lv_values::{Text, Value};

/// A piece of a record.
trait Piece {
    /// The number of its bytes.
    ghost bytes: { Self → ℕ };

    /// What its type says.
    ghost typed: { Self → Bool };

    /// The smaller of the number of its bytes and 2^64 - 1.
    fn size(&self) -> u64
        ensures size { result ≡ min (bytes self.now) (2 ^ 64 - 1) }
        ensures typed { typed self.now ≡ true };
}

/// The same of pieces, one after another.
fn sizes<T: Piece>(pieces: &[T]) -> u64
    ensures size { result ≡ min (sum_by T.bytes pieces.now) (2 ^ 64 - 1) }
    ensures typed { list_all T.typed pieces.now ≡ true }
{
    let mut sum: u64 = 0;
    for piece in pieces {
        sum = sum.saturating_add(piece.size());
    }
    sum
}

/// The same of a text behind so many bytes.
fn text_size(before: u64, text: &Text) -> u64
    ensures size { result ≡ min (before + length text.now) (2 ^ 64 - 1) }
    ensures typed { is_utf8 text.now ≡ true }
{
    let bytes = text.as_bytes();
    before.saturating_add(bytes.len() as u64)
}

impl Piece for u8 {
    ghost bytes = { λ _. 1 };

    ghost typed = { λ n. nat_lt n 256 };

    fn size(&self) -> u64 {
        let _value = *self;
        1
    }
}

impl Piece for Value {
    ghost bytes = { sizes.value_size };

    ghost typed = { kept.is_typed_value };

    fn size(&self) -> u64 {
        match self {
            Value::Num(_) => 9,
            Value::Text(text) => text_size(3, text),
        }
    }
}

impl Piece for Action {
    ghost bytes = { sizes.action_size };

    ghost typed = { kept.is_typed_action };

    fn size(&self) -> u64 {
        let _statement = self.statement;
        sizes(self.row.as_slice()).saturating_add(7)
    }
}

impl Piece for Column {
    ghost bytes = { λ c. sizes.name_size c.name + 1 };

    ghost typed = { λ c. is_utf8 c.name };

    fn size(&self) -> u64 {
        text_size(2, &self.name)
    }
}

impl Piece for Col {
    ghost bytes = { λ _. 2 };

    ghost typed = { kept.is_typed_col };

    fn size(&self) -> u64 {
        let _alias = self.alias;
        let _column = self.column;
        2
    }
}

impl Piece for Item {
    ghost bytes = { sizes.item_size };

    ghost typed = { kept.is_typed_item };

    fn size(&self) -> u64 {
        match self {
            Item::Plain { col, name } | Item::Sum { col, name } => {
                text_size(2, name).saturating_add(col.size())
            }
            Item::Count { name } => text_size(2, name),
        }
    }
}

impl Piece for Operand {
    ghost bytes = { sizes.operand_size };

    ghost typed = { kept.is_typed_side };

    fn size(&self) -> u64 {
        match self {
            Operand::Column(col) => 1 + col.size(),
            Operand::Number(number) => {
                let _number = *number;
                17
            }
            Operand::Text(text) => text_size(3, text),
        }
    }
}

#[cycle(cond_size)]
fn cond_size(cond: &Cond) -> u64
    ensures size { result ≡ min (sizes.cond_size cond.now) (2 ^ 64 - 1) }
    ensures typed { kept.is_typed_cond cond.now ≡ true }
{
    match cond {
        Cond::True => 1,
        Cond::Cmp { left, right, .. } => left.size().saturating_add(right.size()).saturating_add(2),
        Cond::And(parts) | Cond::Or(parts) => conds_size(parts.as_slice()).saturating_add(2),
        Cond::Not(part) => cond_size(part.get()).saturating_add(1),
    }
}

#[cycle(cond_size)]
fn conds_size(conds: &[Cond]) -> u64
    ensures size { result ≡ min (sum (map sizes.cond_size conds.now)) (2 ^ 64 - 1) }
    ensures typed { list_all (λ part. part) (map kept.is_typed_cond conds.now) ≡ true }
{
    let mut sum: u64 = 0;
    for cond in conds {
        sum = sum.saturating_add(cond_size(cond));
    }
    sum
}

fn table_size(def: &TableDef) -> u64
    ensures size { result ≡ min (sizes.table_size def.now) (2 ^ 64 - 1) }
    ensures typed { kept.is_typed_table def.now ≡ true }
{
    let name = text_size(4, &def.name);
    let columns = sizes(def.columns.as_slice());
    let key = sizes(def.key.as_slice());
    name.saturating_add(columns).saturating_add(key)
}

fn view_size(def: &ViewDef) -> u64
    ensures size { result ≡ min (sizes.view_size def.now) (2 ^ 64 - 1) }
    ensures typed { kept.is_typed_view def.now ≡ true }
{
    let _created = def.created;
    let name = text_size(14, &def.name);
    let tables = def.tables.len() as u64;
    let cond = cond_size(&def.cond);
    let items = sizes(def.items.as_slice());
    let groups = sizes(def.groups.as_slice());
    let head = name.saturating_add(tables).saturating_add(cond);
    head.saturating_add(items).saturating_add(groups)
}

/// The smaller of the number of the record's bytes and 2^64 - 1. The record is any that there is in memory.
/// Cost: linear in the record.
pub fn size(rec: &Rec) -> u64
    ensures size { result ≡ min (sizes.record_size rec.now) (2 ^ 64 - 1) }
    ensures typed { kept.is_typed rec.now ≡ true }
{
    match rec {
        Rec::Table(def) => table_size(def),
        Rec::View(def) => view_size(def),
        Rec::Commit { number, actions } => {
            let _number = *number;
            sizes(actions.as_slice()).saturating_add(13)
        }
        Rec::Mark { upto, .. } => {
            let _upto = *upto;
            10
        }
    }
}
