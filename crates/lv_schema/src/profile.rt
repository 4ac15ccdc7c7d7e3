//! The rules on what a view may be.
ghost use Rattle.std.specs.Prelude.{◌≡◌, ◌≤◌, map, length, count_by};
ghost use Rattle.std.specs.List.{list_all};
ghost use Rattle.lv_schema.specs.Bound.{first, has_col, is_plain, is_count, all_key_cols, are_among, keeps_group, keeps_count, keeps_key};
ghost use Rattle.lv_schema.specs.JoinViews.{plain_columns};

use crate::cond::Col;
use crate::fault::ProfileRule;
use crate::schema::Schema;
use crate::view::{Item, ViewDef};

fn has_col(cols: &[Col], col: Col) -> bool
    ensures { result ≡ has_col col cols.now }
{
    for other in cols {
        if col.alias == other.alias && col.column == other.column {
            return true;
        }
    }
    false
}

fn is_plain(item: &Item) -> bool
    ensures { result ≡ is_plain item.now }
{
    matches!(item, Item::Plain { .. })
}

fn is_count(item: &Item) -> bool
    ensures { result ≡ is_count item.now }
{
    matches!(item, Item::Count { .. })
}

/// Whether a list has this column as it is.
fn is_listed(items: &[Item], column: Col) -> bool
    ensures { result ≡ has_col column (plain_columns items.now) }
{
    for item in items {
        if let Item::Plain { col, .. } = item
            && column.alias == col.alias
            && column.column == col.column
        {
            return true;
        }
    }
    false
}

fn are_plain(items: &[Item]) -> bool
    ensures { result ≡ list_all is_plain items.now }
{
    for item in items {
        if !is_plain(item) {
            return false;
        }
    }
    true
}

/// Whether each listed column is among these.
fn are_grouped(items: &[Item], groups: &[Col]) -> bool
    ensures { result ≡ are_among (plain_columns items.now) groups.now }
{
    for item in items {
        if let Item::Plain { col, .. } = item
            && !has_col(groups, *col)
        {
            return false;
        }
    }
    true
}

/// Whether each of these columns is listed.
fn are_listed(items: &[Item], cols: &[Col]) -> bool
    ensures { result ≡ are_among cols.now (plain_columns items.now) }
{
    for col in cols {
        if !is_listed(items, *col) {
            return false;
        }
    }
    true
}

fn keeps_group(items: &[Item], groups: &[Col]) -> bool
    ensures { result ≡ keeps_group items.now groups.now }
{
    if groups.is_empty() {
        are_plain(items)
    } else {
        are_grouped(items, groups) && are_listed(items, groups)
    }
}

fn counts(items: &[Item]) -> usize
    ensures { result ≡ count_by is_count items.now }
{
    items.iter().filter(|item| is_count(item)).count()
}

fn keeps_count(items: &[Item], groups: &[Col]) -> bool
    ensures { result ≡ keeps_count items.now groups.now }
{
    groups.is_empty() || counts(items) == 1
}

/// Whether each column of a key is listed, as one of this alias.
fn key_listed(items: &[Item], alias: u8, key: &[u8]) -> bool
    ensures { result ≡ are_among (map (λ k. record { alias = alias; column = k }) key.now) (plain_columns items.now) }
{
    for column in key {
        let col = Col {
            alias,
            column: *column,
        };
        if !is_listed(items, col) {
            return false;
        }
    }
    true
}

/// Whether each key column of each alias is listed.
fn keys_listed(schema: &Schema, numbers: &[u32], items: &[Item]) -> bool
    requires { length numbers.now ≤ 4 }
    ensures { result ≡ are_among (all_key_cols schema.now.tables numbers.now) (plain_columns items.now) }
{
    for (alias, number) in numbers.iter().enumerate() {
        if !key_listed(items, alias as u8, schema.key(*number)) {
            return false;
        }
    }
    true
}

fn keeps_key(schema: &Schema, view: &ViewDef) -> bool
    requires { length view.now.tables ≤ 4 }
    ensures { result ≡ keeps_key schema.now.tables view.now.tables view.now.items view.now.groups }
{
    !view.groups.is_empty() || keys_listed(schema, view.tables.as_slice(), view.items.as_slice())
}

impl ViewDef {
    ghost use Rattle.lv_schema.specs.Bound.{broken_rules};

    /// The first rule on views that a view of at most four tables of the schema breaks. Cost: a search of its list
    /// for each listed, grouped and key column.
    pub fn broken_rule(&self, schema: &Schema) -> Option<ProfileRule>
        requires { length self.now.tables ≤ 4 }
        ensures { result ≡ first (broken_rules schema.now.tables self.now) }
    {
        let items = self.items.as_slice();
        let groups = self.groups.as_slice();
        if !keeps_group(items, groups) {
            return Some(ProfileRule::Group);
        }
        if !keeps_count(items, groups) {
            return Some(ProfileRule::Count);
        }
        if !keeps_key(schema, self) {
            return Some(ProfileRule::Key);
        }
        None
    }
}
