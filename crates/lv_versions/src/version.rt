//! Tests of row versions, and the end of one.
ghost use Rattle.std.specs.Prelude.{◌≡◌};
ghost use Rattle.lv_versions.specs.Versions as spec;

use lv_schema::RowVersion;
use lv_values::{Edit, Row, Test, compare_keys, compare_to_key};
use std::cmp::Ordering;
use std::marker::Model;

/// Whether the row is there after commit n.
pub(crate) fn is_at(version: &RowVersion, n: u64) -> bool
    ensures { result ≡ spec.is_at n version.now }
{
    if version.from > n {
        return false;
    }
    match version.until {
        Some(until) => n < until,
        None => true,
    }
}

/// Whether the version has not ended.
pub(crate) fn is_open(version: &RowVersion) -> bool
    ensures { result ≡ spec.is_open version.now }
{
    version.until.is_none()
}

/// Whether the version has the row's key, came before a commit and has not ended.
pub(crate) fn is_current(positions: &[u8], row: &Row, number: u64, version: &RowVersion) -> bool
    ensures { result ≡ spec.is_current positions.now row.now number version.now }
{
    is_open(version)
        && (version.from < number && compare_keys(positions, &version.row, row).is_eq())
}

/// Whether the version has these values at these positions and is there after commit n.
pub(crate) fn hits(version: &RowVersion, positions: &[u8], values: &Row, n: u64) -> bool
    ensures { result ≡ spec.hits positions.now values.now n version.now }
{
    is_at(version, n) && compare_to_key(positions, &version.row, values).is_eq()
}

/// Whether a version's key is below that of a row, or is that key and it came before a commit.
fn comes_before(positions: &[u8], row: &Row, number: u64, version: &RowVersion) -> bool
    ensures { result ≡ spec.comes_before positions.now row.now number version.now }
{
    match compare_keys(positions, &version.row, row) {
        Ordering::Less => true,
        Ordering::Equal => version.from < number,
        Ordering::Greater => false,
    }
}

/// Tests whether a version comes before the one that a commit brings.
#[derive(Drop)]
pub(crate) struct ComesBefore<'a> {
    pub(crate) positions: &'a [u8],
    pub(crate) row: &'a Row,
    pub(crate) number: u64,
}

impl<'a> Model for ComesBefore<'a> {
    ghost use Rattle.std.specs.Prelude.{ℕ, List};
    ghost use Rattle.lv_values.specs.declared.value.Value.{Value as AValue};

    ghost Value = { List ℕ × List AValue × ℕ };

    ghost view = { λ t. (t.positions.now, t.row.now, t.number) };
}

impl<'a> Test<RowVersion> for ComesBefore<'a> {
    ghost use Rattle.lv_versions.specs.Versions.{comes_before};

    ghost passed = { λ t v. comes_before t.0 t.1 t.2 v };

    fn passes(&self, version: &RowVersion) -> bool {
        comes_before(self.positions, self.row, self.number, version)
    }
}

/// Tests whether a version comes before another one in an index by some columns.
#[derive(Drop)]
pub(crate) struct ComesBeforeIn<'a> {
    pub(crate) columns: &'a [u8],
    pub(crate) positions: &'a [u8],
    pub(crate) row: &'a Row,
    pub(crate) number: u64,
}

impl<'a> Model for ComesBeforeIn<'a> {
    ghost use Rattle.std.specs.Prelude.{ℕ, List};
    ghost use Rattle.lv_values.specs.declared.value.Value.{Value as AValue};

    ghost Value = { List ℕ × List ℕ × List AValue × ℕ };

    ghost view = { λ t. (t.columns.now, t.positions.now, t.row.now, t.number) };
}

impl<'a> Test<RowVersion> for ComesBeforeIn<'a> {
    ghost use Rattle.lv_versions.specs.Versions.{comes_before_in};

    ghost passed = { λ t v. comes_before_in t.0 t.1 t.2 t.3 v };

    fn passes(&self, version: &RowVersion) -> bool {
        match compare_keys(self.columns, &version.row, self.row) {
            Ordering::Less => true,
            Ordering::Equal => comes_before(self.positions, self.row, self.number, version),
            Ordering::Greater => false,
        }
    }
}

/// Tests whether a version's values in some columns are below others, or, if these count too, are these.
#[derive(Drop)]
pub(crate) struct IsUpTo<'a> {
    pub(crate) columns: &'a [u8],
    pub(crate) values: &'a Row,
    pub(crate) themselves: bool,
}

impl<'a> Model for IsUpTo<'a> {
    ghost use Rattle.std.specs.Prelude.{ℕ, List, Bool};
    ghost use Rattle.lv_values.specs.declared.value.Value.{Value as AValue};

    ghost Value = { List ℕ × List AValue × Bool };

    ghost view = { λ t. (t.columns.now, t.values.now, t.themselves) };
}

impl<'a> Test<RowVersion> for IsUpTo<'a> {
    ghost use Rattle.lv_versions.specs.Versions.{is_upto};

    ghost passed = { λ t v. is_upto t.0 t.1 t.2 v };

    fn passes(&self, version: &RowVersion) -> bool {
        match compare_to_key(self.columns, &version.row, self.values) {
            Ordering::Less => true,
            Ordering::Equal => self.themselves,
            Ordering::Greater => false,
        }
    }
}

/// Tests whether a version's key is not above that of a row.
#[derive(Drop)]
pub(crate) struct HasKeyUpTo<'a> {
    pub(crate) positions: &'a [u8],
    pub(crate) row: &'a Row,
}

impl<'a> Model for HasKeyUpTo<'a> {
    ghost use Rattle.std.specs.Prelude.{ℕ, List};
    ghost use Rattle.lv_values.specs.declared.value.Value.{Value as AValue};

    ghost Value = { List ℕ × List AValue };

    ghost view = { λ t. (t.positions.now, t.row.now) };
}

impl<'a> Test<RowVersion> for HasKeyUpTo<'a> {
    ghost use Rattle.lv_versions.specs.Versions.{upto};

    ghost passed = { λ t v. upto t.0 t.1 v };

    fn passes(&self, version: &RowVersion) -> bool {
        !compare_keys(self.positions, &version.row, self.row).is_gt()
    }
}

/// Tests whether a version came by a commit.
#[derive(Drop)]
pub(crate) struct CameBy {
    pub(crate) n: u64,
}

impl Test<RowVersion> for CameBy {
    ghost use Rattle.lv_versions.specs.Versions.{came_by};

    ghost passed = { λ t v. came_by t.n v };

    fn passes(&self, version: &RowVersion) -> bool {
        version.from <= self.n
    }
}

/// Tests whether a version did not end at or below a floor.
#[derive(Drop)]
pub(crate) struct EndsAfter {
    pub(crate) floor: u64,
}

impl Test<RowVersion> for EndsAfter {
    ghost use Rattle.lv_versions.specs.Versions.{ends_after};

    ghost passed = { λ t v. ends_after t.floor v.until };

    fn passes(&self, version: &RowVersion) -> bool {
        match version.until {
            Some(until) => self.floor < until,
            None => true,
        }
    }
}

/// Tests whether a version ended at or below a floor.
#[derive(Drop)]
pub(crate) struct IsOver {
    pub(crate) floor: u64,
}

impl Test<RowVersion> for IsOver {
    ghost use Rattle.lv_versions.specs.Versions.{is_over};

    ghost passed = { λ t v. is_over t.floor v };

    fn passes(&self, version: &RowVersion) -> bool {
        match version.until {
            Some(until) => self.floor >= until,
            None => false,
        }
    }
}

/// Ends a version, if it has the row's key, came before a commit and has not ended.
#[derive(Drop)]
pub(crate) struct EndAt<'a> {
    pub(crate) positions: &'a [u8],
    pub(crate) row: &'a Row,
    pub(crate) number: u64,
}

impl<'a> Model for EndAt<'a> {
    ghost use Rattle.std.specs.Prelude.{ℕ, List};
    ghost use Rattle.lv_values.specs.declared.value.Value.{Value as AValue};

    ghost Value = { List ℕ × List AValue × ℕ };

    ghost view = { λ t. (t.positions.now, t.row.now, t.number) };
}

impl<'a> Edit<RowVersion> for EndAt<'a> {
    ghost use Rattle.std.specs.Prelude.{◌∷◌, []};
    ghost use Rattle.lv_versions.specs.Versions.{closed};

    ghost edited = { λ e v. closed e.0 e.2 (e.1 ∷ []) v };

    fn edit(&self, version: &mut RowVersion) {
        if is_current(self.positions, self.row, self.number, version) {
            version.until = Some(self.number);
        }
    }
}
