//! Tuples: one row for each alias, wherever the rows lie.
ghost use Rattle.std.specs.Prelude.{◌≡◌, ◌≤◌, [], length, slice_index_or, MatchOption};

use lv_values::Row;

/// What has one row for each alias. Contracts see the list of the rows.
pub trait HasRows {
    ghost use Rattle.lv_schema.specs.Tuples.{Tuple};

    ghost rows: { Self → Tuple };

    /// The row of an alias, where there is one.
    fn row(&self, alias: usize) -> Option<&Row>
        ensures { MatchOption result (length (rows self.now) ≤ alias) (λ row. row.now ≡ slice_index_or (rows self.now) alias []) };
}

impl<'a> HasRows for &'a [Row] {
    ghost rows = { λ rows. rows.now };

    fn row(&self, alias: usize) -> Option<&Row> {
        self.get(alias)
    }
}
