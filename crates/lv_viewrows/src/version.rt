//! Versions of groups, and tests of them.
ghost use Rattle.std.specs.Prelude.{◌≡◌};

use lv_schema::SignedRow;
use lv_values::{Copying, Edit, NoMemory, Row, Test};
use std::alloc::Global;
use std::cmp::Ordering;
use std::marker::Model;

/// A group of a view, or a row of a join view as a group of one tuple without sums, with the commit that brought it and
/// the commit that took it away, where one did.
#[derive(Drop)]
pub struct GroupVersion {
    pub group: SignedRow,
    pub from: u64,
    pub until: Option<u64>,
}

impl Copying for GroupVersion {
    fn copy(&self, alloc: Global) -> Result<Self, NoMemory> {
        Ok(GroupVersion {
            group: self.group.copy(alloc)?,
            from: self.from,
            until: self.until,
        })
    }
}

impl GroupVersion {
    ghost use Rattle.lv_viewrows.specs.Kept.{is_there, version_from};
    ghost use Rattle.lv_viewrows.specs.Standing.{has_no_end, is_current};

    /// A group that is there from a commit on.
    pub(crate) fn from_commit(number: u64, group: SignedRow) -> GroupVersion
        ensures { result ≡ version_from number group }
    {
        GroupVersion {
            group,
            from: number,
            until: None,
        }
    }

    /// Whether the group is there at commit n.
    pub(crate) fn is_there(&self, n: u64) -> bool
        ensures { result ≡ is_there n self.now }
    {
        if self.from > n {
            return false;
        }
        match self.until {
            Some(until) => n < until,
            None => true,
        }
    }

    /// Whether the version has not ended.
    pub(crate) fn has_no_end(&self) -> bool
        ensures { result ≡ has_no_end self.now }
    {
        self.until.is_none()
    }

    /// Whether the version has the row and has not ended.
    pub(crate) fn is_current(&self, row: &Row) -> bool
        ensures { result ≡ is_current row.now self.now }
    {
        self.has_no_end() && row.cmp(&self.group.row).is_eq()
    }
}

/// Tests whether a version comes before one of a row from a commit on.
#[derive(Drop)]
pub(crate) struct ComesBefore<'a> {
    pub(crate) row: &'a Row,
    pub(crate) number: u64,
}

impl<'a> Model for ComesBefore<'a> {
    ghost use Rattle.std.specs.Prelude.{ℕ, List};
    ghost use Rattle.lv_values.specs.declared.value.Value.{Value as AValue};

    ghost Value = { List AValue × ℕ };

    ghost view = { λ t. (t.row.now, t.number) };
}

impl<'a> Test<GroupVersion> for ComesBefore<'a> {
    ghost use Rattle.lv_viewrows.specs.Standing.{comes_before};

    ghost passed = { λ t v. comes_before t.0 t.1 v };

    fn passes(&self, version: &GroupVersion) -> bool {
        match version.group.row.cmp(self.row) {
            Ordering::Less => true,
            Ordering::Equal => version.from < self.number,
            Ordering::Greater => false,
        }
    }
}

/// Tests whether a version did not end at or below a commit.
#[derive(Drop)]
pub(crate) struct EndsAfter {
    pub(crate) number: u64,
}

impl Test<GroupVersion> for EndsAfter {
    ghost use Rattle.lv_schema.specs.Versions.{ends_after};

    ghost passed = { λ t v. ends_after t.number v.until };

    fn passes(&self, version: &GroupVersion) -> bool {
        match version.until {
            Some(until) => self.number < until,
            None => true,
        }
    }
}

/// Ends a version.
#[derive(Drop)]
pub(crate) struct EndOf {
    pub(crate) number: u64,
}

impl Edit<GroupVersion> for EndOf {
    ghost use Rattle.lv_viewrows.specs.Standing.{ended_at};

    ghost edited = { λ e v. ended_at e.number v };

    fn edit(&self, version: &mut GroupVersion) {
        version.until = Some(self.number);
    }
}
