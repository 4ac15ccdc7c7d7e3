//! Changes of groups.
ghost use Rattle.std.specs.Prelude.{◌≡◌, ◌≤◌, ◌+◌, ◌++◌, length, filter};
ghost use Rattle.std.specs.List.{AllByRecursion};
ghost use Rattle.std.specs.Vec.{vec_len, vec_capacity};
ghost use Rattle.lv_bags.specs.Bags.{HaveSums, width};
ghost use Rattle.lv_bags.specs.Tallies.{IsEntry, Rising, tallied};
ghost use Rattle.lv_group.specs.Gathered.{has_tuples};

use lv_bags::{is_entry, place_of, put_at};
use lv_schema::SignedRow;

/// Puts changes into groups that ascend, where there is room for all. It takes no memory.
pub(crate) fn add_all(groups: &mut Vec<SignedRow>, signed: Vec<SignedRow>)
    requires rising { Rising groups.old.items }
    requires entries { AllByRecursion (IsEntry (width (groups.old.items ++ signed.items))) groups.old.items }
    requires sums { HaveSums (width (groups.old.items ++ signed.items)) (groups.old.items ++ signed.items) }
    requires room { vec_len groups.old + length signed.items ≤ vec_capacity groups.old }
    ensures groups { groups.new.items ≡ tallied (width (groups.old.items ++ signed.items)) (groups.old.items ++ signed.items) }
    ensures capacity { vec_capacity groups.old ≤ vec_capacity groups.new }
    ensures len { vec_len groups.new ≤ vec_len groups.old + length signed.items }
{
    for s in signed {
        is_entry(&s);
        let at = place_of(groups, &s.row);
        put_at(groups, at, s).unwrap();
    }
}

/// Drops the groups without a tuple.
pub(crate) fn drop_empty(groups: &mut Vec<SignedRow>)
    ensures groups { groups.new.items ≡ filter has_tuples groups.old.items }
    ensures capacity { vec_capacity groups.new ≡ vec_capacity groups.old }
    ensures len { vec_len groups.new ≤ vec_len groups.old }
{
    groups.retain(|group| group.count != 0);
}
