//! Fault 11: SET names a key column.
ghost use Rattle.std.specs.Prelude.{◌≡◌, map, nat_eq};
ghost use Rattle.std.specs.List.{list_any};
ghost use Rattle.std.specs.Option.{option_copied};
ghost use Rattle.lv_schema.specs.World.{table_at};
ghost use Rattle.lv_bind.specs.Assigned.{assigned_keys, assigned_among};
ghost use Rattle.lv_bind.specs.Binding.{bound_among, bound_set};
ghost use Rattle.lv_bind.specs.Seen.{aliases, tables_of, views_of};
ghost use Rattle.lv_bind.specs.Sources.{first};

use crate::sources::Scope;
use lv_parser::{Assign, Stmt};
use lv_schema::{Bound, Change, Set};
use lv_values::Text;

fn is_key(key: &[u8], column: u8) -> bool
    ensures { result ≡ list_any (nat_eq column) key.now }
{
    for at in key {
        if column == *at {
            return true;
        }
    }
    false
}

/// The first of the assignments to this table, bound to these, that is to a key column.
fn assigned_key<'a>(
    scope: &Scope<'_>,
    table: u32,
    sets: &'a [Assign],
    bound: &[Set],
) -> Option<&'a Text>
    requires { bound.now ≡ map (bound_set (aliases scope.now)) sets.now }
    ensures { option_copied result ≡ first (assigned_keys (aliases scope.now) (table_at (tables_of scope.now) table).key sets.now) }
{
    let key = scope.schema.key(table);
    for (at, set) in bound.iter().enumerate() {
        if is_key(key, set.column) {
            return Some(&sets[at].column.name);
        }
    }
    None
}

/// The first key column that a statement with these aliases sets, which is bound to this.
pub(crate) fn assigned<'a>(scope: &Scope<'_>, stmt: &'a Stmt, bound: &Bound) -> Option<&'a Text>
    requires { bound.now ≡ bound_among (tables_of scope.now) (views_of scope.now) (aliases scope.now) stmt.now }
    ensures { option_copied result ≡ first (assigned_among (tables_of scope.now) (views_of scope.now) (aliases scope.now) stmt.now) }
{
    match stmt {
        Stmt::Update { sets, .. } => match bound {
            Bound::Change(
                Change::Update {
                    table,
                    sets: bound,
                    ..
                },
            ) => assigned_key(scope, *table, sets.as_slice(), bound.as_slice()),
            _ => None,
        },
        _ => None,
    }
}
