//! Fault 7: views outside the profile.
ghost use Rattle.std.specs.Prelude.{◌≡◌, ◌≤◌, length};
ghost use Rattle.lv_bind.specs.Binding.{IsSmallView};
ghost use Rattle.lv_bind.specs.Profile.{names_view, view_rules, profile_of};
ghost use Rattle.lv_bind.specs.Sources.{first};

use lv_parser::{RefTree, Stmt};
use lv_schema::{Bound, ProfileRule, Rel, Schema, ViewDef};

/// Whether FROM names a view.
fn names_view(schema: &Schema, refs: &[RefTree]) -> bool
    ensures { result ≡ names_view schema.now.tables schema.now.views refs.now }
{
    for table in refs {
        if let Some(Rel::View(_)) = schema.find(&table.name.name) {
            return true;
        }
    }
    false
}

fn view_rule(schema: &Schema, refs: &[RefTree], def: &ViewDef) -> Option<ProfileRule>
    requires { length def.now.tables ≤ 4 }
    ensures { result ≡ first (view_rules schema.now.tables schema.now.views refs.now def.now) }
{
    if names_view(schema, refs) {
        return Some(ProfileRule::Base);
    }
    def.broken_rule(schema)
}

/// The first rule on views that a statement breaks, which is bound to this.
pub(crate) fn profile(schema: &Schema, stmt: &Stmt, bound: &Bound) -> Option<ProfileRule>
    requires { IsSmallView bound.now }
    ensures { result ≡ first (profile_of schema.now.tables schema.now.views stmt.now bound.now) }
{
    match stmt {
        Stmt::CreateView { refs, .. } => match bound {
            Bound::View(def) => view_rule(schema, refs.as_slice(), def),
            _ => None,
        },
        _ => None,
    }
}
