//! Faults 2 and 3 of columns, each of which is resolved once for both.
ghost use Rattle.std.specs.Prelude.{◌≡◌, map};
ghost use Rattle.std.specs.Option.{option_copied};
ghost use Rattle.lv_bind.specs.Ambiguous.{ambiguous_columns};
ghost use Rattle.lv_bind.specs.Seen.{aliases, column_seen};
ghost use Rattle.lv_bind.specs.Sources.{first};
ghost use Rattle.lv_bind.specs.Unknown.{unknown_columns};

use crate::ambiguous::ambiguous_in;
use crate::pieces::Mention;
use crate::sources::{Scope, resolve};
use crate::unknown::unknown_in;
use lv_values::Text;

/// Of some columns the first name that stands for nothing, and the first column that fits more than one alias.
#[derive(Clone, Copy)]
pub(crate) struct Misfits<'a> {
    pub unknown: Option<&'a Text>,
    pub ambiguous: Option<&'a Text>,
}

/// What is wrong with these columns. Cost: each is resolved once.
#[tactic(auto, using(crate::proofs::MisfitLemmas::or_first))]
pub(crate) fn misfits_of<'a>(scope: &Scope<'_>, columns: &[Mention<'a>]) -> Misfits<'a>
    ensures unknown { option_copied result.unknown ≡ first (unknown_columns (aliases scope.now) (map column_seen columns.now)) }
    ensures ambiguous { option_copied result.ambiguous ≡ first (ambiguous_columns (aliases scope.now) (map column_seen columns.now)) }
{
    let mut unknown = None;
    let mut ambiguous = None;
    for column in columns {
        let fit = resolve(scope, *column);
        unknown = unknown.or(unknown_in(scope, *column, fit));
        ambiguous = ambiguous.or(ambiguous_in(*column, fit));
    }
    Misfits { unknown, ambiguous }
}
