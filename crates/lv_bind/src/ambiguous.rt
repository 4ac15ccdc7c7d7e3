//! Fault 3: columns that fit more than one alias.
ghost use Rattle.std.specs.Prelude.{◌≡◌, not};
ghost use Rattle.std.specs.Option.{option_copied};
ghost use Rattle.lv_bind.specs.Ambiguous.{is_several};
ghost use Rattle.lv_bind.specs.Sources.{first, shown_unless};

use crate::pieces::Mention;
use crate::sources::Fit;
use lv_values::Text;

/// The name of a column that fits so, where it fits more than one alias.
pub(crate) fn ambiguous_in(column: Mention<'_>, fit: Fit) -> Option<&Text>
    ensures { option_copied result ≡ first (shown_unless (not (is_several fit)) column.entry.name.now.name) }
{
    match fit {
        Fit::Nothing | Fit::One(_) => None,
        Fit::Several(_) => Some(&column.name.name),
    }
}
