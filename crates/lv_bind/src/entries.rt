//! What has a name of its own in a list of a statement.
ghost use Rattle.std.specs.Prelude.{◌≡◌, ℕ, List};
ghost use Rattle.lv_bind.specs.InUse.{output_of};
ghost use Rattle.lv_bind.specs.Sources.{alias_of};

use crate::sources::alias_of;
use lv_parser::{Assign, ColumnTree, ItemTree, Named, RefTree};
use lv_values::Text;

/// What has a name that may stand only once in its list.
pub(crate) trait Entry {
    ghost name_of: { Self → List ℕ };

    /// The name.
    fn name(&self) -> &Text
        ensures { result.now ≡ name_of self.now };
}

impl Entry for Named {
    ghost name_of = { λ n. n.name };

    fn name(&self) -> &Text {
        &self.name
    }
}

impl Entry for ColumnTree {
    ghost name_of = { λ c. c.name.name };

    fn name(&self) -> &Text {
        &self.name.name
    }
}

impl Entry for ItemTree {
    ghost name_of = { λ i. (output_of i).name };

    fn name(&self) -> &Text {
        match self {
            ItemTree::Plain { col, output: None } => &col.name.name,
            ItemTree::Plain {
                output: Some(output),
                ..
            }
            | ItemTree::Sum { output, .. }
            | ItemTree::Count { output } => &output.name,
        }
    }
}

impl Entry for RefTree {
    ghost name_of = { λ r. (alias_of r).name };

    fn name(&self) -> &Text {
        &alias_of(self).name
    }
}

impl Entry for Assign {
    ghost name_of = { λ a. a.column.name };

    fn name(&self) -> &Text {
        &self.column.name
    }
}
