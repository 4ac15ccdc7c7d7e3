//! Places: a table and a key in it.

use lv_values::{Exact, Items, Row};
use std::cmp::Ordering;
use std::marker::Model;

/// A table's number and a key in it. Places are ordered by table, and then by key.
#[derive(Drop)]
pub(crate) struct Place {
    table: u32,
    key: Row,
}

impl Model for Place {
    ghost use Rattle.std.specs.Prelude.{ℕ, List};
    ghost use Rattle.lv_values.specs.declared.value.Value.{Value as AValue};

    ghost Value = { ℕ × List AValue };

    ghost view = { λ p. (p.table, p.key) };
}

/// Places in a list.
pub(crate) type Places = Items<Place>;

impl Place {
    ghost use Rattle.std.specs.Prelude.{◌≡◌};

    pub(crate) fn new(table: u32, key: Row) -> Place
        ensures { result ≡ (table, key) }
    {
        Place { table, key }
    }

    pub(crate) fn table(&self) -> u32
        ensures { result ≡ self.now.0 }
    {
        self.table
    }

    pub(crate) fn key(&self) -> &Row
        ensures { result.now ≡ self.now.1 }
    {
        &self.key
    }
}

impl PartialEq for Place {
    ghost use Rattle.std.specs.Ordering.{eq_by_cmp};
    ghost use Rattle.std.specs.Cmp.{partial_equiv_from_equiv, eq_by_cmp_equiv};
    ghost use Rattle.lv_schema.specs.Commits.{place_cmp};
    ghost use Rattle.lv_overlay.specs.PlaceOrder.{place_total};

    ghost eq = { eq_by_cmp place_cmp };

    ghost laws = { partial_equiv_from_equiv (eq_by_cmp_equiv place_total) };

    fn eq(&self, other: &Place) -> bool {
        self.cmp(other).is_eq()
    }
}

impl Eq for Place {
    ghost use Rattle.std.specs.Cmp.{eq_by_cmp_equiv};
    ghost use Rattle.lv_overlay.specs.PlaceOrder.{place_total};

    ghost laws = { eq_by_cmp_equiv place_total };
}

impl PartialOrd for Place {
    ghost use Rattle.std.specs.Ordering.{as_partial_cmp};
    ghost use Rattle.std.specs.Cmp.{partial_order_from_total};
    ghost use Rattle.lv_schema.specs.Commits.{place_cmp};
    ghost use Rattle.lv_overlay.specs.PlaceOrder.{place_total};

    ghost partial_cmp = { as_partial_cmp place_cmp };

    ghost laws = { partial_order_from_total place_total };

    fn partial_cmp(&self, other: &Place) -> Option<Ordering> {
        Some(self.cmp(other))
    }
}

impl Ord for Place {
    ghost use Rattle.std.specs.Prelude.{refl};
    ghost use Rattle.lv_schema.specs.Commits.{place_cmp};
    ghost use Rattle.lv_overlay.specs.PlaceOrder.{place_total};

    ghost cmp = { place_cmp };

    ghost total = { place_total };

    ghost matches_partial_cmp = { λ _ _. refl };

    ghost matches_eq = { λ _ _. refl };

    fn cmp(&self, other: &Place) -> Ordering {
        self.table.cmp(&other.table).then(self.key.cmp(&other.key))
    }
}

impl Exact for Place {
    ghost use Rattle.lv_overlay.specs.PlaceOrder.{place_exact};

    ghost exact = { place_exact };
}
