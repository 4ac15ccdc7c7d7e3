//! Where the last question from one alias of another stands among all questions.
ghost use Rattle.std.specs.Prelude.{◌≡◌, ◌++◌, ◌∷◌, [], not, filter, OnOk};
ghost use Rattle.lv_reach.specs.Questions.{is_between, place_of};

use lv_values::{Items, NoMemory, Test};

/// The place of the last question from an alias of another one.
#[derive(Clone, Copy)]
pub(crate) struct Latest {
    pub from: u8,
    pub to: u8,
    pub at: usize,
}

/// Whether a place is that of a question from the one alias of the other.
fn is_between(latest: &Latest, from: u8, to: u8) -> bool
    ensures { result ≡ is_between from to latest.now }
{
    latest.from == from && latest.to == to
}

/// The test that a place is that of other aliases than these.
#[derive(Clone, Copy)]
struct Elsewhere {
    from: u8,
    to: u8,
}

impl Test<Latest> for Elsewhere {
    ghost use Rattle.std.specs.Prelude.{not};

    ghost passed = { λ test latest. not (is_between test.from test.to latest) };

    fn passes(&self, latest: &Latest) -> bool {
        !is_between(latest, self.from, self.to)
    }
}

/// Notes the place of a question in place of that of the last one between its aliases. Cost: linear in the places.
pub(crate) fn note(places: &mut Items<Latest>, latest: Latest) -> Result<(), NoMemory>
    ensures { OnOk result (places.new ≡ filter (λ place. not (is_between latest.from latest.to place)) places.old ++ latest ∷ []) }
{
    places.keep(&Elsewhere {
        from: latest.from,
        to: latest.to,
    });
    places.push(latest)
}

/// The place of the last question from an alias of another one. Cost: linear in the places.
pub(crate) fn place_of(places: &[Latest], from: u8, to: u8) -> Option<usize>
    ensures { result ≡ place_of from to places.now }
{
    let latest = places.iter().find(|latest| is_between(latest, from, to))?;
    Some(latest.at)
}
