//! Far aliases: those that a change elsewhere does not tie to any of its rows.
ghost use Rattle.std.specs.Prelude.{◌≡◌, ◌↔◌, ◌<◌, ◌≤◌, length, ◌∷◌, [], ℕ, IsTrue, true, filter, IfOk};
ghost use Rattle.lv_reach.specs.Far.{IsReached, HasChange, CutsOff, AreFlags, has_alias, are_led};
ghost use Rattle.lv_reach.specs.Reach.{AreWithin, IsFar};

use crate::link::Link;
use crate::rows::are_linked;
use lv_schema::Part;
use lv_values::{Bytes, Items, NoMemory, Test};
use std::alloc::Global;

/// A flag for each alias.
pub type Flags = Items<bool>;

/// Whether one of these aliases is linked to another.
fn are_led(links: &[Link], from: &[u8], to: u8) -> bool
    ensures { result ≡ are_led links.now from.now to }
{
    from.iter().any(|alias| are_linked(links, *alias, to))
}

/// The aliases to which one of these others is linked.
fn led(alloc: Global, links: &[Link], from: &[u8], aliases: &[u8]) -> Result<Bytes, NoMemory>
    ensures { IfOk result (λ found. found ≡ filter (are_led links.now from.now) aliases.now) }
{
    let mut found = Bytes::new(alloc);
    for alias in aliases {
        if are_led(links, from, *alias) {
            found.push(*alias)?;
        }
    }
    Ok(found)
}

/// The test that none of these others is linked to an alias.
#[derive(Clone, Copy)]
struct Unled<'a> {
    links: &'a [Link],
    from: &'a [u8],
}

impl<'a> Test<u8> for Unled<'a> {
    ghost use Rattle.std.specs.Prelude.{not};

    ghost passed = { λ test alias. not (are_led test.links.now test.from.now alias) };

    fn passes(&self, alias: &u8) -> bool {
        !are_led(self.links, self.from, *alias)
    }
}

/// So many aliases.
#[tactic(auto, using(crate::proofs::Paths::aliases_more))]
fn aliases_below(alloc: Global, count: u8) -> Result<Bytes, NoMemory>
    ensures { IfOk result (λ aliases. (j : ℕ) → j < count → has_alias j aliases ≡ true) }
{
    let mut aliases = Bytes::new(alloc);
    for alias in 0..count {
        aliases.push(alias)?;
    }
    Ok(aliases)
}

/// A list of one alias.
fn alone(alloc: Global, alias: u8) -> Result<Bytes, NoMemory>
    ensures { IfOk result (λ aliases. aliases ≡ alias ∷ []) }
{
    let mut aliases = Bytes::new(alloc);
    aliases.push(alias)?;
    Ok(aliases)
}

/// The aliases to which a chain of links leads from this one, among so many. Cost: at most the square of their number,
/// times the links.
fn reached(alloc: Global, links: &[Link], count: u8, from: u8) -> Result<Bytes, NoMemory>
    requires { AreWithin count links.now }
    ensures { IfOk result (λ aliases. (j : ℕ) → (has_alias j aliases ≡ true) ↔ IsReached links.now from j) }
{
    let mut found = alone(alloc, from)?;
    let mut left = aliases_below(alloc, count)?;
    let rounds = left.len();
    for _ in 0..rounds {
        let more = led(alloc, links, found.as_slice(), left.as_slice())?;
        if more.is_empty() {
            return Ok(found);
        }
        left.keep(&Unled {
            links,
            from: found.as_slice(),
        });
        found.append(more)?;
    }
    Ok(found)
}

/// Whether an alias is among these.
fn has_alias(aliases: &[u8], alias: u8) -> bool
    ensures { result ≡ has_alias alias aliases.now }
{
    aliases.iter().any(|other| alias == *other)
}

/// Whether a chain of links leads from an alias to another, among so many.
pub fn is_reached(
    alloc: Global,
    links: &[Link],
    count: u8,
    from: u8,
    to: u8,
) -> Result<bool, NoMemory>
    requires { AreWithin count links.now }
    ensures { IfOk result (λ is. IsTrue is ↔ IsReached links.now from to) }
{
    let aliases = reached(alloc, links, count, from)?;
    Ok(has_alias(aliases.as_slice(), to))
}

/// Whether a row of a part changes.
fn has_change(part: &Part) -> bool
    ensures { IsTrue result ↔ HasChange part.now }
{
    if part.minus.is_empty() {
        return !part.plus.is_empty();
    }
    true
}

/// Whether the part of an alias makes another alias far.
fn cuts_off(
    alloc: Global,
    links: &[Link],
    count: u8,
    part: &Part,
    alias: u8,
    to: u8,
) -> Result<bool, NoMemory>
    requires { AreWithin count links.now }
    ensures { IfOk result (λ is. IsTrue is ↔ CutsOff links.now part.now alias to) }
{
    if !has_change(part) {
        return Ok(false);
    }
    Ok(!is_reached(alloc, links, count, alias, to)?)
}

/// Whether an alias is far: another one has a changed row, and no chain of links leads from there. There are at most
/// 255 aliases, and each link is between two of them. Cost: that of `is_reached` for each alias with a changed row.
pub fn is_far(alloc: Global, links: &[Link], parts: &[Part], to: u8) -> Result<bool, NoMemory>
    requires few { length parts.now ≤ 255 }
    requires within { AreWithin (length parts.now) links.now }
    ensures { IfOk result (λ is. IsTrue is ↔ IsFar links.now parts.now to) }
{
    let count = parts.len() as u8;
    let mut alias = 0;
    for part in parts {
        if cuts_off(alloc, links, count, part, alias, to)? {
            return Ok(true);
        }
        alias += 1;
    }
    Ok(false)
}

/// For each alias whether it is far. Cost: that of `is_far` for each alias.
#[tactic(auto, using(crate::proofs::FarLaws::flags_more))]
pub(crate) fn far_aliases(alloc: Global, links: &[Link], parts: &[Part]) -> Result<Flags, NoMemory>
    requires few { length parts.now ≤ 255 }
    requires within { AreWithin (length parts.now) links.now }
    ensures { IfOk result (λ flags. AreFlags links.now parts.now (length parts.now) flags) }
{
    let mut flags = Flags::new(alloc);
    let count = parts.len() as u8;
    for alias in 0..count {
        let far = is_far(alloc, links, parts, alias)?;
        flags.push(far)?;
    }
    Ok(flags)
}
