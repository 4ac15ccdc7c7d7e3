//! Numbers of slots in chains.
ghost use Rattle.std.specs.Prelude.{◌≡◌, ◌+◌, ◌≤◌, ◌<◌, ◌++◌, ◌∷◌, [], Some, length, slice_get, slice_set, OnOk};
ghost use Rattle.std.specs.List.{AllByRecursion, insert};
ghost use Rattle.lv_shelf.specs.Chains.{all_newest, chain_at, joined, newest_of, newest_that, shortened};
ghost use Rattle.lv_shelf.specs.Shelves.{Differ, passes_in};

use crate::ranked_places::RankedPlaces;
use crate::slots::passes_in;
use lv_values::{NoMemory, Test};
use std::alloc::Global;
use std::marker::Model;

/// The links of a slot: to the one before it in its chain, and to the one behind it, or from the newest one to the oldest;
/// and, of the newest one, how many slots its chain has.
#[derive(Clone, Copy)]
struct Link {
    older: u32,
    newer: u32,
    height: u32,
}

/// The links of a slot that is in no chain.
const ALONE: Link = Link {
    older: 0,
    newer: 0,
    height: 0,
};

/// Numbers of slots in chains, and the chains in an order, each with the rank of its newest slot. A chain grows behind its
/// newest slot and loses its oldest one, and then no other chain moves. The links lie side by side by their slots, twelve
/// bytes each. Contracts see the chains, each from its oldest slot on, for how many chains there is room, and how many slots
/// have links.
#[derive(Drop)]
pub(crate) struct Chains {
    newest: RankedPlaces,
    links: Vec<Link>,
}

impl Model for Chains {
    ghost use Rattle.std.specs.Prelude.{length, map};
    ghost use Rattle.lv_shelf.specs.Chains.{AreLinked, Chained, chain_of, chained_code};

    ghost Value = { Chained };

    ghost coded = { chained_code };

    ghost view = { λ c. record { chains = map (chain_of c.links.items) c.newest.list; room = c.newest.room; links = length c.links.items } };

    ghost invariant = { λ c. AreLinked c.links.items c.newest.list };
}

impl Chains {
    /// No chain. It takes no memory.
    pub(crate) fn new(alloc: Global) -> Chains
        ensures chains { result.chains ≡ [] }
        ensures links { result.links ≡ 0 }
    {
        Chains {
            newest: RankedPlaces::new(alloc),
            links: Vec::new(alloc),
        }
    }

    /// How many chains there are.
    pub(crate) fn len(&self) -> usize
        ensures { result ≡ length self.now.chains }
    {
        self.newest.len()
    }

    /// The newest slot of each chain, in their order, with their ranks.
    pub(crate) fn newest(&self) -> &RankedPlaces
        ensures newest { result.now.list ≡ all_newest self.now.chains }
        ensures all { length result.now.list ≡ length self.now.chains }
    {
        &self.newest
    }

    /// The newest slot of a chain. Cost: constant.
    pub(crate) fn newest_in(&self, chain: usize) -> u32
        requires { chain < length self.now.chains }
        ensures { newest_of (chain_at self.now.chains chain) ≡ Some result }
    {
        self.newest.at(chain)
    }

    /// The oldest slot of a chain. Cost: constant.
    pub(crate) fn oldest_in(&self, chain: usize) -> u32
        requires { chain < length self.now.chains }
        ensures { slice_get (chain_at self.now.chains chain) 0 ≡ Some result }
    {
        let newest = self.newest.at(chain);
        self.links[newest as usize].newer
    }

    /// How many slots a chain has. Cost: constant.
    pub(crate) fn height(&self, chain: usize) -> u32
        requires { chain < length self.now.chains }
        ensures { result ≡ length (chain_at self.now.chains chain) }
    {
        let newest = self.newest.at(chain);
        self.links[newest as usize].height
    }

    /// The newest slot of a chain whose element passes. Cost: a test of that one, and of each newer one.
    pub(crate) fn newest_that<T, P: Test<T>>(
        &self,
        chain: usize,
        test: &P,
        slots: &[Option<T>],
    ) -> Option<u32>
        requires { chain < length self.now.chains }
        ensures { result ≡ newest_that (passes_in (P.passed test.now) slots.now) (chain_at self.now.chains chain) }
    {
        let mut slot = self.newest.at(chain);
        let mut left = self.links[slot as usize].height;
        while left > 0 {
            if passes_in(test, slots, slot) {
                return Some(slot);
            }
            slot = self.links[slot as usize].older;
            left -= 1;
        }
        None
    }

    /// Makes room for so many chains in all, and for the links of so many slots. The chains stay as they were, and the room
    /// never shrinks.
    pub(crate) fn reserve(&mut self, room: usize) -> Result<(), NoMemory>
        ensures same { self.new.chains ≡ self.old.chains }
        ensures room { OnOk result (room ≤ self.new.room) }
        ensures links { OnOk result (room ≤ self.new.links) }
        ensures room_kept { self.old.room ≤ self.new.room }
        ensures links_kept { self.old.links ≤ self.new.links }
    {
        self.newest.reserve(room)?;
        self.links.reserve(room.saturating_sub(self.links.len()))?;
        for _ in self.links.len()..room {
            self.links.push_reserved(ALONE);
        }
        Ok(())
    }

    /// Puts a chain of one slot before those from a place on, with a rank. It takes no memory. Cost: as of
    /// `RankedPlaces::insert`.
    pub(crate) fn insert(&mut self, at: usize, slot: u32, rank: i64)
        requires place { at ≤ length self.old.chains }
        requires room { length self.old.chains < self.old.room }
        requires links { slot < self.old.links }
        requires fresh { AllByRecursion (λ q. Differ q slot) (joined self.old.chains) }
        ensures added { self.new.chains ≡ insert self.old.chains at (slot ∷ []) }
        ensures room { self.new.room ≡ self.old.room }
        ensures links { self.new.links ≡ self.old.links }
    {
        self.links[slot as usize] = Link {
            older: slot,
            newer: slot,
            height: 1,
        };
        self.newest.insert(at, slot, rank);
    }

    /// Puts a slot behind the newest one of a chain, with a rank. It takes no memory. Cost: constant.
    pub(crate) fn push(&mut self, chain: usize, slot: u32, rank: i64)
        requires chain { chain < length self.old.chains }
        requires high { length (chain_at self.old.chains chain) + 1 < 4294967296 }
        requires links { slot < self.old.links }
        requires fresh { AllByRecursion (λ q. Differ q slot) (joined self.old.chains) }
        ensures added { self.new.chains ≡ slice_set self.old.chains chain (chain_at self.old.chains chain ++ slot ∷ []) }
        ensures room { self.new.room ≡ self.old.room }
        ensures links { self.new.links ≡ self.old.links }
    {
        let older = self.newest.at(chain);
        let oldest = self.links[older as usize].newer;
        let height = self.links[older as usize].height;
        self.links[older as usize].newer = slot;
        self.links[slot as usize] = Link {
            older,
            newer: oldest,
            height: height + 1,
        };
        self.newest.replace(chain, slot, rank);
    }

    /// Takes the oldest slot of a chain out, and the chain where it has no other. Cost: constant, or as of
    /// `RankedPlaces::remove` where the chain goes.
    pub(crate) fn shorten(&mut self, chain: usize)
        requires { chain < length self.old.chains }
        ensures rest { self.new.chains ≡ shortened self.old.chains chain }
        ensures room { self.new.room ≡ self.old.room }
        ensures links { self.new.links ≡ self.old.links }
    {
        let newest = self.newest.at(chain);
        let Link { newer, height, .. } = self.links[newest as usize];
        if height == 1 {
            self.newest.remove(chain);
            return;
        }
        let next = self.links[newer as usize].newer;
        self.links[newest as usize].newer = next;
        self.links[newest as usize].height = height - 1;
    }
}
