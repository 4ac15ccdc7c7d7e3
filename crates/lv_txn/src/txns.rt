//! The transaction of each session.
ghost use Rattle.std.specs.Prelude.{◌≡◌, ◌≤◌, ◌<◌, Bool, true, None, Some, map, option_map, replicate, slice_set, length, IfOk, OnErr, OnOk};
ghost use Rattle.std.specs.List.{list_all, list_any};
ghost use Rattle.lv_schema.specs.Commits.{conflict_in};
ghost use Rattle.lv_schema.specs.StepPlans.{is_inside};
ghost use Rattle.lv_schema.proofs.PendingTasks.{inside_less};
ghost use Rattle.lv_overlay.specs.declared.put.Put.{Put};
ghost use Rattle.lv_txn.specs.Kept.{begun, least_of, lesser, live_kept, snapshot_inside, transaction_at, transaction_of, IsLive, NoneLiveFrom, SessionChanges};
ghost use Rattle.lv_txn.specs.Written.{conflict_fault, put_of};

use crate::conflicts::conflict;
use crate::transaction::Transaction;
use lv_delta::Deltas;
use lv_overlay::Overlay;
use lv_schema::{Action, Actions, Conflict, Live, Schema};
use lv_values::{Items, NoMemory};
use std::alloc::Global;
use std::marker::Model;

/// The setup is session 0, and the others are 1 to 16.
const SESSIONS: usize = 17;

/// The live transactions, each at the place of its session. There is a place for each of the 17 sessions from the start.
/// No session from the number `used` on is live.
#[derive(Drop)]
pub struct Txns {
    alloc: Global,
    sessions: Items<Option<Transaction>>,
    used: usize,
}

impl Model for Txns {
    ghost use Rattle.std.specs.Prelude.{List, Option};
    ghost use Rattle.lv_txn.specs.Kept.{TransactionKept, ArePlaces};

    ghost Value = { List (Option TransactionKept) };

    ghost view = { λ t. t.sessions };

    ghost invariant = { λ t. ArePlaces t.used t.sessions };
}

/// A place for each session, with nobody live.
fn places(alloc: Global) -> Result<Items<Option<Transaction>>, NoMemory>
    ensures { IfOk result (λ sessions. sessions ≡ replicate 17 None) }
{
    let mut sessions = Items::new(alloc);
    for _ in 0..SESSIONS {
        sessions.push(None)?;
    }
    Ok(sessions)
}

impl Txns {
    /// Nobody is live.
    pub fn new(alloc: Global) -> Result<Txns, NoMemory>
        ensures { IfOk result (λ txns. txns ≡ replicate 17 None) }
    {
        let sessions = places(alloc)?;
        Ok(Txns {
            alloc,
            sessions,
            used: 0,
        })
    }

    /// Opens a transaction over a snapshot for a session, which has none. It takes no memory. Cost: constant.
    pub fn begin(&mut self, session: u32, snapshot: u64)
        requires session { session < 17 }
        requires free { transaction_at self.old session ≡ None }
        ensures { self.new ≡ slice_set self.old session (Some (begun snapshot)) }
    {
        let transaction = Transaction::begun(self.alloc, snapshot);
        self.sessions.set(session as usize, Some(transaction));
        self.used = self.used.max(session as usize + 1);
    }

    /// Closes the transaction of a session. It takes no memory. Cost: linear in what the transaction has, and at most a
    /// pass over the sessions.
    pub fn end(&mut self, session: u32)
        requires session { session < 17 }
        requires live { IsLive self.old session }
        ensures { self.new ≡ slice_set self.old session None }
    {
        self.sessions.set(session as usize, None);
        self.used = still_used(self.sessions.as_slice(), self.used);
    }

    /// The places up to that of the last live session. Cost: constant.
    #[tactic(auto, using(crate::proofs::Sessions::live_among))]
    fn used_places(&self) -> &[Option<Transaction>]
        ensures { live_kept result.now ≡ live_kept self.now }
    {
        &self.sessions.as_slice()[..self.used]
    }

    /// The transaction of a session that is live.
    fn transaction(&self, session: u32) -> &Transaction
        requires { IsLive self.now session }
        ensures at { transaction_at self.now session ≡ Some result.now }
        ensures of { transaction_of self.now session ≡ result.now }
    {
        self.sessions.get(session as usize).as_ref().unwrap()
    }

    /// The snapshot of a session, none exactly where it is not live. Cost: constant.
    pub fn live(&self, session: u32) -> Option<u64>
        ensures { result ≡ option_map (λ t. t.snapshot) (transaction_at self.now session) }
    {
        match self.sessions.as_slice().get(session as usize) {
            Some(Some(transaction)) => Some(transaction.snapshot()),
            Some(None) | None => None,
        }
    }

    /// The least live snapshot, none exactly where nobody is live.
    /// Cost: a pass over the sessions up to the last live one.
    pub fn least(&self) -> Option<u64>
        ensures { result ≡ least_of (live_kept self.now) }
    {
        let mut least = None;
        for transaction in self.used_places() {
            least = lesser(least, transaction);
        }
        least
    }

    /// The own rows of a session that is live.
    pub fn own(&self, session: u32) -> &Overlay
        requires { IsLive self.now session }
        ensures { result.now.list ≡ (transaction_of self.now session).puts }
    {
        self.transaction(session).own()
    }

    /// The actions of a session that is live, in order, each with the number of its change.
    pub fn actions(&self, session: u32) -> &[Action]
        requires { IsLive self.now session }
        ensures { result.now ≡ (transaction_of self.now session).actions }
    {
        self.transaction(session).actions()
    }

    /// Takes the actions of one more accepted change of a session that is live, also where there is none: they get the
    /// number of the change, and what they leave goes to the own rows. Want of memory changes nothing.
    /// Cost: for each action a comparison with the next one's key, and for each whose key the next one does not write too
    /// copies of its key and row, and a binary search.
    pub fn note(
        &mut self,
        alloc: Global,
        session: u32,
        schema: &Schema,
        actions: Actions,
    ) -> Result<(), NoMemory>
        requires live { IsLive self.old session }
        requires few { (transaction_of self.old session).changes < 4294967295 }
        ensures noted { OnOk result (SessionChanges schema.now.tables actions session self.old self.new) }
        ensures only { OnOk result ((test : Put → Bool) → list_all test (map (put_of schema.now.tables) actions) ≡ true → list_all test (transaction_of self.old session).puts ≡ true → list_all test (transaction_of self.new session).puts ≡ true) }
        ensures refused { OnErr result (self.new ≡ self.old) }
    {
        let mut transaction = self.sessions.replace(session as usize, None).unwrap();
        let noted = transaction.note(alloc, schema, actions);
        self.sessions.set(session as usize, Some(transaction));
        noted
    }

    /// Why a session that is live cannot commit: the first key that it wrote, by table and key, which a commit above its
    /// snapshot wrote too, and the last such commit; none exactly where there is no such key. Its snapshot is at or
    /// above the floor of the deltas.
    /// Cost: a sort of the keys that it wrote, and for each entry above its snapshot a binary search among them; nothing
    /// where there is no such entry.
    pub fn conflict(
        &self,
        alloc: Global,
        session: u32,
        schema: &Schema,
        deltas: &Deltas,
    ) -> Result<Option<Conflict>, NoMemory>
        requires live { IsLive self.now session }
        requires kept { deltas.now.floor ≤ (transaction_of self.now session).snapshot }
        ensures { IfOk result (λ c. option_map conflict_fault c ≡ conflict_in schema.now.tables deltas.now.entries (transaction_of self.now session).snapshot (transaction_of self.now session).actions) }
    {
        let transaction = self.transaction(session);
        conflict(
            alloc,
            schema,
            transaction.actions(),
            deltas.above(transaction.snapshot()),
        )
    }
}

/// How many places there are up to that of the last live session, where none from the number `bound` on is live.
fn still_used(sessions: &[Option<Transaction>], bound: usize) -> usize
    requires within { bound ≤ length sessions.now }
    requires free { NoneLiveFrom bound sessions.now }
    ensures within { result ≤ length sessions.now }
    ensures free { NoneLiveFrom result sessions.now }
{
    let mut used = bound;
    while 0 < used && sessions[used - 1].is_none() {
        used -= 1;
    }
    used
}

/// The lesser of a snapshot and that of a transaction, if there is one.
fn lesser(least: Option<u64>, transaction: &Option<Transaction>) -> Option<u64>
    ensures { result ≡ lesser least transaction.now }
{
    match (least, transaction) {
        (least, None) => least,
        (None, Some(transaction)) => Some(transaction.snapshot()),
        (Some(least), Some(transaction)) => Some(least.min(transaction.snapshot())),
    }
}

/// Whether a transaction's snapshot is at or above the one number and below the other.
fn is_between(transaction: &Option<Transaction>, from: u64, below: u64) -> bool
    ensures { result ≡ snapshot_inside from below transaction.now }
{
    match transaction {
        Some(transaction) => from <= transaction.snapshot() && transaction.snapshot() < below,
        None => false,
    }
}

/// Whether the snapshot of one of the transactions is at or above the one number and below the other.
fn any_between(sessions: &[Option<Transaction>], from: u64, below: u64) -> bool
    ensures { result ≡ list_any (snapshot_inside from below) sessions.now }
{
    sessions
        .iter()
        .any(|transaction| is_between(transaction, from, below))
}

impl Live for Txns {
    ghost inside = { λ t from below. is_inside (live_kept t) from below };

    ghost narrower = { λ t. inside_less (live_kept t) };

    /// Cost: a pass over the sessions up to the last live one.
    #[tactic(auto, using(crate::proofs::Sessions::inside_is))]
    fn inside(&self, from: u64, below: u64) -> bool {
        any_between(self.used_places(), from, below)
    }
}
