//! What is called round each turn of an actor.

/// Is called round each turn of an actor, outside the lock: so a test can hold turns back. An actor is named by a
/// number from 1 to 24, and a turn by its number among the actor's, from 1; idle turns count.
pub trait Gate {
    /// Before a turn.
    fn before(&self, who: u32, turn: u64);

    /// After a turn.
    fn after(&self, who: u32, turn: u64);
}

/// Holds no turn back.
#[derive(Clone, Copy, Debug)]
pub struct FreeGate;

impl Gate for FreeGate {
    fn before(&self, _who: u32, _turn: u64) {}

    fn after(&self, _who: u32, _turn: u64) {}
}
