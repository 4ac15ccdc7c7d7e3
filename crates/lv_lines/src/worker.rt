//! What a worker did.

use lv_schema::Forced;

/// What a worker did.
#[derive(Drop)]
pub(crate) enum Action {
    /// It claims this step.
    Fetch(Forced),
    /// There is no step to claim.
    Idle,
    /// It has a claim already.
    Busy,
    /// It installed this step.
    Install(Forced),
    /// The point of the view had moved.
    Moved { step: Forced, point: u64 },
    /// It had no claim.
    Empty,
    /// It gave its claim back.
    Release,
}
