//! Clean-ups.

/// How many row versions and how many entries are kept.
#[derive(Clone, Copy, Debug, PartialEq, Eq)]
pub struct Kept {
    pub versions: u64,
    pub deltas: u64,
}
