//! What a clean-up shows.

/// What a clean-up shows: the floor below which nobody reads, and how many row versions and delta entries it kept.
#[derive(Clone, Copy, Debug, PartialEq, Eq)]
pub struct Cleaned {
    pub floor: u64,
    pub versions: u64,
    pub deltas: u64,
}
