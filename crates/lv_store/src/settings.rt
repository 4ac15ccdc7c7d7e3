//! What an engine is run with.

/// What an engine is run with.
#[derive(Clone, Copy, Debug, PartialEq, Eq)]
pub struct Settings {
    /// How many pending tasks of a view one maintenance step may combine, 1 at least.
    pub combine: u32,
    /// The greatest length of the journal, in bytes.
    pub log_limit: u64,
}
