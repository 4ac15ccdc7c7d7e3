//! What became of a worker's step.

/// What became of the step that a worker had claimed.
#[derive(Clone, Copy, Debug, PartialEq, Eq)]
pub enum Installed {
    /// It is installed: the view is maintained to its end.
    Done {
        view: u32,
        lo: u64,
        hi: u64,
    },
    /// The view has moved on to this point, and nothing is installed.
    Moved {
        view: u32,
        lo: u64,
        hi: u64,
        point: u64,
    },
}
