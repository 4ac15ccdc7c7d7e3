//! A task of a view.

/// A task of a view: a commit, and how many of its actions are on the view's tables.
#[derive(Clone, Copy, Debug, PartialEq, Eq)]
pub struct Task {
    pub commit: u64,
    pub actions: u64,
}
