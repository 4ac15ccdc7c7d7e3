//! What a run gives back.

use crate::status::Status;

/// How a run ended, and the disk, where one was handed out.
#[derive(Drop)]
pub struct Ran<D> {
    pub status: Status,
    pub disk: Option<D>,
}
