//! What the numbers of a transcript stand for.

use lv_plain::Texts;

/// What the numbers of a transcript stand for: the name of a number is the one at its place, from 0. The sessions
/// begin with `setup`, since the setup is session 0.
#[derive(Drop)]
pub struct Names {
    pub sessions: Texts,
    pub tables: Texts,
    pub views: Texts,
}
