//! What a line is cut into.

use lv_values::{Copying, Items, NoMemory};
use std::alloc::Global;

/// What sort of token it is.
#[derive(Clone, Copy, Debug, PartialEq, Eq)]
pub enum TokenKind {
    /// A letter or `_`, and then letters, digits and `_`: a keyword or a name, in any case.
    Word,
    /// 1 to 38 decimal digits.
    Number,
    /// Characters between single quotes; two quotes inside stand for one.
    Text,
    /// One of `( ) , ; . * + - = <> != < <= > >=`.
    Sign,
}

/// A token: the bytes of the line from `start` up to `end`, without that one. Both count from 0.
#[derive(Clone, Copy, Debug, PartialEq, Eq)]
pub struct Token {
    pub kind: TokenKind,
    pub start: u32,
    pub end: u32,
}

/// Tokens, in the order in which they stand.
pub type Tokens = Items<Token>;

/// What a line has: its tokens up to its end, or up to the first piece that is no token. Then `stopped` is where that
/// piece begins, counted from 0.
#[derive(Drop)]
pub struct Scan {
    pub list: Tokens,
    pub stopped: Option<u32>,
}

impl Copying for Token {
    fn copy(&self, _alloc: Global) -> Result<Self, NoMemory> {
        Ok(*self)
    }
}

impl Copying for Scan {
    fn copy(&self, alloc: Global) -> Result<Self, NoMemory> {
        Ok(Scan {
            list: self.list.copy(alloc)?,
            stopped: self.stopped,
        })
    }
}
