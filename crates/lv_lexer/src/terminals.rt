//! Tokens as a grammar sees them: keywords apart from names, each sign by itself.

use lv_values::{Copying, Items, NoMemory, Text};
use std::alloc::Global;

/// The classes of tokens: a name, a number, a text, each keyword, each sign.
#[derive(Clone, Copy, Debug, PartialEq, Eq)]
pub enum Class {
    /// A word that is no keyword.
    Name,
    /// A number.
    Number,
    /// A text between quotes.
    Quoted,
    And,
    As,
    Asc,
    Begin,
    By,
    Commit,
    Count,
    Create,
    Delete,
    Desc,
    Drop,
    From,
    Group,
    Inner,
    Insert,
    Int,
    Into,
    Is,
    Join,
    Key,
    Max,
    Min,
    Not,
    Null,
    On,
    Or,
    Order,
    Primary,
    Rollback,
    Select,
    Set,
    Show,
    Sum,
    Table,
    Tasks,
    Text,
    Update,
    Values,
    View,
    Where,
    /// `(`
    LeftParen,
    /// `)`
    RightParen,
    /// `,`
    Comma,
    /// `;`
    Semicolon,
    /// `.`
    Dot,
    /// `*`
    Star,
    /// `+`
    Plus,
    /// `-`
    Minus,
    /// `=`
    Equal,
    /// `<>`, also spelled `!=`
    NotEqual,
    /// `<`
    Less,
    /// `<=`
    LessEqual,
    /// `>`
    Greater,
    /// `>=`
    GreaterEqual,
}

/// A token with its class, what it says, and the place of its first byte in the line, from 1.
#[derive(Drop)]
pub struct Terminal {
    /// The value of a number; else 0.
    pub number: u128,
    /// A name in lower case, or what stands between the quotes of a text, two quotes being one; else empty.
    pub text: Text,
    /// The place.
    pub byte: u32,
    /// The class.
    pub class: Class,
}

/// Tokens as a grammar sees them, in their order.
pub type Terminals = Items<Terminal>;

/// What a line has, as a grammar sees it: its tokens up to its end, or up to the first piece that is no token.
#[derive(Drop)]
pub struct TerminalScan {
    /// The tokens.
    pub list: Terminals,
    /// Where the piece that is no token begins, counted from 0.
    pub stopped: Option<u32>,
}

impl Copying for Terminal {
    fn copy(&self, alloc: Global) -> Result<Self, NoMemory> {
        Ok(Terminal {
            class: self.class,
            text: self.text.copy(alloc)?,
            number: self.number,
            byte: self.byte,
        })
    }
}
