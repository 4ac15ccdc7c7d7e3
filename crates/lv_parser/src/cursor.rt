//! The tokens that are still to be read.

ghost use Rattle.std.specs.Prelude.{◌≡◌, ◌↔◌, ◌^◌, ◌<◌, IsTrue, All, IfOk, IfSome, MatchOption, [], ◌∷◌, Ok, IsSome, drop, length, reverse};
ghost use Rattle.std.specs.Option.{option_copied};
ghost use Rattle.lv_parser.specs.Class.{same};
ghost use Rattle.lv_parser.specs.Fault.{byte_of};
ghost use Rattle.lv_parser.specs.Reading.{Gives, sees, expect, optional, is_nothing, next, next_class};
ghost use Rattle.lv_parser.specs.Numbers.{IsSmall};

use crate::stop::Stop;
use lv_lexer::{Class, Terminal, Terminals};
use std::marker::Model;

/// The tokens that are still to be read, seen in their order. The next one lies last, so that it is taken off
/// without a copy. Each number among them has at most 38 digits.
#[derive(Drop)]
pub(crate) struct Cursor {
    rest: Terminals,
}

impl Model for Cursor {
    ghost use Rattle.std.specs.Prelude.{List, reverse};
    ghost use Rattle.lv_lexer.specs.declared.terminals.Terminal.{Terminal};
    ghost use Rattle.lv_parser.specs.Numbers.{AreSmall};

    ghost Value = { List Terminal };

    ghost view = { λ c. reverse c.rest };

    ghost invariant = { λ c. AreSmall c.rest };
}

#[inline(always)]
fn same_class(a: Class, b: Class) -> bool
    ensures { result ≡ same a b }
{
    a == b
}

impl Cursor {
    /// The tokens, of which none is read yet. Cost: linear, without a copy.
    pub fn new(terminals: Terminals) -> Cursor
        requires { All IsSmall terminals }
        ensures { result ≡ terminals }
    {
        let mut rest = terminals;
        rest.reverse();
        Cursor { rest }
    }

    /// Whether no token is left.
    pub fn is_done(&self) -> bool
        ensures { result ≡ is_nothing self.now }
    {
        match self.next() {
            None => true,
            Some(_) => false,
        }
    }

    /// How many tokens are left.
    pub fn len(&self) -> usize
        ensures { result ≡ length self.now }
    {
        self.rest.len()
    }

    /// The next token.
    #[inline(always)]
    fn next(&self) -> Option<&Terminal>
        ensures { option_copied result ≡ next self.now }
    {
        self.rest.as_slice().last()
    }

    /// Whether a token of this class comes next.
    #[inline(always)]
    pub fn sees(&self, class: Class) -> bool
        ensures { result ≡ sees class self.now }
    {
        match self.next() {
            None => false,
            Some(token) => same_class(token.class, class),
        }
    }

    /// The class of the next token.
    pub fn peek(&self) -> Option<Class>
        ensures { result ≡ next_class self.now }
    {
        match self.next() {
            None => None,
            Some(token) => Some(token.class),
        }
    }

    /// The byte of the next token, or where there is none this one.
    pub fn byte(&self, end: u32) -> u32
        ensures { result ≡ byte_of end self.now }
    {
        match self.next() {
            None => end,
            Some(token) => token.byte,
        }
    }

    /// Takes the next token, where there is one.
    #[inline(always)]
    fn take(&mut self) -> Option<Terminal>
        ensures taken { MatchOption result ((self.old ≡ []) × (self.new ≡ [])) (λ t. self.old ≡ t ∷ self.new) }
        ensures small { IfSome result IsSmall }
    {
        self.rest.pop()
    }

    /// Takes the next token, which is to be of this class. Else it stays.
    #[inline(always)]
    pub fn expect(&mut self, class: Class) -> Result<Terminal, Stop>
        ensures given { Gives (expect class self.old) result self.new }
        ensures small { IfOk result IsSmall }
    {
        if !self.sees(class) {
            return Err(Stop::Syntax);
        }
        match self.take() {
            None => Err(Stop::Syntax),
            Some(token) => Ok(token),
        }
    }

    /// Takes the next token where it is of this class.
    pub fn allow(&mut self, class: Class) -> Option<Terminal>
        ensures { optional (sees class) (expect class) self.old ≡ Ok (result, self.new) }
    {
        if self.sees(class) { self.take() } else { None }
    }

    /// Goes past the next token.
    pub fn skip(&mut self)
        requires { IsSome (next_class self.old) }
        ensures { self.new ≡ drop 1 self.old }
    {
        self.take();
    }
}
