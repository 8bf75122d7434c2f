//! What is open at a place of a query, and what is due there.
ghost use Rattle.std.specs.Prelude.{◌≡◌, ◌<◌, ◌∷◌, ◌↔◌, [], length, drop, IsTrue, OnOk, OnErr, IsSome};
ghost use Rattle.query_text.specs.Reading.{start, moves, is_done, term_ended, begins_group, begins_negation};

use crate::query::Token;
use std::alloc::{AllocError, Global};
use std::marker::Model;

/// The most constructs, parentheses and `NOT` counted together, that are open at a place of a query.
pub const DEEPEST: usize = 64;

/// What comes next.
#[derive(Clone, Copy)]
pub(crate) enum Due {
    /// A term, or a `NOT` before it.
    Term,
    /// `AND`, `OR`, `)` or the end.
    Operator,
}

/// What is open.
#[derive(Clone, Copy)]
pub(crate) enum Opened {
    /// A parenthesis.
    Group,
    /// A `NOT` whose term isn't read.
    Negation,
}

/// What is open at a place, seen as a list with the nearest first.
#[derive(Drop)]
pub(crate) struct Opens {
    opened: Vec<Opened>,
}

impl Model for Opens {
    ghost use Rattle.std.specs.Prelude.{List, reverse};
    ghost use Rattle.query_text.specs.declared.nesting.Opened.{Opened};

    ghost Value = { List Opened };

    ghost view = { λ o. reverse o.opened.items };
}

impl Opens {
    fn none(alloc: Global) -> Opens
        ensures { result ≡ [] }
    {
        Opens {
            opened: Vec::new(alloc),
        }
    }

    fn len(&self) -> usize
        ensures { result ≡ length self.now }
    {
        self.opened.len()
    }

    fn push(&mut self, one: Opened) -> Result<(), AllocError>
        ensures ok { OnOk result (self.new ≡ one ∷ self.old) }
        ensures err { OnErr result (self.new ≡ self.old) }
    {
        self.opened.push(one)?;
        Ok(())
    }

    fn is_empty(&self) -> bool
        ensures { IsTrue result ↔ (self.now ≡ []) }
    {
        self.opened.is_empty()
    }

    // Whether a `)` may stand here, after a term.
    pub(crate) fn is_group(&self) -> bool
        ensures { result ≡ begins_group self.now }
    {
        matches!(self.opened.last(), Some(Opened::Group))
    }

    fn is_negation(&self) -> bool
        ensures { result ≡ begins_negation self.now }
    {
        matches!(self.opened.last(), Some(Opened::Negation))
    }

    fn pop(&mut self)
        ensures { self.new ≡ drop 1 self.old }
    {
        self.opened.pop();
    }

    // Closes the `NOT`s of a term that was read.
    fn end_term(&mut self)
        ensures { self.new ≡ term_ended self.old }
    {
        while self.is_negation() {
            self.pop();
        }
    }
}

/// What is open at a place of a query, and what is due there.
#[derive(Drop)]
pub(crate) struct Nesting {
    pub(crate) due: Due,
    pub(crate) opened: Opens,
}

impl Nesting {
    pub(crate) fn start(alloc: Global) -> Nesting
        ensures { result ≡ start }
    {
        Nesting {
            due: Due::Term,
            opened: Opens::none(alloc),
        }
    }

    // Whether a query may end here.
    pub(crate) fn is_done(&self) -> bool
        ensures { result ≡ is_done self.now }
    {
        matches!(self.due, Due::Operator) && self.opened.is_empty()
    }

    // Whether one more construct may be opened.
    pub(crate) fn has_room(&self) -> bool
        ensures { IsTrue result ↔ (length self.now.opened < 64) }
    {
        self.opened.len() < DEEPEST
    }

    // Takes a token that may stand here.
    pub(crate) fn enter(&mut self, token: &Token) -> Result<(), AllocError>
        requires { IsSome (moves self.old token.now) }
        ensures { OnOk result (moves self.old token.now ≡ Some self.new) }
    {
        match token {
            Token::Open => self.opened.push(Opened::Group)?,
            Token::Not => self.opened.push(Opened::Negation)?,
            Token::Close => {
                self.opened.pop();
                self.opened.end_term();
            }
            Token::And | Token::Or => self.due = Due::Term,
            Token::Every | Token::Test { field: _, test: _ } => {
                self.opened.end_term();
                self.due = Due::Operator;
            }
        }
        Ok(())
    }
}
