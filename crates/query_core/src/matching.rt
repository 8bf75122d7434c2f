//! Which objects a query holds of.
ghost use Rattle.std.specs.Prelude.{◌≡◌, ◌<◌, ◌++◌, ◌∷◌, [], length};
ghost use Rattle.query_text.specs.Query.{Disjunction, IsQuery};
ghost use Rattle.query_core.specs.Meaning.{holds};
ghost use Rattle.query_core.specs.Levels.{fresh, known, turned, next_conjunction, joined};

use dobj_field::reaches;
use dobj_model::Object;
use query_text::{DEEPEST, Query, Token};
use std::marker::Model;

/// What is known at one level of parentheses.
#[derive(Clone, Copy)]
pub(crate) struct Level {
    /// A conjunction before this one holds.
    found: bool,
    /// Each term so far of this conjunction holds.
    all: bool,
    /// The next term is negated.
    negated: bool,
}

impl Level {
    fn fresh() -> Level
        ensures { result ≡ fresh }
    {
        Level {
            found: false,
            all: true,
            negated: false,
        }
    }

    fn known(&self) -> bool
        ensures { result ≡ known self.now }
    {
        self.found || self.all
    }

    fn turn(&mut self)
        ensures { self.new ≡ turned self.old }
    {
        self.negated = !self.negated;
    }

    fn begin_conjunction(&mut self)
        ensures { self.new ≡ next_conjunction self.old }
    {
        *self = Level {
            found: self.found || self.all,
            all: true,
            negated: false,
        };
    }

    fn join(&mut self, value: bool)
        ensures { self.new ≡ joined self.old value }
    {
        let value = if self.negated { !value } else { value };
        self.all = self.all && value;
        self.negated = false;
    }
}

/// The levels round the present one, the nearest last.
#[derive(Drop)]
struct Outer {
    levels: [Level; DEEPEST],
    len: usize,
}

impl Model for Outer {
    ghost use Rattle.std.specs.Prelude.{List, take, ◌≤◌};
    ghost use Rattle.query_core.specs.declared.matching.Level.{Level};

    ghost Value = { List Level };

    ghost view = { λ o. take o.len o.levels };

    ghost invariant = { λ o. o.len ≤ 64 };
}

impl Outer {
    fn none() -> Outer
        ensures { result ≡ [] }
    {
        Outer {
            levels: [Level::fresh(); DEEPEST],
            len: 0,
        }
    }

    fn push(&mut self, level: Level)
        requires { length self.old < 64 }
        ensures { self.new ≡ self.old ++ level ∷ [] }
    {
        self.levels[self.len] = level;
        self.len += 1;
    }

    fn pop(&mut self) -> Level
        requires { 0 < length self.old }
        ensures { self.old ≡ self.new ++ result ∷ [] }
    {
        self.len -= 1;
        self.levels[self.len]
    }
}

/// Whether the query holds of the object. It takes no memory; each test of the query is tried once.
pub fn matches(query: &Query, object: &Object) -> bool
    ensures { (meant : Disjunction) → IsQuery query.now meant → result ≡ holds meant object.now }
{
    let mut level = Level::fresh();
    let mut outer = Outer::none();
    for token in query.tokens() {
        match token {
            Token::Open => {
                outer.push(level);
                level = Level::fresh();
            }
            Token::Close => {
                let value = level.known();
                level = outer.pop();
                level.join(value);
            }
            Token::Not => level.turn(),
            Token::And => {}
            Token::Or => level.begin_conjunction(),
            Token::Every => level.join(true),
            Token::Test { field, test } => level.join(reaches(object, field, test)),
        }
    }
    level.known()
}
