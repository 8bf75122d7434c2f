//! Queries, as the list of their tokens.
ghost use Rattle.std.specs.Prelude.{◌≡◌};
ghost use Rattle.query_text.specs.Query.{Disjunction, IsQuery};

use dobj_field::{Field, ScalarTest};
use std::marker::Model;

/// A token of a query.
#[derive(Debug, Drop)]
pub enum Token {
    /// `(`
    Open,
    /// `)`
    Close,
    /// `NOT`
    Not,
    /// `AND`
    And,
    /// `OR`
    Or,
    /// `*:*`, which holds of every object.
    Every,
    /// A field, a colon and a value.
    Test {
        /// What the test looks at.
        field: Field,
        /// What a value that the field reaches has to pass.
        test: ScalarTest,
    },
}

/// A query. A contract sees it as the list of its tokens, which are those of a query by `IsQuery` of
/// `specs/Query.antt`.
#[derive(Debug, Drop)]
pub struct Query {
    tokens: Vec<Token>,
}

impl Model for Query {
    ghost use Rattle.std.specs.Prelude.{List};
    ghost use Rattle.query_text.specs.declared.query.Token.{Token};
    ghost use Rattle.query_text.specs.Query.{Disjunction, IsQuery};

    ghost Value = { List Token };

    ghost view = { λ q. q.tokens.items };

    ghost invariant = { λ q. (query : Disjunction) × IsQuery q.tokens.items query };
}

impl Query {
    // The query that these tokens are.
    pub(crate) fn of(tokens: Vec<Token>) -> Query
        requires { (query : Disjunction) × IsQuery tokens.items query }
        ensures { result ≡ tokens.items }
    {
        Query { tokens }
    }

    /// The tokens, in order.
    pub fn tokens(&self) -> &[Token]
        ensures tokens { result.now ≡ self.now }
        ensures query { (query : Disjunction) × IsQuery self.now query }
    {
        self.tokens.as_slice()
    }
}
