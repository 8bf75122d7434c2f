//! Laws on the definitions. Their bodies are empty.
ghost use Rattle.std.specs.Prelude.{◌≡◌, List, ℕ, true};
ghost use Rattle.query_text.specs.declared.query.Token.{Token};
ghost use Rattle.query_text.specs.Spelling.{IsQueryText};

/// A text is a query with at most one list of tokens.
pub fn one_list_of_tokens()
    ensures { (text : List ℕ) (tokens others : List Token) → IsQueryText true text tokens
        → IsQueryText true text others → tokens ≡ others }
{}
