//! Reading queries.
ghost use Rattle.std.specs.Prelude.{◌≡◌, ℕ, true, IfOk, IsErrOf};
ghost use Rattle.query_text.specs.Spelling.{IsQueryText, AQuery};
ghost use Rattle.query_text.specs.Faults.{IsFault};

use crate::fault::QueryFault;
use crate::nesting::Nesting;
use crate::query::Query;
use crate::range::white_end;
use crate::tokens::token_of;
use std::alloc::Global;

/// The query that a text is, by the grammar of `IsQueryText`.
///
/// A fault is at the first byte by which no query can begin so, whatever its numbers, and at the text's length where no
/// byte shows it. A bound whose number is out of range is a fault at the bound's first byte. Linear in the text.
pub fn query_of(alloc: Global, text: &str) -> Result<Query, QueryFault>
    ensures query { IfOk result (IsQueryText true text.now) }
    ensures place { (place : ℕ) → IsErrOf result (QueryFault.At place) → IsFault AQuery text.now place }
{
    let bytes = text.as_bytes();
    let mut tokens = Vec::new(alloc);
    let mut nesting = Nesting::start(alloc);
    let mut at = white_end(bytes, 0);
    while at < bytes.len() {
        match token_of(alloc, &bytes[at..], &nesting) {
            Ok((token, len)) => {
                nesting.enter(&token)?;
                tokens.push(token)?;
                at = white_end(bytes, at + len);
            }
            Err(QueryFault::At { place }) => return Err(QueryFault::At { place: at + place }),
            Err(QueryFault::Memory) => return Err(QueryFault::Memory),
        }
    }
    if !nesting.is_done() {
        return Err(QueryFault::At { place: at });
    }
    Ok(Query::of(tokens))
}
