//! Laws on the definitions. Their bodies are empty.
ghost use Rattle.std.specs.Prelude.{◌≡◌, ◌&&◌, Bool, List, Option, true, ℕ};
ghost use Rattle.std.specs.List.{Contains, filter};
ghost use Rattle.dobj_model.specs.declared.object.ObjectValue.{ObjectValue};
ghost use Rattle.query_text.specs.declared.query.Token.{Token};
ghost use Rattle.query_text.specs.Query.{Disjunction, IsQuery};
ghost use Rattle.query_text.specs.Spelling.{Spelt};
ghost use Rattle.query_core.specs.declared.order.SortKey.{SortKey};
ghost use Rattle.query_core.specs.Meaning.{holds};
ghost use Rattle.query_core.specs.Hits.{AreApart, AreTheHits, IsHit};
ghost use Rattle.query_core.specs.Page.{IsPage, IsPageOf};
ghost use Rattle.query_core.specs.Sorting.{NamesKeys};

/// A text has at most one meaning: in whatever way it is read as a query, that holds of the same objects.
pub fn one_meaning_of_a_text()
    ensures { (text : List ℕ) (tokens others : List Token) (query other : Disjunction) (object : ObjectValue)
        → Spelt true text tokens → IsQuery tokens query → Spelt true text others → IsQuery others other
        → holds query object ≡ holds other object }
{}

/// A text names at most one list of keys.
pub fn one_list_of_keys()
    ensures { (text : List ℕ) (keys others : List SortKey) → NamesKeys text keys → NamesKeys text others
        → keys ≡ others }
{}

/// A scan finds the hits: of objects of which no two have one identifier, it keeps those that may be read and of which
/// the query holds.
pub fn a_scan_finds_the_hits()
    ensures { (objects : List ObjectValue) (may_read : ObjectValue → Bool) (query : Disjunction) → AreApart objects
        → AreTheHits (IsHit (Contains objects) may_read query)
        (filter (λ object. may_read object && holds query object) objects) }
{}

/// The page of a list that has the hits of a set, each once, is the page of that set. So another way to find them owes
/// such a list, and nothing more.
pub fn the_page_of_a_list_is_that_of_its_set()
    ensures { (objects hits page : List ObjectValue) (may_read : ObjectValue → Bool) (query : Disjunction)
        (keys : List SortKey) (number : ℕ) (size : Option ℕ)
        → AreTheHits (IsHit (Contains objects) may_read query) hits → IsPage keys hits number size page
        → IsPageOf keys (IsHit (Contains objects) may_read query) number size page }
{}

/// Two lists of the same hits have one page: it doesn't depend on the order in which the hits are found.
pub fn one_page_of_the_same_hits()
    ensures { (keys : List SortKey) (hits others page other : List ObjectValue) (number : ℕ) (size : Option ℕ)
        → AreApart hits → AreTheHits (Contains hits) others
        → IsPage keys hits number size page → IsPage keys others number size other → page ≡ other }
{}
