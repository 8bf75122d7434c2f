//! Whether a test holds of every reference in a value, with no list of them.
ghost use Rattle.std.specs.Prelude.{◌≡◌, ℕ, List, [], Bool, option_map, unwrap_or};
ghost use Rattle.doip_json.specs.Value.{values_from, entries_from};
ghost use Rattle.doip_json.specs.Meaning.{value_of};
ghost use Rattle.schema_core.specs.Rules.{words_of};
ghost use Rattle.schema_core.specs.References.{references_in, references_at, entry_references, item_references, own_references, all_pass};

use crate::schema::Schema;
use base_core::Items;
use doip_json::{Json, JsonList, JsonMap, Str};

/// A test of references.
pub trait ReferenceTest {
    /// Whether it holds of a reference to an identifier, of one of some types.
    ghost holds_of: { Self → List ℕ → List (List ℕ) → Bool };

    /// Whether it holds of a reference to this identifier, of one of these types. It takes no memory.
    fn holds(&self, id: &str, types: &Items<Str>) -> bool
        ensures { result ≡ holds_of self.now id.now types.now };
}

/// Whether the test holds of every reference in the value, those that [`references`](crate::references) lists.
///
/// It takes no memory. The test is asked of one reference after another, until it fails. The time is linear in value
/// and schema, beside that of the test. The stack grows with the nesting of the value.
pub fn every_reference<T: ReferenceTest>(schema: &Schema, value: &Json, test: &T) -> bool
    ensures { result ≡ all_pass (T.holds_of test.now) (references_in schema.now (value_of value.now)) }
{
    holds_in(schema, value, test)
}

// Whether the test holds in the value, wherever it stands.
#[cycle(passing)]
fn holds_in<T: ReferenceTest>(schema: &Schema, value: &Json, test: &T) -> bool
    ensures { (names : List (List ℕ))
        → result ≡ all_pass (T.holds_of test.now) (references_at names schema.now (value_of value.now)) }
{
    match value {
        Json::Text(text) => holds_of_text(schema, text, test),
        Json::Table(map) => holds_in_object(schema, map, test),
        Json::Items(items) => match schema.items() {
            Some(inner) => holds_in_array(inner, items, test),
            None => true,
        },
        _ => true,
    }
}

// Whether the test holds of the string, if the schema says that it is a reference.
fn holds_of_text<T: ReferenceTest>(schema: &Schema, text: &Str, test: &T) -> bool
    ensures { (names : List (List ℕ))
        → result ≡ all_pass (T.holds_of test.now) (own_references names (words_of schema.now).reference text.now) }
{
    match &schema.words().reference {
        Some(types) => test.holds(text.get(), types),
        None => true,
    }
}

// Whether the test holds in the value, if a schema is applied to it.
#[cycle(passing)]
fn holds_under<T: ReferenceTest>(schema: Option<&Schema>, value: &Json, test: &T) -> bool
    ensures { (names : List (List ℕ)) → result ≡ all_pass (T.holds_of test.now)
        (unwrap_or (option_map (λ inner. references_at names inner (value_of value.now))
        (option_map (λ inner. inner.now) schema.entry)) []) }
{
    match schema {
        Some(inner) => holds_in(inner, value, test),
        None => true,
    }
}

#[cycle(passing)]
fn holds_in_object<T: ReferenceTest>(schema: &Schema, map: &JsonMap, test: &T) -> bool
    ensures { (names : List (List ℕ))
        → result ≡ all_pass (T.holds_of test.now) (entry_references names schema.now (entries_from map.now)) }
{
    for i in 0..map.len() {
        let inner = schema.property(map.key_at(i).get());
        if !holds_under(inner, map.value_at(i), test) {
            return false;
        }
    }
    true
}

#[cycle(passing)]
fn holds_in_array<T: ReferenceTest>(schema: &Schema, items: &JsonList, test: &T) -> bool
    ensures { (names : List (List ℕ))
        → result ≡ all_pass (T.holds_of test.now) (item_references names schema.now 0 (values_from items.now)) }
{
    for i in 0..items.len() {
        if !holds_in(schema, items.item(i), test) {
            return false;
        }
    }
    true
}
