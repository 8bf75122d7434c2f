//! The words that a value fails by itself.
ghost use Rattle.std.specs.Prelude.{◌≡◌, ◌<◌, ◌<ℤ◌, ◌↔◌, IsTrue, Any, Contains, IsSomeAnd, Some, None, length, chars};
ghost use Rattle.doip_json.specs.Meaning.{value_of};
ghost use Rattle.doip_json.specs.Look.{entry_of};
ghost use Rattle.schema_core.specs.declared.word.SchemaWord.TheVariants as word;
ghost use Rattle.schema_core.specs.Failing.{has_kind, AreBothAnd, number_in, string_in, array_in, object_in, FailsHere};
ghost use Rattle.schema_core.specs.First.{IsFirstHere};

use crate::kind::Kind;
use crate::word::SchemaWord;
use crate::words::Words;
use doip_json::{Json, JsonList, is_same};

/// The order in which the words are tried on one value.
const ORDER: [SchemaWord; 9] = [
    SchemaWord::Kind,
    SchemaWord::Enum,
    SchemaWord::Minimum,
    SchemaWord::Maximum,
    SchemaWord::MinLength,
    SchemaWord::MaxLength,
    SchemaWord::MinItems,
    SchemaWord::MaxItems,
    SchemaWord::Required,
];

// Whether the value is of the kind.
fn is_of_kind(value: &Json, kind: Kind) -> bool
    ensures { result ≡ has_kind (value_of value.now) kind }
{
    match (value, kind) {
        (Json::Null, Kind::Null) => true,
        (Json::Truth(_), Kind::Boolean) => true,
        (Json::Whole(_), Kind::Integer) => true,
        (Json::Whole(_), Kind::Number) => true,
        (Json::Text(_), Kind::String) => true,
        (Json::Items(_), Kind::Array) => true,
        (Json::Table(_), Kind::Object) => true,
        _ => false,
    }
}

// The number of code points of a string.
fn code_points(text: &str) -> u64
    ensures { result ≡ length (chars text.now) }
{
    text.chars().count() as u64
}

// Whether the value is one of the members.
fn is_member(members: &JsonList, value: &Json) -> bool
    ensures { IsTrue result ↔ Contains members.now (value_of value.now) }
{
    for i in 0..members.len() {
        if is_same(members.item(i), value) {
            return true;
        }
    }
    false
}

impl Words {
    /// The first word that the value fails by itself.
    pub(crate) fn failure(&self, value: &Json) -> Option<SchemaWord>
        ensures { IsFirstHere self.now (value_of value.now) result }
    {
        for word in ORDER {
            if self.is_failed(word, value) {
                return Some(word);
            }
        }
        None
    }

    // Whether the value fails this word by itself.
    fn is_failed(&self, word: SchemaWord, value: &Json) -> bool
        ensures { IsTrue result ↔ FailsHere self.now (value_of value.now) word }
    {
        match word {
            SchemaWord::Kind => self.is_of_no_kind(value),
            SchemaWord::Enum => self.is_no_member(value),
            SchemaWord::Minimum => self.is_below(value),
            SchemaWord::Maximum => self.is_above(value),
            SchemaWord::MinLength => self.is_too_short(value),
            SchemaWord::MaxLength => self.is_too_long(value),
            SchemaWord::MinItems => self.has_too_few(value),
            SchemaWord::MaxItems => self.has_too_many(value),
            SchemaWord::Required => self.lacks_one(value),
            SchemaWord::AdditionalProperties | SchemaWord::Properties | SchemaWord::Items => false,
        }
    }

    fn is_of_no_kind(&self, value: &Json) -> bool
        ensures { IsTrue result ↔ FailsHere self.now (value_of value.now) word.Kind }
    {
        match &self.kinds {
            Some(kinds) => !kinds.as_slice().iter().any(|kind| is_of_kind(value, *kind)),
            None => false,
        }
    }

    fn is_no_member(&self, value: &Json) -> bool
        ensures { IsTrue result ↔ FailsHere self.now (value_of value.now) word.Enum }
    {
        match &self.members {
            Some(members) => !is_member(members, value),
            None => false,
        }
    }

    fn is_below(&self, value: &Json) -> bool
        ensures { IsTrue result ↔ FailsHere self.now (value_of value.now) word.Minimum }
    {
        match (&self.minimum, value) {
            (Some(least), Json::Whole(number)) => number.get() < least.get(),
            _ => false,
        }
    }

    fn is_above(&self, value: &Json) -> bool
        ensures { IsTrue result ↔ FailsHere self.now (value_of value.now) word.Maximum }
    {
        match (&self.maximum, value) {
            (Some(most), Json::Whole(number)) => number.get() > most.get(),
            _ => false,
        }
    }

    fn is_too_short(&self, value: &Json) -> bool
        ensures { IsTrue result ↔ FailsHere self.now (value_of value.now) word.MinLength }
    {
        match (&self.min_length, value) {
            (Some(least), Json::Text(text)) => code_points(text.get()) < *least,
            _ => false,
        }
    }

    fn is_too_long(&self, value: &Json) -> bool
        ensures { IsTrue result ↔ FailsHere self.now (value_of value.now) word.MaxLength }
    {
        match (&self.max_length, value) {
            (Some(most), Json::Text(text)) => code_points(text.get()) > *most,
            _ => false,
        }
    }

    fn has_too_few(&self, value: &Json) -> bool
        ensures { IsTrue result ↔ FailsHere self.now (value_of value.now) word.MinItems }
    {
        match (&self.min_items, value) {
            (Some(least), Json::Items(list)) => (list.len() as u64) < *least,
            _ => false,
        }
    }

    fn has_too_many(&self, value: &Json) -> bool
        ensures { IsTrue result ↔ FailsHere self.now (value_of value.now) word.MaxItems }
    {
        match (&self.max_items, value) {
            (Some(most), Json::Items(list)) => list.len() as u64 > *most,
            _ => false,
        }
    }

    fn lacks_one(&self, value: &Json) -> bool
        ensures { IsTrue result ↔ FailsHere self.now (value_of value.now) word.Required }
    {
        match value {
            Json::Table(map) => self
                .required
                .as_slice()
                .iter()
                .any(|key| map.get(key.get()).is_none()),
            _ => false,
        }
    }
}
