//! A schema, as it is kept.
ghost use Rattle.std.specs.Prelude.{◌≡◌, option_map, length};

use crate::words::Words;
use indexmap::IndexSet;
use std::marker::Model;

/// A schema: the words on a value itself, `properties` as a map and `items` as a box.
///
/// It is read once, by [`schema_of`](crate::schema_of), and dropping it recurses as deep as schemas nest in it.
#[derive(Debug, Drop)]
pub struct Schema {
    words: Words,
    // The keys under `properties`, by a hash of each.
    keys: IndexSet<String>,
    // The schema of each, at the place of its key.
    properties: Vec<Schema>,
    items: Option<Box<Schema>>,
}

impl Model for Schema {
    ghost use Rattle.schema_core.specs.Rules.{Rules};
    ghost use Rattle.schema_core.specs.Stored.{rules_code};

    ghost Value = { Rules };

    ghost coded = { rules_code };

    ghost use Rattle.std.specs.Prelude.{◌≡◌, length};
    ghost use Rattle.schema_core.specs.Rules.{height_of};
    ghost use Rattle.schema_core.specs.Kept.{stated};

    ghost view = { stated };

    ghost invariant = { λ s. length s.keys.keys ≡ length s.properties.items };

    ghost size = { height_of };

    ghost use Rattle.schema_core.specs.Falls.{schemas_fall};

    ghost size_decreases = { λ s h. schemas_fall s h };
}

impl Schema {
    ghost use Rattle.schema_core.specs.Rules.{rules, words_of, property_of, items_of};
    ghost use Rattle.schema_core.specs.Kept.{keyed, within_from};

    // A schema of these words, properties and items. Each property has its key at its own place.
    pub(crate) fn of(
        words: Words,
        keys: IndexSet<String>,
        properties: Vec<Schema>,
        items: Option<Box<Schema>>,
    ) -> Schema
        requires { length keys.keys ≡ length properties.items }
        ensures { result ≡ rules words (keyed keys.keys properties.items) (within_from items) }
    {
        Schema {
            words,
            keys,
            properties,
            items,
        }
    }

    // The words on the value itself.
    pub(crate) fn words(&self) -> &Words
        ensures { result.now ≡ words_of self.now }
    {
        &self.words
    }

    // The schema of the items, if there is one.
    pub(crate) fn items(&self) -> Option<&Schema>
        ensures { option_map (λ inner. inner.now) result ≡ items_of self.now }
    {
        match &self.items {
            Some(inner) => Some(inner),
            None => None,
        }
    }

    // The schema under `properties` of the key, if there is one.
    pub(crate) fn property(&self, key: &str) -> Option<&Schema>
        ensures { option_map (λ inner. inner.now) result ≡ property_of key.now self.now }
    {
        match self.keys.get_index_of(key) {
            Some(place) => self.properties.get(place),
            None => None,
        }
    }
}
