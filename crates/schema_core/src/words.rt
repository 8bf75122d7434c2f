//! The words of a schema that speak of the value itself.

use crate::kind::Kind;
use base_core::Items;
use doip_json::{JsonList, Num, Str};

/// The words that speak of the value itself, each absent where the schema lacks it.
#[derive(Debug, Drop)]
pub struct Words {
    /// `type`: the kinds of which the value has to be one.
    pub kinds: Option<Items<Kind>>,
    /// `enum`: the values of which it has to be one.
    pub members: Option<JsonList>,
    /// `minimum`: the least number.
    pub minimum: Option<Num>,
    /// `maximum`: the greatest number.
    pub maximum: Option<Num>,
    /// `minLength`: the least number of code points.
    pub min_length: Option<u64>,
    /// `maxLength`: the greatest number of code points.
    pub max_length: Option<u64>,
    /// `minItems`: the least number of items.
    pub min_items: Option<u64>,
    /// `maxItems`: the greatest number of items.
    pub max_items: Option<u64>,
    /// `required`: the keys that an object has to have; none where the schema lacks the word.
    pub required: Items<Str>,
    /// `additionalProperties`: whether an object may have keys outside `properties`; `true` where the schema lacks it.
    pub additional_properties: bool,
    /// `cordra`: the names of the types to one of which a string refers.
    pub reference: Option<Items<Str>>,
}
