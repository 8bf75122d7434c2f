//! The words of a schema.
ghost use Rattle.std.specs.Prelude.{◌≡◌};

/// A word of JSON Schema draft 4 that a schema may use.
#[derive(Clone, Copy, Debug, PartialEq, Eq)]
pub enum SchemaWord {
    /// `type`.
    Kind,
    /// `enum`.
    Enum,
    /// `minimum`.
    Minimum,
    /// `maximum`.
    Maximum,
    /// `minLength`.
    MinLength,
    /// `maxLength`.
    MaxLength,
    /// `minItems`.
    MinItems,
    /// `maxItems`.
    MaxItems,
    /// `required`.
    Required,
    /// `additionalProperties`.
    AdditionalProperties,
    /// `properties`.
    Properties,
    /// `items`.
    Items,
}

impl SchemaWord {
    ghost use Rattle.schema_core.specs.Names.{name_of};

    /// The word as a schema spells it.
    pub fn word(&self) -> &str
        ensures { result.now ≡ name_of self.now }
    {
        match self {
            SchemaWord::Kind => "type",
            SchemaWord::Enum => "enum",
            SchemaWord::Minimum => "minimum",
            SchemaWord::Maximum => "maximum",
            SchemaWord::MinLength => "minLength",
            SchemaWord::MaxLength => "maxLength",
            SchemaWord::MinItems => "minItems",
            SchemaWord::MaxItems => "maxItems",
            SchemaWord::Required => "required",
            SchemaWord::AdditionalProperties => "additionalProperties",
            SchemaWord::Properties => "properties",
            SchemaWord::Items => "items",
        }
    }
}
