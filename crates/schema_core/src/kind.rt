//! The kinds of JSON values that a schema may ask for.

/// A kind of value, as the word `type` names it (JSON Schema draft 4, validation, 5.5.2).
#[derive(Clone, Copy, Debug, PartialEq, Eq)]
pub enum Kind {
    /// `null`.
    Null,
    /// `boolean`.
    Boolean,
    /// `integer`.
    Integer,
    /// `number`, which every integer is too.
    Number,
    /// `string`.
    String,
    /// `array`.
    Array,
    /// `object`.
    Object,
}
