//! Why a message is no response.
use doip_json::TextFault;
use doip_message::FieldName;

/// Why a message is no response.
#[derive(Clone, Copy, Debug, PartialEq, Eq)]
pub enum ResponseFault {
    /// It has no segment.
    NoSegment,
    /// Its first segment is bytes.
    FirstIsBytes,
    /// Its first segment isn't JSON, nests deeper than 127, or has a number that isn't an integer.
    Json(TextFault),
    /// Its first segment is no JSON object.
    NotTable,
    /// A property is absent, or has another kind of value.
    Field { name: FieldName },
    /// It has an output in its first segment and segments after it.
    TwoOutputs,
    /// An allocation was refused.
    Memory,
}
