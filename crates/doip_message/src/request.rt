//! A request, and why a message is none.
use doip_json::{Json, JsonMap, Str, TextFault};
use doip_segment::Message;

/// What a request brings, or a response returns, beside its properties.
#[derive(Debug, Drop)]
pub enum Body {
    /// Nothing.
    Nothing,
    /// One JSON value, in the first segment.
    Value(Json),
    /// Segments after the first.
    Parts(Message),
}

/// What a client asks. It has no `Debug`, which would print credentials.
#[derive(Drop)]
pub struct Request {
    /// The client's id of this request, which the response repeats.
    pub request_id: Option<Str>,
    /// The identifier of the service or of the object that is asked.
    pub target_id: Str,
    /// The identifier of the operation.
    pub operation_id: Str,
    /// The operation's arguments; empty if the request has none.
    pub attributes: JsonMap,
    /// Who asks, absent if the request has none or an empty JSON object.
    pub authentication: Option<Json>,
    /// The input.
    pub input: Body,
}

/// A property that a request or a response has.
#[derive(Clone, Copy, Debug, PartialEq, Eq)]
pub enum FieldName {
    RequestId,
    TargetId,
    OperationId,
    Attributes,
    Status,
}

/// Why a message is no request.
#[derive(Clone, Copy, Debug, PartialEq, Eq)]
pub enum Why {
    /// It has no segment.
    NoSegment,
    /// Its first segment is bytes.
    FirstIsBytes,
    /// Its first segment isn't JSON, nests deeper than 64, or has a number that isn't an integer.
    Json(TextFault),
    /// Its first segment is no JSON object.
    NotTable,
    /// A property is absent, or has another kind of value.
    Field { name: FieldName },
    /// It has an input in its first segment and segments after it.
    TwoInputs,
    /// An allocation was refused.
    Memory,
}

/// A message that is no request, with its request id if the fault leaves it readable.
#[derive(Debug, Drop)]
pub struct RequestFault {
    /// Present for faults of a property and for two inputs, if the property is a string.
    pub request_id: Option<Str>,
    /// The first fault.
    pub why: Why,
}
