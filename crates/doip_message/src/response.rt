//! A response and its status.
ghost use Rattle.std.specs.Prelude.{◌≡◌};

use crate::request::Body;
use doip_json::{JsonMap, Str};

/// How an operation ended, by the status identifiers of DOIP 2.0.
#[derive(Debug, Drop)]
pub enum Status {
    /// 001: done.
    Done,
    /// 101: the request is invalid.
    Invalid,
    /// 102: the client didn't authenticate.
    NotAuthenticated,
    /// 103: authenticated, but not permitted.
    NotPermitted,
    /// 104: the object isn't known.
    Unknown,
    /// 105: the identifier is in use.
    InUse,
    /// 200: the service declines to execute the operation.
    Declined,
    /// 500: another error.
    Other500,
    /// A status of another service, which this server never makes.
    Foreign(Str),
}

impl Status {
    ghost use Rattle.doip_message.specs.Reply.{status_text};

    /// The identifier of the status.
    pub fn text(&self) -> &str
        ensures { result.now ≡ status_text self.now }
    {
        match self {
            Status::Done => "0.DOIP/Status.001",
            Status::Invalid => "0.DOIP/Status.101",
            Status::NotAuthenticated => "0.DOIP/Status.102",
            Status::NotPermitted => "0.DOIP/Status.103",
            Status::Unknown => "0.DOIP/Status.104",
            Status::InUse => "0.DOIP/Status.105",
            Status::Declined => "0.DOIP/Status.200",
            Status::Other500 => "0.DOIP/Status.500",
            Status::Foreign(text) => text.get(),
        }
    }
}

/// What a service replies.
#[derive(Debug, Drop)]
pub struct Response {
    /// The request id, if the request had one.
    pub request_id: Option<Str>,
    /// How it ended.
    pub status: Status,
    /// The attributes; a refusal has the one attribute `message`.
    pub attributes: JsonMap,
    /// The output.
    pub output: Body,
}
