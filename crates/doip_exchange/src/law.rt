//! What is written reads back: laws, which do nothing when they run.
ghost use Rattle.std.specs.Prelude.{◌≡◌, ◌≢◌, List, Ok, Err, option_map};
ghost use Rattle.doip_json.specs.Value.{text};
ghost use Rattle.doip_json.specs.Sound.{IsSound};
ghost use Rattle.doip_segment.specs.Segments.{Segment};
ghost use Rattle.doip_message.specs.declared.response.Status.{Status};
ghost use Rattle.doip_message.specs.Asked.{Asked, content_of};
ghost use Rattle.doip_message.specs.Reading.{request};
ghost use Rattle.doip_message.specs.Reply.{Replied, replied_of, response_segments, status_text, output_value};
ghost use Rattle.doip_exchange.specs.Question.{question_value, request_segments, IsAskable};
ghost use Rattle.doip_exchange.specs.Answer.{answer_value, response, status_named, IsReadable, IsOwn};
ghost use Rattle.doip_exchange.specs.Held.{IsSoundIf};
ghost use Rattle.doip_exchange.specs.declared.fault.ResponseFault.TheVariants.{Memory};

use crate::sound::{recall, recall_map};
use doip_json::Str;
use doip_message::{Body, Response};

/// What a client asks is what a service reads, and what a service replies is what a client reads: of plain data that
/// values can have. No message is a fault of memory.
pub fn messages_read_back()
    ensures requests { (q : Asked) → IsAskable q → IsSound (question_value q) → request (request_segments q) ≡ Ok q }
    ensures responses { (p : Replied) → IsReadable p → IsSound (answer_value p)
        → response (response_segments p) ≡ Ok p }
    ensures statuses { (status : Status) → IsOwn status → status_named (status_text status) ≡ status }
    ensures memory { (segments : List Segment) → response segments ≢ Err Memory }
{}

/// The message that `response_message` makes of a response reads as that response. It looks at each value of the response
/// once, and changes nothing: a proof calls it for its clause.
pub fn response_reads_back(reply: &Response)
    requires { IsReadable (replied_of reply.now) }
    ensures { response (response_segments (replied_of reply.now)) ≡ Ok (replied_of reply.now) }
{
    recall_map(&reply.attributes);
    recall_output(&reply.output);
    recall_id(&reply.request_id);
    let _ = reply.status.text();
}

// An output of one value is sound.
fn recall_output(output: &Body)
    ensures { IsSoundIf (output_value (content_of output.now)) }
{
    if let Body::Value(value) = output {
        recall(value);
    }
}

// A request id is UTF-8.
fn recall_id(id: &Option<Str>)
    ensures { IsSoundIf (option_map text id.now) }
{
    if let Some(id) = id {
        let _ = id.get();
    }
}
