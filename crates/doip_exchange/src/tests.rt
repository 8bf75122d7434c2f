//! First segments with the fault that each gives, and requests with the text of theirs.
use super::*;
use doip_json::{Json, JsonMap, Str, TextFault};
use doip_message::{Body, FieldName, Request, request_of};
use doip_segment::{Kind, Message};
use std::alloc::{AllocError, Global};
use std::test::Fail;

// A message of this first segment, with one of the byte `b` after it where asked.
fn message_of(alloc: Global, first: &[u8], has_more: bool) -> Result<Message, AllocError> {
    let mut message = Message::empty(alloc);
    message.push(Kind::Json, first)?;
    if has_more {
        message.push(Kind::Bytes, b"b")?;
    }
    Ok(message)
}

// Why this message is no response, `None` if it is one.
fn fault_of(
    alloc: Global,
    first: &[u8],
    has_more: bool,
) -> Result<Option<ResponseFault>, AllocError> {
    let message = message_of(alloc, first, has_more)?;
    match response_of(alloc, &message) {
        Ok(_) => Ok(None),
        Err(fault) => Ok(Some(fault)),
    }
}

fn field(name: FieldName) -> Option<ResponseFault> {
    Some(ResponseFault::Field { name })
}

#[test]
fn the_first_fault_is_reported(rt: HostRuntime) -> Result<(), Fail> {
    let alloc = rt.alloc();
    let rows: [(&[u8], bool, Option<ResponseFault>); 14] = [
        (b"x", true, Some(ResponseFault::Json(TextFault::NotJson))),
        (b"1.5", true, Some(ResponseFault::Json(TextFault::NotWhole))),
        (b"[]", false, Some(ResponseFault::NotTable)),
        (b"{\"requestId\":1}", false, field(FieldName::RequestId)),
        (b"{\"requestId\":\"a\"}", true, field(FieldName::Status)),
        (b"{\"status\":null}", false, field(FieldName::Status)),
        (
            b"{\"status\":1,\"attributes\":1}",
            false,
            field(FieldName::Status),
        ),
        (
            b"{\"status\":\"\",\"attributes\":[]}",
            false,
            field(FieldName::Attributes),
        ),
        (
            b"{\"status\":\"\",\"output\":1}",
            true,
            Some(ResponseFault::TwoOutputs),
        ),
        // `null` counts as absent, and other properties are not read.
        (b"{\"status\":\"\",\"output\":null}", true, None),
        (b"{\"status\":\"\",\"requestId\":null}", false, None),
        (b"{\"status\":\"\",\"attributes\":null}", false, None),
        (b"{\"status\":\"\",\"output\":[1]}", false, None),
        (b" { \"x\" : 1 , \"status\" : \"s\" } ", true, None),
    ];
    for (first, has_more, want) in rows {
        let got = fault_of(alloc, first, has_more)?;
        assert!(rt; got == want);
    }
    Ok(())
}

// Whether these segments aren't read at all.
fn is_refused_first(alloc: Global) -> Result<bool, AllocError> {
    let none = Message::empty(alloc);
    let mut bytes = Message::empty(alloc);
    bytes.push(Kind::Bytes, b"{}")?;
    Ok(
        matches!(response_of(alloc, &none), Err(ResponseFault::NoSegment))
            && matches!(response_of(alloc, &bytes), Err(ResponseFault::FirstIsBytes)),
    )
}

#[test]
fn a_message_without_a_json_segment_is_no_response(rt: HostRuntime) -> Result<(), Fail> {
    assert!(rt; is_refused_first(rt.alloc())?);
    Ok(())
}

fn least(alloc: Global) -> Result<Request, AllocError> {
    Ok(Request {
        request_id: None,
        target_id: Str::of(alloc, "t")?,
        operation_id: Str::of(alloc, "o")?,
        attributes: JsonMap::empty(alloc),
        authentication: None,
        input: Body::Nothing,
    })
}

// A request with every property.
fn whole(alloc: Global) -> Result<Request, AllocError> {
    let mut request = least(alloc)?;
    request.request_id = Some(Str::of(alloc, "a")?);
    request
        .attributes
        .put(Str::of(alloc, "k")?, Json::Truth(true))?;
    request.authentication = Some(Json::Truth(false));
    request.input = Body::Value(Json::Text(Str::of(alloc, "v")?));
    Ok(request)
}

// Whether the request's first segment has this text, and the message is read as a request with the same text.
fn is_written(alloc: Global, request: &Request, text: &[u8]) -> Result<bool, AllocError> {
    let message = request_message(alloc, request)?;
    if message.count() != 1 || message.bytes(0) != text {
        return Ok(false);
    }
    let Ok(again) = request_of(alloc, &message) else {
        return Ok(false);
    };
    let second = request_message(alloc, &again)?;
    Ok(second.count() == 1 && second.bytes(0) == text)
}

#[test]
fn a_request_is_written_and_read(rt: HostRuntime) -> Result<(), Fail> {
    let alloc = rt.alloc();
    let request = least(alloc)?;
    assert!(rt;
        is_written(
            alloc,
            &request,
            b"{\"operationId\":\"o\",\"targetId\":\"t\"}"
        )?
    );
    let request = whole(alloc)?;
    let text = "{\"attributes\":{\"k\":true},\"authentication\":false,\"input\":\"v\",\
        \"operationId\":\"o\",\"requestId\":\"a\",\"targetId\":\"t\"}";
    assert!(rt; is_written(alloc, &request, text.as_bytes())?);
    Ok(())
}
