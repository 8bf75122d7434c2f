//! First segments with the request or the fault that each gives, and responses with their bytes.
use super::*;
use doip_json::{Bytes, Json, JsonMap, Str, TextFault, read, text};
use doip_segment::{Kind, Message, append_segment};
use std::alloc::{AllocError, Global};
use std::test::Fail;

// A message of this first segment, with one of the byte `b` after it where asked.
fn message_of(alloc: Global, first: &[u8], has_more: bool) -> Result<Message, AllocError> {
    let mut message = Message::empty(alloc);
    message.push(Kind::Json, first)?;
    if has_more {
        message.push(Kind::Bytes, b"b")?;
    }
    Ok(message)
}

fn text_or_dash(alloc: Global, text: &Option<Str>) -> Result<Bytes, AllocError> {
    match text {
        Some(text) => Bytes::of(alloc, text.get().as_bytes()),
        None => Bytes::of(alloc, b"-"),
    }
}

// The properties of a request in the order of its type, `-` for what is absent and the number of its parts.
fn shown(alloc: Global, request: Request) -> Result<Vec<u8>, AllocError> {
    let request_id = text_or_dash(alloc, &request.request_id)?;
    let target = Bytes::of(alloc, request.target_id.get().as_bytes())?;
    let operation = Bytes::of(alloc, request.operation_id.get().as_bytes())?;
    let attributes = text(alloc, &Json::Table(request.attributes))?;
    let who = match &request.authentication {
        Some(who) => text(alloc, who)?,
        None => Bytes::of(alloc, b"-")?,
    };
    let input = match &request.input {
        Body::Nothing => Bytes::of(alloc, b"-")?,
        Body::Value(value) => text(alloc, value)?,
        Body::Parts(parts) => {
            Bytes::from(format!(in alloc; "{} more", parts.count())?.into_bytes())
        }
    };
    let mut out = Vec::new(alloc);
    for piece in [&request_id, &target, &operation, &attributes, &who, &input] {
        out.extend_from_slice(piece.get())?;
        out.push(b';')?;
    }
    Ok(out)
}

#[test]
fn each_first_segment_gives_its_request(rt: HostRuntime) -> Result<(), Fail> {
    let alloc = rt.alloc();
    let rows: [(&[u8], bool, &[u8]); 10] = [
        (
            b"{\"targetId\":\"t\",\"operationId\":\"o\"}",
            false,
            b"-;t;o;{};-;-;",
        ),
        (
            b"{\"targetId\":\"t\",\"operationId\":\"o\"}",
            true,
            b"-;t;o;{};-;1 more;",
        ),
        (
            b"{\"requestId\":\"a\",\"targetId\":\"t\",\"operationId\":\"o\",\
              \"attributes\":{\"k\":null},\"authentication\":{\"u\":\"x\"},\"input\":[1]}",
            false,
            b"a;t;o;{\"k\":null};{\"u\":\"x\"};[1];",
        ),
        // The order of the properties is free, and others are not read.
        (
            b" { \"x\" : 1 , \"operationId\" : \"o\" , \"clientId\" : 2 ,\
              \"targetId\" : \"t\" , \"requestId\" : \"a\" } ",
            false,
            b"a;t;o;{};-;-;",
        ),
        // Null counts as absent.
        (
            b"{\"requestId\":null,\"targetId\":\"t\",\"operationId\":\"o\",\
              \"attributes\":null,\"authentication\":null,\"input\":null}",
            false,
            b"-;t;o;{};-;-;",
        ),
        (
            b"{\"targetId\":\"t\",\"operationId\":\"o\",\"input\":null}",
            true,
            b"-;t;o;{};-;1 more;",
        ),
        // So does an empty JSON object of credentials, and no other value of them.
        (
            b"{\"targetId\":\"t\",\"operationId\":\"o\",\"authentication\":{}}",
            false,
            b"-;t;o;{};-;-;",
        ),
        (
            b"{\"targetId\":\"t\",\"operationId\":\"o\",\"authentication\":[],\"input\":{}}",
            false,
            b"-;t;o;{};[];{};",
        ),
        (
            b"{\"targetId\":\"t\",\"operationId\":\"o\",\"authentication\":false,\"input\":\"\"}",
            false,
            b"-;t;o;{};false;\"\";",
        ),
        (
            b"{\"requestId\":\"\",\"targetId\":\"\",\"operationId\":\"\\u00e9\"}",
            false,
            b";;\xc3\xa9;{};-;-;",
        ),
    ];
    for (first, has_more, want) in rows {
        let got = match request_of(alloc, &message_of(alloc, first, has_more)?) {
            Ok(request) => shown(alloc, request)?,
            Err(_) => return Err(Fail::from("no request")),
        };
        assert_eq!(rt; got.as_slice(), want, "{first:?}");
    }
    Ok(())
}

fn field(name: FieldName) -> Why {
    Why::Field { name }
}

#[test]
fn the_first_fault_is_reported_with_the_request_id(rt: HostRuntime) -> Result<(), Fail> {
    let alloc = rt.alloc();
    let rows: [(&[u8], bool, Why, &[u8]); 25] = [
        (b"x", true, Why::Json(TextFault::NotJson), b"-"),
        (b"[1.5]", false, Why::Json(TextFault::NotWhole), b"-"),
        (
            b"{\"requestId\":\"a\",\"input\":1.5}",
            true,
            Why::Json(TextFault::NotWhole),
            b"-",
        ),
        (b"[]", false, Why::NotTable, b"-"),
        (b"null", true, Why::NotTable, b"-"),
        // The request id, alone and with each later fault.
        (
            b"{\"requestId\":1,\"targetId\":\"t\",\"operationId\":\"o\"}",
            false,
            field(FieldName::RequestId),
            b"-",
        ),
        (
            b"{\"requestId\":[],\"operationId\":\"o\"}",
            false,
            field(FieldName::RequestId),
            b"-",
        ),
        (
            b"{\"requestId\":{},\"targetId\":\"t\",\"operationId\":0}",
            false,
            field(FieldName::RequestId),
            b"-",
        ),
        (
            b"{\"requestId\":true,\"targetId\":\"t\",\"operationId\":\"o\",\"attributes\":0}",
            false,
            field(FieldName::RequestId),
            b"-",
        ),
        (
            b"{\"requestId\":0,\"targetId\":\"t\",\"operationId\":\"o\",\"input\":0}",
            true,
            field(FieldName::RequestId),
            b"-",
        ),
        // The target.
        (
            b"{\"requestId\":\"a\",\"operationId\":\"o\"}",
            false,
            field(FieldName::TargetId),
            b"a",
        ),
        (
            b"{\"requestId\":null,\"targetId\":null,\"operationId\":\"o\"}",
            false,
            field(FieldName::TargetId),
            b"-",
        ),
        (
            b"{\"requestId\":\"a\",\"targetId\":1}",
            false,
            field(FieldName::TargetId),
            b"a",
        ),
        (
            b"{\"targetId\":{},\"operationId\":\"o\",\"attributes\":[]}",
            false,
            field(FieldName::TargetId),
            b"-",
        ),
        (
            b"{\"requestId\":\"\",\"operationId\":\"o\",\"input\":0}",
            true,
            field(FieldName::TargetId),
            b"",
        ),
        // The operation.
        (
            b"{\"targetId\":\"t\"}",
            false,
            field(FieldName::OperationId),
            b"-",
        ),
        (
            b"{\"requestId\":\"a\",\"targetId\":\"t\",\"operationId\":[]}",
            false,
            field(FieldName::OperationId),
            b"a",
        ),
        (
            b"{\"attributes\":\"\",\"targetId\":\"t\",\"operationId\":null}",
            false,
            field(FieldName::OperationId),
            b"-",
        ),
        (
            b"{\"requestId\":\"a\",\"targetId\":\"t\",\"input\":0}",
            true,
            field(FieldName::OperationId),
            b"a",
        ),
        // The attributes.
        (
            b"{\"requestId\":\"a\",\"attributes\":1,\"targetId\":\"t\",\"operationId\":\"o\"}",
            false,
            field(FieldName::Attributes),
            b"a",
        ),
        (
            b"{\"attributes\":[],\"targetId\":\"t\",\"operationId\":\"o\",\"input\":0}",
            true,
            field(FieldName::Attributes),
            b"-",
        ),
        // Two inputs, whatever the first is.
        (
            b"{\"requestId\":\"a\",\"targetId\":\"t\",\"operationId\":\"o\",\"input\":0}",
            true,
            Why::TwoInputs,
            b"a",
        ),
        (
            b"{\"targetId\":\"t\",\"operationId\":\"o\",\"input\":false}",
            true,
            Why::TwoInputs,
            b"-",
        ),
        (
            b"{\"requestId\":null,\"targetId\":\"t\",\"operationId\":\"o\",\"input\":{}}",
            true,
            Why::TwoInputs,
            b"-",
        ),
        (
            b"{\"requestId\":\"-\",\"targetId\":\"t\",\"operationId\":\"o\",\"input\":\"\"}",
            true,
            Why::TwoInputs,
            b"-",
        ),
    ];
    for (first, has_more, why, request_id) in rows {
        match request_of(alloc, &message_of(alloc, first, has_more)?) {
            Ok(_) => return Err(Fail::from("no fault")),
            Err(fault) => {
                assert_eq!(rt; fault.why, why, "{first:?}");
                let shown = text_or_dash(alloc, &fault.request_id)?;
                assert_eq!(rt; shown.get(), request_id, "{first:?}");
            }
        }
    }
    Ok(())
}

#[test]
fn a_message_without_a_first_text_is_no_request(rt: HostRuntime) -> Result<(), Fail> {
    let alloc = rt.alloc();
    let mut message = Message::empty(alloc);
    assert!(rt;
        matches!(
            request_of(alloc, &message),
            Err(RequestFault {
                request_id: None,
                why: Why::NoSegment
            })
        )
    );
    message.push(Kind::Bytes, b"{}")?;
    message.push(Kind::Json, b"{}")?;
    assert!(rt;
        matches!(
            request_of(alloc, &message),
            Err(RequestFault {
                request_id: None,
                why: Why::FirstIsBytes
            })
        )
    );
    Ok(())
}

// A request whose input nests this often, round a number that isn't an integer if asked.
fn nested(alloc: Global, times: u8, has_fraction: bool) -> Result<Message, AllocError> {
    let mut first = Vec::new(alloc);
    first.extend_from_slice(b"{\"targetId\":\"t\",\"operationId\":\"o\",\"input\":")?;
    for _ in 0..times {
        first.push(b'[')?;
    }
    if has_fraction {
        first.extend_from_slice(b"1.5")?;
    }
    for _ in 0..times {
        first.push(b']')?;
    }
    first.push(b'}')?;
    message_of(alloc, &first, false)
}

#[test]
fn a_first_segment_nests_at_most_64_deep(rt: HostRuntime) -> Result<(), Fail> {
    let alloc = rt.alloc();
    assert!(rt; request_of(alloc, &nested(alloc, 63, false)?).is_ok());
    for (times, has_fraction, why) in [
        (64, false, TextFault::TooDeep),
        (64, true, TextFault::TooDeep),
        (63, true, TextFault::NotWhole),
        (127, true, TextFault::NotJson),
    ] {
        match request_of(alloc, &nested(alloc, times, has_fraction)?) {
            Ok(_) => return Err(Fail::from("no fault")),
            Err(fault) => assert_eq!(rt; fault.why, Why::Json(why), "{times}"),
        }
    }
    Ok(())
}

// A response with this message in its attributes, where there is one.
fn response(
    alloc: Global,
    request_id: Option<&str>,
    status: Status,
    message: Option<&str>,
    output: Body,
) -> Result<Response, AllocError> {
    let request_id = match request_id {
        Some(id) => Some(Str::of(alloc, id)?),
        None => None,
    };
    let mut attributes = JsonMap::empty(alloc);
    if let Some(message) = message {
        let message = Json::Text(Str::of(alloc, message)?);
        attributes.put(Str::of(alloc, "message")?, message)?;
    }
    Ok(Response {
        request_id,
        status,
        attributes,
        output,
    })
}

#[test]
fn each_response_has_its_first_segment(rt: HostRuntime) -> Result<(), Fail> {
    let alloc = rt.alloc();
    let rows: [(Option<&str>, Option<&str>, Option<&[u8]>, &[u8]); 6] = [
        (None, None, None, b"{\"status\":\"0.DOIP/Status.001\"}"),
        (
            Some("a\""),
            None,
            None,
            b"{\"requestId\":\"a\\\"\",\"status\":\"0.DOIP/Status.001\"}",
        ),
        (
            None,
            Some("m\n"),
            None,
            b"{\"attributes\":{\"message\":\"m\\n\"},\"status\":\"0.DOIP/Status.001\"}",
        ),
        (
            None,
            None,
            Some(b"{\"b\":1,\"a\":[ ]}"),
            b"{\"output\":{\"a\":[],\"b\":1},\"status\":\"0.DOIP/Status.001\"}",
        ),
        (
            None,
            None,
            Some(b"null"),
            b"{\"output\":null,\"status\":\"0.DOIP/Status.001\"}",
        ),
        (
            Some(""),
            Some("m"),
            Some(b"0"),
            b"{\"attributes\":{\"message\":\"m\"},\"output\":0,\"requestId\":\"\",\"status\":\"0.DOIP/Status.001\"}",
        ),
    ];
    for (request_id, message, output, want) in rows {
        let output = match output {
            Some(bytes) => match read(alloc, bytes, 2) {
                Ok(value) => Body::Value(value),
                Err(_) => return Err(Fail::from("no value")),
            },
            None => Body::Nothing,
        };
        let reply = response(alloc, request_id, Status::Done, message, output)?;
        let made = response_message(alloc, &reply)?;
        assert_eq!(rt; made.count(), 1);
        assert!(rt; matches!(made.kind(0), Kind::Json));
        assert_eq!(rt; made.bytes(0), want);
        let moved = reply.into_message(alloc)?;
        assert_eq!(rt; (moved.count(), moved.bytes(0)), (1, want));
    }
    Ok(())
}

#[test]
fn parts_follow_the_first_segment(rt: HostRuntime) -> Result<(), Fail> {
    let alloc = rt.alloc();
    let mut parts = Message::empty(alloc);
    parts.push(Kind::Bytes, b"")?;
    parts.push(Kind::Json, b"[ 1 ]")?;
    let reply = response(alloc, Some("a"), Status::Done, None, Body::Parts(parts))?;
    let message = response_message(alloc, &reply)?;
    assert_eq!(rt; message.count(), 3);
    assert_eq!(rt;
        message.bytes(0),
        b"{\"requestId\":\"a\",\"status\":\"0.DOIP/Status.001\"}".as_slice()
    );
    assert!(rt; matches!(message.kind(1), Kind::Bytes));
    assert_eq!(rt; message.bytes(1), b"".as_slice());
    assert!(rt; matches!(message.kind(2), Kind::Json));
    assert_eq!(rt; message.bytes(2), b"[ 1 ]".as_slice());
    let moved = reply.into_message(alloc)?;
    assert_eq!(rt; (moved.count(), moved.bytes(2)), (3, message.bytes(2)));
    Ok(())
}

#[test]
fn each_status_has_its_identifier(rt: HostRuntime) -> Result<(), Fail> {
    let rows = [
        (Status::Done, "0.DOIP/Status.001"),
        (Status::Invalid, "0.DOIP/Status.101"),
        (Status::NotAuthenticated, "0.DOIP/Status.102"),
        (Status::NotPermitted, "0.DOIP/Status.103"),
        (Status::Unknown, "0.DOIP/Status.104"),
        (Status::InUse, "0.DOIP/Status.105"),
        (Status::Declined, "0.DOIP/Status.200"),
        (Status::Other500, "0.DOIP/Status.500"),
        (Status::Foreign(Str::of(rt.alloc(), "s")?), "s"),
    ];
    for (status, want) in &rows {
        assert_eq!(rt; status.text(), *want);
    }
    Ok(())
}

#[test]
fn each_fixed_text_is_what_its_refusal_is_written_as(rt: HostRuntime) -> Result<(), Fail> {
    let alloc = rt.alloc();
    let rows = [
        (Status::Other500, "want of memory", MEMORY_TEXT),
        (Status::Other500, "disk fault", DISK_TEXT),
        (Status::Other500, "store closed", CLOSED_TEXT),
        (Status::Invalid, "framing fault", FRAMING_TEXT),
    ];
    for (status, message, want) in rows {
        let refused = response(alloc, None, status, Some(message), Body::Nothing)?;
        let made = response_message(alloc, &refused)?;
        assert_eq!(rt; made.count(), 1);
        let mut spelling = made.bytes(0).to_vec(alloc)?;
        spelling.extend_from_slice(b"\n#\n#\n")?;
        assert_eq!(rt; spelling.as_slice(), want);
    }
    assert_eq!(rt;
        MEMORY_TEXT,
        b"{\"attributes\":{\"message\":\"want of memory\"},\"status\":\"0.DOIP/Status.500\"}\n#\n#\n".as_slice()
    );
    Ok(())
}

#[test]
fn replies_are_appended_one_after_another(rt: HostRuntime) -> Result<(), Fail> {
    let alloc = rt.alloc();
    let mut out = Vec::new(alloc);
    begin_value(&mut out)?;
    out.extend_from_slice(b"[]")?;
    end_value(alloc, Some("a\""), &mut out)?;
    begin_parts(alloc, None, &mut out)?;
    append_segment(&mut out, Kind::Bytes, b"b")?;
    end_parts(&mut out)?;
    append_refusal(alloc, Some("c"), &Status::Invalid, "m", &mut out)?;
    let want = "{\"output\":[],\"requestId\":\"a\\\"\",\"status\":\"0.DOIP/Status.001\"}\n#\n#\n\
                {\"status\":\"0.DOIP/Status.001\"}\n#\n@\n1\nb\n#\n#\n\
                {\"attributes\":{\"message\":\"m\"},\"requestId\":\"c\",\"status\":\"0.DOIP/Status.101\"}\n#\n#\n";
    assert_eq!(rt; out.as_slice(), want.as_bytes());
    Ok(())
}
