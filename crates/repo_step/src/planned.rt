//! A turn that is planned: its reply, and its change.
ghost use Rattle.std.specs.Prelude.{◌≡◌, ◌++◌, [], ◌∷◌, codes, OnOk, option_map};
ghost use Rattle.std.specs.List.{flat_map};
ghost use Rattle.doip_json.specs.Value.{text};
ghost use Rattle.doip_json.specs.Meaning.{value_of};
ghost use Rattle.doip_json.specs.Text.{text_of};
ghost use Rattle.doip_segment.specs.declared.kind.Kind.TheVariants as kinds;
ghost use Rattle.doip_segment.specs.Canonical.{content_text, segment_text};
ghost use Rattle.doip_message.specs.Asked.{no_content, one_value, parts};
ghost use Rattle.doip_message.specs.Reply.{reply_text, done};
ghost use Rattle.dobj_model.specs.Shown.{object_with, shown_form};
ghost use Rattle.dobj_model.specs.Parts.{element_segments, object_segments};
ghost use Rattle.repo_step.specs.Information.{information};
ghost use Rattle.repo_step.specs.Refusals.{refused};
ghost use Rattle.repo_step.specs.Shown.{content_shown, planned_of};
ghost use Rattle.repo_step.specs.operations.Retrieve.{element_content};

use crate::shown::{Made, Shown};
use crate::{Config, Refusal};
use dobj_model::{Element, Object, append_text};
use doip_json::{Json, Str};
use doip_message::{
    append_refusal, append_string, begin_parts, begin_value, end_parts, end_value,
    parts_make_a_reply,
};
use doip_segment::{Kind, append_segment};
use record_core::Change;
use std::alloc::{AllocError, Global};

/// A turn that is planned. What its reply shows of stored objects is lent from the table until the change is taken out.
#[derive(Drop)]
pub struct Planned<'t> {
    /// The client's id of the request, if it has one.
    pub request_id: Option<Str>,
    /// What the operation made, or the first refusal.
    pub attempt: Result<Made<'t>, Refusal>,
}

impl<'t> Planned<'t> {
    /// Adds the text of the reply at the end of the buffer. What is stored is copied once, into the buffer. Out of
    /// memory the buffer may end with a part of the text.
    pub fn append(&self, alloc: Global, out: &mut Vec<u8>) -> Result<(), AllocError>
        ensures { OnOk result (out.new.items ≡ out.old.items ++ reply_text (planned_of self.now).reply) }
    {
        let request_id = text_of_id(&self.request_id);
        match &self.attempt {
            Ok(made) => append_made(alloc, request_id, made, out),
            Err(refusal) => append_refused(alloc, request_id, refusal, out),
        }
    }

    /// The change, if there is one. What was lent from the table is free again.
    pub fn into_change(self) -> Option<Change>
        ensures { result ≡ (planned_of self.entry).change }
    {
        let Planned { attempt, .. } = self;
        match attempt {
            Ok(made) => made.change,
            Err(_) => None,
        }
    }
}

// The text of a request id.
fn text_of_id(request_id: &Option<Str>) -> Option<&str>
    ensures { option_map (λ id. id.now) result ≡ request_id.now }
{
    match request_id {
        Some(id) => Some(id.get()),
        None => None,
    }
}

// Adds the reply of a refusal.
fn append_refused(
    alloc: Global,
    request_id: Option<&str>,
    refusal: &Refusal,
    out: &mut Vec<u8>,
) -> Result<(), AllocError>
    ensures { OnOk result (out.new.items ≡ out.old.items
        ++ reply_text (refused (option_map (λ id. id.now) request_id.entry) refusal.now)) }
{
    parts_make_a_reply();
    let message = refusal.message(alloc)?;
    append_refusal(alloc, request_id, &refusal.status(), message.as_str(), out)
}

// Adds a reply that is done, with what was made.
fn append_made(
    alloc: Global,
    request_id: Option<&str>,
    made: &Made,
    out: &mut Vec<u8>,
) -> Result<(), AllocError>
    ensures { OnOk result (out.new.items ≡ out.old.items
        ++ reply_text (done (option_map (λ id. id.now) request_id.entry)
        (content_shown made.now.change made.now.shown))) }
{
    match &made.shown {
        Shown::Nothing => append_nothing(alloc, request_id, out),
        Shown::Information(config) => append_information(alloc, request_id, config, out),
        Shown::Value(value) => append_value(alloc, request_id, value, out),
        Shown::Stored(object) => append_object(alloc, request_id, object, out),
        Shown::WithElements(object) => append_with_elements(alloc, request_id, object, out),
        Shown::OfElement(element) => append_element(alloc, request_id, element, out),
        Shown::New => match &made.change {
            Some(Change::Put { object, .. }) => append_object(alloc, request_id, object, out),
            _ => append_nothing(alloc, request_id, out),
        },
    }
}

// Adds a reply with no output.
fn append_nothing(
    alloc: Global,
    request_id: Option<&str>,
    out: &mut Vec<u8>,
) -> Result<(), AllocError>
    ensures { OnOk result (out.new.items ≡ out.old.items
        ++ reply_text (done (option_map (λ id. id.now) request_id.entry) no_content)) }
{
    parts_make_a_reply();
    begin_parts(alloc, request_id, out)?;
    end_parts(out)
}

// Adds a reply with the information of the service.
fn append_information(
    alloc: Global,
    request_id: Option<&str>,
    config: &Config,
    out: &mut Vec<u8>,
) -> Result<(), AllocError>
    ensures { OnOk result (out.new.items ≡ out.old.items
        ++ reply_text (done (option_map (λ id. id.now) request_id.entry)
        (one_value (information config.now.service config.now.address config.now.port)))) }
{
    parts_make_a_reply();
    begin_value(out)?;
    out.extend_from_slice(config.information.get())?;
    end_value(alloc, request_id, out)
}

// Adds a reply with a value.
fn append_value(
    alloc: Global,
    request_id: Option<&str>,
    value: &Json,
    out: &mut Vec<u8>,
) -> Result<(), AllocError>
    ensures { OnOk result (out.new.items ≡ out.old.items
        ++ reply_text (done (option_map (λ id. id.now) request_id.entry) (one_value (value_of value.now)))) }
{
    parts_make_a_reply();
    begin_value(out)?;
    doip_json::append_text(alloc, value, out)?;
    end_value(alloc, request_id, out)
}

// Adds a reply with the shown form of an object.
fn append_object(
    alloc: Global,
    request_id: Option<&str>,
    object: &Object,
    out: &mut Vec<u8>,
) -> Result<(), AllocError>
    ensures { OnOk result (out.new.items ≡ out.old.items
        ++ reply_text (done (option_map (λ id. id.now) request_id.entry) (one_value (shown_form object.now)))) }
{
    parts_make_a_reply();
    begin_value(out)?;
    append_text(alloc, object, out)?;
    end_value(alloc, request_id, out)
}

// Adds a reply with the shown form of an object and the bytes of its elements.
fn append_with_elements(
    alloc: Global,
    request_id: Option<&str>,
    object: &Object,
    out: &mut Vec<u8>,
) -> Result<(), AllocError>
    ensures { OnOk result (out.new.items ≡ out.old.items
        ++ reply_text (done (option_map (λ id. id.now) request_id.entry) (parts (object_segments object.now)))) }
{
    parts_make_a_reply();
    begin_parts(alloc, request_id, out)?;
    append_form(alloc, object, out)?;
    append_elements(alloc, object.elements().as_slice(), out)?;
    end_parts(out)
}

// Adds a reply with the bytes of an element.
fn append_element(
    alloc: Global,
    request_id: Option<&str>,
    element: &Element,
    out: &mut Vec<u8>,
) -> Result<(), AllocError>
    ensures { OnOk result (out.new.items ≡ out.old.items
        ++ reply_text (done (option_map (λ id. id.now) request_id.entry) (element_content element.now))) }
{
    parts_make_a_reply();
    begin_parts(alloc, request_id, out)?;
    append_segment(out, Kind::Bytes, element.bytes.get())?;
    end_parts(out)
}

// Adds the shown form as a segment.
fn append_form(alloc: Global, object: &Object, out: &mut Vec<u8>) -> Result<(), AllocError>
    ensures { OnOk result (out.new.items ≡ out.old.items ++ content_text kinds.Json (text_of (shown_form object.now))) }
{
    append_text(alloc, object, out)?;
    out.extend_from_slice(b"\n#\n")
}

// Adds the name and the bytes of each element, as segments.
fn append_elements(alloc: Global, elements: &[Element], out: &mut Vec<u8>) -> Result<(), AllocError>
    ensures { OnOk result (out.new.items ≡ out.old.items
        ++ flat_map segment_text (flat_map element_segments elements.now)) }
{
    for element in elements {
        append_name(alloc, element.id.get(), out)?;
        append_segment(out, Kind::Bytes, element.bytes.get())?;
    }
    Ok(())
}

// Adds what names the element whose bytes come next, as a segment.
fn append_name(alloc: Global, id: &str, out: &mut Vec<u8>) -> Result<(), AllocError>
    ensures { OnOk result (out.new.items ≡ out.old.items
        ++ content_text kinds.Json (text_of (object_with ((codes "id", text id.now) ∷ [])))) }
{
    out.extend_from_slice(b"{\"id\":")?;
    append_string(alloc, id, out)?;
    out.extend_from_slice(b"}\n#\n")
}
