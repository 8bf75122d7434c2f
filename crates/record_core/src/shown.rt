//! The canonical text of an object's shown form, in each format.
ghost use Rattle.std.specs.Prelude.{◌≡◌, OnOk, IfOk};
ghost use Rattle.doip_json.specs.Meaning.{value_of};
ghost use Rattle.doip_json.specs.Text.{text_of};
ghost use Rattle.dobj_model.specs.Shown.{shown_form};
ghost use Rattle.record_core.specs.Body.{form_in};
ghost use Rattle.record_core.specs.declared.format.Format.TheVariants.{First};

use crate::format::Format;
use crate::leaves::table_there;
use base_core::Bytes;
use dobj_model::{Object, append_text, object_json};
use doip_json::{Json, Str, text};
use std::alloc::{AllocError, Global};

// The text in this format.
pub(crate) fn text_in(alloc: Global, object: &Object, format: Format) -> Result<Bytes, AllocError>
    ensures { IfOk result (λ bytes. bytes ≡ text_of (form_in format object.now)) }
{
    match format {
        Format::First => text(alloc, &first_json(alloc, object)?),
        Format::Second => {
            let mut out = Vec::new(alloc);
            append_text(alloc, object, &mut out)?;
            Ok(Bytes::from(out))
        }
    }
}

// The shown form in format 1: that of format 2 without the times.
fn first_json(alloc: Global, object: &Object) -> Result<Json, AllocError>
    ensures { IfOk result (λ json. value_of json ≡ form_in First object.now) }
{
    let _ = object.value();
    let mut shown = table_there(Some(object_json(alloc, object)?));
    let mut attributes = table_there(shown.take("attributes"));
    let mut metadata = table_there(attributes.remove("metadata"));
    let _ = metadata.remove("createdOn");
    let _ = metadata.remove("modifiedOn");
    attributes.put(Str::of(alloc, "metadata")?, Json::Table(metadata))?;
    shown.put(Str::of(alloc, "attributes")?, Json::Table(attributes))?;
    Ok(Json::Table(shown))
}
