//! Objects of their parts.
ghost use Rattle.std.specs.Prelude.{◌≡◌, ℕ, List};
ghost use Rattle.dobj_model.specs.declared.metadata.Metadata.{Metadata};
ghost use Rattle.dobj_model.specs.Name.{IsName};
ghost use Rattle.dobj_model.specs.Elements.{AreElements};
ghost use Rattle.dobj_model.specs.Object.{IsObject};
ghost use Rattle.repo_step.specs.Drafts.{object_with};

use dobj_model::{Element, Elements, Id, Metadata, Object, ObjectValue, TypeName};
use doip_json::JsonMap;

/// The object of these parts, which keeps what objects keep.
pub(crate) fn object_of(
    id: Id,
    type_name: TypeName,
    attributes: JsonMap,
    metadata: Metadata,
    elements: Vec<Element>,
) -> Object
    requires elements { AreElements elements.items }
    requires object { IsName id → IsName type_name
        → IsObject (object_with id type_name attributes metadata elements.items) }
    ensures { result ≡ object_with id type_name attributes metadata elements.items }
{
    // Two calls for their clauses: names have 1 to 255 bytes.
    id.get();
    type_name.get();
    let Some(elements) = Elements::of(elements) else {
        unreachable!()
    };
    let value = ObjectValue {
        id,
        type_name,
        attributes,
        metadata,
        elements,
    };
    match Object::of(value) {
        Some(object) => object,
        None => unreachable!(),
    }
}
