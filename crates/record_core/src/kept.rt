//! What is known of every object.
ghost use Rattle.std.specs.List.{AllByRecursion};
ghost use Rattle.dobj_model.specs.Name.{IsName};
ghost use Rattle.record_core.specs.Storable.{IsKept};

use dobj_model::{Element, Object};

// It changes nothing when it runs: a proof learns here what every object keeps.
pub(crate) fn recall(object: &Object)
    ensures { IsKept object.now }
{
    let value = object.value();
    let _ = value.id.get();
    let _ = value.type_name.get();
    recall_names(value.elements.as_slice());
}

// The same of elements' identifiers.
fn recall_names(elements: &[Element])
    ensures { AllByRecursion (λ e. IsName e.id) elements.now }
{
    for i in 0..elements.len() {
        let _ = elements[i].id.get();
    }
}
