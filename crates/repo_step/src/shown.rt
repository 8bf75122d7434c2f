//! What an operation made: what the reply shows, and the change.
ghost use Rattle.std.specs.Prelude.{◌≡◌, None};

use crate::Config;
use dobj_model::{Element, Object};
use doip_json::Json;
use record_core::Change;

/// What a reply shows. What is stored is lent from the table, and what is new is the change's.
#[derive(Drop)]
pub enum Shown<'t> {
    /// Nothing.
    Nothing,
    /// The information of the service.
    Information(&'t Config),
    /// This value.
    Value(Json),
    /// The object.
    Stored(&'t Object),
    /// The object, and the bytes of its elements.
    WithElements(&'t Object),
    /// The bytes of the element.
    OfElement(&'t Element),
    /// The object that the change puts.
    New,
}

/// What an operation made.
#[derive(Drop)]
pub struct Made<'t> {
    /// What the reply shows.
    pub shown: Shown<'t>,
    /// The change, if there is one.
    pub change: Option<Change>,
}

impl<'t> Made<'t> {
    // A reply that shows this, and changes nothing.
    pub(crate) fn showing(shown: Shown<'t>) -> Made<'t>
        ensures shown { result.shown ≡ shown.entry }
        ensures change { result.change ≡ None }
    {
        Made {
            shown,
            change: None,
        }
    }
}
