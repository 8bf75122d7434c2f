//! Laws of drafts: each is the contract of a function that does nothing.
ghost use Rattle.std.specs.Prelude.{◌≡◌, ◌≤◌, ℕ, List, length, Option, Ok, Some};
ghost use Rattle.doip_json.specs.Value.{Value};
ghost use Rattle.doip_json.specs.Look.{field_of};
ghost use Rattle.doip_json.specs.Read.{reading};
ghost use Rattle.doip_segment.specs.Framing.{most_total};
ghost use Rattle.doip_segment.specs.Segments.{Segment};
ghost use Rattle.dobj_model.specs.declared.elements.Element.{Element};
ghost use Rattle.dobj_model.specs.declared.object.ObjectValue.{ObjectValue};
ghost use Rattle.dobj_model.specs.Elements.{AreElements};
ghost use Rattle.dobj_model.specs.Object.{IsObject};
ghost use Rattle.dobj_draft.specs.declared.draft.Draft.{Draft};
ghost use Rattle.dobj_draft.specs.Draft.{draft, segment_depth};
ghost use Rattle.dobj_draft.specs.Made.{IsBrought, AreBrought, IsWithin, AreListed, AreSmall, IsMadeOf};

/// What is read of a text of at most 67,108,864 bytes, nested at most 64 deep, is a value that a message brings
/// (`texts`), and so is what lies at a key of such a value (`properties`). It does nothing when it runs.
pub fn messages_bring_values()
    ensures texts { (bytes : List ℕ) → (depth : ℕ) → (v : Value) → reading bytes depth ≡ Ok v
        → depth ≤ segment_depth → length bytes ≤ most_total → IsBrought v }
    ensures properties { (key : List ℕ) → (v w : Value) → IsBrought v → field_of key v ≡ Some w → IsBrought w }
{}

/// A draft that a message brings keeps its bounds. It does nothing when it runs.
pub fn drafts_keep_their_bounds()
    ensures { (input : Option Value) → (parts : List Segment) → (d : Draft) → AreBrought input parts
        → draft input parts ≡ Ok d → IsWithin d }
{}

/// `Elements::of` makes elements of those that a draft lists, once each has fewer than 10^10 bytes (`elements`), and
/// `Object::of` makes an object of what is made of a draft (`objects`): neither returns `None`. It does nothing when it
/// runs.
pub fn drafts_make_objects()
    ensures elements { (input : Option Value) → (parts : List Segment) → (d : Draft) → (es : List Element)
        → AreBrought input parts → draft input parts ≡ Ok d → AreListed d.elements es → AreSmall es → AreElements es }
    ensures objects { (input : Option Value) → (parts : List Segment) → (d : Draft) → (o : ObjectValue)
        → AreBrought input parts → draft input parts ≡ Ok d → IsMadeOf d o → IsObject o }
{}
