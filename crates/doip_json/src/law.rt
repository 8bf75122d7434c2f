//! Laws over reading and writing.
ghost use Rattle.std.specs.Prelude.{◌≡◌, ◌≢◌, ◌≤◌, ℕ, List, Ok, length};
ghost use Rattle.std.specs.List.{AllByRecursion};
ghost use Rattle.doip_json.specs.Value.{Value, Values, Entries, values_from, entries_from, values_in, entries_in, depth_of};
ghost use Rattle.doip_json.specs.Meaning.{value_of};
ghost use Rattle.doip_json.specs.Text.{text_of};
ghost use Rattle.doip_json.specs.Pointer.{pointed};
ghost use Rattle.doip_json.specs.Read.{reading};
ghost use Rattle.doip_json.specs.Written.{pointer_of, led_to};

use crate::value::Json;

/// The canonical text of a value reads back as the value, at each depth up to 127 that the value keeps. It does nothing
/// when it runs: a proof calls it for its clause.
pub fn reads_back(value: &Json, depth: u8)
    requires keeps { depth_of (value_of value.now) ≤ depth }
    requires high { depth ≤ 127 }
    ensures { reading (text_of (value_of value.now)) depth ≡ Ok (value_of value.now) }
{
    value.recall();
    let _ = depth;
}

/// The canonical text of a value is one line: it has no line feed. It does nothing when it runs: a proof calls it for
/// its clause.
pub fn is_one_line(value: &Json)
    ensures { AllByRecursion (λ x. x ≢ 10) (text_of (value_of value.now)) }
{
    value.recall();
}

/// The items of an array and the entries of an object are lists, both ways, so that definitions can filter, map and
/// fold them. It does nothing when it runs.
pub fn items_and_entries_are_lists()
    ensures values { (vs : Values) → values_from (values_in vs) ≡ vs }
    ensures listed_values { (vs : List Value) → values_in (values_from vs) ≡ vs }
    ensures entries { (es : Entries) → entries_from (entries_in es) ≡ es }
    ensures listed_entries { (es : List (List ℕ × Value)) → entries_in (entries_from es) ≡ es }
{}

/// What a pointer that is written from names finds is what the names lead to. It does nothing when it runs.
pub fn written_pointers_find()
    ensures { (names : List (List ℕ)) → (v : Value) → pointed (pointer_of names) v ≡ led_to names v }
{}

/// The canonical text of what `read` takes is no longer than the text that was read. It does nothing when it runs.
pub fn texts_are_no_longer()
    ensures { (bytes : List ℕ) → (depth : ℕ) → (v : Value) → reading bytes depth ≡ Ok v
        → length (text_of v) ≤ length bytes }
{}
