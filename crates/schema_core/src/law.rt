//! Laws over first failures.
ghost use Rattle.std.specs.Prelude.{◌≡◌, ◌↔◌, List, ℕ, Option, Some, None, option_map};
ghost use Rattle.doip_json.specs.Value.{Value};
ghost use Rattle.doip_json.specs.Written.{pointer_of};
ghost use Rattle.schema_core.specs.declared.word.SchemaWord.{SchemaWord};
ghost use Rattle.schema_core.specs.Rules.{Rules};
ghost use Rattle.schema_core.specs.Failing.{Path, IsValid};
ghost use Rattle.schema_core.specs.First.{IsFirst, IsFirstWord, IsFirstPointer, names_of};
ghost use Rattle.schema_core.specs.FirstFailure.{first_failure};

/// No value has two first failures: [`valid`](crate::valid) and [`failure_pointer`](crate::failure_pointer) speak of
/// the same one. It does nothing when it runs: a proof calls it for its clause.
pub fn first_failures_are_one()
    ensures { (r : Rules) → (v : Value) → (p q : Path) → (w x : SchemaWord)
        → IsFirst r v p w → IsFirst r v q x → (p ≡ q) × (w ≡ x) }
{}

/// The first failure is the one that `first_failure` of `specs/FirstFailure.antt` computes, and a value is valid exactly
/// when it computes none; [`valid`](crate::valid) and [`failure_pointer`](crate::failure_pointer) return its word and its
/// pointer. So a contract may name the failure as a function of schema and value. It does nothing when it
/// runs.
pub fn first_failures_are_found()
    ensures first { (r : Rules) → (v : Value) → (path : Path) → (w : SchemaWord)
        → IsFirst r v path w ↔ (first_failure r v ≡ Some (path, w)) }
    ensures valid { (r : Rules) → (v : Value) → IsValid r v ↔ (first_failure r v ≡ None) }

    // What `valid` and `failure_pointer` return.
    ensures word { (r : Rules) → (v : Value) → (found : Option SchemaWord) → IsFirstWord r v found
        → option_map (λ f. f.1) (first_failure r v) ≡ found }
    ensures pointer { (r : Rules) → (v : Value) → (found : Option (List ℕ)) → IsFirstPointer r v found
        → option_map (λ f. pointer_of (names_of f.0)) (first_failure r v) ≡ found }
{}
