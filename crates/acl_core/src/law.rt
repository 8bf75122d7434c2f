//! A law over rights.
ghost use Rattle.std.specs.Prelude.{◌↔◌, List, ℕ, Bool, Option, IsTrue};
ghost use Rattle.dobj_model.specs.declared.object.ObjectValue.{ObjectValue};
ghost use Rattle.acl_core.specs.declared.caller.Caller.{Caller};
ghost use Rattle.acl_core.specs.declared.rights.Right.{Right};
ghost use Rattle.acl_core.specs.declared.rights.TypeLists.{TypeLists};
ghost use Rattle.acl_core.specs.Granting.{Grants, HasRight, MayCreate};
ghost use Rattle.acl_core.specs.Rights.{grants, may_do, may_make};

/// The functions of `specs/Rights.antt`, which a contract above computes with, say what the relations of
/// `specs/Granting.antt` say. It does nothing when it runs.
pub fn rights_are_granted()
    ensures word { (is_in : List ℕ → List ℕ → Bool) → (creator own : Option (List ℕ)) → (caller : Caller)
        → (word : List ℕ) → IsTrue (grants is_in creator own caller word) ↔ Grants is_in creator own caller word }
    ensures right { (is_in : List ℕ → List ℕ → Bool) → (caller : Caller) → (right : Right) → (o : ObjectValue)
        → (lists : TypeLists) → IsTrue (may_do is_in caller right o lists) ↔ HasRight is_in caller o lists right }
    ensures create { (is_in : List ℕ → List ℕ → Bool) → (caller : Caller) → (lists : TypeLists)
        → IsTrue (may_make is_in caller lists) ↔ MayCreate is_in caller lists }
{}
