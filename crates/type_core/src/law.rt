//! What a change of one object does to the others.
ghost use Rattle.std.specs.Prelude.{◌≡◌, ℕ, List, [], codes, Bool, true, false, not, None, Some, Ok};
ghost use Rattle.doip_json.specs.Value.{Value};
ghost use Rattle.std.specs.FinMap as finite;
ghost use Rattle.dobj_model.specs.declared.object.ObjectValue.{ObjectValue};
ghost use Rattle.schema_core.specs.Rules.{Rules, plain};
ghost use Rattle.schema_core.specs.References.{references_in};
ghost use Rattle.type_core.specs.Least.{least};
ghost use Rattle.type_core.specs.Names.{checked_content, is_type_object, name_given, string_at};
ghost use Rattle.type_core.specs.Checked.{first_failing};
ghost use Rattle.type_core.specs.Sound.{Objects, AreNamed, makes, IsSound, is_sound_in, least_unsound, rules_at, KeepsType, MayBePut, leans_on, would_miss, MayReplace, would_lose, is_name_in_use};
ghost use Rattle.type_core.specs.declared.content.TypeContent.{TypeContent};
ghost use Rattle.type_core.specs.Content.{type_in, schema_in};
ghost use Rattle.type_core.specs.Kept.{content_given, type_at, is_stated_elsewhere, schema_at, type_after_put, type_after_removal};

/// All objects are sound if and only if none is the least that isn't. It does nothing when it runs: a proof calls it
/// for its clauses.
pub fn the_least_unsound_decides()
    ensures sound { (objects : Objects) → least_unsound objects ≡ None → IsSound objects }
    ensures none { (objects : Objects) → IsSound objects → least_unsound objects ≡ None }
{}

/// An object that is put leaves all others sound, and is sound itself, so nobody has to look at the others. It is
/// new, or takes the place of an object of its type that is no type object; its content fits its type; its references
/// are met by the others and itself; and as a type object it states a type of a name that no other has. It does
/// nothing when it runs.
pub fn puts_keep_soundness()
    ensures sound { (objects : Objects) (o : ObjectValue) → KeepsType objects o → MayBePut objects o → IsSound objects
        → IsSound (finite.insert objects o.id o) }
{}

/// Without an object that is removed, those aren't sound whose type it makes or whose references name it, and no
/// others. So the least in the way of the removal is found among the objects as they stand. It does nothing when it
/// runs.
pub fn removals_leave_what_leans()
    ensures one { (objects : Objects) (id : List ℕ) (gone : ObjectValue) → finite.get objects id ≡ Some gone
        → AreNamed objects → IsSound objects → (other : List ℕ) (o : ObjectValue) (schema : Rules)
        → finite.get objects other ≡ Some o → rules_at objects o.type_name ≡ Some schema
        → is_sound_in (finite.remove objects id) o ≡ not (leans_on gone schema o) }
    ensures in_the_way { (objects : Objects) (id : List ℕ) (gone : ObjectValue) → finite.get objects id ≡ Some gone
        → AreNamed objects → IsSound objects
        → least (would_miss objects gone) objects ≡ least_unsound (finite.remove objects id) }
{}

/// Once a type object takes the place of another, those aren't sound whose type the old one makes, if the new one makes
/// another type or they don't fit its schema, and no others. It does nothing when it runs.
pub fn replacements_leave_a_type()
    ensures in_the_way { (objects : Objects) (old new : ObjectValue) → MayReplace objects old new
        → AreNamed objects → IsSound objects
        → least (would_lose objects old new) objects ≡ least_unsound (finite.insert objects new.id new) }
{}

/// The schema of a type that is built in asks nothing: no content fails it, and none has references by it. It does
/// nothing when it runs.
pub fn built_in_types_ask_nothing()
    ensures valid { (o : ObjectValue) → first_failing plain o ≡ None }
    ensures references { (o : ObjectValue) → references_in plain (checked_content o) ≡ [] }
{}

/// What the type objects state of a name after a change: a put type object states what its content does of its own
/// name, the one whose place it takes, or that is removed, states nothing any more, and all else stays. Where all
/// objects are sound, the schema that is stated is the one that content is valid to. It does nothing when it runs.
pub fn types_follow_changes()
    ensures put { (objects : Objects) → AreNamed objects → IsSound objects → (o : ObjectValue)
        → (is_type_object o ≡ true → is_name_in_use objects o ≡ false) → (name : List ℕ)
        → type_at (finite.insert objects o.id o) name ≡ type_after_put objects o name }

    // That a put type object's name is free comes from soundness afterwards.
    ensures free { (objects : Objects) (o : ObjectValue) → IsSound (finite.insert objects o.id o)
        → is_type_object o ≡ true → is_name_in_use objects o ≡ false }
    ensures removal { (objects : Objects) → AreNamed objects → IsSound objects → (id name : List ℕ)
        → type_at (finite.remove objects id) name ≡ type_after_removal objects id name }
    ensures schema { (objects : Objects) → IsSound objects → (name : List ℕ)
        → schema_at objects name ≡ rules_at objects name }
{}

/// Where all objects are sound, what is stated of a type is what the content of each object states that makes it, and
/// nothing of a type that no object makes. So one look at each type object fills a [`Types`](crate::Types). It does
/// nothing when it runs.
pub fn sound_objects_state_their_types()
    ensures made { (objects : Objects) → AreNamed objects → IsSound objects → (id : List ℕ) (o : ObjectValue)
        → finite.get objects id ≡ Some o → (name : List ℕ) → makes name o ≡ true
        → type_at objects name ≡ content_given o }
    ensures unmade { (objects : Objects) (name : List ℕ)
        → ((id : List ℕ) (o : ObjectValue) → finite.get objects id ≡ Some o → makes name o ≡ false)
        → type_at objects name ≡ None }
    ensures stated { (objects : Objects) → IsSound objects → (id : List ℕ) (o : ObjectValue)
        → finite.get objects id ≡ Some o → is_type_object o ≡ true
        → (t : TypeContent) × (content_given o ≡ Some t) × (name_given o ≡ Some t.name) }

    // Whether another object gives a name is a look at what is stated of it, and at the object's own place.
    ensures in_use { (objects : Objects) → AreNamed objects → IsSound objects → (o : ObjectValue)
        → is_name_in_use objects o ≡ is_stated_elsewhere objects o }
{}

/// What content states as a type object has the name, the schema and the hook that stand in the content. It does
/// nothing when it runs.
pub fn type_objects_have_their_parts()
    ensures { (content : Value) (t : TypeContent) → type_in content ≡ Ok t
        → (string_at (codes "name") content ≡ Some t.name) × (schema_in content ≡ Ok t.schema)
        × (string_at (codes "hook") content ≡ t.hook) }
{}
