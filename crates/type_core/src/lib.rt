//! Type objects, and what the schema of a type finds wrong with an object.
//!
//! An object of the type `Schema` makes a type: its content has a `name`, a `schema`, the lists of who may do what by
//! default, and a hook. [`type_of`] reads it, once, as a [`TypeContent`], or returns the first fault; a contract names
//! what is meant by `type_in` of `specs/Content.antt`. [`is_type_object`], [`name_given`] (the name alone) and [`makes`]
//! ask one object, without memory. [`Types`] keeps what was read, by name, with the [`Types::hook`] of each type.
//! [`is_built_in`] names the types that no object makes, [`default_lists`] and [`schema_lists`] are their lists.
//!
//! [`first_failing`] is the first failure of an object's content by a schema, and [`first_unmet`] the first of its
//! references that isn't met. Which objects there are is asked of a [`Typed`]. [`fits`] is whether there is neither, and
//! [`leans_on`] whether an object isn't sound without another one: a scan asks them, without memory.
//!
//! When an object is sound among others is `is_sound_in` of `specs/Sound.antt`, and the least identifier of one that isn't
//! `least_unsound` ([`the_least_unsound_decides`]). The laws say which others a change can leave unsound, and so which of
//! them have to be looked at: [`puts_keep_soundness`], [`removals_leave_what_leans`], [`replacements_leave_a_type`],
//! [`built_in_types_ask_nothing`]. What a [`Types`] has to hold is `type_at` of `specs/Kept.antt`:
//! [`sound_objects_state_their_types`] says how it is filled, [`types_follow_changes`] how it follows a change, and
//! [`type_objects_have_their_parts`] what a content has of the JSON that states it.
//!
//! Not promised: which of two type objects with one name counts. A repository keeps one object a name.
#![tactic(auto)]

mod content;
mod failing;
mod fitting;
mod law;
mod lists;
mod names;
mod referring;
#[cfg(test)]
mod tests;
mod types;

pub use content::{TypeContent, TypeFault, type_of};
pub use failing::{Failure, first_failing};
pub use fitting::{fits, leans_on, makes};
pub use law::{
    built_in_types_ask_nothing, puts_keep_soundness, removals_leave_what_leans,
    replacements_leave_a_type, sound_objects_state_their_types, the_least_unsound_decides,
    type_objects_have_their_parts, types_follow_changes,
};
pub use lists::{default_lists, schema_lists};
pub use names::{is_built_in, is_type_object, name_given};
pub use referring::{Typed, first_unmet};
pub use types::Types;
