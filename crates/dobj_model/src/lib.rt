//! Digital objects: their names, what every object keeps, and what it is as a JSON value and as segments.
//!
//! A contract sees an [`Object`] as its [`ObjectValue`]: identifier, type name, attributes without `metadata`, the
//! [`Metadata`], and the [`Elements`] as a list. `IsObject` of `specs/Object.antt` holds of each: it is what a stored
//! object must keep, so no call above says it again. `shown_form` of `specs/Shown.antt` is the object as a JSON value,
//! which [`append_text`] writes and [`object_json`] gives. An [`Id`] and a [`TypeName`] are their text of 1 to 255
//! bytes of UTF-8.
//!
//! Read [`Object::of`] first, then [`append_text`]. That an identifier names anything is not promised.
#![tactic(auto)]

mod attributes;
mod copying;
mod depth;
mod elements;
mod id;
mod length;
mod measure;
mod metadata;
mod object;
mod parts;
mod shown;
#[cfg(test)]
mod tests;
mod type_name;
mod writing;

pub use attributes::are_texts;
pub use copying::copy_object;
pub use elements::{Element, Elements};
pub use id::Id;
pub use metadata::Metadata;
pub use object::{Object, ObjectValue};
pub use parts::{object_json, object_parts};
pub use shown::{append_text, text_length};
pub use type_name::TypeName;
