//! Schemas of content: the words of JSON Schema draft 4 that are used, what fails them, and the references in a value.
//!
//! A [`Schema`] is made by [`schema_of`] from a JSON value, once, and is kept: the [`Words`] on a value itself, the
//! schemas under `properties` and the schema under `items`. A contract sees it as what it states, `Rules` of
//! `specs/Rules.antt`: plain data, `rules words properties within`.
//!
//! Read [`valid`] first. It returns the word of the first failure, by the relation `Fails` of `specs/Failing.antt`
//! (which value fails, at the end of which path, by which word) and the order `Before` of `specs/First.antt`.
//! [`failure_pointer`] gives the place of that failure as a JSON pointer, and [`references`] lists the strings that a
//! schema takes for identifiers of objects.
//!
//! Not promised: which words of later drafts mean what. A word that is neither used nor refused is ignored, `format`
//! among them. Each call recurses as deep as the value nests, and dropping a schema as deep as schemas nest in it.
#![tactic(auto)]

mod checking;
mod collecting;
mod fault;
mod kind;
mod law;
mod own;
mod passing;
mod pointer;
mod reading;
mod schema;
mod shape;
#[cfg(test)]
mod tests;
mod validity;
mod values;
mod word;
mod words;

pub use collecting::{Reference, References, references};
pub use fault::SchemaFault;
pub use kind::Kind;
pub use law::{first_failures_are_found, first_failures_are_one};
pub use passing::{ReferenceTest, every_reference};
pub use pointer::failure_pointer;
pub use reading::schema_of;
pub use schema::Schema;
pub use validity::valid;
pub use values::strings_of;
pub use word::SchemaWord;
pub use words::Words;
