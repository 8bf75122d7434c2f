//! The text of a query, read.
//!
//! [`query_of`] reads a query and reports the exact place of a fault. A contract sees a [`Query`] as the list of its
//! tokens. `IsQueryText` of `specs/Spelling.antt` is the grammar of texts, root first, `IsQuery` of `specs/Query.antt`
//! that of tokens, and `IsFault` of `specs/Faults.antt` says where a text stops being a query. A text is a query with at
//! most one list of tokens ([`one_list_of_tokens`]). What a query means is said by the crates above, to which
//! [`Query::tokens`] lends them.
//!
//! [`parts`] and [`numerals`] are for crates that read other texts of a search: white bytes, bytes up to a stop that no
//! `\` takes, and decimal numbers.
//!
//! Read [`query_of`] first.
#![tactic(auto)]

mod fault;
mod law;
mod nesting;
pub mod numerals;
pub mod parts;
mod query;
mod range;
mod reading;
mod scanning;
#[cfg(test)]
mod tests;
mod tokens;
mod value;

pub use fault::QueryFault;
pub use law::one_list_of_tokens;
pub use nesting::DEEPEST;
pub use query::{Query, Token};
pub use reading::query_of;
