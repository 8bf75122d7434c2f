//! Accounts, callers, rights and groups (after Cordra).
//!
//! [`Accounts`] are read once from a file by [`accounts_of`], and a contract sees them as the list of the file
//! (`specs/Known.antt`). [`caller_of`] names the [`Caller`] of a request from what authenticates it; nothing of a
//! password goes any further. [`may`] and [`may_create`] say what a caller may do, by the lists of an object and of its
//! type.
//!
//! Read [`may`] first. Which word of a list grants to whom is a relation with a row for each word, `Grants` of
//! `specs/Granting.antt`. Who is in which group is asked of a [`Groups`], which contracts see as one test.
//!
//! Not promised: that two passwords take the same time. A hash is compared to its end, but an account that isn't there
//! is found out before.
#![tactic(auto)]

mod accounts;
mod caller;
mod fault;
mod groups;
mod law;
mod reading;
mod rights;
mod secret;
#[cfg(test)]
mod tests;

pub use accounts::Accounts;
pub use caller::{Caller, caller_of};
pub use fault::{AccountsFault, AuthFault};
pub use groups::Groups;
pub use law::rights_are_granted;
pub use reading::accounts_of;
pub use rights::{Right, TypeLists, may, may_create};
