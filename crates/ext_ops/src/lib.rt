//! Closures that a program adds to a repository: extended operations on objects, and hooks that change content before
//! it is checked.
//!
//! An [`Extension`] is an operation's identifier and a closure, a [`WriteHook`] a name and a closure. Each has a code
//! that says which answer its closure gives, and keeps the fact that it gives this answer for every object, arguments
//! and content, or is out of memory: `ext` of `specs/Extended.antt` and `hook` of `specs/Hook.antt`. Whoever makes one
//! proves that, so whoever calls one trusts nobody.
//!
//! Read [`Extensions`] first. A contract sees its fields `operations` and `hooks` as two lists of names and codes, and
//! what `call` and `hook` return is the answer of the code that is found there. [`digest`], [`pick`], [`trim`] and
//! [`count`] are the answers as plain functions, for closures to call.
//!
//! Not promised: what a closure does beside its answer, as how long it takes.
#![tactic(auto)]

mod answer;
mod code;
mod common;
mod counting;
mod digesting;
mod extension;
mod extensions;
mod fault;
mod laws;
mod names;
mod picking;
#[cfg(test)]
mod tests;
mod trimming;
mod white;
mod write_hook;

pub use answer::{ExtAnswer, HookAnswer};
pub use code::{ExtCode, HookCode};
pub use counting::count;
pub use digesting::digest;
pub use extension::Extension;
pub use extensions::Extensions;
pub use fault::ExtFault;
pub use laws::hooks_settle;
pub use names::Names;
pub use picking::pick;
pub use trimming::trim;
pub use write_hook::WriteHook;
