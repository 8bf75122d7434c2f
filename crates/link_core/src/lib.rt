//! What lies outside the program, as traits whose meaning contracts can name: a link, a listener, a sink, a clock and a
//! host. A disk is in `disk_core`.
//!
//! Contracts see a `Link` by its `state`: the bytes that reads have given (`taken`), those that are left (`left`) and
//! those that were written (`written`), each if the link reports them; whether it is closed; its count of faults,
//! which never falls; and its number of reads, which falls with each read that gives bytes. A `Listener`, a `Sink` and a
//! `Host` have a `state` too, and a `Clock` has the times that it has given. `specs/Link.antt`, `specs/Listener.antt` and
//! `specs/Host.antt` have one record for each call. `Failed` is returned only if the count of faults rose in that call,
//! or is at its last value: generic code can't raise that count.
//!
//! `MemoryLink`, `MemoryListener`, `MemorySink`, `MemoryClock` and `MemoryHost` report all that they hold and fail
//! exactly as they are told to, and tests run on them. `GateLink` holds its reads until another link was written to.
//! Read `Link` first. That a real stream behaves as a `Link` is not promised here.
#![tactic(auto)]

mod clock;
mod files;
mod gate_link;
mod host;
mod link;
mod listener;
mod memory_clock;
mod memory_form;
mod memory_host;
mod memory_link;
mod memory_listener;
mod memory_sink;
mod recorder;
mod script;
mod sink;
#[cfg(test)]
mod tests;

pub use base_core::Failed;
pub use clock::Clock;
pub use gate_link::GateLink;
pub use host::{Host, HostFault};
pub use link::Link;
pub use listener::Listener;
pub use memory_clock::MemoryClock;
pub use memory_form::MemoryForm;
pub use memory_host::{CallKind, Mark, MemoryHost};
pub use memory_link::MemoryLink;
pub use memory_listener::MemoryListener;
pub use memory_sink::MemorySink;
pub use script::Script;
pub use sink::Sink;
