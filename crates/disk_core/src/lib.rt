//! The disk model, and disks in memory for tests.
//!
//! `Disk` is one file as a store sees it. Contracts see a disk by its `state`: what a read gives (`content`), its clock
//! (`moment`), the images that a crash at a moment up to now may leave (`image_at`), the moments of its syncs
//! (`synced_at`), and how often a call failed (`faults`). Read the trait first, then `specs/Disk.antt`, which has one
//! record for each call. `specs/Runs.antt` says what a crash may leave of several calls in a row.
//!
//! `MemoryDisk` keeps a log of its calls and fails those that are listed. `FusedDisk` lets some calls of another
//! disk pass and then fails all. That a real file is such a disk is no contract's to say.
#![tactic(auto)]

mod calls;
mod disk;
mod fused;
mod memory;
#[cfg(test)]
mod tests;
mod torn;

pub use base_core::{Bytes, Failed, Items};
pub use calls::{DiskCall, Failing, Noted};
pub use disk::Disk;
pub use fused::FusedDisk;
pub use memory::{Images, MemoryDisk};
