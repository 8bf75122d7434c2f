//! The operations, one file each.

mod create;
mod delete;
mod extended;
mod input;
mod limits;
mod list_operations;
mod making;
mod mint;
mod retrieve;
mod rights;
mod update;

pub(crate) use create::create;
pub(crate) use delete::delete;
pub(crate) use extended::extended;
pub(crate) use list_operations::{list_object, list_service};
pub(crate) use retrieve::retrieve;
pub(crate) use update::update;
