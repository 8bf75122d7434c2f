//! What the operations read beside a request.
use crate::{Brought, Config};
use journal_core::Room;
use repo_state::Table;
use std::alloc::Global;

/// What the operations read beside a request, all of it lent. The extensions stand beside it, since contracts have
/// no name for their type.
#[derive(Clone, Copy)]
pub(crate) struct Turn<'t> {
    pub(crate) alloc: Global,
    pub(crate) table: &'t Table,
    pub(crate) config: &'t Config,
    pub(crate) brought: Brought,
    pub(crate) room: Option<Room>,
}
