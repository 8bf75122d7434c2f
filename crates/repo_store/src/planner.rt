//! What plans the turns of a store.
ghost use Rattle.std.specs.Prelude.{◌≡◌, IfOk, Option};
ghost use Rattle.ext_ops.specs.Offered.{offered};
ghost use Rattle.repo_step.specs.Drafts.{AreShort};
ghost use Rattle.repo_step.specs.Setting.{Setting, setting_of, state};
ghost use Rattle.repo_step.specs.Shown.{planned_of};
ghost use Rattle.repo_step.specs.Step.{step};

use doip_segment::Message;
use ext_ops::Extensions;
use journal_core::Room;
use repo_state::Table;
use repo_step::{Brought, Config, Planned, answer};
use std::alloc::{AllocError, Global};

/// What plans the turns of a store: the step of the repository in one setting.
///
/// It stands between the store and the closures of the extensions, since no type can have both a journal over any disk
/// and closures.
pub trait Planner {
    /// The setting, which no turn changes.
    ghost setting: { Self → Setting };

    /// The reply to a message, and its change. It changes nothing else. What the reply shows is lent.
    fn plan<'t>(
        &'t self,
        alloc: Global,
        table: &'t Table,
        brought: Brought,
        room: Option<Room>,
        message: &Message,
    ) -> Result<Planned<'t>, AllocError>
        requires short { AreShort message.now.segments }
        ensures plan { IfOk result (λ planned. planned_of planned
            ≡ step (setting self.now) brought (state table.now.contents room) message.now.segments) };
}

/// A service: how it is set up, and its extensions.
#[derive(Drop)]
pub struct Service {
    /// How it is set up.
    pub config: Config,
    /// Its extended operations and hooks.
    pub extensions: Extensions,
}

impl Planner for Service {
    ghost setting = { λ s. setting_of s.config (offered s.extensions.operations s.extensions.hooks) };

    fn plan<'t>(
        &'t self,
        alloc: Global,
        table: &'t Table,
        brought: Brought,
        room: Option<Room>,
        message: &Message,
    ) -> Result<Planned<'t>, AllocError> {
        answer(
            alloc,
            table,
            &self.config,
            &self.extensions,
            brought,
            room,
            message,
        )
    }
}
