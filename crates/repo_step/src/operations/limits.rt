//! The limits of a change.
ghost use Rattle.std.specs.Prelude.{◌≡◌, Ok};
ghost use Rattle.record_core.specs.declared.change.Change.TheVariants as changes;
ghost use Rattle.repo_step.specs.Chain.{Gives};
ghost use Rattle.repo_step.specs.Effect.{puts};
ghost use Rattle.repo_step.specs.Shown.{effect_of};
ghost use Rattle.repo_step.specs.Turn.{state_in};
ghost use Rattle.repo_step.specs.operations.Limits as limits;

use crate::shown::{Made, Shown};
use crate::turn::Turn;
use crate::{Refusal, Stop};
use dobj_model::Object;
use journal_core::Room;
use record_core::{Change, body_length};

/// The most objects.
pub(crate) const MOST_OBJECTS: usize = 100_000;
/// The last number of a change.
const LAST_NUMBER: u64 = 1 << 48;
/// What a record needs beside its body, with the closed gate after it.
const RECORD_NEEDS: u64 = 58;

/// A put within its limits, whose object the reply shows.
pub(crate) fn put<'t>(
    turn: Turn<'t>,
    object: Object,
    counter: Option<u64>,
) -> Result<Made<'t>, Stop>
    ensures { Gives effect_of result (limits.within_limits (state_in turn.entry) (changes.Put object counter)
        (puts object counter)) }
{
    let change = Change::Put { object, counter };
    match within_limits(turn, &change) {
        Ok(()) => Ok(Made {
            shown: Shown::New,
            change: Some(change),
        }),
        Err(stop) => Err(stop),
    }
}

/// Whether there is a number for the change, and room for its record.
pub(crate) fn within_limits(turn: Turn, change: &Change) -> Result<(), Stop>
    ensures { Gives (λ x. x) result (limits.within_limits (state_in turn.entry) change.now (Ok tt)) }
{
    if turn.table.number() >= LAST_NUMBER {
        return Err(Stop::Refused(Refusal::TooManyChanges));
    }
    match turn.room {
        None => Ok(()),
        Some(room) => has_room(room, change),
    }
}

// Whether the area has room for the record of the change.
fn has_room(room: Room, change: &Change) -> Result<(), Stop>
    ensures { Gives (λ x. x) result (limits.if_room room change.now (Ok tt)) }
{
    let asked = body_length(change) + RECORD_NEEDS;
    if asked <= room.area && room.used <= room.area - asked {
        return Ok(());
    }
    Err(Stop::Refused(Refusal::AreaFull {
        used: room.used,
        asked,
    }))
}
