//! The identifier of a new object.
ghost use Rattle.std.specs.Prelude.{◌≡◌, None, IfOk};
ghost use Rattle.ext_ops.specs.Offered.{Offered};
ghost use Rattle.repo_step.specs.Chain.{Gives};
ghost use Rattle.repo_step.specs.Turn.{setting_in, state_in};
ghost use Rattle.repo_step.specs.operations.Mint as spec;

use crate::turn::Turn;
use crate::{Refusal, Stop};
use dobj_model::Id;
use doip_json::Str;
use std::alloc::AllocError;

/// Numbers of identifiers stay below this.
const NUMBERS_END: u64 = 1 << 62;

/// An identifier, and the counter afterwards, if it was minted.
#[derive(Drop)]
pub(crate) struct NewId {
    pub(crate) id: Id,
    pub(crate) counter: Option<u64>,
}

/// The identifier that was asked for, unless it is in use, or else one that is minted. Minting looks at one identifier
/// after another, from the counter on.
pub(crate) fn named(turn: Turn, asked: Option<Id>) -> Result<NewId, Stop>
    ensures { (offers : Offered) → Gives (λ named. spec.named_as named.id named.counter) result
        (spec.named (setting_in turn.entry offers) (state_in turn.entry).contents asked) }
{
    let Some(id) = asked else {
        return minted(turn);
    };
    if is_free(turn, id.get()) {
        Ok(NewId { id, counter: None })
    } else {
        Err(Stop::Refused(Refusal::InUse))
    }
}

// The first free identifier with a number.
fn minted(turn: Turn) -> Result<NewId, Stop>
    ensures { (offers : Offered) → Gives (λ named. spec.named_as named.id named.counter) result
        (spec.named (setting_in turn.entry offers) (state_in turn.entry).contents None) }
{
    for number in turn.table.counter()..NUMBERS_END {
        let id = numbered(turn, number)?;
        if is_free(turn, id.get()) {
            return Ok(NewId {
                id,
                counter: Some(number + 1),
            });
        }
    }
    Err(Stop::Refused(Refusal::CounterSpent))
}

// The identifier with a number.
fn numbered(turn: Turn, number: u64) -> Result<Id, AllocError>
    ensures { IfOk result (λ id. id ≡ spec.numbered turn.entry.config.now.prefix number) }
{
    let text = format!(in turn.alloc; "{}/{}", turn.config.prefix.get(), number)?;
    match Id::from_text(Str::from_string(text)) {
        Some(id) => Ok(id),
        // A prefix has at most 200 bytes, and a number below 2^62 at most 19.
        None => unreachable!(),
    }
}

// Whether the identifier is neither the service's nor an object's.
fn is_free(turn: Turn, id: &str) -> bool
    ensures { (offers : Offered)
        → result ≡ spec.is_free (setting_in turn.entry offers) (state_in turn.entry).contents id.now }
{
    id != turn.config.service.get() && turn.table.get(id).is_none()
}
