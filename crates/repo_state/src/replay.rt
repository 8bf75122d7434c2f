//! A table from the changes that made it.
ghost use Rattle.std.specs.Prelude.{◌≡◌, ◌≤◌, ◌↔◌, None, option_map, not, IsTrue, OnOk, OnErr, IfOk, IfErr};
ghost use Rattle.record_core.specs.Reading.{Reads};
ghost use Rattle.record_core.specs.Storable.{IsStorable};
ghost use Rattle.record_core.specs.declared.format.Format.TheVariants.{First, Second};
ghost use Rattle.repo_state.specs.Least.{lesser};
ghost use Rattle.repo_state.specs.Contents.{Objects, no_contents, apply};
ghost use Rattle.repo_state.specs.Rows.{objects_in};
ghost use Rattle.repo_state.specs.Sound.{is_sound_in, least_unsound};
ghost use Rattle.repo_state.specs.Replayed.{IsFaultOf, Takes, migrated};

use crate::Table;
use crate::rows::Rows;
use dobj_model::{Id, Object};
use journal_core::Stamp;
use record_core::{Change, Format, RecordFault, change_of, change_of_first};
use std::alloc::{AllocError, Global};
use std::marker::Model;

/// The type of plain digital objects, which is built in.
const PLAIN: &str = "0.TYPE/DO";

/// Why no table comes of changes.
#[derive(Debug, Drop)]
pub enum ReplayFault {
    /// The record at this place, from 0, is the first whose body is that of no change.
    NotARecord {
        /// The place.
        index: usize,
    },
    /// The object of this identifier isn't sound after all changes, and no lesser one is so.
    Unsound {
        /// The identifier.
        id: Id,
    },
    /// An allocation was refused.
    Memory,
}

impl From<AllocError> for ReplayFault {
    ghost use Rattle.std.specs.Prelude.{◌≡◌};
    ghost use Rattle.repo_state.specs.declared.replay.ReplayFault.TheVariants.{Memory};

    ghost from_gives = { λ _ fault. fault ≡ Memory };

    fn from(_: AllocError) -> ReplayFault {
        ReplayFault::Memory
    }
}

/// What changes have made so far, which need not be sound. A contract sees the contents.
#[derive(Drop)]
pub struct Replay {
    alloc: Global,
    rows: Rows,
    counter: u64,
    number: u64,
}

impl Model for Replay {
    ghost use Rattle.repo_state.specs.Contents.{Contents, contents};
    ghost use Rattle.repo_state.specs.Rows.{objects_in};
    ghost use Rattle.record_core.specs.Storable.{IsCounter};

    ghost Value = { Contents };

    ghost use Rattle.dobj_model.specs.contracts.object.ObjectValue as object;
    ghost use Rattle.repo_state.specs.Codes.{contents_code};

    ghost coded = { contents_code object.the_row.coded };

    ghost view = { λ r. contents (objects_in r.rows.rows) r.counter r.number };

    ghost invariant = { λ r. IsCounter r.counter };
}

impl Replay {
    /// Before the first change. It takes no memory.
    pub fn new(alloc: Global) -> Replay
        ensures { result ≡ no_contents }
    {
        Replay {
            alloc,
            rows: Rows::new(alloc),
            counter: 1,
            number: 0,
        }
    }

    /// Makes the next change.
    pub fn change(&mut self, stamp: Stamp, change: Change) -> Result<(), AllocError>
        requires { IsStorable change }
        ensures made { OnOk result (self.new ≡ apply (record { stamp = stamp; change = change }) self.old) }
        ensures err { OnErr result (self.new ≡ self.old) }
    {
        match change {
            Change::Put { object, counter } => {
                let id = String::from_str(self.alloc, object.id().get())?;
                self.rows.reserve()?;
                self.rows.put(id, object);
                self.counter = counter.unwrap_or(self.counter);
            }
            Change::Remove { id } => self.rows.remove(id.get()),
            Change::Counter { n } => self.counter = n,
        }
        self.number = stamp.number;
        Ok(())
    }

    /// Makes the change of a record, as a journal gives it. Whether its object is sound isn't asked: what it needs may
    /// come later.
    ///
    /// # Errors
    /// `NotARecord` exactly when the body is that of no change, and out of memory. Nothing is made then.
    pub fn record(&mut self, stamp: Stamp, body: &[u8]) -> Result<(), RecordFault>
        ensures { Takes Second stamp body.now self.old self.new result }
    {
        self.take(stamp, body, Format::Second)
    }

    /// The same of a record of format 1, whose object has the times 0.
    pub fn first_record(&mut self, stamp: Stamp, body: &[u8]) -> Result<(), RecordFault>
        ensures { Takes First stamp body.now self.old self.new result }
    {
        self.take(stamp, body, Format::First)
    }

    // Makes the change of a record, in this format.
    pub(crate) fn take(
        &mut self,
        stamp: Stamp,
        body: &[u8],
        format: Format,
    ) -> Result<(), RecordFault>
        ensures { Takes format stamp body.now self.old self.new result }
    {
        let change = change_in(self.alloc, body, format)?;
        self.change(stamp, change)?;
        Ok(())
    }

    /// Whether a record with this stamp comes in order: its number is no less than that of the last change.
    pub fn follows(&self, stamp: Stamp) -> bool
        ensures { IsTrue result ↔ (self.now.number ≤ stamp.number) }
    {
        self.number <= stamp.number
    }

    /// The same with the number 1, which a repository has whose journal was of format 1.
    pub fn migrated(self) -> Replay
        ensures { result ≡ migrated self }
    {
        let Replay {
            alloc,
            rows,
            counter,
            number: _,
        } = self;
        Replay {
            alloc,
            rows,
            counter,
            number: 1,
        }
    }

    /// The table, exactly when all objects are sound among one another.
    ///
    /// # Errors
    /// `Unsound` with the least identifier of an object that isn't sound.
    pub fn finish(self) -> Result<Table, ReplayFault>
        ensures table { IfOk result (λ table. table.contents ≡ self) }
        ensures sound { OnOk result (least_unsound self.objects ≡ None) }
        ensures fault { IfErr result (IsFaultOf self) }
    {
        let Replay {
            alloc,
            rows,
            counter,
            number,
        } = self;
        if let Some(object) = least_unsound(&rows) {
            return match Id::of(alloc, object.id().get())? {
                Some(id) => Err(ReplayFault::Unsound { id }),
                None => unreachable!(),
            };
        }
        Ok(Table::of(alloc, rows, counter, number))
    }
}

// The change of a body, in this format.
fn change_in(alloc: Global, body: &[u8], format: Format) -> Result<Change, RecordFault>
    ensures { Reads format body.now result }
{
    match format {
        Format::First => change_of_first(alloc, body),
        Format::Second => change_of(alloc, body),
    }
}

// The object with the least identifier of those that aren't sound.
fn least_unsound(rows: &Rows) -> Option<&Object>
    ensures { option_map (λ o. o.now.id) result ≡ least_unsound (objects_in rows.now.rows) }
{
    let mut best: Option<&Object> = None;
    let mut place = rows.len();
    while place > 0 {
        place -= 1;
        let object = rows.look(place);
        best = lesser(!is_sound(object), object, best);
    }
    best
}

// Whether the object is sound: its type is known.
pub(crate) fn is_sound(object: &Object) -> bool
    ensures { (objects : Objects) → result ≡ is_sound_in objects object.now }
{
    object.type_name().get() == PLAIN
}

// The object with the lesser identifier, of one that may pass and the best so far.
fn lesser<'t>(passes: bool, object: &'t Object, best: Option<&'t Object>) -> Option<&'t Object>
    ensures { option_map (λ o. o.now.id) result
        ≡ lesser passes object.now.id (option_map (λ o. o.now.id) best.entry) }
{
    if !passes {
        return best;
    }
    match best {
        None => Some(object),
        Some(other) => if object.id().get() < other.id().get() {
            Some(object)
        } else {
            best
        },
    }
}
