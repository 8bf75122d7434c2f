//! The table.
ghost use Rattle.std.specs.Prelude.{◌≡◌, ◌≤◌, ◌<◌, length, map, OnOk, IfOk, option_map};
ghost use Rattle.std.specs.FinMap as finite;
ghost use Rattle.repo_state.specs.Contents.{Stamped, no_contents, contents, apply};
ghost use Rattle.repo_state.specs.Sound.{IsConsistent};
ghost use Rattle.repo_state.specs.Held.{HasRoom};
ghost use Rattle.repo_state.specs.Compacted.{compacted};
ghost use Rattle.repo_state.specs.Recorded.{AreRecordsOf};
ghost use Rattle.record_core.specs.declared.format.Format.TheVariants.{Second};
ghost use Rattle.repo_state.specs.Rows.{objects_in};

use crate::Compacted;
use crate::rows::Rows;
use dobj_model::Object;
use journal_core::{Records, Stamp};
use record_core::Change;
use std::alloc::{AllocError, Global};
use std::marker::Model;

/// What the repository holds. A contract sees its contents, and the room that was made for the next change.
#[derive(Drop)]
pub struct Table {
    alloc: Global,
    rows: Rows,
    counter: u64,
    number: u64,
    // The identifier of the next object, copied ahead of the change.
    id: Option<String>,
}

impl Model for Table {
    ghost use Rattle.std.specs.Prelude.{option_map, string_bytes};
    ghost use Rattle.repo_state.specs.Contents.{contents};
    ghost use Rattle.repo_state.specs.Held.{Held};
    ghost use Rattle.repo_state.specs.Rows.{objects_in};
    ghost use Rattle.repo_state.specs.Sound.{IsConsistent};

    ghost Value = { Held };

    ghost use Rattle.dobj_model.specs.contracts.object.ObjectValue as object;
    ghost use Rattle.repo_state.specs.Codes.{held_code};

    ghost coded = { held_code object.the_row.coded };

    ghost view = { λ t. record {
      contents = contents (objects_in t.rows.rows) t.counter t.number;
      room = record { spare = t.rows.spare; id = option_map string_bytes t.id };
    } };

    ghost invariant = { λ t. IsConsistent (contents (objects_in t.rows.rows) t.counter t.number) };
}

impl Table {
    /// A repository that holds nothing and was never changed. It takes no memory.
    pub fn new(alloc: Global) -> Table
        ensures { result.contents ≡ no_contents }
    {
        Table {
            alloc,
            rows: Rows::new(alloc),
            counter: 1,
            number: 0,
            id: None,
        }
    }

    // The table of rows that were found sound.
    pub(crate) fn of(alloc: Global, rows: Rows, counter: u64, number: u64) -> Table
        requires { IsConsistent (contents (objects_in rows.rows) counter number) }
        ensures { result.contents ≡ contents (objects_in rows.rows) counter number }
    {
        Table {
            alloc,
            rows,
            counter,
            number,
            id: None,
        }
    }

    /// The least number that an identifier may still be minted with, from 1 to 2^62.
    pub fn counter(&self) -> u64
        ensures counter { result ≡ self.now.contents.counter }
        ensures consistent { IsConsistent self.now.contents }
    {
        self.counter
    }

    /// How many objects there are.
    pub fn count(&self) -> usize
        ensures { result ≡ finite.len self.now.contents.objects }
    {
        self.rows.len()
    }

    /// The number of the last change, 0 if there was none.
    pub fn number(&self) -> u64
        ensures { result ≡ self.now.contents.number }
    {
        self.number
    }

    /// The object of the identifier, if there is one.
    pub fn get(&self, id: &str) -> Option<&Object>
        ensures found { option_map (λ found. found.now) result ≡ finite.get self.now.contents.objects id.now }
        ensures consistent { IsConsistent self.now.contents }
    {
        self.rows.get(id)
    }

    /// The records that a compacted journal holds, which are made one at a time.
    pub fn compacted(&self) -> Result<Compacted<'_>, AllocError>
        ensures { IfOk result (λ list. list ≡ compacted self.now.contents) }
    {
        Compacted::of(self.alloc, self.number, self.counter, &self.rows)
    }

    /// The same records, all at once.
    pub fn records(&self) -> Result<Records, AllocError>
        ensures { IfOk result (λ records. AreRecordsOf Second records (compacted self.now.contents)) }
    {
        self.compacted()?.records()
    }

    /// Takes all memory that the change needs.
    ///
    /// # Errors
    /// Out of memory alone; the contents stay.
    pub fn reserve(&mut self, change: &Change) -> Result<(), AllocError>
        ensures contents { self.new.contents ≡ self.old.contents }
        ensures room { OnOk result (HasRoom change.now self.new.room) }
    {
        if let Change::Put { object, .. } = change {
            self.rows.reserve()?;
            self.id = Some(String::from_str(self.alloc, object.id().get())?);
        }
        Ok(())
    }

    /// Makes the change. It takes no memory and can't fail.
    pub fn install(&mut self, stamp: Stamp, change: Change)
        requires room { HasRoom change self.old.room }
        requires consistent { IsConsistent (apply (record { stamp = stamp; change = change }) self.old.contents) }
        ensures { self.new.contents ≡ apply (record { stamp = stamp; change = change }) self.old.contents }
    {
        match change {
            Change::Put { object, counter } => {
                match self.id.take() {
                    Some(id) => self.rows.put(id, object),
                    None => unreachable!(),
                }
                self.counter = counter.unwrap_or(self.counter);
            }
            Change::Remove { id } => self.rows.remove(id.get()),
            Change::Counter { n } => self.counter = n,
        }
        self.number = stamp.number;
    }
}
