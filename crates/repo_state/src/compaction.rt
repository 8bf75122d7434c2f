//! The records that a compacted journal holds for a table.
ghost use Rattle.std.specs.Prelude.{◌≡◌, ◌<◌, length, map, nat_eq, IfOk};
ghost use Rattle.std.specs.Cmp.Lexicographic.{pointwise};
ghost use Rattle.std.specs.FinMap as finite;
ghost use Rattle.std.specs.List.{IsDistinct};
ghost use Rattle.std.specs.Map.{keys_of};
ghost use Rattle.record_core.specs.Storable.{IsCounter};
ghost use Rattle.record_core.specs.declared.format.Format.TheVariants.{Second};
ghost use Rattle.repo_state.specs.Compacted.{counter_at, object_at, listed, IsRecordAt};
ghost use Rattle.repo_state.specs.Recorded.{IsRecordOf, AreRecordsOf};
ghost use Rattle.repo_state.specs.Rows.{objects_in};

use crate::rows::Rows;
use base_core::Items;
use dobj_model::Object;
use journal_core::{Record, Records, Stamp};
use record_core::{Change, body_of, put_body_of};
use std::alloc::{AllocError, Global};
use std::marker::Model;

/// The records that a compacted journal holds for a table, of which each is made when it is asked for. A contract sees
/// their changes: the counter, and then each object by ascending identifier.
///
/// It has a reference for each object, and takes as much again while these are sorted. No object is copied.
#[derive(Drop)]
pub struct Compacted<'t> {
    alloc: Global,
    number: u64,
    counter: u64,
    // By ascending identifier.
    objects: Vec<&'t Object>,
}

impl<'t> Model for Compacted<'t> {
    ghost use Rattle.std.specs.Prelude.{List, map};
    ghost use Rattle.record_core.specs.Storable.{IsCounter};
    ghost use Rattle.repo_state.specs.Compacted.{listed};
    ghost use Rattle.repo_state.specs.Contents.{Stamped};

    ghost Value = { List Stamped };

    ghost use Rattle.record_core.specs.contracts.change.Change as change;
    ghost use Rattle.repo_state.specs.Codes.{listed_code};

    ghost coded = { listed_code change.the_row.coded };

    ghost view = { λ c. listed c.number c.counter (map (λ o. o.now) c.objects.items) };

    ghost invariant = { λ c. IsCounter c.counter };
}

impl<'t> Compacted<'t> {
    // Of these rows.
    pub(crate) fn of(
        alloc: Global,
        number: u64,
        counter: u64,
        rows: &'t Rows,
    ) -> Result<Compacted<'t>, AllocError>
        requires { IsCounter counter }
        ensures { IfOk result (λ c. c ≡ listed number counter (finite.values (objects_in rows.now.rows))) }
    {
        let objects = ascending(alloc, rows)?;
        Ok(Compacted {
            alloc,
            number,
            counter,
            objects,
        })
    }

    /// How many records there are: one more than objects.
    pub fn len(&self) -> usize
        ensures { result ≡ length self.now }
    {
        self.objects.len() + 1
    }

    /// The record at this place, from 0. It takes the memory of its body, and the length of its text once more.
    pub fn record(&self, place: usize) -> Result<Record, AllocError>
        requires { place < length self.now }
        ensures { IfOk result (IsRecordAt self.now place) }
    {
        if place == 0 {
            counter_record(self.alloc, self.number, self.counter)
        } else {
            object_record(self.alloc, self.number, self.objects[place - 1])
        }
    }

    /// All records. It takes the memory of all bodies at once.
    pub fn records(&self) -> Result<Records, AllocError>
        ensures { IfOk result (λ records. AreRecordsOf Second records self.now) }
    {
        let mut records = Items::new(self.alloc);
        'records: for place in 0..self.len() {
            records.push(self.record(place)?)?;
        }
        Ok(records)
    }
}

// The objects of rows, by ascending identifier.
fn ascending(alloc: Global, rows: &Rows) -> Result<Vec<&Object>, AllocError>
    ensures { IfOk result (λ v. map (λ o. o.now) v.items ≡ finite.values (objects_in rows.now.rows)) }
{
    let mut objects = objects_of(alloc, rows)?;
    objects.sort_by(|a, b| a.id().get().cmp(b.id().get()))?;
    Ok(objects)
}

// The objects of rows, in their order.
fn objects_of(alloc: Global, rows: &Rows) -> Result<Vec<&Object>, AllocError>
    ensures rows { IfOk result (λ v. map (λ o. (o.now.id, o.now)) v.items ≡ rows.now.rows) }
    ensures distinct { IsDistinct (pointwise nat_eq) (keys_of rows.now.rows) }
{
    let mut objects = Vec::with_capacity(alloc, rows.len())?;
    'rows: for place in 0..rows.len() {
        objects.push(rows.look(place))?;
    }
    Ok(objects)
}

// The record of the counter.
fn counter_record(alloc: Global, number: u64, counter: u64) -> Result<Record, AllocError>
    requires { IsCounter counter }
    ensures { IfOk result (λ r. IsRecordOf Second r (counter_at number counter)) }
{
    let body = body_of(alloc, &Change::Counter { n: counter })?;
    let stamp = Stamp { number, time: 0 };
    Ok(Record { stamp, body })
}

// The record of an object.
fn object_record(alloc: Global, number: u64, object: &Object) -> Result<Record, AllocError>
    ensures { IfOk result (λ r. IsRecordOf Second r (object_at number object.now)) }
{
    let body = put_body_of(alloc, object, None)?;
    let stamp = Stamp {
        number,
        time: object.metadata().modified_on,
    };
    Ok(Record { stamp, body })
}
