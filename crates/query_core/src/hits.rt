//! The page of a search.
ghost use Rattle.std.specs.Prelude.{◌≡◌, ◌≤◌, ◌∷◌, ◌++◌, [], map, OnOk, OnErr, IfOk};
ghost use Rattle.query_core.specs.Page.{IsPage, IsPart};

use crate::order::Order;
use dobj_model::Object;
use std::alloc::{AllocError, Global};
use std::marker::Model;

/// The objects that a search found, lent, in some order.
#[derive(Drop)]
pub struct Hits<'a> {
    hits: Vec<&'a Object>,
}

impl<'a> Model for Hits<'a> {
    ghost use Rattle.std.specs.Prelude.{List, map};
    ghost use Rattle.dobj_model.specs.declared.object.ObjectValue.{ObjectValue};
    ghost use Rattle.std.specs.Coded.{coded_list};
    ghost use Rattle.dobj_model.specs.contracts.object.ObjectValue as object;

    ghost Value = { List ObjectValue };

    ghost coded = { coded_list object.the_row.coded };

    ghost view = { λ h. map (λ hit. hit.now) h.hits.items };
}

impl<'a> Hits<'a> {
    /// No hits. It takes no memory.
    pub fn none(alloc: Global) -> Hits<'a>
        ensures { result ≡ [] }
    {
        Hits {
            hits: Vec::new(alloc),
        }
    }

    /// Adds a hit at the end. Out of memory the hits stay as they were.
    pub fn push(&mut self, object: &'a Object) -> Result<(), AllocError>
        ensures ok { OnOk result (self.new ≡ self.old ++ object.now ∷ []) }
        ensures err { OnErr result (self.new ≡ self.old) }
    {
        self.hits.push(object)?;
        Ok(())
    }

    /// The hits, in order.
    pub fn as_slice(&self) -> &[&'a Object]
        ensures { map (λ hit. hit.now) result.now ≡ self.now }
    {
        self.hits.as_slice()
    }
}

/// The page of this number, from 0, of the hits in their order, with at most `size` to a page. Without a size it has all
/// hits, whatever the number. The hits may come in any order; they are sorted by reference, and no object is copied.
pub fn page<'a>(
    alloc: Global,
    order: &Order,
    hits: &Hits<'a>,
    number: u64,
    size: Option<u64>,
) -> Result<Hits<'a>, AllocError>
    ensures { IfOk result (IsPage order.now hits.now number size) }
{
    let mut sorted = Vec::from_slice(alloc, hits.hits.as_slice())?;
    sorted.sort_by(|a, b| order.compare(a, b))?;
    let (start, end) = bounds(sorted.len(), number, size);
    Ok(Hits {
        hits: Vec::from_slice(alloc, &sorted[start..end])?,
    })
}

// Where the page begins in so many hits, and where it ends.
fn bounds(len: usize, number: u64, size: Option<u64>) -> (usize, usize)
    ensures order { result.0 ≤ result.1 }
    ensures within { result.1 ≤ len }
    ensures page { IsPart len number size result.0 result.1 }
{
    let Some(size) = size else {
        return (0, len);
    };
    let Some(skipped) = number.checked_mul(size) else {
        return (len, len);
    };
    if skipped >= len as u64 {
        return (len, len);
    }
    let start = skipped as usize;
    if size >= (len - start) as u64 {
        (start, len)
    } else {
        (start, start + size as usize)
    }
}
