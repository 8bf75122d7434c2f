//! A history, for contracts alone.
ghost use Rattle.std.specs.Prelude.{◌≡◌, ◌++◌, ◌∷◌, []};

use crate::Entry;
use std::marker::Model;
use std::mem;
use std::snapshot::Snapshot;

/// A history, seen as its entries in order. It keeps no bytes.
#[derive(Drop)]
pub struct Past {
    seen: Snapshot<Entries>,
}

impl Model for Past {
    ghost use Rattle.std.specs.Prelude.{List};
    ghost use Rattle.repo_step.specs.History.{Entry};

    ghost Value = { List Entry };

    ghost view = { λ p. p.seen.value };
}

impl Past {
    /// No entries.
    pub fn empty() -> Past
        ensures { result ≡ [] }
    {
        Past {
            seen: Snapshot::of(&Entries { last: None }),
        }
    }

    /// Adds an entry after the others.
    pub fn add(&mut self, entry: Entry)
        ensures { self.new ≡ self.old ++ entry ∷ [] }
    {
        let before = mem::replace(&mut self.seen, Snapshot::of(&Entries { last: None }));
        let last = Last { before, entry };
        self.seen = Snapshot::of(&Entries { last: Some(last) });
    }
}

// Some entries. A value of it is made only to be seen by `Snapshot::of`, which keeps no bytes of it.
#[derive(Drop)]
#[cycle(entries)]
struct Entries {
    last: Option<Last>,
}

// The last of some entries, after the others.
#[derive(Drop)]
#[cycle(entries)]
struct Last {
    before: Snapshot<Entries>,
    entry: Entry,
}

impl Model for Entries {
    ghost use Rattle.std.specs.Prelude.{List, option_map, length};
    ghost use Rattle.repo_step.specs.History.{Entry, entries_up_to};

    ghost Value = { List Entry };

    ghost size = { length };

    ghost view = { λ entries. entries_up_to (option_map (λ last. (last.before.value, last.entry)) entries.last) };
}
