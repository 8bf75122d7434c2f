//! The table of a store, whose number is one that the records of a journal can have.
ghost use Rattle.std.specs.Prelude.{◌≡◌, ◌≤◌, OnOk};
ghost use Rattle.journal_core.specs.Layout.{most_number};
ghost use Rattle.repo_state.specs.Contents.{apply, no_contents};
ghost use Rattle.repo_state.specs.Held.{HasRoom};
ghost use Rattle.repo_state.specs.Sound.{IsConsistent};

use journal_core::Stamp;
use record_core::Change;
use repo_state::Table;
use std::alloc::{AllocError, Global};
use std::marker::Model;

/// A table whose number is one that a record of a journal can have. A contract sees it as its table.
#[derive(Drop)]
pub struct NumberedTable {
    table: Table,
}

impl Model for NumberedTable {
    ghost use Rattle.std.specs.Prelude.{◌≤◌};
    ghost use Rattle.dobj_model.specs.contracts.object.ObjectValue as object;
    ghost use Rattle.journal_core.specs.Layout.{most_number};
    ghost use Rattle.repo_state.specs.Codes.{held_code};
    ghost use Rattle.repo_state.specs.Held.{Held};

    ghost Value = { Held };

    ghost coded = { held_code object.the_row.coded };

    ghost view = { λ t. t.table };

    ghost invariant = { λ t. t.table.contents.number ≤ most_number };
}

impl NumberedTable {
    /// A table that holds nothing. It takes no memory.
    pub(crate) fn new(alloc: Global) -> NumberedTable
        ensures { result.contents ≡ no_contents }
    {
        NumberedTable {
            table: Table::new(alloc),
        }
    }

    /// This table.
    pub(crate) fn of(table: Table) -> NumberedTable
        requires { table.contents.number ≤ most_number }
        ensures { result.contents ≡ table.contents }
    {
        NumberedTable { table }
    }

    /// The table, lent.
    pub(crate) fn table(&self) -> &Table
        ensures same { result.now ≡ self.now }
        ensures numbered { self.now.contents.number ≤ most_number }
        ensures consistent { IsConsistent self.now.contents }
    {
        self.table.counter();
        &self.table
    }

    /// The number of the last change.
    pub(crate) fn number(&self) -> u64
        ensures { result ≡ self.now.contents.number }
    {
        self.table.number()
    }

    /// Takes all memory that the change needs.
    pub(crate) fn reserve(&mut self, change: &Change) -> Result<(), AllocError>
        ensures contents { self.new.contents ≡ self.old.contents }
        ensures room { OnOk result (HasRoom change.now self.new.room) }
    {
        self.table.reserve(change)
    }

    /// Makes the change. It takes no memory and can't fail.
    pub(crate) fn install(&mut self, stamp: Stamp, change: Change)
        requires number { stamp.number ≤ most_number }
        requires room { HasRoom change self.old.room }
        requires consistent { IsConsistent (apply (record { stamp = stamp; change = change }) self.old.contents) }
        ensures { self.new.contents ≡ apply (record { stamp = stamp; change = change }) self.old.contents }
    {
        self.table.install(stamp, change)
    }
}
