//! What all threads share.
ghost use Rattle.std.specs.Prelude.{◌≡◌, ◌≤◌};
ghost use Rattle.history_lock.specs.Rule.{word_count};

use crate::board::Board;
use crate::places::Places;
use crate::turned::Turned;

/// A value that threads take turns on, and a queue for it. Contracts see which lock it is (`id_of`), the value that it
/// was opened with (`first_of`) and how many passes it has (`passes_of`).
pub struct Shared<T: Turned> {
    pub(crate) table: Board<T>,
    pub(crate) places: Places,
    ghost sized: { table.shared.table_id.words ≡ word_count table.shared.key.passes },
    ghost one: { table.shared.table_id.slots ≡ 1 },
    ghost few: { table.shared.key.passes ≤ 64 },
}
