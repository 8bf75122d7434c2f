//! Writing another list into the other area, and turning the side to it.
ghost use Rattle.std.specs.Prelude.{◌≡◌, ◌+◌, ◌^◌, ◌<◌, ◌≤◌, IsSome, OnOk};
ghost use Rattle.std.specs.List.{All};
ghost use Rattle.std.specs.Option.{ForSome};
ghost use Rattle.base_core.specs.Causes.{HasCause};
ghost use Rattle.journal_core.specs.Layout.{most_area};
ghost use Rattle.journal_core.specs.File.{written_list, Fits};
ghost use Rattle.journal_core.specs.Journal.{room_for};
ghost use Rattle.journal_core.specs.Steps.{WritesDurably};
ghost use Rattle.journal_core.specs.Turn.{SurvivesTurn, Turns};
ghost use Rattle.journal_core.specs.declared.layout.Format.{Format};
ghost use Rattle.journal_core.specs.declared.layout.Format.TheVariants.{Second};

use crate::Records;
use crate::buffer::Buffer;
use crate::layout::{CLOSED_GATE, HEADER_LENGTH, SIDE_PLACE, VERSION};
use crate::steps::write_durably;
use base_core::Failed;
use disk_core::Disk;

// Writes the version byte, these records and a closed gate from `place` on, and makes them durable.
fn write_list<D: Disk>(
    disk: &mut D,
    buffer: &mut Buffer,
    place: u64,
    entries: &Records,
) -> Result<(), Failed>
    requires { place + room_for entries.now < 2 ^ 60 }
    ensures { WritesDurably (D.state disk.old) (D.state disk.new) place (written_list entries.now) result }
{
    buffer.begin(place);
    buffer.add(disk, &[VERSION])?;
    'entries: for index in 0..entries.len() {
        let entry = entries.item(index);
        buffer.add_record(disk, entry.stamp, entry.body.get())?;
    }
    buffer.add(disk, &[CLOSED_GATE])?;
    buffer.flush(disk)?;
    disk.sync()
}

// Writes these records into the area of the other side, and turns the side.
pub(crate) fn turn<D: Disk>(
    disk: &mut D,
    buffer: &mut Buffer,
    area: u64,
    side: u8,
    entries: &Records,
) -> Result<(), Failed>
    requires either { side < 2 }
    requires most { area ≤ most_area }
    requires fits { 2 + room_for entries.now ≤ area }
    requires stamps { All (Fits Second) entries.now }
    ensures crash { (format : Format) → SurvivesTurn format (D.state disk.old) (D.state disk.new) area side entries.now }
    ensures turned { OnOk result ((format : Format)
        → Turns format (D.state disk.old) (D.state disk.new) area side entries.now) }
    ensures reported { ForSome (D.state disk.new).content (λ _. IsSome (D.state disk.old).content) }
    ensures clock { (D.state disk.old).moment ≤ (D.state disk.new).moment }
    ensures cause { HasCause (D.state disk.old).faults (D.state disk.new).faults result }
{
    let other = 1 - side;
    write_list(disk, buffer, HEADER_LENGTH + other as u64 * area, entries)?;
    // The side byte vouches for the whole other area: it is durable by now.
    write_durably(disk, SIDE_PLACE, &[other])
}
