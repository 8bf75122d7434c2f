//! What an area contains: a version byte, and records. It is read in pieces, and each body into memory of its own.
ghost use Rattle.std.specs.Prelude.{◌≡◌, ◌⊎◌, ◌+◌, ◌^◌, ◌<◌, ◌≤◌, ◌++◌, ℕ, true, length, IfOk, IfSome, OnOk, IfErr, IsErrOf};
ghost use Rattle.std.specs.Option.{ForSome};
ghost use Rattle.base_core.specs.Causes.{Rose, HasCause};
ghost use Rattle.disk_core.specs.Runs.{LeavesAlone};
ghost use Rattle.journal_core.specs.Layout.{record_overhead};
ghost use Rattle.journal_core.specs.File.{big_endian, check_of, content_of, opened};
ghost use Rattle.journal_core.specs.Buffer.{IsPieceOf};
ghost use Rattle.std.specs.List.{All};
ghost use Rattle.journal_core.specs.Journal.{IsNumbered};
ghost use Rattle.journal_core.specs.Area.{rest_at, Reaches, IsFirstOf, IsRead, Refuses, IsNext, IsNumberedNext, IsRecordOf, IsWithin};

use crate::buffer::Buffer;
use crate::layout::{Format, MOST_NUMBER, OPEN_GATE};
use crate::records::has_digest;
use crate::{OpenFault, Record, Records, Stamp};
use base_core::{Bytes, Failed, Items};
use disk_core::Disk;
use std::alloc::Global;

// What is at a gate's place.
pub(crate) enum Next {
    Closed,
    Broken,
    Open { entry: Record },
}

// The records of the area of `size` bytes at `base`, and how many bytes there are before its closed gate.
pub(crate) fn read_area<D: Disk>(
    alloc: Global,
    disk: &mut D,
    buffer: &mut Buffer,
    format: Format,
    base: u64,
    size: u64,
) -> Result<(Records, u64), OpenFault>
    requires range { base + size < 2 ^ 61 }
    requires piece { ForSome (D.state disk.old).content (λ file. IsPieceOf file buffer.old) }
    ensures read { IfOk result (λ read. ForSome (D.state disk.old).content (λ file. Reaches file base size
        → IsRead format (rest_at file base size) read.0 read.1)) }
    ensures numbered { IfOk result (λ read. All IsNumbered read.0) }
    ensures bound { IfOk result (λ read. read.1 < size) }
    ensures refused { IfErr result (λ fault. ForSome (D.state disk.old).content (λ file. Reaches file base size
        → Refuses format base (rest_at file base size) fault)) }
    ensures same { OnOk result ((D.state disk.new).content ≡ (D.state disk.old).content) }
    ensures alone { LeavesAlone (D.state disk.old) (D.state disk.new) }
    ensures fault { IsErrOf result OpenFault.DiskFault → Rose (D.state disk.old).faults (D.state disk.new).faults }
{
    let mut version = [0];
    if !read_all(disk, buffer, base, size, &mut version)? {
        return Err(OpenFault::NotAStore);
    }
    if version[0] != format.version() {
        return Err(OpenFault::Version { byte: version[0] });
    }
    let mut entries = Items::new(alloc);
    let mut used = 1;
    'records: loop {
        let place = base + used;
        match next_record(alloc, disk, buffer, format, place, size - used)? {
            Next::Closed => return Ok((entries, used)),
            Next::Broken => return Err(OpenFault::Damaged { place }),
            Next::Open { entry } => {
                used += record_length(format, &entry);
                entries.push(entry)?;
            }
        }
    }
}

// What a record of this format takes.
fn record_length(format: Format, entry: &Record) -> u64
    requires { length entry.now.body < 2 ^ 61 }
    ensures { result ≡ length (opened format entry.now) }
{
    let length = entry.body.get().len() as u64;
    match format {
        Format::First => 9 + length,
        Format::Second => 57 + length,
    }
}

// Fills `into` from `place` on, if that many bytes are left.
fn read_all<D: Disk>(
    disk: &mut D,
    buffer: &mut Buffer,
    place: u64,
    left: u64,
    into: &mut [u8],
) -> Result<bool, Failed>
    requires range { place + left < 2 ^ 61 }
    requires piece { ForSome (D.state disk.old).content (λ file. IsPieceOf file buffer.old) }
    ensures first { IfOk result (λ all. ForSome (D.state disk.old).content (λ file. Reaches file place left
        → IsFirstOf (rest_at file place left) into.new all)) }
    ensures fits { IfOk result (λ all. all ≡ true → length into.new ≤ left) }
    ensures piece { ForSome (D.state disk.old).content (λ file. IsPieceOf file buffer.new) }
    ensures same { OnOk result ((D.state disk.new).content ≡ (D.state disk.old).content) }
    ensures alone { LeavesAlone (D.state disk.old) (D.state disk.new) }
    ensures cause { HasCause (D.state disk.old).faults (D.state disk.new).faults result }
{
    if into.len() as u64 > left {
        return Ok(false);
    }
    let count = buffer.read(disk, place, into)?;
    Ok(count == into.len())
}

// What comes first: a closed gate, an open one with a whole record and the next gate after it, or neither.
fn next_record<D: Disk>(
    alloc: Global,
    disk: &mut D,
    buffer: &mut Buffer,
    format: Format,
    place: u64,
    left: u64,
) -> Result<Next, OpenFault>
    requires range { place + left < 2 ^ 61 }
    requires piece { ForSome (D.state disk.old).content (λ file. IsPieceOf file buffer.old) }
    ensures next { IfOk result (λ next. ForSome (D.state disk.old).content (λ file. Reaches file place left
        → IsNext format (rest_at file place left) next)) }
    ensures bound { IfOk result (λ next. IsWithin format left next) }
    ensures numbered { IfOk result IsNumberedNext }
    ensures piece { ForSome (D.state disk.old).content (λ file. IsPieceOf file buffer.new) }
    ensures same { OnOk result ((D.state disk.new).content ≡ (D.state disk.old).content) }
    ensures alone { LeavesAlone (D.state disk.old) (D.state disk.new) }
    ensures causes { IfErr result (λ fault. (fault ≡ OpenFault.Memory)
        ⊎ ((fault ≡ OpenFault.DiskFault) × Rose (D.state disk.old).faults (D.state disk.new).faults)) }
{
    let mut gate = [0];
    if !read_all(disk, buffer, place, left, &mut gate)? {
        return Ok(Next::Broken);
    }
    if gate[0] != OPEN_GATE {
        return Ok(Next::Closed);
    }
    match read_record(alloc, disk, buffer, format, place + 1, left - 1)? {
        Some(entry) => Ok(Next::Open { entry }),
        None => Ok(Next::Broken),
    }
}

// The record after a gate, if it is whole and a byte is left for the next gate.
fn read_record<D: Disk>(
    alloc: Global,
    disk: &mut D,
    buffer: &mut Buffer,
    format: Format,
    place: u64,
    left: u64,
) -> Result<Option<Record>, OpenFault>
    requires range { place + left < 2 ^ 61 }
    requires piece { ForSome (D.state disk.old).content (λ file. IsPieceOf file buffer.old) }
    ensures found { IfOk result (λ found. ForSome (D.state disk.old).content (λ file. Reaches file place left
        → IsRecordOf format (rest_at file place left) found)) }
    ensures bound { IfOk result (λ found. IfSome found (λ entry. length (content_of format entry) < left)) }
    ensures numbered { IfOk result (λ found. IfSome found IsNumbered) }
    ensures piece { ForSome (D.state disk.old).content (λ file. IsPieceOf file buffer.new) }
    ensures same { OnOk result ((D.state disk.new).content ≡ (D.state disk.old).content) }
    ensures alone { LeavesAlone (D.state disk.old) (D.state disk.new) }
    ensures causes { IfErr result (λ fault. (fault ≡ OpenFault.Memory)
        ⊎ ((fault ≡ OpenFault.DiskFault) × Rose (D.state disk.old).faults (D.state disk.new).faults)) }
{
    match format {
        Format::First => first_record(alloc, disk, buffer, place, left),
        Format::Second => second_record(alloc, disk, buffer, place, left),
    }
}

// The same in format 1.
fn first_record<D: Disk>(
    alloc: Global,
    disk: &mut D,
    buffer: &mut Buffer,
    place: u64,
    left: u64,
) -> Result<Option<Record>, OpenFault>
    requires range { place + left < 2 ^ 61 }
    requires piece { ForSome (D.state disk.old).content (λ file. IsPieceOf file buffer.old) }
    ensures found { IfOk result (λ found. ForSome (D.state disk.old).content (λ file. Reaches file place left
        → IsRecordOf Format.First (rest_at file place left) found)) }
    ensures bound { IfOk result (λ found. IfSome found (λ entry. length (content_of Format.First entry) < left)) }
    ensures numbered { IfOk result (λ found. IfSome found IsNumbered) }
    ensures piece { ForSome (D.state disk.old).content (λ file. IsPieceOf file buffer.new) }
    ensures same { OnOk result ((D.state disk.new).content ≡ (D.state disk.old).content) }
    ensures alone { LeavesAlone (D.state disk.old) (D.state disk.new) }
    ensures causes { IfErr result (λ fault. (fault ≡ OpenFault.Memory)
        ⊎ ((fault ≡ OpenFault.DiskFault) × Rose (D.state disk.old).faults (D.state disk.new).faults)) }
{
    let mut field = [0; 8];
    if !read_all(disk, buffer, place, left, &mut field)? {
        return Ok(None);
    }
    let length = length_of(&field);
    if length >= left - 8 {
        return Ok(None);
    }
    let mut body = vec![in alloc; 0; length as usize]?;
    if !read_all(disk, buffer, place + 8, left - 8, &mut body)? {
        return Ok(None);
    }
    Ok(Some(Record {
        stamp: Stamp { number: 0, time: 0 },
        body: Bytes::from(body),
    }))
}

// The same in format 2: its number is in bounds, and its digest is that of its fields and its body.
fn second_record<D: Disk>(
    alloc: Global,
    disk: &mut D,
    buffer: &mut Buffer,
    place: u64,
    left: u64,
) -> Result<Option<Record>, OpenFault>
    requires range { place + left < 2 ^ 61 }
    requires piece { ForSome (D.state disk.old).content (λ file. IsPieceOf file buffer.old) }
    ensures found { IfOk result (λ found. ForSome (D.state disk.old).content (λ file. Reaches file place left
        → IsRecordOf Format.Second (rest_at file place left) found)) }
    ensures bound { IfOk result (λ found. IfSome found (λ entry. length (content_of Format.Second entry) < left)) }
    ensures numbered { IfOk result (λ found. IfSome found IsNumbered) }
    ensures piece { ForSome (D.state disk.old).content (λ file. IsPieceOf file buffer.new) }
    ensures same { OnOk result ((D.state disk.new).content ≡ (D.state disk.old).content) }
    ensures alone { LeavesAlone (D.state disk.old) (D.state disk.new) }
    ensures causes { IfErr result (λ fault. (fault ≡ OpenFault.Memory)
        ⊎ ((fault ≡ OpenFault.DiskFault) × Rose (D.state disk.old).faults (D.state disk.new).faults)) }
{
    let mut fields = [0; 24];
    if !read_all(disk, buffer, place, left, &mut fields)? {
        return Ok(None);
    }
    let (length, stamp) = parts_of(&fields);
    if stamp.number > MOST_NUMBER {
        return Ok(None);
    }
    // The digest has 32 bytes, and the next gate is one more.
    if left - 24 <= 32 {
        return Ok(None);
    }
    if length >= left - 56 {
        return Ok(None);
    }
    let mut body = vec![in alloc; 0; length as usize]?;
    if !read_all(disk, buffer, place + 24, left - 24, &mut body)? {
        return Ok(None);
    }
    let mut check = [0; 32];
    let after = 24 + length;
    if !read_all(disk, buffer, place + after, left - after, &mut check)? {
        return Ok(None);
    }
    if !has_digest(&fields, &body, &check) {
        return Ok(None);
    }
    Ok(Some(Record {
        stamp,
        body: Bytes::from(body),
    }))
}

// The number that these eight bytes are.
fn length_of(field: &[u8; 8]) -> u64
    ensures bytes { field.now ≡ big_endian result }
    ensures small { result < 2 ^ 64 }
{
    u64::from_be_bytes(*field)
}

// The numbers that these fields are: the length of a body, and a stamp.
fn parts_of(fields: &[u8; 24]) -> (u64, Stamp)
    ensures bytes { fields.now ≡ big_endian result.0 ++ (big_endian result.1.number ++ big_endian result.1.time) }
    ensures small { (result.0 < 2 ^ 64) × (result.1.number < 2 ^ 64) × (result.1.time < 2 ^ 64) }
{
    let mut length = [0; 8];
    let mut number = [0; 8];
    let mut time = [0; 8];
    length.copy_from_slice(&fields[..8]);
    number.copy_from_slice(&fields[8..16]);
    time.copy_from_slice(&fields[16..]);
    let stamp = Stamp {
        number: length_of(&number),
        time: length_of(&time),
    };
    (length_of(&length), stamp)
}
