//! Some of what a crash may make of a write, for tests to open.
ghost use Rattle.std.specs.Prelude.{◌≡◌, ◌/◌, ◌<◌, ℕ, List, ◌∷◌, ◌++◌, [], length, take, IfOk, OnOk};
ghost use Rattle.std.specs.List.{All, Contains};
ghost use Rattle.disk_core.specs.Disk.{written, Torn};
ghost use Rattle.disk_core.specs.Torn.{AddsOnly, IsTornOf, IsImageBy};
ghost use Rattle.disk_core.specs.Past.{file_by};

use crate::memory::overwrite;
use crate::{DiskCall, Images, Noted};
use base_core::{Bytes, Items};
use std::alloc::{AllocError, Global};

// Some of the images after a call, from some before it. The file goes on too.
pub(crate) fn images_after(
    alloc: Global,
    before: &Images,
    file: &mut Vec<u8>,
    noted: &Noted,
) -> Result<Images, AllocError>
    ensures file { OnOk result (file.new.items
        ≡ file_by noted.now.call noted.now.done noted.now.place noted.now.bytes file.old.items) }
    ensures images { IfOk result (λ images. All (IsImageBy noted.now file.old.items before.now) images) }
{
    match (noted.call, noted.done) {
        (DiskCall::WriteAt, true) => {
            let images = torn_images(alloc, before, noted.place, noted.bytes.get())?;
            overwrite(file, noted.place, noted.bytes.get())?;
            Ok(images)
        }
        (DiskCall::WriteAt, false) => torn_images(alloc, before, noted.place, noted.bytes.get()),
        (DiskCall::Sync, true) => {
            let mut images = Items::new(alloc);
            images.push(Bytes::of(alloc, file)?)?;
            Ok(images)
        }
        _ => copy_of(alloc, before),
    }
}

// A copy of some images.
fn copy_of(alloc: Global, before: &Images) -> Result<Images, AllocError>
    ensures { IfOk result (λ images. All (Contains before.now) images) }
{
    let mut images = Items::new(alloc);
    'rows: for index in 0..before.len() {
        images.push(Bytes::of(alloc, before.item(index).get())?)?;
    }
    Ok(images)
}

// What a crash may make of these images under a write. They stay, as if the write was missing. The last one, which has
// the writes before it, is torn by it, and so is the first, which has none since the last sync.
fn torn_images(
    alloc: Global,
    before: &Images,
    place: u64,
    piece: &[u8],
) -> Result<Images, AllocError>
    ensures { IfOk result (λ images. All (IsTornOf before.now place (length piece.now)) images) }
{
    let mut images = copy_of(alloc, before)?;
    push_first(alloc, &mut images, before, place, piece)?;
    push_last(alloc, &mut images, before, place, piece)?;
    Ok(images)
}

// The first image under the write, unless it is the last.
fn push_first(
    alloc: Global,
    images: &mut Images,
    before: &Images,
    place: u64,
    piece: &[u8],
) -> Result<(), AllocError>
    ensures { OnOk result (All (IsTornOf before.now place (length piece.now)) images.old
        → All (IsTornOf before.now place (length piece.now)) images.new) }
{
    if before.len() < 2 {
        return Ok(());
    }
    push_torn(alloc, images, before, 0, place, piece)
}

// The last image under the write.
fn push_last(
    alloc: Global,
    images: &mut Images,
    before: &Images,
    place: u64,
    piece: &[u8],
) -> Result<(), AllocError>
    ensures { OnOk result (All (IsTornOf before.now place (length piece.now)) images.old
        → All (IsTornOf before.now place (length piece.now)) images.new) }
{
    if before.is_empty() {
        return Ok(());
    }
    push_torn(alloc, images, before, before.len() - 1, place, piece)
}

// One of the images under the write, the whole write last.
fn push_torn(
    alloc: Global,
    images: &mut Images,
    before: &Images,
    index: usize,
    place: u64,
    piece: &[u8],
) -> Result<(), AllocError>
    requires { index < length before.now }
    ensures { OnOk result (All (IsTornOf before.now place (length piece.now)) images.old
        → All (IsTornOf before.now place (length piece.now)) images.new) }
{
    let old = before.item(index).get();
    push_others(alloc, images, old, place, piece)?;
    push_part(alloc, images, old, place, piece)
}

// The image with what else a crash may make of a write.
fn push_others(
    alloc: Global,
    images: &mut Images,
    old: &[u8],
    place: u64,
    piece: &[u8],
) -> Result<(), AllocError>
    ensures { OnOk result (AddsOnly (Torn place (length piece.now) old.now) images.old images.new) }
{
    if piece.len() == 1 {
        push_byte(alloc, images, old, place)
    } else {
        push_piece(alloc, images, old, place, piece)
    }
}

// A byte may be any; four are enough for tests of gates.
fn push_byte(alloc: Global, images: &mut Images, old: &[u8], place: u64) -> Result<(), AllocError>
    ensures { OnOk result (images.new ≡ images.old ++ written place (0 ∷ []) old.now ∷ written place (1 ∷ []) old.now
        ∷ written place (2 ∷ []) old.now ∷ written place (255 ∷ []) old.now ∷ []) }
{
    push_part(alloc, images, old, place, &[0])?;
    push_part(alloc, images, old, place, &[1])?;
    push_part(alloc, images, old, place, &[2])?;
    push_part(alloc, images, old, place, &[255])
}

// A longer piece may be half written, or other bytes.
fn push_piece(
    alloc: Global,
    images: &mut Images,
    old: &[u8],
    place: u64,
    piece: &[u8],
) -> Result<(), AllocError>
    ensures { OnOk result ((other : List ℕ) × (length other ≡ length piece.now)
        × (images.new ≡ images.old ++ written place (take (length piece.now / 2) piece.now) old.now
        ∷ written place other old.now ∷ [])) }
{
    let other = vec![in alloc; 255; piece.len()]?;
    push_part(alloc, images, old, place, &piece[..piece.len() / 2])?;
    push_part(alloc, images, old, place, &other)
}

// The image with this part of a piece.
fn push_part(
    alloc: Global,
    images: &mut Images,
    old: &[u8],
    place: u64,
    part: &[u8],
) -> Result<(), AllocError>
    ensures { OnOk result (images.new ≡ images.old ++ written place part.now old.now ∷ []) }
{
    let mut file = old.to_vec(alloc)?;
    overwrite(&mut file, place, part)?;
    images.push(Bytes::from(file))
}
