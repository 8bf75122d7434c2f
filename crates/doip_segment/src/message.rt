//! A message: one buffer of contents, and a table of its segments.

ghost use Rattle.std.specs.Prelude.{◌≡◌, ◌+◌, ◌≤◌, ◌<◌, [], ◌∷◌, ◌++◌, length, All, OnOk, OnErr, IfOk};
ghost use Rattle.doip_segment.specs.Segments.{segment, segment_of};

use crate::kind::Kind;
use std::alloc::{AllocError, Global};
use std::marker::Model;

/// A segment's kind, and where its content lies in the buffer.
#[derive(Clone, Copy, Debug, PartialEq, Eq)]
pub(crate) struct Extent {
    pub kind: Kind,
    pub start: usize,
    pub end: usize,
}

/// A message, seen as the list `segments` of its segments.
#[derive(Debug, Drop)]
pub struct Message {
    contents: Vec<u8>,
    extents: Vec<Extent>,
    /// Where the bytes begin that belong to no segment yet.
    start: usize,
}

impl Model for Message {
    ghost use Rattle.std.specs.Prelude.{◌≤◌, ◌-◌, ◌≡◌, drop, length, vec_len, vec_capacity};
    ghost use Rattle.doip_segment.specs.Segments.{Held};
    ghost use Rattle.doip_segment.specs.Place.{segments_in, AreWithin};

    ghost Value = { Held };

    ghost view = { λ m. record {
      segments = segments_in m.contents.items m.extents.items;
      pending = drop m.start m.contents.items;
      used = vec_len m.contents;
      capacity = vec_capacity m.contents;
      slots = vec_capacity m.extents;
    } };

    ghost invariant = { λ m. (m.start ≤ length m.contents.items) × AreWithin m.start m.extents.items };
}

impl Message {
    /// A message without segments. It takes no memory yet.
    pub fn empty(alloc: Global) -> Message
        ensures segments { result.segments ≡ [] }
        ensures pending { result.pending ≡ [] }
    {
        Message {
            contents: Vec::new(alloc),
            extents: Vec::new(alloc),
            start: 0,
        }
    }

    /// A message without segments, with room for this many bytes and segments.
    pub fn with_room(alloc: Global, bytes: usize, segments: usize) -> Result<Message, AllocError>
        ensures segments { IfOk result (λ m. m.segments ≡ []) }
        ensures pending { IfOk result (λ m. m.pending ≡ []) }
        ensures used { IfOk result (λ m. m.used ≡ 0) }
        ensures capacity { IfOk result (λ m. m.capacity ≡ bytes) }
        ensures slots { IfOk result (λ m. m.slots ≡ segments) }
    {
        let contents = Vec::with_capacity(alloc, bytes)?;
        let extents = Vec::with_capacity(alloc, segments)?;
        Ok(Message {
            contents,
            extents,
            start: 0,
        })
    }

    /// Adds a segment with a copy of these bytes. An `Err` leaves the segments as they are.
    pub fn push(&mut self, kind: Kind, bytes: &[u8]) -> Result<(), AllocError>
        ensures ok { OnOk result (self.new.segments ≡ self.old.segments ++ segment kind bytes.now ∷ []) }
        ensures err { OnErr result (self.new.segments ≡ self.old.segments) }
    {
        self.extents.reserve(1)?;
        let start = self.contents.len();
        self.contents.extend_from_slice(bytes)?;
        let end = self.contents.len();
        self.extents.push(Extent { kind, start, end })?;
        self.start = end;
        Ok(())
    }

    /// Adds bytes to the content that is in no segment yet. They fit.
    pub(crate) fn append(&mut self, bytes: &[u8])
        requires { self.old.used + length bytes.now ≤ self.old.capacity }
        ensures segments { self.new.segments ≡ self.old.segments }
        ensures pending { self.new.pending ≡ self.old.pending ++ bytes.now }
        ensures used { self.new.used ≡ self.old.used + length bytes.now }
        ensures capacity { self.old.capacity ≤ self.new.capacity }
        ensures slots { self.new.slots ≡ self.old.slots }
    {
        match self.contents.extend_from_slice(bytes) {
            Ok(()) => {}
            Err(_) => unreachable!(),
        }
    }

    /// Makes the content that is in no segment yet a segment. There is a slot for it.
    pub(crate) fn close(&mut self, kind: Kind)
        requires { length self.old.segments < self.old.slots }
        ensures segments { self.new.segments ≡ self.old.segments ++ segment kind self.old.pending ∷ [] }
        ensures pending { self.new.pending ≡ [] }
        ensures used { self.new.used ≡ self.old.used }
        ensures capacity { self.new.capacity ≡ self.old.capacity }
        ensures slots { self.old.slots ≤ self.new.slots }
    {
        let start = self.start;
        let end = self.contents.len();
        match self.extents.push(Extent { kind, start, end }) {
            Ok(()) => {}
            Err(_) => unreachable!(),
        }
        self.start = end;
    }

    /// Drops all content and keeps the memory.
    pub(crate) fn clear(&mut self)
        ensures segments { self.new.segments ≡ [] }
        ensures pending { self.new.pending ≡ [] }
        ensures used { self.new.used ≡ 0 }
        ensures capacity { self.new.capacity ≡ self.old.capacity }
        ensures slots { self.new.slots ≡ self.old.slots }
    {
        self.contents.clear();
        self.extents.clear();
        self.start = 0;
    }

    // No segment is longer than what is used of the buffer.
    pub(crate) fn recall_lengths(&self)
        ensures { All (λ s. length s.bytes ≤ self.now.used) self.now.segments }
    {
        let _ = &self.contents;
    }

    /// How many bytes are in no segment yet.
    pub(crate) fn pending(&self) -> usize
        ensures { result ≡ length self.now.pending }
    {
        self.contents.len() - self.start
    }

    /// How many segments there are.
    pub fn count(&self) -> usize
        ensures { result ≡ length self.now.segments }
    {
        self.extents.len()
    }

    /// The kind of segment `i`, counted from 0.
    pub fn kind(&self, i: usize) -> Kind
        requires { i < length self.now.segments }
        ensures { result ≡ (segment_of self.now.segments i).kind }
    {
        self.extents[i].kind
    }

    /// The kind and the content of segment `i`, counted from 0.
    pub fn segment(&self, i: usize) -> (Kind, &[u8])
        requires { i < length self.now.segments }
        ensures kind { result.0 ≡ (segment_of self.now.segments i).kind }
        ensures bytes { result.1.now ≡ (segment_of self.now.segments i).bytes }
    {
        (self.kind(i), self.bytes(i))
    }

    /// The content of segment `i`, counted from 0.
    pub fn bytes(&self, i: usize) -> &[u8]
        requires { i < length self.now.segments }
        ensures { result.now ≡ (segment_of self.now.segments i).bytes }
    {
        let extent = self.extents[i];
        &self.contents[extent.start..extent.end]
    }
}
