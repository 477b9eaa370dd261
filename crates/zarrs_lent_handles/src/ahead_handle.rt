//! A handle that reads ahead of another handle.
ghost use Rattle.std.specs.Prelude.{◌≡◌, ◌+◌, ◌<◌, ◌≤◌, ◌^◌, ◌-◌, IfOk, IfSome, List, Ok, Option, Some, drop, length, min, take, true};
ghost use Rattle.zarrs_codec.specs.ByteRanges.{range_indices, ranges_are_sure, read_ranges};
ghost use Rattle.zarrs_codec.specs.ByteSpan.{ByteSpan};
ghost use Rattle.zarrs_codec.specs.Calls.{Calls, after_ranges, after_reads, ok_count};
ghost use Rattle.zarrs_codec.specs.HandleCalls.{NeverFailsIf};
ghost use Rattle.zarrs_codec.specs.StorageState.{after_reading};
ghost use Rattle.zarrs_lent_handles.specs.AheadHandle.{ReadsAhead, are_next, end_inside, kept_ahead, none_or_stored, bytes_ahead};

use std::alloc::{AllocError, Global};
use zarrs_chunk::CodecError;
use zarrs_codec::{ByteRange, BytesPartialDecoderTraits};

/// A storage handle that reads, by one call, what is going to be asked for.
pub trait ReadAheadTraits: BytesPartialDecoderTraits {
    // The ranges that have been read ahead and are still kept, in order.
    ghost ahead: { Self → List ByteSpan };

    // The record of the calls of the handle below, of which it reads, where that one keeps a record.
    ghost calls_below: { Self → Option Calls };

    // The ranges that the handle below was asked for, where that one keeps them.
    ghost asked_below: { Self → Option (List ByteSpan) };

    /// Reads the ranges' bytes by one call, and keeps them for the calls behind it: those that ask for
    /// the same ranges in the same order ask for nothing more. Errors: `InvalidByteRange` where a
    /// range ends past the value; `OutOfMemory` and `Storage`, which may come before. `Storage` never
    /// comes where all bytes of the ranges are sure.
    fn read_ahead(&mut self, alloc: Global, ranges: Vec<ByteRange>) -> Result<(), CodecError>
        ensures answer { ReadsAhead result (Self.state self.old).value ranges.items }
        ensures sure { NeverFailsIf (ranges_are_sure (Self.state self.old) ranges.items) result }
        ensures left { Self.state self.new ≡ after_reading result (Self.state self.old) }
        ensures ahead { ahead self.new
            ≡ kept_ahead result (Self.state self.old).value ranges.items (ahead self.old) }
        ensures counted { calls_below self.new ≡ after_reads (ok_count result) (calls_below self.old) }
        ensures asked { asked_below self.new ≡ after_ranges result ranges.items (asked_below self.old) }
        ensures same_reference { Self.lent self.new ≡ Self.lent self.old };
}

/// A handle that passes on to another one what it is asked for, and reads ahead of it.
#[derive(Drop)]
pub struct AheadHandle<'a, H: BytesPartialDecoderTraits> {
    handle: &'a mut H,
    ranges: Vec<ByteRange>,
    bytes: Vec<u8>,
    next: usize,
    at: usize,
    ghost stored: { none_or_stored (H.state handle.now).value (drop next ranges.items) ≡ true },
    ghost inside: { end_inside (H.state handle.now).value (drop next ranges.items) ≡ true },
    ghost kept: { drop at bytes.items ≡ bytes_ahead (H.state handle.now).value (drop next ranges.items) },
    ghost counted: { next ≤ length ranges.items },
    ghost within: { at ≤ length bytes.items },
}

/// How many bytes ranges have, or `u64::MAX` where they have more.
fn ranges_len(ranges: &[ByteRange]) -> usize
    ensures value { result ≡ min (length (range_indices ranges.now)) (2 ^ 64 - 1) }
{
    let mut len: u64 = 0;
    for range in ranges {
        len = len.saturating_add(range.end() - range.start());
    }
    len as usize
}

/// Whether these ranges, one at least, come first.
fn come_first(ranges: &[ByteRange], asked: &[ByteRange]) -> bool
    ensures value { result ≡ are_next asked.now ranges.now }
    ensures some { result ≡ true → 0 < length asked.now }
    ensures within { result ≡ true → length asked.now ≤ length ranges.now }
    ensures first { result ≡ true → take (length asked.now) ranges.now ≡ asked.now }
{
    let count = asked.len();
    count > 0 && count <= ranges.len() && &ranges[..count] == asked
}

impl<'a, H: BytesPartialDecoderTraits> AheadHandle<'a, H> {
    ghost use Rattle.std.specs.Prelude.{[], OnErr, is_some};
    ghost use Rattle.zarrs_lent_handles.specs.ReadAhead.{ahead_after, ranges_ahead};

    /// A handle that has read nothing yet. It takes no memory, and asks for nothing.
    pub fn new(alloc: Global, handle: &'a mut H) -> AheadHandle<'a, H>
        ensures same_reference { result.handle.ghost_name ≡ handle.entry.ghost_name }
        ensures handle { result.handle.now ≡ handle.old }
        ensures ahead { ranges_ahead result ≡ [] }
    {
        AheadHandle {
            handle,
            ranges: Vec::new(alloc),
            bytes: Vec::new(alloc),
            next: 0,
            at: 0,
        }
    }

    /// Lets go of what has been read ahead, and hands the handle back.
    pub fn into_handle(self) -> &'a mut H
        ensures same_reference { result.ghost_name ≡ self.entry.handle.ghost_name }
        ensures handle { result.now ≡ self.entry.handle.now }
    {
        self.handle
    }

    /// The bytes of these ranges, where they are the next ones that have been read ahead.
    fn next_bytes(
        &mut self,
        alloc: Global,
        asked: &[ByteRange],
    ) -> Result<Option<Vec<u8>>, AllocError>
        ensures bytes { IfOk result (λ found. IfSome found (λ bytes.
            read_ranges (H.state self.old.handle.now).value asked.now ≡ Ok (Some bytes.items))) }
        ensures handle { self.new.handle ≡ self.old.handle }
        ensures found { IfOk result (λ found. is_some found ≡ are_next asked.now (ranges_ahead self.old)) }
        ensures first { OnErr result (are_next asked.now (ranges_ahead self.old) ≡ true) }
        ensures ahead { ranges_ahead self.new ≡ ahead_after result asked.now (ranges_ahead self.old) }
    {
        let count = asked.len();
        if !come_first(&self.ranges[self.next..], asked) {
            return Ok(None);
        }
        let len = ranges_len(asked);
        let rest = &self.bytes[self.at..];
        let bytes = Vec::from_slice(alloc, &rest[..len])?;
        self.next += count;
        self.at += len;
        Ok(Some(bytes))
    }

    /// Lets go of what has been read ahead, where all of it is taken.
    fn let_go(&mut self, alloc: Global)
        ensures handle { self.new.handle ≡ self.old.handle }
        ensures ahead { ranges_ahead self.new ≡ ranges_ahead self.old }
    {
        if self.next == self.ranges.len() {
            self.ranges = Vec::new(alloc);
            self.bytes = Vec::new(alloc);
            self.next = 0;
            self.at = 0;
        }
    }
}

impl<'a, H: BytesPartialDecoderTraits> BytesPartialDecoderTraits for AheadHandle<'a, H> {
    ghost use Rattle.std.specs.Prelude.{◌∷◌, false, is_some};
    ghost use Rattle.zarrs_codec.specs.HandleCalls.{ReadsBytes, Tells};
    ghost use Rattle.zarrs_codec.specs.Lent.{whole_reference};
    ghost use Rattle.zarrs_codec.specs.StorageState.{value_is_sure, value_size};
    ghost use Rattle.zarrs_lent_handles.specs.ReadAhead.{TakesAhead, below, lent_below, ranges_ahead};

    ghost state = { λ handle. H.state handle.handle.now };

    ghost lent = { λ handle. whole_reference handle.handle.ghost_name ∷ H.lent handle.handle.now };

    ghost held = { λ handle. min (H.held handle.handle.now + length handle.bytes.items) (2 ^ 64 - 1) };

    ghost reads_ranges = { H.reads_ranges };

    fn exists(&mut self) -> Result<bool, CodecError>
        ensures answer { Tells result (is_some (H.state (below self.old)).value) }
        ensures sure { NeverFailsIf (is_some (H.state (below self.old)).sure) result }
        ensures left { H.state (below self.new) ≡ after_reading result (H.state (below self.old)) }
        ensures ahead { ranges_ahead self.new ≡ ranges_ahead self.old }
        ensures counted { H.calls (below self.new)
            ≡ after_reads (ok_count result) (H.calls (below self.old)) }
        ensures asked { H.asked (below self.new) ≡ H.asked (below self.old) }
        ensures same_reference { lent_below H.lent self.new ≡ lent_below H.lent self.old }
    {
        self.handle.exists()
    }

    fn size(&mut self) -> Result<Option<u64>, CodecError>
        ensures answer { Tells result (value_size (H.state (below self.old)).value) }
        ensures sure { NeverFailsIf (is_some (H.state (below self.old)).sure) result }
        ensures left { H.state (below self.new) ≡ after_reading result (H.state (below self.old)) }
        ensures ahead { ranges_ahead self.new ≡ ranges_ahead self.old }
        ensures counted { H.calls (below self.new)
            ≡ after_reads (ok_count result) (H.calls (below self.old)) }
        ensures asked { H.asked (below self.new) ≡ H.asked (below self.old) }
        ensures same_reference { lent_below H.lent self.new ≡ lent_below H.lent self.old }
    {
        self.handle.size()
    }

    /// Those that the handle keeps, and those that have been read ahead.
    fn size_held(&self) -> usize {
        self.handle.size_held().saturating_add(self.bytes.len())
    }

    /// What has been read ahead is taken from there, without a call of the handle. Once all of it is
    /// taken its memory is free.
    fn partial_decode_many(
        &mut self,
        alloc: Global,
        ranges: &[ByteRange],
    ) -> Result<Option<Vec<u8>>, CodecError>
        ensures answer { ReadsBytes result (read_ranges (H.state (below self.old)).value ranges.now) }
        ensures sure { NeverFailsIf (ranges_are_sure (H.state (below self.old)) ranges.now) result }
        ensures left { H.state (below self.new) ≡ after_reading result (H.state (below self.old)) }
        ensures taken { are_next ranges.now (ranges_ahead self.old) ≡ true
            → TakesAhead ranges.now self.old self.new result }
        ensures ahead { are_next ranges.now (ranges_ahead self.old) ≡ false
            → ranges_ahead self.new ≡ ranges_ahead self.old }
        ensures counted { are_next ranges.now (ranges_ahead self.old) ≡ false
            → H.calls (below self.new) ≡ after_reads (ok_count result) (H.calls (below self.old)) }
        ensures asked { are_next ranges.now (ranges_ahead self.old) ≡ false
            → H.asked (below self.new) ≡ after_ranges result ranges.now (H.asked (below self.old)) }
        ensures same_reference { lent_below H.lent self.new ≡ lent_below H.lent self.old }
    {
        match self.next_bytes(alloc, ranges)? {
            Some(bytes) => {
                self.let_go(alloc);
                Ok(Some(bytes))
            }
            None => self.handle.partial_decode_many(alloc, ranges),
        }
    }

    fn decode(&mut self, alloc: Global) -> Result<Option<Vec<u8>>, CodecError>
        ensures answer { ReadsBytes result (Ok (H.state (below self.old)).value) }
        ensures sure { NeverFailsIf (value_is_sure (H.state (below self.old))) result }
        ensures left { H.state (below self.new) ≡ after_reading result (H.state (below self.old)) }
        ensures ahead { ranges_ahead self.new ≡ ranges_ahead self.old }
        ensures counted { H.calls (below self.new)
            ≡ after_reads (ok_count result) (H.calls (below self.old)) }
        ensures asked { H.asked (below self.new) ≡ H.asked (below self.old) }
        ensures same_reference { lent_below H.lent self.new ≡ lent_below H.lent self.old }
    {
        self.handle.decode(alloc)
    }

    fn supports_partial_decode(&self) -> bool {
        self.handle.supports_partial_decode()
    }

    fn value_in_memory(&self) -> Option<&[u8]> {
        self.handle.value_in_memory()
    }
}

impl<'a, H: BytesPartialDecoderTraits> ReadAheadTraits for AheadHandle<'a, H> {
    ghost use Rattle.zarrs_lent_handles.specs.ReadAhead.{below, ranges_ahead};

    ghost ahead = { λ handle. ranges_ahead handle };

    ghost calls_below = { λ handle. H.calls (below handle) };

    ghost asked_below = { λ handle. H.asked (below handle) };

    fn read_ahead(&mut self, alloc: Global, ranges: Vec<ByteRange>) -> Result<(), CodecError> {
        match self.handle.partial_decode_many(alloc, ranges.as_slice())? {
            None => Ok(()),
            Some(bytes) => {
                self.ranges = ranges;
                self.bytes = bytes;
                self.next = 0;
                self.at = 0;
                Ok(())
            }
        }
    }
}
