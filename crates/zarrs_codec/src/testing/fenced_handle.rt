//! A handle that is read inside some ranges alone.
ghost use Rattle.std.specs.Prelude.{◌≡◌, ◌-◌, Ok, Some, None, true, false, MatchOption, ◌<◌};
ghost use Rattle.std.specs.List.{list_all, range_with_len};
ghost use Rattle.std.specs.Option.{option_map};
ghost use Rattle.zarrs_codec.specs.ByteRanges.{range_indices, ranges_are_sure, read_ranges};
ghost use Rattle.zarrs_codec.specs.FencedHandle.{FailsUnless, fenced_state, is_fenced};
ghost use Rattle.zarrs_codec.specs.HandleCalls.{ReadsBytes, Tells};
ghost use Rattle.zarrs_codec.specs.StorageState.{after_reading, value_is_sure};

use crate::byte_range::ByteRange;
use crate::bytes_partial_decoder_traits::BytesPartialDecoderTraits;
use crate::memory_handle::MemoryHandle;
use std::alloc::Global;
use zarrs_chunk::{CodecError, StorageError};

/// The end of a range that has this byte, or `None` where none has it.
fn fence_end(ranges: &[ByteRange], byte: u64) -> Option<u64>
    ensures end { MatchOption result (is_fenced ranges.now byte ≡ false) (λ end. (byte < end)
        × (list_all (is_fenced ranges.now) (range_with_len byte (end - byte)) ≡ true)) }
{
    for range in ranges {
        if range.start() <= byte && byte < range.end() {
            return Some(range.end());
        }
    }
    None
}

/// Whether ranges have all bytes from `start` up to and without `end`.
fn has_between(ranges: &[ByteRange], start: u64, end: u64) -> bool
    ensures all { result ≡ list_all (is_fenced ranges.now) (range_with_len start (end - start)) }
{
    let mut at = start;
    while at < end {
        match fence_end(ranges, at) {
            None => return false,
            Some(fence) => at = fence,
        }
    }
    true
}

/// Whether ranges have all bytes of others.
fn has_ranges(ranges: &[ByteRange], others: &[ByteRange]) -> bool
    ensures all { result ≡ list_all (is_fenced ranges.now) (range_indices others.now) }
{
    for other in others {
        if !has_between(ranges, other.start(), other.end()) {
            return false;
        }
    }
    true
}

/// A handle over memory, for reading alone, that reads the bytes inside its ranges and no other.
///
/// These bytes are sure. A read of another one answers `Storage` with code 1, before any
/// `InvalidByteRange`; so does one of the whole value where a byte of it lies outside.
#[derive(Drop)]
pub struct FencedHandle {
    memory: MemoryHandle,
    ranges: Vec<ByteRange>,
    faults: u64,
    failure: Option<StorageError>,
}

impl FencedHandle {
    /// A handle with this value, and the ranges of the bytes that can be read.
    pub fn new(value: Vec<u8>, ranges: Vec<ByteRange>) -> FencedHandle
        ensures value { (fenced_state result).value ≡ Some value.items }
        ensures fenced { (fenced_state result).sure ≡ Some (is_fenced ranges.items) }
        ensures no_faults { (fenced_state result).faults ≡ 0 }
        ensures no_failure { (fenced_state result).failure ≡ None }
    {
        FencedHandle {
            memory: MemoryHandle::with_value(value),
            ranges,
            faults: 0,
            failure: None,
        }
    }

    /// The value.
    pub fn value(&self) -> Option<&[u8]>
        ensures value { option_map (λ bytes. bytes.now) result ≡ (fenced_state self.now).value }
    {
        self.memory.value()
    }

    /// How many calls failed, modulo 2^64.
    pub fn faults(&self) -> u64
        ensures value { result ≡ (fenced_state self.now).faults }
    {
        self.faults
    }

    /// Fails where a byte outside is asked for.
    fn pass(&mut self, inside: bool) -> Result<(), CodecError>
        ensures answer { Tells result tt }
        ensures fenced { FailsUnless inside result }
        ensures left { fenced_state self.new ≡ after_reading result (fenced_state self.old) }
    {
        if inside {
            return Ok(());
        }
        let failure = StorageError { code: 1 };
        self.faults = self.faults.wrapping_add(1);
        self.failure = Some(failure);
        Err(CodecError::Storage(failure))
    }

    /// Whether all bytes of the value lie inside.
    fn has_value(&self) -> bool
        ensures all { result ≡ value_is_sure (fenced_state self.now) }
    {
        match self.memory.value() {
            None => true,
            Some(value) => has_between(self.ranges.as_slice(), 0, value.len() as u64),
        }
    }
}

impl BytesPartialDecoderTraits for FencedHandle {
    ghost use Rattle.std.specs.Prelude.{[]};
    ghost use Rattle.zarrs_codec.specs.StorageState.{held_bytes};

    ghost state = { fenced_state };

    ghost lent = { λ _. [] };

    ghost held = { λ handle. held_bytes (fenced_state handle).value };

    ghost reads_ranges = { true };

    fn exists(&mut self) -> Result<bool, CodecError> {
        self.memory.exists()
    }

    fn size(&mut self) -> Result<Option<u64>, CodecError> {
        self.memory.size()
    }

    fn size_held(&self) -> usize {
        self.memory.size_held()
    }

    fn partial_decode_many(
        &mut self,
        alloc: Global,
        ranges: &[ByteRange],
    ) -> Result<Option<Vec<u8>>, CodecError>
        ensures answer { ReadsBytes result (read_ranges (fenced_state self.old).value ranges.now) }
        ensures fenced { FailsUnless (ranges_are_sure (fenced_state self.old) ranges.now) result }
        ensures left { fenced_state self.new ≡ after_reading result (fenced_state self.old) }
    {
        let inside = has_ranges(self.ranges.as_slice(), ranges);
        self.pass(inside)?;
        self.memory.partial_decode_many(alloc, ranges)
    }

    fn decode(&mut self, alloc: Global) -> Result<Option<Vec<u8>>, CodecError>
        ensures answer { ReadsBytes result (Ok (fenced_state self.old).value) }
        ensures fenced { FailsUnless (value_is_sure (fenced_state self.old)) result }
        ensures left { fenced_state self.new ≡ after_reading result (fenced_state self.old) }
    {
        let inside = self.has_value();
        self.pass(inside)?;
        self.memory.decode(alloc)
    }

    fn supports_partial_decode(&self) -> bool {
        true
    }
}
