//! A handle that keeps a record of its calls.
ghost use Rattle.std.specs.Prelude.{◌≡◌, [], Some};
ghost use Rattle.std.specs.Option.{option_map};
ghost use Rattle.zarrs_chunk.specs.Runs.{joined_runs};
ghost use Rattle.zarrs_codec.specs.RecordingHandle.{asked_ranges, recorded_calls, recorded_state};

use crate::byte_range::ByteRange;
use crate::bytes_partial_decoder_traits::BytesPartialDecoderTraits;
use crate::bytes_partial_encoder_traits::BytesPartialEncoderTraits;
use crate::memory_handle::MemoryHandle;
use std::alloc::Global;
use zarrs_chunk::CodecError;

/// A handle over memory that keeps how many reading calls succeeded and which ranges they asked for,
/// and which bytes accepted writing calls replaced: of each call its pieces, as they were given.
///
/// It never fails, but for lack of memory: the record of ranges and of a write takes some too.
#[derive(Drop)]
pub struct RecordingHandle {
    memory: MemoryHandle,
    reads: u64,
    asked: Vec<ByteRange>,
    replaced: Vec<(u64, u64)>,
}

impl RecordingHandle {
    /// A handle with this value, or without one, and an empty record.
    pub fn new(alloc: Global, value: Option<Vec<u8>>) -> RecordingHandle
        ensures value { (recorded_state result).value ≡ option_map (λ bytes. bytes.items) value }
        ensures no_writes { (recorded_state result).writes ≡ 0 }
        ensures none_accepted { (recorded_state result).accepted_writes ≡ 0 }
        ensures empty { recorded_calls result ≡ record { reads = 0; replaced = [] } }
        ensures none_asked { asked_ranges result ≡ [] }
    {
        let memory = match value {
            None => MemoryHandle::new(),
            Some(value) => MemoryHandle::with_value(value),
        };
        RecordingHandle {
            memory,
            reads: 0,
            asked: Vec::new(alloc),
            replaced: Vec::new(alloc),
        }
    }

    /// The value, or `None`.
    pub fn value(&self) -> Option<&[u8]>
        ensures value { option_map (λ bytes. bytes.now) result ≡ (recorded_state self.now).value }
    {
        self.memory.value()
    }

    /// How many reading calls succeeded, modulo 2^64.
    pub fn reads(&self) -> u64
        ensures value { result ≡ (recorded_calls self.now).reads }
    {
        self.reads
    }

    /// The ranges that reading calls asked for and were given, in order. A read of the whole value asks
    /// for none.
    pub fn asked(&self) -> &[ByteRange]
        ensures value { result.now ≡ asked_ranges self.now }
    {
        self.asked.as_slice()
    }

    /// The bytes that accepted writing calls replaced, in order: of each run of them the number of its
    /// first byte, and how many they are.
    pub fn replaced_runs(&self) -> &[(u64, u64)]
        ensures value { joined_runs result.now ≡ (recorded_calls self.now).replaced }
    {
        self.replaced.as_slice()
    }

    /// How many writing calls there were, those that failed among them, modulo 2^64.
    pub fn write_calls(&self) -> u64
        ensures value { result ≡ (recorded_state self.now).writes }
    {
        self.memory.write_calls()
    }

    /// How many writing calls were accepted, modulo 2^64.
    pub fn accepted_writes(&self) -> u64
        ensures value { result ≡ (recorded_state self.now).accepted_writes }
    {
        self.memory.accepted_writes()
    }
}

impl BytesPartialDecoderTraits for RecordingHandle {
    ghost use Rattle.std.specs.Prelude.{true};
    ghost use Rattle.zarrs_codec.specs.StorageState.{held_bytes};

    ghost state = { recorded_state };

    ghost lent = { λ _. [] };

    ghost calls = { λ handle. Some (recorded_calls handle) };

    ghost asked = { λ handle. Some (asked_ranges handle) };

    ghost held = { λ handle. held_bytes (recorded_state handle).value };

    ghost reads_ranges = { true };

    fn exists(&mut self) -> Result<bool, CodecError> {
        let found = self.memory.exists()?;
        self.reads = self.reads.wrapping_add(1);
        Ok(found)
    }

    fn size(&mut self) -> Result<Option<u64>, CodecError> {
        let size = self.memory.size()?;
        self.reads = self.reads.wrapping_add(1);
        Ok(size)
    }

    fn size_held(&self) -> usize {
        self.memory.size_held()
    }

    fn partial_decode_many(
        &mut self,
        alloc: Global,
        ranges: &[ByteRange],
    ) -> Result<Option<Vec<u8>>, CodecError> {
        let bytes = self.memory.partial_decode_many(alloc, ranges)?;
        self.asked.extend_from_slice(ranges)?;
        self.reads = self.reads.wrapping_add(1);
        Ok(bytes)
    }

    fn decode(&mut self, alloc: Global) -> Result<Option<Vec<u8>>, CodecError> {
        let bytes = self.memory.decode(alloc)?;
        self.reads = self.reads.wrapping_add(1);
        Ok(bytes)
    }

    fn supports_partial_decode(&self) -> bool {
        true
    }
}

impl BytesPartialEncoderTraits for RecordingHandle {
    ghost use Rattle.std.specs.Prelude.{true};

    ghost atomic = { true };

    ghost writes_ranges = { true };

    fn partial_encode_many(
        &mut self,
        alloc: Global,
        pieces: &[(u64, u64)],
        bytes: &[u8],
    ) -> Result<(), CodecError> {
        let kept = self.replaced.len();
        if self.replaced.extend_from_slice(pieces).is_err() {
            self.memory.refuse_write();
            return Err(CodecError::OutOfMemory);
        }
        match self.memory.partial_encode_many(alloc, pieces, bytes) {
            Ok(()) => Ok(()),
            Err(error) => {
                self.replaced.truncate(kept);
                Err(error)
            }
        }
    }

    fn replace(&mut self, alloc: Global, bytes: &[u8]) -> Result<(), CodecError> {
        let kept = self.replaced.len();
        let run = (0, bytes.len() as u64);
        if self.replaced.push(run).is_err() {
            self.memory.refuse_write();
            return Err(CodecError::OutOfMemory);
        }
        match self.memory.replace(alloc, bytes) {
            Ok(()) => Ok(()),
            Err(error) => {
                self.replaced.truncate(kept);
                Err(error)
            }
        }
    }

    fn erase(&mut self) -> Result<(), CodecError> {
        self.memory.erase()
    }

    fn supports_partial_encode(&self) -> bool {
        true
    }

    fn is_atomic(&self) -> bool {
        true
    }
}
