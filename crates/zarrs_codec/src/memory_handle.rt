//! A value in memory as a handle.
ghost use Rattle.std.specs.Prelude.{◌≡◌, ◌++◌, IfOk, IfErr, OnErr, OnOk, Ok, true, Some, None, length};
ghost use Rattle.std.specs.Option.{option_map};
ghost use Rattle.zarrs_chunk.specs.Answer.{memory};
ghost use Rattle.zarrs_codec.specs.BytePieces.{furthest_end, pieces_fit, with_pieces};

use crate::byte_pieces::{checked_end, write_pieces};
use crate::byte_range::ByteRange;
use crate::bytes_partial_decoder_traits::BytesPartialDecoderTraits;
use crate::bytes_partial_encoder_traits::BytesPartialEncoderTraits;
use crate::range_reads::gather;
use std::alloc::{AllocError, Global};
use zarrs_chunk::CodecError;

/// A handle whose value is in memory. It never fails, but for lack of memory, so all of its bytes
/// are sure.
#[derive(Drop)]
pub struct MemoryHandle {
    value: Option<Vec<u8>>,
    write_calls: u64,
    accepted_writes: u64,
}

impl MemoryHandle {
    ghost use Rattle.zarrs_codec.specs.MemoryHandle.{accepted_count, handle_value, write_count};
    ghost use Rattle.zarrs_codec.specs.StorageState.{count_if};
    ghost use Rattle.zarrs_codec.specs.WatchedHandle.{first_half};

    /// A handle without a value.
    pub fn new() -> MemoryHandle
        ensures made { handle_value result ≡ None }
        ensures count { write_count result ≡ 0 }
        ensures none_accepted { accepted_count result ≡ 0 }
    {
        MemoryHandle {
            value: None,
            write_calls: 0,
            accepted_writes: 0,
        }
    }

    /// A handle with this value.
    pub fn with_value(value: Vec<u8>) -> MemoryHandle
        ensures made { handle_value result ≡ Some value.items }
        ensures count { write_count result ≡ 0 }
        ensures none_accepted { accepted_count result ≡ 0 }
    {
        MemoryHandle {
            value: Some(value),
            write_calls: 0,
            accepted_writes: 0,
        }
    }

    /// The value, or `None`.
    pub fn value(&self) -> Option<&[u8]>
        ensures value { option_map (λ bytes. bytes.now) result ≡ handle_value self.now }
    {
        match &self.value {
            None => None,
            Some(value) => Some(value.as_slice()),
        }
    }

    /// The value, or `None`, without the handle.
    pub fn into_value(self) -> Option<Vec<u8>>
        ensures value { option_map (λ bytes. bytes.items) result ≡ handle_value self }
    {
        self.value
    }

    /// Leaves the first half of the value, rounded down. This is no writing call.
    pub(crate) fn halve(&mut self)
        ensures halved { handle_value self.new ≡ option_map first_half (handle_value self.old) }
        ensures count { write_count self.new ≡ write_count self.old }
        ensures accepted_kept { accepted_count self.new ≡ accepted_count self.old }
    {
        if let Some(value) = &mut self.value {
            value.truncate(value.len() / 2);
        }
    }

    /// How many writing calls there were, those that failed among them, modulo 2^64.
    pub fn write_calls(&self) -> u64
        ensures value { result ≡ write_count self.now }
    {
        let MemoryHandle { write_calls, .. } = self;
        *write_calls
    }

    /// How many writing calls were accepted, modulo 2^64.
    pub fn accepted_writes(&self) -> u64
        ensures value { result ≡ accepted_count self.now }
    {
        let MemoryHandle {
            accepted_writes,
            ..
        } = self;
        *accepted_writes
    }

    /// Counts a writing call that fails before it is made.
    pub(crate) fn refuse_write(&mut self)
        ensures value_kept { handle_value self.new ≡ handle_value self.old }
        ensures count { write_count self.new ≡ count_if true (write_count self.old) }
        ensures accepted_kept { accepted_count self.new ≡ accepted_count self.old }
    {
        self.write_calls = self.write_calls.wrapping_add(1);
    }

    /// Counts a writing call that was accepted.
    fn accept_write(&mut self)
        ensures value_kept { handle_value self.new ≡ handle_value self.old }
        ensures count { write_count self.new ≡ write_count self.old }
        ensures accepted { accepted_count self.new ≡ count_if true (accepted_count self.old) }
    {
        self.accepted_writes = self.accepted_writes.wrapping_add(1);
    }
}

impl BytesPartialDecoderTraits for MemoryHandle {
    ghost use Rattle.std.specs.Prelude.{[]};
    ghost use Rattle.zarrs_codec.specs.StorageState.{held_bytes};
    ghost use Rattle.zarrs_codec.specs.MemoryHandle.{handle_value, memory_state};

    ghost state = { memory_state };

    ghost lent = { λ _. [] };

    ghost held = { λ handle. held_bytes (handle_value handle) };

    ghost reads_ranges = { true };

    fn exists(&mut self) -> Result<bool, CodecError> {
        Ok(self.value.is_some())
    }

    fn size(&mut self) -> Result<Option<u64>, CodecError> {
        match &self.value {
            None => Ok(None),
            Some(value) => Ok(Some(value.len() as u64)),
        }
    }

    fn size_held(&self) -> usize {
        match &self.value {
            None => 0,
            Some(value) => value.len(),
        }
    }

    fn partial_decode_many(
        &mut self,
        alloc: Global,
        ranges: &[ByteRange],
    ) -> Result<Option<Vec<u8>>, CodecError> {
        match &self.value {
            None => Ok(None),
            Some(value) => Ok(Some(gather(alloc, value.as_slice(), ranges)?)),
        }
    }

    fn decode(&mut self, alloc: Global) -> Result<Option<Vec<u8>>, CodecError> {
        match &self.value {
            None => Ok(None),
            Some(value) => Ok(Some(Vec::from_slice(alloc, value.as_slice())?)),
        }
    }

    fn supports_partial_decode(&self) -> bool {
        true
    }

    fn value_in_memory(&self) -> Option<&[u8]> {
        self.value()
    }
}

/// Writes the pieces, for which the value grows to their furthest end first: nothing fails from then
/// on.
#[inline(always)]
fn write_grown(
    out: &mut Vec<u8>,
    needed: usize,
    pieces: &[(u64, u64)],
    bytes: &[u8],
) -> Result<(), AllocError>
    requires needed { needed ≡ furthest_end pieces.now }
    requires fit { pieces_fit pieces.now (length bytes.now) ≡ Ok tt }
    ensures written { OnOk result (out.new.items ≡ with_pieces out.old.items pieces.now bytes.now) }
    ensures kept { OnErr result (out.new.items ≡ out.old.items) }
{
    if out.len() < needed {
        out.resize(needed, 0)?;
    }
    write_pieces(out, pieces, bytes);
    Ok(())
}

impl BytesPartialEncoderTraits for MemoryHandle {
    ghost atomic = { true };

    ghost writes_ranges = { true };

    fn partial_encode_many(
        &mut self,
        alloc: Global,
        pieces: &[(u64, u64)],
        bytes: &[u8],
    ) -> Result<(), CodecError> {
        self.write_calls = self.write_calls.wrapping_add(1);
        let needed = checked_end(pieces, bytes.len())?;
        match &mut self.value {
            None => {
                let mut value = Vec::new(alloc);
                write_grown(&mut value, needed, pieces, bytes)?;
                self.value = Some(value);
            }
            Some(value) => write_grown(value, needed, pieces, bytes)?,
        }
        self.accept_write();
        Ok(())
    }

    fn replace(&mut self, alloc: Global, bytes: &[u8]) -> Result<(), CodecError> {
        self.write_calls = self.write_calls.wrapping_add(1);
        self.value = Some(Vec::from_slice(alloc, bytes)?);
        self.accept_write();
        Ok(())
    }

    fn erase(&mut self) -> Result<(), CodecError> {
        self.write_calls = self.write_calls.wrapping_add(1);
        self.value = None;
        self.accept_write();
        Ok(())
    }

    fn supports_partial_encode(&self) -> bool {
        true
    }

    fn is_atomic(&self) -> bool {
        true
    }
}
