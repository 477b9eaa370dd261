//! A value that a caller lends to be written where it stands, as a handle.
ghost use Rattle.std.specs.Prelude.{◌≡◌, Some};

use std::alloc::Global;
use zarrs_chunk::CodecError;
use zarrs_codec::{
    ByteRange, BytesPartialDecoderTraits, BytesPartialEncoderTraits, check_pieces, furthest_end_of,
    gather, write_pieces,
};

/// A handle on a value in memory that is lent, and keeps its length. It never fails, but for lack of
/// memory: the memory that is lent is all that it has, so a write past its end answers `OutOfMemory`.
#[derive(Drop)]
pub(crate) struct BufferHandle<'a> {
    value: &'a mut [u8],
    is_stored: bool,
    write_calls: u64,
    accepted_writes: u64,
}

impl<'a> BufferHandle<'a> {
    ghost use Rattle.zarrs_c_calls.specs.BufferHandle.{buffer_bytes, buffer_is_stored, buffer_name};
    ghost use Rattle.std.specs.Prelude.{true};

    /// A handle on this value. It takes no memory.
    pub(crate) fn new(value: &'a mut [u8]) -> BufferHandle<'a>
        ensures bytes { buffer_bytes result ≡ value.old }
        ensures stored { buffer_is_stored result ≡ true }
        ensures same_reference { buffer_name result ≡ value.entry.ghost_name }
    {
        BufferHandle {
            value,
            is_stored: true,
            write_calls: 0,
            accepted_writes: 0,
        }
    }

    /// The bytes that are lent.
    fn as_slice(&self) -> &[u8]
        ensures value { result.now ≡ buffer_bytes self.now }
    {
        &self.value[..]
    }
}

impl<'a> BytesPartialDecoderTraits for BufferHandle<'a> {
    ghost use Rattle.std.specs.Prelude.{true, [], ◌∷◌};
    ghost use Rattle.zarrs_codec.specs.Lent.{whole_reference};
    ghost use Rattle.zarrs_c_calls.specs.BufferHandle.{buffer_name, buffer_state};

    ghost state = { buffer_state };

    ghost lent = { λ handle. whole_reference (buffer_name handle) ∷ [] };

    ghost held = { λ handle. 0 };

    ghost reads_ranges = { true };

    fn exists(&mut self) -> Result<bool, CodecError> {
        Ok(self.is_stored)
    }

    fn size(&mut self) -> Result<Option<u64>, CodecError> {
        if !self.is_stored {
            return Ok(None);
        }
        Ok(Some(self.value.len() as u64))
    }

    /// None: the value is lent.
    fn size_held(&self) -> usize {
        0
    }

    fn partial_decode_many(
        &mut self,
        alloc: Global,
        ranges: &[ByteRange],
    ) -> Result<Option<Vec<u8>>, CodecError> {
        if !self.is_stored {
            return Ok(None);
        }
        Ok(Some(gather(alloc, self.as_slice(), ranges)?))
    }

    fn decode(&mut self, alloc: Global) -> Result<Option<Vec<u8>>, CodecError> {
        if !self.is_stored {
            return Ok(None);
        }
        Ok(Some(Vec::from_slice(alloc, self.as_slice())?))
    }

    fn supports_partial_decode(&self) -> bool {
        true
    }
}

impl<'a> BytesPartialEncoderTraits for BufferHandle<'a> {
    ghost use Rattle.std.specs.Prelude.{true};

    ghost atomic = { true };

    ghost writes_ranges = { true };

    fn partial_encode_many(
        &mut self,
        _alloc: Global,
        pieces: &[(u64, u64)],
        bytes: &[u8],
    ) -> Result<(), CodecError> {
        self.write_calls = self.write_calls.wrapping_add(1);
        check_pieces(pieces, bytes.len())?;
        if !self.is_stored || furthest_end_of(pieces, bytes.len()) > self.value.len() {
            return Err(CodecError::OutOfMemory);
        }
        write_pieces(self.value, pieces, bytes);
        self.accepted_writes = self.accepted_writes.wrapping_add(1);
        Ok(())
    }

    fn replace(&mut self, _alloc: Global, bytes: &[u8]) -> Result<(), CodecError> {
        self.write_calls = self.write_calls.wrapping_add(1);
        if bytes.len() != self.value.len() {
            return Err(CodecError::OutOfMemory);
        }
        self.value.copy_from_slice(bytes);
        self.is_stored = true;
        self.accepted_writes = self.accepted_writes.wrapping_add(1);
        Ok(())
    }

    fn erase(&mut self) -> Result<(), CodecError> {
        self.write_calls = self.write_calls.wrapping_add(1);
        self.is_stored = false;
        self.accepted_writes = self.accepted_writes.wrapping_add(1);
        Ok(())
    }

    fn supports_partial_encode(&self) -> bool {
        true
    }

    fn is_atomic(&self) -> bool {
        true
    }
}
