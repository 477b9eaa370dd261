//! A value that a caller lends, and a buffer for the one that a write leaves, as a handle.
ghost use Rattle.std.specs.Prelude.{◌≡◌, ◌||◌, ◌==◌, ◌≤◌, [], List, ℕ, drop, length, true};
ghost use Rattle.zarrs_c_calls.specs.Written.{is_written, replaced};

use crate::part_reads::stored_given;
use crate::written::{Written, stored_or_empty, write_over, write_whole};
use std::alloc::Global;
use std::marker::{Brand, PhantomData};
use zarrs_chunk::{CodecError, StorageError};
use zarrs_codec::{
    ByteRange, BytesPartialDecoderTraits, BytesPartialEncoderTraits, check_pieces, gather,
};

/// What a buffer is before it is written. It is for proofs alone.
pub(crate) trait Before {
    ghost before: { List ℕ };
}

impl Before for Brand {
    ghost before = { [] };
}

/// A handle on a value that is lent, or on none, which takes one write. What that leaves goes in front
/// of a buffer that is lent too, where this has room, and else apart: so a value is copied once, when
/// it is written, and till then the buffer stays as it was.
///
/// Before it is written, it never fails, but for lack of memory. Behind that each writing call answers
/// `Storage` with the code 0.
#[derive(Drop)]
pub(crate) struct OneWriteHandle<'a, B: Before> {
    value: &'a [u8],
    is_stored: bool,
    out: &'a mut [u8],
    apart: &'a mut Vec<u8>,
    written: Written,
    write_calls: u64,
    faults: u64,
    failure: Option<StorageError>,
    of: PhantomData<B>,
    ghost whole: { length out.now ≡ length B.before },
    ghost rest: { drop (replaced written) out.now ≡ drop (replaced written) B.before },
    ghost inside: { replaced written ≤ length out.now },
    ghost quiet: { is_written written || faults == 0 ≡ true },
}

impl<'a, B: Before> OneWriteHandle<'a, B> {
    ghost use Rattle.zarrs_chunk.specs.declared.codec_error.CodecError.TheVariants.{Storage};
    ghost use Rattle.zarrs_c_calls.specs.Reads.{lent_stored, stored_value};
    ghost use Rattle.zarrs_c_calls.specs.Written.{KeepsRest};
    ghost use Rattle.zarrs_c_calls.specs.OneWriteHandle.{after_refusal, apart_name, fresh_state, once_state, once_value, once_written, out_bytes, out_name, second_write};

    /// A handle on this value, or on none. It takes no memory.
    pub(crate) fn new(
        is_stored: bool,
        value: &'a [u8],
        out: &'a mut [u8],
        apart: &'a mut Vec<u8>,
    ) -> OneWriteHandle<'a, B>
        requires same { out.old ≡ B.before }
        ensures made { once_state result ≡ fresh_state (stored_value is_stored value.now) }
        ensures same_reference { out_name result ≡ out.entry.ghost_name }
        ensures lent { apart_name result ≡ apart.entry.ghost_name }
    {
        OneWriteHandle {
            value,
            is_stored,
            out,
            apart,
            written: Written::Nothing,
            write_calls: 0,
            faults: 0,
            failure: None,
            of: PhantomData,
        }
    }

    /// What the write left, and where.
    pub(crate) fn written(&self) -> Written
        ensures value { result ≡ once_written self.now }
        ensures rest { KeepsRest B.before (out_bytes self.now) result }
    {
        self.written
    }

    /// The value, or `None`.
    fn current(&self) -> Option<&[u8]>
        ensures value { lent_stored result ≡ once_value self.now }
    {
        match self.written {
            Written::Nothing => stored_given(self.is_stored, self.value),
            Written::Front(count) => Some(&self.out[..count]),
            Written::Apart => Some(self.apart.as_slice()),
            Written::Erased => None,
        }
    }

    /// Counts a writing call behind the one that it takes.
    fn refuse(&mut self) -> CodecError
        requires written { is_written self.old.written ≡ true }
        ensures refused { result ≡ Storage second_write }
        ensures counted { once_state self.new ≡ after_refusal (once_state self.old) }
        ensures same_reference { out_name self.new ≡ out_name self.old }
        ensures lent { apart_name self.new ≡ apart_name self.old }
    {
        let failure = StorageError { code: 0 };
        self.faults = self.faults.wrapping_add(1);
        self.failure = Some(failure);
        CodecError::Storage(failure)
    }
}

impl<'a, B: Before> BytesPartialDecoderTraits for OneWriteHandle<'a, B> {
    ghost use Rattle.std.specs.Prelude.{length, true, ◌∷◌};
    ghost use Rattle.zarrs_codec.specs.Lent.{whole_reference};
    ghost use Rattle.zarrs_c_calls.specs.OneWriteHandle.{apart_bytes, apart_name, once_state, out_name};

    ghost state = { once_state };

    ghost lent = { λ handle. whole_reference (out_name handle) ∷ whole_reference (apart_name handle) ∷ [] };

    ghost held = { λ handle. length (apart_bytes handle) };

    ghost reads_ranges = { true };

    fn exists(&mut self) -> Result<bool, CodecError> {
        Ok(self.current().is_some())
    }

    fn size(&mut self) -> Result<Option<u64>, CodecError> {
        match self.current() {
            None => Ok(None),
            Some(value) => Ok(Some(value.len() as u64)),
        }
    }

    /// What is kept apart.
    fn size_held(&self) -> usize {
        self.apart.len()
    }

    fn partial_decode_many(
        &mut self,
        alloc: Global,
        ranges: &[ByteRange],
    ) -> Result<Option<Vec<u8>>, CodecError> {
        match self.current() {
            None => Ok(None),
            Some(value) => Ok(Some(gather(alloc, value, ranges)?)),
        }
    }

    fn decode(&mut self, alloc: Global) -> Result<Option<Vec<u8>>, CodecError> {
        match self.current() {
            None => Ok(None),
            Some(value) => Ok(Some(Vec::from_slice(alloc, value)?)),
        }
    }

    fn supports_partial_decode(&self) -> bool {
        true
    }
}

impl<'a, B: Before> BytesPartialEncoderTraits for OneWriteHandle<'a, B> {
    ghost use Rattle.std.specs.Prelude.{true};

    ghost atomic = { true };

    ghost writes_ranges = { true };

    fn partial_encode_many(
        &mut self,
        alloc: Global,
        pieces: &[(u64, u64)],
        bytes: &[u8],
    ) -> Result<(), CodecError> {
        self.write_calls = self.write_calls.wrapping_add(1);
        check_pieces(pieces, bytes.len())?;
        if self.written.is_written() {
            return Err(self.refuse());
        }
        let stored = stored_or_empty(self.is_stored, self.value);
        self.written = write_over(alloc, stored, self.out, self.apart, pieces, bytes)?;
        Ok(())
    }

    fn replace(&mut self, alloc: Global, bytes: &[u8]) -> Result<(), CodecError> {
        self.write_calls = self.write_calls.wrapping_add(1);
        if self.written.is_written() {
            return Err(self.refuse());
        }
        self.written = write_whole(alloc, self.out, self.apart, bytes)?;
        Ok(())
    }

    fn erase(&mut self) -> Result<(), CodecError> {
        self.write_calls = self.write_calls.wrapping_add(1);
        if self.written.is_written() {
            return Err(self.refuse());
        }
        self.written = Written::Erased;
        Ok(())
    }

    fn supports_partial_encode(&self) -> bool {
        true
    }

    fn is_atomic(&self) -> bool {
        true
    }
}
