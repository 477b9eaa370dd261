//! Storage handles that can be written.
ghost use Rattle.std.specs.Prelude.{◌≡◌, Bool, Some, None, Ok, OnOk, length};
ghost use Rattle.zarrs_chunk.specs.Runs.{joined_runs};
ghost use Rattle.zarrs_codec.specs.BytePieces.{pieces_fit};
ghost use Rattle.zarrs_codec.specs.Calls.{CountsWrite};
ghost use Rattle.zarrs_codec.specs.HandleCalls.{Accepts, Tells, WritesPieces};
ghost use Rattle.zarrs_codec.specs.StorageState.{KeptIfAtomic, LeftByWriting, value_indices};

use crate::bytes_partial_decoder_traits::BytesPartialDecoderTraits;
use std::alloc::Global;
use zarrs_chunk::CodecError;

/// A storage handle that can be written too.
///
/// Each of the three writing calls adds one to the count of writing calls (modulo 2^64), whatever it
/// answers. One that fails leaves the value as it was where the handle is atomic, and else may
/// leave any. What else the state has is kept, but for the failure that is answered. To the record,
/// where the handle keeps one, an accepted call adds the numbers of the bytes that it replaced: those
/// of the pieces in their order, or all of a new value; an erasure adds none. No writing call asks for
/// a range.
pub trait BytesPartialEncoderTraits: BytesPartialDecoderTraits {
    // Whether a writing call that fails leaves the value as it was.
    ghost atomic: { Bool };

    // Whether the handle writes pieces without the rest.
    ghost writes_ranges: { Bool };

    /// Writes pieces of the value, one after another. Each is the number of its first byte and how
    /// many bytes it has; the bytes of all of them stand joined in `bytes`. Where two meet, the later
    /// one stands. The value grows up to the furthest end of a piece that isn't empty, with zeros
    /// where nothing is written; where there is none, it starts empty, also with no piece at all.
    ///
    /// Errors, the first that holds: `Overflow` where a piece ends, or all together are, past
    /// 2^64-1; `InvalidBytesLength` where `bytes` aren't as many as the pieces have. `OutOfMemory` and
    /// `Storage` may come before.
    fn partial_encode_many(
        &mut self,
        alloc: Global,
        pieces: &[(u64, u64)],
        bytes: &[u8],
    ) -> Result<(), CodecError>
        ensures answer { Accepts result (pieces_fit pieces.now (length bytes.now)) }
        ensures written { WritesPieces Self.state self.old self.new pieces.now bytes.now result }
        ensures kept_if_atomic { KeptIfAtomic atomic Self.state self.old self.new result }
        ensures left { LeftByWriting Self.state self.old self.new result }
        ensures counted { CountsWrite Self.calls self.old self.new (joined_runs pieces.now) result }
        ensures asked { Self.asked self.new ≡ Self.asked self.old }
        ensures same_reference { Self.lent self.new ≡ Self.lent self.old };

    /// Makes these bytes the value. Errors: `OutOfMemory`, `Storage`.
    fn replace(&mut self, alloc: Global, bytes: &[u8]) -> Result<(), CodecError>
        ensures answer { Accepts result (Ok tt) }
        ensures written { OnOk result ((Self.state self.new).value ≡ Some bytes.now) }
        ensures kept_if_atomic { KeptIfAtomic atomic Self.state self.old self.new result }
        ensures left { LeftByWriting Self.state self.old self.new result }
        ensures counted { CountsWrite Self.calls self.old self.new (value_indices (Some bytes.now)) result }
        ensures asked { Self.asked self.new ≡ Self.asked self.old }
        ensures same_reference { Self.lent self.new ≡ Self.lent self.old };

    /// Leaves no value; there may have been none. Errors: `Storage`.
    fn erase(&mut self) -> Result<(), CodecError>
        ensures answer { Tells result tt }
        ensures written { OnOk result ((Self.state self.new).value ≡ None) }
        ensures kept_if_atomic { KeptIfAtomic atomic Self.state self.old self.new result }
        ensures left { LeftByWriting Self.state self.old self.new result }
        ensures counted { Self.calls self.new ≡ Self.calls self.old }
        ensures asked { Self.asked self.new ≡ Self.asked self.old }
        ensures same_reference { Self.lent self.new ≡ Self.lent self.old };

    /// Whether the handle writes pieces without the rest of the value. No contract can measure it: it
    /// is the implementer's word.
    fn supports_partial_encode(&self) -> bool
        ensures value { result ≡ writes_ranges };

    /// Whether a writing call that fails leaves the value as it was.
    fn is_atomic(&self) -> bool
        ensures value { result ≡ atomic };
}

impl<H: BytesPartialEncoderTraits> BytesPartialEncoderTraits for &mut H {
    ghost atomic = { H.atomic };

    ghost writes_ranges = { H.writes_ranges };

    fn partial_encode_many(
        &mut self,
        alloc: Global,
        pieces: &[(u64, u64)],
        bytes: &[u8],
    ) -> Result<(), CodecError> {
        (**self).partial_encode_many(alloc, pieces, bytes)
    }

    fn replace(&mut self, alloc: Global, bytes: &[u8]) -> Result<(), CodecError> {
        (**self).replace(alloc, bytes)
    }

    fn erase(&mut self) -> Result<(), CodecError> {
        (**self).erase()
    }

    fn supports_partial_encode(&self) -> bool {
        (**self).supports_partial_encode()
    }

    fn is_atomic(&self) -> bool {
        (**self).is_atomic()
    }
}
