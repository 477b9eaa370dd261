//! Storage handles that can be read.
ghost use Rattle.std.specs.Prelude.{◌≡◌, ℕ, Bool, IfSome, Option, None, Some, Ok, List, is_some};
ghost use Rattle.zarrs_codec.specs.ByteRanges.{ranges_are_sure, read_ranges};
ghost use Rattle.zarrs_codec.specs.ByteSpan.{ByteSpan};
ghost use Rattle.zarrs_codec.specs.Calls.{Calls, after_ranges, after_reads, ok_count};
ghost use Rattle.zarrs_codec.specs.HandleCalls.{NeverFailsIf, ReadsBytes, Tells};
ghost use Rattle.zarrs_codec.specs.Lent.{Lent};
ghost use Rattle.zarrs_codec.specs.StorageState.{StorageState, after_reading, value_is_sure, value_size};

use crate::byte_range::ByteRange;
use std::alloc::Global;
use zarrs_chunk::CodecError;

/// A storage handle that can be read: a place that keeps one value, a list of bytes, or none.
///
/// Reading leaves the value as it is. A call answers `Storage` exactly where the handle failed in
/// that call, with what the handle reported. An implementer keeps how many of its calls have failed
/// (modulo 2^64) and what the last of them answered: both are part of its `state`, and what each
/// call leaves of the state speaks of them. It may keep them in fields of its own, or leave them
/// as they began where it never fails.
///
/// A handle may declare that some bytes, by their numbers, are **sure**: then neither `exists` nor `size`
/// nor a read of such bytes alone answers `Storage`. Bytes past the value's end may be sure too.
///
/// A handle may keep a **record** of its calls: how many of the four reading calls succeeded, and the
/// numbers of the bytes that accepted writing calls replaced. It may also keep which **ranges** those
/// calls of `partial_decode_many` asked for that succeeded. Code that is generic over its handle
/// can't see whether they are kept, so what it states of them holds of every handle's traffic.
pub trait BytesPartialDecoderTraits {
    // The value, the sure bytes, the failures, and the count of writing calls.
    ghost state: { Self → StorageState };

    // The references that the handle is made of, the outermost first: by them a lender learns what became of its own handle. None where it owns all that it reads.
    ghost lent: { Self → List Lent };

    // The record of its calls, where it keeps one: how many reading calls succeeded, and which bytes were replaced. A handle that keeps none states nothing of them.
    ghost calls: { Self → Option Calls } = { λ _. None };

    // The ranges that reading calls asked for and were given, in order, where the handle keeps them. One that keeps none states nothing of them.
    ghost asked: { Self → Option (List ByteSpan) } = { λ _. None };

    // How many bytes the handle keeps in memory.
    ghost held: { Self → ℕ };

    // Whether the handle reads ranges without the rest.
    ghost reads_ranges: { Bool };

    /// Whether there is a value. Errors: `Storage`, but never where the handle has sure bytes.
    fn exists(&mut self) -> Result<bool, CodecError>
        ensures answer { Tells result (is_some (state self.old).value) }
        ensures sure { NeverFailsIf (is_some (state self.old).sure) result }
        ensures left { state self.new ≡ after_reading result (state self.old) }
        ensures counted { calls self.new ≡ after_reads (ok_count result) (calls self.old) }
        ensures asked { asked self.new ≡ asked self.old }
        ensures same_reference { lent self.new ≡ lent self.old };

    /// How many bytes the value has, or `None` where there is no value. Errors: `Storage`, but never
    /// where the handle has sure bytes.
    fn size(&mut self) -> Result<Option<u64>, CodecError>
        ensures answer { Tells result (value_size (state self.old).value) }
        ensures sure { NeverFailsIf (is_some (state self.old).sure) result }
        ensures left { state self.new ≡ after_reading result (state self.old) }
        ensures counted { calls self.new ≡ after_reads (ok_count result) (calls self.old) }
        ensures asked { asked self.new ≡ asked self.old }
        ensures same_reference { lent self.new ≡ lent self.old };

    /// How many bytes the handle keeps in memory.
    fn size_held(&self) -> usize
        ensures value { result ≡ held self.now };

    /// The ranges' bytes, joined in order, or `None` where there is no value. Errors:
    /// `InvalidByteRange` where a range ends past the value; `OutOfMemory` and `Storage`, which may
    /// come before. `Storage` never comes where all bytes of the ranges are sure.
    fn partial_decode_many(
        &mut self,
        alloc: Global,
        ranges: &[ByteRange],
    ) -> Result<Option<Vec<u8>>, CodecError>
        ensures answer { ReadsBytes result (read_ranges (state self.old).value ranges.now) }
        ensures sure { NeverFailsIf (ranges_are_sure (state self.old) ranges.now) result }
        ensures left { state self.new ≡ after_reading result (state self.old) }
        ensures counted { calls self.new ≡ after_reads (ok_count result) (calls self.old) }
        ensures asked { asked self.new ≡ after_ranges result ranges.now (asked self.old) }
        ensures same_reference { lent self.new ≡ lent self.old };

    /// The whole value, or `None`. Errors: `OutOfMemory`; `Storage`, but never where all bytes of
    /// the value are sure.
    fn decode(&mut self, alloc: Global) -> Result<Option<Vec<u8>>, CodecError>
        ensures answer { ReadsBytes result (Ok (state self.old).value) }
        ensures sure { NeverFailsIf (value_is_sure (state self.old)) result }
        ensures left { state self.new ≡ after_reading result (state self.old) }
        ensures counted { calls self.new ≡ after_reads (ok_count result) (calls self.old) }
        ensures asked { asked self.new ≡ asked self.old }
        ensures same_reference { lent self.new ≡ lent self.old };

    /// Whether the handle reads ranges without the rest of the value. No contract can measure it: it is
    /// the implementer's word.
    fn supports_partial_decode(&self) -> bool
        ensures value { result ≡ reads_ranges };

    /// The value, where it lies in memory: a read then takes bytes from there, and may make no call for
    /// them. `None` where it lies elsewhere, or where there is none; a handle that records its calls
    /// returns `None` too.
    fn value_in_memory(&self) -> Option<&[u8]>
        ensures value { IfSome result (λ bytes. (state self.now).value ≡ Some bytes.now) }
    {
        None
    }
}

impl<H: BytesPartialDecoderTraits> BytesPartialDecoderTraits for &mut H {
    ghost use Rattle.std.specs.Prelude.{◌∷◌};
    ghost use Rattle.zarrs_codec.specs.Lent.{whole_reference};

    ghost state = { λ handle. H.state handle.now };

    ghost lent = { λ handle. whole_reference handle.ghost_name ∷ H.lent handle.now };

    ghost calls = { λ handle. H.calls handle.now };

    ghost asked = { λ handle. H.asked handle.now };

    ghost held = { λ handle. H.held handle.now };

    ghost reads_ranges = { H.reads_ranges };

    fn exists(&mut self) -> Result<bool, CodecError> {
        (**self).exists()
    }

    fn size(&mut self) -> Result<Option<u64>, CodecError> {
        (**self).size()
    }

    fn size_held(&self) -> usize {
        (**self).size_held()
    }

    fn partial_decode_many(
        &mut self,
        alloc: Global,
        ranges: &[ByteRange],
    ) -> Result<Option<Vec<u8>>, CodecError> {
        (**self).partial_decode_many(alloc, ranges)
    }

    fn decode(&mut self, alloc: Global) -> Result<Option<Vec<u8>>, CodecError> {
        (**self).decode(alloc)
    }

    fn supports_partial_decode(&self) -> bool {
        (**self).supports_partial_decode()
    }

    fn value_in_memory(&self) -> Option<&[u8]> {
        (**self).value_in_memory()
    }
}
