//! The bytes of a value that stands in a span.
ghost use Rattle.std.specs.Prelude.{◌≡◌, ◌+◌, ◌<◌, ◌^◌, Ok, Some, option_map, true};
ghost use Rattle.zarrs_array_bytes.specs.Held.{items_of};
ghost use Rattle.zarrs_chunk.specs.Answer.{Answers, memory_or_fault};
ghost use Rattle.zarrs_codec.specs.HandleCalls.{NeverFailsIf};
ghost use Rattle.zarrs_codec.specs.StorageState.{after_reading, value_is_sure};
ghost use Rattle.zarrs_codecs.specs.SpanReads.{StandsIn, seen_state};
ghost use Rattle.zarrs_lent_handles.specs.SpanHandle.{is_span_of, span_state};

use crate::sharding::value_span::ValueSpan;
use std::alloc::Global;
use std::borrow::CowSlice;
use zarrs_array_bytes::ArrayBytesRaw;
use zarrs_chunk::CodecError;
use zarrs_codec::{ByteRange, BytesPartialDecoderTraits};

/// The bytes of a span of what a handle keeps. Errors: `OutOfMemory` and `Storage`.
fn stored_bytes<H: BytesPartialDecoderTraits>(
    alloc: Global,
    handle: &mut H,
    at: u64,
    len: u64,
) -> Result<Vec<u8>, CodecError>
    requires inside { is_span_of at len (H.state handle.old).value ≡ true }
    requires counted { at + len < 2 ^ 64 }
    ensures answer { Answers memory_or_fault (λ bytes. Some bytes.items) result
        (Ok (span_state at len (H.state handle.old)).value) }
    ensures sure { NeverFailsIf (value_is_sure (span_state at len (H.state handle.old))) result }
    ensures left { H.state handle.new ≡ after_reading result (H.state handle.old) }
    ensures same_reference { H.lent handle.new ≡ H.lent handle.old }
{
    match ByteRange::new(at..at + len) {
        None => unreachable!(),
        Some(range) => match handle.partial_decode_many(alloc, &[range])? {
            None => unreachable!(),
            Some(bytes) => Ok(bytes),
        },
    }
}

/// The bytes of a span: lent, where they are in memory. Errors: `OutOfMemory` and `Storage`.
pub(crate) fn span_bytes<'b, H: BytesPartialDecoderTraits>(
    alloc: Global,
    handle: &mut H,
    span: &ValueSpan<'b>,
) -> Result<ArrayBytesRaw<'b>, CodecError>
    requires stands { StandsIn span.now (H.state handle.old) }
    ensures answer { Answers memory_or_fault (λ bytes. Some (items_of bytes)) result
        (Ok (seen_state span.now (H.state handle.old)).value) }
    ensures sure { NeverFailsIf (value_is_sure (seen_state span.now (H.state handle.old))) result }
    ensures left { H.state handle.new ≡ after_reading result (H.state handle.old) }
    ensures same_reference { H.lent handle.new ≡ H.lent handle.old }
{
    match span.held {
        Some(bytes) => Ok(CowSlice::Borrowed(
            &bytes[span.at as usize..(span.at + span.len) as usize],
        )),
        None => Ok(CowSlice::Owned(stored_bytes(alloc, handle, span.at, span.len)?)),
    }
}
