//! Bytes that a handle keeps, by ranges that are known to lie inside.
ghost use Rattle.std.specs.Prelude.{◌≡◌, ◌≤◌, ◌+◌, true, IfOk, is_some, length, nat_le};
ghost use Rattle.zarrs_codec.specs.ByteRanges.{bytes_in_ranges, range_indices};
ghost use Rattle.zarrs_codec.specs.Calls.{MakesReads};
ghost use Rattle.zarrs_codec.specs.StorageState.{after_reading};
ghost use Rattle.zarrs_plain_vlen.specs.ReadingCalls.{calls_for};
ghost use Rattle.zarrs_plain_vlen.specs.StoredBytes.{AreRead, SureAt, stored_bytes};
ghost use Rattle.zarrs_chain_meaning.specs.vlen.VlenLayout.{span_bytes, span_numbers};
ghost use Rattle.std.specs.List.{list_all};

use std::alloc::Global;
use zarrs_chunk::CodecError;
use zarrs_codec::{ByteRange, BytesPartialDecoderTraits};

/// The bytes of ranges of the value that is stored, joined in order, by one call; by none where there
/// is no range.
pub(crate) fn read_inside<H: BytesPartialDecoderTraits>(
    alloc: Global,
    handle: &mut H,
    ranges: &[ByteRange],
) -> Result<Vec<u8>, CodecError>
    requires stored { is_some (H.state handle.old).value ≡ true }
    requires inside { list_all
        (λ range. nat_le range.end (length (stored_bytes (H.state handle.old)))) ranges.now ≡ true }
    ensures answer { AreRead
        (bytes_in_ranges (stored_bytes (H.state handle.old)) ranges.now) result }
    ensures sure { SureAt (H.state handle.old) (range_indices ranges.now) result }
    ensures left { H.state handle.new ≡ after_reading result (H.state handle.old) }
    ensures same_reference { H.lent handle.new ≡ H.lent handle.old }
    ensures counted { MakesReads H.calls (calls_for ranges.now) handle.old handle.new result }
{
    if ranges.is_empty() {
        return Ok(Vec::new(alloc));
    }
    match handle.partial_decode_many(alloc, ranges)? {
        None => unreachable!(),
        Some(bytes) => Ok(bytes),
    }
}

/// The bytes of a range of the value that is stored, by one call.
pub(crate) fn read_range<H: BytesPartialDecoderTraits>(
    alloc: Global,
    handle: &mut H,
    range: ByteRange,
) -> Result<Vec<u8>, CodecError>
    requires stored { is_some (H.state handle.old).value ≡ true }
    requires inside { range.end ≤ length (stored_bytes (H.state handle.old)) }
    ensures answer { AreRead (span_bytes (stored_bytes (H.state handle.old)) range) result }
    ensures len { IfOk result (λ bytes. range.start + length bytes.items ≡ range.end) }
    ensures sure { SureAt (H.state handle.old) (span_numbers range) result }
    ensures left { H.state handle.new ≡ after_reading result (H.state handle.old) }
    ensures same_reference { H.lent handle.new ≡ H.lent handle.old }
    ensures counted { MakesReads H.calls 1 handle.old handle.new result }
{
    let ranges = [range];
    read_inside(alloc, handle, &ranges)
}
