//! Where the parts of a value stand.
ghost use Rattle.std.specs.Prelude.{◌≡◌, ◌≤◌, ◌+◌, true, false, IfOk, is_some, length};
ghost use Rattle.zarrs_chunk.specs.Answer.{is_fault, seen, Answers, memory_or_fault};
ghost use Rattle.zarrs_codec.specs.Calls.{MakesReads};
ghost use Rattle.zarrs_codec.specs.StorageState.{after_reading};
ghost use Rattle.zarrs_chain_meaning.specs.vlen.VlenSettings.{is_at_end};
ghost use Rattle.zarrs_plain_vlen.specs.Layout.{vlen_layout};
ghost use Rattle.zarrs_plain_vlen.specs.StoredBytes.{SureAt, stored_bytes};
ghost use Rattle.zarrs_chain_meaning.specs.vlen.VlenLayout.{head_of, layout_within, layout_of};
ghost use Rattle.zarrs_plain_vlen.specs.VlenRead.{head_numbers};

use crate::handle_reads::read_range;
use std::alloc::Global;
use zarrs_chain_meaning::vlen::length_fields::read_length;
use zarrs_chunk::CodecError;
use zarrs_codec::{ByteRange, BytesPartialDecoderTraits};
use zarrs_metadata::VlenIndexLocation;

/// How many bytes the length of an index takes.
const LENGTH_SIZE: u64 = 8;

/// Where the index and the data of a value stand.
#[derive(Clone, Copy)]
pub(crate) struct Layout {
    pub(crate) index: ByteRange,
    pub(crate) content: ByteRange,
}

/// A range that doesn't end before it starts.
pub(crate) fn range_of(start: u64, end: u64) -> ByteRange
    requires ordered { start ≤ end }
    ensures range { result ≡ record { start = start; end = end } }
{
    match ByteRange::new(start..end) {
        None => unreachable!(),
        Some(range) => range,
    }
}

/// Where the length of the index stands, in a value of `size` bytes. Errors: `InvalidBytesLength`.
fn head_range(size: u64, location: VlenIndexLocation) -> Result<ByteRange, CodecError>
    ensures answer { result ≡ head_of (is_at_end location) size }
    ensures len { IfOk result (λ head. head.start + 8 ≡ head.end) }
    ensures inside { IfOk result (λ head. head.end ≤ size) }
    ensures no_fault { is_fault result ≡ false }
{
    if size < LENGTH_SIZE {
        return Err(CodecError::InvalidBytesLength {
            len: size,
            expected: LENGTH_SIZE,
        });
    }
    match location {
        VlenIndexLocation::Start => Ok(range_of(0, LENGTH_SIZE)),
        VlenIndexLocation::End => Ok(range_of(size - LENGTH_SIZE, size)),
    }
}

/// Where the parts stand of a value of `size` bytes, whose index has `count`. Errors:
/// `IndexLength`.
fn layout_of_size(size: u64, location: VlenIndexLocation, count: u64) -> Result<Layout, CodecError>
    requires len { 8 ≤ size }
    ensures answer { seen vlen_layout result ≡ layout_within (is_at_end location) size count }
    ensures index_inside { IfOk result (λ layout. layout.index.end ≤ size) }
    ensures content_inside { IfOk result (λ layout. layout.content.end ≤ size) }
    ensures no_fault { is_fault result ≡ false }
{
    let others = size - LENGTH_SIZE;
    if others < count {
        return Err(CodecError::IndexLength);
    }
    match location {
        VlenIndexLocation::Start => Ok(Layout {
            index: range_of(LENGTH_SIZE, LENGTH_SIZE + count),
            content: range_of(LENGTH_SIZE + count, size),
        }),
        VlenIndexLocation::End => Ok(Layout {
            index: range_of(others - count, others),
            content: range_of(0, others - count),
        }),
    }
}

/// Where the parts of the stored value stand, which has `size` bytes. The length of its index is
/// read, and nothing else. Errors: `InvalidBytesLength`, `IndexLength`.
pub(crate) fn read_layout<H: BytesPartialDecoderTraits>(
    alloc: Global,
    handle: &mut H,
    size: u64,
    location: VlenIndexLocation,
) -> Result<Layout, CodecError>
    requires stored { is_some (H.state handle.old).value ≡ true }
    requires len { length (stored_bytes (H.state handle.old)) ≡ size }
    ensures answer { Answers memory_or_fault vlen_layout result
        (layout_of (is_at_end location) (stored_bytes (H.state handle.old))) }
    ensures index_inside { IfOk result (λ layout. layout.index.end ≤ size) }
    ensures content_inside { IfOk result (λ layout. layout.content.end ≤ size) }
    ensures sure { SureAt (H.state handle.old) (head_numbers (is_at_end location) size) result }
    ensures left { H.state handle.new ≡ after_reading result (H.state handle.old) }
    ensures same_reference { H.lent handle.new ≡ H.lent handle.old }
    ensures counted { MakesReads H.calls 1 handle.old handle.new result }
{
    let head = head_range(size, location)?;
    let bytes = read_range(alloc, handle, head)?;
    let count = read_length(bytes.as_slice());
    layout_of_size(size, location, count)
}
