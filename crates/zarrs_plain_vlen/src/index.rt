//! The offsets of a value.
ghost use Rattle.std.specs.Prelude.{◌≡◌, ◌≤◌, ◌<◌, ◌∷◌, [], true, false, Ok, IfOk, is_some, length, Some};
ghost use Rattle.zarrs_chunk.specs.Answer.{AnswersValue, Gives, is_fault, memory, GivesBy, memory_or_fault};
ghost use Rattle.zarrs_codec.specs.Calls.{MakesReads};
ghost use Rattle.zarrs_codec.specs.StorageState.{after_reading};
ghost use Rattle.zarrs_chain_meaning.specs.vlen.PlainVlen.{plain_form};
ghost use Rattle.zarrs_chain_meaning.specs.vlen.VlenSettings.{is_wide};
ghost use Rattle.zarrs_chain_meaning.specs.vlen.VlenSteps.{offset_size as offset_size_of, offsets_form};
ghost use Rattle.zarrs_plain_vlen.specs.IndexSteps.{index_count, offsets_of_index};
ghost use Rattle.zarrs_plain_vlen.specs.StoredBytes.{SureAt, stored_bytes};
ghost use Rattle.zarrs_chain_meaning.specs.vlen.VlenLayout.{span_numbers, span_bytes};
ghost use Rattle.zarrs_plain_vlen.specs.VlenRead.{offsets_read};
ghost use Rattle.zarrs_array_bytes.specs.Validity.{Holds};
ghost use Rattle.zarrs_bytes.specs.BytesCodec.{bytes_chunk};
ghost use Rattle.zarrs_chain_meaning.specs.vlen.Vlen.{offset_type as offset_type_of};

use crate::handle_reads::read_range;
use crate::offsets::Offsets;
use std::alloc::Global;
use std::borrow::CowSlice;
use zarrs_array_bytes::ArrayBytes;
use zarrs_bytes::BytesCodec;
use zarrs_chain_meaning::vlen::plain_vlen::PlainVlen;
use zarrs_chain_meaning::vlen::vlen_offsets::{offset_fill, offset_type};
use zarrs_chunk::{ChunkShape, CodecError};
use zarrs_codec::{ByteRange, BytesPartialDecoderTraits};
use zarrs_metadata::VlenIndexDataType;

/// How many bytes an offset takes.
fn offset_size(data_type: VlenIndexDataType) -> u64
    ensures value { result ≡ offset_size_of (is_wide data_type) }
{
    match data_type {
        VlenIndexDataType::UInt32 => 4,
        VlenIndexDataType::UInt64 => 8,
    }
}

/// How many offsets `count` elements have, where their index has `found` bytes. Errors: `Overflow`
/// where 64 bits don't count the offsets, or their bytes; `InvalidBytesLength` where it has others.
fn count_offsets(count: u64, data_type: VlenIndexDataType, found: u64) -> Result<u64, CodecError>
    ensures answer { result ≡ index_count (is_wide data_type) count found }
    ensures some { IfOk result (λ offsets. 0 < offsets) }
    ensures no_fault { is_fault result ≡ false }
{
    let offsets = count.checked_add(1).ok_or(CodecError::Overflow)?;
    let expected = offsets
        .checked_mul(offset_size(data_type))
        .ok_or(CodecError::Overflow)?;
    if found != expected {
        return Err(CodecError::InvalidBytesLength {
            len: found,
            expected,
        });
    }
    Ok(offsets)
}

/// The shape of a row of so many elements.
fn row_of(alloc: Global, count: u64) -> Result<ChunkShape, CodecError>
    requires some { 0 < count }
    ensures answer { Gives (λ shape. shape) result (Ok (count ∷ [])) }
{
    let sizes = vec![in alloc; count; 1]?;
    match ChunkShape::new(sizes) {
        None => unreachable!(),
        Some(shape) => Ok(shape),
    }
}

/// The elements of an index, `count` offsets. Errors: those of the codec `bytes`.
fn index_rows(
    alloc: Global,
    codec: PlainVlen,
    count: u64,
    index: Vec<u8>,
) -> Result<ArrayBytes<'static>, CodecError>
    requires some { 0 < count }
    ensures answer { GivesBy (Holds (offset_type_of (plain_form codec).wide)) result (bytes_chunk
        (Some (plain_form codec).order) (offsets_form (plain_form codec).wide count) index.items) }
{
    let shape = row_of(alloc, count)?;
    let fill_value = offset_fill(alloc, codec.index_data_type)?;
    BytesCodec::new(Some(codec.endianness)).decode(
        alloc,
        CowSlice::Owned(index),
        &shape,
        &offset_type(codec.index_data_type),
        &fill_value,
    )
}

/// The offsets, `count` of them, that an index part stands for. Errors: those of the codec `bytes`;
/// `InvalidOffsets`.
fn decode_index(
    alloc: Global,
    codec: PlainVlen,
    count: u64,
    part: Vec<u8>,
) -> Result<Offsets, CodecError>
    requires some { 0 < count }
    ensures answer { AnswersValue memory result
        (offsets_of_index (plain_form codec) count part.items) }
    ensures no_fault { is_fault result ≡ false }
{
    let rows = index_rows(alloc, codec, count, part)?;
    Offsets::new(rows.into_fixed()?, codec.index_data_type)
}

/// The offsets of `count` elements, by the index that stands there in the stored value. An index of
/// another length isn't read. Errors: `Overflow`, `InvalidBytesLength`, `InvalidOffsets`.
pub(crate) fn read_index<H: BytesPartialDecoderTraits>(
    alloc: Global,
    handle: &mut H,
    codec: PlainVlen,
    count: u64,
    index: ByteRange,
) -> Result<Offsets, CodecError>
    requires stored { is_some (H.state handle.old).value ≡ true }
    requires inside { index.end ≤ length (stored_bytes (H.state handle.old)) }
    ensures answer { AnswersValue memory_or_fault result (offsets_read (plain_form codec) count
        (span_bytes (stored_bytes (H.state handle.old)) index)) }
    ensures sure { SureAt (H.state handle.old) (span_numbers index) result }
    ensures left { H.state handle.new ≡ after_reading result (H.state handle.old) }
    ensures same_reference { H.lent handle.new ≡ H.lent handle.old }
    ensures counted { MakesReads H.calls 1 handle.old handle.new result }
{
    let offsets = count_offsets(count, codec.index_data_type, index.end() - index.start())?;
    let bytes = read_range(alloc, handle, index)?;
    decode_index(alloc, codec, offsets, bytes)
}
