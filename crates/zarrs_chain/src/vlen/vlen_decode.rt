//! The chunk of a value through `vlen`: its offsets, then the elements' bytes.
ghost use Rattle.zarrs_chunk.specs.Answer.{Gives, GivesValue, is_fault, checked_u64, seen};
ghost use Rattle.zarrs_data_type.specs.Form.{form_of};
ghost use Rattle.zarrs_array_bytes.specs.Tight.{IsTight};
ghost use Rattle.zarrs_array_bytes.specs.Held.{items_of};
ghost use Rattle.std.specs.Prelude.{◌≡◌, ◌<◌, ◌+◌, [], ◌∷◌, IfOk, false, length, Ok};
ghost use Rattle.zarrs_chunk.specs.ChunkShape.{product};
ghost use Rattle.zarrs_array_bytes.specs.Offsets.{last_of};
ghost use Rattle.zarrs_chain_meaning.specs.CallAnswers.{IsTaken, GivesCodecChunk};
ghost use Rattle.zarrs_chain_meaning.specs.CodecMeaning.{chain_chunk};
ghost use Rattle.zarrs_chain_meaning.specs.Parts.{all_bytes, byte_type};
ghost use Rattle.zarrs_chain_meaning.specs.vlen.VlenSettings.{is_wide};
ghost use Rattle.zarrs_chain_meaning.specs.vlen.VlenSteps.{index_offsets};
ghost use Rattle.zarrs_chain.specs.ChainView.{plain_chain, plain_vlen};
ghost use Rattle.zarrs_chain_meaning.specs.Meaning.{in_a_row};

use crate::codec_chain::CodecChain;
use crate::decode::part_decode;
use crate::vlen::vlen_codec::VlenCodec;
use std::alloc::Global;
use std::borrow::CowSlice;
use zarrs_array_bytes::{ArrayBytes, ArrayBytesOffsets, ArrayBytesRaw};
use zarrs_chain_meaning::vlen::vlen_offsets::{offset_fill, offset_numbers, offset_type};
use zarrs_chain_meaning::vlen::vlen_parts::{data_part, split};
use zarrs_chunk::{ChunkShape, CodecError};
use zarrs_codec::BytesToBytesCodecTraits;
use zarrs_data_type::{DataType, FillValue};
use zarrs_metadata::VlenIndexDataType;

/// The offsets, so many, that an index part stands for. Errors: those of the chain;
/// `InvalidOffsets`.
#[cycle(decode)]
#[tactic(auto, using(crate::proofs::VlenDecode::zero_fits_at))]
fn index_decode<B: BytesToBytesCodecTraits>(
    alloc: Global,
    chain: &CodecChain<B>,
    part: &[u8],
    count: u64,
    data_type: VlenIndexDataType,
) -> Result<ArrayBytesOffsets, CodecError>
    requires some { 0 < count }
    ensures answer { GivesValue result
        (index_offsets B.functions (plain_chain chain.now) (is_wide data_type) count part.now) }
{
    let fill_value = offset_fill(alloc, data_type)?;
    let part = CowSlice::Borrowed(part);
    let rows = part_decode(
        alloc,
        chain,
        part,
        count,
        &offset_type(data_type),
        &fill_value,
    )?;
    let numbers = offset_numbers(alloc, rows.as_fixed()?, data_type)?;
    ArrayBytesOffsets::new(numbers)
}

/// The bytes, so many, that a data part stands for. Errors: those of the chain.
#[cycle(decode)]
fn content_decode<'a, B: BytesToBytesCodecTraits>(
    alloc: Global,
    chain: &CodecChain<B>,
    part: ArrayBytesRaw<'a>,
    count: u64,
) -> Result<ArrayBytesRaw<'a>, CodecError>
    ensures answer { Gives items_of result (seen all_bytes (in_a_row (Ok []) (λ sizes. chain_chunk B.functions
        (plain_chain chain.now) sizes byte_type (0 ∷ []) (items_of part.entry)) count)) }
    ensures len { IfOk result (λ bytes. length (items_of bytes) ≡ count) }
{
    let fill_value = FillValue::new_optional_null(alloc)?;
    let bytes = part_decode(alloc, chain, part, count, &DataType::uint8(), &fill_value)?;
    bytes.into_fixed()
}

/// The chunk that a value stands for, where the codec takes such chunks. Where the stored offsets
/// begin above 0, no element has the bytes in front: they are left out, and the offsets are counted
/// from the first. Errors: those of `VlenCodec::decode` behind those of `encoded_representation`.
#[cycle(decode)]
#[tactic(auto, using(crate::proofs::VlenDecode::vlen_read_at, crate::proofs::VlenDecode::index_inside, crate::proofs::TakenTight::vlen_tight))]
pub fn vlen_decode<'a, B: BytesToBytesCodecTraits>(
    alloc: Global,
    codec: &VlenCodec<B>,
    value: ArrayBytesRaw<'a>,
    shape: &ChunkShape,
    kind: &DataType,
    fill: &FillValue,
) -> Result<ArrayBytes<'a>, CodecError>
    requires taken { IsTaken B.functions (plain_vlen codec.now)
        (form_of shape.now kind.now fill.now) }
    ensures answer { GivesCodecChunk B.functions (plain_vlen codec.now)
        (form_of shape.now kind.now fill.now) (items_of value.entry) result }
    ensures tight { IfOk result (IsTight kind.now) }
{
    let (index, _) = split(value.as_slice(), codec.index_location)?;
    let size = index.len();
    let count = offset_count(shape)?;
    let offsets = index_decode(
        alloc,
        &codec.index_codecs,
        index,
        count,
        codec.index_data_type,
    )?;
    let last = last_offset(&offsets);
    let part = data_part(value, size, codec.index_location);
    let bytes = content_decode(alloc, &codec.data_codecs, part, last)?;
    ArrayBytes::new_flush(bytes, offsets)
}

/// How many offsets there are, one more than elements. Errors: `Overflow`.
fn offset_count(shape: &ChunkShape) -> Result<u64, CodecError>
    ensures answer { result ≡ checked_u64 (product shape.now + 1) }
    ensures some { IfOk result (λ count. 0 < count) }
    ensures no_fault { is_fault result ≡ false }
{
    let count = shape.num_elements()?;
    count.checked_add(1).ok_or(CodecError::Overflow)
}

/// The last offset.
fn last_offset(offsets: &ArrayBytesOffsets) -> u64
    ensures value { result ≡ last_of offsets.now }
{
    let offsets = offsets.as_slice();
    offsets[offsets.len() - 1] as u64
}
