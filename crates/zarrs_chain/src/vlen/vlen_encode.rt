//! The value of a chunk through `vlen`: the index part and the data part, joined.
ghost use Rattle.std.specs.Prelude.{◌≡◌, [], ◌∷◌, true, length, Ok};
ghost use Rattle.zarrs_chunk.specs.Answer.{Gives};
ghost use Rattle.zarrs_array_bytes.specs.Held.{items_of};
ghost use Rattle.zarrs_array_bytes.specs.Offsets.{is_offsets};
ghost use Rattle.zarrs_chain_meaning.specs.CallAnswers.{GivesCodecValue};
ghost use Rattle.zarrs_chain_meaning.specs.CodecMeaning.{chain_value};
ghost use Rattle.zarrs_chain_meaning.specs.Parts.{byte_elements, byte_type};
ghost use Rattle.zarrs_chain_meaning.specs.vlen.VlenSettings.{is_wide};
ghost use Rattle.zarrs_chain_meaning.specs.vlen.VlenSteps.{index_part};
ghost use Rattle.zarrs_chain.specs.ChainView.{plain_chain, plain_vlen};
ghost use Rattle.zarrs_chain.specs.FormView.{lent_form};
ghost use Rattle.zarrs_chain_meaning.specs.Meaning.{in_a_row};

use crate::codec_chain::{CodecChain, chain_is_sound};
use crate::encode::{check_elements, part_encode};
use crate::form::Form;
use crate::vlen::vlen_codec::{VlenCodec, vlen_representation};
use crate::vlen::vlen_kept::check_kept;
use std::alloc::Global;
use std::borrow::CowSlice;
use zarrs_array_bytes::{ArrayBytes, ArrayBytesRaw};
use zarrs_chain_meaning::vlen::vlen_offsets::{index_elements, offset_fill, offset_type};
use zarrs_chain_meaning::vlen::vlen_parts::{behind, join, variable_parts};
use zarrs_chunk::CodecError;
use zarrs_codec::BytesToBytesCodecTraits;
use zarrs_data_type::{DataType, FillValue};
use zarrs_metadata::VlenIndexDataType;

/// The index part of offsets, counted from the first of them. Errors: `OffsetTooLarge`; those of
/// the chain; `OffsetNotKept`.
#[cycle(encode)]
fn index_encode<'a, B: BytesToBytesCodecTraits>(
    alloc: Global,
    chain: &CodecChain<B>,
    offsets: &[usize],
    data_type: VlenIndexDataType,
) -> Result<ArrayBytesRaw<'a>, CodecError>
    requires rising { is_offsets offsets.now ≡ true }
    ensures answer { Gives items_of result
        (index_part B.functions (plain_chain chain.now) (is_wide data_type) offsets.now) }
{
    chain_is_sound(chain);
    let rows = index_elements(alloc, offsets, data_type)?;
    let fill_value = offset_fill(alloc, data_type)?;
    let count = offsets.len() as u64;
    let part = part_encode(
        alloc,
        chain,
        rows,
        count,
        &offset_type(data_type),
        &fill_value,
    )?;
    check_kept(alloc, &chain.array_to_bytes, offsets, data_type)?;
    Ok(part)
}

/// The data part of bytes. Errors: those of the chain.
#[cycle(encode)]
fn content_encode<'a, B: BytesToBytesCodecTraits>(
    alloc: Global,
    chain: &CodecChain<B>,
    bytes: ArrayBytesRaw<'a>,
) -> Result<ArrayBytesRaw<'a>, CodecError>
    // Wide: of no bytes nothing is asked of the chain, and the bytes are its chunk and its size.
    ensures answer { Gives items_of result (in_a_row (Ok []) (λ sizes. chain_value B.functions
        (plain_chain chain.now) sizes byte_type (0 ∷ []) (byte_elements (items_of bytes.entry)))
        (length (byte_elements (items_of bytes.entry)))) }
{
    let fill_value = FillValue::new_optional_null(alloc)?;
    let count = bytes.len() as u64;
    let elements = ArrayBytes::new_flen(bytes);
    part_encode(
        alloc,
        chain,
        elements,
        count,
        &DataType::uint8(),
        &fill_value,
    )
}

/// The value of the chunk that `held` holds. Errors: those of `VlenCodec::encode`.
#[cycle(encode)]
#[tactic(auto, using(crate::proofs::VlenEncode::held_checked, crate::proofs::VlenEncode::first_inside))]
pub(crate) fn vlen_encode<'a, B: BytesToBytesCodecTraits>(
    alloc: Global,
    codec: &VlenCodec<B>,
    held: ArrayBytes<'a>,
    form: Form<'_>,
) -> Result<ArrayBytesRaw<'a>, CodecError>
    ensures answer { GivesCodecValue B.functions (plain_vlen codec.now)
        (lent_form form.entry) held.entry result }
{
    vlen_representation(form.shape, form.data_type)?;
    check_elements(&held, form.shape, form.data_type)?;
    let (bytes, offsets) = variable_parts(held)?;
    let offsets = offsets.as_slice();
    let index = index_encode(alloc, &codec.index_codecs, offsets, codec.index_data_type)?;
    let content = content_encode(alloc, &codec.data_codecs, behind(bytes, offsets[0]))?;
    let value = join(
        alloc,
        index.as_slice(),
        content.as_slice(),
        codec.index_location,
    )?;
    Ok(CowSlice::Owned(value))
}
