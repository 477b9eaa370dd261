//! The normal form of elements: what an array-to-bytes codec keeps of them.
ghost use Rattle.std.specs.Prelude.{◌≡◌, true, Ok};
ghost use Rattle.zarrs_chunk.specs.ChunkShape.{product};
ghost use Rattle.zarrs_array_bytes.specs.Validity.{validity};
ghost use Rattle.zarrs_chain_meaning.specs.vlen.VlenSteps.{IsPackable};
ghost use Rattle.zarrs_chain.specs.ChainView.{plain_codec, plain_optional, plain_vlen};
ghost use Rattle.zarrs_chain.specs.sharding.ShardingCalls.{KeepsAll, GivesNormal, GivesPackedNormal, is_overflow};
ghost use Rattle.zarrs_chain.specs.FormView.{lent_form};

use crate::array_to_bytes_codec::ArrayToBytesCodec;
use crate::encode::row_of;
use crate::form::Form;
use crate::optional::optional_codec::OptionalCodec;
use crate::vlen::vlen_codec::VlenCodec;
use std::alloc::Global;
use zarrs_array_bytes::ArrayBytes;
use zarrs_chain_meaning::optional::optional_parts::{blank_fill, masked_parts};
use zarrs_chain_meaning::vlen::vlen_parts::variable_parts;
use zarrs_chunk::CodecError;
use zarrs_data_type::DataType;
use zarrs_packbits::PackBitsCodec;

/// Whether the codec keeps each element as it is, whatever it is: `packbits` alone may leave out
/// bits.
#[tactic(auto, unfolding(crate::specs::ChainView::plain_codec, zarrs_chain_meaning::specs::CodecMeaning::meaning), using(crate::proofs::KeepsAll::vlen_keeps_all, crate::proofs::KeepsAll::optional_keeps_all, crate::proofs::KeepsAll::sharding_keeps_all))]
pub(crate) fn keeps_all<B>(codec: &ArrayToBytesCodec<B>) -> bool
    ensures kept { result ≡ true → KeepsAll (plain_codec codec.now) }
{
    match codec {
        ArrayToBytesCodec::PackBits(_) => false,
        ArrayToBytesCodec::Vlen(codec) => keeps_all(&codec.data_codecs.array_to_bytes),
        ArrayToBytesCodec::Optional(codec) => keeps_all(&codec.data_codecs.array_to_bytes),
        ArrayToBytesCodec::Sharding(codec) => keeps_all(&codec.codecs.array_to_bytes),
        _ => true,
    }
}

/// The elements of a row as `packbits` keeps them, where it accepts them.
fn packed_row<'a>(
    alloc: Global,
    codec: &PackBitsCodec,
    elements: ArrayBytes<'a>,
    form: Form<'_>,
) -> Result<ArrayBytes<'a>, CodecError>
    requires valid { validity form.data_type.now (product form.shape.now) elements ≡ Ok tt }
    requires taken { IsPackable codec.now (lent_form form) }
    // Wide: the count, the type and the container.
    ensures answer { GivesPackedNormal codec.now
        (product form.entry.shape.now) form.entry.data_type.now elements.entry result }
{
    let Form {
        shape,
        data_type,
        fill_value,
    } = form;
    let value = codec.encode(alloc, elements, shape, data_type, fill_value)?;
    codec.decode(alloc, value, shape, data_type, fill_value)
}

/// Whether 64 bits don't count what is asked for.
fn is_too_many(cause: CodecError) -> bool
    ensures value { result ≡ is_overflow cause }
{
    matches!(cause, CodecError::Overflow)
}

/// So many elements as `packbits` keeps them: as they are, where it doesn't accept their type.
fn packed_normal<'a>(
    alloc: Global,
    codec: &PackBitsCodec,
    elements: ArrayBytes<'a>,
    count: u64,
    data_type: &DataType,
) -> Result<ArrayBytes<'a>, CodecError>
    requires valid { validity data_type.now count elements ≡ Ok tt }
    ensures answer { GivesPackedNormal codec.now count data_type.now elements.entry result }
{
    let Some(_) = data_type.fixed_size() else {
        return Ok(elements);
    };
    let Some(row) = row_of(alloc, count)? else {
        return Ok(elements);
    };
    let fill = blank_fill(alloc, data_type)?;
    match codec.encoded_representation(&row, data_type, &fill) {
        Ok(_) => {
            let form = Form {
                shape: &row,
                data_type,
                fill_value: &fill,
            };
            packed_row(alloc, codec, elements, form)
        }
        Err(cause) => {
            // No memory has room for as many elements twice.
            if is_too_many(cause) {
                return Err(CodecError::OutOfMemory);
            }
            Ok(elements)
        }
    }
}

/// The elements as `vlen` keeps them: each byte as the codec of its data chain does.
#[cycle(normal)]
fn vlen_normal<'a, B>(
    alloc: Global,
    codec: &VlenCodec<B>,
    elements: ArrayBytes<'a>,
    count: u64,
    data_type: &DataType,
) -> Result<ArrayBytes<'a>, CodecError>
    requires valid { validity data_type.now count elements ≡ Ok tt }
    // Wide: the codec, the count, the type and the container.
    ensures answer { GivesNormal (plain_vlen codec.now)
        count data_type.now elements.entry result }
{
    if !data_type.is_variable() {
        return Ok(elements);
    }
    let (bytes, offsets) = variable_parts(elements)?;
    let items = bytes.len() as u64;
    let content = &codec.data_codecs.array_to_bytes;
    let rows = ArrayBytes::new_flen(bytes);
    let kept = normal_elements(alloc, content, rows, items, &DataType::uint8())?;
    ArrayBytes::new_vlen(kept.into_fixed()?, offsets)
}

/// The elements as `optional` keeps them: the present ones as the codec of its data chain does.
#[cycle(normal)]
fn optional_normal<'a, B>(
    alloc: Global,
    codec: &OptionalCodec<B>,
    elements: ArrayBytes<'a>,
    count: u64,
    data_type: &DataType,
) -> Result<ArrayBytes<'a>, CodecError>
    requires valid { validity data_type.now count elements ≡ Ok tt }
    // Wide: the codec, the count, the type and the container.
    ensures answer { GivesNormal (plain_optional codec.now)
        count data_type.now elements.entry result }
{
    let Some(inner) = data_type.as_optional() else {
        return Ok(elements);
    };
    let (inside, mask, _) = masked_parts(elements)?;
    let content = &codec.data_codecs.array_to_bytes;
    let kept = normal_elements(alloc, content, inside, count, inner)?;
    kept.with_optional_mask(alloc, mask)
}

/// The normal forms of so many elements. Errors: `OutOfMemory`.
#[cycle(normal)]
#[tactic(auto, unfolding(crate::specs::ChainView::plain_codec))]
pub(crate) fn normal_elements<'a, B>(
    alloc: Global,
    codec: &ArrayToBytesCodec<B>,
    elements: ArrayBytes<'a>,
    count: u64,
    data_type: &DataType,
) -> Result<ArrayBytes<'a>, CodecError>
    requires valid { validity data_type.now count elements ≡ Ok tt }
    // Wide: the codec, the count, the type and the container.
    ensures answer { GivesNormal (plain_codec codec.now)
        count data_type.now elements.entry result }
{
    match codec {
        ArrayToBytesCodec::PackBits(codec) => {
            packed_normal(alloc, codec, elements, count, data_type)
        }
        ArrayToBytesCodec::Vlen(codec) => vlen_normal(alloc, codec, elements, count, data_type),
        ArrayToBytesCodec::Optional(codec) => {
            optional_normal(alloc, codec, elements, count, data_type)
        }
        ArrayToBytesCodec::Sharding(codec) => {
            let inner = &codec.codecs.array_to_bytes;
            normal_elements(alloc, inner, elements, count, data_type)
        }
        _ => Ok(elements),
    }
}
