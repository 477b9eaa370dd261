//! The index of a shard: of each inner chunk where its value begins and how many bytes it has.
ghost use Rattle.std.specs.Prelude.{◌≡◌, ◌*◌, IfOk, Ok, length};
ghost use Rattle.zarrs_chunk.specs.Answer.{GivesValue};
ghost use Rattle.zarrs_chunk.specs.ChunkShape.{product};
ghost use Rattle.zarrs_chain.specs.sharding.ShardingCalls.{GivesIndexSize, WritesShardIndex, KeepsIndexSize, ReadsShardIndex, ChecksNumbers, keeps_numbers};

use crate::array_to_bytes_codec::ArrayToBytesCodec;
use crate::codec_chain::{CodecChain, chain_is_sound};
use crate::decode::chain_decode;
use crate::encode::chain_encode;
use crate::form::Form;
use crate::representation::chain_representation;
use crate::sharding::normal_form::{keeps_all, normal_elements};
use crate::vlen::vlen_kept::holds_items;
use std::alloc::Global;
use std::borrow::CowSlice;
use zarrs_array_bytes::{ArrayBytes, ArrayBytesRaw};
use zarrs_chain_meaning::sharding::inner_chunks::index_shape;
use zarrs_chain_meaning::vlen::vlen_offsets::{number_items, offset_fill, offset_numbers};
use zarrs_chunk::{ChunkShape, CodecError};
use zarrs_codec::{BytesRepresentation, BytesToBytesCodecTraits};
use zarrs_data_type::DataType;
use zarrs_metadata::VlenIndexDataType;

/// How many bytes the index of such a grid has. Errors: those of the index chain; `IndexNotFixed`
/// where it doesn't fix their number.
#[cycle(representation)]
pub fn index_size<B: BytesToBytesCodecTraits>(
    alloc: Global,
    chain: &CodecChain<B>,
    grid: &ChunkShape,
) -> Result<u64, CodecError>
    ensures answer { GivesIndexSize B.functions chain.now grid.now result }
{
    let shape = index_shape(alloc, grid)?;
    let zero = offset_fill(alloc, VlenIndexDataType::UInt64)?;
    let number_type = DataType::uint64();
    let form = Form {
        shape: &shape,
        data_type: &number_type,
        fill_value: &zero,
    };
    match chain_representation(alloc, chain, form)? {
        BytesRepresentation::FixedSize(size) => Ok(size),
        _ => Err(CodecError::IndexNotFixed),
    }
}

/// Whether a codec gives numbers back unchanged.
fn are_kept<B>(
    alloc: Global,
    codec: &ArrayToBytesCodec<B>,
    numbers: &[usize],
) -> Result<bool, CodecError>
    ensures answer { GivesValue result (Ok (keeps_numbers codec.now numbers.now)) }
{
    if keeps_all(codec) {
        return Ok(true);
    }
    let items = number_items(alloc, numbers)?;
    let rows = ArrayBytes::new_flen(CowSlice::Borrowed(items.as_slice()));
    let count = numbers.len() as u64;
    let kept = normal_elements(alloc, codec, rows, count, &DataType::uint64())?;
    holds_items(&kept, items.as_slice())
}

/// That a codec gives numbers back unchanged. Errors: `OffsetNotKept`.
fn check_numbers<B>(
    alloc: Global,
    codec: &ArrayToBytesCodec<B>,
    numbers: &[usize],
) -> Result<(), CodecError>
    ensures answer { ChecksNumbers codec.now numbers.now result }
{
    if are_kept(alloc, codec, numbers)? {
        Ok(())
    } else {
        Err(CodecError::OffsetNotKept)
    }
}

/// The index part of these numbers. Errors: those of the chain; `OffsetNotKept` where it would
/// change one.
#[cycle(encode)]
pub(crate) fn index_encode<'a, B: BytesToBytesCodecTraits>(
    alloc: Global,
    chain: &CodecChain<B>,
    numbers: &[usize],
    grid: &ChunkShape,
) -> Result<ArrayBytesRaw<'a>, CodecError>
    requires len { length numbers.now ≡ product grid.now * 2 }
    ensures long { KeepsIndexSize B.functions chain.now grid.now result }
    ensures answer { WritesShardIndex B.functions chain.now numbers.now grid.now result }
{
    chain_is_sound(chain);
    grid.as_slice();
    let shape = index_shape(alloc, grid)?;
    let zero = offset_fill(alloc, VlenIndexDataType::UInt64)?;
    let items = number_items(alloc, numbers)?;
    let rows = ArrayBytes::new_flen(CowSlice::Owned(items));
    let number_type = DataType::uint64();
    let form = Form {
        shape: &shape,
        data_type: &number_type,
        fill_value: &zero,
    };
    let part = chain_encode(alloc, chain, rows, form)?;
    check_numbers(alloc, &chain.array_to_bytes, numbers)?;
    Ok(part)
}

/// The numbers that an index part stands for. Errors: those of the chain.
#[cycle(decode)]
pub fn index_decode<B: BytesToBytesCodecTraits>(
    alloc: Global,
    chain: &CodecChain<B>,
    part: &[u8],
    grid: &ChunkShape,
) -> Result<Vec<usize>, CodecError>
    ensures answer { ReadsShardIndex B.functions chain.now part.now grid.now result }
    ensures len { IfOk result (λ numbers. length numbers.items ≡ product grid.now * 2) }
{
    let shape = index_shape(alloc, grid)?;
    let zero = offset_fill(alloc, VlenIndexDataType::UInt64)?;
    let part = CowSlice::Borrowed(part);
    let number_type = DataType::uint64();
    let form = Form {
        shape: &shape,
        data_type: &number_type,
        fill_value: &zero,
    };
    let rows = chain_decode(alloc, chain, part, form)?;
    offset_numbers(alloc, rows.as_fixed()?, VlenIndexDataType::UInt64)
}
