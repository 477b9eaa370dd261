//! The steps of which a chain is made: what its array-to-bytes codec gets, what the bytes-to-bytes
//! codecs and the array-to-bytes codec make of a value, and what holds of the codecs. A reader of a
//! part of a chunk takes some of them and leaves others.
ghost use Rattle.zarrs_chunk.specs.Answer.{GivesValue, checked_u64};
ghost use Rattle.std.specs.Prelude.{◌≡◌, IfOk, Ok};
ghost use Rattle.zarrs_chunk.specs.ChunkShape.{product};
ghost use Rattle.zarrs_chain_meaning.specs.Chain.{taken_form as taken_form_of};
ghost use Rattle.zarrs_chain.specs.ChainCalls.{MapsArrays};
ghost use Rattle.zarrs_chain.specs.ChainView.{plain_chain};

pub use crate::array_to_bytes_codec::codec_decode;
use crate::codec_chain::CodecChain;
pub use crate::codec_chain::chain_is_sound;
pub use crate::form::Form;
use crate::representation::taken_form as taken_by;
pub use crate::sharding::shard_decode::has_span;
pub use crate::sharding::shard_form::shard_form;
pub use crate::sharding::shard_index::{index_decode, index_size};
pub use crate::sharding::sharding_parts::{ShardingParts, sharding_parts};
pub use crate::vlen::vlen_codec::vlen_is_sound;
pub use crate::vlen::vlen_decode::vlen_decode;
use std::alloc::Global;
pub use zarrs_chain_meaning::bytes_stages::{decode_bytes, outer_representation};
use zarrs_chunk::{ChunkShape, CodecError};
use zarrs_codec::{BytesRepresentation, BytesToBytesCodecTraits};
use zarrs_data_type::{DataType, FillValue};

/// The shape of the chunk that the chain's array-to-bytes codec gets, and how many bytes it makes
/// of it. Errors: those of `encoded_representation`.
pub fn taken_form<B: BytesToBytesCodecTraits>(
    alloc: Global,
    chain: &CodecChain<B>,
    shape: &ChunkShape,
    data_type: &DataType,
    fill_value: &FillValue,
) -> Result<(ChunkShape, BytesRepresentation), CodecError>
    ensures answer { GivesValue result (taken_form_of B.functions (plain_chain chain.now)
        shape.now data_type.now fill_value.now) }
    ensures map { MapsArrays chain.now data_type.now shape.now result }
    ensures counted { IfOk result (λ _. checked_u64 (product shape.now) ≡ Ok (product shape.now)) }
{
    let form = Form {
        shape,
        data_type,
        fill_value,
    };
    let taken = taken_by(alloc, chain, form)?;
    Ok((taken.shape, taken.representation))
}
