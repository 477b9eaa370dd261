//! Which chains hand on the bytes of elements as they are.
ghost use Rattle.std.specs.Prelude.{◌≡◌, is_none, true};
ghost use Rattle.zarrs_bytes.specs.BytesCodec.{turn_size};
ghost use Rattle.zarrs_chain_meaning.specs.KeptBytes.{KeepsBytes, codec_keeps_bytes};
ghost use Rattle.zarrs_chain.specs.ChainView.{plain_chain, plain_codec};

use crate::array_to_bytes_codec::ArrayToBytesCodec;
use crate::codec_chain::CodecChain;
use zarrs_array_to_array::keep_places;
use zarrs_bytes::BytesCodec;
use zarrs_data_type::{DataType, Endianness, HasComponents};

/// Whether the codec leaves all bytes of elements of this type in their places.
fn turns_nothing(codec: &BytesCodec, data_type: &DataType) -> bool
    ensures value { result ≡ is_none (turn_size codec.now data_type.now) }
{
    if codec.endianness() != Some(Endianness::Big) {
        return true;
    }
    match HasComponents::components(data_type) {
        Some(components) => components.component_size_bits <= 8,
        None => true,
    }
}

/// Whether the codec hands on the bytes of elements of this type as they are.
#[tactic(auto, unfolding(crate::specs::ChainView::plain_codec), using(crate::specs::ChainView::plain_vlen_at, crate::specs::ChainView::plain_optional_at, crate::specs::ChainView::plain_sharding_at))]
fn codec_keeps<B>(codec: &ArrayToBytesCodec<B>, data_type: &DataType) -> bool
    ensures value { result ≡ codec_keeps_bytes (plain_codec codec.now) data_type.now }
{
    match codec {
        ArrayToBytesCodec::Bytes(codec) => turns_nothing(codec, data_type),
        _ => false,
    }
}

/// Whether the chain hands on the bytes of elements of this type as they are.
pub(crate) fn keeps_bytes<B>(chain: &CodecChain<B>, data_type: &DataType) -> bool
    ensures keeps { result ≡ true → KeepsBytes (plain_chain chain.now) data_type.now }
    ensures only { KeepsBytes (plain_chain chain.now) data_type.now → result ≡ true }
{
    chain.bytes_to_bytes.is_empty()
        && keep_places(&chain.array_to_array)
        && codec_keeps(&chain.array_to_bytes, data_type)
}
