//! What a `sharding_indexed` is made of, for who reads a part of its value.
ghost use Rattle.std.specs.Prelude.{◌≡◌};
ghost use Rattle.zarrs_chain_meaning.specs.CodecMeaning.{sharding_codec_of};
ghost use Rattle.zarrs_chain.specs.ChainView.{plain_chain, plain_sharding};

use crate::codec_chain::CodecChain;
use crate::sharding::sharding_codec::{ShardingCodec, is_at_end};
use zarrs_chunk::ChunkShape;

/// What a `sharding_indexed` is made of.
#[derive(Debug)]
pub struct ShardingParts<'a, B> {
    /// The shape of the inner chunks.
    pub chunk_shape: &'a ChunkShape,
    /// The chain of each inner chunk.
    pub codecs: &'a CodecChain<B>,
    /// The chain of the index.
    pub index_codecs: &'a CodecChain<B>,
    /// Whether the index stands behind the inner chunks.
    pub is_index_at_end: bool,
}

/// The parts of the codec.
#[tactic(auto, using(crate::specs::ChainView::plain_sharding_at))]
pub fn sharding_parts<B>(codec: &ShardingCodec<B>) -> ShardingParts<'_, B>
    ensures parts { plain_sharding codec.now ≡ sharding_codec_of (plain_chain result.codecs.now)
        (plain_chain result.index_codecs.now) result.chunk_shape.now result.is_index_at_end }
{
    ShardingParts {
        chunk_shape: &codec.chunk_shape,
        codecs: &codec.codecs,
        index_codecs: &codec.index_codecs,
        is_index_at_end: is_at_end(codec.index_location),
    }
}
