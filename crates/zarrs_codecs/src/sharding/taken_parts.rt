//! What a `sharding_indexed` is made of that takes chunks of a form.
ghost use Rattle.std.specs.Prelude.{◌≡◌};
ghost use Rattle.zarrs_chain.specs.ChainView.{plain_chain, plain_sharding};
ghost use Rattle.zarrs_chain.specs.FormView.{lent_form};
ghost use Rattle.zarrs_chain.specs.sharding.ShardingCalls.{IsShardForm};
ghost use Rattle.zarrs_chain_meaning.specs.CodecMeaning.{sharding_codec_of};
ghost use Rattle.zarrs_codecs.specs.ChunkRead.{TakenBy};

use zarrs_chain::ShardingCodec;
use zarrs_chain::stages::{Form, ShardingParts, shard_form, sharding_parts};
use zarrs_codec::BytesToBytesCodecTraits;

/// The parts of a codec that takes chunks of this form, which inner chunks divide.
pub(crate) fn taken_parts<'a, B: BytesToBytesCodecTraits>(
    codec: &'a ShardingCodec<B>,
    form: Form<'_>,
) -> ShardingParts<'a, B>
    requires taken { TakenBy B.functions (plain_sharding codec.now) (lent_form form) }
    ensures parts { plain_sharding codec.now ≡ sharding_codec_of (plain_chain result.codecs.now)
        (plain_chain result.index_codecs.now) result.chunk_shape.now result.is_index_at_end }
    ensures form { IsShardForm result.chunk_shape.now form.entry.shape.now form.entry.data_type.now
        form.entry.fill_value.now }
{
    let parts = sharding_parts(codec);
    shard_form(
        parts.codecs,
        parts.index_codecs,
        parts.chunk_shape,
        form.shape,
        form.data_type,
        form.fill_value,
    );
    parts
}
