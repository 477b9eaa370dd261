//! What is known of a chunk that `sharding_indexed` takes.
ghost use Rattle.zarrs_chain.specs.sharding.ShardingCalls.{IsNormalFill, IsShardForm, TakesShard};

use crate::codec_chain::CodecChain;
use zarrs_chunk::ChunkShape;
use zarrs_codec::BytesToBytesCodecTraits;
use zarrs_data_type::{DataType, FillValue};

/// Inner chunks divide a chunk that is taken, its elements and their bytes are counted, and the
/// fill value fits and is its own normal form. The call does nothing; its contract is for proofs.
pub fn shard_form<B: BytesToBytesCodecTraits>(
    chain: &CodecChain<B>,
    index_chain: &CodecChain<B>,
    inner: &ChunkShape,
    shape: &ChunkShape,
    data_type: &DataType,
    fill: &FillValue,
)
    // Wide: both chains, and the three parameters of a form.
    requires taken { TakesShard B.functions chain.now index_chain.now
        inner.now shape.now data_type.now fill.now }
    ensures form { IsShardForm inner.now shape.now data_type.now fill.now }
    ensures normal { IsNormalFill chain.now.array_to_bytes data_type.now fill.now }
{
    inner.as_slice();
    shape.as_slice();
}
