//! A `sharding_indexed` made from its configuration and from metadata.
ghost use Rattle.zarrs_chain.specs.Making.{MakesSharding, CreatesSharding};

use crate::metadata::make_chain::{sharding_create, sharding_from};
use crate::sharding::sharding_codec::ShardingCodec;
use std::alloc::Global;
use zarrs_codec::BytesCodecMaker;
use zarrs_metadata::{MetadataV3, PluginCreateError, ShardingCodecConfiguration};

impl<B: Drop> ShardingCodec<B> {
    /// The codec of a configuration, the bytes-to-bytes codecs of the chains inside made by
    /// `maker`. Errors, the first that holds, `OutOfMemory` aside: those of the inner chain, those
    /// of the index chain, as `CodecChain::from_metadata` answers them.
    pub fn new_with_configuration<M: BytesCodecMaker<B>>(
        alloc: Global,
        configuration: &ShardingCodecConfiguration,
        maker: &M,
    ) -> Result<ShardingCodec<B>, PluginCreateError>
        ensures answer { MakesSharding (M.makes maker.now) configuration.now result }
    {
        sharding_from(alloc, configuration, maker)
    }

    /// The codec of a metadata, whose name is `sharding_indexed` (Zarr v3), the bytes-to-bytes
    /// codecs of the chains inside made by `maker`. A missing configuration is read as one without
    /// members. Errors, the first that holds, `OutOfMemory` aside: `UnknownName` for another name;
    /// those of `ShardingCodecConfiguration::from_configuration`; those of the inner chain; those
    /// of the index chain.
    pub fn create<M: BytesCodecMaker<B>>(
        alloc: Global,
        metadata: &MetadataV3,
        maker: &M,
    ) -> Result<ShardingCodec<B>, PluginCreateError>
        ensures answer { CreatesSharding (M.makes maker.now) metadata.now result }
    {
        sharding_create(alloc, metadata, maker)
    }
}
