//! The configuration of `sharding_indexed`, read from metadata and made of its keys.
ghost use Rattle.zarrs_chain_meaning.specs.WrittenMetadata.{sharding_members_of};
ghost use Rattle.std.specs.Prelude.{◌≡◌, IfOk, Ok, map};
ghost use Rattle.zarrs_metadata.specs.MetadataV3.{metadata_seen, Writes};
ghost use Rattle.zarrs_metadata.specs.PluginCreateError.{Makes};
ghost use Rattle.zarrs_metadata.specs.ShardingConfiguration.{sharding_seen};
ghost use Rattle.zarrs_chain_meaning.specs.MadeChain.{read_as_sharding, LessDeep};

use crate::codec_name::is_sharding;
use std::alloc::Global;
use zarrs_chunk::ChunkShape;
use zarrs_metadata::{
    Configuration, MetadataV3, PluginCreateError, ShardingCodecConfiguration,
    ShardingCodecConfigurationV1, ShardingIndexLocation,
};

/// The configuration of a metadata of `sharding_indexed`. Errors: those of `sharding_configuration`.
fn read_sharding_configuration(
    alloc: Global,
    metadata: &MetadataV3,
) -> Result<ShardingCodecConfiguration, PluginCreateError>
    ensures answer { Makes sharding_seen result (read_as_sharding (metadata_seen metadata.now)) }
{
    if !is_sharding(metadata.name()) {
        return Err(PluginCreateError::UnknownName);
    }
    let Some(configuration) = metadata.configuration() else {
        return Err(PluginCreateError::InvalidConfiguration);
    };
    ShardingCodecConfiguration::from_configuration(alloc, configuration)
}

/// The configuration of a metadata of `sharding_indexed`, whose lists are less deep. Errors, the
/// first that holds, `OutOfMemory` aside: `UnknownName` for another name; those of
/// `ShardingCodecConfiguration::from_configuration`, and `InvalidConfiguration` where there is none.
pub fn sharding_configuration(
    alloc: Global,
    metadata: &MetadataV3,
) -> Result<ShardingCodecConfiguration, PluginCreateError>
    ensures answer { Makes sharding_seen result (read_as_sharding (metadata_seen metadata.now)) }
    ensures inner_depth { IfOk result (λ c. LessDeep (sharding_seen c).codecs metadata.now) }
    ensures index_depth { IfOk result (λ c. LessDeep (sharding_seen c).index_codecs metadata.now) }
{
    read_sharding_configuration(alloc, metadata)
}

/// The metadata of the chain of each inner chunk.
pub fn inner_codecs(configuration: &ShardingCodecConfiguration) -> &[MetadataV3]
    ensures value { map metadata_seen result.now ≡ (sharding_seen configuration.now).codecs }
{
    let ShardingCodecConfiguration::V1(configuration) = configuration;
    configuration.codecs.as_slice()
}

/// The metadata of the index chain.
pub fn shard_index_codecs(configuration: &ShardingCodecConfiguration) -> &[MetadataV3]
    ensures value { map metadata_seen result.now ≡ (sharding_seen configuration.now).index_codecs }
{
    let ShardingCodecConfiguration::V1(configuration) = configuration;
    configuration.index_codecs.as_slice()
}

/// The shape of the inner chunks. Errors: `OutOfMemory`.
pub fn inner_shape(
    alloc: Global,
    configuration: &ShardingCodecConfiguration,
) -> Result<ChunkShape, PluginCreateError>
    ensures answer { Makes (λ shape. shape) result (Ok (sharding_seen configuration.now).chunk_shape) }
{
    let ShardingCodecConfiguration::V1(configuration) = configuration;
    let sizes = configuration.chunk_shape.as_slice();
    let mut copies = Vec::with_capacity(alloc, sizes.len())?;
    copies.extend_from_slice(sizes)?;
    match ChunkShape::new(copies) {
        Some(shape) => Ok(shape),
        None => unreachable!(),
    }
}

/// Where the index stands.
pub fn shard_index_location(configuration: &ShardingCodecConfiguration) -> ShardingIndexLocation
    ensures value { result ≡ (sharding_seen configuration.now).index_location }
{
    let ShardingCodecConfiguration::V1(configuration) = configuration;
    configuration.index_location
}

/// The configuration of `sharding_indexed` by its four keys. Errors: `OutOfMemory`.
pub fn sharding_members(
    alloc: Global,
    chunk_shape: ChunkShape,
    codecs: Vec<MetadataV3>,
    index_codecs: Vec<MetadataV3>,
    index_location: ShardingIndexLocation,
) -> Result<Configuration, PluginCreateError>
    // Wide: the four keys.
    ensures answer { Writes result
        (sharding_members_of chunk_shape codecs.items index_codecs.items index_location) }
{
    let configuration = ShardingCodecConfiguration::V1(ShardingCodecConfigurationV1 {
        chunk_shape,
        codecs,
        index_codecs,
        index_location,
    });
    configuration.to_configuration(alloc)
}
