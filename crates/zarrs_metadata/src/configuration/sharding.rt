//! The configuration of the codec `sharding_indexed`.
ghost use Rattle.std.specs.Prelude.{◌≡◌, Ok};
ghost use Rattle.zarrs_metadata.specs.MetadataV3.{read_by, Writes};
ghost use Rattle.zarrs_metadata.specs.PluginCreateError.{Makes};
ghost use Rattle.zarrs_metadata.specs.ShardingConfiguration.{sharding_seen, shard_index_named, shard_index_in, shard_index_name, read_sharding, write_sharding};
ghost use Rattle.zarrs_metadata.specs.Trees.{lent_tree};

use crate::codec::sharding::ShardingIndexLocation;
use crate::configuration::codecs::{codecs_at, tree_of_codecs};
use crate::json::{member, members_hold_float, numbers, numbers_of};
use crate::metadata_v3::{Configuration, MetadataV3};
use crate::plugin_create_error::PluginCreateError;
use serde_json::{Map, Value};
use std::alloc::Global;
use zarrs_chunk::ChunkShape;

/// The configuration of codec `sharding_indexed` (Zarr v3 codecs, "sharding-indexed"), by its version.
#[derive(Debug, Drop)]
pub enum ShardingCodecConfiguration {
    /// Version 1.
    V1(ShardingCodecConfigurationV1),
}

/// The configuration of codec `sharding_indexed`, version 1.
#[derive(Debug, Drop)]
pub struct ShardingCodecConfigurationV1 {
    /// The shape of the inner chunks.
    pub chunk_shape: ChunkShape,
    /// The metadata of the chain that encodes each inner chunk.
    pub codecs: Vec<MetadataV3>,
    /// The metadata of the chain that encodes the index.
    pub index_codecs: Vec<MetadataV3>,
    /// Where the index stands.
    pub index_location: ShardingIndexLocation,
}

fn index_location_by_name(name: &str) -> Option<ShardingIndexLocation>
    ensures value { result ≡ shard_index_named name.now }
{
    match name {
        "start" => Some(ShardingIndexLocation::Start),
        "end" => Some(ShardingIndexLocation::End),
        _ => None,
    }
}

fn index_location_of(value: Option<&Value>) -> Result<ShardingIndexLocation, PluginCreateError>
    ensures answer { result ≡ shard_index_in (lent_tree value.entry) }
{
    match value {
        None => Ok(ShardingIndexLocation::default()),
        Some(Value::String(name)) => {
            index_location_by_name(name.as_str()).ok_or(PluginCreateError::InvalidConfiguration)
        }
        Some(_) => Err(PluginCreateError::InvalidConfiguration),
    }
}

fn name_of_location(index_location: ShardingIndexLocation) -> &'static str
    ensures value { result.now ≡ shard_index_name index_location }
{
    match index_location {
        ShardingIndexLocation::Start => "start",
        ShardingIndexLocation::End => "end",
    }
}

impl ShardingCodecConfiguration {
    /// The configuration of these members: `chunk_shape`, a list of whole numbers; `codecs` and
    /// `index_codecs`, lists of metadata; and `index_location`, "start" or "end", which is "end"
    /// where the key is missing. Errors, the first that holds: `InvalidConfiguration` where a
    /// number is a float, or a key is anything else, or missing, but for `index_location`;
    /// `ZeroSize` where a size of `chunk_shape` is zero; `OutOfMemory`.
    pub fn from_configuration(
        alloc: Global,
        configuration: &Configuration,
    ) -> Result<ShardingCodecConfiguration, PluginCreateError>
        ensures answer { Makes sharding_seen result (read_by read_sharding configuration.now) }
    {
        if members_hold_float(configuration) {
            return Err(PluginCreateError::InvalidConfiguration);
        }
        let Some(tree) = member(configuration, "chunk_shape") else {
            return Err(PluginCreateError::InvalidConfiguration);
        };
        let sizes = numbers(alloc, tree)?;
        let codecs = codecs_at(alloc, configuration, "codecs")?;
        let index_codecs = codecs_at(alloc, configuration, "index_codecs")?;
        let index_location = index_location_of(member(configuration, "index_location"))?;
        let Some(chunk_shape) = ChunkShape::new(sizes) else {
            return Err(PluginCreateError::ZeroSize);
        };
        Ok(ShardingCodecConfiguration::V1(ShardingCodecConfigurationV1 {
            chunk_shape,
            codecs,
            index_codecs,
            index_location,
        }))
    }

    /// The members: always all four, `chunk_shape`, `codecs`, `index_codecs` and `index_location`.
    /// Errors: `OutOfMemory`.
    pub fn to_configuration(&self, alloc: Global) -> Result<Configuration, PluginCreateError>
        ensures answer { Writes result (write_sharding (sharding_seen self.now)) }
    {
        let ShardingCodecConfiguration::V1(configuration) = self;
        let chunk_shape = numbers_of(alloc, configuration.chunk_shape.as_slice())?;
        let codecs = tree_of_codecs(alloc, configuration.codecs.as_slice())?;
        let index_codecs = tree_of_codecs(alloc, configuration.index_codecs.as_slice())?;
        let name = Value::try_from_str(alloc, name_of_location(configuration.index_location))?;
        let mut members = Map::new(alloc);
        serde_json::put(&mut members, alloc, "index_location", name)?;
        serde_json::put(&mut members, alloc, "index_codecs", index_codecs)?;
        serde_json::put(&mut members, alloc, "codecs", codecs)?;
        serde_json::put(&mut members, alloc, "chunk_shape", chunk_shape)?;
        Ok(members)
    }
}
