//! The configuration of the codec `optional`.
ghost use Rattle.zarrs_metadata.specs.MetadataV3.{read_by, Writes};
ghost use Rattle.std.specs.Prelude.{Ok};
ghost use Rattle.zarrs_metadata.specs.OptionalConfiguration.{optional_seen, read_optional, write_optional};
ghost use Rattle.zarrs_metadata.specs.PluginCreateError.{Makes};

use crate::configuration::codecs::{codecs_at, tree_of_codecs};
use crate::json::members_hold_float;
use crate::metadata_v3::{Configuration, MetadataV3};
use crate::plugin_create_error::PluginCreateError;
use serde_json::Map;
use std::alloc::Global;

/// The configuration of codec `optional` (codec.zarrs.dev), by its version.
#[derive(Debug, Drop)]
pub enum OptionalCodecConfiguration {
    /// Version 1.
    V1(OptionalCodecConfigurationV1),
}

/// The configuration of codec `optional`, version 1.
#[derive(Debug, Drop)]
pub struct OptionalCodecConfigurationV1 {
    /// The metadata of the chain that encodes the mask.
    pub mask_codecs: Vec<MetadataV3>,
    /// The metadata of the chain that encodes the elements that are present.
    pub data_codecs: Vec<MetadataV3>,
}

impl OptionalCodecConfiguration {
    /// The configuration of these members: `mask_codecs` and `data_codecs`, lists of metadata.
    /// Errors: `InvalidConfiguration` where a number is a float, or a key is missing or anything
    /// else; `OutOfMemory`.
    pub fn from_configuration(
        alloc: Global,
        configuration: &Configuration,
    ) -> Result<OptionalCodecConfiguration, PluginCreateError>
        ensures answer { Makes optional_seen result (read_by read_optional configuration.now) }
    {
        if members_hold_float(configuration) {
            return Err(PluginCreateError::InvalidConfiguration);
        }
        let mask_codecs = codecs_at(alloc, configuration, "mask_codecs")?;
        let data_codecs = codecs_at(alloc, configuration, "data_codecs")?;
        Ok(OptionalCodecConfiguration::V1(OptionalCodecConfigurationV1 {
            mask_codecs,
            data_codecs,
        }))
    }

    /// The members: `mask_codecs` and `data_codecs`. Errors: `OutOfMemory`.
    pub fn to_configuration(&self, alloc: Global) -> Result<Configuration, PluginCreateError>
        ensures answer { Writes result (write_optional (optional_seen self.now)) }
    {
        let OptionalCodecConfiguration::V1(configuration) = self;
        let masks = tree_of_codecs(alloc, configuration.mask_codecs.as_slice())?;
        let elements = tree_of_codecs(alloc, configuration.data_codecs.as_slice())?;
        let mut members = Map::new(alloc);
        serde_json::put(&mut members, alloc, "mask_codecs", masks)?;
        serde_json::put(&mut members, alloc, "data_codecs", elements)?;
        Ok(members)
    }
}
