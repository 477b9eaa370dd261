//! The configuration of the codec `squeeze`.
ghost use Rattle.zarrs_metadata.specs.MetadataV3.{read_by};
ghost use Rattle.std.specs.Prelude.{◌≡◌};
ghost use Rattle.serde_json.specs.View.{members_view};
ghost use Rattle.zarrs_chunk.specs.Answer.{seen};
ghost use Rattle.zarrs_metadata.specs.SqueezeConfiguration.{read_squeeze, write_squeeze};

use crate::json::members_hold_float;
use crate::metadata_v3::Configuration;
use crate::plugin_create_error::PluginCreateError;
use serde_json::Map;
use std::alloc::Global;

/// The configuration of codec `squeeze` (codec.zarrs.dev), by its version.
#[derive(Clone, Copy, Debug, PartialEq, Eq)]
pub enum SqueezeCodecConfiguration {
    /// Version 0.
    V0(SqueezeCodecConfigurationV0),
}

/// The configuration of codec `squeeze`, version 0, which has no keys.
#[derive(Clone, Copy, Debug, PartialEq, Eq)]
pub struct SqueezeCodecConfigurationV0 {}

impl SqueezeCodecConfiguration {
    /// The configuration of these members, of which none counts. Errors: `InvalidConfiguration`
    /// where a number is a float.
    pub fn from_configuration(
        configuration: &Configuration,
    ) -> Result<SqueezeCodecConfiguration, PluginCreateError>
        ensures answer { seen (λ _. tt) result ≡ read_by read_squeeze configuration.now }
    {
        if members_hold_float(configuration) {
            return Err(PluginCreateError::InvalidConfiguration);
        }
        Ok(SqueezeCodecConfiguration::V0(SqueezeCodecConfigurationV0 {}))
    }

    /// The members, of which there are none.
    pub fn to_configuration(&self, alloc: Global) -> Configuration
        ensures value { members_view result.entries ≡ write_squeeze }
    {
        Map::new(alloc)
    }
}
