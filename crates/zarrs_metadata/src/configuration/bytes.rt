//! The configuration of the codec `bytes`.
ghost use Rattle.zarrs_metadata.specs.MetadataV3.{read_by, Writes};
ghost use Rattle.std.specs.Prelude.{◌≡◌, Ok};
ghost use Rattle.zarrs_chunk.specs.Answer.{seen};
ghost use Rattle.zarrs_metadata.specs.BytesConfiguration.{bytes_seen, endianness_named, endianness_in, endianness_name, read_bytes, write_bytes};
ghost use Rattle.zarrs_metadata.specs.Trees.{lent_tree, optional_key};

use crate::json::{member, members_hold_float};
use crate::metadata_v3::Configuration;
use crate::plugin_create_error::PluginCreateError;
use serde_json::{Map, Value};
use std::alloc::Global;
use zarrs_data_type::Endianness;

/// The configuration of codec `bytes` (Zarr v3), by its version.
#[derive(Clone, Copy, Debug, PartialEq, Eq)]
pub enum BytesCodecConfiguration {
    /// Version 1.
    V1(BytesCodecConfigurationV1),
}

/// The configuration of codec `bytes`, version 1.
#[derive(Clone, Copy, Debug, PartialEq, Eq)]
pub struct BytesCodecConfigurationV1 {
    /// The order of a component's bytes; none serves for components of one byte alone.
    pub endian: Option<Endianness>,
}

fn endianness_by_name(name: &str) -> Option<Endianness>
    ensures value { result ≡ endianness_named name.now }
{
    match name {
        "little" => Some(Endianness::Little),
        "big" => Some(Endianness::Big),
        _ => None,
    }
}

fn endianness_of(value: Option<&Value>) -> Result<Option<Endianness>, PluginCreateError>
    ensures answer { result ≡ optional_key endianness_in (lent_tree value.entry) }
{
    match value {
        None => Ok(None),
        Some(Value::Null) => Ok(None),
        Some(Value::String(name)) => match endianness_by_name(name.as_str()) {
            None => Err(PluginCreateError::InvalidConfiguration),
            Some(endian) => Ok(Some(endian)),
        },
        Some(_) => Err(PluginCreateError::InvalidConfiguration),
    }
}

fn name_of(endian: Endianness) -> &'static str
    ensures value { result.now ≡ endianness_name endian }
{
    match endian {
        Endianness::Little => "little",
        Endianness::Big => "big",
    }
}

impl BytesCodecConfiguration {
    /// The configuration of these members: `endian`, "little" or "big"; none where it is missing or
    /// null. Errors: `InvalidConfiguration` where a number is a float, or the key is anything
    /// else.
    pub fn from_configuration(
        configuration: &Configuration,
    ) -> Result<BytesCodecConfiguration, PluginCreateError>
        ensures answer { seen bytes_seen result ≡ read_by read_bytes configuration.now }
    {
        if members_hold_float(configuration) {
            return Err(PluginCreateError::InvalidConfiguration);
        }
        let endian = endianness_of(member(configuration, "endian"))?;
        Ok(BytesCodecConfiguration::V1(BytesCodecConfigurationV1 { endian }))
    }

    /// The members: `endian`, where there is one. Errors: `OutOfMemory`.
    pub fn to_configuration(&self, alloc: Global) -> Result<Configuration, PluginCreateError>
        ensures answer { Writes result (write_bytes (bytes_seen self.now)) }
    {
        let BytesCodecConfiguration::V1(configuration) = self;
        let mut members = Map::new(alloc);
        if let Some(endian) = configuration.endian {
            let name = Value::try_from_str(alloc, name_of(endian))?;
            serde_json::put(&mut members, alloc, "endian", name)?;
        }
        Ok(members)
    }
}
