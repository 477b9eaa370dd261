//! The configuration of the codec `vlen`.
ghost use Rattle.std.specs.Prelude.{◌≡◌, Ok};
ghost use Rattle.zarrs_metadata.specs.MetadataV3.{read_by, Writes};
ghost use Rattle.zarrs_metadata.specs.PluginCreateError.{Makes};
ghost use Rattle.zarrs_metadata.specs.Trees.{lent_tree};
ghost use Rattle.zarrs_metadata.specs.VlenConfiguration.{vlen_parts, vlen_seen, index_data_type_named, index_location_named, index_data_type_in, index_location_in, index_data_type_name, index_location_name, read_vlen, write_vlen};

use crate::codec::vlen::{VlenIndexDataType, VlenIndexLocation};
use crate::configuration::codecs::{codecs_at, tree_of_codecs};
use crate::json::{member, members_hold_float};
use crate::metadata_v3::{Configuration, MetadataV3};
use crate::plugin_create_error::PluginCreateError;
use serde_json::{Map, Value};
use std::alloc::Global;

/// The configuration of codec `vlen` (codec.zarrs.dev), by its version.
#[derive(Debug, Drop)]
pub enum VlenCodecConfiguration {
    /// Version 0, without the place of the offsets.
    V0(VlenCodecConfigurationV0),
    /// Version 0.1.
    V0_1(VlenCodecConfigurationV0_1),
}

/// The configuration of codec `vlen`, version 0: the offsets stand before the elements' bytes.
#[derive(Debug, Drop)]
pub struct VlenCodecConfigurationV0 {
    /// The metadata of the chain that encodes the offsets.
    pub index_codecs: Vec<MetadataV3>,
    /// The metadata of the chain that encodes the elements' bytes.
    pub data_codecs: Vec<MetadataV3>,
    /// The type of the offsets.
    pub index_data_type: VlenIndexDataType,
}

/// The configuration of codec `vlen`, version 0.1.
#[derive(Debug, Drop)]
pub struct VlenCodecConfigurationV0_1 {
    /// The metadata of the chain that encodes the offsets.
    pub index_codecs: Vec<MetadataV3>,
    /// The metadata of the chain that encodes the elements' bytes.
    pub data_codecs: Vec<MetadataV3>,
    /// The type of the offsets.
    pub index_data_type: VlenIndexDataType,
    /// Where the offsets stand.
    pub index_location: VlenIndexLocation,
}

fn index_data_type_by_name(name: &str) -> Option<VlenIndexDataType>
    ensures value { result ≡ index_data_type_named name.now }
{
    match name {
        "uint32" => Some(VlenIndexDataType::UInt32),
        "uint64" => Some(VlenIndexDataType::UInt64),
        _ => None,
    }
}

fn index_data_type_of(value: Option<&Value>) -> Result<VlenIndexDataType, PluginCreateError>
    ensures answer { result ≡ index_data_type_in (lent_tree value.entry) }
{
    match value {
        Some(Value::String(name)) => {
            index_data_type_by_name(name.as_str()).ok_or(PluginCreateError::InvalidConfiguration)
        }
        _ => Err(PluginCreateError::InvalidConfiguration),
    }
}

fn index_location_by_name(name: &str) -> Option<VlenIndexLocation>
    ensures value { result ≡ index_location_named name.now }
{
    match name {
        "start" => Some(VlenIndexLocation::Start),
        "end" => Some(VlenIndexLocation::End),
        _ => None,
    }
}

fn index_location_of(value: Option<&Value>) -> Result<Option<VlenIndexLocation>, PluginCreateError>
    ensures answer { result ≡ index_location_in (lent_tree value.entry) }
{
    match value {
        None => Ok(None),
        Some(Value::String(name)) => match index_location_by_name(name.as_str()) {
            None => Err(PluginCreateError::InvalidConfiguration),
            Some(location) => Ok(Some(location)),
        },
        Some(_) => Err(PluginCreateError::InvalidConfiguration),
    }
}

fn name_of_data_type(index_data_type: VlenIndexDataType) -> &'static str
    ensures value { result.now ≡ index_data_type_name index_data_type }
{
    match index_data_type {
        VlenIndexDataType::UInt32 => "uint32",
        VlenIndexDataType::UInt64 => "uint64",
    }
}

fn name_of_location(index_location: VlenIndexLocation) -> &'static str
    ensures value { result.now ≡ index_location_name index_location }
{
    match index_location {
        VlenIndexLocation::Start => "start",
        VlenIndexLocation::End => "end",
    }
}

/// Version 0.1 where the place of the offsets is given, else version 0.
fn of_parts(
    index: Vec<MetadataV3>,
    content: Vec<MetadataV3>,
    data_type: VlenIndexDataType,
    location: Option<VlenIndexLocation>,
) -> VlenCodecConfiguration
    ensures made { vlen_seen result ≡ vlen_parts index.items content.items data_type location }
{
    match location {
        None => VlenCodecConfiguration::V0(VlenCodecConfigurationV0 {
            index_codecs: index,
            data_codecs: content,
            index_data_type: data_type,
        }),
        Some(location) => VlenCodecConfiguration::V0_1(VlenCodecConfigurationV0_1 {
            index_codecs: index,
            data_codecs: content,
            index_data_type: data_type,
            index_location: location,
        }),
    }
}

fn members_of(
    alloc: Global,
    index: &[MetadataV3],
    content: &[MetadataV3],
    data_type: VlenIndexDataType,
    location: Option<VlenIndexLocation>,
) -> Result<Configuration, PluginCreateError>
    ensures answer { Writes result (write_vlen (vlen_parts index.now content.now data_type location)) }
{
    let index_codecs = tree_of_codecs(alloc, index)?;
    let data_codecs = tree_of_codecs(alloc, content)?;
    let mut members = Map::new(alloc);
    if let Some(location) = location {
        let name = Value::try_from_str(alloc, name_of_location(location))?;
        serde_json::put(&mut members, alloc, "index_location", name)?;
    }
    let name = Value::try_from_str(alloc, name_of_data_type(data_type))?;
    serde_json::put(&mut members, alloc, "index_data_type", name)?;
    serde_json::put(&mut members, alloc, "index_codecs", index_codecs)?;
    serde_json::put(&mut members, alloc, "data_codecs", data_codecs)?;
    Ok(members)
}

impl VlenCodecConfiguration {
    /// The configuration of these members: `index_codecs` and `data_codecs`, lists of metadata;
    /// `index_data_type`, "uint32" or "uint64"; and in version 0.1 `index_location`, "start" or
    /// "end". Errors: `InvalidConfiguration` where a number is a float, or a key is anything else,
    /// or missing, but for `index_location`; `OutOfMemory`.
    pub fn from_configuration(
        alloc: Global,
        configuration: &Configuration,
    ) -> Result<VlenCodecConfiguration, PluginCreateError>
        ensures answer { Makes vlen_seen result (read_by read_vlen configuration.now) }
    {
        if members_hold_float(configuration) {
            return Err(PluginCreateError::InvalidConfiguration);
        }
        let index_codecs = codecs_at(alloc, configuration, "index_codecs")?;
        let data_codecs = codecs_at(alloc, configuration, "data_codecs")?;
        let index_data_type = index_data_type_of(member(configuration, "index_data_type"))?;
        let index_location = index_location_of(member(configuration, "index_location"))?;
        Ok(of_parts(index_codecs, data_codecs, index_data_type, index_location))
    }

    /// The members: `index_codecs`, `data_codecs` and `index_data_type`, and in version 0.1
    /// `index_location`. Errors: `OutOfMemory`.
    pub fn to_configuration(&self, alloc: Global) -> Result<Configuration, PluginCreateError>
        ensures answer { Writes result (write_vlen (vlen_seen self.now)) }
    {
        match self {
            VlenCodecConfiguration::V0(configuration) => members_of(
                alloc,
                configuration.index_codecs.as_slice(),
                configuration.data_codecs.as_slice(),
                configuration.index_data_type,
                None,
            ),
            VlenCodecConfiguration::V0_1(configuration) => members_of(
                alloc,
                configuration.index_codecs.as_slice(),
                configuration.data_codecs.as_slice(),
                configuration.index_data_type,
                Some(configuration.index_location),
            ),
        }
    }
}
