//! The configuration of the codec `packbits`.
ghost use Rattle.zarrs_metadata.specs.MetadataV3.{read_by, Writes};
ghost use Rattle.std.specs.Prelude.{◌≡◌, Ok};
ghost use Rattle.serde_json.specs.View.{view};
ghost use Rattle.zarrs_chunk.specs.Answer.{seen};
ghost use Rattle.zarrs_metadata.specs.PackBitsConfiguration.{packbits_seen, padding_named, padding_in, padding_or_none, padding_name, bit_tree, are_bits_in_order, read_packbits, write_packbits};
ghost use Rattle.zarrs_metadata.specs.Trees.{lent_tree, optional_key, whole_number};

use crate::codec::packbits::PackBitsPaddingEncoding;
use crate::json::{member, members_hold_float};
use crate::metadata_v3::Configuration;
use crate::plugin_create_error::PluginCreateError;
use serde_json::{Map, Value};
use std::alloc::Global;

/// The configuration of codec `packbits` (zarr-extensions), by its version.
#[derive(Clone, Copy, Debug, PartialEq, Eq)]
pub enum PackBitsCodecConfiguration {
    /// Version 1.
    V1(PackBitsCodecConfigurationV1),
}

/// The configuration of codec `packbits`, version 1. What is none is by default.
#[derive(Clone, Copy, Debug, PartialEq, Eq)]
pub struct PackBitsCodecConfigurationV1 {
    /// Where the padding byte stands; by default there is none.
    pub padding_encoding: Option<PackBitsPaddingEncoding>,
    /// The first bit of a component that is kept, counted from 0; by default the lowest.
    pub first_bit: Option<u64>,
    /// The last bit of a component that is kept; by default the highest.
    pub last_bit: Option<u64>,
}

fn padding_by_name(name: &str) -> Option<PackBitsPaddingEncoding>
    ensures value { result ≡ padding_named name.now }
{
    match name {
        "none" => Some(PackBitsPaddingEncoding::None),
        "first_byte" => Some(PackBitsPaddingEncoding::FirstByte),
        "last_byte" => Some(PackBitsPaddingEncoding::LastByte),
        _ => None,
    }
}

fn padding_of(value: Option<&Value>) -> Result<Option<PackBitsPaddingEncoding>, PluginCreateError>
    ensures answer { result ≡ optional_key padding_in (lent_tree value.entry) }
{
    match value {
        None => Ok(None),
        Some(Value::Null) => Ok(None),
        Some(Value::String(name)) => match padding_by_name(name.as_str()) {
            None => Err(PluginCreateError::InvalidConfiguration),
            Some(padding) => Ok(Some(padding)),
        },
        Some(_) => Err(PluginCreateError::InvalidConfiguration),
    }
}

fn bit_of(value: Option<&Value>) -> Result<Option<u64>, PluginCreateError>
    ensures answer { result ≡ optional_key whole_number (lent_tree value.entry) }
{
    match value {
        None => Ok(None),
        Some(Value::Null) => Ok(None),
        Some(Value::Number(number)) => match number.as_u64() {
            None => Err(PluginCreateError::InvalidConfiguration),
            Some(bit) => Ok(Some(bit)),
        },
        Some(_) => Err(PluginCreateError::InvalidConfiguration),
    }
}

fn bits_are_in_order(first: Option<u64>, last: Option<u64>) -> bool
    ensures value { result ≡ are_bits_in_order first last }
{
    match (first, last) {
        (Some(first), Some(last)) => first <= last,
        _ => true,
    }
}

fn name_of(padding: PackBitsPaddingEncoding) -> &'static str
    ensures value { result.now ≡ padding_name padding }
{
    match padding {
        PackBitsPaddingEncoding::None => "none",
        PackBitsPaddingEncoding::FirstByte => "first_byte",
        PackBitsPaddingEncoding::LastByte => "last_byte",
    }
}

fn choose_padding(padding: Option<PackBitsPaddingEncoding>) -> PackBitsPaddingEncoding
    ensures value { result ≡ padding_or_none padding }
{
    match padding {
        None => PackBitsPaddingEncoding::None,
        Some(padding) => padding,
    }
}

fn tree_of_bit(bit: Option<u64>) -> Value
    ensures value { view result ≡ bit_tree bit }
{
    match bit {
        None => Value::Null,
        Some(bit) => Value::from(bit),
    }
}

impl PackBitsCodecConfiguration {
    /// The configuration of these members: `padding_encoding`, "none", "first_byte" or "last_byte";
    /// `first_bit` and `last_bit`, whole numbers. A key that is missing or null is none. Errors,
    /// the first that holds: `InvalidConfiguration` where a number is a float or a key is anything
    /// else; `BitOrder` where both bits are given and the last is below the first.
    pub fn from_configuration(
        configuration: &Configuration,
    ) -> Result<PackBitsCodecConfiguration, PluginCreateError>
        ensures answer { seen packbits_seen result ≡ read_by read_packbits configuration.now }
    {
        if members_hold_float(configuration) {
            return Err(PluginCreateError::InvalidConfiguration);
        }
        let padding_encoding = padding_of(member(configuration, "padding_encoding"))?;
        let first_bit = bit_of(member(configuration, "first_bit"))?;
        let last_bit = bit_of(member(configuration, "last_bit"))?;
        if !bits_are_in_order(first_bit, last_bit) {
            return Err(PluginCreateError::BitOrder);
        }
        Ok(PackBitsCodecConfiguration::V1(PackBitsCodecConfigurationV1 {
            padding_encoding,
            first_bit,
            last_bit,
        }))
    }

    /// The members: always all three keys, "none" for no padding byte and null for a bit by
    /// default. Errors: `OutOfMemory`.
    pub fn to_configuration(&self, alloc: Global) -> Result<Configuration, PluginCreateError>
        ensures answer { Writes result (write_packbits (packbits_seen self.now)) }
    {
        let PackBitsCodecConfiguration::V1(configuration) = self;
        let mut members = Map::new(alloc);
        let padding = Value::try_from_str(
            alloc,
            name_of(choose_padding(configuration.padding_encoding)),
        )?;
        serde_json::put(
            &mut members,
            alloc,
            "first_bit",
            tree_of_bit(configuration.first_bit),
        )?;
        serde_json::put(
            &mut members,
            alloc,
            "last_bit",
            tree_of_bit(configuration.last_bit),
        )?;
        serde_json::put(&mut members, alloc, "padding_encoding", padding)?;
        Ok(members)
    }
}
