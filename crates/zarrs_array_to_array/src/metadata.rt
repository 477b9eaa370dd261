//! The codecs made from their configurations and their metadata.
ghost use Rattle.std.specs.Prelude.{◌≡◌, Ok, IsOk};
ghost use Rattle.zarrs_chunk.specs.Answer.{seen};
ghost use Rattle.zarrs_metadata.specs.CodecMetadata.{transpose_made, reshape_made, is_squeeze_name, squeeze_made};
ghost use Rattle.zarrs_metadata.specs.MetadataV3.{metadata_seen};
ghost use Rattle.zarrs_metadata.specs.PluginCreateError.{Makes};
ghost use Rattle.zarrs_metadata.specs.ReshapeConfiguration.{reshape_seen};
ghost use Rattle.zarrs_metadata.specs.TransposeConfiguration.{transpose_seen};
ghost use Rattle.zarrs_array_to_array.specs.Mapping.{mapping_of};
ghost use Rattle.zarrs_array_to_array.specs.MappingMetadata.{is_mapping_name, mapping_made, MakesCodec};

use crate::array_to_array_codec::ArrayToArrayCodec;
use crate::reshape::reshape_codec::ReshapeCodec;
use crate::squeeze::squeeze_codec::SqueezeCodec;
use crate::transpose::transpose_codec::TransposeCodec;
use std::alloc::Global;
use zarrs_metadata::{
    MetadataV3, PluginCreateError, ReshapeCodecConfiguration, SqueezeCodecConfiguration,
    TransposeCodecConfiguration,
};

impl TransposeCodec {
    /// The codec of a configuration. Errors: `OutOfMemory`.
    pub fn new_with_configuration(
        _alloc: Global,
        configuration: &TransposeCodecConfiguration,
    ) -> Result<TransposeCodec, PluginCreateError>
        ensures made { MakesCodec result (Ok (transpose_seen configuration.now)) }
    {
        let TransposeCodecConfiguration::V1(configuration) = configuration;
        Ok(TransposeCodec::new(configuration.order.clone()?))
    }

    /// The codec of a metadata, whose name is `transpose` (Zarr v3 codec `transpose`). A missing
    /// configuration is read as one without members. Errors, the first that holds, `OutOfMemory`
    /// aside: `UnknownName` for another name; those of
    /// `TransposeCodecConfiguration::from_configuration`.
    pub fn create(alloc: Global, metadata: &MetadataV3) -> Result<TransposeCodec, PluginCreateError>
        ensures answer { MakesCodec result (transpose_made (metadata_seen metadata.now)) }
    {
        if metadata.name() != "transpose" {
            return Err(PluginCreateError::UnknownName);
        }
        let Some(configuration) = metadata.configuration() else {
            return Err(PluginCreateError::InvalidConfiguration);
        };
        let TransposeCodecConfiguration::V1(configuration) =
            TransposeCodecConfiguration::from_configuration(alloc, configuration)?;
        Ok(TransposeCodec::new(configuration.order))
    }
}

impl ReshapeCodec {
    /// The codec of a configuration. Errors: `OutOfMemory`.
    pub fn new_with_configuration(
        _alloc: Global,
        configuration: &ReshapeCodecConfiguration,
    ) -> Result<ReshapeCodec, PluginCreateError>
        ensures made { MakesCodec result (Ok (reshape_seen configuration.now)) }
    {
        let ReshapeCodecConfiguration::V1(configuration) = configuration;
        Ok(ReshapeCodec::new(configuration.shape.clone()?))
    }

    /// The codec of a metadata, whose name is `reshape` (zarr-extensions codec `reshape`). A missing
    /// configuration is read as one without members. Errors, the first that holds, `OutOfMemory`
    /// aside: `UnknownName` for another name; those of
    /// `ReshapeCodecConfiguration::from_configuration`.
    pub fn create(alloc: Global, metadata: &MetadataV3) -> Result<ReshapeCodec, PluginCreateError>
        ensures answer { MakesCodec result (reshape_made (metadata_seen metadata.now)) }
    {
        if metadata.name() != "reshape" {
            return Err(PluginCreateError::UnknownName);
        }
        let Some(configuration) = metadata.configuration() else {
            return Err(PluginCreateError::InvalidConfiguration);
        };
        let ReshapeCodecConfiguration::V1(configuration) =
            ReshapeCodecConfiguration::from_configuration(alloc, configuration)?;
        Ok(ReshapeCodec::new(configuration.shape))
    }
}

/// Whether the codec `squeeze` is known by this name.
fn is_squeeze(name: &str) -> bool
    ensures value { result ≡ is_squeeze_name name.now }
{
    name == "zarrs.squeeze" || name == "https://codec.zarrs.dev/array_to_array/squeeze"
}

impl SqueezeCodec {
    /// The codec of a configuration. It never fails.
    pub fn new_with_configuration(
        _configuration: &SqueezeCodecConfiguration,
    ) -> Result<SqueezeCodec, PluginCreateError>
        ensures made { IsOk result }
    {
        Ok(SqueezeCodec::new())
    }

    /// The codec of a metadata, whose name is `zarrs.squeeze` or
    /// `https://codec.zarrs.dev/array_to_array/squeeze` (codec.zarrs.dev). Errors, the first that
    /// holds: `UnknownName` for another name; those of
    /// `SqueezeCodecConfiguration::from_configuration`.
    pub fn create(metadata: &MetadataV3) -> Result<SqueezeCodec, PluginCreateError>
        ensures answer { seen (λ _. tt) result ≡ squeeze_made (metadata_seen metadata.now) }
    {
        if !is_squeeze(metadata.name()) {
            return Err(PluginCreateError::UnknownName);
        }
        if let Some(configuration) = metadata.configuration() {
            SqueezeCodecConfiguration::from_configuration(configuration)?;
        }
        Ok(SqueezeCodec::new())
    }
}

impl ArrayToArrayCodec {
    /// Whether an array-to-array codec is known by this name.
    pub fn is_named(name: &str) -> bool
        ensures value { result ≡ is_mapping_name name.now }
    {
        name == "transpose" || name == "reshape" || is_squeeze(name)
    }

    /// The codec of a metadata, by its name: `transpose`, `reshape`, `zarrs.squeeze` or
    /// `https://codec.zarrs.dev/array_to_array/squeeze`. Errors, the first that holds,
    /// `OutOfMemory` aside: `UnknownName` for another name; those of the codec's configuration.
    pub fn create(
        alloc: Global,
        metadata: &MetadataV3,
    ) -> Result<ArrayToArrayCodec, PluginCreateError>
        ensures answer { Makes mapping_of result (mapping_made (metadata_seen metadata.now)) }
    {
        match metadata.name() {
            "transpose" => Ok(ArrayToArrayCodec::Transpose(TransposeCodec::create(
                alloc, metadata,
            )?)),
            "reshape" => Ok(ArrayToArrayCodec::Reshape(ReshapeCodec::create(alloc, metadata)?)),
            _ => Ok(ArrayToArrayCodec::Squeeze(SqueezeCodec::create(metadata)?)),
        }
    }
}
