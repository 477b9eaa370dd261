//! The configuration of `vlen`, read from metadata.
ghost use Rattle.std.specs.Prelude.{◌≡◌, IfOk, map};
ghost use Rattle.zarrs_metadata.specs.MetadataV3.{metadata_seen};
ghost use Rattle.zarrs_metadata.specs.PluginCreateError.{Makes};
ghost use Rattle.zarrs_metadata.specs.VlenConfiguration.{vlen_seen};
ghost use Rattle.zarrs_chain_meaning.specs.MadeChain.{read_as_vlen, LessDeep, location_or_start};

use crate::codec_name::is_vlen;
use std::alloc::Global;
use zarrs_metadata::{
    MetadataV3, PluginCreateError, VlenCodecConfiguration, VlenIndexDataType, VlenIndexLocation,
};

/// The configuration of a metadata of `vlen`. Errors: those of `vlen_configuration`.
fn read_vlen_configuration(
    alloc: Global,
    metadata: &MetadataV3,
) -> Result<VlenCodecConfiguration, PluginCreateError>
    ensures answer { Makes vlen_seen result (read_as_vlen (metadata_seen metadata.now)) }
{
    if !is_vlen(metadata.name()) {
        return Err(PluginCreateError::UnknownName);
    }
    let Some(configuration) = metadata.configuration() else {
        return Err(PluginCreateError::InvalidConfiguration);
    };
    VlenCodecConfiguration::from_configuration(alloc, configuration)
}

/// The configuration of a metadata of `vlen`, whose lists are less deep. Errors, the first that
/// holds, `OutOfMemory` aside: `UnknownName` for another name; those of
/// `VlenCodecConfiguration::from_configuration`, and `InvalidConfiguration` where there is none.
pub fn vlen_configuration(
    alloc: Global,
    metadata: &MetadataV3,
) -> Result<VlenCodecConfiguration, PluginCreateError>
    ensures answer { Makes vlen_seen result (read_as_vlen (metadata_seen metadata.now)) }
    ensures index_depth { IfOk result (λ c. LessDeep (vlen_seen c).index_codecs metadata.now) }
    ensures content_depth { IfOk result (λ c. LessDeep (vlen_seen c).data_codecs metadata.now) }
{
    read_vlen_configuration(alloc, metadata)
}

/// The metadata of the index chain.
pub fn index_codecs(configuration: &VlenCodecConfiguration) -> &[MetadataV3]
    ensures value { map metadata_seen result.now ≡ (vlen_seen configuration.now).index_codecs }
{
    match configuration {
        VlenCodecConfiguration::V0(configuration) => configuration.index_codecs.as_slice(),
        VlenCodecConfiguration::V0_1(configuration) => configuration.index_codecs.as_slice(),
    }
}

/// The metadata of the data chain.
pub fn data_codecs(configuration: &VlenCodecConfiguration) -> &[MetadataV3]
    ensures value { map metadata_seen result.now ≡ (vlen_seen configuration.now).data_codecs }
{
    match configuration {
        VlenCodecConfiguration::V0(configuration) => configuration.data_codecs.as_slice(),
        VlenCodecConfiguration::V0_1(configuration) => configuration.data_codecs.as_slice(),
    }
}

/// The type of the offsets.
pub fn index_data_type(configuration: &VlenCodecConfiguration) -> VlenIndexDataType
    ensures value { result ≡ (vlen_seen configuration.now).index_data_type }
{
    match configuration {
        VlenCodecConfiguration::V0(configuration) => configuration.index_data_type,
        VlenCodecConfiguration::V0_1(configuration) => configuration.index_data_type,
    }
}

/// Where the offsets stand; at the start where the configuration doesn't say it.
pub fn index_location(configuration: &VlenCodecConfiguration) -> VlenIndexLocation
    ensures value { result ≡ location_or_start (vlen_seen configuration.now).index_location }
{
    match configuration {
        VlenCodecConfiguration::V0(_) => VlenIndexLocation::Start,
        VlenCodecConfiguration::V0_1(configuration) => configuration.index_location,
    }
}
