//! The configuration of `optional`, read from metadata.
ghost use Rattle.std.specs.Prelude.{◌≡◌, IfOk, map};
ghost use Rattle.zarrs_metadata.specs.MetadataV3.{metadata_seen};
ghost use Rattle.zarrs_metadata.specs.OptionalConfiguration.{optional_seen};
ghost use Rattle.zarrs_metadata.specs.PluginCreateError.{Makes};
ghost use Rattle.zarrs_chain_meaning.specs.MadeChain.{read_as_optional, LessDeep};

use crate::codec_name::is_optional;
use std::alloc::Global;
use zarrs_metadata::{MetadataV3, OptionalCodecConfiguration, PluginCreateError};

/// The configuration of a metadata of `optional`. Errors: those of `optional_configuration`.
fn read_optional_configuration(
    alloc: Global,
    metadata: &MetadataV3,
) -> Result<OptionalCodecConfiguration, PluginCreateError>
    ensures answer { Makes optional_seen result (read_as_optional (metadata_seen metadata.now)) }
{
    if !is_optional(metadata.name()) {
        return Err(PluginCreateError::UnknownName);
    }
    let Some(configuration) = metadata.configuration() else {
        return Err(PluginCreateError::InvalidConfiguration);
    };
    OptionalCodecConfiguration::from_configuration(alloc, configuration)
}

/// The configuration of a metadata of `optional`, whose lists are less deep. Errors, the first that
/// holds, `OutOfMemory` aside: `UnknownName` for another name; those of
/// `OptionalCodecConfiguration::from_configuration`, and `InvalidConfiguration` where there is
/// none.
pub fn optional_configuration(
    alloc: Global,
    metadata: &MetadataV3,
) -> Result<OptionalCodecConfiguration, PluginCreateError>
    ensures answer { Makes optional_seen result (read_as_optional (metadata_seen metadata.now)) }
    ensures mask_depth { IfOk result (λ c. LessDeep (optional_seen c).mask_codecs metadata.now) }
    ensures content_depth { IfOk result (λ c. LessDeep (optional_seen c).data_codecs metadata.now) }
{
    read_optional_configuration(alloc, metadata)
}

/// The metadata of the mask chain.
pub fn mask_codecs(configuration: &OptionalCodecConfiguration) -> &[MetadataV3]
    ensures value { map metadata_seen result.now ≡ (optional_seen configuration.now).mask_codecs }
{
    let OptionalCodecConfiguration::V1(configuration) = configuration;
    configuration.mask_codecs.as_slice()
}

/// The metadata of the chain of the present elements.
pub fn present_codecs(configuration: &OptionalCodecConfiguration) -> &[MetadataV3]
    ensures value { map metadata_seen result.now ≡ (optional_seen configuration.now).data_codecs }
{
    let OptionalCodecConfiguration::V1(configuration) = configuration;
    configuration.data_codecs.as_slice()
}
