//! The codec `packbits` made from its configuration and its metadata.
ghost use Rattle.std.specs.Prelude.{◌≡◌};
ghost use Rattle.zarrs_metadata.specs.MetadataV3.{metadata_seen};
ghost use Rattle.zarrs_metadata.specs.PackBitsConfiguration.{packbits_seen, padding_or_none};
ghost use Rattle.zarrs_packbits.specs.SettingsMetadata.{settings_of, settings_made};

use crate::packbits_codec::PackBitsCodec;
use zarrs_metadata::{
    MetadataV3, PackBitsCodecConfiguration, PackBitsPaddingEncoding, PluginCreateError,
};

fn choose_padding(padding: Option<PackBitsPaddingEncoding>) -> PackBitsPaddingEncoding
    ensures value { result ≡ padding_or_none padding }
{
    match padding {
        None => PackBitsPaddingEncoding::None,
        Some(padding) => padding,
    }
}

impl PackBitsCodec {
    /// The codec of a configuration; a padding byte that isn't given is none. Errors: `BitOrder`
    /// where both bits are given and the last is below the first.
    pub fn new_with_configuration(
        configuration: &PackBitsCodecConfiguration,
    ) -> Result<PackBitsCodec, PluginCreateError>
        ensures made { result ≡ settings_of (packbits_seen configuration.now) }
    {
        let PackBitsCodecConfiguration::V1(configuration) = configuration;
        PackBitsCodec::new(
            choose_padding(configuration.padding_encoding),
            configuration.first_bit,
            configuration.last_bit,
        )
    }

    /// The codec of a metadata, whose name is `packbits` (zarr-extensions codec `packbits`). A
    /// missing configuration is read as one without members. Errors, the first that holds:
    /// `UnknownName` for another name; those of `PackBitsCodecConfiguration::from_configuration`.
    pub fn create(metadata: &MetadataV3) -> Result<PackBitsCodec, PluginCreateError>
        ensures answer { result ≡ settings_made (metadata_seen metadata.now) }
    {
        if metadata.name() != "packbits" {
            return Err(PluginCreateError::UnknownName);
        }
        match metadata.configuration() {
            None => Ok(PackBitsCodec::default()),
            Some(configuration) => {
                let configuration = PackBitsCodecConfiguration::from_configuration(configuration)?;
                PackBitsCodec::new_with_configuration(&configuration)
            }
        }
    }
}
