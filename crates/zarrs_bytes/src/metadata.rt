//! The codec `bytes` made from its metadata, and what it states of itself, as every codec does.
ghost use Rattle.std.specs.Prelude.{◌≡◌, Ok, Some, true};
ghost use Rattle.zarrs_metadata.specs.BytesConfiguration.{bytes_seen, write_bytes};
ghost use Rattle.zarrs_metadata.specs.CodecMetadata.{bytes_made, bytes_name, is_bytes_name};
ghost use Rattle.zarrs_metadata.specs.MetadataV3.{configuration_seen, metadata_seen, MakesConfiguration};
ghost use Rattle.zarrs_codec.specs.MadeAgain.{MadeAgain};

use crate::bytes_codec::BytesCodec;
use std::alloc::Global;
use zarrs_codec::{
    ArrayCodecTraits, CodecTraits, PartialDecoderCapability, PartialEncoderCapability,
};
use zarrs_metadata::{
    BytesCodecConfiguration, BytesCodecConfigurationV1, Configuration, MetadataV3,
    PluginCreateError,
};

/// Whether the codec is known by this name.
fn has_name(name: &str) -> bool
    ensures value { result ≡ is_bytes_name name.now }
{
    name == "bytes" || name == "endian"
}

impl BytesCodec {
    /// The codec of a configuration. It never fails.
    pub fn new_with_configuration(
        configuration: &BytesCodecConfiguration,
    ) -> Result<BytesCodec, PluginCreateError>
        ensures made { result ≡ Ok (bytes_seen configuration.now) }
    {
        let BytesCodecConfiguration::V1(configuration) = configuration;
        Ok(BytesCodec::new(configuration.endian))
    }

    /// The codec of a metadata, whose name is `bytes` or `endian` (Zarr v3 codec `bytes`). A missing
    /// configuration is read as one without members. Errors, the first that holds: `UnknownName`
    /// for another name; those of `BytesCodecConfiguration::from_configuration`.
    pub fn create(metadata: &MetadataV3) -> Result<BytesCodec, PluginCreateError>
        ensures answer { result ≡ bytes_made (metadata_seen metadata.now) }
    {
        if !has_name(metadata.name()) {
            return Err(PluginCreateError::UnknownName);
        }
        match metadata.configuration() {
            None => Ok(BytesCodec::new(None)),
            Some(configuration) => {
                let configuration = BytesCodecConfiguration::from_configuration(configuration)?;
                BytesCodec::new_with_configuration(&configuration)
            }
        }
    }
}

impl CodecTraits for BytesCodec {
    ghost reads_in_part = { λ _. record { partial_read = true; partial_decode = true } };

    ghost writes_in_part = { λ _. record { partial_encode = true } };

    ghost named = { λ _. Some bytes_name };

    ghost written = { λ endian. Some (write_bytes endian) };

    /// The codec's name in metadata, `bytes`.
    fn name_v3(&self) -> Option<&'static str> {
        Some("bytes")
    }

    /// The codec's configuration: `endian`, where it has a byte order. With its name it makes an
    /// equal codec. Errors: `OutOfMemory`.
    fn configuration(&self, alloc: Global) -> Result<Option<Configuration>, PluginCreateError>
        ensures answer { MakesConfiguration result (Ok (Some (write_bytes self.now))) }
        ensures made_again { MadeAgain configuration_seen result bytes_made bytes_name self.now }
    {
        let configuration = BytesCodecConfiguration::V1(BytesCodecConfigurationV1 {
            endian: self.endianness,
        });
        Ok(Some(configuration.to_configuration(alloc)?))
    }

    fn partial_decoder_capability(&self) -> PartialDecoderCapability {
        PartialDecoderCapability {
            partial_read: true,
            partial_decode: true,
        }
    }

    fn partial_encoder_capability(&self) -> PartialEncoderCapability {
        PartialEncoderCapability {
            partial_encode: true,
        }
    }
}

impl ArrayCodecTraits for BytesCodec {}
