//! The codecs `vlen-utf8` and `vlen-bytes` made from their metadata.
ghost use Rattle.std.specs.Prelude.{◌≡◌};
ghost use Rattle.zarrs_metadata.specs.MetadataV3.{metadata_seen};
ghost use Rattle.zarrs_vlen_v2.specs.VlenV2Metadata.{vlen_v2_made, vlen_v2_named};

use crate::vlen_v2_codec::VlenV2Codec;
use zarrs_metadata::{MetadataV3, PluginCreateError, SqueezeCodecConfiguration};

impl VlenV2Codec {
    /// The codec of this name: `vlen-utf8` or `vlen-bytes`; `None` for another one.
    pub fn named(name: &str) -> Option<VlenV2Codec>
        ensures value { result ≡ vlen_v2_named name.now }
    {
        if name == "vlen-utf8" {
            return Some(VlenV2Codec::Utf8);
        }
        if name == "vlen-bytes" {
            return Some(VlenV2Codec::Bytes);
        }
        None
    }

    /// The codec of a metadata, whose name is `vlen-utf8` or `vlen-bytes` (zarr-extensions). No
    /// member of its configuration counts. Errors, the first that holds: `UnknownName` for another
    /// name; `InvalidConfiguration` where a number of the configuration is a float.
    pub fn create(metadata: &MetadataV3) -> Result<VlenV2Codec, PluginCreateError>
        ensures answer { result ≡ vlen_v2_made (metadata_seen metadata.now) }
    {
        let Some(codec) = VlenV2Codec::named(metadata.name()) else {
            return Err(PluginCreateError::UnknownName);
        };
        if let Some(configuration) = metadata.configuration() {
            SqueezeCodecConfiguration::from_configuration(configuration)?;
        }
        Ok(codec)
    }
}
