//! What makes the codec of its metadata.
ghost use Rattle.std.specs.Prelude.{◌≡◌};

use crate::crc32c_codec::{CRC32C, Crc32cCodec};
use std::alloc::Global;
use zarrs_codec::BytesCodecMaker;
use zarrs_metadata::{MetadataV3, PluginCreateError};

/// What makes the codec `crc32c` by its name, with any configuration. It knows no other codec, and
/// rejects nothing.
#[derive(Clone, Copy, Debug, PartialEq, Eq)]
pub struct Crc32cMaker;

impl BytesCodecMaker<Crc32cCodec> for Crc32cMaker {
    ghost use Rattle.zarrs_crc32c.specs.Crc32cMetadata.{crc32c_made};
    ghost use Rattle.zarrs_metadata.specs.MetadataV3.{metadata_seen};
    ghost use Rattle.zarrs_metadata.specs.PluginCreateError.{Makes};

    ghost makes = { λ _ metadata. crc32c_made metadata };

    /// The codec of this name; none of another name. Nothing is allocated.
    fn make(
        &self,
        _alloc: Global,
        metadata: &MetadataV3,
    ) -> Result<Option<Crc32cCodec>, PluginCreateError>
        ensures answer { Makes (λ made. made) result (crc32c_made (metadata_seen metadata.now)) }
        ensures in_place { result ≡ crc32c_made (metadata_seen metadata.now) }
    {
        if metadata.name() == CRC32C {
            return Ok(Some(Crc32cCodec));
        }
        Ok(None)
    }
}
