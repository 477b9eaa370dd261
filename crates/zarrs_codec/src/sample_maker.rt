//! What makes the sample codecs.
ghost use Rattle.std.specs.Prelude.{◌≡◌};

use crate::bytes_codec_maker::BytesCodecMaker;
use crate::sample_bytes_codec::SampleBytesCodec;
use std::alloc::Global;
use zarrs_metadata::{MetadataV3, PluginCreateError};

/// What makes the sample codecs of bytes, by their names, with any configuration. Nothing is rejected.
#[derive(Clone, Copy, Debug, PartialEq, Eq)]
pub struct SampleMaker;

impl BytesCodecMaker<SampleBytesCodec> for SampleMaker {
    ghost use Rattle.zarrs_codec.specs.SampleMetadata.{sample_made};
    ghost use Rattle.zarrs_metadata.specs.MetadataV3.{metadata_seen};
    ghost use Rattle.zarrs_metadata.specs.PluginCreateError.{Makes};

    ghost makes = { λ _ metadata. sample_made metadata };

    /// The sample codec of this name; none of another name. Nothing is allocated.
    fn make(
        &self,
        _alloc: Global,
        metadata: &MetadataV3,
    ) -> Result<Option<SampleBytesCodec>, PluginCreateError>
        ensures answer { Makes (λ made. made) result (sample_made (metadata_seen metadata.now)) }
        ensures in_place { result ≡ sample_made (metadata_seen metadata.now) }
    {
        match metadata.name() {
            "sample.reverse" => Ok(Some(SampleBytesCodec::Reverse)),
            "sample.length" => Ok(Some(SampleBytesCodec::Length)),
            _ => Ok(None),
        }
    }
}
