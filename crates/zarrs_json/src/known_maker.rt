//! What makes the bytes-to-bytes codecs that a header names.
use crate::known_bytes_codec::KnownBytesCodec;
use std::alloc::Global;
use zarrs_codec::{BytesCodecMaker, SampleMaker};
use zarrs_crc32c::Crc32cMaker;
use zarrs_metadata::{MetadataV3, PluginCreateError};

/// What makes the bytes-to-bytes codecs that a header names, by their names, with any configuration.
/// Nothing is rejected.
#[derive(Clone, Copy, Debug, PartialEq, Eq)]
pub enum KnownMaker {
    /// It makes `crc32c`, and knows no other codec: the library for C and Python has it.
    Shipped,
    /// It makes the sample codecs too: the line tool has it.
    WithSamples,
}

impl BytesCodecMaker<KnownBytesCodec> for KnownMaker {
    ghost use Rattle.zarrs_json.specs.KnownMaker.{known_made};

    ghost makes = { known_made };

    fn make(
        &self,
        alloc: Global,
        metadata: &MetadataV3,
    ) -> Result<Option<KnownBytesCodec>, PluginCreateError> {
        if let Some(codec) = Crc32cMaker.make(alloc, metadata)? {
            return Ok(Some(KnownBytesCodec::Crc32c(codec)));
        }
        match self {
            KnownMaker::Shipped => Ok(None),
            KnownMaker::WithSamples => match SampleMaker.make(alloc, metadata)? {
                Some(codec) => Ok(Some(KnownBytesCodec::Sample(codec))),
                None => Ok(None),
            },
        }
    }
}
