//! The bytes-to-bytes codecs that a header names.
ghost use Rattle.std.specs.Prelude.{false};

use std::alloc::Global;
use zarrs_array_bytes::ArrayBytesRaw;
use zarrs_chunk::CodecError;
use zarrs_codec::{
    BytesRepresentation, BytesToBytesCodecTraits, PartialDecoderCapability,
    PartialEncoderCapability, SampleBytesCodec,
};
use zarrs_crc32c::Crc32cCodec;
use zarrs_metadata::{MetadataV3, PluginCreateError};

/// A bytes-to-bytes codec that a header names.
#[derive(Clone, Copy, Debug, PartialEq, Eq)]
pub enum KnownBytesCodec {
    /// The codec `crc32c`.
    Crc32c(Crc32cCodec),
    /// A sample codec, for tests.
    Sample(SampleBytesCodec),
}

impl BytesToBytesCodecTraits for KnownBytesCodec {
    ghost use Rattle.zarrs_json.specs.KnownBytesCodec.{known_codecs, known_metadata};
    ghost use Rattle.zarrs_json.specs.KnownLaws.{known_is_lawful};

    ghost functions = { known_codecs };

    ghost reads_in_part = { λ _. record { partial_read = false; partial_decode = false } };

    ghost writes_in_part = { λ _. record { partial_encode = false } };

    ghost described = { known_metadata };

    ghost lawful = { known_is_lawful };

    fn encode<'a>(
        &self,
        alloc: Global,
        bytes: ArrayBytesRaw<'a>,
    ) -> Result<ArrayBytesRaw<'a>, CodecError> {
        match self {
            KnownBytesCodec::Crc32c(codec) => codec.encode(alloc, bytes),
            KnownBytesCodec::Sample(codec) => codec.encode(alloc, bytes),
        }
    }

    fn decode<'a>(
        &self,
        alloc: Global,
        encoded: ArrayBytesRaw<'a>,
        decoded_representation: &BytesRepresentation,
    ) -> Result<ArrayBytesRaw<'a>, CodecError> {
        match self {
            KnownBytesCodec::Crc32c(codec) => codec.decode(alloc, encoded, decoded_representation),
            KnownBytesCodec::Sample(codec) => codec.decode(alloc, encoded, decoded_representation),
        }
    }

    fn encoded_representation(
        &self,
        decoded_representation: &BytesRepresentation,
    ) -> BytesRepresentation {
        match self {
            KnownBytesCodec::Crc32c(codec) => codec.encoded_representation(decoded_representation),
            KnownBytesCodec::Sample(codec) => codec.encoded_representation(decoded_representation),
        }
    }

    fn partial_decoder_capability(&self) -> PartialDecoderCapability {
        PartialDecoderCapability {
            partial_read: false,
            partial_decode: false,
        }
    }

    fn partial_encoder_capability(&self) -> PartialEncoderCapability {
        PartialEncoderCapability {
            partial_encode: false,
        }
    }

    fn metadata(&self, alloc: Global) -> Result<MetadataV3, PluginCreateError> {
        match self {
            KnownBytesCodec::Crc32c(codec) => codec.metadata(alloc),
            KnownBytesCodec::Sample(codec) => codec.metadata(alloc),
        }
    }
}
