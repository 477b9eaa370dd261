//! Codecs of the bytes behind an array-to-bytes codec.
ghost use Rattle.std.specs.Prelude.{◌≡◌, Ok};
ghost use Rattle.zarrs_metadata.specs.Metadata.{Metadata};
ghost use Rattle.zarrs_metadata.specs.MetadataV3.{metadata_seen};
ghost use Rattle.zarrs_metadata.specs.PluginCreateError.{Makes};
ghost use Rattle.zarrs_codec.specs.BytesToBytesCodec.{BytesCodecs, IsLawful};
ghost use Rattle.zarrs_codec.specs.declared.capabilities.PartialDecoderCapability.{PartialDecoderCapability};
ghost use Rattle.zarrs_codec.specs.declared.capabilities.PartialEncoderCapability.{PartialEncoderCapability};
ghost use Rattle.zarrs_array_bytes.specs.Held.{items_of};
ghost use Rattle.zarrs_chunk.specs.Answer.{Gives};

use crate::bytes_representation::BytesRepresentation;
use crate::capabilities::{PartialDecoderCapability, PartialEncoderCapability};
use std::alloc::Global;
use zarrs_array_bytes::ArrayBytesRaw;
use zarrs_chunk::CodecError;
use zarrs_metadata::{MetadataV3, PluginCreateError};

/// A codec of bytes to bytes, as a compressor is: the caller's own.
///
/// What it computes is a function of what it is given, and an implementer proves its laws: decoding
/// undoes encoding on bytes that are as many as their representation states; encoded bytes are as many
/// as the encoded representation states; and a greater size never gives a smaller one, none counting
/// as endless.
pub trait BytesToBytesCodecTraits {
    // What codecs of this type compute.
    ghost functions: { BytesCodecs Self };

    // What it can do in part.
    ghost reads_in_part: { Self → PartialDecoderCapability };

    ghost writes_in_part: { Self → PartialEncoderCapability };

    // The metadata that is written of it.
    ghost described: { Self → Metadata };

    /// The encoded bytes. Errors: `OutOfMemory`.
    fn encode<'a>(
        &self,
        alloc: Global,
        bytes: ArrayBytesRaw<'a>,
    ) -> Result<ArrayBytesRaw<'a>, CodecError>
        ensures answer { Gives items_of result
            (Ok (functions.encoded_bytes self.now (items_of bytes.entry))) };

    /// The bytes of this representation that encoded ones stand for. Errors: `BytesCodec` with a
    /// number of the codec's own, where they stand for none; `OutOfMemory`.
    fn decode<'a>(
        &self,
        alloc: Global,
        encoded: ArrayBytesRaw<'a>,
        decoded_representation: &BytesRepresentation,
    ) -> Result<ArrayBytesRaw<'a>, CodecError>
        ensures answer { Gives items_of result (functions.decoded_bytes self.now
            decoded_representation.now (items_of encoded.entry)) };

    /// How many encoded bytes there are, by how many bytes there are.
    fn encoded_representation(
        &self,
        decoded_representation: &BytesRepresentation,
    ) -> BytesRepresentation
        ensures value { result ≡ functions.representation self.now decoded_representation.now };

    /// What it can read in part. It only states where a partial decoder keeps its cache: the codec
    /// itself always decodes whole values.
    fn partial_decoder_capability(&self) -> PartialDecoderCapability
        ensures value { result ≡ reads_in_part self.now };

    /// What it can write in part. The codec itself always encodes whole values.
    fn partial_encoder_capability(&self) -> PartialEncoderCapability
        ensures value { result ≡ writes_in_part self.now };

    /// The codec's metadata: its name, its configuration where it has one, and whether a reader that
    /// can't make the codec has to fail. Errors: `OutOfMemory`.
    fn metadata(&self, alloc: Global) -> Result<MetadataV3, PluginCreateError>
        ensures answer { Makes metadata_seen result (Ok (described self.now)) };

    // The laws of what they compute.
    ghost lawful: { IsLawful functions };
}
