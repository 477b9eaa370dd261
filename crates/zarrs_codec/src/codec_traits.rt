//! What all codecs can be asked.
ghost use Rattle.std.specs.Prelude.{◌≡◌, ℕ, List, Ok, Option, option_map};
ghost use Rattle.zarrs_chunk.specs.Answer.{Answers, memory};
ghost use Rattle.zarrs_metadata.specs.Data.{Members};
ghost use Rattle.zarrs_metadata.specs.MetadataV3.{configuration_seen};
ghost use Rattle.zarrs_metadata.specs.PluginCreateError.{Makes};
ghost use Rattle.zarrs_codec.specs.declared.capabilities.PartialDecoderCapability.{PartialDecoderCapability};
ghost use Rattle.zarrs_codec.specs.declared.capabilities.PartialEncoderCapability.{PartialEncoderCapability};

use crate::capabilities::{PartialDecoderCapability, PartialEncoderCapability};
use std::alloc::Global;
use zarrs_chunk::{ChunkShape, CodecError};
use zarrs_metadata::{Configuration, PluginCreateError};

/// A codec of any kind.
pub trait CodecTraits {
    // What it can do in part.
    ghost reads_in_part: { Self → PartialDecoderCapability };

    ghost writes_in_part: { Self → PartialEncoderCapability };

    // Its name in metadata and what is written of it there, where it has one.
    ghost named: { Self → Option (List ℕ) };

    ghost written: { Self → Option Members };

    /// The codec's name in Zarr v3 metadata, where it has one.
    fn name_v3(&self) -> Option<&'static str>
        ensures value { option_map (λ name. name.now) result ≡ named self.now };

    /// The codec's configuration in metadata, where it has one. Errors: `OutOfMemory`.
    fn configuration(&self, alloc: Global) -> Result<Option<Configuration>, PluginCreateError>
        ensures answer { Makes (option_map configuration_seen) result (Ok (written self.now)) };

    /// What it can read in part. No contract ties it to what coders do: it is the implementer's word.
    fn partial_decoder_capability(&self) -> PartialDecoderCapability
        ensures value { result ≡ reads_in_part self.now };

    /// What it can write in part. No contract ties it to what coders do: it is the implementer's word.
    fn partial_encoder_capability(&self) -> PartialEncoderCapability
        ensures value { result ≡ writes_in_part self.now };
}

/// A codec of chunks.
pub trait ArrayCodecTraits: CodecTraits {
    /// The shape of the parts of a chunk that are best decoded together: the whole chunk's. Errors:
    /// `OutOfMemory`.
    fn partial_decode_granularity(
        &self,
        _alloc: Global,
        decoded_shape: &ChunkShape,
    ) -> Result<ChunkShape, CodecError>
        ensures answer { Answers memory (λ shape. shape) result (Ok decoded_shape.now) }
    {
        decoded_shape.clone()
    }
}
