//! What array-to-bytes codecs say of themselves, as every codec does, and the metadata of a chain.
ghost use Rattle.std.specs.Prelude.{IfOk};
ghost use Rattle.zarrs_metadata.specs.MetadataV3.{metadatas_in};
ghost use Rattle.zarrs_chain.specs.ChainView.{plain_chain};
ghost use Rattle.zarrs_chain_meaning.specs.MadeAgain.{MakesChain};
ghost use Rattle.zarrs_chain_meaning.specs.WrittenMetadata.{chain_metadatas};
ghost use Rattle.zarrs_chain.specs.Making.{WritesList};

use crate::array_to_bytes_codec::{
    ArrayToBytesCodec, codec_name, codec_reads, codec_writes, codec_written,
};
use crate::codec_chain::{CodecChain, chain_has_ranges, chain_is_sound};
use crate::metadata::write_chain::chain_written;
use std::alloc::Global;
use zarrs_codec::{
    ArrayCodecTraits, BytesToBytesCodecTraits, CodecTraits, PartialDecoderCapability,
    PartialEncoderCapability,
};
use zarrs_metadata::{Configuration, MetadataV3, PluginCreateError};

impl<B: BytesToBytesCodecTraits> CodecChain<B> {
    /// The metadata of the chain's codecs, in the order in which they encode: of each its name and
    /// its configuration, which has to be understood; of a bytes-to-bytes codec its own.
    /// `from_metadata` makes an equal chain of them, with a maker that makes the bytes-to-bytes
    /// codecs again. Errors: `OutOfMemory`.
    pub fn create_metadatas(&self, alloc: Global) -> Result<Vec<MetadataV3>, PluginCreateError>
        ensures answer { WritesList result (chain_metadatas B.described (plain_chain self.now)) }
        ensures made_again { IfOk result (λ list.
            MakesChain B.described (plain_chain self.now) (metadatas_in list)) }
    {
        chain_is_sound(self);
        chain_has_ranges(self);
        chain_written(alloc, self)
    }
}

impl<B: BytesToBytesCodecTraits> CodecTraits for ArrayToBytesCodec<B> {
    ghost use Rattle.std.specs.Prelude.{Some};
    ghost use Rattle.zarrs_chain_meaning.specs.Chain.{codec_reads, codec_writes};
    ghost use Rattle.zarrs_chain.specs.ChainView.{plain_codec};
    ghost use Rattle.zarrs_chain_meaning.specs.WrittenMetadata.{codec_name, codec_configuration};

    ghost reads_in_part = { λ codec. codec_reads (plain_codec codec) };

    ghost writes_in_part = { λ codec. codec_writes (plain_codec codec) };

    ghost named = { λ codec. Some (codec_name (plain_codec codec)) };

    ghost written = { λ codec. Some (codec_configuration B.described (plain_codec codec)) };

    /// The codec's name in metadata.
    fn name_v3(&self) -> Option<&'static str> {
        Some(codec_name(self))
    }

    /// The codec's configuration. Errors: `OutOfMemory`.
    fn configuration(&self, alloc: Global) -> Result<Option<Configuration>, PluginCreateError> {
        Ok(Some(codec_written(alloc, self)?))
    }

    fn partial_decoder_capability(&self) -> PartialDecoderCapability {
        codec_reads(self)
    }

    fn partial_encoder_capability(&self) -> PartialEncoderCapability {
        codec_writes(self)
    }
}

impl<B: BytesToBytesCodecTraits> ArrayCodecTraits for ArrayToBytesCodec<B> {}
