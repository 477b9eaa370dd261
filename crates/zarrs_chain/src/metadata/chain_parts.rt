//! Codecs that were made, and what they make together.
ghost use Rattle.std.specs.Prelude.{◌≡◌};
ghost use Rattle.zarrs_chunk.specs.Answer.{seen};
ghost use Rattle.zarrs_metadata.specs.PluginCreateError.{Makes};
ghost use Rattle.zarrs_chain.specs.ChainParts.{made_seen, parts_seen};
ghost use Rattle.zarrs_chain.specs.ChainView.{plain_chain, plain_codec};
ghost use Rattle.zarrs_chain_meaning.specs.MadeChain.{to_bytes_made, with_codec, nothing_gathered, finished};

use crate::array_to_bytes_codec::ArrayToBytesCodec;
use crate::codec_chain::CodecChain;
use std::alloc::Global;
use zarrs_array_to_array::ArrayToArrayCodec;
use zarrs_metadata::PluginCreateError;

/// A codec that a metadata makes.
#[derive(Drop)]
pub(crate) enum MadeCodec<B> {
    /// One of chunks to chunks.
    Array(ArrayToArrayCodec),
    /// One of chunks to bytes.
    ToBytes(ArrayToBytesCodec<B>),
    /// One of bytes to bytes.
    Outer(B),
}

/// The codecs that the metadata of a list make, as far as they were read.
#[derive(Drop)]
pub(crate) struct ChainParts<B> {
    array_to_array: Vec<ArrayToArrayCodec>,
    array_to_bytes: Option<ArrayToBytesCodec<B>>,
    bytes_to_bytes: Vec<B>,
}

impl<B: Drop> ChainParts<B> {
    /// No codec yet.
    pub(crate) fn new(alloc: Global) -> ChainParts<B>
        ensures made { parts_seen result ≡ nothing_gathered }
    {
        ChainParts {
            array_to_array: Vec::new(alloc),
            array_to_bytes: None,
            bytes_to_bytes: Vec::new(alloc),
        }
    }

    /// The codec joins those of its kind, behind them. Errors: `MultipleArrayToBytes` for a second
    /// one of chunks to bytes; `OutOfMemory`.
    pub(crate) fn add(&mut self, codec: MadeCodec<B>) -> Result<(), PluginCreateError>
        ensures answer { Makes (λ _. parts_seen self.new) result
            (with_codec (made_seen codec) (parts_seen self.old)) }
    {
        match codec {
            MadeCodec::Array(codec) => Ok(self.array_to_array.push(codec)?),
            MadeCodec::ToBytes(codec) => self.add_to_bytes(codec),
            MadeCodec::Outer(codec) => Ok(self.bytes_to_bytes.push(codec)?),
        }
    }

    fn add_to_bytes(&mut self, codec: ArrayToBytesCodec<B>) -> Result<(), PluginCreateError>
        ensures answer { seen (λ _. parts_seen self.new) result
            ≡ with_codec (to_bytes_made (plain_codec codec)) (parts_seen self.old) }
    {
        if self.array_to_bytes.is_some() {
            return Err(PluginCreateError::MultipleArrayToBytes);
        }
        self.array_to_bytes = Some(codec);
        Ok(())
    }

    /// The chain of the codecs. Errors: `MissingArrayToBytes` where none is of chunks to bytes.
    pub(crate) fn into_chain(self) -> Result<CodecChain<B>, PluginCreateError>
        ensures answer { seen plain_chain result ≡ finished (parts_seen self) }
    {
        let ChainParts {
            array_to_array,
            array_to_bytes,
            bytes_to_bytes,
        } = self;
        match array_to_bytes {
            None => Err(PluginCreateError::MissingArrayToBytes),
            Some(codec) => Ok(CodecChain::new(array_to_array, codec, bytes_to_bytes)),
        }
    }
}
