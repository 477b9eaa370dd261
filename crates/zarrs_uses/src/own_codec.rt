//! A bytes-to-bytes codec of the caller's own, in a chain with `bytes`.
ghost use Rattle.std.specs.Prelude.{◌≡◌, ◌∷◌, [], Ok, IfOk, false};
ghost use Rattle.zarrs_codecs.specs.Answer.{GivesItems};
ghost use Rattle.zarrs_codecs.specs.Element.{Chunk};
ghost use Rattle.zarrs_codecs.specs.Form.{form_of};
ghost use Rattle.zarrs_codecs.specs.Validity.{Holds};
ghost use Rattle.zarrs_codecs.specs.CodecMeaning.{bytes_codec};
ghost use Rattle.zarrs_codecs.specs.ChainView.{plain_chain};
ghost use Rattle.zarrs_uses.specs.ComesBack.{ComesBack};
ghost use Rattle.zarrs_uses.specs.ByteDelta.{deltas, sums};

use std::alloc::Global;
use std::borrow::CowSlice;
use zarrs_codecs::{
    ArrayBytes, ArrayBytesRaw, ArrayToBytesCodec, BytesCodec, BytesRepresentation,
    BytesToBytesCodecTraits, ChunkShape, CodecChain, CodecError, DataType, Endianness, FillValue,
    MetadataV3, PartialDecoderCapability, PartialEncoderCapability, PluginCreateError,
};

/// The codec `example.byte_delta`: each byte less the one before it, modulo 256. Where neighbours are
/// alike the encoded bytes are small, so that a compressor behind it finds more. As many bytes come
/// out as go in, and no bytes are rejected.
#[derive(Clone, Copy, Debug, PartialEq, Eq)]
pub struct ByteDeltaCodec;

/// Each byte less the one before it.
fn take_deltas(alloc: Global, bytes: &[u8]) -> Result<Vec<u8>, CodecError>
    ensures answer { GivesItems result (Ok (deltas 0 bytes.now)) }
{
    let mut encoded = Vec::with_capacity(alloc, bytes.len())?;
    let mut previous = 0;
    for byte in bytes {
        encoded.push(byte.wrapping_sub(previous))?;
        previous = *byte;
    }
    Ok(encoded)
}

/// The bytes whose deltas these are.
fn add_deltas(alloc: Global, encoded: &[u8]) -> Result<Vec<u8>, CodecError>
    ensures answer { GivesItems result (Ok (sums 0 encoded.now)) }
{
    let mut bytes = Vec::with_capacity(alloc, encoded.len())?;
    let mut previous: u8 = 0;
    for delta in encoded {
        previous = previous.wrapping_add(*delta);
        bytes.push(previous)?;
    }
    Ok(bytes)
}

impl BytesToBytesCodecTraits for ByteDeltaCodec {
    ghost use Rattle.zarrs_uses.specs.ByteDelta.{byte_delta_codecs};
    ghost use Rattle.zarrs_uses.specs.ByteDeltaLaws.{byte_delta_is_lawful};
    ghost use Rattle.zarrs_uses.specs.ByteDeltaMetadata.{byte_delta_metadata};

    ghost functions = { byte_delta_codecs };

    ghost reads_in_part = { λ _. record { partial_read = false; partial_decode = false } };

    ghost writes_in_part = { λ _. record { partial_encode = false } };

    ghost described = { λ _. byte_delta_metadata };

    ghost lawful = { byte_delta_is_lawful };

    fn encode<'a>(
        &self,
        alloc: Global,
        bytes: ArrayBytesRaw<'a>,
    ) -> Result<ArrayBytesRaw<'a>, CodecError> {
        Ok(CowSlice::Owned(take_deltas(alloc, bytes.as_slice())?))
    }

    fn decode<'a>(
        &self,
        alloc: Global,
        encoded: ArrayBytesRaw<'a>,
        _decoded_representation: &BytesRepresentation,
    ) -> Result<ArrayBytesRaw<'a>, CodecError> {
        Ok(CowSlice::Owned(add_deltas(alloc, encoded.as_slice())?))
    }

    fn encoded_representation(
        &self,
        decoded_representation: &BytesRepresentation,
    ) -> BytesRepresentation {
        *decoded_representation
    }

    fn partial_decoder_capability(&self) -> PartialDecoderCapability {
        PartialDecoderCapability {
            partial_read: false,
            partial_decode: false,
        }
    }

    fn partial_encoder_capability(&self) -> PartialEncoderCapability {
        PartialEncoderCapability {
            partial_encode: false,
        }
    }

    fn metadata(&self, alloc: Global) -> Result<MetadataV3, PluginCreateError> {
        MetadataV3::new(alloc, "example.byte_delta")
    }
}

/// Encodes a chunk and decodes it again: what comes back is what the chain keeps of the chunk. Errors:
/// those of encoding; `OutOfMemory`.
///
/// It rests on `encodes` and `decoded_again` of `CodecChain::encode`, and on `decodes` of
/// `CodecChain::decode`.
pub fn encode_and_decode<'a, B: BytesToBytesCodecTraits>(
    alloc: Global,
    chain: &CodecChain<B>,
    elements: ArrayBytes<'a>,
    shape: &ChunkShape,
    data_type: &DataType,
    fill_value: &FillValue,
) -> Result<ArrayBytes<'a>, CodecError>
    ensures back { ComesBack B.functions (plain_chain chain.now)
        (form_of shape.now data_type.now fill_value.now) elements.entry result }
{
    let value = chain.encode(alloc, elements, shape, data_type, fill_value)?;
    chain.decode(alloc, value, shape, data_type, fill_value)
}

/// The chain of `bytes` in this byte order and `example.byte_delta`.
#[tactic(auto, unfolding(zarrs_chain::specs::ChainView::plain_codec))]
pub fn delta_chain(
    alloc: Global,
    order: Option<Endianness>,
) -> Result<CodecChain<ByteDeltaCodec>, CodecError>
    // Wide: the three parts of a chain.
    ensures made { IfOk result (λ chain. plain_chain chain ≡ record {
      array_to_array = [];
      array_to_bytes = bytes_codec order;
      bytes_to_bytes = record {} ∷ [];
    }) }
{
    let mut deltas = Vec::with_capacity(alloc, 1)?;
    deltas.push(ByteDeltaCodec)?;
    let bytes = ArrayToBytesCodec::Bytes(BytesCodec::new(order));
    Ok(CodecChain::new(Vec::new(alloc), bytes, deltas))
}

/// Encodes a chunk by `bytes` and its bytes' deltas, and decodes it again: the chunk itself comes back.
///
/// It rests on `back` of `encode_and_decode`, and on what `bytes` keeps of an element: all.
pub fn encode_by_deltas<'a>(
    alloc: Global,
    order: Option<Endianness>,
    elements: ArrayBytes<'a>,
    shape: &ChunkShape,
    data_type: &DataType,
    fill_value: &FillValue,
) -> Result<ArrayBytes<'a>, CodecError>
    ensures same { IfOk result (λ decoded. (chunk : Chunk)
        × Holds data_type.now elements.entry chunk × Holds data_type.now decoded chunk) }
{
    let chain = delta_chain(alloc, order)?;
    encode_and_decode(alloc, &chain, elements, shape, data_type, fill_value)
}
