ghost use Rattle.std.specs.List.{list_all};
ghost use Rattle.std.specs.Prelude.{◌≡◌, Ok, IfOk, None, All, map};
ghost use Rattle.zarrs_array_bytes.specs.Tight.{IsTight};
ghost use Rattle.zarrs_array_bytes.specs.Held.{items_of};
ghost use Rattle.zarrs_data_type.specs.Form.{form_of};
ghost use Rattle.zarrs_codec.specs.Grammar.{Encodes, Decodes};
ghost use Rattle.zarrs_chain.specs.ChainGrammar.{chain_grammar};
ghost use Rattle.zarrs_array_to_array.specs.ArrayToArrayCodec.{IsMapping};
ghost use Rattle.zarrs_array_to_array.specs.Mapping.{mapping_of};
ghost use Rattle.zarrs_chain_meaning.specs.Chain.{outer_reads as outer_reads_of};
ghost use Rattle.zarrs_chain.specs.ChainView.{plain_chain, plain_codec, chain_of};
ghost use Rattle.zarrs_bytes.specs.GivenBytes.{HoldsGiven, IsGiven};
ghost use Rattle.zarrs_chain_meaning.specs.KeptBytes.{KeepsBytes};
ghost use Rattle.zarrs_chain_meaning.specs.Laws.{IsChainOfMappings};
ghost use Rattle.zarrs_chain_meaning.specs.MadeAgain.{HasRanges};
ghost use Rattle.zarrs_chain.specs.ChainCalls.{ChainRepresents};
ghost use Rattle.zarrs_chain.specs.EncodedAgain.{EncodedStands};

use crate::array_to_bytes_codec::{
    ArrayToBytesCodec, codec_has_ranges, codec_is_sound, codec_reads, codec_writes,
};
use crate::decode::chain_decode;
use crate::encode::chain_encode;
use crate::form::Form;
use crate::representation::chain_representation;
use std::alloc::Global;
use zarrs_array_bytes::{ArrayBytes, ArrayBytesRaw};
use zarrs_array_to_array::ArrayToArrayCodec;
use zarrs_chain_meaning::machine_bytes::elements_are_bytes;
use zarrs_chunk::{ChunkShape, CodecError};
use zarrs_codec::{
    ArrayCodecTraits, BytesRepresentation, BytesToBytesCodecTraits, CodecTraits,
    PartialDecoderCapability, PartialEncoderCapability,
};
use zarrs_data_type::{DataType, FillValue};
use zarrs_metadata::{Configuration, PluginCreateError};

/// A chain of codecs: codecs of chunks to chunks, one of chunks to bytes, and the caller's codecs
/// of bytes to bytes, each list in the order in which they encode (Zarr v3 core, array metadata
/// `codecs`).
#[cycle(chain)]
#[derive(Debug, Drop)]
pub struct CodecChain<B> {
    pub(crate) array_to_array: Vec<ArrayToArrayCodec>,
    pub(crate) array_to_bytes: ArrayToBytesCodec<B>,
    pub(crate) bytes_to_bytes: Vec<B>,
}

impl<B> CodecChain<B> {
    /// The chain of these codecs, each list in the order in which they encode.
    pub fn new(
        array_to_array: Vec<ArrayToArrayCodec>,
        array_to_bytes: ArrayToBytesCodec<B>,
        bytes_to_bytes: Vec<B>,
    ) -> CodecChain<B>
        ensures made { plain_chain result ≡ chain_of array_to_array array_to_bytes bytes_to_bytes }
    {
        CodecChain {
            array_to_array,
            array_to_bytes,
            bytes_to_bytes,
        }
    }

    /// The codecs of chunks to chunks.
    pub fn array_to_array_codecs(&self) -> &[ArrayToArrayCodec]
        ensures value { map mapping_of result.now ≡ (plain_chain self.now).array_to_array }
    {
        &self.array_to_array
    }

    /// The codec of chunks to bytes.
    pub fn array_to_bytes_codec(&self) -> &ArrayToBytesCodec<B>
        ensures value { plain_codec result.now ≡ (plain_chain self.now).array_to_bytes }
    {
        &self.array_to_bytes
    }

    /// The codecs of bytes to bytes.
    pub fn bytes_to_bytes_codecs(&self) -> &[B]
        ensures value { result.now ≡ (plain_chain self.now).bytes_to_bytes }
    {
        &self.bytes_to_bytes
    }
}

/// What the array-to-array codecs are made of holds.
fn arrays_are_sound(codecs: &[ArrayToArrayCodec])
    ensures mappings { All IsMapping (map mapping_of codecs.now) }
{
    match codecs {
        [] => {}
        [first, rest @ ..] => {
            first.is_sound();
            arrays_are_sound(rest)
        }
    }
}

/// What the array-to-array codecs of the chain, and of those inside it, are made of holds. The call
/// does nothing; its contract is for proofs.
#[cycle(sound)]
pub fn chain_is_sound<B>(chain: &CodecChain<B>)
    ensures mappings { IsChainOfMappings (plain_chain chain.now) }
{
    arrays_are_sound(&chain.array_to_array);
    codec_is_sound(&chain.array_to_bytes);
}

/// The bits that `packbits` keeps, in the chain and in those inside it, are ranges.
#[cycle(ranges)]
pub(crate) fn chain_has_ranges<B>(chain: &CodecChain<B>)
    ensures ranges { HasRanges (plain_chain chain.now).array_to_bytes }
{
    codec_has_ranges(&chain.array_to_bytes);
}

impl<B: BytesToBytesCodecTraits> CodecChain<B> {
    /// How many bytes the value of such a chunk has. Errors, the first that holds, `OutOfMemory`
    /// aside: those of the array-to-array codecs in order, of each its type and then its shape;
    /// those of the array-to-bytes codec.
    pub fn encoded_representation(
        &self,
        alloc: Global,
        shape: &ChunkShape,
        data_type: &DataType,
        fill_value: &FillValue,
    ) -> Result<BytesRepresentation, CodecError>
        ensures answer { ChainRepresents B.functions self.now
            shape.now data_type.now fill_value.now result }
    {
        let form = Form {
            shape,
            data_type,
            fill_value,
        };
        chain_representation(alloc, self, form)
    }

    /// The value that is written for the chunk that `elements` hold. Errors, the first that holds,
    /// `OutOfMemory` aside: those of `encoded_representation`; those of `ArrayBytes::validate`;
    /// then of the array-to-bytes codec, where it is
    ///
    /// - `vlen`: `OffsetTooLarge` where 32 bits don't hold an offset that is to have so many; those
    ///   of the index chain; `OffsetNotKept` where it would change an offset; those of the data
    ///   chain;
    /// - `optional`: those of the mask chain; those of the data chain at the row of present
    ///   elements;
    /// - `sharding_indexed`: those of the inner chain, of the inner chunks that aren't left out, in
    ///   order; those of the index chain; `OffsetNotKept` where it would change a number;
    /// - `bytes` or `packbits`: none.
    ///
    /// A chain inside is asked as this one is, `encoded_representation` first, and not at all about
    /// a row of no elements. Each codec gets what the one before made, owned bytes as owned ones.
    /// Where none changes a byte or its place, which is so of `reshape`, `squeeze` and `bytes` that
    /// turns nothing round, the answer is what was given, owned bytes owned and borrowed ones
    /// borrowed.
    ///
    /// The value stands for the chunk's normal form: for what the chain keeps of it.
    pub fn encode<'a>(
        &self,
        alloc: Global,
        elements: ArrayBytes<'a>,
        shape: &ChunkShape,
        data_type: &DataType,
        fill_value: &FillValue,
    ) -> Result<ArrayBytesRaw<'a>, CodecError>
        ensures encodes { Encodes (chain_grammar B.functions (plain_chain self.now))
            (form_of shape.now data_type.now fill_value.now) elements.entry result }
        ensures decoded_again { EncodedStands B.functions (plain_chain self.now)
            (form_of shape.now data_type.now fill_value.now) elements.entry result }
        ensures kept { KeepsBytes (plain_chain self.now) data_type.now
            → IsGiven elements.entry result }
    {
        chain_is_sound(self);
        elements_are_bytes(&elements);
        shape.as_slice();
        let form = Form {
            shape,
            data_type,
            fill_value,
        };
        chain_encode(alloc, self, elements, form)
    }

    /// The chunk that a value stands for. Errors, the first that holds, `OutOfMemory` aside: those
    /// of `encoded_representation`; `BytesCodec` of the last bytes-to-bytes codec, then of the one
    /// before; then of the array-to-bytes codec, about what stands below them, where it is
    ///
    /// - `bytes`: `InvalidBytesLength` for another length;
    /// - `packbits`: `InvalidBytesLength`; `PaddingByte` where the padding byte isn't the number of
    ///   spare bits;
    /// - `vlen`: `InvalidBytesLength` for fewer than 8 bytes; `IndexLength` where the index is
    ///   longer than what is left; `Overflow` where 64 bits don't count the offsets; those of the
    ///   index chain; `InvalidOffsets` where an offset is less than the one before; those of the
    ///   data chain at as many bytes as the last offset says;
    /// - `optional`: `InvalidBytesLength` for fewer than 16 bytes; `HeaderOverflow` where 64 bits
    ///   don't count what the two lengths say; `InvalidBytesLength` for more bytes, or fewer; those
    ///   of the mask chain; `MaskValue` where a mask byte isn't 0 or 1; those of the data chain at
    ///   the row of present elements;
    /// - `sharding_indexed`: `InvalidBytesLength` for fewer bytes than the index has; those of the
    ///   index chain; then of each inner chunk that is stored, in order: `InvalidByteRange` where
    ///   its bytes end behind the value, and those of the inner chain.
    ///
    /// A chain inside is asked as this one is, `encoded_representation` first, and not at all about
    /// a row of no elements. Each codec gets what the one behind it made, owned bytes as owned
    /// ones; elements of `bytes` are moved as they are stored, and their bytes turned round last.
    /// Where none changes a byte or its place, as at `encode`, the answer holds what was given.
    ///
    /// The chunk alone fixes the container, at every depth and whatever the value has: offsets begin
    /// at 0, mask bytes are 0 or 1, and absent elements stand over blank ones.
    pub fn decode<'a>(
        &self,
        alloc: Global,
        value: ArrayBytesRaw<'a>,
        shape: &ChunkShape,
        data_type: &DataType,
        fill_value: &FillValue,
    ) -> Result<ArrayBytes<'a>, CodecError>
        ensures decodes { Decodes (chain_grammar B.functions (plain_chain self.now))
            (form_of shape.now data_type.now fill_value.now) (items_of value.entry) result }
        ensures tight { IfOk result (IsTight data_type.now) }
        ensures kept { KeepsBytes (plain_chain self.now) data_type.now
            → HoldsGiven value.entry result }
    {
        chain_is_sound(self);
        shape.as_slice();
        let form = Form {
            shape,
            data_type,
            fill_value,
        };
        chain_decode(alloc, self, value, form)
    }
}

/// What all bytes-to-bytes codecs read in part.
fn outer_reads<B: BytesToBytesCodecTraits>(codecs: &[B]) -> PartialDecoderCapability
    ensures value { result ≡ outer_reads_of B.reads_in_part codecs.now }
{
    match codecs {
        [] => PartialDecoderCapability {
            partial_read: true,
            partial_decode: true,
        },
        [first, rest @ ..] => {
            let one = first.partial_decoder_capability();
            let others = outer_reads(rest);
            PartialDecoderCapability {
                partial_read: one.partial_read && others.partial_read,
                partial_decode: one.partial_decode && others.partial_decode,
            }
        }
    }
}

/// Whether all bytes-to-bytes codecs write in part.
fn outer_writes<B: BytesToBytesCodecTraits>(codecs: &[B]) -> bool
    ensures value { result ≡ list_all (λ one. (B.writes_in_part one).partial_encode) codecs.now }
{
    match codecs {
        [] => true,
        [first, rest @ ..] => {
            first.partial_encoder_capability().partial_encode && outer_writes(rest)
        }
    }
}

impl<B: BytesToBytesCodecTraits> CodecTraits for CodecChain<B> {
    ghost use Rattle.zarrs_chain_meaning.specs.Chain.{chain_reads, chain_writes};
    ghost use Rattle.zarrs_chain.specs.ChainView.{plain_chain};

    ghost reads_in_part = { λ chain. chain_reads B.reads_in_part (plain_chain chain) };

    ghost writes_in_part = { λ chain. chain_writes B.writes_in_part (plain_chain chain) };

    ghost named = { λ _. None };

    ghost written = { λ _. None };

    /// None: a chain is no codec of metadata, but a list of them.
    fn name_v3(&self) -> Option<&'static str> {
        None
    }

    /// None, as the name. Nothing is rejected.
    fn configuration(&self, _alloc: Global) -> Result<Option<Configuration>, PluginCreateError>
        ensures none { result ≡ Ok None }
    {
        Ok(None)
    }

    fn partial_decoder_capability(&self) -> PartialDecoderCapability {
        let codec = codec_reads(&self.array_to_bytes);
        let outer = outer_reads(&self.bytes_to_bytes);
        PartialDecoderCapability {
            partial_read: outer.partial_read && codec.partial_read,
            partial_decode: outer.partial_decode && codec.partial_decode,
        }
    }

    fn partial_encoder_capability(&self) -> PartialEncoderCapability {
        let codec = codec_writes(&self.array_to_bytes);
        PartialEncoderCapability {
            partial_encode: outer_writes(&self.bytes_to_bytes) && codec.partial_encode,
        }
    }
}

impl<B: BytesToBytesCodecTraits> ArrayCodecTraits for CodecChain<B> {}
