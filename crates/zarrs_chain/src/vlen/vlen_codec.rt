ghost use Rattle.zarrs_chunk.specs.Answer.{Answers, memory, is_fault};
ghost use Rattle.zarrs_array_bytes.specs.Tight.{IsTight};
ghost use Rattle.zarrs_array_bytes.specs.Held.{items_of};
ghost use Rattle.std.specs.Prelude.{◌≡◌, [], Ok, Some, None, IfOk, true, false, option_map};
ghost use Rattle.zarrs_data_type.specs.declared.endianness.Endianness.TheVariants.{Little};
ghost use Rattle.zarrs_metadata.specs.MetadataV3.{Writes};
ghost use Rattle.zarrs_data_type.specs.Form.{form_of};
ghost use Rattle.zarrs_codec.specs.Grammar.{Encodes, Decodes};
ghost use Rattle.zarrs_chain.specs.ChainGrammar.{codec_grammar};
ghost use Rattle.zarrs_chain.specs.ChainView.{plain_chain, plain_vlen, vlen_of, plain_codec};
ghost use Rattle.zarrs_chain.specs.vlen.DefaultVlen.{bytes_chain};
ghost use Rattle.zarrs_chain_meaning.specs.CallAnswers.{GivesTakenChunk, GivesRepresentation, codec_represented};
ghost use Rattle.zarrs_chain_meaning.specs.vlen.VlenSettings.{is_at_end};
ghost use Rattle.zarrs_chain_meaning.specs.CodecMeaning.{vlen_codec_of, with_location, HasMappings};
ghost use Rattle.zarrs_chain_meaning.specs.vlen.Vlen.{vlen_representation as vlen_representation_of};
ghost use Rattle.zarrs_chain_meaning.specs.MadeAgain.{HasRanges};
ghost use Rattle.zarrs_chain_meaning.specs.vlen.PlainVlen.{plain_form, plain_form_of};
ghost use Rattle.zarrs_chain_meaning.specs.WrittenMetadata.{codec_configuration};
ghost use Rattle.zarrs_chain.specs.vlen.VlenCalls.{VlenRepresents, Says};
ghost use Rattle.zarrs_chain.specs.FormView.{lent_form};

use crate::array_to_bytes_codec::ArrayToBytesCodec;
use crate::codec_chain::{CodecChain, chain_has_ranges, chain_is_sound};
use crate::form::Form;
use crate::metadata::write_chain::chain_written;
use crate::vlen::plain_form::{form_of_parts, lone_bytes};
use crate::vlen::vlen_decode::vlen_decode;
use crate::vlen::vlen_encode::vlen_encode;
use std::alloc::Global;
use zarrs_array_bytes::{ArrayBytes, ArrayBytesRaw};
use zarrs_bytes::BytesCodec;
use zarrs_chain_meaning::codec_name::VLEN;
use zarrs_chain_meaning::vlen::plain_vlen::PlainVlen;
use zarrs_chunk::{ChunkShape, CodecError};
use zarrs_codec::{BytesRepresentation, BytesToBytesCodecTraits};
use zarrs_data_type::{DataType, FillValue};
use zarrs_metadata::{
    Configuration, PluginCreateError, VlenCodecConfiguration, VlenCodecConfigurationV0_1,
    VlenIndexDataType, VlenIndexLocation,
};

/// Elements of any length: where each begins, through one chain, and their bytes, through another
/// (codec.zarrs.dev codec `zarrs.vlen`).
///
/// The value has three parts: the length of the index part as 8 bytes, the lowest first, the index
/// part and the data part; where the index location is `end`, the data part, the index part and the
/// length. The index is a row of one offset more than there are elements; the data are a row of the
/// elements' bytes, in order.
#[cycle(chain)]
#[derive(Debug, Drop)]
pub struct VlenCodec<B> {
    pub(crate) index_codecs: Box<CodecChain<B>>,
    pub(crate) data_codecs: Box<CodecChain<B>>,
    pub(crate) index_data_type: VlenIndexDataType,
    pub(crate) index_location: VlenIndexLocation,
}

impl<B> VlenCodec<B> {
    /// The codec with these chains for the offsets and for the bytes, offsets of this type, and the
    /// index at this place.
    #[tactic(auto, using(crate::specs::ChainView::plain_vlen_made))]
    pub fn new(
        index_codecs: Box<CodecChain<B>>,
        data_codecs: Box<CodecChain<B>>,
        index_data_type: VlenIndexDataType,
        index_location: VlenIndexLocation,
    ) -> VlenCodec<B>
        ensures made { plain_vlen result
            ≡ vlen_of index_codecs.value data_codecs.value index_data_type index_location }
    {
        VlenCodec {
            index_codecs,
            data_codecs,
            index_data_type,
            index_location,
        }
    }

    /// The same codec, with the index at this place.
    #[tactic(auto, using(crate::specs::ChainView::plain_vlen_at, crate::specs::ChainView::plain_vlen_made))]
    pub fn with_index_location(self, index_location: VlenIndexLocation) -> VlenCodec<B>
        ensures made { plain_vlen result
            ≡ with_location (is_at_end index_location) (plain_vlen self) }
    {
        let VlenCodec {
            index_codecs,
            data_codecs,
            index_data_type,
            index_location: _,
        } = self;
        VlenCodec::new(index_codecs, data_codecs, index_data_type, index_location)
    }

    /// What a read in part goes by where the codec is plain: its index chain is `bytes` with a byte
    /// order, and its data chain is `bytes`, both alone. `None` where it isn't.
    #[tactic(auto, using(crate::specs::ChainView::plain_vlen_at))]
    pub fn plain_form(&self) -> Option<PlainVlen>
        ensures form { option_map plain_form result ≡ plain_form_of (plain_vlen self.now) }
    {
        form_of_parts(
            lone_bytes(&self.index_codecs),
            lone_bytes(&self.data_codecs),
            self.index_data_type,
            self.index_location,
        )
    }
}

/// The codec `bytes` alone, in a box. Errors: `OutOfMemory`.
#[tactic(auto, unfolding(crate::specs::ChainView::plain_codec))]
fn boxed_bytes<B: Drop>(alloc: Global, codec: BytesCodec) -> Result<Box<CodecChain<B>>, CodecError>
    ensures made { Answers memory (λ b. plain_chain b.value) result (Ok (bytes_chain codec)) }
{
    let codec = ArrayToBytesCodec::Bytes(codec);
    let chain = CodecChain::new(Vec::new(alloc), codec, Vec::new(alloc));
    Ok(Box::new(alloc, chain)?)
}

impl<B: Drop> VlenCodec<B> {
    /// The codec where nothing else is asked for: offsets of 64 bits, the lowest byte first, and
    /// the index at the start; the elements' bytes as they are. Both chains are `bytes` alone, the
    /// data chain without a byte order. Errors: `OutOfMemory`.
    pub fn new_default(alloc: Global) -> Result<VlenCodec<B>, CodecError>
        ensures made { Answers memory plain_vlen result
            (Ok (vlen_codec_of (bytes_chain (Some Little)) (bytes_chain None) true false)) }
    {
        let index_codecs = boxed_bytes(alloc, BytesCodec::little())?;
        let data_codecs = boxed_bytes(alloc, BytesCodec::new(None))?;
        Ok(VlenCodec::new(
            index_codecs,
            data_codecs,
            VlenIndexDataType::UInt64,
            VlenIndexLocation::Start,
        ))
    }
}

/// The array-to-array codecs of the chains inside hold to what their types do.
#[cycle(sound)]
#[tactic(auto, unfolding(zarrs_chain_meaning::specs::CodecMeaning::meaning), using(crate::specs::ChainView::plain_vlen_at))]
pub fn vlen_is_sound<B>(codec: &VlenCodec<B>)
    ensures mappings { HasMappings (plain_vlen codec.now) }
{
    chain_is_sound(&codec.index_codecs);
    chain_is_sound(&codec.data_codecs);
}

/// The bits that the chains inside keep are ranges.
#[cycle(ranges)]
#[tactic(auto, using(crate::specs::ChainView::plain_vlen_at))]
pub(crate) fn vlen_has_ranges<B>(codec: &VlenCodec<B>)
    ensures ranges { HasRanges (plain_vlen codec.now) }
{
    chain_has_ranges(&codec.index_codecs);
    chain_has_ranges(&codec.data_codecs);
}

/// The configuration that is written of the codec. Errors: `OutOfMemory`.
#[cycle(written)]
#[tactic(auto, using(crate::specs::ChainView::plain_vlen_at, crate::proofs::WrittenAt::offset_type_again, crate::proofs::WrittenAt::index_place_again))]
pub(crate) fn vlen_written<B: BytesToBytesCodecTraits>(
    alloc: Global,
    codec: &VlenCodec<B>,
) -> Result<Configuration, PluginCreateError>
    ensures answer { Writes result (codec_configuration B.described (plain_vlen codec.now)) }
{
    let index_codecs = chain_written(alloc, &codec.index_codecs)?;
    let data_codecs = chain_written(alloc, &codec.data_codecs)?;
    let configuration = VlenCodecConfiguration::V0_1(VlenCodecConfigurationV0_1 {
        index_codecs,
        data_codecs,
        index_data_type: codec.index_data_type,
        index_location: codec.index_location,
    });
    configuration.to_configuration(alloc)
}

/// How many bytes the value has: any number. Errors: `UnsupportedDataType` where the elements
/// aren't of any length; `Overflow` where 64 bits don't count them.
pub(crate) fn vlen_representation(
    shape: &ChunkShape,
    data_type: &DataType,
) -> Result<BytesRepresentation, CodecError>
    ensures answer { result ≡ vlen_representation_of shape.now data_type.now [] }
    ensures no_fault { is_fault result ≡ false }
{
    if data_type.is_optional() || data_type.fixed_size().is_some() {
        return Err(CodecError::UnsupportedDataType(VLEN));
    }
    shape.num_elements()?;
    Ok(BytesRepresentation::UnboundedSize)
}

/// How many bytes the value has. Errors: those of `vlen_representation`.
#[tactic(auto, using(crate::proofs::CodecSteps::vlen_measured, crate::proofs::CodecSteps::vlen_measured_exactly))]
fn vlen_measure<B: BytesToBytesCodecTraits>(
    codec: &VlenCodec<B>,
    form: Form<'_>,
) -> Result<BytesRepresentation, CodecError>
    ensures answer { GivesRepresentation B.functions (plain_vlen codec.now) (lent_form form.entry)
        result }
    ensures in_place { result
        ≡ codec_represented B.functions (plain_vlen codec.now) (lent_form form.entry) }
{
    vlen_representation(form.shape, form.data_type)
}

/// The chunk that a value stands for, where the codec takes such chunks. Errors: those of
/// `VlenCodec::decode`.
fn vlen_taken_decode<'a, B: BytesToBytesCodecTraits>(
    alloc: Global,
    codec: &VlenCodec<B>,
    value: ArrayBytesRaw<'a>,
    form: Form<'_>,
) -> Result<ArrayBytes<'a>, CodecError>
    ensures exact { GivesTakenChunk B.functions (plain_vlen codec.now)
        (lent_form form.entry) (items_of value.entry) result }
    ensures tight { IfOk result (IsTight form.entry.data_type.now) }
{
    vlen_measure(codec, form)?;
    vlen_decode(
        alloc,
        codec,
        value,
        form.shape,
        form.data_type,
        form.fill_value,
    )
}

impl<B: BytesToBytesCodecTraits> VlenCodec<B> {
    /// How many bytes the value of such a chunk has: any number. The chains inside aren't asked,
    /// and no memory is taken. Errors, the first that holds: `UnsupportedDataType` where the
    /// elements aren't of any length; `Overflow` where 64 bits don't count them.
    pub fn encoded_representation(
        &self,
        shape: &ChunkShape,
        data_type: &DataType,
        fill_value: &FillValue,
    ) -> Result<BytesRepresentation, CodecError>
        ensures answer { VlenRepresents B.functions self.now shape.now data_type.now fill_value.now result }
        ensures in_place { Says B.functions self.now shape.now data_type.now fill_value.now result }
    {
        let form = Form {
            shape,
            data_type,
            fill_value,
        };
        vlen_measure(self, form)
    }

    /// The value that is written for the chunk that `elements` hold. Errors, the first that holds,
    /// `OutOfMemory` aside: those of `encoded_representation`; those of `ArrayBytes::validate`;
    /// `OffsetTooLarge` where 32 bits don't hold an offset that is to have so many; those of the
    /// index chain at a row of one offset more than elements; `OffsetNotKept` where it would change
    /// an offset; those of the data chain at the row of the elements' bytes.
    pub fn encode<'a>(
        &self,
        alloc: Global,
        elements: ArrayBytes<'a>,
        shape: &ChunkShape,
        data_type: &DataType,
        fill_value: &FillValue,
    ) -> Result<ArrayBytesRaw<'a>, CodecError>
        ensures encodes { Encodes (codec_grammar B.functions (plain_vlen self.now))
            (form_of shape.now data_type.now fill_value.now) elements.entry result }
    {
        vlen_is_sound(self);
        shape.as_slice();
        let form = Form {
            shape,
            data_type,
            fill_value,
        };
        vlen_encode(alloc, self, elements, form)
    }

    /// The chunk that a value stands for. Errors, the first that holds, `OutOfMemory` aside: those
    /// of `encoded_representation`; `InvalidBytesLength` where there are fewer than 8 bytes;
    /// `IndexLength` where the index is longer than what is left; `Overflow` where 64 bits don't
    /// count the offsets; those of the index chain; `InvalidOffsets` where an offset is less than
    /// the one before; those of the data chain at a row of as many bytes as the last offset says.
    ///
    /// The container's offsets begin at 0, wherever those of the value begin, and its bytes are those
    /// of the elements alone.
    pub fn decode<'a>(
        &self,
        alloc: Global,
        value: ArrayBytesRaw<'a>,
        shape: &ChunkShape,
        data_type: &DataType,
        fill_value: &FillValue,
    ) -> Result<ArrayBytes<'a>, CodecError>
        ensures decodes { Decodes (codec_grammar B.functions (plain_vlen self.now))
            (form_of shape.now data_type.now fill_value.now) (items_of value.entry) result }
        ensures tight { IfOk result (IsTight data_type.now) }
    {
        vlen_is_sound(self);
        shape.as_slice();
        let form = Form {
            shape,
            data_type,
            fill_value,
        };
        vlen_taken_decode(alloc, self, value, form)
    }
}
