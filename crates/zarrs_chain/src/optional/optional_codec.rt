ghost use Rattle.zarrs_chunk.specs.Answer.{Gives, checked_u64};
ghost use Rattle.zarrs_array_bytes.specs.Tight.{IsTight};
ghost use Rattle.zarrs_array_bytes.specs.Held.{items_of};
ghost use Rattle.std.specs.Prelude.{◌≡◌, [], ◌∷◌, length, Ok, IfOk};
ghost use Rattle.zarrs_chunk.specs.ChunkShape.{product};
ghost use Rattle.zarrs_data_type.specs.ElementType.{optional};
ghost use Rattle.zarrs_array_bytes.specs.Validity.{validity};
ghost use Rattle.zarrs_metadata.specs.MetadataV3.{Writes as IsWritten};
ghost use Rattle.zarrs_data_type.specs.Form.{form_of};
ghost use Rattle.zarrs_codec.specs.Grammar.{Encodes, Decodes};
ghost use Rattle.zarrs_chain.specs.ChainGrammar.{codec_grammar};
ghost use Rattle.zarrs_chain.specs.ChainView.{plain_chain, plain_optional, optional_of};
ghost use Rattle.zarrs_chain_meaning.specs.CallAnswers.{GivesCodecChunk, GivesTakenChunk, GivesPartValue, IsTaken, GivesRepresentation, GivesCodecValue};
ghost use Rattle.zarrs_chain_meaning.specs.CodecMeaning.{HasMappings, chain_value, chain_chunk};
ghost use Rattle.zarrs_chain_meaning.specs.Parts.{byte_elements};
ghost use Rattle.zarrs_chain_meaning.specs.optional.Optional.{flag_type, blank_fill as blank_fill_of};
ghost use Rattle.zarrs_chain_meaning.specs.MadeAgain.{HasRanges};
ghost use Rattle.zarrs_chain_meaning.specs.optional.OptionalParts.{optional_content, GivesPresent};
ghost use Rattle.zarrs_chain_meaning.specs.WrittenMetadata.{codec_configuration};
ghost use Rattle.zarrs_chain.specs.optional.OptionalCalls.{OptionalRepresents, HasMaskRoom};
ghost use Rattle.zarrs_chain.specs.FormView.{lent_form};

use crate::codec_chain::{CodecChain, chain_has_ranges, chain_is_sound};
use crate::decode::{chain_decode, part_decode};
use crate::encode::{chain_encode, check_elements, part_encode};
use crate::form::Form;
use crate::metadata::write_chain::chain_written;
use crate::optional::mask_room::has_room;
use crate::representation::chain_representation;
use std::alloc::Global;
use zarrs_array_bytes::{ArrayBytes, ArrayBytesRaw, count_present};
use zarrs_chain_meaning::optional::optional_parts::{
    blank_fill, both_representations, inner_type, join_parts, lent, masked_parts, split_value,
};
use zarrs_chunk::{ChunkShape, CodecError};
use zarrs_codec::{BytesRepresentation, BytesToBytesCodecTraits};
use zarrs_data_type::{DataType, FillValue};
use zarrs_metadata::{
    Configuration, OptionalCodecConfiguration, OptionalCodecConfigurationV1, PluginCreateError,
};

/// Optional elements: which ones are present, through one chain, and those that are, through another
/// (codec.zarrs.dev codec `zarrs.optional`).
///
/// The value has four parts: the lengths of the mask part and of the data part as 8 bytes each, the
/// lowest first; the mask part; the data part. The mask is a chunk of flags of the full shape, 1 for
/// present; the data are a row of the present elements, in order.
#[cycle(chain)]
#[derive(Debug, Drop)]
pub struct OptionalCodec<B> {
    mask_codecs: Box<CodecChain<B>>,
    pub(crate) data_codecs: Box<CodecChain<B>>,
}

impl<B> OptionalCodec<B> {
    /// The codec with these chains for the mask and for the present elements.
    #[tactic(auto, using(crate::specs::ChainView::plain_optional_made))]
    pub fn new(mask_codecs: Box<CodecChain<B>>, data_codecs: Box<CodecChain<B>>) -> OptionalCodec<B>
        ensures made { plain_optional result ≡ optional_of mask_codecs.value data_codecs.value }
    {
        OptionalCodec {
            mask_codecs,
            data_codecs,
        }
    }
}

/// The array-to-array codecs of the chains inside hold to what their types do.
#[cycle(sound)]
#[tactic(auto, unfolding(zarrs_chain_meaning::specs::CodecMeaning::meaning), using(crate::specs::ChainView::plain_optional_at))]
pub(crate) fn optional_is_sound<B>(codec: &OptionalCodec<B>)
    ensures mappings { HasMappings (plain_optional codec.now) }
{
    chain_is_sound(&codec.mask_codecs);
    chain_is_sound(&codec.data_codecs);
}

/// The bits that the chains inside keep are ranges.
#[cycle(ranges)]
#[tactic(auto, using(crate::specs::ChainView::plain_optional_at))]
pub(crate) fn optional_has_ranges<B>(codec: &OptionalCodec<B>)
    ensures ranges { HasRanges (plain_optional codec.now) }
{
    chain_has_ranges(&codec.mask_codecs);
    chain_has_ranges(&codec.data_codecs);
}

/// The configuration that is written of the codec. Errors: `OutOfMemory`.
#[cycle(written)]
#[tactic(auto, using(crate::specs::ChainView::plain_optional_at))]
pub(crate) fn optional_written<B: BytesToBytesCodecTraits>(
    alloc: Global,
    codec: &OptionalCodec<B>,
) -> Result<Configuration, PluginCreateError>
    ensures answer { IsWritten result (codec_configuration B.described (plain_optional codec.now)) }
{
    let mask_codecs = chain_written(alloc, &codec.mask_codecs)?;
    let data_codecs = chain_written(alloc, &codec.data_codecs)?;
    let configuration = OptionalCodecConfiguration::V1(OptionalCodecConfigurationV1 {
        mask_codecs,
        data_codecs,
    });
    configuration.to_configuration(alloc)
}

/// The length of such a chunk's value. Errors: those of `OptionalCodec::encoded_representation`.
#[cycle(representation)]
#[tactic(auto, using(crate::proofs::OptionalAt::representation_at))]
pub(crate) fn optional_representation<B: BytesToBytesCodecTraits>(
    alloc: Global,
    codec: &OptionalCodec<B>,
    form: Form<'_>,
) -> Result<BytesRepresentation, CodecError>
    ensures answer { GivesRepresentation B.functions (plain_optional codec.now)
        (lent_form form.entry) result }
{
    let Form {
        shape,
        data_type,
        fill_value,
    } = form;
    let inner = inner_type(data_type)?;
    if !fill_value.fits(data_type) {
        return Err(CodecError::InvalidFillValue);
    }
    shape.num_elements()?;
    let flag = DataType::bool();
    let zero = blank_fill(alloc, &flag)?;
    let mask_form = Form {
        shape,
        data_type: &flag,
        fill_value: &zero,
    };
    let mask = chain_representation(alloc, &codec.mask_codecs, mask_form)?;
    let blank = blank_fill(alloc, inner)?;
    let data_form = Form {
        shape,
        data_type: inner,
        fill_value: &blank,
    };
    let content = chain_representation(alloc, &codec.data_codecs, data_form)?;
    Ok(both_representations(&mask, &content))
}

/// What the chain writes of these mask bytes as a chunk of flags. Errors: those of `chain_encode`.
#[cycle(encode)]
#[tactic(auto, using(zarrs_chain_meaning::proofs::OptionalSteps::mask_answers))]
fn mask_encode<'a, B: BytesToBytesCodecTraits>(
    alloc: Global,
    chain: &CodecChain<B>,
    mask: ArrayBytesRaw<'a>,
    shape: &ChunkShape,
) -> Result<ArrayBytesRaw<'a>, CodecError>
    requires len { length (items_of mask) ≡ product shape.now }
    requires counted { checked_u64 (product shape.now) ≡ Ok (product shape.now) }
    ensures answer { Gives items_of result (chain_value B.functions (plain_chain chain.now)
        shape.now flag_type (0 ∷ []) (byte_elements (items_of mask.entry))) }
{
    let flag = DataType::bool();
    let zero = blank_fill(alloc, &flag)?;
    let form = Form {
        shape,
        data_type: &flag,
        fill_value: &zero,
    };
    chain_encode(alloc, chain, ArrayBytes::new_flen(mask), form)
}

/// What the chain writes of a row of so many present elements. Errors: those of `chain_encode`.
#[cycle(encode)]
fn present_encode<'a, B: BytesToBytesCodecTraits>(
    alloc: Global,
    chain: &CodecChain<B>,
    present: ArrayBytes<'a>,
    count: u64,
    data_type: &DataType,
) -> Result<ArrayBytesRaw<'a>, CodecError>
    ensures exact { GivesPartValue B.functions (plain_chain chain.now)
        count data_type.now (blank_fill_of data_type.now) present.entry result }
{
    let blank = blank_fill(alloc, data_type)?;
    part_encode(alloc, chain, present, count, data_type, &blank)
}

/// The value of a container of optional elements of this inner type, as many as the shape has.
/// Errors: those of the chains.
#[cycle(encode)]
#[tactic(auto, using(zarrs_chain_meaning::proofs::OptionalSteps::mask_long, zarrs_chain_meaning::proofs::OptionalSteps::never_unmasked, zarrs_chain_meaning::proofs::OptionalSteps::present_taken, crate::proofs::OptionalAt::content_at, crate::proofs::OptionalAt::written_at))]
fn content_encode<'a, B: BytesToBytesCodecTraits>(
    alloc: Global,
    codec: &OptionalCodec<B>,
    elements: ArrayBytes<'a>,
    shape: &ChunkShape,
    inner: &DataType,
) -> Result<ArrayBytesRaw<'a>, CodecError>
    requires valid { validity (optional inner.now) (product shape.now) elements ≡ Ok tt }
    requires counted { checked_u64 (product shape.now) ≡ Ok (product shape.now) }
    ensures answer { Gives items_of result (optional_content B.functions
        (plain_optional codec.now) shape.now inner.now elements.entry) }
{
    let (inside, mask, count) = masked_parts(elements)?;
    let present = inside.extract_present(alloc, lent(&mask), inner)?;
    let mask_part = mask_encode(alloc, &codec.mask_codecs, mask, shape)?;
    let data_part = present_encode(alloc, &codec.data_codecs, present, count, inner)?;
    join_parts(alloc, lent(&mask_part), lent(&data_part))
}

/// The value of the chunk that `held` holds, where the codec takes such chunks. Errors: those of
/// `OptionalCodec::encode` behind those of `encoded_representation`.
#[cycle(encode)]
#[tactic(auto, using(crate::proofs::OptionalAt::counted_at, crate::proofs::OptionalAt::inner_refused_at, crate::proofs::OptionalAt::inner_valid, crate::proofs::OptionalAt::value_at))]
pub(crate) fn optional_encode<'a, B: BytesToBytesCodecTraits>(
    alloc: Global,
    codec: &OptionalCodec<B>,
    held: ArrayBytes<'a>,
    form: Form<'_>,
) -> Result<ArrayBytesRaw<'a>, CodecError>
    requires taken { IsTaken B.functions (plain_optional codec.now) (lent_form form) }
    ensures answer { GivesCodecValue B.functions (plain_optional codec.now) (lent_form form.entry)
        held.entry result }
{
    let inner = inner_type(form.data_type)?;
    check_elements(&held, form.shape, form.data_type)?;
    content_encode(alloc, codec, held, form.shape, inner)
}

/// The value of the chunk that `held` holds. Errors: those of `OptionalCodec::encode`.
fn optional_taken_encode<'a, B: BytesToBytesCodecTraits>(
    alloc: Global,
    codec: &OptionalCodec<B>,
    held: ArrayBytes<'a>,
    form: Form<'_>,
) -> Result<ArrayBytesRaw<'a>, CodecError>
    ensures answer { GivesCodecValue B.functions (plain_optional codec.now) (lent_form form.entry)
        held.entry result }
{
    optional_representation(alloc, codec, form)?;
    optional_encode(alloc, codec, held, form)
}

/// The mask bytes of the chunk of flags that a part stands for. Errors: those of `chain_decode`.
#[cycle(decode)]
#[tactic(auto, using(zarrs_chain_meaning::proofs::OptionalFlags::flags_in_bytes, zarrs_chain_meaning::proofs::OptionalFlags::flags_are_fixed))]
fn mask_decode<'a, B: BytesToBytesCodecTraits>(
    alloc: Global,
    chain: &CodecChain<B>,
    part: ArrayBytesRaw<'a>,
    shape: &ChunkShape,
) -> Result<ArrayBytesRaw<'a>, CodecError>
    ensures answer { Gives (λ mask. byte_elements (items_of mask)) result (chain_chunk B.functions
        (plain_chain chain.now) shape.now flag_type (0 ∷ []) (items_of part.entry)) }
{
    let flag = DataType::bool();
    let zero = blank_fill(alloc, &flag)?;
    let form = Form {
        shape,
        data_type: &flag,
        fill_value: &zero,
    };
    chain_decode(alloc, chain, part, form)?.into_fixed()
}

/// The elements of this inner type that a part stands for, put back under the mask, with blank ones
/// under those that are absent. Errors, the first that holds, `OutOfMemory` aside: `MaskValue`
/// where a mask byte isn't 0 or 1; those of the chain.
#[cycle(decode)]
#[tactic(auto, using(zarrs_chain_meaning::proofs::OptionalSteps::mask_refused, zarrs_chain_meaning::proofs::OptionalSteps::present_opened, zarrs_chain_meaning::proofs::OptionalSteps::part_expanded))]
fn present_decode<'a, B: BytesToBytesCodecTraits>(
    alloc: Global,
    chain: &CodecChain<B>,
    mask: ArrayBytesRaw<'a>,
    part: ArrayBytesRaw<'a>,
    data_type: &DataType,
) -> Result<ArrayBytes<'a>, CodecError>
    requires room { HasMaskRoom data_type.now mask }
    ensures answer { GivesPresent B.functions (plain_chain chain.now)
        data_type.now (items_of mask.entry) (items_of part.entry) result }
    ensures tight { IfOk result (IsTight (optional data_type.now)) }
{
    let count = count_present(lent(&mask))?;
    let blank = blank_fill(alloc, data_type)?;
    let present = part_decode(alloc, chain, part, count, data_type, &blank)?;
    present.expand_present(alloc, mask, data_type)
}

/// The chunk that a value stands for, where the codec takes such chunks. Errors: those of
/// `OptionalCodec::decode` behind those of `encoded_representation`.
#[cycle(decode)]
#[tactic(auto, using(crate::proofs::OptionalAt::chunk_opened_at, crate::proofs::OptionalAt::chunk_at, crate::proofs::OptionalAt::tight_at))]
pub(crate) fn optional_decode<'a, B: BytesToBytesCodecTraits>(
    alloc: Global,
    codec: &OptionalCodec<B>,
    value: ArrayBytesRaw<'a>,
    form: Form<'_>,
) -> Result<ArrayBytes<'a>, CodecError>
    requires taken { IsTaken B.functions (plain_optional codec.now) (lent_form form) }
    ensures answer { GivesCodecChunk B.functions (plain_optional codec.now)
        (lent_form form.entry) (items_of value.entry) result }
    ensures tight { IfOk result (IsTight form.entry.data_type.now) }
{
    let inner = inner_type(form.data_type)?;
    let (mask_part, data_part) = split_value(alloc, value)?;
    let mask = mask_decode(alloc, &codec.mask_codecs, mask_part, form.shape)?;
    has_room(codec, form, inner, &mask);
    present_decode(alloc, &codec.data_codecs, mask, data_part, inner)
}

/// The chunk that a value stands for. Errors: those of `OptionalCodec::decode`.
fn optional_taken_decode<'a, B: BytesToBytesCodecTraits>(
    alloc: Global,
    codec: &OptionalCodec<B>,
    value: ArrayBytesRaw<'a>,
    form: Form<'_>,
) -> Result<ArrayBytes<'a>, CodecError>
    ensures exact { GivesTakenChunk B.functions (plain_optional codec.now)
        (lent_form form.entry) (items_of value.entry) result }
    ensures tight { IfOk result (IsTight form.entry.data_type.now) }
{
    optional_representation(alloc, codec, form)?;
    optional_decode(alloc, codec, value, form)
}

impl<B: BytesToBytesCodecTraits> OptionalCodec<B> {
    /// How many bytes the value of such a chunk has: the two lengths, and what the mask chain and
    /// the data chain make, each of a chunk of the full shape. Errors, the first that holds,
    /// `OutOfMemory` aside: `UnsupportedDataType` where the type isn't optional;
    /// `InvalidFillValue`; `Overflow` where 64 bits don't count the elements; those of the mask
    /// chain; those of the data chain.
    pub fn encoded_representation(
        &self,
        alloc: Global,
        shape: &ChunkShape,
        data_type: &DataType,
        fill_value: &FillValue,
    ) -> Result<BytesRepresentation, CodecError>
        ensures answer { OptionalRepresents B.functions self.now
            shape.now data_type.now fill_value.now result }
    {
        let form = Form {
            shape,
            data_type,
            fill_value,
        };
        optional_representation(alloc, self, form)
    }

    /// The value that is written for the chunk that `elements` hold. Errors, the first that holds,
    /// `OutOfMemory` aside: those of `encoded_representation`; those of `ArrayBytes::validate`;
    /// those of the mask chain; those of the data chain at the row of present elements.
    pub fn encode<'a>(
        &self,
        alloc: Global,
        elements: ArrayBytes<'a>,
        shape: &ChunkShape,
        data_type: &DataType,
        fill_value: &FillValue,
    ) -> Result<ArrayBytesRaw<'a>, CodecError>
        ensures encodes { Encodes (codec_grammar B.functions (plain_optional self.now))
            (form_of shape.now data_type.now fill_value.now) elements.entry result }
    {
        optional_is_sound(self);
        shape.as_slice();
        let form = Form {
            shape,
            data_type,
            fill_value,
        };
        optional_taken_encode(alloc, self, elements, form)
    }

    /// The chunk that a value stands for. Errors, the first that holds, `OutOfMemory` aside: those
    /// of `encoded_representation`; `InvalidBytesLength` where there are fewer than 16 bytes;
    /// `HeaderOverflow` where 64 bits don't count what the two lengths say; `InvalidBytesLength`
    /// where there are more bytes, or fewer; those of the mask chain; `MaskValue` where a mask byte
    /// isn't 0 or 1; those of the data chain at the row of present elements.
    ///
    /// At every depth, absent elements stand over blank ones, mask bytes are 0 or 1, and offsets
    /// begin at 0.
    pub fn decode<'a>(
        &self,
        alloc: Global,
        value: ArrayBytesRaw<'a>,
        shape: &ChunkShape,
        data_type: &DataType,
        fill_value: &FillValue,
    ) -> Result<ArrayBytes<'a>, CodecError>
        ensures decodes { Decodes (codec_grammar B.functions (plain_optional self.now))
            (form_of shape.now data_type.now fill_value.now) (items_of value.entry) result }
        ensures tight { IfOk result (IsTight data_type.now) }
    {
        optional_is_sound(self);
        shape.as_slice();
        let form = Form {
            shape,
            data_type,
            fill_value,
        };
        optional_taken_decode(alloc, self, value, form)
    }
}
