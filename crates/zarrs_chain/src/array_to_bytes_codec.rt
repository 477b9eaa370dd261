//! The codecs of chunks to bytes: what goes by which one it is.
ghost use Rattle.zarrs_array_bytes.specs.Held.{items_of};
ghost use Rattle.zarrs_array_bytes.specs.Tight.{IsTight};
ghost use Rattle.zarrs_data_type.specs.Form.{form_of};
ghost use Rattle.zarrs_chain_meaning.specs.CallAnswers.{GivesRepresentation, GivesCodecChunk, IsTaken, GivesCodecValue};
ghost use Rattle.std.specs.Prelude.{◌≡◌, IfOk, true};
ghost use Rattle.zarrs_bytes.specs.GivenBytes.{HoldsGiven, IsGiven};
ghost use Rattle.zarrs_chain_meaning.specs.KeptBytes.{codec_keeps_bytes};
ghost use Rattle.zarrs_chain_meaning.specs.Chain.{codec_reads as codec_reads_of, codec_writes as codec_writes_of};
ghost use Rattle.zarrs_chain.specs.ChainView.{plain_codec};
ghost use Rattle.zarrs_chain_meaning.specs.CodecMeaning.{HasMappings};
ghost use Rattle.zarrs_chain_meaning.specs.MadeAgain.{HasRanges};
ghost use Rattle.zarrs_chain.specs.FormView.{lent_form};
ghost use Rattle.zarrs_metadata.specs.CodecMetadata.{members_of};
ghost use Rattle.zarrs_metadata.specs.MetadataV3.{metadata_seen, Writes};
ghost use Rattle.zarrs_metadata.specs.PluginCreateError.{Makes};
ghost use Rattle.zarrs_chain_meaning.specs.WrittenMetadata.{codec_name as codec_name_of, codec_configuration as codec_configuration_of};
ghost use Rattle.zarrs_chain_meaning.specs.MadeChain.{codec_by};
ghost use Rattle.zarrs_chain.specs.ChainParts.{made_seen};

use crate::form::Form;
use crate::metadata::chain_parts::MadeCodec;
use crate::metadata::make_chain::{asked, optional_create, sharding_create, vlen_create};
use crate::optional::optional_codec::{
    OptionalCodec, optional_decode, optional_encode, optional_has_ranges, optional_is_sound,
    optional_representation, optional_written,
};
use crate::sharding::shard_decode::sharding_decode;
use crate::sharding::shard_encode::sharding_encode;
use crate::sharding::sharding_codec::{
    ShardingCodec, sharding_has_ranges, sharding_is_sound, sharding_representation,
    sharding_written,
};
use crate::vlen::plain_form::vlen_reads;
use crate::vlen::vlen_codec::{
    VlenCodec, vlen_has_ranges, vlen_is_sound, vlen_representation, vlen_written,
};
use crate::vlen::vlen_decode::vlen_decode;
use crate::vlen::vlen_encode::vlen_encode;
use std::alloc::Global;
use zarrs_array_bytes::{ArrayBytes, ArrayBytesRaw};
use zarrs_array_to_array::ArrayToArrayCodec;
use zarrs_bytes::BytesCodec;
use zarrs_chain_meaning::codec_name::{KnownCodec, codec_named};
use zarrs_chunk::{ChunkShape, CodecError};
use zarrs_codec::{
    BytesCodecMaker, BytesRepresentation, BytesToBytesCodecTraits, CodecTraits,
    PartialDecoderCapability, PartialEncoderCapability,
};
use zarrs_data_type::{DataType, FillValue};
use zarrs_metadata::{Configuration, MetadataV3, PluginCreateError};
use zarrs_packbits::PackBitsCodec;
use zarrs_vlen_v2::VlenV2Codec;

/// A codec of chunks to bytes.
#[cycle(chain)]
#[derive(Debug, Drop)]
pub enum ArrayToBytesCodec<B> {
    /// The bytes of the elements (codec `bytes`).
    Bytes(BytesCodec),
    /// Some bits of each component (codec `packbits`).
    PackBits(PackBitsCodec),
    /// Elements of any length, each behind its length (codecs `vlen-utf8` and `vlen-bytes`).
    VlenV2(VlenV2Codec),
    /// Elements of any length, with where each begins (codec `vlen`).
    Vlen(VlenCodec<B>),
    /// The present elements, and which ones are present (codec `optional`).
    Optional(OptionalCodec<B>),
    /// Inner chunks, with where the value of each begins (codec `sharding_indexed`).
    Sharding(ShardingCodec<B>),
}

/// The array-to-array codecs of the chains inside hold to what their types do.
#[cycle(sound)]
#[tactic(auto, unfolding(crate::specs::ChainView::plain_codec, zarrs_chain_meaning::specs::CodecMeaning::meaning))]
pub(crate) fn codec_is_sound<B>(codec: &ArrayToBytesCodec<B>)
    ensures mappings { HasMappings (plain_codec codec.now) }
{
    match codec {
        ArrayToBytesCodec::Bytes(_) => {}
        ArrayToBytesCodec::PackBits(_) => {}
        ArrayToBytesCodec::VlenV2(_) => {}
        ArrayToBytesCodec::Vlen(codec) => vlen_is_sound(codec),
        ArrayToBytesCodec::Optional(codec) => optional_is_sound(codec),
        ArrayToBytesCodec::Sharding(codec) => sharding_is_sound(codec),
    }
}

/// The bits that the codec keeps, and those that the chains inside keep, are ranges.
#[cycle(ranges)]
#[tactic(auto, unfolding(crate::specs::ChainView::plain_codec))]
pub(crate) fn codec_has_ranges<B>(codec: &ArrayToBytesCodec<B>)
    ensures ranges { HasRanges (plain_codec codec.now) }
{
    match codec {
        ArrayToBytesCodec::Bytes(_) => {}
        ArrayToBytesCodec::PackBits(codec) => codec.is_sound(),
        ArrayToBytesCodec::VlenV2(_) => {}
        ArrayToBytesCodec::Vlen(codec) => vlen_has_ranges(codec),
        ArrayToBytesCodec::Optional(codec) => optional_has_ranges(codec),
        ArrayToBytesCodec::Sharding(codec) => sharding_has_ranges(codec),
    }
}

/// How many bytes the value of such a chunk has. Errors: the codec's own.
#[cycle(representation)]
#[tactic(auto, unfolding(crate::specs::ChainView::plain_codec), using(crate::proofs::CodecSteps::bytes_measured, crate::proofs::CodecSteps::packbits_measured, crate::proofs::VlenV2Steps::vlen_v2_measured, crate::proofs::VlenV2Steps::vlen_v2_no_fault, crate::proofs::CodecSteps::vlen_measured, crate::proofs::CodecSteps::packbits_no_fault))]
pub(crate) fn codec_representation<B: BytesToBytesCodecTraits>(
    alloc: Global,
    codec: &ArrayToBytesCodec<B>,
    form: Form<'_>,
) -> Result<BytesRepresentation, CodecError>
    ensures answer { GivesRepresentation B.functions (plain_codec codec.now)
        (lent_form form.entry) result }
{
    let Form {
        shape,
        data_type,
        fill_value,
    } = form;
    match codec {
        ArrayToBytesCodec::Bytes(codec) => {
            codec.encoded_representation(shape, data_type, fill_value)
        }
        ArrayToBytesCodec::PackBits(codec) => {
            codec.encoded_representation(shape, data_type, fill_value)
        }
        ArrayToBytesCodec::VlenV2(codec) => {
            codec.encoded_representation(shape, data_type, fill_value)
        }
        ArrayToBytesCodec::Vlen(_) => vlen_representation(shape, data_type),
        ArrayToBytesCodec::Optional(codec) => { optional_representation(alloc, codec, form) }
        ArrayToBytesCodec::Sharding(codec) => { sharding_representation(alloc, codec, form) }
    }
}

/// The value of the chunk that `held` holds, where the codec takes such chunks. Errors: those of
/// the codec's `encode` behind those of its `encoded_representation`.
#[cycle(encode)]
#[tactic(auto, unfolding(crate::specs::ChainView::plain_codec), using(crate::proofs::CodecSteps::bytes_held_value, crate::proofs::CodecSteps::packbits_held_value, crate::proofs::VlenV2Steps::vlen_v2_held_value))]
pub(crate) fn codec_encode<'a, B: BytesToBytesCodecTraits>(
    alloc: Global,
    codec: &ArrayToBytesCodec<B>,
    held: ArrayBytes<'a>,
    form: Form<'_>,
) -> Result<ArrayBytesRaw<'a>, CodecError>
    requires taken { IsTaken B.functions (plain_codec codec.now) (lent_form form) }
    ensures answer { GivesCodecValue B.functions (plain_codec codec.now) (lent_form form.entry)
        held.entry result }
    ensures kept { codec_keeps_bytes (plain_codec codec.now) form.entry.data_type.now ≡ true
        → IsGiven held.entry result }
{
    let Form {
        shape,
        data_type,
        fill_value,
    } = form;
    match codec {
        ArrayToBytesCodec::Bytes(codec) => {
            codec.encode(alloc, held, shape, data_type, fill_value)
        }
        ArrayToBytesCodec::PackBits(codec) => {
            codec.encode(alloc, held, shape, data_type, fill_value)
        }
        ArrayToBytesCodec::VlenV2(codec) => {
            codec.encode(alloc, held, shape, data_type, fill_value)
        }
        ArrayToBytesCodec::Vlen(codec) => vlen_encode(alloc, codec, held, form),
        ArrayToBytesCodec::Optional(codec) => { optional_encode(alloc, codec, held, form) }
        ArrayToBytesCodec::Sharding(codec) => { sharding_encode(alloc, codec, held, form) }
    }
}

/// The value of the chunk that `held` holds. Errors: the codec's own.
pub(crate) fn codec_taken_encode<'a, B: BytesToBytesCodecTraits>(
    alloc: Global,
    codec: &ArrayToBytesCodec<B>,
    held: ArrayBytes<'a>,
    form: Form<'_>,
) -> Result<ArrayBytesRaw<'a>, CodecError>
    ensures answer { GivesCodecValue B.functions (plain_codec codec.now) (lent_form form.entry)
        held.entry result }
{
    codec_representation(alloc, codec, form)?;
    codec_encode(alloc, codec, held, form)
}

/// The chunk that a value stands for, in the container that it fixes, where the codec takes such
/// chunks. Errors: those of the codec's `decode` behind those of its `encoded_representation`.
#[cycle(decode)]
#[tactic(auto, unfolding(crate::specs::ChainView::plain_codec), using(crate::proofs::CodecSteps::bytes_chunk_at, crate::proofs::CodecSteps::packbits_chunk_at, crate::proofs::VlenV2Steps::vlen_v2_chunk_at, crate::proofs::TakenTight::bytes_tight_at, crate::proofs::TakenTight::packbits_tight_at, crate::proofs::VlenV2Steps::vlen_v2_tight_at))]
pub fn codec_decode<'a, B: BytesToBytesCodecTraits>(
    alloc: Global,
    codec: &ArrayToBytesCodec<B>,
    value: ArrayBytesRaw<'a>,
    shape: &ChunkShape,
    kind: &DataType,
    fill: &FillValue,
) -> Result<ArrayBytes<'a>, CodecError>
    requires taken { IsTaken B.functions (plain_codec codec.now)
        (form_of shape.now kind.now fill.now) }
    ensures answer { GivesCodecChunk B.functions (plain_codec codec.now)
        (form_of shape.now kind.now fill.now) (items_of value.entry) result }
    ensures tight { IfOk result (IsTight kind.now) }
    ensures kept { codec_keeps_bytes (plain_codec codec.now) kind.now ≡ true
        → HoldsGiven value.entry result }
{
    match codec {
        ArrayToBytesCodec::Bytes(codec) => codec.decode(alloc, value, shape, kind, fill),
        ArrayToBytesCodec::PackBits(codec) => { codec.decode(alloc, value, shape, kind, fill) }
        ArrayToBytesCodec::VlenV2(codec) => { codec.decode(alloc, value, shape, kind, fill) }
        ArrayToBytesCodec::Vlen(codec) => { vlen_decode(alloc, codec, value, shape, kind, fill) }
        ArrayToBytesCodec::Optional(codec) => {
            let form = Form {
                shape,
                data_type: kind,
                fill_value: fill,
            };
            optional_decode(alloc, codec, value, form)
        }
        ArrayToBytesCodec::Sharding(codec) => {
            let form = Form {
                shape,
                data_type: kind,
                fill_value: fill,
            };
            sharding_decode(alloc, codec, value, form)
        }
    }
}

/// What the codec reads in part: `bytes`, `packbits`, a plain `vlen` and `sharding_indexed` all, any
/// other nothing.
#[tactic(auto, unfolding(crate::specs::ChainView::plain_codec), using(crate::specs::ChainView::plain_optional_at, crate::specs::ChainView::plain_sharding_at))]
pub(crate) fn codec_reads<B>(codec: &ArrayToBytesCodec<B>) -> PartialDecoderCapability
    ensures value { result ≡ codec_reads_of (plain_codec codec.now) }
{
    match codec {
        ArrayToBytesCodec::Bytes(_) | ArrayToBytesCodec::Sharding(_) => PartialDecoderCapability {
            partial_read: true,
            partial_decode: true,
        },
        ArrayToBytesCodec::PackBits(codec) => codec.partial_decoder_capability(),
        ArrayToBytesCodec::VlenV2(codec) => codec.partial_decoder_capability(),
        ArrayToBytesCodec::Vlen(codec) => vlen_reads(codec),
        ArrayToBytesCodec::Optional(_) => PartialDecoderCapability {
            partial_read: false,
            partial_decode: false,
        },
    }
}

/// What the codec writes in part.
#[tactic(auto, unfolding(crate::specs::ChainView::plain_codec), using(crate::specs::ChainView::plain_vlen_at, crate::specs::ChainView::plain_optional_at, crate::specs::ChainView::plain_sharding_at))]
pub(crate) fn codec_writes<B>(codec: &ArrayToBytesCodec<B>) -> PartialEncoderCapability
    ensures value { result ≡ codec_writes_of (plain_codec codec.now) }
{
    match codec {
        ArrayToBytesCodec::Bytes(_) => PartialEncoderCapability {
            partial_encode: true,
        },
        ArrayToBytesCodec::PackBits(codec) => codec.partial_encoder_capability(),
        ArrayToBytesCodec::VlenV2(codec) => codec.partial_encoder_capability(),
        ArrayToBytesCodec::Vlen(_)
        | ArrayToBytesCodec::Optional(_)
        | ArrayToBytesCodec::Sharding(_) => PartialEncoderCapability {
            partial_encode: false,
        },
    }
}

/// The name of an array-to-bytes codec in metadata.
#[tactic(auto, unfolding(crate::specs::ChainView::plain_codec), using(crate::specs::ChainView::plain_vlen_at, crate::specs::ChainView::plain_optional_at, crate::specs::ChainView::plain_sharding_at))]
pub(crate) fn codec_name<B>(codec: &ArrayToBytesCodec<B>) -> &'static str
    ensures value { result.now ≡ codec_name_of (plain_codec codec.now) }
{
    match codec {
        ArrayToBytesCodec::Bytes(_) => "bytes",
        ArrayToBytesCodec::PackBits(_) => "packbits",
        ArrayToBytesCodec::VlenV2(VlenV2Codec::Utf8) => "vlen-utf8",
        ArrayToBytesCodec::VlenV2(VlenV2Codec::Bytes) => "vlen-bytes",
        ArrayToBytesCodec::Vlen(_) => "zarrs.vlen",
        ArrayToBytesCodec::Optional(_) => "zarrs.optional",
        ArrayToBytesCodec::Sharding(_) => "sharding_indexed",
    }
}

/// The configuration of a codec that has no chains. Errors: `OutOfMemory`.
fn configuration_of<C: CodecTraits>(
    alloc: Global,
    codec: &C,
) -> Result<Configuration, PluginCreateError>
    ensures answer { Writes result (members_of (C.written codec.now)) }
{
    match codec.configuration(alloc)? {
        None => Ok(Configuration::new(alloc)),
        Some(configuration) => Ok(configuration),
    }
}

/// The configuration of an array-to-bytes codec. Errors: `OutOfMemory`.
#[cycle(written)]
#[tactic(auto, unfolding(crate::specs::ChainView::plain_codec))]
pub(crate) fn codec_written<B: BytesToBytesCodecTraits>(
    alloc: Global,
    codec: &ArrayToBytesCodec<B>,
) -> Result<Configuration, PluginCreateError>
    ensures answer { Writes result (codec_configuration_of B.described (plain_codec codec.now)) }
{
    match codec {
        ArrayToBytesCodec::Bytes(codec) => configuration_of(alloc, codec),
        ArrayToBytesCodec::PackBits(codec) => configuration_of(alloc, codec),
        ArrayToBytesCodec::VlenV2(codec) => configuration_of(alloc, codec),
        ArrayToBytesCodec::Vlen(codec) => vlen_written(alloc, codec),
        ArrayToBytesCodec::Optional(codec) => optional_written(alloc, codec),
        ArrayToBytesCodec::Sharding(codec) => sharding_written(alloc, codec),
    }
}

/// The codec of a metadata. Errors, the first that holds, `OutOfMemory` aside: `UnknownName` where
/// neither the table of names nor the maker knows its name; those of the codec's construction.
#[cycle(make)]
#[tactic(auto, unfolding(crate::specs::ChainView::plain_codec))]
pub(crate) fn codec_from<B: Drop, M: BytesCodecMaker<B>>(
    alloc: Global,
    metadata: &MetadataV3,
    maker: &M,
) -> Result<MadeCodec<B>, PluginCreateError>
    ensures answer { Makes made_seen result
        (codec_by (M.makes maker.now) (metadata_seen metadata.now)) }
{
    match codec_named(metadata.name()) {
        Some(KnownCodec::Array) => {
            Ok(MadeCodec::Array(ArrayToArrayCodec::create(alloc, metadata)?))
        }
        Some(KnownCodec::Bytes) => {
            let codec = BytesCodec::create(metadata)?;
            Ok(MadeCodec::ToBytes(ArrayToBytesCodec::Bytes(codec)))
        }
        Some(KnownCodec::PackBits) => {
            let codec = PackBitsCodec::create(metadata)?;
            Ok(MadeCodec::ToBytes(ArrayToBytesCodec::PackBits(codec)))
        }
        Some(KnownCodec::VlenV2) => {
            let codec = VlenV2Codec::create(metadata)?;
            Ok(MadeCodec::ToBytes(ArrayToBytesCodec::VlenV2(codec)))
        }
        Some(KnownCodec::Vlen) => {
            let codec = vlen_create(alloc, metadata, maker)?;
            Ok(MadeCodec::ToBytes(ArrayToBytesCodec::Vlen(codec)))
        }
        Some(KnownCodec::Optional) => {
            let codec = optional_create(alloc, metadata, maker)?;
            Ok(MadeCodec::ToBytes(ArrayToBytesCodec::Optional(codec)))
        }
        Some(KnownCodec::Sharding) => {
            let codec = sharding_create(alloc, metadata, maker)?;
            Ok(MadeCodec::ToBytes(ArrayToBytesCodec::Sharding(codec)))
        }
        None => asked(alloc, metadata, maker),
    }
}
