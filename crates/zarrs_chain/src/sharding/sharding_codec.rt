ghost use Rattle.std.specs.Prelude.{◌≡◌, IfOk, Ok};
ghost use Rattle.zarrs_array_bytes.specs.Tight.{IsTight};
ghost use Rattle.zarrs_array_bytes.specs.Held.{items_of};
ghost use Rattle.zarrs_metadata.specs.MetadataV3.{Writes as IsWritten};
ghost use Rattle.zarrs_metadata.specs.PluginCreateError.{Makes};
ghost use Rattle.zarrs_data_type.specs.Form.{form_of};
ghost use Rattle.zarrs_codec.specs.Grammar.{Encodes, Decodes};
ghost use Rattle.zarrs_chain.specs.ChainGrammar.{codec_grammar};
ghost use Rattle.zarrs_chain.specs.ChainView.{plain_sharding, IsShardingOf};
ghost use Rattle.zarrs_chain_meaning.specs.CodecMeaning.{HasMappings};
ghost use Rattle.zarrs_chain_meaning.specs.MadeAgain.{HasRanges};
ghost use Rattle.zarrs_chain_meaning.specs.sharding.ShardingSettings.{is_index_at_end};
ghost use Rattle.zarrs_chain_meaning.specs.WrittenMetadata.{codec_configuration};
ghost use Rattle.zarrs_chain.specs.sharding.ShardingCalls.{ShardingRepresents};
ghost use Rattle.zarrs_chain.specs.FormView.{lent_form};
ghost use Rattle.zarrs_chain_meaning.specs.CallAnswers.{GivesRepresentation};
ghost use Rattle.zarrs_chain_meaning.specs.CallAnswers.{GivesCodecValue};
ghost use Rattle.zarrs_chain_meaning.specs.CallAnswers.{GivesTakenChunk};

use crate::codec_chain::{CodecChain, chain_has_ranges, chain_is_sound};
use crate::form::Form;
use crate::metadata::write_chain::chain_written;
use crate::representation::chain_representation;
use crate::sharding::left_out::is_fill_kept;
use crate::sharding::shard_decode::sharding_decode;
use crate::sharding::shard_encode::sharding_encode;
use crate::sharding::shard_index::index_size;
use std::alloc::Global;
use zarrs_array_bytes::{ArrayBytes, ArrayBytesRaw};
use zarrs_chain_meaning::sharding::configuration::sharding_members;
use zarrs_chain_meaning::sharding::inner_chunks::{check_room, inner_chunk_grid};
use zarrs_chain_meaning::sharding::shard_parts::bound;
use zarrs_chunk::{ChunkShape, CodecError};
use zarrs_codec::{BytesRepresentation, BytesToBytesCodecTraits};
use zarrs_data_type::{DataType, FillValue};
use zarrs_metadata::{Configuration, PluginCreateError, ShardingIndexLocation};

/// A chunk, here the shard, divided into inner chunks of one shape: each through one chain, and an
/// index through another (Zarr v3 codec `sharding_indexed`).
///
/// The index has two numbers for each inner chunk, in row-major order: the offset in the value at
/// which its value begins, and how many bytes that has; both are `2^64 - 1` where it isn't stored,
/// and its elements are then the fill value. It is a chunk of the type `uint64`, and stands before
/// the values of the inner chunks or behind them. What is written has these values in order, one
/// behind the other, without those of inner chunks whose elements' normal forms are all the fill
/// element.
#[cycle(chain)]
#[derive(Debug, Drop)]
pub struct ShardingCodec<B> {
    pub(crate) chunk_shape: ChunkShape,
    pub(crate) codecs: Box<CodecChain<B>>,
    pub(crate) index_codecs: Box<CodecChain<B>>,
    pub(crate) index_location: ShardingIndexLocation,
}

impl<B> ShardingCodec<B> {
    /// The codec with inner chunks of this shape, these chains for each of them and for the index,
    /// and the index at this place.
    #[tactic(auto, using(crate::specs::ChainView::plain_sharding_made))]
    pub fn new(
        chunk_shape: ChunkShape,
        codecs: Box<CodecChain<B>>,
        index_codecs: Box<CodecChain<B>>,
        index_location: ShardingIndexLocation,
    ) -> ShardingCodec<B>
        ensures made { IsShardingOf chunk_shape codecs index_codecs index_location result }
    {
        ShardingCodec {
            chunk_shape,
            codecs,
            index_codecs,
            index_location,
        }
    }
}

/// The array-to-array codecs of the chains inside hold to what their types do, and no size of an
/// inner chunk is zero.
#[cycle(sound)]
#[tactic(auto, unfolding(zarrs_chain_meaning::specs::CodecMeaning::meaning), using(crate::specs::ChainView::plain_sharding_at))]
pub(crate) fn sharding_is_sound<B>(codec: &ShardingCodec<B>)
    ensures mappings { HasMappings (plain_sharding codec.now) }
{
    codec.chunk_shape.as_slice();
    chain_is_sound(&codec.codecs);
    chain_is_sound(&codec.index_codecs);
}

/// The bits that the chains inside keep are ranges.
#[cycle(ranges)]
#[tactic(auto, using(crate::specs::ChainView::plain_sharding_at))]
pub(crate) fn sharding_has_ranges<B>(codec: &ShardingCodec<B>)
    ensures ranges { HasRanges (plain_sharding codec.now) }
{
    chain_has_ranges(&codec.codecs);
    chain_has_ranges(&codec.index_codecs);
}

/// A copy of a shape. Errors: `OutOfMemory`.
fn copied(alloc: Global, shape: &ChunkShape) -> Result<ChunkShape, PluginCreateError>
    ensures answer { Makes (λ copy. copy) result (Ok shape.now) }
{
    let sizes = shape.as_slice();
    let mut copies = Vec::with_capacity(alloc, sizes.len())?;
    copies.extend_from_slice(sizes)?;
    match ChunkShape::new(copies) {
        Some(shape) => Ok(shape),
        None => unreachable!(),
    }
}

/// The configuration that is written of the codec. Errors: `OutOfMemory`.
#[cycle(written)]
#[tactic(auto, using(crate::specs::ChainView::plain_sharding_at, crate::proofs::WrittenAt::shard_index_place_again))]
pub(crate) fn sharding_written<B: BytesToBytesCodecTraits>(
    alloc: Global,
    codec: &ShardingCodec<B>,
) -> Result<Configuration, PluginCreateError>
    ensures answer { IsWritten result (codec_configuration B.described (plain_sharding codec.now)) }
{
    let chunk_shape = copied(alloc, &codec.chunk_shape)?;
    let codecs = chain_written(alloc, &codec.codecs)?;
    let index_codecs = chain_written(alloc, &codec.index_codecs)?;
    sharding_members(
        alloc,
        chunk_shape,
        codecs,
        index_codecs,
        codec.index_location,
    )
}

/// Whether the index stands at the end.
pub(crate) fn is_at_end(location: ShardingIndexLocation) -> bool
    ensures value { result ≡ is_index_at_end location }
{
    matches!(location, ShardingIndexLocation::End)
}

/// How many bytes the value of such a chunk has. Errors: those of
/// `ShardingCodec::encoded_representation`.
#[cycle(representation)]
#[tactic(auto, using(crate::proofs::ShardAt::represented_at))]
pub(crate) fn sharding_representation<B: BytesToBytesCodecTraits>(
    alloc: Global,
    codec: &ShardingCodec<B>,
    form: Form<'_>,
) -> Result<BytesRepresentation, CodecError>
    ensures answer { GivesRepresentation B.functions (plain_sharding codec.now)
        (lent_form form.entry) result }
{
    let Form {
        shape,
        data_type,
        fill_value,
    } = form;
    shape.as_slice();
    let inner = &codec.chunk_shape;
    inner.as_slice();
    let grid = inner_chunk_grid(alloc, shape, inner)?;
    check_room(shape.num_elements()?, data_type)?;
    let size = chain_representation(
        alloc,
        &codec.codecs,
        Form {
            shape: inner,
            ..form
        },
    )?;
    if !is_fill_kept(alloc, &codec.codecs.array_to_bytes, data_type, fill_value)? {
        return Err(CodecError::InvalidFillValue);
    }
    let index = index_size(alloc, &codec.index_codecs, &grid)?;
    Ok(bound(grid.num_elements()?, &size, index))
}

/// The value of the chunk that `held` holds. Errors: those of `ShardingCodec::encode`.
fn sharding_taken_encode<'a, B: BytesToBytesCodecTraits>(
    alloc: Global,
    codec: &ShardingCodec<B>,
    held: ArrayBytes<'a>,
    form: Form<'_>,
) -> Result<ArrayBytesRaw<'a>, CodecError>
    ensures answer { GivesCodecValue B.functions (plain_sharding codec.now) (lent_form form.entry)
        held.entry result }
{
    sharding_representation(alloc, codec, form)?;
    sharding_encode(alloc, codec, held, form)
}

/// The chunk that a value stands for. Errors: those of `ShardingCodec::decode`.
fn sharding_taken_decode<'a, B: BytesToBytesCodecTraits>(
    alloc: Global,
    codec: &ShardingCodec<B>,
    value: ArrayBytesRaw<'a>,
    form: Form<'_>,
) -> Result<ArrayBytes<'a>, CodecError>
    ensures exact { GivesTakenChunk B.functions (plain_sharding codec.now) (lent_form form.entry)
        (items_of value.entry) result }
    ensures tight { IfOk result (IsTight form.entry.data_type.now) }
{
    sharding_representation(alloc, codec, form)?;
    sharding_decode(alloc, codec, value, form)
}

impl<B: BytesToBytesCodecTraits> ShardingCodec<B> {
    /// How many bytes the value of such a chunk has: at most what the inner chain makes of each
    /// inner chunk, and the index; any number where the inner chain does, or where 64 bits don't
    /// count it. Errors, the first that holds, `OutOfMemory` aside: `IncompatibleDimensionality`
    /// where an inner chunk has another number of axes; `IndivisibleShape` where one of its sizes
    /// doesn't divide the chunk's; `Overflow` where 64 bits don't count the elements and their
    /// bytes; those of the inner chain; `InvalidFillValue` where the inner chain would change the
    /// fill element; those of the index chain; `IndexNotFixed` where it doesn't fix the number of
    /// its bytes.
    pub fn encoded_representation(
        &self,
        alloc: Global,
        shape: &ChunkShape,
        data_type: &DataType,
        fill_value: &FillValue,
    ) -> Result<BytesRepresentation, CodecError>
        ensures answer { ShardingRepresents B.functions self.now shape.now data_type.now fill_value.now result }
    {
        let form = Form {
            shape,
            data_type,
            fill_value,
        };
        sharding_representation(alloc, self, form)
    }

    /// The value that is written for the chunk that `elements` hold. Errors, the first that holds,
    /// `OutOfMemory` aside: those of `encoded_representation`; those of `ArrayBytes::validate`;
    /// those of the inner chain, of the inner chunks that aren't left out, in order; those of the
    /// index chain; `OffsetNotKept` where it would change a number.
    pub fn encode<'a>(
        &self,
        alloc: Global,
        elements: ArrayBytes<'a>,
        shape: &ChunkShape,
        data_type: &DataType,
        fill_value: &FillValue,
    ) -> Result<ArrayBytesRaw<'a>, CodecError>
        // Wide: the form of a chunk is three parameters, as in the Rust crate.
        ensures encodes { Encodes (codec_grammar B.functions (plain_sharding self.now))
            (form_of shape.now data_type.now fill_value.now) elements.entry result }
    {
        sharding_is_sound(self);
        shape.as_slice();
        let form = Form {
            shape,
            data_type,
            fill_value,
        };
        sharding_taken_encode(alloc, self, elements, form)
    }

    /// The chunk that a value stands for. Errors, the first that holds, `OutOfMemory` aside: those
    /// of `encoded_representation`; `InvalidBytesLength` where there are fewer bytes than the index
    /// has; those of the index chain; then of each inner chunk that is stored, in order:
    /// `InvalidByteRange` where its bytes end behind the value, and those of the inner chain.
    ///
    /// The values of the inner chunks may stand in any order, overlap, and leave gaps.
    pub fn decode<'a>(
        &self,
        alloc: Global,
        value: ArrayBytesRaw<'a>,
        shape: &ChunkShape,
        data_type: &DataType,
        fill_value: &FillValue,
    ) -> Result<ArrayBytes<'a>, CodecError>
        // Wide: the form of a chunk is three parameters, as in the Rust crate.
        ensures decodes { Decodes (codec_grammar B.functions (plain_sharding self.now))
            (form_of shape.now data_type.now fill_value.now) (items_of value.entry) result }
        ensures tight { IfOk result (IsTight data_type.now) }
    {
        sharding_is_sound(self);
        shape.as_slice();
        let form = Form {
            shape,
            data_type,
            fill_value,
        };
        sharding_taken_decode(alloc, self, value, form)
    }
}
