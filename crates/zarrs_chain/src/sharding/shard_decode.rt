//! The chunk of a value through `sharding_indexed`: its index, and then its inner chunks.
ghost use Rattle.std.specs.Prelude.{◌≡◌, ◌<◌, ◌*◌, ◌^◌, IfOk, Ok, length, true};
ghost use Rattle.zarrs_chunk.specs.Answer.{checked_u64};
ghost use Rattle.zarrs_chunk.specs.ChunkShape.{product};
ghost use Rattle.zarrs_array_bytes.specs.Tight.{IsTight};
ghost use Rattle.zarrs_array_bytes.specs.Validity.{validity};
ghost use Rattle.zarrs_chain_meaning.specs.sharding.InnerChunks.{grid as grid_of, inner_chunk_count, is_divided};
ghost use Rattle.zarrs_chain_meaning.specs.sharding.Sharding.{is_stored};
ghost use Rattle.zarrs_chain.specs.sharding.ShardingCalls.{IsShardForm, TakesInside, ReadsInside};
ghost use Rattle.zarrs_chain.specs.sharding.ShardWalk.{ReplacesInner, ReadsInner, ReadsNextInner, ReadsAll};
ghost use Rattle.zarrs_chain.specs.FormView.{lent_form};
ghost use Rattle.zarrs_chain_meaning.specs.CallAnswers.{IsTaken};
ghost use Rattle.zarrs_chain_meaning.specs.CallAnswers.{GivesCodecChunk};
ghost use Rattle.zarrs_array_bytes.specs.Held.{items_of};
ghost use Rattle.zarrs_chain.specs.ChainView.{plain_sharding};

use crate::codec_chain::CodecChain;
use crate::decode::chain_decode;
use crate::form::Form;
use crate::sharding::kept_bytes::keeps_bytes;
use crate::sharding::shard_bands::read_bands;
use crate::sharding::shard_form::shard_form;
use crate::sharding::shard_index::{index_decode, index_size};
use crate::sharding::shard_rows::read_rows;
use crate::sharding::sharding_codec::{ShardingCodec, is_at_end};
use std::alloc::Global;
use std::borrow::CowSlice;
use zarrs_array_bytes::{ArrayBytes, ArrayBytesRaw, update_runs};
use zarrs_chain_meaning::sharding::inner_chunks::{inner_chunk_grid, inner_chunk_runs};
use zarrs_chain_meaning::sharding::shard_parts::{bytes_at, index_part};
use zarrs_chunk::{ChunkShape, CodecError};
use zarrs_codec::BytesToBytesCodecTraits;
use zarrs_data_type::DataType;

/// The elements with those of the inner chunk of a number replaced by these. Errors: `OutOfMemory`.
fn with_inner<'a>(
    alloc: Global,
    inner: &ChunkShape,
    content: &ArrayBytes<'_>,
    elements: ArrayBytes<'a>,
    shape: &ChunkShape,
    grid: &ChunkShape,
    number: u64,
    data_type: &DataType,
) -> Result<ArrayBytes<'a>, CodecError>
    requires divided { is_divided inner.now shape.now ≡ true }
    requires counted { checked_u64 (product shape.now) ≡ Ok (product shape.now) }
    requires small { product shape.now < 2 ^ 64 }
    requires grid { grid.now ≡ grid_of inner.now shape.now }
    requires below { number < inner_chunk_count inner.now shape.now }
    requires valid { validity data_type.now (product shape.now) elements ≡ Ok tt }
    requires content_valid { validity data_type.now (product inner.now) content.now ≡ Ok tt }
    requires tight { IsTight data_type.now elements }
    requires content_tight { IsTight data_type.now content.now }
    // Wide: the type, both shapes, the number and both containers.
    ensures answer { ReplacesInner inner.now shape.now data_type.now number
        elements.entry content.now result }
    ensures tight { IfOk result (IsTight data_type.now) }
{
    let runs = inner_chunk_runs(alloc, shape, inner, grid, number)?;
    let count = shape.num_elements()?;
    update_runs(alloc, elements, count, runs.as_slice(), content, data_type)
}

/// The elements with those of the inner chunk of a number replaced by what the value has of it.
/// Errors: `InvalidByteRange`; those of the chain.
#[cycle(decode)]
fn read_inner<'a, B: BytesToBytesCodecTraits>(
    alloc: Global,
    chain: &CodecChain<B>,
    inner: &ChunkShape,
    value: &[u8],
    span: (usize, usize),
    elements: ArrayBytes<'a>,
    form: Form<'_>,
    grid: &ChunkShape,
    number: u64,
) -> Result<ArrayBytes<'a>, CodecError>
    requires form { IsShardForm inner.now form.shape.now form.data_type.now form.fill_value.now }
    requires grid { grid.now ≡ grid_of inner.now form.shape.now }
    requires below { number < inner_chunk_count inner.now form.shape.now }
    requires valid { validity form.data_type.now (product form.shape.now) elements ≡ Ok tt }
    requires tight { IsTight form.data_type.now elements }
    // Wide: the form, the value, the number, its span and the container.
    ensures answer { ReadsInner B.functions chain.now inner.now (lent_form form.entry)
        value.now number span elements.entry result }
    ensures tight { IfOk result (IsTight form.entry.data_type.now) }
{
    let part = CowSlice::Borrowed(bytes_at(value, span.0, span.1)?);
    let content = chain_decode(
        alloc,
        chain,
        part,
        Form {
            shape: inner,
            ..form
        },
    )?;
    with_inner(
        alloc,
        inner,
        &content,
        elements,
        form.shape,
        grid,
        number,
        form.data_type,
    )
}

/// Whether an inner chunk is stored at a span.
#[tactic(auto, unfolding(zarrs_chain_meaning::specs::sharding::Sharding::missing))]
pub fn has_span(span: (usize, usize)) -> bool
    ensures value { result ≡ is_stored span }
{
    span.0 != usize::MAX || span.1 != usize::MAX
}

/// The elements with those of the inner chunk of a number replaced, where it is stored. Errors:
/// those of `read_inner`.
#[cycle(decode)]
fn read_next<'a, B: BytesToBytesCodecTraits>(
    alloc: Global,
    chain: &CodecChain<B>,
    inner: &ChunkShape,
    value: &[u8],
    span: (usize, usize),
    elements: ArrayBytes<'a>,
    form: Form<'_>,
    grid: &ChunkShape,
    number: u64,
) -> Result<ArrayBytes<'a>, CodecError>
    requires form { IsShardForm inner.now form.shape.now form.data_type.now form.fill_value.now }
    requires grid { grid.now ≡ grid_of inner.now form.shape.now }
    requires below { number < inner_chunk_count inner.now form.shape.now }
    requires valid { validity form.data_type.now (product form.shape.now) elements ≡ Ok tt }
    requires tight { IsTight form.data_type.now elements }
    // Wide: the form, the value, the number, its span and the container.
    ensures answer { ReadsNextInner B.functions chain.now inner.now (lent_form form.entry)
        value.now number span elements.entry result }
    ensures tight { IfOk result (IsTight form.entry.data_type.now) }
{
    if !has_span(span) {
        return Ok(elements);
    }
    read_inner(
        alloc, chain, inner, value, span, elements, form, grid, number,
    )
}

/// The chunk of these numbers of an index: fill elements, and then inner chunk by inner chunk what
/// is stored. Errors: of the first inner chunk that has one, those of `read_inner`.
#[cycle(decode)]
fn read_all<'a, B: BytesToBytesCodecTraits>(
    alloc: Global,
    chain: &CodecChain<B>,
    inner: &ChunkShape,
    value: &[u8],
    numbers: &[usize],
    form: Form<'_>,
    grid: &ChunkShape,
) -> Result<ArrayBytes<'a>, CodecError>
    requires form { IsShardForm inner.now form.shape.now form.data_type.now form.fill_value.now }
    requires grid { grid.now ≡ grid_of inner.now form.shape.now }
    requires len { length numbers.now ≡ inner_chunk_count inner.now form.shape.now * 2 }
    // Wide: the form, the value, and the numbers of its index.
    ensures answer { ReadsAll B.functions chain.now inner.now (lent_form form.entry)
        value.now numbers.now result }
    ensures tight { IfOk result (IsTight form.entry.data_type.now) }
{
    let Form {
        shape,
        data_type,
        fill_value,
    } = form;
    inner.as_slice();
    let count = shape.num_elements()?;
    let mut elements = ArrayBytes::new_fill_value(alloc, data_type, count, fill_value)?;
    for number in 0..numbers.len() / 2 {
        let span = (numbers[number * 2], numbers[number * 2 + 1]);
        elements = read_next(
            alloc,
            chain,
            inner,
            value,
            span,
            elements,
            form,
            grid,
            number as u64,
        )?;
    }
    Ok(elements)
}

/// The chunk of these numbers of an index. Where the chain hands on the bytes of elements of one size,
/// the chunk is made of them row by row: they all lie in the value, and a chain that makes bytes would
/// hold those of all inner chunks at once. Other elements of one size, and those of a single inner
/// chunk, are written in their places, inner chunk by inner chunk; for elements of any length each such
/// write would make the whole anew. Errors: those of `read_all`.
#[cycle(decode)]
fn read_chunk<'a, B: BytesToBytesCodecTraits>(
    alloc: Global,
    chain: &CodecChain<B>,
    inner: &ChunkShape,
    value: &[u8],
    numbers: &[usize],
    form: Form<'_>,
    grid: &ChunkShape,
) -> Result<ArrayBytes<'a>, CodecError>
    requires form { IsShardForm inner.now form.shape.now form.data_type.now form.fill_value.now }
    requires grid { grid.now ≡ grid_of inner.now form.shape.now }
    requires len { length numbers.now ≡ inner_chunk_count inner.now form.shape.now * 2 }
    // Wide: the form, the value, and the numbers of its index.
    ensures answer { ReadsAll B.functions chain.now inner.now (lent_form form.entry)
        value.now numbers.now result }
    ensures tight { IfOk result (IsTight form.entry.data_type.now) }
{
    let data_type = form.data_type;
    if let Some(size) = data_type.fixed_size() {
        if keeps_bytes(chain, data_type) {
            return read_rows(alloc, chain, inner, value, numbers, form, size);
        }
    }
    if data_type.fixed_size().is_some() {
        return read_all(alloc, chain, inner, value, numbers, form, grid);
    }
    read_bands(alloc, chain, inner, value, numbers, form)
}

/// The chunk that a value stands for, where the codec takes such chunks. Errors:
/// `InvalidBytesLength`; those of the index chain; those of `read_chunk`.
#[cycle(decode)]
fn shard_decode<'a, B: BytesToBytesCodecTraits>(
    alloc: Global,
    codec: &ShardingCodec<B>,
    value: &[u8],
    form: Form<'_>,
) -> Result<ArrayBytes<'a>, CodecError>
    requires taken { TakesInside B.functions codec.now (lent_form form) }
    ensures answer { ReadsInside B.functions codec.now (lent_form form.entry) value.now result }
    ensures tight { IfOk result (IsTight form.entry.data_type.now) }
{
    let Form {
        shape,
        data_type,
        fill_value,
    } = form;
    let inner = &codec.chunk_shape;
    shard_form(
        &codec.codecs,
        &codec.index_codecs,
        inner,
        shape,
        data_type,
        fill_value,
    );
    let grid = inner_chunk_grid(alloc, shape, inner)?;
    let size = index_size(alloc, &codec.index_codecs, &grid)?;
    let part = index_part(value, size, is_at_end(codec.index_location))?;
    let numbers = index_decode(alloc, &codec.index_codecs, part, &grid)?;
    let numbers = numbers.as_slice();
    let chain = &codec.codecs;
    read_chunk(alloc, chain, inner, value, numbers, form, &grid)
}

/// The chunk that a value stands for, where the codec takes such chunks. Errors: those of
/// `ShardingCodec::decode` behind those of `encoded_representation`.
#[cycle(decode)]
#[tactic(auto, using(crate::proofs::ShardAt::takes_at, crate::proofs::ShardAt::chunk_at))]
pub(crate) fn sharding_decode<'a, B: BytesToBytesCodecTraits>(
    alloc: Global,
    codec: &ShardingCodec<B>,
    value: ArrayBytesRaw<'a>,
    form: Form<'_>,
) -> Result<ArrayBytes<'a>, CodecError>
    requires taken { IsTaken B.functions (plain_sharding codec.now) (lent_form form) }
    ensures answer { GivesCodecChunk B.functions (plain_sharding codec.now) (lent_form form.entry)
        (items_of value.entry) result }
    ensures tight { IfOk result (IsTight form.entry.data_type.now) }
{
    shard_decode(alloc, codec, value.as_slice(), form)
}
