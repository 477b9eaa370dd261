//! The chunk of a shard whose elements have any length, band by band: the inner chunks that share their
//! place along the first axes are read, and their rows appended to the chunk. A row goes through all
//! inner chunks of its band, so these are held together, and no others.
ghost use Rattle.std.specs.Prelude.{◌≡◌, ◌*◌, ◌/◌, ◌+◌, ◌<◌, ◌≤◌, ◌^◌, [], All, IfOk, Ok, drop, length, take, true};
ghost use Rattle.zarrs_array_bytes.specs.Tight.{IsTight};
ghost use Rattle.zarrs_array_bytes.specs.Validity.{Holds, validity};
ghost use Rattle.zarrs_chunk.specs.Answer.{Appends, GivesBy};
ghost use Rattle.zarrs_chunk.specs.ChunkShape.{product};
ghost use Rattle.zarrs_chain_meaning.specs.sharding.InnerChunks.{inner_chunk_count, is_divided};
ghost use Rattle.zarrs_bytes.specs.PartialWrite.{filled_chunk};
ghost use Rattle.zarrs_chain.specs.sharding.ShardBands.{ReadsBand, ReadsElements};
ghost use Rattle.zarrs_shard_bytes.specs.Bands.{AreJoinable, Extends, IsBandForm, band_of, chunks_of, part_elements};
ghost use Rattle.zarrs_chain.specs.sharding.BandSizes.{GivesBandSizes};
ghost use Rattle.zarrs_chain.specs.sharding.ShardWalk.{ReadsAll};
ghost use Rattle.zarrs_chain.specs.sharding.ShardingCalls.{IsShardForm};
ghost use Rattle.zarrs_chain.specs.FormView.{lent_form};

use crate::codec_chain::CodecChain;
use crate::decode::chain_decode;
use crate::form::Form;
use crate::sharding::chunk_room::{empty_chunk, text_room};
use crate::sharding::shard_decode::has_span;
use crate::sharding::shard_rows::blank_inner_chunk;
use std::alloc::{AllocError, Global};
use std::borrow::CowSlice;
use zarrs_array_bytes::ArrayBytes;
use zarrs_chain_meaning::sharding::inner_chunks::inner_chunk_grid;
use zarrs_chain_meaning::sharding::shard_parts::bytes_at;
use zarrs_chunk::{ChunkShape, CodecError};
use zarrs_codec::BytesToBytesCodecTraits;
use zarrs_data_type::DataType;
use zarrs_shard_bytes::joined_bands::append_band;

/// The elements of an inner chunk: what the value has of it, or `blank` where it isn't stored. Errors:
/// `InvalidByteRange`; those of the chain.
#[cycle(decode)]
fn read_elements<'a, B: BytesToBytesCodecTraits>(
    alloc: Global,
    chain: &CodecChain<B>,
    form: Form<'_>,
    value: &'a [u8],
    span: (usize, usize),
    blank: &ArrayBytes<'a>,
) -> Result<ArrayBytes<'a>, CodecError>
    requires missing { Holds form.data_type.now blank.now
        (filled_chunk form.shape.now form.data_type.now form.fill_value.now) }
    requires blank_tight { IsTight form.data_type.now blank.now }
    // Wide: the form of an inner chunk, the value and the span.
    ensures answer { ReadsElements B.functions chain.now (lent_form form.entry)
        value.now span result }
    ensures whole { IfOk result (λ content.
        validity form.entry.data_type.now (product form.entry.shape.now) content ≡ Ok tt) }
    ensures tight { IfOk result (IsTight form.entry.data_type.now) }
{
    if !has_span(span) {
        return blank.clone();
    }
    let part = CowSlice::Borrowed(bytes_at(value, span.0, span.1)?);
    let content = chain_decode(alloc, chain, part, form)?;
    Ok(content)
}

/// The elements of each inner chunk of a band. Errors: of the first inner chunk that has one, those of
/// `read_elements`.
#[cycle(decode)]
fn read_band<'a, B: BytesToBytesCodecTraits>(
    alloc: Global,
    chain: &CodecChain<B>,
    form: Form<'_>,
    value: &'a [u8],
    numbers: &[usize],
    blank: &ArrayBytes<'a>,
) -> Result<Vec<ArrayBytes<'a>>, CodecError>
    requires missing { Holds form.data_type.now blank.now
        (filled_chunk form.shape.now form.data_type.now form.fill_value.now) }
    requires blank_tight { IsTight form.data_type.now blank.now }
    // Wide: the form of an inner chunk, the value and the numbers.
    ensures answer { ReadsBand B.functions chain.now (lent_form form.entry)
        value.now numbers.now result }
    ensures all { IfOk result (λ contents. length contents.items ≡ length numbers.now / 2) }
    ensures whole { IfOk result (λ contents. All (λ content. validity form.entry.data_type.now
        (product form.entry.shape.now) content ≡ Ok tt) contents.items) }
    ensures tight { IfOk result (λ contents. All (IsTight form.entry.data_type.now)
        contents.items) }
{
    let mut contents = Vec::with_capacity(alloc, numbers.len() / 2)?;
    for number in 0..numbers.len() / 2 {
        let span = (numbers[number * 2], numbers[number * 2 + 1]);
        let content = read_elements(alloc, chain, form, value, span, blank)?;
        contents.push(content)?;
    }
    Ok(contents)
}

/// Appends the shape of a band: an inner chunk's sizes up to the first axis along which that has more
/// than one element, and the chunk's behind.
fn append_band_shape(out: &mut Vec<u64>, parts: &[u64], sizes: &[u64]) -> Result<(), AllocError>
    requires axes { length parts.now ≡ length sizes.now }
    ensures appended { Appends out.old out.new result (band_of parts.now sizes.now) }
{
    match parts {
        [] => Ok(()),
        [part, rest @ ..] => {
            out.push(*part)?;
            if *part == 1 {
                return append_band_shape(out, rest, &sizes[1..]);
            }
            out.extend_from_slice(&sizes[1..])
        }
    }
}

/// The shape of a band. Errors: `OutOfMemory`.
fn band_shape(
    alloc: Global,
    inner: &ChunkShape,
    shape: &ChunkShape,
) -> Result<ChunkShape, AllocError>
    requires divided { is_divided inner.now shape.now ≡ true }
    ensures value { IfOk result (λ band. band ≡ band_of inner.now shape.now) }
{
    let (parts, sizes) = (inner.as_slice(), shape.as_slice());
    let mut band = Vec::with_capacity(alloc, parts.len())?;
    append_band_shape(&mut band, parts, sizes)?;
    match ChunkShape::new(band) {
        Some(band) => Ok(band),
        None => unreachable!(),
    }
}

/// An inner chunk of fill elements. Errors: `OutOfMemory`.
fn blank_chunk<'b>(
    alloc: Global,
    inner: &ChunkShape,
    form: Form<'_>,
) -> Result<ArrayBytes<'b>, CodecError>
    requires form { IsShardForm inner.now form.shape.now form.data_type.now form.fill_value.now }
    ensures answer { GivesBy (Holds form.entry.data_type.now) result
        (Ok (filled_chunk inner.now form.entry.data_type.now form.entry.fill_value.now)) }
    ensures tight { IfOk result (IsTight form.entry.data_type.now) }
{
    inner.as_slice();
    form.shape.as_slice();
    blank_inner_chunk(
        alloc,
        Form {
            shape: inner,
            ..form
        },
    )
}

/// How many inner chunks and elements a band has, and how many bands there are.
#[derive(Drop)]
struct BandSizes {
    chunks: usize,
    elements: u64,
    count: usize,
}

/// These numbers, of a chunk of so many inner chunks. Errors: `OutOfMemory`.
fn band_sizes(
    alloc: Global,
    inner: &ChunkShape,
    shape: &ChunkShape,
    band: &ChunkShape,
    chunks: usize,
) -> Result<BandSizes, CodecError>
    requires form { IsBandForm inner.now shape.now band.now }
    requires all { chunks ≡ inner_chunk_count inner.now shape.now }
    ensures answer { GivesBandSizes inner.now shape.now result }
{
    inner.as_slice();
    shape.as_slice();
    let grid = inner_chunk_grid(alloc, band, inner)?;
    let each = grid.num_elements()? as usize;
    Ok(BandSizes {
        chunks: each,
        elements: band.num_elements()?,
        count: chunks / each,
    })
}

/// The numbers of the index of a band's inner chunks, which are so many.
fn band_numbers(numbers: &[usize], chunks: usize, number: usize) -> &[usize]
    requires inside { number * chunks * 2 + chunks * 2 ≤ length numbers.now }
    ensures value { result.now ≡ take (chunks * 2) (drop (number * chunks * 2) numbers.now) }
{
    &numbers[number * chunks * 2..number * chunks * 2 + chunks * 2]
}

/// The elements so far, with room for all `count`.
fn with_room<'a>(
    alloc: Global,
    elements: ArrayBytes<'a>,
    done: u64,
    contents: &[ArrayBytes<'_>],
    count: u64,
    numbers: &[usize],
    limit: usize,
    data_type: &DataType,
) -> Result<ArrayBytes<'a>, CodecError>
    requires valid { validity data_type.now done elements ≡ Ok tt }
    requires tight { IsTight data_type.now elements }
    ensures kept { Extends data_type.now done elements.entry [] result }
    ensures tight { IfOk result (IsTight data_type.now) }
{
    if done > 0 {
        return Ok(elements);
    }
    let room = text_room(contents, numbers, limit);
    empty_chunk(alloc, count, room, data_type)
}

/// The elements so far, which are `done`, and behind them those of a band. Room for all is made before
/// the first. Errors: `OutOfMemory`.
fn join_band<'a>(
    alloc: Global,
    elements: ArrayBytes<'a>,
    done: u64,
    contents: &[ArrayBytes<'_>],
    inner: &ChunkShape,
    shape: &ChunkShape,
    band: &ChunkShape,
    numbers: &[usize],
    limit: usize,
    data_type: &DataType,
) -> Result<ArrayBytes<'a>, CodecError>
    requires form { IsBandForm inner.now shape.now band.now }
    requires all { length contents.now ≡ inner_chunk_count inner.now band.now }
    requires joinable { AreJoinable data_type.now done (product inner.now) elements contents.now }
    requires counted { done + product band.now < 2 ^ 64 }
    // Wide: the elements so far, and those of the band.
    ensures answer { Extends data_type.now done elements.entry
        (part_elements (chunks_of data_type.now (product inner.now) contents.now) 0 0
        inner.now band.now) result }
    ensures tight { IfOk result (IsTight data_type.now) }
{
    inner.as_slice();
    let whole = inner.num_elements()?;
    let count = shape.num_elements()?;
    let elements = with_room(
        alloc, elements, done, contents, count, numbers, limit, data_type,
    )?;
    append_band(
        alloc, elements, done, contents, whole, inner, band, data_type,
    )
}

/// The chunk of these numbers of an index. Errors: of the first inner chunk that has one, those of
/// `read_elements`.
#[cycle(decode)]
pub(crate) fn read_bands<'a, B: BytesToBytesCodecTraits>(
    alloc: Global,
    chain: &CodecChain<B>,
    inner: &ChunkShape,
    value: &[u8],
    numbers: &[usize],
    form: Form<'_>,
) -> Result<ArrayBytes<'a>, CodecError>
    requires form { IsShardForm inner.now form.shape.now form.data_type.now form.fill_value.now }
    requires len { length numbers.now ≡ inner_chunk_count inner.now form.shape.now * 2 }
    // Wide: the form, the value, and the numbers of its index.
    ensures answer { ReadsAll B.functions chain.now inner.now (lent_form form.entry)
        value.now numbers.now result }
    ensures tight { IfOk result (IsTight form.entry.data_type.now) }
{
    let (shape, data_type) = (form.shape, form.data_type);
    inner.as_slice();
    shape.as_slice();
    let band = band_shape(alloc, inner, shape)?;
    let sizes = band_sizes(alloc, inner, shape, &band, numbers.len() / 2)?;
    let blank = blank_chunk(alloc, inner, form)?;
    let inner_form = Form {
        shape: inner,
        ..form
    };
    let mut elements = empty_chunk(alloc, 0, 0, data_type)?;
    let mut done = 0;
    for number in 0..sizes.count {
        let part = band_numbers(numbers, sizes.chunks, number);
        let contents = read_band(alloc, chain, inner_form, value, part, &blank)?;
        elements = join_band(
            alloc,
            elements,
            done,
            contents.as_slice(),
            inner,
            shape,
            &band,
            numbers,
            value.len(),
            data_type,
        )?;
        done += sizes.elements;
    }
    Ok(elements)
}
