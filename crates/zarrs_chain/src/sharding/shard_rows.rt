//! The chunk of a value through `sharding_indexed`, row by row, where elements have one size.
ghost use Rattle.std.specs.Prelude.{◌≡◌, ◌*◌, ◌/◌, All, IfOk, Ok, Some, false, true, is_none, length};
ghost use Rattle.zarrs_chunk.specs.Answer.{GivesBy, checked_u64};
ghost use Rattle.zarrs_chunk.specs.ChunkShape.{product};
ghost use Rattle.zarrs_data_type.specs.ElementType.{fixed_size_of};
ghost use Rattle.zarrs_data_type.specs.FillValue.{fill_fits};
ghost use Rattle.zarrs_array_bytes.specs.Held.{flen, raw_of};
ghost use Rattle.zarrs_array_bytes.specs.Tight.{IsTight};
ghost use Rattle.zarrs_array_bytes.specs.Validity.{Holds, sizes_fit, validity};
ghost use Rattle.zarrs_chain_meaning.specs.sharding.InnerChunks.{inner_chunk_count};
ghost use Rattle.zarrs_bytes.specs.PartialWrite.{filled_chunk};
ghost use Rattle.zarrs_chain_meaning.specs.vlen.VlenSteps.{lent_bytes};
ghost use Rattle.zarrs_chain.specs.sharding.ShardingCalls.{IsShardForm};
ghost use Rattle.zarrs_chain.specs.sharding.ShardRows.{ReadsStoredBytes, ReadsInnerBytes, ReadsAllBytes};
ghost use Rattle.zarrs_chain.specs.sharding.ShardWalk.{ReadsAll};
ghost use Rattle.zarrs_chain.specs.FormView.{lent_form};

use crate::codec_chain::CodecChain;
use crate::decode::chain_decode;
use crate::form::Form;
use crate::sharding::shard_decode::has_span;
use std::alloc::Global;
use std::borrow::CowSlice;
use zarrs_array_bytes::{ArrayBytes, ArrayBytesRaw};
use zarrs_chain_meaning::sharding::shard_parts::bytes_at;
use zarrs_chunk::{ChunkShape, CodecError};
use zarrs_codec::BytesToBytesCodecTraits;
use zarrs_shard_bytes::joined_rows::joined_rows;

/// The bytes of an inner chunk that is stored. Errors: `InvalidByteRange`; those of the chain.
#[cycle(decode)]
fn read_stored_bytes<'a, B: BytesToBytesCodecTraits>(
    alloc: Global,
    chain: &CodecChain<B>,
    form: Form<'_>,
    value: &'a [u8],
    span: (usize, usize),
) -> Result<ArrayBytesRaw<'a>, CodecError>
    requires fixed { is_none (fixed_size_of form.data_type.now) ≡ false }
    ensures answer { ReadsStoredBytes B.functions chain.now (lent_form form.entry)
        value.now span result }
    ensures whole { IfOk result (λ content. validity
        form.entry.data_type.now (product form.entry.shape.now) (flen (raw_of content)) ≡ Ok tt) }
{
    let part = CowSlice::Borrowed(bytes_at(value, span.0, span.1)?);
    let content = chain_decode(alloc, chain, part, form)?;
    content.into_fixed()
}

/// The bytes of an inner chunk, which are the blank ones where it isn't stored. Errors: those of
/// `read_stored_bytes`.
#[cycle(decode)]
fn read_inner_bytes<'a, B: BytesToBytesCodecTraits>(
    alloc: Global,
    chain: &CodecChain<B>,
    form: Form<'_>,
    value: &'a [u8],
    span: (usize, usize),
    blank: &'a [u8],
) -> Result<ArrayBytesRaw<'a>, CodecError>
    requires fixed { is_none (fixed_size_of form.data_type.now) ≡ false }
    requires blank { Holds form.data_type.now (flen (lent_bytes blank.now))
        (filled_chunk form.shape.now form.data_type.now form.fill_value.now) }
    ensures answer { ReadsInnerBytes B.functions chain.now (lent_form form.entry)
        value.now span result }
    ensures whole { IfOk result (λ content. validity
        form.entry.data_type.now (product form.entry.shape.now) (flen (raw_of content)) ≡ Ok tt) }
{
    if !has_span(span) {
        return Ok(CowSlice::Borrowed(blank));
    }
    read_stored_bytes(alloc, chain, form, value, span)
}

/// The bytes of each inner chunk. Errors: of the first inner chunk that has one, those of
/// `read_inner_bytes`.
#[cycle(decode)]
fn read_all_bytes<'a, B: BytesToBytesCodecTraits>(
    alloc: Global,
    chain: &CodecChain<B>,
    form: Form<'_>,
    value: &'a [u8],
    numbers: &[usize],
    blank: &'a [u8],
) -> Result<Vec<ArrayBytesRaw<'a>>, CodecError>
    requires fixed { is_none (fixed_size_of form.data_type.now) ≡ false }
    requires blank { Holds form.data_type.now (flen (lent_bytes blank.now))
        (filled_chunk form.shape.now form.data_type.now form.fill_value.now) }
    ensures answer { ReadsAllBytes B.functions chain.now (lent_form form.entry)
        value.now numbers.now result }
    ensures all { IfOk result (λ contents. length contents.items ≡ length numbers.now / 2) }
    ensures whole { IfOk result (λ contents. All (λ content. validity form.entry.data_type.now
        (product form.entry.shape.now) (flen (raw_of content)) ≡ Ok tt) contents.items) }
{
    let mut contents = Vec::with_capacity(alloc, numbers.len() / 2)?;
    for number in 0..numbers.len() / 2 {
        let span = (numbers[number * 2], numbers[number * 2 + 1]);
        let content = read_inner_bytes(alloc, chain, form, value, span, blank)?;
        contents.push(content)?;
    }
    Ok(contents)
}

/// The inner chunk of fill elements. Errors: `OutOfMemory`.
pub(crate) fn blank_inner_chunk<'b>(
    alloc: Global,
    form: Form<'_>,
) -> Result<ArrayBytes<'b>, CodecError>
    requires filling { fill_fits form.data_type.now form.fill_value.now ≡ true }
    requires counted { checked_u64 (product form.shape.now) ≡ Ok (product form.shape.now) }
    requires room { sizes_fit form.data_type.now (product form.shape.now) ≡ Ok tt }
    ensures answer { GivesBy (Holds form.entry.data_type.now) result (Ok (filled_chunk
        form.entry.shape.now form.entry.data_type.now form.entry.fill_value.now)) }
    ensures tight { IfOk result (IsTight form.entry.data_type.now) }
{
    let count = form.shape.num_elements()?;
    ArrayBytes::new_fill_value(alloc, form.data_type, count, form.fill_value)
}

/// The chunk of these numbers of an index, of elements that have so many bytes: the bytes of each
/// inner chunk are read first, and then the chunk's rows are made of theirs. So there is no chunk
/// of fill elements whose elements are overwritten. Errors: of the first inner chunk that has one, those of
/// `read_inner_bytes`.
#[cycle(decode)]
pub(crate) fn read_rows<'a, B: BytesToBytesCodecTraits>(
    alloc: Global,
    chain: &CodecChain<B>,
    inner: &ChunkShape,
    value: &[u8],
    numbers: &[usize],
    form: Form<'_>,
    size: usize,
) -> Result<ArrayBytes<'a>, CodecError>
    requires form { IsShardForm inner.now form.shape.now form.data_type.now form.fill_value.now }
    requires fixed { fixed_size_of form.data_type.now ≡ Some size }
    requires len { length numbers.now ≡ inner_chunk_count inner.now form.shape.now * 2 }
    // Wide: the form, the value, and the numbers of its index.
    ensures answer { ReadsAll B.functions chain.now inner.now (lent_form form.entry)
        value.now numbers.now result }
    ensures tight { IfOk result (IsTight form.entry.data_type.now) }
{
    inner.as_slice();
    form.shape.as_slice();
    let inner_form = Form {
        shape: inner,
        ..form
    };
    let blank = blank_inner_chunk(alloc, inner_form)?;
    let bytes = blank.as_fixed()?;
    let contents = read_all_bytes(alloc, chain, inner_form, value, numbers, bytes)?;
    joined_rows(
        alloc,
        contents.as_slice(),
        inner,
        form.shape,
        form.data_type,
        size,
    )
}
