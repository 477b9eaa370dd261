//! Reading a box of a shard by its index. It stays a box: its part in each inner chunk is read there, and
//! put where it belongs.
ghost use Rattle.std.specs.Prelude.{◌≡◌, ◌+◌, ◌*◌, ◌<◌, ◌^◌, get_or, IfOk, Ok, Some, length, true};
ghost use Rattle.zarrs_array_bytes.specs.Tight.{IsTight};
ghost use Rattle.zarrs_array_regions.specs.WindowLaws.{region_places};
ghost use Rattle.zarrs_chain.specs.ChainView.{plain_sharding};
ghost use Rattle.zarrs_chain.specs.FormView.{lent_form};
ghost use Rattle.zarrs_chain_meaning.specs.sharding.Sharding.{spans_of};
ghost use Rattle.zarrs_chunk.specs.Answer.{Answers, memory};
ghost use Rattle.zarrs_chunk.specs.ChunkShape.{product};
ghost use Rattle.zarrs_chunk.specs.Runs.{AreFilled, EndWithin, joined_runs};
ghost use Rattle.zarrs_chunk.specs.Tuples.{is_box_inside};
ghost use Rattle.zarrs_codecs.specs.ChunkRead.{TakenBy};
ghost use Rattle.zarrs_codecs.specs.HandleReads.{HandleReads};
ghost use Rattle.zarrs_codecs.specs.KeptIndex.{IsIndex, codec_index, index_seen};
ghost use Rattle.zarrs_codecs.specs.SpanReads.{ReadsBox, ReadsChain, ReadsSpan, StandsIn, SureBox, SureChain, SureSpan, seen_state};
ghost use Rattle.zarrs_codecs.specs.TakenChain.{inner_form};

use crate::partial_decoder::fill_runs::fill_runs;
use crate::sharding::inner_reads::{indexed_in_span, region_in_span};
use crate::sharding::part_reads::read_parts;
use crate::sharding::shard_index::ShardIndex;
use crate::sharding::shard_runs::shard_by_index;
use crate::sharding::taken_chain::TakenChain;
use crate::sharding::taken_parts::taken_parts;
use crate::sharding::value_span::ValueSpan;
use std::alloc::Global;
use zarrs_array_bytes::ArrayBytes;
use zarrs_array_regions::{keeps_regions, region_runs};
use zarrs_chain::ShardingCodec;
use zarrs_chain::stages::{Form, ShardingParts, has_span};
use zarrs_chain_meaning::sharding::inner_chunks::inner_chunk_grid;
use zarrs_chunk::{ArraySubset, ChunkShape, CodecError, Indexer};
use zarrs_codec::{BytesPartialDecoderTraits, BytesToBytesCodecTraits};
use zarrs_grid::plan_region;
use zarrs_lent_handles::{AheadHandle, ReadAheadTraits};
use zarrs_shard_runs::inner_box;

/// The runs of a box of a chunk of this shape. Errors: `OutOfMemory`.
pub(crate) fn box_runs(
    alloc: Global,
    shape: &ChunkShape,
    region: &ArraySubset,
) -> Result<Vec<(u64, u64)>, CodecError>
    requires counted { product shape.now < 2 ^ 64 }
    requires inside { is_box_inside shape.now region.now.starts region.now.lengths ≡ true }
    requires filled { 0 < product region.now.lengths }
    ensures answer { Answers memory (λ runs. joined_runs runs.items) result
        (Ok (region_places shape.now region.now)) }
    ensures filled { IfOk result (λ runs. AreFilled runs.items) }
    ensures below { IfOk result (λ runs. EndWithin (product shape.now) runs.items) }
    ensures count { IfOk result (λ runs. length (joined_runs runs.items) < 2 ^ 64) }
{
    region_runs(alloc, &[], shape, region)
}

/// The lengths of a box that has elements, as a shape. Errors: `OutOfMemory`.
fn box_shape(alloc: Global, region: &ArraySubset) -> Result<ChunkShape, CodecError>
    requires filled { 0 < product region.now.lengths }
    ensures answer { Answers memory (λ shape. shape) result (Ok region.now.lengths) }
{
    let lengths = Vec::from_slice(alloc, region.shape())?;
    Ok(ChunkShape::new(lengths).unwrap())
}

/// The elements of a box that has some, of a chunk that the chain takes, whose value stands in a span.
/// The box goes through the array-to-array codecs as a box, where they keep regions.
fn chain_box<H: ReadAheadTraits, B: BytesToBytesCodecTraits>(
    alloc: Global,
    taken: &TakenChain<'_, B>,
    handle: &mut H,
    span: &ValueSpan<'_>,
    region: &ArraySubset,
) -> Result<ArrayBytes<'static>, CodecError>
    requires stands { StandsIn span.now (H.state handle.old) }
    requires inside { is_box_inside (inner_form taken.now).sizes region.now.starts
        region.now.lengths ≡ true }
    requires filled { 0 < product region.now.lengths }
    ensures answer { ReadsChain taken.now (seen_state span.now (H.state handle.old))
        (region_places (inner_form taken.now).sizes region.now) result }
    ensures tight { IfOk result (IsTight (inner_form taken.now).type) }
    ensures sure { SureChain taken.now (seen_state span.now (H.state handle.old))
        (region_places (inner_form taken.now).sizes region.now) result }
    ensures left { HandleReads H.state H.lent handle.old handle.new result }
{
    if keeps_regions(taken.chain.array_to_array_codecs()) {
        return region_in_span(alloc, taken, handle, span, region);
    }
    let own = region.clone()?;
    indexed_in_span(alloc, taken, handle, span, &Indexer::Subset(own))
}

/// The elements of a box of the inner chunk of these two numbers of the index.
pub(crate) fn read_inner_box<H: ReadAheadTraits, B: BytesToBytesCodecTraits>(
    alloc: Global,
    taken: &TakenChain<'_, B>,
    handle: &mut H,
    span: &ValueSpan<'_>,
    place: (usize, usize),
    region: &ArraySubset,
) -> Result<ArrayBytes<'static>, CodecError>
    requires stands { StandsIn span.now (H.state handle.old) }
    requires inside { is_box_inside (inner_form taken.now).sizes region.now.starts
        region.now.lengths ≡ true }
    requires filled { 0 < product region.now.lengths }
    ensures answer { ReadsSpan taken.now (seen_state span.now (H.state handle.old)) place
        (region_places (inner_form taken.now).sizes region.now) result }
    ensures tight { IfOk result (IsTight (inner_form taken.now).type) }
    ensures sure { SureSpan taken.now (seen_state span.now (H.state handle.old)) place
        (region_places (inner_form taken.now).sizes region.now) result }
    ensures left { HandleReads H.state H.lent handle.old handle.new result }
{
    if !has_span(place) {
        let runs = box_runs(alloc, taken.form.shape, region)?;
        return fill_runs(alloc, taken.form.data_type, taken.form.fill_value, &runs);
    }
    let inside = span.inside(place.0 as u64, place.1 as u64)?;
    chain_box(alloc, taken, handle, &inside, region)
}

/// The two numbers of an index for the inner chunk of this number.
pub(crate) fn place_of(numbers: &[usize], number: u64) -> (usize, usize)
    requires there { number * 2 + 1 < length numbers.now }
    ensures value { result ≡ get_or (spans_of numbers.now) number (0, 0) }
{
    let at = number as usize * 2;
    (numbers[at], numbers[at + 1])
}

/// The elements of a box that has some, of a chunk that the codec takes, whose value stands in a span,
/// by the numbers of its index, where the box lies in several inner chunks. Elements of one size are put
/// where they belong; of others each such write would make the whole anew. Errors: those of
/// `shard_by_index`.
fn box_by_parts<H: ReadAheadTraits, B: BytesToBytesCodecTraits>(
    alloc: Global,
    codec: &ShardingCodec<B>,
    handle: &mut H,
    span: &ValueSpan<'_>,
    numbers: &[usize],
    form: Form<'_>,
    region: &ArraySubset,
) -> Result<ArrayBytes<'static>, CodecError>
    requires taken { TakenBy B.functions (plain_sharding codec.now) (lent_form form) }
    requires stands { StandsIn span.now (H.state handle.old) }
    requires index { IsIndex B.functions (plain_sharding codec.now) form.shape.now
        (seen_state span.now (H.state handle.old)).value numbers.now }
    requires numbers { length numbers.now ≡ length (spans_of numbers.now) * 2 }
    requires inside { is_box_inside form.shape.now region.now.starts region.now.lengths ≡ true }
    requires filled { 0 < product region.now.lengths }
    ensures answer { ReadsBox B.functions (plain_sharding codec.now) (lent_form form.entry)
        (seen_state span.now (H.state handle.old)) region.now result }
    ensures tight { IfOk result (IsTight form.entry.data_type.now) }
    ensures sure { SureBox B.functions (plain_sharding codec.now) (lent_form form.entry)
        (seen_state span.now (H.state handle.old)) region.now result }
    ensures left { HandleReads H.state H.lent handle.old handle.new result }
{
    let ShardingParts {
        chunk_shape: inner,
        codecs: chain,
        index_codecs: _,
        is_index_at_end: _,
    } = taken_parts(codec, form);
    if form.data_type.fixed_size().is_none() {
        let runs = box_runs(alloc, form.shape, region)?;
        return shard_by_index(alloc, codec, handle, span, numbers, form, &runs);
    }
    let inside = Form {
        shape: inner,
        ..form
    };
    let taken = TakenChain::new(alloc, chain, inside)?;
    let grid = inner_chunk_grid(alloc, form.shape, inner)?;
    let lengths = box_shape(alloc, region)?;
    let parts = plan_region(alloc, inner, region)?;
    let parts = parts.as_slice();
    read_parts(alloc, &taken, handle, span, numbers, &grid, &lengths, parts)
}

/// The elements of a box that has some, of a chunk that the codec takes, whose value stands in a span,
/// by the numbers of its index. One that lies in one inner chunk is moved there, and what is read is the
/// answer. Errors: those of `shard_by_index`.
fn box_in_span<H: ReadAheadTraits, B: BytesToBytesCodecTraits>(
    alloc: Global,
    codec: &ShardingCodec<B>,
    handle: &mut H,
    span: &ValueSpan<'_>,
    numbers: &[usize],
    form: Form<'_>,
    region: &ArraySubset,
) -> Result<ArrayBytes<'static>, CodecError>
    requires taken { TakenBy B.functions (plain_sharding codec.now) (lent_form form) }
    requires stands { StandsIn span.now (H.state handle.old) }
    requires index { IsIndex B.functions (plain_sharding codec.now) form.shape.now
        (seen_state span.now (H.state handle.old)).value numbers.now }
    requires numbers { length numbers.now ≡ length (spans_of numbers.now) * 2 }
    requires inside { is_box_inside form.shape.now region.now.starts region.now.lengths ≡ true }
    requires filled { 0 < product region.now.lengths }
    ensures answer { ReadsBox B.functions (plain_sharding codec.now) (lent_form form.entry)
        (seen_state span.now (H.state handle.old)) region.now result }
    ensures tight { IfOk result (IsTight form.entry.data_type.now) }
    ensures sure { SureBox B.functions (plain_sharding codec.now) (lent_form form.entry)
        (seen_state span.now (H.state handle.old)) region.now result }
    ensures left { HandleReads H.state H.lent handle.old handle.new result }
{
    let ShardingParts {
        chunk_shape: inner,
        codecs: chain,
        index_codecs: _,
        is_index_at_end: _,
    } = taken_parts(codec, form);
    let inside = Form {
        shape: inner,
        ..form
    };
    let Some(found) = inner_box(alloc, inner, form.shape, region)? else {
        return box_by_parts(alloc, codec, handle, span, numbers, form, region);
    };
    let taken = TakenChain::new(alloc, chain, inside)?;
    let place = place_of(numbers, found.number);
    read_inner_box(alloc, &taken, handle, span, place, &found.region)
}

/// The elements of a box that has some, of a chunk that the codec takes, over a handle that keeps its
/// value, by the index that was read of it. Errors: `Storage`; those of `shard_by_index`.
pub(crate) fn box_by_index<H: BytesPartialDecoderTraits, B: BytesToBytesCodecTraits>(
    alloc: Global,
    codec: &ShardingCodec<B>,
    handle: &mut H,
    index: &ShardIndex,
    form: Form<'_>,
    region: &ArraySubset,
) -> Result<ArrayBytes<'static>, CodecError>
    requires taken { TakenBy B.functions (plain_sharding codec.now) (lent_form form) }
    requires index { codec_index B.functions (plain_sharding codec.now) form.shape.now
        (H.state handle.old).value ≡ Ok (Some (index_seen index.now)) }
    requires inside { is_box_inside form.shape.now region.now.starts region.now.lengths ≡ true }
    requires filled { 0 < product region.now.lengths }
    ensures answer { ReadsBox B.functions (plain_sharding codec.now) (lent_form form.entry)
        (H.state handle.old) region.now result }
    ensures tight { IfOk result (IsTight form.entry.data_type.now) }
    ensures sure { SureBox B.functions (plain_sharding codec.now) (lent_form form.entry)
        (H.state handle.old) region.now result }
    ensures left { HandleReads H.state H.lent handle.old handle.new result }
{
    let span = ValueSpan::stored(index.len);
    let numbers = index.numbers.as_slice();
    let mut ahead = AheadHandle::new(alloc, handle);
    let read = box_in_span::<AheadHandle<'_, H>, B>(
        alloc, codec, &mut ahead, &span, numbers, form, region,
    );
    ahead.into_handle();
    read
}
