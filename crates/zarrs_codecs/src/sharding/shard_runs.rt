//! Reading runs of places through `sharding_indexed`: the index, and then of each inner chunk that has
//! any of the places what is read of its own bytes.
ghost use Rattle.std.specs.Prelude.{◌≡◌, ◌*◌, ◌<◌, ◌^◌, IfOk, IfSome, Ok, length, true, false};
ghost use Rattle.zarrs_array_bytes.specs.Tight.{IsTight};
ghost use Rattle.zarrs_chain.specs.ChainView.{plain_sharding};
ghost use Rattle.zarrs_chain.specs.FormView.{lent_form};
ghost use Rattle.zarrs_chain_meaning.specs.sharding.Sharding.{spans_of};
ghost use Rattle.zarrs_chunk.specs.Answer.{is_fault};
ghost use Rattle.zarrs_chunk.specs.ChunkShape.{product};
ghost use Rattle.zarrs_chunk.specs.Runs.{AreFilled, EndWithin, joined_runs};
ghost use Rattle.zarrs_codecs.specs.ChunkRead.{ChunkReadsRuns, SureRuns, TakenBy};
ghost use Rattle.zarrs_codecs.specs.CodecPart.{codec_rests_on, rests_where};
ghost use Rattle.zarrs_codecs.specs.HandleReads.{HandleReads};
ghost use Rattle.zarrs_codecs.specs.KeptIndex.{IsIndex};
ghost use Rattle.zarrs_codecs.specs.SpanReads.{AreInnerRuns, PutsInOrder, ReadsGroups, ReadsSpan, StandsIn, SureGroups, SurePlaces, SureSpan, seen_state};
ghost use Rattle.zarrs_codecs.specs.TakenChain.{inner_form};

use crate::partial_decoder::fill_runs::{fill_runs, room_for_elements};
use crate::sharding::index_read::index_numbers;
use crate::sharding::inner_reads::chain_in_span;
use crate::sharding::joint_reads::read_groups_ahead;
use crate::sharding::taken_chain::TakenChain;
use crate::sharding::taken_parts::taken_parts;
use crate::sharding::value_span::ValueSpan;
use std::alloc::Global;
use zarrs_array_bytes::{ArrayBytes, append_elements};
use zarrs_chain::ShardingCodec;
use zarrs_chain::stages::{Form, ShardingParts, has_span};
use zarrs_chunk::{CodecError, count_places};
use zarrs_codec::{BytesPartialDecoderTraits, BytesToBytesCodecTraits};
use zarrs_data_type::DataType;
use zarrs_lent_handles::{AheadHandle, ReadAheadTraits};
use zarrs_shard_runs::{InnerRuns, group_runs};

/// The elements at the places of these runs of the inner chunk of these two numbers of the index.
#[cycle(read)]
fn read_group<H: ReadAheadTraits, B: BytesToBytesCodecTraits>(
    alloc: Global,
    taken: &TakenChain<'_, B>,
    handle: &mut H,
    span: &ValueSpan<'_>,
    place: (usize, usize),
    runs: &[(u64, u64)],
) -> Result<ArrayBytes<'static>, CodecError>
    requires stands { StandsIn span.now (H.state handle.old) }
    requires filled { AreFilled runs.now }
    requires below { EndWithin (product (inner_form taken.now).sizes) runs.now }
    requires count { length (joined_runs runs.now) < 2 ^ 64 }
    ensures answer { ReadsSpan taken.now (seen_state span.now (H.state handle.old)) place
        (joined_runs runs.now) result }
    ensures tight { IfOk result (IsTight (inner_form taken.now).type) }
    ensures sure { SureSpan taken.now (seen_state span.now (H.state handle.old)) place
        (joined_runs runs.now) result }
    ensures left { HandleReads H.state H.lent handle.old handle.new result }
{
    if !has_span(place) {
        return fill_runs(alloc, taken.form.data_type, taken.form.fill_value, runs);
    }
    let inside = span.inside(place.0 as u64, place.1 as u64)?;
    chain_in_span(alloc, taken, handle, &inside, runs)
}

/// The elements at the places of a group that is alone: what is read of it, which is joined to nothing.
#[cycle(read)]
fn read_alone<H: ReadAheadTraits, B: BytesToBytesCodecTraits>(
    alloc: Global,
    taken: &TakenChain<'_, B>,
    handle: &mut H,
    span: &ValueSpan<'_>,
    numbers: &[usize],
    groups: &[InnerRuns],
) -> Result<ArrayBytes<'static>, CodecError>
    requires stands { StandsIn span.now (H.state handle.old) }
    requires groups { AreInnerRuns (inner_form taken.now).sizes (length (spans_of numbers.now))
        groups.now }
    requires numbers { length numbers.now ≡ length (spans_of numbers.now) * 2 }
    requires one { length groups.now ≡ 1 }
    ensures answer { ReadsGroups taken.now (seen_state span.now (H.state handle.old)) numbers.now
        groups.now result }
    ensures tight { IfOk result (IsTight (inner_form taken.now).type) }
    ensures sure { SureGroups taken.now (seen_state span.now (H.state handle.old)) numbers.now
        groups.now result }
    ensures left { HandleReads H.state H.lent handle.old handle.new result }
{
    let group = &groups[0];
    let number = group.number as usize;
    let place = (numbers[number * 2], numbers[number * 2 + 1]);
    read_group(alloc, taken, handle, span, place, group.runs.as_slice())
}

/// The elements at the places of groups, one group behind the other. Where it is known what is read of
/// each of several, the handle gets all of it by one call. Elements of one size are joined in room for
/// so many.
#[cycle(read)]
fn read_groups<H: ReadAheadTraits, B: BytesToBytesCodecTraits>(
    alloc: Global,
    taken: &TakenChain<'_, B>,
    handle: &mut H,
    span: &ValueSpan<'_>,
    numbers: &[usize],
    groups: &[InnerRuns],
    room: u64,
) -> Result<ArrayBytes<'static>, CodecError>
    requires stands { StandsIn span.now (H.state handle.old) }
    requires groups { AreInnerRuns (inner_form taken.now).sizes (length (spans_of numbers.now))
        groups.now }
    requires numbers { length numbers.now ≡ length (spans_of numbers.now) * 2 }
    ensures answer { ReadsGroups taken.now (seen_state span.now (H.state handle.old)) numbers.now
        groups.now result }
    ensures tight { IfOk result (IsTight (inner_form taken.now).type) }
    ensures sure { SureGroups taken.now (seen_state span.now (H.state handle.old)) numbers.now
        groups.now result }
    ensures left { HandleReads H.state H.lent handle.old handle.new result }
{
    if groups.len() == 1 {
        return read_alone(alloc, taken, handle, span, numbers, groups);
    }
    read_groups_ahead(alloc, taken, handle, span, numbers, groups)?;
    let Form {
        data_type,
        fill_value,
        ..
    } = taken.form;
    let mut joined = room_for_elements(alloc, data_type, fill_value, room)?;
    let mut count = 0;
    for group in groups {
        let number = group.number as usize;
        let place = (numbers[number * 2], numbers[number * 2 + 1]);
        let runs = group.runs.as_slice();
        let more = count_places(runs);
        let part = read_group(alloc, taken, handle, span, place, runs)?;
        joined = append_elements(alloc, joined, count, &part, more, data_type)?;
        count += more;
    }
    Ok(joined)
}

/// The elements in an order, where there is one.
fn in_order(
    alloc: Global,
    elements: ArrayBytes<'static>,
    order: Option<Vec<(u64, u64)>>,
    count: u64,
    kind: &DataType,
) -> Result<ArrayBytes<'static>, CodecError>
    requires inside { IfSome order (λ order. EndWithin count order.items) }
    ensures answer { PutsInOrder kind.now count elements.entry order result }
    ensures tight { IsTight kind.now elements.entry → IfOk result (IsTight kind.now) }
    ensures no_fault { is_fault result ≡ false }
{
    match order {
        None => Ok(elements),
        Some(order) => elements.extract_runs(alloc, order.as_slice(), count, kind),
    }
}

/// The elements at the places of these runs of a chunk that the codec takes, whose value stands in a
/// span, by the numbers of its index. Errors, of each inner chunk that has any of the places, in the
/// order of their numbers: `InvalidByteRange` where its bytes end behind the value, and those of its
/// own read.
#[cycle(read)]
pub(crate) fn shard_by_index<H: ReadAheadTraits, B: BytesToBytesCodecTraits>(
    alloc: Global,
    codec: &ShardingCodec<B>,
    handle: &mut H,
    span: &ValueSpan<'_>,
    numbers: &[usize],
    form: Form<'_>,
    runs: &[(u64, u64)],
) -> Result<ArrayBytes<'static>, CodecError>
    requires taken { TakenBy B.functions (plain_sharding codec.now) (lent_form form) }
    requires stands { StandsIn span.now (H.state handle.old) }
    requires index { IsIndex B.functions (plain_sharding codec.now) form.shape.now
        (seen_state span.now (H.state handle.old)).value numbers.now }
    requires numbers { length numbers.now ≡ length (spans_of numbers.now) * 2 }
    requires filled { AreFilled runs.now }
    requires below { EndWithin (product form.shape.now) runs.now }
    requires count { length (joined_runs runs.now) < 2 ^ 64 }
    ensures answer { ChunkReadsRuns B.functions (plain_sharding codec.now) (lent_form form.entry)
        (seen_state span.now (H.state handle.old)) runs.now result }
    ensures tight { IfOk result (IsTight form.entry.data_type.now) }
    ensures sure { SurePlaces (rests_where true B.functions (plain_sharding codec.now)) (lent_form
        form.entry) (seen_state span.now (H.state handle.old)) (joined_runs runs.now) result }
    ensures left { HandleReads H.state H.lent handle.old handle.new result }
{
    let ShardingParts {
        chunk_shape: inner,
        codecs: chain,
        index_codecs: _,
        is_index_at_end: _,
    } = taken_parts(codec, form);
    let inside = Form {
        shape: inner,
        ..form
    };
    let taken = TakenChain::new(alloc, chain, inside)?;
    let grouped = group_runs(alloc, inner, form.shape, runs)?;
    let groups = grouped.groups.as_slice();
    let count = count_places(runs);
    let joined = read_groups(alloc, &taken, handle, span, numbers, groups, count)?;
    in_order(alloc, joined, grouped.order, count, form.data_type)
}

/// The elements at the places of these runs of a chunk that the codec takes, whose value stands in a
/// span. Errors, the first that holds, `OutOfMemory` aside: `Storage`; `InvalidBytesLength` where the
/// value has fewer bytes than the index; those of the index chain; then those of `shard_by_index`.
#[cycle(read)]
pub(crate) fn shard_in_span<H: ReadAheadTraits, B: BytesToBytesCodecTraits>(
    alloc: Global,
    codec: &ShardingCodec<B>,
    handle: &mut H,
    span: &ValueSpan<'_>,
    form: Form<'_>,
    runs: &[(u64, u64)],
) -> Result<ArrayBytes<'static>, CodecError>
    requires taken { TakenBy B.functions (plain_sharding codec.now) (lent_form form) }
    requires stands { StandsIn span.now (H.state handle.old) }
    requires filled { AreFilled runs.now }
    requires below { EndWithin (product form.shape.now) runs.now }
    requires count { length (joined_runs runs.now) < 2 ^ 64 }
    ensures answer { ChunkReadsRuns B.functions (plain_sharding codec.now) (lent_form form.entry)
        (seen_state span.now (H.state handle.old)) runs.now result }
    ensures tight { IfOk result (IsTight form.entry.data_type.now) }
    ensures sure { SurePlaces (codec_rests_on B.functions (plain_sharding codec.now)) (lent_form
        form.entry) (seen_state span.now (H.state handle.old)) (joined_runs runs.now) result }
    ensures left { HandleReads H.state H.lent handle.old handle.new result }
{
    let ShardingParts {
        chunk_shape: inner,
        codecs: _,
        index_codecs: index,
        is_index_at_end: at_end,
    } = taken_parts(codec, form);
    let found = index_numbers(alloc, index, inner, at_end, handle, span, form.shape)?;
    let numbers = found.as_slice();
    shard_by_index(alloc, codec, handle, span, numbers, form, runs)
}

/// The same over any handle, which is asked by one call for what is known to be read.
fn shard_ahead<H: BytesPartialDecoderTraits, B: BytesToBytesCodecTraits>(
    alloc: Global,
    codec: &ShardingCodec<B>,
    handle: &mut H,
    span: &ValueSpan<'_>,
    form: Form<'_>,
    runs: &[(u64, u64)],
) -> Result<ArrayBytes<'static>, CodecError>
    requires taken { TakenBy B.functions (plain_sharding codec.now) (lent_form form) }
    requires stands { StandsIn span.now (H.state handle.old) }
    requires filled { AreFilled runs.now }
    requires below { EndWithin (product form.shape.now) runs.now }
    requires count { length (joined_runs runs.now) < 2 ^ 64 }
    ensures answer { ChunkReadsRuns B.functions (plain_sharding codec.now) (lent_form form.entry)
        (seen_state span.now (H.state handle.old)) runs.now result }
    ensures tight { IfOk result (IsTight form.entry.data_type.now) }
    ensures sure { SurePlaces (codec_rests_on B.functions (plain_sharding codec.now)) (lent_form
        form.entry) (seen_state span.now (H.state handle.old)) (joined_runs runs.now) result }
    ensures left { HandleReads H.state H.lent handle.old handle.new result }
{
    let mut ahead = AheadHandle::new(alloc, handle);
    let read = shard_in_span::<AheadHandle<'_, H>, B>(alloc, codec, &mut ahead, span, form, runs);
    ahead.into_handle();
    read
}

/// The elements at the places of these runs of a chunk that the codec takes, over a handle that keeps
/// its value: the fill value at each place where nothing is stored. Errors, the first that holds,
/// `OutOfMemory` aside: `Storage`; those of `shard_in_span`.
pub(crate) fn shard_runs<H: BytesPartialDecoderTraits, B: BytesToBytesCodecTraits>(
    alloc: Global,
    codec: &ShardingCodec<B>,
    handle: &mut H,
    form: Form<'_>,
    runs: &[(u64, u64)],
) -> Result<ArrayBytes<'static>, CodecError>
    requires taken { TakenBy B.functions (plain_sharding codec.now) (lent_form form) }
    requires filled { AreFilled runs.now }
    requires below { EndWithin (product form.shape.now) runs.now }
    requires count { length (joined_runs runs.now) < 2 ^ 64 }
    ensures answer { ChunkReadsRuns B.functions (plain_sharding codec.now) (lent_form form.entry)
        (H.state handle.old) runs.now result }
    ensures tight { IfOk result (IsTight form.entry.data_type.now) }
    ensures sure { SureRuns B.functions (plain_sharding codec.now) (lent_form form.entry) (H.state
        handle.old) runs.now result }
    ensures left { HandleReads H.state H.lent handle.old handle.new result }
{
    let ShardingParts {
        chunk_shape: _,
        codecs: _,
        index_codecs: _,
        is_index_at_end: _,
    } = taken_parts(codec, form);
    match handle.size()? {
        None => fill_runs(alloc, form.data_type, form.fill_value, runs),
        Some(len) => {
            let span = ValueSpan::stored(len);
            shard_ahead(alloc, codec, handle, &span, form, runs)
        }
    }
}
