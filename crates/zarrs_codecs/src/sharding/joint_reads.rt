//! One reading call for all inner chunks of which it is known before what is read of them.
ghost use Rattle.std.specs.Prelude.{◌≡◌, [], ◌∷◌, ◌≤◌, ◌<◌, ◌*◌, ◌++◌, ◌^◌, IfErr, IfOk, IfSome, length, not, false, true};
ghost use Rattle.zarrs_chain.specs.ChainView.{plain_chain, plain_codec};
ghost use Rattle.zarrs_chain_meaning.specs.sharding.Sharding.{spans_of};
ghost use Rattle.zarrs_chunk.specs.Answer.{is_fault, memory_or_fault};
ghost use Rattle.zarrs_chunk.specs.ChunkShape.{product};
ghost use Rattle.zarrs_chunk.specs.Runs.{AreFilled, EndWithin, joined_runs};
ghost use Rattle.zarrs_chain.specs.FormView.{lent_form};
ghost use Rattle.zarrs_codecs.specs.ChunkRead.{TakenBy, asks_in_part};
ghost use Rattle.zarrs_codecs.specs.CodecPart.{codec_plans};
ghost use Rattle.zarrs_codecs.specs.HandleReads.{HandleReads};
ghost use Rattle.zarrs_codecs.specs.JointReads.{AddsRanges, AddsSpan, AreGroupRanges, AreRestedOn, PlacesRest, RestMoved, end_within};
ghost use Rattle.zarrs_codecs.specs.SpanReads.{AreInnerRuns, StandsIn, SureGroups, seen_state};
ghost use Rattle.zarrs_codecs.specs.TakenChain.{inner_form, moved_sizes};
ghost use Rattle.zarrs_lent_handles.specs.SpanHandle.{moved_ranges};

use crate::partial_decoder::codec_read::plans_reads;
use crate::partial_decoder::encoded_runs::encoded_runs;
use crate::sharding::taken_chain::TakenChain;
use crate::sharding::value_span::ValueSpan;
use std::alloc::{AllocError, Global};
use zarrs_array_regions::{kept_region, region_runs};
use zarrs_chain::stages::{Form, chain_is_sound, has_span};
use zarrs_chain::{ArrayToBytesCodec, CodecChain};
use zarrs_chunk::CodecError;
use zarrs_codec::{ByteRange, BytesToBytesCodecTraits, CodecTraits, room_for};
use zarrs_lent_handles::ReadAheadTraits;
use zarrs_shard_runs::{InnerRuns, runs_indexer};

/// Whether all bytes of a value are read, whichever places are asked for.
fn is_read_whole<B: BytesToBytesCodecTraits>(chain: &CodecChain<B>) -> bool
    ensures value { result ≡ not (asks_in_part (plain_chain chain.now).bytes_to_bytes
        (plain_chain chain.now).array_to_bytes) }
{
    match chain.bytes_to_bytes_codecs() {
        [] => {
            !chain
                .array_to_bytes_codec()
                .partial_decoder_capability()
                .partial_decode
        }
        _ => true,
    }
}

/// The range of a whole value of so many bytes.
fn whole_range(alloc: Global, len: u64) -> Result<Vec<ByteRange>, AllocError>
    ensures value { IfOk result (λ ranges. ranges.items ≡ record { start = 0; end = len } ∷ []) }
{
    match ByteRange::new(0..len) {
        None => unreachable!(),
        Some(range) => {
            let mut ranges = Vec::with_capacity(alloc, 1)?;
            ranges.push(range)?;
            Ok(ranges)
        }
    }
}

/// Where the places of these runs go in the chunk that the chain's array-to-bytes codec gets, as runs,
/// in the order in which they are read there.
fn moved_runs<B: BytesToBytesCodecTraits>(
    alloc: Global,
    taken: &TakenChain<'_, B>,
    runs: &[(u64, u64)],
) -> Result<Vec<(u64, u64)>, CodecError>
    requires filled { AreFilled runs.now }
    requires below { EndWithin (product (inner_form taken.now).sizes) runs.now }
    requires count { length (joined_runs runs.now) < 2 ^ 64 }
    ensures filled { IfOk result (λ moved. AreFilled moved.items) }
    ensures below { IfOk result (λ moved. EndWithin (product (moved_sizes taken.now)) moved.items) }
    ensures rested { IfOk result
        (λ moved. RestMoved taken.now (joined_runs runs.now) (joined_runs moved.items)) }
    ensures refused { IfErr result (λ error. memory_or_fault error ≡ true) }
    ensures no_fault { is_fault result ≡ false }
{
    chain_is_sound(taken.chain);
    let codecs = taken.chain.array_to_array_codecs();
    if codecs.is_empty() {
        let own = Vec::from_slice(alloc, runs)?;
        return Ok(own);
    }
    let shape = taken.form.shape;
    let indexer = runs_indexer(alloc, shape, runs)?;
    if let Some(region) = kept_region(codecs, shape, &indexer) {
        return region_runs(alloc, codecs, shape, region);
    }
    encoded_runs(alloc, codecs, shape, &indexer)
}

/// The ranges of the bytes of these runs' places, one for each run, as a read asks for them. Errors:
/// `OutOfMemory`.
#[tactic(auto, unfolding(zarrs_chain::specs::ChainView::plain_codec), using(zarrs_chain::specs::ChainView::plain_vlen_at, zarrs_chain::specs::ChainView::plain_optional_at, zarrs_chain::specs::ChainView::plain_sharding_at))]
fn place_ranges<B: BytesToBytesCodecTraits>(
    alloc: Global,
    codec: &ArrayToBytesCodec<B>,
    form: Form<'_>,
    runs: &[(u64, u64)],
) -> Result<Vec<ByteRange>, CodecError>
    requires taken { TakenBy B.functions (plain_codec codec.now) (lent_form form) }
    requires plans { codec_plans (plain_codec codec.now) ≡ true }
    requires filled { AreFilled runs.now }
    requires below { EndWithin (product form.shape.now) runs.now }
    ensures rested { IfOk result (λ ranges. PlacesRest B.functions (plain_codec codec.now)
        (lent_form form.entry) (joined_runs runs.now) ranges.items) }
    ensures refused { IfErr result (λ error. memory_or_fault error ≡ true) }
    ensures no_fault { is_fault result ≡ false }
{
    match codec {
        ArrayToBytesCodec::Bytes(codec) => {
            codec.planned_runs(alloc, form.data_type, form.fill_value, runs)
        }
        ArrayToBytesCodec::PackBits(codec) => {
            codec.planned_runs(alloc, form.shape, form.data_type, form.fill_value, runs)
        }
        _ => unreachable!(),
    }
}

/// The ranges that a read of these runs asks for of an inner chunk's own value of so many bytes, where
/// it is known before: all of it, or the bytes of the places.
fn chunk_ranges<B: BytesToBytesCodecTraits>(
    alloc: Global,
    taken: &TakenChain<'_, B>,
    len: u64,
    runs: &[(u64, u64)],
) -> Result<Option<Vec<ByteRange>>, CodecError>
    requires filled { AreFilled runs.now }
    requires below { EndWithin (product (inner_form taken.now).sizes) runs.now }
    requires count { length (joined_runs runs.now) < 2 ^ 64 }
    ensures rested { IfOk result (λ found. IfSome found
        (λ ranges. AreRestedOn taken.now len (joined_runs runs.now) ranges.items)) }
    ensures refused { IfErr result (λ error. memory_or_fault error ≡ true) }
    ensures no_fault { is_fault result ≡ false }
{
    chain_is_sound(taken.chain);
    if is_read_whole(taken.chain) {
        return Ok(Some(whole_range(alloc, len)?));
    }
    let codec = taken.chain.array_to_bytes_codec();
    if !plans_reads(codec) {
        return Ok(None);
    }
    let moved = moved_runs(alloc, taken, runs)?;
    let ranges = place_ranges(alloc, codec, taken.moved_form(), moved.as_slice())?;
    Ok(Some(ranges))
}

/// Appends ranges of an inner chunk's value as they stand in the whole value. Answers whether they end
/// within the inner chunk.
fn append_moved(
    ranges: &mut Vec<ByteRange>,
    inside: &ValueSpan<'_>,
    own: &[ByteRange],
) -> Result<bool, AllocError>
    ensures appended { IfOk result (λ fits. fits ≡ true → ranges.new.items
        ≡ ranges.old.items ++ moved_ranges inside.now.at own.now) }
    ensures inside { IfOk result (λ fits. fits ≡ true → end_within inside.now.len own.now ≡ true) }
{
    for range in own {
        if range.end() > inside.len {
            return Ok(false);
        }
        let end = inside.at + range.end();
        let start = inside.at + range.start();
        match ByteRange::new(start..end) {
            None => unreachable!(),
            Some(range) => ranges.push(range)?,
        }
    }
    Ok(true)
}

/// Appends the ranges that a read of these runs asks for of an inner chunk that stands in a span.
/// Answers whether it is known which they are, and they end within it.
#[tactic(auto, using(crate::proofs::JointReads::adds_ranges))]
fn append_ranges<B: BytesToBytesCodecTraits>(
    alloc: Global,
    taken: &TakenChain<'_, B>,
    ranges: &mut Vec<ByteRange>,
    inside: &ValueSpan<'_>,
    runs: &[(u64, u64)],
) -> Result<bool, CodecError>
    requires filled { AreFilled runs.now }
    requires below { EndWithin (product (inner_form taken.now).sizes) runs.now }
    requires count { length (joined_runs runs.now) < 2 ^ 64 }
    ensures added { IfOk result (λ known. known ≡ true → AddsRanges taken.now inside.now runs.now
        ranges.old.items ranges.new.items) }
    ensures refused { IfErr result (λ error. memory_or_fault error ≡ true) }
    ensures no_fault { is_fault result ≡ false }
{
    match chunk_ranges(alloc, taken, inside.len, runs)? {
        None => Ok(false),
        Some(own) => Ok(append_moved(ranges, inside, own.as_slice())?),
    }
}

/// Appends what a read of a group asks for, where its inner chunk is stored. Answers whether it is known
/// what that is.
#[tactic(auto, using(crate::proofs::JointReads::adds_none, crate::proofs::JointReads::adds_span))]
fn append_group<B: BytesToBytesCodecTraits>(
    alloc: Global,
    taken: &TakenChain<'_, B>,
    ranges: &mut Vec<ByteRange>,
    span: &ValueSpan<'_>,
    place: (usize, usize),
    runs: &[(u64, u64)],
) -> Result<bool, CodecError>
    requires filled { AreFilled runs.now }
    requires below { EndWithin (product (inner_form taken.now).sizes) runs.now }
    requires count { length (joined_runs runs.now) < 2 ^ 64 }
    ensures added { IfOk result (λ known. known ≡ true → AddsSpan taken.now span.now place runs.now
        ranges.old.items ranges.new.items) }
    ensures refused { IfErr result (λ error. memory_or_fault error ≡ true) }
    ensures no_fault { is_fault result ≡ false }
{
    if !has_span(place) {
        return Ok(true);
    }
    match span.inside(place.0 as u64, place.1 as u64) {
        Err(_) => Ok(false),
        Ok(inside) => append_ranges(alloc, taken, ranges, &inside, runs),
    }
}

/// The ranges that reads of groups ask for, as they stand in the whole value; `None` where it isn't
/// known of all of them.
fn group_ranges<B: BytesToBytesCodecTraits>(
    alloc: Global,
    taken: &TakenChain<'_, B>,
    span: &ValueSpan<'_>,
    numbers: &[usize],
    groups: &[InnerRuns],
) -> Result<Option<Vec<ByteRange>>, CodecError>
    requires groups { AreInnerRuns (inner_form taken.now).sizes (length (spans_of numbers.now))
        groups.now }
    requires numbers { length numbers.now ≡ length (spans_of numbers.now) * 2 }
    ensures ranges { IfOk result (λ found. IfSome found
        (λ ranges. AreGroupRanges taken.now span.now numbers.now groups.now ranges.items)) }
    ensures refused { IfErr result (λ error. memory_or_fault error ≡ true) }
    ensures no_fault { is_fault result ≡ false }
{
    let mut ranges = Vec::with_capacity(alloc, groups.len())?;
    for group in groups {
        let number = group.number as usize;
        let place = (numbers[number * 2], numbers[number * 2 + 1]);
        let runs = group.runs.as_slice();
        if !append_group(alloc, taken, &mut ranges, span, place, runs)? {
            return Ok(None);
        }
    }
    Ok(Some(ranges))
}

/// Whether there are at most 1,024 ranges, or they take no more memory than their bytes.
fn are_few(ranges: &[ByteRange]) -> bool
    ensures few { length ranges.now ≤ 1024 → result ≡ true }
{
    ranges.len() <= 1024 || room_for(u64::MAX, ranges) / 16 >= ranges.len()
}

/// Reads ahead what reads of groups ask for, where it is known of all of them, and the value isn't in
/// memory. Errors: `OutOfMemory`; `Storage`, but never where all bytes are sure that these reads rest on.
pub(crate) fn read_groups_ahead<H: ReadAheadTraits, B: BytesToBytesCodecTraits>(
    alloc: Global,
    taken: &TakenChain<'_, B>,
    handle: &mut H,
    span: &ValueSpan<'_>,
    numbers: &[usize],
    groups: &[InnerRuns],
) -> Result<(), CodecError>
    requires stands { StandsIn span.now (H.state handle.old) }
    requires groups { AreInnerRuns (inner_form taken.now).sizes (length (spans_of numbers.now))
        groups.now }
    requires numbers { length numbers.now ≡ length (spans_of numbers.now) * 2 }
    ensures refused { IfErr result (λ error. memory_or_fault error ≡ true) }
    ensures sure { SureGroups taken.now (seen_state span.now (H.state handle.old)) numbers.now
        groups.now result }
    ensures left { HandleReads H.state H.lent handle.old handle.new result }
{
    if span.held.is_some() || groups.len() < 2 {
        return Ok(());
    }
    if handle.value_in_memory().is_some() {
        return Ok(());
    }
    match group_ranges(alloc, taken, span, numbers, groups)? {
        Some(ranges) if are_few(ranges.as_slice()) => handle.read_ahead(alloc, ranges),
        _ => Ok(()),
    }
}
