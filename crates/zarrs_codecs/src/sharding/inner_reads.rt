//! Reading runs of places of an inner chunk through its chain, by its own bytes.
ghost use Rattle.std.specs.Prelude.{◌≡◌, ◌<◌, ◌^◌, IfOk, length, true};
ghost use Rattle.zarrs_array_bytes.specs.Tight.{IsTight};
ghost use Rattle.zarrs_array_regions.specs.KeptRegions.{keeps_regions};
ghost use Rattle.zarrs_chain.specs.ChainView.{plain_codec};
ghost use Rattle.zarrs_chunk.specs.ChunkShape.{product};
ghost use Rattle.zarrs_chunk.specs.Indexer.{selection_of};
ghost use Rattle.zarrs_chunk.specs.Runs.{AreFilled, EndWithin, joined_runs};
ghost use Rattle.zarrs_chunk.specs.Tuples.{is_box_inside};
ghost use Rattle.zarrs_chain.specs.FormView.{lent_form};
ghost use Rattle.zarrs_codecs.specs.ChunkRead.{ChunkReadsRuns, TakenBy};
ghost use Rattle.zarrs_codecs.specs.CodecPart.{codec_rests_on};
ghost use Rattle.zarrs_codecs.specs.HandleReads.{HandleReads};
ghost use Rattle.zarrs_codecs.specs.SpanReads.{ReadsChain, ReadsIndexed, ReadsMoved, StandsIn, SureChain, SureMoved, SurePlaces, seen_state};
ghost use Rattle.zarrs_codecs.specs.TakenChain.{inner_form, moved_sizes};
ghost use Rattle.zarrs_array_regions.specs.WindowLaws.{region_places};

use crate::partial_decoder::encoded_runs::encoded_runs;
use crate::sharding::leaf_reads::leaf_runs;
use crate::sharding::shard_runs::shard_in_span;
use crate::sharding::span_bytes::span_bytes;
use crate::sharding::taken_chain::TakenChain;
use crate::sharding::value_span::ValueSpan;
use std::alloc::Global;
use zarrs_array_bytes::ArrayBytes;
use zarrs_array_regions::{decoded_window, kept_region, region_runs};
use zarrs_chain::ArrayToBytesCodec;
use zarrs_chain::stages::{Form, chain_is_sound, decode_bytes};
use zarrs_chunk::{ArraySubset, CodecError, Indexer};
use zarrs_codec::BytesToBytesCodecTraits;
use zarrs_lent_handles::ReadAheadTraits;
use zarrs_shard_runs::runs_indexer;

/// The elements at the places of these runs of a chunk that the codec takes, whose value stands in a
/// span.
#[cycle(read)]
#[tactic(auto, unfolding(zarrs_chain::specs::ChainView::plain_codec), using(zarrs_chain::specs::ChainView::plain_vlen_at, zarrs_chain::specs::ChainView::plain_optional_at, zarrs_chain::specs::ChainView::plain_sharding_at, crate::proofs::SureReads::given_surely))]
fn codec_in_span<H: ReadAheadTraits, B: BytesToBytesCodecTraits>(
    alloc: Global,
    codec: &ArrayToBytesCodec<B>,
    handle: &mut H,
    span: &ValueSpan<'_>,
    form: Form<'_>,
    runs: &[(u64, u64)],
) -> Result<ArrayBytes<'static>, CodecError>
    requires taken { TakenBy B.functions (plain_codec codec.now) (lent_form form) }
    requires counted { product form.shape.now < 2 ^ 64 }
    requires stands { StandsIn span.now (H.state handle.old) }
    requires filled { AreFilled runs.now }
    requires below { EndWithin (product form.shape.now) runs.now }
    requires count { length (joined_runs runs.now) < 2 ^ 64 }
    ensures answer { ChunkReadsRuns B.functions (plain_codec codec.now) (lent_form form.entry)
        (seen_state span.now (H.state handle.old)) runs.now result }
    ensures tight { IfOk result (IsTight form.entry.data_type.now) }
    ensures sure { SurePlaces (codec_rests_on B.functions (plain_codec codec.now)) (lent_form
        form.entry) (seen_state span.now (H.state handle.old)) (joined_runs runs.now) result }
    ensures left { HandleReads H.state H.lent handle.old handle.new result }
{
    match codec {
        ArrayToBytesCodec::Sharding(codec) => {
            shard_in_span(alloc, codec, handle, span, form, runs)
        }
        _ => { leaf_runs(alloc, codec, handle, span, form, runs) }
    }
}

/// The elements at the places of these runs of the chunk that the chain's array-to-bytes codec gets.
/// Where there are bytes-to-bytes codecs, the whole span is read, and then of the bytes below them.
#[cycle(read)]
fn moved_in_span<H: ReadAheadTraits, B: BytesToBytesCodecTraits>(
    alloc: Global,
    taken: &TakenChain<'_, B>,
    handle: &mut H,
    span: &ValueSpan<'_>,
    runs: &[(u64, u64)],
) -> Result<ArrayBytes<'static>, CodecError>
    requires stands { StandsIn span.now (H.state handle.old) }
    requires filled { AreFilled runs.now }
    requires below { EndWithin (product (moved_sizes taken.now)) runs.now }
    requires count { length (joined_runs runs.now) < 2 ^ 64 }
    ensures answer { ReadsMoved taken.now (seen_state span.now (H.state handle.old))
        (joined_runs runs.now) result }
    ensures tight { IfOk result (IsTight (inner_form taken.now).type) }
    ensures sure { SureMoved taken.now (seen_state span.now (H.state handle.old))
        (joined_runs runs.now) result }
    ensures left { HandleReads H.state H.lent handle.old handle.new result }
{
    let codec = taken.chain.array_to_bytes_codec();
    let form = taken.moved_form();
    if taken.chain.bytes_to_bytes_codecs().is_empty() {
        return codec_in_span(alloc, codec, handle, span, form, runs);
    }
    let value = span_bytes(alloc, handle, span)?;
    let codecs = taken.chain.bytes_to_bytes_codecs();
    let below = decode_bytes(alloc, codecs, &taken.measured, value)?;
    let inside = ValueSpan::of_bytes(below.as_slice());
    codec_in_span(alloc, codec, handle, &inside, form, runs)
}

/// The elements of a region that goes through the array-to-array codecs as one, in row-major order. Its
/// runs are let go of before what is read of them is decoded.
#[cycle(read)]
pub(crate) fn region_in_span<H: ReadAheadTraits, B: BytesToBytesCodecTraits>(
    alloc: Global,
    taken: &TakenChain<'_, B>,
    handle: &mut H,
    span: &ValueSpan<'_>,
    region: &ArraySubset,
) -> Result<ArrayBytes<'static>, CodecError>
    requires stands { StandsIn span.now (H.state handle.old) }
    requires inside { is_box_inside (inner_form taken.now).sizes region.now.starts
        region.now.lengths ≡ true }
    requires filled { 0 < product region.now.lengths }
    requires region_kept { keeps_regions (inner_form taken.now).chain.array_to_array ≡ true }
    ensures answer { ReadsChain taken.now (seen_state span.now (H.state handle.old))
        (region_places (inner_form taken.now).sizes region.now) result }
    ensures tight { IfOk result (IsTight (inner_form taken.now).type) }
    ensures sure { SureChain taken.now (seen_state span.now (H.state handle.old))
        (region_places (inner_form taken.now).sizes region.now) result }
    ensures left { HandleReads H.state H.lent handle.old handle.new result }
{
    chain_is_sound(taken.chain);
    let codecs = taken.chain.array_to_array_codecs();
    let Form {
        shape,
        data_type,
        fill_value,
    } = taken.form;
    let held = {
        let runs = region_runs(alloc, codecs, shape, region)?;
        moved_in_span(alloc, taken, handle, span, &runs)?
    };
    decoded_window(alloc, codecs, shape, region, held, data_type, fill_value)
}

/// The elements that an indexer selects, in its order, of a chunk that the chain takes, whose value
/// stands in a span. A box goes through the array-to-array codecs as a box, where they keep regions.
#[cycle(read)]
pub(crate) fn indexed_in_span<H: ReadAheadTraits, B: BytesToBytesCodecTraits>(
    alloc: Global,
    taken: &TakenChain<'_, B>,
    handle: &mut H,
    span: &ValueSpan<'_>,
    indexer: &Indexer,
) -> Result<ArrayBytes<'static>, CodecError>
    requires stands { StandsIn span.now (H.state handle.old) }
    ensures reads { ReadsIndexed taken.now (seen_state span.now (H.state handle.old))
        (selection_of indexer.now) result }
    ensures tight { IfOk result (IsTight (inner_form taken.now).type) }
    ensures left { HandleReads H.state H.lent handle.old handle.new result }
{
    chain_is_sound(taken.chain);
    let codecs = taken.chain.array_to_array_codecs();
    let shape = taken.form.shape;
    if let Some(region) = kept_region(codecs, shape, indexer) {
        return region_in_span(alloc, taken, handle, span, region);
    }
    let runs = encoded_runs(alloc, codecs, shape, indexer)?;
    moved_in_span(alloc, taken, handle, span, &runs)
}

/// The elements at the places of these runs of a chunk that the chain takes, whose value stands in a
/// span. Through array-to-array codecs the places of a box go as a box, where the codecs keep regions.
#[cycle(read)]
pub(crate) fn chain_in_span<H: ReadAheadTraits, B: BytesToBytesCodecTraits>(
    alloc: Global,
    taken: &TakenChain<'_, B>,
    handle: &mut H,
    span: &ValueSpan<'_>,
    runs: &[(u64, u64)],
) -> Result<ArrayBytes<'static>, CodecError>
    requires stands { StandsIn span.now (H.state handle.old) }
    requires filled { AreFilled runs.now }
    requires below { EndWithin (product (inner_form taken.now).sizes) runs.now }
    requires count { length (joined_runs runs.now) < 2 ^ 64 }
    ensures answer { ReadsChain taken.now (seen_state span.now (H.state handle.old))
        (joined_runs runs.now) result }
    ensures tight { IfOk result (IsTight (inner_form taken.now).type) }
    ensures sure { SureChain taken.now (seen_state span.now (H.state handle.old))
        (joined_runs runs.now) result }
    ensures left { HandleReads H.state H.lent handle.old handle.new result }
{
    if !taken.chain.array_to_array_codecs().is_empty() {
        let indexer = runs_indexer(alloc, taken.form.shape, runs)?;
        return indexed_in_span(alloc, taken, handle, span, &indexer);
    }
    chain_is_sound(taken.chain);
    moved_in_span(alloc, taken, handle, span, runs)
}
