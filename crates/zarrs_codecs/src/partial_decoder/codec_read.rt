//! Reading runs of places through an array-to-bytes codec, of a handle or of bytes in memory.
ghost use Rattle.std.specs.Prelude.{◌≡◌, ◌<◌, ◌^◌, [], IfOk, All, Ok, Some, length, option_map, true, false};
ghost use Rattle.zarrs_chunk.specs.Answer.{GivesBy, no_refusal};
ghost use Rattle.zarrs_chunk.specs.ChunkShape.{product};
ghost use Rattle.zarrs_chunk.specs.Runs.{AreApart, EndWithin, joined_runs};
ghost use Rattle.zarrs_chunk.specs.Tuples.{is_box_inside};
ghost use Rattle.zarrs_array_bytes.specs.Tight.{IsTight};
ghost use Rattle.zarrs_codec.specs.StorageState.{after_reading};
ghost use Rattle.zarrs_chain_meaning.specs.Chain.{codec_reads as codec_reads_of};
ghost use Rattle.zarrs_chain.specs.ChainView.{plain_chain, plain_codec};
ghost use Rattle.zarrs_chain.specs.FormView.{lent_form};
ghost use Rattle.zarrs_codecs.specs.ChunkRead.{ChunkReadsRuns, GivesRuns, SureRuns, TakenBy};
ghost use Rattle.zarrs_codecs.specs.CodecPart.{codec_plans, order_in_place, IsCodecPlan, rests_where};
ghost use Rattle.zarrs_codecs.specs.KeptIndex.{asks_index, codec_index, index_seen, shard_depth};
ghost use Rattle.zarrs_codecs.specs.SpanReads.{ReadsBox, SureBox, SurePlaces};

use crate::sharding::box_reads::box_by_index;
use crate::sharding::kept_index::runs_by_index;
use crate::sharding::shard_index::ShardIndex;
use crate::sharding::shard_runs::shard_runs;
use crate::vlen::vlen_runs::vlen_runs;
use std::alloc::Global;
use zarrs_array_bytes::ArrayBytes;
use zarrs_bytes::BytesCodec;
use zarrs_chain::stages::Form;
use zarrs_chain::{ArrayToBytesCodec, CodecChain};
use zarrs_chunk::{ArraySubset, CodecError};
use zarrs_codec::{ByteRange, BytesPartialDecoderTraits, BytesToBytesCodecTraits};
use zarrs_lent_handles::LentHandle;

/// The elements at the places of these runs of a chunk that the codec takes, which isn't
/// `sharding_indexed`, over a handle that keeps its bytes: the fill value at each place where nothing
/// is stored. Errors: the codec's own; `OutOfMemory` and `Storage`, which may come before.
#[tactic(auto, unfolding(zarrs_chain::specs::ChainView::plain_codec), using(zarrs_chain::specs::ChainView::plain_vlen_at, zarrs_chain::specs::ChainView::plain_optional_at, zarrs_chain::specs::ChainView::plain_sharding_at))]
pub(crate) fn plain_runs<H: BytesPartialDecoderTraits, B: BytesToBytesCodecTraits>(
    alloc: Global,
    codec: &ArrayToBytesCodec<B>,
    handle: &mut H,
    form: Form<'_>,
    runs: &[(u64, u64)],
) -> Result<ArrayBytes<'static>, CodecError>
    requires taken { TakenBy B.functions (plain_codec codec.now) (lent_form form) }
    requires in_part { (codec_reads_of (plain_codec codec.now)).partial_decode ≡ true }
    requires plain { shard_depth (plain_codec codec.now) ≡ 0 }
    requires filled { All (λ run. 0 < run.1) runs.now }
    requires below { EndWithin (product form.shape.now) runs.now }
    requires count { length (joined_runs runs.now) < 2 ^ 64 }
    ensures answer { ChunkReadsRuns B.functions (plain_codec codec.now) (lent_form form.entry)
        (H.state handle.old) runs.now result }
    ensures tight { IfOk result (IsTight form.entry.data_type.now) }
    ensures sure { SureRuns B.functions (plain_codec codec.now) (lent_form form.entry) (H.state
        handle.old) runs.now result }
    ensures left { H.state handle.new ≡ after_reading result (H.state handle.old) }
    ensures same_reference { H.lent handle.new ≡ H.lent handle.old }
{
    match codec {
        ArrayToBytesCodec::Bytes(codec) => {
            codec.read_runs(alloc, handle, form.data_type, form.fill_value, runs)
        }
        ArrayToBytesCodec::PackBits(codec) => {
            codec.read_runs(
                alloc,
                handle,
                form.shape,
                form.data_type,
                form.fill_value,
                runs,
            )
        }
        ArrayToBytesCodec::Vlen(codec) => { vlen_runs(alloc, codec, handle, form, runs) }
        _ => unreachable!(),
    }
}

/// The elements at the places of these runs of a chunk that the codec takes, over a handle that
/// keeps its bytes: the fill value at each place where nothing is stored. Errors: the codec's own;
/// `OutOfMemory` and `Storage`, which may come before.
#[tactic(auto, unfolding(zarrs_chain::specs::ChainView::plain_codec), using(zarrs_chain::specs::ChainView::plain_vlen_at, zarrs_chain::specs::ChainView::plain_optional_at, zarrs_chain::specs::ChainView::plain_sharding_at))]
pub(crate) fn read_runs<H: BytesPartialDecoderTraits, B: BytesToBytesCodecTraits>(
    alloc: Global,
    codec: &ArrayToBytesCodec<B>,
    handle: &mut H,
    form: Form<'_>,
    runs: &[(u64, u64)],
) -> Result<ArrayBytes<'static>, CodecError>
    requires taken { TakenBy B.functions (plain_codec codec.now) (lent_form form) }
    requires in_part { (codec_reads_of (plain_codec codec.now)).partial_decode ≡ true }
    requires filled { All (λ run. 0 < run.1) runs.now }
    requires below { EndWithin (product form.shape.now) runs.now }
    requires count { length (joined_runs runs.now) < 2 ^ 64 }
    ensures answer { ChunkReadsRuns B.functions (plain_codec codec.now) (lent_form form.entry)
        (H.state handle.old) runs.now result }
    ensures tight { IfOk result (IsTight form.entry.data_type.now) }
    ensures sure { SureRuns B.functions (plain_codec codec.now) (lent_form form.entry) (H.state
        handle.old) runs.now result }
    ensures left { H.state handle.new ≡ after_reading result (H.state handle.old) }
    ensures same_reference { H.lent handle.new ≡ H.lent handle.old }
{
    match codec {
        ArrayToBytesCodec::Sharding(codec) => { shard_runs(alloc, codec, handle, form, runs) }
        _ => { plain_runs(alloc, codec, handle, form, runs) }
    }
}

/// The same of `sharding_indexed`, by the index that was read of what the handle keeps.
#[tactic(auto, unfolding(zarrs_chain::specs::ChainView::plain_codec), using(zarrs_chain::specs::ChainView::plain_vlen_at, zarrs_chain::specs::ChainView::plain_optional_at, zarrs_chain::specs::ChainView::plain_sharding_at))]
pub(crate) fn read_by_index<H: BytesPartialDecoderTraits, B: BytesToBytesCodecTraits>(
    alloc: Global,
    codec: &ArrayToBytesCodec<B>,
    handle: &mut H,
    index: &Option<ShardIndex>,
    form: Form<'_>,
    runs: &[(u64, u64)],
) -> Result<ArrayBytes<'static>, CodecError>
    requires taken { TakenBy B.functions (plain_codec codec.now) (lent_form form) }
    requires shard { asks_index [] (plain_codec codec.now) ≡ true }
    requires index { codec_index B.functions (plain_codec codec.now) form.shape.now
        (H.state handle.old).value ≡ Ok (option_map index_seen index.now) }
    requires filled { All (λ run. 0 < run.1) runs.now }
    requires below { EndWithin (product form.shape.now) runs.now }
    requires count { length (joined_runs runs.now) < 2 ^ 64 }
    ensures answer { ChunkReadsRuns B.functions (plain_codec codec.now) (lent_form form.entry)
        (H.state handle.old) runs.now result }
    ensures tight { IfOk result (IsTight form.entry.data_type.now) }
    ensures sure { SurePlaces (rests_where true B.functions (plain_codec codec.now)) (lent_form
        form.entry) (H.state handle.old) (joined_runs runs.now) result }
    ensures left { H.state handle.new ≡ after_reading result (H.state handle.old) }
    ensures same_reference { H.lent handle.new ≡ H.lent handle.old }
{
    match codec {
        ArrayToBytesCodec::Sharding(codec) => {
            runs_by_index(alloc, codec, handle, index, form, runs)
        }
        _ => unreachable!(),
    }
}

/// The elements of a box that has some, of a chunk that the codec takes, which is `sharding_indexed`,
/// by the index that was read of what the handle keeps.
#[tactic(auto, unfolding(zarrs_chain::specs::ChainView::plain_codec), using(zarrs_chain::specs::ChainView::plain_vlen_at, zarrs_chain::specs::ChainView::plain_optional_at, zarrs_chain::specs::ChainView::plain_sharding_at))]
pub(crate) fn read_box<H: BytesPartialDecoderTraits, B: BytesToBytesCodecTraits>(
    alloc: Global,
    codec: &ArrayToBytesCodec<B>,
    handle: &mut H,
    index: &ShardIndex,
    form: Form<'_>,
    region: &ArraySubset,
) -> Result<ArrayBytes<'static>, CodecError>
    requires taken { TakenBy B.functions (plain_codec codec.now) (lent_form form) }
    requires shard { asks_index [] (plain_codec codec.now) ≡ true }
    requires index { codec_index B.functions (plain_codec codec.now) form.shape.now
        (H.state handle.old).value ≡ Ok (Some (index_seen index.now)) }
    requires inside { is_box_inside form.shape.now region.now.starts region.now.lengths ≡ true }
    requires filled { 0 < product region.now.lengths }
    ensures answer { ReadsBox B.functions (plain_codec codec.now) (lent_form form.entry)
        (H.state handle.old) region.now result }
    ensures tight { IfOk result (IsTight form.entry.data_type.now) }
    ensures sure { SureBox B.functions (plain_codec codec.now) (lent_form form.entry)
        (H.state handle.old) region.now result }
    ensures left { H.state handle.new ≡ after_reading result (H.state handle.old) }
    ensures same_reference { H.lent handle.new ≡ H.lent handle.old }
{
    match codec {
        ArrayToBytesCodec::Sharding(codec) => {
            box_by_index(alloc, codec, handle, index, form, region)
        }
        _ => unreachable!(),
    }
}

/// The elements at the places of these runs, of bytes in memory, or of none.
pub(crate) fn read_runs_of_bytes<B: BytesToBytesCodecTraits>(
    alloc: Global,
    codec: &ArrayToBytesCodec<B>,
    bytes: Option<&[u8]>,
    form: Form<'_>,
    runs: &[(u64, u64)],
) -> Result<ArrayBytes<'static>, CodecError>
    requires taken { TakenBy B.functions (plain_codec codec.now) (lent_form form) }
    requires in_part { (codec_reads_of (plain_codec codec.now)).partial_decode ≡ true }
    requires filled { All (λ run. 0 < run.1) runs.now }
    requires below { EndWithin (product form.shape.now) runs.now }
    requires count { length (joined_runs runs.now) < 2 ^ 64 }
    ensures answer { GivesRuns B.functions (plain_codec codec.now) (lent_form form.entry)
        (option_map (λ v. v.now) bytes.entry) runs.now result }
    ensures tight { IfOk result (IsTight form.entry.data_type.now) }
{
    let mut lent = LentHandle::new(bytes);
    read_runs::<LentHandle<'_>, B>(alloc, codec, &mut lent, form, runs)
}

/// Whether the bytes of a place are known before anything is read: they are over `bytes` and
/// `packbits`.
#[tactic(auto, unfolding(zarrs_chain::specs::ChainView::plain_codec), using(zarrs_chain::specs::ChainView::plain_vlen_at, zarrs_chain::specs::ChainView::plain_optional_at, zarrs_chain::specs::ChainView::plain_sharding_at))]
pub(crate) fn plans_reads<B>(codec: &ArrayToBytesCodec<B>) -> bool
    ensures value { result ≡ codec_plans (plain_codec codec.now) }
{
    match codec {
        ArrayToBytesCodec::Bytes(_) | ArrayToBytesCodec::PackBits(_) => true,
        _ => false,
    }
}

/// The codec `bytes`, where this is one.
#[tactic(auto, unfolding(zarrs_chain::specs::ChainView::plain_codec), using(zarrs_chain::specs::ChainView::plain_vlen_at, zarrs_chain::specs::ChainView::plain_optional_at, zarrs_chain::specs::ChainView::plain_sharding_at))]
fn as_bytes<B>(codec: &ArrayToBytesCodec<B>) -> Option<&BytesCodec>
    ensures value { option_map (λ v. v.now) result ≡ order_in_place [] (plain_codec codec.now) }
{
    match codec {
        ArrayToBytesCodec::Bytes(codec) => Some(codec),
        _ => None,
    }
}

/// The codec `bytes`, where the chain has no bytes-to-bytes codecs around it.
pub(crate) fn codec_in_place<B>(chain: &CodecChain<B>) -> Option<&BytesCodec>
    ensures value { option_map (λ v. v.now) result ≡ order_in_place
        (plain_chain chain.now).bytes_to_bytes (plain_chain chain.now).array_to_bytes }
{
    match chain.bytes_to_bytes_codecs() {
        [] => as_bytes(chain.array_to_bytes_codec()),
        _ => None,
    }
}

/// The ranges of bytes that a read of these runs asks for. Errors: `OutOfMemory`.
#[tactic(auto, unfolding(zarrs_chain::specs::ChainView::plain_codec), using(zarrs_chain::specs::ChainView::plain_vlen_at, zarrs_chain::specs::ChainView::plain_optional_at, zarrs_chain::specs::ChainView::plain_sharding_at))]
pub(crate) fn planned_runs<B: BytesToBytesCodecTraits>(
    alloc: Global,
    codec: &ArrayToBytesCodec<B>,
    form: Form<'_>,
    runs: &[(u64, u64)],
) -> Result<Vec<ByteRange>, CodecError>
    requires taken { TakenBy B.functions (plain_codec codec.now) (lent_form form) }
    requires plans { codec_plans (plain_codec codec.now) ≡ true }
    requires filled { All (λ run. 0 < run.1) runs.now }
    requires below { EndWithin (product form.shape.now) runs.now }
    requires apart { AreApart runs.now }
    ensures plan { GivesBy (λ ranges _. IsCodecPlan (plain_codec codec.now) (lent_form form.entry)
        (joined_runs runs.now) ranges.items) result no_refusal }
    ensures filled { IfOk result (λ ranges. All (λ range. range.start < range.end) ranges.items) }
{
    match codec {
        ArrayToBytesCodec::Bytes(codec) => {
            codec.planned_runs(alloc, form.data_type, form.fill_value, runs)
        }
        ArrayToBytesCodec::PackBits(codec) => {
            codec.planned_runs(alloc, form.shape, form.data_type, form.fill_value, runs)
        }
        _ => unreachable!(),
    }
}
