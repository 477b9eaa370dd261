//! The index of a shard, read once and kept: a read by it asks for inner chunks alone.
ghost use Rattle.std.specs.Prelude.{◌≡◌, ◌*◌, ◌<◌, ◌^◌, IfOk, Ok, length, option_map, true};
ghost use Rattle.zarrs_array_bytes.specs.Tight.{IsTight};
ghost use Rattle.zarrs_chain.specs.ChainView.{plain_sharding};
ghost use Rattle.zarrs_chain.specs.FormView.{lent_form};
ghost use Rattle.zarrs_chain_meaning.specs.sharding.Sharding.{spans_of};
ghost use Rattle.zarrs_chunk.specs.Answer.{Answers, memory_or_fault};
ghost use Rattle.zarrs_chunk.specs.ChunkShape.{product};
ghost use Rattle.zarrs_chunk.specs.Runs.{AreFilled, EndWithin, joined_runs};
ghost use Rattle.zarrs_codec.specs.StorageState.{after_reading};
ghost use Rattle.zarrs_codecs.specs.ChunkRead.{ChunkReadsRuns, TakenBy};
ghost use Rattle.zarrs_codecs.specs.KeptIndex.{IsIndex, codec_index, index_rests_on, index_seen};
ghost use Rattle.zarrs_codecs.specs.SpanReads.{StandsIn, SurePlaces, SureWhere, seen_state};
ghost use Rattle.zarrs_codecs.specs.CodecPart.{rests_where};

use crate::partial_decoder::fill_runs::fill_runs;
use crate::sharding::index_read::index_numbers;
use crate::sharding::shard_index::ShardIndex;
use crate::sharding::shard_runs::shard_by_index;
use crate::sharding::taken_parts::taken_parts;
use crate::sharding::value_span::ValueSpan;
use std::alloc::Global;
use zarrs_array_bytes::ArrayBytes;
use zarrs_chain::ShardingCodec;
use zarrs_chain::stages::{Form, ShardingParts};
use zarrs_chunk::CodecError;
use zarrs_codec::{BytesPartialDecoderTraits, BytesToBytesCodecTraits};
use zarrs_lent_handles::AheadHandle;

/// The index of the shard that the handle keeps; `None` where nothing is stored. Errors, the first
/// that holds, `OutOfMemory` aside: `Storage`; `InvalidBytesLength` where the value has fewer bytes
/// than the index; those of the index chain.
pub(crate) fn stored_index<H: BytesPartialDecoderTraits, B: BytesToBytesCodecTraits>(
    alloc: Global,
    codec: &ShardingCodec<B>,
    handle: &mut H,
    form: Form<'_>,
) -> Result<Option<ShardIndex>, CodecError>
    requires taken { TakenBy B.functions (plain_sharding codec.now) (lent_form form) }
    ensures answer { Answers memory_or_fault (option_map index_seen) result (codec_index B.functions
        (plain_sharding codec.now) form.entry.shape.now (H.state handle.old).value) }
    ensures sure { SureWhere (H.state handle.old) (index_rests_on B.functions
        (plain_sharding codec.now) form.entry.shape.now (H.state handle.old).value) result }
    ensures left { H.state handle.new ≡ after_reading result (H.state handle.old) }
    ensures same_reference { H.lent handle.new ≡ H.lent handle.old }
{
    let ShardingParts {
        chunk_shape: inner,
        codecs: _,
        index_codecs: index,
        is_index_at_end: at_end,
    } = taken_parts(codec, form);
    match handle.size()? {
        None => Ok(None),
        Some(len) => {
            let span = ValueSpan::stored(len);
            let numbers = index_numbers(alloc, index, inner, at_end, handle, &span, form.shape)?;
            Ok(Some(ShardIndex { len, numbers }))
        }
    }
}

/// The elements at the places of these runs of a chunk that the codec takes, whose value stands in a
/// span, by the numbers of its index. What is known to be read is read by one call of the handle. Errors:
/// those of `shard_by_index`.
pub(crate) fn index_ahead<H: BytesPartialDecoderTraits, B: BytesToBytesCodecTraits>(
    alloc: Global,
    codec: &ShardingCodec<B>,
    handle: &mut H,
    span: &ValueSpan<'_>,
    numbers: &[usize],
    form: Form<'_>,
    runs: &[(u64, u64)],
) -> Result<ArrayBytes<'static>, CodecError>
    requires taken { TakenBy B.functions (plain_sharding codec.now) (lent_form form) }
    requires stands { StandsIn span.now (H.state handle.old) }
    requires index { IsIndex B.functions (plain_sharding codec.now) form.shape.now
        (seen_state span.now (H.state handle.old)).value numbers.now }
    requires numbers { length numbers.now ≡ length (spans_of numbers.now) * 2 }
    requires filled { AreFilled runs.now }
    requires below { EndWithin (product form.shape.now) runs.now }
    requires count { length (joined_runs runs.now) < 2 ^ 64 }
    ensures answer { ChunkReadsRuns B.functions (plain_sharding codec.now) (lent_form form.entry)
        (seen_state span.now (H.state handle.old)) runs.now result }
    ensures tight { IfOk result (IsTight form.entry.data_type.now) }
    ensures sure { SurePlaces (rests_where true B.functions (plain_sharding codec.now)) (lent_form
        form.entry) (seen_state span.now (H.state handle.old)) (joined_runs runs.now) result }
    ensures left { H.state handle.new ≡ after_reading result (H.state handle.old) }
    ensures same_reference { H.lent handle.new ≡ H.lent handle.old }
{
    let mut ahead = AheadHandle::new(alloc, handle);
    let read = shard_by_index::<AheadHandle<'_, H>, B>(
        alloc, codec, &mut ahead, span, numbers, form, runs,
    );
    ahead.into_handle();
    read
}

/// The elements at the places of these runs of a chunk that the codec takes, over a handle that keeps
/// its value, by the index that was read of it: the fill value at each place where nothing is stored.
/// Errors: `Storage`; those of `shard_by_index`.
pub(crate) fn runs_by_index<H: BytesPartialDecoderTraits, B: BytesToBytesCodecTraits>(
    alloc: Global,
    codec: &ShardingCodec<B>,
    handle: &mut H,
    index: &Option<ShardIndex>,
    form: Form<'_>,
    runs: &[(u64, u64)],
) -> Result<ArrayBytes<'static>, CodecError>
    requires taken { TakenBy B.functions (plain_sharding codec.now) (lent_form form) }
    requires index { codec_index B.functions (plain_sharding codec.now) form.shape.now
        (H.state handle.old).value ≡ Ok (option_map index_seen index.now) }
    requires filled { AreFilled runs.now }
    requires below { EndWithin (product form.shape.now) runs.now }
    requires count { length (joined_runs runs.now) < 2 ^ 64 }
    ensures answer { ChunkReadsRuns B.functions (plain_sharding codec.now) (lent_form form.entry)
        (H.state handle.old) runs.now result }
    ensures tight { IfOk result (IsTight form.entry.data_type.now) }
    ensures sure { SurePlaces (rests_where true B.functions (plain_sharding codec.now)) (lent_form
        form.entry) (H.state handle.old) (joined_runs runs.now) result }
    ensures left { H.state handle.new ≡ after_reading result (H.state handle.old) }
    ensures same_reference { H.lent handle.new ≡ H.lent handle.old }
{
    let ShardingParts {
        chunk_shape: _,
        codecs: _,
        index_codecs: _,
        is_index_at_end: _,
    } = taken_parts(codec, form);
    match index {
        None => fill_runs(alloc, form.data_type, form.fill_value, runs),
        Some(index) => {
            let span = ValueSpan::stored(index.len);
            let numbers = index.numbers.as_slice();
            index_ahead(alloc, codec, handle, &span, numbers, form, runs)
        }
    }
}
