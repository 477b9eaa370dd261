//! Reading runs of places of a value in a span, through a codec that isn't `sharding_indexed`.
ghost use Rattle.std.specs.Prelude.{◌≡◌, ◌+◌, ◌<◌, ◌≤◌, ◌^◌, IfOk, length, false, true};
ghost use Rattle.zarrs_array_bytes.specs.Held.{items_of};
ghost use Rattle.zarrs_lent_handles.specs.SpanHandle.{spanned};
ghost use Rattle.zarrs_array_bytes.specs.Tight.{IsTight};
ghost use Rattle.zarrs_chain.specs.ChainView.{plain_codec};
ghost use Rattle.zarrs_chain.specs.FormView.{lent_form};
ghost use Rattle.zarrs_chain_meaning.specs.Chain.{codec_reads as codec_reads_of};
ghost use Rattle.zarrs_chunk.specs.ChunkShape.{product};
ghost use Rattle.zarrs_chunk.specs.Runs.{AreFilled, EndWithin, joined_runs};
ghost use Rattle.zarrs_codec.specs.StorageState.{after_reading};
ghost use Rattle.zarrs_codecs.specs.ChunkRead.{ChunkReadsRuns, GivesRunsOf, SureRuns, TakenBy};
ghost use Rattle.zarrs_codecs.specs.KeptIndex.{shard_depth};
ghost use Rattle.zarrs_codecs.specs.SpanReads.{StandsIn, seen_state};

use crate::partial_decoder::codec_read::plain_runs;
use crate::sharding::span_bytes::span_bytes;
use crate::sharding::value_span::ValueSpan;
use std::alloc::Global;
use zarrs_array_bytes::{ArrayBytes, ArrayBytesRaw};
use zarrs_chain::ArrayToBytesCodec;
use zarrs_chain::stages::{Form, codec_decode};
use zarrs_chunk::CodecError;
use zarrs_codec::{BytesPartialDecoderTraits, BytesToBytesCodecTraits, CodecTraits};
use zarrs_lent_handles::{LentHandle, SpanHandle};

/// The bytes of a span.
pub(crate) fn part_of(bytes: &[u8], at: u64, len: u64) -> &[u8]
    requires inside { at + len ≤ length bytes.now }
    ensures value { result.now ≡ spanned at len bytes.now }
{
    &bytes[at as usize..(at + len) as usize]
}

/// By what the places rest on alone: bytes in memory are taken from there.
fn part_in_span<H: BytesPartialDecoderTraits, B: BytesToBytesCodecTraits>(
    alloc: Global,
    codec: &ArrayToBytesCodec<B>,
    handle: &mut H,
    span: &ValueSpan<'_>,
    form: Form<'_>,
    runs: &[(u64, u64)],
) -> Result<ArrayBytes<'static>, CodecError>
    requires taken { TakenBy B.functions (plain_codec codec.now) (lent_form form) }
    requires in_part { (codec_reads_of (plain_codec codec.now)).partial_decode ≡ true }
    requires plain { shard_depth (plain_codec codec.now) ≡ 0 }
    requires counted { product form.shape.now < 2 ^ 64 }
    requires stands { StandsIn span.now (H.state handle.old) }
    requires filled { AreFilled runs.now }
    requires below { EndWithin (product form.shape.now) runs.now }
    requires count { length (joined_runs runs.now) < 2 ^ 64 }
    ensures answer { ChunkReadsRuns B.functions (plain_codec codec.now) (lent_form form.entry)
        (seen_state span.now (H.state handle.old)) runs.now result }
    ensures tight { IfOk result (IsTight form.entry.data_type.now) }
    ensures sure { SureRuns B.functions (plain_codec codec.now) (lent_form form.entry) (seen_state
        span.now (H.state handle.old)) runs.now result }
    ensures left { H.state handle.new ≡ after_reading result (H.state handle.old) }
    ensures same_reference { H.lent handle.new ≡ H.lent handle.old }
{
    if let Some(bytes) = span.held {
        let mut lent = LentHandle::new(Some(part_of(bytes, span.at, span.len)));
        return plain_runs::<LentHandle<'_>, B>(alloc, codec, &mut lent, form, runs);
    }
    if let Some(bytes) = handle.value_in_memory() {
        let mut lent = LentHandle::new(Some(part_of(bytes, span.at, span.len)));
        return plain_runs::<LentHandle<'_>, B>(alloc, codec, &mut lent, form, runs);
    }
    let mut below = SpanHandle::new(handle, span.at, span.len);
    plain_runs::<SpanHandle<'_, H>, B>(alloc, codec, &mut below, form, runs)
}

/// The elements at the places of these runs of the chunk that a value stands for.
fn runs_of_bytes<B: BytesToBytesCodecTraits>(
    alloc: Global,
    codec: &ArrayToBytesCodec<B>,
    value: ArrayBytesRaw<'_>,
    form: Form<'_>,
    runs: &[(u64, u64)],
) -> Result<ArrayBytes<'static>, CodecError>
    requires taken { TakenBy B.functions (plain_codec codec.now) (lent_form form) }
    requires counted { product form.shape.now < 2 ^ 64 }
    requires below { EndWithin (product form.shape.now) runs.now }
    ensures answer { GivesRunsOf B.functions (plain_codec codec.now) (lent_form form.entry)
        (items_of value.entry) runs.now result }
    ensures tight { IfOk result (IsTight form.entry.data_type.now) }
{
    let Form {
        shape,
        data_type,
        fill_value,
    } = form;
    let chunk = codec_decode(alloc, codec, value, shape, data_type, fill_value)?;
    let count = shape.num_elements()?;
    chunk.extract_runs(alloc, runs, count, data_type)
}

/// By the whole chunk.
fn whole_in_span<H: BytesPartialDecoderTraits, B: BytesToBytesCodecTraits>(
    alloc: Global,
    codec: &ArrayToBytesCodec<B>,
    handle: &mut H,
    span: &ValueSpan<'_>,
    form: Form<'_>,
    runs: &[(u64, u64)],
) -> Result<ArrayBytes<'static>, CodecError>
    requires taken { TakenBy B.functions (plain_codec codec.now) (lent_form form) }
    requires whole { (codec_reads_of (plain_codec codec.now)).partial_decode ≡ false }
    requires counted { product form.shape.now < 2 ^ 64 }
    requires stands { StandsIn span.now (H.state handle.old) }
    requires filled { AreFilled runs.now }
    requires below { EndWithin (product form.shape.now) runs.now }
    requires count { length (joined_runs runs.now) < 2 ^ 64 }
    ensures answer { ChunkReadsRuns B.functions (plain_codec codec.now) (lent_form form.entry)
        (seen_state span.now (H.state handle.old)) runs.now result }
    ensures tight { IfOk result (IsTight form.entry.data_type.now) }
    ensures sure { SureRuns B.functions (plain_codec codec.now) (lent_form form.entry) (seen_state
        span.now (H.state handle.old)) runs.now result }
    ensures left { H.state handle.new ≡ after_reading result (H.state handle.old) }
    ensures same_reference { H.lent handle.new ≡ H.lent handle.old }
{
    let value = span_bytes(alloc, handle, span)?;
    runs_of_bytes(alloc, codec, value, form, runs)
}

/// The elements at the places of these runs of a chunk that the codec takes.
pub(crate) fn leaf_runs<H: BytesPartialDecoderTraits, B: BytesToBytesCodecTraits>(
    alloc: Global,
    codec: &ArrayToBytesCodec<B>,
    handle: &mut H,
    span: &ValueSpan<'_>,
    form: Form<'_>,
    runs: &[(u64, u64)],
) -> Result<ArrayBytes<'static>, CodecError>
    requires taken { TakenBy B.functions (plain_codec codec.now) (lent_form form) }
    requires plain { shard_depth (plain_codec codec.now) ≡ 0 }
    requires counted { product form.shape.now < 2 ^ 64 }
    requires stands { StandsIn span.now (H.state handle.old) }
    requires filled { AreFilled runs.now }
    requires below { EndWithin (product form.shape.now) runs.now }
    requires count { length (joined_runs runs.now) < 2 ^ 64 }
    ensures answer { ChunkReadsRuns B.functions (plain_codec codec.now) (lent_form form.entry)
        (seen_state span.now (H.state handle.old)) runs.now result }
    ensures tight { IfOk result (IsTight form.entry.data_type.now) }
    ensures sure { SureRuns B.functions (plain_codec codec.now) (lent_form form.entry) (seen_state
        span.now (H.state handle.old)) runs.now result }
    ensures left { H.state handle.new ≡ after_reading result (H.state handle.old) }
    ensures same_reference { H.lent handle.new ≡ H.lent handle.old }
{
    if codec.partial_decoder_capability().partial_decode {
        part_in_span(alloc, codec, handle, span, form, runs)
    } else {
        whole_in_span(alloc, codec, handle, span, form, runs)
    }
}
