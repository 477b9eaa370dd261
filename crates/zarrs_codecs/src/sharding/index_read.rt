//! The index of a shard, of which no other byte is read.
ghost use Rattle.std.specs.Prelude.{◌≡◌, ◌*◌, IfOk, IsOk, Ok, length};
ghost use Rattle.zarrs_chain.specs.sharding.ShardingCalls.{index_size_of};
ghost use Rattle.zarrs_chain_meaning.specs.sharding.InnerChunks.{grid as grid_of, inner_chunk_count};
ghost use Rattle.zarrs_chain_meaning.specs.sharding.ShardSteps.{divided_grid};
ghost use Rattle.zarrs_chunk.specs.Answer.{seen};
ghost use Rattle.zarrs_codec.specs.StorageState.{after_reading};
ghost use Rattle.zarrs_codecs.specs.SpanReads.{GivesSpans, StandsIn, SureIndex, index_span as index_span_of, seen_state, span_parts};

use crate::sharding::span_bytes::span_bytes;
use crate::sharding::value_span::ValueSpan;
use std::alloc::Global;
use zarrs_chain::CodecChain;
use zarrs_chain::stages::{index_decode, index_size};
use zarrs_chain_meaning::sharding::inner_chunks::inner_chunk_grid;
use zarrs_chunk::{ChunkShape, CodecError};
use zarrs_codec::{BytesPartialDecoderTraits, BytesToBytesCodecTraits};

/// Where an index of so many bytes stands. Errors: `InvalidBytesLength` where the value has fewer.
fn index_span<'b>(
    span: &ValueSpan<'b>,
    size: u64,
    at_end: bool,
) -> Result<ValueSpan<'b>, CodecError>
    ensures answer { seen span_parts result ≡ index_span_of span.now size at_end }
{
    if span.len < size {
        return Err(CodecError::InvalidBytesLength {
            len: span.len,
            expected: size,
        });
    }
    if at_end {
        span.inside(span.len - size, size)
    } else {
        span.inside(0, size)
    }
}

/// The numbers of the index, two for each inner chunk. Errors, the first that holds, `OutOfMemory`
/// aside: `InvalidBytesLength` where the value has fewer bytes than the index; `Storage`; those of the
/// index chain.
pub(crate) fn index_numbers<H: BytesPartialDecoderTraits, B: BytesToBytesCodecTraits>(
    alloc: Global,
    index_codecs: &CodecChain<B>,
    inner: &ChunkShape,
    at_end: bool,
    handle: &mut H,
    span: &ValueSpan<'_>,
    shape: &ChunkShape,
) -> Result<Vec<usize>, CodecError>
    requires grid { divided_grid inner.now shape.now
        ≡ Ok (grid_of inner.now shape.now) }
    requires measured { IsOk (index_size_of B.functions index_codecs.now
        (grid_of inner.now shape.now)) }
    requires stands { StandsIn span.now (H.state handle.old) }
    ensures answer { GivesSpans B.functions index_codecs.now inner.now at_end shape.now
        (seen_state span.now (H.state handle.old)) result }
    ensures len { IfOk result
        (λ v. length v.items ≡ inner_chunk_count inner.now shape.now * 2) }
    ensures sure { SureIndex B.functions index_codecs.now inner.now at_end shape.now
        (seen_state span.now (H.state handle.old)) result }
    ensures left { H.state handle.new ≡ after_reading result (H.state handle.old) }
    ensures same_reference { H.lent handle.new ≡ H.lent handle.old }
{
    let grid = inner_chunk_grid(alloc, shape, inner)?;
    let size = index_size(alloc, index_codecs, &grid)?;
    let place = index_span(span, size, at_end)?;
    let part = span_bytes(alloc, handle, &place)?;
    index_decode(alloc, index_codecs, part.as_slice(), &grid)
}
