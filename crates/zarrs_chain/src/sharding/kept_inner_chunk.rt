//! An inner chunk whose chain hands on the bytes of its elements: they go straight into the shard.
ghost use Rattle.std.specs.Prelude.{◌≡◌, ◌+◌, ◌*◌, ◌<◌, ◌≤◌, All, length, true};
ghost use Rattle.zarrs_chunk.specs.Answer.{Appends};
ghost use Rattle.zarrs_array_bytes.specs.Pieces.{pieces_at};
ghost use Rattle.zarrs_shard_bytes.specs.InnerPlaces.{places_from};
ghost use Rattle.zarrs_chain.specs.sharding.ShardWalk.{KeepsInner, are_item, kept_part};
ghost use Rattle.zarrs_shard_bytes.specs.WrittenShard.{WritesPart};

use crate::codec_chain::CodecChain;
use crate::form::Form;
use crate::representation::taken_form;
use crate::sharding::kept_bytes::keeps_bytes;
use std::alloc::{AllocError, Global};
use zarrs_chunk::CodecError;
use zarrs_codec::BytesToBytesCodecTraits;
use zarrs_shard_bytes::fill_elements::repeats;
use zarrs_shard_bytes::written_shard::WrittenShard;

/// Whether the chain takes such chunks and hands on the bytes of their elements as they are.
pub(crate) fn keeps_inner<B: BytesToBytesCodecTraits>(
    alloc: Global,
    chain: &CodecChain<B>,
    form: Form<'_>,
) -> bool
    ensures kept { result ≡ true → KeepsInner B.functions chain.now
        form.entry.shape.now form.entry.data_type.now form.entry.fill_value.now }
{
    if form.fill_value.as_ne_bytes().is_empty() || !keeps_bytes(chain, form.data_type) {
        return false;
    }
    match taken_form(alloc, chain, form) {
        Ok(_) => true,
        Err(_) => false,
    }
}

/// Appends the bytes of the elements of `size` at the runs, each run further on by so many
/// elements: one copy a run.
fn append_runs(
    out: &mut Vec<u8>,
    bytes: &[u8],
    size: usize,
    start: u64,
    runs: &[(u64, u64)],
) -> Result<(), AllocError>
    requires sized { 0 < size }
    requires inside { All (λ run. (start + (run.0 + run.1)) * size ≤ length bytes.now) runs.now }
    ensures appended { Appends out.old out.new result
        (pieces_at size bytes.now (places_from start runs.now)) }
{
    for run in runs {
        let from = (start + run.0) as usize * size;
        let to = from + run.1 as usize * size;
        out.extend_from_slice(&bytes[from..to])?;
    }
    Ok(())
}

/// Whether each element of the item's size at the runs, each run further on by so many elements, is
/// the item. A run that has another one is the last that is looked at.
fn runs_repeat(bytes: &[u8], item: &[u8], start: u64, runs: &[(u64, u64)]) -> bool
    requires sized { 0 < length item.now }
    requires inside { All (λ run. (start + (run.0 + run.1)) * length item.now ≤ length bytes.now)
        runs.now }
    ensures value { result ≡ are_item item.now bytes.now (places_from start runs.now) }
{
    let size = item.len();
    for run in runs {
        let from = (start + run.0) as usize * size;
        let to = from + run.1 as usize * size;
        if !repeats(&bytes[from..to], item) {
            return false;
        }
    }
    true
}

/// Writes the inner chunk at the runs, each run further on by so many elements, by the bytes of the
/// chunk's elements, unless each of its elements is the item. Errors: `OutOfMemory`.
pub(crate) fn write_kept(
    bytes: &[u8],
    item: &[u8],
    start: u64,
    runs: &[(u64, u64)],
    written: &mut WrittenShard,
) -> Result<(), CodecError>
    requires sized { 0 < length item.now }
    // Wide: each run ends within the elements.
    requires inside { All (λ run. (start + (run.0 + run.1)) * length item.now ≤ length bytes.now)
        runs.now }
    ensures answer { WritesPart written.old written.new
        (kept_part item.now bytes.now (places_from start runs.now)) result }
{
    if runs_repeat(bytes, item, start, runs) {
        return written.leave_out();
    }
    let offset = written.bytes.len();
    append_runs(&mut written.bytes, bytes, item.len(), start, runs)?;
    written.list_from(offset)
}
