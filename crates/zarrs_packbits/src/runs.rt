//! Reading runs of places.
ghost use Rattle.std.specs.Prelude.{◌≡◌, ◌+◌, ◌<◌, ◌≤◌, false, All, IfOk, length, map};
ghost use Rattle.zarrs_chunk.specs.Answer.{AnswersItems, memory_or_fault};
ghost use Rattle.zarrs_chunk.specs.Runs.{joined_runs};
ghost use Rattle.zarrs_codec.specs.Calls.{AsksRanges, MakesReads};
ghost use Rattle.zarrs_codec.specs.StorageState.{after_reading, are_sure};
ghost use Rattle.zarrs_codec.specs.HandleCalls.{NeverFailsIf};
ghost use Rattle.zarrs_bytes.specs.PlannedRanges.{NoneIsEmpty, spans};
ghost use Rattle.zarrs_packbits.specs.PackedLayout.{IsPackedLayout, is_whole};
ghost use Rattle.zarrs_packbits.specs.Packing.{packing};
ghost use Rattle.zarrs_packbits.specs.PartialRead.{packed_places_bytes, read_packed_bytes};
ghost use Rattle.zarrs_packbits.specs.ReadPlan.{packed_ranges, run_span, run_bits, runs_len};
ghost use Rattle.zarrs_packbits.specs.WrittenBits.{Puts};

use crate::bit_writer::BitWriter;
use crate::layout::PackedLayout;
use crate::spread::put_spread_runs;
use std::alloc::{AllocError, Global};
use zarrs_bytes::fill_runs;
use zarrs_chunk::{CodecError, count_places};
use zarrs_codec::{ByteRange, BytesPartialDecoderTraits, bytes_are};

/// One range of bytes for each run of places.
pub(crate) fn run_ranges(
    alloc: Global,
    layout: &PackedLayout,
    runs: &[(u64, u64)],
) -> Result<Vec<ByteRange>, AllocError>
    requires layout { IsPackedLayout layout.now }
    requires filled { All (λ run. 0 < run.1) runs.now }
    requires below { All (λ run. run.0 + run.1 ≤ layout.now.elements) runs.now }
    ensures spans { IfOk result (λ v. map (run_span layout.now) runs.now ≡ spans v.items) }
    ensures filled { IfOk result (λ v. NoneIsEmpty v.items) }
{
    let mut ranges = Vec::with_capacity(alloc, runs.len())?;
    for (start, len) in runs {
        let (from, to) = layout.run_span(*start, *len);
        match ByteRange::new(from..to) {
            None => unreachable!(),
            Some(range) => ranges.push(range)?,
        }
    }
    Ok(ranges)
}

/// Puts the components of the elements of the runs, of the runs' bytes joined.
fn put_runs(
    writer: &mut BitWriter,
    layout: &PackedLayout,
    bytes: &[u8],
    runs: &[(u64, u64)],
) -> Result<(), AllocError>
    requires layout { IsPackedLayout layout.now }
    requires in_part { is_whole layout.now ≡ false }
    requires filled { All (λ run. 0 < run.1) runs.now }
    requires below { All (λ run. run.0 + run.1 ≤ layout.now.elements) runs.now }
    requires len { length bytes.now ≡ runs_len layout.now runs.now }
    ensures appended { Puts writer.old writer.new result (run_bits layout.now bytes.now runs.now) }
{
    let mut at = 0;
    for (start, len) in runs {
        let (from, to) = layout.run_span(*start, *len);
        let count = (to - from) as usize;
        let offset = (*start * (layout.group * layout.count)) % 8;
        writer.put_components(layout, &bytes[at..at + count], offset, *len * layout.group)?;
        at += count;
    }
    Ok(())
}

/// The elements of the runs, of the runs' bytes joined.
fn unpack_runs(
    alloc: Global,
    layout: &PackedLayout,
    bytes: &[u8],
    runs: &[(u64, u64)],
) -> Result<Vec<u8>, AllocError>
    requires layout { IsPackedLayout layout.now }
    requires in_part { is_whole layout.now ≡ false }
    requires filled { All (λ run. 0 < run.1) runs.now }
    requires below { All (λ run. run.0 + run.1 ≤ layout.now.elements) runs.now }
    requires len { length bytes.now ≡ runs_len layout.now runs.now }
    ensures value { IfOk result (λ v. v.items ≡ packing (run_bits layout.now bytes.now runs.now)) }
{
    let element = layout.group.saturating_mul(layout.size);
    let room = count_places(runs).saturating_mul(element);
    if layout.is_spread() {
        let mut out = vec![in alloc; 0; room as usize]?;
        put_spread_runs(&mut out, layout, bytes, runs);
        bytes_are(&out);
        return Ok(out);
    }
    let mut writer = BitWriter::with_capacity(alloc, room as usize)?;
    put_runs(&mut writer, layout, bytes, runs)?;
    writer.finish()
}

/// The elements at the places of these runs of what a handle keeps, joined; the fill element at
/// each where nothing is stored. Not all bits of whole bytes are kept.
pub(crate) fn read_runs<H: BytesPartialDecoderTraits>(
    alloc: Global,
    handle: &mut H,
    layout: &PackedLayout,
    fill: &[u8],
    runs: &[(u64, u64)],
) -> Result<Vec<u8>, CodecError>
    requires layout { IsPackedLayout layout.now }
    requires in_part { is_whole layout.now ≡ false }
    requires fill_some { 0 < length fill.now }
    requires filled { All (λ run. 0 < run.1) runs.now }
    requires below { All (λ run. run.0 + run.1 ≤ layout.now.elements) runs.now }
    ensures answer { AnswersItems memory_or_fault result (read_packed_bytes
        layout.now (H.state handle.old).value fill.now (joined_runs runs.now)) }
    ensures sure { NeverFailsIf (are_sure (H.state handle.old).sure
        (packed_places_bytes layout.now (joined_runs runs.now))) result }
    ensures left { H.state handle.new ≡ after_reading result (H.state handle.old) }
    ensures counted { MakesReads H.calls 1 handle.old handle.new result }
    ensures asked { AsksRanges H.asked (packed_ranges layout.now runs.now) handle.old handle.new result }
    ensures same_reference { H.lent handle.new ≡ H.lent handle.old }
{
    let ranges = run_ranges(alloc, layout, runs)?;
    match handle.partial_decode_many(alloc, ranges.as_slice())? {
        Some(bytes) => Ok(unpack_runs(alloc, layout, bytes.as_slice(), runs)?),
        None => Ok(fill_runs(alloc, fill, runs)?),
    }
}
