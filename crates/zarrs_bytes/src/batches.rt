//! The bytes of elements at runs of places, read over a handle.
//!
//! A range takes 16 bytes of memory, more than most elements have. So where a read asks for many
//! short ranges, they are made and asked for a batch at a time.
ghost use Rattle.std.specs.Prelude.{◌≡◌, ◌<◌, ◌≤◌, ◌+◌, ◌*◌, ◌^◌, if◌then◌else◌, true, IfOk, All, is_some, length};
ghost use Rattle.zarrs_codec.specs.ByteRanges.{range_indices};
ghost use Rattle.zarrs_codec.specs.Calls.{AsksRanges, MakesReads};
ghost use Rattle.zarrs_codec.specs.StorageState.{after_reading};
ghost use Rattle.zarrs_codec.specs.HandleCalls.{NeverFailsIf, ReadsBytes};
ghost use Rattle.zarrs_bytes.specs.AskedRanges.{ranges_of_runs, AsksForRuns};
ghost use Rattle.zarrs_bytes.specs.PartialRead.{bytes_at_runs, run_byte_numbers, runs_are_sure, AddsRuns};
ghost use Rattle.zarrs_bytes.specs.PlannedRanges.{NoneIsEmpty, AreOfRuns};
ghost use Rattle.zarrs_bytes.specs.ReadingCalls.{are_many_short, CountsRuns, MakesBatches};

use std::alloc::{AllocError, Global};
use zarrs_chunk::{CodecError, count_places};
use zarrs_codec::{ByteRange, BytesPartialDecoderTraits};

/// How many ranges are made at a time, where they would take more memory than their bytes.
pub(crate) const BATCH: usize = 1024;

/// One range of bytes for each run of elements of `size` bytes.
pub fn run_ranges(
    alloc: Global,
    size: u64,
    runs: &[(u64, u64)],
) -> Result<Vec<ByteRange>, AllocError>
    requires filled { All (λ run. 0 < run.1) runs.now }
    requires ends { All (λ run. (run.0 + run.1) * size < 2 ^ 64) runs.now }
    requires sized { 0 < size }
    ensures bytes { IfOk result (λ ranges. range_indices ranges.items ≡ run_byte_numbers size runs.now) }
    ensures filled { IfOk result (λ ranges. NoneIsEmpty ranges.items) }
    ensures each { IfOk result (AreOfRuns size runs.now) }
{
    let mut ranges = Vec::with_capacity(alloc, runs.len())?;
    for (start, len) in runs {
        let first = *start * size;
        match ByteRange::new(first..first + *len * size) {
            None => unreachable!(),
            Some(range) => ranges.push(range)?,
        }
    }
    Ok(ranges)
}

/// How many of the runs are read first: all of them, but for many whose ranges take more memory
/// than their bytes.
fn first_batch(size: u64, runs: &[(u64, u64)]) -> usize
    ensures within { result ≤ length runs.now }
    ensures count { result ≡ (if are_many_short size runs.now then 1024 else length runs.now) }
{
    let count = runs.len();
    if count <= BATCH {
        return count;
    }
    let bytes = count_places(runs).saturating_mul(size);
    if bytes / 16 >= count as u64 {
        count
    } else {
        BATCH
    }
}

/// The bytes of these runs of elements of `size` bytes, by one call of the handle, or `None` where
/// nothing is stored.
fn read_batch<H: BytesPartialDecoderTraits>(
    alloc: Global,
    handle: &mut H,
    size: u64,
    runs: &[(u64, u64)],
) -> Result<Option<Vec<u8>>, CodecError>
    requires filled { All (λ run. 0 < run.1) runs.now }
    requires ends { All (λ run. (run.0 + run.1) * size < 2 ^ 64) runs.now }
    requires sized { 0 < size }
    ensures answer { ReadsBytes result (bytes_at_runs size (H.state handle.old) runs.now) }
    ensures sure { NeverFailsIf (runs_are_sure size (H.state handle.old) runs.now) result }
    ensures left { H.state handle.new ≡ after_reading result (H.state handle.old) }
    ensures same_reference { H.lent handle.new ≡ H.lent handle.old }
    ensures counted { MakesReads H.calls 1 handle.old handle.new result }
    ensures asked { AsksRanges H.asked (ranges_of_runs size runs.now) handle.old handle.new result }
{
    let ranges = run_ranges(alloc, size, runs)?;
    handle.partial_decode_many(alloc, ranges.as_slice())
}

/// Appends the bytes of these runs, by one call of the handle.
fn append_batch<H: BytesPartialDecoderTraits>(
    elements: &mut Vec<u8>,
    alloc: Global,
    handle: &mut H,
    size: u64,
    runs: &[(u64, u64)],
) -> Result<(), CodecError>
    requires filled { All (λ run. 0 < run.1) runs.now }
    requires ends { All (λ run. (run.0 + run.1) * size < 2 ^ 64) runs.now }
    requires sized { 0 < size }
    requires stored { is_some (H.state handle.old).value ≡ true }
    ensures answer { AddsRuns elements.old elements.new size (H.state handle.old) runs.now result }
    ensures sure { NeverFailsIf (runs_are_sure size (H.state handle.old) runs.now) result }
    ensures left { H.state handle.new ≡ after_reading result (H.state handle.old) }
    ensures same_reference { H.lent handle.new ≡ H.lent handle.old }
    ensures counted { MakesReads H.calls 1 handle.old handle.new result }
    ensures asked { AsksRanges H.asked (ranges_of_runs size runs.now) handle.old handle.new result }
{
    match read_batch(alloc, handle, size, runs)? {
        None => unreachable!(),
        Some(bytes) => elements.extend_from_slice(bytes.as_slice())?,
    }
    Ok(())
}

/// Appends the bytes of these runs, a batch at a time.
fn append_batches<H: BytesPartialDecoderTraits>(
    elements: &mut Vec<u8>,
    alloc: Global,
    handle: &mut H,
    size: u64,
    runs: &[(u64, u64)],
) -> Result<(), CodecError>
    requires filled { All (λ run. 0 < run.1) runs.now }
    requires ends { All (λ run. (run.0 + run.1) * size < 2 ^ 64) runs.now }
    requires sized { 0 < size }
    requires stored { is_some (H.state handle.old).value ≡ true }
    ensures answer { AddsRuns elements.old elements.new size (H.state handle.old) runs.now result }
    ensures sure { NeverFailsIf (runs_are_sure size (H.state handle.old) runs.now) result }
    ensures left { H.state handle.new ≡ after_reading result (H.state handle.old) }
    ensures same_reference { H.lent handle.new ≡ H.lent handle.old }
    ensures counted { MakesBatches H.calls (length runs.now) handle.old handle.new result }
    ensures asked { AsksRanges H.asked (ranges_of_runs size runs.now) handle.old handle.new result }
{
    let mut rest = runs;
    while !rest.is_empty() {
        let (batch, more) = rest.split_at(BATCH.min(rest.len()));
        append_batch(elements, alloc, handle, size, batch)?;
        rest = more;
    }
    Ok(())
}

/// The bytes of these runs of elements of `size` bytes, as they stand in the value, or `None` where
/// nothing is stored. What the first batch gave is the answer's beginning, and all of it where there
/// is one batch.
pub fn read_bytes<H: BytesPartialDecoderTraits>(
    alloc: Global,
    handle: &mut H,
    size: u64,
    runs: &[(u64, u64)],
) -> Result<Option<Vec<u8>>, CodecError>
    requires filled { All (λ run. 0 < run.1) runs.now }
    requires ends { All (λ run. (run.0 + run.1) * size < 2 ^ 64) runs.now }
    requires sized { 0 < size }
    ensures answer { ReadsBytes result (bytes_at_runs size (H.state handle.old) runs.now) }
    ensures sure { NeverFailsIf (runs_are_sure size (H.state handle.old) runs.now) result }
    ensures left { H.state handle.new ≡ after_reading result (H.state handle.old) }
    ensures same_reference { H.lent handle.new ≡ H.lent handle.old }
    ensures counted { CountsRuns size H.state H.calls handle.old handle.new runs.now result }
    ensures asked { AsksForRuns size H.state H.asked handle.old handle.new runs.now result }
{
    let (first, rest) = runs.split_at(first_batch(size, runs));
    match read_batch(alloc, handle, size, first)? {
        None => Ok(None),
        Some(mut bytes) => {
            bytes.reserve_exact(count_places(rest).saturating_mul(size) as usize)?;
            append_batches(&mut bytes, alloc, handle, size, rest)?;
            Ok(Some(bytes))
        }
    }
}
