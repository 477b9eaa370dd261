//! The elements at runs of places, of which the offsets are known.
ghost use Rattle.std.specs.Prelude.{◌≡◌, ◌≤◌, ◌<◌, ◌+◌, ◌-◌, ◌^◌, true, All, Ok, IfOk, OnOk, is_some, length, ◌∷◌, map, slice_index};
ghost use Rattle.std.specs.List.{list_all, range_with_len};
ghost use Rattle.zarrs_chunk.specs.Runs.{joined_runs};
ghost use Rattle.zarrs_data_type.specs.ElementType.{is_variable};
ghost use Rattle.zarrs_array_bytes.specs.Tight.{IsTight};
ghost use Rattle.zarrs_array_bytes.specs.Held.{vlen, owned_bytes};
ghost use Rattle.zarrs_array_bytes.specs.Offsets.{is_offsets, last_of};
ghost use Rattle.zarrs_codec.specs.ByteRanges.{range_indices};
ghost use Rattle.zarrs_codec.specs.Calls.{MakesReads};
ghost use Rattle.zarrs_codec.specs.StorageState.{after_reading};
ghost use Rattle.zarrs_array_bytes.specs.Cuts.{run_size};
ghost use Rattle.zarrs_plain_vlen.specs.Elements.{AddsNumbers, joined_size, run_numbers, element_zeros, joined_elements};
ghost use Rattle.zarrs_plain_vlen.specs.ReadingCalls.{calls_for};
ghost use Rattle.zarrs_plain_vlen.specs.StoredBytes.{SureAt, stored_bytes};
ghost use Rattle.zarrs_chain_meaning.specs.vlen.VlenLayout.{span_numbers, span_bytes};
ghost use Rattle.zarrs_plain_vlen.specs.VlenRead.{element_is_there, element_numbers, elements_read};
ghost use Rattle.zarrs_chunk.specs.Answer.{Appends, AnswersBy, AnswersItems, memory_or_fault};
ghost use Rattle.zarrs_array_bytes.specs.Pieces.{ends as ends_of};
ghost use Rattle.zarrs_array_bytes.specs.Validity.{Holds};

use crate::handle_reads::read_inside;
use crate::layout::range_of;
use crate::offsets::Offsets;
use std::alloc::{AllocError, Global};
use std::borrow::CowSlice;
use zarrs_array_bytes::{ArrayBytes, ArrayBytesOffsets};
use zarrs_chunk::{CodecError, count_places};
use zarrs_codec::{ByteRange, BytesPartialDecoderTraits};
use zarrs_data_type::DataType;

/// Whether each of the `count` elements from `first` on is empty, or ends within `size` bytes.
fn run_is_there(offsets: &Offsets, size: u64, first: usize, count: usize) -> bool
    requires rising { is_offsets offsets.now ≡ true }
    requires known { first + count < length offsets.now }
    ensures value { result ≡ list_all (element_is_there offsets.now size) (range_with_len first count) }
{
    let from = offsets.at(first);
    let to = offsets.at(first + count);
    to <= from || to as u64 <= size
}

/// Whether each of the elements at the runs is empty, or ends within `size` bytes.
fn are_there(offsets: &Offsets, size: u64, runs: &[(u64, u64)]) -> bool
    requires rising { is_offsets offsets.now ≡ true }
    requires known { All (λ run. run.0 + run.1 < length offsets.now) runs.now }
    ensures value { result ≡ list_all
        (λ run. list_all (element_is_there offsets.now size) (range_with_len run.0 run.1)) runs.now }
{
    for (first, count) in runs {
        if !run_is_there(offsets, size, *first as usize, *count as usize) {
            return false;
        }
    }
    true
}

/// Appends a range, joined with the last one where that one ends there.
fn push_joined(ranges: &mut Vec<ByteRange>, range: ByteRange) -> Result<(), AllocError>
    requires some { range.start < range.end }
    requires filled { All (λ range. range.start < range.end) ranges.old.items }
    ensures numbers { OnOk result (AddsNumbers (span_numbers range) ranges.old ranges.new) }
    ensures filled { OnOk result (All (λ range. range.start < range.end) ranges.new.items) }
{
    match ranges.pop() {
        None => ranges.push(range)?,
        Some(last) => {
            if last.end() == range.start() {
                ranges.push(range_of(last.start(), range.end()))?;
            } else {
                ranges.push(last)?;
                ranges.push(range)?;
            }
        }
    }
    Ok(())
}

/// Appends the range of the bytes of the `count` elements from `first` on, of data that begin at
/// `start`; none, where they are all empty.
fn plan_run(
    ranges: &mut Vec<ByteRange>,
    offsets: &Offsets,
    start: u64,
    first: usize,
    count: usize,
) -> Result<(), AllocError>
    requires rising { is_offsets offsets.now ≡ true }
    requires known { first + count < length offsets.now }
    requires ends { slice_index offsets.now first < slice_index offsets.now (first + count)
        → start + slice_index offsets.now (first + count) < 2 ^ 64 }
    requires filled { All (λ range. range.start < range.end) ranges.old.items }
    ensures numbers { OnOk result (AddsNumbers
        (element_numbers start offsets.now (range_with_len first count)) ranges.old ranges.new) }
    ensures filled { OnOk result (All (λ range. range.start < range.end) ranges.new.items) }
{
    let from = offsets.at(first);
    let to = offsets.at(first + count);
    if from >= to {
        return Ok(());
    }
    push_joined(ranges, range_of(start + from as u64, start + to as u64))
}

/// The ranges of the bytes of the elements at the runs, of data that begin at `start`, in order, and
/// of no others. Neighbours are joined, and none is empty.
fn plan_runs(
    alloc: Global,
    offsets: &Offsets,
    start: u64,
    size: u64,
    runs: &[(u64, u64)],
) -> Result<Vec<ByteRange>, AllocError>
    requires rising { is_offsets offsets.now ≡ true }
    requires known { All (λ run. run.0 + run.1 < length offsets.now) runs.now }
    requires there { list_all (element_is_there offsets.now size) (joined_runs runs.now) ≡ true }
    requires fits { start + size < 2 ^ 64 }
    ensures numbers { IfOk result
        (λ v. range_indices v.items ≡ run_numbers start offsets.now runs.now) }
    ensures filled { IfOk result (λ ranges. All (λ range. range.start < range.end) ranges.items) }
{
    let mut ranges = Vec::with_capacity(alloc, runs.len())?;
    for (first, count) in runs {
        plan_run(
            &mut ranges,
            offsets,
            start,
            *first as usize,
            *count as usize,
        )?;
    }
    Ok(ranges)
}

/// Appends where each of the `count` elements from `first` on ends, behind `start` bytes.
fn append_ends(
    ends: &mut Vec<usize>,
    offsets: &Offsets,
    start: usize,
    first: usize,
    count: usize,
) -> Result<(), AllocError>
    requires rising { is_offsets offsets.now ≡ true }
    requires known { first + count < length offsets.now }
    requires fits { start + run_size offsets.now first count < 2 ^ 64 }
    ensures ends { Appends ends.old ends.new result
        (ends_of start (map (element_zeros offsets.now) (range_with_len first count))) }
{
    let from = offsets.at(first);
    offsets.append_moved(ends, first + 1, first + count + 1, from, start)
}

/// The offsets of the elements at the runs, one behind another.
fn ends_of_runs(
    alloc: Global,
    offsets: &Offsets,
    runs: &[(u64, u64)],
) -> Result<Vec<usize>, AllocError>
    requires rising { is_offsets offsets.now ≡ true }
    requires known { All (λ run. run.0 + run.1 < length offsets.now) runs.now }
    requires fits { joined_size offsets.now runs.now < 2 ^ 64 }
    ensures small { IfOk result (λ ends. length ends.items < 2 ^ 64) }
    ensures ends { IfOk result (λ ends. ends.items
        ≡ 0 ∷ ends_of 0 (map (element_zeros offsets.now) (joined_runs runs.now))) }
{
    let room = (count_places(runs) as usize).saturating_add(1);
    let mut ends = Vec::with_capacity(alloc, room)?;
    ends.push(0)?;
    let mut start = 0;
    for (first, count) in runs {
        let first = *first as usize;
        let count = *count as usize;
        append_ends(&mut ends, offsets, start, first, count)?;
        let from = offsets.at(first);
        start += offsets.at(first + count) - from;
    }
    Ok(ends)
}

/// The bytes of the elements at the runs, read by one call; by none where they have none. Errors:
/// `InvalidByteRange`.
fn read_bytes<H: BytesPartialDecoderTraits>(
    alloc: Global,
    handle: &mut H,
    offsets: &Offsets,
    content: ByteRange,
    runs: &[(u64, u64)],
) -> Result<Vec<u8>, CodecError>
    requires stored { is_some (H.state handle.old).value ≡ true }
    requires inside { content.end ≤ length (stored_bytes (H.state handle.old)) }
    requires rising { is_offsets offsets.now ≡ true }
    requires known { All (λ run. run.0 + run.1 < length offsets.now) runs.now }
    ensures answer { AnswersItems memory_or_fault result (joined_elements offsets.now
        (span_bytes (stored_bytes (H.state handle.old)) content) (joined_runs runs.now)) }
    ensures lengths { IfOk result (λ bytes. length bytes.items ≡ joined_size offsets.now runs.now) }
    ensures sure { SureAt (H.state handle.old)
        (run_numbers content.start offsets.now runs.now) result }
    ensures left { H.state handle.new ≡ after_reading result (H.state handle.old) }
    ensures same_reference { H.lent handle.new ≡ H.lent handle.old }
    ensures counted { MakesReads H.calls (calls_for (run_numbers content.start offsets.now
        runs.now)) handle.old handle.new result }
{
    let start = content.start();
    let size = content.end() - start;
    if !are_there(offsets, size, runs) {
        return Err(CodecError::InvalidByteRange);
    }
    let ranges = plan_runs(alloc, offsets, start, size, runs)?;
    read_inside(alloc, handle, ranges.as_slice())
}

/// A container of elements of any length.
fn variable(bytes: Vec<u8>, offsets: Vec<usize>) -> Result<ArrayBytes<'static>, CodecError>
    requires rising { is_offsets offsets.items ≡ true }
    requires ending { last_of offsets.items ≡ length bytes.items }
    ensures made { result ≡ Ok (vlen (owned_bytes bytes.items) offsets.items) }
{
    ArrayBytes::new_vlen(CowSlice::Owned(bytes), ArrayBytesOffsets::new(offsets)?)
}

/// The elements at the runs, in their order, of data that stand there in the stored value. Errors:
/// `InvalidByteRange`.
pub(crate) fn read_elements<H: BytesPartialDecoderTraits>(
    alloc: Global,
    handle: &mut H,
    offsets: &Offsets,
    span: ByteRange,
    data_type: &DataType,
    runs: &[(u64, u64)],
) -> Result<ArrayBytes<'static>, CodecError>
    requires stored { is_some (H.state handle.old).value ≡ true }
    requires inside { span.end ≤ length (stored_bytes (H.state handle.old)) }
    requires rising { is_offsets offsets.now ≡ true }
    requires known { All (λ run. run.0 + run.1 < length offsets.now) runs.now }
    requires variable { is_variable data_type.now ≡ true }
    ensures answer { AnswersBy memory_or_fault (Holds data_type.now) result (elements_read
        offsets.now (span_bytes (stored_bytes (H.state handle.old)) span) (joined_runs runs.now)) }
    ensures tight { IfOk result (IsTight data_type.now) }
    ensures sure { SureAt (H.state handle.old) (run_numbers span.start offsets.now runs.now) result }
    ensures left { H.state handle.new ≡ after_reading result (H.state handle.old) }
    ensures same_reference { H.lent handle.new ≡ H.lent handle.old }
    ensures counted { MakesReads H.calls (calls_for (run_numbers span.start offsets.now
        runs.now)) handle.old handle.new result }
{
    let bytes = read_bytes(alloc, handle, offsets, span, runs)?;
    let ends = ends_of_runs(alloc, offsets, runs)?;
    let _ = data_type;
    variable(bytes, ends)
}
