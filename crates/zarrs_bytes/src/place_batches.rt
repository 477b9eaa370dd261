//! The elements at places that are given one by one, read over a handle.
//!
//! A run takes 16 bytes of memory, more than most elements have. So where many places follow no other
//! one, their runs are made and read a batch at a time.
ghost use Rattle.std.specs.Prelude.{◌≡◌, ◌<◌, ◌≤◌, ◌||◌, nat_le, true, Ok, Some, IfOk, OnOk, is_some, length};
ghost use Rattle.zarrs_chunk.specs.Answer.{memory_or_fault, Answers, Gives};
ghost use Rattle.zarrs_chunk.specs.Runs.{places_in, AreApart, AreFilled, EndsBelow};
ghost use Rattle.zarrs_data_type.specs.ElementType.{fixed_size_of};
ghost use Rattle.zarrs_data_type.specs.FillValue.{fill_fits};
ghost use Rattle.zarrs_array_bytes.specs.Tight.{IsTight};
ghost use Rattle.zarrs_codec.specs.ByteRanges.{range_indices};
ghost use Rattle.zarrs_codec.specs.Calls.{AsksRanges, MakesReads};
ghost use Rattle.zarrs_codec.specs.StorageState.{after_reading};
ghost use Rattle.zarrs_codec.specs.HandleCalls.{NeverFailsIf, ReadsBytes};
ghost use Rattle.zarrs_bytes.specs.AskedRanges.{ranges_by_batches, ranges_of_places, with_range, AsksByBatches, AsksForPlaces, GoesOn};
ghost use Rattle.zarrs_bytes.specs.PartialRead.{bytes_at_places, place_bytes, place_size, places_are_sure, with_read, AreCounted, ReadsPlaces, ReadsPlacesSurely, RepeatsFill};
ghost use Rattle.zarrs_bytes.specs.PlannedRanges.{NoneIsEmpty, indices_until};
ghost use Rattle.zarrs_bytes.specs.ReadingCalls.{are_scattered, calls_for_places, follows_count, CountsBatches, MakesBatches};

use crate::batches::BATCH;
use crate::bytes_codec::BytesCodec;
use crate::bytes_codec_partial::element_size;
use std::alloc::{AllocError, Global};
use std::borrow::CowSlice;
use zarrs_array_bytes::{ArrayBytes, append_copies, hold_turned};
use zarrs_chunk::{CodecError, runs_of_places};
use zarrs_codec::{ByteRange, BytesPartialDecoderTraits};
use zarrs_data_type::{DataType, FillValue};

/// 1 where the second place follows the first, and else 0.
fn count_follower(place: u64, next: u64) -> usize
    ensures count { result ≡ follows_count place next }
    ensures within { result ≤ 1 }
{
    if next > place && next - place == 1 {
        1
    } else {
        0
    }
}

/// Whether the places are more than a batch, and fewer than half of them follow the one before: their
/// runs would take more memory than the places.
fn are_scattered(places: &[u64]) -> bool
    ensures value { result ≡ are_scattered places.now }
{
    let mut joined: usize = 0;
    for index in 1..places.len() {
        joined += count_follower(places[index - 1], places[index]);
    }
    places.len() > BATCH && joined < places.len() / 2
}

/// Whether these places are read a batch at a time: they are no more than one, or else scattered.
fn are_read_by_batches(places: &[u64]) -> bool
    ensures value { result ≡ (nat_le (length places.now) 1024 || are_scattered places.now) }
{
    places.len() <= BATCH || are_scattered(places)
}

/// One range more, where it has any bytes.
#[inline(always)]
fn push_range(ranges: &mut Vec<ByteRange>, start: u64, end: u64) -> Result<(), AllocError>
    requires ordered { start ≤ end }
    ensures bytes { OnOk result
        (range_indices ranges.new.items ≡ indices_until ranges.old.items start end) }
    ensures pushed { OnOk result (ranges.new.items ≡ with_range ranges.old.items start end) }
    ensures filled { OnOk result (NoneIsEmpty ranges.old.items → NoneIsEmpty ranges.new.items) }
{
    if start < end {
        match ByteRange::new(start..end) {
            None => unreachable!(),
            Some(range) => ranges.push(range)?,
        }
    }
    Ok(())
}

/// Where the range begins that goes on with the byte of this number: at `start`, where the range from
/// there ends here; and else here, and that range is one more.
#[inline(always)]
fn begin_range(
    ranges: &mut Vec<ByteRange>,
    start: u64,
    end: u64,
    here: u64,
) -> Result<u64, AllocError>
    requires ordered { start ≤ end }
    ensures ordered { IfOk result (λ begin. begin ≤ here) }
    ensures bytes { IfOk result (λ begin. indices_until ranges.new.items begin here
        ≡ indices_until ranges.old.items start end) }
    ensures goes_on { IfOk result (λ begin.
        GoesOn ranges.old.items ranges.new.items start end here begin) }
    ensures filled { OnOk result (NoneIsEmpty ranges.old.items → NoneIsEmpty ranges.new.items) }
{
    if here == end {
        return Ok(start);
    }
    push_range(ranges, start, end)?;
    Ok(here)
}

/// The ranges of bytes of elements of `size` bytes at these places: neighbours that follow one another
/// are in one range.
fn place_ranges(alloc: Global, size: u64, places: &[u64]) -> Result<Vec<ByteRange>, AllocError>
    requires ends { AreCounted size places.now }
    requires sized { 0 < size }
    ensures bytes { IfOk result
        (λ ranges. range_indices ranges.items ≡ place_bytes size places.now) }
    ensures filled { IfOk result (λ ranges. NoneIsEmpty ranges.items) }
    ensures each { IfOk result (λ ranges. ranges.items ≡ ranges_of_places size places.now) }
{
    let mut ranges = Vec::with_capacity(alloc, places.len())?;
    let mut start = 0;
    let mut end = 0;
    for place in places {
        let here = *place * size;
        let begin = begin_range(&mut ranges, start, end, here)?;
        start = begin;
        end = here + size;
    }
    push_range(&mut ranges, start, end)?;
    Ok(ranges)
}

/// The bytes of elements of `size` bytes at these places, by one call of the handle, or `None` where
/// nothing is stored.
fn read_batch<H: BytesPartialDecoderTraits>(
    alloc: Global,
    handle: &mut H,
    size: u64,
    places: &[u64],
) -> Result<Option<Vec<u8>>, CodecError>
    requires ends { AreCounted size places.now }
    requires sized { 0 < size }
    ensures answer { ReadsBytes result (bytes_at_places size (H.state handle.old) places.now) }
    ensures sure { NeverFailsIf (places_are_sure size (H.state handle.old) places.now) result }
    ensures left { H.state handle.new ≡ after_reading result (H.state handle.old) }
    ensures same_reference { H.lent handle.new ≡ H.lent handle.old }
    ensures counted { MakesReads H.calls 1 handle.old handle.new result }
    ensures asked { AsksRanges H.asked (ranges_of_places size places.now) handle.old handle.new result }
{
    let ranges = place_ranges(alloc, size, places)?;
    handle.partial_decode_many(alloc, ranges.as_slice())
}

/// Appends the bytes at these places, by one call of the handle.
fn append_batch<H: BytesPartialDecoderTraits>(
    elements: &mut Vec<u8>,
    alloc: Global,
    handle: &mut H,
    size: u64,
    places: &[u64],
) -> Result<(), CodecError>
    requires ends { AreCounted size places.now }
    requires sized { 0 < size }
    requires stored { is_some (H.state handle.old).value ≡ true }
    ensures answer { Answers memory_or_fault (λ _. Some elements.new.items) result
        (with_read elements.old.items (bytes_at_places size (H.state handle.old) places.now)) }
    ensures sure { NeverFailsIf (places_are_sure size (H.state handle.old) places.now) result }
    ensures left { H.state handle.new ≡ after_reading result (H.state handle.old) }
    ensures same_reference { H.lent handle.new ≡ H.lent handle.old }
    ensures counted { MakesReads H.calls 1 handle.old handle.new result }
    ensures asked { AsksRanges H.asked (ranges_of_places size places.now) handle.old handle.new result }
{
    match read_batch(alloc, handle, size, places)? {
        None => unreachable!(),
        Some(bytes) => elements.extend_from_slice(bytes.as_slice())?,
    }
    Ok(())
}

/// Appends the bytes of elements of `size` bytes at these places, a batch at a time.
fn append_places<H: BytesPartialDecoderTraits>(
    elements: &mut Vec<u8>,
    alloc: Global,
    handle: &mut H,
    size: u64,
    places: &[u64],
) -> Result<(), CodecError>
    requires ends { AreCounted size places.now }
    requires sized { 0 < size }
    requires stored { is_some (H.state handle.old).value ≡ true }
    ensures answer { Answers memory_or_fault (λ _. Some elements.new.items) result
        (with_read elements.old.items (bytes_at_places size (H.state handle.old) places.now)) }
    ensures sure { NeverFailsIf (places_are_sure size (H.state handle.old) places.now) result }
    ensures left { H.state handle.new ≡ after_reading result (H.state handle.old) }
    ensures same_reference { H.lent handle.new ≡ H.lent handle.old }
    ensures counted { MakesBatches H.calls (length places.now) handle.old handle.new result }
    ensures asked { AsksRanges H.asked (ranges_by_batches size places.now) handle.old handle.new result }
{
    let mut rest = places;
    while !rest.is_empty() {
        let (batch, more) = rest.split_at(BATCH.min(rest.len()));
        append_batch(elements, alloc, handle, size, batch)?;
        rest = more;
    }
    Ok(())
}

/// The bytes of elements of `size` bytes at these places, as they stand in the value, or `None` where
/// nothing is stored. What the first batch gave is the answer's beginning.
fn read_place_bytes<H: BytesPartialDecoderTraits>(
    alloc: Global,
    handle: &mut H,
    size: u64,
    places: &[u64],
) -> Result<Option<Vec<u8>>, CodecError>
    requires ends { AreCounted size places.now }
    requires sized { 0 < size }
    ensures answer { ReadsBytes result (bytes_at_places size (H.state handle.old) places.now) }
    ensures sure { NeverFailsIf (places_are_sure size (H.state handle.old) places.now) result }
    ensures left { H.state handle.new ≡ after_reading result (H.state handle.old) }
    ensures same_reference { H.lent handle.new ≡ H.lent handle.old }
    ensures counted { CountsBatches H.state H.calls handle.old handle.new places.now result }
    ensures asked { AsksByBatches size H.state H.asked handle.old handle.new places.now result }
{
    let (first, rest) = places.split_at(BATCH.min(places.len()));
    match read_batch(alloc, handle, size, first)? {
        None => Ok(None),
        Some(mut bytes) => {
            bytes.reserve_exact((rest.len() as u64).saturating_mul(size) as usize)?;
            append_places(&mut bytes, alloc, handle, size, rest)?;
            Ok(Some(bytes))
        }
    }
}

/// The runs of these places, which are let go.
fn into_runs(alloc: Global, places: Vec<u64>) -> Result<Vec<(u64, u64)>, CodecError>
    ensures places { Gives places_in result (Ok places.items) }
    ensures filled { IfOk result (λ runs. AreFilled runs.items) }
    ensures below { EndsBelow places.items result }
    ensures apart { IfOk result (λ runs. AreApart runs.items) }
{
    runs_of_places(alloc, places.as_slice())
}

/// The fill element for each of these places.
fn fill_places(alloc: Global, fill: &[u8], places: &[u64]) -> Result<Vec<u8>, AllocError>
    ensures value { RepeatsFill fill.now places.now result }
{
    let mut bytes = Vec::new(alloc);
    append_copies(&mut bytes, fill, places.len() as u64)?;
    Ok(bytes)
}

impl BytesCodec {
    /// The elements at places that are read a batch at a time.
    fn read_scattered<H: BytesPartialDecoderTraits>(
        &self,
        alloc: Global,
        handle: &mut H,
        data_type: &DataType,
        fill_value: &FillValue,
        places: &[u64],
    ) -> Result<ArrayBytes<'static>, CodecError>
        requires fixed { is_some (fixed_size_of data_type.now) ≡ true }
        requires filling { fill_fits data_type.now fill_value.now ≡ true }
        requires ends { AreCounted (place_size data_type.now) places.now }
        ensures answer { ReadsPlaces self.now data_type.now fill_value.now
            (H.state handle.old) places.now result }
        ensures sure { ReadsPlacesSurely data_type.now (H.state handle.old) places.now result }
        ensures tight { IfOk result (IsTight data_type.now) }
        ensures left { H.state handle.new ≡ after_reading result (H.state handle.old) }
        ensures same_reference { H.lent handle.new ≡ H.lent handle.old }
        ensures counted { CountsBatches H.state H.calls handle.old handle.new places.now result }
        ensures asked { AsksByBatches (place_size data_type.now)
            H.state H.asked handle.old handle.new places.now result }
    {
        let size = element_size(data_type, fill_value);
        match read_place_bytes(alloc, handle, size as u64, places)? {
            None => {
                let bytes = fill_places(alloc, fill_value.as_ne_bytes(), places)?;
                Ok(ArrayBytes::new_flen(CowSlice::Owned(bytes)))
            }
            Some(bytes) => Ok(hold_turned(bytes, self.turn_size(data_type))),
        }
    }

    /// The elements at these places, in order, over a handle that keeps a chunk's value, as `read_runs`
    /// gives them of the places' runs: where the places are few, or many of them follow no other one, no
    /// list of their runs is made, and else the places are let go before they are read. The type is fixed and the fill value
    /// one of its elements, and 64 bits count the bytes up to the end of each place. Errors: those of
    /// `read_runs`. Many places are asked for in more than one call of the handle.
    ///
    /// Of each call places that follow one another are one range, as long as it can be: the range of
    /// 1,024 consecutive places is one.
    pub fn read_places<H: BytesPartialDecoderTraits>(
        &self,
        alloc: Global,
        handle: &mut H,
        data_type: &DataType,
        fill_value: &FillValue,
        places: Vec<u64>,
    ) -> Result<ArrayBytes<'static>, CodecError>
        requires fixed { is_some (fixed_size_of data_type.now) ≡ true }
        requires filling { fill_fits data_type.now fill_value.now ≡ true }
        requires ends { AreCounted (place_size data_type.now) places.items }
        ensures answer { ReadsPlaces self.now data_type.now fill_value.now
            (H.state handle.old) places.items result }
        ensures sure { ReadsPlacesSurely data_type.now (H.state handle.old) places.items result }
        ensures tight { IfOk result (IsTight data_type.now) }
        ensures left { H.state handle.new ≡ after_reading result (H.state handle.old) }
        ensures same_reference { H.lent handle.new ≡ H.lent handle.old }
        ensures counted { MakesReads H.calls (calls_for_places (place_size data_type.now)
            (H.state handle.old).value places.items) handle.old handle.new result }
        ensures asked { AsksForPlaces (place_size data_type.now)
            H.state H.asked handle.old handle.new places.items result }
    {
        if are_read_by_batches(&places) {
            return self.read_scattered(alloc, handle, data_type, fill_value, &places);
        }
        let runs = into_runs(alloc, places)?;
        self.read_runs(alloc, handle, data_type, fill_value, runs.as_slice())
    }
}
