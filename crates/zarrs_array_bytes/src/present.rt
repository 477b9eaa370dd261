//! Elements that are present under a mask: extracted, and put back.
ghost use Rattle.std.specs.Prelude.{◌≡◌, ◌<◌, ◌-◌, ◌≤◌, false, Ok, IfOk, OnOk, length, true};
ghost use Rattle.std.specs.List.{range_with_len};
ghost use Rattle.zarrs_chunk.specs.Answer.{Gives, GivesValue, is_fault, GivesBy, seen};
ghost use Rattle.zarrs_chunk.specs.Runs.{places_in, AddsPlaces, EndWithin, StayWithin};
ghost use Rattle.zarrs_data_type.specs.ElementType.{optional};
ghost use Rattle.zarrs_array_bytes.specs.Held.{items_of, raw_of, masked};
ghost use Rattle.zarrs_array_bytes.specs.Validity.{HasElements, sizes_fit, Holds, validity};
ghost use Rattle.zarrs_array_bytes.specs.Blank.{OuterAreBlank, AbsentAreBlank};
ghost use Rattle.zarrs_array_bytes.specs.Extracted.{IsSmall, GivesHeldAt};
ghost use Rattle.zarrs_array_bytes.specs.Tight.{IsFlush, GivesFlush, KeepsTight, IsTight};
ghost use Rattle.zarrs_array_bytes.specs.Present.{present_places, present_count, container_spread, expansion_of, present_chunk, are_all_present, expanded_chunk, container_expansion};

use crate::array_bytes::{ArrayBytes, Parts, is_mask};
use crate::array_bytes_raw::ArrayBytesRaw;
use crate::fill::blank_elements;
use crate::masked_bytes::{is_word, kept_elements, spread_elements};
use crate::update::write_elements;
use crate::validate::check_sizes;
use std::alloc::{AllocError, Global};
use std::borrow::CowSlice;
use zarrs_chunk::CodecError;
use zarrs_data_type::DataType;

/// How many mask bytes are counted in a byte.
const BLOCK: usize = 128;

/// How many elements are present under a mask with a byte for each: 0 for absent, 1 for present.
/// Errors: `MaskValue` where a byte is another number.
pub fn count_present(mask: &[u8]) -> Result<u64, CodecError>
    ensures answer { result ≡ present_count mask.now }
    ensures no_fault { is_fault result ≡ false }
{
    if !is_mask(mask) {
        return Err(CodecError::MaskValue);
    }
    Ok(count_set(mask) as u64)
}

/// How many mask bytes aren't 0.
fn count_set(mask: &[u8]) -> usize
    ensures count { result ≡ length (present_places mask.now) }
{
    let blocks = mask.len() / BLOCK;
    let mut count = 0;
    for block in 0..blocks {
        let start = block * BLOCK;
        let few = count_few(&mask[start..start + BLOCK]);
        count += few as usize;
    }
    let rest = count_few(&mask[blocks * BLOCK..]);
    count + rest as usize
}

/// How many of these mask bytes aren't 0, so few that a byte counts them: then a register counts many
/// of them at once.
#[inline(always)]
fn count_few(mask: &[u8]) -> u8
    requires few { length mask.now ≤ 128 }
    ensures count { result ≡ length (present_places mask.now) }
{
    let mut count = 0;
    for place in 0..mask.len() {
        if mask[place] != 0 {
            count += 1;
        }
    }
    count
}

/// How many runs to reserve room for.
fn count_runs(mask: &[u8]) -> usize {
    let mut count: usize = 0;
    let mut before = 0;
    for byte in mask {
        if before == 0 && *byte != 0 {
            count = count.saturating_add(1);
        }
        before = *byte;
    }
    count
}

/// Appends a run of the places from `start` up to `end`, which isn't in it; none where there is no
/// place.
fn push_run(runs: &mut Vec<(u64, u64)>, start: usize, end: usize) -> Result<(), AllocError>
    requires ordered { start ≤ end }
    ensures places { AddsPlaces runs.old runs.new result (range_with_len start (end - start)) }
    ensures inside { OnOk result (StayWithin end runs.old.items runs.new.items) }
{
    if start < end {
        runs.push((start as u64, (end - start) as u64))?;
    }
    Ok(())
}

/// The places at which a mask byte isn't 0, in runs of a start and a length.
fn runs_of_mask(alloc: Global, mask: &[u8]) -> Result<Vec<(u64, u64)>, CodecError>
    ensures places { Gives places_in result (Ok (present_places mask.now)) }
    ensures inside { IfOk result (λ runs. EndWithin (length mask.now) runs.items) }
{
    let mut runs = Vec::with_capacity(alloc, count_runs(mask))?;
    let mut start = 0;
    for place in 0..mask.len() {
        if mask[place] == 0 {
            push_run(&mut runs, start, place)?;
            start = place + 1;
        }
    }
    push_run(&mut runs, start, mask.len())?;
    Ok(runs)
}

impl<'a> ArrayBytes<'a> {
    /// The elements that are present under the mask, one after another, of this container of the
    /// elements of the type under it: those where its byte isn't 0. Elements of 1, 2, 4, 8
    /// or 16 bytes are moved one by one, of others the bytes of a run of present ones at once; where
    /// all are present, the container is returned as it is, in no new memory. Errors, the first
    /// that applies, `OutOfMemory` aside: those of `validate` at the number of mask bytes.
    pub fn extract_present(
        self,
        alloc: Global,
        mask: &[u8],
        data_type: &DataType,
    ) -> Result<ArrayBytes<'a>, CodecError>
        ensures answer { GivesBy (Holds data_type.now) result
            (present_chunk data_type.now self.entry mask.now) }
        ensures kept { are_all_present mask.now ≡ true → result
            ≡ seen (λ _. self.entry) (validity data_type.now (length mask.now) self.entry) }
        ensures blank { AbsentAreBlank data_type.now self.entry
            → IfOk result (AbsentAreBlank data_type.now) }
        ensures tight { KeepsTight data_type.now self.entry result }
    {
        self.validate(mask.len() as u64, data_type)?;
        let count = count_set(mask);
        if count == mask.len() {
            return Ok(self);
        }
        self.at_present(alloc, mask, count, data_type)
    }

    /// The elements at the places where the mask byte isn't 0, `count` of them: those of a few bytes
    /// one by one, others by runs.
    #[tactic(auto, using(crate::proofs::MaskedBytes::masked_calls))]
    fn at_present<'b>(
        &self,
        alloc: Global,
        mask: &[u8],
        count: usize,
        data_type: &DataType,
    ) -> Result<ArrayBytes<'b>, CodecError>
        requires valid { HasElements data_type.now (length mask.now) self.now }
        requires counted { count ≡ length (present_places mask.now) }
        requires some { count < length mask.now }
        ensures small { IfOk result IsSmall }
        ensures flush { GivesFlush result }
        ensures exact { GivesHeldAt data_type.now self.now (present_places mask.now) result }
    {
        if let Parts::Fixed(bytes) = &self.parts {
            let size = data_type.fixed_size().unwrap();
            if is_word(size) {
                let bytes = kept_elements(alloc, bytes.as_slice(), size, mask, count)?;
                return Ok(ArrayBytes::new_flen(CowSlice::Owned(bytes)));
            }
        }
        let runs = runs_of_mask(alloc, mask)?;
        self.at_runs(alloc, runs.as_slice(), mask.len() as u64, data_type)
    }

    /// These elements of the type put back under the mask: the elements of the optional type that are
    /// present, one after another, where its byte is 1, and absent elsewhere. Absent ones are over
    /// zeros, empty bytes and inner masks of zero. Elements of 1, 2, 4, 8 or 16 bytes are moved one by
    /// one, of others a run of present ones at once; where all are present, the container is used as
    /// it is. Errors, the first that applies, `OutOfMemory` aside: those of `count_present`; those of
    /// `validate` at that count; `Overflow` as in `validate` at the number of mask bytes.
    pub fn expand_present(
        self,
        alloc: Global,
        mask: ArrayBytesRaw<'a>,
        data_type: &DataType,
    ) -> Result<ArrayBytes<'a>, CodecError>
        ensures answer { GivesBy (Holds (optional data_type.now)) result
            (expanded_chunk data_type.now self.entry (items_of mask.entry)) }
        ensures held { IfOk result (λ array. array ≡ masked
            (container_expansion data_type.now self.entry (items_of mask.entry)) (raw_of mask.entry)) }
        ensures absent { IfOk result (OuterAreBlank (optional data_type.now)) }
        ensures blank { AbsentAreBlank data_type.now self.entry
            → IfOk result (AbsentAreBlank (optional data_type.now)) }
        ensures tight { IsTight data_type.now self.entry
            → IfOk result (IsTight (optional data_type.now)) }
    {
        let inner = self.expand_elements(alloc, mask.as_slice(), data_type)?;
        inner.under_mask(alloc, mask)
    }

    /// The elements under the mask.
    fn expand_elements(
        self,
        alloc: Global,
        mask: &[u8],
        data_type: &DataType,
    ) -> Result<ArrayBytes<'a>, CodecError>
        ensures exact { GivesValue result (expansion_of data_type.now self.entry mask.now) }
        ensures flush { IsFlush self.entry → GivesFlush result }
    {
        let count = count_present(mask)?;
        self.validate(count, data_type)?;
        check_sizes(mask.len() as u64, data_type)?;
        if count == mask.len() as u64 {
            return Ok(self);
        }
        spread(alloc, &self, mask, data_type)
    }
}

/// As many blank elements as there are mask bytes, with these at the places where the byte isn't 0.
#[tactic(auto, using(crate::proofs::MaskedBytes::masked_calls))]
fn spread<'a>(
    alloc: Global,
    array: &ArrayBytes<'_>,
    mask: &[u8],
    data_type: &DataType,
) -> Result<ArrayBytes<'a>, CodecError>
    requires valid { HasElements data_type.now (length (present_places mask.now)) array.now }
    requires sizes { sizes_fit data_type.now (length mask.now) ≡ Ok tt }
    ensures exact { GivesValue result (Ok (container_spread data_type.now array.now mask.now)) }
    ensures flush { GivesFlush result }
{
    if let Parts::Fixed(bytes) = &array.parts {
        let size = data_type.fixed_size().unwrap();
        if is_word(size) {
            let bytes = spread_elements(alloc, bytes.as_slice(), size, mask)?;
            return Ok(ArrayBytes::new_flen(CowSlice::Owned(bytes)));
        }
    }
    spread_runs(alloc, array, mask, data_type)
}

/// The same, written by runs into blank elements.
fn spread_runs<'a>(
    alloc: Global,
    array: &ArrayBytes<'_>,
    mask: &[u8],
    data_type: &DataType,
) -> Result<ArrayBytes<'a>, CodecError>
    requires valid { HasElements data_type.now (length (present_places mask.now)) array.now }
    requires sizes { sizes_fit data_type.now (length mask.now) ≡ Ok tt }
    ensures exact { GivesValue result (Ok (container_spread data_type.now array.now mask.now)) }
    ensures flush { GivesFlush result }
{
    let count = mask.len() as u64;
    let runs = runs_of_mask(alloc, mask)?;
    let blank = blank_elements(alloc, data_type, count)?;
    write_elements(alloc, blank, count, array, runs.as_slice(), data_type)
}
