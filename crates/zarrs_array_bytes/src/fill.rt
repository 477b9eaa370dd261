//! Containers of fill values, and of blank elements.
ghost use Rattle.std.specs.Prelude.{◌≡◌, Ok, IfOk};
ghost use Rattle.zarrs_chunk.specs.Answer.{GivesValue, GivesBy};
ghost use Rattle.zarrs_array_bytes.specs.Validity.{sizes_fit, Holds};
ghost use Rattle.zarrs_array_bytes.specs.Tight.{IsTight};
ghost use Rattle.zarrs_array_bytes.specs.Extracted.{IsSmall};
ghost use Rattle.zarrs_array_bytes.specs.Filled.{blank_elements as blank_of, container_fill};
ghost use Rattle.zarrs_array_bytes.specs.Chunks.{fill_chunk};

use crate::array_bytes::ArrayBytes;
use crate::repeat::{repeat_bytes, repeat_cuts, same_bytes, zero_offsets};
use crate::validate::check_sizes;
use std::alloc::Global;
use std::borrow::CowSlice;
use zarrs_chunk::CodecError;
use zarrs_data_type::{DataType, FillValue};

impl<'a> ArrayBytes<'a> {
    /// `count` elements of the type, each of them the fill value. Absent ones are over zeros, empty bytes
    /// and inner masks of zero. Errors, the first that applies, `OutOfMemory` aside:
    /// `InvalidFillValue` where the bytes don't fit the type; `Overflow` as in `validate`.
    pub fn new_fill_value(
        alloc: Global,
        data_type: &DataType,
        count: u64,
        fill_value: &FillValue,
    ) -> Result<ArrayBytes<'a>, CodecError>
        ensures exact { GivesBy (Holds data_type.now) result
            (fill_chunk data_type.now count fill_value.now) }
        ensures held { IfOk result
            (λ array. array ≡ container_fill data_type.now count fill_value.now) }
        ensures tight { IfOk result (IsTight data_type.now) }
    {
        if !fill_value.fits(data_type) {
            return Err(CodecError::InvalidFillValue);
        }
        check_sizes(count, data_type)?;
        fill_elements(alloc, data_type, count, fill_value.as_ne_bytes())
    }
}

/// `count` blank elements: zeros, empty bytes, inner masks of zero.
#[tactic(auto, using(crate::proofs::FillLemmas::fill_calls))]
pub(crate) fn blank_elements<'a>(
    alloc: Global,
    data_type: &DataType,
    count: u64,
) -> Result<ArrayBytes<'a>, CodecError>
    requires sizes { sizes_fit data_type.now count ≡ Ok tt }
    ensures small { IfOk result IsSmall }
    ensures exact { GivesValue result (Ok (blank_of data_type.now count)) }
{
    if let Some(inner) = data_type.as_optional() {
        let inner = blank_elements(alloc, inner, count)?;
        return ArrayBytes::of_masked(alloc, inner, same_bytes(alloc, 0, count)?);
    }
    match data_type.fixed_size() {
        Some(size) => {
            let bytes = same_bytes(alloc, 0, count * size as u64)?;
            Ok(ArrayBytes::new_flen(CowSlice::Owned(bytes)))
        }
        None => Ok(ArrayBytes::of_variable(Vec::new(alloc), zero_offsets(alloc, count + 1)?)),
    }
}

/// `count` elements of a fill value's bytes.
#[tactic(auto, using(crate::proofs::FillLemmas::fill_calls))]
fn fill_elements<'a>(
    alloc: Global,
    data_type: &DataType,
    count: u64,
    fill: &[u8],
) -> Result<ArrayBytes<'a>, CodecError>
    requires sizes { sizes_fit data_type.now count ≡ Ok tt }
    ensures small { IfOk result IsSmall }
    ensures exact { GivesValue result (Ok (container_fill data_type.now count fill.now)) }
{
    if let Some(inner) = data_type.as_optional() {
        if let [0] = fill {
            let inner = blank_elements(alloc, inner, count)?;
            return ArrayBytes::of_masked(alloc, inner, same_bytes(alloc, 0, count)?);
        }
        let front = match fill {
            [front @ .., _] => front,
            [] => fill,
        };
        let inner = fill_elements(alloc, inner, count, front)?;
        return ArrayBytes::of_masked(alloc, inner, same_bytes(alloc, 1, count)?);
    }
    if data_type.is_variable() {
        let (bytes, offsets) = repeat_cuts(alloc, fill, count)?;
        return Ok(ArrayBytes::of_variable(bytes, offsets));
    }
    let bytes = repeat_bytes(alloc, fill, count)?;
    Ok(ArrayBytes::new_flen(CowSlice::Owned(bytes)))
}
