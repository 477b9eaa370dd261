//! The container of elements that a caller gives.
ghost use Rattle.std.specs.Prelude.{◌≡◌, min};
ghost use Rattle.zarrs_chunk.specs.Answer.{AnswersValue};
ghost use Rattle.zarrs_data_type.specs.ElementType.{optional_levels};
ghost use Rattle.zarrs_array_bytes.specs.Offsets.{offsets_of};
ghost use Rattle.zarrs_c_calls.specs.Buffers.{buffers};
ghost use Rattle.zarrs_c_calls.specs.Codes.{cause_memory, codec_call_answer};
ghost use Rattle.zarrs_c_calls.specs.Given.{mask_length as mask_length_of, variable_given as variable_of, given_under as under, elements_given as elements_of};

use crate::cause::Cause;
use std::alloc::Global;
use std::borrow::CowSlice;
use zarrs_array_bytes::{ArrayBytes, ArrayBytesOffsets};
use zarrs_data_type::DataType;

fn level_count(data_type: &DataType) -> usize
    ensures value { result ≡ min (optional_levels data_type.now) usize.MAX }
{
    match data_type.as_optional() {
        Some(inner) => level_count(inner).saturating_add(1),
        None => 0,
    }
}

/// How many bytes each of so many masks has.
fn mask_length(levels: usize, count: usize) -> Option<usize>
    ensures value { result ≡ mask_length_of levels count }
{
    if levels == 0 {
        return if count == 0 { Some(0) } else { None };
    }
    if count % levels == 0 {
        Some(count / levels)
    } else {
        None
    }
}

fn rising(alloc: Global, offsets: &[u64]) -> Result<ArrayBytesOffsets, Cause>
    ensures answer { AnswersValue cause_memory result (codec_call_answer (offsets_of offsets.now)) }
{
    let mut starts = Vec::with_capacity(alloc, offsets.len())?;
    for offset in offsets {
        starts.push(*offset as usize)?;
    }
    Ok(ArrayBytesOffsets::new(starts)?)
}

fn variable_given<'a>(
    alloc: Global,
    offsets: &[u64],
    bytes: &'a [u8],
) -> Result<ArrayBytes<'a>, Cause>
    ensures answer { AnswersValue cause_memory result (variable_of offsets.now bytes.now) }
{
    let starts = rising(alloc, offsets)?;
    Ok(ArrayBytes::new_vlen(CowSlice::Borrowed(bytes), starts)?)
}

#[tactic(auto, using(std::proofs::lemmas::List::take_rest))]
fn given_under<'a>(
    alloc: Global,
    data_type: &DataType,
    each: usize,
    masks: &'a [u8],
    offsets: &[u64],
    bytes: &'a [u8],
) -> Result<ArrayBytes<'a>, Cause>
    ensures answer { AnswersValue cause_memory result
        (under data_type.now each masks.now offsets.now bytes.now) }
{
    if let Some(inner_type) = data_type.as_optional() {
        if masks.len() < each {
            return Err(Cause::Argument);
        }
        let inner = given_under(alloc, inner_type, each, &masks[each..], offsets, bytes)?;
        return Ok(inner.with_optional_mask(alloc, CowSlice::Borrowed(&masks[..each]))?);
    }
    if data_type.is_variable() {
        return variable_given(alloc, offsets, bytes);
    }
    Ok(ArrayBytes::new_flen(CowSlice::Borrowed(bytes)))
}

/// The container of elements of the type that these buffers have: its masks are of one length, and
/// offsets are read only for a variable type. Errors, the first that holds, `OutOfMemory` aside:
/// `Argument` where the mask bytes aren't as many for each mask; of the innermost type, then of
/// each mask from the inside out, `InvalidOffsets` and `MaskValue`.
pub(crate) fn elements_given<'a>(
    alloc: Global,
    data_type: &DataType,
    masks: &'a [u8],
    offsets: &[u64],
    bytes: &'a [u8],
) -> Result<ArrayBytes<'a>, Cause>
    ensures answer { AnswersValue cause_memory result
        (elements_of data_type.now (buffers masks.now offsets.now bytes.now)) }
{
    let Some(each) = mask_length(level_count(data_type), masks.len()) else {
        return Err(Cause::Argument);
    };
    given_under(alloc, data_type, each, masks, offsets, bytes)
}
