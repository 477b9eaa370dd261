//! What a caller gives as numbers: shapes, key encodings, boxes and parts.
ghost use Rattle.std.specs.Prelude.{◌≡◌, length, ok_or};
ghost use Rattle.zarrs_chunk.specs.Answer.{AnswersValue};
ghost use Rattle.zarrs_chunk.specs.ChunkShape.{shape_of};
ghost use Rattle.zarrs_array_calls.specs.ArraysGiven.{array_given, keys_given as keys_of, part_given as part_of, region_given as region_of, separator_given as separator_of};
ghost use Rattle.zarrs_array_calls.specs.Refusals.{refusal_wants};
ghost use Rattle.zarrs_array_calls.specs.declared.refusal.ArrayRefusal.TheVariants.{ZeroSize};

use crate::refusal::ArrayRefusal;
use std::alloc::Global;
use zarrs_array_plan::{ArrayGrid, ChunkKeyEncoding, ChunkKeySeparator};
use zarrs_chunk::{ArraySubset, ChunkShape};

/// The shape of these sizes. Errors, `OutOfMemory` aside: `ZeroSize` where one of them is zero.
pub(crate) fn shape_given(alloc: Global, sizes: &[u64]) -> Result<ChunkShape, ArrayRefusal>
    ensures answer { AnswersValue refusal_wants result (ok_or (shape_of sizes.now) ZeroSize) }
{
    match ChunkShape::new(Vec::from_slice(alloc, sizes)?) {
        Some(shape) => Ok(shape),
        None => Err(ArrayRefusal::ZeroSize),
    }
}

/// The separator of this byte. Errors: `Argument` where it is none.
fn separator_given(byte: u32) -> Result<ChunkKeySeparator, ArrayRefusal>
    ensures answer { result ≡ separator_of byte }
{
    match byte {
        46 => Ok(ChunkKeySeparator::Dot),
        47 => Ok(ChunkKeySeparator::Slash),
        _ => Err(ArrayRefusal::Argument),
    }
}

/// The key encoding of these numbers. Errors: `Argument` where they are none.
fn keys_given(encoding: u32, separator: u32) -> Result<ChunkKeyEncoding, ArrayRefusal>
    ensures answer { result ≡ keys_of encoding separator }
{
    let between = separator_given(separator)?;
    match encoding {
        0 => Ok(ChunkKeyEncoding::Default(between)),
        1 => Ok(ChunkKeyEncoding::V2(between)),
        _ => Err(ArrayRefusal::Argument),
    }
}

/// An array of this shape in chunks of that one. Errors, the first that holds, `OutOfMemory` aside:
/// `Argument` where the numbers are no key encoding; `ZeroSize` where a chunk has a size of zero;
/// `IncompatibleDimensionality` where the array has more or fewer axes than a chunk.
pub(crate) fn grid_given(
    alloc: Global,
    shape: &[u64],
    chunk_shape: &[u64],
    encoding: u32,
    separator: u32,
) -> Result<ArrayGrid, ArrayRefusal>
    ensures answer { AnswersValue refusal_wants result
        (array_given shape.now chunk_shape.now encoding separator) }
{
    let keys = keys_given(encoding, separator)?;
    let chunk_shape = shape_given(alloc, chunk_shape)?;
    let sizes = Vec::from_slice(alloc, shape)?;
    Ok(ArrayGrid::new(sizes, chunk_shape, keys)?)
}

/// The box whose starts the first half of the numbers is, and its lengths the second. Errors, the first
/// that holds, `OutOfMemory` aside: `Argument` where they are an odd number; `Overflow` where a range
/// ends past `2^64 - 1`.
#[tactic(auto, using(std::proofs::lemmas::List::take_rest))]
pub(crate) fn region_given(alloc: Global, numbers: &[u64]) -> Result<ArraySubset, ArrayRefusal>
    ensures answer { AnswersValue refusal_wants result (region_of numbers.now) }
{
    if numbers.len() % 2 != 0 {
        return Err(ArrayRefusal::Argument);
    }
    let axes = numbers.len() / 2;
    let starts = numbers[..axes].to_vec(alloc)?;
    let lengths = numbers[axes..].to_vec(alloc)?;
    Ok(ArraySubset::new_with_start_shape(starts, lengths)?)
}

/// A part as a box of a region of these lengths, by the part's numbers. Errors, the first that holds,
/// `OutOfMemory` aside: `Argument` where they aren't four an axis; `Overflow` where a range ends past
/// `2^64 - 1`.
#[tactic(auto, using(std::proofs::lemmas::List::take_rest))]
pub(crate) fn part_given(
    alloc: Global,
    region: &[u64],
    numbers: &[u64],
) -> Result<ArraySubset, ArrayRefusal>
    ensures answer { AnswersValue refusal_wants result (part_of (length region.now) numbers.now) }
{
    let axes = region.len();
    if numbers.len() as u128 != axes as u128 * 4 {
        return Err(ArrayRefusal::Argument);
    }
    let there = &numbers[2 * axes..];
    let lengths = there[..axes].to_vec(alloc)?;
    let starts = there[axes..].to_vec(alloc)?;
    Ok(ArraySubset::new_with_start_shape(starts, lengths)?)
}
