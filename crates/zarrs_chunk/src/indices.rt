//! Index tuples, and their row-major numbers.
ghost use Rattle.std.specs.Prelude.{◌≡◌, ◌<◌, ◌^◌, ◌&&◌, true, nat_lt, if◌then◌else◌, Some, None, SomeIff, option_map, length, All};
ghost use Rattle.zarrs_chunk.specs.Answer.{AnswersBy, memory, no_refusal};
ghost use Rattle.zarrs_chunk.specs.ChunkShape.{product};
ghost use Rattle.zarrs_chunk.specs.Indices.{IsTupleOfNumber};
ghost use Rattle.zarrs_chunk.specs.Tuples.{row_major, is_tuple_inside as tuple_inside};

use crate::chunk_shape::ChunkShape;
use crate::codec_error::CodecError;
use std::alloc::Global;

/// An index tuple: one number an axis.
pub type ArrayIndices = Vec<u64>;

/// Whether a tuple has one number an axis, and each lies inside the axis's size.
pub fn is_tuple_inside(sizes: &[u64], tuple: &[u64]) -> bool
    ensures value { result ≡ tuple_inside sizes.now tuple.now }
{
    if tuple.len() != sizes.len() {
        return false;
    }
    for axis in 0..sizes.len() {
        if tuple[axis] >= sizes[axis] {
            return false;
        }
    }
    true
}

/// The place of a tuple in a chunk whose elements 64 bits count, or `None` where it lies outside.
pub fn place_inside(sizes: &[u64], tuple: &[u64]) -> Option<u64>
    requires axes { length tuple.now ≡ length sizes.now }
    requires positive { All (λ size. 0 < size) sizes.now }
    requires fits { product sizes.now < 2 ^ 64 }
    ensures value { SomeIff result (tuple_inside sizes.now tuple.now ≡ true)
        (row_major sizes.now tuple.now) }
{
    let mut place = 0;
    for axis in 0..sizes.len() {
        let size = sizes[axis];
        let index = tuple[axis];
        if index >= size {
            return None;
        }
        place = place * size + index;
    }
    Some(place)
}

/// The row-major number of a tuple in a chunk. `None` where the tuple lies outside, or has another
/// number of axes, or where its number passes `2^64 - 1`.
pub fn ravel_indices(indices: &[u64], shape: &ChunkShape) -> Option<u64>
    ensures answer { let number = row_major shape.now indices.now in result ≡
        if tuple_inside shape.now indices.now && nat_lt number (2 ^ 64) then Some number else None }
{
    let sizes = shape.as_slice();
    if !is_tuple_inside(sizes, indices) {
        return None;
    }
    let mut number: u64 = 0;
    for axis in 0..sizes.len() {
        number = number.checked_mul(sizes[axis])?.checked_add(indices[axis])?;
    }
    Some(number)
}

/// The tuple that has this row-major number in a chunk, or `None` where the number lies past the
/// chunk's end. Errors: `OutOfMemory`.
pub fn unravel_index(
    alloc: Global,
    index: u64,
    shape: &ChunkShape,
) -> Result<Option<ArrayIndices>, CodecError>
    ensures answer { AnswersBy memory (λ found _. IsTupleOfNumber shape.now index
        (option_map (λ tuple. tuple.items) found)) result no_refusal }
{
    let sizes = shape.as_slice();
    let mut indices = vec![in alloc; 0; sizes.len()]?;
    let mut rest = index;
    let mut axis = sizes.len();
    while axis > 0 {
        axis -= 1;
        indices[axis] = rest % sizes[axis];
        rest /= sizes[axis];
    }
    if rest > 0 {
        return Ok(None);
    }
    Ok(Some(indices))
}
