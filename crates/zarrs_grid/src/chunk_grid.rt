//! The chunks that a region touches.
ghost use Rattle.std.specs.Prelude.{◌≡◌, ◌<◌, ◌+◌, ◌^◌, ℕ, length, IfOk, All, slice_index};
ghost use Rattle.zarrs_chunk.specs.Answer.{GivesValue};
ghost use Rattle.zarrs_grid.specs.ChunkTuples.{quotients};
ghost use Rattle.zarrs_grid.specs.Touched.{FitsGrid, touched_count, touched_counts, checked_touched};

use crate::known_box::known_box;
use std::alloc::{AllocError, Global};
use zarrs_chunk::{ArraySubset, ChunkShape, CodecError};

/// How many chunks of one size a range of an axis touches.
fn count_touched(size: u64, start: u64, len: u64) -> u64
    requires positive { 0 < size }
    requires ends { start + len < 2 ^ 64 }
    ensures value { result ≡ touched_count size start len }
{
    if len == 0 {
        return 0;
    }
    (start + (len - 1)) / size - start / size + 1
}

/// The indices of the chunk that has the tuple at which a region begins.
fn first_chunk(alloc: Global, shape: &[u64], starts: &[u64]) -> Result<Vec<u64>, AllocError>
    requires axes { length starts.now ≡ length shape.now }
    requires positive { All (λ size. 0 < size) shape.now }
    ensures value { IfOk result (λ v. v.items ≡ quotients shape.now starts.now) }
{
    let mut first = Vec::with_capacity(alloc, shape.len())?;
    for axis in 0..shape.len() {
        first.push(starts[axis] / shape[axis])?;
    }
    Ok(first)
}

/// How many chunks a region touches along each axis.
fn touched_shape(
    alloc: Global,
    shape: &[u64],
    starts: &[u64],
    lengths: &[u64],
) -> Result<Vec<u64>, AllocError>
    requires axes { length starts.now ≡ length shape.now }
    requires lengths { length lengths.now ≡ length shape.now }
    requires positive { All (λ size. 0 < size) shape.now }
    requires ends { (axis : ℕ) → axis < length shape.now
        → slice_index starts.now axis + slice_index lengths.now axis < 2 ^ 64 }
    ensures value { IfOk result (λ v. v.items ≡ touched_counts shape.now starts.now lengths.now) }
{
    let mut counts = Vec::with_capacity(alloc, shape.len())?;
    for axis in 0..shape.len() {
        counts.push(count_touched(shape[axis], starts[axis], lengths[axis]))?;
    }
    Ok(counts)
}

/// The chunks of a grid that a region touches, as a box of their indices: those that have an element of
/// the region. `shape` is that of a chunk, in elements. A region with an empty range touches none: its
/// box begins at the chunk that has the region's start, and along an empty range it is empty.
///
/// Errors: `IncompatibleDimensionality` where the region has more or fewer axes than a chunk;
/// `OutOfMemory`.
pub fn chunks_in_array_subset(
    alloc: Global,
    shape: &ChunkShape,
    region: &ArraySubset,
) -> Result<ArraySubset, CodecError>
    ensures answer { GivesValue result (checked_touched shape.now region.now) }
    ensures axes { IfOk result (λ _. FitsGrid shape.now region.now) }
{
    let sizes = shape.as_slice();
    let starts = region.start();
    let lengths = region.shape();
    if starts.len() != sizes.len() {
        return Err(CodecError::IncompatibleDimensionality);
    }
    let first = first_chunk(alloc, sizes, starts)?;
    let counts = touched_shape(alloc, sizes, starts, lengths)?;
    Ok(known_box(first, counts))
}
