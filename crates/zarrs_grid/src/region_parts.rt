//! What a region needs of each chunk.
ghost use Rattle.std.specs.Prelude.{◌≡◌, ◌<◌, ◌+◌, ◌^◌, ℕ, length, IfOk, slice_index};
ghost use Rattle.zarrs_chunk.specs.Answer.{GivesBy, no_refusal};
ghost use Rattle.zarrs_chunk.specs.ChunkShape.{product};
ghost use Rattle.zarrs_chunk.specs.Indices.{indices_behind, box_tuple};
ghost use Rattle.zarrs_grid.specs.RegionParts.{AreRegionParts, checked_chunk_count};
ghost use Rattle.zarrs_grid.specs.Touched.{FitsGrid, touched};

use crate::chunk_grid::chunks_in_array_subset;
use crate::chunk_part::{ChunkPart, known_part};
use std::alloc::{AllocError, Global};
use zarrs_chunk::{ArrayIndices, ArraySubset, ChunkShape, CodecError, unravel_index};

/// Each index of a tuple, counted from its start.
fn moved_by(alloc: Global, tuple: &[u64], starts: &[u64]) -> Result<ArrayIndices, AllocError>
    requires axes { length starts.now ≡ length tuple.now }
    requires fits { (axis : ℕ) → axis < length tuple.now
        → slice_index starts.now axis + slice_index tuple.now axis < 2 ^ 64 }
    ensures value { IfOk result (λ v. v.items ≡ indices_behind starts.now tuple.now) }
{
    let mut moved = Vec::with_capacity(alloc, tuple.len())?;
    for axis in 0..tuple.len() {
        moved.push(starts[axis] + tuple[axis])?;
    }
    Ok(moved)
}

/// The tuple that has this number among those of a box, whose lengths are `shape`.
fn tuple_at(
    alloc: Global,
    starts: &[u64],
    shape: &ChunkShape,
    number: u64,
) -> Result<ArrayIndices, CodecError>
    requires axes { length starts.now ≡ length shape.now }
    requires fits { (axis : ℕ) → axis < length starts.now
        → slice_index starts.now axis + slice_index shape.now axis < 2 ^ 64 }
    requires below { number < product shape.now }
    ensures value { GivesBy (λ v _. v.items ≡ box_tuple starts.now shape.now number) result no_refusal }
{
    let Some(tuple) = unravel_index(alloc, number, shape)? else {
        unreachable!();
    };
    let moved = moved_by(alloc, tuple.as_slice(), starts)?;
    Ok(moved)
}

/// The parts of a region in the chunks that it touches, of which there are so many along each axis.
fn parts_of(
    alloc: Global,
    shape: &ChunkShape,
    region: &ArraySubset,
    first: &[u64],
    counts: &ChunkShape,
    count: u64,
) -> Result<Vec<ChunkPart>, CodecError>
    requires axes { length region.now.starts ≡ length shape.now }
    requires grid { record { starts = first.now; lengths = counts.now } ≡ touched shape.now region.now }
    requires lengths { length first.now ≡ length counts.now }
    requires fits { (axis : ℕ) → axis < length first.now
        → slice_index first.now axis + slice_index counts.now axis < 2 ^ 64 }
    requires count { count ≡ product counts.now }
    ensures answer { GivesBy (λ parts _. AreRegionParts shape.now region.now parts.items)
        result no_refusal }
{
    let mut parts = Vec::with_capacity(alloc, count as usize)?;
    for number in 0..count {
        let chunk = tuple_at(alloc, first, counts, number)?;
        let part = known_part(alloc, shape, region, chunk)?;
        parts.push(part)?;
    }
    Ok(parts)
}

/// The same by the box of these chunks, which may be empty.
fn parts_among(
    alloc: Global,
    shape: &ChunkShape,
    region: &ArraySubset,
    chunks: &ArraySubset,
    count: u64,
) -> Result<Vec<ChunkPart>, CodecError>
    requires axes { length region.now.starts ≡ length shape.now }
    requires grid { chunks.now ≡ touched shape.now region.now }
    requires count { count ≡ product chunks.now.lengths }
    ensures answer { GivesBy (λ parts _. AreRegionParts shape.now region.now parts.items)
        result no_refusal }
{
    let counts = Vec::from_slice(alloc, chunks.shape())?;
    match ChunkShape::new(counts) {
        Some(counts) => parts_of(alloc, shape, region, chunks.start(), &counts, count),
        None => Ok(Vec::new(alloc)),
    }
}

/// What a region needs of each chunk of a grid that it touches: a part for each of them, in row-major
/// order of the chunks. `shape` is that of a chunk, in elements. A region with an empty range has no
/// parts. Whoever asks gets the chunks as they like, at once or one after another, and gathers or
/// scatters the elements of each part by its boxes.
///
/// Errors, the first that holds: `IncompatibleDimensionality` where the region has more or fewer axes
/// than a chunk; `Overflow` where it touches `2^64` chunks or more; `OutOfMemory`.
pub fn plan_region(
    alloc: Global,
    shape: &ChunkShape,
    region: &ArraySubset,
) -> Result<Vec<ChunkPart>, CodecError>
    ensures answer { GivesBy (λ parts _. AreRegionParts shape.now region.now parts.items)
        result (checked_chunk_count shape.now region.now) }
    ensures axes { IfOk result (λ _. FitsGrid shape.now region.now) }
{
    let chunks = chunks_in_array_subset(alloc, shape, region)?;
    let count = chunks.num_elements()?;
    parts_among(alloc, shape, region, &chunks, count)
}
