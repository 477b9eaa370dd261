//! The part of a region that lies in one chunk.
ghost use Rattle.std.specs.Prelude.{◌≡◌, ◌<◌, ◌+◌, ◌-◌, ◌*◌, ◌^◌, ℕ, length, IfOk, Contains, slice_index};
ghost use Rattle.zarrs_chunk.specs.Answer.{GivesBy};
ghost use Rattle.zarrs_grid.specs.Touched.{touched_chunks, is_in_box as in_box, checked_chunk};
ghost use Rattle.zarrs_grid.specs.Parts.{part_from, part_to, starts_in_chunk, starts_in_region, part_lengths, MeetByAxis, IsChunkPart};

use crate::chunk_grid::chunks_in_array_subset;
use crate::known_box::known_box;
use std::alloc::{AllocError, Global};
use zarrs_chunk::{ArrayIndices, ArraySubset, ChunkShape, CodecError};

/// The part of a region that lies in one chunk of a grid: the same elements, in the same order, as a box
/// of the chunk and as a box of the region.
#[derive(Debug, Drop)]
pub struct ChunkPart {
    /// The chunk's indices in the grid, one an axis.
    pub chunk: ArrayIndices,
    /// The part as a box of the chunk: tuples are counted from the chunk's first element.
    pub in_chunk: ArraySubset,
    /// The part as a box of the region, as long along each axis: tuples are counted from the region's
    /// first element.
    pub in_region: ArraySubset,
}

/// Where the part of a range begins in the chunk of a number along its axis.
fn start_in_chunk(size: u64, number: u64, start: u64) -> u64
    requires fits { number * size < 2 ^ 64 }
    ensures value { result ≡ part_from size number start - number * size }
{
    start.saturating_sub(number * size)
}

/// Where it begins in the range.
fn start_in_range(size: u64, number: u64, start: u64) -> u64
    requires fits { number * size < 2 ^ 64 }
    ensures value { result ≡ part_from size number start - start }
{
    (number * size).saturating_sub(start)
}

/// How long it is: up to the end of the range or of the chunk, whichever comes first.
fn part_len(size: u64, number: u64, start: u64, len: u64) -> u64
    requires ends { start + len < 2 ^ 64 }
    requires begins { number * size < start + len }
    requires reaches { start < number * size + size }
    ensures value { result ≡ part_to size number start len - part_from size number start }
{
    let first = number * size;
    let end = start + len;
    let to = first + size.min(end - first);
    to - start.max(first)
}

/// Where the part begins in the chunk, along each axis.
fn chunk_starts(
    alloc: Global,
    shape: &[u64],
    chunk: &[u64],
    starts: &[u64],
) -> Result<Vec<u64>, AllocError>
    requires axes { length chunk.now ≡ length shape.now }
    requires starts { length starts.now ≡ length shape.now }
    requires fits { (axis : ℕ) → axis < length shape.now
        → slice_index chunk.now axis * slice_index shape.now axis < 2 ^ 64 }
    ensures value { IfOk result (λ v. v.items ≡ starts_in_chunk shape.now chunk.now starts.now) }
{
    let mut found = Vec::with_capacity(alloc, shape.len())?;
    for axis in 0..shape.len() {
        found.push(start_in_chunk(shape[axis], chunk[axis], starts[axis]))?;
    }
    Ok(found)
}

/// Where it begins in the region.
fn region_starts(
    alloc: Global,
    shape: &[u64],
    chunk: &[u64],
    starts: &[u64],
) -> Result<Vec<u64>, AllocError>
    requires axes { length chunk.now ≡ length shape.now }
    requires starts { length starts.now ≡ length shape.now }
    requires fits { (axis : ℕ) → axis < length shape.now
        → slice_index chunk.now axis * slice_index shape.now axis < 2 ^ 64 }
    ensures value { IfOk result (λ v. v.items ≡ starts_in_region shape.now chunk.now starts.now) }
{
    let mut found = Vec::with_capacity(alloc, shape.len())?;
    for axis in 0..shape.len() {
        found.push(start_in_range(shape[axis], chunk[axis], starts[axis]))?;
    }
    Ok(found)
}

/// How long it is.
fn part_shape(
    alloc: Global,
    shape: &[u64],
    chunk: &[u64],
    starts: &[u64],
    lengths: &[u64],
) -> Result<Vec<u64>, AllocError>
    requires meet { MeetByAxis shape.now chunk.now starts.now lengths.now }
    ensures value { IfOk result (λ v. v.items ≡ part_lengths shape.now chunk.now starts.now lengths.now) }
{
    let mut found = Vec::with_capacity(alloc, shape.len())?;
    for axis in 0..shape.len() {
        found.push(part_len(shape[axis], chunk[axis], starts[axis], lengths[axis]))?;
    }
    Ok(found)
}

/// The part of a region in a chunk that it touches.
pub(crate) fn known_part(
    alloc: Global,
    shape: &ChunkShape,
    region: &ArraySubset,
    chunk: ArrayIndices,
) -> Result<ChunkPart, AllocError>
    requires axes { length region.now.starts ≡ length shape.now }
    requires known { Contains (touched_chunks shape.now region.now) chunk.items }
    ensures value { IfOk result (IsChunkPart shape.now region.now chunk.items) }
{
    let sizes = shape.as_slice();
    let starts = region.start();
    let lengths = region.shape();
    let numbers = chunk.as_slice();
    let lens = part_shape(alloc, sizes, numbers, starts, lengths)?;
    let same = Vec::from_slice(alloc, lens.as_slice())?;
    let chunk_start = chunk_starts(alloc, sizes, numbers, starts)?;
    let region_start = region_starts(alloc, sizes, numbers, starts)?;
    let in_chunk = known_box(chunk_start, same);
    let in_region = known_box(region_start, lens);
    Ok(ChunkPart {
        chunk,
        in_chunk,
        in_region,
    })
}

/// Whether a tuple lies in a box.
fn is_in_box(starts: &[u64], lengths: &[u64], tuple: &[u64]) -> bool
    requires lengths { length starts.now ≡ length lengths.now }
    ensures value { result ≡ in_box starts.now lengths.now tuple.now }
{
    if tuple.len() != starts.len() {
        return false;
    }
    for axis in 0..starts.len() {
        let start = starts[axis];
        let index = tuple[axis];
        if index < start || index - start >= lengths[axis] {
            return false;
        }
    }
    true
}

/// The part of a region in one chunk of a grid. `shape` is that of a chunk, in elements, and `chunk` the
/// chunk's indices, one of those that [`chunks_in_array_subset`] has.
///
/// Errors, the first that holds: `IncompatibleDimensionality` where the region has more or fewer axes
/// than a chunk; `OutOfBounds` where it doesn't touch the chunk, or where there isn't one index an axis;
/// `OutOfMemory`.
pub fn part_in_chunk(
    alloc: Global,
    shape: &ChunkShape,
    region: &ArraySubset,
    chunk: ArrayIndices,
) -> Result<ChunkPart, CodecError>
    ensures answer { GivesBy (λ it _. IsChunkPart shape.now region.now chunk.items it) result
        (checked_chunk shape.now region.now chunk.items) }
{
    let chunks = chunks_in_array_subset(alloc, shape, region)?;
    if !is_in_box(chunks.start(), chunks.shape(), chunk.as_slice()) {
        return Err(CodecError::OutOfBounds);
    }
    let part = known_part(alloc, shape, region, chunk)?;
    Ok(part)
}
