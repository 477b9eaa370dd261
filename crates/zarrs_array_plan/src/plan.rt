//! What a region of an array needs of each chunk.
ghost use Rattle.std.specs.Prelude.{◌≡◌, ◌<◌, ◌^◌, All, IfOk, length, map};
ghost use Rattle.zarrs_array_plan.specs.Planned.{checked_plan, HasOwnKey, IsRegionPlan, LiesInArray};
ghost use Rattle.zarrs_chunk.specs.Answer.{GivesBy, no_refusal};
ghost use Rattle.zarrs_chunk.specs.ChunkShape.{product};
ghost use Rattle.zarrs_chunk.specs.Region.{IsRegion};
ghost use Rattle.zarrs_chunk.specs.Selection.{subset as subset_of, bounds_of};
ghost use Rattle.zarrs_chunk.specs.Tuples.{is_box_inside as box_inside};
ghost use Rattle.zarrs_grid.specs.RegionParts.{AreRegionParts};
ghost use Rattle.zarrs_grid.specs.Touched.{FitsGrid};

use crate::array_grid::ArrayGrid;
use crate::chunk_key_encoding::ChunkKeyEncoding;
use crate::planned_chunk::PlannedChunk;
use std::alloc::{AllocError, Global};
use zarrs_chunk::{ArraySubset, ChunkShape, CodecError};
use zarrs_grid::{ChunkPart, plan_region};

/// Whether each range of a box ends within its size.
fn is_box_inside(sizes: &[u64], starts: &[u64], lengths: &[u64]) -> bool
    requires starts { length starts.now ≡ length sizes.now }
    requires lengths { length lengths.now ≡ length sizes.now }
    ensures value { result ≡ box_inside sizes.now starts.now lengths.now }
{
    for axis in 0..sizes.len() {
        let size = sizes[axis];
        let start = starts[axis];
        if start > size || lengths[axis] > size - start {
            return false;
        }
    }
    true
}

/// Whether a box lies inside these sizes, which may be 0.
pub(crate) fn check_box(sizes: &[u64], region: &ArraySubset) -> Result<(), CodecError>
    ensures answer { result ≡ bounds_of (subset_of region.now) sizes.now }
    ensures ends { IsRegion region.now.starts region.now.lengths }
{
    let starts = region.start();
    let lengths = region.shape();
    if starts.len() != sizes.len() {
        return Err(CodecError::IncompatibleDimensionality);
    }
    if !is_box_inside(sizes, starts, lengths) {
        return Err(CodecError::OutOfBounds);
    }
    Ok(())
}

/// The parts of a region whose elements 64 bits count.
fn parts_in(
    alloc: Global,
    chunk_shape: &ChunkShape,
    region: &ArraySubset,
) -> Result<Vec<ChunkPart>, CodecError>
    requires grid { FitsGrid chunk_shape.now region.now }
    requires counted { product region.now.lengths < 2 ^ 64 }
    ensures answer { GivesBy (λ parts _. AreRegionParts chunk_shape.now region.now parts.items)
        result no_refusal }
{
    plan_region(alloc, chunk_shape, region)
}

/// Parts, each with the key of its chunk.
fn with_keys(
    alloc: Global,
    keys: ChunkKeyEncoding,
    parts: Vec<ChunkPart>,
) -> Result<Vec<PlannedChunk>, AllocError>
    ensures parts { IfOk result (λ planned. map (λ it. it.part) planned.items ≡ parts.items) }
    ensures keys { IfOk result (λ planned. All (HasOwnKey keys) planned.items) }
{
    let mut planned = Vec::with_capacity(alloc, parts.len())?;
    for part in parts {
        let key = keys.encode(alloc, part.chunk.as_slice())?;
        planned.push(PlannedChunk { key, part })?;
    }
    Ok(planned)
}

impl ArrayGrid {
    /// What a region of the array needs of each chunk that it touches: its part there and the chunk's
    /// key, in row-major order of the chunks. A region with an empty range needs nothing. Whoever reads
    /// gets the chunks as they like, and puts each part's elements where they belong by
    /// [`join_part`](crate::join_part); whoever writes takes them out of the region's by
    /// [`part_of`](crate::part_of).
    ///
    /// Errors, the first that holds, `OutOfMemory` aside: `IncompatibleDimensionality` where the region
    /// has more or fewer axes than the array; `OutOfBounds` where it doesn't lie inside; `Overflow` where
    /// it has `2^64` elements or more.
    pub fn plan(&self, alloc: Global, region: &ArraySubset) -> Result<Vec<PlannedChunk>, CodecError>
        ensures answer { GivesBy (λ planned _. IsRegionPlan self.now region.now planned.items)
            result (checked_plan self.now region.now) }
        ensures inside { IfOk result (λ _. LiesInArray self.now region.now) }
    {
        check_box(self.shape(), region)?;
        region.num_elements()?;
        let parts = parts_in(alloc, self.chunk_shape(), region)?;
        let planned = with_keys(alloc, self.chunk_key_encoding(), parts)?;
        Ok(planned)
    }
}
