//! Windows.
ghost use Rattle.std.specs.Prelude.{◌≡◌, ◌<◌, ◌^◌, [], true, length, IfOk};
ghost use Rattle.zarrs_chunk.specs.ChunkShape.{product};
ghost use Rattle.zarrs_chunk.specs.Runs.{places_in, AreFilled, EndWithin, AreApart};
ghost use Rattle.zarrs_chunk.specs.Tuples.{is_box_inside};
ghost use Rattle.zarrs_array_regions.specs.Windows.{GivesRegionRuns};

use std::alloc::Global;
use zarrs_chunk::{ArraySubset, ChunkShape, CodecError, subset_runs};

/// A region, and the sizes under which it is one. Places count, and not sizes: a chunk of other sizes
/// and as many elements has the region's at the same places.
#[derive(Debug, Drop)]
pub struct Window {
    /// The sizes of a chunk that has the region.
    pub sizes: ChunkShape,
    /// The region, inside these sizes.
    pub region: ArraySubset,
}

/// The places of the elements of a region of a chunk of this shape, in row-major order, as runs of a
/// start and a length: none is empty, and none starts where the one before it ends. The region lies
/// inside, and 64 bits count the chunk's elements. Errors: `OutOfMemory`.
pub(crate) fn own_runs(
    alloc: Global,
    shape: &ChunkShape,
    region: &ArraySubset,
) -> Result<Vec<(u64, u64)>, CodecError>
    requires inside { is_box_inside shape.now region.now.starts region.now.lengths ≡ true }
    requires counted { product shape.now < 2 ^ 64 }
    ensures places { GivesRegionRuns [] shape.now region.now result }
    ensures filled { IfOk result (λ runs. AreFilled runs.items) }
    ensures below { IfOk result (λ runs. EndWithin (product shape.now) runs.items) }
    ensures count { IfOk result (λ runs. length (places_in runs) < 2 ^ 64) }
    ensures apart { IfOk result (λ runs. AreApart runs.items) }
{
    subset_runs(alloc, shape, region)
}
