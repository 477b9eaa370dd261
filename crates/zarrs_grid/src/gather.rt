//! The elements of a box, taken out of a list of all elements.
ghost use Rattle.std.specs.Prelude.{◌≡◌, length, OnOk};
ghost use Rattle.zarrs_chunk.specs.ChunkShape.{product};
ghost use Rattle.zarrs_chunk.specs.Runs.{EndWithin};
ghost use Rattle.zarrs_grid.specs.Gathered.{checked_len, GathersRuns, Gathers};

use std::alloc::{AllocError, Global};
use zarrs_chunk::{ArraySubset, ChunkShape, CodecError, count_places, subset_runs};

/// Whether a list has as many elements as the shape.
pub(crate) fn check_len(count: usize, shape: &ChunkShape) -> Result<(), CodecError>
    ensures answer { result ≡ checked_len count shape.now }
    ensures count { OnOk result (count ≡ product shape.now) }
{
    let expected = shape.num_elements()?;
    if count as u64 != expected {
        return Err(CodecError::InvalidBytesLength {
            len: count as u64,
            expected,
        });
    }
    Ok(())
}

/// The elements at the places of runs, in order.
fn gather_runs<T: Copy>(
    alloc: Global,
    whole: &[T],
    runs: &[(u64, u64)],
) -> Result<Vec<T>, AllocError>
    requires inside { EndWithin (length whole.now) runs.now }
    ensures value { GathersRuns whole.now runs.now result }
{
    let mut found = Vec::with_capacity(alloc, count_places(runs) as usize)?;
    for run in runs {
        let at = run.0 as usize;
        let len = run.1 as usize;
        found.extend_from_slice(&whole[at..at + len])?;
    }
    Ok(found)
}

/// Takes the elements of a box out of all those of a region or a chunk, in row-major order. `shape` is
/// that of all elements, and there is one copy for each row of the last axis that the box doesn't cover
/// whole. An element may be of any type: several bytes are an array of them, or single bytes under a
/// shape and a box with one axis more.
///
/// Errors, the first that holds, `OutOfMemory` aside: `Overflow` where the shape has `2^64` elements or
/// more; `InvalidBytesLength` where `whole` has more or fewer elements than the shape;
/// `IncompatibleDimensionality` where the box has more or fewer axes; `OutOfBounds` where it doesn't lie
/// inside the shape.
pub fn gather_elements<T: Copy>(
    alloc: Global,
    whole: &[T],
    shape: &ChunkShape,
    subset: &ArraySubset,
) -> Result<Vec<T>, CodecError>
    ensures answer { Gathers whole.now shape.now subset.now result }
{
    check_len(whole.len(), shape)?;
    let runs = subset_runs(alloc, shape, subset)?;
    let elements = gather_runs(alloc, whole, runs.as_slice())?;
    Ok(elements)
}
