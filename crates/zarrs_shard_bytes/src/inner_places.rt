//! Where the elements of inner chunks stand: at the runs of the first inner chunk, further on.
ghost use Rattle.std.specs.Prelude.{◌≡◌, ◌+◌, ◌<◌, ◌^◌, All, IfOk, map, true};
ghost use Rattle.zarrs_chunk.specs.ChunkShape.{product};
ghost use Rattle.zarrs_chain_meaning.specs.sharding.InnerChunks.{is_divided, place_in_shard};
ghost use Rattle.zarrs_shard_bytes.specs.InnerPlaces.{GivesFirstRuns, IsInGrid};

use std::alloc::{AllocError, Global};
use zarrs_chunk::{ArraySubset, ChunkShape, CodecError, Indexer};

/// The runs of the elements of the first inner chunk. Errors: `OutOfMemory`.
pub fn first_runs(
    alloc: Global,
    shape: &ChunkShape,
    inner: &ChunkShape,
) -> Result<Vec<(u64, u64)>, CodecError>
    requires divided { is_divided inner.now shape.now ≡ true }
    requires fits { product shape.now < 2 ^ 64 }
    ensures answer { GivesFirstRuns inner.now shape.now result }
{
    let lengths = Vec::from_slice(alloc, inner.as_slice())?;
    shape.as_slice();
    let subset = ArraySubset::new_with_shape(alloc, lengths)?;
    Indexer::Subset(subset).runs(alloc, shape)
}

/// The place in the chunk where the inner chunk of a number begins, by the sizes of the chunk and
/// of an inner chunk, and how many inner chunks there are along each axis.
pub fn first_place(sizes: &[u64], parts: &[u64], counts: &[u64], number: u64) -> u64
    requires there { IsInGrid parts.now sizes.now counts.now number }
    ensures value { result ≡ place_in_shard parts.now sizes.now number 0 }
{
    let mut rest = number;
    let mut step = 1;
    let mut place = 0;
    let mut axis = counts.len();
    while axis > 0 {
        axis -= 1;
        place += rest % counts[axis] * parts[axis] * step;
        rest /= counts[axis];
        step *= sizes[axis];
    }
    place
}

/// The runs, each further on by so many elements.
pub fn moved_runs(
    alloc: Global,
    runs: &[(u64, u64)],
    start: u64,
) -> Result<Vec<(u64, u64)>, AllocError>
    requires fits { All (λ run. start + run.0 < 2 ^ 64) runs.now }
    ensures moved { IfOk result (λ v. v.items ≡ map (λ run. (start + run.0, run.1)) runs.now) }
{
    let mut moved = Vec::with_capacity(alloc, runs.len())?;
    moved.extend(runs.iter().map(|run| (start + run.0, run.1)))?;
    Ok(moved)
}
