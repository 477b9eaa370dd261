//! Runs of places of a shard, cut where they leave an inner chunk.
ghost use Rattle.std.specs.Prelude.{◌≡◌, ◌+◌, ◌<◌, ◌≤◌, ◌^◌, ◌++◌, All, IfOk, OnOk, length, map, true};
ghost use Rattle.std.specs.List.{range_with_len};
ghost use Rattle.zarrs_chain_meaning.specs.sharding.InnerChunks.{inner_chunk_count, is_divided};
ghost use Rattle.zarrs_chunk.specs.ChunkShape.{product};
ghost use Rattle.zarrs_chunk.specs.Runs.{AreFilled, EndWithin, joined_runs};
ghost use Rattle.zarrs_shard_runs.specs.CutRuns.{AreCut, IsBlock, cell, cells};

use crate::block_rows::blocks_of;
use std::alloc::{AllocError, Global};

/// Places of one inner chunk that follow one another, there and in the shard.
#[derive(Clone, Copy)]
pub(crate) struct CutRun {
    /// The inner chunk's number.
    pub(crate) number: u64,
    /// The first place in the inner chunk.
    pub(crate) start: u64,
    /// How many places.
    pub(crate) len: u64,
    /// Which of the cut runs it is, in the order of the places.
    pub(crate) index: usize,
}

/// The number of the inner chunk that has a place of the shard, and the place in it.
pub(crate) fn cell_of(parts: &[u64], sizes: &[u64], place: u64) -> (u64, u64)
    requires divided { is_divided parts.now sizes.now ≡ true }
    requires positive { All (λ part. 0 < part) parts.now }
    requires sizes_positive { All (λ size. 0 < size) sizes.now }
    requires fits { product sizes.now < 2 ^ 64 }
    requires inside { place < product sizes.now }
    ensures value { result ≡ cell parts.now sizes.now place }
{
    let mut rest = place;
    let mut number = 0;
    let mut inside = 0;
    let mut chunks = 1;
    let mut elements = 1;
    let mut axis = sizes.len();
    while axis > 0 {
        axis -= 1;
        let size = sizes[axis];
        let part = parts[axis];
        let index = rest % size;
        rest /= size;
        number += index / part * chunks;
        inside += index % part * elements;
        chunks *= size / part;
        elements *= part;
    }
    (number, inside)
}

/// Cuts one run more.
fn cut_run(
    cuts: &mut Vec<CutRun>,
    parts: &[u64],
    sizes: &[u64],
    block: u64,
    start: u64,
    len: u64,
) -> Result<(), AllocError>
    requires divided { is_divided parts.now sizes.now ≡ true }
    requires positive { All (λ part. 0 < part) parts.now }
    requires sizes_positive { All (λ size. 0 < size) sizes.now }
    requires fits { product sizes.now < 2 ^ 64 }
    requires block { IsBlock parts.now sizes.now block }
    requires inside { start + len ≤ product sizes.now }
    ensures cells { OnOk result (cells cuts.new.items
        ≡ cells cuts.old.items ++ map (cell parts.now sizes.now) (range_with_len start len)) }
    ensures cut { OnOk result (AreCut parts.now sizes.now cuts.old.items
        → AreCut parts.now sizes.now cuts.new.items) }
{
    let mut done = 0;
    while done < len {
        let place = start + done;
        let (number, inside) = cell_of(parts, sizes, place);
        let count = (len - done).min(block - place % block);
        cuts.push(CutRun {
            number,
            start: inside,
            len: count,
            index: cuts.len(),
        })?;
        done += count;
    }
    Ok(())
}

/// These runs, cut where they leave an inner chunk. Errors: `AllocError`.
pub(crate) fn cut_runs(
    alloc: Global,
    parts: &[u64],
    sizes: &[u64],
    runs: &[(u64, u64)],
) -> Result<Vec<CutRun>, AllocError>
    requires divided { is_divided parts.now sizes.now ≡ true }
    requires positive { All (λ part. 0 < part) parts.now }
    requires sizes_positive { All (λ size. 0 < size) sizes.now }
    requires fits { product sizes.now < 2 ^ 64 }
    requires inside { EndWithin (product sizes.now) runs.now }
    ensures cells { IfOk result
        (λ cuts. cells cuts.items ≡ map (cell parts.now sizes.now) (joined_runs runs.now)) }
    ensures cut { IfOk result (λ cuts. AreCut parts.now sizes.now cuts.items) }
{
    let block = blocks_of(parts, sizes).block;
    let mut cuts = Vec::with_capacity(alloc, runs.len())?;
    for (start, len) in runs {
        cut_run(&mut cuts, parts, sizes, block, *start, *len)?;
    }
    Ok(cuts)
}
