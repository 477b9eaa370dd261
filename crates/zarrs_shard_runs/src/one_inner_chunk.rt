//! Runs of places of a shard that all lie in one inner chunk.
ghost use Rattle.std.specs.Prelude.{◌≡◌, ◌<◌, ◌^◌, All, IfOk, IfSome, true};
ghost use Rattle.zarrs_chain_meaning.specs.sharding.InnerChunks.{is_divided};
ghost use Rattle.zarrs_chunk.specs.ChunkShape.{product};
ghost use Rattle.zarrs_chunk.specs.Runs.{AreFilled, EndWithin, joined_runs};
ghost use Rattle.zarrs_shard_runs.specs.BlockRows.{AreBlocks, StandsAt};
ghost use Rattle.zarrs_shard_runs.specs.GroupedRuns.{IsOneGroup};

use crate::block_rows::{Blocks, blocks_of};
use crate::cut_runs::cell_of;
use crate::grouped_runs::InnerRuns;
use crate::reading_order::append_run;
use std::alloc::{AllocError, Global};

/// Where a place of the shard stands.
#[derive(Clone, Copy)]
pub(crate) struct Stand {
    /// The place.
    pub(crate) place: u64,
    /// The number of its inner chunk.
    pub(crate) number: u64,
    /// The place in that.
    pub(crate) inside: u64,
    /// How many places its block has from it on.
    pub(crate) room: u64,
    /// How many places the band of rows has from it on.
    pub(crate) left: u64,
}

/// Where a place stands.
fn stand_at(parts: &[u64], sizes: &[u64], blocks: Blocks, place: u64) -> Stand
    requires divided { is_divided parts.now sizes.now ≡ true }
    requires positive { All (λ part. 0 < part) parts.now }
    requires sizes_positive { All (λ size. 0 < size) sizes.now }
    requires fits { product sizes.now < 2 ^ 64 }
    requires blocks { AreBlocks parts.now sizes.now blocks }
    requires inside { place < product sizes.now }
    ensures stand { StandsAt parts.now sizes.now blocks place result }
{
    let (number, inside) = cell_of(parts, sizes, place);
    Stand {
        place,
        number,
        inside,
        room: blocks.block - place % blocks.block,
        left: blocks.band - place % blocks.band,
    }
}

/// Where a place stands, by where another does: without a division where it is that, or the one a row
/// below.
fn next_stand(parts: &[u64], sizes: &[u64], blocks: Blocks, from: Stand, place: u64) -> Stand
    requires divided { is_divided parts.now sizes.now ≡ true }
    requires positive { All (λ part. 0 < part) parts.now }
    requires sizes_positive { All (λ size. 0 < size) sizes.now }
    requires fits { product sizes.now < 2 ^ 64 }
    requires blocks { AreBlocks parts.now sizes.now blocks }
    requires known { StandsAt parts.now sizes.now blocks from.place from }
    requires inside { place < product sizes.now }
    ensures stand { StandsAt parts.now sizes.now blocks place result }
{
    if from.left > blocks.row && place >= from.place && place - from.place == blocks.row {
        return Stand {
            place,
            number: from.number,
            inside: from.inside + blocks.block,
            room: from.room,
            left: from.left - blocks.row,
        };
    }
    if place == from.place {
        return from;
    }
    stand_at(parts, sizes, blocks, place)
}

/// The runs in their inner chunk, where all lie in one, each in a block of it; `None` where they don't,
/// or there is none. Errors: `AllocError`.
pub(crate) fn runs_of_one(
    alloc: Global,
    parts: &[u64],
    sizes: &[u64],
    runs: &[(u64, u64)],
) -> Result<Option<InnerRuns>, AllocError>
    requires divided { is_divided parts.now sizes.now ≡ true }
    requires positive { All (λ part. 0 < part) parts.now }
    requires sizes_positive { All (λ size. 0 < size) sizes.now }
    requires fits { product sizes.now < 2 ^ 64 }
    requires filled { AreFilled runs.now }
    requires inside { EndWithin (product sizes.now) runs.now }
    ensures one { IfOk result (λ found. IfSome found
        (IsOneGroup parts.now sizes.now (joined_runs runs.now))) }
{
    if runs.len() == 0 {
        return Ok(None);
    }
    let blocks = blocks_of(parts, sizes);
    let (last, _) = runs[runs.len() - 1];
    let mut stand = stand_at(parts, sizes, blocks, runs[0].0);
    let number = stand.number;
    if cell_of(parts, sizes, last).0 != number {
        return Ok(None);
    }
    let mut moved = Vec::with_capacity(alloc, runs.len())?;
    for (start, len) in runs {
        stand = next_stand(parts, sizes, blocks, stand, *start);
        if stand.number != number || *len > stand.room {
            return Ok(None);
        }
        append_run(&mut moved, stand.inside, *len)?;
    }
    Ok(Some(InnerRuns {
        number,
        runs: moved,
    }))
}
