//! The call `zarrs_array_plan`.
ghost use Rattle.std.specs.Prelude.{◌≡◌};
ghost use Rattle.zarrs_chunk.specs.Answer.{Answers};
ghost use Rattle.zarrs_array_calls.specs.CrossedPlans.{array_plan, lists_in, plan_lists, TellsChunks};
ghost use Rattle.zarrs_array_calls.specs.Refusals.{refusal_wants};

use crate::crossed::{CrossedPlan, crossed};
use crate::given::{grid_given, region_given};
use crate::refusal::{ArrayRefusal, refusal_number};
use crate::sizes::PlanSizes;
use crate::tell::tell_plan;
use std::alloc::Global;

/// The plan of a region, as it crosses.
fn plan(
    alloc: Global,
    shape: &[u64],
    chunk_shape: &[u64],
    encoding: u32,
    separator: u32,
    region: &[u64],
) -> Result<CrossedPlan, ArrayRefusal>
    ensures answer { Answers refusal_wants lists_in result
        (array_plan shape.now chunk_shape.now encoding separator region.now) }
{
    let grid = grid_given(alloc, shape, chunk_shape, encoding, separator)?;
    let region = region_given(alloc, region)?;
    let planned = grid.plan(alloc, &region)?;
    Ok(crossed(alloc, planned.as_slice())?)
}

/// What a region of an array needs of each chunk that it touches, in row-major order of the chunks: the
/// chunk's key, and the region's part in it.
///
/// `shape` is the array's, and `chunk_shape` that of its chunks. `encoding` is 0 for keys of `default`
/// and 1 for those of `v2`, and `separator` the byte of `/` or `.`. The first half of the numbers of
/// `region` are its starts, and the second its lengths. The keys are at the front of `keys`, joined, and
/// in front of `offsets` where each begins and the last one ends; in front of `numbers` are four numbers
/// an axis for each part: the chunk's indices, where the part begins in the chunk, how long it is, and
/// where it begins in the region. `needed` is how many chunks and items there are; where a buffer is too
/// short, only `needed` is written, and 1 is returned.
///
/// Errors, the first that holds, `OutOfMemory` aside: `Argument` where there is no such key encoding;
/// `ZeroSize` where a chunk has a size of zero; `IncompatibleDimensionality` where the array has more or
/// fewer axes than a chunk; `Argument` or `Overflow` where the numbers of the region are an odd number,
/// or a range ends past `2^64 - 1`; those of [`ArrayGrid::plan`](zarrs_array_plan::ArrayGrid::plan).
pub fn zarrs_array_plan(
    alloc: Global,
    shape: &[u64],
    chunk_shape: &[u64],
    encoding: u32,
    separator: u32,
    region: &[u64],
    keys: &mut [u8],
    offsets: &mut [u64],
    numbers: &mut [u64],
    needed: &mut PlanSizes,
) -> u32
    // Wide: a caller's three buffers and their counts, before and after.
    ensures told { TellsChunks
        (array_plan shape.now chunk_shape.now encoding separator region.now) result
        (plan_lists keys.old offsets.old numbers.old) (plan_lists keys.new offsets.new numbers.new)
        needed.old needed.new }
{
    match plan(alloc, shape, chunk_shape, encoding, separator, region) {
        Ok(plan) => tell_plan(&plan, keys, offsets, numbers, needed),
        Err(refusal) => refusal_number(&refusal),
    }
}
