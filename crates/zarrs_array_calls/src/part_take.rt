//! The call `zarrs_part_take`.
ghost use Rattle.std.specs.Prelude.{◌≡◌, ◌+◌, ◌*◌, ◌≤◌, All, OnErr, length};
ghost use Rattle.zarrs_array_bytes.specs.Pieces.{pieces_at};
ghost use Rattle.zarrs_chunk.specs.Answer.{Answers};
ghost use Rattle.zarrs_chunk.specs.Runs.{joined_runs};
ghost use Rattle.zarrs_array_calls.specs.PartBytes.{part_taken, FillsBuffer};
ghost use Rattle.zarrs_array_calls.specs.Refusals.{refusal_wants};

use crate::part_runs::{overwrite, part_runs};
use crate::refusal::{ArrayRefusal, refusal_number};
use std::alloc::Global;

/// Copies elements of `size` from the runs of a region's, one behind another.
fn copy_runs(elements: &mut [u8], region: &[u8], size: usize, runs: &[(u64, u64)])
    requires inside { All (λ run. (run.0 + run.1) * size ≤ length region.now) runs.now }
    requires room { length elements.old ≡ length (joined_runs runs.now) * size }
    ensures written { elements.new ≡ pieces_at size region.now (joined_runs runs.now) }
{
    let mut done = 0;
    for run in runs {
        let at = run.0 as usize * size;
        let len = run.1 as usize * size;
        overwrite(elements, done, &region[at..at + len]);
        done += len;
    }
}

/// Takes a part's elements out of a region's.
fn take(
    alloc: Global,
    size: usize,
    lengths: &[u64],
    part: &[u64],
    region: &[u8],
    elements: &mut [u8],
) -> Result<(), ArrayRefusal>
    ensures written { Answers refusal_wants (λ _. elements.new) result
        (part_taken size lengths.now part.now region.now (length elements.old)) }
    ensures kept { OnErr result (elements.new ≡ elements.old) }
{
    let runs = part_runs(alloc, size, lengths, part, region, elements.len())?;
    copy_runs(elements, region, size, runs.as_slice());
    Ok(())
}

/// Takes a part's elements out of a region's, of `size` bytes each, one behind another: what a write into
/// the part's box of its chunk takes. What a plan of the region gives as the numbers of a part is `part`,
/// and `elements` has just as many bytes as the part's elements.
///
/// Errors, the first that holds, `OutOfMemory` aside: those of
/// [`zarrs_part_put`](crate::zarrs_part_put). Each leaves `elements` as it was.
pub fn zarrs_part_take(
    alloc: Global,
    size: usize,
    lengths: &[u64],
    part: &[u64],
    region: &[u8],
    elements: &mut [u8],
) -> u32
    // Wide: what is taken has five parts, and the buffer is given before and after.
    ensures told { FillsBuffer
        (part_taken size lengths.now part.now region.now (length elements.old)) result
        elements.old elements.new }
{
    match take(alloc, size, lengths, part, region, elements) {
        Ok(()) => 0,
        Err(refusal) => refusal_number(&refusal),
    }
}
