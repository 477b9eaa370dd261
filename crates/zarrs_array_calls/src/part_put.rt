//! The call `zarrs_part_put`.
ghost use Rattle.std.specs.Prelude.{◌≡◌, ◌+◌, ◌*◌, ◌≤◌, All, OnErr, length};
ghost use Rattle.zarrs_array_bytes.specs.Update.{with_runs};
ghost use Rattle.zarrs_chunk.specs.Answer.{Answers};
ghost use Rattle.zarrs_chunk.specs.Runs.{joined_runs};
ghost use Rattle.zarrs_array_calls.specs.PartBytes.{part_put, FillsBuffer};
ghost use Rattle.zarrs_array_calls.specs.Refusals.{refusal_wants};

use crate::part_runs::{overwrite, part_runs};
use crate::refusal::{ArrayRefusal, refusal_number};
use std::alloc::Global;

/// Writes elements of `size` at the runs of a region's, in order.
fn write_runs(region: &mut [u8], elements: &[u8], size: usize, runs: &[(u64, u64)])
    requires inside { All (λ run. (run.0 + run.1) * size ≤ length region.old) runs.now }
    requires enough { length (joined_runs runs.now) * size ≤ length elements.now }
    ensures written { region.new ≡ with_runs size region.old runs.now elements.now }
{
    let mut done = 0;
    for run in runs {
        let at = run.0 as usize * size;
        let len = run.1 as usize * size;
        overwrite(region, at, &elements[done..done + len]);
        done += len;
    }
}

/// Puts a part's elements at their places.
fn put(
    alloc: Global,
    size: usize,
    lengths: &[u64],
    part: &[u64],
    elements: &[u8],
    region: &mut [u8],
) -> Result<(), ArrayRefusal>
    ensures written { Answers refusal_wants (λ _. region.new) result
        (part_put size lengths.now part.now elements.now region.old) }
    ensures kept { OnErr result (region.new ≡ region.old) }
{
    let runs = part_runs(alloc, size, lengths, part, region, elements.len())?;
    write_runs(region, elements, size, runs.as_slice());
    Ok(())
}

/// Puts a part's elements at their places among a region's, an element of `size` bytes each. What a plan
/// of the region gives as the numbers of a part is `part`, and `elements` are what a read of its box of
/// the chunk gives. All other bytes of `region` stay, and parts may come in any order.
///
/// Errors, the first that holds, `OutOfMemory` aside: `ZeroSize` where a length of the region is zero,
/// since it has no parts then; `Argument` where the part hasn't four numbers an axis; `Overflow` where a
/// range of it ends past `2^64 - 1`; those of
/// [`ArrayBytesFixedView::new`](zarrs_array_bytes::ArrayBytesFixedView::new); `TargetMismatch` where the
/// part has more or fewer elements. Each leaves `region` as it was.
pub fn zarrs_part_put(
    alloc: Global,
    size: usize,
    lengths: &[u64],
    part: &[u64],
    elements: &[u8],
    region: &mut [u8],
) -> u32
    ensures told { FillsBuffer (part_put size lengths.now part.now elements.now region.old) result
        region.old region.new }
{
    match put(alloc, size, lengths, part, elements, region) {
        Ok(()) => 0,
        Err(refusal) => refusal_number(&refusal),
    }
}
