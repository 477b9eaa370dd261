//! The elements of a box, put into a list of all elements.
ghost use Rattle.std.specs.Prelude.{◌≡◌, ◌≤◌, ◌+◌, length, OnErr};
ghost use Rattle.std.specs.List.{range_with_len};
ghost use Rattle.zarrs_array_bytes.specs.Update.{update};
ghost use Rattle.zarrs_chunk.specs.Answer.{Gives};
ghost use Rattle.zarrs_chunk.specs.Runs.{EndWithin, joined_runs};
ghost use Rattle.zarrs_grid.specs.Gathered.{with_box};

use crate::gather::check_len;
use std::alloc::Global;
use zarrs_chunk::{ArraySubset, ChunkShape, CodecError, count_places, subset_runs};

/// Writes elements from a place on.
fn copy_to<T: Copy>(whole: &mut [T], at: usize, new: &[T])
    requires inside { at + length new.now ≤ length whole.old }
    ensures written { whole.new ≡ update whole.old (range_with_len at (length new.now)) new.now }
    ensures len { length whole.new ≡ length whole.old }
{
    whole[at..at + new.len()].copy_from_slice(new);
}

/// Writes elements at the places of runs, in order.
fn write_runs<T: Copy>(whole: &mut [T], new: &[T], runs: &[(u64, u64)])
    requires inside { EndWithin (length whole.old) runs.now }
    requires enough { length (joined_runs runs.now) ≡ length new.now }
    ensures written { whole.new ≡ update whole.old (joined_runs runs.now) new.now }
    ensures len { length whole.new ≡ length whole.old }
{
    let mut done = 0;
    for run in runs {
        let at = run.0 as usize;
        let len = run.1 as usize;
        copy_to(whole, at, &new[done..done + len]);
        done += len;
    }
}

/// Puts the elements of a box, in row-major order, at their places among all those of a region or a
/// chunk. `shape` is that of all elements, and there is one copy for each row of the last axis that the
/// box doesn't cover whole. The other elements stay as they are.
///
/// Errors, the first that holds, `OutOfMemory` aside: those of
/// [`gather_elements`](crate::gather_elements); `DataMismatch` where there are more or fewer elements
/// than the box has. Each leaves all elements as they were.
pub fn scatter_elements<T: Copy>(
    alloc: Global,
    whole: &mut [T],
    shape: &ChunkShape,
    subset: &ArraySubset,
    elements: &[T],
) -> Result<(), CodecError>
    ensures written { Gives (λ _. whole.new) result
        (with_box whole.old shape.now subset.now elements.now) }
    ensures kept { OnErr result (whole.new ≡ whole.old) }
{
    check_len(whole.len(), shape)?;
    let runs = subset_runs(alloc, shape, subset)?;
    if elements.len() as u64 != count_places(runs.as_slice()) {
        return Err(CodecError::DataMismatch);
    }
    write_runs(whole, elements, runs.as_slice());
    Ok(())
}
