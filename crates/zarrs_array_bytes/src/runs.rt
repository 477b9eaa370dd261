//! How many places and bytes runs have.
ghost use Rattle.std.specs.Prelude.{◌≡◌, ◌<◌, ◌+◌, ◌^◌, All, length};
ghost use Rattle.zarrs_chunk.specs.Runs.{joined_runs};
ghost use Rattle.zarrs_array_bytes.specs.Given.{MakesItems};

use std::alloc::Global;
use zarrs_chunk::CodecError;

/// How many places the runs have.
pub(crate) fn count_places(runs: &[(u64, u64)]) -> u128
    ensures count { result ≡ length (joined_runs runs.now) }
{
    let mut count: u128 = 0;
    for run in runs {
        count += run.1 as u128;
    }
    count
}

/// How many bytes to reserve for elements of `size` at the runs.
pub(crate) fn bytes_of_runs(runs: &[(u64, u64)], size: usize) -> usize {
    let mut count: u64 = 0;
    for run in runs {
        count = count.saturating_add(run.1);
    }
    (count as usize).saturating_mul(size)
}

/// How many bytes to reserve for the elements between the offsets at the runs.
pub(crate) fn bytes_of_cuts(runs: &[(u64, u64)], offsets: &[usize]) -> usize
    requires inside { All (λ run. run.0 + run.1 < length offsets.now) runs.now }
{
    let mut count: usize = 0;
    for run in runs {
        let from = run.0 as usize;
        let to = from + run.1 as usize;
        count = count.saturating_add(offsets[to].saturating_sub(offsets[from]));
    }
    count
}

/// The places of the runs, in order.
pub(crate) fn places_of_runs(alloc: Global, runs: &[(u64, u64)]) -> Result<Vec<u64>, CodecError>
    requires ends { All (λ run. run.0 + run.1 < 2 ^ 64) runs.now }
    ensures exact { MakesItems result (joined_runs runs.now) }
{
    let mut places = Vec::with_capacity(alloc, bytes_of_runs(runs, 1))?;
    for run in runs {
        places.extend(run.0..run.0 + run.1)?;
    }
    Ok(places)
}
