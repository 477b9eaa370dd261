//! Elements of any length replaced at runs that rise.
ghost use Rattle.std.specs.Prelude.{◌≡◌, ◌+◌, ◌≤◌, ◌-◌, ◌<◌, ◌^◌, All, length, true};
ghost use Rattle.zarrs_chunk.specs.Runs.{joined_runs};
ghost use Rattle.zarrs_array_bytes.specs.Given.{UpdatesCuts};
ghost use Rattle.zarrs_array_bytes.specs.Offsets.{is_offsets, last_of};
ghost use Rattle.zarrs_array_bytes.specs.Update.{is_rising};

use crate::gather::append_cuts;
use std::alloc::Global;
use zarrs_chunk::CodecError;

/// Whether no run begins before the end of the one before it.
pub(crate) fn are_rising(runs: &[(u64, u64)]) -> bool
    requires inside { All (λ run. run.0 + run.1 < 2 ^ 64) runs.now }
    ensures answer { result ≡ is_rising 0 runs.now }
{
    let mut at = 0;
    let mut rising = true;
    for run in runs {
        rising = rising & (at <= run.0);
        at = run.0 + run.1;
    }
    rising
}

/// The bytes between the offsets, with those of the elements at runs that rise replaced by the new
/// ones, and where each then begins and ends. The old elements between two runs are copied whole,
/// and so are the new ones of a run.
pub(crate) fn splice_cuts(
    alloc: Global,
    old: &[u8],
    old_offsets: &[usize],
    new: &[u8],
    new_offsets: &[usize],
    runs: &[(u64, u64)],
) -> Result<(Vec<u8>, Vec<usize>), CodecError>
    requires old_rising { is_offsets old_offsets.now ≡ true }
    requires old_ending { last_of old_offsets.now ≡ length old.now }
    requires new_rising { is_offsets new_offsets.now ≡ true }
    requires new_ending { last_of new_offsets.now ≡ length new.now }
    requires inside { All (λ run. run.0 + run.1 ≤ length old_offsets.now - 1) runs.now }
    requires enough { length new_offsets.now ≡ length (joined_runs runs.now) + 1 }
    requires rising { is_rising 0 runs.now ≡ true }
    ensures exact { UpdatesCuts old_offsets.now old.now new_offsets.now new.now runs.now result }
{
    let mut bytes = Vec::with_capacity(alloc, spliced_len(old, old_offsets, new, runs))?;
    let mut ends = Vec::with_capacity(alloc, old_offsets.len())?;
    ends.push(0)?;
    let mut at = 0;
    let mut done = 0;
    for run in runs {
        let start = run.0 as usize;
        let len = run.1 as usize;
        append_cuts(&mut bytes, &mut ends, old, old_offsets, at, start - at)?;
        append_cuts(&mut bytes, &mut ends, new, new_offsets, done, len)?;
        at = start + len;
        done += len;
    }
    append_cuts(
        &mut bytes,
        &mut ends,
        old,
        old_offsets,
        at,
        old_offsets.len() - 1 - at,
    )?;
    Ok((bytes, ends))
}

/// How many bytes to reserve for the old elements between the runs and the new ones.
fn spliced_len(old: &[u8], old_offsets: &[usize], new: &[u8], runs: &[(u64, u64)]) -> usize
    requires inside { All (λ run. run.0 + run.1 ≤ length old_offsets.now - 1) runs.now }
    requires some { 0 < length old_offsets.now }
{
    let mut replaced = old_offsets[0];
    for run in runs {
        let start = old_offsets[run.0 as usize];
        let end = old_offsets[(run.0 + run.1) as usize];
        replaced = replaced.saturating_add(end.saturating_sub(start));
    }
    old.len().saturating_sub(replaced).saturating_add(new.len())
}
