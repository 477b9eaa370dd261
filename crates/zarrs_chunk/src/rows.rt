//! The runs of a box, row by row.
ghost use Rattle.std.specs.Prelude.{◌≡◌, ◌<◌, ◌≤◌, ◌^◌, ◌+◌, ◌*◌, ℕ, length, map, slice_index, IfOk};
ghost use Rattle.std.specs.List.{range_with_len};
ghost use Rattle.zarrs_chunk.specs.Levels.{rows_behind};
ghost use Rattle.zarrs_chunk.specs.Rows.{row_at, AppendsRows};

use std::alloc::{AllocError, Global};

/// The rows of a box along the last axis that it doesn't cover whole: how many places its front passes
/// in one step, how many lie before the row, and how many the row has.
#[derive(Clone, Copy, Debug, Drop)]
pub struct Row {
    /// How many places a step of the front passes.
    pub step: u64,
    /// How many of these lie before the row.
    pub start: u64,
    /// How many the row has.
    pub len: u64,
}

/// Appends the rows behind so many fronts, one after another, as runs.
#[inline(always)]
pub fn push_rows(
    out: &mut Vec<(u64, u64)>,
    first: u64,
    count: u64,
    row: Row,
) -> Result<(), AllocError>
    requires room { (first + count) * row.step < 2 ^ 64 }
    requires start { row.start ≤ row.step }
    requires step { 0 < row.step }
    ensures appended { AppendsRows row (range_with_len first count) out.old out.new result }
{
    for index in 0..count {
        out.push(((first + index) * row.step + row.start, row.len))?;
    }
    Ok(())
}

/// The runs of the rows over one axis more than these fronts.
#[inline(always)]
pub(crate) fn row_runs(
    alloc: Global,
    fronts: &[u64],
    size: u64,
    start: u64,
    len: u64,
    row: Row,
) -> Result<Vec<(u64, u64)>, AllocError>
    requires room { (k : ℕ) → k < length fronts.now
        → (slice_index fronts.now k * size + start + len) * row.step < 2 ^ 64 }
    requires start { row.start ≤ row.step }
    requires step { 0 < row.step }
    ensures rows { IfOk result
        (λ v. v.items ≡ map (row_at row) (rows_behind size start len fronts.now)) }
{
    let mut runs = Vec::with_capacity(alloc, fronts.len().saturating_mul(len as usize))?;
    for front in fronts {
        push_rows(&mut runs, *front * size + start, len, row)?;
    }
    Ok(runs)
}
