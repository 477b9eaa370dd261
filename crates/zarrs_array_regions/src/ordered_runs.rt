//! The runs of a region with the axes of its chunk in another order.
ghost use Rattle.std.specs.Prelude.{◌≡◌, ◌<◌, ◌≤◌, ◌^◌, ◌+◌, ◌*◌, ◌∷◌, [], length, All, IfOk};
ghost use Rattle.zarrs_chunk.specs.ChunkShape.{product};
ghost use Rattle.zarrs_chunk.specs.Levels.{AreWhole, LastIsPartial};
ghost use Rattle.zarrs_chunk.specs.Rows.{AppendsRows, AreBoxRuns};
ghost use Rattle.zarrs_array_to_array.specs.Orders.{permuted};
ghost use Rattle.zarrs_array_regions.specs.OrderedRuns.{fronts_over, row_along, AreAxes, HasRoom};

use std::alloc::{AllocError, Global};
use zarrs_chunk::{Row, push_rows};

/// How many elements the axes of this order have.
pub(crate) fn count_elements(order: &[usize], sizes: &[u64]) -> u64
    requires below { All (λ axis. axis < length sizes.now) order.now }
    requires positive { All (λ size. 0 < size) sizes.now }
    requires fits { product (permuted order.now sizes.now) < 2 ^ 64 }
    ensures value { result ≡ product (permuted order.now sizes.now) }
{
    let mut count = 1;
    for axis in order {
        count *= sizes[*axis];
    }
    count
}

/// How many axes stand before those at the end of the order that the region covers whole.
pub(crate) fn outer_axes(order: &[usize], sizes: &[u64], starts: &[u64], lengths: &[u64]) -> usize
    requires axes { AreAxes order.now sizes.now starts.now lengths.now }
    ensures axes { result ≤ length order.now }
    ensures whole { AreWhole result (length order.now) (permuted order.now sizes.now)
        (permuted order.now starts.now) (permuted order.now lengths.now) }
    ensures partial { LastIsPartial result
        (permuted order.now sizes.now) (permuted order.now lengths.now) }
{
    let mut axes = 0;
    for index in 0..order.len() {
        let axis = order[index];
        if starts[axis] != 0 || lengths[axis] != sizes[axis] {
            axes = index + 1;
        }
    }
    axes
}

/// The rows along the last of so many axes in this order, behind a front over those before it. The
/// region covers the axes after it whole.
#[inline(always)]
pub(crate) fn last_row(
    order: &[usize],
    sizes: &[u64],
    starts: &[u64],
    lengths: &[u64],
    axes: usize,
) -> Row
    requires axes { AreAxes order.now sizes.now starts.now lengths.now }
    requires filled { All (λ len. 0 < len) lengths.now }
    requires fits { product (permuted order.now sizes.now) < 2 ^ 64 }
    requires some { 0 < axes }
    requires within { axes ≤ length order.now }
    requires whole { AreWhole axes (length order.now) (permuted order.now sizes.now)
        (permuted order.now starts.now) (permuted order.now lengths.now) }
    requires partial { LastIsPartial axes
        (permuted order.now sizes.now) (permuted order.now lengths.now) }
    ensures value { result ≡ row_along axes order.now sizes.now starts.now lengths.now }
{
    let last = order[axes - 1];
    let whole = count_elements(&order[axes..], sizes);
    Row {
        step: sizes[last] * whole,
        start: starts[last] * whole,
        len: lengths[last] * whole,
    }
}

/// How many rows there are over these axes. No memory has room for `usize::MAX` of them.
fn count_rows(order: &[usize], lengths: &[u64]) -> usize
    requires below { All (λ axis. axis < length lengths.now) order.now }
{
    let mut count: usize = 1;
    for axis in order {
        count = count.saturating_mul(lengths[*axis] as usize);
    }
    count
}

/// Appends the rows of the region behind a front, over these axes.
fn append_rows(
    out: &mut Vec<(u64, u64)>,
    order: &[usize],
    sizes: &[u64],
    starts: &[u64],
    lengths: &[u64],
    front: u64,
    row: Row,
) -> Result<(), AllocError>
    requires axes { AreAxes order.now sizes.now starts.now lengths.now }
    requires room { HasRoom front order.now sizes.now row }
    ensures made { AppendsRows row (fronts_over order.now sizes.now
        starts.now lengths.now (front ∷ [])) out.old out.new result }
{
    match order {
        [] => push_rows(out, front, 1, row),
        [axis, rest @ ..] => {
            let first = front * sizes[*axis] + starts[*axis];
            let count = lengths[*axis];
            if rest.is_empty() {
                return push_rows(out, first, count, row);
            }
            for index in 0..count {
                append_rows(out, rest, sizes, starts, lengths, first + index, row)?;
            }
            Ok(())
        }
    }
}

/// The runs of a region of a chunk of these sizes, with the axes of both in this order. Axes at the end
/// that the region covers whole join, so there is one run for each row of the last axis before them, or
/// one alone where it covers all axes.
#[inline(always)]
pub(crate) fn ordered_runs(
    alloc: Global,
    order: &[usize],
    sizes: &[u64],
    starts: &[u64],
    lengths: &[u64],
) -> Result<Vec<(u64, u64)>, AllocError>
    requires axes { AreAxes order.now sizes.now starts.now lengths.now }
    requires filled { All (λ len. 0 < len) lengths.now }
    requires fits { product (permuted order.now sizes.now) < 2 ^ 64 }
    ensures places { IfOk result (λ v. AreBoxRuns (permuted order.now sizes.now)
        (permuted order.now starts.now) (permuted order.now lengths.now) v.items) }
{
    let axes = outer_axes(order, sizes, starts, lengths);
    if axes == 0 {
        let mut runs = Vec::new(alloc);
        runs.push((0, count_elements(order, sizes)))?;
        return Ok(runs);
    }
    let before = &order[..axes - 1];
    let row = last_row(order, sizes, starts, lengths, axes);
    let mut runs = Vec::with_capacity(alloc, count_rows(before, lengths))?;
    append_rows(&mut runs, before, sizes, starts, lengths, 0, row)?;
    Ok(runs)
}
