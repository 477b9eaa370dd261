//! Products of sizes, and the places and runs of a box, over plain slices.
ghost use Rattle.std.specs.Prelude.{◌≡◌, ◌<◌, ◌≤◌, ◌^◌, length, true, IfOk, OnOk, SomeIff, All};
ghost use Rattle.zarrs_chunk.specs.ChunkShape.{product};
ghost use Rattle.zarrs_chunk.specs.Levels.{box_places as box_cells, rows_behind, RowsFit, AreFronts, FrontsFit, AreWhole, LastIsPartial};
ghost use Rattle.zarrs_chunk.specs.Rows.{AreBoxRuns};
ghost use Rattle.zarrs_chunk.specs.Runs.{places_in, AreFilled, EndWithin, AreApart};
ghost use Rattle.zarrs_chunk.specs.Tuples.{is_box_inside as box_inside};

use crate::rows::{Row, row_runs};
use std::alloc::{AllocError, Global};
use std::mem;

/// The product of the sizes, where it fits. With a zero among them it is 0.
pub fn checked_product(sizes: &[u64]) -> Option<u64>
    ensures value { SomeIff result (product sizes.now < 2 ^ 64) (product sizes.now) }
{
    if sizes.contains(&0) {
        return Some(0);
    }
    let mut count: u64 = 1;
    for size in sizes {
        count = count.checked_mul(*size)?;
    }
    Some(count)
}

/// Whether a box has one range an axis, and each ends within the axis's size.
pub fn is_box_inside(sizes: &[u64], starts: &[u64], lengths: &[u64]) -> bool
    requires starts { length starts.now ≡ length sizes.now }
    requires lengths { length lengths.now ≡ length sizes.now }
    ensures value { result ≡ box_inside sizes.now starts.now lengths.now }
{
    for axis in 0..sizes.len() {
        let size = sizes[axis];
        let start = starts[axis];
        if start > size || lengths[axis] > size - start {
            return false;
        }
    }
    true
}

/// One axis more, on which the box has one index: each front gives way to the number behind it.
fn step_fronts(fronts: &mut [u64], size: u64, start: u64)
    requires fits { RowsFit size start 1 fronts.old }
    ensures fronts { fronts.new ≡ rows_behind size start 1 fronts.old }
{
    for index in 0..fronts.len() {
        fronts[index] = fronts[index] * size + start;
    }
}

/// One axis more: each front is followed by its row. What stood in `rows` before is gone, and its
/// room is used again.
fn write_rows(
    rows: &mut Vec<u64>,
    fronts: &[u64],
    size: u64,
    start: u64,
    len: u64,
) -> Result<(), AllocError>
    requires fits { RowsFit size start len fronts.now }
    ensures fronts { OnOk result (rows.new.items ≡ rows_behind size start len fronts.now) }
{
    rows.clear();
    rows.reserve_exact(fronts.len().saturating_mul(len as usize))?;
    for front in fronts {
        let row = *front * size + start;
        rows.extend(row..row + len)?;
    }
    Ok(())
}

/// The fronts over one axis more. `rows` is room for them, which is left for the next axis. An axis
/// with one index is done in place, since a shape may have very many of them.
fn next_fronts(
    fronts: &mut Vec<u64>,
    rows: &mut Vec<u64>,
    size: u64,
    start: u64,
    len: u64,
) -> Result<(), AllocError>
    requires fits { RowsFit size start len fronts.old.items }
    ensures fronts { OnOk result (fronts.new.items ≡ rows_behind size start len fronts.old.items) }
{
    if len == 1 {
        step_fronts(fronts.as_mut_slice(), size, start);
        return Ok(());
    }
    write_rows(rows, fronts.as_slice(), size, start, len)?;
    mem::swap(fronts, rows);
    Ok(())
}

/// The numbers of a box's tuples over its first `axes` axes alone. As no range is empty, no level
/// has more numbers than the last.
fn box_fronts(
    alloc: Global,
    sizes: &[u64],
    starts: &[u64],
    lengths: &[u64],
    axes: usize,
) -> Result<Vec<u64>, AllocError>
    requires axes { axes ≤ length sizes.now }
    requires starts { length starts.now ≡ length sizes.now }
    requires lengths { length lengths.now ≡ length sizes.now }
    requires inside { box_inside sizes.now starts.now lengths.now ≡ true }
    requires positive { All (λ size. 0 < size) sizes.now }
    requires fits { product sizes.now < 2 ^ 64 }
    ensures fronts { IfOk result (λ v. AreFronts axes sizes.now starts.now lengths.now v.items) }
    ensures fits { IfOk result (λ v. FrontsFit axes sizes.now v.items) }
{
    if axes == 0 {
        let fronts = vec![in alloc; 0]?;
        return Ok(fronts);
    }
    let mut fronts = Vec::new(alloc);
    write_rows(&mut fronts, &[0], sizes[0], starts[0], lengths[0])?;
    let mut rows = Vec::new(alloc);
    for axis in 1..axes {
        let len = lengths[axis];
        next_fronts(&mut fronts, &mut rows, sizes[axis], starts[axis], len)?;
    }
    Ok(fronts)
}

/// The places of a box inside the sizes, in row-major order.
pub fn box_places(
    alloc: Global,
    sizes: &[u64],
    starts: &[u64],
    lengths: &[u64],
) -> Result<Vec<u64>, AllocError>
    requires starts { length starts.now ≡ length sizes.now }
    requires lengths { length lengths.now ≡ length sizes.now }
    requires inside { box_inside sizes.now starts.now lengths.now ≡ true }
    requires positive { All (λ size. 0 < size) sizes.now }
    requires fits { product sizes.now < 2 ^ 64 }
    ensures places { IfOk result (λ v. v.items ≡ box_cells sizes.now starts.now lengths.now) }
    ensures below { IfOk result (λ v. All (λ place. place < product sizes.now) v.items) }
{
    if lengths.contains(&0) {
        return Ok(Vec::new(alloc));
    }
    box_fronts(alloc, sizes, starts, lengths, sizes.len())
}

/// How many axes stand before those at the end that the box covers whole: it doesn't cover the last
/// of them.
fn outer_axes(sizes: &[u64], starts: &[u64], lengths: &[u64]) -> usize
    requires starts { length starts.now ≡ length sizes.now }
    requires lengths { length lengths.now ≡ length sizes.now }
    requires inside { box_inside sizes.now starts.now lengths.now ≡ true }
    ensures axes { result ≤ length sizes.now }
    ensures whole { AreWhole result (length sizes.now) sizes.now starts.now lengths.now }
    ensures partial { LastIsPartial result sizes.now lengths.now }
{
    let mut axes = 0;
    for index in 0..sizes.len() {
        if starts[index] != 0 || lengths[index] != sizes[index] {
            axes = index + 1;
        }
    }
    axes
}

/// The product of sizes, where the caller knows that 64 bits hold it.
fn known_product(sizes: &[u64]) -> u64
    requires fits { product sizes.now < 2 ^ 64 }
    ensures value { result ≡ product sizes.now }
{
    match checked_product(sizes) {
        Some(count) => count,
        None => unreachable!(),
    }
}

/// The runs of a box that covers all axes whole but for so many, of which it doesn't cover the last. The
/// fronts over the axes before the last two alone are held.
fn partial_runs(
    alloc: Global,
    sizes: &[u64],
    starts: &[u64],
    lengths: &[u64],
    axes: usize,
) -> Result<Vec<(u64, u64)>, AllocError>
    requires some { 0 < axes }
    requires axes { axes ≤ length sizes.now }
    requires starts { length starts.now ≡ length sizes.now }
    requires lengths { length lengths.now ≡ length sizes.now }
    requires inside { box_inside sizes.now starts.now lengths.now ≡ true }
    requires positive { All (λ size. 0 < size) sizes.now }
    requires filled { All (λ len. 0 < len) lengths.now }
    requires fits { product sizes.now < 2 ^ 64 }
    requires whole { AreWhole axes (length sizes.now) sizes.now starts.now lengths.now }
    requires partial { LastIsPartial axes sizes.now lengths.now }
    ensures runs { IfOk result (λ v. AreBoxRuns sizes.now starts.now lengths.now v.items) }
{
    let last = axes - 1;
    let whole = known_product(&sizes[axes..]);
    let row = Row {
        step: sizes[last] * whole,
        start: starts[last] * whole,
        len: lengths[last] * whole,
    };
    if last == 0 {
        return row_runs(alloc, &[0], 1, 0, 1, row);
    }
    let before = last - 1;
    let size = sizes[before];
    let start = starts[before];
    let len = lengths[before];
    if before == 0 {
        return row_runs(alloc, &[0], size, start, len, row);
    }
    let fronts = box_fronts(alloc, sizes, starts, lengths, before)?;
    row_runs(alloc, fronts.as_slice(), size, start, len, row)
}

/// The runs of a box inside the sizes. Axes at the end that the box covers whole join, so there is
/// one run for each row of the last axis before them, or one alone where it covers all axes.
pub fn box_runs(
    alloc: Global,
    sizes: &[u64],
    starts: &[u64],
    lengths: &[u64],
) -> Result<Vec<(u64, u64)>, AllocError>
    requires starts { length starts.now ≡ length sizes.now }
    requires lengths { length lengths.now ≡ length sizes.now }
    requires inside { box_inside sizes.now starts.now lengths.now ≡ true }
    requires positive { All (λ size. 0 < size) sizes.now }
    requires fits { product sizes.now < 2 ^ 64 }
    ensures places { IfOk result (λ v. places_in v ≡ box_cells sizes.now starts.now lengths.now) }
    ensures filled { IfOk result (λ v. AreFilled v.items) }
    ensures below { IfOk result (λ v. EndWithin (product sizes.now) v.items) }
    ensures apart { IfOk result (λ v. AreApart v.items) }
{
    if lengths.contains(&0) {
        return Ok(Vec::new(alloc));
    }
    let axes = outer_axes(sizes, starts, lengths);
    if axes == 0 {
        let mut runs = Vec::new(alloc);
        runs.push((0, known_product(sizes)))?;
        return Ok(runs);
    }
    partial_runs(alloc, sizes, starts, lengths, axes)
}
