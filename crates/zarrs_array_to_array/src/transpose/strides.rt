//! The strides of a chunk, and rows of places.
ghost use Rattle.std.specs.Prelude.{◌≡◌, ◌<◌, ◌^◌, ◌+◌, ◌*◌, ◌-◌, ◌++◌, length, All, IfOk, OnOk};
ghost use Rattle.zarrs_chunk.specs.ChunkShape.{product};
ghost use Rattle.zarrs_array_to_array.specs.Orders.{permuted};
ghost use Rattle.zarrs_array_to_array.specs.Strides.{strides as strides_of, row, next_rows, IsRoomy};

use std::alloc::{AllocError, Global};

/// Writes how many places one step along each axis passes.
pub(crate) fn put_strides(steps: &mut [u64], sizes: &[u64])
    requires positive { All (λ size. 0 < size) sizes.now }
    requires fits { product sizes.now < 2 ^ 64 }
    requires len { length steps.old ≡ length sizes.now }
    ensures written { steps.new ≡ strides_of sizes.now }
{
    let mut step = 1;
    let mut axis = sizes.len();
    while axis > 0 {
        axis -= 1;
        steps[axis] = step;
        step *= sizes[axis];
    }
}

/// How many places one step along each axis passes.
pub(crate) fn strides(alloc: Global, sizes: &[u64]) -> Result<Vec<u64>, AllocError>
    requires positive { All (λ size. 0 < size) sizes.now }
    requires fits { product sizes.now < 2 ^ 64 }
    ensures value { IfOk result (λ v. v.items ≡ strides_of sizes.now) }
{
    let mut steps = vec![in alloc; 0; sizes.len()]?;
    put_strides(steps.as_mut_slice(), sizes);
    Ok(steps)
}

/// Entry i of the answer is entry `order[i]` of the list: the sizes, starts or lengths of a
/// transposed chunk. Errors: `OutOfMemory`.
pub fn permute(alloc: Global, order: &[usize], xs: &[u64]) -> Result<Vec<u64>, AllocError>
    requires order { All (λ axis. axis < length xs.now) order.now }
    ensures value { IfOk result (λ v. v.items ≡ permuted order.now xs.now) }
{
    let mut out = Vec::with_capacity(alloc, order.len())?;
    for axis in order {
        out.push(xs[*axis])?;
    }
    Ok(out)
}

/// One row behind what stands there: so many numbers, a step apart.
fn write_row(rows: &mut Vec<u64>, front: u64, step: u64, size: u64) -> Result<(), AllocError>
    requires fits { front + (size - 1) * step < 2 ^ 64 }
    ensures appended { OnOk result (rows.new.items ≡ rows.old.items ++ row front step size) }
{
    for index in 0..size {
        rows.push(front + index * step)?;
    }
    Ok(())
}

/// The rows behind each front. What stood in `rows` before is gone; its room is used again.
pub(crate) fn write_rows(
    rows: &mut Vec<u64>,
    fronts: &[u64],
    step: u64,
    size: u64,
) -> Result<(), AllocError>
    requires fits { IsRoomy (2 ^ 64) ((size - 1) * step) fronts.now }
    ensures places { OnOk result (rows.new.items ≡ next_rows step size fronts.now) }
{
    rows.clear();
    for front in fronts {
        write_row(rows, *front, step, size)?;
    }
    Ok(())
}
