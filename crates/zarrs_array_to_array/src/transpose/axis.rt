//! The axes of a chunk in an order, and the places of their tuples.
ghost use Rattle.std.specs.Prelude.{◌≡◌, ◌<◌, ◌≤◌, ◌^◌, ◌+◌, ◌*◌, ◌++◌, ◌∷◌, [], length, take, All, IfOk, IfSome};
ghost use Rattle.zarrs_chunk.specs.ChunkShape.{product};
ghost use Rattle.zarrs_array_to_array.specs.Axes.{behind, reach, axes_of, axes_places, HaveBehind, ReachBehind};
ghost use Rattle.zarrs_array_to_array.specs.Orders.{permuted};
ghost use Rattle.zarrs_array_to_array.specs.Strides.{all_stepped, last_tuple, stepped, strides};

use crate::transpose::strides::{put_strides, write_rows};
use std::alloc::{AllocError, Global};
use std::mem;

/// One axis of a chunk: how many indices it has, and how many places one step along it passes.
#[derive(Clone, Copy, Debug, Drop)]
pub(crate) struct Axis {
    pub(crate) size: usize,
    pub(crate) step: usize,
}

/// An axis of a single index.
pub(crate) const ONE: Axis = Axis { size: 1, step: 0 };

/// Two axes as one, where a step along the first passes all of the second.
fn join_axes(first: Axis, second: Axis) -> Option<Axis>
    ensures adjoining { IfSome result (λ both. first.step ≡ second.size * second.step) }
    ensures size { IfSome result (λ both. both.size ≡ first.size * second.size) }
    ensures step { IfSome result (λ both. both.step ≡ second.step) }
{
    let passed = second.size.checked_mul(second.step)?;
    let size = first.size.checked_mul(second.size)?;
    if passed != first.step {
        return None;
    }
    Some(Axis {
        size,
        step: second.step,
    })
}

/// One axis more behind the first `count`: how many there are then. One of a single index is passed
/// over, and one that goes on where the last one ends is joined to it.
fn put_axis(axes: &mut [Axis], count: usize, axis: Axis) -> usize
    requires some { 1 ≤ count }
    requires room { count < length axes.old }
    ensures places { HaveBehind axis (take count axes.old) (take result axes.new) }
    ensures reach { ReachBehind axis (take count axes.old) (take result axes.new) }
    ensures count { count ≤ result }
    ensures within { result ≤ count + 1 }
    ensures len { length axes.new ≡ length axes.old }
{
    if axis.size == 1 {
        return count;
    }
    let last = count - 1;
    if let Some(both) = join_axes(axes[last], axis) {
        axes[last] = both;
        return count;
    }
    axes[count] = axis;
    count + 1
}

/// Writes the axes with these sizes and steps in this order: how many they are. Those of a single index
/// are passed over, and neighbours that stay neighbours are joined. Two of a single index stand in
/// front, so that the last two are always there.
fn put_axes(axes: &mut [Axis], order: &[usize], sizes: &[u64], steps: &[u64]) -> usize
    requires sizes { All (λ axis. axis < length sizes.now) order.now }
    requires steps { All (λ axis. axis < length steps.now) order.now }
    requires room { length order.now + 2 ≤ length axes.old }
    ensures places { axes_places (take result axes.new) ≡ axes_places (axes_of sizes.now steps.now order.now) }
    ensures reach { reach (take result axes.new) ≤ reach (axes_of sizes.now steps.now order.now) }
    ensures plane { 2 ≤ result }
    ensures inside { result ≤ length axes.new }
{
    axes[0] = ONE;
    axes[1] = ONE;
    let mut count = 2;
    for axis in order {
        let next = Axis {
            size: sizes[*axis] as usize,
            step: steps[*axis] as usize,
        };
        count = put_axis(axes, count, next);
    }
    count
}

/// Writes the axes of a chunk of these sizes in this order, as few as have the same places, and the
/// chunk's strides: how many axes they are.
pub(crate) fn put_ordered_axes(
    axes: &mut [Axis],
    steps: &mut [u64],
    order: &[usize],
    sizes: &[u64],
) -> usize
    requires order { All (λ axis. axis < length sizes.now) order.now }
    requires positive { All (λ size. 0 < size) sizes.now }
    requires fits { product sizes.now < 2 ^ 64 }
    requires steps { length steps.old ≡ length sizes.now }
    requires room { length order.now + 2 ≤ length axes.old }
    ensures places { axes_places (take result axes.new) ≡ all_stepped (permuted order.now sizes.now) (permuted order.now (strides sizes.now)) }
    ensures reach { reach (take result axes.new) ≤ stepped (permuted order.now (strides sizes.now)) (last_tuple (permuted order.now sizes.now)) }
    ensures plane { 2 ≤ result }
    ensures inside { result ≤ length axes.new }
{
    put_strides(steps, sizes);
    put_axes(axes, order, sizes, steps)
}

/// The places of all tuples over the axes, the last axis fastest.
pub(crate) fn places_over(alloc: Global, axes: &[Axis]) -> Result<Vec<u64>, AllocError>
    requires fits { reach axes.now < 2 ^ 64 }
    ensures places { IfOk result (λ v. v.items ≡ behind axes.now (0 ∷ [])) }
{
    let mut places = vec![in alloc; 0]?;
    let mut rows = Vec::new(alloc);
    for axis in axes {
        write_rows(
            &mut rows,
            places.as_slice(),
            axis.step as u64,
            axis.size as u64,
        )?;
        mem::swap(&mut places, &mut rows);
    }
    Ok(places)
}
