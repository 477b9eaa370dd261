//! The tuples of boxes and of numbers, in an order of axes.
ghost use Rattle.std.specs.Prelude.{◌≡◌, ◌<◌, Ok, length, map, All};
ghost use Rattle.zarrs_chunk.specs.Answer.{Gives, GivesItems};
ghost use Rattle.zarrs_chunk.specs.ChunkShape.{product};
ghost use Rattle.zarrs_chunk.specs.Indices.{tuple_of_number, box_tuple, indices_behind};
ghost use Rattle.zarrs_array_to_array.specs.Boxes.{EndsFit, tuples_in, GivesBox};
ghost use Rattle.zarrs_array_to_array.specs.Orders.{permuted};
ghost use Rattle.zarrs_array_to_array.specs.Vectors.{ItemsAre};

use std::alloc::{AllocError, Global};
use zarrs_chunk::{ArrayIndices, ArraySubset, ChunkShape, CodecError, unravel_index};

/// The tuple that has this row-major number in a chunk.
fn tuple_at(alloc: Global, number: u64, shape: &ChunkShape) -> Result<ArrayIndices, CodecError>
    requires known { number < product shape.now }
    ensures answer { GivesItems result (Ok (tuple_of_number shape.now number)) }
{
    match unravel_index(alloc, number, shape)? {
        None => unreachable!(),
        Some(tuple) => Ok(tuple),
    }
}

/// The tuples that have these row-major numbers in a chunk.
pub(crate) fn tuples_at(
    alloc: Global,
    numbers: &[u64],
    shape: &ChunkShape,
) -> Result<Vec<ArrayIndices>, CodecError>
    requires known { All (λ number. number < product shape.now) numbers.now }
    ensures answer { Gives tuples_in result (Ok (map (tuple_of_number shape.now) numbers.now)) }
{
    let mut tuples = Vec::with_capacity(alloc, numbers.len())?;
    for number in numbers {
        tuples.push(tuple_at(alloc, *number, shape)?)?;
    }
    Ok(tuples)
}

/// The indices of a tuple, each behind its start, in this order of axes.
fn indices_behind(
    alloc: Global,
    order: &[usize],
    starts: &[u64],
    tuple: &[u64],
) -> Result<ArrayIndices, AllocError>
    requires order { All (λ axis. axis < length starts.now) order.now }
    requires axes { length tuple.now ≡ length starts.now }
    requires fits { EndsFit starts.now tuple.now }
    ensures value { ItemsAre (permuted order.now (indices_behind starts.now tuple.now)) result }
{
    let mut indices = Vec::with_capacity(alloc, order.len())?;
    for axis in order {
        indices.push(starts[*axis] + tuple[*axis])?;
    }
    Ok(indices)
}

/// The tuple of a box that has this number among the box's tuples, in this order of axes.
fn box_tuple(
    alloc: Global,
    order: &[usize],
    starts: &[u64],
    lengths: &ChunkShape,
    number: u64,
) -> Result<ArrayIndices, CodecError>
    requires order { All (λ axis. axis < length starts.now) order.now }
    requires axes { length lengths.now ≡ length starts.now }
    requires fits { EndsFit starts.now lengths.now }
    requires known { number < product lengths.now }
    ensures answer { GivesItems result (Ok (permuted order.now (box_tuple starts.now lengths.now number))) }
{
    let tuple = tuple_at(alloc, number, lengths)?;
    let indices = indices_behind(alloc, order, starts, tuple.as_slice())?;
    Ok(indices)
}

/// So many first tuples of a box, each in this order of axes.
fn first_tuples(
    alloc: Global,
    order: &[usize],
    starts: &[u64],
    lengths: &ChunkShape,
    count: u64,
) -> Result<Vec<ArrayIndices>, CodecError>
    requires order { All (λ axis. axis < length starts.now) order.now }
    requires axes { length lengths.now ≡ length starts.now }
    requires fits { EndsFit starts.now lengths.now }
    requires count { product lengths.now ≡ count }
    ensures answer { GivesBox order.now starts.now lengths.now result }
{
    let mut tuples = Vec::with_capacity(alloc, count as usize)?;
    for number in 0..count {
        tuples.push(box_tuple(alloc, order, starts, lengths, number)?)?;
    }
    Ok(tuples)
}

/// The tuples of a box that has so many, each in this order of axes.
pub(crate) fn ordered_box(
    alloc: Global,
    order: &[usize],
    subset: &ArraySubset,
    count: u64,
) -> Result<Vec<ArrayIndices>, CodecError>
    requires order { All (λ axis. axis < length subset.now.starts) order.now }
    requires fits { EndsFit subset.now.starts subset.now.lengths }
    requires count { product subset.now.lengths ≡ count }
    ensures answer { GivesBox order.now subset.now.starts subset.now.lengths result }
{
    let lengths = subset.shape();
    if count == 0 {
        return Ok(Vec::new(alloc));
    }
    let lengths = ChunkShape::new(Vec::from_slice(alloc, lengths)?).unwrap();
    first_tuples(alloc, order, subset.start(), &lengths, count)
}
