//! Where the tuples of a list go when the axes of their chunk are put in another order: each is
//! numbered in that order, with no division.
ghost use Rattle.std.specs.Prelude.{◌≡◌, ◌<◌, ◌^◌, true, length, All, IfSome};
ghost use Rattle.zarrs_chunk.specs.ChunkShape.{product};
ghost use Rattle.zarrs_chunk.specs.Numbering.{are_tuples_inside};
ghost use Rattle.zarrs_chunk.specs.Tuples.{is_tuple_inside as tuple_inside};
ghost use Rattle.zarrs_metadata.specs.Orders.{is_order};
ghost use Rattle.zarrs_array_to_array.specs.MovedLists.{MovesList, ordered_number, ordered_numbers};
ghost use Rattle.zarrs_array_to_array.specs.Vectors.{IfFound};

use std::alloc::{AllocError, Global};
use zarrs_chunk::{ChunkShape, TupleList};

/// The number of a tuple in a chunk with its axes in this order, or `None` where the tuple isn't inside.
fn ordered_place(order: &[usize], sizes: &[u64], tuple: &[u64]) -> Option<u64>
    requires order { is_order order.now ≡ true }
    requires axes { length order.now ≡ length sizes.now }
    requires known { All (λ axis. axis < length sizes.now) order.now }
    requires positive { All (λ size. 0 < size) sizes.now }
    requires fits { product sizes.now < 2 ^ 64 }
    ensures inside { IfSome result (λ _. tuple_inside sizes.now tuple.now ≡ true) }
    ensures value { IfSome result (λ place. place ≡ ordered_number order.now sizes.now tuple.now) }
{
    if tuple.len() != sizes.len() {
        return None;
    }
    let mut place = 0;
    for axis in order {
        let size = sizes[*axis];
        let index = tuple[*axis];
        if index >= size {
            return None;
        }
        place = place * size + index;
    }
    Some(place)
}

/// The numbers of these tuples, or `None` where one of them isn't inside.
fn ordered_places<T: TupleList>(
    alloc: Global,
    order: &[usize],
    sizes: &[u64],
    tuples: &T,
) -> Result<Option<Vec<u64>>, AllocError>
    requires order { is_order order.now ≡ true }
    requires axes { length order.now ≡ length sizes.now }
    requires known { All (λ axis. axis < length sizes.now) order.now }
    requires positive { All (λ size. 0 < size) sizes.now }
    requires fits { product sizes.now < 2 ^ 64 }
    ensures inside { IfFound (λ _. are_tuples_inside sizes.now (T.tuples tuples.now) ≡ true) result }
    ensures places { IfFound
        (λ v. v ≡ ordered_numbers order.now sizes.now (T.tuples tuples.now)) result }
{
    let mut places = Vec::with_capacity(alloc, tuples.count())?;
    for index in 0..tuples.count() {
        match ordered_place(order, sizes, tuples.tuple(index)) {
            None => return Ok(None),
            Some(place) => places.push(place)?,
        }
    }
    Ok(Some(places))
}

/// Where the tuples of a list go, in its order: `None` where the order has another number of axes than
/// the shape, where 64 bits don't count the shape's elements, and where one of the tuples isn't inside.
pub(crate) fn listed_places<T: TupleList>(
    alloc: Global,
    order: &[usize],
    shape: &ChunkShape,
    tuples: &T,
) -> Result<Option<Vec<u64>>, AllocError>
    requires order { is_order order.now ≡ true }
    ensures moved { IfFound (MovesList order.now shape.now (T.tuples tuples.now)) result }
{
    let sizes = shape.as_slice();
    if order.len() != sizes.len() || shape.num_elements().is_err() {
        return Ok(None);
    }
    ordered_places(alloc, order, sizes, tuples)
}
