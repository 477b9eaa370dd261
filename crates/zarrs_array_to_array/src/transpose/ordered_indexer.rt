//! An indexer of a chunk as one of the transposed chunk.
ghost use Rattle.std.specs.Prelude.{◌≡◌, Ok, true, length, IfOk, map};
ghost use Rattle.zarrs_chunk.specs.Indexer.{selection_of};
ghost use Rattle.zarrs_chunk.specs.Numbering.{are_of_axes};
ghost use Rattle.zarrs_chunk.specs.Selection.{bounds_of, len_of, indices, tuples_of};
ghost use Rattle.zarrs_metadata.specs.Orders.{is_order};
ghost use Rattle.zarrs_array_to_array.specs.Boxes.{tuples_in};
ghost use Rattle.zarrs_array_to_array.specs.Orders.{permuted};
ghost use Rattle.zarrs_chunk.specs.Answer.{Gives};

use crate::boxes::ordered_box;
use crate::transpose::strides::permute;
use std::alloc::{AllocError, Global};
use zarrs_chunk::{ArrayIndices, CodecError, Indexer, TupleList};

/// Each of these tuples in this order of axes.
fn ordered_tuples<T: TupleList>(
    alloc: Global,
    order: &[usize],
    tuples: &T,
) -> Result<Vec<ArrayIndices>, AllocError>
    requires order { is_order order.now ≡ true }
    requires axes { are_of_axes (length order.now) (T.tuples tuples.now) ≡ true }
    ensures value { IfOk result (λ v. tuples_in v ≡ map (permuted order.now) (T.tuples tuples.now)) }
{
    let mut ordered = Vec::with_capacity(alloc, tuples.count())?;
    for index in 0..tuples.count() {
        ordered.push(permute(alloc, order, tuples.tuple(index))?)?;
    }
    Ok(ordered)
}

/// The indexer of these tuples, each in this order of axes.
fn ordered_list<'b, T: TupleList>(
    alloc: Global,
    order: &[usize],
    sizes: &[u64],
    tuples: &T,
) -> Result<Indexer<'b>, CodecError>
    requires order { is_order order.now ≡ true }
    requires axes { length order.now ≡ length sizes.now }
    requires inside { bounds_of (indices (T.tuples tuples.now)) sizes.now ≡ Ok tt }
    ensures answer { Gives selection_of result
        (Ok (indices (map (permuted order.now) (T.tuples tuples.now)))) }
{
    let ordered = ordered_tuples(alloc, order, tuples)?;
    Ok(Indexer::Indices(ordered))
}

/// What is asked for of the moved chunk.
pub(crate) fn ordered_indexer<'b>(
    alloc: Global,
    order: &[usize],
    sizes: &[u64],
    indexer: &Indexer,
    count: u64,
) -> Result<Indexer<'b>, CodecError>
    requires order { is_order order.now ≡ true }
    requires axes { length order.now ≡ length sizes.now }
    requires inside { bounds_of (selection_of indexer.now) sizes.now ≡ Ok tt }
    requires count { len_of (selection_of indexer.now) ≡ Ok count }
    ensures answer { Gives selection_of result (Ok (indices (map (permuted order.now) (tuples_of (selection_of indexer.now))))) }
{
    match indexer {
        Indexer::Subset(subset) => {
            let tuples = ordered_box(alloc, order, subset, count)?;
            Ok(Indexer::Indices(tuples))
        }
        Indexer::Indices(tuples) => ordered_list(alloc, order, sizes, tuples),
        Indexer::Tuples(tuples) => ordered_list(alloc, order, sizes, tuples),
    }
}
