//! Selections of index tuples, and their places and runs.
ghost use Rattle.std.specs.Prelude.{◌≡◌, ◌<◌, ◌^◌, length, IfOk, Ok, All};
ghost use Rattle.zarrs_chunk.specs.Answer.{Answers, memory, Gives, GivesItems};
ghost use Rattle.zarrs_chunk.specs.ChunkShape.{product};
ghost use Rattle.zarrs_chunk.specs.Indexer.{selection_of, plain_indexer};
ghost use Rattle.zarrs_chunk.specs.Runs.{places_in, AreFilled, EndWithin, AreApart};
ghost use Rattle.zarrs_chunk.specs.Selection.{subset as subset_of, bounds_of, len_of, places_of};

use crate::array_subset::ArraySubset;
use crate::boxes::{box_places, box_runs, is_box_inside};
use crate::chunk_shape::ChunkShape;
use crate::codec_error::CodecError;
use crate::index_lists::{check_indices, indices_places, indices_runs};
use crate::index_tuples::IndexTuples;
use crate::indices::ArrayIndices;
use crate::tuple_list::TupleList;
use std::alloc::Global;

/// Which elements of a chunk are selected, in which order.
#[derive(Debug, PartialEq, Eq, Drop)]
pub enum Indexer<'a> {
    /// The tuples of a box, in row-major order.
    Subset(ArraySubset),
    /// These tuples, in list order. A tuple may come more than once.
    Indices(Vec<ArrayIndices>),
    /// The same of tuples that are lent as one list of numbers.
    Tuples(IndexTuples<'a>),
}

#[inline(always)]
fn check_subset(sizes: &[u64], subset: &ArraySubset) -> Result<(), CodecError>
    ensures answer { result ≡ bounds_of (subset_of subset.now) sizes.now }
{
    let starts = subset.start();
    let lengths = subset.shape();
    if starts.len() != sizes.len() {
        return Err(CodecError::IncompatibleDimensionality);
    }
    if !is_box_inside(sizes, starts, lengths) {
        return Err(CodecError::OutOfBounds);
    }
    Ok(())
}

fn subset_places(
    alloc: Global,
    shape: &ChunkShape,
    subset: &ArraySubset,
) -> Result<Vec<u64>, CodecError>
    ensures places { GivesItems result (places_of (subset_of subset.now) shape.now) }
    ensures below { IfOk result (λ v. All (λ place. place < product shape.now) v.items) }
    ensures count { IfOk result (λ v. length v.items < 2 ^ 64) }
{
    let sizes = shape.as_slice();
    check_subset(sizes, subset)?;
    shape.num_elements()?;
    let places = box_places(alloc, sizes, subset.start(), subset.shape())?;
    Ok(places)
}

/// The places of a box of a chunk of this shape, as [`Indexer::runs`] returns those of an indexer.
/// Errors: as it.
#[inline(always)]
pub fn subset_runs(
    alloc: Global,
    shape: &ChunkShape,
    subset: &ArraySubset,
) -> Result<Vec<(u64, u64)>, CodecError>
    ensures places { Gives places_in result (places_of (subset_of subset.now) shape.now) }
    ensures filled { IfOk result (λ v. AreFilled v.items) }
    ensures below { IfOk result (λ v. EndWithin (product shape.now) v.items) }
    ensures count { IfOk result (λ v. length (places_in v) < 2 ^ 64) }
    ensures apart { IfOk result (λ v. AreApart v.items) }
{
    let sizes = shape.as_slice();
    check_subset(sizes, subset)?;
    shape.num_elements()?;
    let runs = box_runs(alloc, sizes, subset.start(), subset.shape())?;
    Ok(runs)
}

impl<'a> Indexer<'a> {
    /// Whether every tuple has one number an axis of the shape and lies inside it. A range may be
    /// empty, and has to lie inside too; an empty list fits every shape.
    /// Errors, the first that holds: `IncompatibleDimensionality`, `OutOfBounds`.
    pub fn check(&self, shape: &ChunkShape) -> Result<(), CodecError>
        ensures answer { result ≡ bounds_of (selection_of self.now) shape.now }
    {
        match self {
            Indexer::Subset(subset) => check_subset(shape.as_slice(), subset),
            Indexer::Indices(tuples) => check_indices(shape.as_slice(), tuples),
            Indexer::Tuples(tuples) => check_indices(shape.as_slice(), tuples),
        }
    }

    /// How many elements are selected, repeated ones counted each time. Errors: `Overflow`.
    pub fn len(&self) -> Result<u64, CodecError>
        ensures answer { result ≡ len_of (selection_of self.now) }
    {
        match self {
            Indexer::Subset(subset) => subset.num_elements(),
            Indexer::Indices(tuples) => Ok(tuples.count() as u64),
            Indexer::Tuples(tuples) => Ok(tuples.count() as u64),
        }
    }

    /// The row-major numbers of the tuples, in order. Errors, the first that holds, `OutOfMemory`
    /// aside: `IncompatibleDimensionality`, `OutOfBounds`, `Overflow` where the shape has `2^64`
    /// elements or more.
    pub fn places(&self, alloc: Global, shape: &ChunkShape) -> Result<Vec<u64>, CodecError>
        ensures places { GivesItems result (places_of (selection_of self.now) shape.now) }
        ensures below { IfOk result (λ v. All (λ place. place < product shape.now) v.items) }
        ensures count { IfOk result (λ v. length v.items < 2 ^ 64) }
    {
        match self {
            Indexer::Subset(subset) => subset_places(alloc, shape, subset),
            Indexer::Indices(tuples) => indices_places(alloc, shape, tuples),
            Indexer::Tuples(tuples) => indices_places(alloc, shape, tuples),
        }
    }

    /// The places in order, as runs of a start and a length: consecutive numbers, none of the runs
    /// empty, and none starting where the one before it ends. Errors as `places`.
    #[inline(always)]
    pub fn runs(&self, alloc: Global, shape: &ChunkShape) -> Result<Vec<(u64, u64)>, CodecError>
        ensures places { Gives places_in result (places_of (selection_of self.now) shape.now) }
        ensures filled { IfOk result (λ v. AreFilled v.items) }
        ensures below { IfOk result (λ v. EndWithin (product shape.now) v.items) }
        ensures count { IfOk result (λ v. length (places_in v) < 2 ^ 64) }
        ensures apart { IfOk result (λ v. AreApart v.items) }
    {
        match self {
            Indexer::Subset(subset) => subset_runs(alloc, shape, subset),
            Indexer::Indices(tuples) => indices_runs(alloc, shape, tuples),
            Indexer::Tuples(tuples) => indices_runs(alloc, shape, tuples),
        }
    }

    /// An equal indexer: of the same variant, with the same box or tuples. Errors: `OutOfMemory`.
    pub fn clone(&self) -> Result<Indexer<'a>, CodecError>
        ensures copy { Answers memory selection_of result (Ok (selection_of self.now)) }
        ensures equal { Answers memory plain_indexer result (Ok (plain_indexer self.now)) }
    {
        match self {
            Indexer::Subset(subset) => Ok(Indexer::Subset(subset.clone()?)),
            Indexer::Indices(tuples) => Ok(Indexer::Indices(tuples.clone()?)),
            Indexer::Tuples(tuples) => Ok(Indexer::Tuples(tuples.clone())),
        }
    }
}
