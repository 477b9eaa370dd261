//! Indexers of many axes, and of many tuples.

use crate::checks::{Asked, are, indexer, is, shape};
use std::alloc::Global;
use std::process::Abort;
use zarrs_chunk::{ArraySubset, ChunkShape, CodecError, Indexer, ravel_indices, unravel_index};

fn are_read(
    rt: &impl Abort,
    places: Result<Vec<u64>, CodecError>,
    runs: Result<Vec<(u64, u64)>, CodecError>,
) -> Result<(), CodecError> {
    let (places, runs) = (places?, runs?);
    are(rt, "places", places.as_slice(), &[0]);
    are(rt, "runs", runs.as_slice(), &[(0, 1)]);
    Ok(())
}

/// The first element alone is selected.
fn selects_first(
    rt: &impl Abort,
    alloc: Global,
    chunk: &ChunkShape,
    asked: &Indexer,
) -> Result<(), CodecError> {
    is(rt, "inside", &asked.check(chunk), &Ok(()));
    is(rt, "one", &asked.len(), &Ok(1));
    are_read(rt, asked.places(alloc, chunk), asked.runs(alloc, chunk))
}

/// A chunk of so many axes of size 1.
fn ones(alloc: Global, axes: usize) -> Result<ChunkShape, CodecError> {
    ChunkShape::new(vec![in alloc; 1; axes]?).ok_or(CodecError::OutOfBounds)
}

/// All elements of a chunk of these sizes.
fn select_all<'b>(alloc: Global, sizes: &[u64]) -> Result<Indexer<'b>, CodecError> {
    let subset = ArraySubset::new_with_shape(alloc, sizes.to_vec(alloc)?)?;
    Ok(Indexer::Subset(subset))
}

fn is_one_element(rt: &impl Abort, alloc: Global, chunk: &ChunkShape) -> Result<(), CodecError> {
    let all = select_all(alloc, chunk.as_slice())?;
    selects_first(rt, alloc, chunk, &all)
}

/// The one element has the number 0.
fn is_first(rt: &impl Abort, alloc: Global, chunk: &ChunkShape) -> Result<(), CodecError> {
    let zeros = vec![in alloc; 0; chunk.as_slice().len()]?;
    is(
        rt,
        "number",
        &ravel_indices(zeros.as_slice(), chunk),
        &Some(0),
    );
    let tuple = unravel_index(alloc, 0, chunk)?;
    is(rt, "tuple", &tuple.as_deref(), &Some(zeros.as_slice()));
    Ok(())
}

/// Half a million axes of size 1: a call that took a step for each pair of axes wouldn't end here.
#[test]
fn have_many_axes(rt: HostRuntime) -> Result<(), CodecError> {
    let chunk = ones(rt.alloc(), 500_000)?;
    is_first(&rt, rt.alloc(), &chunk)?;
    is_one_element(&rt, rt.alloc(), &chunk)
}

/// As many tuples of no numbers as there can be: a call that took a step for each wouldn't end here.
fn accepts_most(rt: &impl Abort, alloc: Global, asked: &Indexer) -> Result<(), CodecError> {
    let chunk = shape(alloc, &[])?;
    is(rt, "most, checked", &asked.check(&chunk), &Ok(()));
    is(rt, "most, counted", &asked.len(), &Ok(u64::MAX));
    Ok(())
}

#[test]
fn have_many_tuples(rt: HostRuntime) -> Result<(), CodecError> {
    let most = indexer(rt.alloc(), &Asked::Numbers(usize::MAX, 0, &[]))?;
    accepts_most(&rt, rt.alloc(), &most)
}
