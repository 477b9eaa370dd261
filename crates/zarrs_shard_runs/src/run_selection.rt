//! An indexer that selects the places of runs.
ghost use Rattle.std.specs.Prelude.{◌≡◌, ◌+◌, ◌<◌, ◌≤◌, ◌^◌, IfSome, Ok, Some, length, true};
ghost use Rattle.std.specs.List.{range_with_len};
ghost use Rattle.zarrs_chunk.specs.Answer.{Answers, AnswersBy, memory, no_refusal};
ghost use Rattle.zarrs_chunk.specs.ChunkShape.{product};
ghost use Rattle.zarrs_chunk.specs.Indexer.{selection_of};
ghost use Rattle.zarrs_chunk.specs.Indices.{IsTupleOfNumber};
ghost use Rattle.zarrs_chunk.specs.Runs.{AreFilled, EndWithin, joined_runs};
ghost use Rattle.zarrs_chunk.specs.Selection.{bounds_of, places_of};
ghost use Rattle.zarrs_chunk.specs.Tuples.{is_tuple_inside};
ghost use Rattle.zarrs_shard_runs.specs.RunSelection.{HaveMore};

use std::alloc::Global;
use zarrs_chunk::{
    ArrayIndices, ArraySubset, ChunkShape, CodecError, Indexer, count_places, unravel_index,
};

/// The tuple of a place of the chunk. Errors: `OutOfMemory`.
fn tuple_at(alloc: Global, shape: &ChunkShape, place: u64) -> Result<ArrayIndices, CodecError>
    requires inside { place < product shape.now }
    ensures answer { AnswersBy memory
        (λ tuple _. IsTupleOfNumber shape.now place (Some tuple.items)) result no_refusal }
{
    match unravel_index(alloc, place, shape)? {
        Some(tuple) => Ok(tuple),
        None => unreachable!(),
    }
}

/// The box from one tuple to another, where there is one in the chunk. Errors: `OutOfMemory`.
fn box_between<'b>(
    alloc: Global,
    shape: &ChunkShape,
    first: ArrayIndices,
    last: &[u64],
) -> Result<Option<Indexer<'b>>, CodecError>
    requires counted { product shape.now < 2 ^ 64 }
    requires known { is_tuple_inside shape.now first.items ≡ true }
    requires there { is_tuple_inside shape.now last.now ≡ true }
    ensures inside { AnswersBy memory (λ found _. IfSome found
        (λ it. bounds_of (selection_of it) shape.now ≡ Ok tt)) result no_refusal }
{
    shape.as_slice();
    let starts = first.as_slice();
    let mut lengths = Vec::with_capacity(alloc, starts.len())?;
    for axis in 0..starts.len() {
        let low = starts[axis];
        let high = last[axis];
        if high < low {
            return Ok(None);
        }
        lengths.push(high - low + 1)?;
    }
    let subset = match ArraySubset::new_with_start_shape(first, lengths) {
        Ok(subset) => Indexer::Subset(subset),
        Err(_) => return Ok(None),
    };
    if subset.check(shape).is_err() {
        return Ok(None);
    }
    Ok(Some(subset))
}

/// The box from the first place to the last, where there is one in the chunk. Errors: `OutOfMemory`.
fn covering_box<'b>(
    alloc: Global,
    shape: &ChunkShape,
    runs: &[(u64, u64)],
) -> Result<Option<Indexer<'b>>, CodecError>
    requires counted { product shape.now < 2 ^ 64 }
    requires filled { AreFilled runs.now }
    requires inside { EndWithin (product shape.now) runs.now }
    ensures inside { AnswersBy memory (λ found _. IfSome found
        (λ it. bounds_of (selection_of it) shape.now ≡ Ok tt)) result no_refusal }
{
    if runs.len() == 0 {
        return Ok(None);
    }
    let (start, len) = runs[runs.len() - 1];
    let first = tuple_at(alloc, shape, runs[0].0)?;
    let last = tuple_at(alloc, shape, start + len - 1)?;
    box_between(alloc, shape, first, last.as_slice())
}

/// The tuples of a run of places, behind the others. Errors: `OutOfMemory`.
fn list_run(
    alloc: Global,
    tuples: &mut Vec<ArrayIndices>,
    shape: &ChunkShape,
    start: u64,
    len: u64,
) -> Result<(), CodecError>
    requires inside { start + len ≤ product shape.now }
    requires counted { product shape.now < 2 ^ 64 }
    ensures places { AnswersBy memory (λ _ _. HaveMore shape.now tuples.old.items tuples.new.items
        (range_with_len start len)) result no_refusal }
{
    for place in start..start + len {
        let tuple = tuple_at(alloc, shape, place)?;
        tuples.push(tuple)?;
    }
    Ok(())
}

/// The tuples of the places, in their order. Errors: `OutOfMemory`.
fn listed_places<'b>(
    alloc: Global,
    shape: &ChunkShape,
    runs: &[(u64, u64)],
) -> Result<Indexer<'b>, CodecError>
    requires counted { product shape.now < 2 ^ 64 }
    requires inside { EndWithin (product shape.now) runs.now }
    ensures selects { Answers memory
        (λ it. places_of (selection_of it) shape.now) result (Ok (Ok (joined_runs runs.now))) }
{
    let mut tuples = Vec::with_capacity(alloc, count_places(runs) as usize)?;
    for (start, len) in runs {
        list_run(alloc, &mut tuples, shape, *start, *len)?;
    }
    Ok(Indexer::Indices(tuples))
}

/// An indexer that selects the places of these runs, in their order: a box where they are the runs
/// of one, else a list of tuples. Errors: `OutOfMemory`.
pub fn runs_indexer<'b>(
    alloc: Global,
    shape: &ChunkShape,
    runs: &[(u64, u64)],
) -> Result<Indexer<'b>, CodecError>
    requires counted { product shape.now < 2 ^ 64 }
    requires filled { AreFilled runs.now }
    requires inside { EndWithin (product shape.now) runs.now }
    requires count { length (joined_runs runs.now) < 2 ^ 64 }
    ensures selects { Answers memory
        (λ it. places_of (selection_of it) shape.now) result (Ok (Ok (joined_runs runs.now))) }
{
    if let Some(candidate) = covering_box(alloc, shape, runs)? {
        let own = candidate.runs(alloc, shape)?;
        if own.as_slice() == runs {
            return Ok(candidate);
        }
    }
    listed_places(alloc, shape, runs)
}
