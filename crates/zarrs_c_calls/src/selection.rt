//! The indexer of numbers that a caller gives.
ghost use Rattle.std.specs.Prelude.{length};
ghost use Rattle.zarrs_c_calls.specs.Selections.{box_given as box_of, tuples_given as tuples_of, selection_given as selected, Selects};

use crate::cause::Cause;
use std::alloc::Global;
use zarrs_chunk::{ArraySubset, IndexTuples, Indexer};
use zarrs_json::ChunkHeader;

#[tactic(auto, using(std::proofs::lemmas::List::take_rest))]
fn box_given<'b>(alloc: Global, numbers: &[u64]) -> Result<Indexer<'b>, Cause>
    ensures answer { Selects result (box_of numbers.now) }
{
    if numbers.len() % 2 != 0 {
        return Err(Cause::Argument);
    }
    let axes = numbers.len() / 2;
    let starts = numbers[..axes].to_vec(alloc)?;
    let lengths = numbers[axes..].to_vec(alloc)?;
    Ok(Indexer::Subset(ArraySubset::new_with_start_shape(starts, lengths)?))
}

fn tuples_given<'n>(axes: usize, count: u64, numbers: &'n [u64]) -> Result<Indexer<'n>, Cause>
    ensures answer { Selects result (tuples_of axes count numbers.now) }
{
    match IndexTuples::new(axes, count as usize, numbers) {
        Some(tuples) => Ok(Indexer::Tuples(tuples)),
        None => Err(Cause::Argument),
    }
}

/// The indexer of these numbers in a header's chunk: where `tuples` is 2^64 - 1 a box, whose starts
/// come first and then its lengths, and else so many tuples, one after another, whose numbers are
/// lent on. Errors: `Argument` where the numbers aren't as many; of a box `Overflow` where a range
/// ends past 2^64 - 1, and `OutOfMemory`.
pub(crate) fn selection_given<'n>(
    alloc: Global,
    form: &ChunkHeader,
    tuples: u64,
    numbers: &'n [u64],
) -> Result<Indexer<'n>, Cause>
    ensures answer { Selects result (selected (length form.now.shape) tuples numbers.now) }
{
    if tuples == u64::MAX {
        return box_given(alloc, numbers);
    }
    tuples_given(form.shape.as_slice().len(), tuples, numbers)
}
