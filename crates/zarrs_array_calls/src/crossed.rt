//! A plan as it crosses to C.
ghost use Rattle.std.specs.Prelude.{◌≡◌, IfOk, string_bytes};
ghost use Rattle.std.specs.List.{flat_map};
ghost use Rattle.zarrs_array_bytes.specs.Pieces.{bytes_with_offsets};
ghost use Rattle.zarrs_chunk.specs.Answer.{Appends};
ghost use Rattle.zarrs_array_calls.specs.CrossedPlans.{crossed_chunks, lists_in, numbers_of_part};

use std::alloc::{AllocError, Global};
use zarrs_array_plan::PlannedChunk;
use zarrs_grid::ChunkPart;

/// The keys and the parts of a plan's chunks, one behind another.
#[derive(Debug, Drop)]
pub(crate) struct CrossedPlan {
    /// The bytes of all keys.
    pub(crate) keys: Vec<u8>,
    /// Where each key begins, and where the last one ends.
    pub(crate) offsets: Vec<u64>,
    /// Four numbers an axis of each part.
    pub(crate) numbers: Vec<u64>,
}

/// The keys of chunks, joined, and where each begins and the last one ends.
fn joined_keys(alloc: Global, planned: &[PlannedChunk]) -> Result<(Vec<u8>, Vec<u64>), AllocError>
    ensures keys { IfOk result (λ v. v.0.items
        ≡ (bytes_with_offsets (λ it. string_bytes it.key) planned.now).0) }
    ensures offsets { IfOk result (λ v. v.1.items
        ≡ (bytes_with_offsets (λ it. string_bytes it.key) planned.now).1) }
{
    let mut keys = Vec::new(alloc);
    let mut offsets = Vec::new(alloc);
    offsets.push(0)?;
    for it in planned {
        keys.extend_from_slice(it.key.as_bytes())?;
        offsets.push(keys.len() as u64)?;
    }
    Ok((keys, offsets))
}

/// Appends the numbers of a part.
fn push_part(numbers: &mut Vec<u64>, part: &ChunkPart) -> Result<(), AllocError>
    ensures appended { Appends numbers.old numbers.new result (numbers_of_part part.now) }
{
    numbers.extend_from_slice(part.chunk.as_slice())?;
    numbers.extend_from_slice(part.in_chunk.start())?;
    numbers.extend_from_slice(part.in_region.shape())?;
    numbers.extend_from_slice(part.in_region.start())
}

/// The numbers of all parts, joined.
#[tactic(auto, using(crate::proofs::PlanLemmas::joined_more))]
fn joined_numbers(alloc: Global, planned: &[PlannedChunk]) -> Result<Vec<u64>, AllocError>
    ensures numbers { IfOk result (λ v. v.items
        ≡ flat_map (λ it. numbers_of_part it.part) planned.now) }
{
    let mut numbers = Vec::new(alloc);
    for it in planned {
        push_part(&mut numbers, &it.part)?;
    }
    Ok(numbers)
}

/// What planned chunks cross as.
pub(crate) fn crossed(alloc: Global, planned: &[PlannedChunk]) -> Result<CrossedPlan, AllocError>
    ensures value { IfOk result (λ plan. lists_in plan ≡ crossed_chunks planned.now) }
{
    let (keys, offsets) = joined_keys(alloc, planned)?;
    let numbers = joined_numbers(alloc, planned)?;
    Ok(CrossedPlan {
        keys,
        offsets,
        numbers,
    })
}
