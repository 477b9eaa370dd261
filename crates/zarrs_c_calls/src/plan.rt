//! Which bytes a read plans to ask for, before the plan is returned to C.
ghost use Rattle.std.specs.Prelude.{◌≡◌, IfErr, IfOk, List};
ghost use Rattle.zarrs_chunk.specs.declared.codec_error.CodecError.TheVariants.{OutOfMemory};
ghost use Rattle.zarrs_chunk.specs.Answer.{AnswersBy};
ghost use Rattle.zarrs_chunk.specs.Indexer.{selection_of};
ghost use Rattle.zarrs_codec.specs.ByteSpan.{ByteSpan};
ghost use Rattle.zarrs_lent_handles.specs.Joined.{Joins};
ghost use Rattle.zarrs_c_calls.specs.Calls.{known_header};
ghost use Rattle.zarrs_c_calls.specs.Codes.{cause_memory};
ghost use Rattle.zarrs_c_calls.specs.PlanSeen.{IsPlanNumbers, PlansPart};
ghost use Rattle.zarrs_c_calls.specs.Plans.{planned, range_numbers};
ghost use Rattle.zarrs_c_calls.specs.Reads.{form_seen};

use crate::cause::Cause;
use crate::selection::selection_given;
use std::alloc::{AllocError, Global};
use zarrs_chunk::{CodecError, Indexer};
use zarrs_codec::{ByteRange, MemoryHandle};
use zarrs_codecs::CodecChainPartialTraits;
use zarrs_json::ChunkHeader;
use zarrs_lent_handles::join_ranges;

/// The ranges of bytes that a read asks for, as the library plans them.
fn ranges_of(
    alloc: Global,
    form: &ChunkHeader,
    indexer: &Indexer,
) -> Result<Option<Vec<ByteRange>>, CodecError>
    ensures plan { PlansPart (form_seen form.now) (selection_of indexer.now) result }
{
    let chain = &form.chain;
    let handle = MemoryHandle::new();
    match chain.partial_encoder(
        alloc,
        handle,
        &form.shape,
        &form.data_type,
        &form.fill_value,
    ) {
        Err(refused) => Err(refused.error),
        Ok(encoder) => encoder.planned_ranges(alloc, indexer),
    }
}

/// Ranges as numbers, each a start and an end.
pub(crate) fn numbers_of(alloc: Global, ranges: &[ByteRange]) -> Result<Vec<u64>, AllocError>
    ensures numbers { IfOk result (λ v. v.items ≡ range_numbers ranges.now) }
{
    let mut numbers = Vec::new(alloc);
    for range in ranges {
        numbers.push(range.start())?;
        numbers.push(range.end())?;
    }
    Ok(numbers)
}

/// Ranges in order and joined, as numbers.
fn joined_numbers(alloc: Global, ranges: Vec<ByteRange>) -> Result<Vec<u64>, CodecError>
    ensures numbers { IfOk result (λ v. (joined : List ByteSpan)
        × (v.items ≡ range_numbers joined) × Joins ranges.items joined) }
    ensures memory { IfErr result (λ error. error ≡ OutOfMemory) }
{
    let joined = join_ranges(alloc, ranges)?;
    Ok(numbers_of(alloc, joined.as_slice())?)
}

/// The ranges of bytes that a read of a selection asks for, in order and joined, as numbers.
pub(crate) fn plan(
    alloc: Global,
    form: &ChunkHeader,
    tuples: u64,
    numbers: &[u64],
) -> Result<Option<Vec<u64>>, Cause>
    ensures answer { AnswersBy cause_memory IsPlanNumbers result
        (planned (known_header form.now) tuples numbers.now) }
{
    let indexer = selection_given(alloc, form, tuples, numbers)?;
    match ranges_of(alloc, form, &indexer)? {
        None => Ok(None),
        Some(ranges) => Ok(Some(joined_numbers(alloc, ranges)?)),
    }
}
