//! The call `zarrs_planned_ranges`.
ghost use Rattle.std.specs.Prelude.{◌≡◌};
ghost use Rattle.zarrs_c_calls.specs.Calls.{header_given, known_header};
ghost use Rattle.zarrs_c_calls.specs.Kept.{kept_given};
ghost use Rattle.zarrs_c_calls.specs.Plans.{planned, plan_buffers, TellsPlan};
ghost use Rattle.zarrs_kept_chains.specs.KeptChain.{kept_header};

use crate::calls::form_given;
use crate::cause::{Cause, cause_code};
use crate::plan::plan;
use crate::tell::tell_numbers;
use std::alloc::Global;
use zarrs_json::ChunkHeader;
use zarrs_kept_chains::KeptChain;

/// The ranges of bytes of a value that a read of a selection asks for, whatever is stored, where these
/// are the bytes of its places alone: `is_planned` says so, and where not, the whole value is needed.
///
/// They are at the front of `ranges`, each as the number of its first byte and that of the first
/// byte behind it, in order, and between one and the next there is a byte: they are what
/// `zarrs_read_pieces` takes. `needed` is how many numbers they are; where `ranges` is too short,
/// only `needed` and `is_planned` are written, and 1 is returned. The selection is that of
/// `zarrs_read`. Errors, the first that holds, `OutOfMemory` aside: those of `zarrs_check`;
/// `Argument` or `Overflow` of the selection; those of `Indexer::check`.
pub fn zarrs_planned_ranges(
    alloc: Global,
    text: &[u8],
    tuples: u64,
    numbers: &[u64],
    ranges: &mut [u64],
    is_planned: &mut bool,
    needed: &mut usize,
) -> u32
    // Wide: what is returned has three parts, before and after.
    ensures told { TellsPlan (planned (header_given text.now) tuples numbers.now) result
        (plan_buffers ranges.old is_planned.old needed.old)
        (plan_buffers ranges.new is_planned.new needed.new) }
{
    match form_given(alloc, text) {
        Ok(form) => ranges_of_header(alloc, &form, tuples, numbers, ranges, is_planned, needed),
        Err(cause) => cause_code(&cause),
    }
}

/// [`zarrs_planned_ranges`] of a chain that is kept, which stays. Errors: `Argument` where none is kept, and behind it
/// those of `zarrs_planned_ranges` but those of `zarrs_check`.
pub fn zarrs_chain_planned_ranges(
    alloc: Global,
    chain: &mut KeptChain,
    tuples: u64,
    numbers: &[u64],
    ranges: &mut [u64],
    is_planned: &mut bool,
    needed: &mut usize,
) -> u32
    ensures chain_kept { kept_header chain.new ≡ kept_header chain.old }
    // Wide: what is returned has three parts, before and after.
    ensures told { TellsPlan (planned (kept_given chain.old) tuples numbers.now) result
        (plan_buffers ranges.old is_planned.old needed.old)
        (plan_buffers ranges.new is_planned.new needed.new) }
{
    let Some(kept) = chain.take(alloc) else {
        return cause_code(&Cause::Argument);
    };
    let code = ranges_of_header(
        alloc,
        kept.header(),
        tuples,
        numbers,
        ranges,
        is_planned,
        needed,
    );
    chain.keep(kept);
    code
}

/// The same of a header that was read.
fn ranges_of_header(
    alloc: Global,
    form: &ChunkHeader,
    tuples: u64,
    numbers: &[u64],
    ranges: &mut [u64],
    is_planned: &mut bool,
    needed: &mut usize,
) -> u32
    // Wide: what is returned has three parts, before and after.
    ensures told { TellsPlan (planned (known_header form.now) tuples numbers.now) result
        (plan_buffers ranges.old is_planned.old needed.old)
        (plan_buffers ranges.new is_planned.new needed.new) }
{
    match plan(alloc, form, tuples, numbers) {
        Ok(None) => {
            *is_planned = false;
            *needed = 0;
            0
        }
        Ok(Some(told)) => {
            *is_planned = true;
            tell_numbers(told.as_slice(), ranges, needed)
        }
        Err(cause) => cause_code(&cause),
    }
}
