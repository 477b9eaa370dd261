//! The call `zarrs_planned_ranges`.
ghost use Rattle.std.specs.Prelude.{◌≡◌};
ghost use Rattle.zarrs_c_calls.specs.Calls.{header_given};
ghost use Rattle.zarrs_c_calls.specs.Kept.{kept_given};
ghost use Rattle.zarrs_c_calls.specs.Plans.{planned, plan_buffers, TellsPlan};
ghost use Rattle.zarrs_kept_chains.specs.KeptChain.{kept_header};

use std::alloc::Global;
use zarrs_kept_chains::KeptChain;

/// The ranges of bytes of a value that a read of a selection asks for, whatever is stored, where these
/// are the bytes of its places alone: `is_planned` says so, and where not, the whole value is needed.
///
/// They are at the front of `ranges`, each as the number of its first byte and that of the first
/// byte behind it, in order, and between one and the next there is a byte: they are what
/// `zarrs_read_pieces` takes. `needed` is how many numbers they are; where `ranges` is too short,
/// only `needed` and `is_planned` are written, and 1 is returned. The selection is that of
/// `zarrs_read`. Errors, the first that holds, `OutOfMemory` aside: those of `zarrs_check`;
/// `Argument` or `Overflow` of the selection; those of `Indexer::check`.
#[unsafe(no_mangle)]
pub extern "C" fn zarrs_planned_ranges(
    alloc: Global,
    text: &[u8],
    tuples: u64,
    numbers: &[u64],
    ranges: &mut [u64],
    is_planned: &mut bool,
    needed: &mut usize,
) -> u32
    // Wide: what is returned has three parts, before and after.
    ensures told { TellsPlan (planned (header_given text.now) tuples numbers.now) result
        (plan_buffers ranges.old is_planned.old needed.old)
        (plan_buffers ranges.new is_planned.new needed.new) }
{
    zarrs_c_calls::zarrs_planned_ranges(alloc, text, tuples, numbers, ranges, is_planned, needed)
}

/// `zarrs_planned_ranges` of a chain that is kept, which stays. Errors: `Argument` where none is kept, and behind it
/// those of `zarrs_planned_ranges` but those of `zarrs_check`.
#[unsafe(no_mangle)]
pub extern "C" fn zarrs_chain_planned_ranges(
    alloc: Global,
    chain: &mut KeptChain,
    tuples: u64,
    numbers: &[u64],
    ranges: &mut [u64],
    is_planned: &mut bool,
    needed: &mut usize,
) -> u32
    ensures chain_kept { kept_header chain.new ≡ kept_header chain.old }
    // Wide: what is returned has three parts, before and after.
    ensures told { TellsPlan (planned (kept_given chain.old) tuples numbers.now) result
        (plan_buffers ranges.old is_planned.old needed.old)
        (plan_buffers ranges.new is_planned.new needed.new) }
{
    zarrs_c_calls::zarrs_chain_planned_ranges(
        alloc, chain, tuples, numbers, ranges, is_planned, needed,
    )
}
