//! The call `zarrs_lacking`.
ghost use Rattle.std.specs.Prelude.{◌≡◌};
ghost use Rattle.zarrs_c_calls.specs.Calls.{header_given};
ghost use Rattle.zarrs_c_calls.specs.Kept.{kept_given};
ghost use Rattle.zarrs_c_calls.specs.LackingRanges.{TellsLacking};
ghost use Rattle.zarrs_kept_chains.specs.KeptChain.{kept_header};

use std::alloc::Global;
use zarrs_kept_chains::KeptChain;

/// The ranges of bytes that `zarrs_read_pieces` lacks, given the same: those to fetch before it is
/// called again. None where it is answered.
///
/// They are at the front of `lacking`, each as the number of its first byte and that of the first
/// byte behind it, in order, and between one and the next there is a byte; the value has each
/// byte of them, and no range that was fetched has it. `needed` is how many numbers they are; where
/// `lacking` is too short, only `needed` is written, and 1 is returned. Where the read plans its
/// bytes, as `zarrs_planned_ranges` says, these are all that are lacking; else those that it
/// asks for first. With each round it has more bytes, so there are at most as many rounds as
/// the value has bytes. Errors: those of `zarrs_read_pieces`, but `Storage`.
#[unsafe(no_mangle)]
pub extern "C" fn zarrs_lacking(
    alloc: Global,
    text: &[u8],
    len: u64,
    ranges: &[u64],
    fetched: &[u8],
    tuples: u64,
    numbers: &[u64],
    lacking: &mut [u64],
    needed: &mut usize,
) -> u32
    // Wide: a read of pieces has six parts, and what is returned two, before and after.
    ensures told { TellsLacking (header_given text.now) len ranges.now fetched.now tuples numbers.now result
        lacking.old lacking.new needed.old needed.new }
{
    zarrs_c_calls::zarrs_lacking(
        alloc, text, len, ranges, fetched, tuples, numbers, lacking, needed,
    )
}

/// `zarrs_lacking` of a chain that is kept, which stays. Errors: `Argument` where none is kept, and behind it
/// those of `zarrs_lacking` but those of `zarrs_check`.
#[unsafe(no_mangle)]
pub extern "C" fn zarrs_chain_lacking(
    alloc: Global,
    chain: &mut KeptChain,
    len: u64,
    ranges: &[u64],
    fetched: &[u8],
    tuples: u64,
    numbers: &[u64],
    lacking: &mut [u64],
    needed: &mut usize,
) -> u32
    ensures chain_kept { kept_header chain.new ≡ kept_header chain.old }
    // Wide: a read of pieces has six parts, and what is returned two, before and after.
    ensures told { TellsLacking (kept_given chain.old) len ranges.now fetched.now tuples numbers.now result
        lacking.old lacking.new needed.old needed.new }
{
    zarrs_c_calls::zarrs_chain_lacking(
        alloc, chain, len, ranges, fetched, tuples, numbers, lacking, needed,
    )
}
