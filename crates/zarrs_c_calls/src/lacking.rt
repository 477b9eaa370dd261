//! The call `zarrs_lacking`.
ghost use Rattle.std.specs.Prelude.{◌≡◌};
ghost use Rattle.zarrs_c_calls.specs.Calls.{header_given, known_header};
ghost use Rattle.zarrs_c_calls.specs.Kept.{kept_given};
ghost use Rattle.zarrs_c_calls.specs.LackingRanges.{TellsLacking};
ghost use Rattle.zarrs_kept_chains.specs.KeptChain.{kept_header};

use crate::calls::form_given;
use crate::cause::{Cause, cause_code};
use crate::fetched::Fetched;
use crate::rounds::lacking_fetched;
use crate::tell::tell_numbers;
use std::alloc::Global;
use zarrs_json::ChunkHeader;
use zarrs_kept_chains::KeptChain;

/// The ranges of bytes that `zarrs_read_pieces` lacks, given the same: those to fetch before it is
/// called again. None where it is answered.
///
/// They are at the front of `lacking`, each as the number of its first byte and that of the first
/// byte behind it, in order, and between one and the next there is a byte; the value has each
/// byte of them, and no range that was fetched has it. `needed` is how many numbers they are; where
/// `lacking` is too short, only `needed` is written, and 1 is returned. Where the read plans its
/// bytes, as `zarrs_planned_ranges` says, these are all that are lacking; else those that it
/// asks for first. With each round it has more bytes, so there are at most as many rounds as
/// the value has bytes. Errors: those of `zarrs_read_pieces`, but `Storage`.
pub fn zarrs_lacking(
    alloc: Global,
    text: &[u8],
    len: u64,
    ranges: &[u64],
    fetched: &[u8],
    tuples: u64,
    numbers: &[u64],
    lacking: &mut [u64],
    needed: &mut usize,
) -> u32
    // Wide: a read of pieces has six parts, and what is returned two, before and after.
    ensures told { TellsLacking (header_given text.now) len ranges.now fetched.now tuples numbers.now result
        lacking.old lacking.new needed.old needed.new }
{
    match form_given(alloc, text) {
        Ok(form) => lacking_of_header(
            alloc, &form, len, ranges, fetched, tuples, numbers, lacking, needed,
        ),
        Err(cause) => cause_code(&cause),
    }
}

/// [`zarrs_lacking`] of a chain that is kept, which stays. Errors: `Argument` where none is kept, and behind it
/// those of `zarrs_lacking` but those of `zarrs_check`.
pub fn zarrs_chain_lacking(
    alloc: Global,
    chain: &mut KeptChain,
    len: u64,
    ranges: &[u64],
    fetched: &[u8],
    tuples: u64,
    numbers: &[u64],
    lacking: &mut [u64],
    needed: &mut usize,
) -> u32
    ensures chain_kept { kept_header chain.new ≡ kept_header chain.old }
    // Wide: a read of pieces has six parts, and what is returned two, before and after.
    ensures told { TellsLacking (kept_given chain.old) len ranges.now fetched.now tuples numbers.now result
        lacking.old lacking.new needed.old needed.new }
{
    let Some(kept) = chain.take(alloc) else {
        return cause_code(&Cause::Argument);
    };
    let code = lacking_of_header(
        alloc,
        kept.header(),
        len,
        ranges,
        fetched,
        tuples,
        numbers,
        lacking,
        needed,
    );
    chain.keep(kept);
    code
}

/// The same of a header that was read.
fn lacking_of_header(
    alloc: Global,
    form: &ChunkHeader,
    len: u64,
    ranges: &[u64],
    fetched: &[u8],
    tuples: u64,
    numbers: &[u64],
    lacking: &mut [u64],
    needed: &mut usize,
) -> u32
    // Wide: a read of pieces has six parts, and what is returned two, before and after.
    ensures told { TellsLacking (known_header form.now) len ranges.now fetched.now tuples numbers.now result
        lacking.old lacking.new needed.old needed.new }
{
    let fetched = Fetched {
        len,
        ranges,
        bytes: fetched,
    };
    match lacking_fetched(alloc, form, &fetched, tuples, numbers) {
        Ok(told) => tell_numbers(told.as_slice(), lacking, needed),
        Err(cause) => cause_code(&cause),
    }
}
