//! The call `zarrs_read_pieces`.
ghost use Rattle.std.specs.Prelude.{◌≡◌, ℕ, List};
ghost use Rattle.zarrs_c_calls.specs.Calls.{header_given, known_header};
ghost use Rattle.zarrs_c_calls.specs.Kept.{kept_given};
ghost use Rattle.zarrs_c_calls.specs.Buffers.{room};
ghost use Rattle.zarrs_c_calls.specs.Fetched.{TellsPieces};
ghost use Rattle.zarrs_kept_chains.specs.KeptChain.{kept_header};

use crate::calls::form_given;
use crate::cause::{Cause, cause_code};
use crate::fetched::{Fetched, read_fetched};
use crate::sizes::Sizes;
use crate::tell::tell;
use std::alloc::Global;
use zarrs_json::ChunkHeader;
use zarrs_kept_chains::KeptChain;

/// The selected elements of the chunk that a value of `len` bytes stands for, of which these ranges
/// were fetched: each is a start and an end, they come in order, between one and the next there is
/// a byte, and `fetched` has their bytes, joined.
///
/// For every value that has these bytes there, the answer is that of `zarrs_read`, or `Storage`
/// where a byte is needed that isn't among them. Where all bytes of the ranges that
/// `zarrs_planned_ranges` returns are among them, it is that of `zarrs_read`. The selection is that of
/// `zarrs_read`, and the elements are returned as by `zarrs_decode`. Errors, the first that holds,
/// `OutOfMemory` aside: those of `zarrs_check`; `Argument` or `Overflow` of the selection;
/// `Argument` where the ranges aren't pairs or have other bytes than are fetched;
/// `InvalidByteRange` where they touch, come in another order or end behind the value; `Storage`
/// where a byte is needed that isn't among them, and so never where all bytes of the value are;
/// those of `zarrs_read`.
pub fn zarrs_read_pieces(
    alloc: Global,
    text: &[u8],
    len: u64,
    ranges: &[u64],
    fetched: &[u8],
    tuples: u64,
    numbers: &[u64],
    masks: &mut [u8],
    offsets: &mut [u64],
    bytes: &mut [u8],
    needed: &mut Sizes,
) -> u32
    ghost value: { List ℕ }
    // Wide: a caller's three buffers and their counts, before and after.
    ensures told { TellsPieces (header_given text.now) len ranges.now fetched.now tuples numbers.now value result
        (room masks.old offsets.old bytes.old needed.old)
        (room masks.new offsets.new bytes.new needed.new) }
{
    match form_given(alloc, text) {
        Ok(form) => pieces_of_header(
            alloc, &form, len, ranges, fetched, tuples, numbers, masks, offsets, bytes, needed,
        ),
        Err(cause) => cause_code(&cause),
    }
}

/// [`zarrs_read_pieces`] of a chain that is kept, which stays. Errors: `Argument` where none is kept, and behind it
/// those of `zarrs_read_pieces` but those of `zarrs_check`.
pub fn zarrs_chain_read_pieces(
    alloc: Global,
    chain: &mut KeptChain,
    len: u64,
    ranges: &[u64],
    fetched: &[u8],
    tuples: u64,
    numbers: &[u64],
    masks: &mut [u8],
    offsets: &mut [u64],
    bytes: &mut [u8],
    needed: &mut Sizes,
) -> u32
    ghost value: { List ℕ }
    ensures chain_kept { kept_header chain.new ≡ kept_header chain.old }
    // Wide: a caller's three buffers and their counts, before and after.
    ensures told { TellsPieces (kept_given chain.old) len ranges.now fetched.now tuples numbers.now value result
        (room masks.old offsets.old bytes.old needed.old)
        (room masks.new offsets.new bytes.new needed.new) }
{
    let Some(kept) = chain.take(alloc) else {
        return cause_code(&Cause::Argument);
    };
    let code = pieces_of_header(
        alloc,
        kept.header(),
        len,
        ranges,
        fetched,
        tuples,
        numbers,
        masks,
        offsets,
        bytes,
        needed,
    );
    chain.keep(kept);
    code
}

/// The same of a header that was read.
fn pieces_of_header(
    alloc: Global,
    form: &ChunkHeader,
    len: u64,
    ranges: &[u64],
    fetched: &[u8],
    tuples: u64,
    numbers: &[u64],
    masks: &mut [u8],
    offsets: &mut [u64],
    bytes: &mut [u8],
    needed: &mut Sizes,
) -> u32
    ghost value: { List ℕ }
    // Wide: a caller's three buffers and their counts, before and after.
    ensures told { TellsPieces (known_header form.now) len ranges.now fetched.now tuples numbers.now value result
        (room masks.old offsets.old bytes.old needed.old)
        (room masks.new offsets.new bytes.new needed.new) }
{
    let fetched = Fetched {
        len,
        ranges,
        bytes: fetched,
    };
    match read_fetched(alloc, form, &fetched, tuples, numbers) {
        Ok(elements) => tell(&elements, masks, offsets, bytes, needed),
        Err(cause) => cause_code(&cause),
    }
}
