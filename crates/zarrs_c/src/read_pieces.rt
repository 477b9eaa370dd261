//! The call `zarrs_read_pieces`.
ghost use Rattle.std.specs.Prelude.{◌≡◌, ℕ, List};
ghost use Rattle.zarrs_c_calls.specs.Calls.{header_given};
ghost use Rattle.zarrs_c_calls.specs.Kept.{kept_given};
ghost use Rattle.zarrs_c_calls.specs.Buffers.{room};
ghost use Rattle.zarrs_c_calls.specs.Fetched.{TellsPieces};
ghost use Rattle.zarrs_kept_chains.specs.KeptChain.{kept_header};

use std::alloc::Global;
use zarrs_c_calls::Sizes;
use zarrs_kept_chains::KeptChain;

/// The selected elements of the chunk that a value of `len` bytes stands for, of which these ranges
/// were fetched: each is a start and an end, they come in order, between one and the next there is
/// a byte, and `fetched` has their bytes, joined.
///
/// For every value that has these bytes there, the answer is that of `zarrs_read`, or `Storage`
/// where a byte is needed that isn't among them. Where all bytes of the ranges that
/// `zarrs_planned_ranges` returns are among them, it is that of `zarrs_read`. The selection is that of
/// `zarrs_read`, and the elements are returned as by `zarrs_decode`. Errors, the first that holds,
/// `OutOfMemory` aside: those of `zarrs_check`; `Argument` or `Overflow` of the selection;
/// `Argument` where the ranges aren't pairs or have other bytes than are fetched;
/// `InvalidByteRange` where they touch, come in another order or end behind the value; `Storage`
/// where a byte is needed that isn't among them; those of `zarrs_read`.
#[unsafe(no_mangle)]
pub extern "C" fn zarrs_read_pieces(
    alloc: Global,
    text: &[u8],
    len: u64,
    ranges: &[u64],
    fetched: &[u8],
    tuples: u64,
    numbers: &[u64],
    masks: &mut [u8],
    offsets: &mut [u64],
    bytes: &mut [u8],
    needed: &mut Sizes,
) -> u32
    ghost value: { List ℕ }
    // Wide: a caller's three buffers and their counts, before and after.
    ensures told { TellsPieces (header_given text.now) len ranges.now fetched.now tuples numbers.now value result
        (room masks.old offsets.old bytes.old needed.old)
        (room masks.new offsets.new bytes.new needed.new) }
{
    zarrs_c_calls::zarrs_read_pieces(
        alloc, text, len, ranges, fetched, tuples, numbers, masks, offsets, bytes, needed,
    )
}

/// `zarrs_read_pieces` of a chain that is kept, which stays. Errors: `Argument` where none is kept, and behind it
/// those of `zarrs_read_pieces` but those of `zarrs_check`.
#[unsafe(no_mangle)]
pub extern "C" fn zarrs_chain_read_pieces(
    alloc: Global,
    chain: &mut KeptChain,
    len: u64,
    ranges: &[u64],
    fetched: &[u8],
    tuples: u64,
    numbers: &[u64],
    masks: &mut [u8],
    offsets: &mut [u64],
    bytes: &mut [u8],
    needed: &mut Sizes,
) -> u32
    ghost value: { List ℕ }
    ensures chain_kept { kept_header chain.new ≡ kept_header chain.old }
    // Wide: a caller's three buffers and their counts, before and after.
    ensures told { TellsPieces (kept_given chain.old) len ranges.now fetched.now tuples numbers.now value result
        (room masks.old offsets.old bytes.old needed.old)
        (room masks.new offsets.new bytes.new needed.new) }
{
    zarrs_c_calls::zarrs_chain_read_pieces(
        alloc, chain, len, ranges, fetched, tuples, numbers, masks, offsets, bytes, needed,
    )
}
