//! The call `zarrs_read_many`.
ghost use Rattle.std.specs.Prelude.{◌≡◌};
ghost use Rattle.zarrs_c_calls.specs.Calls.{header_given};
ghost use Rattle.zarrs_c_calls.specs.Kept.{kept_given};
ghost use Rattle.zarrs_c_calls.specs.Buffers.{room};
ghost use Rattle.zarrs_c_calls.specs.ManyReads.{many_read, TellsMany};
ghost use Rattle.zarrs_c_calls.specs.Reads.{stored_value};
ghost use Rattle.zarrs_kept_chains.specs.KeptChain.{kept_header};

use std::alloc::Global;
use zarrs_c_calls::{SelectionSize, Sizes};
use zarrs_kept_chains::KeptChain;

/// The elements of each selection of a list, as `zarrs_read` returns those of one: the parts of
/// each answer stand behind those of the one before it, with its own masks, its own offsets, which
/// begin at 0, and its own bytes.
///
/// Each selection takes as many numbers as `sizes` says, from the front of those that the
/// selections before it left. The header is read once, and a value that has to be decoded whole is
/// decoded once. Errors, the first that holds, `OutOfMemory` aside: those of `zarrs_check`; those
/// of each selection in turn, as of `zarrs_read`, and `Argument` where there aren't as many
/// numbers; `Argument` where numbers are left over.
#[unsafe(no_mangle)]
pub extern "C" fn zarrs_read_many(
    alloc: Global,
    text: &[u8],
    is_stored: bool,
    value: &[u8],
    sizes: &[SelectionSize],
    numbers: &[u64],
    masks: &mut [u8],
    offsets: &mut [u64],
    bytes: &mut [u8],
    needed: &mut Sizes,
) -> u32
    // Wide: a caller's three buffers and their counts, before and after.
    ensures told { TellsMany
        (many_read (header_given text.now) (stored_value is_stored value.now) sizes.now numbers.now) result
        (room masks.old offsets.old bytes.old needed.old)
        (room masks.new offsets.new bytes.new needed.new) }
{
    zarrs_c_calls::zarrs_read_many(
        alloc, text, is_stored, value, sizes, numbers, masks, offsets, bytes, needed,
    )
}

/// `zarrs_read_many` of a chain that is kept, which stays. Errors: `Argument` where none is kept, and behind it
/// those of `zarrs_read_many` but those of `zarrs_check`.
#[unsafe(no_mangle)]
pub extern "C" fn zarrs_chain_read_many(
    alloc: Global,
    chain: &mut KeptChain,
    is_stored: bool,
    value: &[u8],
    sizes: &[SelectionSize],
    numbers: &[u64],
    masks: &mut [u8],
    offsets: &mut [u64],
    bytes: &mut [u8],
    needed: &mut Sizes,
) -> u32
    ensures chain_kept { kept_header chain.new ≡ kept_header chain.old }
    // Wide: a caller's three buffers and their counts, before and after.
    ensures told { TellsMany
        (many_read (kept_given chain.old) (stored_value is_stored value.now) sizes.now numbers.now) result
        (room masks.old offsets.old bytes.old needed.old)
        (room masks.new offsets.new bytes.new needed.new) }
{
    zarrs_c_calls::zarrs_chain_read_many(
        alloc, chain, is_stored, value, sizes, numbers, masks, offsets, bytes, needed,
    )
}
