//! The call `zarrs_read`.
ghost use Rattle.std.specs.Prelude.{◌≡◌};
ghost use Rattle.zarrs_c_calls.specs.Calls.{header_given};
ghost use Rattle.zarrs_c_calls.specs.Kept.{kept_given};
ghost use Rattle.zarrs_c_calls.specs.Buffers.{room};
ghost use Rattle.zarrs_c_calls.specs.Reads.{part_read, stored_value};
ghost use Rattle.zarrs_c_calls.specs.Told.{TellsElements};
ghost use Rattle.zarrs_kept_chains.specs.KeptChain.{kept_header};

use std::alloc::Global;
use zarrs_c_calls::Sizes;
use zarrs_kept_chains::KeptChain;

/// The selected elements, in the selection's order, of the chunk that a value stands for, or fill
/// values where nothing is stored; `value` isn't read then.
///
/// Where `tuples` is 2^64 - 1 the selection is a box, and `numbers` are its starts and then its
/// lengths, one an axis; else it is so many index tuples, one after another. The elements are
/// returned as by `zarrs_decode`. Errors, the first that holds, `OutOfMemory` aside: those of
/// `zarrs_check`; `Argument` or `Overflow` of the selection; those of `CodecChain::partial_decoder`
/// and then of its `partial_decode`.
#[unsafe(no_mangle)]
pub extern "C" fn zarrs_read(
    alloc: Global,
    text: &[u8],
    is_stored: bool,
    value: &[u8],
    tuples: u64,
    numbers: &[u64],
    masks: &mut [u8],
    offsets: &mut [u64],
    bytes: &mut [u8],
    needed: &mut Sizes,
) -> u32
    // Wide: a caller's three buffers and their counts, before and after.
    ensures told { TellsElements
        (part_read (header_given text.now) (stored_value is_stored value.now) tuples numbers.now) result
        (room masks.old offsets.old bytes.old needed.old)
        (room masks.new offsets.new bytes.new needed.new) }
{
    zarrs_c_calls::zarrs_read(
        alloc, text, is_stored, value, tuples, numbers, masks, offsets, bytes, needed,
    )
}

/// `zarrs_read` of a chain that is kept, which stays. Errors: `Argument` where none is kept, and behind it
/// those of `zarrs_read` but those of `zarrs_check`.
#[unsafe(no_mangle)]
pub extern "C" fn zarrs_chain_read(
    alloc: Global,
    chain: &mut KeptChain,
    is_stored: bool,
    value: &[u8],
    tuples: u64,
    numbers: &[u64],
    masks: &mut [u8],
    offsets: &mut [u64],
    bytes: &mut [u8],
    needed: &mut Sizes,
) -> u32
    ensures chain_kept { kept_header chain.new ≡ kept_header chain.old }
    // Wide: a caller's three buffers and their counts, before and after.
    ensures told { TellsElements
        (part_read (kept_given chain.old) (stored_value is_stored value.now) tuples numbers.now) result
        (room masks.old offsets.old bytes.old needed.old)
        (room masks.new offsets.new bytes.new needed.new) }
{
    zarrs_c_calls::zarrs_chain_read(
        alloc, chain, is_stored, value, tuples, numbers, masks, offsets, bytes, needed,
    )
}
