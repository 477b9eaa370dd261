//! The call `zarrs_decode`.
ghost use Rattle.std.specs.Prelude.{◌≡◌};
ghost use Rattle.zarrs_c_calls.specs.Buffers.{room};
ghost use Rattle.zarrs_c_calls.specs.Calls.{decoded, header_given};
ghost use Rattle.zarrs_c_calls.specs.Kept.{kept_given};
ghost use Rattle.zarrs_c_calls.specs.Told.{TellsElements};
ghost use Rattle.zarrs_kept_chains.specs.KeptChain.{kept_header};

use std::alloc::Global;
use zarrs_c_calls::Sizes;
use zarrs_kept_chains::KeptChain;

/// The elements of the chunk that a value stands for.
///
/// They are at the front of the three buffers: offsets begin at 0 and end at the length of the
/// bytes, mask bytes are 0 and 1, and blank elements stand under absent ones. `needed` is how many
/// items each part has; where a buffer is too short, only `needed` is written, and 1 is returned.
/// Errors, the first that holds, `OutOfMemory` aside: those of `zarrs_check`; those of
/// `CodecChain::decode`.
#[unsafe(no_mangle)]
pub extern "C" fn zarrs_decode(
    alloc: Global,
    text: &[u8],
    value: &[u8],
    masks: &mut [u8],
    offsets: &mut [u64],
    bytes: &mut [u8],
    needed: &mut Sizes,
) -> u32
    // Wide: a caller's three buffers and their counts, before and after.
    ensures told { TellsElements (decoded (header_given text.now) value.now) result
        (room masks.old offsets.old bytes.old needed.old)
        (room masks.new offsets.new bytes.new needed.new) }
{
    zarrs_c_calls::zarrs_decode(alloc, text, value, masks, offsets, bytes, needed)
}

/// `zarrs_decode` of a chain that is kept, which stays. Errors: `Argument` where none is kept, and behind it
/// those of `zarrs_decode` but those of `zarrs_check`.
#[unsafe(no_mangle)]
pub extern "C" fn zarrs_chain_decode(
    alloc: Global,
    chain: &mut KeptChain,
    value: &[u8],
    masks: &mut [u8],
    offsets: &mut [u64],
    bytes: &mut [u8],
    needed: &mut Sizes,
) -> u32
    ensures chain_kept { kept_header chain.new ≡ kept_header chain.old }
    // Wide: a caller's three buffers and their counts, before and after.
    ensures told { TellsElements (decoded (kept_given chain.old) value.now) result
        (room masks.old offsets.old bytes.old needed.old)
        (room masks.new offsets.new bytes.new needed.new) }
{
    zarrs_c_calls::zarrs_chain_decode(alloc, chain, value, masks, offsets, bytes, needed)
}
