//! The call `zarrs_encode`.
ghost use Rattle.std.specs.Prelude.{◌≡◌};
ghost use Rattle.zarrs_c_calls.specs.Buffers.{buffers};
ghost use Rattle.zarrs_c_calls.specs.Calls.{encoded, header_given};
ghost use Rattle.zarrs_c_calls.specs.Kept.{kept_given};
ghost use Rattle.zarrs_c_calls.specs.Told.{TellsBytes};
ghost use Rattle.zarrs_kept_chains.specs.KeptChain.{kept_header};

use std::alloc::Global;
use zarrs_kept_chains::KeptChain;

/// The value that is written for the chunk of these elements.
///
/// It is at the front of `out`, and `needed` is how many bytes it has; where `out` is too short,
/// only `needed` is written, and 1 is returned. Errors, the first that holds, `OutOfMemory` aside:
/// those of `zarrs_check`; `Argument`, `InvalidOffsets` or `MaskValue` of the elements; those of
/// `CodecChain::encode`.
#[unsafe(no_mangle)]
pub extern "C" fn zarrs_encode(
    alloc: Global,
    text: &[u8],
    masks: &[u8],
    offsets: &[u64],
    bytes: &[u8],
    out: &mut [u8],
    needed: &mut usize,
) -> u32
    ensures told { TellsBytes (encoded (header_given text.now) (buffers masks.now offsets.now bytes.now)) result
        out.old out.new needed.old needed.new }
{
    zarrs_c_calls::zarrs_encode(alloc, text, masks, offsets, bytes, out, needed)
}

/// `zarrs_encode` of a chain that is kept, which stays. Errors: `Argument` where none is kept, and behind it
/// those of `zarrs_encode` but those of `zarrs_check`.
#[unsafe(no_mangle)]
pub extern "C" fn zarrs_chain_encode(
    alloc: Global,
    chain: &mut KeptChain,
    masks: &[u8],
    offsets: &[u64],
    bytes: &[u8],
    out: &mut [u8],
    needed: &mut usize,
) -> u32
    ensures chain_kept { kept_header chain.new ≡ kept_header chain.old }
    ensures told { TellsBytes (encoded (kept_given chain.old) (buffers masks.now offsets.now bytes.now)) result
        out.old out.new needed.old needed.new }
{
    zarrs_c_calls::zarrs_chain_encode(alloc, chain, masks, offsets, bytes, out, needed)
}
