//! The call `zarrs_reencode`.
ghost use Rattle.std.specs.Prelude.{◌≡◌};
ghost use Rattle.zarrs_c_calls.specs.Calls.{header_given, reencoded};
ghost use Rattle.zarrs_c_calls.specs.Kept.{kept_given};
ghost use Rattle.zarrs_c_calls.specs.Told.{TellsBytes};
ghost use Rattle.zarrs_kept_chains.specs.KeptChain.{kept_header};

use std::alloc::Global;
use zarrs_kept_chains::KeptChain;

/// The value that the chain of `codecs`, a JSON list as in a header, writes for the chunk that a value
/// stands for.
///
/// It is at the front of `out`, and `needed` is how many bytes it has; where `out` is too short,
/// only `needed` is written, and 1 is returned. Errors, the first that holds, `OutOfMemory` aside:
/// those of `zarrs_check`; those of the list and of its chain's construction; those of `reencode`.
#[unsafe(no_mangle)]
pub extern "C" fn zarrs_reencode(
    alloc: Global,
    text: &[u8],
    value: &[u8],
    codecs: &[u8],
    out: &mut [u8],
    needed: &mut usize,
) -> u32
    ensures told { TellsBytes (reencoded (header_given text.now) value.now codecs.now) result
        out.old out.new needed.old needed.new }
{
    zarrs_c_calls::zarrs_reencode(alloc, text, value, codecs, out, needed)
}

/// `zarrs_reencode` of a chain that is kept, which stays. Errors: `Argument` where none is kept, and behind it
/// those of `zarrs_reencode` but those of `zarrs_check`.
#[unsafe(no_mangle)]
pub extern "C" fn zarrs_chain_reencode(
    alloc: Global,
    chain: &mut KeptChain,
    value: &[u8],
    codecs: &[u8],
    out: &mut [u8],
    needed: &mut usize,
) -> u32
    ensures chain_kept { kept_header chain.new ≡ kept_header chain.old }
    ensures told { TellsBytes (reencoded (kept_given chain.old) value.now codecs.now) result
        out.old out.new needed.old needed.new }
{
    zarrs_c_calls::zarrs_chain_reencode(alloc, chain, value, codecs, out, needed)
}
