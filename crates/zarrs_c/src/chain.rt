//! The calls `zarrs_chain_new`, `zarrs_chain_share` and `zarrs_chain_free`.
ghost use Rattle.std.specs.Prelude.{◌≡◌, None};
ghost use Rattle.zarrs_c_calls.specs.Calls.{header_given};
ghost use Rattle.zarrs_c_calls.specs.Kept.{kept_given, KeepsHeader};
ghost use Rattle.zarrs_kept_chains.specs.KeptChain.{kept_header};

use std::alloc::Global;
use zarrs_kept_chains::KeptChain;

/// Keeps the chain of a header, with the chunk that the header is of, in place of what `chain` kept, which
/// is freed. `chain` begins as `{0}`, which keeps none. Errors: those of `zarrs_check`; what was kept
/// stays then.
#[unsafe(no_mangle)]
pub extern "C" fn zarrs_chain_new(alloc: Global, text: &[u8], chain: &mut KeptChain) -> u32
    ensures told { KeepsHeader (header_given text.now) result
        (kept_header chain.old) (kept_header chain.new) }
{
    zarrs_c_calls::zarrs_chain_new(alloc, text, chain)
}

/// Keeps in `other` the chain that `chain` keeps, in place of what `other` kept, which is freed: a chain
/// that another thread may use meanwhile. It is one chain in memory, which is let go with the last that
/// keeps it. Errors: `Argument` where `chain` keeps none; `OutOfMemory`; what `other` kept stays then.
#[unsafe(no_mangle)]
pub extern "C" fn zarrs_chain_share(
    alloc: Global,
    chain: &mut KeptChain,
    other: &mut KeptChain,
) -> u32
    ensures chain_kept { kept_header chain.new ≡ kept_header chain.old }
    ensures told { KeepsHeader (kept_given chain.old) result
        (kept_header other.old) (kept_header other.new) }
{
    zarrs_c_calls::zarrs_chain_share(alloc, chain, other)
}

/// Frees what is kept: `chain` keeps none then, as at first, and may be freed again.
#[unsafe(no_mangle)]
pub extern "C" fn zarrs_chain_free(alloc: Global, chain: &mut KeptChain)
    ensures empty { kept_header chain.new ≡ None }
{
    zarrs_c_calls::zarrs_chain_free(alloc, chain)
}
