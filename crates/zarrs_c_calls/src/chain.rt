//! The calls `zarrs_chain_new`, `zarrs_chain_share` and `zarrs_chain_free`.
ghost use Rattle.std.specs.Prelude.{◌≡◌, None};
ghost use Rattle.zarrs_chunk.specs.Answer.{Answers};
ghost use Rattle.zarrs_c_calls.specs.Calls.{header_given};
ghost use Rattle.zarrs_c_calls.specs.Codes.{cause_memory};
ghost use Rattle.zarrs_c_calls.specs.Kept.{kept_given, KeepsHeader};
ghost use Rattle.zarrs_kept_chains.specs.Kept.{header_shown};
ghost use Rattle.zarrs_kept_chains.specs.KeptChain.{kept_header};

use crate::calls::form_given;
use crate::cause::{Cause, cause_code};
use std::alloc::Global;
use zarrs_kept_chains::{Kept, KeptChain};

/// The header that a text is, where it can be kept.
fn header_kept(alloc: Global, text: &[u8]) -> Result<Box<Kept>, Cause>
    ensures answer { Answers cause_memory (λ kept. header_shown kept.value) result (header_given text.now) }
{
    Ok(Kept::new(alloc, form_given(alloc, text)?)?)
}

/// Keeps the chain of a header, with the chunk that the header is of, in place of what `chain` kept, which
/// is freed. `chain` begins as `{0}`, which keeps none. Errors: those of `zarrs_check`; what was kept
/// stays then.
pub fn zarrs_chain_new(alloc: Global, text: &[u8], chain: &mut KeptChain) -> u32
    ensures told { KeepsHeader (header_given text.now) result
        (kept_header chain.old) (kept_header chain.new) }
{
    match header_kept(alloc, text) {
        Ok(kept) => {
            chain.keep(kept);
            0
        }
        Err(cause) => cause_code(&cause),
    }
}

/// Keeps in `other` the chain that `chain` keeps, in place of what `other` kept, which is freed: a chain
/// that another thread may use meanwhile. It is one chain in memory, which is let go with the last that
/// keeps it. Errors: `Argument` where `chain` keeps none; `OutOfMemory`; what `other` kept stays then.
pub fn zarrs_chain_share(alloc: Global, chain: &mut KeptChain, other: &mut KeptChain) -> u32
    ensures chain_kept { kept_header chain.new ≡ kept_header chain.old }
    ensures told { KeepsHeader (kept_given chain.old) result
        (kept_header other.old) (kept_header other.new) }
{
    let Some(kept) = chain.take(alloc) else {
        return cause_code(&Cause::Argument);
    };
    let shared = kept.share(alloc);
    chain.keep(kept);
    match shared {
        Ok(kept) => {
            other.keep(kept);
            0
        }
        Err(error) => cause_code(&Cause::from(error)),
    }
}

/// Frees what is kept: `chain` keeps none then, as at first, and may be freed again.
pub fn zarrs_chain_free(alloc: Global, chain: &mut KeptChain)
    ensures empty { kept_header chain.new ≡ None }
{
    chain.clear(alloc);
}
