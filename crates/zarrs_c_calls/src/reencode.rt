//! The call `zarrs_reencode`.
ghost use Rattle.std.specs.Prelude.{◌≡◌};
ghost use Rattle.zarrs_c_calls.specs.Calls.{header_given, known_header, reencoded};
ghost use Rattle.zarrs_c_calls.specs.Kept.{kept_given};
ghost use Rattle.zarrs_c_calls.specs.Told.{TellsBytes};
ghost use Rattle.zarrs_kept_chains.specs.KeptChain.{kept_header};

use crate::calls::{form_given, reencode_value};
use crate::cause::{Cause, cause_code};
use crate::tell::tell_bytes;
use std::alloc::Global;
use zarrs_json::ChunkHeader;
use zarrs_kept_chains::KeptChain;

/// The value that the chain of `codecs`, a JSON list as in a header, writes for the chunk that a value
/// stands for.
///
/// It is at the front of `out`, and `needed` is how many bytes it has; where `out` is too short,
/// only `needed` is written, and 1 is returned. Errors, the first that holds, `OutOfMemory` aside:
/// those of `zarrs_check`; those of the list and of its chain's construction; those of `reencode`.
pub fn zarrs_reencode(
    alloc: Global,
    text: &[u8],
    value: &[u8],
    codecs: &[u8],
    out: &mut [u8],
    needed: &mut usize,
) -> u32
    ensures told { TellsBytes (reencoded (header_given text.now) value.now codecs.now) result
        out.old out.new needed.old needed.new }
{
    match form_given(alloc, text) {
        Ok(form) => reencode_of_header(alloc, &form, value, codecs, out, needed),
        Err(cause) => cause_code(&cause),
    }
}

/// [`zarrs_reencode`] of a chain that is kept, which stays. Errors: `Argument` where none is kept, and behind it
/// those of `zarrs_reencode` but those of `zarrs_check`.
pub fn zarrs_chain_reencode(
    alloc: Global,
    chain: &mut KeptChain,
    value: &[u8],
    codecs: &[u8],
    out: &mut [u8],
    needed: &mut usize,
) -> u32
    ensures chain_kept { kept_header chain.new ≡ kept_header chain.old }
    ensures told { TellsBytes (reencoded (kept_given chain.old) value.now codecs.now) result
        out.old out.new needed.old needed.new }
{
    let Some(kept) = chain.take(alloc) else {
        return cause_code(&Cause::Argument);
    };
    let code = reencode_of_header(alloc, kept.header(), value, codecs, out, needed);
    chain.keep(kept);
    code
}

/// The same of a header that was read.
fn reencode_of_header(
    alloc: Global,
    form: &ChunkHeader,
    value: &[u8],
    codecs: &[u8],
    out: &mut [u8],
    needed: &mut usize,
) -> u32
    ensures told { TellsBytes (reencoded (known_header form.now) value.now codecs.now) result
        out.old out.new needed.old needed.new }
{
    match reencode_value(alloc, form, value, codecs) {
        Ok(other) => tell_bytes(other.as_slice(), out, needed),
        Err(cause) => cause_code(&cause),
    }
}
