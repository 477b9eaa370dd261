//! The call `zarrs_encode`.
ghost use Rattle.std.specs.Prelude.{◌≡◌};
ghost use Rattle.zarrs_c_calls.specs.Buffers.{buffers};
ghost use Rattle.zarrs_c_calls.specs.Calls.{encoded, header_given, known_header};
ghost use Rattle.zarrs_c_calls.specs.Kept.{kept_given};
ghost use Rattle.zarrs_c_calls.specs.Told.{TellsBytes};
ghost use Rattle.zarrs_kept_chains.specs.KeptChain.{kept_header};

use crate::calls::{encode, form_given};
use crate::cause::{Cause, cause_code};
use crate::tell::tell_count;
use std::alloc::Global;
use zarrs_json::ChunkHeader;
use zarrs_kept_chains::KeptChain;

/// The value that is written for the chunk of these elements.
///
/// It is at the front of `out`, and `needed` is how many bytes it has; where `out` is too short,
/// only `needed` is written, and 1 is returned. Errors, the first that holds, `OutOfMemory` aside:
/// those of `zarrs_check`; `Argument`, `InvalidOffsets` or `MaskValue` of the elements; those of
/// `CodecChain::encode`.
pub fn zarrs_encode(
    alloc: Global,
    text: &[u8],
    masks: &[u8],
    offsets: &[u64],
    bytes: &[u8],
    out: &mut [u8],
    needed: &mut usize,
) -> u32
    ensures told { TellsBytes (encoded (header_given text.now) (buffers masks.now offsets.now bytes.now)) result
        out.old out.new needed.old needed.new }
{
    match form_given(alloc, text) {
        Ok(form) => encode_of_header(alloc, &form, masks, offsets, bytes, out, needed),
        Err(cause) => cause_code(&cause),
    }
}

/// [`zarrs_encode`] of a chain that is kept, which stays. Errors: `Argument` where none is kept, and behind it
/// those of `zarrs_encode` but those of `zarrs_check`.
pub fn zarrs_chain_encode(
    alloc: Global,
    chain: &mut KeptChain,
    masks: &[u8],
    offsets: &[u64],
    bytes: &[u8],
    out: &mut [u8],
    needed: &mut usize,
) -> u32
    ensures chain_kept { kept_header chain.new ≡ kept_header chain.old }
    ensures told { TellsBytes (encoded (kept_given chain.old) (buffers masks.now offsets.now bytes.now)) result
        out.old out.new needed.old needed.new }
{
    let Some(kept) = chain.take(alloc) else {
        return cause_code(&Cause::Argument);
    };
    let code = encode_of_header(alloc, kept.header(), masks, offsets, bytes, out, needed);
    chain.keep(kept);
    code
}

/// The same of a header that was read.
fn encode_of_header(
    alloc: Global,
    form: &ChunkHeader,
    masks: &[u8],
    offsets: &[u64],
    bytes: &[u8],
    out: &mut [u8],
    needed: &mut usize,
) -> u32
    ensures told { TellsBytes (encoded (known_header form.now) (buffers masks.now offsets.now bytes.now)) result
        out.old out.new needed.old needed.new }
{
    match encode(alloc, form, masks, offsets, bytes, out) {
        Ok(count) => tell_count(count, out.len(), needed),
        Err(cause) => cause_code(&cause),
    }
}
