//! The call `zarrs_decode`.
ghost use Rattle.std.specs.Prelude.{◌≡◌, ◌<◌, Some};
ghost use Rattle.zarrs_c_calls.specs.Buffers.{room};
ghost use Rattle.zarrs_c_calls.specs.Calls.{decoded, header_given, known_header, value_decoded};
ghost use Rattle.zarrs_c_calls.specs.Kept.{kept_given};
ghost use Rattle.zarrs_c_calls.specs.Told.{TellsElements, TellsSized};
ghost use Rattle.zarrs_data_type.specs.ElementType.{fixed_size_of};
ghost use Rattle.zarrs_json.specs.HeaderRead.{header_seen};
ghost use Rattle.zarrs_kept_chains.specs.KeptChain.{kept_header};

use crate::calls::{decode, decode_front, form_given};
use crate::cause::{Cause, cause_code};
use crate::sizes::Sizes;
use crate::tell::{tell, tell_sized};
use std::alloc::Global;
use zarrs_json::ChunkHeader;
use zarrs_kept_chains::KeptChain;

/// The elements of the chunk that a value stands for.
///
/// They are at the front of the three buffers: offsets begin at 0 and end at the length of the
/// bytes, mask bytes are 0 and 1, and blank elements stand under absent ones. `needed` is how many
/// items each part has; where a buffer is too short, only `needed` is written, and 1 is returned.
/// Errors, the first that holds, `OutOfMemory` aside: those of `zarrs_check`; those of
/// `CodecChain::decode`.
pub fn zarrs_decode(
    alloc: Global,
    text: &[u8],
    value: &[u8],
    masks: &mut [u8],
    offsets: &mut [u64],
    bytes: &mut [u8],
    needed: &mut Sizes,
) -> u32
    // Wide: a caller's three buffers and their counts, before and after.
    ensures told { TellsElements (decoded (header_given text.now) value.now) result
        (room masks.old offsets.old bytes.old needed.old)
        (room masks.new offsets.new bytes.new needed.new) }
{
    match form_given(alloc, text) {
        Ok(form) => decode_of_header(alloc, &form, value, masks, offsets, bytes, needed),
        Err(cause) => cause_code(&cause),
    }
}

/// [`zarrs_decode`] of a chain that is kept, which stays. Errors: `Argument` where none is kept, and behind it
/// those of `zarrs_decode` but those of `zarrs_check`.
pub fn zarrs_chain_decode(
    alloc: Global,
    chain: &mut KeptChain,
    value: &[u8],
    masks: &mut [u8],
    offsets: &mut [u64],
    bytes: &mut [u8],
    needed: &mut Sizes,
) -> u32
    ensures chain_kept { kept_header chain.new ≡ kept_header chain.old }
    // Wide: a caller's three buffers and their counts, before and after.
    ensures told { TellsElements (decoded (kept_given chain.old) value.now) result
        (room masks.old offsets.old bytes.old needed.old)
        (room masks.new offsets.new bytes.new needed.new) }
{
    let Some(kept) = chain.take(alloc) else {
        return cause_code(&Cause::Argument);
    };
    let code = decode_of_header(alloc, kept.header(), value, masks, offsets, bytes, needed);
    chain.keep(kept);
    code
}

/// The same of a header that was read.
fn decode_of_header(
    alloc: Global,
    form: &ChunkHeader,
    value: &[u8],
    masks: &mut [u8],
    offsets: &mut [u64],
    bytes: &mut [u8],
    needed: &mut Sizes,
) -> u32
    // Wide: a caller's three buffers and their counts, before and after.
    ensures told { TellsElements (decoded (known_header form.now) value.now) result
        (room masks.old offsets.old bytes.old needed.old)
        (room masks.new offsets.new bytes.new needed.new) }
{
    match form.data_type.fixed_size() {
        Some(size) => decode_sized(alloc, form, value, size, bytes, needed),
        None => match decode(alloc, form, value) {
            Ok(elements) => tell(&elements, masks, offsets, bytes, needed),
            Err(cause) => cause_code(&cause),
        },
    }
}

/// The elements of a chunk that all have `size` bytes: they are moved to where they belong at once.
fn decode_sized(
    alloc: Global,
    header: &ChunkHeader,
    value: &[u8],
    size: usize,
    bytes: &mut [u8],
    needed: &mut Sizes,
) -> u32
    requires some { 0 < size }
    requires sized { fixed_size_of (header_seen header.now).data_type ≡ Some size }
    ensures told { TellsSized (value_decoded (header_seen header.now) value.now) result
        bytes.old bytes.new needed.old needed.new }
{
    match decode_front(alloc, header, value, size, bytes) {
        Ok(count) => tell_sized(count, bytes.len(), needed),
        Err(cause) => cause_code(&cause),
    }
}
