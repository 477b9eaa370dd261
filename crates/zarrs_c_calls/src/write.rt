//! The call `zarrs_write`.
ghost use Rattle.std.specs.Prelude.{◌≡◌};
ghost use Rattle.zarrs_c_calls.specs.Calls.{header_given, known_header};
ghost use Rattle.zarrs_c_calls.specs.Kept.{kept_given};
ghost use Rattle.zarrs_c_calls.specs.Buffers.{buffers};
ghost use Rattle.zarrs_c_calls.specs.Reads.{stored_value};
ghost use Rattle.zarrs_c_calls.specs.Told.{TellsBytes};
ghost use Rattle.zarrs_c_calls.specs.Writes.{part_written};
ghost use Rattle.zarrs_kept_chains.specs.KeptChain.{kept_header};

use crate::calls::form_given;
use crate::cause::{Cause, cause_code};
use crate::part_writes::{Edit, write};
use crate::written::tell_written;
use std::alloc::Global;
use zarrs_json::ChunkHeader;
use zarrs_kept_chains::KeptChain;

/// The value that is left where new elements are written at the selected places, in the selection's
/// order: the one that is written for the chunk with these elements, which begins as the chunk that
/// `value` stands for, or as fill values where nothing is stored; `value` isn't read then, and is
/// never changed.
///
/// The selection is that of `zarrs_read`, and the value is returned as by `zarrs_encode`. Errors,
/// the first that holds, `OutOfMemory` aside: those of `zarrs_check`; `Argument` or `Overflow` of
/// the selection; those of the elements, as of `zarrs_encode`; those of
/// `ArrayPartialEncoder::partial_encode`.
pub fn zarrs_write(
    alloc: Global,
    text: &[u8],
    is_stored: bool,
    value: &[u8],
    tuples: u64,
    numbers: &[u64],
    masks: &[u8],
    offsets: &[u64],
    bytes: &[u8],
    out: &mut [u8],
    needed: &mut usize,
) -> u32
    // Wide: a caller's three buffers, and the one that is written with its count, before and after.
    ensures told { TellsBytes (part_written (header_given text.now) (stored_value is_stored value.now)
        tuples numbers.now (buffers masks.now offsets.now bytes.now)) result
        out.old out.new needed.old needed.new }
{
    match form_given(alloc, text) {
        Ok(form) => write_of_header(
            alloc, &form, is_stored, value, tuples, numbers, masks, offsets, bytes, out, needed,
        ),
        Err(cause) => cause_code(&cause),
    }
}

/// [`zarrs_write`] of a chain that is kept, which stays. Errors: `Argument` where none is kept, and behind it
/// those of `zarrs_write` but those of `zarrs_check`.
pub fn zarrs_chain_write(
    alloc: Global,
    chain: &mut KeptChain,
    is_stored: bool,
    value: &[u8],
    tuples: u64,
    numbers: &[u64],
    masks: &[u8],
    offsets: &[u64],
    bytes: &[u8],
    out: &mut [u8],
    needed: &mut usize,
) -> u32
    ensures chain_kept { kept_header chain.new ≡ kept_header chain.old }
    // Wide: a caller's three buffers, and the one that is written with its count, before and after.
    ensures told { TellsBytes (part_written (kept_given chain.old) (stored_value is_stored value.now)
        tuples numbers.now (buffers masks.now offsets.now bytes.now)) result
        out.old out.new needed.old needed.new }
{
    let Some(kept) = chain.take(alloc) else {
        return cause_code(&Cause::Argument);
    };
    let code = write_of_header(
        alloc,
        kept.header(),
        is_stored,
        value,
        tuples,
        numbers,
        masks,
        offsets,
        bytes,
        out,
        needed,
    );
    chain.keep(kept);
    code
}

/// The same of a header that was read.
fn write_of_header(
    alloc: Global,
    form: &ChunkHeader,
    is_stored: bool,
    value: &[u8],
    tuples: u64,
    numbers: &[u64],
    masks: &[u8],
    offsets: &[u64],
    bytes: &[u8],
    out: &mut [u8],
    needed: &mut usize,
) -> u32
    // Wide: a caller's three buffers, and the one that is written with its count, before and after.
    ensures told { TellsBytes (part_written (known_header form.now) (stored_value is_stored value.now)
        tuples numbers.now (buffers masks.now offsets.now bytes.now)) result
        out.old out.new needed.old needed.new }
{
    let edit = Edit {
        tuples,
        numbers,
        masks,
        offsets,
        bytes,
    };
    let mut apart = Vec::new(alloc);
    match write(alloc, form, is_stored, value, &edit, out, &mut apart) {
        Ok(written) => tell_written(written, apart.as_slice(), out, needed),
        Err(cause) => cause_code(&cause),
    }
}
