//! The call `zarrs_edit`.
ghost use Rattle.std.specs.Prelude.{◌≡◌};
ghost use Rattle.zarrs_c_calls.specs.Calls.{header_given, known_header};
ghost use Rattle.zarrs_c_calls.specs.Kept.{kept_given};
ghost use Rattle.zarrs_c_calls.specs.Edits.{TellsEdits};
ghost use Rattle.zarrs_kept_chains.specs.KeptChain.{kept_header};

use crate::calls::form_given;
use crate::cause::{Cause, cause_code};
use crate::edits::{Edits, edit};
use crate::sizes::EditSize;
use std::alloc::Global;
use zarrs_json::ChunkHeader;
use zarrs_kept_chains::KeptChain;

/// Writes new elements into the caller's own value, where the chain writes them in place: where all of its
/// codecs write a part of a value, as array-to-array codecs and `bytes` do. The edits are made one after
/// another, each as `zarrs_write` makes it, and the bytes of their places alone are written.
///
/// Each edit takes numbers and bytes, as many of each as `sizes` says, from the front of those that
/// the edits before it left: the numbers are its selection, as in `zarrs_read`, and the bytes are
/// its new elements. `done` is how many edits were made: where one fails, those before it stay, and
/// it and those behind it leave the value as it is. Errors, the first that holds, `OutOfMemory`
/// aside: those of `zarrs_check`; `Argument` where the edits don't take just all numbers and bytes;
/// `NotInPlace` where the chain doesn't write in place, or the value has fewer bytes than the
/// chunk's; those of each edit in turn, as of `zarrs_write`.
pub fn zarrs_edit(
    alloc: Global,
    text: &[u8],
    value: &mut [u8],
    sizes: &[EditSize],
    numbers: &[u64],
    bytes: &[u8],
    done: &mut usize,
) -> u32
    ensures told { TellsEdits (header_given text.now) sizes.now numbers.now bytes.now
        value.old value.new result done.new }
{
    match form_given(alloc, text) {
        Ok(form) => edit_of_header(alloc, &form, value, sizes, numbers, bytes, done),
        Err(cause) => {
            *done = 0;
            cause_code(&cause)
        }
    }
}

/// [`zarrs_edit`] of a chain that is kept, which stays. Errors: `Argument` where none is kept, and behind it
/// those of `zarrs_edit` but those of `zarrs_check`.
pub fn zarrs_chain_edit(
    alloc: Global,
    chain: &mut KeptChain,
    value: &mut [u8],
    sizes: &[EditSize],
    numbers: &[u64],
    bytes: &[u8],
    done: &mut usize,
) -> u32
    ensures chain_kept { kept_header chain.new ≡ kept_header chain.old }
    ensures told { TellsEdits (kept_given chain.old) sizes.now numbers.now bytes.now
        value.old value.new result done.new }
{
    let Some(kept) = chain.take(alloc) else {
        *done = 0;
        return cause_code(&Cause::Argument);
    };
    let code = edit_of_header(alloc, kept.header(), value, sizes, numbers, bytes, done);
    chain.keep(kept);
    code
}

/// The same of a header that was read.
fn edit_of_header(
    alloc: Global,
    form: &ChunkHeader,
    value: &mut [u8],
    sizes: &[EditSize],
    numbers: &[u64],
    bytes: &[u8],
    done: &mut usize,
) -> u32
    ensures told { TellsEdits (known_header form.now) sizes.now numbers.now bytes.now
        value.old value.new result done.new }
{
    let edits = Edits {
        sizes,
        numbers,
        bytes,
    };
    let outcome = edit(alloc, form, value, &edits);
    *done = outcome.done;
    match outcome.refusal {
        None => 0,
        Some(cause) => cause_code(&cause),
    }
}
