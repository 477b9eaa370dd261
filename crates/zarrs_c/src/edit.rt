//! The call `zarrs_edit`.
ghost use Rattle.std.specs.Prelude.{◌≡◌};
ghost use Rattle.zarrs_c_calls.specs.Calls.{header_given};
ghost use Rattle.zarrs_c_calls.specs.Kept.{kept_given};
ghost use Rattle.zarrs_c_calls.specs.Edits.{TellsEdits};
ghost use Rattle.zarrs_kept_chains.specs.KeptChain.{kept_header};

use std::alloc::Global;
use zarrs_c_calls::EditSize;
use zarrs_kept_chains::KeptChain;

/// Writes new elements into the caller's own value, where the chain writes them in place: where all of its
/// codecs write a part of a value, as array-to-array codecs and `bytes` do. The edits are made one after
/// another, each as `zarrs_write` makes it, and the bytes of their places alone are written.
///
/// Each edit takes numbers and bytes, as many of each as `sizes` says, from the front of those that
/// the edits before it left: the numbers are its selection, as in `zarrs_read`, and the bytes are
/// its new elements. `done` is how many edits were made: where one fails, those before it stay, and
/// it and those behind it leave the value as it is. Errors, the first that holds, `OutOfMemory`
/// aside: those of `zarrs_check`; `Argument` where the edits don't take just all numbers and bytes;
/// `NotInPlace` where the chain doesn't write in place, or the value has fewer bytes than the
/// chunk's; those of each edit in turn, as of `zarrs_write`.
#[unsafe(no_mangle)]
pub extern "C" fn zarrs_edit(
    alloc: Global,
    text: &[u8],
    value: &mut [u8],
    sizes: &[EditSize],
    numbers: &[u64],
    bytes: &[u8],
    done: &mut usize,
) -> u32
    ensures told { TellsEdits (header_given text.now) sizes.now numbers.now bytes.now
        value.old value.new result done.new }
{
    zarrs_c_calls::zarrs_edit(alloc, text, value, sizes, numbers, bytes, done)
}

/// `zarrs_edit` of a chain that is kept, which stays. Errors: `Argument` where none is kept, and behind it
/// those of `zarrs_edit` but those of `zarrs_check`.
#[unsafe(no_mangle)]
pub extern "C" fn zarrs_chain_edit(
    alloc: Global,
    chain: &mut KeptChain,
    value: &mut [u8],
    sizes: &[EditSize],
    numbers: &[u64],
    bytes: &[u8],
    done: &mut usize,
) -> u32
    ensures chain_kept { kept_header chain.new ≡ kept_header chain.old }
    ensures told { TellsEdits (kept_given chain.old) sizes.now numbers.now bytes.now
        value.old value.new result done.new }
{
    zarrs_c_calls::zarrs_chain_edit(alloc, chain, value, sizes, numbers, bytes, done)
}
