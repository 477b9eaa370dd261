//! Bytes of elements written at runs, in place.
ghost use Rattle.std.specs.Prelude.{◌≡◌, ◌+◌, ◌*◌, ◌≤◌, All, length};
ghost use Rattle.zarrs_chunk.specs.Runs.{joined_runs};
ghost use Rattle.zarrs_array_bytes.specs.Given.{MakesItems};
ghost use Rattle.zarrs_array_bytes.specs.Held.{items_of};
ghost use Rattle.zarrs_array_bytes.specs.Update.{with_items_at, with_runs, update, pieces_update};

use crate::array_bytes_raw::{ArrayBytesRaw, owned_bytes};
use std::alloc::Global;
use zarrs_chunk::CodecError;

/// The bytes with the elements of `size` at the runs replaced by those of `new`, in order. Owned
/// bytes are written in place.
pub(crate) fn written_elements(
    alloc: Global,
    raw: ArrayBytesRaw<'_>,
    new: &[u8],
    size: usize,
    runs: &[(u64, u64)],
) -> Result<Vec<u8>, CodecError>
    requires inside { All (λ run. (run.0 + run.1) * size ≤ length (items_of raw)) runs.now }
    requires enough { length (joined_runs runs.now) * size ≤ length new.now }
    ensures exact { MakesItems result (with_runs size (items_of raw.entry) runs.now new.now) }
{
    let mut bytes = owned_bytes(alloc, raw)?;
    write_runs(&mut bytes, new, size, runs);
    Ok(bytes)
}

/// The flags with those at the runs replaced by the new ones, in order.
pub(crate) fn written_flags(
    alloc: Global,
    raw: ArrayBytesRaw<'_>,
    new: &[u8],
    runs: &[(u64, u64)],
) -> Result<Vec<u8>, CodecError>
    requires inside { All (λ run. run.0 + run.1 ≤ length (items_of raw)) runs.now }
    requires enough { length new.now ≡ length (joined_runs runs.now) }
    ensures exact { MakesItems result (update (items_of raw.entry) (joined_runs runs.now) new.now) }
{
    written_elements(alloc, raw, new, 1, runs)
}

/// Writes elements of `size` into the bytes of `count` of them, at the places of the runs, in order.
pub(crate) fn write_places(out: &mut [u8], new: &[u8], size: usize, count: u64, runs: &[(u64, u64)])
    requires whole { length out.old ≡ count * size }
    requires inside { All (λ run. run.0 + run.1 ≤ count) runs.now }
    requires enough { length new.now ≡ length (joined_runs runs.now) * size }
    ensures written { out.new ≡ pieces_update size count out.old (joined_runs runs.now) new.now }
    ensures len { length out.new ≡ length out.old }
{
    write_runs(out, new, size, runs);
}

fn write_runs(bytes: &mut [u8], new: &[u8], size: usize, runs: &[(u64, u64)])
    requires inside { All (λ run. (run.0 + run.1) * size ≤ length bytes.old) runs.now }
    requires enough { length (joined_runs runs.now) * size ≤ length new.now }
    ensures written { bytes.new ≡ with_runs size bytes.old runs.now new.now }
    ensures len { length bytes.new ≡ length bytes.old }
{
    let mut done = 0;
    for run in runs {
        let at = run.0 as usize * size;
        let len = run.1 as usize * size;
        overwrite(bytes, at, &new[done..done + len]);
        done += len;
    }
}

/// Writes bytes from a place on. The sizes of most elements are constants here, so that each of these
/// is a single move and no call to copy.
#[inline(always)]
fn overwrite(bytes: &mut [u8], at: usize, new: &[u8])
    requires inside { at + length new.now ≤ length bytes.old }
    ensures written { bytes.new ≡ with_items_at bytes.old at new.now }
{
    match new.len() {
        1 => copy_to(bytes, at, &new[..1]),
        2 => copy_to(bytes, at, &new[..2]),
        4 => copy_to(bytes, at, &new[..4]),
        8 => copy_to(bytes, at, &new[..8]),
        _ => copy_to(bytes, at, new),
    }
}

#[inline(always)]
pub(crate) fn copy_to(bytes: &mut [u8], at: usize, new: &[u8])
    requires inside { at + length new.now ≤ length bytes.old }
    ensures written { bytes.new ≡ with_items_at bytes.old at new.now }
{
    bytes[at..at + new.len()].copy_from_slice(new);
}
