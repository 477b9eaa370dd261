//! Where a part's elements stand among the bytes of a region's.
ghost use Rattle.std.specs.Prelude.{◌≡◌, ◌+◌, ◌*◌, ◌<◌, ◌≤◌, ◌^◌, IfOk, length};
ghost use Rattle.zarrs_array_bytes.specs.FixedView.{fixed_view};
ghost use Rattle.zarrs_array_bytes.specs.Update.{with_items_at};
ghost use Rattle.zarrs_chunk.specs.Answer.{Answers, memory};
ghost use Rattle.zarrs_chunk.specs.ChunkShape.{product};
ghost use Rattle.zarrs_chunk.specs.Runs.{joined_runs, places_in, EndWithin};
ghost use Rattle.zarrs_array_calls.specs.PartBytes.{part_places, runs_view};
ghost use Rattle.zarrs_array_calls.specs.Refusals.{refusal_wants};

use crate::given::{part_given, shape_given};
use crate::refusal::ArrayRefusal;
use std::alloc::Global;
use zarrs_chunk::{ArraySubset, ChunkShape, CodecError, count_places, subset_runs};

/// The runs of a box among a region's elements, of `size` bytes each.
fn box_runs(
    alloc: Global,
    region: &[u8],
    size: usize,
    shape: &ChunkShape,
    subset: &ArraySubset,
) -> Result<Vec<(u64, u64)>, CodecError>
    ensures answer { Answers memory (runs_view region.now size shape.now) result
        (fixed_view region.now size shape.now subset.now) }
    ensures whole { IfOk result (λ _. length region.now ≡ product shape.now * size) }
    ensures inside { IfOk result (λ v. EndWithin (product shape.now) v.items) }
    ensures few { IfOk result (λ v. length (joined_runs v.items) < 2 ^ 64) }
{
    if size == 0 {
        return Err(CodecError::TargetMismatch);
    }
    let runs = subset_runs(alloc, shape, subset)?;
    let count = shape.num_elements()?;
    let expected = match count.checked_mul(size as u64) {
        None => return Err(CodecError::Overflow),
        Some(expected) => expected,
    };
    let len = region.len() as u64;
    if len != expected {
        return Err(CodecError::InvalidBytesLength { len, expected });
    }
    Ok(runs)
}

/// The runs of a part's places among a region's elements, of `size` bytes each, where its own elements
/// have so many bytes.
pub(crate) fn part_runs(
    alloc: Global,
    size: usize,
    lengths: &[u64],
    part: &[u64],
    region: &[u8],
    part_bytes: usize,
) -> Result<Vec<(u64, u64)>, ArrayRefusal>
    ensures places { Answers refusal_wants places_in result
        (part_places size lengths.now part.now region.now part_bytes) }
    ensures whole { IfOk result (λ _. length region.now ≡ product lengths.now * size) }
    ensures inside { IfOk result (λ v. EndWithin (product lengths.now) v.items) }
    ensures enough { IfOk result (λ v. part_bytes ≡ length (joined_runs v.items) * size) }
{
    let shape = shape_given(alloc, lengths)?;
    let subset = part_given(alloc, lengths, part)?;
    let runs = box_runs(alloc, region, size, &shape, &subset)?;
    if part_bytes as u128 != count_places(runs.as_slice()) as u128 * size as u128 {
        return Err(ArrayRefusal::Codec(CodecError::TargetMismatch));
    }
    Ok(runs)
}

/// Writes bytes from here on. The sizes of most elements are constants here, so that each of these is a
/// single move and no call to copy.
#[inline(always)]
pub(crate) fn overwrite(bytes: &mut [u8], at: usize, new: &[u8])
    requires inside { at + length new.now ≤ length bytes.old }
    ensures written { bytes.new ≡ with_items_at bytes.old at new.now }
{
    match new.len() {
        1 => copy_to(bytes, at, &new[..1]),
        2 => copy_to(bytes, at, &new[..2]),
        4 => copy_to(bytes, at, &new[..4]),
        8 => copy_to(bytes, at, &new[..8]),
        _ => copy_to(bytes, at, new),
    }
}

#[inline(always)]
fn copy_to(bytes: &mut [u8], at: usize, new: &[u8])
    requires inside { at + length new.now ≤ length bytes.old }
    ensures written { bytes.new ≡ with_items_at bytes.old at new.now }
{
    bytes[at..at + new.len()].copy_from_slice(new);
}
