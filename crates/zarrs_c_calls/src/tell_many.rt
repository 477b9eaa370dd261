//! Several answers written into the caller's buffers, one behind another.
ghost use Rattle.std.specs.Prelude.{◌≡◌, ◌+◌, ◌≤◌, length, min};
ghost use Rattle.zarrs_array_bytes.specs.Update.{with_items_at};
ghost use Rattle.zarrs_c_calls.specs.Buffers.{buffers, crossed};
ghost use Rattle.zarrs_c_calls.specs.JoinedParts.{joined_parts, joined_sizes, ToldJoined};

use crate::sizes::Sizes;
use crate::tell::{
    DONE, SHORT, fit, inner_bytes, inner_offsets, mask_count, write, write_masks, write_offsets,
};
use zarrs_array_bytes::ArrayBytes;

/// So many items, and those of one container more.
fn with_container(sum: Sizes, part: &ArrayBytes<'_>) -> Sizes
    ensures masks { result.masks ≡ min (sum.masks + length (crossed part.now).masks) usize.MAX }
    ensures offsets { result.offsets ≡ min (sum.offsets + length (crossed part.now).offsets) usize.MAX }
    ensures bytes { result.bytes ≡ min (sum.bytes + length (crossed part.now).bytes) usize.MAX }
{
    Sizes {
        masks: sum.masks.saturating_add(mask_count(part)),
        offsets: sum.offsets.saturating_add(inner_offsets(part).len()),
        bytes: sum.bytes.saturating_add(inner_bytes(part).len()),
    }
}

/// How many items containers have of each part.
fn sizes_of(parts: &[ArrayBytes<'_>]) -> Sizes
    ensures value { result ≡ joined_sizes (joined_parts parts.now) }
{
    let mut sizes = Sizes {
        masks: 0,
        offsets: 0,
        bytes: 0,
    };
    for part in parts {
        sizes = with_container(sizes, part);
    }
    sizes
}

/// Writes offsets from here on.
fn write_offsets_at(out: &mut [u64], at: usize, starts: &[usize])
    requires inside { at + length starts.now ≤ length out.old }
    ensures written { out.new ≡ with_items_at out.old at starts.now }
{
    write_offsets(starts, &mut out[at..at + starts.len()]);
}

/// Writes containers, the parts of each behind those of the one before.
fn write_joined(parts: &[ArrayBytes<'_>], masks: &mut [u8], offsets: &mut [u64], bytes: &mut [u8])
    requires masks { length (joined_parts parts.now).masks ≤ length masks.old }
    requires offsets { length (joined_parts parts.now).offsets ≤ length offsets.old }
    requires bytes { length (joined_parts parts.now).bytes ≤ length bytes.old }
    ensures masks { masks.new ≡ with_items_at masks.old 0 (joined_parts parts.now).masks }
    ensures offsets { offsets.new ≡ with_items_at offsets.old 0 (joined_parts parts.now).offsets }
    ensures bytes { bytes.new ≡ with_items_at bytes.old 0 (joined_parts parts.now).bytes }
{
    let mut masks_at = 0;
    let mut offsets_at = 0;
    let mut bytes_at = 0;
    for part in parts {
        let starts = inner_offsets(part);
        let raw = inner_bytes(part);
        write_masks(part, masks, masks_at);
        write_offsets_at(offsets, offsets_at, starts);
        write(bytes, bytes_at, raw);
        masks_at += mask_count(part);
        offsets_at += starts.len();
        bytes_at += raw.len();
    }
}

/// Writes containers into the caller's buffers, the parts of each behind those of the one before,
/// and to `needed` how many items there are of each part; where a buffer is too short, `needed`
/// alone.
pub(crate) fn tell_many(
    parts: &[ArrayBytes<'_>],
    masks: &mut [u8],
    offsets: &mut [u64],
    bytes: &mut [u8],
    needed: &mut Sizes,
) -> u32
    // Wide: a caller's three buffers, before and after.
    ensures told { ToldJoined (joined_parts parts.now) result
        (buffers masks.old offsets.old bytes.old)
        (buffers masks.new offsets.new bytes.new) needed.new }
{
    *needed = sizes_of(parts);
    if !fit(needed, masks.len(), offsets.len(), bytes.len()) {
        return SHORT;
    }
    write_joined(parts, masks, offsets, bytes);
    DONE
}
