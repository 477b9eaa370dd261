//! Answers written into the caller's buffers.
ghost use Rattle.std.specs.Prelude.{◌≡◌, ◌+◌, ◌≤◌, length, min, nat_le, ◌&&◌, if◌then◌else◌};
ghost use Rattle.zarrs_array_bytes.specs.Update.{with_items_at};
ghost use Rattle.zarrs_c_calls.specs.Buffers.{buffers, crossed};
ghost use Rattle.zarrs_c_calls.specs.Told.{ToldBytes, ToldName, ToldParts, kind_of, size_of};

use crate::sizes::Sizes;
use zarrs_array_bytes::ArrayBytes;
use zarrs_codec::BytesRepresentation;

/// All is done.
pub(crate) const DONE: u32 = 0;

/// A buffer is too short: the number of items that are needed is returned, and nothing else.
pub(crate) const SHORT: u32 = 1;

/// Writes bytes from here on.
pub(crate) fn write(out: &mut [u8], at: usize, new: &[u8])
    requires inside { at + length new.now ≤ length out.old }
    ensures written { out.new ≡ with_items_at out.old at new.now }
{
    out[at..at + new.len()].copy_from_slice(new);
}

/// Writes bytes at the front of the buffer, and to `needed` how many they are; where the buffer is
/// too short, `needed` alone.
pub(crate) fn tell_bytes(value: &[u8], out: &mut [u8], needed: &mut usize) -> u32
    ensures told { ToldBytes value.now result out.old out.new needed.new }
{
    let count = value.len();
    *needed = count;
    if out.len() < count {
        return SHORT;
    }
    write(out, 0, value);
    DONE
}

/// Writes how many bytes stand at the front of a buffer of `room` bytes, or are more than it has.
pub(crate) fn tell_count(count: usize, room: usize, needed: &mut usize) -> u32
    ensures code { result ≡ (if nat_le count room then 0 else 1) }
    ensures needed { needed.new ≡ count }
{
    *needed = count;
    if room < count { SHORT } else { DONE }
}

/// The same of the bytes of elements of one size, which have no masks and no offsets.
pub(crate) fn tell_sized(count: usize, room: usize, needed: &mut Sizes) -> u32
    ensures code { result ≡ (if nat_le count room then 0 else 1) }
    ensures needed { needed.new ≡ record { masks = 0; offsets = 0; bytes = count } }
{
    *needed = Sizes {
        masks: 0,
        offsets: 0,
        bytes: count,
    };
    if room < count { SHORT } else { DONE }
}

/// Writes a name at the front of the buffer, and behind it a zero, where there is room for one, and
/// to `needed` how many bytes the name has; where the buffer is too short for the name, `needed`
/// alone.
pub(crate) fn tell_name(name: &[u8], out: &mut [u8], needed: &mut usize) -> u32
    ensures told { ToldName name.now result out.old out.new needed.new }
{
    let code = tell_bytes(name, out, needed);
    if name.len() < out.len() {
        write(out, name.len(), &[0]);
    }
    code
}

/// Writes numbers in front of the buffer.
fn write_numbers(out: &mut [u64], numbers: &[u64])
    requires inside { length numbers.now ≤ length out.old }
    ensures written { out.new ≡ with_items_at out.old 0 numbers.now }
{
    out[..numbers.len()].copy_from_slice(numbers);
}

/// Writes numbers at the front of the buffer, and to `needed` how many they are; where the buffer
/// is too short, `needed` alone.
pub(crate) fn tell_numbers(numbers: &[u64], out: &mut [u64], needed: &mut usize) -> u32
    ensures told { ToldBytes numbers.now result out.old out.new needed.new }
{
    let count = numbers.len();
    *needed = count;
    if out.len() < count {
        return SHORT;
    }
    write_numbers(out, numbers);
    DONE
}

/// Writes how many bytes a value has.
pub(crate) fn tell_representation(
    representation: BytesRepresentation,
    kind: &mut u32,
    size: &mut u64,
)
    ensures kind { kind.new ≡ kind_of representation }
    ensures size { size.new ≡ size_of representation }
{
    match representation {
        BytesRepresentation::FixedSize(count) => {
            *kind = 0;
            *size = count;
        }
        BytesRepresentation::BoundedSize(count) => {
            *kind = 1;
            *size = count;
        }
        BytesRepresentation::UnboundedSize => {
            *kind = 2;
            *size = 0;
        }
    }
}

/// How many mask bytes a container has, those of all its masks.
#[tactic(auto, using(crate::proofs::CrossedLemmas::crossed_masked, crate::proofs::CrossedLemmas::crossed_unmasked))]
pub(crate) fn mask_count(elements: &ArrayBytes<'_>) -> usize
    ensures value { result ≡ min (length (crossed elements.now).masks) usize.MAX }
{
    match elements.as_optional() {
        Ok((inner, mask)) => mask.len().saturating_add(mask_count(inner)),
        Err(_) => 0,
    }
}

/// The bytes of a container's elements, under all masks.
#[tactic(auto, using(crate::proofs::CrossedLemmas::crossed_masked, crate::proofs::CrossedLemmas::crossed_variable, crate::proofs::CrossedLemmas::crossed_fixed, crate::proofs::CrossedLemmas::crossed_some))]
pub(crate) fn inner_bytes<'b>(elements: &'b ArrayBytes<'_>) -> &'b [u8]
    ensures value { result.now ≡ (crossed elements.now).bytes }
{
    if let Ok((inner, _)) = elements.as_optional() {
        return inner_bytes(inner);
    }
    if let Ok((bytes, _)) = elements.as_variable() {
        return bytes;
    }
    match elements.as_fixed() {
        Ok(bytes) => bytes,
        Err(_) => &[],
    }
}

/// Their offsets; none of elements of one size.
#[tactic(auto, using(crate::proofs::CrossedLemmas::crossed_masked, crate::proofs::CrossedLemmas::crossed_variable, crate::proofs::CrossedLemmas::crossed_unvaried))]
pub(crate) fn inner_offsets<'b>(elements: &'b ArrayBytes<'_>) -> &'b [usize]
    ensures value { result.now ≡ (crossed elements.now).offsets }
{
    if let Ok((inner, _)) = elements.as_optional() {
        return inner_offsets(inner);
    }
    match elements.as_variable() {
        Ok((_, offsets)) => offsets.as_slice(),
        Err(_) => &[],
    }
}

/// Writes the masks from here on, the outermost first.
pub(crate) fn write_masks(elements: &ArrayBytes<'_>, out: &mut [u8], at: usize)
    requires inside { at + length (crossed elements.now).masks ≤ length out.old }
    ensures written { out.new ≡ with_items_at out.old at (crossed elements.now).masks }
{
    if let Ok((inner, mask)) = elements.as_optional() {
        write(out, at, mask);
        write_masks(inner, out, at + mask.len());
    }
}

pub(crate) fn write_offsets(starts: &[usize], out: &mut [u64])
    requires inside { length starts.now ≤ length out.old }
    ensures written { out.new ≡ with_items_at out.old 0 starts.now }
{
    for (place, start) in starts.iter().enumerate() {
        out[place] = *start as u64;
    }
}

/// Whether so many items fit into buffers of so many.
pub(crate) fn fit(sizes: &Sizes, masks: usize, offsets: usize, bytes: usize) -> bool
    ensures value { result ≡ (nat_le sizes.now.masks masks && nat_le sizes.now.offsets offsets
        && nat_le sizes.now.bytes bytes) }
{
    sizes.masks <= masks && sizes.offsets <= offsets && sizes.bytes <= bytes
}

/// Writes a container into the caller's buffers, each part at the front of its own, and to `needed`
/// how many items there are of each; where a buffer is too short, `needed` alone.
pub(crate) fn tell(
    elements: &ArrayBytes<'_>,
    masks: &mut [u8],
    offsets: &mut [u64],
    bytes: &mut [u8],
    needed: &mut Sizes,
) -> u32
    // Wide: a caller's three buffers, before and after.
    ensures told { ToldParts (crossed elements.now) result
        (buffers masks.old offsets.old bytes.old)
        (buffers masks.new offsets.new bytes.new) needed.new }
{
    let starts = inner_offsets(elements);
    let raw = inner_bytes(elements);
    *needed = Sizes {
        masks: mask_count(elements),
        offsets: starts.len(),
        bytes: raw.len(),
    };
    if !fit(needed, masks.len(), offsets.len(), bytes.len()) {
        return SHORT;
    }
    write_masks(elements, masks, 0);
    write_offsets(starts, offsets);
    write(bytes, 0, raw);
    DONE
}
