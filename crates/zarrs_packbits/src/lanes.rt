//! Components that stand side by side in a word of 64 bits, so many lanes of one width each.
ghost use Rattle.std.specs.Prelude.{◌≡◌, ◌+◌, ◌*◌, ◌^◌, ◌<◌, ◌≤◌, length, IfOk};
ghost use Rattle.std.specs.List.{flat_map, range_with_len};
ghost use Rattle.zarrs_packbits.specs.Bits.{field, low_bits};
ghost use Rattle.zarrs_packbits.specs.BitStream.{components_from};
ghost use Rattle.zarrs_packbits.specs.PackedLayout.{IsPackedLayout, layout_components};
ghost use Rattle.zarrs_packbits.specs.WrittenBits.{IsPartlyFilled, LeavesFirst, LeavesParts};

use crate::layout::PackedLayout;
use crate::words::{append_bits, component_word, lowest, read_bits, read_within};
use std::alloc::AllocError;

/// The kept bits of the components in a word, `count` of each from its bit `first` on, joined.
#[inline(always)]
fn joined_word(word: u64, first: u64, count: u64, lanes: u64, width: u64) -> u64
    requires some { 0 < count }
    requires within { first + count ≤ width }
    requires lanes { lanes * width ≡ 64 }
    ensures bits { low_bits (lanes * count) result ≡ flat_map (λ lane. field (lane * width + first)
        count (low_bits 64 word)) (range_with_len 0 lanes) }
    ensures below { result < 2 ^ (lanes * count) }
{
    let low = word >> first;
    let mut joined = 0u64;
    for lane in 0..lanes {
        let kept = lowest(low >> (lane * width), count as u32);
        joined |= kept << (lane * count);
    }
    joined
}

/// The components whose kept bits stand one behind another in a number. They are put in their lanes
/// without what stands below the kept bits, and then moved there all at once.
#[inline(always)]
fn spread_word(kept: u64, layout: PackedLayout, lanes: u64, width: u64) -> u64
    requires some { 0 < layout.count }
    requires size { layout.first + layout.count + layout.above ≡ width }
    requires lanes { lanes * width ≡ 64 }
    ensures bits { low_bits 64 result
        ≡ components_from layout 0 lanes (low_bits (lanes * layout.count) kept) }
{
    let mut word = 0u64;
    for lane in 0..lanes {
        let part = lowest(kept >> (lane * layout.count), layout.count as u32);
        let component = component_word(part, 0, layout.count, layout.above, layout.sign);
        word |= component << (lane * width);
    }
    word << layout.first
}

/// Appends the kept bits of the first components of a chunk, as many as fill words, and returns how
/// many those are.
#[inline(always)]
pub(crate) fn append_joined_lanes(
    out: &mut Vec<u8>,
    word: u64,
    filled: u32,
    layout: &PackedLayout,
    bytes: &[u8],
    lanes: u64,
    width: u64,
) -> Result<(u64, u32, u64), AllocError>
    requires begun { IsPartlyFilled word filled }
    requires layout { IsPackedLayout layout.now }
    requires len { length bytes.now ≡ layout_components layout.now * layout.now.size }
    requires size { 8 * layout.now.size ≡ width }
    requires lanes { lanes * width ≡ 64 }
    ensures bits { LeavesFirst out.old word filled layout.now bytes.now out.new result }
    ensures begun { IfOk result (λ left. IsPartlyFilled left.0 left.1) }
    ensures within { IfOk result (λ left. left.2 ≤ layout_components layout.now) }
{
    let PackedLayout { first, count, .. } = *layout;
    let groups = layout.elements * layout.group / lanes;
    let mut last = word;
    let mut used = filled;
    for group in 0..groups {
        let taken = read_within(bytes, 8 * group as usize, 0, 64);
        let kept = joined_word(taken, first, count, lanes, width);
        let (more, reached) = append_bits(out, last, used, kept, (lanes * count) as u32)?;
        last = more;
        used = reached;
    }
    Ok((last, used, groups * lanes))
}

/// Appends the components of so many words, whose kept bits stand in the bytes from bit `at` on.
#[inline(always)]
pub(crate) fn append_spread_lanes(
    out: &mut Vec<u8>,
    word: u64,
    filled: u32,
    layout: PackedLayout,
    bytes: &[u8],
    at: u64,
    groups: u64,
    lanes: u64,
    width: u64,
) -> Result<(u64, u32), AllocError>
    requires begun { IsPartlyFilled word filled }
    requires some { 0 < layout.count }
    requires size { layout.first + layout.count + layout.above ≡ width }
    requires lanes { lanes * width ≡ 64 }
    requires inside { at + groups * (lanes * layout.count) ≤ 8 * length bytes.now }
    requires at { at + groups * (lanes * layout.count) < 2 ^ 64 }
    ensures bits { LeavesParts
        out.old word filled layout at (groups * lanes) bytes.now out.new result }
    ensures begun { IfOk result (λ left. IsPartlyFilled left.0 left.1) }
{
    let taken = lanes * layout.count;
    let mut last = word;
    let mut used = filled;
    for group in 0..groups {
        let kept = read_bits(bytes, at + group * taken, taken as u32);
        let components = spread_word(kept, layout, lanes, width);
        let (more, reached) = append_bits(out, last, used, components, 64)?;
        last = more;
        used = reached;
    }
    Ok((last, used))
}
