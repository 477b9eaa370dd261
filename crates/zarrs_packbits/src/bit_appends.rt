//! The bits of components appended to bytes and to a last word that is partly filled.
ghost use Rattle.std.specs.Prelude.{◌≡◌, ℕ, ◌+◌, ◌*◌, ◌%◌, ◌^◌, ◌<◌, ◌≤◌, ◌++◌, length, replicate, IfOk, slice_index};
ghost use Rattle.zarrs_packbits.specs.Bits.{low_bits, bits_of, bit_of};
ghost use Rattle.zarrs_packbits.specs.BlockBits.{blocks_len, stream_before};
ghost use Rattle.zarrs_packbits.specs.PackedLayout.{IsPackedLayout, ReachWords, layout_components};
ghost use Rattle.zarrs_packbits.specs.Packing.{spare_bits};
ghost use Rattle.zarrs_packbits.specs.WrittenBits.{written_bits, AppendsBits, IsPartlyFilled, LeavesBits, LeavesFirst, LeavesUpTo, LeavesParts};

use crate::blocks::append_cut;
use crate::lanes::{append_joined_lanes, append_spread_lanes};
use crate::layout::PackedLayout;
use crate::words::{append_bits, component_word, read_bits, read_within};
use std::alloc::AllocError;

/// One bit so many times, as a number.
pub(crate) fn repeat_bit(bit: bool, count: u64) -> u64
    requires some { 0 < count }
    requires count { count ≤ 64 }
    ensures bits { low_bits count result ≡ replicate count (bit_of bit) }
    ensures below { result < 2 ^ count }
{
    if bit { u64::MAX >> (64 - count) } else { 0 }
}

/// The bytes, with those of a word that is partly filled behind them.
pub(crate) fn flush_word(mut out: Vec<u8>, word: u64, filled: u32) -> Result<Vec<u8>, AllocError>
    requires room { filled < 64 }
    requires word { word < 2 ^ filled }
    ensures bits { IfOk result (λ bytes. bits_of bytes.items
        ≡ written_bits out.items word filled ++ replicate (spare_bits filled) 0) }
{
    let used = (filled as usize + 7) / 8;
    out.extend_from_slice(&word.to_le_bytes()[..used])?;
    Ok(out)
}

/// The same bytes: as an argument they are known to be below 256.
pub(crate) fn in_range(bytes: Vec<u8>) -> Vec<u8>
    ensures same { result ≡ bytes }
    ensures below { (i : ℕ) → slice_index result.items i < 256 }
{
    bytes
}

/// Appends so many components of up to 64 bits, whose kept bits stand in the bytes from bit `at` on,
/// to the bits that stand in `out` and in the first `filled` bits of `word`. The answer is the word
/// that is partly filled then, and how far.
fn append_components(
    out: &mut Vec<u8>,
    word: u64,
    filled: u32,
    layout: &PackedLayout,
    bytes: &[u8],
    at: u64,
    parts: u64,
) -> Result<(u64, u32), AllocError>
    requires begun { IsPartlyFilled word filled }
    requires some { 0 < layout.now.count }
    requires fits { layout.now.first + layout.now.count + layout.now.above ≤ 64 }
    requires inside { at + parts * layout.now.count ≤ 8 * length bytes.now }
    requires at { at + parts * layout.now.count < 2 ^ 64 }
    ensures bits { LeavesParts out.old word filled layout.now at parts bytes.now out.new result }
    ensures begun { IfOk result (λ left. IsPartlyFilled left.0 left.1) }
{
    let PackedLayout {
        first,
        count,
        above,
        sign,
        ..
    } = *layout;
    let mut last = word;
    let mut used = filled;
    for part in 0..parts {
        let kept = read_bits(bytes, at + part * count, count as u32);
        let bits = component_word(kept, first, count, above, sign);
        let (more, reached) = append_bits(out, last, used, bits, (first + count + above) as u32)?;
        last = more;
        used = reached;
    }
    Ok((last, used))
}

/// Appends so many components, whose kept bits stand in the bytes from bit `at` on: by words as far as
/// they fill words, and then one by one.
#[inline(always)]
fn append_by_lanes(
    out: &mut Vec<u8>,
    word: u64,
    filled: u32,
    layout: &PackedLayout,
    bytes: &[u8],
    at: u64,
    parts: u64,
    lanes: u64,
    width: u64,
) -> Result<(u64, u32), AllocError>
    requires begun { IsPartlyFilled word filled }
    requires some { 0 < layout.now.count }
    requires size { layout.now.first + layout.now.count + layout.now.above ≡ width }
    requires lanes { lanes * width ≡ 64 }
    requires inside { at + parts * layout.now.count ≤ 8 * length bytes.now }
    requires at { at + parts * layout.now.count < 2 ^ 64 }
    ensures bits { LeavesParts out.old word filled layout.now at parts bytes.now out.new result }
    ensures begun { IfOk result (λ left. IsPartlyFilled left.0 left.1) }
{
    let groups = parts / lanes;
    let (last, used) = append_spread_lanes(
        out, word, filled, *layout, bytes, at, groups, lanes, width,
    )?;
    let done = groups * lanes;
    let next = at + done * layout.count;
    let left = append_components(out, last, used, layout, bytes, next, parts - done)?;
    Ok(left)
}

/// Appends so many components of up to 64 bits, whose kept bits stand in the bytes from bit `at` on.
/// Those of one, two or four bytes go several in a word.
pub(crate) fn append_narrow(
    out: &mut Vec<u8>,
    word: u64,
    filled: u32,
    layout: &PackedLayout,
    bytes: &[u8],
    at: u64,
    parts: u64,
) -> Result<(u64, u32), AllocError>
    requires begun { IsPartlyFilled word filled }
    requires some { 0 < layout.now.count }
    requires fits { layout.now.first + layout.now.count + layout.now.above ≤ 64 }
    requires inside { at + parts * layout.now.count ≤ 8 * length bytes.now }
    requires at { at + parts * layout.now.count < 2 ^ 64 }
    ensures bits { LeavesParts out.old word filled layout.now at parts bytes.now out.new result }
    ensures begun { IfOk result (λ left. IsPartlyFilled left.0 left.1) }
{
    match layout.first + layout.count + layout.above {
        8 => append_by_lanes(out, word, filled, layout, bytes, at, parts, 8, 8),
        16 => append_by_lanes(out, word, filled, layout, bytes, at, parts, 4, 16),
        32 => append_by_lanes(out, word, filled, layout, bytes, at, parts, 2, 32),
        _ => append_components(out, word, filled, layout, bytes, at, parts),
    }
}

/// Appends the kept bits, up to 64 of each, of a chunk's components from one of them on.
pub(crate) fn append_kept(
    out: &mut Vec<u8>,
    word: u64,
    filled: u32,
    layout: &PackedLayout,
    bytes: &[u8],
    begin: u64,
) -> Result<(u64, u32), AllocError>
    requires begun { IsPartlyFilled word filled }
    requires layout { IsPackedLayout layout.now }
    requires last_fits { layout.now.first + layout.now.count < 2 ^ 64 }
    requires count { layout.now.count ≤ 64 }
    requires len { length bytes.now ≡ layout_components layout.now * layout.now.size }
    requires begin { begin ≤ layout_components layout.now }
    ensures bits { LeavesUpTo out.old word filled
        layout.now bytes.now begin (layout_components layout.now) out.new result }
    ensures begun { IfOk result (λ left. IsPartlyFilled left.0 left.1) }
{
    let PackedLayout {
        first,
        count,
        size,
        ..
    } = *layout;
    let mut last = word;
    let mut used = filled;
    for part in begin..layout.elements * layout.group {
        let start = (part * size) as usize;
        let kept = read_bits(&bytes[start..], first, count as u32);
        let (more, reached) = append_bits(out, last, used, kept, count as u32)?;
        last = more;
        used = reached;
    }
    Ok((last, used))
}

/// Up to which of a chunk's components the kept bits stand in eight bytes from where they begin,
/// and `begin` at least.
pub(crate) fn parts_by_words(layout: &PackedLayout, len: usize, begin: u64) -> u64
    requires layout { IsPackedLayout layout.now }
    requires count { layout.now.count ≤ 64 }
    requires begin { begin ≤ layout_components layout.now }
    ensures from { begin ≤ result }
    ensures within { result ≤ layout_components layout.now }
    ensures reach { begin < result → ReachWords layout.now result len }
    ensures fits { begin < result → layout.now.first % 8 + layout.now.count ≤ 64 }
{
    let skip = layout.first / 8;
    if layout.first % 8 + layout.count > 64 || (len as u64) < skip + 8 {
        return begin;
    }
    let reach = (len as u64 - skip - 8) / layout.size + 1;
    begin.max(reach.min(layout.elements * layout.group))
}

/// Appends the kept bits of a chunk's components from `begin` to `end`, each out of a word.
pub(crate) fn append_by_words(
    out: &mut Vec<u8>,
    word: u64,
    filled: u32,
    layout: &PackedLayout,
    bytes: &[u8],
    begin: u64,
    end: u64,
) -> Result<(u64, u32), AllocError>
    requires begun { IsPartlyFilled word filled }
    requires layout { IsPackedLayout layout.now }
    requires count { layout.now.count ≤ 64 }
    requires len { length bytes.now ≡ layout_components layout.now * layout.now.size }
    requires ordered { begin ≤ end }
    requires end { end ≤ layout_components layout.now }
    requires reach { begin < end → ReachWords layout.now end (length bytes.now) }
    requires fits { begin < end → layout.now.first % 8 + layout.now.count ≤ 64 }
    ensures bits { LeavesUpTo out.old word filled layout.now bytes.now begin end out.new result }
    ensures begun { IfOk result (λ left. IsPartlyFilled left.0 left.1) }
{
    let PackedLayout {
        first,
        count,
        size,
        ..
    } = *layout;
    let mut last = word;
    let mut used = filled;
    for part in begin..end {
        let start = (part * size + first / 8) as usize;
        let kept = read_within(bytes, start, (first % 8) as u32, count as u32);
        let (more, reached) = append_bits(out, last, used, kept, count as u32)?;
        last = more;
        used = reached;
    }
    Ok((last, used))
}

/// Those of the bits in `word` that make whole bytes go to `out`. The answer is the word that is
/// partly filled then, and how far.
fn flush_whole_bytes(out: &mut Vec<u8>, word: u64, filled: u32) -> Result<(u64, u32), AllocError>
    requires begun { IsPartlyFilled word filled }
    ensures bits { LeavesBits out.new.items result (written_bits out.old.items word filled) }
    ensures begun { IfOk result (λ left. IsPartlyFilled left.0 left.1) }
{
    if filled < 8 {
        return Ok((word, filled));
    }
    let whole = filled / 8;
    out.extend_from_slice(&word.to_le_bytes()[..whole as usize])?;
    Ok((word >> (8 * whole), filled % 8))
}

/// Appends two or four bits of each of these bytes, as many as make blocks of 64.
fn append_joined(out: &mut Vec<u8>, layout: &PackedLayout, bytes: &[u8]) -> Result<(), AllocError>
    requires size { layout.now.size ≡ 1 }
    requires within { layout.now.first + layout.now.count ≤ 8 }
    requires count { (layout.now.count ≡ 4 → ⊥) → layout.now.count ≡ 2 }
    ensures appended { AppendsBits out.old out.new result
        (stream_before layout.now (blocks_len bytes.now) bytes.now) }
{
    if layout.count == 4 {
        append_cut(out, bytes, layout.first, 4)
    } else {
        append_cut(out, bytes, layout.first, 2)
    }
}

/// Appends the kept bits of the first components of a chunk, as many as go several in a word, and
/// returns how many went.
fn append_words(
    out: &mut Vec<u8>,
    word: u64,
    filled: u32,
    layout: &PackedLayout,
    bytes: &[u8],
) -> Result<(u64, u32, u64), AllocError>
    requires begun { IsPartlyFilled word filled }
    requires layout { IsPackedLayout layout.now }
    requires len { length bytes.now ≡ layout_components layout.now * layout.now.size }
    ensures bits { LeavesFirst out.old word filled layout.now bytes.now out.new result }
    ensures begun { IfOk result (λ left. IsPartlyFilled left.0 left.1) }
    ensures within { IfOk result (λ left. left.2 ≤ layout_components layout.now) }
{
    match layout.size {
        1 => append_joined_lanes(out, word, filled, layout, bytes, 8, 8),
        2 => append_joined_lanes(out, word, filled, layout, bytes, 4, 16),
        4 => append_joined_lanes(out, word, filled, layout, bytes, 2, 32),
        _ => Ok((word, filled, 0)),
    }
}

/// Appends the kept bits of the first components of a chunk, as many as go by blocks or by words, and
/// returns how many went.
pub(crate) fn append_first(
    out: &mut Vec<u8>,
    word: u64,
    filled: u32,
    layout: &PackedLayout,
    bytes: &[u8],
) -> Result<(u64, u32, u64), AllocError>
    requires begun { IsPartlyFilled word filled }
    requires layout { IsPackedLayout layout.now }
    requires len { length bytes.now ≡ layout_components layout.now * layout.now.size }
    ensures bits { LeavesFirst out.old word filled layout.now bytes.now out.new result }
    ensures begun { IfOk result (λ left. IsPartlyFilled left.0 left.1) }
    ensures within { IfOk result (λ left. left.2 ≤ layout_components layout.now) }
{
    if layout.size != 1 || (layout.count != 4 && layout.count != 2) {
        return append_words(out, word, filled, layout, bytes);
    }
    let (last, used) = flush_whole_bytes(out, word, filled)?;
    if used != 0 {
        return Ok((last, used, 0));
    }
    append_joined(out, layout, bytes)?;
    Ok((0, 0, (64 * (bytes.len() / 64)) as u64))
}
