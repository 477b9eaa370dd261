//! Components of one byte each, of which one bit is kept, or two or four: a block of them at a time.
ghost use Rattle.std.specs.Prelude.{◌≡◌, ◌+◌, ◌-◌, ◌*◌, ◌%◌, ◌<◌, ◌≤◌, false, All, length, take};
ghost use Rattle.zarrs_chunk.specs.Runs.{joined_runs};
ghost use Rattle.zarrs_packbits.specs.Bits.{bits_of};
ghost use Rattle.zarrs_packbits.specs.BitStream.{components_in};
ghost use Rattle.zarrs_packbits.specs.BlockBits.{block_len};
ghost use Rattle.zarrs_packbits.specs.KeptBits.{sign_weight};
ghost use Rattle.zarrs_packbits.specs.PackedLayout.{IsOneTwoOrFour, IsPackedLayout, element_bits_len, is_whole};
ghost use Rattle.zarrs_packbits.specs.PartialRead.{run_end, run_start};
ghost use Rattle.zarrs_packbits.specs.ReadPlan.{run_bits, runs_len};

use crate::blocks::{bit_block, half_block, lift_byte, quarter_block};
use crate::layout::PackedLayout;
use crate::words::weight_of_sign;

/// So many bytes from the first one on, and any others behind them: a whole block is read at once
/// where there is one.
#[inline(always)]
fn take_block<const N: usize>(bytes: &[u8], used: usize) -> [u8; N]
    requires within { used ≤ length bytes.now }
    requires room { used ≤ N }
    ensures front { take used result ≡ take used bytes.now }
{
    let mut taken = [0u8; N];
    if N <= bytes.len() {
        taken.copy_from_slice(&bytes[..N]);
    } else {
        taken[..used].copy_from_slice(&bytes[..used]);
    }
    taken
}

/// Writes the first bytes of a block, as many as there is room for: a whole block by a move of constant
/// length.
#[inline(always)]
fn put_front<const N: usize>(out: &mut [u8], block: &[u8; N])
    requires within { length out.old ≤ N }
    ensures front { out.new ≡ take (length out.old) block.now }
{
    let parts = out.len();
    if parts == N {
        out.copy_from_slice(block);
    } else {
        out.copy_from_slice(&block[..parts]);
    }
}

/// Writes as many components of one byte as there is room for, a block of them or fewer, whose kept
/// bits, one, two or four each, stand in the bytes from the first one on.
#[inline(always)]
fn put_block(out: &mut [u8], layout: PackedLayout, bytes: &[u8], count: u64, weight: u8)
    requires count { layout.count ≡ count }
    requires kept { IsOneTwoOrFour count }
    requires size { layout.first + layout.count + layout.above ≡ 8 }
    requires weight { weight ≡ sign_weight layout.sign count }
    requires few { length out.old * count ≤ 8 * block_len count }
    requires inside { length out.old * count ≤ 8 * length bytes.now }
    ensures written { bits_of out.new ≡ components_in layout 0 (length out.old) bytes.now }
{
    let first = layout.first;
    let used = (out.len() * count as usize + 7) / 8;
    match count {
        1 => {
            let block = bit_block(&take_block(bytes, used), first, weight);
            put_front(out, &block);
        }
        2 => {
            let block = quarter_block(&take_block(bytes, used), first, weight);
            put_front(out, &block);
        }
        _ => {
            let block = half_block(&take_block(bytes, used), first, weight);
            put_front(out, &block);
        }
    }
}

/// Writes as many components of one byte as there is room for, a block of `room` of them at a time, out
/// of `len` bytes. Their kept bits, one, two or four each, stand in the bytes from the first one on.
#[inline(always)]
fn put_blocks(
    out: &mut [u8],
    layout: PackedLayout,
    bytes: &[u8],
    count: u64,
    room: usize,
    len: usize,
)
    requires count { layout.count ≡ count }
    requires kept { IsOneTwoOrFour count }
    requires some { 0 < room }
    requires room { room * count ≡ 8 * len }
    requires len { len ≡ block_len count }
    requires size { layout.first + layout.count + layout.above ≡ 8 }
    requires inside { length out.old * count ≤ 8 * length bytes.now }
    ensures written { bits_of out.new ≡ components_in layout 0 (length out.old) bytes.now }
{
    let weight = weight_of_sign(count, layout.sign) as u8;
    let whole = out.len() / room;
    for block in 0..whole {
        let at = room * block;
        put_block(
            &mut out[at..at + room],
            layout,
            &bytes[len * block..],
            count,
            weight,
        );
    }
    let done = room * whole;
    if done < out.len() {
        put_block(
            &mut out[done..],
            layout,
            &bytes[len * whole..],
            count,
            weight,
        );
    }
}

/// Writes as many components of one byte as there is room for, whose kept bits stand in the first byte
/// behind those of `skip` others.
#[inline(always)]
fn put_head(out: &mut [u8], layout: PackedLayout, bytes: &[u8], skip: u64, count: u64)
    requires count { layout.count ≡ count }
    requires kept { IsOneTwoOrFour count }
    requires size { layout.first + layout.count + layout.above ≡ 8 }
    requires some { 0 < length bytes.now }
    requires inside { (skip + length out.old) * count ≤ 8 }
    ensures written { bits_of out.new ≡ components_in layout (skip * count) (length out.old) bytes.now }
{
    let weight = weight_of_sign(count, layout.sign) as u8;
    let mask = (1u8 << count) - 1;
    for part in 0..out.len() {
        let kept = (bytes[0] >> ((skip + part as u64) * count)) & mask;
        out[part] = lift_byte(kept, layout.first, weight);
    }
}

/// Writes as many components of one byte as there is room for, whose kept bits, one, two or four each,
/// stand in the bytes behind those of `skip` others in the first byte: one by one up to its end, and
/// then by blocks.
#[inline(always)]
fn put_behind(
    out: &mut [u8],
    layout: PackedLayout,
    bytes: &[u8],
    skip: u64,
    count: u64,
    room: usize,
    len: usize,
)
    requires count { layout.count ≡ count }
    requires kept { IsOneTwoOrFour count }
    requires some { 0 < room }
    requires room { room * count ≡ 8 * len }
    requires len { len ≡ block_len count }
    requires size { layout.first + layout.count + layout.above ≡ 8 }
    requires bit { skip * count < 8 }
    requires filled { 0 < length bytes.now }
    requires inside { (skip + length out.old) * count ≤ 8 * length bytes.now }
    ensures written { bits_of out.new ≡ components_in layout (skip * count) (length out.old) bytes.now }
{
    if skip == 0 {
        put_blocks(out, layout, bytes, count, room, len);
        return;
    }
    let head = (8 / count - skip) as usize;
    if out.len() <= head {
        put_head(out, layout, bytes, skip, count);
        return;
    }
    put_head(&mut out[..head], layout, bytes, skip, count);
    put_blocks(&mut out[head..], layout, &bytes[1..], count, room, len);
}

/// Of a run of places: how many components its first byte has before it, how many components it has,
/// and how many bytes hold bits of it.
#[inline(always)]
fn place_run(layout: PackedLayout, start: u64, places: u64, count: u64) -> (u64, u64, usize)
    requires layout { IsPackedLayout layout }
    requires in_part { is_whole layout ≡ false }
    requires count { layout.count ≡ count }
    requires kept { IsOneTwoOrFour count }
    requires some { 0 < places }
    requires within { start + places ≤ layout.elements }
    ensures begin { result.0 * count ≡ start * element_bits_len layout % 8 }
    ensures parts { result.1 ≡ places * layout.group }
    ensures len { result.2 ≡ run_end layout (start, places) - run_start layout (start, places) }
    ensures below { result.0 * count < 8 }
    ensures filled { 0 < result.2 }
    ensures inside { (result.0 + result.1) * count ≤ 8 * result.2 }
{
    let begin = start * (layout.group * count);
    let parts = places * layout.group;
    let end = begin + parts * count;
    let used = end.div_ceil(8) - begin / 8;
    (begin % 8 / count, parts, used as usize)
}

/// Writes the components of the elements of the runs, of the runs' bytes joined.
#[inline(always)]
fn put_each(
    out: &mut [u8],
    layout: PackedLayout,
    bytes: &[u8],
    runs: &[(u64, u64)],
    count: u64,
    room: usize,
    len: usize,
)
    requires layout { IsPackedLayout layout }
    requires in_part { is_whole layout ≡ false }
    requires count { layout.count ≡ count }
    requires kept { IsOneTwoOrFour count }
    requires some { 0 < room }
    requires room { room * count ≡ 8 * len }
    requires len { len ≡ block_len count }
    requires size { layout.first + layout.count + layout.above ≡ 8 }
    requires filled { All (λ run. 0 < run.1) runs.now }
    requires below { All (λ run. run.0 + run.1 ≤ layout.elements) runs.now }
    requires sum { length bytes.now ≡ runs_len layout runs.now }
    requires places { length out.old ≡ length (joined_runs runs.now) * layout.group }
    ensures written { bits_of out.new ≡ run_bits layout bytes.now runs.now }
{
    let mut at = 0;
    let mut done = 0;
    for (start, places) in runs {
        let (skip, parts, used) = place_run(layout, *start, *places, count);
        let next = done + parts as usize;
        put_behind(
            &mut out[done..next],
            layout,
            &bytes[at..],
            skip,
            count,
            room,
            len,
        );
        at += used;
        done = next;
    }
}

/// Writes the components of one byte of the elements of the runs, of the runs' bytes joined.
pub(crate) fn put_spread_runs(
    out: &mut [u8],
    layout: &PackedLayout,
    bytes: &[u8],
    runs: &[(u64, u64)],
)
    requires layout { IsPackedLayout layout.now }
    requires in_part { is_whole layout.now ≡ false }
    requires size { layout.now.first + layout.now.count + layout.now.above ≡ 8 }
    requires count { IsOneTwoOrFour layout.now.count }
    requires filled { All (λ run. 0 < run.1) runs.now }
    requires below { All (λ run. run.0 + run.1 ≤ layout.now.elements) runs.now }
    requires sum { length bytes.now ≡ runs_len layout.now runs.now }
    requires places { length out.old ≡ length (joined_runs runs.now) * layout.now.group }
    ensures written { bits_of out.new ≡ run_bits layout.now bytes.now runs.now }
{
    match layout.count {
        1 => put_each(out, *layout, bytes, runs, 1, 64, 8),
        2 => put_each(out, *layout, bytes, runs, 2, 64, 16),
        _ => put_each(out, *layout, bytes, runs, 4, 128, 64),
    }
}

/// Writes as many components of one byte as there is room for, whose kept bits, one, two or four each,
/// stand in the bytes from the first one on.
pub(crate) fn put_spread(out: &mut [u8], layout: &PackedLayout, bytes: &[u8])
    requires size { layout.now.first + layout.now.count + layout.now.above ≡ 8 }
    requires count { IsOneTwoOrFour layout.now.count }
    requires inside { length out.old * layout.now.count ≤ 8 * length bytes.now }
    ensures written { bits_of out.new ≡ components_in layout.now 0 (length out.old) bytes.now }
{
    match layout.count {
        1 => put_blocks(out, *layout, bytes, 1, 64, 8),
        2 => put_blocks(out, *layout, bytes, 2, 64, 16),
        _ => put_blocks(out, *layout, bytes, 4, 128, 64),
    }
}
