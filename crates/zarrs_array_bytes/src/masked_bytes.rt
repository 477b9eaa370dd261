//! Bytes of elements of one size under a mask: extracted, and put back.
//!
//! No step asks whether an element is present: each is written where the next present one belongs, and
//! only the count decides whether it stays. Where it doesn't, the next one is written over it.
ghost use Rattle.std.specs.Prelude.{◌≡◌, ◌+◌, ◌*◌, ◌<◌, ◌≤◌, ◌^◌, IfOk, length, replicate, take, true};
ghost use Rattle.std.specs.List.{between};
ghost use Rattle.zarrs_array_bytes.specs.Given.{MakesItems};
ghost use Rattle.zarrs_array_bytes.specs.Pieces.{pieces_at};
ghost use Rattle.zarrs_array_bytes.specs.Present.{present_places, present_update, BeginsWithPresent};
ghost use Rattle.zarrs_array_bytes.specs.Update.{with_items_at};

use crate::write::copy_to;
use std::alloc::Global;
use zarrs_chunk::CodecError;

/// An element of zeros. A static has a place in memory, so that to choose between it and an element is
/// to choose where to read; between a local array and an element it would be a branch.
static BLANK: [u8; 16] = [0; 16];

/// Whether elements of so many bytes are moved one by one: each is a move or two of constant length.
pub(crate) fn is_word(size: usize) -> bool
    ensures short { result ≡ true → size ≤ 16 }
{
    match size {
        1 | 2 | 4 | 8 | 16 => true,
        _ => false,
    }
}

/// The bytes of the elements of `size` at which a mask byte isn't 0, `count` of them.
pub(crate) fn kept_elements(
    alloc: Global,
    bytes: &[u8],
    size: usize,
    mask: &[u8],
    count: usize,
) -> Result<Vec<u8>, CodecError>
    requires whole { length bytes.now ≡ length mask.now * size }
    requires counted { count ≡ length (present_places mask.now) }
    requires some { count < length mask.now }
    ensures small { IfOk result (λ v. length v.items < 2 ^ 64) }
    ensures exact { MakesItems result (pieces_at size bytes.now (present_places mask.now)) }
{
    let mut out = vec![in alloc; 0u8; (count + 1) * size]?;
    keep_elements(&mut out, bytes, size, mask);
    out.truncate(count * size);
    Ok(out)
}

/// Writes the elements at which a mask byte isn't 0, one behind another; behind them is room for one.
fn keep_elements(out: &mut [u8], bytes: &[u8], size: usize, mask: &[u8])
    requires whole { length bytes.now ≡ length mask.now * size }
    requires room { length out.old ≡ (length (present_places mask.now) + 1) * size }
    ensures kept { BeginsWithPresent size mask.now bytes.now out.new }
{
    match size {
        1 => keep_each(out, bytes, 1, mask),
        2 => keep_each(out, bytes, 2, mask),
        4 => keep_each(out, bytes, 4, mask),
        8 => keep_each(out, bytes, 8, mask),
        16 => keep_each(out, bytes, 16, mask),
        _ => keep_each(out, bytes, size, mask),
    }
}

#[inline(always)]
fn keep_each(out: &mut [u8], bytes: &[u8], size: usize, mask: &[u8])
    requires whole { length bytes.now ≡ length mask.now * size }
    requires room { length out.old ≡ (length (present_places mask.now) + 1) * size }
    ensures kept { BeginsWithPresent size mask.now bytes.now out.new }
{
    let mut kept = 0;
    for place in 0..mask.len() {
        let from = place * size;
        put_element(out, kept * size, &bytes[from..from + size]);
        if mask[place] != 0 {
            kept += 1;
        }
    }
}

/// As many elements of `size` as there are mask bytes: those of `bytes` in order where a mask byte
/// isn't 0, and zeros elsewhere.
pub(crate) fn spread_elements(
    alloc: Global,
    bytes: &[u8],
    size: usize,
    mask: &[u8],
) -> Result<Vec<u8>, CodecError>
    requires short { size ≤ 16 }
    requires fits { length mask.now * size < 2 ^ 64 }
    requires enough { length bytes.now ≡ length (present_places mask.now) * size }
    ensures exact { MakesItems result
        (present_update size mask.now (replicate (length mask.now * size) 0) bytes.now) }
{
    let mut out = vec![in alloc; 0u8; mask.len() * size]?;
    put_elements(&mut out, bytes, size, mask);
    Ok(out)
}

/// Writes the elements among zeros, where a mask byte isn't 0.
fn put_elements(out: &mut [u8], bytes: &[u8], size: usize, mask: &[u8])
    requires short { size ≤ 16 }
    requires blank { out.old ≡ replicate (length mask.now * size) 0 }
    requires enough { length bytes.now ≡ length (present_places mask.now) * size }
    ensures written { out.new ≡ present_update size mask.now out.old bytes.now }
{
    match size {
        1 => put_each(out, bytes, 1, mask),
        2 => put_each(out, bytes, 2, mask),
        4 => put_each(out, bytes, 4, mask),
        8 => put_each(out, bytes, 8, mask),
        16 => put_each(out, bytes, 16, mask),
        _ => put_each(out, bytes, size, mask),
    }
}

#[inline(always)]
fn put_each(out: &mut [u8], bytes: &[u8], size: usize, mask: &[u8])
    requires short { size ≤ 16 }
    requires blank { out.old ≡ replicate (length mask.now * size) 0 }
    requires enough { length bytes.now ≡ length (present_places mask.now) * size }
    ensures written { out.new ≡ present_update size mask.now out.old bytes.now }
{
    let mut done = 0;
    for place in 0..mask.len() {
        put_element(
            out,
            place * size,
            element_or_blank(bytes, done * size, size, mask[place], &BLANK),
        );
        if mask[place] != 0 {
            done += 1;
        }
    }
}

/// Writes an element from a place on. One of at most 16 bytes goes through an array of its own, so that
/// it is one move: of two slices it isn't known that they lie apart, and their bytes are moved singly.
#[inline(always)]
fn put_element(out: &mut [u8], at: usize, element: &[u8])
    requires inside { at + length element.now ≤ length out.old }
    ensures written { out.new ≡ with_items_at out.old at element.now }
{
    if element.len() > 16 {
        copy_to(out, at, element);
        return;
    }
    let mut word = [0u8; 16];
    word[..element.len()].copy_from_slice(element);
    copy_to(out, at, &word[..element.len()]);
}

/// The element of `size` from a byte on, or zeros where the mask byte is 0.
#[inline(always)]
fn element_or_blank<'a>(
    bytes: &'a [u8],
    from: usize,
    size: usize,
    byte: u8,
    blank: &'a [u8],
) -> &'a [u8]
    requires room { size ≤ length blank.now }
    requires inside { 0 < byte → from + size ≤ length bytes.now }
    ensures len { length result.now ≡ size }
    ensures present { 0 < byte → result.now ≡ between from (from + size) bytes.now }
    ensures absent { byte ≡ 0 → result.now ≡ take size blank.now }
{
    if byte == 0 {
        return &blank[..size];
    }
    &bytes[from..from + size]
}
