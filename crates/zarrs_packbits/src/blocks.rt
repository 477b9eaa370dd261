//! Components of one byte each, 64 of them at a time.
ghost use Rattle.std.specs.Prelude.{◌≡◌, ◌+◌, ◌/◌, ◌%◌, ◌^◌, ◌<◌, ◌≤◌, All, map};
ghost use Rattle.std.specs.List.{flat_map, range_with_len};
ghost use Rattle.zarrs_packbits.specs.Bits.{bits_of, field, low_bits};
ghost use Rattle.zarrs_packbits.specs.BlockBits.{blocks_len, fields_of, lifted_byte};
ghost use Rattle.zarrs_packbits.specs.KeptBits.{component_bits};
ghost use Rattle.zarrs_packbits.specs.WrittenBits.{AppendsBits};

use std::alloc::AllocError;

/// The bits of eight bytes, each in a byte.
#[inline(always)]
fn spread_bits(from: &[u8; 8]) -> [u8; 64]
    ensures value { result ≡ flat_map (fields_of 1 8) from.now }
{
    let mut to = [0u8; 64];
    for place in 0..64usize {
        to[place] = (from[place / 8] >> (place % 8)) & 1;
    }
    to
}

/// The halves of 64 bytes, each in a byte.
#[inline(always)]
fn spread_halves(from: &[u8; 64]) -> [u8; 128]
    ensures value { result ≡ flat_map (fields_of 4 2) from.now }
{
    let mut to = [0u8; 128];
    for place in 0..64usize {
        to[2 * place] = from[place] & 15;
        to[2 * place + 1] = from[place] >> 4;
    }
    to
}

/// The quarters of 16 bytes, each in a byte.
#[inline(always)]
fn spread_quarters(from: &[u8; 16]) -> [u8; 64]
    ensures value { result ≡ flat_map (fields_of 2 4) from.now }
{
    let mut to = [0u8; 64];
    for place in 0..16usize {
        to[4 * place] = from[place] & 3;
        to[4 * place + 1] = (from[place] >> 2) & 3;
        to[4 * place + 2] = (from[place] >> 4) & 3;
        to[4 * place + 3] = from[place] >> 6;
    }
    to
}

/// The byte whose kept bits are these, from bit `first` on.
#[inline(always)]
pub(crate) fn lift_byte(kept: u8, first: u64, weight: u8) -> u8
    requires bit { first < 8 }
    ensures value { result ≡ lifted_byte first weight kept }
{
    (kept ^ weight).wrapping_sub(weight) << first
}

/// The bytes whose kept bits are these, from bit `first` on.
#[inline(always)]
fn lift<const N: usize>(kept: &[u8; N], first: u64, weight: u8) -> [u8; N]
    requires bit { first < 8 }
    ensures value { result ≡ map (lifted_byte first weight) kept.now }
{
    let mut to = [0u8; N];
    for place in 0..N {
        to[place] = lift_byte(kept[place], first, weight);
    }
    to
}

/// The components, from bit `first` on, whose kept bits, one each, stand in eight bytes.
#[inline(always)]
pub(crate) fn bit_block(from: &[u8; 8], first: u64, weight: u8) -> [u8; 64]
    requires bit { first < 8 }
    ensures value { result ≡ map (lifted_byte first weight) (flat_map (fields_of 1 8) from.now) }
{
    lift(&spread_bits(from), first, weight)
}

/// The components, from bit `first` on, whose kept bits, four each, stand in 64 bytes.
#[inline(always)]
pub(crate) fn half_block(from: &[u8; 64], first: u64, weight: u8) -> [u8; 128]
    requires bit { first < 8 }
    ensures value { result ≡ map (lifted_byte first weight) (flat_map (fields_of 4 2) from.now) }
{
    let kept = spread_halves(from);
    // Numbers without a sign whose lowest bits are kept stand as they are.
    if first == 0 && weight == 0 {
        return kept;
    }
    lift(&kept, first, weight)
}

/// The components, from bit `first` on, whose kept bits, two each, stand in 16 bytes.
#[inline(always)]
pub(crate) fn quarter_block(from: &[u8; 16], first: u64, weight: u8) -> [u8; 64]
    requires bit { first < 8 }
    ensures value { result ≡ map (lifted_byte first weight) (flat_map (fields_of 2 4) from.now) }
{
    lift(&spread_quarters(from), first, weight)
}

/// So many bits of each of 64 bytes, each in a byte.
#[inline(always)]
fn cut(from: &[u8; 64], first: u64, count: u64) -> [u8; 64]
    requires bit { first < 8 }
    requires count { count < 8 }
    ensures value { result ≡ map (λ byte. byte / 2 ^ first % 2 ^ count) from.now }
{
    let mask = (1u8 << count) - 1;
    let mut to = [0u8; 64];
    for place in 0..64usize {
        to[place] = (from[place] >> first) & mask;
    }
    to
}

/// Numbers of four bits, two of them in a byte.
#[inline(always)]
fn join_halves(from: &[u8; 64]) -> [u8; 32]
    requires bits_fit { All (λ number. number < 2 ^ 4) from.now }
    ensures bits { bits_of result ≡ flat_map (low_bits 4) from.now }
{
    let mut to = [0u8; 32];
    for place in 0..32usize {
        to[place] = from[2 * place] | (from[2 * place + 1] << 4);
    }
    to
}

/// Numbers of two bits, four of them in a byte.
#[inline(always)]
fn join_quarters(from: &[u8; 64]) -> [u8; 16]
    requires bits_fit { All (λ number. number < 2 ^ 2) from.now }
    ensures bits { bits_of result ≡ flat_map (low_bits 2) from.now }
{
    let mut to = [0u8; 16];
    for place in 0..16usize {
        to[place] = from[4 * place]
            | (from[4 * place + 1] << 2)
            | (from[4 * place + 2] << 4)
            | (from[4 * place + 3] << 6);
    }
    to
}

/// Appends 64 numbers of two or four bits.
#[inline(always)]
fn append_numbers(out: &mut Vec<u8>, from: &[u8; 64], count: u64) -> Result<(), AllocError>
    requires count { (count ≡ 4 → ⊥) → count ≡ 2 }
    requires bits_fit { All (λ number. number < 2 ^ count) from.now }
    ensures appended { AppendsBits out.old out.new result (flat_map (low_bits count) from.now) }
{
    if count == 4 {
        out.extend_from_slice(&join_halves(from))
    } else {
        out.extend_from_slice(&join_quarters(from))
    }
}

/// Appends two or four bits of each of these bytes, as many as make blocks of 64.
#[inline(always)]
pub(crate) fn append_cut(
    out: &mut Vec<u8>,
    bytes: &[u8],
    first: u64,
    count: u64,
) -> Result<(), AllocError>
    requires count { (count ≡ 4 → ⊥) → count ≡ 2 }
    requires within { first + count ≤ 8 }
    ensures appended { AppendsBits out.old out.new result (flat_map (λ part. field first count
        (component_bits 1 bytes.now part)) (range_with_len 0 (blocks_len bytes.now))) }
{
    let whole = bytes.len() / 64;
    for block in 0..whole {
        let mut from = [0u8; 64];
        from.copy_from_slice(&bytes[64 * block..64 * block + 64]);
        append_numbers(out, &cut(&from, first, count), count)?;
    }
    Ok(())
}
