//! Bits that are read and written through words of 64.
ghost use Rattle.std.specs.Prelude.{◌≡◌, ℕ, ◌+◌, ◌*◌, ◌%◌, ◌^◌, ◌<◌, ◌≤◌, length, IfOk};
ghost use Rattle.zarrs_packbits.specs.Bits.{low_bits, bits_of, field};
ghost use Rattle.zarrs_packbits.specs.KeptBits.{full_component, sign_weight};
ghost use Rattle.zarrs_packbits.specs.WrittenBits.{flags_of, LeavesMore};

use std::alloc::AllocError;

/// Appends the lowest `count` bits of `bits` to those that stand in `out` and in the first `filled`
/// bits of `word`. The answer is the word that is partly filled then, and how far.
#[inline(always)]
pub(crate) fn append_bits(
    out: &mut Vec<u8>,
    word: u64,
    filled: u32,
    bits: u64,
    count: u32,
) -> Result<(u64, u32), AllocError>
    requires room { filled < 64 }
    requires word { word < 2 ^ filled }
    requires count { count ≤ 64 }
    requires bits_fit { bits < 2 ^ count }
    ensures bits { LeavesMore out.old word filled out.new result (low_bits count bits) }
    ensures room { IfOk result (λ left. left.1 < 64) }
    ensures word { IfOk result (λ left. left.0 < 2 ^ left.1) }
{
    let joined = (bits << filled) | word;
    let room = 64 - filled;
    if count < room {
        return Ok((joined, filled + count));
    }
    out.extend_from_slice(&joined.to_le_bytes())?;
    let rest = if room < 64 { bits >> room } else { 0 };
    Ok((rest, count - room))
}

/// One bit of each of eight bytes as a number, the first byte's lowest. The product brings each of
/// them to its place in the highest byte, and no two to one place. The bits stay where they are, and
/// the factor is moved down: both numbers are then made once for many bytes.
#[inline(always)]
fn eight_flags(bytes: &[u8; 8], bit: u64) -> u64
    requires bit { bit < 8 }
    ensures bits { low_bits 8 result ≡ flags_of bit bytes.now }
    ensures below { result < 2 ^ 8 }
{
    let flags = read_word(bytes) & (0x0101_0101_0101_0101 << bit);
    flags.wrapping_mul(0x0102_0408_1020_4080 >> bit) >> 56
}

/// One bit of each of 64 bytes as a number, the first byte's lowest.
fn gather_word(bytes: &[u8], bit: u64) -> u64
    requires count { length bytes.now ≡ 64 }
    requires bit { bit < 8 }
    ensures bits { low_bits 64 result ≡ flags_of bit bytes.now }
{
    let mut word = 0u64;
    for index in 0..8usize {
        let mut eight = [0u8; 8];
        eight.copy_from_slice(&bytes[8 * index..8 * index + 8]);
        word |= eight_flags(&eight, bit) << (8 * index);
    }
    word
}

/// One bit of each of these bytes as a number, the first byte's lowest.
pub(crate) fn gather_flags(bytes: &[u8], bit: u64) -> u64
    requires count { length bytes.now ≤ 64 }
    requires bit { bit < 8 }
    ensures bits { low_bits (length bytes.now) result ≡ flags_of bit bytes.now }
    ensures below { result < 2 ^ length bytes.now }
{
    if bytes.len() == 64 {
        return gather_word(bytes, bit);
    }
    let mut word = 0u64;
    for index in 0..bytes.len() {
        let flag = (bytes[index] >> bit) & 1;
        word |= (flag as u64) << index;
    }
    word
}

/// The bits of eight bytes as a number.
fn read_word(bytes: &[u8; 8]) -> u64
    ensures bits { low_bits 64 result ≡ bits_of bytes.now }
{
    u64::from_le_bytes(*bytes)
}

/// The bits of fewer than eight bytes as a number.
fn last_word(bytes: &[u8]) -> u64
    requires len { length bytes.now < 8 }
    ensures bits { low_bits (8 * length bytes.now) result ≡ bits_of bytes.now }
{
    let mut eight = [0u8; 8];
    eight[..bytes.len()].copy_from_slice(bytes);
    read_word(&eight)
}

/// The bits of the bytes from `start` on as a number, 64 of them or as many as are there.
#[inline(always)]
fn word_from(bytes: &[u8], start: usize) -> u64
    requires start { start ≤ length bytes.now }
    ensures bits { (n : ℕ) → n ≤ 64 → 8 * start + n ≤ 8 * length bytes.now
        → low_bits n result ≡ field (8 * start) n (bits_of bytes.now) }
{
    if bytes.len() - start < 8 {
        return last_word(&bytes[start..]);
    }
    let mut eight = [0u8; 8];
    eight.copy_from_slice(&bytes[start..start + 8]);
    read_word(&eight)
}

/// The lowest bits of a number, so many.
#[inline(always)]
pub(crate) fn lowest(word: u64, count: u32) -> u64
    requires count { count ≤ 64 }
    ensures value { result ≡ word % 2 ^ count }
{
    if count < 64 {
        word & ((1 << count) - 1)
    } else {
        word
    }
}

/// The `count` bits from bit `at` of the bytes on, as a number: out of a word, and where they end
/// beyond it, the byte behind it.
#[inline(always)]
pub(crate) fn read_bits(bytes: &[u8], at: u64, count: u32) -> u64
    requires inside { at + count ≤ 8 * length bytes.now }
    requires at { at + count < 2 ^ 64 }
    requires count { count ≤ 64 }
    ensures bits { low_bits count result ≡ field at count (bits_of bytes.now) }
    ensures below { result < 2 ^ count }
{
    let start = (at / 8) as usize;
    let shift = (at % 8) as u32;
    let low = word_from(bytes, start) >> shift;
    if shift + count <= 64 {
        return lowest(low, count);
    }
    let high = bytes[start + 8] as u64;
    lowest((high << (64 - shift)) | low, count)
}

/// What the last of so many bits counts where the type has a sign, else nothing.
#[inline(always)]
pub(crate) fn weight_of_sign(count: u64, sign: bool) -> u64
    requires some { 0 < count }
    requires count { count ≤ 64 }
    ensures value { result ≡ sign_weight sign count }
{
    if sign { 1 << (count - 1) } else { 0 }
}

/// A component of up to 64 bits whose kept bits are these: zeros below them, and above them zeros,
/// or copies of the last one where the type has a sign.
#[inline(always)]
pub(crate) fn component_word(kept: u64, first: u64, count: u64, above: u64, sign: bool) -> u64
    requires some { 0 < count }
    requires fits { first + count + above ≤ 64 }
    requires kept_fits { kept < 2 ^ count }
    ensures bits { low_bits (first + count + above) result
        ≡ full_component first above sign (low_bits count kept) }
    ensures below { result < 2 ^ (first + count + above) }
{
    let weight = weight_of_sign(count, sign);
    let wide = (kept ^ weight).wrapping_sub(weight);
    lowest(wide << first, (first + count + above) as u32)
}

/// The `count` bits from bit `shift` on of the eight bytes at `start`, as a number.
#[inline(always)]
pub(crate) fn read_within(bytes: &[u8], start: usize, shift: u32, count: u32) -> u64
    requires inside { start + 8 ≤ length bytes.now }
    requires shift { shift < 8 }
    requires within { shift + count ≤ 64 }
    ensures bits { low_bits count result ≡ field (8 * start + shift) count (bits_of bytes.now) }
    ensures below { result < 2 ^ count }
{
    let mut eight = [0u8; 8];
    eight.copy_from_slice(&bytes[start..start + 8]);
    lowest(read_word(&eight) >> shift, count)
}
