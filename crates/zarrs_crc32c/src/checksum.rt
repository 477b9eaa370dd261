//! The checksum of some bytes, by eight bytes a step where they are few.
ghost use Rattle.std.specs.Prelude.{◌≡◌, bit_xor};
ghost use Rattle.zarrs_crc32c.specs.Checksum.{crc32c, after_bits, after_byte, after_bytes};

use crate::quotient::take_long;
use crate::table::look_up;

/// The register after a byte.
#[inline(always)]
fn take_byte(register: u32, byte: u8) -> u32
    ensures value { result ≡ after_byte register byte }
{
    let mixed = register ^ byte as u32;
    look_up(0, (mixed & 0xff) as usize) ^ (mixed >> 8)
}

/// The register after the 64 bits of a word, the lowest first. The bits meet the register before it
/// moves, and then each byte of it moves by itself: the lowest by all 64 bits, the highest by its own.
#[inline(always)]
fn take_word(register: u32, word: u64) -> u32
    ensures value { result ≡ after_bits 64 (bit_xor register word) }
{
    let mixed = register as u64 ^ word;
    look_up(7, (mixed & 0xff) as usize)
        ^ look_up(6, (mixed >> 8 & 0xff) as usize)
        ^ look_up(5, (mixed >> 16 & 0xff) as usize)
        ^ look_up(4, (mixed >> 24 & 0xff) as usize)
        ^ look_up(3, (mixed >> 32 & 0xff) as usize)
        ^ look_up(2, (mixed >> 40 & 0xff) as usize)
        ^ look_up(1, (mixed >> 48 & 0xff) as usize)
        ^ look_up(0, (mixed >> 56 & 0xff) as usize)
}

/// The register after eight bytes.
#[inline(always)]
fn take_eight(register: u32, bytes: &[u8; 8]) -> u32
    ensures value { result ≡ after_bytes register bytes.now }
{
    take_word(register, u64::from_le_bytes(*bytes))
}

/// The register after some bytes, taken one by one.
fn take_each(register: u32, bytes: &[u8]) -> u32
    ensures value { result ≡ after_bytes register bytes.now }
{
    let mut current = register;
    for byte in bytes {
        current = take_byte(current, *byte);
    }
    current
}

/// The register after some bytes, taken by eights.
pub(crate) fn take_bytes(register: u32, bytes: &[u8]) -> u32
    ensures value { result ≡ after_bytes register bytes.now }
{
    let mut current = register;
    let mut rest = bytes;
    while let Some((eight, behind)) = rest.split_first_chunk::<8>() {
        current = take_eight(current, eight);
        rest = behind;
    }
    take_each(current, rest)
}

/// The CRC-32C of some bytes, as RFC 3720 defines it.
#[tactic(auto, unfolding(crate::specs::Checksum::crc32c))]
pub fn checksum_of(bytes: &[u8]) -> u32
    ensures value { result ≡ crc32c bytes.now }
{
    let register = if bytes.len() < 700 {
        take_bytes(0xffff_ffff, bytes)
    } else {
        take_long(bytes)
    };
    register ^ 0xffff_ffff
}
