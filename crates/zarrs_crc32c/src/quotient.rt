//! The register after many bytes, by division by a multiple of the divisor.
//!
//! The multiple has six terms alone, 418, 288, 108, 78, 28 and 0 bytes apart. So a byte of the quotient is
//! the next of the bytes, with five bytes of the quotient so far added to it, and sixteen are made at once,
//! with no table. What is left at the end, 418 bytes, is taken as other bytes are.
ghost use Rattle.std.specs.Prelude.{◌≡◌, ◌+◌, ◌*◌, ◌≤◌, length, take, drop, ◌++◌};
ghost use Rattle.zarrs_crc32c.specs.Checksum.{after_bytes, all_ones};
ghost use Rattle.zarrs_crc32c.specs.Quotient.{AreSums, after_division};

use crate::checksum::take_bytes;
use std::cmp::min;
use std::simd::prelude::*;

/// Sixteen bytes from a place on.
#[inline(always)]
fn sixteen_at(bytes: &[u8], at: usize) -> u8x16
    requires inside { at + 16 ≤ length bytes.now }
    ensures value { result ≡ take 16 (drop at bytes.now) }
{
    u8x16::from_slice(&bytes[at..at + 16])
}

/// Sixteen of the bytes from a place on, and what the quotient adds to them.
#[inline(always)]
fn sums_at(quotient: &[u8], bytes: &[u8], at: usize) -> u8x16
    requires inside { at + 304 ≤ length quotient.now }
    requires len { at + 16 ≤ length bytes.now }
    ensures value { AreSums quotient.now bytes.now at result }
{
    sixteen_at(bytes, at)
        ^ (sixteen_at(quotient, at)
            ^ sixteen_at(quotient, at + 28)
            ^ sixteen_at(quotient, at + 78)
            ^ sixteen_at(quotient, at + 108)
            ^ sixteen_at(quotient, at + 288))
}

/// Writes bytes from a place on.
#[inline(always)]
fn put_at(items: &mut [u8], at: usize, bytes: &[u8])
    requires inside { at + length bytes.now ≤ length items.old }
    ensures written { items.new ≡ take at items.old ++ (bytes.now ++ drop (length bytes.now) (drop at items.old)) }
{
    items[at..at + bytes.len()].copy_from_slice(bytes);
}

/// Writes sixteen bytes from a place on.
#[inline(always)]
fn put_sixteen(items: &mut [u8; 1442], at: usize, sixteen: u8x16)
    requires inside { at + 16 ≤ 1442 }
    ensures written { items.new ≡ take at items.old ++ (sixteen ++ drop (length sixteen) (drop at items.old)) }
{
    sixteen.copy_to_slice(&mut items[at..at + 16]);
}

/// Divides sixteen bytes: the quotient's next sixteen bytes are written behind the 418 that stand from a place on.
#[inline(always)]
fn divide_sixteen(quotient: &mut [u8; 1442], bytes: &[u8], at: usize)
    requires inside { at + 434 ≤ 1442 }
    requires len { at + 434 ≤ length bytes.now }
    ensures same { after_division quotient.new (at + 16) (drop (at + 16) bytes.now) ≡ after_division quotient.old at (drop at bytes.now) }
{
    let sums = sums_at(quotient, bytes, at);
    put_sixteen(quotient, at + 418, sums);
}

/// Divides so many bytes. The quotient's last 418 bytes stand in front, before and after.
#[inline(always)]
fn divide(quotient: &mut [u8; 1442], bytes: &[u8], sixteens: usize)
    requires few { sixteens ≤ 64 }
    requires len { sixteens * 16 + 418 ≤ length bytes.now }
    ensures same { after_division quotient.new 0 (drop (sixteens * 16) bytes.now) ≡ after_division quotient.old 0 bytes.now }
{
    for index in 0..sixteens {
        divide_sixteen(quotient, bytes, index * 16);
    }
    let count = sixteens * 16;
    quotient.copy_within(count..count + 418, 0);
}

/// The register after the last bytes, with what the quotient adds to them.
#[inline(always)]
fn take_last(quotient: &[u8; 1442], bytes: &[u8]) -> u32
    requires len { 432 ≤ length bytes.now }
    ensures value { result ≡ after_division quotient.now 0 bytes.now }
{
    let mut last = [0u8; 720];
    put_at(&mut last, 0, &quotient[..418]);
    let mut register = 0;
    for index in 0..27usize {
        let sums = sums_at(&last, bytes, index * 16);
        register = take_bytes(register, sums.as_array());
    }
    take_bytes(register, &bytes[432..])
}

/// The register after bytes, where it began as all ones.
#[inline(never)]
pub(crate) fn take_long(bytes: &[u8]) -> u32
    requires len { 432 ≤ length bytes.now }
    ensures value { result ≡ after_bytes all_ones bytes.now }
{
    let mut quotient = [0u8; 1442];
    put_at(&mut quotient, 0, &[255; 4]);
    let mut rest = bytes;
    while rest.len() >= 448 {
        let sixteens = min(64, (rest.len() - 432) / 16);
        divide(&mut quotient, rest, sixteens);
        rest = &rest[sixteens * 16..];
    }
    take_last(&quotient, rest)
}
