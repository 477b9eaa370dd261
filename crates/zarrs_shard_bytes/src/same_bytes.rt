//! Whether bytes are the same, 64 at a time.
ghost use Rattle.std.specs.Bool.{nat_eq};
ghost use Rattle.std.specs.Cmp.Lexicographic.{pointwise};
ghost use Rattle.std.specs.Prelude.{◌≡◌, ◌+◌, ◌≤◌, drop, length, take};

use std::simd::prelude::*;

/// Whether 64 bytes from a place on are the same in both.
#[inline(always)]
fn is_same_block(one: &[u8], other: &[u8], at: usize) -> bool
    requires inside { at + 64 ≤ length one.now }
    requires len { length one.now ≡ length other.now }
    // Wide: the bytes from the place on, of both.
    ensures value { result
        ≡ pointwise nat_eq (take 64 (drop at one.now)) (take 64 (drop at other.now)) }
{
    let unequal = u8x64::from_slice(&one[at..at + 64]).simd_ne(u8x64::from_slice(
        &other[at..at + 64],
    ));
    unequal.to_bitmask() == 0
}

/// Whether both have the same bytes: block by block, and then the last block, which may overlap the
/// one before it. Slices are compared in fewer steps so than by `==`: what is left of the time is
/// mostly that of the memory.
pub(crate) fn is_same(one: &[u8], other: &[u8]) -> bool
    requires len { length one.now ≡ length other.now }
    ensures value { result ≡ pointwise nat_eq one.now other.now }
{
    let len = one.len();
    if len < 64 {
        return one == other;
    }
    for index in 0..len / 64 {
        if !is_same_block(one, other, index * 64) {
            return false;
        }
    }
    is_same_block(one, other, len - 64)
}
