//! Where the bits of components stand in memory.
ghost use Rattle.std.specs.Prelude.{◌≡◌, ◌+◌, ◌*◌, ◌/◌, ◌%◌, ◌^◌, ◌<◌};
ghost use Rattle.zarrs_packbits.specs.DivRem8Bit.{padded_bit};

/// The byte that bit `bit` stands in, and its place there, where the bits belong to components of
/// `bits` bits each, and every component begins at a byte: the quotient and the rest by 8 of the
/// bit's place among the components' bytes. The size is positive, and 64 bits hold that place.
pub fn div_rem_8bit(bit: u64, bits: u64) -> (u64, u8)
    requires positive { 0 < bits }
    requires fits { padded_bit bit bits < 2 ^ 64 }
    ensures byte { result.0 ≡ padded_bit bit bits / 8 }
    ensures rest { result.1 ≡ padded_bit bit bits % 8 }
{
    let place = bit / bits * 8 * bits.div_ceil(8) + bit % bits;
    (place / 8, (place % 8) as u8)
}
