//! Floats of 16 bits.
ghost use Rattle.std.specs.Prelude.{◌≡◌, ◌<◌, ◌≤◌, ◌^◌, ◌-◌, ◌%◌, nat_le, negsuc, true, IfSome, to_bits};
ghost use Rattle.std.specs.Float.{binary64, fin, float_is_finite};
ghost use Rattle.std.specs.Float.Ieee.{round};
ghost use Rattle.std.specs.Float.Ieee.Nearest.{closest};
ghost use Rattle.zarrs_half.specs.HalfFloats.{digits_of, infinity_of, low_of, units_of, half_number, half_bits};
ghost use Rattle.zarrs_half.specs.ByPattern.{half_of_pattern, word_of};

use std::num::{
    f32_from_bits_with_nan, f64_from_bits_with_nan, f64_to_bits_with_nan, nearest_u64_to_f64,
};

/// A format of floats of 16 bits.
#[derive(Clone, Copy, Debug, PartialEq, Eq)]
pub enum HalfFormat {
    /// IEEE 754's binary16: a sign, five bits of an exponent, ten of a fraction.
    Binary16,
    /// The upper half of a binary32: a sign, eight bits of an exponent, seven of a fraction.
    Bfloat16,
}

/// The whole number nearest to `n / 2^shift`, a tie to the even one.
fn shifted(n: u64, shift: u64) -> u64
    requires shift { shift ≤ 54 }
    ensures value { result ≡ closest n (2 ^ shift) }
{
    let unit = 1u64 << shift;
    let whole = n / unit;
    let twice = n % unit * 2;
    if twice < unit {
        whole
    } else if unit < twice {
        whole + 1
    } else {
        whole + whole % 2
    }
}

/// How many of the least number above 0 a binary16 is.
fn binary16_units(word: u64) -> u64
    requires word { word < 0x7c00 }
    ensures value { result ≡ units_of HalfFormat.Binary16 word }
    ensures few { result ≤ 2 ^ 53 }
{
    let exponent = word / 1024;
    if exponent == 0 {
        word
    } else {
        (1024 + word % 1024) << (exponent - 1)
    }
}

/// The least number of a binary16 above 0, or the one below: 2 to the power of -24, with its sign.
#[tactic(auto, using(crate::proofs::Numbers::least_above, crate::proofs::Numbers::least_below))]
fn binary16_least(is_negative: bool) -> f64
    ensures value { result ≡ fin is_negative 1 (negsuc 23) }
{
    f64_from_bits_with_nan(if is_negative {
        0xbe70_0000_0000_0000
    } else {
        0x3e70_0000_0000_0000
    })
}

/// The number of a binary16.
fn binary16_number(is_negative: bool, word: u64) -> f64
    requires word { word < 0x7c00 }
    ensures value { result ≡ round binary64 is_negative (units_of HalfFormat.Binary16 word) (2 ^ 24) }
    ensures finite { float_is_finite result ≡ true }
{
    nearest_u64_to_f64(binary16_units(word)) * binary16_least(is_negative)
}

/// The number of a bfloat16: that of the binary32 whose upper half it is.
fn bfloat16_number(bits: u16) -> f64
    requires word { bits % 0x8000 < 0x7f80 }
    ensures value { result ≡ round binary64 (nat_le 0x8000 bits) (units_of HalfFormat.Bfloat16 (bits % 0x8000)) (2 ^ 133) }
    ensures finite { float_is_finite result ≡ true }
{
    f64::from(f32_from_bits_with_nan(u32::from(bits) << 16))
}

impl HalfFormat {
    /// How many bits of a fraction there are.
    fn digits(self) -> u64
        ensures value { result ≡ digits_of self }
    {
        match self {
            HalfFormat::Binary16 => 10,
            HalfFormat::Bfloat16 => 7,
        }
    }

    /// The bits of infinity.
    fn infinity(self) -> u64
        ensures value { result ≡ infinity_of self }
    {
        match self {
            HalfFormat::Binary16 => 0x7c00,
            HalfFormat::Bfloat16 => 0x7f80,
        }
    }

    /// How far the least number above 0 is above that of an `f64`, in doublings.
    fn above_least(self) -> u64
        ensures value { result ≡ 1074 - low_of self }
    {
        match self {
            HalfFormat::Binary16 => 1050,
            HalfFormat::Bfloat16 => 941,
        }
    }

    /// The bits, without a sign, of the number nearest to a significand that is doubled so many
    /// times, in units of the least `f64`.
    fn nearest_word(self, significand: u64, doublings: u64) -> u64
        requires significand { significand < 2 ^ 53 }
        requires doublings { doublings < 2047 }
        ensures value { result ≡ word_of self significand doublings }
    {
        let steps = (52 + doublings).saturating_sub(self.above_least() + self.digits());
        let places = (self.above_least() + steps)
            .saturating_sub(doublings)
            .min(54);
        (steps << self.digits()) + shifted(significand, places)
    }

    /// The bits of the number nearest to the `f64` of this pattern.
    fn from_pattern(self, pattern: u64) -> Option<u16>
        ensures value { result ≡ half_of_pattern self pattern }
    {
        let size = pattern % (1 << 63);
        let exponent = size / (1 << 52);
        let significand = if exponent == 0 {
            size
        } else {
            (1 << 52) + size % (1 << 52)
        };
        let word = self.nearest_word(significand, exponent.saturating_sub(1));
        if word < self.infinity() {
            let sign = if (1 << 63) <= pattern { 0x8000u16 } else { 0 };
            Some(sign + word as u16)
        } else {
            None
        }
    }

    /// The bits of the number nearest to `number`, a tie to the one whose last bit is 0: of 1.5 as
    /// binary16 `0x3e00`. A number that is nearer to 0 than to the least one keeps its sign.
    ///
    /// None where that is an infinity, or no number: of binary16 from 65520 on.
    pub fn from_f64(self, number: f64) -> Option<u16>
        ensures value { result ≡ half_bits self number }
    {
        self.from_pattern(f64_to_bits_with_nan(number))
    }

    /// The number that 16 bits are, exactly; of binary16 `0x3e00` is 1.5. None of infinities and of
    /// what is no number.
    pub fn to_f64(self, bits: u16) -> Option<f64>
        ensures value { result ≡ half_number self bits }
        ensures finite { IfSome result (λ number. float_is_finite number ≡ true) }
    {
        let word = u64::from(bits % 0x8000);
        if word >= self.infinity() {
            return None;
        }
        match self {
            HalfFormat::Binary16 => Some(binary16_number(0x8000 <= bits, word)),
            HalfFormat::Bfloat16 => Some(bfloat16_number(bits)),
        }
    }
}
