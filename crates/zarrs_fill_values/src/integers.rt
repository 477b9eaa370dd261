//! Fill values of whole numbers.
ghost use Rattle.std.specs.Prelude.{◌≡◌, ◌+◌, ◌*◌, ◌^◌, ◌<◌, ok_or, option_map};
ghost use Rattle.serde_json.specs.View.{view, number_view};
ghost use Rattle.zarrs_fill_values.specs.ElementError.{ElementAnswers, ElementBytes};
ghost use Rattle.zarrs_fill_values.specs.Integers.{integer_size as size_of_integer, half_range as half_of, sign_bit as sign_of, is_within as is_number_within, signed_word as word_of_signed, unsigned_word as word_of_unsigned, integer_word as word_of, integer_fill as fill_of_integer, signed_of, signed_number as number_of_signed, number_of_word as word_number, integer_sized};

use crate::element_error::ElementError;
use crate::element_name::IntegerName;
use crate::words::{low_bytes, low_number};
use serde_json::{Number, Value};
use std::alloc::Global;

impl IntegerName {
    fn size(self) -> u64
        ensures value { result ≡ size_of_integer self }
    {
        match self {
            IntegerName::Int16 | IntegerName::Uint16 => 2,
            IntegerName::Int32 | IntegerName::Uint32 => 4,
            IntegerName::Int64 | IntegerName::Uint64 => 8,
            _ => 1,
        }
    }

    fn half_range(self) -> u64
        ensures value { result ≡ half_of self }
    {
        match self {
            IntegerName::Int2 | IntegerName::Uint2 => 2,
            IntegerName::Int4 | IntegerName::Uint4 => 8,
            IntegerName::Int8 | IntegerName::Uint8 => 128,
            IntegerName::Int16 | IntegerName::Uint16 => 32768,
            IntegerName::Int32 | IntegerName::Uint32 => 2147483648,
            IntegerName::Int64 | IntegerName::Uint64 => 9223372036854775808,
        }
    }

    fn sign_bit(self) -> u64
        ensures value { result ≡ sign_of self }
    {
        match self {
            IntegerName::Int16 | IntegerName::Uint16 => 32768,
            IntegerName::Int32 | IntegerName::Uint32 => 2147483648,
            IntegerName::Int64 | IntegerName::Uint64 => 9223372036854775808,
            _ => 128,
        }
    }
}

fn is_within(bound: u64, number: i64) -> bool
    ensures value { result ≡ is_number_within bound number }
{
    let distance = if number < 0 { -(number + 1) } else { number };
    (distance as u64) < bound
}

fn signed_word(bound: u64, number: i64) -> Option<u64>
    ensures value { result ≡ word_of_signed bound number }
{
    if is_within(bound, number) {
        Some(number.cast_unsigned())
    } else {
        None
    }
}

/// A number without a sign, below twice the bound.
fn unsigned_word(half: u64, number: u64) -> Option<u64>
    ensures value { result ≡ word_of_unsigned (2 * half) number }
{
    if number / 2 < half {
        Some(number)
    } else {
        None
    }
}

/// A JSON number as 64 bits, where it is whole and in the range of the type.
fn integer_word(integer: IntegerName, number: &Number) -> Option<u64>
    ensures value { result ≡ word_of integer (number_view number.now) }
{
    if integer.is_signed() {
        signed_word(integer.half_range(), number.as_i64()?)
    } else {
        unsigned_word(integer.half_range(), number.as_u64()?)
    }
}

/// The fill value of a JSON number.
pub(crate) fn integer_fill(
    alloc: Global,
    integer: IntegerName,
    number: &Number,
) -> Result<Vec<u8>, ElementError>
    ensures answer { ElementBytes result
        (ok_or (fill_of_integer integer (number_view number.now)) ElementError.InvalidFillValue) }
{
    match integer_word(integer, number) {
        Some(word) => low_bytes(alloc, integer.size(), word),
        None => Err(ElementError::InvalidFillValue),
    }
}

/// The number that so many bits stand for, of which the top one is the sign.
fn signed(top: u64, word: u64) -> i64
    requires top { top < 2 ^ 63 + 1 }
    requires word { word < 2 * top }
    ensures value { result ≡ signed_of top word }
{
    if word < top {
        word as i64
    } else {
        -((top - 1 - (word - top)) as i64) - 1
    }
}

fn signed_number(bound: u64, number: i64) -> Option<Number>
    ensures value { option_map number_view result ≡ number_of_signed bound number }
{
    if is_within(bound, number) {
        Some(Number::from(number))
    } else {
        None
    }
}

/// The JSON number of the bits in a number's bytes.
fn number_of_word(integer: IntegerName, word: u64) -> Option<Number>
    requires word { word < 2 * sign_of integer }
    ensures value { option_map number_view result ≡ word_number integer word }
{
    if integer.is_signed() {
        signed_number(integer.half_range(), signed(integer.sign_bit(), word))
    } else {
        let number = unsigned_word(integer.half_range(), word)?;
        Some(Number::from(number))
    }
}

/// The JSON number of a number's bytes.
pub(crate) fn integer_shown(integer: IntegerName, fill: &[u8]) -> Result<Value, ElementError>
    ensures answer { ElementAnswers view result
        (ok_or (integer_sized integer fill.now) ElementError.InvalidFillValue) }
{
    if fill.len() as u64 != integer.size() {
        return Err(ElementError::InvalidFillValue);
    }
    match number_of_word(integer, low_number(fill)) {
        Some(number) => Ok(Value::Number(number)),
        None => Err(ElementError::InvalidFillValue),
    }
}
