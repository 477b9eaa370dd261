//! Fill values of floats.
ghost use Rattle.std.specs.Prelude.{◌≡◌, ◌<◌, ◌≤◌, ◌^◌, ◌*◌, length, string_bytes, IfOk, IfSome, true, Ok, ok_or, from_bits};
ghost use Rattle.std.specs.Float.{binary32, binary64, float_is_finite};
ghost use Rattle.serde_json.specs.View.{view, number_view};
ghost use Rattle.zarrs_half.specs.HalfFloats.{half_bits};
ghost use Rattle.zarrs_fill_values.specs.ElementError.{ElementAnswers, ElementBytes};
ghost use Rattle.zarrs_fill_values.specs.Floats.{float_size as size_of_float, infinity_word as word_of_infinity, nan_word as word_of_nan, minus_infinity_word as word_of_minus_infinity, digits_word as word_of_digits, hex_word as word_of_hex, text_word as word_of_text, rounded, finite_word, number_word as word_of_number, float_word as word_of, float_fill as fill_of_float, number_of_bits as bits_number, finite, hex_text as text_of_hex, float_text as text_of_float, shown_as as shown_of, float_shown as shown_of_float};

use crate::element_error::ElementError;
use crate::element_name::FloatName;
use crate::words::{behind, low_bytes, low_number};
use serde_json::{Number, Value};
use std::alloc::{AllocError, Global};
use std::num::{
    f32_from_bits_with_nan, f32_to_bits_with_nan, f64_from_bits_with_nan, f64_to_bits_with_nan,
    nearest_f64_to_f32_with_nan, nearest_i64_to_f32, nearest_i64_to_f64, nearest_u64_to_f32,
    nearest_u64_to_f64,
};
use zarrs_half::HalfFormat;

impl FloatName {
    pub(crate) fn size(self) -> u64
        ensures value { result ≡ size_of_float self }
        ensures short { result ≤ 8 }
    {
        match self {
            FloatName::Float16 | FloatName::Bfloat16 => 2,
            FloatName::Float32 => 4,
            FloatName::Float64 => 8,
        }
    }

    fn infinity_word(self) -> u64
        ensures value { result ≡ word_of_infinity self }
    {
        match self {
            FloatName::Float16 => 0x7c00,
            FloatName::Bfloat16 => 0x7f80,
            FloatName::Float32 => 0x7f80_0000,
            FloatName::Float64 => 0x7ff0_0000_0000_0000,
        }
    }

    fn minus_infinity_word(self) -> u64
        ensures value { result ≡ word_of_minus_infinity self }
    {
        match self {
            FloatName::Float16 => 0xfc00,
            FloatName::Bfloat16 => 0xff80,
            FloatName::Float32 => 0xff80_0000,
            FloatName::Float64 => 0xfff0_0000_0000_0000,
        }
    }

    fn nan_word(self) -> u64
        ensures value { result ≡ word_of_nan self }
    {
        match self {
            FloatName::Float16 => 0x7e00,
            FloatName::Bfloat16 => 0x7fc0,
            FloatName::Float32 => 0x7fc0_0000,
            FloatName::Float64 => 0x7ff8_0000_0000_0000,
        }
    }
}

/// The number of hex digits, the highest first: two for each byte of the room.
fn digits_word(digits: &[u8], room: &mut [u8]) -> Option<u64>
    requires short { length room.old ≤ 8 }
    ensures value { result ≡ word_of_digits (length room.old) digits.now }
{
    match hex::decode_to_slice(digits, room) {
        Ok(()) => {
            room.reverse();
            Some(low_number(room))
        }
        Err(_) => None,
    }
}

/// The bits that hex digits say, the highest first.
fn hex_word(name: FloatName, digits: &[u8]) -> Option<u64>
    ensures value { result ≡ word_of_hex name digits.now }
{
    let mut room = [0u8; 8];
    digits_word(digits, &mut room[..name.size() as usize])
}

/// The bits that a text says.
fn text_word(name: FloatName, text: &str) -> Option<u64>
    ensures value { result ≡ word_of_text name text.now }
{
    match text {
        "NaN" => Some(name.nan_word()),
        "Infinity" => Some(name.infinity_word()),
        "-Infinity" => Some(name.minus_infinity_word()),
        _ => hex_word(name, behind(b"0x", text.as_bytes())?),
    }
}

fn rounded_to_f32(number: &Number) -> f32
    ensures value { result ≡ rounded binary32 (number_view number.now) }
{
    if let Some(whole) = number.as_u64() {
        return nearest_u64_to_f32(whole);
    }
    if let Some(whole) = number.as_i64() {
        return nearest_i64_to_f32(whole);
    }
    match number.as_f64() {
        Some(float) => nearest_f64_to_f32_with_nan(float),
        None => unreachable!(),
    }
}

fn rounded_to_f64(number: &Number) -> f64
    ensures value { result ≡ rounded binary64 (number_view number.now) }
{
    if let Some(whole) = number.as_u64() {
        return nearest_u64_to_f64(whole);
    }
    if let Some(whole) = number.as_i64() {
        return nearest_i64_to_f64(whole);
    }
    match number.as_f64() {
        Some(float) => float,
        None => unreachable!(),
    }
}

fn f32_word(number: &Number) -> Option<u64>
    ensures value { result ≡ finite_word binary32 (rounded binary32 (number_view number.now)) }
{
    let float = rounded_to_f32(number);
    if float.is_finite() {
        Some(f32_to_bits_with_nan(float) as u64)
    } else {
        None
    }
}

fn f64_word(number: &Number) -> Option<u64>
    ensures value { result ≡ finite_word binary64 (rounded binary64 (number_view number.now)) }
{
    let float = rounded_to_f64(number);
    if float.is_finite() {
        Some(f64_to_bits_with_nan(float))
    } else {
        None
    }
}

fn half_word(format: HalfFormat, number: &Number) -> Option<u64>
    ensures value { result ≡ half_bits format (rounded binary64 (number_view number.now)) }
{
    match format.from_f64(rounded_to_f64(number)) {
        Some(bits) => Some(u64::from(bits)),
        None => None,
    }
}

/// The bits of the float nearest to a JSON number, where it isn't past the range.
fn number_word(name: FloatName, number: &Number) -> Option<u64>
    ensures value { result ≡ word_of_number name (number_view number.now) }
{
    match name {
        FloatName::Float16 => half_word(HalfFormat::Binary16, number),
        FloatName::Bfloat16 => half_word(HalfFormat::Bfloat16, number),
        FloatName::Float32 => f32_word(number),
        FloatName::Float64 => f64_word(number),
    }
}

/// The bits that JSON says.
fn float_word(name: FloatName, tree: &Value) -> Option<u64>
    ensures value { result ≡ word_of name (view tree.now) }
{
    match tree {
        Value::Number(number) => number_word(name, number),
        Value::String(text) => text_word(name, text.as_str()),
        _ => None,
    }
}

/// The fill value that JSON says.
pub(crate) fn float_fill(
    alloc: Global,
    name: FloatName,
    tree: &Value,
) -> Result<Vec<u8>, ElementError>
    ensures answer { ElementBytes result
        (ok_or (fill_of_float name (view tree.now)) ElementError.InvalidFillValue) }
{
    match float_word(name, tree) {
        Some(word) => low_bytes(alloc, name.size(), word),
        None => Err(ElementError::InvalidFillValue),
    }
}

/// The text of bits: `0x` and their digits.
fn hex_text(alloc: Global, name: FloatName, word: u64) -> Result<String, ElementError>
    ensures answer { ElementAnswers string_bytes result (Ok (text_of_hex name word)) }
{
    let mut bytes = low_bytes(alloc, name.size(), word)?;
    bytes.reverse();
    let mut text = String::from_str(alloc, "0x")?;
    text.push_str(&hex::encode(alloc, &bytes)?)?;
    Ok(text)
}

/// The text of bits that are no number's.
fn float_text(alloc: Global, name: FloatName, word: u64) -> Result<String, ElementError>
    ensures answer { ElementAnswers string_bytes result (Ok (text_of_float name word)) }
{
    let text = if word == name.nan_word() {
        "NaN"
    } else if word == name.infinity_word() {
        "Infinity"
    } else if word == name.minus_infinity_word() {
        "-Infinity"
    } else {
        return hex_text(alloc, name, word);
    };
    Ok(String::from_str(alloc, text)?)
}

fn finite_f32(word: u32) -> Option<f64>
    ensures value { result ≡ finite (from_bits binary32 word) }
    ensures finite { IfSome result (λ number. float_is_finite number ≡ true) }
{
    let float = f32_from_bits_with_nan(word);
    if float.is_finite() {
        Some(f64::from(float))
    } else {
        None
    }
}

fn finite_f64(word: u64) -> Option<f64>
    ensures value { result ≡ finite (from_bits binary64 word) }
    ensures finite { IfSome result (λ number. float_is_finite number ≡ true) }
{
    let float = f64_from_bits_with_nan(word);
    if float.is_finite() { Some(float) } else { None }
}

/// The number of the bits, where they are one's.
fn number_of_bits(name: FloatName, word: u64) -> Option<f64>
    requires word { word < 256 ^ size_of_float name }
    ensures value { result ≡ bits_number name word }
    ensures finite { IfSome result (λ number. float_is_finite number ≡ true) }
{
    match name {
        FloatName::Float16 => HalfFormat::Binary16.to_f64(word as u16),
        FloatName::Bfloat16 => HalfFormat::Bfloat16.to_f64(word as u16),
        FloatName::Float32 => finite_f32(word as u32),
        FloatName::Float64 => finite_f64(word),
    }
}

/// How a float's bytes are shown.
pub(crate) fn float_shown(
    alloc: Global,
    name: FloatName,
    fill: &[u8],
) -> Result<Value, ElementError>
    requires size { length fill.now ≡ size_of_float name }
    ensures answer { ElementAnswers view result (Ok (shown_of_float name fill.now)) }
{
    let word = low_number(fill);
    match number_of_bits(name, word) {
        Some(float) => Ok(Value::from(float)),
        None => Ok(Value::String(float_text(alloc, name, word)?)),
    }
}
