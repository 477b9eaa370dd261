//! The texts of names of types whose elements are all there.
ghost use Rattle.std.specs.Prelude.{◌≡◌, string_bytes, IfOk, decimal, ◌&&◌};
ghost use Rattle.zarrs_fill_values.specs.ElementName.{is_raw};
ghost use Rattle.std.specs.Str.{bytes_eq};
ghost use Rattle.zarrs_fill_values.specs.Names.{raw_bits_of as bits_of_raw, raw_bits_in, raw_text as text_of_raw, integer_text as text_of_integer, float_text as text_of_float, complex_text as text_of_complex, text_of, integer_named as named_integer, other_named as named_other, plain_named as named_plain};

use crate::element_name::{FloatName, IntegerName, PlainName};
use crate::words::behind;
use std::alloc::{AllocError, Global};

fn is_decimal(digits: &[u8], number: u64) -> bool
    ensures value { result ≡ bytes_eq digits.now (decimal number) }
{
    let mut buffer = itoa::Buffer::new();
    digits == buffer.format(number).as_bytes()
}

fn says_raw(digits: &[u8], bits: u64) -> bool
    ensures value { result ≡ is_raw bits && bytes_eq digits.now (decimal bits) }
{
    bits != 0 && bits % 8 == 0 && is_decimal(digits, bits)
}

/// How many bits decimal digits say.
fn raw_bits_of(digits: &[u8]) -> Option<u64>
    ensures value { result ≡ bits_of_raw digits.now }
{
    let Ok(bits) = fast_float::parse_u64(digits) else {
        return None;
    };
    if says_raw(digits, bits) {
        Some(bits)
    } else {
        None
    }
}

/// How many bits a name of raw bits says.
fn raw_bits(name: &str) -> Option<u64>
    ensures value { result ≡ raw_bits_in name.now }
{
    raw_bits_of(behind(b"r", name.as_bytes())?)
}

fn integer_named(name: &str) -> Option<IntegerName>
    ensures value { result ≡ named_integer name.now }
{
    match name {
        "int2" => Some(IntegerName::Int2),
        "int4" => Some(IntegerName::Int4),
        "int8" => Some(IntegerName::Int8),
        "int16" => Some(IntegerName::Int16),
        "int32" => Some(IntegerName::Int32),
        "int64" => Some(IntegerName::Int64),
        "uint2" => Some(IntegerName::Uint2),
        "uint4" => Some(IntegerName::Uint4),
        "uint8" => Some(IntegerName::Uint8),
        "uint16" => Some(IntegerName::Uint16),
        "uint32" => Some(IntegerName::Uint32),
        "uint64" => Some(IntegerName::Uint64),
        _ => None,
    }
}

fn other_named(name: &str) -> Option<PlainName>
    ensures value { result ≡ named_other name.now }
{
    match name {
        "bool" => Some(PlainName::Bool),
        "float16" => Some(PlainName::Float(FloatName::Float16)),
        "bfloat16" => Some(PlainName::Float(FloatName::Bfloat16)),
        "float32" => Some(PlainName::Float(FloatName::Float32)),
        "float64" => Some(PlainName::Float(FloatName::Float64)),
        "complex64" => Some(PlainName::Complex(FloatName::Float32)),
        "complex_float32" => Some(PlainName::Complex(FloatName::Float32)),
        "complex128" => Some(PlainName::Complex(FloatName::Float64)),
        "complex_float64" => Some(PlainName::Complex(FloatName::Float64)),
        "complex_float16" => Some(PlainName::Complex(FloatName::Float16)),
        "complex_bfloat16" => Some(PlainName::Complex(FloatName::Bfloat16)),
        "string" => Some(PlainName::String),
        "bytes" => Some(PlainName::Bytes),
        "variable_length_bytes" => Some(PlainName::Bytes),
        _ => raw_bits(name).map(PlainName::Raw),
    }
}

/// The type of a name.
pub(crate) fn plain_named(name: &str) -> Option<PlainName>
    ensures value { result ≡ named_plain name.now }
{
    match integer_named(name) {
        Some(integer) => Some(PlainName::Integer(integer)),
        None => other_named(name),
    }
}

fn integer_text(integer: IntegerName) -> &'static str
    ensures value { result.now ≡ text_of_integer integer }
{
    match integer {
        IntegerName::Int2 => "int2",
        IntegerName::Int4 => "int4",
        IntegerName::Int8 => "int8",
        IntegerName::Int16 => "int16",
        IntegerName::Int32 => "int32",
        IntegerName::Int64 => "int64",
        IntegerName::Uint2 => "uint2",
        IntegerName::Uint4 => "uint4",
        IntegerName::Uint8 => "uint8",
        IntegerName::Uint16 => "uint16",
        IntegerName::Uint32 => "uint32",
        IntegerName::Uint64 => "uint64",
    }
}

fn float_text(float: FloatName) -> &'static str
    ensures value { result.now ≡ text_of_float float }
{
    match float {
        FloatName::Float16 => "float16",
        FloatName::Bfloat16 => "bfloat16",
        FloatName::Float32 => "float32",
        FloatName::Float64 => "float64",
    }
}

fn complex_text(float: FloatName) -> &'static str
    ensures value { result.now ≡ text_of_complex float }
{
    match float {
        FloatName::Float16 => "complex_float16",
        FloatName::Bfloat16 => "complex_bfloat16",
        FloatName::Float32 => "complex64",
        FloatName::Float64 => "complex128",
    }
}

fn raw_text(alloc: Global, bits: u64) -> Result<String, AllocError>
    ensures text { IfOk result (λ text. string_bytes text ≡ text_of_raw bits) }
{
    let mut text = String::from_str(alloc, "r")?;
    let mut digits = itoa::Buffer::new();
    text.push_str(digits.format(bits))?;
    Ok(text)
}

/// The name of a type. Errors: `OutOfMemory`.
pub(crate) fn plain_text(alloc: Global, plain: PlainName) -> Result<String, AllocError>
    ensures text { IfOk result (λ text. string_bytes text ≡ text_of plain) }
{
    let text = match plain {
        PlainName::Bool => "bool",
        PlainName::Integer(integer) => integer_text(integer),
        PlainName::Float(float) => float_text(float),
        PlainName::Complex(float) => complex_text(float),
        PlainName::Raw(bits) => return raw_text(alloc, bits),
        PlainName::String => "string",
        PlainName::Bytes => "bytes",
    };
    String::from_str(alloc, text)
}
