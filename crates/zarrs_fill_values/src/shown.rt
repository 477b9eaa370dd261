//! Fill values written as JSON.
ghost use Rattle.std.specs.Prelude.{◌≡◌, ok_or, Ok, Some, IfOk, length, ◌*◌};
ghost use Rattle.serde_json.specs.View.{view};
ghost use Rattle.zarrs_fill_values.specs.ElementError.{ElementAnswers};
ghost use Rattle.zarrs_fill_values.specs.FillValues.{fill_of, text_fill};
ghost use Rattle.std.specs.Option.{option_map};
ghost use Rattle.zarrs_fill_values.specs.Floats.{float_size as size_of_float};
ghost use Rattle.zarrs_fill_values.specs.Words.{IsBytes};
ghost use Rattle.zarrs_fill_values.specs.Shown.{complex_shown as shown_complex, bytes_list, plain_shown as shown_plain, lone_list as list_of_one, shown_in, shown};

use crate::element_error::ElementError;
use crate::element_name::{ElementName, FloatName, PlainName};
use crate::floats::float_shown;
use crate::integers::integer_shown;
use base64::engine::general_purpose::STANDARD;
use serde_json::Value;
use std::alloc::Global;
use std::str;
use zarrs_data_type::FillValue;

fn truth_shown(fill: &[u8]) -> Result<Value, ElementError>
    ensures answer { ElementAnswers view result
        (ok_or (shown_plain PlainName.Bool fill.now) ElementError.InvalidFillValue) }
{
    match fill {
        [0] => Ok(Value::Bool(false)),
        [1] => Ok(Value::Bool(true)),
        _ => Err(ElementError::InvalidFillValue),
    }
}

fn sized_float(alloc: Global, name: FloatName, fill: &[u8]) -> Result<Value, ElementError>
    ensures answer { ElementAnswers view result
        (ok_or (shown_plain (PlainName.Float name) fill.now) ElementError.InvalidFillValue) }
{
    if fill.len() as u64 == name.size() {
        float_shown(alloc, name, fill)
    } else {
        Err(ElementError::InvalidFillValue)
    }
}

fn complex_list(alloc: Global, name: FloatName, fill: &[u8]) -> Result<Value, ElementError>
    requires size { length fill.now ≡ 2 * size_of_float name }
    ensures answer { ElementAnswers view result (Ok (shown_complex name fill.now)) }
{
    let size = name.size() as usize;
    let real = float_shown(alloc, name, &fill[..size])?;
    let imaginary = float_shown(alloc, name, &fill[size..])?;
    let mut items = Vec::with_capacity(alloc, 2)?;
    items.push(real)?;
    items.push(imaginary)?;
    Ok(Value::Array(items))
}

fn sized_complex(alloc: Global, name: FloatName, fill: &[u8]) -> Result<Value, ElementError>
    ensures answer { ElementAnswers view result
        (ok_or (shown_plain (PlainName.Complex name) fill.now) ElementError.InvalidFillValue) }
{
    if fill.len() as u64 == 2 * name.size() {
        complex_list(alloc, name, fill)
    } else {
        Err(ElementError::InvalidFillValue)
    }
}

fn list_of_bytes(alloc: Global, fill: &[u8]) -> Result<Value, ElementError>
    ensures answer { ElementAnswers view result (Ok (bytes_list fill.now)) }
{
    let mut items = Vec::with_capacity(alloc, fill.len())?;
    for byte in fill {
        items.push(Value::from(*byte))?;
    }
    Ok(Value::Array(items))
}

fn sized_bytes(alloc: Global, bits: u64, fill: &[u8]) -> Result<Value, ElementError>
    ensures answer { ElementAnswers view result
        (ok_or (shown_plain (PlainName.Raw bits) fill.now) ElementError.InvalidFillValue) }
{
    if fill.len() as u64 == bits / 8 {
        list_of_bytes(alloc, fill)
    } else {
        Err(ElementError::InvalidFillValue)
    }
}

fn text_in(fill: &[u8]) -> Option<&str>
    ensures value { option_map (λ text. text.now) result ≡ text_fill fill.now }
{
    match str::from_utf8(fill) {
        Ok(text) => Some(text),
        Err(_) => None,
    }
}

fn text_shown(alloc: Global, fill: &[u8]) -> Result<Value, ElementError>
    ensures answer { ElementAnswers view result
        (ok_or (shown_plain PlainName.String fill.now) ElementError.InvalidFillValue) }
{
    match text_in(fill) {
        Some(text) => Ok(Value::try_from_str(alloc, text)?),
        None => Err(ElementError::InvalidFillValue),
    }
}

/// The fill value of a type whose elements are all there.
fn plain_shown(alloc: Global, plain: PlainName, fill: &[u8]) -> Result<Value, ElementError>
    ensures answer { ElementAnswers view result
        (ok_or (shown_plain plain fill.now) ElementError.InvalidFillValue) }
{
    match plain {
        PlainName::Bool => truth_shown(fill),
        PlainName::Integer(integer) => integer_shown(integer, fill),
        PlainName::Float(name) => sized_float(alloc, name, fill),
        PlainName::Complex(name) => sized_complex(alloc, name, fill),
        PlainName::Raw(bits) => sized_bytes(alloc, bits, fill),
        PlainName::String => text_shown(alloc, fill),
        PlainName::Bytes => Ok(Value::String(STANDARD.encode(alloc, fill)?)),
    }
}

/// Each byte of a machine is one.
fn are_bytes(fill: &[u8])
    ensures bytes { IsBytes fill.now }
{}

fn lone_list(alloc: Global, inner: Value) -> Result<Value, ElementError>
    ensures answer { ElementAnswers view result (Ok (list_of_one (view inner))) }
{
    let mut items = Vec::new(alloc);
    items.push(inner)?;
    Ok(Value::Array(items))
}

#[tactic(auto, using(crate::proofs::Levels::shown_in_level))]
fn optional_shown(
    alloc: Global,
    levels: u8,
    plain: PlainName,
    fill: &[u8],
) -> Result<Value, ElementError>
    ensures answer { ElementAnswers view result
        (ok_or (shown_in levels plain fill.now) ElementError.InvalidFillValue) }
{
    if levels == 0 {
        return plain_shown(alloc, plain, fill);
    }
    match fill {
        [0] => Ok(Value::Null),
        [front @ .., 1] => lone_list(alloc, optional_shown(alloc, levels - 1, plain, front)?),
        _ => Err(ElementError::InvalidFillValue),
    }
}

impl ElementName {
    /// The JSON tree of a fill value, one for each: of `float32` the bytes `0100c07f` are the text
    /// `"0x7fc00001"`. Raw bits are a list of bytes, bytes of any length a text in base64.
    ///
    /// Errors: `InvalidFillValue` where the bytes are no element of this type; `OutOfMemory`.
    pub fn metadata_fill_value(self, alloc: Global, fill: &FillValue) -> Result<Value, ElementError>
        ensures answer { ElementAnswers view result
            (ok_or (shown self fill.now) ElementError.InvalidFillValue) }
        ensures read_again { IfOk result (λ tree. fill_of self (view tree) ≡ Some fill.now) }
    {
        let bytes = fill.as_ne_bytes();
        are_bytes(bytes);
        optional_shown(alloc, self.levels, self.plain, bytes)
    }
}
