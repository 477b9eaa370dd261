//! Fill values read from JSON.
ghost use Rattle.std.specs.Prelude.{◌≡◌, ok_or, Ok};
ghost use Rattle.serde_json.specs.View.{view, items_view};
ghost use Rattle.zarrs_metadata.specs.Trees.{lent_tree};
ghost use Rattle.zarrs_fill_values.specs.ElementError.{ElementAnswers, ElementBytes};
ghost use Rattle.zarrs_fill_values.specs.FillValues.{json_byte as byte_of, json_bytes, bytes_fill as fill_of_bytes, floats_in, complex_pair as pair_fill, complex_fill as fill_of_complex, text_fill as fill_of_text, truth_fill, plain_fill as fill_of_plain, present as with_one, fill_in, fill_of, raw_fill as fill_of_raw, lone as lone_item};
ghost use Rattle.base64.specs.Engines.{standard};
ghost use Rattle.base64.specs.GeneralPurpose.{decoded_of};
ghost use Rattle.std.specs.Option.{option_map};

use crate::element_error::ElementError;
use crate::element_name::{ElementName, FloatName, PlainName};
use crate::floats::float_fill;
use crate::integers::integer_fill;
use base64::DecodeAllocError;
use base64::engine::general_purpose::STANDARD;
use serde_json::Value;
use std::alloc::{AllocError, Global};
use zarrs_data_type::FillValue;

/// The byte that a JSON number is.
fn json_byte(tree: &Value) -> Option<u8>
    ensures value { result ≡ byte_of (view tree.now) }
{
    let number = tree.as_u64()?;
    if number < 256 {
        Some(number as u8)
    } else {
        None
    }
}

/// The bytes that the items of a list are.
fn list_bytes(alloc: Global, items: &Vec<Value>) -> Result<Vec<u8>, ElementError>
    ensures answer { ElementBytes result
        (ok_or (json_bytes (items_view items.now.items)) ElementError.InvalidFillValue) }
{
    let mut bytes = Vec::new(alloc);
    for item in items {
        let Some(byte) = json_byte(item) else {
            return Err(ElementError::InvalidFillValue);
        };
        bytes.push(byte)?;
    }
    Ok(bytes)
}

/// The bytes of a text in base64.
fn base64_bytes(alloc: Global, text: &str) -> Result<Vec<u8>, ElementError>
    ensures answer { ElementBytes result
        (ok_or (decoded_of standard text.now) ElementError.InvalidFillValue) }
{
    match STANDARD.decode(alloc, text.as_bytes()) {
        Ok(bytes) => Ok(bytes),
        Err(DecodeAllocError::OutOfMemory) => Err(AllocError.into()),
        Err(DecodeAllocError::DecodeError(_)) => Err(ElementError::InvalidFillValue),
    }
}

/// The bytes of a list of them, or of a text in base64.
fn bytes_fill(alloc: Global, tree: &Value) -> Result<Vec<u8>, ElementError>
    ensures answer { ElementBytes result
        (ok_or (fill_of_bytes (view tree.now)) ElementError.InvalidFillValue) }
{
    match tree {
        Value::String(text) => base64_bytes(alloc, text.as_str()),
        Value::Array(items) => list_bytes(alloc, items),
        _ => Err(ElementError::InvalidFillValue),
    }
}

/// The same of as many bits.
fn raw_fill(alloc: Global, bits: u64, tree: &Value) -> Result<Vec<u8>, ElementError>
    ensures answer { ElementBytes result
        (ok_or (fill_of_raw bits (view tree.now)) ElementError.InvalidFillValue) }
{
    let bytes = bytes_fill(alloc, tree)?;
    if bytes.len() as u64 == bits / 8 {
        Ok(bytes)
    } else {
        Err(ElementError::InvalidFillValue)
    }
}

/// The bytes of the floats that the items of a list are.
fn list_floats(alloc: Global, name: FloatName, items: &Vec<Value>) -> Result<Vec<u8>, ElementError>
    ensures answer { ElementBytes result
        (ok_or (floats_in name (items_view items.now.items)) ElementError.InvalidFillValue) }
{
    let mut bytes = Vec::new(alloc);
    for item in items {
        let fill = float_fill(alloc, name, item)?;
        bytes.extend_from_slice(&fill)?;
    }
    Ok(bytes)
}

fn float_pair(alloc: Global, name: FloatName, items: &Vec<Value>) -> Result<Vec<u8>, ElementError>
    ensures answer { ElementBytes result
        (ok_or (pair_fill name (items_view items.now.items)) ElementError.InvalidFillValue) }
{
    if items.len() == 2 {
        list_floats(alloc, name, items)
    } else {
        Err(ElementError::InvalidFillValue)
    }
}

/// A complex number: a list of two floats.
fn complex_fill(alloc: Global, name: FloatName, tree: &Value) -> Result<Vec<u8>, ElementError>
    ensures answer { ElementBytes result
        (ok_or (fill_of_complex name (view tree.now)) ElementError.InvalidFillValue) }
{
    match tree {
        Value::Array(items) => float_pair(alloc, name, items),
        _ => Err(ElementError::InvalidFillValue),
    }
}

fn truth_bytes(alloc: Global, tree: &Value) -> Result<Vec<u8>, ElementError>
    ensures answer { ElementBytes result
        (ok_or (fill_of_plain PlainName.Bool (view tree.now)) ElementError.InvalidFillValue) }
{
    match tree {
        Value::Bool(truth) => Ok(Vec::from_slice(alloc, &[u8::from(*truth)])?),
        _ => Err(ElementError::InvalidFillValue),
    }
}

fn text_bytes(alloc: Global, text: &str) -> Result<Vec<u8>, ElementError>
    ensures answer { ElementBytes result
        (ok_or (fill_of_text text.now) ElementError.InvalidFillValue) }
{
    Ok(Vec::from_slice(alloc, text.as_bytes())?)
}

/// The fill value of a type whose elements are all there.
fn plain_fill(alloc: Global, plain: PlainName, tree: &Value) -> Result<Vec<u8>, ElementError>
    ensures answer { ElementBytes result
        (ok_or (fill_of_plain plain (view tree.now)) ElementError.InvalidFillValue) }
{
    match plain {
        PlainName::Bool => truth_bytes(alloc, tree),
        PlainName::Integer(integer) => match tree {
            Value::Number(number) => integer_fill(alloc, integer, number),
            _ => Err(ElementError::InvalidFillValue),
        },
        PlainName::Float(name) => float_fill(alloc, name, tree),
        PlainName::Complex(name) => complex_fill(alloc, name, tree),
        PlainName::Raw(bits) => raw_fill(alloc, bits, tree),
        PlainName::String => match tree {
            Value::String(text) => text_bytes(alloc, text.as_str()),
            _ => Err(ElementError::InvalidFillValue),
        },
        PlainName::Bytes => bytes_fill(alloc, tree),
    }
}

/// The only item of a list.
fn lone(items: &Vec<Value>) -> Option<&Value>
    ensures value { lent_tree result ≡ lone_item (items_view items.now.items) }
{
    if items.len() == 1 {
        Some(&items[0])
    } else {
        None
    }
}

/// The bytes of an element that is there.
fn present(mut fill: Vec<u8>) -> Result<Vec<u8>, ElementError>
    ensures answer { ElementBytes result (Ok (with_one fill.items)) }
{
    fill.push(1)?;
    Ok(fill)
}

#[tactic(auto, using(crate::proofs::Levels::fill_in_level))]
fn optional_fill(
    alloc: Global,
    levels: u8,
    plain: PlainName,
    tree: &Value,
) -> Result<Vec<u8>, ElementError>
    ensures answer { ElementBytes result
        (ok_or (fill_in levels plain (view tree.now)) ElementError.InvalidFillValue) }
{
    if levels == 0 {
        return plain_fill(alloc, plain, tree);
    }
    match tree {
        Value::Null => Ok(Vec::from_slice(alloc, &[0u8])?),
        Value::Array(items) => match lone(items) {
            Some(inner) => present(optional_fill(alloc, levels - 1, plain, inner)?),
            None => Err(ElementError::InvalidFillValue),
        },
        _ => Err(ElementError::InvalidFillValue),
    }
}

impl ElementName {
    /// The fill value that a JSON tree says, the value of `fill_value` in `zarr.json` (Zarr v3 core
    /// specification, "Fill value list"): of `uint8` the tree `5` is the byte 5, of `r16` both `[1,2]`
    /// and `"AQI="` are the bytes 1 and 2.
    ///
    /// Of whole numbers a number in their range, without fraction and exponent; of floats a number, or
    /// `"NaN"`, `"Infinity"`, `"-Infinity"`, or `"0x"` and the digits of all bits, the highest first;
    /// of complex numbers a list of two such; of raw bits and bytes a list of bytes, or a text in
    /// base64; of texts a text; of optional types null (absent) or a list of one (present).
    ///
    /// Errors: `InvalidFillValue` where the tree says none of this type; `OutOfMemory`.
    pub fn fill_value_from_metadata(
        self,
        alloc: Global,
        tree: &Value,
    ) -> Result<FillValue, ElementError>
        ensures answer { ElementAnswers (λ fill. fill) result
            (ok_or (fill_of self (view tree.now)) ElementError.InvalidFillValue) }
    {
        let fill = optional_fill(alloc, self.levels, self.plain, tree)?;
        Ok(FillValue::new(fill))
    }
}
