//! Elements shown as JSON.
ghost use Rattle.std.specs.Prelude.{◌≡◌, ◌<◌, ◌+◌, ◌*◌, ◌≤◌, ℕ, Ok, length, map, true};
ghost use Rattle.std.specs.List.{range_with_len};
ghost use Rattle.serde_json.specs.Data.{array, item, no_items};
ghost use Rattle.serde_json.specs.View.{view};
ghost use Rattle.zarrs_data_type.specs.Element.{Chunk};
ghost use Rattle.zarrs_array_bytes.specs.Elements.{piece, cut};
ghost use Rattle.zarrs_array_bytes.specs.Offsets.{is_offsets, last_of};
ghost use Rattle.zarrs_array_bytes.specs.Validity.{HasElements, Holds};
ghost use Rattle.zarrs_json.specs.Refusal.{ReadsAs, ReadsItems};
ghost use Rattle.zarrs_json.specs.Json.{hex_tree, ok_line as line_of};
ghost use Rattle.zarrs_json.specs.Elements.{chunk_tree, tree_at};
ghost use Rattle.zarrs_json.specs.Shown.{HasElement};

use crate::refusal::Refusal;
use crate::trees::ok_line;
use serde_json::Value;
use std::alloc::{AllocError, Global};
use zarrs_array_bytes::ArrayBytes;
use zarrs_chunk::CodecError;
use zarrs_data_type::DataType;

fn hex_value(alloc: Global, bytes: &[u8]) -> Result<Value, Refusal>
    ensures answer { ReadsAs view result (Ok (hex_tree bytes.now)) }
{
    let text = hex::encode(alloc, bytes)?;
    Ok(Value::String(text))
}

/// The element at a place, where each has so many bytes.
fn fixed_value(alloc: Global, size: usize, bytes: &[u8], place: usize) -> Result<Value, Refusal>
    requires inside { place * size + size ≤ length bytes.now }
    ensures answer { ReadsAs view result (Ok (hex_tree (piece size bytes.now place))) }
{
    let start = place * size;
    hex_value(alloc, &bytes[start..start + size])
}

/// The element at a place, between its two offsets.
fn variable_value(
    alloc: Global,
    bytes: &[u8],
    offsets: &[usize],
    place: usize,
) -> Result<Value, Refusal>
    requires inside { place + 1 < length offsets.now }
    requires rising { is_offsets offsets.now ≡ true }
    requires ending { last_of offsets.now ≡ length bytes.now }
    ensures answer { ReadsAs view result (Ok (hex_tree (cut offsets.now bytes.now place))) }
{
    hex_value(alloc, &bytes[offsets[place]..offsets[place + 1]])
}

/// A list of one.
fn lone_value(alloc: Global, tree: Value) -> Result<Value, Refusal>
    ensures answer { ReadsAs view result (Ok (array (item (view tree) no_items))) }
{
    let mut items = Vec::with_capacity(alloc, 1)?;
    items.push(tree)?;
    Ok(Value::Array(items))
}

/// The element at a place of a container.
fn value_at(
    alloc: Global,
    data_type: &DataType,
    elements: &ArrayBytes<'_>,
    place: usize,
) -> Result<Value, Refusal>
    requires known { HasElement data_type.now elements.now place }
    ensures answer { ReadsAs view result (Ok (tree_at data_type.now elements.now place)) }
{
    if let Some(inner_type) = data_type.as_optional() {
        let (inner, mask) = elements.as_optional()?;
        if mask[place] == 0 {
            return Ok(Value::Null);
        }
        let tree = value_at(alloc, inner_type, inner, place)?;
        return lone_value(alloc, tree);
    }
    match data_type.fixed_size() {
        Some(size) => fixed_value(alloc, size, elements.as_fixed()?, place),
        None => {
            let (bytes, offsets) = elements.as_variable()?;
            variable_value(alloc, bytes, offsets.as_slice(), place)
        }
    }
}

/// How many elements of the type a container has. Errors: `ArrayBytesKind` where it has another
/// kind.
fn count(data_type: &DataType, elements: &ArrayBytes<'_>) -> Result<usize, CodecError>
    ensures count { (count : ℕ) → HasElements data_type.now count elements.now
        → result ≡ Ok count }
{
    if data_type.is_optional() {
        let (_, mask) = elements.as_optional()?;
        return Ok(mask.len());
    }
    match data_type.fixed_size() {
        Some(size) => Ok(elements.as_fixed()?.len() / size),
        None => {
            let (_, offsets) = elements.as_variable()?;
            Ok(offsets.as_slice().len() - 1)
        }
    }
}

fn values(
    alloc: Global,
    data_type: &DataType,
    elements: &ArrayBytes<'_>,
    count: usize,
) -> Result<Vec<Value>, Refusal>
    requires known { HasElements data_type.now count elements.now }
    ensures answer { ReadsAs (λ v. map view v.items) result
        (Ok (map (tree_at data_type.now elements.now) (range_with_len 0 count))) }
{
    let mut values = Vec::with_capacity(alloc, count)?;
    for place in 0..count {
        let value = value_at(alloc, data_type, elements, place)?;
        values.push(value)?;
    }
    Ok(values)
}

/// The answer that shows the elements of a container. Errors: `OutOfMemory`.
pub fn ok_elements(
    alloc: Global,
    data_type: &DataType,
    elements: &ArrayBytes<'_>,
) -> Result<Vec<u8>, Refusal>
    requires held { (chunk : Chunk) × Holds data_type.now elements.now chunk }
    ensures answer { (chunk : Chunk) → Holds data_type.now elements.now chunk
        → ReadsItems result (Ok (line_of (chunk_tree chunk))) }
{
    let count = count(data_type, elements)?;
    let values = values(alloc, data_type, elements, count)?;
    let line = ok_line(alloc, &Value::Array(values))?;
    Ok(line)
}
