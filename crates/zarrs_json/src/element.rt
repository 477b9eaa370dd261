//! Single elements read from JSON.
ghost use Rattle.std.specs.Prelude.{◌≡◌, option_map};
ghost use Rattle.serde_json.specs.View.{view, items_view};
ghost use Rattle.zarrs_data_type.specs.Element.{plain};
ghost use Rattle.zarrs_json.specs.Refusal.{ReadsAs};
ghost use Rattle.zarrs_json.specs.Elements.{bytes_shown, plain_in, element_shown};
ghost use Rattle.zarrs_json.specs.Element.{element_seen};

use crate::refusal::Refusal;
use crate::trees::{hex_bytes, lone};
use serde_json::Value;
use std::alloc::Global;
use zarrs_chunk::CodecError;
use zarrs_data_type::DataType;

/// An element that was read: bytes, or one of an optional type.
#[derive(Debug, Drop)]
pub enum Element {
    /// The bytes of an element of a type that isn't optional.
    Plain(Vec<u8>),
    /// An element that isn't there.
    Absent,
    /// An element that is there, of the type inside.
    Present(Box<Element>),
}

fn bytes(alloc: Global, tree: &Value) -> Result<Vec<u8>, Refusal>
    ensures answer { ReadsAs (λ v. v.items) result (bytes_shown (view tree.now)) }
{
    match tree {
        Value::String(_) => hex_bytes(alloc, tree),
        Value::Null | Value::Array(_) => Err(Refusal::Codec(CodecError::ArrayBytesKind)),
        _ => Err(Refusal::Syntax),
    }
}

/// An element that is bytes: as many as the type has, where it has a size.
fn plain_element(alloc: Global, size: Option<usize>, tree: &Value) -> Result<Vec<u8>, Refusal>
    ensures answer { ReadsAs (λ bytes. plain bytes.items) result (plain_in size (view tree.now)) }
{
    let bytes = bytes(alloc, tree)?;
    match size {
        Some(size) if bytes.len() != size => Err(Refusal::Codec(CodecError::InvalidBytesLength {
            len: bytes.len() as u64,
            expected: size as u64,
        })),
        _ => Ok(bytes),
    }
}

/// The element of a type that a tree shows. Errors: where bytes are due, `ArrayBytesKind` for null
/// and for a list, `Syntax` for what is no hex text, and then `InvalidBytesLength` for another number
/// of bytes than the type has; where an element that may be absent is due, `Syntax` for all but null
/// and a list of one; `OutOfMemory`.
pub fn read_element(alloc: Global, data_type: &DataType, tree: &Value) -> Result<Element, Refusal>
    ensures answer { ReadsAs element_seen result (element_shown data_type.now (view tree.now)) }
{
    let Some(inner) = data_type.as_optional() else {
        let bytes = plain_element(alloc, data_type.fixed_size(), tree)?;
        return Ok(Element::Plain(bytes));
    };
    match tree {
        Value::Null => Ok(Element::Absent),
        Value::Array(items) => match lone(items) {
            Some(tree) => {
                let one = read_element(alloc, inner, tree)?;
                Ok(Element::Present(Box::new(alloc, one)?))
            }
            None => Err(Refusal::Syntax),
        },
        _ => Err(Refusal::Syntax),
    }
}
