//! Elements read from JSON.
ghost use Rattle.std.specs.Prelude.{◌≡◌, Ok, Some, IfOk, IfSome, map};
ghost use Rattle.serde_json.specs.View.{view, items_view};
ghost use Rattle.zarrs_json.specs.Refusal.{ReadsJson, ReadsAs};
ghost use Rattle.zarrs_json.specs.Edit.{container_in, container_listed};
ghost use Rattle.zarrs_json.specs.Elements.{elements_shown};
ghost use Rattle.zarrs_json.specs.Element.{element_seen, slots_seen};

use crate::containers::container;
use crate::element::{Element, read_element};
use crate::hex_lists::hex_list;
use crate::refusal::Refusal;
use crate::trees::tree;
use serde_json::Value;
use std::alloc::{AllocError, Global};
use std::borrow::CowSlice;
use zarrs_array_bytes::ArrayBytes;
use zarrs_data_type::DataType;

fn elements_among(
    alloc: Global,
    data_type: &DataType,
    items: &Vec<Value>,
) -> Result<Vec<Element>, Refusal>
    ensures answer { ReadsAs (λ v. map element_seen v.items) result
        (elements_shown data_type.now (items_view items.now.items)) }
{
    let mut elements = Vec::new(alloc);
    for item in items {
        let one = read_element(alloc, data_type, item)?;
        elements.push(one)?;
    }
    Ok(elements)
}

/// The places of elements, each with its element.
fn slots(alloc: Global, elements: &[Element]) -> Result<Vec<Option<&Element>>, AllocError>
    ensures value { IfOk result (λ slots. slots_seen slots.items ≡ map element_seen elements.now) }
{
    let mut slots = Vec::with_capacity(alloc, elements.len())?;
    for element in elements {
        slots.push(Some(element))?;
    }
    Ok(slots)
}

/// The elements of a list, in a container. Errors: `Syntax` where the tree is no list; those of the
/// first element that is rejected; `OutOfMemory`.
pub(crate) fn elements(
    alloc: Global,
    data_type: &DataType,
    tree: &Value,
) -> Result<ArrayBytes<'static>, Refusal>
    ensures answer { ReadsJson result (container_in data_type.now (view tree.now)) }
{
    match tree {
        Value::Array(items) => {
            let elements = elements_among(alloc, data_type, items)?;
            let slots = slots(alloc, &elements)?;
            container(alloc, data_type, slots)
        }
        _ => Err(Refusal::Syntax),
    }
}

/// The elements of a type of one size that a text lists, read as the text goes by, or `None` where
/// anything but hex texts of this size is in it.
fn hex_elements(
    alloc: Global,
    data_type: &DataType,
    text: &[u8],
) -> Result<Option<ArrayBytes<'static>>, AllocError>
    ensures value { IfOk result (λ found. IfSome found
        (λ elements. container_listed data_type.now text.now ≡ Ok elements)) }
{
    let Some(size) = data_type.fixed_size() else {
        return Ok(None);
    };
    match hex_list(alloc, size, text)? {
        Some(bytes) => Ok(Some(ArrayBytes::new_flen(CowSlice::Owned(bytes)))),
        None => Ok(None),
    }
}

fn tree_elements(
    alloc: Global,
    data_type: &DataType,
    text: &[u8],
) -> Result<ArrayBytes<'static>, Refusal>
    ensures answer { ReadsJson result (container_listed data_type.now text.now) }
{
    let tree = tree(alloc, text)?;
    elements(alloc, data_type, &tree)
}

/// The elements that a text lists, in a container. Errors: those of `tree`, and then those of
/// `elements`. A list of hex texts, each of the type's size, takes no tree.
pub fn read_elements(
    alloc: Global,
    data_type: &DataType,
    text: &[u8],
) -> Result<ArrayBytes<'static>, Refusal>
    ensures answer { ReadsJson result (container_listed data_type.now text.now) }
{
    match hex_elements(alloc, data_type, text)? {
        Some(elements) => Ok(elements),
        None => tree_elements(alloc, data_type, text),
    }
}
