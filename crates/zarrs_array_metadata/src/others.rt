//! Keys that the metadata of an array may have.
ghost use Rattle.std.specs.Prelude.{◌≡◌, ◌++◌, ◌==◌, IfOk, Ok, Some, map, string_bytes};
ghost use Rattle.std.specs.Option.{option_map};
ghost use Rattle.serde_json.specs.Events.{items_len};
ghost use Rattle.serde_json.specs.View.{view, items_view};
ghost use Rattle.zarrs_metadata.specs.MetadataV3.{configuration_seen};
ghost use Rattle.zarrs_metadata.specs.Trees.{lent_tree};
ghost use Rattle.zarrs_array_metadata.specs.ArrayMetadataError.{ArrayAnswers};
ghost use Rattle.zarrs_array_metadata.specs.OtherKeys.{attributes_at, has_no_transformers as lists_no_transformers, name_seen, names_seen, dimension_name_in, names_among, names_in, dimension_names_at};
ghost use Rattle.zarrs_array_metadata.specs.OthersRead.{others_seen, others_in};

use crate::array_metadata_error::ArrayMetadataError;
use crate::kept_members::{check_unknown_keys, copy_additional, copy_members};
use serde_json::Value;
use std::alloc::{AllocError, Global};
use zarrs_metadata::{Configuration, member};

/// The attributes, where there are some.
fn attributes(
    alloc: Global,
    tree: Option<&Value>,
) -> Result<Option<Configuration>, ArrayMetadataError>
    ensures answer { ArrayAnswers (option_map configuration_seen) result
        (attributes_at (lent_tree tree.entry)) }
{
    match tree {
        None => Ok(None),
        Some(Value::Object(members)) => Ok(Some(copy_members(members, alloc)?)),
        Some(_) => Err(ArrayMetadataError::InvalidAttributes),
    }
}

fn is_empty_list(items: &Vec<Value>) -> bool
    ensures value { result ≡ (items_len (items_view items.now.items) == 0) }
{
    items.as_slice().is_empty()
}

/// Whether no storage transformer is listed.
fn has_no_transformers(tree: Option<&Value>) -> bool
    ensures value { result ≡ lists_no_transformers (lent_tree tree.entry) }
{
    match tree {
        None => true,
        Some(Value::Null) => true,
        Some(Value::Array(items)) => is_empty_list(items),
        Some(_) => false,
    }
}

/// The name of an axis, or that it has none, where the tree says either.
fn dimension_name(tree: &Value) -> Result<Option<Option<String>>, AllocError>
    ensures answer { IfOk result (λ found. option_map name_seen found
        ≡ dimension_name_in (view tree.now)) }
{
    match tree {
        Value::Null => Ok(Some(None)),
        Value::String(name) => Ok(Some(Some(name.clone()?))),
        _ => Ok(None),
    }
}

fn names_of_items(
    alloc: Global,
    items: &Vec<Value>,
) -> Result<Option<Vec<Option<String>>>, AllocError>
    ensures answer { IfOk result (λ found. option_map names_seen found
        ≡ names_among (items_view items.now.items)) }
{
    let mut names = Vec::with_capacity(alloc, items.len())?;
    for item in items {
        let Some(name) = dimension_name(item)? else {
            return Ok(None);
        };
        names.push(name)?;
    }
    Ok(Some(names))
}

fn has_as_many(items: &Vec<Value>, axes: usize) -> bool
    ensures value { result ≡ (items_len (items_view items.now.items) == axes) }
{
    items.as_slice().len() == axes
}

fn names_of_axes(
    alloc: Global,
    axes: usize,
    items: &Vec<Value>,
) -> Result<Vec<Option<String>>, ArrayMetadataError>
    ensures answer { ArrayAnswers names_seen result (names_in axes (items_view items.now.items)) }
{
    if !has_as_many(items, axes) {
        return Err(ArrayMetadataError::InvalidDimensionNames);
    }
    match names_of_items(alloc, items)? {
        Some(names) => Ok(names),
        None => Err(ArrayMetadataError::InvalidDimensionNames),
    }
}

/// The names of so many axes, where there are some.
fn dimension_names(
    alloc: Global,
    axes: usize,
    tree: Option<&Value>,
) -> Result<Option<Vec<Option<String>>>, ArrayMetadataError>
    ensures answer { ArrayAnswers (option_map names_seen) result
        (dimension_names_at axes (lent_tree tree.entry)) }
{
    match tree {
        None => Ok(None),
        Some(Value::Null) => Ok(None),
        Some(Value::Array(items)) => Ok(Some(names_of_axes(alloc, axes, items)?)),
        Some(_) => Err(ArrayMetadataError::InvalidDimensionNames),
    }
}

/// What the keys say that the metadata of an array may have.
#[derive(Drop)]
pub(crate) struct OtherKeys {
    pub(crate) attributes: Option<Configuration>,
    pub(crate) dimension_names: Option<Vec<Option<String>>>,
    pub(crate) additional: Configuration,
}

/// What these keys say of an array of so many axes, and the others.
pub(crate) fn other_keys(
    alloc: Global,
    axes: usize,
    members: &Configuration,
) -> Result<OtherKeys, ArrayMetadataError>
    ensures answer { ArrayAnswers others_seen result
        (others_in axes (configuration_seen members.now)) }
{
    let attributes = attributes(alloc, member(members, "attributes"))?;
    if !has_no_transformers(member(members, "storage_transformers")) {
        return Err(ArrayMetadataError::UnsupportedStorageTransformers);
    }
    let names = dimension_names(alloc, axes, member(members, "dimension_names"))?;
    check_unknown_keys(alloc, members)?;
    Ok(OtherKeys {
        attributes,
        dimension_names: names,
        additional: copy_additional(members, alloc)?,
    })
}
