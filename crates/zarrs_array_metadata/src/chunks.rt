//! An array's shape, that of its chunks, and under which keys these are stored, read from JSON.
ghost use Rattle.std.specs.Prelude.{◌≡◌, ◌++◌, IfOk, Ok, Some};
ghost use Rattle.std.specs.Option.{option_map};
ghost use Rattle.serde_json.specs.View.{view, items_view};
ghost use Rattle.zarrs_chunk.specs.Answer.{Answers};
ghost use Rattle.zarrs_metadata.specs.MetadataV3.{lent_members};
ghost use Rattle.zarrs_metadata.specs.Trees.{lent_tree};
ghost use Rattle.zarrs_array_metadata.specs.ArrayMetadataError.{ArrayAnswers, ArrayItems};
ghost use Rattle.zarrs_array_metadata.specs.ChunksRead.{sizes_among, sizes_in, array_shape_at, chunk_sizes, chunk_shape_at, separator_named, separator_in, key_encoding_named, chunk_key_encoding_at, member_of};

use crate::array_metadata_error::{ArrayKey, ArrayMetadataError};
use crate::codecs::extension;
use serde_json::Value;
use std::alloc::{AllocError, Global};
use zarrs_array_plan::{ChunkKeyEncoding, ChunkKeySeparator};
use zarrs_chunk::ChunkShape;
use zarrs_metadata::{Configuration, member};

/// The whole numbers that a list's items are, where each is one.
fn sizes_of_items(alloc: Global, items: &Vec<Value>) -> Result<Option<Vec<u64>>, AllocError>
    ensures answer { IfOk result (λ found. option_map (λ v. v.items) found
        ≡ sizes_among (items_view items.now.items)) }
{
    let mut sizes = Vec::new(alloc);
    for item in items {
        let Some(size) = item.as_u64() else {
            return Ok(None);
        };
        sizes.push(size)?;
    }
    Ok(Some(sizes))
}

fn sizes(alloc: Global, tree: Option<&Value>) -> Result<Option<Vec<u64>>, AllocError>
    ensures answer { IfOk result (λ found. option_map (λ v. v.items) found
        ≡ sizes_in (lent_tree tree.entry)) }
{
    match tree {
        Some(Value::Array(items)) => sizes_of_items(alloc, items),
        _ => Ok(None),
    }
}

/// The array's shape.
pub(crate) fn shape(alloc: Global, tree: Option<&Value>) -> Result<Vec<u64>, ArrayMetadataError>
    ensures answer { ArrayItems result (array_shape_at (lent_tree tree.entry)) }
{
    match sizes(alloc, tree)? {
        Some(sizes) => Ok(sizes),
        None => Err(ArrayMetadataError::InvalidShape),
    }
}

/// What a configuration has at a key, where there is a configuration.
fn member_in<'v>(configuration: Option<&'v Configuration>, key: &str) -> Option<&'v Value>
    ensures value { lent_tree result ≡ member_of key.now (lent_members configuration.entry) }
{
    match configuration {
        Some(members) => member(members, key),
        None => None,
    }
}

/// The shape of chunks that the configuration of a regular grid has.
fn regular_chunk_shape(
    alloc: Global,
    axes: usize,
    configuration: Option<&Configuration>,
) -> Result<ChunkShape, ArrayMetadataError>
    ensures answer { ArrayAnswers (λ shape. shape) result
        (chunk_sizes axes (lent_members configuration.entry)) }
{
    let Some(sizes) = sizes(alloc, member_in(configuration, "chunk_shape"))? else {
        return Err(ArrayMetadataError::InvalidChunkShape);
    };
    let count = sizes.len();
    let Some(chunk_shape) = ChunkShape::new(sizes) else {
        return Err(ArrayMetadataError::ZeroSize);
    };
    if count != axes {
        return Err(ArrayMetadataError::IncompatibleDimensionality);
    }
    Ok(chunk_shape)
}

/// The shape of the chunks that an array of so many axes is divided into.
pub(crate) fn chunk_shape(
    alloc: Global,
    axes: usize,
    tree: Option<&Value>,
) -> Result<ChunkShape, ArrayMetadataError>
    ensures answer { ArrayAnswers (λ shape. shape) result
        (chunk_shape_at axes (lent_tree tree.entry)) }
{
    let Some(grid) = extension(alloc, tree)? else {
        return Err(ArrayMetadataError::UnsupportedChunkGrid);
    };
    if grid.name() != "regular" {
        return Err(ArrayMetadataError::UnsupportedChunkGrid);
    }
    regular_chunk_shape(alloc, axes, grid.configuration())
}

fn separator_by_name(name: &str) -> Option<ChunkKeySeparator>
    ensures value { result ≡ separator_named name.now }
{
    match name {
        "/" => Some(ChunkKeySeparator::Slash),
        "." => Some(ChunkKeySeparator::Dot),
        _ => None,
    }
}

/// The separator that a configuration has, or the usual one.
fn separator(
    usual: ChunkKeySeparator,
    tree: Option<&Value>,
) -> Result<ChunkKeySeparator, ArrayMetadataError>
    ensures answer { result ≡ separator_in usual (lent_tree tree.entry) }
{
    match tree {
        None => Ok(usual),
        Some(Value::String(name)) => match separator_by_name(name.as_str()) {
            Some(separator) => Ok(separator),
            None => Err(ArrayMetadataError::InvalidSeparator),
        },
        Some(_) => Err(ArrayMetadataError::InvalidSeparator),
    }
}

fn key_encoding_by_name(
    name: &str,
    configuration: Option<&Configuration>,
) -> Result<ChunkKeyEncoding, ArrayMetadataError>
    ensures answer { result ≡ key_encoding_named name.now (lent_members configuration.entry) }
{
    let tree = member_in(configuration, "separator");
    match name {
        "default" => {
            let found = separator(ChunkKeySeparator::Slash, tree)?;
            Ok(ChunkKeyEncoding::Default(found))
        }
        "v2" => {
            let found = separator(ChunkKeySeparator::Dot, tree)?;
            Ok(ChunkKeyEncoding::V2(found))
        }
        _ => Err(ArrayMetadataError::UnsupportedChunkKeyEncoding),
    }
}

/// How the indices of a chunk make its key.
pub(crate) fn chunk_key_encoding(
    alloc: Global,
    tree: Option<&Value>,
) -> Result<ChunkKeyEncoding, ArrayMetadataError>
    ensures answer { ArrayAnswers (λ keys. keys) result
        (chunk_key_encoding_at (lent_tree tree.entry)) }
{
    match extension(alloc, tree)? {
        Some(encoding) => key_encoding_by_name(encoding.name(), encoding.configuration()),
        None => Err(ArrayMetadataError::UnsupportedChunkKeyEncoding),
    }
}
