//! The metadata of an array, written as JSON.
ghost use Rattle.std.specs.Prelude.{◌≡◌, ◌≤◌, IfOk, OnOk, Ok, Some, map, string_bytes};
ghost use Rattle.std.specs.Option.{option_map};
ghost use Rattle.serde_json.specs.Data.{object};
ghost use Rattle.serde_json.specs.View.{view};
ghost use Rattle.zarrs_chunk.specs.Answer.{AnswersBy};
ghost use Rattle.zarrs_fill_values.specs.NameTree.{name_tree as tree_of_type};
ghost use Rattle.zarrs_metadata.specs.MetadataV3.{configuration_seen, metadata_seen, metadatas_seen, lent_members};
ghost use Rattle.zarrs_metadata.specs.Trees.{numbers_tree};
ghost use Rattle.zarrs_array_metadata.specs.ArrayMetadata.{array_seen, array_of};
ghost use Rattle.zarrs_array_metadata.specs.ArrayMetadataError.{array_memory, ArrayAnswers};
ghost use Rattle.zarrs_array_metadata.specs.Laws.{IsArrayMetadata, IsTextOf};
ghost use Rattle.zarrs_array_metadata.specs.OtherKeys.{name_seen, names_seen};
ghost use Rattle.zarrs_array_metadata.specs.Written.{extension_tree as tree_of_extension, grid_tree as tree_of_grid, separator_text as text_of_separator, key_encoding_tree as tree_of_keys, named_object as object_of_name, codec_tree as tree_of_codec, codecs_tree as tree_of_codecs, dimension_name_tree as tree_of_name, dimension_names_tree as tree_of_names, with_attributes, with_names, put_all, needed_entries, array_members, write_array};

use crate::array_metadata_error::ArrayMetadataError;
use crate::array_metadata_v3::ArrayMetadataV3;
use crate::kept_members::copy_members;
use serde_json::{Map, Value};
use std::alloc::{AllocError, Global};
use zarrs_array_plan::{ChunkKeyEncoding, ChunkKeySeparator};
use zarrs_metadata::{Configuration, MetadataV3};

/// The list of whole numbers.
fn numbers_of(alloc: Global, numbers: &[u64]) -> Result<Value, AllocError>
    ensures value { IfOk result (λ tree. view tree ≡ numbers_tree numbers.now) }
{
    let mut items = Vec::with_capacity(alloc, numbers.len())?;
    for number in numbers {
        items.push(Value::from(*number))?;
    }
    Ok(Value::Array(items))
}

/// The object of an extension point's name and configuration.
fn extension_tree(
    alloc: Global,
    name: &str,
    configuration: Configuration,
) -> Result<Value, AllocError>
    ensures value { IfOk result (λ tree. view tree
        ≡ tree_of_extension name.now (configuration_seen configuration)) }
{
    let mut members = Map::new(alloc);
    serde_json::put(
        &mut members,
        alloc,
        "configuration",
        Value::Object(configuration),
    )?;
    let name = Value::try_from_str(alloc, name)?;
    serde_json::put(&mut members, alloc, "name", name)?;
    Ok(Value::Object(members))
}

/// The regular grid of chunks of these sizes.
fn grid_tree(alloc: Global, chunk_shape: &[u64]) -> Result<Value, AllocError>
    ensures value { IfOk result (λ tree. view tree ≡ tree_of_grid chunk_shape.now) }
{
    let sizes = numbers_of(alloc, chunk_shape)?;
    let mut members = Map::new(alloc);
    serde_json::put(&mut members, alloc, "chunk_shape", sizes)?;
    extension_tree(alloc, "regular", members)
}

fn separator_text(separator: ChunkKeySeparator) -> &'static str
    ensures value { result.now ≡ text_of_separator separator }
{
    match separator {
        ChunkKeySeparator::Slash => "/",
        ChunkKeySeparator::Dot => ".",
    }
}

fn key_encoding_tree(alloc: Global, keys: ChunkKeyEncoding) -> Result<Value, AllocError>
    ensures value { IfOk result (λ tree. view tree ≡ tree_of_keys keys) }
{
    let (name, separator) = match keys {
        ChunkKeyEncoding::Default(separator) => ("default", separator),
        ChunkKeyEncoding::V2(separator) => ("v2", separator),
    };
    let text = Value::try_from_str(alloc, separator_text(separator))?;
    let mut members = Map::new(alloc);
    serde_json::put(&mut members, alloc, "separator", text)?;
    extension_tree(alloc, name, members)
}

/// A name alone as an object, and any other tree as it is.
fn named_object(alloc: Global, tree: Value) -> Result<Value, AllocError>
    ensures value { IfOk result (λ named. view named ≡ object_of_name (view tree)) }
{
    match tree {
        Value::String(name) => {
            let mut members = Map::new(alloc);
            serde_json::put(&mut members, alloc, "name", Value::String(name))?;
            Ok(Value::Object(members))
        }
        other => Ok(other),
    }
}

fn codec_tree(alloc: Global, codec: &MetadataV3) -> Result<Value, AllocError>
    ensures value { IfOk result (λ tree. view tree ≡ tree_of_codec (metadata_seen codec.now)) }
{
    match codec.to_value(alloc) {
        Ok(tree) => named_object(alloc, tree),
        Err(_) => Err(AllocError),
    }
}

fn codecs_tree(alloc: Global, codecs: &[MetadataV3]) -> Result<Value, AllocError>
    ensures value { IfOk result (λ tree. view tree ≡ tree_of_codecs (metadatas_seen codecs.now)) }
{
    let mut items = Vec::with_capacity(alloc, codecs.len())?;
    for codec in codecs {
        items.push(codec_tree(alloc, codec)?)?;
    }
    Ok(Value::Array(items))
}

fn name_tree(name: &Option<String>) -> Result<Value, AllocError>
    ensures value { IfOk result (λ tree. view tree ≡ tree_of_name (name_seen name.now)) }
{
    match name {
        None => Ok(Value::Null),
        Some(text) => Ok(Value::String(text.clone()?)),
    }
}

fn names_tree(alloc: Global, names: &[Option<String>]) -> Result<Value, AllocError>
    ensures value { IfOk result (λ tree. view tree ≡ tree_of_names (map name_seen names.now)) }
{
    let mut items = Vec::with_capacity(alloc, names.len())?;
    for name in names {
        items.push(name_tree(name)?)?;
    }
    Ok(Value::Array(items))
}

fn type_tree(alloc: Global, metadata: &ArrayMetadataV3) -> Result<Value, AllocError>
    ensures value { IfOk result (λ tree. view tree ≡ tree_of_type metadata.now.element_name) }
{
    match metadata.element_name.to_value(alloc) {
        Ok(tree) => Ok(tree),
        Err(_) => Err(AllocError),
    }
}

fn put_attributes(
    alloc: Global,
    members: &mut Configuration,
    attributes: Option<&Configuration>,
) -> Result<(), AllocError>
    ensures written { OnOk result (configuration_seen members.new
        ≡ with_attributes (lent_members attributes.entry) (configuration_seen members.old)) }
{
    if let Some(attributes) = attributes {
        let copy = Value::Object(copy_members(attributes, alloc)?);
        serde_json::put(members, alloc, "attributes", copy)?;
    }
    Ok(())
}

fn put_names(
    alloc: Global,
    members: &mut Configuration,
    names: Option<&Vec<Option<String>>>,
) -> Result<(), AllocError>
    ensures written { OnOk result (configuration_seen members.new
        ≡ with_names (option_map (λ v. names_seen v.now) names.entry) (configuration_seen members.old)) }
{
    if let Some(names) = names {
        let tree = names_tree(alloc, names.as_slice())?;
        serde_json::put(members, alloc, "dimension_names", tree)?;
    }
    Ok(())
}

/// Puts what stands at each key that has to be there.
fn put_needed(
    alloc: Global,
    members: &mut Configuration,
    metadata: &ArrayMetadataV3,
    fill: Value,
) -> Result<(), AllocError>
    ensures written { OnOk result (configuration_seen members.new
        ≡ put_all (needed_entries (array_seen metadata.now) (view fill)) (configuration_seen members.old)) }
{
    let codecs = codecs_tree(alloc, metadata.codecs.as_slice())?;
    serde_json::put(members, alloc, "codecs", codecs)?;
    serde_json::put(members, alloc, "fill_value", fill)?;
    let keys = key_encoding_tree(alloc, metadata.chunk_key_encoding)?;
    serde_json::put(members, alloc, "chunk_key_encoding", keys)?;
    let grid = grid_tree(alloc, metadata.chunk_shape.as_slice())?;
    serde_json::put(members, alloc, "chunk_grid", grid)?;
    let data_type = type_tree(alloc, metadata)?;
    serde_json::put(members, alloc, "data_type", data_type)?;
    let shape = numbers_of(alloc, metadata.shape.as_slice())?;
    serde_json::put(members, alloc, "shape", shape)?;
    let node = Value::try_from_str(alloc, "array")?;
    serde_json::put(members, alloc, "node_type", node)?;
    serde_json::put(members, alloc, "zarr_format", Value::from(3u64))?;
    Ok(())
}

fn array_object(
    alloc: Global,
    metadata: &ArrayMetadataV3,
    fill: Value,
) -> Result<Configuration, AllocError>
    ensures value { IfOk result (λ members. configuration_seen members
        ≡ array_members (array_seen metadata.now) (view fill)) }
{
    let mut members = copy_members(&metadata.additional, alloc)?;
    put_names(alloc, &mut members, metadata.dimension_names.as_ref())?;
    put_attributes(alloc, &mut members, metadata.attributes.as_ref())?;
    put_needed(alloc, &mut members, metadata, fill)?;
    Ok(members)
}

fn array_tree(alloc: Global, metadata: &ArrayMetadataV3, fill: Value) -> Result<Value, AllocError>
    ensures value { IfOk result (λ tree. view tree
        ≡ object (array_members (array_seen metadata.now) (view fill))) }
{
    Ok(Value::Object(array_object(alloc, metadata, fill)?))
}

impl ArrayMetadataV3 {
    /// The JSON tree, an object: each key that has to be there, `attributes` and `dimension_names` where
    /// there are some, and the other keys as they are. The grid, the key encoding and each codec are
    /// objects, since readers of Zarr 3.0 take no name alone there. Errors: `InvalidFillValue` where the
    /// fill value isn't one of the type; `OutOfMemory`.
    pub fn to_value(&self, alloc: Global) -> Result<Value, ArrayMetadataError>
        ensures answer { ArrayAnswers view result (write_array (array_seen self.now)) }
        ensures read_again { IfOk result (λ tree. IsArrayMetadata (array_seen self.now)
            → array_of (view tree) ≡ Ok (array_seen self.now)) }
    {
        let fill = self
            .element_name
            .metadata_fill_value(alloc, &self.fill_value)?;
        Ok(array_tree(alloc, self, fill)?)
    }

    /// The text of the JSON tree, without spaces. `from_json` reads it where lists and objects in each
    /// other are 127 deep at most, as those are that it read. Errors: those of `to_value`.
    pub fn to_json(&self, alloc: Global) -> Result<String, ArrayMetadataError>
        ensures answer { AnswersBy array_memory IsTextOf result (write_array (array_seen self.now)) }
    {
        let tree = self.to_value(alloc)?;
        Ok(tree.to_string(alloc)?)
    }
}
