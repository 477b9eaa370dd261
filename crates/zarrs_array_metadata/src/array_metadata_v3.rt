//! The metadata of an array, read from JSON.
ghost use Rattle.std.specs.Prelude.{◌≡◌, ok_or};
ghost use Rattle.serde_json.specs.Read.{read};
ghost use Rattle.serde_json.specs.View.{view};
ghost use Rattle.zarrs_metadata.specs.MetadataV3.{configuration_seen};
ghost use Rattle.zarrs_metadata.specs.Trees.{lent_tree};
ghost use Rattle.zarrs_array_metadata.specs.ArrayMetadataError.{ArrayAnswers};
ghost use Rattle.zarrs_array_metadata.specs.ArrayMetadata.{array_seen, element_name_at, data_type_of, fill_at, array_in, array_of, array_in_text};

use crate::array_metadata_error::ArrayMetadataError;
use crate::chunks::{chunk_key_encoding, chunk_shape, shape};
use crate::codecs::codecs;
use crate::needed::check_array;
use crate::others::other_keys;
use serde_json::Value;
use std::alloc::{AllocError, Global};
use zarrs_array_plan::ChunkKeyEncoding;
use zarrs_chunk::ChunkShape;
use zarrs_data_type::{DataType, FillValue};
use zarrs_fill_values::ElementName;
use zarrs_metadata::{Configuration, MetadataV3, member};

/// The metadata of an array (Zarr v3 core specification, "Array metadata").
#[derive(Debug, Drop)]
pub struct ArrayMetadataV3 {
    /// The array's shape, in elements. A size may be 0.
    pub shape: Vec<u64>,
    /// The type of its elements by its name, which says more of it than `data_type`.
    pub element_name: ElementName,
    /// The type of its elements as chunks know it.
    pub data_type: DataType,
    /// The shape of the chunks of its regular grid.
    pub chunk_shape: ChunkShape,
    /// How the indices of a chunk make its key.
    pub chunk_key_encoding: ChunkKeyEncoding,
    /// The element that stands where nothing is stored.
    pub fill_value: FillValue,
    /// The metadata of the codecs, of which a chain isn't made here.
    pub codecs: Vec<MetadataV3>,
    /// What users say of the array, where they do.
    pub attributes: Option<Configuration>,
    /// The names of its axes, where they are given: one an axis, or none of that axis.
    pub dimension_names: Option<Vec<Option<String>>>,
    /// The members of all other keys, as they are.
    pub additional: Configuration,
}

fn element_name(tree: Option<&Value>) -> Result<ElementName, ArrayMetadataError>
    ensures answer { result ≡ element_name_at (lent_tree tree.entry) }
{
    match tree {
        Some(tree) => Ok(ElementName::from_value(tree)?),
        None => Err(ArrayMetadataError::UnsupportedDataType),
    }
}

fn data_type(alloc: Global, name: ElementName) -> Result<DataType, ArrayMetadataError>
    ensures answer { ArrayAnswers (λ data_type. data_type) result (data_type_of name) }
{
    Ok(name.data_type(alloc)?)
}

fn fill_value(
    alloc: Global,
    name: ElementName,
    tree: Option<&Value>,
) -> Result<FillValue, ArrayMetadataError>
    ensures answer { ArrayAnswers (λ fill. fill) result
        (fill_at name (lent_tree tree.entry)) }
{
    match tree {
        Some(tree) => Ok(name.fill_value_from_metadata(alloc, tree)?),
        None => Err(ArrayMetadataError::InvalidFillValue),
    }
}

fn array_among(
    alloc: Global,
    members: &Configuration,
) -> Result<ArrayMetadataV3, ArrayMetadataError>
    ensures answer { ArrayAnswers array_seen result (array_in (configuration_seen members.now)) }
{
    check_array(members)?;
    let shape = shape(alloc, member(members, "shape"))?;
    let element_name = element_name(member(members, "data_type"))?;
    let data_type = data_type(alloc, element_name)?;
    let chunk_shape = chunk_shape(alloc, shape.len(), member(members, "chunk_grid"))?;
    let keys = chunk_key_encoding(alloc, member(members, "chunk_key_encoding"))?;
    let fill_value = fill_value(alloc, element_name, member(members, "fill_value"))?;
    let codecs = codecs(alloc, member(members, "codecs"))?;
    let others = other_keys(alloc, shape.len(), members)?;
    Ok(ArrayMetadataV3 {
        shape,
        element_name,
        data_type,
        chunk_shape,
        chunk_key_encoding: keys,
        fill_value,
        codecs,
        attributes: others.attributes,
        dimension_names: others.dimension_names,
        additional: others.additional,
    })
}

fn read_tree(alloc: Global, text: &str) -> Result<Value, ArrayMetadataError>
    ensures answer { ArrayAnswers view result (ok_or (read text.now) ArrayMetadataError.NotJson) }
{
    match Value::from_str(alloc, text) {
        Ok(tree) => Ok(tree),
        Err(error) => {
            if error.is_memory() {
                Err(AllocError.into())
            } else {
                Err(ArrayMetadataError::NotJson)
            }
        }
    }
}

impl ArrayMetadataV3 {
    /// The metadata of a JSON tree, an object. Errors, the first that holds, `OutOfMemory` aside:
    /// `NotAnObject`; `UnsupportedFormat`; `NotAnArray`; `MissingKey`, of the first key missing in the
    /// order of [`ArrayKey`](crate::ArrayKey); those of its keys: `InvalidShape`;
    /// `UnsupportedDataType`; of `chunk_grid` `UnsupportedChunkGrid`, `InvalidChunkShape`, `ZeroSize`
    /// and `IncompatibleDimensionality`; of `chunk_key_encoding` `UnsupportedChunkKeyEncoding` and
    /// `InvalidSeparator`; `InvalidFillValue`; `InvalidCodecs`; `InvalidAttributes`;
    /// `UnsupportedStorageTransformers`; `InvalidDimensionNames`; at last `UnknownKey`, of the first
    /// key, in the order of keys, that isn't known and has to be understood.
    ///
    /// A grid, a key encoding and a codec are each a name, or an object with a `name` and maybe a
    /// `configuration`, in which no number is a float. A grid and a key encoding have to be understood,
    /// whatever `must_understand` says there. The codecs' names and settings are looked at where a
    /// chain is made of them.
    pub fn from_value(alloc: Global, tree: &Value) -> Result<ArrayMetadataV3, ArrayMetadataError>
        ensures answer { ArrayAnswers array_seen result (array_of (view tree.now)) }
    {
        match tree {
            Value::Object(members) => array_among(alloc, members),
            _ => Err(ArrayMetadataError::NotAnObject),
        }
    }

    /// The metadata that a text is in JSON, as `serde_json` reads it: of values of one key in an
    /// object the last one stands, and lists and objects in each other are 127 deep at most.
    ///
    /// Errors, the first that holds: `NotJson`; those of `from_value`.
    pub fn from_json(alloc: Global, text: &str) -> Result<ArrayMetadataV3, ArrayMetadataError>
        ensures answer { ArrayAnswers array_seen result (array_in_text text.now) }
    {
        let tree = read_tree(alloc, text)?;
        ArrayMetadataV3::from_value(alloc, &tree)
    }
}
