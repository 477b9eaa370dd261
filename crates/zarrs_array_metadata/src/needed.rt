//! What the metadata of an array has to say before its keys are read.
ghost use Rattle.std.specs.Prelude.{◌≡◌};
ghost use Rattle.zarrs_metadata.specs.MetadataV3.{configuration_seen};
ghost use Rattle.zarrs_metadata.specs.Trees.{lent_tree};
ghost use Rattle.zarrs_array_metadata.specs.NeededKeys.{is_format_3 as says_format_3, is_array_node as says_array, needed_key as key_there, needed_keys as keys_there, is_of_array};

use crate::array_metadata_error::{ArrayKey, ArrayMetadataError};
use serde_json::Value;
use zarrs_metadata::{Configuration, member};

fn is_format_3(tree: Option<&Value>) -> bool
    ensures value { result ≡ says_format_3 (lent_tree tree.entry) }
{
    match tree {
        Some(tree) => tree.as_u64() == Some(3),
        None => false,
    }
}

fn is_array_node(tree: Option<&Value>) -> bool
    ensures value { result ≡ says_array (lent_tree tree.entry) }
{
    match tree {
        Some(Value::String(kind)) => kind.as_str() == "array",
        _ => false,
    }
}

fn needed_key(members: &Configuration, key: ArrayKey) -> Result<(), ArrayMetadataError>
    ensures answer { result ≡ key_there key (configuration_seen members.now) }
{
    match member(members, key.as_str()) {
        Some(_) => Ok(()),
        None => Err(ArrayMetadataError::MissingKey(key)),
    }
}

fn needed_keys(members: &Configuration) -> Result<(), ArrayMetadataError>
    ensures answer { result ≡ keys_there (configuration_seen members.now) }
{
    needed_key(members, ArrayKey::Shape)?;
    needed_key(members, ArrayKey::DataType)?;
    needed_key(members, ArrayKey::ChunkGrid)?;
    needed_key(members, ArrayKey::ChunkKeyEncoding)?;
    needed_key(members, ArrayKey::FillValue)?;
    needed_key(members, ArrayKey::Codecs)
}

/// The metadata is one of an array in version 3, and has each key that it has to have.
pub(crate) fn check_array(members: &Configuration) -> Result<(), ArrayMetadataError>
    ensures answer { result ≡ is_of_array (configuration_seen members.now) }
{
    if !is_format_3(member(members, "zarr_format")) {
        return Err(ArrayMetadataError::UnsupportedFormat);
    }
    if !is_array_node(member(members, "node_type")) {
        return Err(ArrayMetadataError::NotAnArray);
    }
    needed_keys(members)
}
