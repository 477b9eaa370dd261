//! Extension points, and the list of codecs, read from JSON.
ghost use Rattle.std.specs.Prelude.{◌≡◌, IfOk};
ghost use Rattle.std.specs.Option.{option_map};
ghost use Rattle.serde_json.specs.View.{view, items_view};
ghost use Rattle.zarrs_metadata.specs.MetadataV3.{metadata_seen, metadatas_in};
ghost use Rattle.zarrs_metadata.specs.Trees.{lent_tree};
ghost use Rattle.zarrs_array_metadata.specs.ArrayMetadataError.{ArrayAnswers};
ghost use Rattle.zarrs_array_metadata.specs.Extensions.{extension_of, extension_at, codecs_among, codec_list_at};

use crate::array_metadata_error::ArrayMetadataError;
use serde_json::Value;
use std::alloc::{AllocError, Global};
use zarrs_metadata::{MetadataV3, PluginCreateError};

/// The name and the configuration of an extension point, where the tree is one.
fn extension_in(alloc: Global, tree: &Value) -> Result<Option<MetadataV3>, AllocError>
    ensures answer { IfOk result (λ found. option_map metadata_seen found
        ≡ extension_of (view tree.now)) }
{
    match MetadataV3::from_value(alloc, tree) {
        Ok(metadata) => Ok(Some(metadata)),
        Err(PluginCreateError::OutOfMemory) => Err(AllocError),
        Err(_) => Ok(None),
    }
}

/// The same, of a tree that may be missing.
pub(crate) fn extension(
    alloc: Global,
    tree: Option<&Value>,
) -> Result<Option<MetadataV3>, AllocError>
    ensures answer { IfOk result (λ found. option_map metadata_seen found
        ≡ extension_at (lent_tree tree.entry)) }
{
    match tree {
        Some(tree) => extension_in(alloc, tree),
        None => Ok(None),
    }
}

fn codecs_of_items(alloc: Global, items: &Vec<Value>) -> Result<Vec<MetadataV3>, ArrayMetadataError>
    ensures answer { ArrayAnswers metadatas_in result (codecs_among (items_view items.now.items)) }
{
    let mut codecs = Vec::with_capacity(alloc, items.len())?;
    for item in items {
        let Some(codec) = extension_in(alloc, item)? else {
            return Err(ArrayMetadataError::InvalidCodecs);
        };
        codecs.push(codec)?;
    }
    Ok(codecs)
}

/// The metadata of the codecs.
pub(crate) fn codecs(
    alloc: Global,
    tree: Option<&Value>,
) -> Result<Vec<MetadataV3>, ArrayMetadataError>
    ensures answer { ArrayAnswers metadatas_in result (codec_list_at (lent_tree tree.entry)) }
{
    match tree {
        Some(Value::Array(items)) => codecs_of_items(alloc, items),
        _ => Err(ArrayMetadataError::InvalidCodecs),
    }
}
