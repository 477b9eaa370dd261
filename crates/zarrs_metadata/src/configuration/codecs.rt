//! Lists of metadata inside a configuration, which nested chains are made from.
ghost use Rattle.std.specs.Prelude.{Ok};
ghost use Rattle.serde_json.specs.View.{view, items_view};
ghost use Rattle.zarrs_metadata.specs.MetadataList.{metadata_among, metadata_at, metadata_list_tree};
ghost use Rattle.zarrs_metadata.specs.MetadataV3.{metadatas_seen, metadatas_in, read_by};
ghost use Rattle.zarrs_metadata.specs.PluginCreateError.{Makes};

use crate::json::member;
use crate::metadata_v3::{Configuration, MetadataV3};
use crate::plugin_create_error::PluginCreateError;
use serde_json::Value;
use std::alloc::Global;

fn among(alloc: Global, items: &Vec<Value>) -> Result<Vec<MetadataV3>, PluginCreateError>
    ensures answer { Makes metadatas_in result (metadata_among (items_view items.now.items)) }
{
    let mut list = Vec::with_capacity(alloc, items.len())?;
    for item in items {
        list.push(MetadataV3::from_clean_value(alloc, item)?)?;
    }
    Ok(list)
}

/// The list of metadata at a key of a configuration without floats. Errors: `InvalidConfiguration`
/// where the key is missing or anything else; `OutOfMemory`.
pub(crate) fn codecs_at(
    alloc: Global,
    configuration: &Configuration,
    key: &str,
) -> Result<Vec<MetadataV3>, PluginCreateError>
    ensures answer { Makes metadatas_in result (read_by (metadata_at key.now) configuration.now) }
{
    let Some(Value::Array(items)) = member(configuration, key) else {
        return Err(PluginCreateError::InvalidConfiguration);
    };
    among(alloc, items)
}

/// The list of metadata, written. Errors: `OutOfMemory`.
pub(crate) fn tree_of_codecs(alloc: Global, list: &[MetadataV3]) -> Result<Value, PluginCreateError>
    ensures answer { Makes view result (Ok (metadata_list_tree (metadatas_seen list.now))) }
{
    let mut items = Vec::with_capacity(alloc, list.len())?;
    for metadata in list {
        items.push(metadata.to_value(alloc)?)?;
    }
    Ok(Value::Array(items))
}
