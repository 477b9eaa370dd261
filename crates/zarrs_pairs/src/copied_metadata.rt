//! Metadata that is copied.
ghost use Rattle.std.specs.Prelude.{◌≡◌, Ok, IfOk, true};
ghost use Rattle.zarrs_metadata.specs.Metadata.{understood};
ghost use Rattle.zarrs_metadata.specs.MetadataV3.{configuration_seen, metadata_seen};
ghost use Rattle.zarrs_metadata.specs.PluginCreateError.{Makes};

use serde_json::Map;
use std::alloc::{AllocError, Global};
use zarrs_metadata::{Configuration, MetadataV3, PluginCreateError};

/// A configuration with the same members.
fn copy_members(alloc: Global, members: &Configuration) -> Result<Configuration, AllocError>
    ensures copy { IfOk result (λ copy. configuration_seen copy ≡ configuration_seen members.now) }
{
    let mut copies = Map::new(alloc);
    for (key, member) in members.iter() {
        let name = key.clone()?;
        let value = member.clone()?;
        drop(copies.insert(name, value)?);
    }
    Ok(copies)
}

/// The same metadata, which has to be understood.
fn copy_understood(alloc: Global, metadata: &MetadataV3) -> Result<MetadataV3, PluginCreateError>
    ensures copy { Makes metadata_seen result
        (Ok (understood true (metadata_seen metadata.now))) }
{
    match metadata.configuration() {
        None => MetadataV3::new(alloc, metadata.name()),
        Some(members) => {
            let copy = copy_members(alloc, members)?;
            MetadataV3::new_with_configuration(alloc, metadata.name(), copy)
        }
    }
}

/// The same metadata.
pub(crate) fn copy_metadata(
    alloc: Global,
    metadata: &MetadataV3,
) -> Result<MetadataV3, PluginCreateError>
    ensures copy { Makes metadata_seen result (Ok (metadata_seen metadata.now)) }
{
    let copy = copy_understood(alloc, metadata)?;
    Ok(copy.with_must_understand(metadata.must_understand()))
}
