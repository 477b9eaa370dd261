//! Members of an object that are kept as they are.
ghost use Rattle.std.specs.Prelude.{◌≡◌, IfOk, OnOk};
ghost use Rattle.std.specs.Option.{option_map};
ghost use Rattle.serde_json.specs.View.{view};
ghost use Rattle.zarrs_metadata.specs.MetadataV3.{configuration_seen};
ghost use Rattle.zarrs_array_metadata.specs.ArrayMetadataError.{ArrayAnswers};
ghost use Rattle.zarrs_array_metadata.specs.Additional.{is_array_key as is_key_of_array, may_be_passed_over as passes, is_accepted as keeps, additional_of, with_additional, first_unknown, all_understood};

use crate::array_metadata_error::{ArrayMetadataError, KeyName};
use serde_json::{Map, Value};
use std::alloc::{AllocError, Global};
use zarrs_metadata::{Configuration, member};

/// An object with the same members.
pub(crate) fn copy_members(
    members: &Configuration,
    alloc: Global,
) -> Result<Configuration, AllocError>
    ensures copy { IfOk result (λ copy. configuration_seen copy ≡ configuration_seen members.now) }
{
    let mut copies = Map::new(alloc);
    for (key, member) in members.iter() {
        let name = key.clone()?;
        let value = member.clone()?;
        drop(copies.insert(name, value)?);
    }
    Ok(copies)
}

/// Whether the metadata of an array has a meaning for a key.
fn is_array_key(key: &str) -> bool
    ensures value { result ≡ is_key_of_array key.now }
{
    match key {
        "attributes" | "chunk_grid" | "chunk_key_encoding" | "codecs" => true,
        "data_type" | "dimension_names" | "fill_value" | "node_type" => true,
        "shape" | "storage_transformers" | "zarr_format" => true,
        _ => false,
    }
}

/// Puts a copy of a member, unless its key has a meaning for the metadata of an array.
fn put_additional(
    copies: &mut Configuration,
    alloc: Global,
    key: &str,
    tree: &Value,
) -> Result<(), AllocError>
    ensures written { OnOk result (configuration_seen copies.new
        ≡ with_additional key.now (view tree.now) (configuration_seen copies.old)) }
{
    if !is_array_key(key) {
        serde_json::put(copies, alloc, key, tree.clone()?)?;
    }
    Ok(())
}

/// The members whose keys have no meaning for the metadata of an array.
pub(crate) fn copy_additional(
    members: &Configuration,
    alloc: Global,
) -> Result<Configuration, AllocError>
    ensures copy { IfOk result
        (λ copy. configuration_seen copy ≡ additional_of (configuration_seen members.now)) }
{
    let mut copies = Map::new(alloc);
    for (key, member) in members.iter() {
        put_additional(&mut copies, alloc, key.as_str(), member)?;
    }
    Ok(copies)
}

/// Whether a value is an object that says that it need not be understood.
fn may_be_passed_over(tree: &Value) -> bool
    ensures value { result ≡ passes (view tree.now) }
{
    match tree {
        Value::Object(members) => match member(members, "must_understand") {
            Some(Value::Bool(must_understand)) => !*must_understand,
            _ => false,
        },
        _ => false,
    }
}

/// Whether a member is understood, or need not be.
fn is_accepted(key: &str, tree: &Value) -> bool
    ensures value { result ≡ keeps key.now (view tree.now) }
{
    is_array_key(key) || key == "consolidated_metadata" || may_be_passed_over(tree)
}

/// The first key that isn't known and has to be understood.
fn first_unknown_key(members: &Configuration) -> Option<&str>
    ensures value { option_map (λ key. key.now) result
        ≡ first_unknown (configuration_seen members.now) }
{
    for (key, member) in members.iter() {
        if !is_accepted(key.as_str(), member) {
            return Some(key.as_str());
        }
    }
    None
}

/// Each member is understood, or need not be.
pub(crate) fn check_unknown_keys(
    alloc: Global,
    members: &Configuration,
) -> Result<(), ArrayMetadataError>
    ensures answer { ArrayAnswers (λ done. done) result
        (all_understood (configuration_seen members.now)) }
{
    match first_unknown_key(members) {
        None => Ok(()),
        Some(key) => {
            let name = KeyName::new(String::from_str(alloc, key)?);
            Err(ArrayMetadataError::UnknownKey(name))
        }
    }
}
