//! What metadata reads from JSON trees, and writes as them.
ghost use Rattle.zarrs_metadata.specs.MetadataV3.{configuration_seen};
ghost use Rattle.std.specs.Prelude.{◌≡◌, IfOk};
ghost use Rattle.serde_json.specs.Written.{has_float, items_have_float, members_have_float};
ghost use Rattle.serde_json.specs.View.{view, items_view};
ghost use Rattle.serde_json.specs.Find.{get_member};
ghost use Rattle.zarrs_metadata.specs.PluginCreateError.{Makes};
ghost use Rattle.zarrs_metadata.specs.Trees.{lent_tree, needed, whole_number, numbers_in, number_list, numbers_tree};

use crate::metadata_v3::Configuration;
use crate::plugin_create_error::PluginCreateError;
use serde_json::{Map, Value};
use std::alloc::{AllocError, Global};

/// Whether a number at any depth is a float.
#[cycle(floats)]
pub fn holds_float(tree: &Value) -> bool
    ensures value { result ≡ has_float (view tree.now) }
{
    match tree {
        Value::Null => false,
        Value::Bool(_) => false,
        Value::Number(number) => number.is_f64(),
        Value::String(_) => false,
        Value::Array(items) => items_hold_float(items),
        Value::Object(members) => members_hold_float(members),
    }
}

#[cycle(floats)]
fn items_hold_float(items: &Vec<Value>) -> bool
    ensures value { result ≡ items_have_float (items_view items.now.items) }
{
    for item in items {
        if holds_float(item) {
            return true;
        }
    }
    false
}

/// The same of a configuration.
#[cycle(floats)]
pub(crate) fn members_hold_float(members: &Configuration) -> bool
    ensures value { result ≡ members_have_float (configuration_seen members.now) }
{
    for (key, member) in members.iter() {
        if holds_float(member) {
            return true;
        }
    }
    false
}

/// The value at a key of an object.
pub fn member<'v>(members: &'v Configuration, key: &str) -> Option<&'v Value>
    ensures value { lent_tree result ≡ get_member key.now (configuration_seen members.now) }
{
    members.get(key)
}

/// An object with the same members.
pub(crate) fn copy_members(
    members: &Configuration,
    alloc: Global,
) -> Result<Configuration, AllocError>
    ensures copy { IfOk result (λ copy. configuration_seen copy ≡ configuration_seen members.now) }
{
    let mut copies = Map::new(alloc);
    for (key, member) in members.iter() {
        let name = key.clone()?;
        let value = member.clone()?;
        drop(copies.insert(name, value)?);
    }
    Ok(copies)
}

/// The whole numbers of a list's items. Errors: `InvalidConfiguration` where anything else is among
/// them; `OutOfMemory`.
pub(crate) fn numbers_among(
    alloc: Global,
    items: &Vec<Value>,
) -> Result<Vec<u64>, PluginCreateError>
    ensures answer { Makes (λ v. v.items) result (numbers_in (items_view items.now.items)) }
{
    let mut numbers = Vec::new(alloc);
    for item in items {
        let number = number(item)?;
        numbers.push(number)?;
    }
    Ok(numbers)
}

fn number(tree: &Value) -> Result<u64, PluginCreateError>
    ensures answer { result ≡ needed (whole_number (view tree.now)) }
{
    tree.as_u64().ok_or(PluginCreateError::InvalidConfiguration)
}

/// The whole numbers of a list. Errors: `InvalidConfiguration` where the tree is anything else;
/// `OutOfMemory`.
pub(crate) fn numbers(alloc: Global, tree: &Value) -> Result<Vec<u64>, PluginCreateError>
    ensures answer { Makes (λ v. v.items) result (number_list (view tree.now)) }
{
    match tree {
        Value::Array(items) => numbers_among(alloc, items),
        _ => Err(PluginCreateError::InvalidConfiguration),
    }
}

/// The list of whole numbers.
pub(crate) fn numbers_of(alloc: Global, numbers: &[u64]) -> Result<Value, AllocError>
    ensures value { IfOk result (λ tree. view tree ≡ numbers_tree numbers.now) }
{
    let mut items = Vec::with_capacity(alloc, numbers.len())?;
    for number in numbers {
        items.push(Value::from(*number))?;
    }
    Ok(Value::Array(items))
}
