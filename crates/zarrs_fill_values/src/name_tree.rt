//! Names of element types as JSON.
ghost use Rattle.std.specs.Prelude.{◌≡◌, Ok, IfOk, Some};
ghost use Rattle.serde_json.specs.View.{view};
ghost use Rattle.zarrs_metadata.specs.MetadataV3.{configuration_seen};
ghost use Rattle.zarrs_metadata.specs.Trees.{lent_tree};
ghost use Rattle.zarrs_fill_values.specs.ElementError.{ElementAnswers};
ghost use Rattle.zarrs_fill_values.specs.NameTree.{named as type_named, is_optional_text as is_name_of_optional, is_unconfigured as has_no_configuration, object_in as lent_object_in, inner_tree as tree_inside, bare_name as named_barely, one_level_more as with_level, level_round as level_round_of, has_no_members as is_empty, name_in, name_object, name_tree, optional_object as optional_object_of};

use crate::element_error::ElementError;
use crate::element_name::{ElementName, PlainName};
use crate::names::{plain_named, plain_text};
use serde_json::{Map, Value};
use std::alloc::{AllocError, Global};
use zarrs_metadata::{Configuration, member};

fn is_optional_text(name: &str) -> bool
    ensures value { result ≡ is_name_of_optional name.now }
{
    name == "zarrs.optional" || name == "optional"
}

fn named(name: &str) -> Result<ElementName, ElementError>
    ensures answer { result ≡ type_named (Some name.now) }
{
    match plain_named(name) {
        Some(plain) => Ok(ElementName::new(plain)),
        None => Err(ElementError::UnsupportedDataType),
    }
}

fn has_no_members(members: &Configuration) -> bool
    ensures value { result ≡ is_empty (configuration_seen members.now) }
{
    members.is_empty()
}

fn is_unconfigured(configuration: Option<&Value>) -> bool
    ensures value { result ≡ has_no_configuration (lent_tree configuration.entry) }
{
    match configuration {
        None => true,
        Some(Value::Null) => true,
        Some(Value::Object(members)) => has_no_members(members),
        Some(_) => false,
    }
}

fn object_in(configuration: Option<&Value>) -> Option<&Value>
    ensures value { lent_tree result ≡ lent_object_in (lent_tree configuration.entry) }
{
    let tree = configuration?;
    if tree.is_object() { Some(tree) } else { None }
}

/// What an object configures that names an optional type.
fn inner_tree(members: &Configuration) -> Option<&Value>
    ensures value { lent_tree result ≡ tree_inside (configuration_seen members.now) }
{
    match member(members, "name") {
        Some(Value::String(name)) => {
            if is_optional_text(name.as_str()) {
                object_in(member(members, "configuration"))
            } else {
                None
            }
        }
        _ => None,
    }
}

/// The type that an object names without a configuration.
fn bare_name(members: &Configuration) -> Result<ElementName, ElementError>
    ensures answer { result ≡ named_barely (configuration_seen members.now) }
{
    if !is_unconfigured(member(members, "configuration")) {
        return Err(ElementError::UnsupportedDataType);
    }
    match member(members, "name") {
        Some(Value::String(name)) => named(name.as_str()),
        _ => Err(ElementError::UnsupportedDataType),
    }
}

fn one_level_more(name: ElementName) -> Result<ElementName, ElementError>
    ensures answer { result ≡ with_level name }
{
    if name.levels < 255 {
        Ok(ElementName {
            plain: name.plain,
            levels: name.levels + 1,
        })
    } else {
        Err(ElementError::UnsupportedDataType)
    }
}

/// One optional type more round a type that was read.
fn level_round(inner: Result<ElementName, ElementError>) -> Result<ElementName, ElementError>
    ensures answer { result ≡ level_round_of inner }
{
    match inner {
        Ok(name) => one_level_more(name),
        Err(error) => Err(error),
    }
}

fn name_of(tree: &Value) -> Result<ElementName, ElementError>
    ensures answer { result ≡ name_in (view tree.now) }
{
    match tree {
        Value::String(name) => named(name.as_str()),
        Value::Object(members) => match inner_tree(members) {
            Some(inner) => level_round(name_of(inner)),
            None => bare_name(members),
        },
        _ => Err(ElementError::UnsupportedDataType),
    }
}

/// The object that names an optional type, by that of the type inside.
fn optional_object(alloc: Global, inner: Configuration) -> Result<Configuration, AllocError>
    ensures made { IfOk result (λ members. configuration_seen members
        ≡ optional_object_of (configuration_seen inner)) }
{
    let mut members = Map::new(alloc);
    serde_json::put(&mut members, alloc, "configuration", Value::Object(inner))?;
    let name = Value::try_from_str(alloc, "zarrs.optional")?;
    serde_json::put(&mut members, alloc, "name", name)?;
    Ok(members)
}

fn plain_object(alloc: Global, plain: PlainName) -> Result<Configuration, AllocError>
    ensures made { IfOk result (λ members. configuration_seen members ≡ name_object 0 plain) }
{
    let mut members = Map::new(alloc);
    let name = Value::String(plain_text(alloc, plain)?);
    serde_json::put(&mut members, alloc, "name", name)?;
    Ok(members)
}

fn object_of(alloc: Global, name: ElementName) -> Result<Configuration, AllocError>
    ensures made { IfOk result (λ members. configuration_seen members
        ≡ name_object name.levels name.plain) }
{
    let mut members = plain_object(alloc, name.plain)?;
    for level in 0..name.levels {
        members = optional_object(alloc, members)?;
    }
    Ok(members)
}

impl ElementName {
    /// The type that a JSON tree names, the value of `data_type` in `zarr.json`: a text, or an object
    /// with a `name`. An optional type is an object with the name `zarrs.optional` or `optional` and a
    /// `configuration`, which is an object that names the type inside; of any other type the
    /// configuration is missing, null or without members. Other keys are passed over,
    /// `must_understand` among them: a type can't be left out. Errors: `UnsupportedDataType`.
    pub fn from_value(tree: &Value) -> Result<ElementName, ElementError>
        ensures answer { result ≡ name_in (view tree.now) }
    {
        name_of(tree)
    }

    /// The JSON tree: a text, or of optional types an object, whose name is `zarrs.optional`. Errors:
    /// `OutOfMemory`.
    pub fn to_value(self, alloc: Global) -> Result<Value, ElementError>
        ensures answer { ElementAnswers view result (Ok (name_tree self)) }
    {
        if self.levels == 0 {
            Ok(Value::String(plain_text(alloc, self.plain)?))
        } else {
            Ok(Value::Object(object_of(alloc, self)?))
        }
    }
}
