//! The configuration of the codec `reshape`.
ghost use Rattle.zarrs_metadata.specs.MetadataV3.{read_by, Writes};
ghost use Rattle.std.specs.Prelude.{◌≡◌, Ok, map, IfOk};
ghost use Rattle.serde_json.specs.View.{view, items_view, number_view};
ghost use Rattle.zarrs_chunk.specs.Answer.{seen};
ghost use Rattle.zarrs_metadata.specs.PluginCreateError.{Makes};
ghost use Rattle.zarrs_metadata.specs.ReshapeConfiguration.{reshape_seen, dim_of_number, dim_in, dims_in, dim_tree, dims_tree, read_reshape, write_reshape};
ghost use Rattle.zarrs_metadata.specs.ReshapeShape.{dim_of};
ghost use Rattle.zarrs_metadata.specs.Trees.{needed};

use crate::codec::reshape::{ReshapeDim, ReshapeShape};
use crate::json::{member, members_hold_float, numbers_among, numbers_of};
use crate::metadata_v3::Configuration;
use crate::plugin_create_error::PluginCreateError;
use serde_json::{Map, Number, Value};
use std::alloc::{AllocError, Global};

/// The configuration of codec `reshape` (zarr-extensions), by its version.
#[derive(Debug, Drop)]
pub enum ReshapeCodecConfiguration {
    /// Version 1.
    V1(ReshapeCodecConfigurationV1),
}

/// The configuration of codec `reshape`, version 1.
#[derive(Debug, Drop)]
pub struct ReshapeCodecConfigurationV1 {
    /// The sizes of the moved chunk.
    pub shape: ReshapeShape,
}

fn dim_by_number(number: &Number) -> Result<ReshapeDim, PluginCreateError>
    ensures answer { seen dim_of result ≡ needed (dim_of_number (number_view number.now)) }
{
    if let Some(size) = number.as_u64() {
        return Ok(ReshapeDim::Size(size));
    }
    if number.as_i64() == Some(-1) {
        Ok(ReshapeDim::Auto)
    } else {
        Err(PluginCreateError::InvalidConfiguration)
    }
}

fn dim(alloc: Global, tree: &Value) -> Result<ReshapeDim, PluginCreateError>
    ensures answer { Makes dim_of result (dim_in (view tree.now)) }
{
    match tree {
        Value::Number(number) => dim_by_number(number),
        Value::Array(items) => Ok(ReshapeDim::InputDims(numbers_among(alloc, items)?)),
        _ => Err(PluginCreateError::InvalidConfiguration),
    }
}

fn dims(alloc: Global, items: &Vec<Value>) -> Result<Vec<ReshapeDim>, PluginCreateError>
    ensures answer { Makes (λ v. map dim_of v.items) result (dims_in (items_view items.now.items)) }
{
    let mut dims = Vec::new(alloc);
    for item in items {
        let dim = dim(alloc, item)?;
        dims.push(dim)?;
    }
    Ok(dims)
}

fn tree_of_dim(alloc: Global, dim: &ReshapeDim) -> Result<Value, AllocError>
    ensures value { IfOk result (λ tree. view tree ≡ dim_tree (dim_of dim.now)) }
{
    match dim {
        ReshapeDim::Size(size) => Ok(Value::from(*size)),
        ReshapeDim::Auto => Ok(Value::from(-1i64)),
        ReshapeDim::InputDims(axes) => numbers_of(alloc, axes.as_slice()),
    }
}

fn tree_of_dims(alloc: Global, dims: &[ReshapeDim]) -> Result<Value, AllocError>
    ensures value { IfOk result (λ tree. view tree ≡ dims_tree (map dim_of dims.now)) }
{
    let mut items = Vec::with_capacity(alloc, dims.len())?;
    for dim in dims {
        items.push(tree_of_dim(alloc, dim)?)?;
    }
    Ok(Value::Array(items))
}

impl ReshapeCodecConfiguration {
    /// The configuration of these members: `shape`, a list of whole numbers, -1 (automatic) and
    /// lists of axes. Errors, the first that holds: `InvalidConfiguration` where a number is a
    /// float, or the key is missing or anything else; `ZeroSize`; `MultipleAuto`; `OutOfMemory`.
    pub fn from_configuration(
        alloc: Global,
        configuration: &Configuration,
    ) -> Result<ReshapeCodecConfiguration, PluginCreateError>
        ensures answer { Makes reshape_seen result (read_by read_reshape configuration.now) }
    {
        if members_hold_float(configuration) {
            return Err(PluginCreateError::InvalidConfiguration);
        }
        let Some(Value::Array(items)) = member(configuration, "shape") else {
            return Err(PluginCreateError::InvalidConfiguration);
        };
        let dims = dims(alloc, items)?;
        let shape = ReshapeShape::new(dims)?;
        Ok(ReshapeCodecConfiguration::V1(ReshapeCodecConfigurationV1 { shape }))
    }

    /// The members: `shape`. Errors: `OutOfMemory`.
    pub fn to_configuration(&self, alloc: Global) -> Result<Configuration, PluginCreateError>
        ensures answer { Writes result (write_reshape (reshape_seen self.now)) }
    {
        let ReshapeCodecConfiguration::V1(configuration) = self;
        let shape = tree_of_dims(alloc, configuration.shape.as_slice())?;
        let mut members = Map::new(alloc);
        serde_json::put(&mut members, alloc, "shape", shape)?;
        Ok(members)
    }
}
