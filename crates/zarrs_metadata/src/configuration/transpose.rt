//! The configuration of the codec `transpose`.
ghost use Rattle.zarrs_metadata.specs.MetadataV3.{read_by, Writes};
ghost use Rattle.std.specs.Prelude.{◌≡◌, Ok, IfOk};
ghost use Rattle.serde_json.specs.View.{view};
ghost use Rattle.zarrs_metadata.specs.PluginCreateError.{Makes};
ghost use Rattle.zarrs_metadata.specs.TransposeConfiguration.{transpose_seen, read_transpose, write_transpose};
ghost use Rattle.zarrs_metadata.specs.Trees.{number_list, numbers_tree};

use crate::codec::transpose::TransposeOrder;
use crate::json::{member, members_hold_float, numbers, numbers_of};
use crate::metadata_v3::Configuration;
use crate::plugin_create_error::PluginCreateError;
use serde_json::{Map, Value};
use std::alloc::{AllocError, Global};

/// The configuration of codec `transpose` (Zarr v3), by its version.
#[derive(Debug, Drop)]
pub enum TransposeCodecConfiguration {
    /// Version 1.
    V1(TransposeCodecConfigurationV1),
}

/// The configuration of codec `transpose`, version 1.
#[derive(Debug, Drop)]
pub struct TransposeCodecConfigurationV1 {
    /// The order of the axes.
    pub order: TransposeOrder,
}

/// The same numbers, as axes.
fn as_axes(alloc: Global, numbers: &[u64]) -> Result<Vec<usize>, AllocError>
    ensures value { IfOk result (λ axes. axes.items ≡ numbers.now) }
{
    let mut axes = Vec::with_capacity(alloc, numbers.len())?;
    for number in numbers {
        axes.push(*number as usize)?;
    }
    Ok(axes)
}

fn axes(alloc: Global, tree: &Value) -> Result<Vec<usize>, PluginCreateError>
    ensures answer { Makes (λ v. v.items) result (number_list (view tree.now)) }
{
    let numbers = numbers(alloc, tree)?;
    Ok(as_axes(alloc, numbers.as_slice())?)
}

fn axes_tree(alloc: Global, axes: &[usize]) -> Result<Value, AllocError>
    ensures value { IfOk result (λ tree. view tree ≡ numbers_tree axes.now) }
{
    let mut items = Vec::with_capacity(alloc, axes.len())?;
    for axis in axes {
        items.push(Value::from(*axis))?;
    }
    Ok(Value::Array(items))
}

impl TransposeCodecConfiguration {
    /// The configuration of these members: `order`, a list of whole numbers. Errors, the first
    /// that holds: `InvalidConfiguration` where a number is a float, or the key is missing or
    /// anything else; `NotAPermutation`; `OutOfMemory`.
    pub fn from_configuration(
        alloc: Global,
        configuration: &Configuration,
    ) -> Result<TransposeCodecConfiguration, PluginCreateError>
        ensures answer { Makes transpose_seen result (read_by read_transpose configuration.now) }
    {
        if members_hold_float(configuration) {
            return Err(PluginCreateError::InvalidConfiguration);
        }
        let Some(tree) = member(configuration, "order") else {
            return Err(PluginCreateError::InvalidConfiguration);
        };
        let axes = axes(alloc, tree)?;
        let order = TransposeOrder::new(alloc, axes.as_slice())?;
        Ok(TransposeCodecConfiguration::V1(TransposeCodecConfigurationV1 { order }))
    }

    /// The members: `order`. Errors: `OutOfMemory`.
    pub fn to_configuration(&self, alloc: Global) -> Result<Configuration, PluginCreateError>
        ensures answer { Writes result (write_transpose (transpose_seen self.now)) }
    {
        let TransposeCodecConfiguration::V1(configuration) = self;
        let order = axes_tree(alloc, configuration.order.as_slice())?;
        let mut members = Map::new(alloc);
        serde_json::put(&mut members, alloc, "order", order)?;
        Ok(members)
    }
}
