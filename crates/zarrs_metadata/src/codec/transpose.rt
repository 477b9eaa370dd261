//! Orders of axes, which the codec `transpose` has.
ghost use Rattle.std.specs.Prelude.{◌≡◌, true, IfOk};
ghost use Rattle.std.specs.Bool.{nat_eq};
ghost use Rattle.std.specs.Cmp.Lexicographic.{pointwise};
ghost use Rattle.std.specs.Cmp.Rules.{comparing};
ghost use Rattle.std.proofs.Common.{rules};
ghost use Rattle.zarrs_metadata.specs.Orders.{is_order};
ghost use Rattle.zarrs_metadata.specs.PluginCreateError.{Makes};
ghost use Rattle.zarrs_metadata.specs.TransposeOrder.{transpose_order_of};

use crate::plugin_create_error::PluginCreateError;
use std::alloc::{AllocError, Global};
use std::marker::Model;

/// An order of axes, which names each axis once (Zarr v3 codec `transpose`, its key `order`).
///
/// Axis `i` of the moved chunk is axis `order[i]` of the decoded one.
#[derive(Debug, Drop)]
pub struct TransposeOrder {
    axes: Vec<usize>,
}

impl Model for TransposeOrder {
    ghost use Rattle.std.specs.Prelude.{◌≡◌, true, List, ℕ};
    ghost use Rattle.zarrs_metadata.specs.Orders.{is_order};

    ghost Value = { List ℕ };

    ghost view = { λ order. order.axes.items };

    ghost invariant = { λ order. is_order order.axes.items ≡ true };
}

/// Whether the list names each of as many axes as it is long, once.
fn names_each_once(alloc: Global, axes: &[usize]) -> Result<bool, AllocError>
    ensures value { IfOk result (λ each_once. each_once ≡ is_order axes.now) }
{
    let mut named = vec![in alloc; false; axes.len()]?;
    for axis in axes {
        if *axis >= axes.len() || named[*axis] {
            return Ok(false);
        }
        named[*axis] = true;
    }
    Ok(true)
}

impl TransposeOrder {
    /// The order of these axes, counted from 0. Errors: `OutOfMemory`; `NotAPermutation` where an
    /// axis comes twice, or isn't one of as many as the list is long.
    pub fn new(alloc: Global, axes: &[usize]) -> Result<TransposeOrder, PluginCreateError>
        ensures answer { Makes (λ order. order) result (transpose_order_of axes.now) }
    {
        if !names_each_once(alloc, axes)? {
            return Err(PluginCreateError::NotAPermutation);
        }
        let axes = axes.to_vec(alloc)?;
        Ok(TransposeOrder { axes })
    }

    /// The axes in their order.
    pub fn as_slice(&self) -> &[usize]
        ensures value { result.now ≡ self.now }
        ensures sound { is_order result.now ≡ true }
    {
        self.axes.as_slice()
    }

    /// An equal order. Errors: `OutOfMemory`.
    pub fn clone(&self) -> Result<TransposeOrder, PluginCreateError>
        ensures copy { Makes (λ copy. copy) result (Ok self.now) }
    {
        let axes = self.axes.clone()?;
        Ok(TransposeOrder { axes })
    }
}

impl PartialEq for TransposeOrder {
    ghost eq = { λ one other. pointwise nat_eq one other };

    ghost laws = { Prim.search (comparing, rules) };

    fn eq(&self, other: &TransposeOrder) -> bool {
        self.axes == other.axes
    }
}

impl Eq for TransposeOrder {
    ghost laws = { Prim.search (comparing, rules) };
}
