//! The order that undoes an order of axes.
ghost use Rattle.std.specs.Prelude.{◌≡◌, true, IfOk};
ghost use Rattle.zarrs_metadata.specs.Orders.{is_order};
ghost use Rattle.zarrs_array_to_array.specs.Orders.{inverse};

use std::alloc::{AllocError, Global};

/// Where each axis stands in the order.
pub(crate) fn positions(alloc: Global, axes: &[usize]) -> Result<Vec<usize>, AllocError>
    requires order { is_order axes.now ≡ true }
    ensures value { IfOk result (λ v. v.items ≡ inverse axes.now) }
{
    let mut positions = vec![in alloc; 0; axes.len()]?;
    for (place, axis) in axes.iter().enumerate() {
        positions[*axis] = place;
    }
    Ok(positions)
}
