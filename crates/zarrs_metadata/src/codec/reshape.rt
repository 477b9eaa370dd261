//! The sizes that the codec `reshape` has.
ghost use Rattle.std.specs.Prelude.{◌≡◌, true, false, map, Ok};
ghost use Rattle.std.specs.Cmp.{partial_equiv_from_equiv};
ghost use Rattle.std.specs.Cmp.Lexicographic.{pointwise};
ghost use Rattle.std.specs.Ordering.{on};
ghost use Rattle.std.proofs.lemmas.Cmp.{lists_equiv, on_equiv};
ghost use Rattle.zarrs_metadata.specs.Dims.{is_nonzero as nonzero_dim, is_auto as auto_dim, names_axes, autos, has_no_zero, is_reshape};
ghost use Rattle.zarrs_metadata.specs.PluginCreateError.{Makes};
ghost use Rattle.zarrs_metadata.specs.ReshapeShape.{dim_of, reshape_shape_of};
ghost use Rattle.zarrs_metadata.specs.SameDim.{is_same_dim};
ghost use Rattle.zarrs_metadata.specs.SameDimLaws.{is_same_dim-equivalence};

use crate::plugin_create_error::PluginCreateError;
use std::alloc::Global;
use std::marker::Model;

/// One size of a reshaped chunk (codec `reshape` of zarr-extensions, an entry of its key `shape`).
#[derive(Debug, Drop)]
pub enum ReshapeDim {
    /// This number.
    Size(u64),
    /// The number of elements divided by the product of the other sizes.
    Auto,
    /// The product of the sizes that these axes have in the chunk that is reshaped, counted from 0;
    /// 1 where there is none.
    InputDims(Vec<u64>),
}

impl ReshapeDim {
    /// An equal size. Errors: `OutOfMemory`, of named axes alone.
    pub fn clone(&self) -> Result<ReshapeDim, PluginCreateError>
        ensures copy { Makes dim_of result (Ok (dim_of self.now)) }
        ensures in_place { names_axes (dim_of self.now) ≡ false → result ≡ Ok self.now }
    {
        match self {
            ReshapeDim::Size(size) => Ok(ReshapeDim::Size(*size)),
            ReshapeDim::Auto => Ok(ReshapeDim::Auto),
            ReshapeDim::InputDims(axes) => Ok(ReshapeDim::InputDims(axes.clone()?)),
        }
    }
}

impl PartialEq for ReshapeDim {
    ghost eq = { on dim_of is_same_dim };

    ghost laws = { partial_equiv_from_equiv (on_equiv dim_of is_same_dim-equivalence) };

    fn eq(&self, other: &ReshapeDim) -> bool {
        match (self, other) {
            (ReshapeDim::Size(one), ReshapeDim::Size(other)) => one == other,
            (ReshapeDim::Auto, ReshapeDim::Auto) => true,
            (ReshapeDim::InputDims(one), ReshapeDim::InputDims(other)) => one == other,
            _ => false,
        }
    }
}

impl Eq for ReshapeDim {
    ghost laws = { on_equiv dim_of is_same_dim-equivalence };
}

/// The sizes of a reshaped chunk (codec `reshape` of zarr-extensions, its key `shape`). None is the
/// number zero, and at most one is automatic.
#[derive(Debug, Drop)]
pub struct ReshapeShape {
    dims: Vec<ReshapeDim>,
}

impl Model for ReshapeShape {
    ghost use Rattle.std.specs.Prelude.{◌≡◌, true, List, map};
    ghost use Rattle.zarrs_metadata.specs.Dims.{Dim, is_reshape};

    ghost Value = { List Dim };

    ghost use Rattle.zarrs_metadata.specs.ReshapeShape.{dim_of};

    ghost view = { λ shape. map dim_of shape.dims.items };

    ghost invariant = { λ shape. is_reshape (map dim_of shape.dims.items) ≡ true };
}

/// Whether the size isn't the number zero.
fn is_nonzero(dim: &ReshapeDim) -> bool
    ensures value { result ≡ nonzero_dim (dim_of dim.now) }
{
    !matches!(dim, ReshapeDim::Size(0))
}

fn have_no_zero(dims: &[ReshapeDim]) -> bool
    ensures value { result ≡ has_no_zero (map dim_of dims.now) }
{
    for dim in dims {
        if !is_nonzero(dim) {
            return false;
        }
    }
    true
}

fn is_auto(dim: &ReshapeDim) -> bool
    ensures value { result ≡ auto_dim (dim_of dim.now) }
{
    matches!(dim, ReshapeDim::Auto)
}

/// How many sizes are automatic.
pub fn count_autos(dims: &[ReshapeDim]) -> usize
    ensures count { result ≡ autos (map dim_of dims.now) }
{
    let mut count = 0;
    for dim in dims {
        if is_auto(dim) {
            count += 1;
        }
    }
    count
}

fn clone_dims(alloc: Global, dims: &[ReshapeDim]) -> Result<Vec<ReshapeDim>, PluginCreateError>
    ensures copy { Makes (λ v. map dim_of v.items) result (Ok (map dim_of dims.now)) }
{
    let mut copies = Vec::with_capacity(alloc, dims.len())?;
    for dim in dims {
        copies.push(dim.clone()?)?;
    }
    Ok(copies)
}

impl ReshapeShape {
    /// The shape of these sizes. Errors, the first that holds: `ZeroSize` where a number is zero;
    /// `MultipleAuto` where more than one size is automatic.
    pub fn new(dims: Vec<ReshapeDim>) -> Result<ReshapeShape, PluginCreateError>
        ensures answer { result ≡ reshape_shape_of (map dim_of dims.items) }
    {
        if !have_no_zero(dims.as_slice()) {
            return Err(PluginCreateError::ZeroSize);
        }
        if count_autos(dims.as_slice()) > 1 {
            return Err(PluginCreateError::MultipleAuto);
        }
        Ok(ReshapeShape { dims })
    }

    /// The sizes in their order.
    pub fn as_slice(&self) -> &[ReshapeDim]
        ensures value { map dim_of result.now ≡ self.now }
        ensures sound { is_reshape (map dim_of result.now) ≡ true }
    {
        self.dims.as_slice()
    }

    /// An equal shape. Errors: `OutOfMemory`.
    pub fn clone(&self) -> Result<ReshapeShape, PluginCreateError>
        ensures copy { Makes (λ copy. copy) result (Ok self.now) }
    {
        let dims = clone_dims(*self.dims.allocator(), self.dims.as_slice())?;
        Ok(ReshapeShape { dims })
    }
}

impl PartialEq for ReshapeShape {
    ghost eq = { λ one other. pointwise is_same_dim one other };

    ghost laws = { partial_equiv_from_equiv (lists_equiv is_same_dim-equivalence) };

    fn eq(&self, other: &ReshapeShape) -> bool {
        self.dims == other.dims
    }
}

impl Eq for ReshapeShape {
    ghost laws = { lists_equiv is_same_dim-equivalence };
}
