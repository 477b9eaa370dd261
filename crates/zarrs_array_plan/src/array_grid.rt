//! An array that is divided into chunks of one shape.
ghost use Rattle.std.specs.Prelude.{◌≡◌, ◌<◌, ◌*◌, ◌^◌, ℕ, All, IfOk, length, slice_index, string_bytes};
ghost use Rattle.zarrs_chunk.specs.Answer.{GivesItems};
ghost use Rattle.zarrs_chunk.specs.Tuples.{is_tuple_inside as tuple_inside};
ghost use Rattle.zarrs_array_plan.specs.ArrayForm.{IsArrayForm, checked_form, checked_origin, grid_shape, origin_of};
ghost use Rattle.zarrs_array_plan.specs.ChunkKeys.{key_of};

use crate::chunk_key_encoding::ChunkKeyEncoding;
use std::alloc::{AllocError, Global};
use std::marker::Model;
use zarrs_chunk::{ArrayIndices, ChunkShape, CodecError};

/// An array's shape, that of its chunks, and how the indices of a chunk make its key. Chunks begin at
/// the array's first element; those at its end are whole, though the array has no elements there.
#[derive(Debug, Drop)]
pub struct ArrayGrid {
    shape: Vec<u64>,
    chunk_shape: ChunkShape,
    keys: ChunkKeyEncoding,
}

impl Model for ArrayGrid {
    ghost use Rattle.zarrs_array_plan.specs.ArrayForm.{ArrayForm, IsArrayForm};

    ghost Value = { ArrayForm };

    ghost view = { λ grid. record { shape = grid.shape.items; chunk_shape = grid.chunk_shape; keys = grid.keys } };

    ghost invariant = { λ grid. IsArrayForm grid.shape.items grid.chunk_shape };
}

/// Whether there is one index an axis, and each is below the axis's size.
fn is_tuple_inside(sizes: &[u64], tuple: &[u64]) -> bool
    ensures value { result ≡ tuple_inside sizes.now tuple.now }
{
    if tuple.len() != sizes.len() {
        return false;
    }
    for axis in 0..sizes.len() {
        if tuple[axis] >= sizes[axis] {
            return false;
        }
    }
    true
}

/// How many chunks of this shape an array of these sizes has along each axis.
fn counts(alloc: Global, sizes: &[u64], chunk_shape: &[u64]) -> Result<Vec<u64>, AllocError>
    requires axes { length sizes.now ≡ length chunk_shape.now }
    requires positive { All (λ size. 0 < size) chunk_shape.now }
    ensures value { IfOk result (λ v. v.items ≡ grid_shape sizes.now chunk_shape.now) }
{
    let mut found = Vec::with_capacity(alloc, sizes.len())?;
    for axis in 0..sizes.len() {
        found.push(sizes[axis].div_ceil(chunk_shape[axis]))?;
    }
    Ok(found)
}

/// Where the chunk of these indices begins.
fn origin(alloc: Global, chunk: &[u64], chunk_shape: &[u64]) -> Result<ArrayIndices, AllocError>
    requires axes { length chunk.now ≡ length chunk_shape.now }
    requires fits { (axis : ℕ) → axis < length chunk_shape.now
        → slice_index chunk.now axis * slice_index chunk_shape.now axis < 2 ^ 64 }
    ensures value { IfOk result (λ v. v.items ≡ origin_of chunk.now chunk_shape.now) }
{
    let mut found = Vec::with_capacity(alloc, chunk_shape.len())?;
    for axis in 0..chunk_shape.len() {
        found.push(chunk[axis] * chunk_shape[axis])?;
    }
    Ok(found)
}

impl ArrayGrid {
    /// An array of this shape in chunks of that one. A size of the array may be 0, and then it has no
    /// chunks. Errors: `IncompatibleDimensionality` where it has more or fewer axes than a chunk.
    pub fn new(
        shape: Vec<u64>,
        chunk_shape: ChunkShape,
        keys: ChunkKeyEncoding,
    ) -> Result<ArrayGrid, CodecError>
        ensures answer { result ≡ checked_form shape.items chunk_shape keys }
    {
        if shape.len() != chunk_shape.as_slice().len() {
            return Err(CodecError::IncompatibleDimensionality);
        }
        Ok(ArrayGrid {
            shape,
            chunk_shape,
            keys,
        })
    }

    /// The array's shape, in elements.
    pub fn shape(&self) -> &[u64]
        ensures value { result.now ≡ self.now.shape }
    {
        self.shape.as_slice()
    }

    /// The shape of each chunk, in elements.
    pub fn chunk_shape(&self) -> &ChunkShape
        ensures value { result.now ≡ self.now.chunk_shape }
        ensures form { IsArrayForm self.now.shape result.now }
    {
        &self.chunk_shape
    }

    /// How the indices of a chunk make its key.
    pub fn chunk_key_encoding(&self) -> ChunkKeyEncoding
        ensures value { result ≡ self.now.keys }
    {
        self.keys
    }

    /// How many chunks the array has along each axis.
    pub fn chunk_grid_shape(&self, alloc: Global) -> Result<Vec<u64>, AllocError>
        ensures value { IfOk result (λ v. v.items ≡ grid_shape self.now.shape self.now.chunk_shape) }
    {
        counts(alloc, self.shape.as_slice(), self.chunk_shape.as_slice())
    }

    /// The key of the chunk of these indices, whether the array has the chunk or not.
    pub fn chunk_key(&self, alloc: Global, chunk: &[u64]) -> Result<String, AllocError>
        ensures key { IfOk result (λ key. string_bytes key ≡ key_of self.now.keys chunk.now) }
    {
        self.keys.encode(alloc, chunk)
    }

    /// The index tuple of a chunk's first element. Errors, the first that holds, `OutOfMemory` aside:
    /// `IncompatibleDimensionality` where there isn't one index an axis; `OutOfBounds` where the array
    /// doesn't have the chunk.
    pub fn chunk_origin(&self, alloc: Global, chunk: &[u64]) -> Result<ArrayIndices, CodecError>
        ensures answer { GivesItems result (checked_origin self.now chunk.now) }
    {
        if chunk.len() != self.shape.len() {
            return Err(CodecError::IncompatibleDimensionality);
        }
        let grid = self.chunk_grid_shape(alloc)?;
        if !is_tuple_inside(grid.as_slice(), chunk) {
            return Err(CodecError::OutOfBounds);
        }
        let found = origin(alloc, chunk, self.chunk_shape.as_slice())?;
        Ok(found)
    }
}
