//! The chunks of an array: how many there are, and where they begin.

use crate::checks::{are, grid, is, refuses, shape};
use std::process::Abort;
use zarrs_array_plan::{ArrayGrid, ChunkKeyEncoding, ChunkKeySeparator};
use zarrs_chunk::CodecError;

const CHUNK: &'static [u64] = &[2, 3];

fn is_made_of(rt: &impl Abort, grid: &ArrayGrid) {
    are(rt, "shape", grid.shape(), &[5, 6]);
    are(rt, "chunk shape", grid.chunk_shape().as_slice(), CHUNK);
    is(
        rt,
        "keys",
        &grid.chunk_key_encoding(),
        &ChunkKeyEncoding::Default(ChunkKeySeparator::Slash),
    );
}

#[test]
fn a_grid_has_what_it_is_made_of(rt: HostRuntime) -> Result<(), CodecError> {
    let grid = grid(rt.alloc(), &[5, 6], CHUNK)?;
    is_made_of(&rt, &grid);
    Ok(())
}

#[test]
fn as_many_axes_as_a_chunk(rt: HostRuntime) -> Result<(), CodecError> {
    let keys = ChunkKeyEncoding::V2(ChunkKeySeparator::Dot);
    let made = ArrayGrid::new([5].to_vec(rt.alloc())?, shape(rt.alloc(), CHUNK)?, keys);
    refuses(
        &rt,
        "one axis",
        &made,
        CodecError::IncompatibleDimensionality,
    )
}

#[test]
fn chunks_along_each_axis(rt: HostRuntime) -> Result<(), CodecError> {
    let grid = grid(rt.alloc(), &[5, 6], CHUNK)?;
    let counts = grid.chunk_grid_shape(rt.alloc())?;
    are(&rt, "counts", counts.as_slice(), &[3, 2]);
    Ok(())
}

#[test]
fn no_chunks_along_an_empty_axis(rt: HostRuntime) -> Result<(), CodecError> {
    let grid = grid(rt.alloc(), &[0, 18446744073709551615], CHUNK)?;
    let counts = grid.chunk_grid_shape(rt.alloc())?;
    are(&rt, "counts", counts.as_slice(), &[0, 6148914691236517205]);
    Ok(())
}

#[test]
fn where_a_chunk_begins(rt: HostRuntime) -> Result<(), CodecError> {
    let grid = grid(rt.alloc(), &[5, 6], CHUNK)?;
    let origin = grid.chunk_origin(rt.alloc(), &[2, 1])?;
    are(&rt, "origin", origin.as_slice(), &[4, 3]);
    Ok(())
}

#[test]
fn chunks_that_are_not_there(rt: HostRuntime) -> Result<(), CodecError> {
    let grid = grid(rt.alloc(), &[5, 6], CHUNK)?;
    let behind = grid.chunk_origin(rt.alloc(), &[2, 2]);
    refuses(&rt, "behind", &behind, CodecError::OutOfBounds)?;
    let short = grid.chunk_origin(rt.alloc(), &[9]);
    refuses(
        &rt,
        "one axis",
        &short,
        CodecError::IncompatibleDimensionality,
    )
}

#[test]
fn a_chunk_has_its_key(rt: HostRuntime) -> Result<(), CodecError> {
    let grid = grid(rt.alloc(), &[5, 6], CHUNK)?;
    let key = grid.chunk_key(rt.alloc(), &[2, 1])?;
    is(&rt, "key", &key.as_str(), &"c/2/1");
    Ok(())
}
