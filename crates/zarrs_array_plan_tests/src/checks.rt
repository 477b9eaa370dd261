//! What the tests share: checks, which take references, since a function with asserts beside owned
//! values is dear to prove; and what is made of plain data.

use std::alloc::Global;
use std::fmt::Debug;
use std::ops::Range;
use std::process::Abort;
use zarrs_array_plan::{ArrayGrid, ChunkKeyEncoding, ChunkKeySeparator};
use zarrs_chunk::{ArraySubset, ChunkShape, CodecError};

/// What came is what is wanted.
pub(crate) fn is<T: PartialEq + Debug>(rt: &impl Abort, name: &str, came: &T, wanted: &T) {
    assert_eq!(rt; *came, *wanted, "{name}");
}

/// The items that came are those that are wanted.
pub(crate) fn are<T: PartialEq + Debug>(rt: &impl Abort, name: &str, came: &[T], wanted: &[T]) {
    is(rt, name, &came, &wanted);
}

/// The call gave this error. A lack of memory is an error of the test.
pub(crate) fn refuses<T>(
    rt: &impl Abort,
    name: &str,
    came: &Result<T, CodecError>,
    wanted: CodecError,
) -> Result<(), CodecError> {
    match came {
        Ok(_) => is(rt, name, &None, &Some(wanted)),
        Err(CodecError::OutOfMemory) => return Err(CodecError::OutOfMemory),
        Err(cause) => is(rt, name, &Some(*cause), &Some(wanted)),
    }
    Ok(())
}

/// A shape of these sizes, none of which may be zero.
pub(crate) fn shape(alloc: Global, sizes: &[u64]) -> Result<ChunkShape, CodecError> {
    ChunkShape::new(sizes.to_vec(alloc)?).ok_or(CodecError::OutOfBounds)
}

/// An array of this shape in chunks of that one, whose keys are `default` with slashes.
pub(crate) fn grid(alloc: Global, sizes: &[u64], chunk: &[u64]) -> Result<ArrayGrid, CodecError> {
    let keys = ChunkKeyEncoding::Default(ChunkKeySeparator::Slash);
    ArrayGrid::new(sizes.to_vec(alloc)?, shape(alloc, chunk)?, keys)
}

pub(crate) fn region(alloc: Global, ranges: &[Range<u64>]) -> Result<ArraySubset, CodecError> {
    ArraySubset::new_with_ranges(alloc, ranges)
}
