//! What the tests share: checks, which take references, since a function with asserts beside owned
//! values is dear to prove; shapes and indexers made from plain data.

use std::alloc::Global;
use std::fmt::Debug;
use std::ops::Range;
use std::process::Abort;
use zarrs_chunk::{ArraySubset, ChunkShape, CodecError, IndexTuples, Indexer};

/// What came is what is wanted.
pub(crate) fn is<T: PartialEq + Debug>(rt: &impl Abort, name: &str, came: &T, wanted: &T) {
    assert_eq!(rt; *came, *wanted, "{name}");
}

/// The items that came are those that are wanted.
pub(crate) fn are<T: PartialEq + Debug>(rt: &impl Abort, name: &str, came: &[T], wanted: &[T]) {
    is(rt, name, &came, &wanted);
}

/// This is answered. An error of the call is an error of the test.
pub(crate) fn gives<T: PartialEq + Debug + Drop, E: Drop>(
    rt: &impl Abort,
    name: &str,
    answer: Result<T, E>,
    wanted: &T,
) -> Result<(), E> {
    match answer {
        Ok(came) => {
            is(rt, name, &came, wanted);
            Ok(())
        }
        Err(cause) => Err(cause),
    }
}

/// The answer is this one, or this error. A lack of memory is an error of the test.
pub(crate) fn answers<T: PartialEq + Debug>(
    rt: &impl Abort,
    name: &str,
    came: &Result<T, CodecError>,
    wanted: &Result<T, CodecError>,
) -> Result<(), CodecError> {
    if let Err(CodecError::OutOfMemory) = came {
        return Err(CodecError::OutOfMemory);
    }
    is(rt, name, came, wanted);
    Ok(())
}

/// A shape of these sizes, none of which may be zero.
pub(crate) fn shape(alloc: Global, sizes: &[u64]) -> Result<ChunkShape, CodecError> {
    ChunkShape::new(sizes.to_vec(alloc)?).ok_or(CodecError::OutOfBounds)
}

/// Which elements are selected, as plain data: those in a range for each axis, those of a list of
/// tuples, or those of so many tuples of so many numbers each, one after another.
pub(crate) enum Asked {
    Ranges(&'static [Range<u64>]),
    Tuples(&'static [&'static [u64]]),
    Numbers(usize, usize, &'static [u64]),
}

pub(crate) fn indexer<'b>(alloc: Global, asked: &Asked) -> Result<Indexer<'b>, CodecError> {
    match asked {
        Asked::Ranges(ranges) => Ok(Indexer::Subset(ArraySubset::new_with_ranges(alloc, ranges)?)),
        Asked::Tuples(tuples) => list(alloc, tuples),
        Asked::Numbers(count, axes, numbers) => lent(*count, *axes, numbers),
    }
}

fn lent<'b>(count: usize, axes: usize, numbers: &'b [u64]) -> Result<Indexer<'b>, CodecError> {
    match IndexTuples::new(axes, count, numbers) {
        Some(tuples) => Ok(Indexer::Tuples(tuples)),
        None => Err(CodecError::InvalidOffsets),
    }
}

fn list<'b>(alloc: Global, tuples: &[&[u64]]) -> Result<Indexer<'b>, CodecError> {
    let mut indices = Vec::new(alloc);
    for tuple in tuples {
        indices.push(tuple.to_vec(alloc)?)?;
    }
    Ok(Indexer::Indices(indices))
}
