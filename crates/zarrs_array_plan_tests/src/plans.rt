//! Plans of regions.

use crate::checks::{are, grid, is, refuses, region};
use std::alloc::Global;
use std::ops::Range;
use std::process::Abort;
use zarrs_array_plan::PlannedChunk;
use zarrs_chunk::{ArraySubset, CodecError};

/// What is planned of one chunk: its key, where the part begins in the chunk and in the region, and how
/// long it is.
struct Row {
    key: &'static str,
    in_chunk: &'static [u64],
    in_region: &'static [u64],
    lengths: &'static [u64],
}

/// Of the region 1..4 by 2..5, in chunks of 2 by 3.
const ROWS: &'static [Row] = &[
    Row {
        key: "c/0/0",
        in_chunk: &[1, 2],
        in_region: &[0, 0],
        lengths: &[1, 1],
    },
    Row {
        key: "c/0/1",
        in_chunk: &[1, 0],
        in_region: &[0, 1],
        lengths: &[1, 2],
    },
    Row {
        key: "c/1/0",
        in_chunk: &[0, 2],
        in_region: &[1, 0],
        lengths: &[2, 1],
    },
    Row {
        key: "c/1/1",
        in_chunk: &[0, 0],
        in_region: &[1, 1],
        lengths: &[2, 2],
    },
];

/// Of an array without axes, whose one element is one chunk.
const ONE: &'static [Row] = &[Row {
    key: "c",
    in_chunk: &[],
    in_region: &[],
    lengths: &[],
}];

type Planned = Result<Vec<PlannedChunk>, CodecError>;

fn plan(alloc: Global, sizes: &[u64], chunk: &[u64], ranges: &[Range<u64>]) -> Planned {
    let grid = grid(alloc, sizes, chunk)?;
    let region = region(alloc, ranges)?;
    grid.plan(alloc, &region)
}

fn is_box(rt: &impl Abort, name: &str, came: &ArraySubset, starts: &[u64], lengths: &[u64]) {
    are(rt, name, came.start(), starts);
    are(rt, name, came.shape(), lengths);
}

fn is_row(rt: &impl Abort, came: &PlannedChunk, wanted: &Row) {
    is(rt, "key", &came.key.as_str(), &wanted.key);
    let part = &came.part;
    is_box(
        rt,
        "in the chunk",
        &part.in_chunk,
        wanted.in_chunk,
        wanted.lengths,
    );
    is_box(
        rt,
        "in the region",
        &part.in_region,
        wanted.in_region,
        wanted.lengths,
    );
}

fn are_rows(rt: &impl Abort, came: &[PlannedChunk], wanted: &[Row]) {
    is(rt, "chunks", &came.len(), &wanted.len());
    for (came, wanted) in came.iter().zip(wanted.iter()) {
        is_row(rt, came, wanted);
    }
}

#[test]
fn parts_of_a_region(rt: HostRuntime) -> Result<(), CodecError> {
    let planned = plan(rt.alloc(), &[4, 5], &[2, 3], &[1..4, 2..5])?;
    are_rows(&rt, planned.as_slice(), ROWS);
    Ok(())
}

#[test]
fn no_axes(rt: HostRuntime) -> Result<(), CodecError> {
    let planned = plan(rt.alloc(), &[], &[], &[])?;
    are_rows(&rt, planned.as_slice(), ONE);
    Ok(())
}

#[test]
fn an_empty_range_needs_nothing(rt: HostRuntime) -> Result<(), CodecError> {
    let planned = plan(rt.alloc(), &[4, 5], &[2, 3], &[1..4, 2..2])?;
    are_rows(&rt, planned.as_slice(), &[]);
    Ok(())
}

/// However long the other ranges are.
#[test]
fn an_empty_array_needs_nothing(rt: HostRuntime) -> Result<(), CodecError> {
    let long = 4611686018427387904;
    let planned = plan(
        rt.alloc(),
        &[0, long, long],
        &[1, 1, 1],
        &[0..0, 0..long, 0..long],
    )?;
    are_rows(&rt, planned.as_slice(), &[]);
    Ok(())
}

#[test]
fn regions_outside(rt: HostRuntime) -> Result<(), CodecError> {
    let behind = plan(rt.alloc(), &[4, 5], &[2, 3], &[1..4, 2..6]);
    refuses(&rt, "behind the end", &behind, CodecError::OutOfBounds)?;
    let empty = plan(rt.alloc(), &[4, 5], &[2, 3], &[5..5, 2..3]);
    refuses(
        &rt,
        "an empty range behind the end",
        &empty,
        CodecError::OutOfBounds,
    )?;
    let short = plan(rt.alloc(), &[4, 5], &[2, 3], &[9..9]);
    refuses(
        &rt,
        "one axis",
        &short,
        CodecError::IncompatibleDimensionality,
    )
}

#[test]
fn a_region_past_64_bits(rt: HostRuntime) -> Result<(), CodecError> {
    let long = 4294967296;
    let planned = plan(
        rt.alloc(),
        &[long, long],
        &[long, long],
        &[0..long, 0..long],
    );
    refuses(&rt, "one chunk", &planned, CodecError::Overflow)
}
