//! The elements of a region: put together from its parts, and cut into them.

use crate::checks::{grid, is, refuses, region};
use std::alloc::Global;
use std::borrow::CowSlice;
use std::process::Abort;
use zarrs_array_bytes::{ArrayBytes, ArrayBytesOffsets};
use zarrs_array_plan::{PlannedChunk, fill_region, join_part, part_of};
use zarrs_chunk::{ArraySubset, CodecError};
use zarrs_data_type::{DataType, FillValue};

/// A container as plain data: the bytes of elements of one size, or with offsets of any length, maybe
/// under a mask.
struct Held {
    bytes: &'static [u8],
    offsets: Option<&'static [usize]>,
    mask: Option<&'static [u8]>,
}

/// A type, a fill value, a region's elements, and those of its parts, in the order of the chunks.
struct Row {
    optional: bool,
    text: bool,
    fill: &'static [u8],
    region: Held,
    parts: &'static [Held],
}

/// The region 1..4 by 2..5, in chunks of 2 by 3.
const SIZES: &'static [u64] = &[4, 5];

const CHUNK: &'static [u64] = &[2, 3];

const BYTES: Row = Row {
    optional: false,
    text: false,
    fill: &[7],
    region: Held {
        bytes: &[8, 9, 10, 14, 15, 16, 20, 21, 22],
        offsets: None,
        mask: None,
    },
    parts: &[
        Held {
            bytes: &[8],
            offsets: None,
            mask: None,
        },
        Held {
            bytes: &[9, 10],
            offsets: None,
            mask: None,
        },
        Held {
            bytes: &[14, 20],
            offsets: None,
            mask: None,
        },
        Held {
            bytes: &[15, 16, 21, 22],
            offsets: None,
            mask: None,
        },
    ],
};

const TEXTS: Row = Row {
    optional: false,
    text: true,
    fill: b"fill",
    region: Held {
        bytes: b"abcdeffghi",
        offsets: Some(&[0, 0, 1, 2, 4, 5, 7, 8, 8, 10]),
        mask: None,
    },
    parts: &[
        Held {
            bytes: b"",
            offsets: Some(&[0, 0]),
            mask: None,
        },
        Held {
            bytes: b"ab",
            offsets: Some(&[0, 1, 2]),
            mask: None,
        },
        Held {
            bytes: b"cdg",
            offsets: Some(&[0, 2, 3]),
            mask: None,
        },
        Held {
            bytes: b"effhi",
            offsets: Some(&[0, 1, 3, 3, 5]),
            mask: None,
        },
    ],
};

const OPTIONAL: Row = Row {
    optional: true,
    text: false,
    fill: &[0],
    region: Held {
        bytes: &[8, 0, 10, 14, 0, 16, 20, 21, 0],
        offsets: None,
        mask: Some(&[1, 0, 1, 1, 0, 1, 1, 1, 0]),
    },
    parts: &[
        Held {
            bytes: &[8],
            offsets: None,
            mask: Some(&[1]),
        },
        Held {
            bytes: &[0, 10],
            offsets: None,
            mask: Some(&[0, 1]),
        },
        Held {
            bytes: &[14, 20],
            offsets: None,
            mask: Some(&[1, 1]),
        },
        Held {
            bytes: &[0, 16, 21, 0],
            offsets: None,
            mask: Some(&[0, 1, 1, 0]),
        },
    ],
};

type Elements = Result<ArrayBytes<'static>, CodecError>;

fn data_type(alloc: Global, row: &Row) -> Result<DataType, CodecError> {
    let inner = if row.text {
        DataType::string()
    } else {
        DataType::uint8()
    };
    if row.optional {
        return DataType::optional(alloc, inner);
    }
    Ok(inner)
}

fn unmasked(alloc: Global, held: &Held) -> Elements {
    let bytes = CowSlice::Borrowed(held.bytes);
    match held.offsets {
        None => Ok(ArrayBytes::new_flen(bytes)),
        Some(told) => ArrayBytes::new_vlen(bytes, ArrayBytesOffsets::new(told.to_vec(alloc)?)?),
    }
}

fn container(alloc: Global, held: &Held) -> Elements {
    let array = unmasked(alloc, held)?;
    match held.mask {
        None => Ok(array),
        Some(mask) => array.with_optional_mask(alloc, CowSlice::Borrowed(mask)),
    }
}

fn holds(
    rt: &impl Abort,
    alloc: Global,
    name: &str,
    came: &ArrayBytes<'static>,
    wanted: &Held,
) -> Result<(), CodecError> {
    let wanted = container(alloc, wanted)?;
    is(rt, name, came, &wanted);
    Ok(())
}

fn planned(alloc: Global, region: &ArraySubset) -> Result<Vec<PlannedChunk>, CodecError> {
    let grid = grid(alloc, SIZES, CHUNK)?;
    grid.plan(alloc, region)
}

/// The region's elements, from its parts, the last chunk's first.
fn joined(alloc: Global, row: &Row, region: &ArraySubset, planned: &[PlannedChunk]) -> Elements {
    let data_type = data_type(alloc, row)?;
    let fill_value = FillValue::new(row.fill.to_vec(alloc)?);
    let mut answer = fill_region(alloc, region, &data_type, &fill_value)?;
    for (chunk, part) in planned.iter().zip(row.parts.iter()).rev() {
        let elements = container(alloc, part)?;
        answer = join_part(alloc, answer, region, &chunk.part, &elements, &data_type)?;
    }
    Ok(answer)
}

/// What is cut out of the region's elements for each chunk.
fn are_cut(
    rt: &impl Abort,
    alloc: Global,
    row: &Row,
    region: &ArraySubset,
    planned: &[PlannedChunk],
) -> Result<(), CodecError> {
    let data_type = data_type(alloc, row)?;
    let elements = container(alloc, &row.region)?;
    for (chunk, wanted) in planned.iter().zip(row.parts.iter()) {
        let part = part_of(alloc, &elements, region, &chunk.part, &data_type)?;
        holds(rt, alloc, "part", &part, wanted)?;
    }
    Ok(())
}

fn is_joined(rt: &impl Abort, alloc: Global, row: &Row) -> Result<(), CodecError> {
    let region = region(alloc, &[1..4, 2..5])?;
    let planned = planned(alloc, &region)?;
    let came = joined(alloc, row, &region, planned.as_slice())?;
    holds(rt, alloc, "joined", &came, &row.region)
}

fn is_cut(rt: &impl Abort, alloc: Global, row: &Row) -> Result<(), CodecError> {
    let region = region(alloc, &[1..4, 2..5])?;
    let planned = planned(alloc, &region)?;
    are_cut(rt, alloc, row, &region, planned.as_slice())
}

#[test]
fn bytes_joined(rt: HostRuntime) -> Result<(), CodecError> {
    is_joined(&rt, rt.alloc(), &BYTES)
}

#[test]
fn texts_joined(rt: HostRuntime) -> Result<(), CodecError> {
    is_joined(&rt, rt.alloc(), &TEXTS)
}

#[test]
fn optional_elements_joined(rt: HostRuntime) -> Result<(), CodecError> {
    is_joined(&rt, rt.alloc(), &OPTIONAL)
}

#[test]
fn bytes_cut(rt: HostRuntime) -> Result<(), CodecError> {
    is_cut(&rt, rt.alloc(), &BYTES)
}

#[test]
fn texts_cut(rt: HostRuntime) -> Result<(), CodecError> {
    is_cut(&rt, rt.alloc(), &TEXTS)
}

#[test]
fn optional_elements_cut(rt: HostRuntime) -> Result<(), CodecError> {
    is_cut(&rt, rt.alloc(), &OPTIONAL)
}

/// A join of a part whose elements are these, or more or fewer.
fn join_of(alloc: Global, elements: &Held, region: &ArraySubset) -> Elements {
    let planned = planned(alloc, region)?;
    let answer = container(alloc, &BYTES.region)?;
    let elements = container(alloc, elements)?;
    match planned.as_slice() {
        [chunk, ..] => {
            join_part(
                alloc,
                answer,
                region,
                &chunk.part,
                &elements,
                &DataType::uint8(),
            )
        }
        [] => Err(CodecError::Overflow),
    }
}

#[test]
fn parts_that_do_not_fit(rt: HostRuntime) -> Result<(), CodecError> {
    let region = region(rt.alloc(), &[1..4, 2..5])?;
    let more = join_of(rt.alloc(), &BYTES.parts[1], &region);
    refuses(&rt, "an element more", &more, CodecError::DataMismatch)?;
    let texts = join_of(rt.alloc(), &TEXTS.parts[0], &region);
    refuses(&rt, "texts", &texts, CodecError::ArrayBytesKind)
}
