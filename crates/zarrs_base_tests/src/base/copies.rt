//! Copies, which are equal. The size of a container: one byte for each byte of an element and of a mask,
//! and eight for each offset.

use crate::base::containers::{Held, Type, container, data_type, offsets};
use crate::checks::{Asked, gives, indexer, is, shape};
use std::alloc::Global;
use std::process::Abort;
use zarrs_array_bytes::ArrayBytes;
use zarrs_chunk::{ArraySubset, CodecError};
use zarrs_data_type::{DataType, FillValue};
use zarrs_metadata::{PluginCreateError, ReshapeDim, ReshapeShape, TransposeOrder};

/// A container, and its size.
struct Sized {
    name: &'static str,
    held: Held,
    size: usize,
}

const SIZED: &'static [Sized] = &[
    Sized {
        name: "texts",
        held: Held {
            masks: &[],
            bytes: b"xabc",
            offsets: Some(&[1, 2, 4]),
        },
        size: 28,
    },
    Sized {
        name: "masked texts",
        held: Held {
            masks: &[&[1]],
            bytes: b"ab",
            offsets: Some(&[0, 2]),
        },
        size: 19,
    },
    Sized {
        name: "two masks",
        held: Held {
            masks: &[&[1, 0, 0], &[1, 1, 0]],
            bytes: &[42, 0, 0],
            offsets: None,
        },
        size: 9,
    },
];

fn has_size(rt: &impl Abort, row: &Sized, made: &ArrayBytes<'static>) -> Result<(), CodecError> {
    is(rt, row.name, &made.size(), &row.size);
    gives(rt, row.name, made.clone(), made)
}

fn is_sized(rt: &impl Abort, alloc: Global, row: &Sized) -> Result<(), CodecError> {
    let made = container(alloc, &row.held)?;
    has_size(rt, row, &made)
}

#[test]
fn of_containers(rt: HostRuntime) -> Result<(), CodecError> {
    for row in SIZED.iter() {
        is_sized(&rt, rt.alloc(), row)?;
    }
    Ok(())
}

#[test]
fn of_offsets(rt: HostRuntime) -> Result<(), CodecError> {
    let made = offsets(rt.alloc(), &[1, 2, 2, 4])?;
    gives(&rt, "offsets", made.clone(), &made)
}

#[test]
fn of_shapes(rt: HostRuntime) -> Result<(), CodecError> {
    let made = shape(rt.alloc(), &[2, 3, 4])?;
    gives(&rt, "shape", made.clone(), &made)
}

#[test]
fn of_subsets(rt: HostRuntime) -> Result<(), CodecError> {
    let made = ArraySubset::new_with_ranges(rt.alloc(), &[1..3, 0..1, 5..5])?;
    gives(&rt, "subset", made.clone(), &made)
}

/// One of each kind.
const ASKED: &'static [Asked] = &[
    Asked::Ranges(&[1..3, 0..2]),
    Asked::Tuples(&[&[1], &[0]]),
    Asked::Numbers(2, 1, &[1, 0]),
];

fn is_copied(rt: &impl Abort, alloc: Global, asked: &Asked) -> Result<(), CodecError> {
    let made = indexer(alloc, asked)?;
    gives(rt, "indexer", made.clone(), &made)
}

#[test]
fn of_indexers(rt: HostRuntime) -> Result<(), CodecError> {
    for asked in ASKED.iter() {
        is_copied(&rt, rt.alloc(), asked)?;
    }
    Ok(())
}

fn is_type_copied(rt: &impl Abort, made: &DataType) -> Result<(), CodecError> {
    gives(rt, "type", made.clone(), made)
}

#[test]
fn of_types(rt: HostRuntime) -> Result<(), CodecError> {
    is_type_copied(&rt, &data_type(rt.alloc(), &Type::OptionalText)?)
}

/// The bytes of an element that is absent inside.
fn make_absent_inside(alloc: Global) -> Result<FillValue, CodecError> {
    FillValue::new_optional_null(alloc)?.into_optional()
}

fn is_fill_copied(rt: &impl Abort, made: &FillValue) -> Result<(), CodecError> {
    let wanted: &[u8] = &[0, 1];
    is(rt, "bytes", &made.as_ne_bytes(), &wanted);
    gives(rt, "fill value", made.clone(), made)
}

#[test]
fn of_fill_values(rt: HostRuntime) -> Result<(), CodecError> {
    is_fill_copied(&rt, &make_absent_inside(rt.alloc())?)
}

#[test]
fn of_orders(rt: HostRuntime) -> Result<(), PluginCreateError> {
    let made = TransposeOrder::new(rt.alloc(), &[2, 0, 1])?;
    gives(&rt, "order", made.clone(), &made)
}

/// The product of two input axes, the automatic size, and the size 10.
fn make_sizes(alloc: Global) -> Result<ReshapeShape, PluginCreateError> {
    let mut dims = Vec::new(alloc);
    dims.push(ReshapeDim::InputDims([0, 1].to_vec(alloc)?))?;
    dims.push(ReshapeDim::Auto)?;
    dims.push(ReshapeDim::Size(10))?;
    ReshapeShape::new(dims)
}

#[test]
fn of_sizes(rt: HostRuntime) -> Result<(), PluginCreateError> {
    let made = make_sizes(rt.alloc())?;
    gives(&rt, "sizes", made.clone(), &made)
}
