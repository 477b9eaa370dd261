//! Chunks that are decoded into a target, and values that are asked to be made shorter.

use crate::checks::{answers, are, is};
use crate::forms::{Chunk, ChunkForm, PAIR, made, shape};
use std::alloc::Global;
use std::borrow::CowSlice;
use std::ops::Range;
use std::process::Abort;
use zarrs_array_bytes::{ArrayBytesDecodeIntoTarget, ArrayBytesFixedView};
use zarrs_chunk::CodecError::{InvalidBytesLength, TargetMismatch};
use zarrs_chunk::{ArraySubset, CodecError};
use zarrs_codec::ArrayToBytesCodecTraits;

/// The view of these ranges of an array of single bytes.
fn view<'a>(
    alloc: Global,
    bytes: &'a mut [u8],
    sizes: &[u64],
    ranges: &[Range<u64>],
) -> Result<ArrayBytesFixedView<'a>, CodecError> {
    let subset = ArraySubset::new_with_ranges(alloc, ranges)?;
    let shape = shape(alloc, sizes)?;
    ArrayBytesFixedView::new(alloc, bytes, 1, &shape, subset)
}

/// The sizes of an array of six bytes, each 9; the ranges where a chunk is to go; how many masks
/// the target has, each of as many flags and in the same places; whether the chunk goes there, or
/// the first error; and the array and each mask afterwards.
pub(crate) struct Into {
    pub(crate) sizes: &'static [u64],
    pub(crate) ranges: &'static [Range<u64>],
    pub(crate) masks: usize,
    pub(crate) answer: Result<(), CodecError>,
    pub(crate) values: &'static [u8],
    pub(crate) mask: &'static [u8],
}

/// A chain, a chunk and its value, and what comes of decoding that.
struct Row {
    name: &'static str,
    codecs: &'static str,
    chunk: Chunk,
    value: &'static [u8],
    into: Into,
}

const ROWS: &'static [Row] = &[
    Row {
        name: "a column",
        codecs: r#"["bytes"]"#,
        chunk: PAIR,
        value: &[1, 2],
        into: Into {
            sizes: &[2, 3],
            ranges: &[0..2, 1..2],
            masks: 0,
            answer: Ok(()),
            values: &[9, 1, 9, 9, 2, 9],
            mask: &[9; 6],
        },
    },
    Row {
        name: "two of six in a row",
        codecs: r#"["bytes","sample.length"]"#,
        chunk: PAIR,
        value: &[2, 0, 0, 0, 0, 0, 0, 0, 1, 2],
        into: Into {
            sizes: &[6],
            ranges: &[1..3],
            masks: 0,
            answer: Ok(()),
            values: &[9, 1, 2, 9, 9, 9],
            mask: &[9; 6],
        },
    },
    Row {
        name: "two columns of a chunk whose axes are turned",
        codecs: r#"[{"name":"transpose","configuration":{"order":[1,0]}},"bytes"]"#,
        chunk: Chunk {
            shape: &[2, 2],
            data_type: r#""uint8""#,
            fill_value: &[0],
        },
        value: &[1, 3, 2, 4],
        into: Into {
            sizes: &[2, 3],
            ranges: &[0..2, 1..3],
            masks: 0,
            answer: Ok(()),
            values: &[9, 1, 2, 9, 3, 4],
            mask: &[9; 6],
        },
    },
    Row {
        name: "one place for two elements",
        codecs: r#"["bytes"]"#,
        chunk: PAIR,
        value: &[1, 2],
        into: Into {
            sizes: &[2, 3],
            ranges: &[0..1, 1..2],
            masks: 0,
            answer: Err(TargetMismatch),
            values: &[9; 6],
            mask: &[9; 6],
        },
    },
    Row {
        name: "a mask over elements without masks",
        codecs: r#"["bytes"]"#,
        chunk: PAIR,
        value: &[1, 2],
        into: Into {
            sizes: &[2, 3],
            ranges: &[0..2, 1..2],
            masks: 1,
            answer: Err(TargetMismatch),
            values: &[9; 6],
            mask: &[9; 6],
        },
    },
    Row {
        name: "one place, and a short value",
        codecs: r#"["bytes"]"#,
        chunk: PAIR,
        value: &[1],
        into: Into {
            sizes: &[2, 3],
            ranges: &[0..1, 1..2],
            masks: 0,
            answer: Err(TargetMismatch),
            values: &[9; 6],
            mask: &[9; 6],
        },
    },
    Row {
        name: "a short value",
        codecs: r#"["bytes"]"#,
        chunk: PAIR,
        value: &[1],
        into: Into {
            sizes: &[2, 3],
            ranges: &[0..2, 1..2],
            masks: 0,
            answer: Err(InvalidBytesLength {
                len: 1,
                expected: 2,
            }),
            values: &[9; 6],
            mask: &[9; 6],
        },
    },
];

fn target<'a>(
    alloc: Global,
    bytes: &'a mut [u8],
    flags: &'a mut [u8],
    into: &Into,
) -> Result<ArrayBytesDecodeIntoTarget<'a>, CodecError> {
    let mut masks = Vec::new(alloc);
    if into.masks > 0 {
        masks.push(view(alloc, flags, into.sizes, into.ranges)?)?;
    }
    Ok(ArrayBytesDecodeIntoTarget {
        values: view(alloc, bytes, into.sizes, into.ranges)?,
        masks,
    })
}

fn decode_into<C: ArrayToBytesCodecTraits>(
    alloc: Global,
    codec: &C,
    form: &ChunkForm,
    value: &[u8],
    target: &mut ArrayBytesDecodeIntoTarget<'_>,
) -> Result<(), CodecError> {
    codec.decode_into(
        alloc,
        CowSlice::Borrowed(value),
        &form.shape,
        &form.data_type,
        &form.fill_value,
        target,
    )
}

/// The array and each mask are so afterwards.
fn are_left(rt: &impl Abort, about: &str, target: &ArrayBytesDecodeIntoTarget<'_>, into: &Into) {
    are(rt, about, target.values.as_slice(), into.values);
    for view in &target.masks {
        are(rt, about, view.as_slice(), into.mask);
    }
}

fn is_decoded_there<C: ArrayToBytesCodecTraits>(
    rt: &impl Abort,
    alloc: Global,
    codec: &C,
    form: &ChunkForm,
    about: &str,
    value: &[u8],
    into: &Into,
    target: &mut ArrayBytesDecodeIntoTarget<'_>,
) -> Result<(), CodecError> {
    let came = decode_into(alloc, codec, form, value, target);
    answers(rt, about, &came, &into.answer)?;
    are_left(rt, about, target, into);
    Ok(())
}

pub(crate) fn is_decoded_into<C: ArrayToBytesCodecTraits>(
    rt: &impl Abort,
    alloc: Global,
    codec: &C,
    form: &ChunkForm,
    about: &str,
    value: &[u8],
    into: &Into,
) -> Result<(), CodecError> {
    let mut bytes = [9u8; 6];
    let mut flags = [9u8; 6];
    let mut target = target(alloc, &mut bytes, &mut flags, into)?;
    is_decoded_there(rt, alloc, codec, form, about, value, into, &mut target)
}

fn chain_decodes_into(rt: &impl Abort, alloc: Global, row: &Row) -> Result<(), CodecError> {
    let case = made(alloc, row.codecs, &row.chunk)?;
    is_decoded_into(
        rt,
        alloc,
        &case.chain,
        &case.form,
        row.name,
        row.value,
        &row.into,
    )
}

#[test]
fn chains_decode_into_the_places_of_a_subset(rt: HostRuntime) -> Result<(), CodecError> {
    for row in ROWS {
        chain_decodes_into(&rt, rt.alloc(), row)?;
    }
    Ok(())
}

fn compact<C: ArrayToBytesCodecTraits>(
    alloc: Global,
    codec: &C,
    form: &ChunkForm,
    value: &[u8],
) -> Result<bool, CodecError> {
    let shorter = codec.compact(
        alloc,
        CowSlice::Borrowed(value),
        &form.shape,
        &form.data_type,
        &form.fill_value,
    )?;
    Ok(shorter.is_some())
}

/// No shorter value is made of this one.
pub(crate) fn isnt_compacted<C: ArrayToBytesCodecTraits>(
    rt: &impl Abort,
    alloc: Global,
    codec: &C,
    form: &ChunkForm,
    about: &str,
    value: &[u8],
) -> Result<(), CodecError> {
    is(rt, about, &compact(alloc, codec, form, value)?, &false);
    Ok(())
}
