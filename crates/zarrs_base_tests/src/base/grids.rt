//! Regions of a grid of chunks: which chunks they touch, what they need of each, and their elements cut
//! into parts and put together again. Neither the tool nor any codec makes these calls yet.

use crate::checks::{are, is, shape};
use std::alloc::Global;
use std::ops::Range;
use std::process::Abort;
use zarrs_chunk::{ArraySubset, ChunkShape, CodecError};
use zarrs_grid::{
    ChunkPart, chunks_in_array_subset, gather_elements, part_in_chunk, plan_region,
    scatter_elements,
};

/// A part of a region: its chunk, where it begins in the chunk and in the region, how long it is, and its
/// elements.
struct Part {
    chunk: &'static [u64],
    in_chunk: &'static [u64],
    in_region: &'static [u64],
    lengths: &'static [u64],
    elements: &'static [u16],
}

/// The shape of the chunks, and of an array of two by two of them, whose elements are numbered.
const CHUNK: &'static [u64] = &[2, 3];

const ARRAY: &'static [u64] = &[4, 6];

const NUMBERS: &'static [u16] = &[
    0, 1, 2, 3, 4, 5, 6, 7, 8, 9, 10, 11, 12, 13, 14, 15, 16, 17, 18, 19, 20, 21, 22, 23,
];

/// A region of it, its shape, and its elements.
const REGION: &'static [Range<u64>] = &[1..4, 2..5];

const LENGTHS: &'static [u64] = &[3, 3];

const ELEMENTS: &'static [u16] = &[8, 9, 10, 14, 15, 16, 20, 21, 22];

/// Its parts, in the order of the chunks.
const PARTS: &'static [Part] = &[
    Part {
        chunk: &[0, 0],
        in_chunk: &[1, 2],
        in_region: &[0, 0],
        lengths: &[1, 1],
        elements: &[8],
    },
    Part {
        chunk: &[0, 1],
        in_chunk: &[1, 0],
        in_region: &[0, 1],
        lengths: &[1, 2],
        elements: &[9, 10],
    },
    Part {
        chunk: &[1, 0],
        in_chunk: &[0, 2],
        in_region: &[1, 0],
        lengths: &[2, 1],
        elements: &[14, 20],
    },
    Part {
        chunk: &[1, 1],
        in_chunk: &[0, 0],
        in_region: &[1, 1],
        lengths: &[2, 2],
        elements: &[15, 16, 21, 22],
    },
];

/// The part of one element, in another grid.
const ONE: &'static [Part] = &[Part {
    chunk: &[1, 7, 2],
    in_chunk: &[2, 10, 100],
    in_region: &[0, 0, 0],
    lengths: &[1, 1, 1],
    elements: &[],
}];

fn is_box(rt: &impl Abort, name: &str, came: &ArraySubset, starts: &[u64], lengths: &[u64]) {
    are(rt, name, came.start(), starts);
    are(rt, name, came.shape(), lengths);
}

fn is_part(rt: &impl Abort, came: &ChunkPart, wanted: &Part) {
    are(rt, "chunk", came.chunk.as_slice(), wanted.chunk);
    is_box(
        rt,
        "in the chunk",
        &came.in_chunk,
        wanted.in_chunk,
        wanted.lengths,
    );
    is_box(
        rt,
        "in the region",
        &came.in_region,
        wanted.in_region,
        wanted.lengths,
    );
}

fn are_parts(rt: &impl Abort, came: &[ChunkPart], wanted: &[Part]) {
    is(rt, "parts", &came.len(), &wanted.len());
    for (came, wanted) in came.iter().zip(wanted.iter()) {
        is_part(rt, came, wanted);
    }
}

/// The part in each chunk by itself.
fn are_made(
    rt: &impl Abort,
    alloc: Global,
    chunk: &ChunkShape,
    region: &ArraySubset,
) -> Result<(), CodecError> {
    for wanted in PARTS.iter() {
        let part = part_in_chunk(alloc, chunk, region, wanted.chunk.to_vec(alloc)?)?;
        is_part(rt, &part, wanted);
    }
    Ok(())
}

/// Each part's elements are taken out of the region's.
fn are_gathered(rt: &impl Abort, alloc: Global, parts: &[ChunkPart]) -> Result<(), CodecError> {
    let lengths = shape(alloc, LENGTHS)?;
    for (part, wanted) in parts.iter().zip(PARTS.iter()) {
        let elements = gather_elements(alloc, ELEMENTS, &lengths, &part.in_region)?;
        are(rt, "elements", elements.as_slice(), wanted.elements);
    }
    Ok(())
}

/// Each part's elements are put into the region's.
fn scatter(alloc: Global, answer: &mut [u16], parts: &[ChunkPart]) -> Result<(), CodecError> {
    let lengths = shape(alloc, LENGTHS)?;
    for (part, wanted) in parts.iter().zip(PARTS.iter()) {
        scatter_elements(alloc, answer, &lengths, &part.in_region, wanted.elements)?;
    }
    Ok(())
}

fn planned(alloc: Global) -> Result<Vec<ChunkPart>, CodecError> {
    let chunk = shape(alloc, CHUNK)?;
    let region = ArraySubset::new_with_ranges(alloc, REGION)?;
    plan_region(alloc, &chunk, &region)
}

#[test]
fn chunks_of_a_region(rt: HostRuntime) -> Result<(), CodecError> {
    let chunk = shape(rt.alloc(), CHUNK)?;
    let region = ArraySubset::new_with_ranges(rt.alloc(), REGION)?;
    let chunks = chunks_in_array_subset(rt.alloc(), &chunk, &region)?;
    is_box(&rt, "chunks", &chunks, &[0, 0], &[2, 2]);
    Ok(())
}

#[test]
fn parts_of_a_region(rt: HostRuntime) -> Result<(), CodecError> {
    let parts = planned(rt.alloc())?;
    are_parts(&rt, parts.as_slice(), PARTS);
    Ok(())
}

#[test]
fn part_in_each_chunk(rt: HostRuntime) -> Result<(), CodecError> {
    let chunk = shape(rt.alloc(), CHUNK)?;
    let region = ArraySubset::new_with_ranges(rt.alloc(), REGION)?;
    are_made(&rt, rt.alloc(), &chunk, &region)
}

/// The example of the Zarr v3 core specification, "Regular grids".
#[test]
fn part_of_one_element(rt: HostRuntime) -> Result<(), CodecError> {
    let chunk = shape(rt.alloc(), &[5, 20, 400])?;
    let element = ArraySubset::new_with_ranges(rt.alloc(), &[7..8, 150..151, 900..901])?;
    let parts = plan_region(rt.alloc(), &chunk, &element)?;
    are_parts(&rt, parts.as_slice(), ONE);
    Ok(())
}

#[test]
fn elements_of_a_region(rt: HostRuntime) -> Result<(), CodecError> {
    let array = shape(rt.alloc(), ARRAY)?;
    let region = ArraySubset::new_with_ranges(rt.alloc(), REGION)?;
    let elements = gather_elements(rt.alloc(), NUMBERS, &array, &region)?;
    are(&rt, "elements", elements.as_slice(), ELEMENTS);
    Ok(())
}

#[test]
fn elements_of_parts(rt: HostRuntime) -> Result<(), CodecError> {
    let parts = planned(rt.alloc())?;
    are_gathered(&rt, rt.alloc(), parts.as_slice())
}

#[test]
fn parts_make_a_region(rt: HostRuntime) -> Result<(), CodecError> {
    let parts = planned(rt.alloc())?;
    let mut answer = vec![in rt.alloc(); 0u16; 9]?;
    scatter(rt.alloc(), answer.as_mut_slice(), parts.as_slice())?;
    are(&rt, "joined", answer.as_slice(), ELEMENTS);
    Ok(())
}
