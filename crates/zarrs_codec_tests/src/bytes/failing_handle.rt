//! Reads over a handle that fails in the middle.

use crate::bytes::parts::{decoder, plans, reads_part};
use crate::checks::is;
use crate::forms::{Asked, Chunk, PAIR, THREE};
use Asked::Ranges;
use std::alloc::Global;
use std::ops::Range;
use std::process::Abort;
use zarrs_bytes::BytesCodecPartial;
use zarrs_chunk::{CodecError, StorageError};
use zarrs_codec::testing::FailingHandle;

/// What the call of this number answers, where it is the one that fails.
fn make_error(call: u32) -> CodecError {
    CodecError::Storage(StorageError { code: call })
}

/// A chunk; bytes, and how many times its value has them, where there is one at all; what is asked for twice;
/// bytes, and how many times the elements have them; which call of the handle fails, counted from 1; and
/// whether that call is of the first read.
struct Row {
    name: &'static str,
    chunk: Chunk,
    part: &'static [u8],
    parts: u64,
    ranges: &'static [Range<u64>],
    element: &'static [u8],
    elements: u64,
    call: u32,
    fails_first: bool,
}

const GRID: Chunk = Chunk {
    sizes: &[1025, 17],
    ..PAIR
};

const ROWS: &'static [Row] = &[
    Row {
        name: "a read over a value",
        chunk: THREE,
        part: &[1, 2],
        parts: 3,
        ranges: &[0..1],
        element: &[2, 1],
        elements: 1,
        call: 1,
        fails_first: true,
    },
    Row {
        name: "a read over nothing",
        chunk: THREE,
        part: &[],
        parts: 0,
        ranges: &[0..1],
        element: &[9, 8],
        elements: 1,
        call: 1,
        fails_first: true,
    },
    // Ranges of 16 bytes take as much memory as their bytes, and are read by one call.
    Row {
        name: "the second read of long ranges",
        chunk: GRID,
        part: &[5],
        parts: 17425,
        ranges: &[0..1025, 0..16],
        element: &[5],
        elements: 16400,
        call: 2,
        fails_first: false,
    },
    Row {
        name: "the second batch of short ranges",
        chunk: GRID,
        part: &[5],
        parts: 17425,
        ranges: &[0..1025, 0..15],
        element: &[5],
        elements: 15375,
        call: 2,
        fails_first: true,
    },
];

type Decoder = BytesCodecPartial<FailingHandle>;

/// The bytes so many times, one after another.
fn repeat(alloc: Global, part: &[u8], count: u64) -> Result<Vec<u8>, CodecError> {
    let mut bytes = Vec::new(alloc);
    for _copy in 0..count {
        bytes.extend_from_slice(part)?;
    }
    Ok(bytes)
}

/// A decoder over a handle of which one call fails.
fn make_decoder(alloc: Global, row: &Row) -> Result<Decoder, CodecError> {
    let value = match row.parts {
        0 => None,
        parts => Some(repeat(alloc, row.part, parts)?),
    };
    let handle = FailingHandle::new(value, row.call);
    decoder(alloc, &row.chunk, handle)
}

/// Two reads, one of which fails.
fn reads_twice(
    rt: &impl Abort,
    alloc: Global,
    decoder: &mut Decoder,
    row: &Row,
    elements: &[u8],
) -> Result<(), CodecError> {
    let (first, second) = if row.fails_first {
        (Err(make_error(row.call)), Ok(elements))
    } else {
        (Ok(elements), Err(make_error(row.call)))
    };
    reads_part(rt, row.name, alloc, decoder, Ranges(row.ranges), first)?;
    reads_part(rt, row.name, alloc, decoder, Ranges(row.ranges), second)
}

fn reads(
    rt: &impl Abort,
    alloc: Global,
    decoder: &mut Decoder,
    row: &Row,
) -> Result<(), CodecError> {
    let elements = repeat(alloc, row.element, row.elements)?;
    reads_twice(rt, alloc, decoder, row, elements.as_slice())
}

fn fails_once(rt: &impl Abort, alloc: Global, row: &Row) -> Result<(), CodecError> {
    let mut decoder = make_decoder(alloc, row)?;
    reads(rt, alloc, &mut decoder, row)?;
    is(rt, row.name, &decoder.into_handle().faults(), &1);
    Ok(())
}

// The next read is answered as ever.
#[test]
fn a_failing_call_refuses_its_read_alone(rt: HostRuntime) -> Result<(), CodecError> {
    for row in ROWS.iter() {
        fails_once(&rt, rt.alloc(), row)?;
    }
    Ok(())
}

/// No call of the handle is made for an indexer that lies outside, nor for a plan: the call that fails
/// is the first one behind them.
fn is_not_asked_in_vain(
    rt: &impl Abort,
    alloc: Global,
    decoder: &mut Decoder,
) -> Result<(), CodecError> {
    let refusal = Err(CodecError::OutOfBounds);
    reads_part(rt, "outside", alloc, decoder, Ranges(&[0..4]), refusal)?;
    plans(
        rt,
        "planned",
        alloc,
        decoder,
        Ranges(&[0..1]),
        Ok(&[(0, 2)]),
    )?;
    is(rt, "there", &decoder.exists(), &Err(make_error(1)));
    is(rt, "there again", &decoder.exists(), &Ok(true));
    Ok(())
}

#[test]
fn an_indexer_is_refused_before_the_handle_is_asked(rt: HostRuntime) -> Result<(), CodecError> {
    let mut decoder = make_decoder(rt.alloc(), &ROWS[0])?;
    is_not_asked_in_vain(&rt, rt.alloc(), &mut decoder)
}
