//! Chunks that are read in part: the ranges of bytes that a read plans, and what a decoder reports of its
//! handle, which may be lent.

use crate::checks::{Answer, are_planned, is, is_part};
use crate::forms::{Asked, Chunk, ChunkForm, PAIR, THREE, WORDS, chunk_form, indexer, store};
use Asked::{Ranges, Tuples};
use CodecError::{IncompatibleDimensionality, OutOfBounds};
use std::alloc::Global;
use std::process::Abort;
use zarrs_array_bytes::ArrayBytes;
use zarrs_bytes::{BytesCodec, BytesCodecPartial};
use zarrs_chunk::CodecError;
use zarrs_codec::{ByteRange, BytesPartialDecoderTraits, MemoryHandle, Refused};
use zarrs_data_type::DataType;

fn make_decoder<H: BytesPartialDecoderTraits>(
    alloc: Global,
    form: &ChunkForm,
    handle: H,
) -> Result<BytesCodecPartial<H>, Refused<H>> {
    let (shape, data_type, fill_value) = (&form.shape, &form.data_type, &form.fill_value);
    BytesCodec::big().partial_decoder(alloc, handle, shape, data_type, fill_value)
}

/// A decoder of such a chunk in part, over a handle, for which the highest byte of a component is the
/// first one in a value.
pub(crate) fn decoder<H: BytesPartialDecoderTraits + Drop>(
    alloc: Global,
    chunk: &Chunk,
    handle: H,
) -> Result<BytesCodecPartial<H>, CodecError> {
    let form = chunk_form(alloc, chunk)?;
    match make_decoder(alloc, &form, handle) {
        Ok(decoder) => Ok(decoder),
        Err(refused) => Err(refused.error),
    }
}

/// What a decoder reads.
fn part<H: BytesPartialDecoderTraits>(
    alloc: Global,
    decoder: &mut BytesCodecPartial<H>,
    asked: Asked,
) -> Result<ArrayBytes<'static>, CodecError> {
    match indexer(alloc, asked) {
        Ok(asked) => decoder.partial_decode(alloc, &asked),
        Err(cause) => Err(cause),
    }
}

/// A read by a decoder returns these bytes, or fails with this error.
pub(crate) fn reads_part<H: BytesPartialDecoderTraits>(
    rt: &impl Abort,
    name: &str,
    alloc: Global,
    decoder: &mut BytesCodecPartial<H>,
    asked: Asked,
    wanted: Answer<'_>,
) -> Result<(), CodecError> {
    is_part(rt, name, part(alloc, decoder, asked), wanted)
}

const SQUARE: Chunk = Chunk {
    sizes: &[4, 4],
    ..PAIR
};

/// Two rows of two words.
const FOUR_WORDS: Chunk = Chunk {
    sizes: &[2, 2],
    ..WORDS
};

const LONGEST: Chunk = Chunk {
    sizes: &[18446744073709551615],
    ..PAIR
};

const MOST_WORDS: Chunk = Chunk {
    sizes: &[9223372036854775807],
    ..WORDS
};

/// What is asked for of a chunk, and the ranges of bytes that a read asks for, by their starts and ends;
/// or why none are planned.
struct Row {
    name: &'static str,
    chunk: Chunk,
    asked: Asked,
    ranges: Result<&'static [(u64, u64)], CodecError>,
}

const ROWS: &'static [Row] = &[
    Row {
        name: "column 0 of rows 1 and 2",
        chunk: SQUARE,
        asked: Ranges(&[1..3, 0..1]),
        ranges: Ok(&[(4, 5), (8, 9)]),
    },
    Row {
        name: "the whole chunk",
        chunk: SQUARE,
        asked: Ranges(&[0..4, 0..4]),
        ranges: Ok(&[(0, 16)]),
    },
    Row {
        name: "two rows",
        chunk: SQUARE,
        asked: Ranges(&[1..3, 0..4]),
        ranges: Ok(&[(4, 12)]),
    },
    Row {
        name: "an empty range inside",
        chunk: PAIR,
        asked: Ranges(&[1..1]),
        ranges: Ok(&[]),
    },
    Row {
        name: "an axis too few",
        chunk: SQUARE,
        asked: Ranges(&[0..1]),
        ranges: Err(IncompatibleDimensionality),
    },
    Row {
        name: "column 1 of words",
        chunk: FOUR_WORDS,
        asked: Ranges(&[0..2, 1..2]),
        ranges: Ok(&[(2, 4), (6, 8)]),
    },
    Row {
        name: "words out of order, one of them twice",
        chunk: FOUR_WORDS,
        asked: Tuples(&[&[1, 1], &[0, 0], &[1, 1]]),
        ranges: Ok(&[(6, 8), (0, 2), (6, 8)]),
    },
    Row {
        name: "the last of as many bytes as can be",
        chunk: LONGEST,
        asked: Ranges(&[18446744073709551614..18446744073709551615]),
        ranges: Ok(&[(18446744073709551614, 18446744073709551615)]),
    },
    Row {
        name: "the last of as many words as can be",
        chunk: MOST_WORDS,
        asked: Tuples(&[&[9223372036854775806]]),
        ranges: Ok(&[(18446744073709551612, 18446744073709551614)]),
    },
    Row {
        name: "the second tuple is outside",
        chunk: SQUARE,
        asked: Tuples(&[&[0, 0], &[0, 4]]),
        ranges: Err(OutOfBounds),
    },
];

/// The ranges of bytes that such a read asks for.
fn plan_ranges<H: BytesPartialDecoderTraits>(
    alloc: Global,
    decoder: &BytesCodecPartial<H>,
    asked: Asked,
) -> Result<Vec<ByteRange>, CodecError> {
    match indexer(alloc, asked) {
        Ok(asked) => decoder.planned_ranges(alloc, &asked),
        Err(cause) => Err(cause),
    }
}

/// These ranges are planned, or none for this cause.
pub(crate) fn plans<H: BytesPartialDecoderTraits>(
    rt: &impl Abort,
    name: &str,
    alloc: Global,
    decoder: &BytesCodecPartial<H>,
    asked: Asked,
    wanted: Result<&[(u64, u64)], CodecError>,
) -> Result<(), CodecError> {
    are_planned(rt, name, plan_ranges(alloc, decoder, asked), wanted)
}

fn plans_row(rt: &impl Abort, alloc: Global, row: &Row) -> Result<(), CodecError> {
    let decoder = decoder(alloc, &row.chunk, MemoryHandle::new())?;
    plans(rt, row.name, alloc, &decoder, row.asked, row.ranges)
}

#[test]
fn plans_the_bytes_of_the_places_alone(rt: HostRuntime) -> Result<(), CodecError> {
    for row in ROWS.iter() {
        plans_row(&rt, rt.alloc(), row)?;
    }
    Ok(())
}

/// What a decoder of three words reports: it keeps what its handle keeps, and no more. The last two
/// are read.
fn answers_all<H: BytesPartialDecoderTraits>(
    rt: &impl Abort,
    alloc: Global,
    decoder: &mut BytesCodecPartial<H>,
) -> Result<(), CodecError> {
    is(rt, "type", decoder.data_type(), &DataType::uint16());
    is(rt, "in part", &decoder.supports_partial_decode(), &true);
    is(rt, "held", &decoder.size_held(), &6);
    is(rt, "there", &decoder.exists(), &Ok(true));
    let asked = Ranges(&[1..3]);
    reads_part(rt, "part", alloc, decoder, asked, Ok(&[4, 3, 6, 5]))
}

/// A decoder over a handle, which may be lent, answers.
fn reads_over<H: BytesPartialDecoderTraits + Drop>(
    rt: &impl Abort,
    alloc: Global,
    handle: H,
) -> Result<(), CodecError> {
    let mut decoder = decoder(alloc, &THREE, handle)?;
    answers_all(rt, alloc, &mut decoder)
}

#[test]
fn borrows_or_owns_its_handle(rt: HostRuntime) -> Result<(), CodecError> {
    let mut handle = store(rt.alloc(), Some(&[1, 2, 3, 4, 5, 6]))?;
    reads_over(&rt, rt.alloc(), &mut handle)?;
    reads_over(&rt, rt.alloc(), handle)
}
