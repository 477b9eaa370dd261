//! Reads in part: the bytes that they ask for, and a decoder through the trait of all decoders.

use crate::checks::{are_planned, is, is_part};
use crate::forms::{Asked, Chunk, ChunkForm, chunk_form, indexer, store};
use Asked::Ranges;
use std::alloc::Global;
use std::process::Abort;
use zarrs_chunk::{CodecError, Indexer};
use zarrs_codec::{ArrayPartialDecoderTraits, MemoryHandle, Refused};
use zarrs_metadata::PackBitsPaddingEncoding;
use zarrs_packbits::{PackBitsCodec, PackBitsPartialDecoder};

/// The settings of a codec.
pub(crate) struct Settings {
    pub(crate) padding: PackBitsPaddingEncoding,
    pub(crate) first_bit: Option<u64>,
    pub(crate) last_bit: Option<u64>,
}

/// All bits are kept, without a padding byte.
pub(crate) const ALL_BITS: Settings = Settings {
    padding: PackBitsPaddingEncoding::None,
    first_bit: None,
    last_bit: None,
};

/// All bits are kept, and the padding byte comes first.
pub(crate) const PADDED_FIRST: Settings = Settings {
    padding: PackBitsPaddingEncoding::FirstByte,
    first_bit: None,
    last_bit: None,
};

/// All bits are kept, and the padding byte comes last.
pub(crate) const PADDED_LAST: Settings = Settings {
    padding: PackBitsPaddingEncoding::LastByte,
    first_bit: None,
    last_bit: None,
};

/// The codec of these settings, of which there is one.
pub(crate) fn codec(settings: &Settings) -> Result<PackBitsCodec, CodecError> {
    match PackBitsCodec::new(settings.padding, settings.first_bit, settings.last_bit) {
        Ok(codec) => Ok(codec),
        Err(_) => Err(CodecError::BitRange),
    }
}

/// Two elements of one bit.
pub(crate) const FLAGS: Chunk = Chunk {
    sizes: &[2],
    bits: 1,
    components: 1,
    is_signed: false,
    fill: &[0],
};

/// Eight rows of five elements of one bit.
pub(crate) const GRID: Chunk = Chunk {
    sizes: &[8, 5],
    ..FLAGS
};

/// What is asked for of a chunk, the ranges of bytes that a read asks for, and what it reads.
struct Read {
    name: &'static str,
    settings: Settings,
    chunk: Chunk,
    stored: Option<&'static [u8]>,
    asked: Asked,
    ranges: &'static [(u64, u64)],
    elements: &'static [u8],
}

/// Forty flags, of which every third is true.
const STORED_FLAGS: &'static [u8] = &[73, 146, 36, 73, 146];

const READS: &'static [Read] = &[
    Read {
        name: "three columns of three rows",
        settings: ALL_BITS,
        chunk: GRID,
        stored: Some(STORED_FLAGS),
        asked: Ranges(&[1..4, 1..4]),
        ranges: &[(0, 2), (1, 2), (2, 3)],
        elements: &[1, 0, 0, 0, 1, 0, 0, 0, 1],
    },
    Read {
        name: "the same behind a padding byte",
        settings: PADDED_FIRST,
        chunk: GRID,
        stored: Some(&[0, 73, 146, 36, 73, 146]),
        asked: Ranges(&[1..4, 1..4]),
        ranges: &[(1, 3), (2, 3), (3, 4)],
        elements: &[1, 0, 0, 0, 1, 0, 0, 0, 1],
    },
    Read {
        name: "the same before a padding byte",
        settings: PADDED_LAST,
        chunk: GRID,
        stored: Some(&[73, 146, 36, 73, 146, 0]),
        asked: Ranges(&[1..4, 1..4]),
        ranges: &[(0, 2), (1, 2), (2, 3)],
        elements: &[1, 0, 0, 0, 1, 0, 0, 0, 1],
    },
    Read {
        name: "all",
        settings: ALL_BITS,
        chunk: GRID,
        stored: Some(STORED_FLAGS),
        asked: Ranges(&[0..8, 0..5]),
        ranges: &[(0, 5)],
        elements: &[
            1, 0, 0, 1, 0, 0, 1, 0, 0, 1, 0, 0, 1, 0, 0, 1, 0, 0, 1, 0, 0, 1, 0, 0, 1, 0, 0, 1, 0,
            0, 1, 0, 0, 1, 0, 0, 1, 0, 0, 1,
        ],
    },
    Read {
        name: "nothing",
        settings: ALL_BITS,
        chunk: GRID,
        stored: Some(STORED_FLAGS),
        asked: Ranges(&[1..1, 0..5]),
        ranges: &[],
        elements: &[],
    },
    Read {
        name: "words, which have no padding byte",
        settings: PADDED_FIRST,
        chunk: Chunk {
            sizes: &[3],
            bits: 16,
            components: 1,
            is_signed: false,
            fill: &[7, 8],
        },
        stored: Some(&[1, 2, 3, 4, 5, 6]),
        asked: Ranges(&[1..3]),
        ranges: &[(2, 6)],
        elements: &[3, 4, 5, 6],
    },
    Read {
        name: "the last of as many long words as there can be, of which none is stored",
        settings: ALL_BITS,
        chunk: Chunk {
            sizes: &[2305843009213693951],
            bits: 64,
            components: 1,
            is_signed: false,
            fill: &[1, 2, 3, 4, 5, 6, 7, 8],
        },
        stored: None,
        asked: Ranges(&[2305843009213693950..2305843009213693951]),
        ranges: &[(18446744073709551600, 18446744073709551608)],
        elements: &[1, 2, 3, 4, 5, 6, 7, 8],
    },
    Read {
        name: "all bits but the lowest one of four with a sign",
        settings: Settings {
            padding: PackBitsPaddingEncoding::None,
            first_bit: Some(1),
            last_bit: None,
        },
        chunk: Chunk {
            sizes: &[2],
            bits: 4,
            components: 1,
            is_signed: true,
            fill: &[15],
        },
        stored: Some(&[59]),
        asked: Ranges(&[1..2]),
        ranges: &[(0, 1)],
        elements: &[254],
    },
];

type Decoder = PackBitsPartialDecoder<MemoryHandle>;

fn make_decoder(
    alloc: Global,
    codec: PackBitsCodec,
    form: &ChunkForm,
    handle: MemoryHandle,
) -> Result<Decoder, Refused<MemoryHandle>> {
    let (shape, data_type, fill_value) = (&form.shape, &form.data_type, &form.fill_value);
    codec.partial_decoder(alloc, handle, shape, data_type, fill_value)
}

/// A decoder of the row's chunk over its value, or over nothing.
fn decoder(alloc: Global, row: &Read) -> Result<Decoder, CodecError> {
    let form = chunk_form(alloc, &row.chunk)?;
    match make_decoder(
        alloc,
        codec(&row.settings)?,
        &form,
        store(alloc, row.stored)?,
    ) {
        Ok(decoder) => Ok(decoder),
        Err(refused) => Err(refused.error),
    }
}

/// What a decoder reports without reading.
fn tells<D: ArrayPartialDecoderTraits>(rt: &impl Abort, decoder: &mut D, row: &Read) {
    let held = row.stored.unwrap_or(&[]).len();
    is(rt, row.name, &decoder.exists(), &Ok(row.stored.is_some()));
    let told = (decoder.size_held(), decoder.supports_partial_decode());
    is(rt, row.name, &told, &(held, true));
    let size = decoder.data_type().fixed_size();
    is(rt, row.name, &size, &Some(row.chunk.fill.len()));
}

fn answers(
    rt: &impl Abort,
    alloc: Global,
    decoder: &mut Decoder,
    asked: &Indexer,
    row: &Read,
) -> Result<(), CodecError> {
    are_planned(
        rt,
        row.name,
        decoder.planned_ranges(alloc, asked),
        Ok(row.ranges),
    )?;
    tells(rt, decoder, row);
    is_part(
        rt,
        row.name,
        decoder.partial_decode(alloc, asked),
        Ok(row.elements),
    )
}

/// A decoder answers, and hands its handle back.
fn reads_row(rt: &impl Abort, alloc: Global, row: &Read) -> Result<(), CodecError> {
    let asked = indexer(alloc, row.asked)?;
    let mut decoder = decoder(alloc, row)?;
    answers(rt, alloc, &mut decoder, &asked, row)?;
    is(rt, row.name, &decoder.into_handle().value(), &row.stored);
    Ok(())
}

#[test]
fn ask_for_the_bytes_of_the_places_alone(rt: HostRuntime) -> Result<(), CodecError> {
    for row in READS.iter() {
        reads_row(&rt, rt.alloc(), row)?;
    }
    Ok(())
}
