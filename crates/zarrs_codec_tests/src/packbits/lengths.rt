//! How long the values of a chunk are.

use crate::checks::is;
use crate::forms::{Chunk, ChunkForm, WORDS, chunk_form};
use crate::packbits::reads::{ALL_BITS, FLAGS, GRID, PADDED_FIRST, PADDED_LAST, Settings, codec};
use std::alloc::Global;
use std::process::Abort;
use zarrs_chunk::CodecError;
use zarrs_codec::BytesRepresentation;
use zarrs_metadata::PackBitsPaddingEncoding;
use zarrs_packbits::PackBitsCodec;

/// One element of 65 bits.
const LONG: Chunk = Chunk {
    sizes: &[1],
    bits: 65,
    components: 1,
    is_signed: true,
    fill: &[0, 0, 0, 0, 0, 0, 0, 0, 0],
};

/// How many bytes a codec makes of a chunk, or why it takes none such.
struct Length {
    name: &'static str,
    settings: Settings,
    chunk: Chunk,
    bytes: Result<u64, CodecError>,
}

const LENGTHS: &'static [Length] = &[
    Length {
        name: "two flags",
        settings: ALL_BITS,
        chunk: FLAGS,
        bytes: Ok(1),
    },
    Length {
        name: "two flags and a padding byte behind them",
        settings: PADDED_LAST,
        chunk: FLAGS,
        bytes: Ok(2),
    },
    Length {
        name: "forty flags",
        settings: ALL_BITS,
        chunk: GRID,
        bytes: Ok(5),
    },
    Length {
        name: "seventy flags behind a padding byte",
        settings: PADDED_FIRST,
        chunk: Chunk {
            sizes: &[7, 10],
            bits: 1,
            components: 1,
            is_signed: false,
            fill: &[0],
        },
        bytes: Ok(10),
    },
    Length {
        name: "two components of three bits",
        settings: ALL_BITS,
        chunk: Chunk {
            sizes: &[1],
            bits: 3,
            components: 2,
            is_signed: false,
            fill: &[0, 0],
        },
        bytes: Ok(1),
    },
    Length {
        name: "twelve bits with a sign",
        settings: ALL_BITS,
        chunk: Chunk {
            sizes: &[1],
            bits: 12,
            components: 1,
            is_signed: true,
            fill: &[0, 0],
        },
        bytes: Ok(2),
    },
    Length {
        name: "twelve bits without a sign",
        settings: ALL_BITS,
        chunk: Chunk {
            sizes: &[1],
            bits: 12,
            components: 1,
            is_signed: false,
            fill: &[0, 0],
        },
        bytes: Ok(2),
    },
    Length {
        name: "four pairs of bits behind a padding byte",
        settings: PADDED_FIRST,
        chunk: Chunk {
            sizes: &[4],
            bits: 2,
            components: 1,
            is_signed: false,
            fill: &[0],
        },
        bytes: Ok(2),
    },
    Length {
        name: "one bit of each of three bytes",
        settings: Settings {
            padding: PackBitsPaddingEncoding::None,
            first_bit: Some(3),
            last_bit: Some(3),
        },
        chunk: Chunk {
            sizes: &[3],
            bits: 8,
            components: 1,
            is_signed: true,
            fill: &[0],
        },
        bytes: Ok(1),
    },
    Length {
        name: "all bits but the lowest of four",
        settings: Settings {
            padding: PackBitsPaddingEncoding::None,
            first_bit: Some(1),
            last_bit: None,
        },
        chunk: Chunk {
            sizes: &[2],
            bits: 4,
            components: 1,
            is_signed: true,
            fill: &[0],
        },
        bytes: Ok(1),
    },
    Length {
        name: "the six lowest bits of sixteen",
        settings: Settings {
            padding: PackBitsPaddingEncoding::None,
            first_bit: None,
            last_bit: Some(5),
        },
        chunk: Chunk {
            sizes: &[1],
            bits: 16,
            components: 1,
            is_signed: true,
            fill: &[0, 0],
        },
        bytes: Ok(1),
    },
    Length {
        name: "all bits of words, which have no padding byte",
        settings: Settings {
            padding: PackBitsPaddingEncoding::LastByte,
            first_bit: Some(0),
            last_bit: Some(15),
        },
        chunk: WORDS,
        bytes: Ok(4),
    },
    Length {
        name: "65 bits",
        settings: ALL_BITS,
        chunk: LONG,
        bytes: Ok(9),
    },
    Length {
        name: "the five highest bits of 65",
        settings: Settings {
            padding: PackBitsPaddingEncoding::None,
            first_bit: Some(60),
            last_bit: Some(64),
        },
        chunk: LONG,
        bytes: Ok(1),
    },
    Length {
        name: "one element without axes, and a padding byte behind it",
        settings: PADDED_LAST,
        chunk: Chunk {
            sizes: &[],
            bits: 4,
            components: 3,
            is_signed: true,
            fill: &[0, 0, 0],
        },
        bytes: Ok(3),
    },
    Length {
        name: "a last bit that a byte doesn't have",
        settings: Settings {
            padding: PackBitsPaddingEncoding::None,
            first_bit: Some(3),
            last_bit: Some(8),
        },
        chunk: Chunk {
            sizes: &[1],
            bits: 8,
            components: 1,
            is_signed: false,
            fill: &[0],
        },
        bytes: Err(CodecError::BitRange),
    },
];

fn represents(rt: &impl Abort, form: &ChunkForm, codec: PackBitsCodec, row: &Length) {
    let came = codec.encoded_representation(&form.shape, &form.data_type, &form.fill_value);
    let wanted = match row.bytes {
        Ok(bytes) => Ok(BytesRepresentation::FixedSize(bytes)),
        Err(cause) => Err(cause),
    };
    is(rt, row.name, &came, &wanted);
}

fn represents_row(rt: &impl Abort, alloc: Global, row: &Length) -> Result<(), CodecError> {
    let codec = codec(&row.settings)?;
    represents(rt, &chunk_form(alloc, &row.chunk)?, codec, row);
    Ok(())
}

#[test]
fn are_those_of_the_kept_bits_and_the_padding_byte(rt: HostRuntime) -> Result<(), CodecError> {
    for row in LENGTHS.iter() {
        represents_row(&rt, rt.alloc(), row)?;
    }
    Ok(())
}
