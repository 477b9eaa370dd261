//! Elements that are written where they are wanted. The bits of each value are worked out by hand: the
//! kept bits of the elements, the lowest first, in bytes that are filled from the lowest bit on.
ghost use Rattle.std.specs.Prelude.{◌≡◌, ◌*◌, true};
ghost use Rattle.zarrs_chunk.specs.ChunkShape.{product};

use super::reads::{ALL_BITS, PADDED_FIRST, PADDED_LAST, Settings, codec};
use crate::checks::answers;
use crate::forms::{Chunk, ChunkForm, THREE, chunk_form};
use std::alloc::Global;
use std::borrow::CowSlice;
use std::process::Abort;
use zarrs_chunk::{ChunkShape, CodecError};
use zarrs_metadata::PackBitsPaddingEncoding;
use zarrs_packbits::PackBitsCodec;

/// A chunk's value, and its elements or the error in their place.
struct Decoded {
    name: &'static str,
    chunk: Chunk,
    settings: Settings,
    value: &'static [u8],
    elements: Result<&'static [u8], CodecError>,
}

/// What stands in the place of the elements of three words before they are written.
const BEFORE: [u8; 6] = [9; 6];

const DECODED: [Decoded; 6] = [
    Decoded {
        name: "ten elements of a bit: 1, 0, 1, five of 0, and 0, 1 in the second byte",
        chunk: Chunk {
            sizes: &[10],
            bits: 1,
            components: 1,
            is_signed: false,
            fill: &[0],
        },
        settings: ALL_BITS,
        value: &[0b0000_0101, 0b0000_0010],
        elements: Ok(&[1, 0, 1, 0, 0, 0, 0, 0, 0, 1]),
    },
    Decoded {
        name: "-1, -8 and 7 of four bits, behind the number of spare bits",
        chunk: Chunk {
            sizes: &[3],
            bits: 4,
            components: 1,
            is_signed: true,
            fill: &[0],
        },
        settings: PADDED_FIRST,
        value: &[4, 0x8f, 0x07],
        elements: Ok(&[255, 248, 7]),
    },
    Decoded {
        name: "bits 2 and 3 of each byte: 1, 2, 3, 0",
        chunk: Chunk {
            sizes: &[4],
            bits: 8,
            components: 1,
            is_signed: false,
            fill: &[0],
        },
        settings: Settings {
            padding: PackBitsPaddingEncoding::None,
            first_bit: Some(2),
            last_bit: Some(3),
        },
        value: &[0b00_11_10_01],
        elements: Ok(&[4, 8, 12, 0]),
    },
    Decoded {
        name: "5, 2 and 7 of three bits, before the number of spare bits",
        chunk: Chunk {
            sizes: &[3],
            bits: 3,
            components: 1,
            is_signed: false,
            fill: &[0],
        },
        settings: PADDED_LAST,
        value: &[0b11_010_101, 0b0000_0001, 7],
        elements: Ok(&[5, 2, 7]),
    },
    Decoded {
        name: "all bits of three words",
        chunk: THREE,
        settings: PADDED_FIRST,
        value: &[1, 2, 3, 4, 5, 6],
        elements: Ok(&[1, 2, 3, 4, 5, 6]),
    },
    Decoded {
        name: "a value that has a byte too few leaves what was there",
        chunk: THREE,
        settings: ALL_BITS,
        value: &[1, 2, 3, 4, 5],
        elements: Err(CodecError::InvalidBytesLength {
            len: 5,
            expected: 6,
        }),
    },
];

/// Whether the elements of a chunk of this shape, all of one size, have so many bytes.
fn fits(shape: &ChunkShape, size: usize, len: usize) -> bool
    ensures room { result ≡ true → len ≡ product shape.now * size }
{
    match shape.num_elements() {
        Ok(count) => match count.checked_mul(size as u64) {
            Some(bytes) => bytes == len as u64,
            None => false,
        },
        Err(_) => false,
    }
}

/// Writes the elements of a row's chunk; a form that doesn't fit is an error of the test.
fn write(
    alloc: Global,
    codec: &PackBitsCodec,
    form: &ChunkForm,
    row: &Decoded,
    elements: &mut [u8],
) -> Result<(), CodecError> {
    let (shape, data_type, fill_value) = (&form.shape, &form.data_type, &form.fill_value);
    let value = CowSlice::Borrowed(row.value);
    let Some(size) = data_type.fixed_size() else {
        return Err(CodecError::ArrayBytesKind);
    };
    if size == 0 || !fits(shape, size, elements.len()) {
        return Err(CodecError::ArrayBytesKind);
    }
    codec.decode_elements_into(alloc, value, shape, data_type, fill_value, size, elements)
}

/// A row's elements are written over what stood in their place, or that is left.
fn writes_row(rt: &impl Abort, alloc: Global, row: &Decoded) -> Result<(), CodecError> {
    let form = chunk_form(alloc, &row.chunk)?;
    let codec = codec(&row.settings)?;
    let mut elements = vec![in alloc; 9u8; row.elements.unwrap_or(&BEFORE).len()]?;
    match write(alloc, &codec, &form, row, &mut elements) {
        Ok(()) => answers(rt, row.name, Ok(elements.as_slice()), row.elements),
        Err(cause) => {
            answers(rt, row.name, Err(cause), row.elements)?;
            answers(rt, row.name, Ok(elements.as_slice()), Ok(&BEFORE))
        }
    }
}

#[test]
fn are_written_where_they_are_wanted(rt: HostRuntime) -> Result<(), CodecError> {
    for row in DECODED.iter() {
        writes_row(&rt, rt.alloc(), row)?;
    }
    Ok(())
}
