//! Reads over a handle that is read inside some ranges alone: they ask for what they rest on and for
//! nothing else.

use crate::checks::{is, is_cause};
use crate::chunks::{A_AND_BC, BYTES, Chunk, Form, HALF_BYTES, Part, TEXTS, TURNED_TWICE, case_of};
use crate::coders::{Decoder, decoder};
use crate::reads::is_read;
use std::alloc::Global;
use std::process::Abort;
use zarrs_array_bytes::ArrayBytes;
use zarrs_chain::{ArrayToBytesCodec, VlenCodec};
use zarrs_chunk::CodecError;
use zarrs_codec::testing::FencedHandle;
use zarrs_codec::{ByteRange, Refused, SampleBytesCodec, StorageError};
use zarrs_codecs::VlenCodecPartialTraits;

/// A chunk and its value, the part that is asked for, and the elements that are read there.
pub(crate) struct Row {
    pub(crate) name: &'static str,
    pub(crate) chunk: &'static str,
    pub(crate) value: &'static [u8],
    /// Where the ranges of bytes start and end that can be read.
    pub(crate) inside: &'static [(u64, u64)],
    pub(crate) part: &'static str,
    /// Why the part isn't read, if it isn't.
    pub(crate) refusal: Option<CodecError>,
}

/// A byte outside was asked for.
pub(crate) const FENCED: Option<CodecError> = Some(CodecError::Storage(StorageError { code: 1 }));

/// Two texts, before their offsets of four bytes.
const TEXTS_FIRST: &'static str =
    r#"{"shape":[2],"data_type":"string","fill_value":"","codecs":[{"name":"zarrs.vlen","configuration":{"index_codecs":[{"name":"bytes","configuration":{"endian":"little"}}],"data_codecs":["bytes"],"index_data_type":"uint32","index_location":"end"}}]}"#;

/// Of a plain `vlen` the length of the offsets is read, the offsets, and the bytes of the texts that are
/// asked for; of any other the whole value.
const OF_TEXTS: &'static [Row] = &[
    Row {
        name: "the second text, without the first",
        chunk: TEXTS,
        value: A_AND_BC,
        inside: &[(0, 32), (33, 35)],
        part: r#"{"at":{"ranges":[[1,2]]},"data":["6263"]}"#,
        refusal: None,
    },
    Row {
        name: "the first text, which can't be read",
        chunk: TEXTS,
        value: A_AND_BC,
        inside: &[(0, 32), (33, 35)],
        part: r#"{"at":{"ranges":[[0,1]]},"data":[]}"#,
        refusal: FENCED,
    },
    Row {
        name: "no text, without any",
        chunk: TEXTS,
        value: A_AND_BC,
        inside: &[(0, 32)],
        part: r#"{"at":{"ranges":[[1,1]]},"data":[]}"#,
        refusal: None,
    },
    Row {
        name: "no text, without the offsets",
        chunk: TEXTS,
        value: A_AND_BC,
        inside: &[(0, 8), (32, 35)],
        part: r#"{"at":{"ranges":[[1,1]]},"data":[]}"#,
        refusal: FENCED,
    },
    Row {
        name: "no text, without their length",
        chunk: TEXTS,
        value: A_AND_BC,
        inside: &[(8, 35)],
        part: r#"{"at":{"ranges":[[1,1]]},"data":[]}"#,
        refusal: FENCED,
    },
    Row {
        name: "too few bytes for the length of the offsets, without any",
        chunk: TEXTS,
        value: b"\xff\xff\xff\xff\xff\xff\xff",
        inside: &[],
        part: r#"{"at":{"ranges":[[0,1]]},"data":[]}"#,
        refusal: Some(CodecError::InvalidBytesLength {
            len: 7,
            expected: 8,
        }),
    },
    Row {
        name: "a length of the offsets past the end, without the rest",
        chunk: TEXTS,
        value: b"\xff\xff\xff\xff\xff\xff\xff\xff\0",
        inside: &[(0, 8)],
        part: r#"{"at":{"ranges":[[0,1]]},"data":[]}"#,
        refusal: Some(CodecError::IndexLength),
    },
    Row {
        name: "offsets of another number, without any text",
        chunk: TEXTS,
        value: b"\x08\0\0\0\0\0\0\0\0\0\0\0\0\0\0\0a",
        inside: &[(0, 16)],
        part: r#"{"at":{"ranges":[[0,1]]},"data":[]}"#,
        refusal: Some(CodecError::InvalidBytesLength {
            len: 8,
            expected: 24,
        }),
    },
    Row {
        name: "the second text, before the offsets",
        chunk: TEXTS_FIRST,
        value: b"abc\0\0\0\0\x01\0\0\0\x03\0\0\0\x0c\0\0\0\0\0\0\0",
        inside: &[(1, 23)],
        part: r#"{"at":{"ranges":[[1,2]]},"data":["6263"]}"#,
        refusal: None,
    },
    Row {
        name: "the first text twice, before the offsets",
        chunk: TEXTS_FIRST,
        value: b"abc\0\0\0\0\x01\0\0\0\x03\0\0\0\x0c\0\0\0\0\0\0\0",
        inside: &[(0, 1), (3, 23)],
        part: r#"{"at":{"indices":[[0],[0]]},"data":["61","61"]}"#,
        refusal: None,
    },
    Row {
        name: "texts of half bytes",
        chunk: HALF_BYTES,
        value: b"\x18\0\0\0\0\0\0\0\0\0\0\0\0\0\0\0\x01\0\0\0\0\0\0\0\x02\0\0\0\0\0\0\0\x21",
        inside: &[(0, 32)],
        part: r#"{"at":{"ranges":[[1,1]]},"data":[]}"#,
        refusal: FENCED,
    },
];

const WORDS: &'static [u8] =
    b"\0\0\0\0\0\0\0\x01\0\0\0\x04\0\0\0\x05\0\0\0\x02\0\0\0\x03\0\0\0\x06\0\0\0\x07";

/// Array-to-array codecs say where the places go; bytes-to-bytes codecs need the whole value.
const THROUGH_CHAINS: &'static [Row] = &[
    Row {
        name: "the third of four bytes",
        chunk: BYTES,
        value: b"\x0a\x0b\x0c\x0d",
        inside: &[(2, 3)],
        part: r#"{"at":{"ranges":[[2,3]]},"data":["0c"]}"#,
        refusal: None,
    },
    Row {
        name: "the second of two texts with turned axes",
        chunk: r#"{"shape":[1,2],"data_type":"string","fill_value":"","codecs":[{"name":"transpose","configuration":{"order":[1,0]}},{"name":"zarrs.vlen","configuration":{"index_codecs":[{"name":"bytes","configuration":{"endian":"little"}}],"data_codecs":["bytes"],"index_data_type":"uint64"}}]}"#,
        value: A_AND_BC,
        inside: &[(0, 32), (33, 35)],
        part: r#"{"at":{"ranges":[[0,1],[1,2]]},"data":["6263"]}"#,
        refusal: None,
    },
    Row {
        name: "texts under a length",
        chunk: r#"{"shape":[2],"data_type":"string","fill_value":"","codecs":[{"name":"zarrs.vlen","configuration":{"index_codecs":[{"name":"bytes","configuration":{"endian":"little"}}],"data_codecs":["bytes"],"index_data_type":"uint64"}},"sample.length"]}"#,
        value: b"\x23\0\0\0\0\0\0\0\x18\0\0\0\0\0\0\0\0\0\0\0\0\0\0\0\x01\0\0\0\0\0\0\0\x03\0\0\0\0\0\0\0abc",
        inside: &[(0, 42)],
        part: r#"{"at":{"ranges":[[0,1]]},"data":[]}"#,
        refusal: FENCED,
    },
    Row {
        name: "a text behind its length, of a value whose last byte is held back",
        chunk: r#"{"shape":[2],"data_type":"string","fill_value":"","codecs":["vlen-utf8"]}"#,
        value: b"\x02\0\0\0\x01\0\0\0a\x02\0\0\0bc",
        inside: &[(0, 14)],
        part: r#"{"at":{"ranges":[[0,1]]},"data":[]}"#,
        refusal: FENCED,
    },
    Row {
        name: "the second of two texts, each behind its length",
        chunk: r#"{"shape":[2],"data_type":"string","fill_value":"","codecs":["vlen-utf8"]}"#,
        value: b"\x02\0\0\0\x01\0\0\0a\x02\0\0\0bc",
        inside: &[(0, 15)],
        part: r#"{"at":{"ranges":[[1,2]]},"data":["6263"]}"#,
        refusal: None,
    },
    Row {
        name: "two words of turned axes",
        chunk: TURNED_TWICE,
        value: WORDS,
        inside: &[(16, 20), (24, 28)],
        part: r#"{"at":{"ranges":[[0,2],[1,2],[0,1]]},"data":["02000000","06000000"]}"#,
        refusal: None,
    },
    Row {
        name: "two words, of which a byte is held back",
        chunk: TURNED_TWICE,
        value: WORDS,
        inside: &[(16, 20), (25, 28)],
        part: r#"{"at":{"ranges":[[0,2],[1,2],[0,1]]},"data":[]}"#,
        refusal: FENCED,
    },
    Row {
        name: "flags, of which the last bytes are held back",
        chunk: r#"{"shape":[8,5],"data_type":"bool","fill_value":"00","codecs":["packbits"]}"#,
        value: b"\x49\x92\x24\x49\x92",
        inside: &[(0, 3)],
        part: r#"{"at":{"ranges":[[1,4],[1,4]]},"data":["01","00","00","00","01","00","00","00","01"]}"#,
        refusal: None,
    },
];

fn byte_ranges(alloc: Global, ends: &[(u64, u64)]) -> Result<Vec<ByteRange>, CodecError> {
    let mut ranges = Vec::new(alloc);
    for (start, end) in ends {
        ranges.push(ByteRange::new(*start..*end).ok_or(CodecError::InvalidByteRange)?)?;
    }
    Ok(ranges)
}

fn handle_of(alloc: Global, row: &Row) -> Result<FencedHandle, CodecError> {
    let inside = byte_ranges(alloc, row.inside)?;
    Ok(FencedHandle::new(row.value.to_vec(alloc)?, inside))
}

/// Once the part is read, or has failed as the row says, the handle failed where a byte outside was
/// asked for.
fn has_failed(
    rt: &impl Abort,
    done: Result<(), CodecError>,
    handle: &FencedHandle,
    row: &Row,
) -> Result<(), CodecError> {
    let came = handle.faults() == 1;
    if done.is_ok() {
        is(rt, row.name, "failed", &came, &(row.refusal == FENCED));
    }
    done
}

fn reads_part(
    rt: &impl Abort,
    alloc: Global,
    decoder: &mut Decoder<'_, FencedHandle>,
    part: &Part,
    row: &Row,
) -> Result<(), CodecError> {
    let came = decoder.partial_decode(alloc, &part.indexer);
    is_read(rt, row.name, &came, &part.elements, &row.refusal)
}

fn decodes(
    rt: &impl Abort,
    alloc: Global,
    mut decoder: Decoder<'_, FencedHandle>,
    part: &Part,
    row: &Row,
) -> Result<(), CodecError> {
    let done = reads_part(rt, alloc, &mut decoder, part, row);
    has_failed(rt, done, &decoder.into_handle(), row)
}

/// The decoder isn't made for the row's cause.
fn is_refused(
    rt: &impl Abort,
    refused: Refused<FencedHandle>,
    row: &Row,
) -> Result<(), CodecError> {
    let done = is_cause(rt, row.name, Some(refused.error), &row.refusal);
    has_failed(rt, done, &refused.handle, row)
}

/// The part is read by a decoder of the chain, or it isn't made or reads nothing.
fn by_chain(
    rt: &impl Abort,
    alloc: Global,
    chunk: &Chunk,
    part: &Part,
    row: &Row,
) -> Result<(), CodecError> {
    match decoder(alloc, chunk, handle_of(alloc, row)?) {
        Ok(decoder) => decodes(rt, alloc, decoder, part, row),
        Err(refused) => is_refused(rt, refused, row),
    }
}

/// What is read of the part by a decoder of the codec, or why it isn't made or nothing is read.
fn read_by_vlen(
    alloc: Global,
    codec: &VlenCodec<SampleBytesCodec>,
    form: &Form,
    part: &Part,
    handle: FencedHandle,
) -> Result<ArrayBytes<'static>, CodecError> {
    let Form {
        shape,
        data_type,
        fill_value,
    } = form;
    match codec.partial_decoder(alloc, handle, shape, data_type, fill_value) {
        Ok(mut decoder) => decoder.partial_decode(alloc, &part.indexer),
        Err(refused) => Err(refused.error),
    }
}

/// The same by a decoder of the chain's array-to-bytes codec, which has to be `vlen`.
fn read_by_codec(
    alloc: Global,
    chunk: &Chunk,
    part: &Part,
    handle: FencedHandle,
) -> Result<ArrayBytes<'static>, CodecError> {
    match chunk.chain.array_to_bytes_codec() {
        ArrayToBytesCodec::Vlen(codec) => read_by_vlen(alloc, codec, &chunk.form, part, handle),
        _ => Err(CodecError::DataMismatch),
    }
}

fn by_codec(
    rt: &impl Abort,
    alloc: Global,
    chunk: &Chunk,
    part: &Part,
    row: &Row,
) -> Result<(), CodecError> {
    let came = read_by_codec(alloc, chunk, part, handle_of(alloc, row)?);
    is_read(rt, row.name, &came, &part.elements, &row.refusal)
}

fn reads_through_chain(rt: &impl Abort, alloc: Global, row: &Row) -> Result<(), CodecError> {
    let case = case_of(alloc, row.chunk, row.part)?;
    by_chain(rt, alloc, &case.chunk, &case.part, row)
}

fn reads_through_codec(rt: &impl Abort, alloc: Global, row: &Row) -> Result<(), CodecError> {
    let case = case_of(alloc, row.chunk, row.part)?;
    by_codec(rt, alloc, &case.chunk, &case.part, row)
}

pub(crate) fn all_through_chains(
    rt: &impl Abort,
    alloc: Global,
    rows: &[Row],
) -> Result<(), CodecError> {
    for row in rows.iter() {
        reads_through_chain(rt, alloc, row)?;
    }
    Ok(())
}

fn all_through_codecs(rt: &impl Abort, alloc: Global, rows: &[Row]) -> Result<(), CodecError> {
    for row in rows.iter() {
        reads_through_codec(rt, alloc, row)?;
    }
    Ok(())
}

#[test]
fn reads_through_chains_ask_for_what_they_rest_on(rt: HostRuntime) -> Result<(), CodecError> {
    all_through_chains(&rt, rt.alloc(), THROUGH_CHAINS)?;
    all_through_chains(&rt, rt.alloc(), OF_TEXTS)
}

#[test]
fn and_so_do_reads_of_vlen_codecs(rt: HostRuntime) -> Result<(), CodecError> {
    all_through_codecs(&rt, rt.alloc(), OF_TEXTS)
}
