//! Reads in rounds: what a read lacks of a value is got, and it is read again.

use crate::checks::{are_ranges, is};
use crate::chunks::{A_AND_BC, BYTES, Case, FIRST_OF_TWO, OPTIONAL, SHARD, TEXTS, case_of};
use crate::coders::{Decoder, decoder};
use crate::reads::is_read;
use crate::shards::{INNER_FLAGS, INNER_SIZED, TURNED_INSIDE};
use std::alloc::Global;
use std::process::Abort;
use zarrs_chunk::CodecError;
use zarrs_codec::{ByteRange, Refused, StorageError};
use zarrs_lent_handles::{Piece, PiecesHandle, join_ranges};

/// A chunk and its value, a part and its elements, and where the ranges start and end that each
/// round lacks, the first one without any byte; then the part is read.
struct Row {
    name: &'static str,
    chunk: &'static str,
    value: &'static [u8],
    part: &'static str,
    rounds: &'static [&'static [(u64, u64)]],
}

const ROWS: &'static [Row] = &[
    Row {
        name: "two of four bytes",
        chunk: BYTES,
        value: b"\x0a\x0b\x0c\x0d",
        part: r#"{"at":{"indices":[[2],[0],[2]]},"data":["0c","0a","0c"]}"#,
        rounds: &[&[(0, 1), (2, 3)]],
    },
    Row {
        name: "a column",
        chunk: r#"{"shape":[4,4],"data_type":"uint8","fill_value":"00","codecs":["bytes"]}"#,
        value: b"\0\x01\x02\x03\x04\x05\x06\x07\x08\x09\x0a\x0b\x0c\x0d\x0e\x0f",
        part: r#"{"at":{"ranges":[[1,3],[0,1]]},"data":["04","08"]}"#,
        rounds: &[&[(4, 5), (8, 9)]],
    },
    Row {
        name: "no byte",
        chunk: BYTES,
        value: b"\x0a\x0b\x0c\x0d",
        part: r#"{"at":{"ranges":[[1,1]]},"data":[]}"#,
        rounds: &[],
    },
    Row {
        name: "the second text: the length of the offsets, the offsets, the text",
        chunk: TEXTS,
        value: A_AND_BC,
        part: r#"{"at":{"ranges":[[1,2]]},"data":["6263"]}"#,
        rounds: &[&[(0, 8)], &[(8, 32)], &[(33, 35)]],
    },
    Row {
        name: "both texts in another order, which are one range",
        chunk: TEXTS,
        value: A_AND_BC,
        part: r#"{"at":{"indices":[[1],[0]]},"data":["6263","61"]}"#,
        rounds: &[&[(0, 8)], &[(8, 32)], &[(32, 35)]],
    },
    Row {
        name: "no text",
        chunk: TEXTS,
        value: A_AND_BC,
        part: r#"{"at":{"ranges":[[1,1]]},"data":[]}"#,
        rounds: &[&[(0, 8)], &[(8, 32)]],
    },
    Row {
        name: "texts before their offsets",
        chunk: r#"{"shape":[2],"data_type":"string","fill_value":"","codecs":[{"name":"zarrs.vlen","configuration":{"index_codecs":[{"name":"bytes","configuration":{"endian":"little"}}],"data_codecs":["bytes"],"index_data_type":"uint32","index_location":"end"}}]}"#,
        value: b"abc\0\0\0\0\x01\0\0\0\x03\0\0\0\x0c\0\0\0\0\0\0\0",
        part: r#"{"at":{"ranges":[[1,2]]},"data":["6263"]}"#,
        rounds: &[&[(15, 23)], &[(3, 15)], &[(1, 3)]],
    },
    Row {
        name: "bytes that may be absent, which are read whole",
        chunk: OPTIONAL,
        value: b"\x03\0\0\0\0\0\0\0\x02\0\0\0\0\0\0\0\x01\0\x01\x05\x07",
        part: r#"{"at":{"ranges":[[0,2]]},"data":[["05"],null]}"#,
        rounds: &[&[(0, 21)]],
    },
    Row {
        name: "a shard: its index, and then an inner chunk's byte",
        chunk: SHARD,
        value: FIRST_OF_TWO,
        part: r#"{"at":{"ranges":[[1,2],[1,3]]},"data":["04","00"]}"#,
        rounds: &[&[(4, 36)], &[(3, 4)]],
    },
    Row {
        name: "a row over two inner chunks whose axes are turned: their bytes in one round",
        chunk: TURNED_INSIDE,
        value: b"\x01\x03\x02\x04\x05\x07\x06\x08\0\0\0\0\0\0\0\0\x04\0\0\0\0\0\0\0\x04\0\0\0\0\0\0\0\x04\0\0\0\0\0\0\0",
        part: r#"{"at":{"ranges":[[1,2],[0,3]]},"data":["03","04","07"]}"#,
        rounds: &[&[(8, 40)], &[(1, 2), (3, 4), (5, 6)]],
    },
    Row {
        name: "flags of two inner chunks",
        chunk: INNER_FLAGS,
        value: b"\x05\x80\0\0\0\0\0\0\0\0\x01\0\0\0\0\0\0\0\x01\0\0\0\0\0\0\0\x01\0\0\0\0\0\0\0",
        part: r#"{"at":{"indices":[[15],[2]]},"data":["01","01"]}"#,
        rounds: &[&[(2, 34)], &[(0, 2)]],
    },
    Row {
        name: "elements of two inner chunks that are read whole",
        chunk: INNER_SIZED,
        value: b"\x02\0\0\0\0\0\0\0\x01\x02\x02\0\0\0\0\0\0\0\x03\x04\0\0\0\0\0\0\0\0\x0a\0\0\0\0\0\0\0\x0a\0\0\0\0\0\0\0\x0a\0\0\0\0\0\0\0",
        part: r#"{"at":{"ranges":[[1,3]]},"data":["02","03"]}"#,
        rounds: &[&[(20, 52)], &[(0, 20)]],
    },
    Row {
        name: "two of three bytes with their length",
        chunk: r#"{"shape":[3],"data_type":"uint8","fill_value":"00","codecs":["bytes","sample.length"]}"#,
        value: b"\x03\0\0\0\0\0\0\0abc",
        part: r#"{"at":{"ranges":[[0,2]]},"data":["61","62"]}"#,
        rounds: &[&[(0, 11)]],
    },
];

/// A byte isn't at hand.
const LACKING: CodecError = CodecError::Storage(StorageError { code: 0 });

/// A value's bytes in these ranges.
fn pieces_at<'a>(
    alloc: Global,
    value: &'a [u8],
    ranges: &[ByteRange],
) -> Result<Vec<Piece<'a>>, CodecError> {
    let mut pieces = Vec::new(alloc);
    for range in ranges {
        let start = range.start();
        let inside = start as usize..range.end() as usize;
        let bytes = value.get(inside).ok_or(CodecError::InvalidByteRange)?;
        pieces.push(Piece { start, bytes })?;
    }
    Ok(pieces)
}

fn handle_of<'a>(
    alloc: Global,
    value: &'a [u8],
    got: &[ByteRange],
) -> Result<PiecesHandle<'a>, CodecError> {
    PiecesHandle::new(value.len() as u64, pieces_at(alloc, value, got)?)
}

/// What a round lacks, beside what was got before it: the ranges of the next one.
fn next_ranges(
    alloc: Global,
    got: &[ByteRange],
    lacking: &[ByteRange],
) -> Result<Vec<ByteRange>, CodecError> {
    let mut ranges = got.to_vec(alloc)?;
    ranges.extend_from_slice(lacking)?;
    join_ranges(alloc, ranges)
}

/// Once a read is done, the ranges that it lacked are the wanted ones; those of the next round.
fn gets(
    rt: &impl Abort,
    alloc: Global,
    done: Result<(), CodecError>,
    row: &Row,
    handle: &PiecesHandle<'_>,
    got: &[ByteRange],
    wanted: &[(u64, u64)],
) -> Result<Vec<ByteRange>, CodecError> {
    done?;
    are_ranges(rt, row.name, handle.lacking(), wanted);
    next_ranges(alloc, got, handle.lacking())
}

/// The part is read, or lacks something.
fn reads(
    rt: &impl Abort,
    alloc: Global,
    decoder: &mut Decoder<'_, PiecesHandle<'_>>,
    case: &Case,
    row: &Row,
    wanted: &[(u64, u64)],
) -> Result<(), CodecError> {
    let refusal = if wanted.is_empty() {
        None
    } else {
        Some(LACKING)
    };
    let came = decoder.partial_decode(alloc, &case.part.indexer);
    is_read(rt, row.name, &came, &case.part.elements, &refusal)
}

fn decodes(
    rt: &impl Abort,
    alloc: Global,
    mut decoder: Decoder<'_, PiecesHandle<'_>>,
    case: &Case,
    row: &Row,
    got: &[ByteRange],
    wanted: &[(u64, u64)],
) -> Result<Vec<ByteRange>, CodecError> {
    let done = reads(rt, alloc, &mut decoder, case, row, wanted);
    gets(rt, alloc, done, row, &decoder.into_handle(), got, wanted)
}

/// A decoder that keeps the chunk isn't made where bytes are lacking.
fn is_refused(
    rt: &impl Abort,
    alloc: Global,
    refused: Refused<PiecesHandle<'_>>,
    row: &Row,
    got: &[ByteRange],
    wanted: &[(u64, u64)],
) -> Result<Vec<ByteRange>, CodecError> {
    if refused.error == CodecError::OutOfMemory {
        return Err(CodecError::OutOfMemory);
    }
    is(rt, row.name, "refusal", &refused.error, &LACKING);
    gets(rt, alloc, Ok(()), row, &refused.handle, got, wanted)
}

/// A round over the ranges that were got: it lacks the wanted ones; or none are wanted, and the part is
/// read. The ranges of the next round.
fn read_round(
    rt: &impl Abort,
    alloc: Global,
    case: &Case,
    row: &Row,
    got: &[ByteRange],
    wanted: &[(u64, u64)],
) -> Result<Vec<ByteRange>, CodecError> {
    match decoder(alloc, &case.chunk, handle_of(alloc, row.value, got)?) {
        Ok(decoder) => decodes(rt, alloc, decoder, case, row, got, wanted),
        Err(refused) => is_refused(rt, alloc, refused, row, got, wanted),
    }
}

fn reads_in_rounds(
    rt: &impl Abort,
    alloc: Global,
    case: &Case,
    row: &Row,
) -> Result<(), CodecError> {
    let mut got = Vec::new(alloc);
    for lacking in row.rounds.iter() {
        got = read_round(rt, alloc, case, row, got.as_slice(), lacking)?;
    }
    read_round(rt, alloc, case, row, got.as_slice(), &[])?;
    Ok(())
}

fn reads_row(rt: &impl Abort, alloc: Global, row: &Row) -> Result<(), CodecError> {
    let case = case_of(alloc, row.chunk, row.part)?;
    reads_in_rounds(rt, alloc, &case, row)
}

fn reads_all(rt: &impl Abort, alloc: Global, rows: &[Row]) -> Result<(), CodecError> {
    for row in rows.iter() {
        reads_row(rt, alloc, row)?;
    }
    Ok(())
}

#[test]
fn reads_in_rounds_get_what_they_lack(rt: HostRuntime) -> Result<(), CodecError> {
    reads_all(&rt, rt.alloc(), ROWS)
}
