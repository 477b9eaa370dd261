//! Reads of shards over a handle that is read inside some ranges alone: they ask for the index, and of
//! each inner chunk that has any of the places for what its own chain rests on.

use crate::chunks::{FIRST_OF_TWO, SHARD};
use crate::fenced::{FENCED, Row, all_through_chains};
use zarrs_chunk::CodecError;

/// Four rows of four bytes, two rows in each inner chunk, with the index before them.
const BEFORE: &'static str =
    r#"{"shape":[4,4],"data_type":"uint8","fill_value":"ff","codecs":[{"name":"sharding_indexed","configuration":{"chunk_shape":[2,4],"codecs":["bytes"],"index_codecs":[{"name":"bytes","configuration":{"endian":"little"}}],"index_location":"start"}}]}"#;

/// Four words in shards of one element, in a shard of two.
const NESTED: &'static str =
    r#"{"shape":[4],"data_type":"uint16","fill_value":"0000","codecs":[{"name":"sharding_indexed","configuration":{"chunk_shape":[2],"codecs":[{"name":"sharding_indexed","configuration":{"chunk_shape":[1],"codecs":[{"name":"bytes","configuration":{"endian":"little"}}],"index_codecs":[{"name":"bytes","configuration":{"endian":"little"}}]}}],"index_codecs":[{"name":"bytes","configuration":{"endian":"little"}}]}}]}"#;

/// Four texts, two in each inner chunk.
const INNER_TEXTS: &'static str =
    r#"{"shape":[4],"data_type":"string","fill_value":"","codecs":[{"name":"sharding_indexed","configuration":{"chunk_shape":[2],"codecs":[{"name":"zarrs.vlen","configuration":{"index_codecs":[{"name":"bytes","configuration":{"endian":"little"}}],"data_codecs":["bytes"],"index_data_type":"uint64"}}],"index_codecs":[{"name":"bytes","configuration":{"endian":"little"}}]}}]}"#;

/// The same, each behind its length.
const INNER_LENGTHS: &'static str =
    r#"{"shape":[4],"data_type":"string","fill_value":"","codecs":[{"name":"sharding_indexed","configuration":{"chunk_shape":[2],"codecs":["vlen-utf8"],"index_codecs":[{"name":"bytes","configuration":{"endian":"little"}}]}}]}"#;

/// Four bytes, two in each inner chunk, with their length before them.
pub(crate) const INNER_SIZED: &'static str =
    r#"{"shape":[4],"data_type":"uint8","fill_value":"00","codecs":[{"name":"sharding_indexed","configuration":{"chunk_shape":[2],"codecs":["bytes","sample.length"],"index_codecs":[{"name":"bytes","configuration":{"endian":"little"}}]}}]}"#;

/// Four words in shards of one element with their length before them, in a shard of two.
const NESTED_SIZED: &'static str =
    r#"{"shape":[4],"data_type":"uint16","fill_value":"0000","codecs":[{"name":"sharding_indexed","configuration":{"chunk_shape":[2],"codecs":[{"name":"sharding_indexed","configuration":{"chunk_shape":[1],"codecs":[{"name":"bytes","configuration":{"endian":"little"}}],"index_codecs":[{"name":"bytes","configuration":{"endian":"little"}}]}},"sample.length"],"index_codecs":[{"name":"bytes","configuration":{"endian":"little"}}]}}]}"#;

/// Two rows of four bytes, the axes of whose inner chunks are turned.
pub(crate) const TURNED_INSIDE: &'static str =
    r#"{"shape":[2,4],"data_type":"uint8","fill_value":"00","codecs":[{"name":"sharding_indexed","configuration":{"chunk_shape":[2,2],"codecs":[{"name":"transpose","configuration":{"order":[1,0]}},"bytes"],"index_codecs":[{"name":"bytes","configuration":{"endian":"little"}}]}}]}"#;

/// Three rows of six bytes, the axes of whose inner chunks are turned.
const WIDE_INSIDE: &'static str =
    r#"{"shape":[3,6],"data_type":"uint8","fill_value":"ff","codecs":[{"name":"sharding_indexed","configuration":{"chunk_shape":[3,3],"codecs":[{"name":"transpose","configuration":{"order":[1,0]}},"bytes"],"index_codecs":[{"name":"bytes","configuration":{"endian":"little"}}]}}]}"#;

/// Four rows of two bytes, whose axes are turned before they are divided.
const TURNED_OUTSIDE: &'static str =
    r#"{"shape":[4,2],"data_type":"uint8","fill_value":"00","codecs":[{"name":"transpose","configuration":{"order":[1,0]}},{"name":"sharding_indexed","configuration":{"chunk_shape":[2,2],"codecs":["bytes"],"index_codecs":[{"name":"bytes","configuration":{"endian":"little"}}]}}]}"#;

/// Sixteen flags, eight in each inner chunk.
pub(crate) const INNER_FLAGS: &'static str =
    r#"{"shape":[16],"data_type":"bool","fill_value":"00","codecs":[{"name":"sharding_indexed","configuration":{"chunk_shape":[8],"codecs":["packbits"],"index_codecs":[{"name":"bytes","configuration":{"endian":"little"}}]}}]}"#;

/// Four bytes that may be absent, two in each inner chunk.
const INNER_OPTIONAL: &'static str =
    r#"{"shape":[4],"data_type":{"optional":"uint8"},"fill_value":"00","codecs":[{"name":"sharding_indexed","configuration":{"chunk_shape":[2],"codecs":[{"name":"optional","configuration":{"mask_codecs":["bytes"],"data_codecs":["bytes"]}}],"index_codecs":[{"name":"bytes","configuration":{"endian":"little"}}]}}]}"#;

/// Inner chunks of bytes, and shards in shards.
const OF_BYTES: &'static [Row] = &[
    Row {
        name: "an element of the inner chunk that isn't stored, by the index alone",
        chunk: SHARD,
        value: FIRST_OF_TWO,
        inside: &[(4, 36)],
        part: r#"{"at":{"ranges":[[0,1],[3,4]]},"data":["00"]}"#,
        refusal: None,
    },
    Row {
        name: "an element of the other, by its byte",
        chunk: SHARD,
        value: FIRST_OF_TWO,
        inside: &[(2, 3), (4, 36)],
        part: r#"{"at":{"ranges":[[1,2],[0,1]]},"data":["03"]}"#,
        refusal: None,
    },
    Row {
        name: "a row over both inner chunks",
        chunk: SHARD,
        value: FIRST_OF_TWO,
        inside: &[(2, 4), (4, 36)],
        part: r#"{"at":{"ranges":[[1,2],[0,4]]},"data":["03","04","00","00"]}"#,
        refusal: None,
    },
    Row {
        name: "elements in any order, one of them twice",
        chunk: SHARD,
        value: FIRST_OF_TWO,
        inside: &[(0, 1), (3, 36)],
        part: r#"{"at":{"indices":[[1,1],[0,3],[0,0],[1,1]]},"data":["04","00","01","04"]}"#,
        refusal: None,
    },
    Row {
        name: "an element whose byte is held back",
        chunk: SHARD,
        value: FIRST_OF_TWO,
        inside: &[(0, 2), (3, 36)],
        part: r#"{"at":{"ranges":[[1,2],[0,1]]},"data":[]}"#,
        refusal: FENCED,
    },
    Row {
        name: "no element of a stored inner chunk, where a byte of the index is held back",
        chunk: SHARD,
        value: FIRST_OF_TWO,
        inside: &[(0, 35)],
        part: r#"{"at":{"ranges":[[0,1],[3,4]]},"data":[]}"#,
        refusal: FENCED,
    },
    Row {
        name: "no element at all, by the index alone",
        chunk: SHARD,
        value: FIRST_OF_TWO,
        inside: &[(4, 36)],
        part: r#"{"at":{"ranges":[[0,1],[1,1]]},"data":[]}"#,
        refusal: None,
    },
    Row {
        name: "a value that is shorter than the index",
        chunk: SHARD,
        value: b"\0",
        inside: &[],
        part: r#"{"at":{"ranges":[[0,1],[0,1]]},"data":[]}"#,
        refusal: Some(CodecError::InvalidBytesLength {
            len: 1,
            expected: 32,
        }),
    },
    Row {
        name: "elements behind an index that stands before them",
        chunk: BEFORE,
        value: b"\xff\xff\xff\xff\xff\xff\xff\xff\xff\xff\xff\xff\xff\xff\xff\xff \0\0\0\0\0\0\0\x08\0\0\0\0\0\0\0\x01\x02\x03\x04\x05\x06\x07\x08",
        inside: &[(0, 32), (35, 37)],
        part: r#"{"at":{"indices":[[3,0],[0,0],[2,3]]},"data":["05","ff","04"]}"#,
        refusal: None,
    },
    Row {
        name: "an element of an inner chunk that ends behind the value, by the index alone",
        chunk: BEFORE,
        value: b"\xff\xff\xff\xff\xff\xff\xff\xff\xff\xff\xff\xff\xff\xff\xff\xff \0\0\0\0\0\0\0\x09\0\0\0\0\0\0\0\x01\x02\x03\x04\x05\x06\x07\x08",
        inside: &[(0, 32)],
        part: r#"{"at":{"indices":[[3,0]]},"data":[]}"#,
        refusal: Some(CodecError::InvalidByteRange),
    },
    Row {
        name: "an element of another inner chunk of that value",
        chunk: BEFORE,
        value: b"\xff\xff\xff\xff\xff\xff\xff\xff\xff\xff\xff\xff\xff\xff\xff\xff \0\0\0\0\0\0\0\x09\0\0\0\0\0\0\0\x01\x02\x03\x04\x05\x06\x07\x08",
        inside: &[(0, 32)],
        part: r#"{"at":{"indices":[[0,0]]},"data":["ff"]}"#,
        refusal: None,
    },
    Row {
        name: "an element of a shard in a shard",
        chunk: NESTED,
        value: b"\x01\0\xff\xff\xff\xff\xff\xff\xff\xff\xff\xff\xff\xff\xff\xff\xff\xff\0\0\0\0\0\0\0\0\x02\0\0\0\0\0\0\0\0\0\0\0\0\0\0\0\x22\0\0\0\0\0\0\0\xff\xff\xff\xff\xff\xff\xff\xff\xff\xff\xff\xff\xff\xff\xff\xff",
        inside: &[(0, 66)],
        part: r#"{"at":{"ranges":[[1,2]]},"data":["0100"]}"#,
        refusal: None,
    },
    Row {
        name: "one that isn't stored there, by both indexes alone",
        chunk: NESTED,
        value: b"\x01\0\xff\xff\xff\xff\xff\xff\xff\xff\xff\xff\xff\xff\xff\xff\xff\xff\0\0\0\0\0\0\0\0\x02\0\0\0\0\0\0\0\0\0\0\0\0\0\0\0\x22\0\0\0\0\0\0\0\xff\xff\xff\xff\xff\xff\xff\xff\xff\xff\xff\xff\xff\xff\xff\xff",
        inside: &[(2, 66)],
        part: r#"{"at":{"ranges":[[0,1]]},"data":["0000"]}"#,
        refusal: None,
    },
    Row {
        name: "one of an inner shard that isn't stored, by the outer index alone",
        chunk: NESTED,
        value: b"\x01\0\xff\xff\xff\xff\xff\xff\xff\xff\xff\xff\xff\xff\xff\xff\xff\xff\0\0\0\0\0\0\0\0\x02\0\0\0\0\0\0\0\0\0\0\0\0\0\0\0\x22\0\0\0\0\0\0\0\xff\xff\xff\xff\xff\xff\xff\xff\xff\xff\xff\xff\xff\xff\xff\xff",
        inside: &[(34, 66)],
        part: r#"{"at":{"ranges":[[3,4]]},"data":["0000"]}"#,
        refusal: None,
    },
    Row {
        name: "an element of a shard in a shard, whose inner index is held back",
        chunk: NESTED,
        value: b"\x01\0\xff\xff\xff\xff\xff\xff\xff\xff\xff\xff\xff\xff\xff\xff\xff\xff\0\0\0\0\0\0\0\0\x02\0\0\0\0\0\0\0\0\0\0\0\0\0\0\0\x22\0\0\0\0\0\0\0\xff\xff\xff\xff\xff\xff\xff\xff\xff\xff\xff\xff\xff\xff\xff\xff",
        inside: &[(0, 33), (34, 66)],
        part: r#"{"at":{"ranges":[[1,2]]},"data":[]}"#,
        refusal: FENCED,
    },
];

/// Inner chunks through other chains.
const OF_CHAINS: &'static [Row] = &[
    Row {
        name: "a text of an inner chunk, by its offsets and its bytes",
        chunk: INNER_TEXTS,
        value: b"\x18\0\0\0\0\0\0\0\0\0\0\0\0\0\0\0\x01\0\0\0\0\0\0\0\x03\0\0\0\0\0\0\0abc\0\0\0\0\0\0\0\0#\0\0\0\0\0\0\0\xff\xff\xff\xff\xff\xff\xff\xff\xff\xff\xff\xff\xff\xff\xff\xff",
        inside: &[(0, 32), (33, 67)],
        part: r#"{"at":{"ranges":[[1,3]]},"data":["6263",""]}"#,
        refusal: None,
    },
    Row {
        name: "a text of an inner chunk, whose bytes are held back",
        chunk: INNER_TEXTS,
        value: b"\x18\0\0\0\0\0\0\0\0\0\0\0\0\0\0\0\x01\0\0\0\0\0\0\0\x03\0\0\0\0\0\0\0abc\0\0\0\0\0\0\0\0#\0\0\0\0\0\0\0\xff\xff\xff\xff\xff\xff\xff\xff\xff\xff\xff\xff\xff\xff\xff\xff",
        inside: &[(0, 32), (33, 67)],
        part: r#"{"at":{"ranges":[[0,1]]},"data":[]}"#,
        refusal: FENCED,
    },
    Row {
        name: "a text behind its length, by all of its inner chunk and nothing of the other",
        chunk: INNER_LENGTHS,
        value: b"\x02\0\0\0\x01\0\0\0a\x02\0\0\0bc\x02\0\0\0\0\0\0\0\x01\0\0\0d\0\0\0\0\0\0\0\0\x0f\0\0\0\0\0\0\0\x0f\0\0\0\0\0\0\0\x0d\0\0\0\0\0\0\0",
        inside: &[(0, 15), (28, 60)],
        part: r#"{"at":{"ranges":[[1,2]]},"data":["6263"]}"#,
        refusal: None,
    },
    Row {
        name: "the same, where a byte of another text is held back",
        chunk: INNER_LENGTHS,
        value: b"\x02\0\0\0\x01\0\0\0a\x02\0\0\0bc\x02\0\0\0\0\0\0\0\x01\0\0\0d\0\0\0\0\0\0\0\0\x0f\0\0\0\0\0\0\0\x0f\0\0\0\0\0\0\0\x0d\0\0\0\0\0\0\0",
        inside: &[(0, 8), (9, 15), (28, 60)],
        part: r#"{"at":{"ranges":[[1,2]]},"data":[]}"#,
        refusal: FENCED,
    },
    Row {
        name: "an element below a bytes-to-bytes codec, by all bytes of its inner chunk",
        chunk: INNER_SIZED,
        value: b"\x02\0\0\0\0\0\0\0\x01\x02\x02\0\0\0\0\0\0\0\x03\x04\0\0\0\0\0\0\0\0\x0a\0\0\0\0\0\0\0\x0a\0\0\0\0\0\0\0\x0a\0\0\0\0\0\0\0",
        inside: &[(10, 52)],
        part: r#"{"at":{"ranges":[[3,4]]},"data":["04"]}"#,
        refusal: None,
    },
    Row {
        name: "the same, where one of these bytes is held back",
        chunk: INNER_SIZED,
        value: b"\x02\0\0\0\0\0\0\0\x01\x02\x02\0\0\0\0\0\0\0\x03\x04\0\0\0\0\0\0\0\0\x0a\0\0\0\0\0\0\0\x0a\0\0\0\0\0\0\0\x0a\0\0\0\0\0\0\0",
        inside: &[(11, 52)],
        part: r#"{"at":{"ranges":[[3,4]]},"data":[]}"#,
        refusal: FENCED,
    },
    Row {
        name: "an inner chunk whose length is another",
        chunk: INNER_SIZED,
        value: b"\x02\0\0\0\0\0\0\0\x01\x02\x03\0\0\0\0\0\0\0\x03\x04\0\0\0\0\0\0\0\0\x0a\0\0\0\0\0\0\0\x0a\0\0\0\0\0\0\0\x0a\0\0\0\0\0\0\0",
        inside: &[(10, 52)],
        part: r#"{"at":{"ranges":[[3,4]]},"data":[]}"#,
        refusal: Some(CodecError::BytesCodec(2)),
    },
    Row {
        name: "an element of a shard in a shard below a bytes-to-bytes codec",
        chunk: NESTED_SIZED,
        value: b"\x22\0\0\0\0\0\0\0\x01\0\xff\xff\xff\xff\xff\xff\xff\xff\xff\xff\xff\xff\xff\xff\xff\xff\0\0\0\0\0\0\0\0\x02\0\0\0\0\0\0\0\0\0\0\0\0\0\0\0*\0\0\0\0\0\0\0\xff\xff\xff\xff\xff\xff\xff\xff\xff\xff\xff\xff\xff\xff\xff\xff",
        inside: &[(0, 74)],
        part: r#"{"at":{"ranges":[[0,2]]},"data":["0000","0100"]}"#,
        refusal: None,
    },
    Row {
        name: "a column of inner chunks whose axes are turned",
        chunk: TURNED_INSIDE,
        value: b"\x01\x03\x02\x04\x05\x07\x06\x08\0\0\0\0\0\0\0\0\x04\0\0\0\0\0\0\0\x04\0\0\0\0\0\0\0\x04\0\0\0\0\0\0\0",
        inside: &[(2, 4), (8, 40)],
        part: r#"{"at":{"ranges":[[0,2],[1,2]]},"data":["02","04"]}"#,
        refusal: None,
    },
    Row {
        name: "a row of inner chunks whose axes are turned",
        chunk: TURNED_INSIDE,
        value: b"\x01\x03\x02\x04\x05\x07\x06\x08\0\0\0\0\0\0\0\0\x04\0\0\0\0\0\0\0\x04\0\0\0\0\0\0\0\x04\0\0\0\0\0\0\0",
        inside: &[(1, 2), (3, 4), (5, 6), (8, 40)],
        part: r#"{"at":{"ranges":[[1,2],[0,3]]},"data":["03","04","07"]}"#,
        refusal: None,
    },
    Row {
        name: "elements in any order of an inner chunk whose axes are turned",
        chunk: TURNED_INSIDE,
        value: b"\x01\x03\x02\x04\x05\x07\x06\x08\0\0\0\0\0\0\0\0\x04\0\0\0\0\0\0\0\x04\0\0\0\0\0\0\0\x04\0\0\0\0\0\0\0",
        inside: &[(0, 1), (2, 4), (8, 40)],
        part: r#"{"at":{"indices":[[1,1],[0,0],[0,1]]},"data":["04","01","02"]}"#,
        refusal: None,
    },
    Row {
        name: "an inner chunk whole, whose axes are turned, by its bytes and nothing of the other",
        chunk: TURNED_INSIDE,
        value: b"\x01\x03\x02\x04\x05\x07\x06\x08\0\0\0\0\0\0\0\0\x04\0\0\0\0\0\0\0\x04\0\0\0\0\0\0\0\x04\0\0\0\0\0\0\0",
        inside: &[(4, 40)],
        part: r#"{"at":{"ranges":[[0,2],[2,4]]},"data":["05","06","07","08"]}"#,
        refusal: None,
    },
    Row {
        name: "a box of one inner chunk whose axes are turned, by the bytes of its elements alone",
        chunk: WIDE_INSIDE,
        value: b"\x01\x04\x07\x02\x05\x08\x03\x06\x09\xff\xff\xff\xff\xff\xff\xff\xff\xff\xff\xff\xff\xff\xff\xff\xff\0\0\0\0\0\0\0\0\x09\0\0\0\0\0\0\0",
        inside: &[(4, 6), (7, 41)],
        part: r#"{"at":{"ranges":[[1,3],[4,6]]},"data":["05","06","08","09"]}"#,
        refusal: None,
    },
    Row {
        name: "the columns of one that isn't stored, by the index alone",
        chunk: WIDE_INSIDE,
        value: b"\x01\x04\x07\x02\x05\x08\x03\x06\x09\xff\xff\xff\xff\xff\xff\xff\xff\xff\xff\xff\xff\xff\xff\xff\xff\0\0\0\0\0\0\0\0\x09\0\0\0\0\0\0\0",
        inside: &[(9, 41)],
        part: r#"{"at":{"ranges":[[0,3],[1,2]]},"data":["ff","ff","ff"]}"#,
        refusal: None,
    },
    Row {
        name: "a region of a shard behind turned axes",
        chunk: TURNED_OUTSIDE,
        value: b"\x01\x02\x03\x04\x05\x06\x07\x08\0\0\0\0\0\0\0\0\x04\0\0\0\0\0\0\0\x04\0\0\0\0\0\0\0\x04\0\0\0\0\0\0\0",
        inside: &[(2, 4), (6, 40)],
        part: r#"{"at":{"ranges":[[0,3],[1,2]]},"data":["03","04","07"]}"#,
        refusal: None,
    },
    Row {
        name: "flags of an inner chunk",
        chunk: INNER_FLAGS,
        value: b"\x05\x80\0\0\0\0\0\0\0\0\x01\0\0\0\0\0\0\0\x01\0\0\0\0\0\0\0\x01\0\0\0\0\0\0\0",
        inside: &[(1, 34)],
        part: r#"{"at":{"ranges":[[14,16]]},"data":["00","01"]}"#,
        refusal: None,
    },
    Row {
        name: "elements that may be absent, by all of their inner chunk",
        chunk: INNER_OPTIONAL,
        value: b"\x02\0\0\0\0\0\0\0\x01\0\0\0\0\0\0\0\x01\0\x07\0\0\0\0\0\0\0\0\x13\0\0\0\0\0\0\0\xff\xff\xff\xff\xff\xff\xff\xff\xff\xff\xff\xff\xff\xff\xff\xff",
        inside: &[(0, 51)],
        part: r#"{"at":{"ranges":[[0,3]]},"data":[["07"],null,null]}"#,
        refusal: None,
    },
    Row {
        name: "places of two inner chunks, each with its own cause: that of the first is named",
        chunk: INNER_TEXTS,
        value: b"\x18\0\0\0\0\0\0\0\0\0\0\0\0\0\0\0\x01\0\0\0\0\0\0\0\x09\0\0\0\0\0\0\0abc\x18\0\0\0\0\0\0\0\x01\0\0\0\0\0\0\0\0\0\0\0\0\0\0\0\x03\0\0\0\0\0\0\0abc\0\0\0\0\0\0\0\0#\0\0\0\0\0\0\0#\0\0\0\0\0\0\0#\0\0\0\0\0\0\0",
        inside: &[(0, 102)],
        part: r#"{"at":{"indices":[[0],[2],[1]]},"data":[]}"#,
        refusal: Some(CodecError::InvalidByteRange),
    },
    Row {
        name: "the cause of the second by itself",
        chunk: INNER_TEXTS,
        value: b"\x18\0\0\0\0\0\0\0\0\0\0\0\0\0\0\0\x01\0\0\0\0\0\0\0\x09\0\0\0\0\0\0\0abc\x18\0\0\0\0\0\0\0\x01\0\0\0\0\0\0\0\0\0\0\0\0\0\0\0\x03\0\0\0\0\0\0\0abc\0\0\0\0\0\0\0\0#\0\0\0\0\0\0\0#\0\0\0\0\0\0\0#\0\0\0\0\0\0\0",
        inside: &[(0, 102)],
        part: r#"{"at":{"indices":[[0],[2]]},"data":[]}"#,
        refusal: Some(CodecError::InvalidOffsets),
    },
];

#[test]
fn reads_of_shards_ask_for_the_index_and_inner_bytes(rt: HostRuntime) -> Result<(), CodecError> {
    all_through_chains(&rt, rt.alloc(), OF_BYTES)
}

#[test]
fn and_inner_chains_for_what_they_rest_on(rt: HostRuntime) -> Result<(), CodecError> {
    all_through_chains(&rt, rt.alloc(), OF_CHAINS)
}
