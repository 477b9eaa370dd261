//! Chunks that `vlen`, `optional`, `vlen-utf8`, `vlen-bytes` and `sharding_indexed` don't take, containers
//! that hold another chunk, and values that stand for none.

use crate::forms::{Chunk, Elements, OPTIONS, PAIR, TEXTS};
use crate::whole_rows::Row;
use zarrs_chain_meaning::codec_name::{OPTIONAL, VLEN};
use zarrs_chunk::CodecError::{
    ArrayBytesKind, ElementCount, IndivisibleShape, InvalidBytesLength, UnsupportedDataType,
};
use zarrs_codec::BytesRepresentation::{BoundedSize, UnboundedSize};
use zarrs_vlen_v2::{VLEN_BYTES, VLEN_UTF8};

const STRINGS: Chunk = Chunk {
    shape: &[2],
    data_type: r#""string""#,
    fill_value: &[],
};

const OPTIONAL_BYTES: Chunk = Chunk {
    shape: &[3],
    data_type: r#"{"optional":"uint8"}"#,
    fill_value: &[0],
};

/// Inner chunks of two elements, as they are.
const PAIRS: &'static str =
    r#"[{"name":"sharding_indexed","configuration":{"chunk_shape":[2],"codecs":["bytes"],"index_codecs":[{"name":"bytes","configuration":{"endian":"little"}}]}}]"#;

pub(crate) const REFUSED: &'static [Row] = &[
    Row {
        name: "vlen over elements of one size",
        codecs: TEXTS,
        chunk: PAIR,
        size: Err(UnsupportedDataType(VLEN)),
        elements: Elements {
            bytes: &[1, 2],
            ends: &[],
            masks: &[],
        },
        encoded: Err(UnsupportedDataType(VLEN)),
        value: &[1, 2],
        decoded: Err(UnsupportedDataType(VLEN)),
    },
    Row {
        name: "optional over elements that are there",
        codecs: OPTIONS,
        chunk: PAIR,
        size: Err(UnsupportedDataType(OPTIONAL)),
        elements: Elements {
            bytes: &[1, 2],
            ends: &[],
            masks: &[],
        },
        encoded: Err(UnsupportedDataType(OPTIONAL)),
        value: &[1, 2],
        decoded: Err(UnsupportedDataType(OPTIONAL)),
    },
    Row {
        name: "elements of one size in place of texts, and seven bytes",
        codecs: TEXTS,
        chunk: STRINGS,
        size: Ok(UnboundedSize),
        elements: Elements {
            bytes: &[1, 2],
            ends: &[],
            masks: &[],
        },
        encoded: Err(ArrayBytesKind),
        value: &[0; 7],
        decoded: Err(InvalidBytesLength {
            len: 7,
            expected: 8,
        }),
    },
    Row {
        name: "the offsets of one text in place of two, and one byte where the texts have three",
        codecs: TEXTS,
        chunk: STRINGS,
        size: Ok(UnboundedSize),
        elements: Elements {
            bytes: b"a",
            ends: &[0, 1],
            masks: &[],
        },
        encoded: Err(InvalidBytesLength {
            len: 2,
            expected: 3,
        }),
        value: &[
            24, 0, 0, 0, 0, 0, 0, 0, 0, 0, 0, 0, 0, 0, 0, 0, 1, 0, 0, 0, 0, 0, 0, 0, 3, 0, 0, 0, 0,
            0, 0, 0, 97,
        ],
        decoded: Err(InvalidBytesLength {
            len: 1,
            expected: 3,
        }),
    },
    Row {
        name: "no mask, and seventeen bytes of no mask and no data",
        codecs: OPTIONS,
        chunk: OPTIONAL_BYTES,
        size: Ok(BoundedSize(22)),
        elements: Elements {
            bytes: &[5, 9, 7],
            ends: &[],
            masks: &[],
        },
        encoded: Err(ArrayBytesKind),
        value: &[0; 17],
        decoded: Err(InvalidBytesLength {
            len: 17,
            expected: 16,
        }),
    },
    Row {
        name: "a mask of two in place of three, and fifteen bytes",
        codecs: OPTIONS,
        chunk: OPTIONAL_BYTES,
        size: Ok(BoundedSize(22)),
        elements: Elements {
            bytes: &[5, 9],
            ends: &[],
            masks: &[&[1, 0]],
        },
        encoded: Err(InvalidBytesLength {
            len: 2,
            expected: 3,
        }),
        value: &[0; 15],
        decoded: Err(InvalidBytesLength {
            len: 15,
            expected: 16,
        }),
    },
    Row {
        name: "vlen-bytes over texts",
        codecs: r#"["vlen-bytes"]"#,
        chunk: STRINGS,
        size: Err(UnsupportedDataType(VLEN_BYTES)),
        elements: Elements {
            bytes: b"ab",
            ends: &[0, 1, 2],
            masks: &[],
        },
        encoded: Err(UnsupportedDataType(VLEN_BYTES)),
        value: &[0; 3],
        decoded: Err(UnsupportedDataType(VLEN_BYTES)),
    },
    Row {
        name: "vlen-utf8 over elements of one size",
        codecs: r#"["vlen-utf8"]"#,
        chunk: PAIR,
        size: Err(UnsupportedDataType(VLEN_UTF8)),
        elements: Elements {
            bytes: &[1, 2],
            ends: &[],
            masks: &[],
        },
        encoded: Err(UnsupportedDataType(VLEN_UTF8)),
        value: &[0; 3],
        decoded: Err(UnsupportedDataType(VLEN_UTF8)),
    },
    Row {
        name: "elements of one size in place of texts, and three bytes",
        codecs: r#"["vlen-utf8"]"#,
        chunk: STRINGS,
        size: Ok(UnboundedSize),
        elements: Elements {
            bytes: &[1, 2],
            ends: &[],
            masks: &[],
        },
        encoded: Err(ArrayBytesKind),
        value: &[2, 0, 0],
        decoded: Err(InvalidBytesLength {
            len: 3,
            expected: 4,
        }),
    },
    Row {
        name: "one text in place of two, here and in the value",
        codecs: r#"["vlen-utf8"]"#,
        chunk: STRINGS,
        size: Ok(UnboundedSize),
        elements: Elements {
            bytes: b"a",
            ends: &[0, 1],
            masks: &[],
        },
        encoded: Err(InvalidBytesLength {
            len: 2,
            expected: 3,
        }),
        value: &[1, 0, 0, 0, 1, 0, 0, 0, 97],
        decoded: Err(ElementCount),
    },
    Row {
        name: "inner chunks of two, of three elements",
        codecs: PAIRS,
        chunk: Chunk {
            shape: &[3],
            data_type: r#""uint8""#,
            fill_value: &[0],
        },
        size: Err(IndivisibleShape),
        elements: Elements {
            bytes: &[1, 2, 3],
            ends: &[],
            masks: &[],
        },
        encoded: Err(IndivisibleShape),
        value: &[0; 16],
        decoded: Err(IndivisibleShape),
    },
    Row {
        name: "three elements in place of two inner chunks, and too few bytes for their index",
        codecs: PAIRS,
        chunk: Chunk {
            shape: &[4],
            data_type: r#""uint8""#,
            fill_value: &[0],
        },
        size: Ok(BoundedSize(36)),
        elements: Elements {
            bytes: &[1, 2, 3],
            ends: &[],
            masks: &[],
        },
        encoded: Err(InvalidBytesLength {
            len: 3,
            expected: 4,
        }),
        value: &[0; 31],
        decoded: Err(InvalidBytesLength {
            len: 31,
            expected: 32,
        }),
    },
];
