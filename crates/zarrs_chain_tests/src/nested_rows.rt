//! Chunks whose containers hold more than their elements: bytes before the first text, and bytes,
//! texts and flags where an element is absent. None of it is encoded.

use crate::forms::{Chunk, Elements, OPTIONS, TEXTS};
use crate::nested::Nested;
use crate::targets::Into;
use crate::whole_rows::Row;
use zarrs_chunk::CodecError::{TargetMismatch, UnsupportedTarget};
use zarrs_codec::BytesRepresentation::{BoundedSize, UnboundedSize};

const NOT_FOR_TEXTS: Into = Into {
    sizes: &[6],
    ranges: &[1..4],
    masks: 1,
    answer: Err(UnsupportedTarget),
    values: &[9; 6],
    mask: &[9; 6],
};

const NOT_FOR_ITS_LEVELS: Into = Into {
    sizes: &[6],
    ranges: &[1..4],
    masks: 1,
    answer: Err(TargetMismatch),
    values: &[9; 6],
    mask: &[9; 6],
};

const A_AND_BC: &'static [u8] = &[
    24, 0, 0, 0, 0, 0, 0, 0, 0, 0, 0, 0, 0, 0, 0, 0, 1, 0, 0, 0, 0, 0, 0, 0, 3, 0, 0, 0, 0, 0, 0,
    0, 97, 98, 99,
];

const BC_BEHIND_A_BYTE: &'static [u8] = &[
    12, 0, 0, 0, 0, 0, 0, 0, 0, 0, 0, 0, 2, 0, 0, 0, 2, 0, 0, 0, 98, 99,
];

const FIVE_AND_SEVEN: &'static [u8] = &[
    3, 0, 0, 0, 0, 0, 0, 0, 2, 0, 0, 0, 0, 0, 0, 0, 1, 0, 1, 5, 7,
];

const TWO_LEVELS: &'static [u8] = &[
    3, 0, 0, 0, 0, 0, 0, 0, 19, 0, 0, 0, 0, 0, 0, 0, 1, 1, 0, 2, 0, 0, 0, 0, 0, 0, 0, 1, 0, 0, 0,
    0, 0, 0, 0, 1, 0, 42,
];

const ALL_ABSENT: &'static [u8] = &[4, 0, 0, 0, 0, 0, 0, 0, 0, 0, 0, 0, 0, 0, 0, 0, 0, 0, 0, 0];

const HI: &'static [u8] = &[
    1, 0, 0, 0, 0, 0, 0, 0, 26, 0, 0, 0, 0, 0, 0, 0, 1, 16, 0, 0, 0, 0, 0, 0, 0, 0, 0, 0, 0, 0, 0,
    0, 0, 2, 0, 0, 0, 0, 0, 0, 0, 104, 105,
];

const HI_AT_TWO_LEVELS: &'static [u8] = &[
    1, 0, 0, 0, 0, 0, 0, 0, 44, 0, 0, 0, 0, 0, 0, 0, 5, 2, 0, 0, 0, 0, 0, 0, 0, 26, 0, 0, 0, 0, 0,
    0, 0, 1, 0, 2, 0, 0, 0, 0, 0, 0, 0, 104, 105, 0, 0, 0, 0, 2, 0, 0, 0, 8, 0, 0, 0, 0, 0, 0, 0,
];

const BC_AND_NOTHING: &'static [u8] = &[2, 0, 0, 0, 2, 0, 0, 0, 98, 99, 0, 0, 0, 0];

const NO_BYTES_AND_A_BYTE: &'static [u8] = &[2, 0, 0, 0, 0, 0, 0, 0, 1, 0, 0, 0, 255];

const TEXTS_IN_A_SHARD: &'static [u8] = &[
    2, 0, 0, 0, 1, 0, 0, 0, 97, 2, 0, 0, 0, 98, 99, 0, 0, 0, 0, 0, 0, 0, 0, 15, 0, 0, 0, 0, 0, 0,
    0, 255, 255, 255, 255, 255, 255, 255, 255, 255, 255, 255, 255, 255, 255, 255, 255,
];

pub(crate) const NESTED: &'static [Nested] = &[
    Nested {
        row: Row {
            name: "a and bc",
            codecs: TEXTS,
            chunk: Chunk {
                shape: &[2],
                data_type: r#""string""#,
                fill_value: &[],
            },
            size: Ok(UnboundedSize),
            elements: Elements {
                bytes: b"abc",
                ends: &[0, 1, 3],
                masks: &[],
            },
            encoded: Ok(A_AND_BC),
            value: A_AND_BC,
            decoded: Ok(Elements {
                bytes: b"abc",
                ends: &[0, 1, 3],
                masks: &[],
            }),
        },
        into: NOT_FOR_TEXTS,
    },
    Nested {
        row: Row {
            name: "bc and nothing, behind a byte of no text",
            codecs: r#"[{"name":"zarrs.vlen","configuration":{"index_codecs":[{"name":"bytes","configuration":{"endian":"little"}}],"data_codecs":["bytes"],"index_data_type":"uint32"}}]"#,
            chunk: Chunk {
                shape: &[2],
                data_type: r#""string""#,
                fill_value: &[],
            },
            size: Ok(UnboundedSize),
            elements: Elements {
                bytes: b"xbc",
                ends: &[1, 3, 3],
                masks: &[],
            },
            encoded: Ok(BC_BEHIND_A_BYTE),
            value: BC_BEHIND_A_BYTE,
            decoded: Ok(Elements {
                bytes: b"bc",
                ends: &[0, 2, 2],
                masks: &[],
            }),
        },
        into: NOT_FOR_TEXTS,
    },
    Nested {
        row: Row {
            name: "5, an absent 9, and 7",
            codecs: OPTIONS,
            chunk: Chunk {
                shape: &[3],
                data_type: r#"{"optional":"uint8"}"#,
                fill_value: &[0],
            },
            size: Ok(BoundedSize(22)),
            elements: Elements {
                bytes: &[5, 9, 7],
                ends: &[],
                masks: &[&[1, 0, 1]],
            },
            encoded: Ok(FIVE_AND_SEVEN),
            value: FIVE_AND_SEVEN,
            decoded: Ok(Elements {
                bytes: &[5, 0, 7],
                ends: &[],
                masks: &[&[1, 0, 1]],
            }),
        },
        into: Into {
            sizes: &[6],
            ranges: &[1..4],
            masks: 1,
            answer: Ok(()),
            values: &[9, 5, 0, 7, 9, 9],
            mask: &[9, 1, 0, 1, 9, 9],
        },
    },
    Nested {
        row: Row {
            name: "42, one absent inside over 8, and an absent one over a present 9",
            codecs: r#"[{"name":"optional","configuration":{"mask_codecs":["bytes"],"data_codecs":[{"name":"optional","configuration":{"mask_codecs":["bytes"],"data_codecs":["bytes"]}}]}}]"#,
            chunk: Chunk {
                shape: &[3],
                data_type: r#"{"optional":{"optional":"uint8"}}"#,
                fill_value: &[0],
            },
            size: Ok(BoundedSize(41)),
            elements: Elements {
                bytes: &[42, 8, 9],
                ends: &[],
                masks: &[&[1, 0, 1], &[1, 1, 0]],
            },
            encoded: Ok(TWO_LEVELS),
            value: TWO_LEVELS,
            decoded: Ok(Elements {
                bytes: &[42, 0, 0],
                ends: &[],
                masks: &[&[1, 0, 0], &[1, 1, 0]],
            }),
        },
        into: NOT_FOR_ITS_LEVELS,
    },
    Nested {
        row: Row {
            name: "four absent ones, whose axes would be turned",
            codecs: r#"[{"name":"optional","configuration":{"mask_codecs":["bytes"],"data_codecs":[{"name":"transpose","configuration":{"order":[1,0]}},"bytes"]}}]"#,
            chunk: Chunk {
                shape: &[2, 2],
                data_type: r#"{"optional":"uint8"}"#,
                fill_value: &[0],
            },
            size: Ok(BoundedSize(24)),
            elements: Elements {
                bytes: &[1, 2, 3, 4],
                ends: &[],
                masks: &[&[0, 0, 0, 0]],
            },
            encoded: Ok(ALL_ABSENT),
            value: ALL_ABSENT,
            decoded: Ok(Elements {
                bytes: &[0, 0, 0, 0],
                ends: &[],
                masks: &[&[0, 0, 0, 0]],
            }),
        },
        into: NOT_FOR_ITS_LEVELS,
    },
    Nested {
        row: Row {
            name: "hi, and an absent x",
            codecs: r#"[{"name":"optional","configuration":{"mask_codecs":["packbits"],"data_codecs":[{"name":"zarrs.vlen","configuration":{"index_codecs":[{"name":"bytes","configuration":{"endian":"little"}}],"data_codecs":["bytes"],"index_data_type":"uint64"}}]}}]"#,
            chunk: Chunk {
                shape: &[2],
                data_type: r#"{"optional":"string"}"#,
                fill_value: &[0],
            },
            size: Ok(UnboundedSize),
            elements: Elements {
                bytes: b"hix",
                ends: &[0, 2, 3],
                masks: &[&[1, 0]],
            },
            encoded: Ok(HI),
            value: HI,
            decoded: Ok(Elements {
                bytes: b"hi",
                ends: &[0, 2, 2],
                masks: &[&[1, 0]],
            }),
        },
        into: NOT_FOR_TEXTS,
    },
    Nested {
        row: Row {
            name: "hi, an absent x, and yz that is absent inside",
            codecs: r#"[{"name":"optional","configuration":{"mask_codecs":["packbits"],"data_codecs":[{"name":"optional","configuration":{"mask_codecs":["bytes"],"data_codecs":[{"name":"zarrs.vlen","configuration":{"index_codecs":[{"name":"bytes","configuration":{"endian":"little"}}],"data_codecs":["bytes","sample.length"],"index_data_type":"uint32","index_location":"end"}}]}}]}}]"#,
            chunk: Chunk {
                shape: &[3],
                data_type: r#"{"optional":{"optional":"string"}}"#,
                fill_value: &[0],
            },
            size: Ok(UnboundedSize),
            elements: Elements {
                bytes: b"hixyz",
                ends: &[0, 2, 3, 5],
                masks: &[&[1, 1, 0], &[1, 0, 1]],
            },
            encoded: Ok(HI_AT_TWO_LEVELS),
            value: HI_AT_TWO_LEVELS,
            decoded: Ok(Elements {
                bytes: b"hi",
                ends: &[0, 2, 2, 2],
                masks: &[&[1, 0, 0], &[1, 0, 1]],
            }),
        },
        into: NOT_FOR_TEXTS,
    },
    Nested {
        row: Row {
            name: "bc and nothing, each behind its length",
            codecs: r#"["vlen-utf8"]"#,
            chunk: Chunk {
                shape: &[2],
                data_type: r#""string""#,
                fill_value: &[],
            },
            size: Ok(UnboundedSize),
            elements: Elements {
                bytes: b"xbc",
                ends: &[1, 3, 3],
                masks: &[],
            },
            encoded: Ok(BC_AND_NOTHING),
            value: BC_AND_NOTHING,
            decoded: Ok(Elements {
                bytes: b"bc",
                ends: &[0, 2, 2],
                masks: &[],
            }),
        },
        into: NOT_FOR_TEXTS,
    },
    Nested {
        row: Row {
            name: "no bytes and a byte, each behind its length",
            codecs: r#"["vlen-bytes"]"#,
            chunk: Chunk {
                shape: &[2],
                data_type: r#""bytes""#,
                fill_value: &[],
            },
            size: Ok(UnboundedSize),
            elements: Elements {
                bytes: &[255],
                ends: &[0, 0, 1],
                masks: &[],
            },
            encoded: Ok(NO_BYTES_AND_A_BYTE),
            value: NO_BYTES_AND_A_BYTE,
            decoded: Ok(Elements {
                bytes: &[255],
                ends: &[0, 0, 1],
                masks: &[],
            }),
        },
        into: NOT_FOR_TEXTS,
    },
    Nested {
        row: Row {
            name: "a, bc and two empty texts in two inner chunks, behind a byte",
            codecs: r#"[{"name":"sharding_indexed","configuration":{"chunk_shape":[2],"codecs":["vlen-utf8"],"index_codecs":[{"name":"bytes","configuration":{"endian":"little"}}]}}]"#,
            chunk: Chunk {
                shape: &[4],
                data_type: r#""string""#,
                fill_value: &[],
            },
            size: Ok(UnboundedSize),
            elements: Elements {
                bytes: b"xabc",
                ends: &[1, 2, 4, 4, 4],
                masks: &[],
            },
            encoded: Ok(TEXTS_IN_A_SHARD),
            value: TEXTS_IN_A_SHARD,
            decoded: Ok(Elements {
                bytes: b"abc",
                ends: &[0, 1, 3, 3, 3],
                masks: &[],
            }),
        },
        into: NOT_FOR_TEXTS,
    },
];
