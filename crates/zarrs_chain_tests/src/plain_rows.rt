//! Chunks of elements of one size, as they are and packed.

use crate::forms::{Chunk, Elements, PAIR};
use crate::nested::Nested;
use crate::targets::Into;
use crate::whole_rows::Row;
use zarrs_chunk::CodecError::TargetMismatch;
use zarrs_codec::BytesRepresentation::FixedSize;

/// Words have two bytes, and the target's elements one.
const NOT_FOR_WORDS: Into = Into {
    sizes: &[6],
    ranges: &[1..3],
    masks: 0,
    answer: Err(TargetMismatch),
    values: &[9; 6],
    mask: &[9; 6],
};

pub(crate) const PLAIN: &'static [Nested] = &[
    Nested {
        row: Row {
            name: "two words, the highest byte first",
            codecs: r#"[{"name":"bytes","configuration":{"endian":"big"}}]"#,
            chunk: Chunk {
                shape: &[2],
                data_type: r#""uint16""#,
                fill_value: &[0, 0],
            },
            size: Ok(FixedSize(4)),
            elements: Elements {
                bytes: &[1, 0, 2, 1],
                ends: &[],
                masks: &[],
            },
            encoded: Ok(&[0, 1, 1, 2]),
            value: &[0, 1, 1, 2],
            decoded: Ok(Elements {
                bytes: &[1, 0, 2, 1],
                ends: &[],
                masks: &[],
            }),
        },
        into: NOT_FOR_WORDS,
    },
    Nested {
        row: Row {
            name: "two bytes as they are",
            codecs: r#"["bytes"]"#,
            chunk: PAIR,
            size: Ok(FixedSize(2)),
            elements: Elements {
                bytes: &[1, 2],
                ends: &[],
                masks: &[],
            },
            encoded: Ok(&[1, 2]),
            value: &[1, 2],
            decoded: Ok(Elements {
                bytes: &[1, 2],
                ends: &[],
                masks: &[],
            }),
        },
        into: Into {
            sizes: &[2, 3],
            ranges: &[0..2, 1..2],
            masks: 0,
            answer: Ok(()),
            values: &[9, 1, 9, 9, 2, 9],
            mask: &[9; 6],
        },
    },
    Nested {
        row: Row {
            name: "two flags behind their padding byte",
            codecs: r#"[{"name":"packbits","configuration":{"padding_encoding":"first_byte"}}]"#,
            chunk: Chunk {
                shape: &[2],
                data_type: r#""bool""#,
                fill_value: &[0],
            },
            size: Ok(FixedSize(2)),
            elements: Elements {
                bytes: &[1, 1],
                ends: &[],
                masks: &[],
            },
            encoded: Ok(&[6, 3]),
            value: &[6, 3],
            decoded: Ok(Elements {
                bytes: &[1, 1],
                ends: &[],
                masks: &[],
            }),
        },
        into: Into {
            sizes: &[2, 3],
            ranges: &[0..2, 1..2],
            masks: 0,
            answer: Ok(()),
            values: &[9, 1, 9, 9, 1, 9],
            mask: &[9; 6],
        },
    },
];
