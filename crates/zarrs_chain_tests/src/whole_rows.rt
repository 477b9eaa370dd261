//! Chains and chunks, and what is encoded and decoded of them.

use crate::forms::{Chunk, Elements, PAIR};
use zarrs_chunk::CodecError;
use zarrs_chunk::CodecError::{
    ArrayBytesKind, BitRange, BytesCodec, EndiannessMissing, InvalidBytesLength,
};
use zarrs_codec::BytesRepresentation;
use zarrs_codec::BytesRepresentation::{FixedSize, UnboundedSize};

/// A chain and a chunk, and three answers of the chain, or why there is none: how many bytes a value
/// has, the value of elements, and the elements of a value.
pub(crate) struct Row {
    pub(crate) name: &'static str,
    pub(crate) codecs: &'static str,
    pub(crate) chunk: Chunk,
    pub(crate) size: Result<BytesRepresentation, CodecError>,
    pub(crate) elements: Elements,
    pub(crate) encoded: Result<&'static [u8], CodecError>,
    pub(crate) value: &'static [u8],
    pub(crate) decoded: Result<Elements, CodecError>,
}

pub(crate) const FLAT: &'static [Row] = &[
    Row {
        name: "one axis and whole bytes",
        codecs: r#"[{"name":"reshape","configuration":{"shape":[-1]}},"bytes"]"#,
        chunk: Chunk {
            shape: &[2, 3],
            data_type: r#""uint8""#,
            fill_value: &[0],
        },
        size: Ok(FixedSize(6)),
        elements: Elements {
            bytes: &[0, 1, 2, 3, 4, 5],
            ends: &[],
            masks: &[],
        },
        encoded: Ok(&[0, 1, 2, 3, 4, 5]),
        value: &[0, 1, 2, 3, 4, 5],
        decoded: Ok(Elements {
            bytes: &[0, 1, 2, 3, 4, 5],
            ends: &[],
            masks: &[],
        }),
    },
    Row {
        name: "axes turned twice",
        codecs: r#"[{"name":"transpose","configuration":{"order":[0,2,1]}},{"name":"transpose","configuration":{"order":[2,0,1]}},{"name":"bytes","configuration":{"endian":"big"}}]"#,
        chunk: Chunk {
            shape: &[2, 2, 2],
            data_type: r#""uint32""#,
            fill_value: &[0, 0, 0, 0],
        },
        size: Ok(FixedSize(32)),
        elements: Elements {
            bytes: &[1, 2],
            ends: &[],
            masks: &[],
        },
        encoded: Err(InvalidBytesLength {
            len: 2,
            expected: 32,
        }),
        value: &[1, 2],
        decoded: Err(InvalidBytesLength {
            len: 2,
            expected: 32,
        }),
    },
    Row {
        name: "codecs of all three kinds",
        codecs: r#"[{"name":"transpose","configuration":{"order":[1,0]}},{"name":"packbits","configuration":{"padding_encoding":"first_byte"}},"sample.reverse"]"#,
        chunk: Chunk {
            shape: &[2, 2],
            data_type: r#""bool""#,
            fill_value: &[0],
        },
        size: Ok(FixedSize(2)),
        elements: Elements {
            bytes: &[1, 1, 0],
            ends: &[],
            masks: &[],
        },
        encoded: Err(InvalidBytesLength {
            len: 3,
            expected: 4,
        }),
        value: &[5],
        decoded: Err(InvalidBytesLength {
            len: 1,
            expected: 2,
        }),
    },
    Row {
        name: "elements that lose a bit",
        codecs: r#"[{"name":"packbits","configuration":{"first_bit":1}}]"#,
        chunk: Chunk {
            shape: &[2],
            data_type: r#""int4""#,
            fill_value: &[0],
        },
        size: Ok(FixedSize(1)),
        elements: Elements {
            bytes: &[7, 255, 7],
            ends: &[],
            masks: &[],
        },
        encoded: Err(InvalidBytesLength {
            len: 3,
            expected: 2,
        }),
        value: &[59, 59],
        decoded: Err(InvalidBytesLength {
            len: 2,
            expected: 1,
        }),
    },
    Row {
        name: "packed whole bytes have no padding byte",
        codecs: r#"[{"name":"packbits","configuration":{"padding_encoding":"first_byte"}}]"#,
        chunk: Chunk {
            shape: &[2],
            data_type: r#""uint16""#,
            fill_value: &[0, 0],
        },
        size: Ok(FixedSize(4)),
        elements: Elements {
            bytes: &[1, 0, 2],
            ends: &[],
            masks: &[],
        },
        encoded: Err(InvalidBytesLength {
            len: 3,
            expected: 4,
        }),
        value: &[1, 0, 2],
        decoded: Err(InvalidBytesLength {
            len: 3,
            expected: 4,
        }),
    },
    Row {
        name: "packed behind their length",
        codecs: r#"[{"name":"packbits","configuration":{"padding_encoding":"last_byte"}},"sample.length"]"#,
        chunk: Chunk {
            shape: &[8, 5],
            data_type: r#""bool""#,
            fill_value: &[0],
        },
        size: Ok(FixedSize(14)),
        elements: Elements {
            bytes: &[1, 0],
            ends: &[],
            masks: &[],
        },
        encoded: Err(InvalidBytesLength {
            len: 2,
            expected: 40,
        }),
        value: &[5, 0, 0, 0, 0, 0, 0, 0, 1, 2, 3, 4, 5],
        decoded: Err(InvalidBytesLength {
            len: 5,
            expected: 6,
        }),
    },
    Row {
        name: "a length that isn't that of the bytes",
        codecs: r#"["bytes","sample.length"]"#,
        chunk: PAIR,
        size: Ok(FixedSize(10)),
        elements: Elements {
            bytes: &[1],
            ends: &[],
            masks: &[],
        },
        encoded: Err(InvalidBytesLength {
            len: 1,
            expected: 2,
        }),
        value: &[3, 0, 0, 0, 0, 0, 0, 0, 1, 2],
        decoded: Err(BytesCodec(2)),
    },
    Row {
        name: "a length that isn't that of the bytes, turned round with them",
        codecs: r#"["bytes","sample.length","sample.reverse"]"#,
        chunk: PAIR,
        size: Ok(FixedSize(10)),
        elements: Elements {
            bytes: &[1, 2, 3],
            ends: &[],
            masks: &[],
        },
        encoded: Err(InvalidBytesLength {
            len: 3,
            expected: 2,
        }),
        value: &[2, 1, 0, 0, 0, 0, 0, 0, 0, 3],
        decoded: Err(BytesCodec(2)),
    },
    Row {
        name: "as many bytes as 64 bits count",
        codecs: r#"["bytes","sample.length"]"#,
        chunk: Chunk {
            shape: &[18446744073709551607],
            data_type: r#""uint8""#,
            fill_value: &[0],
        },
        size: Ok(FixedSize(18446744073709551615)),
        elements: Elements {
            bytes: &[1, 2],
            ends: &[],
            masks: &[],
        },
        encoded: Err(InvalidBytesLength {
            len: 2,
            expected: 18446744073709551607,
        }),
        value: &[2, 0, 0, 0, 0, 0, 0, 0, 1, 2],
        decoded: Err(InvalidBytesLength {
            len: 2,
            expected: 18446744073709551607,
        }),
    },
    Row {
        name: "more bytes than 64 bits count",
        codecs: r#"["bytes","sample.length"]"#,
        chunk: Chunk {
            shape: &[18446744073709551608],
            data_type: r#""uint8""#,
            fill_value: &[0],
        },
        size: Ok(UnboundedSize),
        elements: Elements {
            bytes: &[1, 2],
            ends: &[],
            masks: &[],
        },
        encoded: Err(InvalidBytesLength {
            len: 2,
            expected: 18446744073709551608,
        }),
        value: &[2],
        decoded: Err(BytesCodec(1)),
    },
    Row {
        name: "three elements where four are due, and three bytes",
        codecs: r#"["bytes"]"#,
        chunk: Chunk {
            shape: &[4],
            data_type: r#""uint8""#,
            fill_value: &[0],
        },
        size: Ok(FixedSize(4)),
        elements: Elements {
            bytes: &[10, 11, 12],
            ends: &[],
            masks: &[],
        },
        encoded: Err(InvalidBytesLength {
            len: 3,
            expected: 4,
        }),
        value: &[10, 11, 12],
        decoded: Err(InvalidBytesLength {
            len: 3,
            expected: 4,
        }),
    },
    Row {
        name: "no byte order",
        codecs: r#"["bytes"]"#,
        chunk: Chunk {
            shape: &[10, 10],
            data_type: r#""int32""#,
            fill_value: &[0, 0, 0, 0],
        },
        size: Err(EndiannessMissing),
        elements: Elements {
            bytes: &[1, 2],
            ends: &[],
            masks: &[],
        },
        encoded: Err(EndiannessMissing),
        value: &[1, 2],
        decoded: Err(EndiannessMissing),
    },
    Row {
        name: "bits outside the component",
        codecs: r#"[{"name":"packbits","configuration":{"first_bit":3,"last_bit":8}}]"#,
        chunk: PAIR,
        size: Err(BitRange),
        elements: Elements {
            bytes: &[1, 2],
            ends: &[],
            masks: &[],
        },
        encoded: Err(BitRange),
        value: &[1, 2],
        decoded: Err(BitRange),
    },
    Row {
        name: "texts in place of elements of one size",
        codecs: r#"["bytes"]"#,
        chunk: PAIR,
        size: Ok(FixedSize(2)),
        elements: Elements {
            bytes: b"ab",
            ends: &[0, 1, 2],
            masks: &[],
        },
        encoded: Err(ArrayBytesKind),
        value: &[1, 2],
        decoded: Ok(Elements {
            bytes: &[1, 2],
            ends: &[],
            masks: &[],
        }),
    },
];
