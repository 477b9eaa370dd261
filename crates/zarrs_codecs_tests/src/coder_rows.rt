//! Encoders, and coders that fail or are never made, with what they answer.

use crate::chunks::{
    A_AND_BC, BYTES, FIRST_OF_TWO, FOUR_BITS, ORDERLESS, SHARD, TEXTS, WITH_LENGTH,
};
use crate::coders::Kind;
use crate::rows::{FIRST, NONE, Row, SECOND};
use zarrs_chunk::CodecError;

/// Encoders keep what their handles do.
pub(crate) const ENCODERS: &'static [Row] = &[
    Row {
        name: "an encoder of bytes",
        coder: Kind::Encoder,
        chunk: BYTES,
        value: Some(b"\x0a\x0b\x0c\x0d"),
        fails_at: 0,
        part: r#"{"at":{"ranges":[[1,2]]},"data":["0b"]}"#,
        refusals: NONE,
        in_part: true,
        planned: Some(&[(1, 2)]),
        size_held: 4,
    },
    Row {
        name: "an encoder of texts, whose handle keeps the value",
        coder: Kind::Encoder,
        chunk: TEXTS,
        value: Some(A_AND_BC),
        fails_at: 0,
        part: r#"{"at":{"ranges":[[1,2]]},"data":["6263"]}"#,
        refusals: NONE,
        in_part: true,
        planned: None,
        size_held: 35,
    },
    Row {
        name: "an encoder of inner chunks, whose handle keeps the value",
        coder: Kind::Encoder,
        chunk: SHARD,
        value: Some(FIRST_OF_TWO),
        fails_at: 0,
        part: r#"{"at":{"ranges":[[0,2],[1,3]]},"data":["02","00","04","00"]}"#,
        refusals: NONE,
        in_part: true,
        planned: None,
        size_held: 36,
    },
    Row {
        name: "an encoder of four bits",
        coder: Kind::Encoder,
        chunk: FOUR_BITS,
        value: Some(b"\x0f"),
        fails_at: 0,
        part: r#"{"at":{"ranges":[[0,1]]},"data":["ff"]}"#,
        refusals: NONE,
        in_part: true,
        planned: Some(&[(0, 1)]),
        size_held: 1,
    },
    Row {
        name: "an encoder of four bits, of which nothing is stored",
        coder: Kind::Encoder,
        chunk: FOUR_BITS,
        value: None,
        fails_at: 0,
        part: r#"{"at":{"ranges":[[0,1]]},"data":["0f"]}"#,
        refusals: NONE,
        in_part: true,
        planned: Some(&[(0, 1)]),
        size_held: 0,
    },
];

/// A decoder without a cache asks its handle at each read, and one with a cache never again once it
/// is made.
pub(crate) const FAILING: &'static [Row] = &[
    Row {
        name: "bytes, where the first call fails",
        coder: Kind::Decoder,
        chunk: BYTES,
        value: Some(b"\x0a\x0b\x0c\x0d"),
        fails_at: 1,
        part: r#"{"at":{"ranges":[[1,2]]},"data":["0b"]}"#,
        refusals: [None, Some(FIRST), None],
        in_part: true,
        planned: Some(&[(1, 2)]),
        size_held: 4,
    },
    Row {
        name: "bytes, where the second call fails",
        coder: Kind::Decoder,
        chunk: BYTES,
        value: Some(b"\x0a\x0b\x0c\x0d"),
        fails_at: 2,
        part: r#"{"at":{"ranges":[[1,2]]},"data":["0b"]}"#,
        refusals: [None, None, Some(SECOND)],
        in_part: true,
        planned: Some(&[(1, 2)]),
        size_held: 4,
    },
    Row {
        name: "bytes under a length, where the second call fails",
        coder: Kind::Decoder,
        chunk: WITH_LENGTH,
        value: Some(b"\x04\0\0\0\0\0\0\0\x0a\x0b\x0c\x0d"),
        fails_at: 2,
        part: r#"{"at":{"ranges":[[1,2]]},"data":["0b"]}"#,
        refusals: NONE,
        in_part: false,
        planned: None,
        size_held: 4,
    },
    Row {
        name: "bytes under a length, where the first call fails",
        coder: Kind::Decoder,
        chunk: WITH_LENGTH,
        value: Some(b"\x04\0\0\0\0\0\0\0\x0a\x0b\x0c\x0d"),
        fails_at: 1,
        part: r#"{"at":{"ranges":[[1,2]]},"data":["0b"]}"#,
        refusals: [Some(FIRST), None, None],
        in_part: false,
        planned: None,
        size_held: 0,
    },
];

/// Coders that are never made.
pub(crate) const NEVER_MADE: &'static [Row] = &[
    Row {
        name: "an encoder of words without an order",
        coder: Kind::Encoder,
        chunk: ORDERLESS,
        value: Some(b"\0"),
        fails_at: 0,
        part: r#"{"at":{"ranges":[[1,2]]},"data":[]}"#,
        refusals: [Some(CodecError::EndiannessMissing), None, None],
        in_part: false,
        planned: None,
        size_held: 0,
    },
    Row {
        name: "a length that isn't that of the bytes",
        coder: Kind::Decoder,
        chunk: WITH_LENGTH,
        value: Some(b"\x03\0\0\0\0\0\0\0\x01\x02"),
        fails_at: 0,
        part: r#"{"at":{"ranges":[[1,2]]},"data":[]}"#,
        refusals: [Some(CodecError::BytesCodec(2)), None, None],
        in_part: false,
        planned: None,
        size_held: 0,
    },
];
