//! What a read of pieces lacks.

use crate::rows::{Call, NOTHING, Row, STORED, SUMMED, TWO_TEXTS, Told};

/// All of two rows of two, or both of two texts, of which pieces were fetched.
pub(crate) const ROUNDS: &'static [Row] = &[
    Row {
        name: "bytes, of which a piece is there",
        call: Call::Lacking,
        ranges: &[1, 3],
        value: &[2, 3],
        numbers: &[0, 0, 2, 2],
        told: Told {
            numbers: &[0, 1, 3, 4],
            needed: (0, 4, 0),
            ..NOTHING
        },
        ..STORED
    },
    Row {
        name: "the same without room",
        call: Call::Lacking,
        ranges: &[1, 3],
        value: &[2, 3],
        numbers: &[0, 0, 2, 2],
        room: 1,
        told: Told {
            code: 1,
            needed: (0, 4, 0),
            ..NOTHING
        },
        ..STORED
    },
    Row {
        name: "all bytes",
        call: Call::Lacking,
        ranges: &[0, 4],
        numbers: &[0, 0, 2, 2],
        ..STORED
    },
    Row {
        name: "a value that is too short",
        call: Call::Lacking,
        len: 3,
        ranges: &[0, 3],
        value: &[1, 2, 3],
        numbers: &[0, 0, 2, 2],
        told: Told {
            code: 30,
            ..NOTHING
        },
        ..STORED
    },
    Row {
        name: "a value that is too short, without a byte",
        call: Call::Lacking,
        len: 3,
        ranges: &[1, 3],
        value: &[2, 3],
        numbers: &[0, 0, 2, 2],
        told: Told {
            code: 30,
            ..NOTHING
        },
        ..STORED
    },
    Row {
        name: "too few bytes",
        call: Call::Lacking,
        ranges: &[0, 2],
        value: &[1],
        numbers: &[0, 0, 2, 2],
        told: Told { code: 3, ..NOTHING },
        ..STORED
    },
    Row {
        name: "a sum of all bytes, of which the last is there",
        call: Call::Lacking,
        header: SUMMED,
        len: 8,
        ranges: &[7, 8],
        value: &[0],
        numbers: &[0, 0, 2, 2],
        told: Told {
            numbers: &[0, 7],
            needed: (0, 2, 0),
            ..NOTHING
        },
        ..STORED
    },
    Row {
        name: "texts, of which nothing is there",
        call: Call::Lacking,
        header: TWO_TEXTS,
        len: 23,
        value: &[],
        numbers: &[0, 2],
        told: Told {
            numbers: &[0, 8],
            needed: (0, 2, 0),
            ..NOTHING
        },
        ..STORED
    },
    Row {
        name: "texts, of whose offsets the length is there",
        call: Call::Lacking,
        header: TWO_TEXTS,
        len: 23,
        ranges: &[0, 8],
        value: &[12, 0, 0, 0, 0, 0, 0, 0],
        numbers: &[0, 2],
        told: Told {
            numbers: &[8, 20],
            needed: (0, 2, 0),
            ..NOTHING
        },
        ..STORED
    },
    Row {
        name: "texts, of which the offsets are there and the first",
        call: Call::Lacking,
        header: TWO_TEXTS,
        len: 23,
        ranges: &[0, 21],
        value: &[
            12, 0, 0, 0, 0, 0, 0, 0, 0, 0, 0, 0, 1, 0, 0, 0, 3, 0, 0, 0, 97,
        ],
        numbers: &[0, 2],
        told: Told {
            numbers: &[21, 23],
            needed: (0, 2, 0),
            ..NOTHING
        },
        ..STORED
    },
];
