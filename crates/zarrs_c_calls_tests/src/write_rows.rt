//! Writes of 7 and 8 into the second column of two rows of two, into buffers of different sizes.

use crate::rows::{Call, NOTHING, Row, STORED, SUMMED, Told};

const COLUMN: Row = Row {
    call: Call::Write,
    numbers: &[0, 1, 2, 1],
    bytes: &[7, 8],
    ..STORED
};

pub(crate) const WRITES: &'static [Row] = &[
    Row {
        name: "room for the value",
        room: 4,
        told: Told {
            bytes: &[1, 7, 3, 8],
            needed: (0, 0, 4),
            ..NOTHING
        },
        ..COLUMN
    },
    Row {
        name: "room for more",
        room: 9,
        told: Told {
            bytes: &[1, 7, 3, 8],
            needed: (0, 0, 4),
            ..NOTHING
        },
        ..COLUMN
    },
    Row {
        name: "a byte too few",
        room: 3,
        told: Told {
            code: 1,
            needed: (0, 0, 4),
            ..NOTHING
        },
        ..COLUMN
    },
    Row {
        name: "a value that is too short",
        value: &[1],
        room: 4,
        told: Told {
            bytes: &[1, 7, 0, 8],
            needed: (0, 0, 4),
            ..NOTHING
        },
        ..COLUMN
    },
    Row {
        name: "a value that is too long",
        value: &[1, 2, 3, 4, 5],
        room: 5,
        told: Told {
            bytes: &[1, 7, 3, 8, 5],
            needed: (0, 0, 5),
            ..NOTHING
        },
        ..COLUMN
    },
    Row {
        name: "a value that is replaced",
        header: SUMMED,
        is_stored: false,
        value: &[],
        room: 8,
        told: Told {
            bytes: &[9, 7, 9, 8, 240, 229, 249, 19],
            needed: (0, 0, 8),
            ..NOTHING
        },
        ..COLUMN
    },
    Row {
        name: "a value that is replaced, and a byte too few",
        header: SUMMED,
        is_stored: false,
        value: &[],
        room: 7,
        told: Told {
            code: 1,
            needed: (0, 0, 8),
            ..NOTHING
        },
        ..COLUMN
    },
    Row {
        name: "one place where nothing is stored",
        is_stored: false,
        tuples: 1,
        numbers: &[1, 0],
        bytes: &[7],
        told: Told {
            bytes: &[9, 9, 7, 9],
            needed: (0, 0, 4),
            ..NOTHING
        },
        ..COLUMN
    },
    Row {
        name: "one new element for two places",
        bytes: &[7],
        told: Told {
            code: 32,
            ..NOTHING
        },
        ..COLUMN
    },
];
