//! Parts that are read, of a value or of pieces of it, and the ranges that are planned.

use crate::rows::{BOX, Call, NOTHING, Row, STORED, SUMMED, Told};
use crate::whole_rows::{AB_AND_C, TEXTS};
use zarrs_c_calls::SelectionSize;

/// Selections of two rows of two.
pub(crate) const PARTS: &'static [Row] = &[
    Row {
        name: "the second column",
        numbers: &[0, 1, 2, 1],
        told: Told {
            bytes: &[2, 4],
            needed: (0, 0, 2),
            ..NOTHING
        },
        ..STORED
    },
    Row {
        name: "tuples, one of them twice",
        tuples: 3,
        numbers: &[1, 1, 0, 0, 1, 1],
        told: Told {
            bytes: &[4, 1, 4],
            needed: (0, 0, 3),
            ..NOTHING
        },
        ..STORED
    },
    Row {
        name: "no tuple",
        tuples: 0,
        ..STORED
    },
    Row {
        name: "nothing stored",
        is_stored: false,
        numbers: &[0, 0, 1, 2],
        told: Told {
            bytes: &[9, 9],
            needed: (0, 0, 2),
            ..NOTHING
        },
        ..STORED
    },
    Row {
        name: "numbers that are no box",
        numbers: &[0, 0, 1],
        told: Told { code: 3, ..NOTHING },
        ..STORED
    },
    Row {
        name: "a box that ends past 2^64 - 1",
        numbers: &[1, 0, BOX, 1],
        told: Told {
            code: 18,
            ..NOTHING
        },
        ..STORED
    },
    Row {
        name: "too few numbers",
        tuples: 2,
        numbers: &[0, 0, 1],
        told: Told { code: 3, ..NOTHING },
        ..STORED
    },
    Row {
        name: "outside",
        tuples: 1,
        numbers: &[2, 0],
        told: Told {
            code: 17,
            ..NOTHING
        },
        ..STORED
    },
    Row {
        name: "two of three texts",
        header: TEXTS,
        value: AB_AND_C,
        numbers: &[1, 2],
        told: Told {
            numbers: &[0, 0, 1],
            bytes: b"c",
            needed: (0, 3, 1),
            ..NOTHING
        },
        ..STORED
    },
    Row {
        name: "a row, and then two tuples",
        call: Call::ReadMany,
        selections: &[
            SelectionSize {
                tuples: BOX,
                numbers: 4,
            },
            SelectionSize {
                tuples: 2,
                numbers: 4,
            },
        ],
        numbers: &[1, 0, 1, 2, 1, 1, 0, 0],
        told: Told {
            bytes: &[3, 4, 4, 1],
            needed: (0, 0, 4),
            ..NOTHING
        },
        ..STORED
    },
    Row {
        name: "texts, each selection with offsets of its own",
        call: Call::ReadMany,
        header: TEXTS,
        value: AB_AND_C,
        selections: &[
            SelectionSize {
                tuples: BOX,
                numbers: 2,
            },
            SelectionSize {
                tuples: 1,
                numbers: 1,
            },
        ],
        numbers: &[1, 2, 0],
        told: Told {
            numbers: &[0, 0, 1, 0, 2],
            bytes: b"cab",
            needed: (0, 5, 3),
            ..NOTHING
        },
        ..STORED
    },
];

/// Pieces of the value 1, 2, 3, 4.
pub(crate) const PIECES: &'static [Row] = &[
    Row {
        name: "their bytes are there",
        call: Call::ReadPieces,
        ranges: &[0, 2, 3, 4],
        value: &[1, 2, 4],
        tuples: 3,
        numbers: &[1, 1, 0, 0, 0, 1],
        told: Told {
            bytes: &[4, 1, 2],
            needed: (0, 0, 3),
            ..NOTHING
        },
        ..STORED
    },
    Row {
        name: "a byte that wasn't fetched",
        call: Call::ReadPieces,
        ranges: &[0, 2, 3, 4],
        value: &[1, 2, 4],
        tuples: 1,
        numbers: &[1, 0],
        told: Told {
            code: 11,
            ..NOTHING
        },
        ..STORED
    },
    Row {
        name: "too few bytes",
        call: Call::ReadPieces,
        ranges: &[0, 2, 3, 4],
        value: &[1, 2],
        tuples: 1,
        numbers: &[0, 0],
        told: Told { code: 3, ..NOTHING },
        ..STORED
    },
    Row {
        name: "ranges that touch",
        call: Call::ReadPieces,
        ranges: &[0, 1, 1, 2],
        value: &[1, 2],
        tuples: 1,
        numbers: &[0, 0],
        told: Told {
            code: 30,
            ..NOTHING
        },
        ..STORED
    },
    Row {
        name: "a range that ends behind the value",
        call: Call::ReadPieces,
        ranges: &[3, 5],
        value: &[4, 5],
        tuples: 1,
        numbers: &[1, 1],
        told: Told {
            code: 30,
            ..NOTHING
        },
        ..STORED
    },
];

/// What a read of a value plans, whatever is stored.
pub(crate) const PLANS: &'static [Row] = &[
    Row {
        name: "ranges are joined",
        call: Call::PlannedRanges,
        tuples: 4,
        numbers: &[1, 1, 0, 0, 0, 1, 0, 0],
        told: Told {
            numbers: &[0, 2, 3, 4],
            needed: (0, 4, 0),
            ..NOTHING
        },
        ..STORED
    },
    Row {
        name: "ranges without room",
        call: Call::PlannedRanges,
        tuples: 4,
        numbers: &[1, 1, 0, 0, 0, 1, 0, 0],
        room: 0,
        told: Told {
            code: 1,
            needed: (0, 4, 0),
            ..NOTHING
        },
        ..STORED
    },
    Row {
        name: "nothing under codecs of bytes",
        call: Call::PlannedRanges,
        header: SUMMED,
        numbers: &[0, 0, 1, 1],
        told: Told {
            is_planned: false,
            ..NOTHING
        },
        ..STORED
    },
];
