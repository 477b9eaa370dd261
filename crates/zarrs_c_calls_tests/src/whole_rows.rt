//! Chunks that cross as a whole, both ways.

use crate::rows::{Call, NOTHING, Row, STORED, Told};

/// Words with turned axes, the highest byte first.
const TURNED: &'static str =
    r#"{"shape":[2,3],"data_type":"uint16","fill_value":"0000","codecs":[{"name":"transpose","configuration":{"order":[1,0]}},{"name":"bytes","configuration":{"endian":"big"}}]}"#;

const NO_AXES: &'static str =
    r#"{"shape":[],"data_type":"uint8","fill_value":"00","codecs":["bytes"]}"#;

pub(crate) const TEXTS: &'static str =
    r#"{"shape":[3],"data_type":"string","fill_value":"","codecs":[{"name":"zarrs.vlen","configuration":{"index_codecs":[{"name":"bytes","configuration":{"endian":"little"}}],"data_codecs":["bytes"],"index_data_type":"uint32","index_location":"start"}}]}"#;

/// The texts "ab", "" and "c", as they are stored.
pub(crate) const AB_AND_C: &'static [u8] = &[
    16, 0, 0, 0, 0, 0, 0, 0, 0, 0, 0, 0, 2, 0, 0, 0, 2, 0, 0, 0, 3, 0, 0, 0, 97, 98, 99,
];

const OPTIONAL: &'static str =
    r#"{"shape":[3],"data_type":{"optional":"uint8"},"fill_value":"00","codecs":[{"name":"optional","configuration":{"mask_codecs":["bytes"],"data_codecs":["bytes"]}}]}"#;

/// The bytes 5 and 6, and between them an absent one, as they are stored.
const FIVE_AND_SIX: &'static [u8] = &[
    3, 0, 0, 0, 0, 0, 0, 0, 2, 0, 0, 0, 0, 0, 0, 0, 1, 0, 1, 5, 6,
];

pub(crate) const WHOLE: &'static [Row] = &[
    Row {
        name: "words are written",
        call: Call::Encode,
        header: TURNED,
        bytes: &[1, 0, 2, 0, 3, 0, 4, 0, 5, 0, 6, 0],
        told: Told {
            bytes: &[0, 1, 0, 4, 0, 2, 0, 5, 0, 3, 0, 6],
            needed: (0, 0, 12),
            ..NOTHING
        },
        ..STORED
    },
    Row {
        name: "words are read",
        call: Call::Decode,
        header: TURNED,
        value: &[0, 1, 0, 4, 0, 2, 0, 5, 0, 3, 0, 6],
        told: Told {
            bytes: &[1, 0, 2, 0, 3, 0, 4, 0, 5, 0, 6, 0],
            needed: (0, 0, 12),
            ..NOTHING
        },
        ..STORED
    },
    Row {
        name: "one element of no axis",
        call: Call::Encode,
        header: NO_AXES,
        bytes: &[7],
        told: Told {
            bytes: &[7],
            needed: (0, 0, 1),
            ..NOTHING
        },
        ..STORED
    },
    Row {
        name: "texts are written",
        call: Call::Encode,
        header: TEXTS,
        offsets: &[0, 2, 2, 3],
        bytes: b"abc",
        told: Told {
            bytes: AB_AND_C,
            needed: (0, 0, 27),
            ..NOTHING
        },
        ..STORED
    },
    Row {
        name: "texts are written without room",
        call: Call::Encode,
        header: TEXTS,
        offsets: &[0, 2, 2, 3],
        bytes: b"abc",
        room: 0,
        told: Told {
            code: 1,
            needed: (0, 0, 27),
            ..NOTHING
        },
        ..STORED
    },
    Row {
        name: "texts are read",
        call: Call::Decode,
        header: TEXTS,
        value: AB_AND_C,
        told: Told {
            numbers: &[0, 2, 2, 3],
            bytes: b"abc",
            needed: (0, 4, 3),
            ..NOTHING
        },
        ..STORED
    },
    Row {
        name: "texts are read without room",
        call: Call::Decode,
        header: TEXTS,
        value: AB_AND_C,
        room: 2,
        told: Told {
            code: 1,
            needed: (0, 4, 3),
            ..NOTHING
        },
        ..STORED
    },
    Row {
        name: "texts of a value that is damaged",
        call: Call::Decode,
        header: TEXTS,
        value: &[],
        told: Told {
            code: 15,
            ..NOTHING
        },
        ..STORED
    },
    Row {
        name: "the second one absent, written",
        call: Call::Encode,
        header: OPTIONAL,
        masks: &[1, 0, 1],
        bytes: &[5, 0, 6],
        told: Told {
            bytes: FIVE_AND_SIX,
            needed: (0, 0, 21),
            ..NOTHING
        },
        ..STORED
    },
    Row {
        name: "the second one absent, read",
        call: Call::Decode,
        header: OPTIONAL,
        value: FIVE_AND_SIX,
        told: Told {
            masks: &[1, 0, 1],
            bytes: &[5, 0, 6],
            needed: (3, 0, 3),
            ..NOTHING
        },
        ..STORED
    },
    Row {
        name: "a value by another chain",
        call: Call::Reencode,
        codecs: r#"["bytes","crc32c"]"#,
        told: Told {
            bytes: &[1, 2, 3, 4, 0xf4, 0x8c, 0x30, 0x29],
            needed: (0, 0, 8),
            ..NOTHING
        },
        ..STORED
    },
];
