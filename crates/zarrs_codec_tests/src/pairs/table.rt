//! Tables: which pairs make one, and what is found in it from either side.
use super::{zstd, zstd_table};
use crate::checks::is;
use std::alloc::Global;
use std::process::Abort;
use zarrs_chunk::CodecError;
use zarrs_pairs::{Pair, PairsTable};

/// Pairs, and whether they make a table.
struct Row {
    name: &'static str,
    pairs: &'static [Pair<'static>],
    one_to_one: bool,
}

const ROWS: &'static [Row] = &[
    Row {
        name: "no pairs",
        pairs: &[],
        one_to_one: true,
    },
    Row {
        name: "the same pair twice",
        pairs: &[
            Pair {
                decoded: &[1, 2],
                encoded: &[7],
            },
            Pair {
                decoded: &[1, 3],
                encoded: &[8],
            },
            Pair {
                decoded: &[1, 2],
                encoded: &[7],
            },
        ],
        one_to_one: true,
    },
    Row {
        name: "sides that stand in other pairs as well",
        pairs: &[
            Pair {
                decoded: &[2],
                encoded: &[1],
            },
            Pair {
                decoded: &[1],
                encoded: &[2],
            },
        ],
        one_to_one: true,
    },
    Row {
        name: "two encodings",
        pairs: &[
            Pair {
                decoded: &[1, 2],
                encoded: &[7],
            },
            Pair {
                decoded: &[1, 3],
                encoded: &[8],
            },
            Pair {
                decoded: &[1, 2],
                encoded: &[9],
            },
        ],
        one_to_one: false,
    },
    Row {
        name: "an encoding of two",
        pairs: &[
            Pair {
                decoded: &[1, 2],
                encoded: &[7],
            },
            Pair {
                decoded: &[],
                encoded: &[8],
            },
            Pair {
                decoded: &[1, 3],
                encoded: &[7],
            },
        ],
        one_to_one: false,
    },
];

fn is_made(rt: &impl Abort, alloc: Global, row: &Row) -> Result<(), CodecError> {
    let table = PairsTable::new(alloc, row.pairs, zstd(alloc)?)?;
    is(rt, row.name, &table.is_some(), &row.one_to_one);
    Ok(())
}

#[test]
fn clashes_are_rejected(rt: HostRuntime) -> Result<(), CodecError> {
    for row in ROWS.iter() {
        is_made(&rt, rt.alloc(), row)?;
    }
    Ok(())
}

/// Bytes, what they are encoded as, and what they are decoded to.
struct Found {
    name: &'static str,
    bytes: &'static [u8],
    encoded: Option<&'static [u8]>,
    decoded: Option<&'static [u8]>,
}

const PAIRS: &'static [Pair<'static>] = &[
    Pair {
        decoded: &[3, 4],
        encoded: &[200, 2, 7],
    },
    Pair {
        decoded: &[1, 2],
        encoded: &[200, 1],
    },
    Pair {
        decoded: &[],
        encoded: &[3, 4],
    },
    Pair {
        decoded: &[1, 2, 0],
        encoded: &[],
    },
];

const FOUND: &'static [Found] = &[
    Found {
        name: "a decoded side",
        bytes: &[1, 2],
        encoded: Some(&[200, 1]),
        decoded: None,
    },
    Found {
        name: "an encoded side",
        bytes: &[200, 2, 7],
        encoded: None,
        decoded: Some(&[3, 4]),
    },
    Found {
        name: "a side of either kind",
        bytes: &[3, 4],
        encoded: Some(&[200, 2, 7]),
        decoded: Some(&[]),
    },
    Found {
        name: "no bytes",
        bytes: &[],
        encoded: Some(&[3, 4]),
        decoded: Some(&[1, 2, 0]),
    },
    Found {
        name: "the first bytes of a side",
        bytes: &[200],
        encoded: None,
        decoded: None,
    },
    Found {
        name: "as many bytes, others",
        bytes: &[1, 3],
        encoded: None,
        decoded: None,
    },
];

fn is_found(rt: &impl Abort, table: &PairsTable<'static>, row: &Found) {
    let encoded = table.encoded_of(row.bytes);
    is(rt, row.name, &encoded, &row.encoded);
    let decoded = table.decoded_of(row.bytes);
    is(rt, row.name, &decoded, &row.decoded);
}

#[test]
fn bytes_are_looked_up(rt: HostRuntime) -> Result<(), CodecError> {
    let table = zstd_table(rt.alloc(), PAIRS)?;
    for row in FOUND.iter() {
        is_found(&rt, &table, row);
    }
    Ok(())
}
