//! The texts of keys.

use crate::checks::is;
use std::alloc::{AllocError, Global};
use std::process::Abort;
use zarrs_array_plan::ChunkKeyEncoding::{self, Default, V2};
use zarrs_array_plan::ChunkKeySeparator::{Dot, Slash};

/// A way to make keys, the indices of a chunk, and its key.
struct Row {
    name: &'static str,
    encoding: ChunkKeyEncoding,
    chunk: &'static [u64],
    key: &'static str,
}

const DEFAULT: &'static [Row] = &[
    Row {
        name: "slashes",
        encoding: Default(Slash),
        chunk: &[1, 2],
        key: "c/1/2",
    },
    Row {
        name: "dots",
        encoding: Default(Dot),
        chunk: &[1, 2],
        key: "c.1.2",
    },
    Row {
        name: "no axes",
        encoding: Default(Slash),
        chunk: &[],
        key: "c",
    },
    Row {
        name: "no axes, dots",
        encoding: Default(Dot),
        chunk: &[],
        key: "c",
    },
    Row {
        name: "great and small",
        encoding: Default(Slash),
        chunk: &[0, 18446744073709551615, 10],
        key: "c/0/18446744073709551615/10",
    },
];

const OF_V2: &'static [Row] = &[
    Row {
        name: "dots",
        encoding: V2(Dot),
        chunk: &[1, 2],
        key: "1.2",
    },
    Row {
        name: "slashes",
        encoding: V2(Slash),
        chunk: &[1, 2],
        key: "1/2",
    },
    Row {
        name: "no axes",
        encoding: V2(Dot),
        chunk: &[],
        key: "0",
    },
    Row {
        name: "one axis",
        encoding: V2(Slash),
        chunk: &[0],
        key: "0",
    },
];

fn is_key(rt: &impl Abort, alloc: Global, row: &Row) -> Result<(), AllocError> {
    let key = row.encoding.encode(alloc, row.chunk)?;
    is(rt, row.name, &key.as_str(), &row.key);
    Ok(())
}

#[test]
fn keys_of_default(rt: HostRuntime) -> Result<(), AllocError> {
    for row in DEFAULT.iter() {
        is_key(&rt, rt.alloc(), row)?;
    }
    Ok(())
}

#[test]
fn keys_of_v2(rt: HostRuntime) -> Result<(), AllocError> {
    for row in OF_V2.iter() {
        is_key(&rt, rt.alloc(), row)?;
    }
    Ok(())
}
