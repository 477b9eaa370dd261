//! Plans of regions as they cross.

use crate::calls::{has_memory, is};
use std::alloc::{AllocError, Global};
use std::fmt::Debug;
use std::process::Abort;
use zarrs_array_calls::{PlanSizes, zarrs_array_plan};

/// What is given, and what comes: the code, the keys, where they end, and the numbers of all parts.
struct Row {
    name: &'static str,
    shape: &'static [u64],
    chunk: &'static [u64],
    encoding: u32,
    separator: u32,
    region: &'static [u64],
    code: u32,
    keys: &'static str,
    offsets: &'static [u64],
    numbers: &'static [u64],
}

const DEFAULT: u32 = 0;

const V2: u32 = 1;

const SLASH: u32 = 47;

const DOT: u32 = 46;

const ROWS: &'static [Row] = &[
    Row {
        name: "a region in four chunks",
        shape: &[4, 5],
        chunk: &[2, 3],
        encoding: DEFAULT,
        separator: SLASH,
        region: &[1, 2, 3, 3],
        code: 0,
        keys: "c/0/0c/0/1c/1/0c/1/1",
        offsets: &[0, 5, 10, 15, 20],
        numbers: &[
            0, 0, 1, 2, 1, 1, 0, 0, 0, 1, 1, 0, 1, 2, 0, 1, 1, 0, 0, 2, 2, 1, 1, 0, 1, 1, 0, 0, 2,
            2, 1, 1,
        ],
    },
    Row {
        name: "keys of v2",
        shape: &[2, 20],
        chunk: &[2, 1],
        encoding: V2,
        separator: DOT,
        region: &[0, 9, 1, 2],
        code: 0,
        keys: "0.90.10",
        offsets: &[0, 3, 7],
        numbers: &[0, 9, 0, 0, 1, 1, 0, 0, 0, 10, 0, 0, 1, 1, 0, 1],
    },
    Row {
        name: "no axes",
        shape: &[],
        chunk: &[],
        encoding: V2,
        separator: SLASH,
        region: &[],
        code: 0,
        keys: "0",
        offsets: &[0, 1],
        numbers: &[],
    },
    Row {
        name: "an empty region",
        shape: &[4, 0],
        chunk: &[2, 3],
        encoding: DEFAULT,
        separator: SLASH,
        region: &[0, 0, 4, 0],
        code: 0,
        keys: "",
        offsets: &[0],
        numbers: &[],
    },
    Row {
        name: "no key encoding",
        shape: &[4],
        chunk: &[0],
        encoding: 2,
        separator: SLASH,
        region: &[0, 9],
        code: 3,
        keys: "",
        offsets: &[],
        numbers: &[],
    },
    Row {
        name: "no separator",
        shape: &[4],
        chunk: &[2],
        encoding: DEFAULT,
        separator: 0,
        region: &[0, 4],
        code: 3,
        keys: "",
        offsets: &[],
        numbers: &[],
    },
    Row {
        name: "a size of zero",
        shape: &[4, 4],
        chunk: &[0],
        encoding: DEFAULT,
        separator: SLASH,
        region: &[0, 9],
        code: 56,
        keys: "",
        offsets: &[],
        numbers: &[],
    },
    Row {
        name: "an axis more than a chunk",
        shape: &[4, 4],
        chunk: &[2],
        encoding: DEFAULT,
        separator: SLASH,
        region: &[0, 9, 1],
        code: 16,
        keys: "",
        offsets: &[],
        numbers: &[],
    },
    Row {
        name: "a start without a length",
        shape: &[4],
        chunk: &[2],
        encoding: DEFAULT,
        separator: SLASH,
        region: &[0, 9, 1],
        code: 3,
        keys: "",
        offsets: &[],
        numbers: &[],
    },
    Row {
        name: "behind the end",
        shape: &[4],
        chunk: &[2],
        encoding: DEFAULT,
        separator: SLASH,
        region: &[2, 3],
        code: 17,
        keys: "",
        offsets: &[],
        numbers: &[],
    },
    Row {
        name: "a range past 64 bits",
        shape: &[4],
        chunk: &[2],
        encoding: DEFAULT,
        separator: SLASH,
        region: &[2, 18446744073709551615],
        code: 18,
        keys: "",
        offsets: &[],
        numbers: &[],
    },
];

/// The caller's buffers, which begin with a pattern.
#[derive(Drop)]
struct Room {
    keys: [u8; 32],
    offsets: [u64; 8],
    numbers: [u64; 40],
    needed: PlanSizes,
}

fn make_room() -> Room {
    Room {
        keys: [255; 32],
        offsets: [255; 8],
        numbers: [255; 40],
        needed: PlanSizes {
            chunks: 9,
            keys: 9,
            offsets: 9,
            numbers: 9,
        },
    }
}

/// The call of a row, with room for so many keys' bytes.
fn plan(alloc: Global, row: &Row, keys: usize, room: &mut Room) -> u32 {
    zarrs_array_plan(
        alloc,
        row.shape,
        row.chunk,
        row.encoding,
        row.separator,
        row.region,
        room.keys.get_mut(..keys).unwrap_or(&mut []),
        &mut room.offsets,
        &mut room.numbers,
        &mut room.needed,
    )
}

fn are_sizes(rt: &impl Abort, row: &Row, came: &PlanSizes) {
    is(
        rt,
        row.name,
        &came.chunks.checked_add(1),
        &Some(row.offsets.len()),
    );
    is(rt, row.name, &came.keys, &row.keys.len());
    is(rt, row.name, &came.offsets, &row.offsets.len());
    is(rt, row.name, &came.numbers, &row.numbers.len());
}

fn is_front<T: PartialEq + Debug>(rt: &impl Abort, name: &str, came: &[T], wanted: &[T]) {
    is(rt, name, &came.get(..wanted.len()), &Some(wanted));
}

fn is_told(rt: &impl Abort, alloc: Global, row: &Row) -> Result<(), AllocError> {
    let mut room = make_room();
    let code = has_memory(plan(alloc, row, 32, &mut room))?;
    is(rt, row.name, &code, &row.code);
    if code != 0 {
        is(rt, row.name, &room.needed.chunks, &9);
        return Ok(());
    }
    are_sizes(rt, row, &room.needed);
    is_front(rt, row.name, &room.keys, row.keys.as_bytes());
    is_front(rt, row.name, &room.offsets, row.offsets);
    is_front(rt, row.name, &room.numbers, row.numbers);
    Ok(())
}

#[test]
fn plans_are_told(rt: HostRuntime) -> Result<(), AllocError> {
    for row in ROWS.iter() {
        is_told(&rt, rt.alloc(), row)?;
    }
    Ok(())
}

/// Where a byte of a key has no room, no buffer is written.
#[test]
fn a_short_buffer(rt: HostRuntime) -> Result<(), AllocError> {
    let mut room = make_room();
    let code = has_memory(plan(rt.alloc(), &ROWS[0], 19, &mut room))?;
    is(&rt, "short", &code, &1);
    are_sizes(&rt, &ROWS[0], &room.needed);
    is_front(&rt, "keys", &room.keys, &[255]);
    is_front(&rt, "offsets", &room.offsets, &[255]);
    is_front(&rt, "numbers", &room.numbers, &[255]);
    Ok(())
}
