//! Each call of a row, and what it returns.

use crate::part_rows::{PARTS, PIECES, PLANS};
use crate::round_rows::ROUNDS;
use crate::rows::{Call, Row, Told};
use crate::whole_rows::WHOLE;
use crate::write_rows::WRITES;
use std::alloc::{AllocError, Global};
use std::fmt::Debug;
use std::process::Abort;
use zarrs_c_calls::{
    Sizes, zarrs_decode, zarrs_encode, zarrs_lacking, zarrs_planned_ranges, zarrs_read,
    zarrs_read_many, zarrs_read_pieces, zarrs_reencode, zarrs_write,
};

/// What came is what is wanted.
pub(crate) fn is<T: PartialEq + Debug>(rt: &impl Abort, name: &str, came: &T, wanted: &T) {
    assert_eq!(rt; *came, *wanted, "{name}");
}

/// The caller's buffers: masks, numbers and bytes, and how many of them a call counts.
#[derive(Drop)]
pub(crate) struct Room {
    pub(crate) masks: [u8; 8],
    pub(crate) numbers: [u64; 8],
    pub(crate) bytes: [u8; 32],
    pub(crate) needed: Sizes,
    pub(crate) is_planned: bool,
}

pub(crate) fn make_room() -> Room {
    Room {
        masks: [255; 8],
        numbers: [255; 8],
        bytes: [255; 32],
        needed: Sizes {
            masks: 0,
            offsets: 0,
            bytes: 0,
        },
        is_planned: true,
    }
}

fn encode(alloc: Global, row: &Row, out: &mut [u8], needed: &mut usize) -> u32 {
    let header = row.header.as_bytes();
    zarrs_encode(
        alloc,
        header,
        row.masks,
        row.offsets,
        row.bytes,
        out,
        needed,
    )
}

fn reencode(alloc: Global, row: &Row, out: &mut [u8], needed: &mut usize) -> u32 {
    let (header, codecs) = (row.header.as_bytes(), row.codecs.as_bytes());
    zarrs_reencode(alloc, header, row.value, codecs, out, needed)
}

fn write(alloc: Global, row: &Row, out: &mut [u8], needed: &mut usize) -> u32 {
    zarrs_write(
        alloc,
        row.header.as_bytes(),
        row.is_stored,
        row.value,
        row.tuples,
        row.numbers,
        row.masks,
        row.offsets,
        row.bytes,
        out,
        needed,
    )
}

fn decode(
    alloc: Global,
    row: &Row,
    masks: &mut [u8],
    offsets: &mut [u64],
    bytes: &mut [u8],
    needed: &mut Sizes,
) -> u32 {
    let header = row.header.as_bytes();
    zarrs_decode(alloc, header, row.value, masks, offsets, bytes, needed)
}

fn read(
    alloc: Global,
    row: &Row,
    masks: &mut [u8],
    offsets: &mut [u64],
    bytes: &mut [u8],
    needed: &mut Sizes,
) -> u32 {
    zarrs_read(
        alloc,
        row.header.as_bytes(),
        row.is_stored,
        row.value,
        row.tuples,
        row.numbers,
        masks,
        offsets,
        bytes,
        needed,
    )
}

fn read_many(
    alloc: Global,
    row: &Row,
    masks: &mut [u8],
    offsets: &mut [u64],
    bytes: &mut [u8],
    needed: &mut Sizes,
) -> u32 {
    zarrs_read_many(
        alloc,
        row.header.as_bytes(),
        row.is_stored,
        row.value,
        row.selections,
        row.numbers,
        masks,
        offsets,
        bytes,
        needed,
    )
}

fn read_pieces(
    alloc: Global,
    row: &Row,
    masks: &mut [u8],
    offsets: &mut [u64],
    bytes: &mut [u8],
    needed: &mut Sizes,
) -> u32 {
    zarrs_read_pieces(
        alloc,
        row.header.as_bytes(),
        row.len,
        row.ranges,
        row.value,
        row.tuples,
        row.numbers,
        masks,
        offsets,
        bytes,
        needed,
    )
}

fn lacking(alloc: Global, row: &Row, out: &mut [u64], needed: &mut usize) -> u32 {
    zarrs_lacking(
        alloc,
        row.header.as_bytes(),
        row.len,
        row.ranges,
        row.value,
        row.tuples,
        row.numbers,
        out,
        needed,
    )
}

fn planned(
    alloc: Global,
    row: &Row,
    out: &mut [u64],
    is_planned: &mut bool,
    needed: &mut usize,
) -> u32 {
    let header = row.header.as_bytes();
    zarrs_planned_ranges(
        alloc,
        header,
        row.tuples,
        row.numbers,
        out,
        is_planned,
        needed,
    )
}

/// The row's call, over as much of the buffers as it has room for.
fn call(alloc: Global, row: &Row, room: &mut Room) -> u32 {
    let Room {
        masks,
        numbers,
        bytes,
        needed,
        is_planned,
    } = room;
    let bytes = bytes.get_mut(..row.room).unwrap_or(&mut []);
    let ranges = row.room.min(8);
    match row.call {
        Call::Encode => encode(alloc, row, bytes, &mut needed.bytes),
        Call::Reencode => reencode(alloc, row, bytes, &mut needed.bytes),
        Call::Write => write(alloc, row, bytes, &mut needed.bytes),
        Call::Decode => decode(alloc, row, masks, numbers, bytes, needed),
        Call::Read => read(alloc, row, masks, numbers, bytes, needed),
        Call::ReadMany => read_many(alloc, row, masks, numbers, bytes, needed),
        Call::ReadPieces => read_pieces(alloc, row, masks, numbers, bytes, needed),
        Call::Lacking => lacking(
            alloc,
            row,
            numbers.get_mut(..ranges).unwrap_or(&mut []),
            &mut needed.offsets,
        ),
        Call::PlannedRanges => planned(
            alloc,
            row,
            numbers.get_mut(..ranges).unwrap_or(&mut []),
            is_planned,
            &mut needed.offsets,
        ),
    }
}

/// The items at the front of a buffer.
fn front<T>(items: &[T], count: usize) -> &[T] {
    items.get(..count).unwrap_or(items)
}

/// What stands in the buffers is what the row says.
pub(crate) fn holds(rt: &impl Abort, name: &str, room: &Room, told: &Told) {
    let needed = (room.needed.masks, room.needed.offsets, room.needed.bytes);
    is(rt, name, &needed, &told.needed);
    is(rt, name, &room.is_planned, &told.is_planned);
    is(rt, name, &front(&room.masks, told.masks.len()), &told.masks);
    is(
        rt,
        name,
        &front(&room.numbers, told.numbers.len()),
        &told.numbers,
    );
    is(rt, name, &front(&room.bytes, told.bytes.len()), &told.bytes);
}

/// The code of a lack of memory is an error of the test.
pub(crate) fn has_memory(code: u32) -> Result<u32, AllocError> {
    if code == 10 {
        return Err(AllocError);
    }
    Ok(code)
}

fn tells(rt: &impl Abort, alloc: Global, row: &Row) -> Result<(), AllocError> {
    let mut room = make_room();
    let code = has_memory(call(alloc, row, &mut room))?;
    is(rt, row.name, &code, &row.told.code);
    holds(rt, row.name, &room, &row.told);
    Ok(())
}

fn all_tell(rt: &impl Abort, alloc: Global, rows: &[Row]) -> Result<(), AllocError> {
    for row in rows.iter() {
        tells(rt, alloc, row)?;
    }
    Ok(())
}

#[test]
fn chunks_cross_both_ways(rt: HostRuntime) -> Result<(), AllocError> {
    all_tell(&rt, rt.alloc(), WHOLE)
}

#[test]
fn parts_are_read(rt: HostRuntime) -> Result<(), AllocError> {
    all_tell(&rt, rt.alloc(), PARTS)
}

#[test]
fn fetched_pieces_are_read(rt: HostRuntime) -> Result<(), AllocError> {
    all_tell(&rt, rt.alloc(), PIECES)
}

#[test]
fn ranges_are_planned(rt: HostRuntime) -> Result<(), AllocError> {
    all_tell(&rt, rt.alloc(), PLANS)
}

#[test]
fn what_a_round_lacks_is_told(rt: HostRuntime) -> Result<(), AllocError> {
    all_tell(&rt, rt.alloc(), ROUNDS)
}

#[test]
fn parts_are_written(rt: HostRuntime) -> Result<(), AllocError> {
    all_tell(&rt, rt.alloc(), WRITES)
}
