//! Each call of a row over a chain that is kept: it returns what the call with the header does.

use crate::calls::{Room, has_memory, holds, is, make_room};
use crate::part_rows::{PARTS, PIECES, PLANS};
use crate::round_rows::ROUNDS;
use crate::rows::{BOX, Call, FOUR, Row, SUMMED};
use crate::whole_rows::WHOLE;
use crate::write_rows::WRITES;
use std::alloc::{AllocError, Global};
use std::process::Abort;
use zarrs_c_calls::{
    EditSize, Sizes, zarrs_chain_decode, zarrs_chain_edit, zarrs_chain_encode, zarrs_chain_free,
    zarrs_chain_lacking, zarrs_chain_new, zarrs_chain_planned_ranges, zarrs_chain_read,
    zarrs_chain_read_many, zarrs_chain_read_pieces, zarrs_chain_reencode,
    zarrs_chain_representation, zarrs_chain_share, zarrs_chain_write,
};
use zarrs_kept_chains::KeptChain;

fn encode(
    alloc: Global,
    chain: &mut KeptChain,
    row: &Row,
    out: &mut [u8],
    needed: &mut usize,
) -> u32 {
    zarrs_chain_encode(alloc, chain, row.masks, row.offsets, row.bytes, out, needed)
}

fn reencode(
    alloc: Global,
    chain: &mut KeptChain,
    row: &Row,
    out: &mut [u8],
    needed: &mut usize,
) -> u32 {
    let codecs = row.codecs.as_bytes();
    zarrs_chain_reencode(alloc, chain, row.value, codecs, out, needed)
}

fn write(
    alloc: Global,
    chain: &mut KeptChain,
    row: &Row,
    out: &mut [u8],
    needed: &mut usize,
) -> u32 {
    zarrs_chain_write(
        alloc,
        chain,
        row.is_stored,
        row.value,
        row.tuples,
        row.numbers,
        row.masks,
        row.offsets,
        row.bytes,
        out,
        needed,
    )
}

fn decode(
    alloc: Global,
    chain: &mut KeptChain,
    row: &Row,
    masks: &mut [u8],
    offsets: &mut [u64],
    bytes: &mut [u8],
    needed: &mut Sizes,
) -> u32 {
    zarrs_chain_decode(alloc, chain, row.value, masks, offsets, bytes, needed)
}

fn read(
    alloc: Global,
    chain: &mut KeptChain,
    row: &Row,
    masks: &mut [u8],
    offsets: &mut [u64],
    bytes: &mut [u8],
    needed: &mut Sizes,
) -> u32 {
    zarrs_chain_read(
        alloc,
        chain,
        row.is_stored,
        row.value,
        row.tuples,
        row.numbers,
        masks,
        offsets,
        bytes,
        needed,
    )
}

fn read_many(
    alloc: Global,
    chain: &mut KeptChain,
    row: &Row,
    masks: &mut [u8],
    offsets: &mut [u64],
    bytes: &mut [u8],
    needed: &mut Sizes,
) -> u32 {
    zarrs_chain_read_many(
        alloc,
        chain,
        row.is_stored,
        row.value,
        row.selections,
        row.numbers,
        masks,
        offsets,
        bytes,
        needed,
    )
}

fn read_pieces(
    alloc: Global,
    chain: &mut KeptChain,
    row: &Row,
    masks: &mut [u8],
    offsets: &mut [u64],
    bytes: &mut [u8],
    needed: &mut Sizes,
) -> u32 {
    zarrs_chain_read_pieces(
        alloc,
        chain,
        row.len,
        row.ranges,
        row.value,
        row.tuples,
        row.numbers,
        masks,
        offsets,
        bytes,
        needed,
    )
}

fn lacking(
    alloc: Global,
    chain: &mut KeptChain,
    row: &Row,
    out: &mut [u64],
    needed: &mut usize,
) -> u32 {
    zarrs_chain_lacking(
        alloc,
        chain,
        row.len,
        row.ranges,
        row.value,
        row.tuples,
        row.numbers,
        out,
        needed,
    )
}

fn planned(
    alloc: Global,
    chain: &mut KeptChain,
    row: &Row,
    out: &mut [u64],
    is_planned: &mut bool,
    needed: &mut usize,
) -> u32 {
    zarrs_chain_planned_ranges(
        alloc,
        chain,
        row.tuples,
        row.numbers,
        out,
        is_planned,
        needed,
    )
}

/// The row's call, over a chain that is kept.
fn call(alloc: Global, chain: &mut KeptChain, row: &Row, room: &mut Room) -> u32 {
    let Room {
        masks,
        numbers,
        bytes,
        needed,
        is_planned,
    } = room;
    let bytes = bytes.get_mut(..row.room).unwrap_or(&mut []);
    let ranges = row.room.min(8);
    match row.call {
        Call::Encode => encode(alloc, chain, row, bytes, &mut needed.bytes),
        Call::Reencode => reencode(alloc, chain, row, bytes, &mut needed.bytes),
        Call::Write => write(alloc, chain, row, bytes, &mut needed.bytes),
        Call::Decode => decode(alloc, chain, row, masks, numbers, bytes, needed),
        Call::Read => read(alloc, chain, row, masks, numbers, bytes, needed),
        Call::ReadMany => read_many(alloc, chain, row, masks, numbers, bytes, needed),
        Call::ReadPieces => read_pieces(alloc, chain, row, masks, numbers, bytes, needed),
        Call::Lacking => lacking(
            alloc,
            chain,
            row,
            numbers.get_mut(..ranges).unwrap_or(&mut []),
            &mut needed.offsets,
        ),
        Call::PlannedRanges => planned(
            alloc,
            chain,
            row,
            numbers.get_mut(..ranges).unwrap_or(&mut []),
            is_planned,
            &mut needed.offsets,
        ),
    }
}

/// The code of a row's call over the chain of its header; that of the header, where it keeps none.
fn call_kept(alloc: Global, row: &Row, room: &mut Room) -> u32 {
    let mut chain = KeptChain::none(alloc);
    let made = zarrs_chain_new(alloc, row.header.as_bytes(), &mut chain);
    let code = if made == 0 {
        call(alloc, &mut chain, row, room)
    } else {
        made
    };
    zarrs_chain_free(alloc, &mut chain);
    drop(chain.into_kept());
    code
}

fn tells(rt: &impl Abort, alloc: Global, row: &Row) -> Result<(), AllocError> {
    let mut room = make_room();
    let code = has_memory(call_kept(alloc, row, &mut room))?;
    is(rt, row.name, &code, &row.told.code);
    holds(rt, row.name, &room, &row.told);
    Ok(())
}

fn all_tell(rt: &impl Abort, alloc: Global, rows: &[Row]) -> Result<(), AllocError> {
    for row in rows.iter() {
        tells(rt, alloc, row)?;
    }
    Ok(())
}

#[test]
fn kept_chains_return_what_headers_do(rt: HostRuntime) -> Result<(), AllocError> {
    for rows in [WHOLE, PARTS, PIECES, PLANS, ROUNDS, WRITES].iter() {
        all_tell(&rt, rt.alloc(), rows)?;
    }
    Ok(())
}

/// How many bytes a value has by a chain.
fn size_by(rt: &impl Abort, alloc: Global, chain: &mut KeptChain) -> Result<u64, AllocError> {
    let (mut kind, mut size) = (7, 7);
    let code = zarrs_chain_representation(alloc, chain, &mut kind, &mut size);
    is(rt, "measured", &has_memory(code)?, &0);
    Ok(size)
}

/// The second chain that is kept stays behind a bad header; it is shared, and outlives the first handle.
fn keep_and_share(
    rt: &impl Abort,
    alloc: Global,
    chain: &mut KeptChain,
    other: &mut KeptChain,
) -> Result<(), AllocError> {
    let code = zarrs_chain_new(alloc, FOUR.as_bytes(), chain);
    is(rt, "kept", &has_memory(code)?, &0);
    is(rt, "bytes", &size_by(rt, alloc, chain)?, &4);
    let code = zarrs_chain_new(alloc, SUMMED.as_bytes(), chain);
    is(rt, "kept in its place", &has_memory(code)?, &0);
    let code = zarrs_chain_new(alloc, b"{}".as_slice(), chain);
    is(rt, "no header", &has_memory(code)?, &2);
    is(rt, "bytes and checksum", &size_by(rt, alloc, chain)?, &8);
    let code = zarrs_chain_share(alloc, chain, other);
    is(rt, "shared", &has_memory(code)?, &0);
    zarrs_chain_free(alloc, chain);
    is(rt, "of the other", &size_by(rt, alloc, other)?, &8);
    let code = zarrs_chain_share(alloc, chain, other);
    is(rt, "none is kept", &has_memory(code)?, &3);
    is(rt, "of the other still", &size_by(rt, alloc, other)?, &8);
    Ok(())
}

#[test]
fn chains_are_kept_and_shared(rt: HostRuntime) -> Result<(), AllocError> {
    let alloc = rt.alloc();
    let (mut chain, mut other) = (KeptChain::none(alloc), KeptChain::none(alloc));
    let done = keep_and_share(&rt, alloc, &mut chain, &mut other);
    drop(chain.into_kept());
    drop(other.into_kept());
    done
}

/// A column of a value, edited by a chain.
fn edit_column(alloc: Global, chain: &mut KeptChain, value: &mut [u8], done: &mut usize) -> u32 {
    let sizes = &[EditSize {
        tuples: BOX,
        numbers: 4,
        bytes: 2,
    }];
    let made = zarrs_chain_new(alloc, FOUR.as_bytes(), chain);
    if made != 0 {
        return made;
    }
    zarrs_chain_edit(alloc, chain, value, sizes, &[0, 0, 2, 1], &[5, 6], done)
}

#[test]
fn a_value_is_edited_by_a_kept_chain(rt: HostRuntime) -> Result<(), AllocError> {
    let alloc = rt.alloc();
    let mut chain = KeptChain::none(alloc);
    let (mut value, mut done) = ([1u8, 2, 3, 4], 0);
    let code = edit_column(alloc, &mut chain, &mut value, &mut done);
    drop(chain.into_kept());
    is(&rt, "done", &has_memory(code)?, &0);
    is(&rt, "edits", &done, &1);
    is(&rt, "value", &value, &[5, 2, 6, 4]);
    Ok(())
}
