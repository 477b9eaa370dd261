//! Components turned round: from little endian, as they are in memory, to big endian, or back.
//!
//! A loop of single swaps would be built byte by byte, so the bytes are turned in groups whose
//! swaps are all constants, which compile to one shuffle of a register.
ghost use Rattle.std.specs.Prelude.{◌≡◌, ◌<◌, ◌*◌, ◌/◌, length, IfOk, Ok, Some, None, IsOk, reverse, true};
ghost use Rattle.zarrs_chunk.specs.Answer.{Appends, Gives, seen};
ghost use Rattle.zarrs_array_bytes.specs.Held.{flen, items_of, owned_bytes, raw_of};
ghost use Rattle.zarrs_array_bytes.specs.Turned.{turned_bytes};

use crate::array_bytes::ArrayBytes;
use crate::array_bytes_raw::ArrayBytesRaw;
use std::alloc::{AllocError, Global};
use std::borrow::CowSlice;
use zarrs_chunk::CodecError;

/// How many bytes a group has: as many as a register.
const GROUP: usize = 16;

/// How many bytes are copied before they are turned round: few enough that they are still in the
/// nearest cache then.
const BLOCK: usize = 3072;

/// Turns a piece round. Pieces of 2, 3, 4 and 8 bytes are swapped pair by pair, which compiles to
/// a few moves where the size is known.
#[inline(always)]
fn reverse_piece(piece: &mut [u8])
    ensures written { piece.new ≡ reverse piece.old }
{
    match piece.len() {
        2 => piece.swap(0, 1),
        3 => piece.swap(0, 2),
        4 => {
            piece.swap(0, 3);
            piece.swap(1, 2);
        }
        8 => {
            piece.swap(0, 7);
            piece.swap(1, 6);
            piece.swap(2, 5);
            piece.swap(3, 4);
        }
        _ => piece.reverse(),
    }
}

/// Turns each piece of `size` bytes round, one after another. What is left over stays.
#[inline(always)]
fn reverse_pieces(bytes: &mut [u8], size: usize)
    requires sized { 0 < size }
    ensures written { bytes.new ≡ turned_bytes (Some size) bytes.old }
{
    for index in 0..bytes.len() / size {
        let start = index * size;
        reverse_piece(&mut bytes[start..start + size]);
    }
}

/// Turns each piece of `size` bytes of a group round. Pieces of 2, 4 and 8 bytes are swapped pair
/// by pair, which compiles to one shuffle of the whole where the size is known.
#[inline(always)]
fn reverse_group(group: &mut [u8], size: usize)
    requires len { length group.now ≡ 16 }
    requires sized { 0 < size }
    ensures written { group.new ≡ turned_bytes (Some size) group.old }
{
    match size {
        2 => {
            group.swap(0, 1);
            group.swap(2, 3);
            group.swap(4, 5);
            group.swap(6, 7);
            group.swap(8, 9);
            group.swap(10, 11);
            group.swap(12, 13);
            group.swap(14, 15);
        }
        4 => {
            group.swap(0, 3);
            group.swap(1, 2);
            group.swap(4, 7);
            group.swap(5, 6);
            group.swap(8, 11);
            group.swap(9, 10);
            group.swap(12, 15);
            group.swap(13, 14);
        }
        8 => {
            group.swap(0, 7);
            group.swap(1, 6);
            group.swap(2, 5);
            group.swap(3, 4);
            group.swap(8, 15);
            group.swap(9, 14);
            group.swap(10, 13);
            group.swap(11, 12);
        }
        _ => reverse_pieces(group, size),
    }
}

/// Turns each piece of `size` bytes round, a group at a time, and those left over one by one.
#[inline(always)]
fn reverse_groups(bytes: &mut [u8], size: usize)
    requires sized { 0 < size }
    requires divides { 16 / size * size ≡ 16 }
    ensures written { bytes.new ≡ turned_bytes (Some size) bytes.old }
{
    let groups = bytes.len() / GROUP;
    for index in 0..groups {
        let start = index * GROUP;
        reverse_group(&mut bytes[start..start + GROUP], size);
    }
    reverse_pieces(&mut bytes[groups * GROUP..], size);
}

/// Turns each piece of `size` bytes round. What is left over stays. The usual sizes are constants
/// here, so that each gets a loop of its own.
#[inline(always)]
fn reverse_each(bytes: &mut [u8], size: usize)
    requires sized { 0 < size }
    ensures written { bytes.new ≡ turned_bytes (Some size) bytes.old }
{
    match size {
        2 => reverse_groups(bytes, 2),
        3 => reverse_pieces(bytes, 3),
        4 => reverse_groups(bytes, 4),
        8 => reverse_groups(bytes, 8),
        _ => reverse_pieces(bytes, size),
    }
}

/// Appends the bytes with each piece of `size` bytes turned round.
fn append_turned(copy: &mut Vec<u8>, part: &[u8], size: usize) -> Result<(), AllocError>
    requires sized { 0 < size }
    ensures appended { Appends copy.old copy.new result (turned_bytes (Some size) part.now) }
{
    let start = copy.len();
    copy.extend_from_slice(part)?;
    reverse_each(&mut copy[start..], size);
    Ok(())
}

/// How many bytes of whole pieces are copied and turned round at a time.
fn block_of(size: usize) -> usize
    requires sized { 0 < size }
    ensures positive { 0 < result }
    ensures whole { result / size * size ≡ result }
{
    if size < BLOCK {
        BLOCK / size * size
    } else {
        size
    }
}

/// A copy of the bytes with each piece of `size` bytes turned round. It is made block by block, so
/// that the bytes go through memory once.
fn turned_copy(alloc: Global, bytes: &[u8], size: usize) -> Result<Vec<u8>, AllocError>
    requires sized { 0 < size }
    ensures value { IfOk result (λ copy. copy.items ≡ turned_bytes (Some size) bytes.now) }
{
    let block = block_of(size);
    let blocks = bytes.len() / block;
    let mut copy = Vec::with_capacity(alloc, bytes.len())?;
    for index in 0..blocks {
        let start = index * block;
        append_turned(&mut copy, &bytes[start..start + block], size)?;
    }
    append_turned(&mut copy, &bytes[blocks * block..], size)?;
    Ok(copy)
}

/// Turns each component of `size` bytes round, or none where no size is given. What is left over
/// stays.
#[inline(always)]
pub fn turn_in_place(bytes: &mut [u8], size: Option<usize>)
    requires positive { size ≡ Some 0 → ⊥ }
    ensures written { bytes.new ≡ turned_bytes size bytes.old }
{
    if let Some(size) = size {
        reverse_each(bytes, size);
    }
}

/// The bytes with each component of `size` bytes turned round, or as they are where no size is
/// given. Owned bytes are turned in place; borrowed ones are copied first.
#[inline(always)]
pub fn turn<'a>(
    alloc: Global,
    raw: ArrayBytesRaw<'a>,
    size: Option<usize>,
) -> Result<ArrayBytesRaw<'a>, CodecError>
    requires positive { size ≡ Some 0 → ⊥ }
    ensures exact { Gives items_of result (Ok (turned_bytes size (raw_of raw.entry).items)) }
    ensures owned { (raw_of raw.entry).is_owned ≡ true → IsOk result }
    ensures kept { size ≡ None → seen raw_of result ≡ Ok (raw_of raw.entry) }
{
    let Some(size) = size else {
        return Ok(raw);
    };
    match raw {
        CowSlice::Owned(mut bytes) => {
            reverse_each(&mut bytes, size);
            Ok(CowSlice::Owned(bytes))
        }
        CowSlice::Borrowed(bytes) => {
            let copy = turned_copy(alloc, bytes, size)?;
            Ok(CowSlice::Owned(copy))
        }
    }
}

/// Elements of one size that own these bytes, with each component of `size` bytes turned round in
/// place, or as they are where no size is given.
pub fn hold_turned(mut bytes: Vec<u8>, size: Option<usize>) -> ArrayBytes<'static>
    requires positive { size ≡ Some 0 → ⊥ }
    ensures held { result ≡ flen (owned_bytes (turned_bytes size bytes.items)) }
{
    turn_in_place(&mut bytes, size);
    ArrayBytes::new_flen(CowSlice::Owned(bytes))
}
