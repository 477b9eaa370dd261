//! Ranges of a value in memory, copied behind one another.
ghost use Rattle.std.specs.Prelude.{◌≡◌, ◌++◌, IfOk, IfErr, OnOk, if◌then◌else◌, length, min, nat_le, ◌-◌, ◌^◌, ◌==◌, true};
ghost use Rattle.zarrs_chunk.specs.Answer.{Gives};
ghost use Rattle.zarrs_codec.specs.ByteRanges.{read_value, IsPieceOf, EndsOutside, range_indices};
ghost use Rattle.std.specs.List.{list_all};

use crate::byte_range::ByteRange;
use std::alloc::{AllocError, Global};
use zarrs_chunk::CodecError;

/// How many bytes to reserve for the ranges of a value of `len` bytes, so that the answer never
/// grows: as many as the ranges have, or `u64::MAX` where they have more. None where one of them ends
/// past the value, as then nothing is read.
pub fn room_for(len: u64, ranges: &[ByteRange]) -> usize
    ensures room { result ≡ (if list_all (λ range. nat_le range.end len) ranges.now
        then min (length (range_indices ranges.now)) (2 ^ 64 - 1) else 0) }
{
    let mut room: u64 = 0;
    for range in ranges {
        if range.end() > len {
            return 0;
        }
        room = room.saturating_add(range.end() - range.start());
    }
    room as usize
}

/// Appends a piece. The sizes of most elements are constants here, so that each of these is a
/// single move and no call to copy.
#[inline(always)]
pub fn append_piece(bytes: &mut Vec<u8>, piece: &[u8]) -> Result<(), AllocError>
    ensures appended { OnOk result (bytes.new.items ≡ bytes.old.items ++ piece.now) }
{
    match piece.len() {
        1 => bytes.extend_from_slice(&piece[..1]),
        2 => bytes.extend_from_slice(&piece[..2]),
        4 => bytes.extend_from_slice(&piece[..4]),
        8 => bytes.extend_from_slice(&piece[..8]),
        _ => bytes.extend_from_slice(piece),
    }
}

/// A range's bytes of a value.
#[inline(always)]
fn piece_of<'a>(value: &'a [u8], range: &ByteRange) -> Result<&'a [u8], CodecError>
    ensures inside { IfOk result (λ piece. IsPieceOf value.now range.now piece.now) }
    ensures outside { IfErr result (EndsOutside value.now range.now) }
{
    let start = range.start() as usize;
    let end = range.end() as usize;
    if value.len() < end {
        return Err(CodecError::InvalidByteRange);
    }
    Ok(&value[start..end])
}

/// The ranges' bytes of a value, where they may have any number of bytes each.
fn gather_pieces(alloc: Global, value: &[u8], ranges: &[ByteRange]) -> Result<Vec<u8>, CodecError>
    ensures answer { Gives (λ bytes. bytes.items) result (read_value value.now ranges.now) }
{
    let mut bytes = Vec::with_capacity(alloc, room_for(value.len() as u64, ranges))?;
    for range in ranges {
        append_piece(&mut bytes, piece_of(value, range)?)?;
    }
    Ok(bytes)
}

/// Whether each of the ranges has so many bytes.
fn are_even(size: u64, ranges: &[ByteRange]) -> bool
    ensures value { result ≡ list_all (λ range. range.end - range.start == size) ranges.now }
{
    ranges
        .iter()
        .all(|range| range.end() - range.start() == size)
}

/// The four bytes of a range of a value.
#[inline(always)]
fn four_of(value: &[u8], range: &ByteRange) -> Result<[u8; 4], CodecError>
    requires size { range.now.end - range.now.start ≡ 4 }
    ensures inside { IfOk result (λ piece. IsPieceOf value.now range.now piece) }
    ensures outside { IfErr result (EndsOutside value.now range.now) }
{
    let mut four = [0u8; 4];
    four.copy_from_slice(&piece_of(value, range)?[..4]);
    Ok(four)
}

/// The eight bytes of a range of a value.
#[inline(always)]
fn eight_of(value: &[u8], range: &ByteRange) -> Result<[u8; 8], CodecError>
    requires size { range.now.end - range.now.start ≡ 8 }
    ensures inside { IfOk result (λ piece. IsPieceOf value.now range.now piece) }
    ensures outside { IfErr result (EndsOutside value.now range.now) }
{
    let mut eight = [0u8; 8];
    eight.copy_from_slice(&piece_of(value, range)?[..8]);
    Ok(eight)
}

/// The ranges' bytes of a value, where each has four.
fn gather_fours(alloc: Global, value: &[u8], ranges: &[ByteRange]) -> Result<Vec<u8>, CodecError>
    requires size { list_all (λ range. range.end - range.start == 4) ranges.now ≡ true }
    ensures answer { Gives (λ bytes. bytes.items) result (read_value value.now ranges.now) }
{
    let mut bytes = Vec::with_capacity(alloc, ranges.len().saturating_mul(4))?;
    for range in ranges {
        let four = four_of(value, range)?;
        bytes.extend_from_slice(&four)?;
    }
    Ok(bytes)
}

/// The ranges' bytes of a value, where each has eight.
fn gather_eights(alloc: Global, value: &[u8], ranges: &[ByteRange]) -> Result<Vec<u8>, CodecError>
    requires size { list_all (λ range. range.end - range.start == 8) ranges.now ≡ true }
    ensures answer { Gives (λ bytes. bytes.items) result (read_value value.now ranges.now) }
{
    let mut bytes = Vec::with_capacity(alloc, ranges.len().saturating_mul(8))?;
    for range in ranges {
        let eight = eight_of(value, range)?;
        bytes.extend_from_slice(&eight)?;
    }
    Ok(bytes)
}

/// The ranges' bytes of a value, joined in order. Elements of four and of eight bytes, each in a range
/// of its own, are moved as words.
pub fn gather(alloc: Global, value: &[u8], ranges: &[ByteRange]) -> Result<Vec<u8>, CodecError>
    ensures answer { Gives (λ bytes. bytes.items) result (read_value value.now ranges.now) }
{
    if are_even(4, ranges) {
        return gather_fours(alloc, value, ranges);
    }
    if are_even(8, ranges) {
        return gather_eights(alloc, value, ranges);
    }
    gather_pieces(alloc, value, ranges)
}
