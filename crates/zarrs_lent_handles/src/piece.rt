//! Pieces of a value, and reading ranges of it from them.
ghost use Rattle.std.specs.Prelude.{◌≡◌, ◌∷◌, [], IfOk, IfErr, IfSome, Ok, Some, true};
ghost use Rattle.std.specs.Option.{option_map};
ghost use Rattle.zarrs_chunk.specs.Answer.{AnswersItems, Excused, fault, is_fault, memory_or_fault};
ghost use Rattle.zarrs_codec.specs.ByteRanges.{range_indices, read_value, EndsOutside, IsPieceOf};
ghost use Rattle.zarrs_codec.specs.StorageState.{value_indices};
ghost use Rattle.zarrs_lent_handles.specs.Lacking.{LacksOne};
ghost use Rattle.zarrs_lent_handles.specs.Pieces.{piece_has_byte, piece_with as first_with, are_apart as stand_apart, numbers_of, piece_seen, pieces_seen, value_of, HaveFrom, IsInPiece, OnlyAtHand, SureIfAtHand};

use crate::elsewhere::Elsewhere;
use std::alloc::Global;
use zarrs_chunk::{CodecError, StorageError};
use zarrs_codec::{ByteRange, append_piece, room_for};

/// Bytes of a value, one after another, from the one with the number `start` on.
#[derive(Clone, Copy, Debug)]
pub struct Piece<'a> {
    pub start: u64,
    pub bytes: &'a [u8],
}

/// Whether the pieces come in order, with at least a byte between one and the next, and end inside so
/// many bytes.
pub(crate) fn are_apart(len: u64, pieces: &[Piece<'_>]) -> bool
    ensures value { result ≡ stand_apart len 0 (pieces_seen pieces.now) }
{
    let mut free = 0u128;
    for piece in pieces {
        let start = piece.start as u128;
        let end = start + piece.bytes.len() as u128;
        if start < free || end > len as u128 {
            return false;
        }
        free = end + 1;
    }
    true
}

fn has_byte(piece: &Piece<'_>, number: u64) -> bool
    ensures value { result ≡ piece_has_byte (piece_seen piece.now) number }
{
    piece.start <= number && number - piece.start < piece.bytes.len() as u64
}

/// The piece that has the byte of this number.
fn piece_with<'a>(pieces: &[Piece<'a>], number: u64) -> Option<Piece<'a>>
    ensures found { option_map piece_seen result ≡ first_with (pieces_seen pieces.now) number }
    ensures inside { IfSome result (λ piece. IsInPiece number piece) }
{
    for piece in pieces {
        if has_byte(piece, number) {
            return Some(*piece);
        }
    }
    None
}

/// Those of pieces that come in order from the last one that begins no later than a byte: none of those
/// before it has this byte, or one behind it.
pub(crate) fn pieces_near<'b, 'a>(len: u64, pieces: &'b [Piece<'a>], number: u64) -> &'b [Piece<'a>]
    requires apart { stand_apart len 0 (pieces_seen pieces.now) ≡ true }
    ensures same { HaveFrom len number (pieces_seen pieces.now) (pieces_seen result.now) }
{
    let behind = pieces.partition_point(|piece| piece.start <= number);
    if behind > 0 && pieces[behind - 1].start <= number {
        return &pieces[behind - 1..];
    }
    pieces
}

/// The piece that has the byte of this number, of pieces that come in order.
fn piece_near<'a>(len: u64, pieces: &[Piece<'a>], number: u64) -> Option<Piece<'a>>
    requires apart { stand_apart len 0 (pieces_seen pieces.now) ≡ true }
    ensures found { option_map piece_seen result ≡ first_with (pieces_seen pieces.now) number }
    ensures inside { IfSome result (λ piece. IsInPiece number piece) }
{
    piece_with(pieces_near(len, pieces, number), number)
}

/// What a read of a byte answers that isn't at hand.
const NOT_AT_HAND: CodecError = CodecError::Storage(StorageError { code: 0 });

/// A range's bytes, where a piece has them all.
#[tactic(auto, using(crate::proofs::PieceLemmas::value_length))]
fn part_of<'a, E: Elsewhere>(
    len: u64,
    pieces: &[Piece<'a>],
    range: &ByteRange,
) -> Result<&'a [u8], CodecError>
    requires apart { stand_apart len 0 (pieces_seen pieces.now) ≡ true }
    ensures inside { IfOk result (λ part. IsPieceOf (value_of E.elsewhere len pieces.now)
        range.now part.now) }
    ensures outside { IfErr result (λ error. Excused (fault error)
        (EndsOutside (value_of E.elsewhere len pieces.now) range.now error)) }
    ensures sure { SureIfAtHand pieces.now (numbers_of range.now) result }
    ensures at_hand { OnlyAtHand pieces.now (numbers_of range.now) result }
    ensures lacks { is_fault result ≡ true
        → LacksOne len (pieces_seen pieces.now) (range.now ∷ []) }
{
    let start = range.start();
    let end = range.end();
    if end > len {
        return Err(CodecError::InvalidByteRange);
    }
    if start == end {
        return Ok(&[]);
    }
    let Some(piece) = piece_near(len, pieces, start) else {
        return Err(NOT_AT_HAND);
    };
    let from = (start - piece.start) as usize;
    let count = end - start;
    if count > (piece.bytes.len() - from) as u64 {
        return Err(NOT_AT_HAND);
    }
    Ok(&piece.bytes[from..from + count as usize])
}

/// The ranges' bytes, joined in order.
pub(crate) fn gather<E: Elsewhere>(
    alloc: Global,
    len: u64,
    pieces: &[Piece<'_>],
    ranges: &[ByteRange],
) -> Result<Vec<u8>, CodecError>
    requires apart { stand_apart len 0 (pieces_seen pieces.now) ≡ true }
    ensures answer { AnswersItems memory_or_fault result
        (read_value (value_of E.elsewhere len pieces.now) ranges.now) }
    ensures sure { SureIfAtHand pieces.now (range_indices ranges.now) result }
    ensures at_hand { OnlyAtHand pieces.now (range_indices ranges.now) result }
    ensures lacks { is_fault result ≡ true → LacksOne len (pieces_seen pieces.now) ranges.now }
{
    let mut bytes = Vec::with_capacity(alloc, room_for(len, ranges))?;
    for range in ranges {
        append_piece(&mut bytes, part_of::<E>(len, pieces, range)?)?;
    }
    Ok(bytes)
}

/// The range of a whole value.
pub(crate) fn whole_range(len: u64) -> ByteRange
    ensures value { result ≡ record { start = 0; end = len } }
{
    match ByteRange::new(0..len) {
        None => unreachable!(),
        Some(range) => range,
    }
}

/// The whole value, where all of its bytes are at hand.
#[tactic(auto, using(crate::proofs::PieceLemmas::value_length, crate::proofs::PieceLemmas::whole_value))]
pub(crate) fn whole<E: Elsewhere>(
    alloc: Global,
    len: u64,
    pieces: &[Piece<'_>],
) -> Result<Vec<u8>, CodecError>
    requires apart { stand_apart len 0 (pieces_seen pieces.now) ≡ true }
    ensures answer { AnswersItems memory_or_fault result (Ok (value_of E.elsewhere len pieces.now)) }
    ensures sure { SureIfAtHand pieces.now (value_indices (Some (value_of E.elsewhere len pieces.now))) result }
    ensures at_hand { OnlyAtHand pieces.now (value_indices (Some (value_of E.elsewhere len pieces.now))) result }
    ensures lacks { is_fault result ≡ true
        → LacksOne len (pieces_seen pieces.now) (record { start = 0; end = len } ∷ []) }
{
    let part = part_of::<E>(len, pieces, &whole_range(len))?;
    let bytes = Vec::from_slice(alloc, part)?;
    Ok(bytes)
}
