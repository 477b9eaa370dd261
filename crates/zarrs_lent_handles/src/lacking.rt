//! Which bytes a read lacks.
ghost use Rattle.std.specs.Prelude.{◌≡◌, ◌++◌, [], IfErr, IfOk, OnOk, true, ◌∷◌};
ghost use Rattle.zarrs_chunk.specs.declared.codec_error.CodecError.TheVariants.{OutOfMemory};
ghost use Rattle.zarrs_lent_handles.specs.Lacking.{gaps_from, AddsLacking, AreLacking};
ghost use Rattle.zarrs_lent_handles.specs.Pieces.{are_apart as stand_apart, pieces_seen};

use crate::joined::{join_ranges, push_filled};
use crate::piece::{Piece, pieces_near};
use std::alloc::{AllocError, Global};
use zarrs_chunk::CodecError;
use zarrs_codec::ByteRange;

/// Appends the parts of a range, from `start` up to and without `end`, that no piece has.
#[tactic(auto, using(crate::proofs::LackingLemmas::filled_first, crate::proofs::LackingLemmas::piece_ends))]
fn push_gaps(
    gaps: &mut Vec<ByteRange>,
    len: u64,
    pieces: &[Piece<'_>],
    start: u64,
    end: u64,
) -> Result<(), AllocError>
    requires apart { stand_apart len 0 (pieces_seen pieces.now) ≡ true }
    ensures appended { OnOk result (gaps.new.items
        ≡ gaps.old.items ++ gaps_from start end (pieces_seen pieces.now)) }
{
    let mut at = start;
    for piece in pieces {
        if end <= piece.start {
            return push_filled(gaps, at, end);
        }
        push_filled(gaps, at, piece.start)?;
        at = at.max(piece.start + piece.bytes.len() as u64);
    }
    push_filled(gaps, at, end)
}

/// Appends the parts of a range that the value has and no piece.
fn push_lacking(
    gaps: &mut Vec<ByteRange>,
    len: u64,
    pieces: &[Piece<'_>],
    range: &ByteRange,
) -> Result<(), AllocError>
    requires apart { stand_apart len 0 (pieces_seen pieces.now) ≡ true }
    ensures added { OnOk result (AddsLacking len (pieces_seen pieces.now) (range.now ∷ [])
        gaps.old.items gaps.new.items) }
{
    let start = range.start();
    push_gaps(
        gaps,
        len,
        pieces_near(len, pieces, start),
        start,
        range.end().min(len),
    )
}

/// The parts of ranges that the value has and no piece, of each range by itself.
fn gaps_in(
    alloc: Global,
    len: u64,
    pieces: &[Piece<'_>],
    ranges: &[ByteRange],
) -> Result<Vec<ByteRange>, AllocError>
    requires apart { stand_apart len 0 (pieces_seen pieces.now) ≡ true }
    ensures added { IfOk result
        (λ gaps. AddsLacking len (pieces_seen pieces.now) ranges.now [] gaps.items) }
{
    let mut gaps = Vec::new(alloc);
    for range in ranges {
        push_lacking(&mut gaps, len, pieces, range)?;
    }
    Ok(gaps)
}

/// The bytes of these ranges that the value has and no piece, as ranges in order with at least a byte
/// between one and the next.
pub(crate) fn find_lacking(
    alloc: Global,
    len: u64,
    pieces: &[Piece<'_>],
    asked: &[ByteRange],
) -> Result<Vec<ByteRange>, CodecError>
    requires apart { stand_apart len 0 (pieces_seen pieces.now) ≡ true }
    ensures lacking { IfOk result
        (λ ranges. AreLacking len (pieces_seen pieces.now) asked.now ranges.items) }
    ensures memory { IfErr result (λ error. error ≡ OutOfMemory) }
{
    let asked = join_ranges(alloc, Vec::from_slice(alloc, asked)?)?;
    let gaps = gaps_in(alloc, len, pieces, asked.as_slice())?;
    join_ranges(alloc, gaps)
}
