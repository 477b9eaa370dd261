//! Reading a chunk of which pieces are at hand, before the elements are returned to C.
ghost use Rattle.std.specs.Prelude.{◌≡◌, ◌-◌, ℕ, IfOk, List, Some, false, length, true};
ghost use Rattle.std.specs.Option.{option_map};
ghost use Rattle.zarrs_chunk.specs.Answer.{is_fault, memory, memory_or_fault, seen, Answers, AnswersBy};
ghost use Rattle.zarrs_chunk.specs.Indexer.{selection_of};
ghost use Rattle.zarrs_array_bytes.specs.Tight.{IsTight};
ghost use Rattle.zarrs_json.specs.HeaderRead.{header_seen};
ghost use Rattle.zarrs_lent_handles.specs.Elsewhere.{own_bytes};
ghost use Rattle.zarrs_lent_handles.specs.Pieces.{pieces_seen};
ghost use Rattle.zarrs_c_calls.specs.Calls.{known_header};
ghost use Rattle.zarrs_c_calls.specs.Codes.{cause_memory};
ghost use Rattle.zarrs_c_calls.specs.Fetched.{front_bytes, memory_or_lack, pieces_in, pieces_given as pieces_of, pieces_read, LacksWhereAnswered, ReadsApart, ReadsFetchedAlike, ReadsSurelyInPart};
ghost use Rattle.zarrs_c_calls.specs.LackingByte.{whole_value as whole_of, LacksByte};
ghost use Rattle.zarrs_c_calls.specs.Reads.{form_seen, ReadsForm};
ghost use Rattle.zarrs_c_calls.specs.Told.{HoldsThese};

use crate::cause::Cause;
use crate::from_elements::{FromElements, handed_on};
use crate::part_reads::read_part;
use crate::selection::selection_given;
use std::alloc::Global;
use std::marker::Brand;
use zarrs_array_bytes::ArrayBytes;
use zarrs_chunk::{CodecError, Indexer};
use zarrs_codec::BytesPartialDecoderTraits;
use zarrs_codecs::CodecChainPartialTraits;
use zarrs_json::ChunkHeader;
use zarrs_lent_handles::{Elsewhere, LentHandle, Piece, PiecesHandle};

/// The bytes of a range at the front of those that are left.
fn bytes_of<'a>(start: u64, end: u64, left: &'a [u8]) -> Result<&'a [u8], Cause>
    ensures answer { seen (λ bytes. bytes.now) result ≡ front_bytes start end left.now }
    ensures count { IfOk result (λ bytes. length bytes.now ≡ end - start) }
{
    if end < start || end - start > left.len() as u64 {
        return Err(Cause::Argument);
    }
    Ok(&left[..(end - start) as usize])
}

/// The pieces of these ranges, whose bytes are joined in `fetched`.
pub(crate) fn pieces_given<'a>(
    alloc: Global,
    ranges: &[u64],
    fetched: &'a [u8],
) -> Result<Vec<Piece<'a>>, Cause>
    ensures answer { Answers cause_memory pieces_in result (pieces_of ranges.now fetched.now) }
{
    let count = ranges.len() / 2;
    let mut pieces = Vec::with_capacity(alloc, count)?;
    let mut left = fetched;
    for at in 0..count {
        let start = ranges[2 * at];
        let bytes = bytes_of(start, ranges[2 * at + 1], left)?;
        pieces.push(Piece { start, bytes })?;
        left = &left[bytes.len()..];
    }
    if ranges.len() % 2 != 0 {
        return Err(Cause::Argument);
    }
    if left.len() != 0 {
        return Err(Cause::Argument);
    }
    Ok(pieces)
}

/// The elements that an indexer selects, by a decoder that is made for this call.
fn read_handle<H: BytesPartialDecoderTraits + Drop>(
    alloc: Global,
    form: &ChunkHeader,
    handle: H,
    indexer: &Indexer,
) -> Result<ArrayBytes<'static>, CodecError>
    ensures answer { ReadsForm memory_or_fault form.now (H.state handle).value
        indexer.now result }
    ensures tight { IfOk result (IsTight (header_seen form.now).data_type) }
    ensures sure { ReadsSurelyInPart form.now (H.state handle) indexer.now result }
{
    let chain = &form.chain;
    match chain.partial_decoder(
        alloc,
        handle,
        &form.shape,
        &form.data_type,
        &form.fill_value,
    ) {
        Err(refused) => Err(refused.error),
        Ok(mut decoder) => decoder.partial_decode(alloc, indexer),
    }
}

/// The same, handed on.
fn read_over<H: BytesPartialDecoderTraits + Drop, T: FromElements>(
    alloc: Global,
    form: &ChunkHeader,
    handle: H,
    indexer: &Indexer,
) -> Result<T, CodecError>
    ensures answer { ReadsForm memory_or_fault form.now (H.state handle).value
        indexer.now (seen T.held result) }
    ensures tight { IfOk (seen T.held result) (IsTight (header_seen form.now).data_type) }
    ensures sure { ReadsSurelyInPart form.now (H.state handle) indexer.now
        (seen T.held result) }
{
    handed_on(read_handle(alloc, form, handle, indexer))
}

/// The same of a value that is lent, of which no byte is lacking.
fn read_whole<T: FromElements>(
    alloc: Global,
    form: &ChunkHeader,
    value: &[u8],
    indexer: &Indexer,
) -> Result<T, CodecError>
    ensures answer { ReadsForm memory form.now (Some value.now) indexer.now (seen T.held result) }
    ensures tight { IfOk (seen T.held result) (IsTight (header_seen form.now).data_type) }
    ensures no_fault { is_fault (seen T.held result) ≡ false }
{
    handed_on(read_part(alloc, form, LentHandle::new(Some(value)), indexer))
}

/// The whole value, where the first of pieces that stand apart has all of its bytes.
pub(crate) fn whole_value<'a>(len: u64, pieces: &[Piece<'a>]) -> Option<&'a [u8]>
    ensures value { option_map (λ value. value.now) result ≡ whole_of len (pieces_seen pieces.now) }
{
    let Some(piece) = pieces.first() else {
        return if len == 0 { Some(&[]) } else { None };
    };
    if piece.start == 0 && piece.bytes.len() as u64 == len {
        Some(piece.bytes)
    } else {
        None
    }
}

/// The elements that an indexer selects of the value that has these pieces, and the bytes of `E`
/// elsewhere. Where the pieces are the whole value it is read itself, so that no byte is lacking.
fn read_apart<E: Elsewhere, T: FromElements>(
    alloc: Global,
    form: &ChunkHeader,
    len: u64,
    pieces: Vec<Piece<'_>>,
    indexer: &Indexer,
) -> Result<T, CodecError>
    ensures answer { ReadsApart E.elsewhere form.now len pieces.entry indexer.now
        (seen T.held result) }
    ensures tight { IfOk (seen T.held result) (IsTight (header_seen form.now).data_type) }
    ensures lacking { is_fault (seen T.held result) ≡ true → LacksByte E.elsewhere
        (form_seen form.now) len (pieces_in pieces.entry) (selection_of indexer.now) }
{
    let whole = whole_value(len, pieces.as_slice());
    let handle = PiecesHandle::<E>::new(len, pieces)?;
    match whole {
        Some(value) => read_whole(alloc, form, value, indexer),
        None => read_over(alloc, form, handle, indexer),
    }
}

/// What was fetched of a value: how many bytes it has, ranges of it, and their bytes, joined.
#[derive(Clone, Copy)]
pub(crate) struct Fetched<'a> {
    pub(crate) len: u64,
    pub(crate) ranges: &'a [u64],
    pub(crate) bytes: &'a [u8],
}

/// The selected elements of a value of which pieces were fetched, and which has the bytes of `value`
/// elsewhere, whichever these are.
pub(crate) fn read_fetched(
    alloc: Global,
    form: &ChunkHeader,
    fetched: &Fetched<'_>,
    tuples: u64,
    numbers: &[u64],
) -> Result<ArrayBytes<'static>, Cause>
    ghost value: { List ℕ }
    ensures answer { AnswersBy memory_or_lack HoldsThese result (pieces_read (own_bytes value)
        (known_header form.now) fetched.now.len fetched.now.ranges.now fetched.now.bytes.now tuples numbers.now) }
    ensures alike { ReadsFetchedAlike (known_header form.now) fetched.now tuples numbers.now result }
    ensures lacking { LacksWhereAnswered (own_bytes value) (known_header form.now) fetched.now tuples
        numbers.now result }
{
    let indexer = selection_given(alloc, form, tuples, numbers)?;
    let pieces = pieces_given(alloc, fetched.ranges, fetched.bytes)?;
    let elements = read_apart::<Brand, ArrayBytes<'static>>(
        alloc,
        form,
        fetched.len,
        pieces,
        &indexer,
    )?;
    Ok(elements)
}
