//! What a read of pieces lacks, before it is returned to C.
ghost use Rattle.std.specs.Prelude.{◌≡◌, IfErr, IfOk};
ghost use Rattle.zarrs_chunk.specs.declared.codec_error.CodecError.TheVariants.{OutOfMemory};
ghost use Rattle.zarrs_chunk.specs.Indexer.{selection_of};
ghost use Rattle.zarrs_codecs.specs.PartialDecoder.{decoder_form, handle_of};
ghost use Rattle.zarrs_lent_handles.specs.Lacking.{ranges_kept};
ghost use Rattle.zarrs_c_calls.specs.Calls.{known_header};
ghost use Rattle.zarrs_c_calls.specs.Fetched.{pieces_in};
ghost use Rattle.zarrs_c_calls.specs.LackingRanges.{AnswersKept, AnswersLacking, AnswersMade, AnswersOver, AnswersPartLacking, AreOfLackedOrKept, IsSoundForm};
ghost use Rattle.zarrs_c_calls.specs.Reads.{form_seen};

use crate::cause::Cause;
use crate::fetched::{Fetched, pieces_given, whole_value};
use crate::part_reads::read_part;
use crate::plan::numbers_of;
use crate::selection::selection_given;
use std::alloc::Global;
use zarrs_chain::stages::chain_is_sound;
use zarrs_chunk::{CodecError, Indexer};
use zarrs_codec::{ByteRange, Refused};
use zarrs_codecs::{ArrayPartialDecoder, CodecChainPartialTraits};
use zarrs_json::{ChunkHeader, KnownBytesCodec};
use zarrs_lent_handles::{LentHandle, Piece, PiecesHandle};

/// What a read lacked: of the ranges that it plans all bytes that are lacking, since it may ask for
/// a part of them at a time; else what it asked for when it failed.
fn lacking_numbers(
    alloc: Global,
    planned: &[ByteRange],
    handle: &PiecesHandle<'_>,
) -> Result<Vec<u64>, CodecError>
    ensures told { IfOk result (λ told. AreOfLackedOrKept handle.now planned.now told.items) }
    ensures memory { IfErr result (λ error. error ≡ OutOfMemory) }
{
    let lacking = handle.lacking_of(alloc, planned)?;
    if lacking.is_empty() {
        Ok(numbers_of(alloc, handle.lacking())?)
    } else {
        Ok(numbers_of(alloc, lacking.as_slice())?)
    }
}

/// The same of a read that may plan nothing.
fn lacking_behind(
    alloc: Global,
    planned: Option<Vec<ByteRange>>,
    handle: PiecesHandle<'_>,
) -> Result<Vec<u64>, CodecError>
    ensures told { IfOk result (λ told. AreOfLackedOrKept handle.entry (ranges_kept planned)
        told.items) }
    ensures memory { IfErr result (λ error. error ≡ OutOfMemory) }
{
    match planned {
        None => lacking_numbers(alloc, &[], &handle),
        Some(ranges) => lacking_numbers(alloc, ranges.as_slice(), &handle),
    }
}

/// What a read by a decoder lacks; nothing, where it is answered.
fn lacking_read(
    alloc: Global,
    mut decoder: ArrayPartialDecoder<'_, PiecesHandle<'_>, KnownBytesCodec>,
    indexer: &Indexer,
) -> Result<Vec<u64>, CodecError>
    ensures answer { AnswersMade (decoder_form decoder.entry) (handle_of decoder.entry)
        (selection_of indexer.now) result }
{
    let planned = decoder.planned_ranges(alloc, indexer)?;
    match decoder.partial_decode(alloc, indexer) {
        Ok(_) => lacking_behind(alloc, planned, decoder.into_handle()),
        Err(CodecError::Storage(_)) => lacking_behind(alloc, planned, decoder.into_handle()),
        Err(error) => Err(error),
    }
}

/// What the making of a decoder lacked, where that is why it failed.
fn lacking_made(alloc: Global, refused: Refused<PiecesHandle<'_>>) -> Result<Vec<u64>, CodecError>
    ensures answer { AnswersKept refused.entry.error refused.entry.handle result }
{
    match refused.error {
        CodecError::Storage(_) => Ok(numbers_of(alloc, refused.handle.lacking())?),
        error => Err(error),
    }
}

/// What a read of these pieces lacks; nothing, where it is answered.
fn lacking_of(
    alloc: Global,
    form: &ChunkHeader,
    handle: PiecesHandle<'_>,
    indexer: &Indexer,
) -> Result<Vec<u64>, CodecError>
    ensures answer { AnswersOver (form_seen form.now) handle.entry (selection_of indexer.now) result }
{
    let chain = &form.chain;
    match chain.partial_decoder(
        alloc,
        handle,
        &form.shape,
        &form.data_type,
        &form.fill_value,
    ) {
        Err(refused) => lacking_made(alloc, refused),
        Ok(decoder) => lacking_read(alloc, decoder, indexer),
    }
}

/// The same of pieces that may be the whole value, which lacks nothing.
fn lacking_apart(
    alloc: Global,
    form: &ChunkHeader,
    len: u64,
    pieces: Vec<Piece<'_>>,
    indexer: &Indexer,
) -> Result<Vec<u64>, CodecError>
    ensures answer { IsSoundForm (form_seen form.now) → AnswersPartLacking (form_seen form.now) len
        (pieces_in pieces.entry) (selection_of indexer.now) result }
{
    let whole = whole_value(len, pieces.as_slice());
    let handle = PiecesHandle::new(len, pieces)?;
    match whole {
        Some(value) => {
            read_part(alloc, form, LentHandle::new(Some(value)), indexer)?;
            Ok(Vec::new(alloc))
        }
        None => lacking_of(alloc, form, handle, indexer),
    }
}

/// The ranges that a read of a value lacks of which pieces were fetched, as numbers.
pub(crate) fn lacking_fetched(
    alloc: Global,
    form: &ChunkHeader,
    fetched: &Fetched<'_>,
    tuples: u64,
    numbers: &[u64],
) -> Result<Vec<u64>, Cause>
    ensures answer { AnswersLacking (known_header form.now) fetched.now tuples numbers.now result }
{
    let indexer = selection_given(alloc, form, tuples, numbers)?;
    let pieces = pieces_given(alloc, fetched.ranges, fetched.bytes)?;
    // what a plan rests on
    chain_is_sound(&form.chain);
    form.shape.as_slice();
    Ok(lacking_apart(alloc, form, fetched.len, pieces, &indexer)?)
}
