//! What coders read, by the traits that they share, what they plan to read, and what they say of
//! themselves.

use crate::checks::{is, is_cause, is_plan};
use crate::chunks::{Chunk, Part, case_of};
use crate::coder_rows::{ENCODERS, FAILING, NEVER_MADE};
use crate::coders::{Decoder, Encoder, Kind, decoder, encoder, failing};
use crate::rows::{Row, WITH_CACHE, WITHOUT_CACHE};
use std::alloc::Global;
use std::process::Abort;
use zarrs_array_bytes::ArrayBytes;
use zarrs_chunk::{CodecError, StorageError};
use zarrs_codec::testing::FailingHandle;
use zarrs_codec::{ArrayPartialDecoderTraits, ByteRange, Refused};

/// What was read is what is wanted.
pub(crate) fn is_read(
    rt: &impl Abort,
    name: &str,
    came: &Result<ArrayBytes<'static>, CodecError>,
    wanted: &ArrayBytes<'static>,
    refusal: &Option<CodecError>,
) -> Result<(), CodecError> {
    match came {
        Ok(elements) => {
            is(rt, name, "refusal", &None, refusal);
            is(rt, name, "elements", elements, wanted);
            Ok(())
        }
        Err(cause) => is_cause(rt, name, Some(*cause), refusal),
    }
}

/// Reads the part.
fn reads<D: ArrayPartialDecoderTraits>(
    rt: &impl Abort,
    alloc: Global,
    coder: &mut D,
    part: &Part,
    name: &str,
    refusal: &Option<CodecError>,
) -> Result<(), CodecError> {
    let came = coder.partial_decode(alloc, &part.indexer);
    is_read(rt, name, &came, &part.elements, refusal)
}

/// The coder says this of itself.
fn tells<D: ArrayPartialDecoderTraits>(
    rt: &impl Abort,
    coder: &mut D,
    chunk: &Chunk,
    row: &Row,
) -> Result<(), CodecError> {
    let told = (
        coder.size_held(),
        coder.supports_partial_decode(),
        coder.exists()?,
    );
    let wanted = (row.size_held, row.in_part, row.value.is_some());
    is(rt, row.name, "held, in part, exists", &told, &wanted);
    is(
        rt,
        row.name,
        "type",
        coder.data_type(),
        &chunk.form.data_type,
    );
    Ok(())
}

/// The coder should be made. Reads the part twice, and asks the coder for the rest.
fn answers<D: ArrayPartialDecoderTraits>(
    rt: &impl Abort,
    alloc: Global,
    coder: &mut D,
    chunk: &Chunk,
    part: &Part,
    row: &Row,
) -> Result<(), CodecError> {
    let [making, first, second] = &row.refusals;
    is(rt, row.name, "refusal", &None, making);
    reads(rt, alloc, coder, part, row.name, first)?;
    reads(rt, alloc, coder, part, row.name, second)?;
    tells(rt, coder, chunk, row)
}

/// What came of planning is what is wanted.
fn plans(
    rt: &impl Abort,
    planned: Result<Option<Vec<ByteRange>>, CodecError>,
    row: &Row,
) -> Result<(), CodecError> {
    let planned = planned?;
    is_plan(rt, row.name, planned.as_deref(), row.planned);
    Ok(())
}

/// Once the row is done, the handle keeps the value, wasn't written, and failed where an error says
/// so.
fn is_kept(
    rt: &impl Abort,
    done: Result<(), CodecError>,
    handle: &FailingHandle,
    row: &Row,
) -> Result<(), CodecError> {
    let length = handle.value().unwrap_or(&[]).len();
    let came = (length, handle.write_calls(), handle.faults() == 1);
    let failed = CodecError::Storage(StorageError { code: row.fails_at });
    let has_failed = row.refusals.contains(&Some(failed));
    let wanted = (row.value.unwrap_or(&[]).len(), 0, has_failed);
    if done.is_ok() {
        is(rt, row.name, "kept, written, failed", &came, &wanted);
    }
    done
}

/// The coder isn't made for this cause, and the handle comes back.
fn is_refused(
    rt: &impl Abort,
    refused: Refused<FailingHandle>,
    row: &Row,
) -> Result<(), CodecError> {
    let [making, _, _] = &row.refusals;
    let done = is_cause(rt, row.name, Some(refused.error), making);
    is_kept(rt, done, &refused.handle, row)
}

fn asks_decoder(
    rt: &impl Abort,
    alloc: Global,
    decoder: &mut Decoder<'_, FailingHandle>,
    chunk: &Chunk,
    part: &Part,
    row: &Row,
) -> Result<(), CodecError> {
    answers(rt, alloc, decoder, chunk, part, row)?;
    plans(rt, decoder.planned_ranges(alloc, &part.indexer), row)
}

fn decodes(
    rt: &impl Abort,
    alloc: Global,
    mut decoder: Decoder<'_, FailingHandle>,
    chunk: &Chunk,
    part: &Part,
    row: &Row,
) -> Result<(), CodecError> {
    let done = asks_decoder(rt, alloc, &mut decoder, chunk, part, row);
    is_kept(rt, done, &decoder.into_handle(), row)
}

fn by_decoder(
    rt: &impl Abort,
    alloc: Global,
    chunk: &Chunk,
    part: &Part,
    row: &Row,
) -> Result<(), CodecError> {
    let handle = failing(alloc, row.value, row.fails_at)?;
    match decoder(alloc, chunk, handle) {
        Ok(decoder) => decodes(rt, alloc, decoder, chunk, part, row),
        Err(refused) => is_refused(rt, refused, row),
    }
}

fn asks_encoder(
    rt: &impl Abort,
    alloc: Global,
    encoder: &mut Encoder<'_, FailingHandle>,
    chunk: &Chunk,
    part: &Part,
    row: &Row,
) -> Result<(), CodecError> {
    answers(rt, alloc, encoder, chunk, part, row)?;
    plans(rt, encoder.planned_ranges(alloc, &part.indexer), row)
}

fn decodes_by_encoder(
    rt: &impl Abort,
    alloc: Global,
    mut encoder: Encoder<'_, FailingHandle>,
    chunk: &Chunk,
    part: &Part,
    row: &Row,
) -> Result<(), CodecError> {
    let done = asks_encoder(rt, alloc, &mut encoder, chunk, part, row);
    is_kept(rt, done, &encoder.into_decoder().into_handle(), row)
}

fn by_encoder(
    rt: &impl Abort,
    alloc: Global,
    chunk: &Chunk,
    part: &Part,
    row: &Row,
) -> Result<(), CodecError> {
    let handle = failing(alloc, row.value, row.fails_at)?;
    match encoder(alloc, chunk, handle) {
        Ok(encoder) => decodes_by_encoder(rt, alloc, encoder, chunk, part, row),
        Err(refused) => is_refused(rt, refused, row),
    }
}

fn reads_of(
    rt: &impl Abort,
    alloc: Global,
    chunk: &Chunk,
    part: &Part,
    row: &Row,
) -> Result<(), CodecError> {
    match &row.coder {
        Kind::Decoder => by_decoder(rt, alloc, chunk, part, row),
        Kind::Encoder => by_encoder(rt, alloc, chunk, part, row),
    }
}

fn reads_row(rt: &impl Abort, alloc: Global, row: &Row) -> Result<(), CodecError> {
    let case = case_of(alloc, row.chunk, row.part)?;
    reads_of(rt, alloc, &case.chunk, &case.part, row)
}

fn reads_rows(rt: &impl Abort, alloc: Global, rows: &[Row]) -> Result<(), CodecError> {
    for row in rows.iter() {
        reads_row(rt, alloc, row)?;
    }
    Ok(())
}

#[test]
fn decoders_without_a_cache(rt: HostRuntime) -> Result<(), CodecError> {
    reads_rows(&rt, rt.alloc(), WITHOUT_CACHE)
}

#[test]
fn decoders_with_a_cache(rt: HostRuntime) -> Result<(), CodecError> {
    reads_rows(&rt, rt.alloc(), WITH_CACHE)
}

#[test]
fn encoders(rt: HostRuntime) -> Result<(), CodecError> {
    reads_rows(&rt, rt.alloc(), ENCODERS)
}

#[test]
fn over_handles_that_fail(rt: HostRuntime) -> Result<(), CodecError> {
    reads_rows(&rt, rt.alloc(), FAILING)
}

#[test]
fn that_are_never_made(rt: HostRuntime) -> Result<(), CodecError> {
    reads_rows(&rt, rt.alloc(), NEVER_MADE)
}
