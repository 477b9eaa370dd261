//! Whole chunks: how many bytes a value has, what is encoded, and what is decoded.

use crate::checks::{answers, cause, gives, is};
use crate::forms::{ChunkForm, Elements, held, made};
use crate::refusals::REFUSED;
use crate::whole_rows::{FLAT, Row};
use std::alloc::Global;
use std::borrow::CowSlice;
use std::process::Abort;
use zarrs_array_bytes::ArrayBytes;
use zarrs_chunk::CodecError;
use zarrs_codec::ArrayToBytesCodecTraits;

fn is_measured<C: ArrayToBytesCodecTraits>(
    rt: &impl Abort,
    alloc: Global,
    codec: &C,
    form: &ChunkForm,
    row: &Row,
) -> Result<(), CodecError> {
    let came = codec.encoded_representation(alloc, &form.shape, &form.data_type, &form.fill_value);
    answers(rt, row.name, &came, &row.size)
}

fn is_encoded<C: ArrayToBytesCodecTraits>(
    rt: &impl Abort,
    alloc: Global,
    codec: &C,
    form: &ChunkForm,
    row: &Row,
) -> Result<(), CodecError> {
    let elements = held(alloc, &row.elements)?;
    let came = codec.encode(
        alloc,
        elements,
        &form.shape,
        &form.data_type,
        &form.fill_value,
    );
    let seen = match &came {
        Ok(value) => Ok(value.as_slice()),
        Err(cause) => Err(*cause),
    };
    gives(rt, row.name, seen, row.encoded)
}

fn are_held(
    rt: &impl Abort,
    alloc: Global,
    about: &str,
    came: &ArrayBytes<'static>,
    wanted: &Elements,
) -> Result<(), CodecError> {
    let wanted = held(alloc, wanted)?;
    is(rt, about, came, &wanted);
    Ok(())
}

/// The elements or the error that came are those of the row. Out of memory is an error of the test.
fn are_decoded(
    rt: &impl Abort,
    alloc: Global,
    came: &Result<ArrayBytes<'static>, CodecError>,
    row: &Row,
) -> Result<(), CodecError> {
    match (came, &row.decoded) {
        (Ok(came), Ok(wanted)) => are_held(rt, alloc, row.name, came, wanted),
        (came, wanted) => answers(rt, row.name, &cause(came), &cause(wanted)),
    }
}

fn is_decoded<C: ArrayToBytesCodecTraits>(
    rt: &impl Abort,
    alloc: Global,
    codec: &C,
    form: &ChunkForm,
    row: &Row,
) -> Result<(), CodecError> {
    let came = codec.decode(
        alloc,
        CowSlice::Borrowed(row.value),
        &form.shape,
        &form.data_type,
        &form.fill_value,
    );
    are_decoded(rt, alloc, &came, row)
}

/// The codec measures, encodes and decodes as the row says.
pub(crate) fn is_coded<C: ArrayToBytesCodecTraits>(
    rt: &impl Abort,
    alloc: Global,
    codec: &C,
    form: &ChunkForm,
    row: &Row,
) -> Result<(), CodecError> {
    is_measured(rt, alloc, codec, form, row)?;
    is_encoded(rt, alloc, codec, form, row)?;
    is_decoded(rt, alloc, codec, form, row)
}

fn chain_codes(rt: &impl Abort, alloc: Global, row: &Row) -> Result<(), CodecError> {
    let case = made(alloc, row.codecs, &row.chunk)?;
    is_coded(rt, alloc, &case.chain, &case.form, row)
}

#[test]
fn chains_measure_encode_and_decode(rt: HostRuntime) -> Result<(), CodecError> {
    for row in FLAT {
        chain_codes(&rt, rt.alloc(), row)?;
    }
    Ok(())
}

#[test]
fn chains_refuse_other_chunks_and_values(rt: HostRuntime) -> Result<(), CodecError> {
    for row in REFUSED {
        chain_codes(&rt, rt.alloc(), row)?;
    }
    Ok(())
}
