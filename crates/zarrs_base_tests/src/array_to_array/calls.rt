//! The calls of a codec by the trait, each in one function, whichever the codec is.

use crate::array_to_array::examples::{Example, Mapped};
use crate::array_to_array::forms::{ChunkForm, lend, own};
use crate::checks::{answers, indexer, is, shape};
use std::alloc::Global;
use std::process::Abort;
use zarrs_array_bytes::ArrayBytes;
use zarrs_chunk::{ChunkShape, CodecError, Indexer};
use zarrs_codec::ArrayToArrayCodecTraits;
use zarrs_data_type::{DataType, FillValue};

/// A container's bytes or an error, as plain data.
fn bytes_of<'a>(came: &'a Result<ArrayBytes<'_>, CodecError>) -> Result<&'a [u8], CodecError> {
    match came {
        Ok(elements) => elements.as_fixed(),
        Err(cause) => Err(*cause),
    }
}

/// The container has these bytes, or this is the error.
pub(crate) fn has_bytes(
    rt: &impl Abort,
    about: &str,
    came: Result<ArrayBytes<'_>, CodecError>,
    wanted: &Result<&[u8], CodecError>,
) -> Result<(), CodecError> {
    answers(rt, about, &bytes_of(&came), wanted)
}

/// The chunk is encoded to these bytes, and they are decoded to the chunk: owned bytes and lent ones.
fn moves<C: ArrayToArrayCodecTraits>(
    rt: &impl Abort,
    alloc: Global,
    codec: &C,
    form: &ChunkForm,
    example: &Example,
) -> Result<(), CodecError> {
    let (shape, data_type, fill_value) = (&form.shape, &form.data_type, &form.fill_value);
    let chunk = own(alloc, example.elements)?;
    let came = codec.encode(alloc, chunk, shape, data_type, fill_value);
    has_bytes(rt, example.name, came, &Ok(example.moved))?;
    let came = codec.decode(alloc, lend(example.moved), shape, data_type, fill_value);
    has_bytes(rt, example.name, came, &Ok(example.elements))
}

/// The type and the fill value are those of the chunk.
fn is_kept(rt: &impl Abort, example: &Example, data_type: &DataType, fill_value: &FillValue) {
    let fill = example.chunk.fill;
    is(rt, example.name, &data_type.fixed_size(), &Some(fill.len()));
    is(rt, example.name, &fill_value.as_ne_bytes(), &fill);
}

/// The moved chunk has another shape, the same type and the same fill value.
fn represents<C: ArrayToArrayCodecTraits>(
    rt: &impl Abort,
    alloc: Global,
    codec: &C,
    form: &ChunkForm,
    example: &Example,
) -> Result<(), CodecError> {
    let (shape, data_type, fill_value) = codec.encoded_representation(
        alloc,
        &form.shape,
        &form.data_type,
        &form.fill_value,
    )?;
    is(rt, example.name, &shape.as_slice(), &example.encoded.sizes);
    is_kept(rt, example, &data_type, &fill_value);
    Ok(())
}

/// The type and the fill value, each by its own call.
fn keeps_type<C: ArrayToArrayCodecTraits>(
    rt: &impl Abort,
    alloc: Global,
    codec: &C,
    form: &ChunkForm,
    example: &Example,
) -> Result<(), CodecError> {
    let data_type = codec.encoded_data_type(alloc, &form.data_type)?;
    let fill_value = codec.encoded_fill_value(alloc, &form.data_type, &form.fill_value)?;
    is_kept(rt, example, &data_type, &fill_value);
    Ok(())
}

/// A chunk is best decoded whole.
fn is_decoded_whole<C: ArrayToArrayCodecTraits>(
    rt: &impl Abort,
    alloc: Global,
    codec: &C,
    decoded: &ChunkShape,
    example: &Example,
) -> Result<(), CodecError> {
    let together = codec.partial_decode_granularity(alloc, decoded)?;
    is(rt, example.name, &together.as_slice(), &example.chunk.sizes);
    Ok(())
}

/// The shape of the moved chunk, and of the chunk whose moved one has this shape.
fn shapes<C: ArrayToArrayCodecTraits>(
    rt: &impl Abort,
    alloc: Global,
    about: &str,
    codec: &C,
    shape: &ChunkShape,
    mapped: &Mapped,
) -> Result<(), CodecError> {
    let encoded = codec.encoded_shape(alloc, shape);
    let came = match &encoded {
        Ok(shape) => Ok(shape.as_slice()),
        Err(cause) => Err(*cause),
    };
    answers(rt, about, &came, &mapped.encoded)?;
    let decoded = codec.decoded_shape(alloc, shape);
    let came = match &decoded {
        Ok(told) => Ok(told.as_ref().map(ChunkShape::as_slice)),
        Err(cause) => Err(*cause),
    };
    answers(rt, about, &came, &mapped.decoded)
}

fn are_places(
    rt: &impl Abort,
    about: &str,
    came: Result<Vec<u64>, CodecError>,
    mapped: &Mapped,
) -> Result<(), CodecError> {
    let places = came?;
    answers(rt, about, &Ok(places.as_slice()), &mapped.places)
}

/// The places that this indexer of the moved chunk selects in it.
fn has_places(
    rt: &impl Abort,
    alloc: Global,
    about: &str,
    indexer: &Indexer,
    mapped: &Mapped,
) -> Result<(), CodecError> {
    let encoded = shape(alloc, mapped.encoded?)?;
    are_places(rt, about, indexer.places(alloc, &encoded), mapped)
}

/// What is asked of a chunk of this shape has these places in the moved one.
fn places<C: ArrayToArrayCodecTraits>(
    rt: &impl Abort,
    alloc: Global,
    about: &str,
    codec: &C,
    shape: &ChunkShape,
    mapped: &Mapped,
) -> Result<(), CodecError> {
    let asked = indexer(alloc, &mapped.asked)?;
    match codec.encoded_indexer(alloc, &asked, shape) {
        Ok(encoded) => has_places(rt, alloc, about, &encoded, mapped),
        Err(cause) => answers(rt, about, &Err(cause), &mapped.places),
    }
}

/// The codec maps shapes and indexers so.
pub(crate) fn maps<C: ArrayToArrayCodecTraits>(
    rt: &impl Abort,
    alloc: Global,
    about: &str,
    codec: &C,
    mapped: &Mapped,
) -> Result<(), CodecError> {
    let shape = shape(alloc, mapped.sizes)?;
    shapes(rt, alloc, about, codec, &shape, mapped)?;
    places(rt, alloc, about, codec, &shape, mapped)
}

/// The codec does to the example's chunk what a codec does to chunks.
pub(crate) fn does_chunk<C: ArrayToArrayCodecTraits>(
    rt: &impl Abort,
    alloc: Global,
    codec: &C,
    form: &ChunkForm,
    example: &Example,
) -> Result<(), CodecError> {
    moves(rt, alloc, codec, form, example)?;
    represents(rt, alloc, codec, form, example)?;
    keeps_type(rt, alloc, codec, form, example)?;
    is_decoded_whole(rt, alloc, codec, &form.shape, example)
}
