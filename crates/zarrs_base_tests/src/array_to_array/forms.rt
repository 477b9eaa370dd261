//! Codecs and chunks as plain data, and what is made of them. Metadata selects a codec.

use crate::base::metadata::metadata;
use crate::checks::shape;
use std::alloc::Global;
use std::borrow::CowSlice;
use zarrs_array_bytes::ArrayBytes;
use zarrs_array_to_array::ArrayToArrayCodec;
use zarrs_chunk::{ChunkShape, CodecError};
use zarrs_data_type::{DataType, FillValue};
use zarrs_metadata::PluginCreateError;

/// Two axes change places.
pub(crate) const TURN: &'static str = r#"{"name":"transpose","configuration":{"order":[1,0]}}"#;

pub(crate) const SQUEEZE: &'static str = r#""zarrs.squeeze""#;

/// What is made of metadata, or a lack of memory. Another cause, which no row has, is any other error.
pub(crate) fn made<T>(answer: Result<T, PluginCreateError>) -> Result<T, CodecError> {
    match answer {
        Ok(made) => Ok(made),
        Err(PluginCreateError::OutOfMemory) => Err(CodecError::OutOfMemory),
        Err(_) => Err(CodecError::ArrayBytesKind),
    }
}

fn codec_of(alloc: Global, text: &str) -> Result<ArrayToArrayCodec, PluginCreateError> {
    ArrayToArrayCodec::create(alloc, &metadata(alloc, text)?)
}

pub(crate) fn codec(alloc: Global, text: &str) -> Result<ArrayToArrayCodec, CodecError> {
    made(codec_of(alloc, text))
}

/// A type of elements.
#[derive(Clone, Copy)]
pub(crate) enum Type {
    Byte,
    Word,
    Long,
}

fn data_type(told: Type) -> DataType {
    match told {
        Type::Byte => DataType::uint8(),
        Type::Word => DataType::uint16(),
        Type::Long => DataType::uint32(),
    }
}

/// A chunk: its sizes, the type of its elements, and its fill value.
pub(crate) struct Chunk {
    pub(crate) sizes: &'static [u64],
    pub(crate) data_type: Type,
    pub(crate) fill: &'static [u8],
}

/// What a codec needs to know of a chunk.
#[derive(Drop)]
pub(crate) struct ChunkForm {
    pub(crate) shape: ChunkShape,
    pub(crate) data_type: DataType,
    pub(crate) fill_value: FillValue,
}

pub(crate) fn chunk_form(alloc: Global, chunk: &Chunk) -> Result<ChunkForm, CodecError> {
    let shape = shape(alloc, chunk.sizes)?;
    let fill_value = FillValue::new(chunk.fill.to_vec(alloc)?);
    Ok(ChunkForm {
        shape,
        data_type: data_type(chunk.data_type),
        fill_value,
    })
}

/// Elements of one size.
pub(crate) fn own(alloc: Global, bytes: &[u8]) -> Result<ArrayBytes<'static>, CodecError> {
    Ok(ArrayBytes::new_flen(CowSlice::Owned(bytes.to_vec(alloc)?)))
}

/// Elements of one size, lent.
pub(crate) fn lend(bytes: &[u8]) -> ArrayBytes<'_> {
    ArrayBytes::new_flen(CowSlice::Borrowed(bytes))
}
