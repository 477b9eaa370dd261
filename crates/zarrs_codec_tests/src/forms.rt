//! Chunks, indexers and handles of plain data.

use std::alloc::Global;
use std::ops::Range;
use zarrs_chunk::{ArraySubset, ChunkShape, CodecError, Indexer};
use zarrs_codec::MemoryHandle;
use zarrs_data_type::{DataType, FillValue};

/// A chunk: its sizes, how many bits a component has, how many components an element, whether it has a
/// sign, and the bytes of the fill value.
#[derive(Clone, Copy)]
pub(crate) struct Chunk {
    pub(crate) sizes: &'static [u64],
    pub(crate) bits: u64,
    pub(crate) components: u64,
    pub(crate) is_signed: bool,
    pub(crate) fill: &'static [u8],
}

/// Two bytes.
pub(crate) const PAIR: Chunk = Chunk {
    sizes: &[2],
    bits: 8,
    components: 1,
    is_signed: false,
    fill: &[0],
};

/// Two words.
pub(crate) const WORDS: Chunk = Chunk {
    sizes: &[2],
    bits: 16,
    components: 1,
    is_signed: false,
    fill: &[9, 8],
};

/// Three words.
pub(crate) const THREE: Chunk = Chunk {
    sizes: &[3],
    ..WORDS
};

/// What a codec needs to know of a chunk.
#[derive(Drop)]
pub(crate) struct ChunkForm {
    pub(crate) shape: ChunkShape,
    pub(crate) data_type: DataType,
    pub(crate) fill_value: FillValue,
}

pub(crate) fn chunk_form(alloc: Global, chunk: &Chunk) -> Result<ChunkForm, CodecError> {
    let shape = ChunkShape::new(chunk.sizes.to_vec(alloc)?).ok_or(CodecError::OutOfBounds)?;
    let data_type = DataType::components(chunk.bits, chunk.components, chunk.is_signed)?;
    let fill_value = FillValue::new(chunk.fill.to_vec(alloc)?);
    Ok(ChunkForm {
        shape,
        data_type,
        fill_value,
    })
}

/// Which elements are selected: those of ranges, or those of tuples.
#[derive(Clone, Copy)]
pub(crate) enum Asked {
    Ranges(&'static [Range<u64>]),
    Tuples(&'static [&'static [u64]]),
}

fn list_tuples<'b>(alloc: Global, tuples: &[&[u64]]) -> Result<Indexer<'b>, CodecError> {
    let mut indices = Vec::new(alloc);
    for tuple in tuples {
        indices.push(tuple.to_vec(alloc)?)?;
    }
    Ok(Indexer::Indices(indices))
}

pub(crate) fn indexer<'b>(alloc: Global, asked: Asked) -> Result<Indexer<'b>, CodecError> {
    match asked {
        Asked::Ranges(ranges) => Ok(Indexer::Subset(ArraySubset::new_with_ranges(alloc, ranges)?)),
        Asked::Tuples(tuples) => list_tuples(alloc, tuples),
    }
}

/// A handle in memory over this value, or over none.
pub(crate) fn store(alloc: Global, value: Option<&[u8]>) -> Result<MemoryHandle, CodecError> {
    match value {
        None => Ok(MemoryHandle::new()),
        Some(value) => Ok(MemoryHandle::with_value(value.to_vec(alloc)?)),
    }
}
