//! Chains, chunks and elements, made of plain data: of what a header of the tool says.

use std::alloc::Global;
use std::borrow::CowSlice;
use zarrs_array_bytes::{ArrayBytes, ArrayBytesOffsets};
use zarrs_chain::{ChainJsonError, CodecChain};
use zarrs_chunk::{ChunkShape, CodecError};
use zarrs_codec::{SampleBytesCodec, SampleMaker};
use zarrs_data_type::{DataType, FillValue};
use zarrs_json::{Refusal, data_type, tree};
use zarrs_metadata::PluginCreateError;

/// Texts behind their offsets, which have eight bytes each.
pub(crate) const TEXTS: &'static str =
    r#"[{"name":"zarrs.vlen","configuration":{"index_codecs":[{"name":"bytes","configuration":{"endian":"little"}}],"data_codecs":["bytes"],"index_data_type":"uint64","index_location":"start"}}]"#;

/// Elements that may be absent, mask and data as they are.
pub(crate) const OPTIONS: &'static str =
    r#"[{"name":"optional","configuration":{"mask_codecs":["bytes"],"data_codecs":["bytes"]}}]"#;

type Chain = CodecChain<SampleBytesCodec>;

/// A chunk: its sizes, the type of its elements, as JSON, and the bytes of its fill value.
pub(crate) struct Chunk {
    pub(crate) shape: &'static [u64],
    pub(crate) data_type: &'static str,
    pub(crate) fill_value: &'static [u8],
}

/// What a chain is given of a chunk.
#[derive(Drop)]
pub(crate) struct ChunkForm {
    pub(crate) shape: ChunkShape,
    pub(crate) data_type: DataType,
    pub(crate) fill_value: FillValue,
}

/// A chain, and a chunk that it is given, as one value: each value that a function owns makes it
/// dearer to prove.
#[derive(Drop)]
pub(crate) struct Case {
    pub(crate) chain: Chain,
    pub(crate) form: ChunkForm,
}

/// Two elements of one byte.
pub(crate) const PAIR: Chunk = Chunk {
    shape: &[2],
    data_type: r#""uint8""#,
    fill_value: &[0],
};

/// The chain of a list of metadata, as JSON.
pub(crate) fn chain(alloc: Global, codecs: &str) -> Result<Chain, ChainJsonError> {
    CodecChain::from_json(alloc, codecs, &SampleMaker)
}

fn data_type_named(alloc: Global, name: &str) -> Result<DataType, Refusal> {
    let tree = tree(alloc, name.as_bytes())?;
    data_type(alloc, &tree)
}

pub(crate) fn shape(alloc: Global, sizes: &[u64]) -> Result<ChunkShape, CodecError> {
    ChunkShape::new(sizes.to_vec(alloc)?).ok_or(CodecError::OutOfBounds)
}

/// Such a chunk.
fn chunk_form(alloc: Global, chunk: &Chunk) -> Result<ChunkForm, Refusal> {
    Ok(ChunkForm {
        shape: shape(alloc, chunk.shape)?,
        data_type: data_type_named(alloc, chunk.data_type)?,
        fill_value: FillValue::new(chunk.fill_value.to_vec(alloc)?),
    })
}

fn make(alloc: Global, codecs: &str, chunk: &Chunk) -> Result<Case, Refusal> {
    Ok(Case {
        chain: chain(alloc, codecs)?,
        form: chunk_form(alloc, chunk)?,
    })
}

/// Such a chain, and such a chunk, or a lack of memory. Another cause, which no row has, is any other
/// error.
pub(crate) fn made(alloc: Global, codecs: &str, chunk: &Chunk) -> Result<Case, CodecError> {
    match make(alloc, codecs, chunk) {
        Ok(case) => Ok(case),
        Err(Refusal::Codec(cause)) => Err(cause),
        Err(Refusal::Making(PluginCreateError::OutOfMemory)) => Err(CodecError::OutOfMemory),
        Err(_) => Err(CodecError::ArrayBytesKind),
    }
}

/// Elements as a container holds them: their bytes; where each text begins and the last one ends, or
/// nothing where all are of one size; the masks over them, the innermost first.
pub(crate) struct Elements {
    pub(crate) bytes: &'static [u8],
    pub(crate) ends: &'static [usize],
    pub(crate) masks: &'static [&'static [u8]],
}

fn unmasked(
    alloc: Global,
    bytes: &'static [u8],
    ends: &[usize],
) -> Result<ArrayBytes<'static>, CodecError> {
    let bytes = CowSlice::Borrowed(bytes);
    if ends.is_empty() {
        return Ok(ArrayBytes::new_flen(bytes));
    }
    let offsets = ArrayBytesOffsets::new(ends.to_vec(alloc)?)?;
    ArrayBytes::new_vlen(bytes, offsets)
}

/// A container of these elements.
pub(crate) fn held(alloc: Global, elements: &Elements) -> Result<ArrayBytes<'static>, CodecError> {
    let mut array = unmasked(alloc, elements.bytes, elements.ends)?;
    for mask in elements.masks {
        array = array.with_optional_mask(alloc, CowSlice::Borrowed(mask))?;
    }
    Ok(array)
}
