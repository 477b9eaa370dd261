//! Chunks and parts of them, of the texts that the tool takes.

use serde_json::Value;
use std::alloc::Global;
use zarrs_chain::CodecChain;
use zarrs_chunk::{ChunkShape, CodecError};
use zarrs_codec::{SampleBytesCodec, SampleMaker};
use zarrs_data_type::{DataType, FillValue};
use zarrs_json::{Refusal, data_type, hex_bytes, member, numbers, object, read_edit, tree};
use zarrs_metadata::PluginCreateError;

/// Four bytes.
pub(crate) const BYTES: &'static str =
    r#"{"shape":[4],"data_type":"uint8","fill_value":"00","codecs":["bytes"]}"#;

/// Four bytes, with their length before them.
pub(crate) const WITH_LENGTH: &'static str =
    r#"{"shape":[4],"data_type":"uint8","fill_value":"00","codecs":["bytes","sample.length"]}"#;

/// Words, whose byte order is missing.
pub(crate) const ORDERLESS: &'static str =
    r#"{"shape":[10,10],"data_type":"int32","fill_value":"00000000","codecs":["bytes"]}"#;

/// Two texts.
pub(crate) const TEXTS: &'static str =
    r#"{"shape":[2],"data_type":"string","fill_value":"","codecs":[{"name":"zarrs.vlen","configuration":{"index_codecs":[{"name":"bytes","configuration":{"endian":"little"}}],"data_codecs":["bytes"],"index_data_type":"uint64"}}]}"#;

/// The texts "a" and "bc", as they are stored.
pub(crate) const A_AND_BC: &'static [u8] =
    b"\x18\0\0\0\0\0\0\0\0\0\0\0\0\0\0\0\x01\0\0\0\0\0\0\0\x03\0\0\0\0\0\0\0abc";

/// Two texts, of whose bytes the four low bits are kept.
pub(crate) const HALF_BYTES: &'static str =
    r#"{"shape":[2],"data_type":"string","fill_value":"","codecs":[{"name":"zarrs.vlen","configuration":{"index_codecs":[{"name":"bytes","configuration":{"endian":"little"}}],"data_codecs":[{"name":"packbits","configuration":{"last_bit":3}}],"index_data_type":"uint64"}}]}"#;

/// Three bytes that may be absent.
pub(crate) const OPTIONAL: &'static str =
    r#"{"shape":[3],"data_type":{"optional":"uint8"},"fill_value":"00","codecs":[{"name":"optional","configuration":{"mask_codecs":["bytes"],"data_codecs":["bytes"]}}]}"#;

/// Three texts that may be absent at two levels: three codecs, one inside another, and a
/// bytes-to-bytes codec inside them.
pub(crate) const THREE_LEVELS: &'static str =
    r#"{"shape":[3],"data_type":{"optional":{"optional":"string"}},"fill_value":"00","codecs":[{"name":"optional","configuration":{"mask_codecs":["packbits"],"data_codecs":[{"name":"optional","configuration":{"mask_codecs":["bytes"],"data_codecs":[{"name":"zarrs.vlen","configuration":{"index_codecs":[{"name":"bytes","configuration":{"endian":"little"}}],"data_codecs":["bytes","sample.length"],"index_data_type":"uint32","index_location":"end"}}]}}]}}]}"#;

/// Four bits with a sign, filled with 15.
pub(crate) const FOUR_BITS: &'static str =
    r#"{"shape":[1],"data_type":"int4","fill_value":"0f","codecs":["packbits"]}"#;

/// Two bytes.
pub(crate) const TWO_BYTES: &'static str =
    r#"{"shape":[2],"data_type":"uint8","fill_value":"00","codecs":["bytes"]}"#;

/// Words whose axes are turned twice.
pub(crate) const TURNED_TWICE: &'static str =
    r#"{"shape":[2,2,2],"data_type":"uint32","fill_value":"00000000","codecs":[{"name":"transpose","configuration":{"order":[0,2,1]}},{"name":"transpose","configuration":{"order":[2,0,1]}},{"name":"bytes","configuration":{"endian":"big"}}]}"#;

/// Two bytes, with their length before them.
pub(crate) const TWO_BYTES_WITH_LENGTH: &'static str =
    r#"{"shape":[2],"data_type":"uint8","fill_value":"00","codecs":["bytes","sample.length"]}"#;

/// Texts with turned axes, whose value is turned round.
pub(crate) const TURNED_TEXTS: &'static str =
    r#"{"shape":[2,3],"data_type":"string","fill_value":"","codecs":[{"name":"transpose","configuration":{"order":[1,0]}},{"name":"zarrs.vlen","configuration":{"index_codecs":[{"name":"bytes","configuration":{"endian":"little"}}],"data_codecs":["bytes"],"index_data_type":"uint64"}},"sample.reverse"]}"#;

/// Two rows of four bytes in two inner chunks of two by two.
pub(crate) const SHARD: &'static str =
    r#"{"shape":[2,4],"data_type":"uint8","fill_value":"00","codecs":[{"name":"sharding_indexed","configuration":{"chunk_shape":[2,2],"codecs":["bytes"],"index_codecs":[{"name":"bytes","configuration":{"endian":"little"}}]}}]}"#;

/// The bytes 1, 2, 0 and 0 over 3, 4, 0 and 0, as they are stored: the second inner chunk isn't.
pub(crate) const FIRST_OF_TWO: &'static [u8] =
    b"\x01\x02\x03\x04\0\0\0\0\0\0\0\0\x04\0\0\0\0\0\0\0\xff\xff\xff\xff\xff\xff\xff\xff\xff\xff\xff\xff\xff\xff\xff\xff";

/// What a chain is given of a chunk.
#[derive(Drop)]
pub(crate) struct Form {
    pub(crate) shape: ChunkShape,
    pub(crate) data_type: DataType,
    pub(crate) fill_value: FillValue,
}

/// A chunk, and the chain that stores it.
#[derive(Drop)]
pub(crate) struct Chunk {
    pub(crate) form: Form,
    pub(crate) chain: CodecChain<SampleBytesCodec>,
}

/// Places of a chunk, and elements that are read or written there.
pub(crate) type Part = zarrs_json::Edit;

/// A chunk and a part of it, as one value: each that a function owns makes it dearer to prove.
#[derive(Drop)]
pub(crate) struct Case {
    pub(crate) chunk: Chunk,
    pub(crate) part: Part,
}

fn at_key<'v>(header: &'v Value, name: &str) -> Result<&'v Value, Refusal> {
    member(object(header)?, name).ok_or(Refusal::Syntax)
}

fn shape(alloc: Global, header: &Value) -> Result<ChunkShape, Refusal> {
    let sizes = numbers(alloc, at_key(header, "shape")?)?;
    ChunkShape::new(sizes).ok_or(Refusal::Syntax)
}

fn fill_value(alloc: Global, header: &Value) -> Result<FillValue, Refusal> {
    let bytes = hex_bytes(alloc, at_key(header, "fill_value")?)?;
    Ok(FillValue::new(bytes))
}

fn form_among(alloc: Global, header: &Value) -> Result<Form, Refusal> {
    let data_type = data_type(alloc, at_key(header, "data_type")?)?;
    Ok(Form {
        shape: shape(alloc, header)?,
        data_type,
        fill_value: fill_value(alloc, header)?,
    })
}

fn chain(alloc: Global, header: &Value) -> Result<CodecChain<SampleBytesCodec>, Refusal> {
    let codecs = at_key(header, "codecs")?;
    Ok(CodecChain::from_value(alloc, codecs, &SampleMaker)?)
}

fn chunk_among(alloc: Global, header: &Value) -> Result<Chunk, Refusal> {
    let form = form_among(alloc, header)?;
    let chain = chain(alloc, header)?;
    Ok(Chunk { form, chain })
}

fn read_chunk(alloc: Global, header: &str) -> Result<Chunk, Refusal> {
    let header = tree(alloc, header.as_bytes())?;
    chunk_among(alloc, &header)
}

fn read_part(alloc: Global, chunk: &Chunk, text: &str) -> Result<Part, Refusal> {
    let part = tree(alloc, text.as_bytes())?;
    read_edit(alloc, &chunk.form.data_type, &part)
}

/// What is read of a text, or a lack of memory. Another cause, which no row has, is any other error.
fn made<T>(answer: Result<T, Refusal>) -> Result<T, CodecError> {
    match answer {
        Ok(made) => Ok(made),
        Err(Refusal::Codec(cause)) => Err(cause),
        Err(Refusal::Making(PluginCreateError::OutOfMemory)) => Err(CodecError::OutOfMemory),
        Err(_) => Err(CodecError::ArrayBytesKind),
    }
}

/// The chunk of a header.
pub(crate) fn chunk_of(alloc: Global, header: &str) -> Result<Chunk, CodecError> {
    made(read_chunk(alloc, header))
}

/// The part of a chunk that a writing line names.
pub(crate) fn part_of(alloc: Global, chunk: &Chunk, text: &str) -> Result<Part, CodecError> {
    made(read_part(alloc, chunk, text))
}

/// The chunk of a header, and the part of it that a writing line names.
pub(crate) fn case_of(alloc: Global, header: &str, part: &str) -> Result<Case, CodecError> {
    let chunk = chunk_of(alloc, header)?;
    let part = part_of(alloc, &chunk, part)?;
    Ok(Case { chunk, part })
}
