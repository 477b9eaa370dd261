//! The codec made from metadata, and written as it again. Metadata is given and compared as JSON text.
use crate::checks::is;
use serde_json::Value;
use std::alloc::Global;
use std::process::Abort;
use zarrs_codec::{BytesCodecMaker, BytesToBytesCodecTraits};
use zarrs_crc32c::{Crc32cCodec, Crc32cMaker};
use zarrs_metadata::{MetadataV3, PluginCreateError};

/// Metadata, and what is written of the codec that it makes, or why it makes none.
struct Row {
    metadata: &'static str,
    answer: Result<&'static str, PluginCreateError>,
}

const ROWS: &'static [Row] = &[
    Row {
        metadata: r#""crc32c""#,
        answer: Ok(r#""crc32c""#),
    },
    Row {
        metadata: r#"{"name":"crc32c","configuration":{"x":1}}"#,
        answer: Ok(r#""crc32c""#),
    },
    Row {
        metadata: r#""crc32""#,
        answer: Err(PluginCreateError::UnknownName),
    },
    Row {
        metadata: r#""sample.length""#,
        answer: Err(PluginCreateError::UnknownName),
    },
];

/// The metadata of a text that reads.
fn metadata(alloc: Global, text: &str) -> Result<MetadataV3, PluginCreateError> {
    match Value::from_str(alloc, text) {
        Ok(tree) => MetadataV3::from_value(alloc, &tree),
        Err(_) => Err(PluginCreateError::OutOfMemory),
    }
}

/// The codec that a maker makes, where it knows the name.
fn make<M: BytesCodecMaker<Crc32cCodec>>(
    alloc: Global,
    maker: &M,
    metadata: &MetadataV3,
) -> Result<Crc32cCodec, PluginCreateError> {
    let made = maker.make(alloc, metadata)?;
    made.ok_or(PluginCreateError::UnknownName)
}

/// The codec that the metadata of a text makes.
fn made(alloc: Global, text: &str) -> Result<Crc32cCodec, PluginCreateError> {
    make(alloc, &Crc32cMaker, &metadata(alloc, text)?)
}

fn text(alloc: Global, metadata: &MetadataV3) -> Result<String, PluginCreateError> {
    let tree = metadata.to_value(alloc)?;
    Ok(tree.to_string(alloc)?)
}

/// The text of the codec that a metadata makes.
fn write_again(alloc: Global, row: &Row) -> Result<String, PluginCreateError> {
    let codec = made(alloc, row.metadata)?;
    let metadata = BytesToBytesCodecTraits::metadata(&codec, alloc)?;
    text(alloc, &metadata)
}

/// The answer is the row's. Lack of memory is an error of the test.
fn is_answer(
    rt: &impl Abort,
    row: &Row,
    came: &Result<String, PluginCreateError>,
) -> Result<(), PluginCreateError> {
    let came = match came {
        Ok(text) => Ok(text.as_str()),
        Err(cause) => Err(*cause),
    };
    if came == Err(PluginCreateError::OutOfMemory) {
        return Err(PluginCreateError::OutOfMemory);
    }
    is(rt, row.metadata, &came, &row.answer);
    Ok(())
}

#[test]
fn codec_is_made_and_written(rt: HostRuntime) -> Result<(), PluginCreateError> {
    for row in ROWS.iter() {
        let came = write_again(rt.alloc(), row);
        is_answer(&rt, row, &came)?;
    }
    Ok(())
}
