//! The codec made from metadata, and written as it was given. Metadata is given and compared as JSON text.
use crate::checks::is;
use serde_json::Value;
use std::alloc::Global;
use std::process::Abort;
use zarrs_codec::{BytesCodecMaker, BytesToBytesCodecTraits};
use zarrs_metadata::{MetadataV3, PluginCreateError};
use zarrs_pairs::{PairsCodec, PairsMaker, PairsTable};

/// The codec's metadata, that which it is to be made of, and what is written of it or why it isn't made.
struct Row {
    codec: &'static str,
    metadata: &'static str,
    answer: Result<&'static str, PluginCreateError>,
}

const ROWS: &'static [Row] = &[
    Row {
        codec: r#""zstd""#,
        metadata: r#""zstd""#,
        answer: Ok(r#""zstd""#),
    },
    Row {
        codec: r#"{"name":"zstd","configuration":{"level":3,"checksum":false}}"#,
        metadata: r#"{"name":"zstd","configuration":{"level":3,"checksum":false}}"#,
        answer: Ok(r#"{"configuration":{"checksum":false,"level":3},"name":"zstd"}"#),
    },
    Row {
        codec: r#"{"name":"gzip","must_understand":false}"#,
        metadata: r#"{"name":"gzip","configuration":{"level":1}}"#,
        answer: Ok(r#"{"must_understand":false,"name":"gzip"}"#),
    },
    Row {
        codec: r#""zstd""#,
        metadata: r#""zst""#,
        answer: Err(PluginCreateError::UnknownName),
    },
];

/// The metadata of a text that reads.
fn metadata(alloc: Global, text: &str) -> Result<MetadataV3, PluginCreateError> {
    match Value::from_str(alloc, text) {
        Ok(tree) => MetadataV3::from_value(alloc, &tree),
        Err(_) => Err(PluginCreateError::OutOfMemory),
    }
}

/// The metadata that is written of what a maker makes, where it knows the name.
fn write_made<C: BytesToBytesCodecTraits, M: BytesCodecMaker<C>>(
    alloc: Global,
    maker: &M,
    metadata: &MetadataV3,
) -> Result<MetadataV3, PluginCreateError>
where
    C: Drop,
{
    let made = maker.make(alloc, metadata)?;
    made.ok_or(PluginCreateError::UnknownName)?.metadata(alloc)
}

/// A table without pairs.
fn table(alloc: Global, text: &str) -> Result<PairsTable<'static>, PluginCreateError> {
    match PairsTable::new(alloc, &[], metadata(alloc, text)?) {
        Ok(Some(table)) => Ok(table),
        _ => Err(PluginCreateError::OutOfMemory),
    }
}

/// The metadata that is written of a table's codec, where its maker knows the name.
fn write_with(
    alloc: Global,
    table: &PairsTable<'_>,
    metadata: &MetadataV3,
) -> Result<MetadataV3, PluginCreateError> {
    let maker = PairsMaker {
        codec: PairsCodec::new(&*table),
    };
    write_made(alloc, &maker, metadata)
}

/// The text of the codec that a metadata makes.
fn write_again(alloc: Global, row: &Row) -> Result<String, PluginCreateError> {
    let table = table(alloc, row.codec)?;
    let given = metadata(alloc, row.metadata)?;
    let written = write_with(alloc, &table, &given)?;
    Ok(written.to_value(alloc)?.to_string(alloc)?)
}

/// The answer is the row's. Lack of memory is an error of the test.
fn is_answer(
    rt: &impl Abort,
    row: &Row,
    came: &Result<String, PluginCreateError>,
) -> Result<(), PluginCreateError> {
    let came = match came {
        Ok(text) => Ok(text.as_str()),
        Err(cause) => Err(*cause),
    };
    if came == Err(PluginCreateError::OutOfMemory) {
        return Err(PluginCreateError::OutOfMemory);
    }
    is(rt, row.metadata, &came, &row.answer);
    Ok(())
}

#[test]
fn codec_is_made_and_written(rt: HostRuntime) -> Result<(), PluginCreateError> {
    for row in ROWS.iter() {
        let came = write_again(rt.alloc(), row);
        is_answer(&rt, row, &came)?;
    }
    Ok(())
}
