//! Texts that are read and written again.
use crate::checks::{is, with};
use std::alloc::Global;
use std::process::Abort;
use zarrs_array_metadata::{ArrayMetadataError, ArrayMetadataV3};
use zarrs_array_plan::{ChunkKeyEncoding, ChunkKeySeparator};
use zarrs_data_type::DataType;
use zarrs_fill_values::{ElementName, FloatName, PlainName};

/// Members in place of others, and the text that is written of the whole.
struct Row {
    members: &'static str,
    again: &'static str,
}

const ROWS: &'static [Row] = &[
    Row {
        members: r#""codecs":["bytes",{"name":"crc32c"}]"#,
        again: r#"{"chunk_grid":{"configuration":{"chunk_shape":[2,3]},"name":"regular"},"chunk_key_encoding":{"configuration":{"separator":"/"},"name":"default"},"codecs":[{"name":"bytes"},{"name":"crc32c"}],"data_type":"uint8","fill_value":0,"node_type":"array","shape":[5,0],"zarr_format":3}"#,
    },
    Row {
        members: r#""chunk_key_encoding":{"name":"v2","configuration":null},"storage_transformers":[]"#,
        again: r#"{"chunk_grid":{"configuration":{"chunk_shape":[2,3]},"name":"regular"},"chunk_key_encoding":{"configuration":{"separator":"."},"name":"v2"},"codecs":[{"name":"bytes"}],"data_type":"uint8","fill_value":0,"node_type":"array","shape":[5,0],"zarr_format":3}"#,
    },
    Row {
        members: r#""data_type":"float32","fill_value":"0x7fc00001","dimension_names":["y",null]"#,
        again: r#"{"chunk_grid":{"configuration":{"chunk_shape":[2,3]},"name":"regular"},"chunk_key_encoding":{"configuration":{"separator":"/"},"name":"default"},"codecs":[{"name":"bytes"}],"data_type":"float32","dimension_names":["y",null],"fill_value":"0x7fc00001","node_type":"array","shape":[5,0],"zarr_format":3}"#,
    },
    Row {
        members: r#""attributes":{"a":[1,{"b":null}]},"new":{"must_understand":false,"x":-2},"consolidated_metadata":null,"dimension_names":null"#,
        again: r#"{"attributes":{"a":[1,{"b":null}]},"chunk_grid":{"configuration":{"chunk_shape":[2,3]},"name":"regular"},"chunk_key_encoding":{"configuration":{"separator":"/"},"name":"default"},"codecs":[{"name":"bytes"}],"consolidated_metadata":null,"data_type":"uint8","fill_value":0,"new":{"must_understand":false,"x":-2},"node_type":"array","shape":[5,0],"zarr_format":3}"#,
    },
];

fn is_written(rt: &impl Abort, alloc: Global, row: &Row) -> Result<(), ArrayMetadataError> {
    let text = with(alloc, row.members)?;
    let again = ArrayMetadataV3::from_json(alloc, text.as_str())?.to_json(alloc)?;
    is(rt, row.members, &again.as_str(), &row.again);
    let twice = ArrayMetadataV3::from_json(alloc, row.again)?.to_json(alloc)?;
    is(rt, row.again, &twice.as_str(), &row.again);
    Ok(())
}

#[test]
fn texts_are_written_again(rt: HostRuntime) -> Result<(), ArrayMetadataError> {
    for row in ROWS.iter() {
        is_written(&rt, rt.alloc(), row)?;
    }
    Ok(())
}

/// As zarr-python 3 writes an array of floats.
const OF_FLOATS: &'static str = r#"{
  "shape": [100, 50],
  "data_type": "float64",
  "chunk_grid": {"name": "regular", "configuration": {"chunk_shape": [10, 50]}},
  "chunk_key_encoding": {"name": "default", "configuration": {"separator": "."}},
  "fill_value": "-Infinity",
  "codecs": [
    {"name": "bytes", "configuration": {"endian": "little"}},
    {"name": "zstd", "configuration": {"level": 0, "checksum": false}}
  ],
  "attributes": {"unit": "m"},
  "dimension_names": ["y", "x"],
  "zarr_format": 3,
  "node_type": "array",
  "storage_transformers": []
}"#;

fn are_sizes_and_keys(rt: &impl Abort, array: &ArrayMetadataV3) {
    is(rt, "shape", &array.shape.as_slice(), &[100, 50].as_slice());
    is(
        rt,
        "chunk shape",
        &array.chunk_shape.as_slice(),
        &[10, 50].as_slice(),
    );
    let keys = ChunkKeyEncoding::Default(ChunkKeySeparator::Dot);
    is(rt, "keys", &array.chunk_key_encoding, &keys);
}

fn are_elements(rt: &impl Abort, array: &ArrayMetadataV3) {
    let name = ElementName::new(PlainName::Float(FloatName::Float64));
    is(rt, "name", &array.element_name, &name);
    is(rt, "type", &array.data_type, &DataType::uint64());
    let lowest = [0, 0, 0, 0, 0, 0, 240, 255];
    is(
        rt,
        "fill value",
        &array.fill_value.as_ne_bytes(),
        &lowest.as_slice(),
    );
    is(rt, "codecs", &array.codecs.len(), &2);
    is(rt, "attributes", &array.attributes.is_some(), &true);
}

#[test]
fn metadata_of_floats_is_read(rt: HostRuntime) -> Result<(), ArrayMetadataError> {
    let array = ArrayMetadataV3::from_json(rt.alloc(), OF_FLOATS)?;
    are_sizes_and_keys(&rt, &array);
    are_elements(&rt, &array);
    Ok(())
}
