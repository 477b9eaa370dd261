//! Texts that can't be read, each with its first error and the key that it names.
use crate::checks::{refuses, with};
use std::alloc::Global;
use std::process::Abort;
use zarrs_array_metadata::{ArrayMetadataError, ArrayMetadataV3};

/// Members in place of good ones, the name of the error, and its key.
struct Row {
    members: &'static str,
    name: &'static str,
    key: &'static str,
}

const KINDS: &'static [Row] = &[
    Row {
        members: r#""zarr_format":2"#,
        name: "UnsupportedFormat",
        key: "zarr_format",
    },
    Row {
        members: r#""zarr_format":3.0"#,
        name: "UnsupportedFormat",
        key: "zarr_format",
    },
    Row {
        members: r#""node_type":"group""#,
        name: "NotAnArray",
        key: "node_type",
    },
    Row {
        members: r#""node_type":"group","zarr_format":2"#,
        name: "UnsupportedFormat",
        key: "zarr_format",
    },
];

const SHAPES: &'static [Row] = &[
    Row {
        members: r#""shape":5"#,
        name: "InvalidShape",
        key: "shape",
    },
    Row {
        members: r#""shape":[-1,0]"#,
        name: "InvalidShape",
        key: "shape",
    },
    Row {
        members: r#""shape":[18446744073709551616,0]"#,
        name: "InvalidShape",
        key: "shape",
    },
    Row {
        members: r#""shape":[5.0,0],"fill_value":256"#,
        name: "InvalidShape",
        key: "shape",
    },
    Row {
        members: r#""data_type":"float""#,
        name: "UnsupportedDataType",
        key: "data_type",
    },
    Row {
        members: r#""data_type":{"name":"struct","must_understand":false}"#,
        name: "UnsupportedDataType",
        key: "data_type",
    },
];

const GRIDS: &'static [Row] = &[
    Row {
        members: r#""chunk_grid":{"name":"rectangular","must_understand":false}"#,
        name: "UnsupportedChunkGrid",
        key: "chunk_grid",
    },
    Row {
        members: r#""chunk_grid":"regular""#,
        name: "InvalidChunkShape",
        key: "chunk_grid",
    },
    Row {
        members: r#""chunk_grid":{"name":"regular","configuration":{"chunk_shape":[2,-3]}}"#,
        name: "InvalidChunkShape",
        key: "chunk_grid",
    },
    Row {
        members: r#""chunk_grid":{"name":"regular","configuration":{"chunk_shape":[0]}}"#,
        name: "ZeroSize",
        key: "chunk_grid",
    },
    Row {
        members: r#""chunk_grid":{"name":"regular","configuration":{"chunk_shape":[2]}}"#,
        name: "IncompatibleDimensionality",
        key: "chunk_grid",
    },
    Row {
        members: r#""chunk_key_encoding":{"name":"flat","must_understand":false}"#,
        name: "UnsupportedChunkKeyEncoding",
        key: "chunk_key_encoding",
    },
    Row {
        members: r#""chunk_key_encoding":{"name":"v2","configuration":{"separator":"-"}}"#,
        name: "InvalidSeparator",
        key: "chunk_key_encoding",
    },
    Row {
        members: r#""chunk_key_encoding":{"name":"default","configuration":{"separator":null}}"#,
        name: "InvalidSeparator",
        key: "chunk_key_encoding",
    },
];

const OTHERS: &'static [Row] = &[
    Row {
        members: r#""fill_value":256"#,
        name: "InvalidFillValue",
        key: "fill_value",
    },
    Row {
        members: r#""fill_value":null,"a":3"#,
        name: "InvalidFillValue",
        key: "fill_value",
    },
    Row {
        members: r#""codecs":"bytes""#,
        name: "InvalidCodecs",
        key: "codecs",
    },
    Row {
        members: r#""codecs":["bytes",5],"attributes":5"#,
        name: "InvalidCodecs",
        key: "codecs",
    },
    Row {
        members: r#""attributes":null"#,
        name: "InvalidAttributes",
        key: "attributes",
    },
    Row {
        members: r#""storage_transformers":[{"name":"a"}]"#,
        name: "UnsupportedStorageTransformers",
        key: "storage_transformers",
    },
    Row {
        members: r#""dimension_names":["y"]"#,
        name: "InvalidDimensionNames",
        key: "dimension_names",
    },
    Row {
        members: r#""dimension_names":["y",5]"#,
        name: "InvalidDimensionNames",
        key: "dimension_names",
    },
];

const UNKNOWN: &'static [Row] = &[
    Row {
        members: r#""new":3"#,
        name: "UnknownKey",
        key: "new",
    },
    Row {
        members: r#""new":{"must_understand":true}"#,
        name: "UnknownKey",
        key: "new",
    },
    Row {
        members: r#""new":{"must_understand":0}"#,
        name: "UnknownKey",
        key: "new",
    },
    Row {
        members: r#""new":3,"a":{},"b":{"must_understand":false}"#,
        name: "UnknownKey",
        key: "a",
    },
];

fn is_refused(rt: &impl Abort, alloc: Global, row: &Row) -> Result<(), ArrayMetadataError> {
    let text = with(alloc, row.members)?;
    let came = ArrayMetadataV3::from_json(alloc, text.as_str());
    refuses(rt, row.members, came, row.name, Some(row.key))
}

#[test]
fn kinds_are_refused(rt: HostRuntime) -> Result<(), ArrayMetadataError> {
    for row in KINDS.iter() {
        is_refused(&rt, rt.alloc(), row)?;
    }
    Ok(())
}

#[test]
fn shapes_are_refused(rt: HostRuntime) -> Result<(), ArrayMetadataError> {
    for row in SHAPES.iter() {
        is_refused(&rt, rt.alloc(), row)?;
    }
    Ok(())
}

#[test]
fn grids_are_refused(rt: HostRuntime) -> Result<(), ArrayMetadataError> {
    for row in GRIDS.iter() {
        is_refused(&rt, rt.alloc(), row)?;
    }
    Ok(())
}

#[test]
fn other_keys_are_refused(rt: HostRuntime) -> Result<(), ArrayMetadataError> {
    for row in OTHERS.iter() {
        is_refused(&rt, rt.alloc(), row)?;
    }
    Ok(())
}

#[test]
fn unknown_keys_are_refused(rt: HostRuntime) -> Result<(), ArrayMetadataError> {
    for row in UNKNOWN.iter() {
        is_refused(&rt, rt.alloc(), row)?;
    }
    Ok(())
}

/// A whole text, the name of the error, and its key where it has one.
struct Text {
    text: &'static str,
    name: &'static str,
    key: Option<&'static str>,
}

const TEXTS: &'static [Text] = &[
    Text {
        text: "{",
        name: "NotJson",
        key: None,
    },
    Text {
        text: "[]",
        name: "NotAnObject",
        key: None,
    },
    Text {
        text: "{}",
        name: "UnsupportedFormat",
        key: Some("zarr_format"),
    },
    Text {
        text: r#"{"zarr_format":3,"node_type":"array","codecs":[]}"#,
        name: "MissingKey",
        key: Some("shape"),
    },
    Text {
        text: r#"{"zarr_format":3,"node_type":"array","shape":5}"#,
        name: "MissingKey",
        key: Some("data_type"),
    },
    Text {
        text: r#"{"zarr_format":3,"node_type":"array","shape":5,"data_type":5,"chunk_grid":5,"chunk_key_encoding":5,"codecs":[]}"#,
        name: "MissingKey",
        key: Some("fill_value"),
    },
];

fn is_no_array(rt: &impl Abort, alloc: Global, row: &Text) -> Result<(), ArrayMetadataError> {
    let came = ArrayMetadataV3::from_json(alloc, row.text);
    refuses(rt, row.text, came, row.name, row.key)
}

#[test]
fn texts_are_refused(rt: HostRuntime) -> Result<(), ArrayMetadataError> {
    for row in TEXTS.iter() {
        is_no_array(&rt, rt.alloc(), row)?;
    }
    Ok(())
}
