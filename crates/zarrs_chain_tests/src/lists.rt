//! Chains made from lists of metadata in JSON, and the lists that are written of them.

use crate::checks::is;
use crate::forms::chain;
use serde_json::Value;
use std::alloc::Global;
use std::process::Abort;
use zarrs_json::Refusal;
use zarrs_metadata::{MetadataV3, PluginCreateError};

/// A list that makes a chain, and the list that is written of the chain.
struct Row {
    name: &'static str,
    list: &'static str,
    written: &'static str,
}

const ROWS: &'static [Row] = &[
    Row {
        name: "codecs of chunks to chunks come first",
        list: r#"["bytes",{"name":"transpose","configuration":{"order":[1,0]}}]"#,
        written: r#"[{"configuration":{"order":[1,0]},"name":"transpose"},{"configuration":{},"name":"bytes"}]"#,
    },
    Row {
        name: "codecs of a kind keep their order",
        list: r#"["sample.length","bytes","sample.reverse","zarrs.squeeze"]"#,
        written: r#"[{"configuration":{},"name":"zarrs.squeeze"},{"configuration":{},"name":"bytes"},"sample.length","sample.reverse"]"#,
    },
    Row {
        name: "what is passed over isn't written",
        list: r#"[{"name":"gzip","must_understand":false},{"name":"endian","must_understand":false,"configuration":{"endian":"big","other":5}}]"#,
        written: r#"[{"configuration":{"endian":"big"},"name":"bytes"}]"#,
    },
    Row {
        name: "the index at the start where nothing is said",
        list: r#"[{"name":"https://codec.zarrs.dev/array_to_bytes/vlen","configuration":{"index_codecs":[{"name":"endian","configuration":{"endian":"little"}}],"data_codecs":["bytes"],"index_data_type":"uint64"}}]"#,
        written: r#"[{"configuration":{"data_codecs":[{"configuration":{},"name":"bytes"}],"index_codecs":[{"configuration":{"endian":"little"},"name":"bytes"}],"index_data_type":"uint64","index_location":"start"},"name":"zarrs.vlen"}]"#,
    },
    Row {
        name: "chains inside chains",
        list: r#"["sample.reverse",{"name":"optional","configuration":{"mask_codecs":["packbits"],"data_codecs":[{"name":"zarrs.optional","configuration":{"mask_codecs":["bytes"],"data_codecs":["sample.length","bytes"]}}]}}]"#,
        written: r#"[{"configuration":{"data_codecs":[{"configuration":{"data_codecs":[{"configuration":{},"name":"bytes"},"sample.length"],"mask_codecs":[{"configuration":{},"name":"bytes"}]},"name":"zarrs.optional"}],"mask_codecs":[{"configuration":{"first_bit":null,"last_bit":null,"padding_encoding":"none"},"name":"packbits"}]},"name":"zarrs.optional"},"sample.reverse"]"#,
    },
    Row {
        name: "reshape, and packbits of some bits",
        list: r#"[{"name":"reshape","configuration":{"shape":[[0,1],-1,[],10]}},{"name":"packbits","configuration":{"padding_encoding":"first_byte","first_bit":3,"last_bit":3}}]"#,
        written: r#"[{"configuration":{"shape":[[0,1],-1,[],10]},"name":"reshape"},{"configuration":{"first_bit":3,"last_bit":3,"padding_encoding":"first_byte"},"name":"packbits"}]"#,
    },
    Row {
        name: "lengths before bytes",
        list: r#"[{"name":"vlen-bytes","configuration":{"level":1}}]"#,
        written: r#"[{"configuration":{},"name":"vlen-bytes"}]"#,
    },
    Row {
        name: "inner chunks before their index where nothing is said",
        list: r#"[{"name":"sharding_indexed","configuration":{"chunk_shape":[2,4],"codecs":["vlen-utf8","sample.length"],"index_codecs":["endian","sample.reverse"]}}]"#,
        written: r#"[{"configuration":{"chunk_shape":[2,4],"codecs":[{"configuration":{},"name":"vlen-utf8"},"sample.length"],"index_codecs":[{"configuration":{},"name":"bytes"},"sample.reverse"],"index_location":"end"},"name":"sharding_indexed"}]"#,
    },
    Row {
        name: "inner chunks behind their index",
        list: r#"[{"name":"sharding_indexed","configuration":{"other":7,"index_location":"start","index_codecs":["bytes"],"codecs":["bytes"],"chunk_shape":[]}}]"#,
        written: r#"[{"configuration":{"chunk_shape":[],"codecs":[{"configuration":{},"name":"bytes"}],"index_codecs":[{"configuration":{},"name":"bytes"}],"index_location":"start"},"name":"sharding_indexed"}]"#,
    },
];

fn trees(alloc: Global, list: &[MetadataV3]) -> Result<Vec<Value>, PluginCreateError> {
    let mut trees = Vec::new(alloc);
    for metadata in list {
        trees.push(metadata.to_value(alloc)?)?;
    }
    Ok(trees)
}

/// What is written of the chain of a list.
fn written(alloc: Global, list: &str) -> Result<Value, Refusal> {
    let chain = chain(alloc, list)?;
    let list = chain.create_metadatas(alloc)?;
    Ok(Value::Array(trees(alloc, &list)?))
}

/// The tree is shown as this text.
fn is_shown(
    rt: &impl Abort,
    about: &str,
    alloc: Global,
    tree: &Value,
    wanted: &str,
) -> Result<(), Refusal> {
    let text = tree.to_string(alloc)?;
    is(rt, about, &text.as_str(), &wanted);
    Ok(())
}

fn is_written(rt: &impl Abort, alloc: Global, row: &Row) -> Result<(), Refusal> {
    let written = written(alloc, row.list)?;
    is_shown(rt, row.name, alloc, &written, row.written)
}

#[test]
fn lists_are_written_of_chains(rt: HostRuntime) -> Result<(), Refusal> {
    for row in ROWS {
        is_written(&rt, rt.alloc(), row)?;
    }
    Ok(())
}
