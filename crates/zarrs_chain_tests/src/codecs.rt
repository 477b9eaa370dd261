//! The codecs of texts, of elements that may be absent and of inner chunks, each made by itself, and the
//! name and the configuration that it has. Chains make them by other calls.

use crate::checks::is;
use std::alloc::Global;
use std::process::Abort;
use zarrs_chain::{OptionalCodec, ShardingCodec, VlenCodec};
use zarrs_codec::{CodecTraits, SampleBytesCodec, SampleMaker};
use zarrs_json::{Refusal, tree};
use zarrs_metadata::{
    MetadataV3, OptionalCodecConfiguration, PluginCreateError, ShardingCodecConfiguration,
    VlenCodecConfiguration,
};

/// `vlen` where nothing else is asked for.
const DEFAULT: &'static str =
    r#"{"configuration":{"data_codecs":[{"configuration":{},"name":"bytes"}],"index_codecs":[{"configuration":{"endian":"little"},"name":"bytes"}],"index_data_type":"uint64","index_location":"start"},"name":"zarrs.vlen"}"#;

/// `vlen` with short offsets and with codecs of bytes, by its other name.
const SHORT: &'static str =
    r#"{"name":"https://codec.zarrs.dev/array_to_bytes/vlen","configuration":{"index_codecs":["endian","sample.reverse"],"data_codecs":["bytes","sample.length"],"index_data_type":"uint32"}}"#;

const SHORT_WRITTEN: &'static str =
    r#"{"configuration":{"data_codecs":[{"configuration":{},"name":"bytes"},"sample.length"],"index_codecs":[{"configuration":{},"name":"bytes"},"sample.reverse"],"index_data_type":"uint32","index_location":"start"},"name":"zarrs.vlen"}"#;

/// `optional` by one of its other names.
const OPTIONAL: &'static str =
    r#"{"name":"https://codec.zarrs.dev/array_to_bytes/optional","configuration":{"mask_codecs":["bytes","sample.reverse"],"data_codecs":["bytes","sample.length"]}}"#;

const OPTIONAL_WRITTEN: &'static str =
    r#"{"configuration":{"data_codecs":[{"configuration":{},"name":"bytes"},"sample.length"],"mask_codecs":[{"configuration":{},"name":"bytes"},"sample.reverse"]},"name":"zarrs.optional"}"#;

/// `sharding_indexed` whose index stands where it does if nothing is asked for.
const SHARD: &'static str =
    r#"{"name":"sharding_indexed","configuration":{"chunk_shape":[2,4],"codecs":["bytes","sample.length"],"index_codecs":["endian","sample.reverse"]}}"#;

const SHARD_WRITTEN: &'static str =
    r#"{"configuration":{"chunk_shape":[2,4],"codecs":[{"configuration":{},"name":"bytes"},"sample.length"],"index_codecs":[{"configuration":{},"name":"bytes"},"sample.reverse"],"index_location":"end"},"name":"sharding_indexed"}"#;

fn metadata(alloc: Global, text: &str) -> Result<MetadataV3, Refusal> {
    let tree = tree(alloc, text.as_bytes())?;
    Ok(MetadataV3::from_value(alloc, &tree)?)
}

/// The metadata of a codec that has a name and a configuration.
fn written<C: CodecTraits>(alloc: Global, codec: &C) -> Result<MetadataV3, PluginCreateError> {
    let name = codec.name_v3().ok_or(PluginCreateError::UnknownName)?;
    let configuration = codec
        .configuration(alloc)?
        .ok_or(PluginCreateError::InvalidConfiguration)?;
    MetadataV3::new_with_configuration(alloc, name, configuration)
}

fn text(alloc: Global, metadata: &MetadataV3) -> Result<String, PluginCreateError> {
    let tree = metadata.to_value(alloc)?;
    Ok(tree.to_string(alloc)?)
}

fn has_text(
    rt: &impl Abort,
    alloc: Global,
    metadata: &MetadataV3,
    wanted: &str,
) -> Result<(), PluginCreateError> {
    let text = text(alloc, metadata)?;
    is(rt, wanted, &text.as_str(), &wanted);
    Ok(())
}

/// The codec has this metadata.
fn is_written<C: CodecTraits>(
    rt: &impl Abort,
    alloc: Global,
    codec: &C,
    wanted: &str,
) -> Result<(), PluginCreateError> {
    let metadata = written(alloc, codec)?;
    has_text(rt, alloc, &metadata, wanted)
}

fn default_vlen(alloc: Global) -> Result<VlenCodec<SampleBytesCodec>, Refusal> {
    Ok(VlenCodec::new_default(alloc)?)
}

#[test]
fn vlen_has_a_default(rt: HostRuntime) -> Result<(), Refusal> {
    let codec = default_vlen(rt.alloc())?;
    Ok(is_written(&rt, rt.alloc(), &codec, DEFAULT)?)
}

fn makes_vlen(
    rt: &impl Abort,
    alloc: Global,
    metadata: &MetadataV3,
) -> Result<(), PluginCreateError> {
    let codec = VlenCodec::create(alloc, metadata, &SampleMaker)?;
    is_written(rt, alloc, &codec, SHORT_WRITTEN)
}

fn configures_vlen(
    rt: &impl Abort,
    alloc: Global,
    metadata: &MetadataV3,
) -> Result<(), PluginCreateError> {
    let members = metadata
        .configuration()
        .ok_or(PluginCreateError::InvalidConfiguration)?;
    let settings = VlenCodecConfiguration::from_configuration(alloc, members)?;
    let codec = VlenCodec::new_with_configuration(alloc, &settings, &SampleMaker)?;
    is_written(rt, alloc, &codec, SHORT_WRITTEN)
}

#[test]
fn vlen_is_made(rt: HostRuntime) -> Result<(), Refusal> {
    let metadata = metadata(rt.alloc(), SHORT)?;
    makes_vlen(&rt, rt.alloc(), &metadata)?;
    Ok(configures_vlen(&rt, rt.alloc(), &metadata)?)
}

fn makes_optional(
    rt: &impl Abort,
    alloc: Global,
    metadata: &MetadataV3,
) -> Result<(), PluginCreateError> {
    let codec = OptionalCodec::create(alloc, metadata, &SampleMaker)?;
    is_written(rt, alloc, &codec, OPTIONAL_WRITTEN)
}

fn configures_optional(
    rt: &impl Abort,
    alloc: Global,
    metadata: &MetadataV3,
) -> Result<(), PluginCreateError> {
    let members = metadata
        .configuration()
        .ok_or(PluginCreateError::InvalidConfiguration)?;
    let settings = OptionalCodecConfiguration::from_configuration(alloc, members)?;
    let codec = OptionalCodec::new_with_configuration(alloc, &settings, &SampleMaker)?;
    is_written(rt, alloc, &codec, OPTIONAL_WRITTEN)
}

#[test]
fn optional_is_made(rt: HostRuntime) -> Result<(), Refusal> {
    let metadata = metadata(rt.alloc(), OPTIONAL)?;
    makes_optional(&rt, rt.alloc(), &metadata)?;
    Ok(configures_optional(&rt, rt.alloc(), &metadata)?)
}

fn makes_shards(
    rt: &impl Abort,
    alloc: Global,
    metadata: &MetadataV3,
) -> Result<(), PluginCreateError> {
    let codec = ShardingCodec::create(alloc, metadata, &SampleMaker)?;
    is_written(rt, alloc, &codec, SHARD_WRITTEN)
}

fn configures_shards(
    rt: &impl Abort,
    alloc: Global,
    metadata: &MetadataV3,
) -> Result<(), PluginCreateError> {
    let members = metadata
        .configuration()
        .ok_or(PluginCreateError::InvalidConfiguration)?;
    let settings = ShardingCodecConfiguration::from_configuration(alloc, members)?;
    let codec = ShardingCodec::new_with_configuration(alloc, &settings, &SampleMaker)?;
    is_written(rt, alloc, &codec, SHARD_WRITTEN)
}

#[test]
fn sharding_indexed_is_made(rt: HostRuntime) -> Result<(), Refusal> {
    let metadata = metadata(rt.alloc(), SHARD)?;
    makes_shards(&rt, rt.alloc(), &metadata)?;
    Ok(configures_shards(&rt, rt.alloc(), &metadata)?)
}
