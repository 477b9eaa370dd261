//! Chains made from lists of metadata. A chain is made codec by codec, and some codecs have chains
//! inside, whose metadata stand in their configurations: the functions call each other, each time
//! for metadata that are less deep.
ghost use Rattle.std.specs.Prelude.{◌≡◌, ◌||◌, if◌then◌else◌, Ok, Err};
ghost use Rattle.zarrs_metadata.specs.MetadataV3.{metadata_seen};
ghost use Rattle.zarrs_metadata.specs.PluginCreateError.{plugin_memory, Makes};
ghost use Rattle.zarrs_chain.specs.ChainView.{plain_vlen, plain_optional, plain_sharding, vlen_of, optional_of, sharding_of};
ghost use Rattle.zarrs_chain_meaning.specs.MadeChain.{asked_maker, joined_by};
ghost use Rattle.zarrs_chain.specs.ChainParts.{made_seen, parts_seen};
ghost use Rattle.zarrs_chain.specs.Making.{MakesChainOf, MakesVlen, MakesOptional, MakesSharding, CreatesVlen, CreatesOptional, CreatesSharding};

use crate::array_to_bytes_codec::codec_from;
use crate::codec_chain::CodecChain;
use crate::metadata::chain_parts::{ChainParts, MadeCodec};
use crate::optional::optional_codec::OptionalCodec;
use crate::sharding::sharding_codec::ShardingCodec;
use crate::vlen::vlen_codec::VlenCodec;
use std::alloc::Global;
use zarrs_chain_meaning::optional::configuration::{
    mask_codecs, optional_configuration, present_codecs,
};
use zarrs_chain_meaning::sharding::configuration::{
    inner_codecs, inner_shape, shard_index_codecs, shard_index_location, sharding_configuration,
};
use zarrs_chain_meaning::vlen::configuration::{
    data_codecs, index_codecs, index_data_type, index_location, vlen_configuration,
};
use zarrs_chunk::ChunkShape;
use zarrs_codec::BytesCodecMaker;
use zarrs_metadata::{
    MetadataV3, OptionalCodecConfiguration, PluginCreateError, ShardingCodecConfiguration,
    ShardingIndexLocation, VlenCodecConfiguration, VlenIndexDataType, VlenIndexLocation,
};

/// The codec `vlen` with these chains in boxes. Errors: `OutOfMemory`.
fn boxed_vlen<B: Drop>(
    alloc: Global,
    index: CodecChain<B>,
    content: CodecChain<B>,
    index_data_type: VlenIndexDataType,
    location: VlenIndexLocation,
) -> Result<VlenCodec<B>, PluginCreateError>
    ensures made { Makes plain_vlen result
        (Ok (vlen_of index content index_data_type location)) }
{
    let index = Box::new(alloc, index)?;
    let content = Box::new(alloc, content)?;
    Ok(VlenCodec::new(index, content, index_data_type, location))
}

/// The codec `optional` with these chains in boxes. Errors: `OutOfMemory`.
fn boxed_optional<B: Drop>(
    alloc: Global,
    mask: CodecChain<B>,
    content: CodecChain<B>,
) -> Result<OptionalCodec<B>, PluginCreateError>
    ensures made { Makes plain_optional result (Ok (optional_of mask content)) }
{
    let mask = Box::new(alloc, mask)?;
    let content = Box::new(alloc, content)?;
    Ok(OptionalCodec::new(mask, content))
}

/// The codec `sharding_indexed` with these chains in boxes. Errors: `OutOfMemory`.
fn boxed_sharding<B: Drop>(
    alloc: Global,
    chunk_shape: ChunkShape,
    inner: CodecChain<B>,
    index: CodecChain<B>,
    location: ShardingIndexLocation,
) -> Result<ShardingCodec<B>, PluginCreateError>
    ensures made { Makes plain_sharding result (Ok (sharding_of chunk_shape inner index location)) }
{
    let inner = Box::new(alloc, inner)?;
    let index = Box::new(alloc, index)?;
    Ok(ShardingCodec::new(chunk_shape, inner, index, location))
}

/// The codec `vlen` of a configuration. Errors, the first that holds, `OutOfMemory` aside: those of
/// the index chain, those of the data chain.
#[cycle(make)]
pub(crate) fn vlen_from<B: Drop, M: BytesCodecMaker<B>>(
    alloc: Global,
    configuration: &VlenCodecConfiguration,
    maker: &M,
) -> Result<VlenCodec<B>, PluginCreateError>
    ensures answer { MakesVlen (M.makes maker.now) configuration.now result }
{
    let index = chain_from(alloc, index_codecs(configuration), maker)?;
    let content = chain_from(alloc, data_codecs(configuration), maker)?;
    boxed_vlen(
        alloc,
        index,
        content,
        index_data_type(configuration),
        index_location(configuration),
    )
}

/// The codec `optional` of a configuration. Errors, the first that holds, `OutOfMemory` aside:
/// those of the mask chain, those of the data chain.
#[cycle(make)]
pub(crate) fn optional_from<B: Drop, M: BytesCodecMaker<B>>(
    alloc: Global,
    configuration: &OptionalCodecConfiguration,
    maker: &M,
) -> Result<OptionalCodec<B>, PluginCreateError>
    ensures answer { MakesOptional (M.makes maker.now) configuration.now result }
{
    let mask = chain_from(alloc, mask_codecs(configuration), maker)?;
    let content = chain_from(alloc, present_codecs(configuration), maker)?;
    boxed_optional(alloc, mask, content)
}

/// The codec `sharding_indexed` of a configuration. Errors, the first that holds, `OutOfMemory`
/// aside: those of the inner chain, those of the index chain.
#[cycle(make)]
pub(crate) fn sharding_from<B: Drop, M: BytesCodecMaker<B>>(
    alloc: Global,
    configuration: &ShardingCodecConfiguration,
    maker: &M,
) -> Result<ShardingCodec<B>, PluginCreateError>
    ensures answer { MakesSharding (M.makes maker.now) configuration.now result }
{
    let inner = chain_from(alloc, inner_codecs(configuration), maker)?;
    let index = chain_from(alloc, shard_index_codecs(configuration), maker)?;
    let shape = inner_shape(alloc, configuration)?;
    let location = shard_index_location(configuration);
    boxed_sharding(alloc, shape, inner, index, location)
}

/// The codec `vlen` of a metadata. Errors: those of `VlenCodec::create`.
#[cycle(make)]
pub(crate) fn vlen_create<B: Drop, M: BytesCodecMaker<B>>(
    alloc: Global,
    metadata: &MetadataV3,
    maker: &M,
) -> Result<VlenCodec<B>, PluginCreateError>
    ensures answer { CreatesVlen (M.makes maker.now) metadata.now result }
{
    let configuration = vlen_configuration(alloc, metadata)?;
    vlen_from(alloc, &configuration, maker)
}

/// The codec `optional` of a metadata. Errors: those of `OptionalCodec::create`.
#[cycle(make)]
pub(crate) fn optional_create<B: Drop, M: BytesCodecMaker<B>>(
    alloc: Global,
    metadata: &MetadataV3,
    maker: &M,
) -> Result<OptionalCodec<B>, PluginCreateError>
    ensures answer { CreatesOptional (M.makes maker.now) metadata.now result }
{
    let configuration = optional_configuration(alloc, metadata)?;
    optional_from(alloc, &configuration, maker)
}

/// The codec `sharding_indexed` of a metadata. Errors: those of `ShardingCodec::create`.
#[cycle(make)]
pub(crate) fn sharding_create<B: Drop, M: BytesCodecMaker<B>>(
    alloc: Global,
    metadata: &MetadataV3,
    maker: &M,
) -> Result<ShardingCodec<B>, PluginCreateError>
    ensures answer { CreatesSharding (M.makes maker.now) metadata.now result }
{
    let configuration = sharding_configuration(alloc, metadata)?;
    sharding_from(alloc, &configuration, maker)
}

/// What the maker makes of a metadata. Errors: `UnknownName` where it makes nothing; its own.
pub(crate) fn asked<B: Drop, M: BytesCodecMaker<B>>(
    alloc: Global,
    metadata: &MetadataV3,
    maker: &M,
) -> Result<MadeCodec<B>, PluginCreateError>
    ensures answer { Makes made_seen result
        (asked_maker (M.makes maker.now (metadata_seen metadata.now))) }
{
    match maker.make(alloc, metadata) {
        Ok(Some(codec)) => Ok(MadeCodec::Outer(codec)),
        Ok(None) => Err(PluginCreateError::UnknownName),
        Err(refusal) => Err(refusal),
    }
}

fn is_want_of_memory(refusal: PluginCreateError) -> bool
    ensures value { result ≡ plugin_memory refusal }
{
    matches!(refusal, PluginCreateError::OutOfMemory)
}

/// Where a codec can't be made, its metadata is passed over if it need not be understood. Lack of
/// memory says nothing of the metadata, so it is never passed over. Errors: this one.
fn pass_over(refusal: PluginCreateError, must_understand: bool) -> Result<(), PluginCreateError>
    ensures value { result ≡ if must_understand || plugin_memory refusal
        then Err refusal else Ok tt }
{
    if must_understand || is_want_of_memory(refusal) {
        return Err(refusal);
    }
    Ok(())
}

/// The codec of a metadata joins those of the list. Where none can be made, the metadata is passed
/// over if it need not be understood, for whatever cause but lack of memory. Errors, the first that
/// holds, `OutOfMemory` aside: those of the codec's construction; `MultipleArrayToBytes`.
#[cycle(make)]
fn join<B: Drop, M: BytesCodecMaker<B>>(
    alloc: Global,
    metadata: &MetadataV3,
    maker: &M,
    parts: &mut ChainParts<B>,
) -> Result<(), PluginCreateError>
    ensures answer { Makes (λ _. parts_seen parts.new) result
        (joined_by (M.makes maker.now) (metadata_seen metadata.now) (parts_seen parts.old)) }
{
    match codec_from(alloc, metadata, maker) {
        Ok(codec) => parts.add(codec),
        Err(refusal) => pass_over(refusal, metadata.must_understand()),
    }
}

/// The chain of a list of metadata. Errors: those of `CodecChain::from_metadata`.
#[cycle(make)]
pub(crate) fn chain_from<B: Drop, M: BytesCodecMaker<B>>(
    alloc: Global,
    metadatas: &[MetadataV3],
    maker: &M,
) -> Result<CodecChain<B>, PluginCreateError>
    ensures answer { MakesChainOf (M.makes maker.now) metadatas.now result }
{
    let mut parts = ChainParts::new(alloc);
    for metadata in metadatas {
        join(alloc, metadata, maker, &mut parts)?;
    }
    parts.into_chain()
}
