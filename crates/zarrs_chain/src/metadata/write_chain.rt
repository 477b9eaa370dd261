//! The metadata that is written of chains.
ghost use Rattle.std.specs.Prelude.{◌≡◌, ◌++◌, Ok, map};
ghost use Rattle.zarrs_metadata.specs.MetadataV3.{metadata_seen, metadatas_in};
ghost use Rattle.zarrs_metadata.specs.PluginCreateError.{Makes};
ghost use Rattle.zarrs_array_to_array.specs.Mapping.{mapping_of};
ghost use Rattle.zarrs_chain.specs.ChainView.{plain_chain};
ghost use Rattle.zarrs_chain_meaning.specs.WrittenMetadata.{chain_metadatas as chain_metadatas_of};
ghost use Rattle.zarrs_chain_meaning.specs.MetadataFacts.{mapping_metadata};
ghost use Rattle.zarrs_chain.specs.Making.{WritesList};

use crate::array_to_bytes_codec::{codec_name, codec_written};
use crate::codec_chain::CodecChain;
use std::alloc::Global;
use zarrs_array_to_array::ArrayToArrayCodec;
use zarrs_codec::{BytesToBytesCodecTraits, CodecTraits};
use zarrs_metadata::{MetadataV3, PluginCreateError};

/// The metadata of an array-to-array codec. Errors: `OutOfMemory`.
fn array_metadata(alloc: Global, codec: &ArrayToArrayCodec) -> Result<MetadataV3, PluginCreateError>
    ensures answer { Makes metadata_seen result
        (Ok (mapping_metadata (mapping_of codec.now))) }
{
    let name = codec.name_v3().unwrap_or("");
    match codec.configuration(alloc)? {
        None => MetadataV3::new(alloc, name),
        Some(configuration) => MetadataV3::new_with_configuration(alloc, name, configuration),
    }
}

/// The metadata of array-to-array codecs, in order. Errors: `OutOfMemory`.
fn array_metadatas(
    alloc: Global,
    codecs: &[ArrayToArrayCodec],
) -> Result<Vec<MetadataV3>, PluginCreateError>
    ensures answer { WritesList result (map mapping_metadata (map mapping_of codecs.now)) }
{
    let mut list = Vec::with_capacity(alloc, codecs.len())?;
    for codec in codecs {
        list.push(array_metadata(alloc, codec)?)?;
    }
    Ok(list)
}

/// The metadata of bytes-to-bytes codecs, in order, behind those of the list. Errors:
/// `OutOfMemory`.
fn push_outer<B: BytesToBytesCodecTraits>(
    alloc: Global,
    codecs: &[B],
    list: &mut Vec<MetadataV3>,
) -> Result<(), PluginCreateError>
    ensures answer { Makes (λ _. metadatas_in list.new) result
        (Ok (metadatas_in list.old ++ map B.described codecs.now)) }
{
    for codec in codecs {
        list.push(codec.metadata(alloc)?)?;
    }
    Ok(())
}

/// The metadata of a chain's codecs, in the order in which they encode. Errors: `OutOfMemory`.
#[cycle(written)]
pub(crate) fn chain_written<B: BytesToBytesCodecTraits>(
    alloc: Global,
    chain: &CodecChain<B>,
) -> Result<Vec<MetadataV3>, PluginCreateError>
    ensures answer { WritesList result (chain_metadatas_of B.described (plain_chain chain.now)) }
{
    let mut list = array_metadatas(alloc, &chain.array_to_array)?;
    let name = codec_name(&chain.array_to_bytes);
    let configuration = codec_written(alloc, &chain.array_to_bytes)?;
    list.push(MetadataV3::new_with_configuration(alloc, name, configuration)?)?;
    push_outer(alloc, &chain.bytes_to_bytes, &mut list)?;
    Ok(list)
}
