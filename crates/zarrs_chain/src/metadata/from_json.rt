//! Chains made from JSON, as an array's metadata lists their codecs.
ghost use Rattle.std.specs.Prelude.{ok_or};
ghost use Rattle.serde_json.specs.Read.{read};
ghost use Rattle.serde_json.specs.View.{view, items_view};
ghost use Rattle.zarrs_chunk.specs.Answer.{Answers};
ghost use Rattle.zarrs_metadata.specs.MetadataV3.{metadatas_in};
ghost use Rattle.zarrs_metadata.specs.PluginCreateError.{Makes};
ghost use Rattle.zarrs_chain.specs.ChainJson.{json_memory, metadatas_shown, chain_shown, chain_in_text};
ghost use Rattle.zarrs_chain.specs.ChainView.{plain_chain};

use crate::codec_chain::CodecChain;
use crate::metadata::chain_json_error::ChainJsonError;
use serde_json::Value;
use std::alloc::{AllocError, Global};
use zarrs_codec::BytesCodecMaker;
use zarrs_metadata::{MetadataV3, PluginCreateError};

fn read_tree(alloc: Global, text: &str) -> Result<Value, ChainJsonError>
    ensures answer { Answers json_memory view result (ok_or (read text.now) ChainJsonError.NotJson) }
{
    match Value::from_str(alloc, text) {
        Ok(tree) => Ok(tree),
        Err(error) => {
            if error.is_memory() {
                Err(AllocError.into())
            } else {
                Err(ChainJsonError::NotJson)
            }
        }
    }
}

fn read_metadatas(alloc: Global, items: &Vec<Value>) -> Result<Vec<MetadataV3>, PluginCreateError>
    ensures answer { Makes metadatas_in result (metadatas_shown (items_view items.now.items)) }
{
    let mut metadatas = Vec::with_capacity(alloc, items.len())?;
    for item in items {
        metadatas.push(MetadataV3::from_value(alloc, item)?)?;
    }
    Ok(metadatas)
}

impl<B: Drop> CodecChain<B> {
    /// The chain of a JSON list of metadata, as `codecs` of an array's metadata is one. Each entry is
    /// read before a codec is made.
    ///
    /// Errors, the first that holds: `NotAList`; in `Create` those of `MetadataV3::from_value`,
    /// of the first entry that is no metadata, wherever it stands; those of
    /// `CodecChain::from_metadata`; `OutOfMemory` at any time.
    pub fn from_value<M: BytesCodecMaker<B>>(
        alloc: Global,
        tree: &Value,
        maker: &M,
    ) -> Result<CodecChain<B>, ChainJsonError>
        ensures answer { Answers json_memory plain_chain result
            (chain_shown (M.makes maker.now) (view tree.now)) }
    {
        let Value::Array(items) = tree else {
            return Err(ChainJsonError::NotAList);
        };
        let metadatas = read_metadatas(alloc, items)?;
        Ok(CodecChain::from_metadata(alloc, metadatas.as_slice(), maker)?)
    }

    /// The chain that a text lists in JSON, as `serde_json` reads it: of values of one key in an
    /// object the last one stands, and lists and objects in each other are 127 deep at most.
    ///
    /// Errors, the first that holds: `NotJson`; those of `from_value`.
    pub fn from_json<M: BytesCodecMaker<B>>(
        alloc: Global,
        text: &str,
        maker: &M,
    ) -> Result<CodecChain<B>, ChainJsonError>
        ensures answer { Answers json_memory plain_chain result
            (chain_in_text (M.makes maker.now) text.now) }
    {
        let tree = read_tree(alloc, text)?;
        CodecChain::from_value(alloc, &tree, maker)
    }
}
