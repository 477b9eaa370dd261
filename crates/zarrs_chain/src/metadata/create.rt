//! Chains, and codecs with chains inside, made from configurations and metadata.
ghost use Rattle.zarrs_chain.specs.Making.{MakesChainOf};

use crate::codec_chain::CodecChain;
use crate::metadata::make_chain::chain_from;
use std::alloc::Global;
use zarrs_codec::BytesCodecMaker;
use zarrs_metadata::{MetadataV3, PluginCreateError};

impl<B: Drop> CodecChain<B> {
    /// The chain of a list of metadata. A name is looked up among those of the codecs here, else
    /// `maker` is asked. The codecs go by their kinds, and within a kind they keep their order. A
    /// metadata that no codec can be made of is passed over where it need not be understood, for
    /// whatever cause but lack of memory.
    ///
    /// Errors, the first in the list's order, `OutOfMemory` aside: `UnknownName` where neither the
    /// table nor the maker knows a name; those of a codec's construction; `MultipleArrayToBytes` for a
    /// second codec of chunks to bytes that could be made, also where it need not be understood;
    /// behind all of them `MissingArrayToBytes` where there is none.
    pub fn from_metadata<M: BytesCodecMaker<B>>(
        alloc: Global,
        metadatas: &[MetadataV3],
        maker: &M,
    ) -> Result<CodecChain<B>, PluginCreateError>
        ensures answer { MakesChainOf (M.makes maker.now) metadatas.now result }
    {
        chain_from(alloc, metadatas, maker)
    }
}
