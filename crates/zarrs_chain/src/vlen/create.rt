//! A `vlen` made from its configuration and from metadata.
ghost use Rattle.zarrs_chain.specs.Making.{MakesVlen, CreatesVlen};

use crate::metadata::make_chain::{vlen_create, vlen_from};
use crate::vlen::vlen_codec::VlenCodec;
use std::alloc::Global;
use zarrs_codec::BytesCodecMaker;
use zarrs_metadata::{MetadataV3, PluginCreateError, VlenCodecConfiguration};

impl<B: Drop> VlenCodec<B> {
    /// The codec of a configuration, the bytes-to-bytes codecs of the chains inside made by
    /// `maker`; without a place of the index it stands at the start. Errors, the first that holds,
    /// `OutOfMemory` aside: those of the index chain, those of the data chain, as
    /// `CodecChain::from_metadata` answers them.
    pub fn new_with_configuration<M: BytesCodecMaker<B>>(
        alloc: Global,
        configuration: &VlenCodecConfiguration,
        maker: &M,
    ) -> Result<VlenCodec<B>, PluginCreateError>
        ensures answer { MakesVlen (M.makes maker.now) configuration.now result }
    {
        vlen_from(alloc, configuration, maker)
    }

    /// The codec of a metadata, whose name is `zarrs.vlen` or
    /// `https://codec.zarrs.dev/array_to_bytes/vlen` (codec.zarrs.dev), the bytes-to-bytes codecs
    /// of the chains inside made by `maker`. A missing configuration is read as one without
    /// members. Errors, the first that holds, `OutOfMemory` aside: `UnknownName` for another name;
    /// those of `VlenCodecConfiguration::from_configuration`; those of the index chain; those of
    /// the data chain.
    pub fn create<M: BytesCodecMaker<B>>(
        alloc: Global,
        metadata: &MetadataV3,
        maker: &M,
    ) -> Result<VlenCodec<B>, PluginCreateError>
        ensures answer { CreatesVlen (M.makes maker.now) metadata.now result }
    {
        vlen_create(alloc, metadata, maker)
    }
}
