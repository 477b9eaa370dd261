//! An `optional` made from its configuration and from metadata.
ghost use Rattle.zarrs_chain.specs.Making.{MakesOptional, CreatesOptional};

use crate::metadata::make_chain::{optional_create, optional_from};
use crate::optional::optional_codec::OptionalCodec;
use std::alloc::Global;
use zarrs_codec::BytesCodecMaker;
use zarrs_metadata::{MetadataV3, OptionalCodecConfiguration, PluginCreateError};

impl<B: Drop> OptionalCodec<B> {
    /// The codec of a configuration, the bytes-to-bytes codecs of the chains inside made by
    /// `maker`. Errors, the first that holds, `OutOfMemory` aside: those of the mask chain, those
    /// of the data chain, as `CodecChain::from_metadata` answers them.
    pub fn new_with_configuration<M: BytesCodecMaker<B>>(
        alloc: Global,
        configuration: &OptionalCodecConfiguration,
        maker: &M,
    ) -> Result<OptionalCodec<B>, PluginCreateError>
        ensures answer { MakesOptional (M.makes maker.now) configuration.now result }
    {
        optional_from(alloc, configuration, maker)
    }

    /// The codec of a metadata, whose name is `zarrs.optional`, `optional` or
    /// `https://codec.zarrs.dev/array_to_bytes/optional` (codec.zarrs.dev), the bytes-to-bytes
    /// codecs of the chains inside made by `maker`. A missing configuration is read as one without
    /// members. Errors, the first that holds, `OutOfMemory` aside: `UnknownName` for another name;
    /// those of `OptionalCodecConfiguration::from_configuration`; those of the mask chain; those of
    /// the data chain.
    pub fn create<M: BytesCodecMaker<B>>(
        alloc: Global,
        metadata: &MetadataV3,
        maker: &M,
    ) -> Result<OptionalCodec<B>, PluginCreateError>
        ensures answer { CreatesOptional (M.makes maker.now) metadata.now result }
    {
        optional_create(alloc, metadata, maker)
    }
}
