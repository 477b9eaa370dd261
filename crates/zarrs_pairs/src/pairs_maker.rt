//! What makes the codec of pairs from metadata.
use crate::pairs_codec::PairsCodec;
use std::alloc::Global;
use zarrs_codec::BytesCodecMaker;
use zarrs_metadata::{MetadataV3, PluginCreateError};

/// What makes a codec of pairs by the name in its metadata, with any configuration. It knows no other
/// codec, and rejects nothing.
#[derive(Clone, Copy)]
pub struct PairsMaker<'t, 'p> {
    /// The codec that it makes.
    pub codec: PairsCodec<'t, 'p>,
}

impl<'t, 'p> BytesCodecMaker<PairsCodec<'t, 'p>> for PairsMaker<'t, 'p> {
    ghost use Rattle.zarrs_pairs.specs.PairsMetadata.{pairs_made};

    ghost makes = { λ maker metadata. pairs_made maker.codec metadata };

    fn make(
        &self,
        _alloc: Global,
        metadata: &MetadataV3,
    ) -> Result<Option<PairsCodec<'t, 'p>>, PluginCreateError> {
        if metadata.name() == self.codec.table.metadata.name() {
            return Ok(Some(self.codec));
        }
        Ok(None)
    }
}
