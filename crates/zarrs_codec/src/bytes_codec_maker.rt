//! What makes bytes-to-bytes codecs of their metadata.
ghost use Rattle.std.specs.Prelude.{Option, Result};
ghost use Rattle.zarrs_metadata.specs.Metadata.{Metadata};
ghost use Rattle.zarrs_metadata.specs.declared.plugin_create_error.PluginCreateError.{PluginCreateError};
ghost use Rattle.zarrs_metadata.specs.MetadataV3.{metadata_seen};
ghost use Rattle.zarrs_metadata.specs.PluginCreateError.{Makes};

use std::alloc::Global;
use zarrs_metadata::{MetadataV3, PluginCreateError};

/// What makes codecs of bytes to bytes from metadata: the caller's own, for the names that it knows.
/// What it makes of a metadata is a function of the metadata, lack of memory aside.
pub trait BytesCodecMaker<B> {
    // What it makes of a metadata: a codec; none, where it doesn't know the name; or why it makes
    // none.
    ghost makes: { Self → Metadata → Result (Option B) PluginCreateError };

    /// The codec of a metadata; none where the name is unknown. Errors: the maker's own where the
    /// name is known; `OutOfMemory`.
    fn make(&self, alloc: Global, metadata: &MetadataV3) -> Result<Option<B>, PluginCreateError>
        ensures answer { Makes (λ made. made) result
            (makes self.now (metadata_seen metadata.now)) };
}
