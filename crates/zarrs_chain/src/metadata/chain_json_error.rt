//! Why JSON makes no chain.
ghost use Rattle.std.specs.Prelude.{◌≡◌};
ghost use Rattle.zarrs_chain.specs.declared.metadata.chain_json_error.ChainJsonError.TheVariants.{Create};
ghost use Rattle.zarrs_metadata.specs.declared.plugin_create_error.PluginCreateError.TheVariants.{OutOfMemory};

use std::alloc::AllocError;
use thiserror::Error;
use zarrs_metadata::PluginCreateError;

/// Why JSON makes no chain. Nothing in it is on the heap.
#[derive(Clone, Copy, Debug, PartialEq, Eq, Error)]
pub enum ChainJsonError {
    /// The text isn't JSON.
    #[error("the text isn't JSON")]
    NotJson,
    /// The JSON isn't a list of codecs.
    #[error("the JSON isn't a list of codecs")]
    NotAList,
    /// The list makes no chain, or an allocation failed.
    #[error(transparent)]
    Create(PluginCreateError),
}

impl From<PluginCreateError> for ChainJsonError {
    ghost from_gives = { λ cause error. error ≡ Create cause };

    fn from(cause: PluginCreateError) -> ChainJsonError {
        ChainJsonError::Create(cause)
    }
}

impl From<AllocError> for ChainJsonError {
    ghost from_gives = { λ _ error. error ≡ Create OutOfMemory };

    fn from(_cause: AllocError) -> ChainJsonError {
        ChainJsonError::Create(PluginCreateError::OutOfMemory)
    }
}
