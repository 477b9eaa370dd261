//! Chains made from metadata, and the metadata that is written of them.

pub(crate) mod chain_json_error;
pub(crate) mod chain_parts;
pub(crate) mod codec_traits;
pub(crate) mod create;
pub(crate) mod from_json;
pub(crate) mod make_chain;
pub(crate) mod write_chain;
