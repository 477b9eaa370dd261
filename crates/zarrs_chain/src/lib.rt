//! Chains of codecs: array-to-array codecs, one array-to-bytes codec, bytes-to-bytes codecs.
//!
//! [`CodecChain`] encodes and decodes whole chunks, and [`reencode`] takes a value of one chain to
//! another. The bytes-to-bytes codecs are the caller's. What reads and writes a chunk in part
//! stands on this crate and goes through the chain by its [`stages`].
#![tactic(auto)]

mod array_to_bytes;
mod array_to_bytes_codec;
mod bytes_decode;
mod codec_chain;
mod decode;
mod encode;
mod form;
pub mod laws;
mod metadata;
pub mod moved_into;
mod optional;
pub mod reencode;
mod representation;
mod sharding;
pub mod stages;
mod vlen;

pub use array_to_bytes_codec::ArrayToBytesCodec;
pub use codec_chain::CodecChain;
pub use metadata::chain_json_error::ChainJsonError;
pub use optional::optional_codec::OptionalCodec;
pub use sharding::sharding_codec::ShardingCodec;
pub use vlen::vlen_codec::VlenCodec;
