//! The array-to-bytes codecs `vlen-utf8` and `vlen-bytes`: the number of a chunk's elements, and then
//! each behind its length (zarr-extensions codecs `vlen-utf8` and `vlen-bytes`).
//!
//! [`VlenV2Codec`] encodes and decodes whole chunks.
#![tactic(auto)]

mod array_to_bytes;
pub mod laws;
mod metadata;
mod prefixed_values;
mod vlen_v2_codec;

pub use vlen_v2_codec::{VLEN_BYTES, VLEN_UTF8, VlenV2Codec};
