//! The codec `bytes`: the elements of a chunk in row-major order, each component in a byte
//! order (Zarr v3 codec `bytes`).
//!
//! [`BytesCodec`] encodes and decodes whole chunks, [`BytesCodecPartial`] reads and writes a chunk
//! in part, over a storage handle.
#![tactic(auto)]

mod array_to_bytes;
mod batches;
mod bytes_codec;
mod bytes_codec_coders;
mod bytes_codec_partial;
pub mod laws;
mod metadata;
mod place_batches;
mod planned_runs;
mod write_runs;

pub use bytes_codec::{BYTES, BytesCodec};
pub use bytes_codec_partial::{BytesCodecPartial, fill_runs};
