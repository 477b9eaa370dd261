//! The array-to-bytes codec `packbits`: some bits of each component of a chunk's elements, packed
//! one behind another (zarr-extensions codec `packbits`).
//!
//! [`PackBitsCodec`] encodes and decodes whole chunks, [`PackBitsPartialDecoder`] reads a chunk in
//! part, over a storage handle.
#![tactic(auto)]

mod array_to_bytes;
mod bit_appends;
mod bit_places;
mod bit_writer;
mod blocks;
mod lanes;
pub mod laws;
mod layout;
mod metadata;
mod packbits_codec;
mod packbits_partial_decoder;
mod packed_values;
mod runs;
mod spread;
mod words;

pub use bit_places::div_rem_8bit;
pub use packbits_codec::{PACKBITS, PackBitsCodec};
pub use packbits_partial_decoder::PackBitsPartialDecoder;
