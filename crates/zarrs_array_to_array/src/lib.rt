//! Codecs that move the elements of a chunk: `transpose` (Zarr v3), `reshape` (zarr-extensions) and
//! `squeeze` (codec.zarrs.dev).
//!
//! Each is a coordinate map: every element of a chunk goes to a place of its own in the encoded
//! chunk. [`encoded_places`] returns where through several codecs, one after another.
#![tactic(auto)]

mod array_to_array_codec;
mod array_to_array_codec_partial;
mod boxes;
mod encoded_boxes;
pub mod laws;
mod metadata;
mod moved_into;
mod reshape;
mod squeeze;
mod transpose;

pub use array_to_array_codec::{ArrayToArrayCodec, encoded_places};
pub use array_to_array_codec_partial::ArrayToArrayCodecPartial;
pub use encoded_boxes::keep_places;
pub use moved_into::copy_elements;
pub use reshape::reshape_codec::{RESHAPE, ReshapeCodec};
pub use reshape::reshape_codec_partial::ReshapeCodecPartial;
pub use squeeze::squeeze_codec::{SQUEEZE, SqueezeCodec, squeezed_subset};
pub use squeeze::squeeze_codec_partial::SqueezeCodecPartial;
pub use transpose::strides::permute;
pub use transpose::transpose_codec::{TRANSPOSE, TransposeCodec, transpose_elements};
pub use transpose::transpose_codec_partial::TransposeCodecPartial;
